//! `OrderedMap`, the entries in slots, and how many slots of each block have one.

ghost use Rattle.std.specs.Prelude.{◌≡◌, ◌<◌, ◌≤◌, ◌+◌, ◌*◌, ◌++◌, ◌↔◌, [], ◌∷◌, Some, IsTrue, IfSome, IfNone, OnOk, OnErr, is_some, length, option_map, position, slice_get, string_bytes};
ghost use Rattle.std.specs.Borrow.{sem};
ghost use Rattle.std.specs.Map.{keys_of, lookup, lookup_key, remove_entry, values_of};
ghost use Rattle.std.specs.Map.Iter.{deref_pair};
ghost use Rattle.std.specs.Option.{option_copied, option_copied_mut};
ghost use Rattle.ordered_map.specs.Entries.{is_key};
ghost use Rattle.ordered_map.specs.inside.Slots.{AreCounted, IsOrderedMap, somes};

use crate::counts::{count_last, index_of, recount, slot_of, uncount};
use crate::iter::Iter;
use crate::slots::Slots;
use std::alloc::{AllocError, Global};
use std::marker::Model;

/// How many more slots may be vacant than have an entry.
pub const MAX_VACANT: usize = 64;

/// An `indexmap::IndexMap` with keys that are texts, which keeps its entries in order of insertion
/// and gives each an index. To remove an entry costs the same whichever it is.
///
/// A removed entry leaves a vacant slot, which keeps its key. Once more than [`MAX_VACANT`] more
/// slots are vacant than not, they are packed; that costs a few steps for each entry removed since
/// the last time. The map's memory stays its own.
///
/// Clauses see the list of the entries, in order of insertion, and the number of slots.
#[derive(Debug, Drop)]
pub struct OrderedMap<V> {
    slots: Slots<V>,
    // How many of each 256 slots have an entry.
    counts: Vec<usize>,
    // How many entries there are.
    live: usize,
}

impl<V> Model for OrderedMap<V> {
    ghost use Rattle.std.specs.Prelude.{filter_map, length};
    ghost use Rattle.ordered_map.specs.Entries.{Entries};
    ghost use Rattle.ordered_map.specs.inside.Slots.{IsOrderedMap, somes};

    ghost Value = { Entries V };

    ghost view = { λ ordered. record {
      entries = filter_map (λ item. item) ordered.slots;
      slots = length ordered.slots;
    } };

    ghost invariant = { λ ordered. IsOrderedMap ordered.slots ordered.counts.items ordered.live };
}

impl<V> OrderedMap<V> {
    ghost use Rattle.ordered_map.specs.Lends.{lends_get, lends_value};

    /// Returns a map without entries. Takes no memory.
    pub fn new(alloc: Global) -> Self
        ensures { result.entries ≡ [] }
    {
        OrderedMap {
            slots: Slots::new(alloc),
            counts: Vec::new(alloc),
            live: 0,
        }
    }

    /// Returns the map's allocator.
    pub fn allocator(&self) -> &Global {
        self.slots.allocator()
    }

    /// Returns the number of entries. Costs one step.
    pub fn len(&self) -> usize
        ensures { result ≡ length self.now.entries }
    {
        self.live
    }

    /// Returns whether there are no entries. Costs one step.
    pub fn is_empty(&self) -> bool
        ensures { IsTrue result ↔ (length self.now.entries ≡ 0) }
    {
        self.len() == 0
    }

    /// Returns the number of slots, of entries and vacant ones. It is at most [`MAX_VACANT`] more
    /// than twice the number of entries. Costs one step.
    #[tactic(auto, using(crate::proofs::SlotLemmas::somes_short))]
    pub fn slots(&self) -> usize
        ensures slots { result ≡ self.now.slots }
        ensures all { length self.now.entries ≤ result }
        ensures few { result ≤ 2 * length self.now.entries + 64 }
    {
        self.slots.len()
    }

    /// Returns whether there is an entry of a key. Costs a hash look-up.
    pub fn contains_key(&self, key: &str) -> bool
        ensures { result ≡ is_some (lookup (is_key key.now) self.now.entries) }
    {
        self.get(key).is_some()
    }

    /// Returns the value of a key. Costs a hash look-up.
    pub fn get(&self, key: &str) -> Option<&V>
        ensures value { option_copied result ≡ lookup (is_key key.now) self.now.entries }
    {
        let (_, value) = self.get_key_value(key)?;
        Some(value)
    }

    /// Returns the entry of a key. Costs a hash look-up.
    pub fn get_key_value(&self, key: &str) -> Option<(&String, &V)>
        ensures key { option_map (λ entry. entry.0.now) result
            ≡ lookup_key (is_key key.now) self.now.entries }
        ensures value { option_map (λ entry. entry.1.now) result
            ≡ lookup (is_key key.now) self.now.entries }
    {
        let slot = self.slots.find(key)?;
        self.slots.entry(slot)
    }

    /// Returns the entry of a key, with its index. Costs a hash look-up, and what
    /// [`OrderedMap::get_index`] costs.
    pub fn get_full(&self, key: &str) -> Option<(usize, &String, &V)>
        ensures index { option_map (λ entry. entry.0) result
            ≡ position (is_key key.now) (keys_of self.now.entries) }
        ensures key { option_map (λ entry. entry.1.now) result
            ≡ lookup_key (is_key key.now) self.now.entries }
        ensures value { option_map (λ entry. entry.2.now) result
            ≡ lookup (is_key key.now) self.now.entries }
        ensures entry { IfSome result (λ entry. slice_get self.now.entries entry.0
            ≡ Some (entry.1.now, entry.2.now)) }
    {
        let slot = self.slots.find(key)?;
        let (key, value) = self.slots.entry(slot)?;
        let index = index_of(&self.slots, &self.counts, self.live, slot);
        Some((index, key, value))
    }

    /// Returns the entry at an index, in order of insertion from 0. Costs one step where no slot is
    /// vacant, and else one for each 256 slots and at most 256.
    pub fn get_index(&self, index: usize) -> Option<(&String, &V)>
        ensures entry { option_map deref_pair result ≡ slice_get self.now.entries index }
    {
        let slot = slot_of(&self.slots, &self.counts, self.live, index)?;
        self.slots.entry(slot)
    }

    /// Returns the value at an index, to be written. Costs what [`OrderedMap::get_index`] costs.
    pub fn get_index_mut(&mut self, index: usize) -> Option<&mut V>
        ensures* writes_back { sem 𝓛 (lends_get V.row self.entry index result) }
        ensures value { option_copied_mut result ≡ slice_get (values_of self.old.entries) index }
    {
        if index < self.live {
            Some(self.value_mut(index))
        } else {
            None
        }
    }

    fn value_mut(&mut self, index: usize) -> &mut V
        requires { index < length self.old.entries }
        ensures* writes_back { sem 𝓛 (lends_value V.row self.entry index result) }
        ensures value { slice_get (values_of self.old.entries) index ≡ Some result.now }
    {
        let Some(slot) = slot_of(&self.slots, &self.counts, self.live, index) else {
            unreachable!()
        };
        self.slots.value_mut(slot)
    }

    /// Returns the entries in order of insertion. Each costs one step, and so does each vacant
    /// slot: there are at most [`MAX_VACANT`] more of them than entries.
    pub fn iter(&self) -> Iter<'_, V>
        ensures { result ≡ self.now.entries }
    {
        Iter::new(self.slots.iter(), self.live)
    }
}

impl<V: Drop> OrderedMap<V> {
    /// Inserts an entry after all others, in place of an entry of its key. Fails only where memory
    /// runs out, and then changes nothing. Costs a few hash look-ups.
    pub fn insert_last(&mut self, key: String, value: V) -> Result<(), AllocError>
        ensures inserted { OnOk result (self.new.entries
            ≡ remove_entry (is_key (string_bytes key)) self.old.entries ++ (key, value) ∷ []) }
        ensures unchanged { OnErr result (self.new ≡ self.old) }
    {
        self.counts.reserve(1)?;
        let len = self.slots.len();
        match self.slots.push(key, value)? {
            Some(slot) => uncount(&mut self.counts, slot),
            None => self.live += 1,
        }
        count_last(&mut self.counts, len);
        pack_if_sparse(&mut self.slots, &mut self.counts, self.live);
        Ok(())
    }

    /// Removes the entry of a key, and returns its value; the others keep their order. Takes no
    /// memory. Costs a hash look-up, and a few steps more for the packing of slots.
    pub fn remove(&mut self, key: &str) -> Option<V>
        ensures value { result ≡ lookup (is_key key.now) self.old.entries }
        ensures entries { self.new.entries ≡ remove_entry (is_key key.now) self.old.entries }
        ensures unchanged { IfNone result (self.new ≡ self.old) }
    {
        let slot = self.slots.find(key)?;
        let value = self.slots.take(slot);
        uncount(&mut self.counts, slot);
        self.live -= 1;
        pack_if_sparse(&mut self.slots, &mut self.counts, self.live);
        value
    }
}

/// Packs the slots, of which so many have an entry, if over [`MAX_VACANT`] more are vacant.
fn pack_if_sparse<V: Drop>(slots: &mut Slots<V>, counts: &mut [usize], live: usize)
    requires counted { AreCounted slots.old counts.old }
    requires live { live ≡ length (somes slots.old) }
    ensures packed { IsOrderedMap slots.new counts.new live }
    ensures entries { somes slots.new ≡ somes slots.old }
{
    let vacant = slots.len() - live;
    if vacant.saturating_sub(live) > MAX_VACANT {
        pack(slots, counts);
    }
}

/// Moves the entries into the first slots, in their order.
fn pack<V: Drop>(slots: &mut Slots<V>, counts: &mut [usize])
    requires { AreCounted slots.old counts.old }
    ensures full { length slots.new ≡ length (somes slots.old) }
    ensures counted { AreCounted slots.new counts.new }
    ensures entries { somes slots.new ≡ somes slots.old }
{
    slots.pack();
    recount(counts, slots.len());
}

impl<'a, V> IntoIterator for &'a OrderedMap<V> {
    type Item = (&'a String, &'a V);

    type IntoIter = Iter<'a, V>;

    ghost into_iter_gives = { λ ordered entries. entries ≡ ordered.now.entries };

    fn into_iter(self) -> Iter<'a, V> {
        self.iter()
    }
}
