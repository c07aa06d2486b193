//! `Slots`, the entries in order of insertion, with what is left where some were removed.
//!
//! A removed entry leaves its key in its slot, so a removal takes no memory and moves nothing.
//! A key that comes back has to leave that slot: a text that is no key is inserted last, and
//! `swap_remove_index` moves it there. A key of an own type could say "none" without a text;
//! but a `&mut` into an `IndexMap` whose keys name a lifetime can't be returned.

ghost use Rattle.std.specs.Prelude.{◌≡◌, ◌^◌, ◌≤◌, ◌<◌, [], ◌∷◌, ◌++◌, Some, None, IsSome, IfSome, IfOk, OnOk, OnErr, filter, get_or, is_some, length, map, option_map, position, set, string_bytes};
ghost use Rattle.std.specs.Borrow.{Lends, sem};
ghost use Rattle.std.specs.Map.{keys_of, lookup};
ghost use Rattle.std.specs.Map.Iter.{deref_pair};
ghost use Rattle.std.specs.contracts.option.Option.{the_row as option_row};
ghost use Rattle.indexmap.specs.IndexMap.{spare};
ghost use Rattle.ordered_map.specs.Entries.{is_key, slot_entry};
ghost use Rattle.ordered_map.specs.inside.Slots.{IsOnly, has_key, vacated, with_value_in};

use indexmap::IndexMap;
use indexmap::map::Iter;
use std::alloc::{AllocError, Global};
use std::marker::Model;

/// Returns the entry of a slot.
pub(crate) fn slot_entry<'a, V>(
    key: &'a String,
    value: &'a Option<V>,
) -> Option<(&'a String, &'a V)>
    ensures { option_map deref_pair result ≡ slot_entry (key.now, value.now) }
{
    match value {
        Some(value) => Some((key, value)),
        None => None,
    }
}

/// Returns the value that is there, to be written.
fn value_there<V>(value: &mut Option<V>) -> &mut V
    requires { IsSome value.old }
    ensures* lends { sem 𝓛 (Lends (option_row V.row) V.row value.entry result
        (λ written. Some written)) }
    ensures value { value.old ≡ Some result.now }
{
    match value {
        Some(there) => there,
        None => unreachable!(),
    }
}

/// Returns the slot of a key, also where its entry was removed.
fn slot_of_key<V>(map: &IndexMap<String, Option<V>>, key: &str) -> Option<usize>
    ensures found { result ≡ position (is_key key.now) (keys_of map.now.entries) }
    ensures only { IfSome result (IsOnly key.now map.now.entries) }
{
    map.get_index_of(key)
}

/// Returns a text that is no key. It is a number after a null character, which no URI has, so the
/// first one does, but where keys are chosen to prevent that.
fn free_text<V>(map: &IndexMap<String, Option<V>>) -> Result<String, AllocError>
    ensures { IfOk result (λ text. position (is_key (string_bytes text))
        (keys_of map.now.entries) ≡ None) }
{
    for number in map.len()..usize::MAX {
        let text = format!(in *map.allocator(); "\0{number}")?;
        if slot_of_key(map, &text).is_none() {
            return Ok(text);
        }
    }
    Err(AllocError)
}

/// Puts a text that is no key in place of a key, without a value.
fn replace_key<V: Drop>(map: &mut IndexMap<String, Option<V>>, slot: usize, text: String)
    requires within { slot < length map.old.entries }
    requires free { position (is_key (string_bytes text)) (keys_of map.old.entries) ≡ None }
    requires room { 2 ≤ spare map.old }
    ensures slots { map.new.entries ≡ set map.old.entries slot (text, None) }
    ensures room { 1 ≤ spare map.new }
{
    map.insert(text, None).unwrap();
    map.swap_remove_index(slot);
}

/// Makes room for a key in a new slot: no slot has it any more, nor its entry. Fails only where
/// memory runs out, and then changes nothing.
fn free_key<V: Drop>(indexed: &mut IndexMap<String, Option<V>>, key: &str) -> Result<(), AllocError>
    ensures items { OnOk result (map slot_entry indexed.new.entries
        ≡ vacated (map slot_entry indexed.old.entries)
        (position (has_key key.now) (map slot_entry indexed.old.entries))) }
    ensures free { OnOk result (lookup (is_key key.now) indexed.new.entries ≡ None) }
    ensures room { OnOk result (1 ≤ spare indexed.new) }
    ensures unchanged { OnErr result (indexed.new.entries ≡ indexed.old.entries) }
{
    indexed.reserve(2)?;
    if let Some(slot) = slot_of_key(indexed, key) {
        let text = free_text(indexed)?;
        replace_key(indexed, slot, text);
    }
    Ok(())
}

/// The entries in order of insertion, each in a slot. The slot of a removed entry keeps its key,
/// without a value. Clauses see the entry of each slot.
#[derive(Debug, Drop)]
pub(crate) struct Slots<V> {
    indexed: IndexMap<String, Option<V>>,
}

impl<V> Model for Slots<V> {
    ghost use Rattle.std.specs.Prelude.{List, Option, String, map};
    ghost use Rattle.std.specs.declared.alloc.Global.{Global};
    ghost use Rattle.ordered_map.specs.Entries.{slot_entry};

    ghost Value = { List (Option (String Global × V)) };

    ghost view = { λ slots. map slot_entry slots.indexed.entries };
}

impl<V> Slots<V> {
    ghost use Rattle.ordered_map.specs.contracts.slots.Slots.{the_row};

    /// Returns slots without entries. Takes no memory.
    pub(crate) fn new(alloc: Global) -> Self
        ensures { result ≡ [] }
    {
        Slots {
            indexed: IndexMap::new(alloc),
        }
    }

    pub(crate) fn allocator(&self) -> &Global {
        self.indexed.allocator()
    }

    /// Returns the number of slots.
    pub(crate) fn len(&self) -> usize
        ensures len { result ≡ length self.now }
        ensures small { result < 2 ^ 63 }
    {
        self.indexed.len()
    }

    /// Returns the entry of a slot.
    pub(crate) fn entry(&self, slot: usize) -> Option<(&String, &V)>
        ensures { option_map deref_pair result ≡ get_or self.now slot None }
    {
        let (key, value) = self.indexed.get_index(slot)?;
        slot_entry(key, value)
    }

    /// Returns whether a slot has an entry.
    pub(crate) fn is_live(&self, slot: usize) -> bool
        ensures { result ≡ is_some (get_or self.now slot None) }
    {
        self.entry(slot).is_some()
    }

    /// Returns the slot of the entry of a key.
    pub(crate) fn find(&self, key: &str) -> Option<usize>
        ensures { result ≡ position (has_key key.now) self.now }
    {
        let slot = slot_of_key(&self.indexed, key)?;
        self.entry(slot)?;
        Some(slot)
    }

    /// Returns the slots in order.
    pub(crate) fn iter(&self) -> Iter<'_, String, Option<V>>
        ensures { map slot_entry result ≡ self.now }
    {
        self.indexed.iter()
    }

    /// Returns the value of the entry of a slot, to be written.
    pub(crate) fn value_mut(&mut self, slot: usize) -> &mut V
        requires live { IsSome (get_or self.old slot None) }
        ensures* lends { sem 𝓛 (Lends (the_row V.row) V.row self.entry result
            (with_value_in self.old slot)) }
        ensures value { option_map (λ entry. entry.1) (get_or self.old slot None)
            ≡ Some result.now }
    {
        value_there(&mut self.indexed[slot])
    }

    /// Takes the entry out of a slot, and returns its value.
    pub(crate) fn take(&mut self, slot: usize) -> Option<V>
        ensures value { result ≡ option_map (λ entry. entry.1) (get_or self.old slot None) }
        ensures slots { self.new ≡ set self.old slot None }
    {
        self.indexed.get_index_mut(slot)?.take()
    }
}

impl<V: Drop> Slots<V> {
    /// Puts an entry into a new slot after all others, and takes an entry of its key out of its
    /// slot, which it returns. Fails only where memory runs out, and then changes nothing.
    pub(crate) fn push(&mut self, key: String, value: V) -> Result<Option<usize>, AllocError>
        ensures was { IfOk result (λ was. was ≡ position (has_key (string_bytes key)) self.old) }
        ensures put { IfOk result (λ was. self.new
            ≡ vacated self.old was ++ Some (key, value) ∷ []) }
        ensures unchanged { OnErr result (self.new ≡ self.old) }
    {
        let was = self.find(&key);
        free_key(&mut self.indexed, &key)?;
        self.indexed.insert(key, Some(value)).unwrap();
        Ok(was)
    }

    /// Removes the slots without an entry. Takes no memory.
    pub(crate) fn pack(&mut self)
        ensures { self.new ≡ filter is_some self.old }
    {
        self.indexed.retain(
            |_key: &String, value: &mut Option<V>| -> bool
                ensures { (result ≡ is_some value.old) × (value.new ≡ value.old) }
            { value.is_some() },
        );
    }
}
