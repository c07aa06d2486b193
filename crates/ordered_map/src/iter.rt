//! The entries of a map, one after another.

ghost use Rattle.std.specs.Prelude.{◌≡◌, length, map};
ghost use Rattle.std.specs.Iterator.{at_most};
ghost use Rattle.std.specs.Map.Iter.{TakesFirst, TakesLast, deref_pair};
ghost use Rattle.ordered_map.specs.Entries.{slot_entry};
ghost use Rattle.ordered_map.specs.inside.Slots.{somes};

use crate::slots::slot_entry;
use indexmap::map::Iter as SlotsIter;
use std::iter::FusedIterator;
use std::marker::Model;

/// The entries in order of insertion, as [`OrderedMap::iter`](crate::OrderedMap::iter) returns
/// them. Clauses see the list of the remaining entries.
#[derive(Debug, Drop)]
pub struct Iter<'a, V> {
    slots: SlotsIter<'a, String, Option<V>>,
    left: usize,
}

impl<'a, V> Model for Iter<'a, V> {
    ghost use Rattle.std.specs.Prelude.{◌≡◌, List, String, filter_map, length, map};
    ghost use Rattle.std.specs.declared.alloc.Global.{Global};
    ghost use Rattle.ordered_map.specs.Entries.{slot_entry};
    ghost use Rattle.ordered_map.specs.inside.Slots.{somes};

    ghost Value = { List (String Global × V) };

    ghost view = { λ iter. filter_map (λ item. item) (map slot_entry iter.slots) };

    ghost invariant = { λ iter. iter.left ≡ length (somes (map slot_entry iter.slots)) };
}

impl<'a, V> Iter<'a, V> {
    /// Returns the entries of slots, of which there are so many.
    pub(crate) fn new(slots: SlotsIter<'a, String, Option<V>>, left: usize) -> Self
        requires { left ≡ length (somes (map slot_entry slots)) }
        ensures { result ≡ somes (map slot_entry slots.entry) }
    {
        Iter { slots, left }
    }
}

impl<'a, V> Iterator for Iter<'a, V> {
    type Item = (&'a String, &'a V);

    ghost next_gives = { TakesFirst deref_pair };

    ghost remaining = { λ rest. at_most (length rest) };

    fn next(&mut self) -> Option<(&'a String, &'a V)> {
        while let Some((key, value)) = self.slots.next() {
            if let Some(entry) = slot_entry(key, value) {
                self.left -= 1;
                return Some(entry);
            }
        }
        None
    }

    fn size_hint(&self) -> (usize, Option<usize>) {
        (self.left, Some(self.left))
    }
}

impl<'a, V> DoubleEndedIterator for Iter<'a, V> {
    ghost next_back_gives = { TakesLast deref_pair };

    fn next_back(&mut self) -> Option<(&'a String, &'a V)> {
        while let Some((key, value)) = self.slots.next_back() {
            if let Some(entry) = slot_entry(key, value) {
                self.left -= 1;
                return Some(entry);
            }
        }
        None
    }
}

impl<'a, V> ExactSizeIterator for Iter<'a, V> {
    fn len(&self) -> usize {
        self.left
    }
}

impl<'a, V> FusedIterator for Iter<'a, V> {}
