//! Numbers of which many that follow each other are the same, as repeats.

ghost use Rattle.std.specs.Prelude.{◌≡◌, ◌+◌, ◌-◌, ◌*◌, ◌<◌, ◌≤◌, ◌++◌, [], IfOk, MatchOption, OnErr, OnOk, drop, length, replicate, reverse, slice_get, suc};
ghost use Rattle.line_diff.specs.Repeats.{numbers_in, numbers_of, row_numbers, stacked};

use std::alloc::{AllocError, Global};
use std::marker::Model;

/// A number, and how many more of it follow.
#[derive(Clone, Copy, Debug)]
pub struct Repeat {
    pub number: u64,
    pub more: usize,
}

/// Numbers to be read from the first on: so many of a number, and then repeats.
#[derive(Clone, Copy)]
pub struct Row<'a> {
    pub number: u64,
    pub count: usize,
    pub later: &'a [Repeat],
}

impl<'a> Row<'a> {
    /// Starts before these.
    pub(crate) fn new(repeats: &'a [Repeat]) -> Row<'a>
        ensures { row_numbers result ≡ numbers_in repeats.entry.now }
    {
        Row {
            number: 0,
            count: 0,
            later: repeats,
        }
    }

    /// Returns the numbers after so many, or none. Linear in the repeats that it passes.
    #[tactic(auto, using(crate::proofs::RepeatLemmas::drop_within, crate::proofs::RepeatLemmas::drop_past))]
    pub(crate) fn after(self, count: usize) -> Row<'a>
        ensures { row_numbers result ≡ drop count (row_numbers self.entry) }
    {
        if count < self.count {
            return Row {
                number: self.number,
                count: self.count - count,
                later: self.later,
            };
        }
        rest_after(self.later, count - self.count)
    }

    /// Returns the numbers from the place before a byte on, of a row of places and bytes.
    pub(crate) fn from_place(self, byte: usize) -> Row<'a>
        ensures { row_numbers result ≡ drop (2 * byte) (row_numbers self.entry) }
    {
        self.after(byte).after(byte)
    }

    /// Returns the first number, if there is one.
    #[tactic(auto, using(crate::proofs::RepeatLemmas::first_repeated, crate::proofs::RepeatLemmas::first_later))]
    pub(crate) fn first(self) -> Option<u64>
        ensures { result ≡ slice_get (row_numbers self.entry) 0 }
    {
        if self.count > 0 {
            return Some(self.number);
        }
        first_number(self.later)
    }
}

/// Returns the first number of repeats, if there is one.
#[tactic(auto, using(crate::proofs::RepeatLemmas::first_in))]
fn first_number(repeats: &[Repeat]) -> Option<u64>
    ensures { result ≡ slice_get (numbers_in repeats.now) 0 }
{
    match repeats.first() {
        Some(repeat) => Some(repeat.number),
        None => None,
    }
}

/// Returns the numbers of repeats after so many, or none.
#[tactic(auto, using(crate::proofs::RepeatLemmas::repeat_within, crate::proofs::RepeatLemmas::repeat_past, crate::proofs::RepeatLemmas::empty_numbers))]
fn rest_after(repeats: &[Repeat], count: usize) -> Row<'_>
    ensures { row_numbers result ≡ drop count (numbers_in repeats.entry.now) }
{
    let mut left = count;
    let mut later = repeats;
    while left > 0 {
        let Some((first, rest)) = later.split_first() else {
            return Row::new(later);
        };
        if first.more >= left - 1 {
            return Row {
                number: first.number,
                count: first.more - (left - 1),
                later: rest,
            };
        }
        left -= first.more + 1;
        later = rest;
    }
    Row::new(later)
}

/// Numbers that are added and removed at the front.
#[derive(Drop)]
pub(crate) struct Stack {
    // The last one is the first.
    repeats: Vec<Repeat>,
    len: usize,
}

impl Model for Stack {
    ghost use Rattle.std.specs.Prelude.{◌≡◌, List, ℕ, length};
    ghost use Rattle.line_diff.specs.Repeats.{stacked};

    ghost Value = { List ℕ };

    ghost view = { λ s. stacked s.repeats.items };

    ghost invariant = { λ s. s.len ≡ length (stacked s.repeats.items) };
}

impl Stack {
    /// Starts without a number.
    pub(crate) fn new(alloc: Global) -> Stack
        ensures { result ≡ [] }
    {
        Stack {
            repeats: Vec::new(alloc),
            len: 0,
        }
    }

    /// Returns how many numbers there are.
    pub(crate) fn len(&self) -> usize
        ensures { result ≡ length self.now }
    {
        self.len
    }

    /// Returns the first number, and how many more of it follow it.
    fn first(&self) -> Option<Repeat>
        ensures { MatchOption result (self.now ≡ [])
            (λ first. self.now ≡ numbers_of first ++ drop (suc first.more) self.now) }
    {
        last_of(&self.repeats)
    }

    /// Adds a number so many times. Fails only where memory runs out; then nothing has changed.
    pub(crate) fn add(&mut self, number: u64, count: usize) -> Result<(), AllocError>
        ensures added { OnOk result (self.new ≡ replicate count number ++ self.old) }
        ensures unchanged { OnErr result (self.new ≡ self.old) }
    {
        if count == 0 {
            return Ok(());
        }
        let Some(len) = self.len.checked_add(count) else {
            return Err(AllocError);
        };
        push_repeat(&mut self.repeats, number, count)?;
        self.len = len;
        Ok(())
    }

    /// Removes so many numbers, or all. Linear in the repeats that are removed.
    pub(crate) fn remove(&mut self, count: usize)
        ensures { self.new ≡ drop count self.old }
    {
        remove_last(&mut self.repeats, count);
        self.len = self.len.saturating_sub(count);
    }

    /// Copies the repeats.
    pub(crate) fn repeats(&self, alloc: Global) -> Result<Vec<Repeat>, AllocError>
        ensures { IfOk result (λ repeats. stacked repeats.items ≡ self.now) }
    {
        Vec::from_slice(alloc, &self.repeats)
    }

    /// Copies all of it.
    pub(crate) fn copied(&self, alloc: Global) -> Result<Stack, AllocError>
        ensures { IfOk result (λ copy. copy ≡ self.now) }
    {
        Ok(Stack {
            repeats: Vec::from_slice(alloc, &self.repeats)?,
            len: self.len,
        })
    }
}

/// Returns the last repeat, if there is one.
fn last_of(repeats: &[Repeat]) -> Option<Repeat>
    ensures { MatchOption result (stacked repeats.now ≡ []) (λ last. stacked repeats.now
        ≡ numbers_of last ++ drop (suc last.more) (stacked repeats.now)) }
{
    match repeats.split_last() {
        Some((last, _rest)) => Some(*last),
        None => None,
    }
}

/// Appends a repeat of so many numbers. Fails only where memory runs out; then nothing has changed.
fn push_repeat(repeats: &mut Vec<Repeat>, number: u64, count: usize) -> Result<(), AllocError>
    requires { 0 < count }
    ensures added { OnOk result
        (stacked repeats.new.items ≡ replicate count number ++ stacked repeats.old.items) }
    ensures unchanged { OnErr result (repeats.new.items ≡ repeats.old.items) }
{
    repeats.push(Repeat {
        number,
        more: count - 1,
    })?;
    Ok(())
}

/// Removes so many numbers, or all, from the last repeat back.
fn remove_last(repeats: &mut Vec<Repeat>, count: usize)
    ensures { stacked repeats.new.items ≡ drop count (stacked repeats.old.items) }
{
    let mut left = count;
    while left > 0 {
        let Some((last, _rest)) = repeats.split_last() else {
            return;
        };
        let Repeat { number, more } = *last;
        let index = repeats.len() - 1;
        if more >= left {
            repeats[index] = Repeat {
                number,
                more: more - left,
            };
            return;
        }
        repeats.truncate(index);
        left -= more + 1;
    }
}

/// Returns how many numbers of a repeat with so many more are moved, at most so many.
fn up_to(more: usize, most: usize) -> usize
    ensures all { result ≤ more + 1 }
    ensures most { result ≤ most }
    ensures some { 0 < most → 0 < result }
{
    if more < most { more + 1 } else { most }
}

/// Moves the first numbers of a stack to another one: at most so many, and at least one if there is
/// one. Fails only where memory runs out; then nothing has changed.
pub(crate) fn shift(from: &mut Stack, to: &mut Stack, most: usize) -> Result<(), AllocError>
    ensures whole { reverse from.new ++ to.new ≡ reverse from.old ++ to.old }
    ensures most { OnOk result (length from.old - most ≤ length from.new) }
    ensures some { OnOk result (0 < most → 0 < length from.old → length from.new < length from.old) }
{
    let Some(first) = from.first() else {
        return Ok(());
    };
    let count = up_to(first.more, most);
    to.add(first.number, count)?;
    from.remove(count);
    Ok(())
}
