//! The numbers of a text's places and bytes, while parts of the text are replaced.

ghost use Rattle.std.specs.Prelude.{◌≡◌, ◌+◌, ◌*◌, ◌++◌, IfOk, OnErr, OnOk, length, min, replicate, reverse};
ghost use Rattle.line_diff.specs.Owners.{all_spliced, spliced, with_places};
ghost use Rattle.line_diff.specs.Repeats.{numbers_in};

use crate::owners::Splice;
use crate::repeats::{Repeat, Stack, shift};
use std::alloc::{AllocError, Global};
use std::marker::Model;

/// Numbers, with a cut at the last change: one that is near costs little. A change adds at most two
/// repeats, of 16 bytes each.
#[derive(Drop)]
pub(crate) struct Numbers {
    // The first one is just before the cut.
    before: Stack,
    after: Stack,
}

impl Model for Numbers {
    ghost use Rattle.std.specs.Prelude.{List, ℕ, ◌++◌, reverse};

    ghost Value = { List ℕ };

    ghost view = { λ n. reverse n.before ++ n.after };
}

/// Returns twice a number. Fails where memory can't hold so many.
fn doubled(number: usize) -> Result<usize, AllocError>
    ensures { IfOk result (λ double. double ≡ 2 * number) }
{
    match number.checked_mul(2) {
        Some(double) => Ok(double),
        None => Err(AllocError),
    }
}

/// Returns how many places and bytes so many bytes are. Fails where memory can't hold so many.
fn with_places(len: usize) -> Result<usize, AllocError>
    ensures { IfOk result (λ count. count ≡ with_places len) }
{
    let double = doubled(len)?;
    match double.checked_add(1) {
        Some(count) => Ok(count),
        None => Err(AllocError),
    }
}

/// Moves numbers from the one stack to the other, until so many, or all, are before the cut. Fails
/// only where memory runs out. Linear in the repeats that are moved.
fn cut_at(before: &mut Stack, after: &mut Stack, place: usize) -> Result<(), AllocError>
    ensures whole { reverse before.new ++ after.new ≡ reverse before.old ++ after.old }
    ensures len { OnOk result
        (length before.new ≡ min place (length before.old + length after.old)) }
{
    'back: while before.len() > place {
        let most = before.len() - place;
        shift(before, after, most)?;
    }
    'on: while before.len() < place && after.len() > 0 {
        let most = place - before.len();
        shift(after, before, most)?;
    }
    Ok(())
}

impl Numbers {
    /// Starts with this number for each place and byte of a text of so many bytes. Fails only where
    /// memory runs out.
    pub(crate) fn new(alloc: Global, number: u64, len: usize) -> Result<Numbers, AllocError>
        ensures { IfOk result (λ numbers. numbers ≡ replicate (with_places len) number) }
    {
        let mut after = Stack::new(alloc);
        after.add(number, with_places(len)?)?;
        Ok(Numbers {
            before: Stack::new(alloc),
            after,
        })
    }

    /// Replaces the numbers of a part that was replaced, and of the places at its ends. Fails only
    /// where memory runs out; then nothing has changed. Linear in the repeats between this change
    /// and the one before it.
    pub(crate) fn splice(&mut self, number: u64, splice: Splice) -> Result<(), AllocError>
        ensures spliced { OnOk result (self.new ≡ spliced number splice self.old) }
        ensures unchanged { OnErr result (self.new ≡ self.old) }
    {
        let start = doubled(splice.start)?;
        let removed = with_places(splice.end.saturating_sub(splice.start))?;
        let added = with_places(splice.len)?;
        cut_at(&mut self.before, &mut self.after, start)?;
        self.before.add(number, added)?;
        self.after.remove(removed);
        Ok(())
    }

    /// Copies them.
    fn copied(&self, alloc: Global) -> Result<Numbers, AllocError>
        ensures { IfOk result (λ copy. copy ≡ self.now) }
    {
        Ok(Numbers {
            before: self.before.copied(alloc)?,
            after: self.after.copied(alloc)?,
        })
    }

    /// Returns the numbers after several parts were replaced, each in the text that the one before it
    /// leaves. Copies the repeats.
    pub(crate) fn after_all(
        &self,
        alloc: Global,
        number: u64,
        splices: &[Splice],
    ) -> Result<Numbers, AllocError>
        ensures { IfOk result
            (λ numbers. numbers ≡ all_spliced number splices.now self.now) }
    {
        let mut numbers = self.copied(alloc)?;
        for splice in splices {
            numbers.splice(number, *splice)?;
        }
        Ok(numbers)
    }

    /// Returns all repeats in the order of the text.
    pub(crate) fn repeats(&self, alloc: Global) -> Result<Vec<Repeat>, AllocError>
        ensures { IfOk result (λ repeats. numbers_in repeats.items ≡ self.now) }
    {
        let mut repeats = self.before.repeats(alloc)?;
        let mut rest = self.after.repeats(alloc)?;
        rest.reverse();
        repeats.extend_from_slice(&rest)?;
        Ok(repeats)
    }
}
