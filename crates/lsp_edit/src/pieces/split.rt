//! Spans split at the last change, for changes one after another.
//!
//! A change costs the spans between it and the one before it, and no move of those that follow.
//! `Row` costs that move, and has its spans in one slice after each change.

ghost use Rattle.std.specs.Prelude.{◌≡◌, ◌-◌, ◌≤◌, IfOk, OnOk, reverse};
ghost use Rattle.lsp_edit.specs.Parts.{NoneEmpty, new_parts, parts_of};
ghost use Rattle.lsp_edit.specs.inside.Parts.{AreCut, back_parts, old_parts};
ghost use Rattle.lsp_edit.specs.inside.Splits.{HasPassed, IsSplitAt, spliced_parts, split_parts};

use crate::pieces::span::{Span, push_new, push_old};
use std::alloc::{AllocError, Global};

/// Spans in two rows: those before the split in order, and those after it from the last to the
/// first. After an error they are not to be used.
#[derive(Drop)]
pub(crate) struct SplitSpans<'a> {
    front: Vec<Span<'a>>,
    back: Vec<Span<'a>>,
    /// How many bytes those before the split have.
    passed: usize,
}

/// Removes the first `count` bytes of spans that come from the last to the first.
fn remove_front(back: &mut Vec<Span<'_>>, count: usize) -> Result<(), AllocError>
    requires { AreCut (reverse (parts_of back.old.items)) count }
    ensures { OnOk result (reverse (parts_of back.new.items)
        ≡ back_parts (reverse (parts_of back.old.items)) count) }
{
    let mut left = count;
    'removed: while let Some(span) = back.pop() {
        let len = span.len();
        if left < len {
            back.push(span.back(left))?;
            return Ok(());
        }
        left -= len;
    }
    Ok(())
}

impl<'a> SplitSpans<'a> {
    /// Makes the spans of a text of so many bytes.
    pub(crate) fn whole(alloc: Global, len: usize) -> Result<Self, AllocError>
        ensures { IfOk result (λ split. HasPassed split (old_parts 0 len)) }
    {
        let mut back = Vec::new(alloc);
        push_old(&mut back, 0, len)?;
        let front = Vec::new(alloc);
        Ok(SplitSpans {
            front,
            back,
            passed: 0,
        })
    }

    /// Moves the split to a byte offset. A span with the offset inside is cut there.
    fn move_to(&mut self, offset: usize) -> Result<(), AllocError>
        requires passed { HasPassed self.old (split_parts self.old) }
        requires some { NoneEmpty (split_parts self.old) }
        requires cut { AreCut (split_parts self.old) offset }
        ensures { OnOk result (IsSplitAt (split_parts self.old) offset self.new) }
    {
        'back: while self.passed > offset {
            let Some(span) = self.front.pop() else {
                return Ok(());
            };
            self.passed -= span.len();
            self.back.push(span)?;
        }
        'on: while self.passed < offset {
            let Some(span) = self.back.pop() else {
                return Ok(());
            };
            let left = offset - self.passed;
            let len = span.len();
            if left < len {
                self.front.push(span.front(left))?;
                self.back.push(span.back(left))?;
                self.passed = offset;
                return Ok(());
            }
            self.front.push(span)?;
            self.passed += len;
        }
        Ok(())
    }

    /// Replaces the bytes between two byte offsets by a new text. The split is before it then.
    pub(crate) fn replace(
        &mut self,
        start: usize,
        stop: usize,
        text: &'a str,
    ) -> Result<(), AllocError>
        requires passed { HasPassed self.old (split_parts self.old) }
        requires some { NoneEmpty (split_parts self.old) }
        requires order { start ≤ stop }
        requires at_start { AreCut (split_parts self.old) start }
        requires at_stop { AreCut (back_parts (split_parts self.old) start) (stop - start) }
        ensures { OnOk result (HasPassed self.new
            (spliced_parts (split_parts self.old) start (stop - start) text.now)) }
    {
        self.move_to(start)?;
        remove_front(&mut self.back, stop - start)?;
        push_new(&mut self.back, text)?;
        Ok(())
    }

    /// Replaces all spans by a new text.
    pub(crate) fn replace_all(&mut self, text: &'a str) -> Result<(), AllocError>
        ensures { OnOk result (HasPassed self.new (new_parts text.now)) }
    {
        self.front.truncate(0);
        self.back.truncate(0);
        self.passed = 0;
        push_new(&mut self.back, text)?;
        Ok(())
    }

    /// Returns all spans in order.
    pub(crate) fn close(self) -> Result<Vec<Span<'a>>, AllocError>
        ensures { IfOk result (λ spans. parts_of spans.items ≡ split_parts self.entry) }
    {
        let SplitSpans {
            mut front,
            mut back,
            ..
        } = self;
        'rest: while let Some(span) = back.pop() {
            front.push(span)?;
        }
        Ok(front)
    }
}
