//! The text that a batch leaves, which is made in a copy, and the ends of its ranges.

ghost use Rattle.std.specs.Prelude.{◌≡◌, ◌+◌, ◌++◌, ◌∷◌, ◌≤◌, ◌⊎◌, [], IfErr, IfOk, OnOk, Ok, length, map, string_len, sum_by};
ghost use Rattle.std.specs.Str.{IsUtf8, chars};
ghost use Rattle.lsp_text.specs.Units.{units_in};
ghost use Rattle.lsp_edit.specs.Batch.{items_after, meaning};
ghost use Rattle.lsp_edit.specs.Delta.{AreEndsOf};
ghost use Rattle.lsp_edit.specs.Edited.{content_change};
ghost use Rattle.lsp_edit.specs.Faults.{IsFaultOfChange};
ghost use Rattle.lsp_edit.specs.Indexed.{IsBatchFaultOf, text_within};
ghost use Rattle.lsp_edit.specs.Items.{plain};
ghost use Rattle.lsp_edit.specs.inside.Drafts.{BeginsAnew, IsAfter};

use crate::change::{Change, MAX_NEW_TEXT};
use crate::composed::MAX_OLD_TEXT;
use crate::ends::ends;
use crate::fault::EditFault;
use crate::indexed::IndexedText;
use crate::indexed::fault::BatchFault;
use crate::pieces::MAX_TEXT;
use lsp_text::Encoding;
use std::alloc::{AllocError, Global};

impl IndexedText {
    /// Applies a change (LSP 3.17, TextDocumentContentChangeEvent), and returns the byte offsets of
    /// its range's ends too. `number` is the number of the change that a fault reports.
    fn after(
        self,
        encoding: Encoding,
        number: usize,
        change: &Change,
    ) -> Result<(Self, (usize, usize)), EditFault>
        requires { length self + string_len change.now.text ≤ MAX_TEXT }
        ensures utf8 { IsUtf8 self }
        ensures ok { IfOk result (λ next. IsAfter (units_in encoding) self
            (content_change change.now) next.0 next.1) }
        ensures error { IfErr result (IsFaultOfChange number (items_after (units_in encoding)
            (chars self) (plain (chars self)) (content_change change.now))) }
        ensures longer { IfOk result
            (λ next. length next.0 ≤ length self + string_len change.now.text) }
    {
        // States that the text is UTF-8.
        let _ = self.len();
        let alloc = *self.allocator();
        let new = change.text.as_str();
        let range = match change.range {
            None => return Ok((Self::new(alloc, String::from_str(alloc, new)?)?, (0, 0))),
            Some(range) => range,
        };
        let (start, stop) = ends(self.text(), encoding, range, number)?;
        let IndexedText { mut text } = self;
        text.replace_range(start, stop, new)?;
        Ok((IndexedText { text }, (start, stop)))
    }

    /// Makes the draft that a batch begins with: a copy of the text, or the empty text if the first
    /// change replaces all.
    fn begun(&self, changes: &[Change]) -> Result<Self, AllocError>
        ensures utf8 { IsUtf8 self.now }
        ensures begun { IfOk result (λ draft. (draft ≡ self.now)
            ⊎ ((draft ≡ []) × BeginsAnew (map content_change changes.now))) }
    {
        // States that the text is UTF-8.
        let _ = self.len();
        let alloc = *self.allocator();
        match changes {
            [Change { range: None, .. }, ..] => Self::new(alloc, String::new(alloc)),
            _ => self.clone_in(alloc),
        }
    }

    /// Applies a batch to a copy of the text, if the result has at most `max_len` bytes, and returns
    /// the ends of the changes' ranges too. A fault reports the first change that has no result.
    ///
    /// Costs what each change costs, and [`IndexedText::clone_in`] if the first change doesn't
    /// replace all.
    pub(super) fn draft(
        &self,
        encoding: Encoding,
        changes: &[Change],
        max_len: usize,
    ) -> Result<(Self, Vec<(usize, usize)>), BatchFault>
        requires size { length self.now ≤ MAX_OLD_TEXT }
        requires fits { sum_by (λ change. string_len change.text) changes.now ≤ MAX_NEW_TEXT }
        ensures ok { IfOk result
            (λ left. text_within max_len self.now (meaning (units_in encoding) (chars self.now)
            (map content_change changes.now)) ≡ Ok left.0) }
        ensures ends { IfOk result (λ left. AreEndsOf (units_in encoding) (chars self.now)
            (plain (chars self.now)) (map content_change changes.now) left.1.items) }
        ensures error { IfErr result (IsBatchFaultOf (units_in encoding) max_len self.now
            (map content_change changes.now)) }
    {
        let mut draft = self.begun(changes)?;
        let mut ends = Vec::with_capacity(*self.allocator(), changes.len())?;
        for (number, change) in changes.iter().enumerate() {
            let (next, found) = draft.after(encoding, number, change)?;
            draft = next;
            push_ends(&mut ends, found)?;
        }
        if draft.len() > max_len {
            return Err(BatchFault::TooLong);
        }
        Ok((draft, ends))
    }
}

/// Appends the ends of a range.
fn push_ends(ends: &mut Vec<(usize, usize)>, found: (usize, usize)) -> Result<(), AllocError>
    ensures { OnOk result (ends.new.items ≡ ends.old.items ++ found ∷ []) }
{
    ends.push(found)?;
    Ok(())
}
