//! `Pieces`, a text under changes, as spans of the old text and of the changes' texts.
//!
//! `Pieces` is seen with the parts that its spans are, so that "unchanged" speaks of what
//! `spans` returns. `then` has a lifetime for each argument: with one for both no caller is
//! accepted.

ghost use Rattle.std.specs.Prelude.{◌≡◌, ◌↔◌, ◌+◌, ◌*◌, ◌++◌, ◌≤◌, ℕ, IfOk, OnOk, Ok, IsTrue, List, map, length, string_bytes, string_len};
ghost use Rattle.std.specs.Str.{chars};
ghost use Rattle.lsp_text.specs.Units.{units_in};
ghost use Rattle.lsp_edit.specs.Items.{Item, plain};
ghost use Rattle.lsp_edit.specs.Parts.{AreParts, Ascend, NoneEmpty, NoneTouch, items_of, parts_of};
ghost use Rattle.lsp_edit.specs.Compose.{then_items};
ghost use Rattle.lsp_edit.specs.Edited.{before_bytes, both_counts, content_change, edited_bytes, edited_text};
ghost use Rattle.lsp_edit.specs.inside.Before.{text_before};
ghost use Rattle.lsp_edit.specs.Batch.{ContentChange, meaning};
ghost use Rattle.lsp_edit.specs.Canonical.{canonical};
ghost use Rattle.lsp_edit.specs.laws.Batches.{IsCanonical, KeepsPairs, RangesStay};

mod apply;
mod before;
pub(crate) mod canonical;
pub(crate) mod replace;
pub(crate) mod row;
pub(crate) mod span;
pub(crate) mod split;
pub(crate) mod through;

use crate::change::Change;
use crate::pieces::before::Before;
use crate::pieces::canonical::canonical_of;
use crate::pieces::row::Row;
use crate::pieces::span::{Span, whole};
use crate::pieces::through::spans_through;
use lsp_buffer::TextBuffer;
use lsp_text::Encoding;
use std::alloc::{AllocError, Global};
use std::marker::Model;

/// How many bytes a text may have.
pub const MAX_TEXT: usize = 2_147_483_648;

/// A text under changes, one after another. It borrows the old text and the texts of the changes,
/// and describes the result by spans of both, without a copy.
#[derive(Debug, Drop)]
pub struct Pieces<'a> {
    alloc: Global,
    // The text before any change.
    before: Before<'a>,
    // What the result is, in parts of that text and of the changes' texts.
    spans: Row<'a>,
    // How many bytes the result has.
    len: usize,
    // How many changes were applied.
    changes: usize,
    // The result, if it was made to resolve a range in it.
    current: Option<TextBuffer>,
}

impl<'a> Model for Pieces<'a> {
    ghost use Rattle.std.specs.Str.{chars};
    ghost use Rattle.lsp_edit.specs.Parts.{items_of, parts_of, bytes_of};
    ghost use Rattle.lsp_edit.specs.Edited.{PiecesData, ArePieces, IsCurrent};
    ghost use Rattle.lsp_edit.specs.inside.Before.{text_before};

    ghost Value = { PiecesData };

    ghost view = { λ pieces. record {
      edited = record {
        before = chars (text_before pieces.before);
        items = items_of (chars (text_before pieces.before)) (parts_of pieces.spans);
        changes = pieces.changes;
      };
      parts = parts_of pieces.spans;
    } };

    ghost invariant = { λ pieces.
        ArePieces (text_before pieces.before) (parts_of pieces.spans) pieces.len
        pieces.changes
        × IsCurrent (bytes_of (text_before pieces.before) (parts_of pieces.spans))
        pieces.current };
}

impl<'a> Pieces<'a> {
    /// Makes pieces of a text before any change. Fails only where memory runs out. Takes constant
    /// time.
    fn begin(alloc: Global, before: Before<'a>) -> Result<Self, AllocError>
        ensures { IfOk result (λ pieces. pieces.edited ≡ record {
          before = chars (text_before before.entry);
          items = plain (chars (text_before before.entry));
          changes = 0;
        }) }
    {
        let text = before.get();
        let len = text.len();
        let spans = Row::new(whole(alloc, text)?);
        Ok(Pieces {
            alloc,
            before,
            spans,
            len,
            changes: 0,
            current: None,
        })
    }

    /// Makes pieces of a text before any change. Fails only where memory runs out. Costs a copy of
    /// the text in blocks, and a search through it for its lines.
    pub fn start(alloc: Global, before: &'a str) -> Result<Self, AllocError>
        requires { length before.now ≤ MAX_TEXT }
        ensures { IfOk result (λ pieces. pieces.edited
            ≡ record { before = chars before.now; items = plain (chars before.now); changes = 0 }) }
    {
        let before = Before::Own(TextBuffer::from_str(alloc, before)?);
        Self::begin(alloc, before)
    }

    /// Composes two series of changes; `second` is over the text that `first` leaves. The result is
    /// over the old text of `first`, and counts the changes of both.
    ///
    /// Fails only where memory runs out. Costs the spans of both, and borrows the old text of
    /// `first`.
    #[tactic(auto, using(crate::proofs::Batches::ComposeLemmas::then_means))]
    pub fn then<'b, 'c>(
        alloc: Global,
        first: &'c Pieces<'a>,
        second: &Pieces<'b>,
    ) -> Result<Pieces<'c>, AllocError>
    where
        'b: 'c,
        requires { second.now.edited.before ≡ edited_text first.now.edited }
        ensures composed { IfOk result (λ pieces. pieces.edited ≡ record {
          before = first.now.edited.before;
          items = then_items first.now.edited.items second.now.edited.items;
          changes = both_counts first.now.edited.changes second.now.edited.changes;
        }) }
        ensures means { (units : ℕ → ℕ) (batch next : List ContentChange)
            → meaning units first.now.edited.before batch ≡ Ok first.now.edited.items
            → meaning units second.now.edited.before next ≡ Ok second.now.edited.items
            → meaning units first.now.edited.before (batch ++ next) ≡ Ok
            (then_items first.now.edited.items second.now.edited.items) }
        ensures associative { (third : List Item) → then_items
            (then_items first.now.edited.items second.now.edited.items) third
            ≡ then_items first.now.edited.items (then_items second.now.edited.items third) }
    {
        let spans = spans_through(alloc, first.spans.as_slice(), second.spans.as_slice())?;
        Ok(Pieces {
            alloc,
            before: Before::Borrowed(first.before.get()),
            spans: Row::new(spans),
            len: second.len,
            changes: first.changes.saturating_add(second.changes),
            current: None,
        })
    }

    /// Returns whether the current text and the change's text have at most 2,147,483,648 bytes
    /// together.
    pub fn has_room(&self, change: &Change) -> bool
        ensures { IsTrue result ↔ (length (edited_bytes self.now.edited)
            + string_len change.now.text ≤ MAX_TEXT) }
    {
        self.len + change.text.len() <= MAX_TEXT
    }

    /// Returns how many bytes the current text has.
    pub fn text_len(&self) -> usize
        ensures { result ≡ length (edited_bytes self.now.edited) }
    {
        self.len
    }

    /// Returns the canonical batch of the changes. It has one change for each changed gap between
    /// kept characters of the old text, from the last gap to the first.
    ///
    /// The batch has the same result, character by character. Each of its ranges denotes the same
    /// in the text that it meets as in the old text. Fails only where memory runs out. Costs the spans,
    /// and one exact position for each end of a changed gap.
    pub fn canonical(&self, encoding: Encoding) -> Result<Vec<Change>, AllocError>
        ensures batch { IfOk result (λ changes. map content_change changes.items ≡ canonical
            (units_in encoding) self.now.edited.before self.now.edited.items) }
        ensures means { meaning (units_in encoding) self.now.edited.before
            (canonical (units_in encoding) self.now.edited.before self.now.edited.items)
            ≡ Ok self.now.edited.items }
        ensures ranges { RangesStay (units_in encoding) self.now.edited.before
            (plain self.now.edited.before) (canonical
            (units_in encoding) self.now.edited.before self.now.edited.items) }
        ensures pairs { KeepsPairs self.now.edited.before self.now.edited.items }
        ensures law { (batch : List ContentChange)
            → meaning (units_in encoding) self.now.edited.before batch ≡ Ok self.now.edited.items
            → IsCanonical (units_in encoding) self.now.edited.before batch self.now.edited.items }
    {
        let before = self.before.get();
        canonical_of(self.alloc, before, self.spans.as_slice(), encoding)
    }

    /// Returns the spans of the current text: parts of the old text in order, and texts of the
    /// changes or parts of them.
    ///
    /// No span is empty or cut inside a character, and two parts of the old text that touch are one.
    /// After n changes there are at most 2n + 1 spans.
    pub fn spans(&self) -> &[Span<'a>]
        ensures parts { parts_of result.now ≡ self.now.parts }
        ensures items { items_of self.now.edited.before (parts_of result.now)
            ≡ self.now.edited.items }
        ensures are { AreParts (before_bytes self.now.edited) (parts_of result.now) }
        ensures order { Ascend 0 (parts_of result.now) }
        ensures some { NoneEmpty (parts_of result.now) }
        ensures merged { NoneTouch (parts_of result.now) }
        ensures few { length result.now ≤ 1 + 2 * self.now.edited.changes }
    {
        self.spans.as_slice()
    }

    /// Returns the current text. Fails only where memory runs out. Costs one copy.
    pub fn text(&self) -> Result<String, AllocError>
        ensures { IfOk result (λ text. string_bytes text ≡ edited_bytes self.now.edited) }
    {
        let before = self.before.get();
        let mut text = String::with_capacity(self.alloc, self.len)?;
        for span in self.spans.as_slice() {
            span.push_to(before, &mut text)?;
        }
        Ok(text)
    }
}
