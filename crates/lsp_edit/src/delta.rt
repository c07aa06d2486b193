//! `Delta`, a batch of changes that was resolved once on a text.
//!
//! A delta borrows the changes and nothing of the text; a condition on `apply` says which text
//! it is of. It keeps the byte offsets of each change's range, so nobody resolves a range again:
//! its canonical batch and its layer are composed of them, for who asks. One change of a range is
//! two offsets. `apply` may run out of memory: to reserve first, each clause would have to show
//! the room of two buffers.

ghost use Rattle.std.specs.Prelude.{◌≡◌, IfOk, List, Ok, length, map, string_bytes};
ghost use Rattle.std.specs.List.{replace_range};
ghost use Rattle.std.specs.Str.{chars};
ghost use Rattle.lsp_text.specs.Units.{units_in};
ghost use Rattle.lsp_edit.specs.Canonical.{canonical};
ghost use Rattle.lsp_edit.specs.Layers.{layer_parts};
ghost use Rattle.lsp_edit.specs.Parts.{parts_of};
ghost use Rattle.lsp_edit.specs.inside.Layers.{IsLayer};
ghost use Rattle.lsp_edit.specs.inside.Parts.{put_between_parts};
ghost use Rattle.lsp_edit.specs.Edited.{content_change};
ghost use Rattle.lsp_edit.specs.Items.{Item};
ghost use Rattle.lsp_edit.specs.Delta.{IsOn, IsPut, bytes_after, delta_encoding, meant_by};

mod spans;

use crate::change::Change;
use crate::delta::spans::spans_after;
use crate::indexed::IndexedText;
use crate::joined::layer::Layer;
use crate::pieces::canonical::canonical_of;
use crate::pieces::span::{Span, push_new, push_old};
use lsp_text::Encoding;
use std::alloc::{AllocError, Global};

/// A batch of changes, resolved on a text ([`IndexedText::delta`]). It borrows the changes.
#[derive(Debug, Drop)]
pub enum Delta<'a> {
    /// A range is replaced.
    Put(Put<'a>),
    /// The batch leaves a new text.
    Left(Left<'a>),
}

/// A replaced range of bytes: one change, resolved.
#[derive(Clone, Copy, Debug)]
pub struct Put<'a> {
    /// The positions of the change are in its units.
    pub encoding: Encoding,
    /// The byte offset at which the range starts.
    pub start: usize,
    /// The byte offset after the range.
    pub stop: usize,
    /// The text that replaces the range.
    pub new: &'a str,
}

/// Any other batch, resolved, with the text that it leaves.
#[derive(Debug, Drop)]
pub struct Left<'a> {
    /// The positions of the changes are in its units.
    pub encoding: Encoding,
    /// The changes of the batch.
    pub changes: &'a [Change],
    /// For each change the byte offsets of its range's two ends, in the text that it meets.
    pub ends: Vec<(usize, usize)>,
    /// The text after all changes, with its lines.
    pub text: IndexedText,
}

impl<'a> Put<'a> {
    /// Returns how many bytes the replacement leaves of a text.
    pub(crate) fn len_on(&self, text: &IndexedText) -> usize
        requires put { IsPut (units_in self.now.encoding) text.now self.now.start self.now.stop
            self.now.new.now }
        ensures { result
            ≡ length (replace_range text.now self.now.start self.now.stop self.now.new.now) }
    {
        text.len() - (self.stop - self.start) + self.new.len()
    }

    /// Returns the text that the replacement leaves of a text.
    fn text(&self, alloc: Global, text: &IndexedText) -> Result<String, AllocError>
        requires put { IsPut (units_in self.now.encoding) text.now self.now.start self.now.stop
            self.now.new.now }
        ensures { IfOk result (λ left. string_bytes left
            ≡ replace_range text.now self.now.start self.now.stop self.now.new.now) }
    {
        let mut left = String::with_capacity(alloc, self.len_on(text))?;
        let buffer = text.text();
        buffer.push_range(&mut left, 0, self.start)?;
        left.push_str(self.new)?;
        buffer.push_range(&mut left, self.stop, text.len())?;
        Ok(left)
    }

    /// Returns the replacement in a text of `len` bytes, in spans of it and the new text.
    fn spans(&self, alloc: Global, len: usize) -> Result<Vec<Span<'a>>, AllocError>
        ensures { IfOk result (λ spans. parts_of spans.items ≡ put_between_parts len self.now.start
            self.now.stop self.now.new.now) }
    {
        let mut spans = Vec::with_capacity(alloc, 3)?;
        push_old(&mut spans, 0, self.start)?;
        push_new(&mut spans, self.new)?;
        push_old(&mut spans, self.stop, len)?;
        Ok(spans)
    }
}

impl<'a> Delta<'a> {
    /// Returns the encoding in whose units the positions of the changes are.
    fn encoding(&self) -> Encoding
        ensures { result ≡ delta_encoding self.now }
    {
        match self {
            Delta::Put(put) => put.encoding,
            Delta::Left(batch) => batch.encoding,
        }
    }

    /// Returns how many bytes the delta leaves of the text that it was made of.
    pub fn len_on(&self, text: &IndexedText) -> usize
        requires on { IsOn text.now self.now }
        ensures { result ≡ length (bytes_after text.now self.now) }
    {
        match self {
            Delta::Put(put) => put.len_on(text),
            Delta::Left(batch) => batch.text.len(),
        }
    }

    /// Returns the text that the delta leaves of the text that it was made of.
    ///
    /// Fails only where memory runs out. Costs one copy of the text that is left.
    pub fn text(&self, alloc: Global, text: &IndexedText) -> Result<String, AllocError>
        requires on { IsOn text.now self.now }
        ensures { IfOk result (λ left. string_bytes left ≡ bytes_after text.now self.now) }
    {
        match self {
            Delta::Put(put) => put.text(alloc, text),
            Delta::Left(batch) => batch.text.text().to_string(alloc),
        }
    }

    /// Returns the delta in spans of the text and of the changes' texts. Fails only where memory runs
    /// out.
    fn spans(&self, alloc: Global, text: &IndexedText) -> Result<Vec<Span<'a>>, AllocError>
        requires on { IsOn text.now self.now }
        ensures { IfOk result (λ spans. IsLayer (meant_by text.now self.now) text.now
            (parts_of spans.items)) }
    {
        match self {
            Delta::Put(put) => put.spans(alloc, text.len()),
            Delta::Left(batch) => spans_after(alloc, text.len(), batch.changes, &batch.ends),
        }
    }

    /// Returns the delta in spans that own their texts. Fails only where memory runs out. A range
    /// costs three spans, any other batch its spans, and both a copy of the new texts.
    pub(crate) fn layer(&self, alloc: Global, text: &IndexedText) -> Result<Layer, AllocError>
        requires on { IsOn text.now self.now }
        ensures { IfOk result (λ layer. IsLayer (meant_by text.now self.now) text.now
            (layer_parts layer)) }
    {
        let spans = self.spans(alloc, text)?;
        Layer::of_spans(alloc, 0, &spans)
    }

    /// Returns the canonical batch, over the text that the delta was made of. It has one change for
    /// each changed gap between kept characters, from the last gap to the first.
    ///
    /// Fails only where memory runs out. A range costs one exact position for each of its ends,
    /// and a copy of its new text. Any other batch costs its spans, and that for each changed gap.
    pub fn canonical(&self, alloc: Global, text: &IndexedText) -> Result<Vec<Change>, AllocError>
        requires on { IsOn text.now self.now }
        ensures { IfOk result (λ answered. (items : List Item) → meant_by text.now self.now
            ≡ Ok items → map content_change answered.items
            ≡ canonical (units_in (delta_encoding self.now)) (chars text.now) items) }
    {
        let spans = self.spans(alloc, text)?;
        canonical_of(alloc, text.text(), &spans, self.encoding())
    }
}
