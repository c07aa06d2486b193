//! The result of some batches of changes, in spans that own their texts.
//!
//! A layer owns the texts that are left, so text that was typed and deleted again is not kept.
//! No clause says how much room a text is given, nor a layer's rank: these are costs, and with
//! any other `len` or `rank` each clause holds.

ghost use Rattle.std.specs.Prelude.{◌≡◌, IfOk, OnOk, string_bytes, ◌++◌};
ghost use Rattle.lsp_edit.specs.Layers.{layer_parts, owned_part, owned_parts};
ghost use Rattle.lsp_edit.specs.inside.Layers.{AreSameItems};
ghost use Rattle.lsp_edit.specs.Parts.{Ascend, new_parts, part_of, parts_of};
ghost use Rattle.lsp_edit.specs.inside.Parts.{AreThrough, through_parts};

use crate::pieces::span::Span;
use crate::pieces::through::spans_through;
use std::alloc::{AllocError, Global};
use std::mem;

/// A part of a text after changes, which owns the text of a change.
#[derive(Debug, Drop)]
pub enum OwnedSpan {
    /// The bytes of the old text from one byte offset to another.
    Old { from: usize, to: usize },
    /// The text of changes.
    New(String),
}

/// The result of some batches on a text. `rank` is how often two layers of one rank were joined for
/// it.
#[derive(Debug, Drop)]
pub struct Layer {
    pub rank: u32,
    pub spans: Vec<OwnedSpan>,
}

/// Appends the span of a text, if that isn't empty.
fn push_new(spans: &mut Vec<OwnedSpan>, text: String) -> Result<(), AllocError>
    ensures { OnOk result
        (owned_parts spans.new.items
        ≡ owned_parts spans.old.items ++ new_parts (string_bytes text)) }
{
    if !text.is_empty() {
        spans.push(OwnedSpan::New(text))?;
    }
    Ok(())
}

impl OwnedSpan {
    /// Returns a span like this one, whose text is borrowed from it.
    fn borrowed(&self) -> Span<'_>
        ensures { part_of result ≡ owned_part self.now }
    {
        match self {
            OwnedSpan::Old { from, to } => Span::Old {
                from: *from,
                to: *to,
            },
            OwnedSpan::New(text) => Span::New(text),
        }
    }
}

impl Layer {
    /// Makes the layer of spans, with their texts copied; neighbouring texts become one. Costs the
    /// spans and a copy of their texts.
    pub fn of_spans(alloc: Global, rank: u32, spans: &[Span<'_>]) -> Result<Self, AllocError>
        ensures { IfOk result (λ layer. AreSameItems (layer_parts layer) (parts_of spans.now)) }
    {
        let mut owned = Vec::new(alloc);
        let mut text = String::new(alloc);
        for span in spans {
            match *span {
                Span::Old { from, to } => {
                    let filled = mem::replace(&mut text, String::new(alloc));
                    push_new(&mut owned, filled)?;
                    owned.push(OwnedSpan::Old { from, to })?;
                }
                Span::New(new) => text.push_str(new)?,
            }
        }
        push_new(&mut owned, text)?;
        Ok(Layer { rank, spans: owned })
    }

    /// Returns the spans with their texts borrowed. Costs one step for each.
    pub fn borrowed(&self, alloc: Global) -> Result<Vec<Span<'_>>, AllocError>
        ensures { IfOk result (λ spans. parts_of spans.items ≡ layer_parts self.now) }
    {
        let mut spans = Vec::with_capacity(alloc, self.spans.len())?;
        for span in &self.spans {
            spans.push(span.borrowed())?;
        }
        Ok(spans)
    }

    /// Composes this layer and `next`, which is over the text that this one leaves. Costs the spans
    /// of both, and a copy of the texts that are left of them.
    pub fn then(&self, alloc: Global, next: &Layer) -> Result<Self, AllocError>
        requires through { AreThrough (layer_parts self.now) (layer_parts next.now) }
        requires order { Ascend 0 (layer_parts next.now) }
        ensures { IfOk result (λ both.
            AreSameItems (layer_parts both)
            (through_parts (layer_parts self.now) (layer_parts next.now))) }
    {
        let first = self.borrowed(alloc)?;
        let second = next.borrowed(alloc)?;
        let both = spans_through(alloc, &first, &second)?;
        Self::of_spans(alloc, self.rank.saturating_add(1), &both)
    }
}
