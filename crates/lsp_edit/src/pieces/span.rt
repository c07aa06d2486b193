//! A span: a part of a text after changes, without a copy of its characters.

ghost use Rattle.std.specs.Prelude.{◌≡◌, ◌++◌, IfOk, OnOk, length, string_bytes, MatchOption, ◌∷◌, []};
ghost use Rattle.std.specs.Str.{IsUtf8};
ghost use Rattle.lsp_edit.specs.Parts.{IsPartOf, bytes_in, new_parts, part_len, part_of, parts_of};
ghost use Rattle.lsp_edit.specs.inside.Parts.{IsCutAt, joined, back_part, front_part, IsOrdered, old_parts};

use lsp_buffer::TextBuffer;
use std::alloc::{AllocError, Global};

/// A part of a text after changes. It isn't empty.
#[derive(Clone, Copy, Debug, PartialEq, Eq)]
pub enum Span<'a> {
    /// The bytes of the old text from one byte offset to another.
    Old { from: usize, to: usize },
    /// The text of a change, or a part of it.
    New(&'a str),
}

impl<'a> Span<'a> {
    /// Returns how many bytes it has.
    pub(crate) fn len(self) -> usize
        requires { IsOrdered (part_of self) }
        ensures { result ≡ part_len (part_of self.entry) }
    {
        match self {
            Span::Old { from, to } => to - from,
            Span::New(text) => text.len(),
        }
    }

    /// Returns the first `count` bytes of the span.
    pub(crate) fn front(self, count: usize) -> Self
        requires { IsCutAt (part_of self) count }
        ensures { part_of result ≡ front_part (part_of self.entry) count }
    {
        match self {
            Span::Old { from, .. } => Span::Old {
                from,
                to: from + count,
            },
            Span::New(text) => Span::New(&text[..count]),
        }
    }

    /// Returns what comes after its first `count` bytes as a span.
    pub(crate) fn back(self, count: usize) -> Self
        requires { IsCutAt (part_of self) count }
        ensures { part_of result ≡ back_part (part_of self.entry) count }
    {
        match self {
            Span::Old { from, to } => Span::Old {
                from: from + count,
                to,
            },
            Span::New(text) => Span::New(&text[count..]),
        }
    }

    /// Returns one span for this and the next, if both are of the old text and touch there.
    pub(crate) fn joined(self, next: Self) -> Option<Self>
        ensures { MatchOption result
            (joined (part_of self.entry) (part_of next.entry)
            ≡ part_of self.entry ∷ part_of next.entry ∷ [])
            (λ one. joined (part_of self.entry) (part_of next.entry) ≡ part_of one ∷ []) }
    {
        match (self, next) {
            (
                Span::Old { from, to },
                Span::Old {
                    from: next,
                    to: end,
                },
            ) if to == next => Some(Span::Old { from, to: end }),
            _ => None,
        }
    }

    /// Appends its bytes to a string; `before` is the old text.
    pub(crate) fn push_to(self, before: &TextBuffer, out: &mut String) -> Result<(), AllocError>
        requires { IsPartOf before.now (part_of self) }
        ensures { OnOk result (string_bytes out.new
            ≡ string_bytes out.old ++ bytes_in before.now (part_of self.entry)) }
    {
        match self {
            Span::Old { from, to } => before.push_range(out, from, to),
            Span::New(text) => out.push_str(text),
        }
    }
}

/// Appends the old text from one byte offset to another, if it isn't empty.
pub(crate) fn push_old(spans: &mut Vec<Span>, from: usize, to: usize) -> Result<(), AllocError>
    ensures { OnOk result
        (parts_of spans.new.items ≡ parts_of spans.old.items ++ old_parts from to) }
{
    if from < to {
        spans.push(Span::Old { from, to })?;
    }
    Ok(())
}

/// Appends a new text, if it isn't empty.
pub(crate) fn push_new<'a>(spans: &mut Vec<Span<'a>>, text: &'a str) -> Result<(), AllocError>
    ensures { OnOk result
        (parts_of spans.new.items ≡ parts_of spans.old.items ++ new_parts text.now) }
{
    if !text.is_empty() {
        spans.push(Span::New(text))?;
    }
    Ok(())
}

/// Makes the spans of a text before any change, with room for those after one.
pub(crate) fn whole<'a>(alloc: Global, before: &TextBuffer) -> Result<Vec<Span<'a>>, AllocError>
    ensures parts { IfOk result (λ spans. parts_of spans.items ≡ old_parts 0 (length before.now)) }
    ensures utf8 { OnOk result (IsUtf8 before.now) }
{
    let mut spans = Vec::with_capacity(alloc, 3)?;
    push_old(&mut spans, 0, before.len())?;
    Ok(spans)
}
