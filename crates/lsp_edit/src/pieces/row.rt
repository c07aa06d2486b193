//! Spans in a row, with the one at which the next walk over them begins.
//!
//! Many spans are one row that remembers where it was changed last. Blocks of spans would save
//! a move, and `Pieces::spans` could not return them.

ghost use Rattle.std.specs.Prelude.{◌≡◌, ◌≤◌, OnErr, OnOk, length};
ghost use Rattle.lsp_edit.specs.Parts.{new_parts, parts_of};
ghost use Rattle.lsp_edit.specs.inside.Parts.{AreCut, AreOrdered, replaced_parts};

use crate::pieces::replace::{between, ended_by, passed_by};
use crate::pieces::span::Span;
use std::alloc::AllocError;
use std::marker::Model;

/// Spans in a row. It keeps the span of the last change, by two numbers: how many spans come before
/// it, and how many bytes those have.
#[derive(Debug, Drop)]
pub struct Row<'a> {
    spans: Vec<Span<'a>>,
    near: usize,
    before: usize,
}

impl<'a> Model for Row<'a> {
    ghost use Rattle.std.specs.Prelude.{List};
    ghost use Rattle.lsp_edit.specs.declared.pieces.span.Span.{Span};
    ghost use Rattle.lsp_edit.specs.inside.Parts.{IsMark};

    ghost Value = { List Span };

    ghost view = { λ row. row.spans.items };

    ghost invariant = { λ row. IsMark row.spans.items row.near row.before };
}

impl<'a> Row<'a> {
    /// Makes a row of spans that were not changed yet.
    pub fn new(spans: Vec<Span<'a>>) -> Self
        ensures { result ≡ spans.entry.items }
    {
        Row {
            spans,
            near: 0,
            before: 0,
        }
    }

    /// Returns the spans in order.
    pub fn as_slice(&self) -> &[Span<'a>]
        ensures { result.now ≡ self.now }
    {
        &self.spans
    }

    /// Replaces all spans by a new text. Out of memory changes nothing.
    pub fn replace_all(&mut self, text: &'a str) -> Result<(), AllocError>
        ensures ok { OnOk result (parts_of self.new ≡ new_parts text.now) }
        ensures unchanged { OnErr result (self.new ≡ self.old) }
    {
        self.spans.reserve(1)?;
        self.spans.truncate(0);
        self.near = 0;
        self.before = 0;
        if !text.is_empty() {
            self.spans.push_reserved(Span::New(text));
        }
        Ok(())
    }

    /// Replaces the bytes between two byte offsets by a new text, which adds at most two spans. Out
    /// of memory changes nothing.
    ///
    /// Costs a walk over the spans from the last change to this one, and one move of the spans that
    /// follow.
    pub fn replace(&mut self, start: usize, stop: usize, text: &'a str) -> Result<(), AllocError>
        requires at_start { AreCut (parts_of self.old) start }
        requires at_stop { AreCut (parts_of self.old) stop }
        requires order { start ≤ stop }
        requires ordered { AreOrdered (parts_of self.old) }
        ensures ok { OnOk result
            (parts_of self.new ≡ replaced_parts (parts_of self.old) start stop text.now) }
        ensures few { OnOk result (length self.new ≤ usize.MAX) }
        ensures unchanged { OnErr result (self.new ≡ self.old) }
    {
        let (first, passed) = ended_by(&self.spans, self.near, self.before, start);
        let rest = &self.spans[first..];
        let (last, more) = passed_by(rest, 0, 0, stop - passed);
        let alloc = *self.spans.allocator();
        let new = between(
            alloc,
            rest,
            start - passed,
            last,
            stop - passed - more,
            text,
        )?;
        let past = first + rest.len().min(last + 1);
        let _ = self.spans.splice(first..past, new)?;
        self.near = first;
        self.before = passed;
        Ok(())
    }
}
