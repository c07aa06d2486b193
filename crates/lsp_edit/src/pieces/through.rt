//! Composition of spans: spans over the text of other spans become spans over the old text of
//! those.

ghost use Rattle.std.specs.Prelude.{◌≡◌, ◌-◌, ◌≤◌, ◌∷◌, OnOk, IfOk, length, drop};
ghost use Rattle.lsp_edit.specs.Parts.{Ascend, part_of, parts_of};
ghost use Rattle.lsp_edit.specs.inside.Parts.{AreCut, ArePassed, AreThrough, back_parts, front_parts, put_parts, through_parts};

use crate::pieces::replace::{push_front, put};
use crate::pieces::span::Span;
use std::alloc::{AllocError, Global};

/// Appends the first `count` bytes of a span and of those that follow it.
fn push_from<'a>(
    out: &mut Vec<Span<'a>>,
    first: Span<'a>,
    rest_after: &[Span<'a>],
    count: usize,
) -> Result<(), AllocError>
    requires { AreCut (part_of first ∷ parts_of rest_after.now) count }
    ensures { OnOk result
        (parts_of out.new.items
        ≡ put_parts (parts_of out.old.items)
        (front_parts (part_of first.entry ∷ parts_of rest_after.now) count)) }
{
    if count == 0 {
        return Ok(());
    }
    if count < first.len() {
        return put(out, first.front(count));
    }
    put(out, first)?;
    push_front(out, rest_after, count - first.len())
}

/// Appends the spans of `count` bytes from the byte offset `from` on. Returns how many spans end at
/// or before that offset, and how many bytes those have.
fn push_between<'a>(
    out: &mut Vec<Span<'a>>,
    spans: &[Span<'a>],
    from: usize,
    count: usize,
) -> Result<(usize, usize), AllocError>
    requires from { AreCut (parts_of spans.now) from }
    requires count { AreCut (back_parts (parts_of spans.now) from) count }
    ensures pushed { OnOk result
        (parts_of out.new.items
        ≡ put_parts (parts_of out.old.items)
        (front_parts (back_parts (parts_of spans.now) from) count)) }
    ensures within { IfOk result (λ passed. passed.0 ≤ length spans.now) }
    ensures passed { IfOk result
        (λ passed. ArePassed (parts_of spans.now) (parts_of (drop passed.0 spans.now)) passed.1
        from) }
{
    let mut passed = 0;
    for (index, span) in spans.iter().enumerate() {
        let here = from - passed;
        if here < span.len() {
            push_from(out, span.back(here), &spans[index + 1..], count)?;
            return Ok((index, passed));
        }
        passed += span.len();
    }
    Ok((spans.len(), passed))
}

/// Returns the spans of `second`, which are over the text of `first`, as spans over what `first` is
/// over. Costs one walk over both.
pub fn spans_through<'a>(
    alloc: Global,
    first: &[Span<'a>],
    second: &[Span<'a>],
) -> Result<Vec<Span<'a>>, AllocError>
    requires through { AreThrough (parts_of first.now) (parts_of second.now) }
    requires order { Ascend 0 (parts_of second.now) }
    ensures { IfOk result
        (λ spans. parts_of spans.items ≡ through_parts (parts_of first.now) (parts_of second.now)) }
{
    let mut out = Vec::new(alloc);
    let mut begun = 0;
    let mut passed = 0;
    for span in second {
        match *span {
            Span::Old { from, to } => {
                let rest = &first[begun..];
                let (count, len) = push_between(&mut out, rest, from - passed, to - from)?;
                begun += count;
                passed += len;
            }
            Span::New(_) => put(&mut out, *span)?,
        }
    }
    Ok(out)
}
