//! What a replacement needs of spans: walks to both of its ends, and the spans between them.

ghost use Rattle.std.specs.Prelude.{◌≡◌, ◌++◌, ◌-◌, ◌≤◌, ◌<◌, OnOk, IfOk, take, drop};
ghost use Rattle.lsp_edit.specs.Parts.{new_parts, part_of, parts_of};
ghost use Rattle.lsp_edit.specs.inside.Parts.{AreBefore, AreCut, AreOrdered, ArePassed, EndAfter, IsFirstCut, IsMark, first_front, front_parts, put_first_back, put_part};

use crate::pieces::span::{Span, push_new};
use std::alloc::{AllocError, Global};

/// Appends a span. Two parts of the old text that touch become one.
pub fn put<'a>(spans: &mut Vec<Span<'a>>, span: Span<'a>) -> Result<(), AllocError>
    ensures { OnOk result
        (parts_of spans.new.items ≡ put_part (parts_of spans.old.items) (part_of span.entry)) }
{
    match spans.pop() {
        None => spans.push(span)?,
        Some(last) => match last.joined(span) {
            Some(one) => spans.push(one)?,
            None => {
                spans.push(last)?;
                spans.push(span)?;
            }
        },
    }
    Ok(())
}

/// Appends to `out` the spans of the first bytes, up to a byte offset. A span with the offset
/// inside is cut there.
pub fn push_front<'a>(
    out: &mut Vec<Span<'a>>,
    spans: &[Span<'a>],
    place: usize,
) -> Result<(), AllocError>
    requires { AreCut (parts_of spans.now) place }
    ensures { OnOk result
        (parts_of out.new.items
        ≡ parts_of out.old.items ++ front_parts (parts_of spans.now) place) }
{
    let mut left = place;
    for span in spans {
        if left == 0 {
            return Ok(());
        }
        if left < span.len() {
            out.push(span.front(left))?;
            return Ok(());
        }
        left -= span.len();
        out.push(*span)?;
    }
    Ok(())
}

/// Walks back to a span that begins before an offset. The walk begins at the span with this index,
/// which has `passed` bytes before it.
fn back_to(spans: &[Span], index: usize, passed: usize, place: usize) -> (usize, usize)
    requires marked { IsMark spans.now index passed }
    requires ordered { AreOrdered (parts_of spans.now) }
    requires some { 0 < place }
    ensures marked { IsMark spans.now result.0 result.1 }
    ensures before { result.1 < place }
{
    let mut index = index;
    let mut passed = passed;
    while index > 0 && passed >= place {
        index -= 1;
        passed -= spans[index].len();
    }
    (index, passed)
}

/// Returns how many spans end at or before the offset `low`, and how many bytes those have. The
/// walk begins at a span that begins there or before.
pub fn passed_by(spans: &[Span], index: usize, passed: usize, low: usize) -> (usize, usize)
    requires marked { IsMark spans.now index passed }
    requires order { passed ≤ low }
    requires ordered { AreOrdered (parts_of spans.now) }
    ensures marked { IsMark spans.now result.0 result.1 }
    ensures passed { ArePassed (parts_of spans.now) (parts_of (drop result.0 spans.now))
        result.1 low }
    ensures before { AreBefore (parts_of spans.now) (parts_of (take result.0 spans.now))
        (parts_of (drop result.0 spans.now)) result.1 low }
    ensures rest_after { EndAfter (parts_of (drop result.0 spans.now)) (low - result.1) }
{
    let mut passed = passed;
    for next in index..spans.len() {
        let len = spans[next].len();
        if low - passed < len {
            return (next, passed);
        }
        passed += len;
    }
    (spans.len(), passed)
}

/// Returns how many spans end before an offset, and how many bytes those have. The next span is cut
/// there, or ends there. The walk begins at the span with this index, which has `passed` bytes
/// before it.
pub fn ended_by(spans: &[Span], index: usize, passed: usize, place: usize) -> (usize, usize)
    requires marked { IsMark spans.now index passed }
    requires ordered { AreOrdered (parts_of spans.now) }
    requires cut { AreCut (parts_of spans.now) place }
    ensures marked { IsMark spans.now result.0 result.1 }
    ensures passed { ArePassed (parts_of spans.now) (parts_of (drop result.0 spans.now)) result.1
        place }
    ensures front { front_parts (parts_of spans.now) place ≡ parts_of (take result.0 spans.now)
        ++ first_front (parts_of (drop result.0 spans.now)) (place - result.1) }
    ensures first { place - result.1 ≡ 0 → result.0 ≡ 0 }
    ensures cut { IsFirstCut (parts_of (drop result.0 spans.now)) (place - result.1) }
{
    if place == 0 {
        return (0, 0);
    }
    let (index, passed) = back_to(spans, index, passed, place);
    passed_by(spans, index, passed, place - 1)
}

/// Returns the spans that replace those from the first to the one with the index `last`. They are
/// what the first has before `start`, the new text, and what the last has after `stop`. Both
/// offsets are counted from the start of their spans.
pub fn between<'a>(
    alloc: Global,
    spans: &[Span<'a>],
    start: usize,
    last: usize,
    stop: usize,
    text: &'a str,
) -> Result<Vec<Span<'a>>, AllocError>
    requires start { IsFirstCut (parts_of spans.now) start }
    requires stop { IsFirstCut (parts_of (drop last spans.now)) stop }
    ensures { IfOk result (λ new. parts_of new.items
        ≡ put_first_back (first_front (parts_of spans.now) start ++ new_parts text.now)
        (parts_of (drop last spans.now)) stop) }
{
    let mut new = Vec::with_capacity(alloc, 3)?;
    if start > 0 && !spans.is_empty() {
        new.push(spans[0].front(start))?;
    }
    push_new(&mut new, text)?;
    if last < spans.len() {
        put(&mut new, spans[last].back(stop))?;
    }
    Ok(new)
}
