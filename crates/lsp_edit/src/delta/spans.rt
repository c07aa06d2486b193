//! What resolved changes leave of a text, in spans of it and of their texts. No range is resolved
//! again, and the text is not read.

ghost use Rattle.std.specs.Prelude.{◌≡◌, ◌≤◌, ℕ, IfOk, List, map, sum_by};
ghost use Rattle.std.specs.Str.{chars};
ghost use Rattle.lsp_edit.specs.Batch.{meaning};
ghost use Rattle.lsp_edit.specs.Edited.{content_change};
ghost use Rattle.lsp_edit.specs.Parts.{part_len, parts_of};
ghost use Rattle.lsp_edit.specs.inside.Layers.{AreResolved, IsLayer};
ghost use Rattle.lsp_edit.specs.inside.Parts.{AreOrdered};

use crate::change::Change;
use crate::pieces::span::Span;
use crate::pieces::split::SplitSpans;
use crate::pieces::through::spans_through;
use std::alloc::{AllocError, Global};

/// How many changes that go to and fro are put one after another.
const SERIES: usize = 256;

/// Returns whether changes go from the end of the text to its start, or from its start to its end.
fn go_one_way(ends: &[(usize, usize)]) -> bool {
    let mut down = true;
    let mut up = true;
    for index in 1..ends.len() {
        let (before, here) = (ends[index - 1].0, ends[index].0);
        down = down && here <= before;
        up = up && here >= before;
    }
    down || up
}

/// Returns how many bytes some spans have.
fn len_of(spans: &[Span<'_>]) -> usize
    requires ordered { AreOrdered (parts_of spans.now) }
    requires short { sum_by part_len (parts_of spans.now) ≤ 2147483648 }
    ensures { result ≡ sum_by part_len (parts_of spans.now) }
{
    let mut len = 0;
    for span in spans {
        len += span.len();
    }
    len
}

/// Puts changes one after another into the spans of a text of `len` bytes.
fn put_all<'a>(
    alloc: Global,
    len: usize,
    changes: &'a [Change],
    ends: &[(usize, usize)],
) -> Result<Vec<Span<'a>>, AllocError>
    requires { (units : ℕ → ℕ) × (before : List ℕ)
        × AreResolved units before len changes.now ends.now }
    ensures { IfOk result (λ spans. (units : ℕ → ℕ) (before : List ℕ)
        → AreResolved units before len changes.now ends.now
        → IsLayer (meaning units (chars before) (map content_change changes.now)) before
        (parts_of spans.items)) }
{
    let mut split = SplitSpans::whole(alloc, len)?;
    for (index, change) in changes.iter().enumerate() {
        match change.range {
            None => split.replace_all(&change.text)?,
            Some(_) => {
                let (start, stop) = ends[index];
                split.replace(start, stop, &change.text)?;
            }
        }
    }
    split.close()
}

/// Returns the spans of a text of `len` bytes after changes, whose ranges have these ends in the
/// text that each meets. Fails only where memory runs out.
///
/// Changes that go one way cost the spans. Many others are composed by halves, so that a change
/// moves only the spans of some hundred.
pub fn spans_after<'a>(
    alloc: Global,
    len: usize,
    changes: &'a [Change],
    ends: &[(usize, usize)],
) -> Result<Vec<Span<'a>>, AllocError>
    requires { (units : ℕ → ℕ) × (before : List ℕ)
        × AreResolved units before len changes.now ends.now }
    ensures { IfOk result (λ spans. (units : ℕ → ℕ) (before : List ℕ)
        → AreResolved units before len changes.now ends.now
        → IsLayer (meaning units (chars before) (map content_change changes.now)) before
        (parts_of spans.items)) }
{
    if changes.len() <= SERIES || go_one_way(ends) {
        return put_all(alloc, len, changes, ends);
    }
    let half = changes.len() / 2;
    let (first, second) = changes.split_at(half);
    let (first_ends, second_ends) = ends.split_at(half);
    let first_spans = spans_after(alloc, len, first, first_ends)?;
    let len = len_of(&first_spans);
    let second_spans = spans_after(alloc, len, second, second_ends)?;
    spans_through(alloc, &first_spans, &second_spans)
}
