//! The canonical batch of spans, written in one pass.

ghost use Rattle.std.specs.Prelude.{◌≡◌, ◌++◌, ◌<◌, ◌⊎◌, ℕ, IfOk, OnOk, IsCharBoundary, length, map, reverse, string_bytes};
ghost use Rattle.std.specs.Str.{chars};
ghost use Rattle.lsp_text.specs.LineStarts.{IsPlace};
ghost use Rattle.lsp_text.specs.Units.{units_in};
ghost use Rattle.lsp_edit.specs.Canonical.{canonical};
ghost use Rattle.lsp_edit.specs.Edited.{content_change};
ghost use Rattle.lsp_edit.specs.inside.Gaps.{change_at, gap_between};
ghost use Rattle.lsp_edit.specs.Keeps.{Keeps};
ghost use Rattle.lsp_edit.specs.Parts.{AreParts, items_of, parts_of};

use crate::change::Change;
use crate::pieces::span::Span;
use lsp_buffer::TextBuffer;
use lsp_text::{Encoding, Range};
use std::alloc::{AllocError, Global};
use std::mem;

/// Appends the change of a gap, if the gap is changed: `text` replaces the old text's bytes from
/// `low` to `high`.
fn put_gap(
    changes: &mut Vec<Change>,
    before: &TextBuffer,
    encoding: Encoding,
    low: usize,
    high: usize,
    text: String,
) -> Result<(), AllocError>
    requires low { IsCharBoundary before.now low }
    requires high { IsCharBoundary before.now high }
    requires ends { (low < high) ⊎ (0 < length (string_bytes text)) → IsPlace (chars before.now) low
        × IsPlace (chars before.now) high }
    ensures { OnOk result (map content_change changes.new.items
        ≡ map content_change changes.old.items
        ++ change_at (units_in encoding) (chars before.now)
        (gap_between before.now low high (string_bytes text))) }
{
    if low < high || !text.is_empty() {
        let start = before.position(encoding, low);
        let stop = if high == low {
            start
        } else {
            before.position(encoding, high)
        };
        let range = Some(Range { start, stop });
        changes.push(Change { range, text })?;
    }
    Ok(())
}

/// Returns the canonical batch of spans: one change for each changed gap between kept characters,
/// from the last gap to the first. Costs the spans, and one exact position for each end of a
/// changed gap.
pub fn canonical_of(
    alloc: Global,
    before: &TextBuffer,
    spans: &[Span<'_>],
    encoding: Encoding,
) -> Result<Vec<Change>, AllocError>
    requires parts { AreParts before.now (parts_of spans.now) }
    requires keeps { Keeps (chars before.now) 0
        (items_of (chars before.now) (parts_of spans.now)) }
    ensures { IfOk result (λ changes. map content_change changes.items
        ≡ canonical (units_in encoding) (chars before.now)
        (items_of (chars before.now) (parts_of spans.now))) }
{
    let end = before.len();
    let mut changes = Vec::new(alloc);
    let mut low = 0;
    let mut text = String::new(alloc);
    for span in spans {
        match *span {
            Span::Old { from, to } => {
                let filled = mem::replace(&mut text, String::new(alloc));
                put_gap(&mut changes, before, encoding, low, from, filled)?;
                low = to;
            }
            Span::New(new) => text.push_str(new)?,
        }
    }
    put_gap(&mut changes, before, encoding, low, end, text)?;
    changes.reverse();
    Ok(changes)
}
