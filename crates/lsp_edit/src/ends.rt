//! The ends of a change's range, as byte offsets in the text that the change meets.

ghost use Rattle.std.specs.Prelude.{◌≡◌, ℕ};
ghost use Rattle.std.specs.Str.{chars};
ghost use Rattle.lsp_text.specs.Units.{units_in};
ghost use Rattle.lsp_edit.specs.Faults.{places_at};
ghost use Rattle.lsp_edit.specs.Batch.{ends_of, in_order};
ghost use Rattle.lsp_edit.specs.inside.Faults.{numbered};

use crate::fault::{EditFault, Side};
use lsp_buffer::TextBuffer;
use lsp_text::{Encoding, Range};

/// Returns the byte offsets of a range's two ends in a text. `change` is the number of the change
/// that a fault reports.
pub fn ends(
    text: &TextBuffer,
    encoding: Encoding,
    range: Range,
    change: usize,
) -> Result<(usize, usize), EditFault>
    ensures { result
        ≡ places_at change (chars text.now) (ends_of (units_in encoding) (chars text.now) range) }
{
    let start = text.resolve(encoding, range.start).ok();
    let stop = text.resolve(encoding, range.stop).ok();
    ends_in_order(start, stop, change)
}

/// Returns what the two ends of a range denote, if both denote something and are in order.
/// `change` is the number of the change that a fault reports.
pub fn ends_in_order(
    start: Option<usize>,
    stop: Option<usize>,
    change: usize,
) -> Result<(usize, usize), EditFault>
    ensures { result ≡ numbered change (in_order start stop) }
{
    let Some(start) = start else {
        return Err(EditFault::InsideCharacter {
            change,
            side: Side::Start,
        });
    };
    let Some(stop) = stop else {
        return Err(EditFault::InsideCharacter {
            change,
            side: Side::Stop,
        });
    };
    if start > stop {
        return Err(EditFault::ReversedRange { change });
    }
    Ok((start, stop))
}
