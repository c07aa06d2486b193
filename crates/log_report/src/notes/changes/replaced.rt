//! What a change replaces in a text, and the text that it leaves.

ghost use Rattle.std.specs.Prelude.{◌≡◌, ◌≤◌, IfNone, IfOk, IfSome, OnOk, None, Ok, Some, if◌then◌else◌, length, option_map, string_bytes};
ghost use Rattle.std.specs.Result.{result_ok};
ghost use Rattle.std.specs.Str.{IsCharBoundary, chars};
ghost use Rattle.lsp_text.specs.Units.{units_in};
ghost use Rattle.lsp_edit.specs.Batch.{meaning, ends_of};
ghost use Rattle.lsp_edit.specs.Edited.{content_change};
ghost use Rattle.lsp_edit.specs.Faults.{places_at};
ghost use Rattle.lsp_edit.specs.Indexed.{alone, text_within};
ghost use Rattle.log_report.specs.Notes.{left_by, replaced_by};

use lsp_buffer::TextBuffer;
use lsp_edit::{Change, MAX_NEW_TEXT, MAX_OLD_TEXT};
use lsp_text::{Encoding, Range};
use std::alloc::{AllocError, Global};

/// Returns the byte offsets of a range's ends in a text, if they denote some, and in order.
pub(crate) fn ends(text: &TextBuffer, encoding: Encoding, range: Range) -> Option<(usize, usize)>
    ensures ends { IfSome result (λ ends. Ok ends
        ≡ places_at 0 (chars text.now) (ends_of (units_in encoding) (chars text.now) range)) }
    ensures order { IfSome result (λ ends. ends.0 ≤ ends.1) }
    ensures start { IfSome result (λ ends. IsCharBoundary text.now ends.0) }
    ensures stop { IfSome result (λ ends. IsCharBoundary text.now ends.1) }
    ensures none { IfNone result (replaced_by (units_in encoding) (chars text.now) (Some range)
        ≡ None) }
{
    let Ok(start) = text.resolve(encoding, range.start) else {
        return None;
    };
    let Ok(stop) = text.resolve(encoding, range.stop) else {
        return None;
    };
    if start > stop {
        return None;
    }
    Some((start, stop))
}

/// Copies the part of a text that a change of this range replaces, if it has a result.
#[tactic(auto, using(crate::proofs::Reports::NoteLemmas::part_is))]
pub(super) fn replaced_by(
    alloc: Global,
    text: &TextBuffer,
    encoding: Encoding,
    range: Option<Range>,
) -> Result<Option<String>, AllocError>
    ensures { IfOk result (λ replaced. option_map (λ part. chars (string_bytes part)) replaced
        ≡ replaced_by (units_in encoding) (chars text.now) range) }
{
    let Some(range) = range else {
        return Ok(Some(text.to_string(alloc)?));
    };
    let _ = text.len();
    let Some((start, stop)) = ends(text, encoding, range) else {
        return Ok(None);
    };
    Ok(Some(text.slice(alloc, start, stop)?))
}

/// Applies a change to a text. Returns false, and changes nothing, where nothing is left by it.
pub(crate) fn leave(
    alloc: Global,
    text: &mut TextBuffer,
    encoding: Encoding,
    change: &Change,
) -> Result<bool, AllocError>
    requires { length text.old ≤ 1073741824 }
    ensures left { IfOk result (λ is_left.
        left_by (units_in encoding) text.old (content_change change.now)
        ≡ (if is_left then Some text.new else None)) }
    ensures size { OnOk result (length text.new ≤ 1073741824) }
{
    if change.text.len() > MAX_NEW_TEXT {
        return Ok(false);
    }
    match change.range {
        None => {
            *text = TextBuffer::new(alloc, String::from_str(alloc, &change.text)?)?;
            Ok(true)
        }
        Some(range) => leave_range(text, encoding, range, &change.text),
    }
}

/// Replaces a range of a text. Returns false, and changes nothing, where nothing is left by that.
fn leave_range(
    text: &mut TextBuffer,
    encoding: Encoding,
    range: Range,
    new: &str,
) -> Result<bool, AllocError>
    requires size { length text.old ≤ 1073741824 }
    requires fits { length new.now ≤ 1073741824 }
    ensures left { IfOk result (λ is_left. result_ok (text_within 1073741824 text.old
        (meaning (units_in encoding) (chars text.old) (alone range new.now)))
        ≡ (if is_left then Some text.new else None)) }
    ensures size { OnOk result (length text.new ≤ 1073741824) }
{
    let len = text.len();
    let Some((start, stop)) = ends(text, encoding, range) else {
        return Ok(false);
    };
    if len - (stop - start) + new.len() > MAX_OLD_TEXT {
        return Ok(false);
    }
    text.replace_range(start, stop, new)?;
    Ok(true)
}
