//! `compose`, which applies a whole batch of changes to a text.
//!
//! Ranges are resolved here, for who has a text in one string. A batch on a text in blocks is
//! resolved by `IndexedText::delta`, and composed of what that found.

ghost use Rattle.std.specs.Prelude.{◌≤◌, MatchResult, length, map, string_len, sum_by};
ghost use Rattle.std.specs.Str.{chars};
ghost use Rattle.lsp_text.specs.Units.{units_in};
ghost use Rattle.lsp_edit.specs.Batch.{meaning};
ghost use Rattle.lsp_edit.specs.Edited.{Means, content_change};
ghost use Rattle.lsp_edit.specs.Faults.{IsFaultOfChanges};

use crate::change::{Change, MAX_NEW_TEXT};
use crate::fault::EditFault;
use crate::pieces::Pieces;
use lsp_text::Encoding;
use std::alloc::Global;

/// How many bytes a text may have to which a batch is applied.
pub const MAX_OLD_TEXT: usize = 1_073_741_824;

/// Applies the changes of a batch to a text, one after another (LSP 3.17,
/// DidChangeTextDocumentParams).
///
/// Reports the first change that has no result, or out of memory. Costs what each change costs to
/// apply.
pub fn compose<'a>(
    alloc: Global,
    before: &'a str,
    encoding: Encoding,
    changes: &'a [Change],
) -> Result<Pieces<'a>, EditFault>
    requires size { length before.now ≤ MAX_OLD_TEXT }
    requires fits { sum_by (λ change. string_len change.text) changes.now ≤ MAX_NEW_TEXT }
    ensures { MatchResult result
        (λ pieces. Means (chars before.now) (meaning (units_in encoding) (chars before.now)
        (map content_change changes.now)) (length changes.now) pieces.edited)
        (λ fault. IsFaultOfChanges
        (meaning (units_in encoding) (chars before.now) (map content_change changes.now)) fault) }
{
    let mut pieces = Pieces::start(alloc, before)?;
    for change in changes {
        pieces.apply(encoding, change)?;
    }
    Ok(pieces)
}
