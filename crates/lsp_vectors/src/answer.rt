//! What the changes of a message and a list of text edits mean.

ghost use Rattle.std.specs.Prelude.{◌≤◌, IfErr, IfOk, length, map, string_len, sum_by};
ghost use Rattle.std.specs.Str.{chars};
ghost use Rattle.lsp_text.specs.Units.{units_in};
ghost use Rattle.lsp_edit.specs.Edited.{content_change};
ghost use Rattle.lsp_edit.specs.TextEdits.{IsBatchOfEdits, IsEditsFault};
ghost use Rattle.lsp_vectors.specs.inside.Answer.{IsLeft};

use lsp_edit::{
    BatchFault, Change, IndexedText, MAX_NEW_TEXT, MAX_OLD_TEXT, TextEdit, TextEditFault,
};
use lsp_text::Encoding;
use std::alloc::Global;

/// The text that a message leaves, and the canonical batch of what it did.
#[derive(Debug, PartialEq, Eq, Drop)]
pub struct Left {
    pub text: String,
    pub canonical: Vec<Change>,
}

/// Applies the changes of a message to a text.
pub fn left_by_changes(
    alloc: Global,
    text: &str,
    encoding: Encoding,
    changes: &[Change],
) -> Result<Left, BatchFault>
    requires size { length text.now ≤ MAX_OLD_TEXT }
    requires fits { sum_by (λ change. string_len change.text) changes.now ≤ MAX_NEW_TEXT }
    ensures ok { IfOk result
        (IsLeft (units_in encoding) text.now (map content_change changes.now)) }
{
    let mut kept = IndexedText::new(alloc, String::from_str(alloc, text)?)?;
    let delta = kept.delta(encoding, changes, usize::MAX)?;
    let canonical = delta.canonical(alloc, &kept)?;
    kept.apply(delta)?;
    let text = kept.text().to_string(alloc)?;
    Ok(Left { text, canonical })
}

/// Returns the batch that means what text edits mean.
pub fn batch_of_edits(
    alloc: Global,
    text: &str,
    encoding: Encoding,
    edits: &[TextEdit],
) -> Result<Vec<Change>, TextEditFault>
    requires { length text.now ≤ MAX_OLD_TEXT }
    ensures batch { IfOk result (λ batch.
        IsBatchOfEdits (units_in encoding) text.now edits.now (map content_change batch.items)) }
    ensures error { IfErr result (λ fault.
        IsEditsFault (units_in encoding) (chars text.now) edits.now fault) }
{
    let text = IndexedText::new(alloc, String::from_str(alloc, text)?)?;
    text.batch_of_edits(encoding, edits)
}
