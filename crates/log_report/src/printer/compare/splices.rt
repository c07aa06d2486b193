//! Which parts of a text the changes of a message replace.

ghost use Rattle.std.specs.Prelude.{◌≡◌, ◌≤◌, ◌++◌, IfOk, OnOk, length, map, string_bytes};
ghost use Rattle.std.specs.Str.{chars};
ghost use Rattle.lsp_text.specs.Units.{units_in};
ghost use Rattle.lsp_edit.specs.Batch.{ends_of};
ghost use Rattle.lsp_edit.specs.Faults.{places_at};
ghost use Rattle.lsp_message.specs.Seen.{change_view, content_change_view};
ghost use Rattle.lsp_store.specs.Table.{entry_at};
ghost use Rattle.log_report.specs.Compare.{listed, splice_at, splice_of, splices_from, splices_on};

use crate::notes::changes::replaced::{ends, leave};
use line_diff::Splice;
use lsp_buffer::TextBuffer;
use lsp_edit::Change;
use lsp_message::ChangeParams;
use lsp_server::Server;
use lsp_text::{Encoding, Range};
use std::alloc::{AllocError, Global};

/// Returns which parts a change of a document replaces, if the document is open.
pub fn splices_on(
    alloc: Global,
    server: &Server,
    params: &ChangeParams,
) -> Result<Vec<Splice>, AllocError>
    ensures { IfOk result (λ splices. splices.items ≡ splices_on server.now
        (entry_at server.now.table (string_bytes params.now.uri)) (change_view params.now)) }
{
    let Some(document) = server.store().get(&params.uri) else {
        return Ok(Vec::new(alloc));
    };
    let encoding = server.encoding().unwrap_or(Encoding::Utf16);
    splices_of(alloc, document.text(), encoding, &params.changes)
}

/// Returns which parts of a text changes replace, each in the text that the one before it leaves, up
/// to one that leaves none.
fn splices_of(
    alloc: Global,
    text: &TextBuffer,
    encoding: Encoding,
    changes: &[Change],
) -> Result<Vec<Splice>, AllocError>
    requires { length text.now ≤ 1073741824 }
    ensures { IfOk result (λ splices. splices.items ≡ splices_from (units_in encoding) text.now
        (map content_change_view changes.now)) }
{
    let mut splices = Vec::new(alloc);
    if let [change] = changes {
        push_splice(alloc, &mut splices, text, encoding, change)?;
        return Ok(splices);
    }
    let mut left = text.clone_in(alloc)?;
    for change in changes {
        push_splice(alloc, &mut splices, &left, encoding, change)?;
        if !leave(alloc, &mut left, encoding, change)? {
            return Ok(splices);
        }
    }
    Ok(splices)
}

/// Appends which part of a text a change replaces, if it has a result.
fn push_splice(
    alloc: Global,
    splices: &mut Vec<Splice>,
    text: &TextBuffer,
    encoding: Encoding,
    change: &Change,
) -> Result<(), AllocError>
    ensures { OnOk result (splices.new.items ≡ splices.old.items
        ++ listed (splice_of (units_in encoding) text.now (content_change_view change.now))) }
{
    if let Some(splice) = splice_of(alloc, text, encoding, change)? {
        splices.push(splice)?;
    }
    Ok(())
}

/// Returns which part of a text a change replaces, if it has a result. Of a whole text it replaces
/// what isn't common to both at the front and at the back.
fn splice_of(
    alloc: Global,
    text: &TextBuffer,
    encoding: Encoding,
    change: &Change,
) -> Result<Option<Splice>, AllocError>
    ensures { IfOk result (λ splice. splice
        ≡ splice_of (units_in encoding) text.now (content_change_view change.now)) }
{
    match change.range {
        Some(range) => Ok(range_splice(text, encoding, range, change.text.len())),
        None => {
            let before = text.to_string(alloc)?;
            let splice = Splice::between(before.as_bytes(), change.text.as_bytes());
            Ok(Some(splice))
        }
    }
}

/// Returns which part of a text a range is, in whose place come so many bytes, if it is one.
fn range_splice(text: &TextBuffer, encoding: Encoding, range: Range, len: usize) -> Option<Splice>
    ensures { result ≡ splice_at len
        (places_at 0 (chars text.now) (ends_of (units_in encoding) (chars text.now) range)) }
{
    let Some((start, end)) = ends(text, encoding, range) else {
        return None;
    };
    Some(Splice { start, end, len })
}
