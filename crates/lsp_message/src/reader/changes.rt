//! The changes of a `textDocument/didChange`, read directly into their list.

ghost use Rattle.std.specs.Prelude.{◌≡◌, ◌≤◌, ◌<◌, length, map, option_map, option_and_then, Some, None, Err, IfOk, OnOk};
ghost use Rattle.serde_json.specs.Data.{Data, Items};
ghost use Rattle.serde_json.specs.Find.{as_array};
ghost use Rattle.lsp_message.specs.Values.{each_of};
ghost use Rattle.lsp_message.specs.Params.{content_change_in};
ghost use Rattle.lsp_message.specs.Seen.{content_change_view};
ghost use Rattle.lsp_message.specs.inside.Reading.{value_at, array_at};

use crate::reader::change::read_change;
use crate::reader::fault::{Fault, Read};
use crate::reader::skip::skip_value_from;
use json::{Invalid, Reader, Token};
use lsp_edit::Change;
use std::alloc::Global;

/// Reads the rest of an array, after its bracket; `None` where an item is no change.
fn read_items(alloc: Global, reader: &mut Reader<'_>, depth: usize) -> Read<Option<Vec<Change>>>
    ensures ok { IfOk result (λ r. (ds : Items)
        × (array_at depth reader.old ≡ Some (ds, reader.new))
        × (option_map (λ v. map content_change_view v.items) r ≡ each_of content_change_in ds)) }
    ensures shorter { OnOk result (length reader.new ≤ length reader.old) }
    ensures error { result ≡ Err Fault.NotJson → array_at depth reader.old ≡ None }
{
    let mut found = Vec::new(alloc);
    let mut all_changes = true;
    'items: while !reader.take_end_array() {
        match read_change(alloc, reader, depth)? {
            Some(change) => found.push(change)?,
            None => all_changes = false,
        }
    }
    if all_changes {
        Ok(Some(found))
    } else {
        Ok(None)
    }
}

/// Reads a value as an array of changes; `None` where it is none.
#[tactic(auto, using(crate::proofs::Openings::first_tokens))]
pub(crate) fn read_changes(
    alloc: Global,
    reader: &mut Reader<'_>,
    depth: usize,
) -> Read<Option<Vec<Change>>>
    ensures ok { IfOk result (λ r. (d : Data) × (value_at depth reader.old ≡ Some (d, reader.new))
        × (option_map (λ v. map content_change_view v.items) r
        ≡ option_and_then (each_of content_change_in) (as_array d))) }
    ensures shorter { OnOk result (length reader.new < length reader.old) }
    ensures error { result ≡ Err Fault.NotJson → value_at depth reader.old ≡ None }
{
    let token = reader.next().ok_or(Invalid)?;
    match token {
        Token::BeginArray => {
            if depth == 0 {
                return Err(Fault::NotJson);
            }
            read_items(alloc, reader, depth - 1)
        }
        _ => {
            skip_value_from(reader, token, depth)?;
            Ok(None)
        }
    }
}
