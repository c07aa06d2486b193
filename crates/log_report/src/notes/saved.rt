//! A `didSave` with a text (LSP 3.17, DidSaveTextDocumentParams). A copy is right exactly if that is
//! the document's.

ghost use Rattle.std.specs.Prelude.{◌≡◌, ◌++◌, ◌&&◌, ◌<◌, IfOk, OnOk, drop, length, option_and_then, option_map, slice_index, suc};
ghost use Rattle.serde_json.specs.View.{view};
ghost use Rattle.line_diff.specs.Lines.{ends_line};
ghost use Rattle.lsp_store.specs.Table.{entry_at};
ghost use Rattle.log_report.specs.Notes.{differing_line, is_part, saved_notes, saved_text, saved_uri};

use crate::notes::Note;
use lsp_store::{Document, Store};
use memchr::memmem::find;
use serde_json::Value;
use std::alloc::{AllocError, Global};

/// Returns the URI of the document that params name.
pub fn saved_uri(params: Option<&Value>) -> Option<&str>
    ensures { option_map (λ uri. uri.now) result
        ≡ saved_uri (option_map (λ params. view params.now) params.entry) }
{
    params?.get("textDocument")?.get("uri")?.as_str()
}

/// Returns the text that params name.
fn saved_text(params: Option<&Value>) -> Option<&str>
    ensures { option_map (λ text. text.now) result
        ≡ saved_text (option_map (λ params. view params.now) params.entry) }
{
    params?.get("text")?.as_str()
}

/// Notes a text in the params of a `didSave` that isn't the document's.
pub fn push_saved_note(
    alloc: Global,
    notes: &mut Vec<Note>,
    store: &Store,
    params: Option<&Value>,
) -> Result<(), AllocError>
    ensures { OnOk result (notes.new.items ≡ notes.old.items ++ saved_notes
        (option_and_then (entry_at store.now.table)
        (saved_uri (option_map (λ params. view params.now) params.entry)))
        (saved_text (option_map (λ params. view params.now) params.entry))) }
{
    let Some(document) = document_of(store, saved_uri(params)) else {
        return Ok(());
    };
    let Some(saved) = saved_text(params) else {
        return Ok(());
    };
    if document.text().is_text(saved) {
        return Ok(());
    }
    let text = document.text().to_string(alloc)?;
    if is_part(saved.as_bytes(), text.as_bytes()) {
        notes.push(Note::PartSaved)?;
        return Ok(());
    }
    let line = differing_line(text.as_bytes(), saved.as_bytes());
    notes.push(Note::OtherSaved { line })?;
    Ok(())
}

/// Returns whether a text is a part of another.
#[tactic(auto, using(crate::proofs::Reports::SavedLemmas::found_part))]
fn is_part(part: &[u8], text: &[u8]) -> bool
    ensures { result ≡ is_part part.now text.now }
{
    !part.is_empty() && find(text, part).is_some()
}

/// Returns the document with this URI, if it is open.
pub fn document_of<'a>(store: &'a Store, uri: Option<&str>) -> Option<Document<'a>>
    ensures { result ≡ option_and_then (entry_at store.now.table)
        (option_map (λ uri. uri.now) uri.entry) }
{
    store.get(uri?)
}

/// Returns the line of a text, from 1, in which another differs first.
fn differing_line(text: &[u8], other: &[u8]) -> usize
    ensures { result ≡ differing_line 1 text.now other.now }
{
    let mut line = 1;
    let mut next = 0;
    'bytes: while next < text.len() && next < other.len() {
        if text[next] != other[next] {
            return line;
        }
        if ends_both(text, other, next) {
            line += 1;
        }
        next += 1;
    }
    line
}

/// Returns whether the bytes at an index end a line of both texts.
fn ends_both(text: &[u8], other: &[u8], index: usize) -> bool
    requires text { index < length text.now }
    requires other { index < length other.now }
    ensures { result ≡ (ends_line (slice_index text.now index) (drop (suc index) text.now)
        && ends_line (slice_index other.now index) (drop (suc index) other.now)) }
{
    ends_line(text, index) && ends_line(other, index)
}

/// Returns whether the byte at an index ends a line.
fn ends_line(text: &[u8], index: usize) -> bool
    requires { index < length text.now }
    ensures { result ≡ ends_line (slice_index text.now index) (drop (suc index) text.now) }
{
    match text[index] {
        b'\n' => true,
        b'\r' => match text.get(index + 1) {
            Some(next) => *next != b'\n',
            None => true,
        },
        _ => false,
    }
}
