//! Cases of each kind, and what they mean as a value of JSON.

use crate::answer::{batch_of_edits, left_by_changes};
use crate::fault::{edits_refused, invalid, refused};
use crate::frames::frames_expected;
use crate::offsets::offsets_of;
use crate::session::session_expected;
use crate::written::left_value;
use anyhow::{Context, Result, bail};
use lsp_edit::{Change, MAX_OLD_TEXT, TextEdit, fits};
use lsp_message::{ParamsFault, params_change};
use lsp_text::Encoding;
use serde_json::{Map, Value, json};
use std::alloc::Global;

/// Returns what a case means.
pub fn expected(alloc: Global, case: Value) -> Result<Value> {
    let Value::Object(mut members) = case else {
        bail!("a case is an object");
    };
    if let Some(changes) = members.remove("changes") {
        let expect = message_expected(alloc, &members, changes)?;
        return with_offsets(alloc, &members, expect);
    }
    if let Some(edits) = members.remove("edits") {
        return edits_expected(alloc, &members, edits);
    }
    if let Some(messages) = members.remove("messages") {
        return session_expected(alloc, encoding_in(&members)?, messages);
    }
    frames_expected(alloc, text_in(&members, "bytes")?)
}

/// Returns what a message leaves of a text.
fn message_expected(alloc: Global, members: &Map<String, Value>, changes: Value) -> Result<Value> {
    let Some(changes) = changes_in(alloc, changes)? else {
        return invalid(alloc);
    };
    let (text, encoding) = (text_in(members, "text")?, encoding_in(members)?);
    changes_expected(alloc, text, encoding, &changes)
}

/// Reads the changes of a message. There are none if a number or the shape is wrong.
fn changes_in(alloc: Global, changes: Value) -> Result<Option<Vec<Change>>> {
    let params =
        json!(in alloc; {"textDocument": {"uri": "", "version": 1}, "contentChanges": changes})?;
    match params_change(alloc, Some(params)) {
        Ok(params) => Ok(Some(params.changes)),
        Err(ParamsFault::InvalidParams) => Ok(None),
        Err(ParamsFault::NoMemory) => bail!("out of memory"),
    }
}

/// Adds the offsets of the positions that a case names, if it names some.
fn with_offsets(alloc: Global, members: &Map<String, Value>, expect: Value) -> Result<Value> {
    let Some(positions) = members.get("positions") else {
        return Ok(expect);
    };
    let Value::Object(mut expect) = expect else {
        bail!("a meaning is an object");
    };
    let text = text_in(members, "text")?;
    if text.len() > MAX_OLD_TEXT {
        bail!("a case is too long");
    }
    let offsets = offsets_of(alloc, text, encoding_in(members)?, positions)?;
    drop(expect.insert(String::from_str(alloc, "offsets")?, offsets)?);
    Ok(Value::Object(expect))
}

/// Returns what changes leave of a text.
fn changes_expected(
    alloc: Global,
    text: &str,
    encoding: Encoding,
    changes: &[Change],
) -> Result<Value> {
    if text.len() > MAX_OLD_TEXT || !fits(changes) {
        bail!("a case is too long");
    }
    match left_by_changes(alloc, text, encoding, changes) {
        Ok(left) => left_value(alloc, left),
        Err(fault) => refused(alloc, fault),
    }
}

/// Returns what text edits leave of a text.
fn edits_expected(alloc: Global, members: &Map<String, Value>, edits: Value) -> Result<Value> {
    let text = text_in(members, "text")?;
    let encoding = encoding_in(members)?;
    let Some(edits) = edits_in(alloc, edits)? else {
        return invalid(alloc);
    };
    if text.len() > MAX_OLD_TEXT {
        bail!("a case is too long");
    }
    match batch_of_edits(alloc, text, encoding, &edits) {
        Ok(batch) => changes_expected(alloc, text, encoding, &batch),
        Err(fault) => edits_refused(alloc, fault),
    }
}

/// Reads text edits as changes with a range, so that their positions are read as a message's are.
/// There are none if a number or the shape is wrong.
fn edits_in(alloc: Global, edits: Value) -> Result<Option<Vec<TextEdit>>> {
    let Value::Array(edits) = edits else {
        bail!("edits are a list");
    };
    let mut changes = Vec::new(alloc);
    for edit in edits {
        let Value::Object(mut edit) = edit else {
            return Ok(None);
        };
        let range = edit.remove("range").context("an edit has a range")?;
        let text = edit.remove("newText").context("an edit has a text")?;
        changes.push(json!(in alloc; {"range": range, "text": text})?)?;
    }
    let Some(changes) = changes_in(alloc, Value::Array(changes))? else {
        return Ok(None);
    };
    let mut edits = Vec::new(alloc);
    for change in changes {
        let Some(range) = change.range else {
            return Ok(None);
        };
        let new_text = change.text;
        edits.push(TextEdit { range, new_text })?;
    }
    Ok(Some(edits))
}

/// Returns the encoding of a case.
fn encoding_in(members: &Map<String, Value>) -> Result<Encoding> {
    let name = text_in(members, "encoding")?;
    Ok(Encoding::of_name(name).context("a case names an encoding")?)
}

/// Returns a text of a case.
fn text_in<'v>(members: &'v Map<String, Value>, name: &str) -> Result<&'v str> {
    let Some(Value::String(text)) = members.get(name) else {
        bail!("a case lacks a text");
    };
    Ok(text.as_str())
}
