//! Meanings as values of JSON.

use crate::answer::Left;
use anyhow::Result;
use lsp_edit::Change;
use lsp_text::Range;
use serde_json::{Value, json};
use std::alloc::Global;

/// Returns what a message leaves.
pub fn left_value(alloc: Global, left: Left) -> Result<Value> {
    let Left { text, canonical } = left;
    let canonical = changes_value(alloc, canonical)?;
    Ok(json!(in alloc; {"text": text, "canonical": canonical})?)
}

/// Returns a batch, as a message has it.
fn changes_value(alloc: Global, changes: Vec<Change>) -> Result<Value> {
    let mut values = Vec::new(alloc);
    for change in changes {
        values.push(change_value(alloc, change)?)?;
    }
    Ok(Value::Array(values))
}

fn change_value(alloc: Global, change: Change) -> Result<Value> {
    let Change { range, text } = change;
    match range {
        Some(Range { start, stop }) => Ok(json!(in alloc; {
            "range": {
                "start": {"line": start.line, "character": start.character},
                "end": {"line": stop.line, "character": stop.character}
            },
            "text": text
        })?),
        None => Ok(json!(in alloc; {"text": text})?),
    }
}
