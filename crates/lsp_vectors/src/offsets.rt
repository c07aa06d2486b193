//! The byte offsets of the positions that a case names.

ghost use Rattle.std.specs.Prelude.{◌≤◌, length};

use anyhow::{Context, Result};
use lsp_edit::MAX_OLD_TEXT;
use lsp_text::{Encoding, Lines, Position};
use serde_json::{Value, json};
use std::alloc::Global;

/// Returns the byte offset that each position denotes in a text, or null inside a character.
pub fn offsets_of(alloc: Global, text: &str, encoding: Encoding, positions: &Value) -> Result<Value>
    requires { length text.now ≤ MAX_OLD_TEXT }
{
    let lines = Lines::new(alloc, text)?;
    let mut offsets = Vec::new(alloc);
    for position in positions.as_array().context("positions are a list")? {
        let position = position_of(position).context("an item is no position")?;
        match lines.resolve(text, encoding, position) {
            Ok(offset) => offsets.push(json!(in alloc; offset)?)?,
            Err(_) => offsets.push(Value::Null)?,
        }
    }
    Ok(Value::Array(offsets))
}

fn position_of(value: &Value) -> Option<Position> {
    Some(Position {
        line: number_in(value, "line")?,
        character: number_in(value, "character")?,
    })
}

fn number_in(value: &Value, name: &str) -> Option<u32> {
    u32::try_from(value.get(name)?.as_u64()?).ok()
}
