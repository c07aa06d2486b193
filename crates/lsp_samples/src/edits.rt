//! Changes as rows of numbers and a text.

use crate::again;
use lsp_edit::{Change, TextEdit};
use lsp_text::{Position, Range};
use std::alloc::{AllocError, Global};

/// A change: the line and the character of its start, those of its end, and the text. [`ALL`] as
/// the first line means the whole text.
pub type Edit = (u32, u32, u32, u32, &'static str);

/// The line of a change of the whole text.
pub const ALL: u32 = 4294967295;

/// Makes the change of a row.
pub fn change(alloc: Global, edit: Edit) -> Result<Change, AllocError> {
    let (line, character, stop_line, stop_character, text) = edit;
    let range = if line == ALL {
        None
    } else {
        Some(Range {
            start: Position { line, character },
            stop: Position {
                line: stop_line,
                character: stop_character,
            },
        })
    };
    let text = String::from_str(alloc, text)?;
    Ok(Change { range, text })
}

/// Makes the batch of some rows.
pub fn batch(alloc: Global, edits: &[Edit]) -> Result<Vec<Change>, AllocError> {
    let mut changes = Vec::new(alloc);
    for edit in edits {
        changes.push(change(alloc, *edit)?)?;
    }
    Ok(changes)
}

/// Makes the batch of some rows, and again if it is out of memory, which is counted.
pub fn batch_again(
    alloc: Global,
    edits: &[Edit],
    refused: &mut usize,
) -> Result<Vec<Change>, AllocError> {
    again!(refused, AllocError, batch(alloc, edits))
}

/// Makes the text edit of a row, which has a range.
fn text_edit(alloc: Global, edit: Edit) -> Result<TextEdit, AllocError> {
    let (line, character, stop_line, stop_character, text) = edit;
    let start = Position { line, character };
    let stop = Position {
        line: stop_line,
        character: stop_character,
    };
    Ok(TextEdit {
        range: Range { start, stop },
        new_text: String::from_str(alloc, text)?,
    })
}

/// Makes the text edits of some rows, each of which has a range.
pub fn text_edits(alloc: Global, edits: &[Edit]) -> Result<Vec<TextEdit>, AllocError> {
    let mut text_edits = Vec::new(alloc);
    for edit in edits {
        text_edits.push(text_edit(alloc, *edit)?)?;
    }
    Ok(text_edits)
}
