//! The long lines of a document. This is the part that another server replaces by its own.

ghost use Rattle.std.specs.Prelude.{◌≡◌, ◌≤◌, IfOk, IfSome, is_some, map};
ghost use Rattle.std.specs.Str.{chars};
ghost use Rattle.lsp_text.specs.TextLines.{line_ends};
ghost use Rattle.lsp_text.specs.Units.{units_in};
ghost use Rattle.lsp_long_lines.specs.LongLines.{is_long, long_lines as long_lines_of};
ghost use Rattle.lsp_long_lines.specs.LongLines.{line_end, over_limit};

use lsp_buffer::TextBuffer;
use lsp_store::Document;
use lsp_text::{Encoding, Position, Range};
use std::alloc::{AllocError, Global};

/// How many units of the session's encoding a line may have.
const LIMIT: u32 = 100;

/// Returns the range of each long line that is over the limit, in exact positions. Costs two
/// searches for blocks a line, and in UTF-16 and UTF-32 the text.
pub fn long_lines(
    alloc: Global,
    document: &Document<'_>,
    encoding: Encoding,
) -> Result<Vec<Range>, AllocError>
    // There is a range for each long line and no other, in their order: what is over the limit.
    ensures { let units = units_in encoding in let text = chars document.now.text in
        IfOk result (λ ranges. ranges.items
        ≡ map (over_limit units text) (long_lines_of units text)) }
{
    let text = document.text();
    let mut ranges = Vec::new(alloc);
    for line in 0..text.line_count() as u32 {
        if let Some(range) = excess(text, encoding, line) {
            ranges.push(range)?;
        }
    }
    Ok(ranges)
}

/// Returns the range of a line that is over the limit; `None` if the line isn't long.
fn excess(text: &TextBuffer, encoding: Encoding, line: u32) -> Option<Range>
    requires { line ≤ line_ends (chars text.now) }
    ensures long { is_some result ≡ is_long (units_in encoding) (chars text.now) line }
    ensures range { IfSome result (λ range.
        range ≡ over_limit (units_in encoding) (chars text.now) line) }
{
    let stop = end_of_line(text, encoding, line);
    if stop.character <= LIMIT {
        return None;
    }
    // The limit may lie inside a character: then that character is over it.
    let character = LIMIT;
    let mut start = Position { line, character };
    while text.resolve(encoding, start).is_err() {
        start.character -= 1;
    }
    Some(Range { start, stop })
}

/// Returns the exact position of the end of a line's content.
fn end_of_line(text: &TextBuffer, encoding: Encoding, line: u32) -> Position
    requires { line ≤ line_ends (chars text.now) }
    ensures { result ≡ line_end (units_in encoding) (chars text.now) line }
{
    let character = u32::MAX;
    let past_end = Position { line, character };
    let len = text.len();
    let end = text.resolve(encoding, past_end).unwrap_or(len);
    text.position(encoding, end)
}
