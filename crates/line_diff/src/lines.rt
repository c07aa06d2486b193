//! The lines of a text.

ghost use Rattle.std.specs.Prelude.{◌≡◌, ◌<◌, IfOk, drop, length, map, option_map, slice_get, slice_index, suc};
ghost use Rattle.line_diff.specs.Lines.{ends_line, lines_of};

use std::alloc::{AllocError, Global};

/// Returns whether the byte at an index ends a line.
fn ends_line(text: &[u8], index: usize) -> bool
    requires { index < length text.now }
    ensures { result ≡ ends_line (slice_index text.now index) (drop (suc index) text.now) }
{
    match text[index] {
        b'\n' => true,
        b'\r' => match text.get(index + 1) {
            Some(next) => *next != b'\n',
            None => true,
        },
        _ => false,
    }
}

/// Returns the lines of a text, each with its line end: `\n`, `\r\n` and `\r` end a line. What comes
/// after the last line end is a line if it isn't empty. Fails only where memory runs out.
pub fn lines_of(alloc: Global, text: &str) -> Result<Vec<&str>, AllocError>
    ensures { IfOk result (λ lines. map (λ line. line.now) lines.items ≡ lines_of text.now) }
{
    let bytes = text.as_bytes();
    let mut lines = Vec::new(alloc);
    let mut start = 0;
    for index in 0..bytes.len() {
        if ends_line(bytes, index) {
            lines.push(&text[start..index + 1])?;
            start = index + 1;
        }
    }
    if start < text.len() {
        lines.push(&text[start..])?;
    }
    Ok(lines)
}

/// Returns a line, if there are so many.
pub(crate) fn line_at<'a>(lines: &[&'a str], index: usize) -> Option<&'a str>
    ensures { option_map (λ line. line.now) result
        ≡ slice_get (map (λ line. line.now) lines.entry.now) index }
{
    lines.get(index).copied()
}
