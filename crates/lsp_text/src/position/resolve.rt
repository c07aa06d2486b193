//! From a position to its byte offset.
ghost use Rattle.std.specs.Prelude.{◌≡◌, ◌-◌, ◌≤◌, ◌<◌, if◌then◌else◌, length, option_map, IfOk};
ghost use Rattle.std.specs.Result.{result_ok};
ghost use Rattle.std.specs.Str.{IsCharBoundary, IsUtf8, chars};
ghost use Rattle.lsp_text.specs.Text.{place_of};
ghost use Rattle.lsp_text.specs.TextLines.{splits_crlf, line_start, line_stop};
ghost use Rattle.lsp_text.specs.LineStarts.{AreLinesOf, IsPlace};
ghost use Rattle.lsp_text.specs.Positions.{denoted};

use crate::lines::ends::is_inside_crlf;
use crate::position::Position;
use crate::position::in_line::InLine;
use thiserror::Error;

/// The position lies inside a character of the text. No byte offset has exactly so many units
/// before it in its line, and the line has more.
#[derive(Clone, Copy, Debug, PartialEq, Eq, Error)]
#[error("the position lies inside a character")]
pub struct InsideCharacter;

/// Returns where the content of a line ends, if the next line starts at `next`.
fn stop_before(bytes: &[u8], next: usize) -> usize
    requires some { 0 < next }
    requires within { next ≤ length bytes.now }
    ensures { result ≡ (if splits_crlf bytes.now (next - 1) then next - 2 else next - 1) }
{
    if is_inside_crlf(bytes, next - 1) {
        next - 2
    } else {
        next - 1
    }
}

/// Returns the byte offsets where the content of a line begins and ends.
pub fn content(starts: &[u32], bytes: &[u8], line: usize) -> (usize, usize)
    requires utf8 { IsUtf8 bytes.now }
    requires indexed { AreLinesOf starts.now bytes.now }
    requires line { line < length starts.now }
    ensures start { result.0 ≡ place_of (chars bytes.now) (line_start (chars bytes.now) line) }
    ensures stop { result.1 ≡ place_of (chars bytes.now) (line_stop (chars bytes.now) line) }
{
    let start = starts[line] as usize;
    let next = line + 1;
    if next == starts.len() {
        (start, bytes.len())
    } else {
        (start, stop_before(bytes, starts[next] as usize))
    }
}

/// Returns the byte offset that a position denotes. Costs the line's text up to the position.
pub fn resolve_in<U: InLine>(
    starts: &[u32],
    bytes: &[u8],
    position: Position,
) -> Result<usize, InsideCharacter>
    requires utf8 { IsUtf8 bytes.now }
    requires indexed { AreLinesOf starts.now bytes.now }
    ensures value { result_ok result
        ≡ option_map (place_of (chars bytes.now)) (denoted U.units_of (chars bytes.now) position) }
    ensures place { IfOk result (IsPlace (chars bytes.now)) }
    ensures boundary { IfOk result (IsCharBoundary bytes.now) }
{
    let line = position.line as usize;
    if line >= starts.len() {
        return Ok(bytes.len());
    }
    let (start, stop) = content(starts, bytes, line);
    match U::place_in(&bytes[start..stop], position.character) {
        Some(place) => Ok(start + place),
        None => Err(InsideCharacter),
    }
}
