//! From a byte offset to its exact position.
ghost use Rattle.std.specs.Prelude.{◌≡◌, ◌≤◌, ℕ, Some, length, option_map};
ghost use Rattle.std.specs.Str.{IsUtf8, chars};
ghost use Rattle.lsp_text.specs.Text.{place_of};
ghost use Rattle.lsp_text.specs.LineStarts.{AreLinesOf, IsPlace};
ghost use Rattle.lsp_text.specs.Positions.{exact_position, denoted};

use crate::lines::starts::{Looks, line_of};
use crate::position::Position;
use crate::position::in_line::InLine;

/// Returns the exact position of a byte offset. Costs a binary search over the lines, and the
/// line's text up to the offset.
pub fn position_in<U: InLine>(starts: &[u32], bytes: &[u8], place: usize) -> Position
    requires utf8 { IsUtf8 bytes.now }
    requires indexed { AreLinesOf starts.now bytes.now }
    requires place { IsPlace (chars bytes.now) place }
    ensures exact { (k : ℕ) → k ≤ length (chars bytes.now) → place_of (chars bytes.now) k ≡ place
        → result ≡ exact_position U.units_of (chars bytes.now) k }
    ensures resolves { option_map (place_of (chars bytes.now))
        (denoted U.units_of (chars bytes.now) result) ≡ Some place }
{
    let mut looks = Looks::new(starts);
    let line = line_of(&mut looks, place);
    let start = starts[line] as usize;
    Position {
        line: line as u32,
        character: U::units_in(&bytes[start..place]) as u32,
    }
}
