//! Positions as they are counted from a block on, which may begin inside a line.
ghost use Rattle.std.specs.Prelude.{◌≡◌, ◌+◌, ◌<◌, ◌^◌};
ghost use Rattle.lsp_buffer.specs.Blocks.{carried};
ghost use Rattle.lsp_buffer.specs.inside.Seams.{IsAtOrAfter, position_after, position_from};

use lsp_text::Position;

/// Returns a position as it is counted from a block on that begins in this line, after so many
/// units of it.
pub fn position_after(line: u32, head: u32, position: Position) -> Position
    requires { IsAtOrAfter line head position }
    ensures { result ≡ position_after line head position }
{
    if position.line == line {
        Position {
            line: 0,
            character: position.character - head,
        }
    } else {
        Position {
            line: position.line - line,
            character: position.character,
        }
    }
}

/// Returns the position in the text of a position that is counted from a block on. The block begins
/// in this line, after so many units of it.
pub fn position_from(line: u32, head: u32, position: Position) -> Position
    requires line { line + position.line < 2 ^ 32 }
    requires character { carried position.line head + position.character < 2 ^ 32 }
    ensures { result ≡ position_from line head position }
{
    if position.line == 0 {
        Position {
            line,
            character: head + position.character,
        }
    } else {
        Position {
            line: line + position.line,
            character: position.character,
        }
    }
}
