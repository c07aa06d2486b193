//! The plain structs that C passes and gets.

ghost use Rattle.std.specs.Prelude.{◌≡◌};
ghost use Rattle.laspidru.specs.Objects.{position_at};

use lsp_text::Position;

/// A position (LSP 3.17, Position).
#[repr(C)]
#[derive(Clone, Copy, Debug, PartialEq, Eq)]
pub struct CPosition {
    pub line: u32,
    pub character: u32,
}

impl From<Position> for CPosition {
    ghost from_gives = { λ position place. position_at place ≡ position };

    fn from(position: Position) -> CPosition {
        CPosition {
            line: position.line,
            character: position.character,
        }
    }
}

/// A change of a batch, or a text edit: the next `len` bytes of its texts replace a range, or the
/// whole text.
#[repr(C)]
#[derive(Clone, Copy, Debug, PartialEq, Eq)]
pub struct Edit {
    pub start: CPosition,
    pub end: CPosition,
    pub len: usize,
    pub is_whole: bool,
}

/// The change of a batch that a fault is about, counted from 0, and which end of its range.
#[repr(C)]
#[derive(Clone, Copy, Debug, PartialEq, Eq)]
pub struct FaultAt {
    pub change: usize,
    pub at_end: bool,
}

/// Which text edit a fault is about, counted from 0, and which end of its range. Of two that
/// overlap, `edit` is the one that starts first, and `other` starts before it ends; else `other` is
/// 0.
#[repr(C)]
#[derive(Clone, Copy, Debug, PartialEq, Eq)]
pub struct EditsFault {
    pub edit: usize,
    pub other: usize,
    pub at_end: bool,
}

/// The byte offsets at which a line starts and ends. Its line end is not in it.
#[repr(C)]
#[derive(Clone, Copy, Debug, PartialEq, Eq)]
pub struct Line {
    pub start: usize,
    pub end: usize,
}

/// How many bytes and how many lines a text has.
#[repr(C)]
#[derive(Clone, Copy, Debug, PartialEq, Eq)]
pub struct Size {
    pub bytes: usize,
    pub lines: usize,
}
