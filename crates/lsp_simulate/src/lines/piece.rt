//! A piece of the input.

ghost use Rattle.std.specs.Prelude.{◌≤◌};

/// How many bytes are read at once.
pub const PIECE: usize = 8_192;

/// Bytes that were read; those from `from` to `to` aren't taken yet.
#[derive(Drop)]
pub struct Piece {
    pub bytes: [u8; PIECE],
    pub from: usize,
    pub to: usize,
    ghost from_in: { from ≤ to },
    ghost to_in: { to ≤ 8192 },
}
