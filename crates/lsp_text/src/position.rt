//! Positions and ranges, as the protocol writes them.

pub(crate) mod exact;
pub(crate) mod in_line;
pub(crate) mod resolve;
pub(crate) mod units;

/// A position in a text (LSP 3.17, Position): a line, counted from 0, and the number of units
/// before it in that line. The units are those of the agreed encoding. `Ord` compares lines, then
/// characters: the order of the text where neither is past an end.
#[derive(Clone, Copy, Debug, Default, PartialEq, Eq, PartialOrd, Ord, Hash)]
pub struct Position {
    pub line: u32,
    pub character: u32,
}

/// A range of a text (LSP 3.17, Range). `stop` is the protocol's `end`, and exclusive.
#[derive(Clone, Copy, Debug, Default, PartialEq, Eq, Hash)]
pub struct Range {
    pub start: Position,
    pub stop: Position,
}
