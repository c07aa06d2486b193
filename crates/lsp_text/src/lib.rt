//! Lines and positions of a text: what "line 3, character 7" means, in the three encodings of LSP
//! 3.17.
//!
//! ```text
//! let text = "x😀y";
//! let lines = Lines::new(alloc, text)?;
//! let position = Position { line: 0, character: 3 };
//! // `😀` has 2 units in UTF-16 and 4 bytes: the position is that of `y`, at byte 5
//! let offset = lines.resolve(text, Encoding::Utf16, position)?;
//! // and back, in an encoding that counts `😀` as 1: character 2
//! let back = lines.position(text, Encoding::Utf32, offset);
//! ```
//!
//! - `lines`: `Lines`, the line starts of a text, and the calls that turn a position into a byte
//!   offset and back. `resolve` finds the offset of a position, `exact` the position of an offset,
//!   both by `in_line` (units in the bytes of one line). `ends` finds line ends, `splice` the line
//!   starts after an edit.
//! - `position`, `encoding`, `units`: a position as the protocol writes it, and how many units a
//!   character has.
//! - `starts`: the line of a byte offset, by a binary search whose steps are counted.
//! - `laws`: what follows from the definitions alone. These are in `specs/`: `Text`, `TextLines`,
//!   `Units`, `Positions`, in this order.
#![tactic(auto)]

mod encoding;
mod laws;
mod lines;
mod position;

pub use encoding::{Encoding, UnknownEncoding};
pub use laws::{encoding_laws, line_laws, place_laws, position_laws};
pub use lines::Lines;
pub use lines::starts::{Looks, Starts, line_of};
pub use position::resolve::InsideCharacter;
pub use position::units::{Units, Utf8, Utf16, Utf32};
pub use position::{Position, Range};
