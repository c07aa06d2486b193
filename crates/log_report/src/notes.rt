//! What is suspicious of a message that wasn't refused.

pub(crate) mod changes;
pub(crate) mod kinds;
pub(crate) mod returns;
pub(crate) mod saved;
pub(crate) mod units;

use lsp_edit::Side;
use lsp_text::Position;

/// Something suspicious of a message that wasn't refused. A change has its index in the message.
#[derive(Clone, Copy, Debug, PartialEq, Eq)]
pub enum Note {
    /// It opens a document that is open.
    OpenAlready,
    /// It opens a document in which a carriage return ends a line by itself, and a line feed another.
    LoneReturn,
    /// Its version isn't greater than the current one.
    OldVersion {
        sent: i32,
        current: i32,
    },
    /// Its version breaks the habit of its document: until here versions grew by `usual`, else by the
    /// number of changes.
    OddVersion {
        sent: i32,
        before: i32,
        changes: usize,
        usual: Option<u64>,
    },
    /// It is a `didChange` without changes.
    NoChanges,
    /// A change is the whole text, and the server asked for ranges.
    WholeText {
        change: usize,
    },
    /// An end of a change's range is past its line's end or past the last line, and is taken as
    /// another position.
    PastEnd {
        change: usize,
        side: Side,
        sent: Position,
        taken: Position,
    },
    /// A change's `rangeLength` is neither the units of what it replaces nor its UTF-16 units, whose
    /// number is `replaced`. It has so many `characters`.
    WrongLength {
        change: usize,
        sent: u64,
        replaced: usize,
        characters: usize,
    },
    /// A change's text is what it replaces.
    SameText {
        change: usize,
    },
    /// It is a `didSave` with a part of the document's text.
    PartSaved,
    /// It is a `didSave` with any other text that isn't the document's, and differs from it first in
    /// this line of the document, from 1.
    OtherSaved {
        line: usize,
    },
}
