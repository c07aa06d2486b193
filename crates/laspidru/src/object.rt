//! The object in a handle.

use crate::end::End;
use lsp_edit::{Change, IndexedText};
use lsp_frame::Framer;

/// The object in a handle.
#[derive(Drop)]
pub enum Object {
    /// A text with its lines.
    Document(IndexedText),
    /// The changes of a canonical batch.
    Batch(Vec<Change>),
    /// The output of a command on a log, or the frame of a canonical message.
    Output(Vec<u8>),
    /// A framer of a stream.
    Framer(Framer),
    /// An end of a session.
    End(End),
}
