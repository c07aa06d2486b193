//! What client and server agree on.

use lsp_message::SyncKind;
use lsp_text::Encoding;

/// What the result of `initialize` fixes for the session: the encoding of positions, and how
/// changes are sent.
#[derive(Clone, Copy, Debug, PartialEq, Eq, Hash)]
pub struct Agreed {
    /// The encoding of positions.
    pub encoding: Encoding,
    /// How changes are sent: as ranges, or as whole texts.
    pub kind: SyncKind,
}
