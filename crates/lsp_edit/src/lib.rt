//! Changes of a text: what the batch of a `didChange` means, and its one canonical batch (LSP 3.17,
//! DidChangeTextDocumentParams).
//!
//! - `indexed`: `IndexedText`, a text in blocks, which a server changes batch by batch. `draft`
//!   applies a batch to a copy, `canonical` returns canonical batches, `fault` is why a batch is
//!   refused. `ends` finds the byte offsets of a range.
//! - `pieces`: `Pieces`, what became of an old text, in spans of it and of the changes' texts. Its
//!   parts are `apply` (a change), `before` (the old text), `span`, `row`, `replace`, `through` and
//!   `canonical` (their canonical batch).
//! - `delta`: `Delta`, a batch that was resolved once on a text. Its text, length and canonical batch
//!   are read from it, and its pieces are made of the offsets that it keeps.
//! - `composed`: `compose`, which resolves a batch on a text in one string, by `Pieces` alone.
//! - `change`, `fault`: a change as the protocol writes it, the limit on the texts of a batch, and
//!   why a change has no result.
//! - `joined`: `Joined`, many batches, one after another, as one. A `layer` is one of them.
//! - `text_edits`: edits whose ranges all count in one old text, as formatters and `applyEdits`
//!   send them.
//! - `laws`: what follows from the definitions of a batch and its canonical batch alone.
#![tactic(auto)]

mod change;
mod composed;
mod delta;
mod ends;
mod fault;
mod indexed;
mod joined;
mod laws;
mod pieces;
mod text_edits;

pub use change::{Change, MAX_NEW_TEXT, fits};
pub use composed::{MAX_OLD_TEXT, compose};
pub use delta::{Delta, Left, Put};
pub use fault::{EditFault, Side};
pub use indexed::IndexedText;
pub use indexed::fault::BatchFault;
pub use joined::Joined;
pub use laws::batch_laws;
pub use pieces::span::Span;
pub use pieces::{MAX_TEXT, Pieces};
pub use text_edits::{TextEdit, TextEditFault};
