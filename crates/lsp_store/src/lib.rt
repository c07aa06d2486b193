//! The open documents of a session: which there are, each with its version and text (LSP 3.17, Text
//! Document Synchronization).
//!
//! - `store`: the documents in order of opening, and the calls that open, change and close them.
//!   `opening` has the call that opens one.
//! - `document`: an open document as a caller reads it.
//! - `documents`: the open documents, one after another.
//! - `canonical`: the canonical message of an accepted batch of changes.
//! - `squash`: many batches on one document as one message; `Batches` for a caller who keeps the
//!   document, `Squash` for one who doesn't.
//! - `plan`: a batch that was resolved once on an open document.
//! - `stored`: the language, version and text of a document, and how a batch changes them.
//! - `fault`: why a call is refused.
//! - `laws`: what holds of the table of documents after any commands.
#![tactic(auto)]

mod fault;
mod laws;
mod squash;
mod store;

pub use fault::StoreFault;
pub use laws::store_laws;
pub use lsp_buffer::TextBuffer;
pub use squash::{Batches, Squash};
pub use store::Store;
pub use store::canonical::change_frame;
pub use store::document::Document;
pub use store::documents::Documents;
pub use store::plan::Plan;
