//! The server's end of a session of the Language Server Protocol 3.17: one body in, one answer out.
//!
//! A [`Server`] keeps a copy of each open document as the editor's messages say, and answers the
//! messages of a session's lifecycle. Where both ends are this project's, the copies are the
//! editor's texts at its last message that was handled (`lsp_pair`). You bring the bytes and the
//! features. `lsp_frame` splits a stream into bodies, and each body is passed to
//! [`Server::handle`]. A reply comes back as a frame, whole with its header:
//!
//! ```text
//! let config = Config::default();
//! let mut server = Server::new(alloc, config);
//! let mut framer = Framer::new(alloc, config.limits);
//! // for each piece of the stream, until `feed` has taken all of it:
//! let taken = framer.feed(piece)?;
//! if let Some(body) = framer.body() {
//!     match server.handle(body)? {
//!         Answer::Reply { frame, .. } => output.write_all(&frame)?,
//!         Answer::Changed => publish(server.store()),
//!         Answer::Exit(status) => return Ok(status),
//!         Answer::Dropped | Answer::Ignored | Answer::Refused(_) => {}
//!     }
//!     framer.next();
//! }
//! ```
//!
//! From bytes to a reply: the client sends
//!
//! ```text
//! Content-Length: 44
//!
//! {"id":2,"jsonrpc":"2.0","method":"shutdown"}
//! ```
//!
//! The framer's body is the last line. In phase Running the server answers `Reply` with the frame
//!
//! ```text
//! Content-Length: 38
//!
//! {"id":2,"jsonrpc":"2.0","result":null}
//! ```
//!
//! and is in phase Down. In phase New it answers with an error response, and the answer has the
//! code too. The frame's body is then
//!
//! ```text
//! {"error":{"code":-32002,"message":"server not initialized"},"id":2,"jsonrpc":"2.0"}
//! ```
//!
//! **A feature of your own**, as hover: read the body yourself, answer what is yours, and pass on
//! all else.
//!
//! ```text
//! let incoming = server.read(body)?;
//! if server.phase() == Phase::Running && is_hover(&incoming) {
//!     return hover(alloc, server.store(), incoming);
//! }
//! let answer = server.handle_incoming(incoming)?;
//! ```
//!
//! Both programs are tested whole, in `document_tests/src/tests/server/front_page.rt`.
//! `server.store().get(uri)` returns the current document. Its `resolve` and `position` convert
//! between positions, in `server.encoding()`, and byte offsets.
//!
//! - `server`: the server, and the table of its steps. `lifecycle` has those of requests and of
//!   `exit`, `documents` those of the document notifications.
//! - `answer`: what a server answers.
//! - `config`: limits, the choice of an encoding, and the kind of synchronisation.
//! - `phase`: the phases of a session.
//! - `planned`: what becomes of a change, before anything changes.
//! - `laws`: what holds of every step.
#![tactic(auto)]

mod answer;
mod config;
mod laws;
mod phase;
mod planned;
mod server;

pub use answer::{Answer, Refusal, ServerFault};
pub use config::{ChangeForm, Config, EncodingChoice};
pub use laws::step_laws;
pub use lsp_edit::{Change, EditFault, Side, TextEdit, TextEditFault};
pub use lsp_frame::{BadLimits, Limits};
pub use lsp_message::{
    ChangeParams, CloseParams, ErrorCode, Id, Incoming, Offers, OpenParams, SyncKind,
};
pub use lsp_store::{Document, Documents, Plan, Store, StoreFault, TextBuffer};
pub use lsp_text::{Encoding, InsideCharacter, Position, Range, UnknownEncoding};
pub use phase::Phase;
pub use planned::PlannedChange;
pub use server::Server;
