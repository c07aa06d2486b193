//! The client's end of a session of the Language Server Protocol 3.17: a call in, a frame out; a
//! body in, its outcome out.
//!
//! A [`Client`] is the editor's half. It keeps the open documents, sends each change in one
//! message, and follows the session's lifecycle. You bring the bytes. Each call returns a frame to
//! write to the server, and each body that the server sends is passed to [`Client::deliver`].
//! `lsp_frame` splits the server's stream into bodies.
//!
//! ```text
//! let mut client = Client::new(alloc, limits, Offers::new(true, false));
//! output.write_all(&client.start()?)?;
//! // for each body of the server's stream:
//! match client.deliver(body)? {
//!     Delivered::Send(frame) => output.write_all(&frame)?,
//!     Delivered::Noted | Delivered::Ignored => {}
//!     Delivered::BadServer(reason) => return stop(reason),
//! }
//! // once `client.phase()` is Ready, as the user opens, types, and closes:
//! output.write_all(&client.open(uri, language, 1, text)?)?;
//! output.write_all(&client.edit(uri, 2, &changes)?)?;
//! output.write_all(&client.close(uri)?)?;
//! // at the end; `exit` once the answer to `shutdown` was delivered:
//! output.write_all(&client.shutdown()?)?;
//! output.write_all(&client.exit()?)?;
//! ```
//!
//! An edit of `abc` that replaces `b` by `X` sends a frame with a body of 215 bytes, which is here
//! on several lines:
//!
//! ```text
//! {"jsonrpc":"2.0","method":"textDocument/didChange","params":{
//!  "contentChanges":[{"range":{"end":{"character":2,"line":0},
//!                              "start":{"character":1,"line":0}},"text":"X"}],
//!  "textDocument":{"uri":"file:///a","version":2}}}
//! ```
//!
//! Where the server asked for whole texts, the edit sends one change without a range, with the text
//! `aXc`. A client and a server of `lsp_server` talk in the tests,
//! `document_tests/src/tests/client/session.rt`.
//!
//! A refused call changes nothing. A call is refused
//!
//! - in a wrong phase ([`ClientFault::WrongPhase`]),
//! - where the store refuses it or the message would be too long ([`ClientFault::Store`]),
//! - and where memory runs out ([`ClientFault::NoMemory`]).
//!
//! When the server sends what no session can continue with, the phase becomes Failed. The documents
//! stay, so that an editor can start a new server and open them again.
//!
//! - `client`: the client, and the calls of its lifecycle.
//! - `documents`: the calls on the open documents.
//! - `deliver`: what the client does with a body of the server.
//! - `delivered`: the results of a delivery.
//! - `fault`: why a call is refused.
//! - `phase`: the phases of a session.
//! - `agreed`: the encoding and the kind of synchronisation of a session.
//! - `framed`: the frames of messages under a limit.
#![tactic(auto)]

mod agreed;
mod client;
mod deliver;
mod delivered;
mod documents;
mod fault;
mod framed;
mod phase;

pub use client::{Client, INITIALIZE_ID, SHUTDOWN_ID};
pub use delivered::Delivered;
pub use fault::ClientFault;
pub use lsp_edit::{Change, EditFault, Side, TextEdit, TextEditFault};
pub use lsp_frame::{BadLimits, Limits};
pub use lsp_message::Offers;
pub use lsp_store::{Document, Documents, Store, StoreFault, TextBuffer};
pub use lsp_text::{Encoding, InsideCharacter, Position, Range, UnknownEncoding};
pub use phase::{Phase, Reason};
