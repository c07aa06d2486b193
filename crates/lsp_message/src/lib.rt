//! JSON-RPC messages of the Language Server Protocol 3.17: reads a body as a message with typed
//! parameters, and writes a message as its canonical body.
//!
//! - `message`: which message a body is.
//! - `params`: the typed parameters of the document messages.
//! - `reader`: what a body asks of a server, read in one pass over the tokens of its JSON.
//! - `agreement`: what a client offers and what a server announces.
//! - `outgoing`: the messages that are written, and the errors of replies.
//! - `writer`: the canonical body of each of them, and its frame. `lifecycle` has the messages of a
//!   session's lifecycle and the replies, `documents` those on documents; `value` and `object` have
//!   what is written as JSON.
//! - `members`: the members of a JSON object, moved out of it.
//! - `laws`: what holds of bodies and messages by their definitions.
#![tactic(auto)]

mod agreement;
mod laws;
mod members;
mod message;
mod outgoing;
mod params;
mod reader;
mod writer;

pub use agreement::{Announced, Offers, SyncKind, params_initialize, result_initialize};
pub use laws::message_laws;
pub use message::{Id, Message, Outcome, ReadFault, read};
pub use outgoing::{ErrorCode, Outgoing};
pub use params::{
    ChangeParams, CloseParams, OpenParams, ParamsFault, params_change, params_close, params_open,
};
pub use reader::{Incoming, Noted, Scratch};
pub use writer::{message_frame, push_change, push_document, write};
