//! What may happen to a pair, and what happened.

use lsp_client::{ClientFault, Reason};
use lsp_edit::Change;
use lsp_message::ErrorCode;
use lsp_server::Refusal;

/// What may happen: a call of the client, or the delivery of the first frame of a queue.
#[derive(Debug, PartialEq, Eq, Drop)]
pub enum Event {
    /// [`Client::start`](lsp_client::Client::start).
    Start,
    /// [`Client::open`](lsp_client::Client::open).
    Open {
        uri: String,
        language: String,
        version: i32,
        text: String,
    },
    /// [`Client::edit`](lsp_client::Client::edit).
    Edit {
        uri: String,
        version: i32,
        changes: Vec<Change>,
    },
    /// [`Client::close`](lsp_client::Client::close).
    Close {
        uri: String,
    },
    /// [`Client::shutdown`](lsp_client::Client::shutdown).
    Shutdown,
    /// [`Client::exit`](lsp_client::Client::exit).
    Exit,
    /// The first frame for the server is delivered.
    ToServer,
    /// The first frame for the client is delivered.
    ToClient,
}

/// What happened.
#[derive(Clone, Copy, Debug, PartialEq, Eq)]
pub enum Happened {
    /// The client accepted the call, and its frame waits for the server.
    Sent,
    /// The client refused the call.
    Refused(ClientFault),
    /// What the server answered to a message.
    Server(Did),
    /// What the client did with a message.
    Client(Heard),
    /// No message waited.
    Nothing,
}

/// An answer of the server ([`Answer`](lsp_server::Answer)) without its frame, which waits for the
/// client.
#[derive(Clone, Copy, Debug, PartialEq, Eq)]
pub enum Did {
    /// It replied: with this error, or with a result.
    Reply(Option<ErrorCode>),
    /// A document notification changed the open documents.
    Changed,
    /// It dropped a notification before `initialize` or after `shutdown`.
    Dropped,
    /// It ignored a response, or a notification that it doesn't handle.
    Ignored,
    /// It refused a document notification, which changed nothing.
    Refused(Refusal),
    /// It ended, with this exit status.
    Exit(u8),
}

/// What the client did with a message ([`Delivered`](lsp_client::Delivered)), without its frame,
/// which waits for the server.
#[derive(Clone, Copy, Debug, PartialEq, Eq)]
pub enum Heard {
    /// It sends a message.
    Send,
    /// It noted the response to `shutdown`.
    Noted,
    /// It ignored a notification.
    Ignored,
    /// It can't continue the session; its phase is now Failed with this reason.
    BadServer(Reason),
}
