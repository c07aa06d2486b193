//! The phases of a session on the client's end, and why one fails.

use std::fmt;
use thiserror::Error;

/// The phase of a session (LSP 3.17, Lifecycle Messages).
#[derive(Clone, Copy, Debug, PartialEq, Eq, Hash)]
pub enum Phase {
    /// Nothing was sent.
    New,
    /// `initialize` was sent; its response is awaited.
    Asked,
    /// The session runs: documents are opened, edited and closed.
    Ready,
    /// `shutdown` was sent; its response is awaited.
    Closing,
    /// `shutdown` was answered; only `exit` is left.
    Closed,
    /// `exit` was sent.
    Done,
    /// The server sent what no session can continue with.
    Failed(Reason),
}

impl fmt::Display for Phase {
    fn fmt<W: fmt::Write>(&self, f: &mut fmt::Formatter<W>) -> fmt::Result {
        match self {
            Phase::New => f.write_str("New"),
            Phase::Asked => f.write_str("Asked"),
            Phase::Ready => f.write_str("Ready"),
            Phase::Closing => f.write_str("Closing"),
            Phase::Closed => f.write_str("Closed"),
            Phase::Done => f.write_str("Done"),
            Phase::Failed(reason) => write!(f, "Failed: {reason}"),
        }
    }
}

/// Why a session can't continue.
#[derive(Clone, Copy, Debug, PartialEq, Eq, Hash, Error)]
pub enum Reason {
    /// A body that is no message, a response to no request of the client, or a result of
    /// `initialize` that can't be read.
    #[error("the server's body is no message, answers no request, or has a result that can't be read")]
    NotAnAnswer,
    /// An error response to `initialize` or `shutdown`.
    #[error("the server answered with an error")]
    ErrorAnswer,
    /// The server doesn't want to be notified of documents that open and close, or of changes.
    #[error("the server doesn't want to be notified of documents or of changes")]
    NoSync,
    /// The server announces an encoding that is unknown or wasn't offered.
    #[error("the server's encoding is unknown or wasn't offered")]
    BadEncoding,
}
