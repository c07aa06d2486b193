//! The messages that are written, and the errors of replies.
//!
//! Texts are lists of bytes here, and of characters in positions and changes. So there are
//! `ContentChange` and `ContentChangeData`.

ghost use Rattle.std.specs.Prelude.{◌≡◌};
ghost use Rattle.lsp_message.specs.Outgoing.{code_of, error_message};

use crate::agreement::{Offers, SyncKind};
use crate::message::Id;
use crate::params::{ChangeParams, CloseParams, OpenParams};
use lsp_text::Encoding;

/// A client's message, or a reply. The ids of a client's requests are 1 (`initialize`) and 2
/// (`shutdown`).
#[derive(Debug, PartialEq, Eq, Drop)]
pub enum Outgoing {
    /// The request `initialize`, with id 1 and the encodings that the client offers.
    Initialize(Offers),
    /// The notification `initialized`.
    Initialized,
    /// The notification `textDocument/didOpen`.
    DidOpen(OpenParams),
    /// The notification `textDocument/didChange`.
    DidChange(ChangeParams),
    /// The notification `textDocument/didClose`.
    DidClose(CloseParams),
    /// The request `shutdown`, with id 2.
    Shutdown,
    /// The notification `exit`.
    Exit,
    /// The response to `initialize`: the chosen encoding, and how changes are to be sent.
    InitializeResult {
        id: Id,
        encoding: Encoding,
        kind: SyncKind,
    },
    /// The response to `shutdown`: null.
    ShutdownResult {
        id: Id,
    },
    /// The error response to what is refused. Its id is null where none was found.
    ErrorReply {
        id: Option<Id>,
        error: ErrorCode,
    },
}

/// Why a request is refused (LSP 3.17, `ErrorCodes`).
#[derive(Clone, Copy, Debug, PartialEq, Eq, Hash)]
pub enum ErrorCode {
    /// The body is no JSON.
    ParseError,
    /// The body is no message, or the request is not allowed in this phase.
    InvalidRequest,
    /// The method of the request is unknown.
    MethodNotFound,
    /// The params of the request don't fit its method.
    InvalidParams,
    /// A request came before `initialize`.
    ServerNotInitialized,
}

impl ErrorCode {
    /// Returns the protocol's number.
    pub fn number(self) -> i32
        ensures { result ≡ code_of self }
    {
        match self {
            ErrorCode::ParseError => -32700,
            ErrorCode::InvalidRequest => -32600,
            ErrorCode::MethodNotFound => -32601,
            ErrorCode::InvalidParams => -32602,
            ErrorCode::ServerNotInitialized => -32002,
        }
    }

    /// Returns the `message` of the error response.
    pub fn text(self) -> &'static str
        ensures { result.now ≡ error_message self }
    {
        match self {
            ErrorCode::ParseError => "parse error",
            ErrorCode::InvalidRequest => "invalid request",
            ErrorCode::MethodNotFound => "method not found",
            ErrorCode::InvalidParams => "invalid params",
            ErrorCode::ServerNotInitialized => "server not initialized",
        }
    }
}
