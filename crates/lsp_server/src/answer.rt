//! What a server answers to a body, and why it has no answer.

ghost use Rattle.std.specs.Prelude.{◌≡◌};
ghost use Rattle.lsp_server.specs.declared.answer.ServerFault.TheVariants.{NoMemory};
ghost use Rattle.lsp_server.specs.Codes.{server_refusal_code, server_fault_code};

use lsp_message::ErrorCode;
use lsp_store::StoreFault;
use std::alloc::AllocError;
use thiserror::Error;

/// What a server answers to a body.
#[derive(Debug, PartialEq, Eq, Drop)]
pub enum Answer {
    /// A frame to send to the client. An error response has its code; a result has none.
    Reply {
        frame: Vec<u8>,
        code: Option<ErrorCode>,
    },
    /// A document notification that changed the open documents.
    Changed,
    /// A notification before `initialize` or after `shutdown`.
    Dropped,
    /// A response, or a notification that the server doesn't handle.
    Ignored,
    /// A document notification that changed nothing.
    Refused(Refusal),
    /// `exit`: the exit status of the process, 0 after `shutdown` and else 1 (LSP 3.17, Exit
    /// Notification).
    Exit(u8),
}

/// Why a document notification was refused.
#[derive(Clone, Copy, Debug, PartialEq, Eq, Error)]
pub enum Refusal {
    /// M4: its params don't fit its method.
    #[error("invalid params")]
    InvalidParams,
    /// S1 to S7: the store refuses the command.
    #[error("{0}")]
    Store(StoreFault),
}

impl Refusal {
    /// Returns the code that users see: M4, or that of the store's fault.
    pub fn code(self) -> &'static str
        ensures { result.now ≡ server_refusal_code self }
    {
        match self {
            Refusal::InvalidParams => "M4",
            Refusal::Store(fault) => fault.code(),
        }
    }
}

/// Why there is no answer. The server is unchanged.
#[derive(Clone, Copy, Debug, PartialEq, Eq, Error)]
pub enum ServerFault {
    /// V1: `exit` came before.
    #[error("the session has ended")]
    AlreadyEnded,
    /// V2: out of memory. A caller can pass the same body again.
    #[error("out of memory")]
    NoMemory,
}

impl ServerFault {
    /// Returns the code that users see: V1 or V2.
    pub fn code(self) -> &'static str
        ensures { result.now ≡ server_fault_code self }
    {
        match self {
            ServerFault::AlreadyEnded => "V1",
            ServerFault::NoMemory => "V2",
        }
    }
}

impl From<AllocError> for ServerFault {
    ghost from_gives = { λ _ e. e ≡ NoMemory };

    fn from(_e: AllocError) -> ServerFault {
        ServerFault::NoMemory
    }
}
