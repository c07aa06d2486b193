//! Why a call is refused.

ghost use Rattle.std.specs.Prelude.{◌≡◌};
ghost use Rattle.lsp_client.specs.declared.fault.ClientFault.TheVariants.{NoMemory};
ghost use Rattle.lsp_client.specs.Codes.{client_fault_code};

use crate::phase::Phase;
use lsp_store::StoreFault;
use std::alloc::{AllocError, AllocFailed};
use thiserror::Error;

/// Why a call of the client is refused. A refused call changes nothing.
#[derive(Clone, Copy, Debug, PartialEq, Eq, Error)]
pub enum ClientFault {
    /// C1: the call isn't allowed in this phase.
    #[error("the call isn't allowed in phase {phase}")]
    WrongPhase { phase: Phase },
    /// C2: the store refuses the call, or the message is too long. It is never
    /// [`StoreFault::NoMemory`].
    #[error("{0}")]
    Store(StoreFault),
    /// C3: out of memory. A caller can repeat the same call (an `open` by copies).
    #[error("out of memory")]
    NoMemory,
}

impl ClientFault {
    /// Returns the code that users see: C1, C3, and for C2 that of the store's fault.
    pub fn code(self) -> &'static str
        ensures { result.now ≡ client_fault_code self }
    {
        match self {
            ClientFault::WrongPhase { .. } => "C1",
            ClientFault::Store(fault) => fault.code(),
            ClientFault::NoMemory => "C3",
        }
    }
}

impl From<AllocError> for ClientFault {
    ghost from_gives = { λ _ fault. fault ≡ NoMemory };

    fn from(_: AllocError) -> ClientFault {
        ClientFault::NoMemory
    }
}

impl<T: Drop> From<AllocFailed<T>> for ClientFault {
    ghost from_gives = { λ _ fault. fault ≡ NoMemory };

    fn from(_: AllocFailed<T>) -> ClientFault {
        ClientFault::NoMemory
    }
}

impl From<StoreFault> for ClientFault {
    ghost use Rattle.lsp_client.specs.Seen.{client_fault};

    ghost from_gives = { λ fault given. given ≡ client_fault fault };

    fn from(fault: StoreFault) -> ClientFault {
        match fault {
            StoreFault::NoMemory => ClientFault::NoMemory,
            fault => ClientFault::Store(fault),
        }
    }
}
