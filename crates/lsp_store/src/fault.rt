//! Why a call of the store is refused.

ghost use Rattle.std.specs.Prelude.{◌≡◌};
ghost use Rattle.lsp_store.specs.declared.fault.StoreFault.TheVariants.{NoMemory};

use lsp_edit::{BatchFault, EditFault};
use lsp_frame::EncodeFault;
use std::alloc::{AllocError, AllocFailed};
use thiserror::Error;

/// Why a call of the store is refused. A refused call changes nothing.
#[derive(Clone, Copy, Debug, PartialEq, Eq, Error)]
pub enum StoreFault {
    /// S1: a document with this URI is open, and the limits are strict.
    #[error("the document is open already")]
    AlreadyOpen,
    /// S2: `max_docs` documents are open.
    #[error("too many documents are open")]
    TooManyDocuments,
    /// S3: the text has, or would have after the batch, more than `max_text` bytes.
    #[error("the text is too long")]
    TextTooLong,
    /// S4: no document with this URI is open.
    #[error("the document is not open")]
    NotOpen,
    /// S5: the version is not greater than the current one, and the limits are strict.
    #[error("the version is not greater than {held}")]
    StaleVersion { held: i32 },
    /// S6: there are more than `max_changes` changes, or their texts together have more than
    /// [`lsp_edit::MAX_NEW_TEXT`] bytes.
    #[error("too many changes, or too long ones")]
    TooManyChanges,
    /// S7: a change has no result. It is never [`EditFault::NoMemory`].
    #[error("{0}")]
    Edit(EditFault),
    /// S8: the message's body has this many bytes, more than `max_body`.
    #[error("the body has {len} bytes, more than the limit")]
    BodyTooLong { len: usize },
    /// S9: out of memory. A caller can repeat the same call (an `open` by copies).
    #[error("out of memory")]
    NoMemory,
}

impl StoreFault {
    ghost use Rattle.lsp_store.specs.Faults.{fault_code};

    /// Returns the code that users see: S1 to S9, and for S7 its cause, E1 or E2.
    pub fn code(self) -> &'static str
        ensures { result.now ≡ fault_code self }
    {
        match self {
            StoreFault::AlreadyOpen => "S1",
            StoreFault::TooManyDocuments => "S2",
            StoreFault::TextTooLong => "S3",
            StoreFault::NotOpen => "S4",
            StoreFault::StaleVersion { .. } => "S5",
            StoreFault::TooManyChanges => "S6",
            StoreFault::Edit(EditFault::InsideCharacter { .. }) => "E1",
            StoreFault::Edit(EditFault::ReversedRange { .. }) => "E2",
            StoreFault::BodyTooLong { .. } => "S8",
            StoreFault::Edit(EditFault::NoMemory) | StoreFault::NoMemory => "S9",
        }
    }
}

impl From<BatchFault> for StoreFault {
    ghost use Rattle.lsp_store.specs.Faults.{store_fault_of};

    ghost from_gives = { λ fault error. error ≡ store_fault_of fault };

    fn from(fault: BatchFault) -> StoreFault {
        match fault {
            BatchFault::Edit(fault) => StoreFault::Edit(fault),
            BatchFault::TooLong => StoreFault::TextTooLong,
            BatchFault::NoMemory => StoreFault::NoMemory,
        }
    }
}

impl From<EncodeFault> for StoreFault {
    ghost use Rattle.lsp_store.specs.Faults.{store_fault_of_encode};

    ghost from_gives = { λ fault error. error ≡ store_fault_of_encode fault };

    fn from(fault: EncodeFault) -> StoreFault {
        match fault {
            EncodeFault::BodyTooLong { len } => StoreFault::BodyTooLong { len },
            EncodeFault::NoMemory => StoreFault::NoMemory,
        }
    }
}

impl From<AllocError> for StoreFault {
    ghost from_gives = { λ _ error. error ≡ NoMemory };

    fn from(_: AllocError) -> StoreFault {
        StoreFault::NoMemory
    }
}

impl<T: Drop> From<AllocFailed<T>> for StoreFault {
    ghost from_gives = { λ _ error. error ≡ NoMemory };

    fn from(_: AllocFailed<T>) -> StoreFault {
        StoreFault::NoMemory
    }
}
