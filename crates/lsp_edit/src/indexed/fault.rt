//! Why a batch of changes on an `IndexedText` is refused.

ghost use Rattle.std.specs.Prelude.{◌≡◌};
ghost use Rattle.lsp_edit.specs.declared.indexed.fault.BatchFault.TheVariants.{NoMemory};
ghost use Rattle.lsp_edit.specs.Indexed.{batch_fault_of};

use crate::fault::EditFault;
use std::alloc::AllocError;
use thiserror::Error;

/// Why a batch of changes is refused. The text is unchanged then.
#[derive(Clone, Copy, Debug, PartialEq, Eq, Error)]
pub enum BatchFault {
    /// A change has no result: an end of its range lies inside a character, or the range is
    /// reversed.
    #[error("{0}")]
    Edit(EditFault),
    /// The result of the batch would be longer than the caller allows.
    #[error("the text is too long")]
    TooLong,
    /// Out of memory.
    #[error("out of memory")]
    NoMemory,
}

impl From<EditFault> for BatchFault {
    ghost from_gives = { λ fault error. error ≡ batch_fault_of fault };

    fn from(fault: EditFault) -> BatchFault {
        match fault {
            EditFault::NoMemory => BatchFault::NoMemory,
            fault => BatchFault::Edit(fault),
        }
    }
}

impl From<AllocError> for BatchFault {
    ghost from_gives = { λ _ error. error ≡ NoMemory };

    fn from(_: AllocError) -> BatchFault {
        BatchFault::NoMemory
    }
}
