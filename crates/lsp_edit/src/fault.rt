//! Why a change has no result.

ghost use Rattle.std.specs.Prelude.{◌≡◌};
ghost use Rattle.lsp_edit.specs.declared.fault.EditFault.TheVariants.{NoMemory};

use std::alloc::AllocError;
use std::fmt;
use thiserror::Error;

/// The end of a change's range that a fault is about.
#[derive(Clone, Copy, Debug, PartialEq, Eq)]
pub enum Side {
    Start,
    Stop,
}

impl fmt::Display for Side {
    fn fmt<W: fmt::Write>(&self, f: &mut fmt::Formatter<W>) -> fmt::Result {
        match self {
            Side::Start => f.write_str("start"),
            Side::Stop => f.write_str("end"),
        }
    }
}

/// Why a batch has no result.
///
/// Changes are counted from 0, and the first faulty one decides: first by its start, then by its
/// stop, then by their order.
#[derive(Clone, Copy, Debug, PartialEq, Eq, Error)]
pub enum EditFault {
    /// E1: an end of the change's range lies inside a character.
    #[error("change at index {change}: the {side} of its range lies inside a character")]
    InsideCharacter { change: usize, side: Side },
    /// E2: the change's range starts after its end.
    #[error("change at index {change}: the range is reversed")]
    ReversedRange { change: usize },
    /// Out of memory.
    #[error("out of memory")]
    NoMemory,
}

impl EditFault {
    ghost use Rattle.std.specs.Prelude.{option_map};
    ghost use Rattle.lsp_edit.specs.Faults.{edit_code};

    /// Returns the code that users see: E1 or E2; `None` where memory ran out.
    pub fn code(self) -> Option<&'static str>
        ensures { option_map (λ code. code.now) result ≡ edit_code self }
    {
        match self {
            EditFault::InsideCharacter { .. } => Some("E1"),
            EditFault::ReversedRange { .. } => Some("E2"),
            EditFault::NoMemory => None,
        }
    }
}

impl From<AllocError> for EditFault {
    ghost from_gives = { λ _ fault. fault ≡ NoMemory };

    fn from(_: AllocError) -> EditFault {
        EditFault::NoMemory
    }
}
