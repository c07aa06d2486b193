//! Why a run from a reader to a writer ends early.
//!
//! `EngineFault` is in the lowest of the three crates that return some of it.

ghost use Rattle.std.specs.Prelude.{◌≡◌};
ghost use Rattle.lsp_stream.specs.declared.fault.EngineFault.TheVariants.{NoMemory};
ghost use Rattle.lsp_stream.specs.Faults.{engine_fault, engine_fault_code};

use lsp_frame::FrameFault;
use std::alloc::AllocError;
use thiserror::Error;

/// Why a run ended early. A `place` is a byte offset in the input, which saturates at `u64::MAX`.
#[derive(Clone, Copy, Debug, PartialEq, Eq, Error)]
pub enum EngineFault {
    /// P1: a read failed.
    #[error("read fault")]
    Read,
    /// P2: a write or a flush failed, or a write took nothing.
    #[error("write fault")]
    Write,
    /// P3: one of F1 to F7, with its byte offset.
    #[error("{0}")]
    Frame(FrameFault),
    /// P4: the input ends inside a record. `place` is the input's length.
    #[error("truncated at {place}")]
    Truncated { place: u64 },
    /// P5: the body that is to be written for this record is too long. `place` is the record's
    /// first byte.
    #[error("body too long at {place}")]
    BodyTooLong { place: u64 },
    /// P6: out of memory.
    #[error("out of memory")]
    NoMemory,
    /// P7: one call more than allowed was needed.
    #[error("too many turns")]
    TooManyTurns,
    /// P8: the log has a byte or a record that it can't have. `place` is the record's first byte.
    #[error("bad log at {place}")]
    BadLog { place: u64 },
}

impl EngineFault {
    /// Returns the code of the fault: P1 to P8, and for P3 its cause, one of F1 to F7.
    pub fn code(self) -> &'static str
        ensures { result.now ≡ engine_fault_code self }
    {
        match self {
            EngineFault::Read => "P1",
            EngineFault::Write => "P2",
            EngineFault::Frame(fault) => fault.code(),
            EngineFault::Truncated { .. } => "P4",
            EngineFault::BodyTooLong { .. } => "P5",
            EngineFault::NoMemory => "P6",
            EngineFault::TooManyTurns => "P7",
            EngineFault::BadLog { .. } => "P8",
        }
    }
}

impl From<AllocError> for EngineFault {
    ghost from_gives = { λ _ fault. fault ≡ NoMemory };

    fn from(_error: AllocError) -> EngineFault {
        EngineFault::NoMemory
    }
}

impl From<FrameFault> for EngineFault {
    ghost from_gives = { λ fault engine. engine ≡ engine_fault fault };

    fn from(fault: FrameFault) -> EngineFault {
        match fault {
            FrameFault::NoMemory => EngineFault::NoMemory,
            _ => EngineFault::Frame(fault),
        }
    }
}
