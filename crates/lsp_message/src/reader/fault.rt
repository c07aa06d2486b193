//! Why reading a text stops.

ghost use Rattle.std.specs.Prelude.{◌≡◌};
ghost use Rattle.lsp_message.specs.declared.reader.fault.Fault.TheVariants as fault;

use json::Invalid;
use std::alloc::{AllocError, AllocFailed};

/// What reading a part of a text returns.
pub(crate) type Read<T> = Result<T, Fault>;

/// Why reading a text stops.
#[derive(Clone, Copy, Debug, Drop, PartialEq, Eq)]
pub(crate) enum Fault {
    /// The text is no JSON, nests too deep, or has a number that is too large.
    NotJson,
    /// Out of memory; nothing is known of the text.
    NoMemory,
}

impl From<Invalid> for Fault {
    ghost from_gives = { λ _ e. e ≡ fault.NotJson };

    fn from(_e: Invalid) -> Fault {
        Fault::NotJson
    }
}

impl From<AllocError> for Fault {
    ghost from_gives = { λ _ e. e ≡ fault.NoMemory };

    fn from(_e: AllocError) -> Fault {
        Fault::NoMemory
    }
}

impl<T: Drop> From<AllocFailed<T>> for Fault {
    ghost from_gives = { λ _ e. e ≡ fault.NoMemory };

    fn from(_e: AllocFailed<T>) -> Fault {
        Fault::NoMemory
    }
}
