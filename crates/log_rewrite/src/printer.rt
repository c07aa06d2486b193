//! What each command writes: `normalise`, `squash` (`normalise` with squash), `convert`, and `part` (of
//! a part of a log).
//!
//! `front` writes what comes before a record's frame.

pub(crate) mod convert;
mod front;
pub(crate) mod normalise;
pub(crate) mod part;
pub(crate) mod squash;
