//! What each command writes: `check`, `explain`, `trace`, `compare`, and `openings` (which documents
//! were opened).
//!
//! `reasons` writes why a record was refused, and `noted` what is suspicious of one that was
//! accepted.

pub(crate) mod check;
pub(crate) mod compare;
pub(crate) mod explain;
pub(crate) mod noted;
pub(crate) mod openings;
pub(crate) mod reasons;
pub(crate) mod trace;
