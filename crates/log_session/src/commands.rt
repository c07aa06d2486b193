//! The calls: each is an engine, from a reader to a writer, over a server.
//!
//! Each contract says what the output and the result are by all records that are complete in the
//! bytes that were read (`all_records`).

pub(crate) mod replay;
pub(crate) mod serve;
