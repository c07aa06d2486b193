//! What the tests of several crates share: bodies of one session, changes in short, logs, and calls
//! that are made again. No program uses it.
//!
//! - `bodies`: the messages of a session, and the replies.
//! - `edits`: changes as rows of numbers and a text.
//! - `logs`: logs of bodies.
//! - `refused`: calls that run out of memory once, and are made again.
//! - `shown`: values as `Display` shows them.
#![tactic(auto)]

pub mod bodies;
pub mod edits;
pub mod logs;
pub mod refused;
pub mod shown;
