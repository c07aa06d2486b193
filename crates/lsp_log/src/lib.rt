//! What a log is: its version and its records; and how it is split, in whatever pieces it comes.
//!
//! - `splitter`: the records of a log that comes in pieces.
//! - `record`: the versions of a log, and its records.
//! - `opening`: the first bytes of an input, as many as decide its version.
//! - `laws`: what holds of every log.
#![tactic(auto)]

mod laws;
mod opening;
mod record;
mod splitter;

pub use laws::reading_laws;
pub use opening::{Opening, read_opening};
pub use record::{Head, Record, Sender, VERSION_LINE, Version};
pub use splitter::Splitter;
