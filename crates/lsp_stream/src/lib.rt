//! Readers and writers that report how their calls ended, and calls in a bounded number.
//!
//! - `port`: a reader and a writer that report on their calls; `adapter` makes them of those of
//!   std.
//! - `turns`: reads, writes and flushes in a bounded number of calls.
//! - `duplex`: both ends of a connection, and whether a read came before a flush.
//! - `fault`: why a run from a reader to a writer ends early.
//! - `stop`: a reader and a writer over memory whose calls fail, are interrupted or move few bytes,
//!   as a script says.
#![tactic(auto)]

mod adapter;
mod duplex;
mod fault;
mod port;
mod stop;
mod turns;

pub use adapter::Told;
pub use duplex::Duplex;
pub use fault::EngineFault;
pub use port::{Sink, Source};
pub use stop::{CallEnd, StopReader, StopWriter};
pub use turns::{Turns, flush_out, read_piece, write_given};
