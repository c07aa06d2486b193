//! Logs through the engines: their printed words, streams that are short or fail, and runs that are
//! out of memory.

mod adapter;
mod engines;
mod faults;
