//! Texts: worked rows of positions and batches, printed faults, and calls that run out of memory.

mod batches;
mod buffer;
mod faults;
mod lines;
