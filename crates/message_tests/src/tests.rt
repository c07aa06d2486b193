//! Frames and bodies: worked rows of what they are read as and how they are written, printed
//! faults, and calls that run out of memory.

mod bodies;
mod faults;
mod frames;
mod messages;
