//! The agreement of `initialize`, the text of each message, and calls that run out of memory.

mod agreement;
mod refused;
mod texts;
