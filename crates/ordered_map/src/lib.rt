//! `OrderedMap`, a hash map with keys that are texts, which keeps its entries in order of insertion
//! and removes each of them at the same cost.
//!
//! - `map`: `OrderedMap`, the entries in slots, and how many slots have one.
//! - `slots`: `Slots`, the entries in an `IndexMap`, with what is left where some were removed.
//! - `counts`: how many slots of each block have an entry; the slot of an index and back.
//! - `iter`: the entries, one after another.
#![tactic(auto)]

mod counts;
mod iter;
mod map;
mod slots;

pub use iter::Iter;
pub use map::{MAX_VACANT, OrderedMap};
