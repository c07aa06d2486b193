//! Unusual bodies with what they ask, and bodies that are read both by their tokens and by a tree.

mod asked;
mod both_ways;
mod lengths;
mod refused;

use lsp_message::{Incoming, ReadFault, Scratch, read};
use std::alloc::{AllocError, Global};

/// Returns what a body asks, read by a tree of JSON.
fn by_tree(alloc: Global, body: &[u8]) -> Result<Incoming, AllocError> {
    match read(alloc, body) {
        Ok(message) => Incoming::of(alloc, message),
        Err(ReadFault::NotJson) => Ok(Incoming::NotJson),
        Err(ReadFault::NotAMessage { id }) => Ok(Incoming::NotAMessage { id }),
        Err(ReadFault::NoMemory) => Err(AllocError),
    }
}

/// Returns whether a body is read alike by its tokens and by a tree.
fn is_same(alloc: Global, body: &[u8], scratch: &mut Scratch) -> Result<bool, AllocError> {
    let tokens = Incoming::read_with(alloc, body, scratch)?;
    let tree = by_tree(alloc, body)?;
    Ok(tokens == tree)
}
