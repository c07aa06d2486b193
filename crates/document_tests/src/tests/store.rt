//! Canonical messages with their exact bytes, and calls on a store that run out of memory.
//! Positions are in UTF-16.

mod made_again;
mod plans;
mod reads;
mod squash;
mod text_edits;

use super::URI;
use lsp_edit::Change;
use lsp_frame::Limits;
use lsp_samples::again;
use lsp_store::{Store, StoreFault};
use lsp_text::Encoding;
use std::alloc::Global;

/// Returns limits of 4,096 bytes for bodies, of one document, and of so many bytes of its text and
/// changes. Limits out of range are a fault, which no test has.
fn narrow(text: usize, changes: usize) -> Result<Limits, StoreFault> {
    match Limits::new(4_096, text, 1, changes) {
        Ok(limits) => Ok(limits),
        Err(_) => Err(StoreFault::TooManyDocuments),
    }
}

/// Opens the document of [`URI`].
fn open(store: &mut Store, alloc: Global, version: i32, text: &str) -> Result<(), StoreFault> {
    let uri = String::from_str(alloc, URI)?;
    let language = String::from_str(alloc, "plaintext")?;
    let text = String::from_str(alloc, text)?;
    store.open(uri, language, version, text)
}

/// Returns a store with that document in version 1.
fn store_of(alloc: Global, limits: Limits, text: &str) -> Result<Store, StoreFault> {
    let mut store = Store::new(alloc, limits);
    open(&mut store, alloc, 1, text)?;
    Ok(store)
}

/// Returns such a store, of two changes at most. Out of memory is counted, and the call made again.
fn store_again(alloc: Global, text: &str, refused: &mut usize) -> Result<Store, StoreFault> {
    let limits = narrow(8, 2)?;
    again!(refused, StoreFault::NoMemory, store_of(alloc, limits, text))
}

/// Changes the document.
fn change(store: &mut Store, version: i32, changes: &[Change]) -> Result<(), StoreFault> {
    store.change(URI, version, Encoding::Utf16, changes)
}
