//! Text edits of an open document, as the batch that changes it.

use super::{URI, change, narrow, store_of};
use crate::tests::is_left;
use lsp_edit::Change;
use lsp_samples::again;
use lsp_samples::edits::{Edit, text_edits};
use lsp_store::{Store, StoreFault};
use lsp_text::Encoding;
use std::alloc::Global;
use std::test::Fail;

static EDITS: [Edit; 3] = [(1, 2, 1, 2, "!"), (0, 0, 0, 1, ""), (1, 0, 1, 1, "X")];

/// Returns the batch of the text edits.
fn batch_of(store: &Store, alloc: Global) -> Result<Vec<Change>, StoreFault> {
    let edits = text_edits(alloc, &EDITS)?;
    let Some(document) = store.get(URI) else {
        return Err(StoreFault::NotOpen);
    };
    match document.batch_of_edits(Encoding::Utf16, &edits) {
        Ok(changes) => Ok(changes),
        Err(_) => Err(StoreFault::NoMemory),
    }
}

fn is_edited(alloc: Global, refused: &mut usize) -> Result<bool, StoreFault> {
    let limits = narrow(8, 3)?;
    let mut store = again!(
        refused,
        StoreFault::NoMemory,
        store_of(alloc, limits, "ab\ncd")
    )?;
    let changes = again!(refused, StoreFault::NoMemory, batch_of(&store, alloc))?;
    again!(
        refused,
        StoreFault::NoMemory,
        change(&mut store, 2, &changes)
    )?;
    Ok(is_left(&store, Some((2, "b\nXd!"))))
}

#[test]
fn refused_text_edits_of_a_document(rt: HostRuntime) -> Result<(), Fail> {
    let mut refused = 0;
    assert!(rt; is_edited(rt.alloc(), &mut refused)?);
    println!(rt; "refused {refused}")?;
    Ok(())
}
