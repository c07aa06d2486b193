//! Batches on one document as one batch: the message of each series, byte for byte.

use super::{URI, narrow, store_of};
use lsp_frame::{Limits, frame};
use lsp_samples::again;
use lsp_samples::edits::{ALL, Edit, batch, batch_again};
use lsp_store::{Squash, Store, StoreFault};
use lsp_text::Encoding;
use std::alloc::{AllocError, Global};
use std::test::Fail;

/// A text, batches under the versions from 2 on, and the body of their one message.
type Row = (&'static str, &'static [&'static [Edit]], &'static str);

static SERIES: [Row; 2] = [
    // Nine batches at two offsets in turn: deltas of many ranks are joined.
    (
        "ab",
        &[
            &[(0, 0, 0, 0, "1")],
            &[(0, 3, 0, 3, "2")],
            &[(0, 0, 0, 0, "3")],
            &[(0, 5, 0, 5, "4")],
            &[(0, 0, 0, 0, "5")],
            &[(0, 7, 0, 7, "6")],
            &[(0, 0, 0, 0, "7")],
            &[(0, 9, 0, 9, "8")],
            &[(0, 0, 0, 0, "9")],
        ],
        r#"{"jsonrpc":"2.0","method":"textDocument/didChange","params":{"contentChanges":[{"range":{"end":{"character":2,"line":0},"start":{"character":2,"line":0}},"text":"2468"},{"range":{"end":{"character":0,"line":0},"start":{"character":0,"line":0}},"text":"97531"}],"textDocument":{"uri":"file:///a","version":10}}}"#,
    ),
    // A change of the whole text removes what came before it.
    (
        "ab",
        &[
            &[(0, 0, 0, 0, "1")],
            &[(0, 3, 0, 3, "2")],
            &[(ALL, 0, 0, 0, "new")],
            &[(0, 0, 0, 1, "N")],
        ],
        r#"{"jsonrpc":"2.0","method":"textDocument/didChange","params":{"contentChanges":[{"range":{"end":{"character":2,"line":0},"start":{"character":0,"line":0}},"text":"New"}],"textDocument":{"uri":"file:///a","version":5}}}"#,
    ),
];

fn squash_in(store: &Store, alloc: Global, limits: Limits) -> Result<Squash, StoreFault> {
    let Some(document) = store.get(URI) else {
        return Err(StoreFault::NotOpen);
    };
    Ok(Squash::start(alloc, limits, &document, Encoding::Utf16)?)
}

/// Returns a squash of a document of version 1 with this text.
fn squash_of(alloc: Global, text: &str) -> Result<Squash, StoreFault> {
    let limits = narrow(16, 8)?;
    let store = store_of(alloc, limits, text)?;
    squash_in(&store, alloc, limits)
}

/// Adds batches under the versions from 2 on. Out of memory is counted, and the call made again.
fn add_all(
    squash: &mut Squash,
    alloc: Global,
    batches: &[&[Edit]],
    refused: &mut usize,
) -> Result<(), StoreFault> {
    let mut version: i32 = 1;
    for edits in batches {
        version = version.saturating_add(1);
        let changes = batch_again(alloc, edits, refused)?;
        again!(refused, StoreFault::NoMemory, squash.add(version, &changes))?;
    }
    Ok(())
}

/// Returns whether a series has its one message, whichever request was refused.
fn is_one_message(alloc: Global, row: &Row, refused: &mut usize) -> Result<bool, StoreFault> {
    let (text, batches, body) = *row;
    let mut squash = again!(refused, StoreFault::NoMemory, squash_of(alloc, text))?;
    add_all(&mut squash, alloc, batches, refused)?;
    let message = again!(refused, StoreFault::NoMemory, squash.message())?;
    let wanted = again!(refused, AllocError, frame(alloc, body.as_bytes()))?;
    Ok(message == wanted)
}

#[test]
fn refused_series_are_one_message(rt: HostRuntime) -> Result<(), Fail> {
    let mut refused = 0;
    for (index, row) in SERIES.iter().enumerate() {
        assert!(rt; is_one_message(rt.alloc(), row, &mut refused)?, "{index}");
    }
    println!(rt; "refused {refused}")?;
    Ok(())
}
