//! Whole runs of calls on one store, in which a call that runs out of memory is made again.

use super::{URI, change, narrow, open};
use crate::tests::{Open, is_left};
use lsp_frame::Limits;
use lsp_samples::edits::{ALL, Edit, batch};
use lsp_store::{Store, StoreFault};
use lsp_text::Encoding;
use std::alloc::Global;
use std::process::Abort;
use std::test::Fail;

/// A call on the one document of a store.
enum Step {
    Open(i32, &'static str),
    Change(i32, &'static [Edit]),
    /// The canonical message, with its body. Its result is the number of the frame's bytes.
    Canonical(i32, &'static [Edit], &'static str),
    Close,
}

use Step::{Canonical, Change, Close, Open as Opens};

/// A call, its result (the bytes of a frame, or 0), and the document after it.
type Row = (Step, Result<usize, StoreFault>, Open);

/// Returns the number of bytes of a canonical message, and 0 if it isn't of this body.
fn frame_len(
    store: &Store,
    version: i32,
    changes: &[lsp_edit::Change],
    body: &str,
) -> Result<usize, StoreFault> {
    let frame = store.canonical_message(URI, version, Encoding::Utf16, changes)?;
    let is_framed = frame.as_slice().ends_with(body.as_bytes());
    Ok(if is_framed { frame.len() } else { 0 })
}

fn answer(store: &mut Store, alloc: Global, step: &Step) -> Result<usize, StoreFault> {
    match step {
        Opens(version, text) => open(store, alloc, *version, text)?,
        Change(version, edits) => change(store, *version, &batch(alloc, edits)?)?,
        Canonical(version, edits, body) => {
            return frame_len(store, *version, &batch(alloc, edits)?, body);
        }
        Close => store.close(URI)?,
    }
    Ok(0)
}

/// Returns whether the result of a call and the document after it are those of its row. Where
/// memory runs out the document is unchanged, and the call made again.
fn is_answered(
    alloc: Global,
    store: &mut Store,
    row: &Row,
    before: Open,
    refused: &mut usize,
) -> bool {
    let mut given = answer(store, alloc, &row.0);
    if matches!(given, Err(StoreFault::NoMemory)) {
        *refused = refused.saturating_add(1);
        if !is_left(store, before) {
            return false;
        }
        given = answer(store, alloc, &row.0);
    }
    given == row.1 && is_left(store, row.2)
}

/// Returns whether all calls on one store have the results of their rows.
fn are_answered(alloc: Global, limits: Limits, rows: &[Row], refused: &mut usize) -> bool {
    let mut store = Store::new(alloc, limits);
    let mut before = None;
    for row in rows {
        if !is_answered(alloc, &mut store, row, before, refused) {
            return false;
        }
        before = row.2;
    }
    true
}

const MOVED: &str =
    r#"{"jsonrpc":"2.0","method":"textDocument/didChange","params":{"contentChanges":[{"range":{"end":{"character":8,"line":0},"start":{"character":8,"line":0}},"text":"xyz"},{"range":{"end":{"character":3,"line":0},"start":{"character":0,"line":0}},"text":""}],"textDocument":{"uri":"file:///a","version":2}}}"#;

/// One document of at most 8 bytes, and at most two changes.
static ROWS: [Row; 10] = [
    // A text that is too long before the last change.
    (Opens(1, "abcdefgh"), Ok(0), Some((1, "abcdefgh"))),
    (
        Canonical(2, &[(0, 0, 0, 3, ""), (0, 5, 0, 5, "xyz")], MOVED),
        Ok(326),
        Some((1, "abcdefgh")),
    ),
    (
        Change(2, &[(0, 0, 0, 3, ""), (0, 5, 0, 5, "xyz")]),
        Ok(0),
        Some((2, "defghxyz")),
    ),
    (Close, Ok(0), None),
    // Changes of a range and of a batch that move lines, and a whole text.
    (Opens(1, "a\nb"), Ok(0), Some((1, "a\nb"))),
    (
        Change(2, &[(0, 1, 1, 1, "X\r\n\n")]),
        Ok(0),
        Some((2, "aX\r\n\n")),
    ),
    (
        Change(3, &[(0, 1, 0, 2, "\n"), (1, 0, 1, 0, "c")]),
        Ok(0),
        Some((3, "a\nc\r\n\n")),
    ),
    (Change(4, &[(ALL, 0, 0, 0, "abc")]), Ok(0), Some((4, "abc"))),
    (Close, Ok(0), None),
    (Close, Err(StoreFault::NotOpen), None),
];

#[test]
fn refused_calls_on_one_store(rt: HostRuntime) -> Result<(), Fail> {
    let mut refused = 0;
    assert!(rt; are_answered(rt.alloc(), narrow(8, 2)?, &ROWS, &mut refused));
    println!(rt; "refused {refused}")?;
    Ok(())
}
