//! The `rangeLength` of changes, by their bytes and by a tree.

use lsp_message::{Incoming, Scratch};
use lsp_samples::again;
use std::alloc::{AllocError, Global};
use std::test::Fail;

/// A body, and the `rangeLength` of each of its changes.
struct Row {
    body: &'static [u8],
    lengths: &'static [Option<u64>],
}

static ROWS: [Row; 7] = [
    // By the bytes of a keystroke: in its usual layout, and spaced.
    Row {
        body: br#"{"jsonrpc":"2.0","method":"textDocument/didChange","params":{"textDocument":{"uri":"u","version":2},"contentChanges":[{"range":{"start":{"line":0,"character":1},"end":{"line":0,"character":4}},"rangeLength":3,"text":"a"}]}}"#,
        lengths: &[Some(3)],
    },
    Row {
        body: br#"{ "jsonrpc": "2.0", "method": "textDocument/didChange", "params": { "textDocument": { "uri": "u", "version": 2 }, "contentChanges": [ { "range": { "start": { "line": 0, "character": 1 }, "end": { "line": 0, "character": 4 } }, "rangeLength": 12, "text": "a" } ] } }"#,
        lengths: &[Some(12)],
    },
    // By a tree: an escape in the text, several changes, and no JSON.
    Row {
        body: br#"{"jsonrpc":"2.0","method":"textDocument/didChange","params":{"textDocument":{"uri":"u","version":2},"contentChanges":[{"range":{"start":{"line":0,"character":1},"end":{"line":0,"character":6}},"rangeLength":5,"text":"\n"}]}}"#,
        lengths: &[Some(5)],
    },
    Row {
        body: br#"{"params":{"contentChanges":[{"text":"a","rangeLength":7},{"text":"b"},{"rangeLength":0,"text":"c"}],"textDocument":{"uri":"u","version":2}},"method":"textDocument/didChange","jsonrpc":"2.0"}"#,
        lengths: &[Some(7), None, Some(0)],
    },
    // By a tree, after it was read by its tokens: an escape in the method.
    Row {
        body: br#"{"jsonrpc":"2.0","method":"textDocument/\u0064idChange","params":{"textDocument":{"uri":"u","version":2},"contentChanges":[{"text":"a","rangeLength":9}]}}"#,
        lengths: &[Some(9)],
    },
    // By its tokens.
    Row {
        body: br#"{"jsonrpc":"2.0","method":"$/progress","params":{"contentChanges":[{"text":"a","rangeLength":9}]}}"#,
        lengths: &[],
    },
    Row {
        body: b"\xff",
        lengths: &[],
    },
];

/// Returns whether a body's changes have the lengths of its row. Out of memory is counted, and the
/// call made again.
fn is_read(alloc: Global, row: &Row, refused: &mut usize) -> Result<bool, AllocError> {
    let mut scratch = Scratch::new(alloc);
    let read = again!(
        refused,
        AllocError,
        Incoming::read_noted(alloc, row.body, &mut scratch)
    );
    let (_, noted) = read?;
    Ok(noted.lengths.as_slice() == row.lengths)
}

#[test]
fn refused_range_lengths(rt: HostRuntime) -> Result<(), Fail> {
    let mut refused = 0;
    for (index, row) in ROWS.iter().enumerate() {
        assert!(rt; is_read(rt.alloc(), row, &mut refused)?, "{index}");
    }
    println!(rt; "refused {refused}")?;
    Ok(())
}
