//! What a store, a document and its text return, by each call once.

use super::{URI, narrow, store_of};
use lsp_store::{Document, Store, StoreFault, TextBuffer};
use lsp_text::{Encoding, Position};
use std::alloc::Global;

/// Two lines; the second begins with a character of four bytes, and of two units in UTF-16.
const TEXT: &str = "ab\n\u{1F600}c";

const UTF16: Encoding = Encoding::Utf16;

fn has_head_and_lines(document: &Document<'_>) -> bool {
    let second = document.line(1).map(|it| (it.start, it.end));
    (document.uri(), document.language(), document.version()) == (URI, "plaintext", 1)
        && (document.line_count(), second) == (2, Some((3, 8)))
        && document.line(2).is_none()
}

fn counts_positions(document: &Document<'_>) -> bool {
    let after = Position {
        line: 1,
        character: 2,
    };
    let is_there = document.resolve(UTF16, after) == Ok(7);
    is_there && document.position(UTF16, 7) == Some(after)
}

fn is_copied(text: &TextBuffer) -> bool {
    let mut bytes = [0u8; 4];
    if text.len() < 3 || text.block_count() != 1 {
        return false;
    }
    text.copy_to(3, &mut bytes) == 4 && bytes.as_slice() == "\u{1F600}".as_bytes()
}

fn is_listed(store: &Store) -> bool {
    let at = store.at(0).is_some_and(|it| it.uri() == URI);
    at && store.at(1).is_none() && store.iter().count() == 1 && !store.is_empty()
}

fn is_read(alloc: Global) -> Result<bool, StoreFault> {
    let limits = narrow(8, 1)?;
    let may_open = Store::new(alloc, limits).check_open(URI, TEXT);
    let store = store_of(alloc, limits, TEXT)?;
    let Some(document) = store.get(URI) else {
        return Ok(false);
    };
    let is_read = has_head_and_lines(&document) && counts_positions(&document);
    Ok(is_read && is_copied(document.text()) && is_listed(&store) && may_open == Ok(()))
}

#[test]
fn each_call_that_reads(rt: HostRuntime) {
    assert_eq!(rt; is_read(rt.alloc()), Ok(true));
}
