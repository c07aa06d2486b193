//! What each option of the commands on logs does.

use super::*;
use lsp_samples::bodies::{AFTER_ONE_UNIT, CANONICAL, HOVER, INITIALIZE, OPEN, OPEN_EMOJI, WHOLE};
use lsp_samples::logs::log;
use std::test::Fail;

const OPEN_OTHER: &str =
    r#"{"jsonrpc":"2.0","method":"textDocument/didOpen","params":{"textDocument":{"languageId":"","text":"","uri":"file:///b","version":1}}}"#;

const TWO_CHANGES: &str =
    r#"{"jsonrpc":"2.0","method":"textDocument/didChange","params":{"contentChanges":[{"text":"abcd"},{"text":"y"}],"textDocument":{"uri":"file:///a","version":2}}}"#;

const LONG: &str =
    r#"{"jsonrpc":"2.0","method":"textDocument/didChange","params":{"contentChanges":[{"text":"abcd"}],"textDocument":{"uri":"file:///a","version":2}}}"#;

/// Options of `check`, the messages after `initialize`, and the word of the last of them.
static CHECKED: [(&str, &[&str], &str); 9] = [
    ("--max-docs=1", &[OPEN, OPEN_OTHER], "refused S2"),
    ("--max-docs=2", &[OPEN, OPEN_OTHER], "changed"),
    ("--max-text=3", &[OPEN, LONG], "refused S3"),
    ("--max-changes=1", &[OPEN, TWO_CHANGES], "refused S6"),
    (
        "--encoding=utf-8",
        &[OPEN_EMOJI, AFTER_ONE_UNIT],
        "refused E1",
    ),
    (
        "--encoding=utf-32",
        &[OPEN_EMOJI, AFTER_ONE_UNIT],
        "changed",
    ),
    ("--lenient", &[OPEN, OPEN], "changed"),
    ("--max-body=4096", &[OPEN, OPEN], "refused S1"),
    (
        "--explain",
        &[OPEN, OPEN],
        "refused S1 of \"file:///a\": the document is open already; see message 2",
    ),
];

/// Returns whether the third message has this word.
fn has_word(alloc: Global, row: &(&str, &[&str], &str)) -> Result<bool, Fail> {
    let (option, bodies, word) = *row;
    let mut input = log(alloc, &[INITIALIZE])?;
    input.extend_from_slice(&log(alloc, bodies)?)?;
    let words = format!(in alloc; "lspsync check {option}")?;
    let answer = ran(alloc, &words, &input)?;
    let lines = format!(in alloc; "1 reply\n2 changed\n3 {word}\n")?;
    Ok(answer.output.starts_with(lines.as_bytes()))
}

#[test]
fn each_option_of_check_counts(rt: HostRuntime) -> Result<(), Fail> {
    for row in &CHECKED {
        assert!(rt; has_word(rt.alloc(), row)?, "at {}", row.0);
    }
    Ok(())
}

/// A letter more after `aXc`, and the whole text and the letter as one.
const TYPED: &str =
    r#"{"jsonrpc":"2.0","method":"textDocument/didChange","params":{"contentChanges":[{"range":{"end":{"character":3,"line":0},"start":{"character":3,"line":0}},"text":"d"}],"textDocument":{"uri":"file:///a","version":3}}}"#;

const BOTH: &str =
    r#"{"jsonrpc":"2.0","method":"textDocument/didChange","params":{"contentChanges":[{"range":{"end":{"character":3,"line":0},"start":{"character":0,"line":0}},"text":"aXcd"}],"textDocument":{"uri":"file:///a","version":3}}}"#;

/// Words of `normalise`, and what it writes of [`NORMALISED`].
static WRITTEN: [(&str, &[&str]); 4] = [
    (
        "lspsync normalise",
        &[INITIALIZE, OPEN, CANONICAL, TYPED, HOVER],
    ),
    (
        "lspsync normalise --squash",
        &[INITIALIZE, OPEN, BOTH, HOVER],
    ),
    (
        "lspsync normalise --documents",
        &[INITIALIZE, OPEN, CANONICAL, TYPED],
    ),
    (
        "lspsync normalise --squash --documents",
        &[INITIALIZE, OPEN, BOTH],
    ),
];

static NORMALISED: [&str; 5] = [INITIALIZE, OPEN, WHOLE, TYPED, HOVER];

#[test]
fn normalise_squashes_and_leaves_out(rt: HostRuntime) -> Result<(), Fail> {
    let input = log(rt.alloc(), &NORMALISED)?;
    for (words, written) in &WRITTEN {
        let output = log(rt.alloc(), written)?;
        assert!(rt;
            answers(rt.alloc(), words, &input, 0, &output, "")?,
            "at {words:?}"
        );
    }
    Ok(())
}

/// Words of `trace`, and the end of a line that it writes of [`NORMALISED`].
static TRACED: [(&str, &str); 2] = [
    (
        "lspsync trace --texts",
        "\"textDocument\":{\"uri\":\"file:///a\",\"version\":3}}},\"text\":\"aXcd\"}\n",
    ),
    (
        "lspsync trace --bodies",
        "\"body\":{\"id\":\"q\",\"jsonrpc\":\"2.0\",\"method\":\"textDocument/hover\"}}\n",
    ),
];

/// Returns whether `trace` writes a line that ends so.
fn has_line(alloc: Global, words: &str, end: &str) -> Result<bool, Fail> {
    let input = log(alloc, &NORMALISED)?;
    let answer = ran(alloc, words, &input)?;
    Ok(str::from_utf8(&answer.output)?.contains(end))
}

#[test]
fn trace_writes_texts_and_bodies(rt: HostRuntime) -> Result<(), Fail> {
    for (words, end) in &TRACED {
        assert!(rt; has_line(rt.alloc(), words, end)?, "at {words:?}");
    }
    Ok(())
}
