//! Whether a document's last text is that of a file, and else which message made it so.

use super::*;
use lsp_replay::Missing;

/// Opens a document of three lines.
const THREE_LINES: &str =
    r#"{"jsonrpc":"2.0","method":"textDocument/didOpen","params":{"textDocument":{"languageId":"c","text":"one\ntwo\nthree\n","uri":"file:///a","version":1}}}"#;

/// Changes the second one.
const SECOND_LINE: &str =
    r#"{"jsonrpc":"2.0","method":"textDocument/didChange","params":{"contentChanges":[{"range":{"start":{"line":1,"character":0},"end":{"line":1,"character":3}},"text":"2\t"}],"textDocument":{"uri":"file:///a","version":2}}}"#;

/// Opens a document of two lines, and inserts a letter after the end of the first.
const TWO_LINES: &str =
    r#"{"jsonrpc":"2.0","method":"textDocument/didOpen","params":{"textDocument":{"languageId":"c","text":"a\rb","uri":"file:///a","version":1}}}"#;

const AFTER_AN_END: &str =
    r#"{"jsonrpc":"2.0","method":"textDocument/didChange","params":{"contentChanges":[{"range":{"start":{"line":1,"character":0},"end":{"line":1,"character":0}},"text":"c"}],"textDocument":{"uri":"file:///a","version":2}}}"#;

/// Inserts a letter before one that is alike.
const ALIKE: &str =
    r#"{"jsonrpc":"2.0","method":"textDocument/didChange","params":{"contentChanges":[{"range":{"start":{"line":2,"character":3},"end":{"line":2,"character":3}},"text":"e"}],"textDocument":{"uri":"file:///a","version":2}}}"#;

/// Changes the last line and the first one.
const FAR_APART: &str =
    r#"{"jsonrpc":"2.0","method":"textDocument/didChange","params":{"contentChanges":[{"range":{"start":{"line":2,"character":5},"end":{"line":2,"character":5}},"text":"!"},{"range":{"start":{"line":0,"character":0},"end":{"line":0,"character":1}},"text":"O"}],"textDocument":{"uri":"file:///a","version":3}}}"#;

/// Opens another document that ends in `a`, and one that doesn't.
const OTHER: &str =
    r#"{"jsonrpc":"2.0","method":"textDocument/didOpen","params":{"textDocument":{"languageId":"c","text":"","uri":"file:///b/a","version":1}}}"#;

const ANOTHER: &str =
    r#"{"jsonrpc":"2.0","method":"textDocument/didOpen","params":{"textDocument":{"languageId":"c","text":"","uri":"file:///b","version":1}}}"#;

/// Opens a document of five equal lines and another one.
const EQUAL_LINES: &str =
    r#"{"jsonrpc":"2.0","method":"textDocument/didOpen","params":{"textDocument":{"languageId":"csv","text":"0,0\n0,0\n0,0\n0,0\n0,0\nend\n","uri":"file:///a","version":1}}}"#;

/// The session, the file, the end, and what is written.
static ROWS: [(&[&str], &str, End, &str); 19] = [
    (
        &[INITIALIZE, OPEN, WHOLE],
        "aXc",
        Ended(0, 3, 0),
        "\"file:///a\" after message 3: the text is the file's\n",
    ),
    // The document was closed, and another one is open that doesn't end so.
    (
        &[INITIALIZE, OPEN, WHOLE, ANOTHER, CLOSE],
        "aXc",
        Ended(0, 5, 0),
        "\"file:///a\" after message 3: the text is the file's\n",
    ),
    (
        &[INITIALIZE, OPEN, WHOLE],
        "\u{feff}aXc\r\n",
        Ended(1, 3, 0),
        "\"file:///a\" after message 3: the text is the file's, but for\n  the last line end, which the file alone has\n  a byte order mark, which the file alone has\n",
    ),
    (
        &[INITIALIZE, THREE_LINES],
        "one\r\ntwo\rthree\n",
        Ended(1, 2, 0),
        "\"file:///a\" after message 2: the text is the file's, but for\n  line ends, the first of them made by message 2\n",
    ),
    // A line end is of the message that made it, whatever was changed before or after it.
    (
        &[INITIALIZE, THREE_LINES, SECOND_LINE],
        "one\n2\t\r\nthree\n",
        Ended(1, 3, 0),
        "\"file:///a\" after message 3: the text is the file's, but for\n  line ends, the first of them made by message 2\n",
    ),
    (
        &[INITIALIZE, TWO_LINES, AFTER_AN_END],
        "a\r\ncb",
        Ended(1, 3, 0),
        "\"file:///a\" after message 3: the text is the file's, but for\n  line ends, the first of them made by message 2\n",
    ),
    // A line differs, and one is missing at the end.
    (
        &[INITIALIZE, THREE_LINES, SECOND_LINE],
        "one\ntwo\u{a0}\nthree\nfour\n",
        Ended(1, 3, 0),
        "\"file:///a\" after message 3: the text is not the file's:\nline 2 (made by message 3): \"2\\t\\n\"\n  the file has: \"two\\u{a0}\\n\"\nafter line 3 (made by message 2):\n  the file has: \"four\\n\"\nFor each line, a message named is wrong, a later one is missing or wrong, or an earlier mistake led it to the wrong line. Look at the lowest numbers after the opening first.\n",
    ),
    // Of equal lines the one that differs is named, and one too many is one place.
    (
        &[INITIALIZE, EQUAL_LINES],
        "0,0\n0,0\n0,1\n0,0\n0,0\nend\n",
        Ended(1, 2, 0),
        "\"file:///a\" after message 2: the text is not the file's:\nline 3 (made by message 2): \"0,0\\n\"\n  the file, which differs from character 3 on, has: \"0,1\\n\"\nFor each line, a message named is wrong, a later one is missing or wrong, or an earlier mistake led it to the wrong line. Look at the lowest numbers after the opening first.\n",
    ),
    (
        &[INITIALIZE, EQUAL_LINES],
        "0,0\n0,0\n0,0\n0,0\nend\n",
        Ended(1, 2, 0),
        "\"file:///a\" after message 2: the text is not the file's:\nline 5 (made by message 2): \"0,0\\n\"\nFor each line, a message named is wrong, a later one is missing or wrong, or an earlier mistake led it to the wrong line. Look at the lowest numbers after the opening first.\n",
    ),
    // A line is missing at the beginning, and there are two too many at the end.
    (
        &[INITIALIZE, THREE_LINES, SECOND_LINE],
        "zero\none\n",
        Ended(1, 3, 0),
        "\"file:///a\" after message 3: the text is not the file's:\nafter line 0 (made by message 2):\n  the file has: \"zero\\n\"\nline 2 (made by messages 3, 2): \"2\\t\\n\"\nline 3 (made by message 2): \"three\\n\"\nFor each line, a message named is wrong, a later one is missing or wrong, or an earlier mistake led it to the wrong line. Look at the lowest numbers after the opening first.\n",
    ),
    // It was opened again, so each line is of that message.
    (
        &[INITIALIZE, THREE_LINES, SECOND_LINE, CLOSE, OPEN],
        "",
        Ended(1, 5, 0),
        "\"file:///a\" after message 5: the text is not the file's:\nline 1 (made by message 5): \"abc\"\nFor each line, a message named is wrong, a later one is missing or wrong, or an earlier mistake led it to the wrong line. Look at the lowest numbers after the opening first.\n",
    ),
    // A letter too many is of the message that inserted it, whichever of those alike the file lacks.
    (
        &[INITIALIZE, THREE_LINES, ALIKE],
        "one\ntwo\nthree\n",
        Ended(1, 3, 0),
        "\"file:///a\" after message 3: the text is not the file's:\nline 3 (made by messages 2, 3): \"threee\\n\"\n  the file, which differs from character 6 on, has: \"three\\n\"\nFor each line, a message named is wrong, a later one is missing or wrong, or an earlier mistake led it to the wrong line. Look at the lowest numbers after the opening first.\n",
    ),
    // What a message leaves between two changes isn't its own.
    (
        &[INITIALIZE, THREE_LINES, SECOND_LINE, FAR_APART],
        "One\ntwo\nthree!\n",
        Ended(1, 4, 0),
        "\"file:///a\" after message 4: the text is not the file's:\nline 2 (made by message 3): \"2\\t\\n\"\n  the file has: \"two\\n\"\nFor each line, a message named is wrong, a later one is missing or wrong, or an earlier mistake led it to the wrong line. Look at the lowest numbers after the opening first.\n",
    ),
    // The second of two messages of one version was refused.
    (
        &[INITIALIZE, THREE_LINES, SECOND_LINE, ALIKE],
        "one\n2\t\nthreee\n",
        Ended(1, 4, 1),
        "\"file:///a\" after message 3: the text is not the file's:\nline 3 (made by message 2): \"three\\n\"\n  the file, which differs from character 6 on, has: \"threee\\n\"\nFor each line, a message named is wrong, a later one is missing or wrong, or an earlier mistake led it to the wrong line. Look at the lowest numbers after the opening first.\nRefused, so without effect: 4 (S5)\n",
    ),
    // What is missing at the end of a text without a line end.
    (
        &[INITIALIZE, OPEN],
        "abcd",
        Ended(1, 2, 0),
        "\"file:///a\" after message 2: the text is not the file's:\nline 1 (made by message 2): \"abc\"\n  the file, which differs from character 4 on, has: \"abcd\"\nFor each line, a message named is wrong, a later one is missing or wrong, or an earlier mistake led it to the wrong line. Look at the lowest numbers after the opening first.\n",
    ),
    // A long line is cut.
    (
        &[INITIALIZE, OPEN],
        "abcxxxxxxxxxxxxxxxxxxxxxxxxxxxxxxxxxxxxxxxxxxxxxxxxxxxxxxxxxxxxxxxxxxxxxxxxxxxxxxxxxxxxxxxxxxxxxxxxxxxxxxxxxxxxxxxxxxxxxxxxxxxxxxxxxxxxxxxxxxxxxxxxxxxxxxxxxxxxxxxxxxxxxxxxxxxxxxxxxxxxxxxxxxxxxxxxxxxxxxxxxxxxxxxxxx",
        Ended(1, 2, 0),
        "\"file:///a\" after message 2: the text is not the file's:\nline 1 (made by message 2): \"abc\"\n  the file, which differs from character 4 on, has: \"abcxxxxxxxxxxxxxxxxxxxxxxxxxxxxxxxxxxxxxxxxxxxxxxxxxxxxxxxxxxxxxxxxxxxxxxxxxxxxxxxxxxxxxxxxxxxxxxxxxxxxxxxxxxxxxxxxxxxxxxxxxxxxxxxxxxxxxxxxxxxxxxxxxxxxxxxxxxxxx\"..\nFor each line, a message named is wrong, a later one is missing or wrong, or an earlier mistake led it to the wrong line. Look at the lowest numbers after the opening first.\n",
    ),
    // What can't be seen, turns text around or controls a terminal is escaped.
    (
        &[INITIALIZE, OPEN],
        "\u{b}\u{9b}\u{2009}\u{202e}\u{2069}\u{fe0f}\u{e0020}é",
        Ended(1, 2, 0),
        "\"file:///a\" after message 2: the text is not the file's:\nline 1 (made by message 2): \"abc\"\n  the file has: \"\\u{b}\\u{9b}\\u{2009}\\u{202e}\\u{2069}\\u{fe0f}\\u{e0020}é\"\nFor each line, a message named is wrong, a later one is missing or wrong, or an earlier mistake led it to the wrong line. Look at the lowest numbers after the opening first.\n",
    ),
    (
        &[INITIALIZE, OPEN, OTHER],
        "abc",
        Ended(1, 3, 0),
        "more than one document ends so; `--uri` names one:\n\"file:///a\"\n\"file:///b/a\"\n",
    ),
    // An empty file, and an empty text.
    (
        &[INITIALIZE, OTHER],
        "",
        Ended(0, 2, 0),
        "\"file:///b/a\" after message 2: the text is the file's\n",
    ),
];

/// Returns whether a session is compared with a file so.
fn is_compared(
    alloc: Global,
    bodies: &[&str],
    file: &'static str,
    end: End,
    output: &str,
) -> Result<bool, Fail> {
    let input = log(alloc, bodies)?;
    let run = run_with(alloc, Command::Compare(file), &input, settings()?, SMOOTH)?;
    Ok(run.answer == end.answer() && run.output.as_slice() == output.as_bytes())
}

#[test]
fn texts_are_compared_with_files(rt: HostRuntime) -> Result<(), Fail> {
    for (bodies, file, end, output) in &ROWS {
        assert!(rt;
            is_compared(rt.alloc(), bodies, file, *end, output)?,
            "at {file:?}"
        );
    }
    Ok(())
}

/// Returns whether a document that was never open is missing.
fn is_missing(alloc: Global) -> Result<bool, Fail> {
    let input = log(alloc, &[INITIALIZE, ANOTHER])?;
    let run = run_with(alloc, Command::Compare(""), &input, settings()?, SMOOTH)?;
    let missing = Outcome {
        status: 1,
        messages: 2,
        refused: 0,
        missing: Some(Missing::Document),
    };
    Ok(run.answer == Ok(missing) && run.output.is_empty())
}

#[test]
fn a_document_that_was_never_open_is_missing(rt: HostRuntime) -> Result<(), Fail> {
    assert!(rt; is_missing(rt.alloc())?);
    Ok(())
}
