//! The words of `check`, and the reasons that it gives for them.

use super::*;

const HOVER: &str = r#"{"id":"q","jsonrpc":"2.0","method":"textDocument/hover"}"#;

/// A body, its word, and what `check` with reasons writes after that.
type Answered = (&'static str, &'static str, &'static str);

/// A session. Texts have at most 8 bytes, with at most two documents and two changes.
static WORDS: [Answered; 27] = [
    (
        HOVER,
        "error -32002",
        ": no request may come before `initialize`",
    ),
    (OPEN, "dropped", ""),
    (
        r#"{"id":0,"jsonrpc":"2.0","method":"initialize","params":[]}"#,
        "error -32602",
        ": the parameters of `initialize` can't be read",
    ),
    (INITIALIZE, "reply", ""),
    (INITIALIZED, "ignored", ""),
    ("[", "error -32700", ": the body is no JSON"),
    (
        "[]",
        "error -32600",
        ": this is no message, or a request that may not come now",
    ),
    (
        r#"{"id":7,"jsonrpc":"2.0","method":"x"}"#,
        "error -32601",
        "",
    ),
    (r#"{"jsonrpc":"2.0","method":"$/x"}"#, "ignored", ""),
    (r#"{"id":1,"jsonrpc":"2.0","result":null}"#, "ignored", ""),
    (
        INITIALIZE,
        "error -32600",
        ": this is no message, or a request that may not come now",
    ),
    // The version is a text.
    (
        r#"{"jsonrpc":"2.0","method":"textDocument/didOpen","params":{"textDocument":{"languageId":"plaintext","text":"abc","uri":"file:///a","version":"1"}}}"#,
        "refused M4",
        " of \"file:///a\": the parameters can't be read: `textDocument.version` is missing, or no 32-bit integer",
    ),
    (OPEN, "changed", ""),
    (
        OPEN,
        "refused S1",
        " of \"file:///a\": the document is open already; see message 13",
    ),
    (
        r#"{"jsonrpc":"2.0","method":"textDocument/didClose","params":{"textDocument":{"uri":"file:///c"}}}"#,
        "refused S4",
        " of \"file:///c\": the document is not open; see message 12",
    ),
    // A second document, and a third.
    (
        r#"{"jsonrpc":"2.0","method":"textDocument/didOpen","params":{"textDocument":{"languageId":"plaintext","text":"","uri":"file:///b","version":1}}}"#,
        "changed",
        "",
    ),
    (
        r#"{"jsonrpc":"2.0","method":"textDocument/didOpen","params":{"textDocument":{"languageId":"plaintext","text":"","uri":"file:///c","version":1}}}"#,
        "refused S2",
        " of \"file:///c\": as many documents are open as --max-docs allows, 2; see message 12",
    ),
    // A text of 9 bytes.
    (
        r#"{"jsonrpc":"2.0","method":"textDocument/didChange","params":{"contentChanges":[{"range":{"end":{"character":0,"line":0},"start":{"character":0,"line":0}},"text":"123456"}],"textDocument":{"uri":"file:///a","version":2}}}"#,
        "refused S3",
        " of \"file:///a\": the text has more bytes than --max-text allows, 8; see message 14",
    ),
    // It ends before it starts.
    (
        r#"{"jsonrpc":"2.0","method":"textDocument/didChange","params":{"contentChanges":[{"range":{"end":{"character":1,"line":0},"start":{"character":2,"line":0}},"text":""}],"textDocument":{"uri":"file:///a","version":2}}}"#,
        "refused E2",
        " of \"file:///a\": change 1 starts at line 0, character 2, after it ends at line 0, character 1; see message 18",
    ),
    // The version is the current one.
    (
        r#"{"jsonrpc":"2.0","method":"textDocument/didChange","params":{"contentChanges":[{"text":"😀"}],"textDocument":{"uri":"file:///a","version":1}}}"#,
        "refused S5",
        " of \"file:///a\": version 1 was sent, and the current one is 1; see message 13",
    ),
    (
        r#"{"jsonrpc":"2.0","method":"textDocument/didChange","params":{"contentChanges":[{"text":"😀"}],"textDocument":{"uri":"file:///a","version":2}}}"#,
        "changed",
        "",
    ),
    // Inside of that character.
    (
        r#"{"jsonrpc":"2.0","method":"textDocument/didChange","params":{"contentChanges":[{"range":{"end":{"character":1,"line":0},"start":{"character":1,"line":0}},"text":"b"}],"textDocument":{"uri":"file:///a","version":3}}}"#,
        "refused E1",
        " of \"file:///a\": change 1 starts at line 0, character 1, inside a character; see message 20",
    ),
    (
        r#"{"jsonrpc":"2.0","method":"textDocument/didChange","params":{"contentChanges":[{"text":""},{"text":""},{"text":""}],"textDocument":{"uri":"file:///a","version":3}}}"#,
        "refused S6",
        " of \"file:///a\": there are more changes than --max-changes allows, 2, or their texts have more than 1 GiB; see message 22",
    ),
    (SHUTDOWN, "reply", ""),
    (
        HOVER,
        "error -32600",
        ": this is no message, or a request that may not come now",
    ),
    (WHOLE, "dropped", ""),
    (EXIT, "exit 0", ""),
];

/// The end of what `check` with reasons writes. S1 and S5 are among the refusals.
const ADVICE: &[u8] =
    b"messages of the editor: 27, changed documents: 3\ndropped: 2, first message 2\nrefused by error -32002: 1, first message 1\nrefused by error -32602: 1, first message 3\nrefused by error -32700: 1, first message 6\nrefused by error -32600: 3, first message 7\nrefused by M4: 1, first message 12\nrefused by S1: 1, first message 14\nrefused by S4: 1, first message 15\nrefused by S2: 1, first message 17\nrefused by S3: 1, first message 18\nrefused by E2: 1, first message 19\nrefused by S5: 1, first message 20\nrefused by E1: 1, first message 22\nrefused by S6: 1, first message 23\nRefused messages change nothing. `lspsync replay --at N`: the texts after message N.\nMany servers don't refuse what is S1 or S5 here. `--lenient` doesn't either.\n";

/// Returns the frames of the bodies.
fn frames(alloc: Global, rows: &[Answered]) -> Result<Vec<u8>, AllocError> {
    let mut bytes = Vec::new(alloc);
    for (body, _, _) in rows {
        bytes.extend_from_slice(&frame(alloc, body.as_bytes())?)?;
    }
    Ok(bytes)
}

/// Returns their lines.
fn lines(alloc: Global, rows: &[Answered], with_reasons: bool) -> Result<Vec<u8>, AllocError> {
    let mut bytes = Vec::new(alloc);
    let mut number = 0usize;
    for (_, word, reason) in rows {
        number = number.saturating_add(1);
        let reason = if with_reasons { *reason } else { "" };
        let line = format!(in alloc; "{number} {word}{reason}\n")?;
        bytes.extend_from_slice(line.as_bytes())?;
    }
    Ok(bytes)
}

/// Returns whether each body has its word, with this result, and its reason if the command is to
/// give one.
fn have_words(
    alloc: Global,
    command: Command,
    rows: &[Answered],
    answer: Answer,
) -> Result<bool, Fail> {
    let settings = Settings {
        limits: Limits::new(4_096, 8, 2, 2)?,
        ..settings()?
    };
    let input = frames(alloc, rows)?;
    let run = run_with(alloc, command, &input, settings, SMOOTH)?;
    let mut output = lines(alloc, rows, command == Command::Explain)?;
    if command == Command::Explain {
        output.extend_from_slice(ADVICE)?;
    }
    Ok(run.answer == answer && run.output == output)
}

#[test]
fn every_answer_has_its_word_and_its_reason(rt: HostRuntime) -> Result<(), Fail> {
    // Five errors and three refusals up to the first document, then six refusals and an error. The
    // unknown method doesn't count.
    let answer = Ended(1, 27, 15).answer();
    assert!(rt; have_words(rt.alloc(), Command::Check, &WORDS, answer)?);
    assert!(rt; have_words(rt.alloc(), Command::Explain, &WORDS, answer)?);
    Ok(())
}

/// The method and the params of a message that can't be read, and what `check` writes after its word.
static LACKING: [(&str, &str, &str); 8] = [
    (
        "didOpen",
        r#"{"textDocument":{"languageId":"c","text":"","version":1}}"#,
        ": the parameters can't be read: `textDocument.uri` is missing, or no string",
    ),
    (
        "didOpen",
        r#"{"textDocument":{"text":"","uri":"file:///a","version":1}}"#,
        " of \"file:///a\": the parameters can't be read: `textDocument.languageId` is missing, or no string",
    ),
    (
        "didOpen",
        r#"{"textDocument":{"languageId":"c","text":["x"],"uri":"file:///a","version":1}}"#,
        " of \"file:///a\": the parameters can't be read: `textDocument.text` is missing, or no string",
    ),
    (
        "didChange",
        r#"{"contentChanges":[],"textDocument":{"uri":"file:///a","version":null}}"#,
        " of \"file:///a\": the parameters can't be read: `textDocument.version` is missing, or no 32-bit integer",
    ),
    (
        "didChange",
        r#"{"contentChanges":{"text":"x"},"textDocument":{"uri":"file:///a","version":2}}"#,
        " of \"file:///a\": the parameters can't be read: `contentChanges` is missing, or no array",
    ),
    (
        "didChange",
        r#"{"contentChanges":[{"text":"x"},{"range":{"start":{"line":0,"character":0}},"text":""}],"textDocument":{"uri":"file:///a","version":2}}"#,
        " of \"file:///a\": the parameters can't be read: a change has no `text`, or a wrong `range`",
    ),
    (
        "didClose",
        r#"{"textDocument":"file:///a"}"#,
        ": the parameters can't be read: `textDocument.uri` is missing, or no string",
    ),
    (
        "didClose",
        r#"[]"#,
        ": the parameters can't be read: `textDocument.uri` is missing, or no string",
    ),
];

/// Returns whether `check` writes this after the word of a message of this method with these params.
fn is_lacking(alloc: Global, method: &str, params: &str, words: &str) -> Result<bool, Fail> {
    let body = format!(in alloc;
        r#"{{"jsonrpc":"2.0","method":"textDocument/{method}","params":{params}}}"#
    )?;
    let input = log(alloc, &[INITIALIZE, body.as_str()])?;
    let run = run_with(alloc, Command::Brief, &input, settings()?, SMOOTH)?;
    let line = format!(in alloc; "2 refused M4{words}\nmessages of the editor: 2,")?;
    Ok(run.output.starts_with(line.as_bytes()))
}

#[test]
fn what_a_message_lacks_is_named(rt: HostRuntime) -> Result<(), Fail> {
    for (method, params, words) in &LACKING {
        assert!(rt;
            is_lacking(rt.alloc(), method, params, words)?,
            "at {method} with {params}"
        );
    }
    Ok(())
}
