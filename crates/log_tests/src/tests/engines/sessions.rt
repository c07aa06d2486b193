//! Worked sessions: the output and the result of each engine.

use super::*;
use lsp_samples::bodies::{AFTER_ONE_UNIT, NO_ID, OPEN_EMOJI};

/// The report of two documents. The first is closed, and opened again after the second.
static REPORTS: [Row; 2] = [
    Row(
        Command::Replay,
        Bytes::Frames(&[
            INITIALIZE,
            OPEN,
            r#"{"jsonrpc":"2.0","method":"textDocument/didOpen","params":{"textDocument":{"languageId":"plaintext","text":"\u0073ay \"hi\"\n\u0001\u00e9\/","uri":"file:///b","version":1}}}"#,
            CLOSE,
            r#"{"jsonrpc":"2.0","method":"textDocument/didOpen","params":{"textDocument":{"languageId":"plaintext","text":"","uri":"file:///a","version":1}}}"#,
        ]),
        Ended(0, 5, 0),
        Bytes::Plain(
            b"{\"languageId\":\"plaintext\",\"text\":\"say \\\"hi\\\"\\n\\u0001\xc3\xa9/\",\"uri\":\"file:///b\",\"version\":1}\n{\"languageId\":\"plaintext\",\"text\":\"\",\"uri\":\"file:///a\",\"version\":1}\n",
        ),
    ),
    // They stay open after an exit.
    Row(
        Command::Replay,
        Bytes::Frames(&[INITIALIZE, OPEN, WHOLE, EXIT]),
        Ended(1, 4, 1),
        Bytes::Plain(WORKED_REPORT),
    ),
];

#[test]
fn documents_are_reported_in_order_of_opening(rt: HostRuntime) -> Result<(), Fail> {
    assert!(rt; all_give(rt.alloc(), &REPORTS)?);
    Ok(())
}

/// The session and a second exit.
const TWICE: &[&str] = &[
    INITIALIZE,
    INITIALIZED,
    OPEN,
    EDITED,
    CLOSE,
    SHUTDOWN,
    EXIT,
    EXIT,
];

static ENDS: [Row; 4] = [
    // `serve` reads nothing after the exit. A log command reads on, and accepts no more of the client.
    Row(
        Command::Serve,
        Bytes::Then(SESSION, b"no header"),
        Ended(0, 7, 0),
        Bytes::Frames(REPLIES),
    ),
    Row(
        Command::Normalise,
        Bytes::Frames(TWICE),
        Fault(EngineFault::BadLog { place: 891 }),
        Bytes::Frames(SESSION),
    ),
    // Its input ends.
    Row(
        Command::Serve,
        Bytes::Frames(&[INITIALIZE, "[]", OPEN]),
        Ended(1, 3, 1),
        Bytes::Frames(&[REPLY, NO_ID]),
    ),
    Row(
        Command::Check,
        Bytes::Then(WORKED, b"Content-Length: 5\r\n\r\nab"),
        Fault(EngineFault::Truncated { place: 529 }),
        Bytes::Plain(CHECK_1),
    ),
];

#[test]
fn a_session_ends_with_its_exit_or_its_input(rt: HostRuntime) -> Result<(), Fail> {
    assert!(rt; all_give(rt.alloc(), &ENDS)?);
    Ok(())
}

/// A server's notification.
const DIAGNOSTICS: &str =
    r#"{"jsonrpc":"2.0","method":"textDocument/publishDiagnostics","params":{"diagnostics":[],"uri":"file:///a"}}"#;

static JOINED: [Row; 3] = [
    // A record between two changes ends the series.
    Row(
        Command::Squash,
        Bytes::Frames(&[INITIALIZE, OPEN, WHOLE, SAVE, TYPED]),
        Ended(0, 5, 0),
        Bytes::Frames(&[INITIALIZE, OPEN, CANONICAL, SAVE, TYPED]),
    ),
    // What isn't about documents is left out, and ends none.
    Row(
        Command::SquashDocuments,
        Bytes::Frames(&[INITIALIZE, OPEN, WHOLE, HOVER, TYPED, SAVE]),
        Ended(0, 5, 0),
        Bytes::Frames(&[INITIALIZE, OPEN, BOTH, SAVE]),
    ),
    // Of the server's records the answers to `initialize` and `shutdown` stay.
    Row(
        Command::Documents,
        Bytes::Marked(&[
            (">", INITIALIZE),
            ("<", REPLY),
            (">", OPEN),
            ("<", DIAGNOSTICS),
            (">", HOVER),
            (">", WHOLE),
            (">", SHUTDOWN),
            ("<", SHUT_DOWN),
            ("<", SHUT_DOWN),
        ]),
        Ended(0, 4, 0),
        Bytes::Marked(&[
            (">", INITIALIZE),
            ("<", REPLY),
            (">", OPEN),
            (">", CANONICAL),
            (">", SHUTDOWN),
            ("<", SHUT_DOWN),
        ]),
    ),
];

#[test]
fn changes_are_joined_and_other_messages_left_out(rt: HostRuntime) -> Result<(), Fail> {
    assert!(rt; all_give(rt.alloc(), &JOINED)?);
    Ok(())
}

/// A log of version 2 that can't be converted, one that is cut, and an empty one.
static VERSION_2: [Row; 3] = [
    Row(
        Command::Convert,
        Bytes::Plain(LINE),
        Fault(EngineFault::BadLog { place: 0 }),
        Bytes::Plain(b""),
    ),
    Row(
        Command::Normalise,
        Bytes::Plain(b"lsp-session-log 2\nContent"),
        Fault(EngineFault::BadLog { place: 18 }),
        Bytes::Plain(b""),
    ),
    Row(
        Command::Normalise,
        Bytes::Plain(LINE),
        Ended(0, 0, 0),
        Bytes::Plain(LINE),
    ),
];

#[test]
fn logs_of_version_2(rt: HostRuntime) -> Result<(), Fail> {
    assert!(rt; all_give(rt.alloc(), &VERSION_2)?);
    Ok(())
}

/// The encodings that a server announces after `initialize`, and the word of a change that is
/// inside a character in UTF-8 and after it in UTF-32.
static ANNOUNCED: [(&str, &str); 2] = [("utf-32", "changed"), ("utf-8", "refused E1")];

/// Returns a log whose server announces an encoding.
fn announced_log(alloc: Global, name: &str) -> Result<Vec<u8>, AllocError> {
    let result = format!(in alloc;
        r#"{{"id":1,"jsonrpc":"2.0","result":{{"capabilities":{{"positionEncoding":"{name}"}}}}}}"#
    )?;
    let records = [
        (">", INITIALIZE),
        ("<", result.as_str()),
        (">", OPEN_EMOJI),
        (">", AFTER_ONE_UNIT),
    ];
    marked(alloc, &records)
}

fn counts_so(alloc: Global, name: &str, word: &str) -> Result<bool, Fail> {
    let input = announced_log(alloc, name)?;
    let run = run_with(alloc, Command::Check, &input, settings()?, SMOOTH)?;
    let lines = format!(in alloc; "1 reply\n2 server\n3 changed\n4 {word}\n")?;
    Ok(run.output.as_slice() == lines.as_bytes())
}

#[test]
fn the_result_of_initialize_has_the_encoding(rt: HostRuntime) -> Result<(), Fail> {
    for (name, word) in &ANNOUNCED {
        assert!(rt; counts_so(rt.alloc(), name, word)?, "{name}");
    }
    Ok(())
}

/// Bodies that are no UTF-8: a byte that is in none, the first of two, and a surrogate.
static NO_UTF_8: [Row; 1] = [Row(
    Command::Trace,
    Bytes::Plain(
        b"Content-Length: 1\r\n\r\n\xffContent-Length: 32\r\n\r\n{\"jsonrpc\":\"2.0\",\"method\":\"$/\xc3\"}Content-Length: 5\r\n\r\n\"\xed\xa0\x80\"",
    ),
    Ended(1, 3, 3),
    Bytes::Plain(
        b"{\"number\":1,\"offset\":0,\"from\":\"editor\",\"word\":\"error -32700\",\"reason\":\"the body is no JSON\"}\n{\"number\":2,\"offset\":22,\"from\":\"editor\",\"word\":\"error -32700\",\"reason\":\"the body is no JSON\"}\n{\"number\":3,\"offset\":76,\"from\":\"editor\",\"word\":\"error -32700\",\"reason\":\"the body is no JSON\"}\n",
    ),
)];

#[test]
fn a_body_that_is_no_utf_8_is_no_json(rt: HostRuntime) -> Result<(), Fail> {
    assert!(rt; all_give(rt.alloc(), &NO_UTF_8)?);
    Ok(())
}

/// The numbers that `docs/LSPSYNC.md` has as the defaults.
#[test]
fn the_default_settings(rt: HostRuntime) -> Result<(), Fail> {
    assert!(rt; settings()? == Settings::default());
    Ok(())
}
