//! The body of each message.

use lsp_message::{
    ChangeParams, CloseParams, ErrorCode, Id, Offers, OpenParams, Outgoing, SyncKind, write,
};
use lsp_samples::bodies::{
    ACCEPTED, CHANGE, CLOSE, EXIT, INITIALIZE, INITIALIZED, NO_ID, NOT_INITIALIZED, OPEN,
    PARSE_ERROR, SHUT_DOWN, SHUTDOWN, WHOLE,
};
use lsp_samples::edits::{ALL, Edit, batch};
use lsp_text::Encoding;
use std::alloc::{AllocError, Global};
use std::test::Fail;

/// A message that is written.
#[derive(Clone, Copy)]
enum Sent {
    /// `initialize`, and whether it offers UTF-8 and UTF-32.
    Initialize(bool, bool),
    Initialized,
    Open,
    Change(&'static [Edit]),
    Close,
    Shutdown,
    Exit,
    InitializeResult(Encoding, SyncKind),
    ShutdownResult,
    /// An error, and the id of the request.
    Error(ErrorCode, Option<i64>),
    /// An error of a request whose id is a text.
    ErrorOf(ErrorCode, &'static str),
}

fn text(alloc: Global, text: &str) -> Result<String, AllocError> {
    String::from_str(alloc, text)
}

fn message(alloc: Global, sent: Sent) -> Result<Outgoing, AllocError> {
    match sent {
        Sent::Initialize(utf8, utf32) => Ok(Outgoing::Initialize(Offers::new(utf8, utf32))),
        Sent::Initialized => Ok(Outgoing::Initialized),
        Sent::Open => Ok(Outgoing::DidOpen(opened(alloc)?)),
        Sent::Change(edits) => Ok(Outgoing::DidChange(changed(alloc, edits)?)),
        Sent::Close => Ok(Outgoing::DidClose(closed(alloc)?)),
        Sent::Shutdown => Ok(Outgoing::Shutdown),
        Sent::Exit => Ok(Outgoing::Exit),
        Sent::InitializeResult(encoding, kind) => Ok(Outgoing::InitializeResult {
            id: Id::Whole(1),
            encoding,
            kind,
        }),
        Sent::ShutdownResult => Ok(Outgoing::ShutdownResult { id: Id::Whole(2) }),
        Sent::Error(error, id) => Ok(error_reply(error, id.map(Id::Whole))),
        Sent::ErrorOf(error, id) => Ok(error_reply(error, Some(Id::Text(text(alloc, id)?)))),
    }
}

fn error_reply(error: ErrorCode, id: Option<Id>) -> Outgoing {
    Outgoing::ErrorReply { id, error }
}

fn opened(alloc: Global) -> Result<OpenParams, AllocError> {
    Ok(OpenParams {
        uri: text(alloc, "file:///a")?,
        language: text(alloc, "plaintext")?,
        version: 1,
        text: text(alloc, "abc")?,
    })
}

fn closed(alloc: Global) -> Result<CloseParams, AllocError> {
    Ok(CloseParams {
        uri: text(alloc, "file:///a")?,
    })
}

fn changed(alloc: Global, edits: &[Edit]) -> Result<ChangeParams, AllocError> {
    let changes = batch(alloc, edits)?;
    Ok(ChangeParams {
        uri: text(alloc, "file:///a")?,
        version: 2,
        changes,
    })
}

/// A message, and its body.
type Row = (Sent, &'static str);

fn written(alloc: Global, sent: Sent) -> Result<Vec<u8>, AllocError> {
    write(alloc, &message(alloc, sent)?)
}

static TEXTS: [Row; 20] = [
    (Sent::Initialize(false, false), INITIALIZE),
    (
        Sent::Initialize(true, true),
        concat!(
            r#"{"id":1,"jsonrpc":"2.0","method":"initialize","params":{"capabilities":{"general":"#,
            r#"{"positionEncodings":["utf-8","utf-16","utf-32"]}},"processId":null,"rootUri":null}}"#,
        ),
    ),
    (Sent::Initialized, INITIALIZED),
    (Sent::Shutdown, SHUTDOWN),
    (Sent::Exit, EXIT),
    (Sent::Open, OPEN),
    (Sent::Close, CLOSE),
    (Sent::Change(&[(0, 1, 0, 2, "X")]), CHANGE),
    (Sent::Change(&[(ALL, 0, 0, 0, "aXc")]), WHOLE),
    (
        Sent::Change(&[]),
        concat!(
            r#"{"jsonrpc":"2.0","method":"textDocument/didChange","params":{"contentChanges":[],"#,
            r#""textDocument":{"uri":"file:///a","version":2}}}"#,
        ),
    ),
    // Only quotes, backslashes and bytes below 32 are escaped.
    (
        Sent::Change(&[(
            ALL,
            0,
            0,
            0,
            "\"\\/\u{8}\t\n\u{c}\r\0\u{b}\u{1f} \u{7f}\u{e9}\u{2028}\u{1f600}",
        )]),
        concat!(
            r#"{"jsonrpc":"2.0","method":"textDocument/didChange","params":{"contentChanges":[{"text":"#,
            "\"\\\"\\\\/\\b\\t\\n\\f\\r\\u0000\\u000b\\u001f \u{7f}\u{e9}\u{2028}\u{1f600}\"",
            r#"}],"textDocument":{"uri":"file:///a","version":2}}}"#,
        ),
    ),
    (
        Sent::InitializeResult(Encoding::Utf16, SyncKind::Incremental),
        ACCEPTED,
    ),
    (
        Sent::InitializeResult(Encoding::Utf8, SyncKind::Full),
        concat!(
            r#"{"id":1,"jsonrpc":"2.0","result":{"capabilities":{"positionEncoding":"utf-8","#,
            r#""textDocumentSync":{"change":1,"openClose":true}}}}"#,
        ),
    ),
    (Sent::ShutdownResult, SHUT_DOWN),
    (Sent::Error(ErrorCode::ParseError, None), PARSE_ERROR),
    (Sent::Error(ErrorCode::InvalidRequest, None), NO_ID),
    (
        Sent::Error(ErrorCode::MethodNotFound, Some(7)),
        r#"{"error":{"code":-32601,"message":"method not found"},"id":7,"jsonrpc":"2.0"}"#,
    ),
    (
        Sent::Error(ErrorCode::InvalidParams, Some(-3)),
        r#"{"error":{"code":-32602,"message":"invalid params"},"id":-3,"jsonrpc":"2.0"}"#,
    ),
    (
        Sent::Error(ErrorCode::ServerNotInitialized, Some(9223372036854775807)),
        r#"{"error":{"code":-32002,"message":"server not initialized"},"id":9223372036854775807,"jsonrpc":"2.0"}"#,
    ),
    (
        Sent::ErrorOf(ErrorCode::ServerNotInitialized, "q"),
        NOT_INITIALIZED,
    ),
];

/// Returns whether a message is written so.
fn is_written(alloc: Global, row: &Row) -> Result<bool, AllocError> {
    let (sent, wanted) = *row;
    Ok(written(alloc, sent)?.as_slice() == wanted.as_bytes())
}

#[test]
fn messages_have_their_texts(rt: HostRuntime) -> Result<(), Fail> {
    for row in &TEXTS {
        assert!(rt; is_written(rt.alloc(), row)?, "{}", row.1);
    }
    Ok(())
}
