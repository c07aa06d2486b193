//! The bodies of a session from `initialize` to `exit`, and those of the replies.

/// A client that counts in UTF-16 only.
pub const INITIALIZE: &str =
    r#"{"id":1,"jsonrpc":"2.0","method":"initialize","params":{"capabilities":{"general":{"positionEncodings":["utf-16"]}},"processId":null,"rootUri":null}}"#;

/// The result of `initialize`: UTF-16 and incremental synchronisation.
pub const ACCEPTED: &str =
    r#"{"id":1,"jsonrpc":"2.0","result":{"capabilities":{"positionEncoding":"utf-16","textDocumentSync":{"change":2,"openClose":true}}}}"#;

pub const INITIALIZED: &str = r#"{"jsonrpc":"2.0","method":"initialized","params":{}}"#;

/// Opens `file:///a` with the text `abc` in version 1.
pub const OPEN: &str =
    r#"{"jsonrpc":"2.0","method":"textDocument/didOpen","params":{"textDocument":{"languageId":"plaintext","text":"abc","uri":"file:///a","version":1}}}"#;

/// Opens `file:///a` with a text of one character of four bytes, U+1F600.
pub const OPEN_EMOJI: &str =
    r#"{"jsonrpc":"2.0","method":"textDocument/didOpen","params":{"textDocument":{"languageId":"plaintext","text":"😀","uri":"file:///a","version":1}}}"#;

/// Changes `abc` to `aXc` by its range.
pub const CHANGE: &str =
    r#"{"jsonrpc":"2.0","method":"textDocument/didChange","params":{"contentChanges":[{"range":{"end":{"character":2,"line":0},"start":{"character":1,"line":0}},"text":"X"}],"textDocument":{"uri":"file:///a","version":2}}}"#;

/// Changes `abc` to `aXc` as a whole text.
pub const WHOLE: &str =
    r#"{"jsonrpc":"2.0","method":"textDocument/didChange","params":{"contentChanges":[{"text":"aXc"}],"textDocument":{"uri":"file:///a","version":2}}}"#;

/// The canonical message with the meaning of [`WHOLE`].
pub const CANONICAL: &str =
    r#"{"jsonrpc":"2.0","method":"textDocument/didChange","params":{"contentChanges":[{"range":{"end":{"character":3,"line":0},"start":{"character":0,"line":0}},"text":"aXc"}],"textDocument":{"uri":"file:///a","version":2}}}"#;

/// Inserts a `b` after the first unit of line 0.
pub const AFTER_ONE_UNIT: &str =
    r#"{"jsonrpc":"2.0","method":"textDocument/didChange","params":{"contentChanges":[{"range":{"end":{"character":1,"line":0},"start":{"character":1,"line":0}},"text":"b"}],"textDocument":{"uri":"file:///a","version":2}}}"#;

pub const CLOSE: &str =
    r#"{"jsonrpc":"2.0","method":"textDocument/didClose","params":{"textDocument":{"uri":"file:///a"}}}"#;

pub const SHUTDOWN: &str = r#"{"id":2,"jsonrpc":"2.0","method":"shutdown"}"#;

/// The result of [`SHUTDOWN`].
pub const SHUT_DOWN: &str = r#"{"id":2,"jsonrpc":"2.0","result":null}"#;

pub const EXIT: &str = r#"{"jsonrpc":"2.0","method":"exit"}"#;

/// A request that no server of ours knows, and the replies to it before `initialize` and after
/// `shutdown`.
pub const HOVER: &str = r#"{"id":"q","jsonrpc":"2.0","method":"textDocument/hover"}"#;

pub const NOT_INITIALIZED: &str =
    r#"{"error":{"code":-32002,"message":"server not initialized"},"id":"q","jsonrpc":"2.0"}"#;

pub const INVALID: &str =
    r#"{"error":{"code":-32600,"message":"invalid request"},"id":"q","jsonrpc":"2.0"}"#;

/// Replies with the id `null`, where the body has no id that can be read.
pub const PARSE_ERROR: &str =
    r#"{"error":{"code":-32700,"message":"parse error"},"id":null,"jsonrpc":"2.0"}"#;

pub const NO_ID: &str =
    r#"{"error":{"code":-32600,"message":"invalid request"},"id":null,"jsonrpc":"2.0"}"#;
