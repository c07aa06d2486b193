//! What unusual bodies ask, printed by `Debug`, as it was worked out by hand: JSON is read by two
//! crates, of which no clause of ours says that they agree.

use super::by_tree;
use lsp_message::Incoming;
use std::alloc::{AllocError, Global};
use std::test::Fail;

/// Returns whether a body asks this, read by its tokens and by a tree.
fn asks(alloc: Global, body: &[u8], wanted: &str) -> Result<bool, AllocError> {
    let incoming = Incoming::read(alloc, body)?;
    let shown = format!(in alloc; "{incoming:?}")?;
    Ok(shown.as_str() == wanted && incoming == by_tree(alloc, body)?)
}

/// Returns whether all bodies ask this.
fn all_ask(alloc: Global, bodies: &[&str], wanted: &str) -> Result<bool, AllocError> {
    for body in bodies {
        if !asks(alloc, body.as_bytes(), wanted)? {
            return Ok(false);
        }
    }
    Ok(true)
}

static NOT_JSON: [&str; 16] = [
    "",
    "{",
    "{}{}",
    "null null",
    "7,",
    r#"{"jsonrpc":"2.0","method":"x"}]"#,
    // In members that are skipped: numbers out of range, lone surrogates, wrong tokens.
    r#"{"jsonrpc":"2.0","method":"x","y":1e400}"#,
    r#"{"jsonrpc":"2.0","method":"x","y":[{"z":-1e400}]}"#,
    r#"{"jsonrpc":"2.0","method":"x","params":{"y":1e400}}"#,
    r#"{"jsonrpc":"2.0","method":"x","params":[1e400]}"#,
    r#"{"jsonrpc":"2.0","method":"x","y":"\ud800"}"#,
    r#"{"jsonrpc":"2.0","method":"x","\udc00":1}"#,
    r#"{"jsonrpc":"2.0","method":"x","y":01}"#,
    r#"{"jsonrpc":"2.0","method":"x","y":tru}"#,
    r#"{"jsonrpc":"2.0","method":"x","y":[1,]}"#,
    r#"{"jsonrpc":"2.0","method":"x","y":{"z"}}"#,
];

#[test]
fn what_is_no_json(rt: HostRuntime) -> Result<(), Fail> {
    assert!(rt; all_ask(rt.alloc(), &NOT_JSON, "NotJson")?);
    Ok(())
}

#[test]
fn what_is_no_utf8(rt: HostRuntime) -> Result<(), Fail> {
    let body = b"{\"jsonrpc\":\"2.0\",\"method\":\"x\",\"y\":\"\xff\"}";
    assert!(rt; asks(rt.alloc(), body, "NotJson")?);
    Ok(())
}

/// Returns a notification with a member `y` of arrays in one another.
fn nested(alloc: Global, open: &str, close: &str, count: u32) -> Result<String, AllocError> {
    let mut body = String::from_str(alloc, "{\"jsonrpc\":\"2.0\",\"method\":\"x\",\"y\":")?;
    for _ in 0..count {
        body.push_str(open)?;
    }
    body.push_str("0")?;
    for _ in 0..count {
        body.push_str(close)?;
    }
    body.push_str("}")?;
    Ok(body)
}

fn asks_nested(alloc: Global, row: &(&str, &str, u32, &str)) -> Result<bool, AllocError> {
    let (open, close, count, wanted) = *row;
    let body = nested(alloc, open, close, count)?;
    asks(alloc, body.as_bytes(), wanted)
}

static NESTED: [(&str, &str, u32, &str); 6] = [
    ("[", "]", 126, r#"OtherNotification { method: "x" }"#),
    ("[", "]", 127, "NotJson"),
    ("[", "]", 128, "NotJson"),
    (r#"{"a":"#, "}", 126, r#"OtherNotification { method: "x" }"#),
    (r#"{"a":"#, "}", 127, "NotJson"),
    (r#"[{"a":"#, "}]", 64, "NotJson"),
];

#[test]
fn arrays_and_objects_nest_127_deep(rt: HostRuntime) -> Result<(), Fail> {
    for row in &NESTED {
        assert!(rt; asks_nested(rt.alloc(), row)?, "{} {}", row.0, row.2);
    }
    Ok(())
}

static WANTED: [(&str, &str); 18] = [
    // The last of a repeated member counts.
    (
        r#"{"jsonrpc":"1.0","jsonrpc":"2.0","method":"a","method":"b"}"#,
        r#"OtherNotification { method: "b" }"#,
    ),
    (
        r#"{"jsonrpc":"2.0","method":"exit","id":1,"method":"shutdown"}"#,
        "Shutdown { id: Whole(1) }",
    ),
    (
        r#"{"id":1,"jsonrpc":"2.0","method":"x","id":null}"#,
        "NotAMessage { id: None }",
    ),
    // Params may come before the method, and names and texts may have escapes.
    (
        r#"{"params":{"textDocument":{"uri":"u","version":3},"contentChanges":[{"te\u0078t":"a"}]},"\u006dethod":"textDocument/didChange","jsonrpc":"2.0"}"#,
        r#"DidChange(Some(ChangeParams { uri: "u", version: 3, changes: [Change { range: None, text: "a" }] }))"#,
    ),
    (
        r#"{"jsonrpc":"2.0","method":"textDocument/didClose","params":{"textDocument":{"uri":"\ud83d\ude00"}}}"#,
        r#"DidClose(Some(CloseParams { uri: "😀" }))"#,
    ),
    (
        r#"{"id":"\u0061","jsonrpc":"2.0","method":"exit"}"#,
        r#"OtherRequest { id: Text("a"), method: "exit" }"#,
    ),
    (
        r#"{"jsonrpc":"2.0","method":"\"\\\/\n\r\t\ud83d\uDE00"}"#,
        r#"OtherNotification { method: "\"\\/\n\r\t😀" }"#,
    ),
    // The greatest and the least numbers, and those with a sign or a fraction.
    (
        r#"{"jsonrpc":"2.0","method":"textDocument/didChange","params":{"contentChanges":[{"range":{"end":{"line":2,"character":4294967295},"start":{"character":1,"line":0}},"text":"a"}],"textDocument":{"uri":"u","version":3}}}"#,
        r#"DidChange(Some(ChangeParams { uri: "u", version: 3, changes: [Change { range: Some(Range { start: Position { line: 0, character: 1 }, stop: Position { line: 2, character: 4294967295 } }), text: "a" }] }))"#,
    ),
    (
        r#"{"jsonrpc":"2.0","method":"textDocument/didChange","params":{"contentChanges":[{"range":{"end":{"line":2,"character":4294967296},"start":{"character":1,"line":0}},"text":"a"}],"textDocument":{"uri":"u","version":3}}}"#,
        "DidChange(None)",
    ),
    (
        r#"{"jsonrpc":"2.0","method":"textDocument/didChange","params":{"contentChanges":[{"range":{"end":{"line":-0,"character":1},"start":{"character":1,"line":0}},"text":"a"}],"textDocument":{"uri":"u","version":3}}}"#,
        "DidChange(None)",
    ),
    (
        r#"{"jsonrpc":"2.0","method":"textDocument/didChange","params":{"contentChanges":[{"range":{"end":{"line":1.0,"character":1},"start":{"character":1,"line":0}},"text":"a"}],"textDocument":{"uri":"u","version":3}}}"#,
        "DidChange(None)",
    ),
    (
        r#"{"jsonrpc":"2.0","method":"textDocument/didOpen","params":{"textDocument":{"uri":"u","languageId":"l","version":-2147483648,"text":"t"}}}"#,
        r#"DidOpen(Some(OpenParams { uri: "u", language: "l", version: -2147483648, text: "t" }))"#,
    ),
    (
        r#"{"id":9223372036854775807,"jsonrpc":"2.0","method":"x","params":{"textDocument":{"uri":"u"}}}"#,
        r#"OtherRequest { id: Whole(9223372036854775807), method: "x" }"#,
    ),
    (
        r#"{"id":-9223372036854775808,"jsonrpc":"2.0","method":""}"#,
        r#"OtherRequest { id: Whole(-9223372036854775808), method: "" }"#,
    ),
    (
        r#"{"id":-0,"jsonrpc":"2.0","method":"x"}"#,
        "NotAMessage { id: None }",
    ),
    // `initialize` is read by a tree.
    (
        r#"{"id":1,"jsonrpc":"2.0","method":"initialize","params":{"capabilities":3}}"#,
        "Initialize { id: Whole(1), offers: None }",
    ),
    // A faulty message keeps its id.
    (
        r#"{"id":"q","jsonrpc":2.0,"method":"x"}"#,
        r#"NotAMessage { id: Some(Text("q")) }"#,
    ),
    // Spaces.
    (
        "\t{\n\"jsonrpc\" : \"2.0\" ,\r \"method\" : \"exit\" } \n",
        "Exit",
    ),
];

#[test]
fn what_bodies_ask(rt: HostRuntime) -> Result<(), Fail> {
    for row in &WANTED {
        assert!(rt; asks(rt.alloc(), row.0.as_bytes(), row.1)?, "{}", row.0);
    }
    Ok(())
}
