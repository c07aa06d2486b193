//! What the params and the result of `initialize` are read as.

use lsp_message::{params_initialize, result_initialize};
use serde_json::Value;
use std::alloc::{AllocError, Global};
use std::fmt::Debug;
use std::test::Fail;

/// A text, and what it is read as, printed by `Debug`.
type Row = (&'static str, &'static str);

/// Returns whether `Debug` prints a value as this.
fn prints<T: Debug>(alloc: Global, value: &T, wanted: &str) -> Result<bool, AllocError> {
    let text = format!(in alloc; "{value:?}")?;
    Ok(text.as_str() == wanted)
}

/// Returns whether params are read as these offers.
fn offers(alloc: Global, text: &str, wanted: &str) -> Result<bool, Fail> {
    let params = Value::from_str(alloc, text)?;
    Ok(prints(alloc, &params_initialize(alloc, Some(params)), wanted)?)
}

/// Returns whether a result is read so.
fn announces(alloc: Global, text: &str, wanted: &str) -> Result<bool, Fail> {
    let given = Value::from_str(alloc, text)?;
    Ok(prints(alloc, &result_initialize(alloc, given), wanted)?)
}

static OFFERED: [Row; 3] = [
    ("{}", "Ok(Offers { utf8: false, utf32: false })"),
    (
        r#"{"processId":"p","capabilities":{"x":0,"general":{"y":0,"positionEncodings":["utf-32","UTF-16","utf-8"]}}}"#,
        "Ok(Offers { utf8: true, utf32: true })",
    ),
    (
        r#"{"capabilities":{"general":{"positionEncodings":["utf-8",7]}}}"#,
        "Err(InvalidParams)",
    ),
];

static ANNOUNCED: [Row; 4] = [
    (
        r#"{"capabilities":{"textDocumentSync":2,"positionEncoding":"utf-8"},"serverInfo":7}"#,
        "Ok(Announced { open_close: true, kind: Incremental, encoding: Some(Utf8) })",
    ),
    (
        r#"{"capabilities":{"textDocumentSync":{"openClose":null,"change":null,"save":1},"x":[]},"serverInfo":7}"#,
        "Ok(Announced { open_close: false, kind: Off, encoding: Some(Utf16) })",
    ),
    (
        r#"{"capabilities":{"positionEncoding":"utf-8","textDocumentSync":1,"positionEncoding":"UTF-16"},"serverInfo":7}"#,
        "Ok(Announced { open_close: true, kind: Full, encoding: None })",
    ),
    (
        r#"{"capabilities":{"textDocumentSync":-0}}"#,
        "Err(InvalidParams)",
    ),
];

#[test]
fn params_and_result_of_initialize(rt: HostRuntime) -> Result<(), Fail> {
    for (text, wanted) in &OFFERED {
        assert!(rt; offers(rt.alloc(), text, wanted)?, "{text}");
    }
    for (text, wanted) in &ANNOUNCED {
        assert!(rt; announces(rt.alloc(), text, wanted)?, "{text}");
    }
    Ok(())
}
