//! What `trace` writes.

use super::*;
use lsp_frame::frame;
use lsp_samples::bodies::{ACCEPTED, INITIALIZE};
use lsp_samples::logs::LINE;
use std::test::Fail;

/// A server's request, with an id that is a string.
const ASKED: &str =
    r#"{"jsonrpc":"2.0","id":"a\"b","method":"client/registerCapability","params":{}}"#;

const BOTH: &str =
    "{\"number\":1,\"offset\":18,\"from\":\"editor\",\"method\":\"initialize\",\"id\":1,\"word\":\"reply\"}\n{\"number\":2,\"offset\":191,\"from\":\"server\",\"id\":1,\"word\":\"server\"}\n{\"number\":3,\"offset\":344,\"from\":\"server\",\"method\":\"client/registerCapability\",\"id\":\"a\\\"b\",\"word\":\"server\"}\n";

#[test]
fn both_sides_have_their_lines(rt: HostRuntime) -> Result<(), Fail> {
    let alloc = rt.alloc();
    let mut input = Vec::from_slice(alloc, LINE)?;
    for (mark, body) in [(">", INITIALIZE), ("<", ACCEPTED), ("<", ASKED)] {
        input.extend_from_slice(mark.as_bytes())?;
        input.extend_from_slice(&frame(alloc, body.as_bytes())?)?;
    }
    assert!(rt; answers(alloc, "lspsync trace", &input, 0, BOTH.as_bytes(), "")?);
    Ok(())
}

/// A body of several lines, one that is no JSON, and one that is no UTF-8.
const BODIES: &[u8] =
    b"Content-Length: 37\r\n\r\n{\"jsonrpc\":\"2.0\",\r\n  \"method\":\"$/x\"\n}Content-Length: 1\r\n\r\n[Content-Length: 3\r\n\r\n\"\xc3\"";

const BODY_LINES: &[u8] =
    b"{\"number\":1,\"offset\":0,\"from\":\"editor\",\"method\":\"$/x\",\"word\":\"dropped\",\"body\":{\"jsonrpc\":\"2.0\",  \"method\":\"$/x\"}}\n{\"number\":2,\"offset\":59,\"from\":\"editor\",\"word\":\"error -32700\",\"reason\":\"the body is no JSON\"}\n{\"number\":3,\"offset\":81,\"from\":\"editor\",\"word\":\"error -32700\",\"reason\":\"the body is no JSON\"}\n";

/// A body is written on one line, and one that is no JSON not at all.
#[test]
fn bodies_are_written_on_one_line(rt: HostRuntime) -> Result<(), Fail> {
    let words = "lspsync trace --bodies";
    assert!(rt; answers(rt.alloc(), words, BODIES, 1, BODY_LINES, "")?);
    Ok(())
}
