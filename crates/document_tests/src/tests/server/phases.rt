//! Every pair of phase and kind of body.

use super::{is_answer, lead, new_server};
use lsp_samples::bodies::{
    CHANGE, CLOSE, EXIT, INITIALIZE, INITIALIZED, NO_ID, OPEN, PARSE_ERROR, SHUTDOWN,
};
use lsp_server::Phase;
use std::alloc::Global;
use std::test::Fail;

static PHASES: [Phase; 4] = [Phase::New, Phase::Running, Phase::Down, Phase::Ended];

/// The bodies that lead a server from each phase to the next. In Running one document is open, and
/// `initialized` didn't come.
static WAY: [&[&str]; 4] = [&[], &[INITIALIZE, OPEN], &[SHUTDOWN], &[EXIT]];

/// A body, and the expected answers in the phases New, Running, Down and Ended.
static TABLE: [(&str, [&str; 4]); 20] = [
    ("{", [PARSE_ERROR, PARSE_ERROR, PARSE_ERROR, ENDED]),
    ("7", [NO_ID, NO_ID, NO_ID, ENDED]),
    (
        r#"{"id":7,"method":"exit"}"#,
        [INVALID_REQUEST, INVALID_REQUEST, INVALID_REQUEST, ENDED],
    ),
    (
        r#"{"id":[7],"jsonrpc":"2.0","method":"shutdown"}"#,
        [NO_ID, NO_ID, NO_ID, ENDED],
    ),
    // Responses.
    (
        r#"{"id":7,"jsonrpc":"2.0","result":null}"#,
        [IGNORED, IGNORED, IGNORED, ENDED],
    ),
    // Requests.
    (
        r#"{"id":7,"jsonrpc":"2.0","method":"initialize","params":{}}"#,
        [ACCEPTED, INVALID_REQUEST, INVALID_REQUEST, ENDED],
    ),
    (
        r#"{"id":7,"jsonrpc":"2.0","method":"initialize"}"#,
        [INVALID_PARAMS, INVALID_REQUEST, INVALID_REQUEST, ENDED],
    ),
    (
        r#"{"id":7,"jsonrpc":"2.0","method":"shutdown","params":7}"#,
        [NOT_INITIALIZED, SHUT_DOWN, INVALID_REQUEST, ENDED],
    ),
    (
        r#"{"id":7,"jsonrpc":"2.0","method":"exit"}"#,
        [NOT_INITIALIZED, NOT_FOUND, INVALID_REQUEST, ENDED],
    ),
    (
        r#"{"id":7,"jsonrpc":"2.0","method":"$/cancelRequest","params":{"id":1}}"#,
        [NOT_INITIALIZED, NOT_FOUND, INVALID_REQUEST, ENDED],
    ),
    // Notifications.
    (EXIT, ["Ok(Exit(1))", "Ok(Exit(1))", "Ok(Exit(0))", ENDED]),
    (
        r#"{"jsonrpc":"2.0","method":"textDocument/didOpen","params":{"textDocument":{"languageId":"","text":"","uri":"b","version":1}}}"#,
        [DROPPED, CHANGED, DROPPED, ENDED],
    ),
    (
        OPEN,
        [DROPPED, "Ok(Refused(Store(AlreadyOpen)))", DROPPED, ENDED],
    ),
    (CHANGE, [DROPPED, CHANGED, DROPPED, ENDED]),
    (CLOSE, [DROPPED, CHANGED, DROPPED, ENDED]),
    (
        r#"{"jsonrpc":"2.0","method":"textDocument/didChange","params":{"textDocument":{"uri":"file:///a","version":2}}}"#,
        [DROPPED, INVALID, DROPPED, ENDED],
    ),
    (INITIALIZED, [DROPPED, IGNORED, DROPPED, ENDED]),
    (
        r#"{"jsonrpc":"2.0","method":"initialize","params":{}}"#,
        [DROPPED, IGNORED, DROPPED, ENDED],
    ),
    (
        r#"{"jsonrpc":"2.0","method":"shutdown"}"#,
        [DROPPED, IGNORED, DROPPED, ENDED],
    ),
    (
        r#"{"jsonrpc":"2.0","method":"textDocument/didSave","params":{"textDocument":{"uri":"file:///a"}}}"#,
        [DROPPED, IGNORED, DROPPED, ENDED],
    ),
];

const DROPPED: &str = "Ok(Dropped)";

const IGNORED: &str = "Ok(Ignored)";

const CHANGED: &str = "Ok(Changed)";

const INVALID: &str = "Ok(Refused(InvalidParams))";

const ENDED: &str = "Err(AlreadyEnded)";

const INVALID_REQUEST: &str =
    r#"{"error":{"code":-32600,"message":"invalid request"},"id":7,"jsonrpc":"2.0"}"#;

const INVALID_PARAMS: &str =
    r#"{"error":{"code":-32602,"message":"invalid params"},"id":7,"jsonrpc":"2.0"}"#;

const NOT_FOUND: &str =
    r#"{"error":{"code":-32601,"message":"method not found"},"id":7,"jsonrpc":"2.0"}"#;

const NOT_INITIALIZED: &str =
    r#"{"error":{"code":-32002,"message":"server not initialized"},"id":7,"jsonrpc":"2.0"}"#;

const ACCEPTED: &str =
    r#"{"id":7,"jsonrpc":"2.0","result":{"capabilities":{"positionEncoding":"utf-16","textDocumentSync":{"change":2,"openClose":true}}}}"#;

const SHUT_DOWN: &str = r#"{"id":7,"jsonrpc":"2.0","result":null}"#;

/// Returns whether a body has this answer in this phase.
fn is_answered_in(alloc: Global, phase: Phase, body: &str, wanted: &str) -> Result<bool, Fail> {
    let mut server = new_server(alloc);
    lead(&mut server, &WAY, phase)?;
    let is_there = server.phase() == phase;
    let given = server.handle(body.as_bytes());
    Ok(is_there && is_answer(alloc, &given, wanted)?)
}

#[test]
fn every_body_in_every_phase(rt: HostRuntime) -> Result<(), Fail> {
    for (body, answers) in &TABLE {
        for (phase, wanted) in PHASES.iter().zip(answers) {
            assert!(rt;
                is_answered_in(rt.alloc(), *phase, body, wanted)?,
                "{wanted}: {body}"
            );
        }
    }
    Ok(())
}
