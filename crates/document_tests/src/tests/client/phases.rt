//! Every pair of phase and call, and of phase and kind of body.

use super::{Ask, answer_to, is_answer, new_client};
use lsp_client::{Client, Phase, Reason};
use lsp_samples::bodies::{
    ACCEPTED, CHANGE, CLOSE, EXIT, INITIALIZE, INITIALIZED, SHUT_DOWN, SHUTDOWN,
};
use std::alloc::Global;
use std::test::Fail;

const FAILED: Phase = Phase::Failed(Reason::NotAnAnswer);

/// Calls and bodies from the start of a session to its end. One document is open from Ready on.
static CALLS: [Ask; 6] = [
    Ask::Start,
    Ask::Deliver(ACCEPTED),
    Ask::Open("abc"),
    Ask::Shutdown,
    Ask::Deliver(SHUT_DOWN),
    Ask::Exit,
];

/// The phases, and how many of the calls lead to each. To Failed a body leads that is no JSON.
static PHASES: [(Phase, usize); 7] = [
    (Phase::New, 0),
    (Phase::Asked, 1),
    (Phase::Ready, 3),
    (Phase::Closing, 4),
    (Phase::Closed, 5),
    (Phase::Done, 6),
    (FAILED, 3),
];

const NEW: &str = "Err(WrongPhase { phase: New })";

const ASKED: &str = "Err(WrongPhase { phase: Asked })";

const READY: &str = "Err(WrongPhase { phase: Ready })";

const CLOSING: &str = "Err(WrongPhase { phase: Closing })";

const CLOSED: &str = "Err(WrongPhase { phase: Closed })";

const DONE: &str = "Err(WrongPhase { phase: Done })";

const FAULTY: &str = "Err(WrongPhase { phase: Failed(NotAnAnswer) })";

const BAD: &str = "Ok(BadServer(NotAnAnswer))";

const IGNORED: &str = "Ok(Ignored)";

const NOT_FOUND: &str =
    r#"{"error":{"code":-32601,"message":"method not found"},"id":5,"jsonrpc":"2.0"}"#;

/// A call, and the expected results in New, Asked, Ready, Closing, Closed, Done and Failed.
static TABLE: [(Ask, [&str; 7]); 14] = [
    (
        Ask::Start,
        [INITIALIZE, ASKED, READY, CLOSING, CLOSED, DONE, FAULTY],
    ),
    (
        Ask::Open("abc"),
        [
            NEW,
            ASKED,
            "Err(Store(AlreadyOpen))",
            CLOSING,
            CLOSED,
            DONE,
            FAULTY,
        ],
    ),
    (
        Ask::Edit(2, 1, 2, "X"),
        [NEW, ASKED, CHANGE, CLOSING, CLOSED, DONE, FAULTY],
    ),
    (
        Ask::Edit(1, 1, 2, "X"),
        [
            NEW,
            ASKED,
            "Err(Store(StaleVersion { held: 1 }))",
            CLOSING,
            CLOSED,
            DONE,
            FAULTY,
        ],
    ),
    (
        Ask::Close,
        [NEW, ASKED, CLOSE, CLOSING, CLOSED, DONE, FAULTY],
    ),
    (
        Ask::Shutdown,
        [NEW, ASKED, SHUTDOWN, CLOSING, CLOSED, DONE, FAULTY],
    ),
    (Ask::Exit, [NEW, ASKED, READY, CLOSING, EXIT, DONE, FAULTY]),
    // No JSON.
    (Ask::Deliver("{"), [NEW, BAD, BAD, BAD, BAD, DONE, FAULTY]),
    // The server's requests and notifications.
    (
        Ask::Deliver(r#"{"id":5,"jsonrpc":"2.0","method":"workspace/configuration"}"#),
        [
            NEW, NOT_FOUND, NOT_FOUND, NOT_FOUND, NOT_FOUND, DONE, FAULTY,
        ],
    ),
    (
        Ask::Deliver(r#"{"jsonrpc":"2.0","method":"window/logMessage","params":{}}"#),
        [NEW, IGNORED, IGNORED, IGNORED, IGNORED, DONE, FAULTY],
    ),
    // Responses to the client's two requests.
    (
        Ask::Deliver(ACCEPTED),
        [NEW, INITIALIZED, BAD, BAD, BAD, DONE, FAULTY],
    ),
    (
        Ask::Deliver(SHUT_DOWN),
        [NEW, BAD, BAD, "Ok(Noted)", BAD, DONE, FAULTY],
    ),
    (
        Ask::Deliver(r#"{"error":{"code":1,"message":""},"id":1,"jsonrpc":"2.0"}"#),
        [
            NEW,
            "Ok(BadServer(ErrorAnswer))",
            BAD,
            BAD,
            BAD,
            DONE,
            FAULTY,
        ],
    ),
    // A response to no request.
    (
        Ask::Deliver(r#"{"id":null,"jsonrpc":"2.0","result":null}"#),
        [NEW, BAD, BAD, BAD, BAD, DONE, FAULTY],
    ),
];

fn client_in(alloc: Global, phase: Phase, calls: usize) -> Result<Client, Fail> {
    let mut client = new_client(alloc);
    for asked in CALLS.iter().take(calls) {
        let _answer = answer_to(alloc, &mut client, *asked)??;
    }
    if phase == FAILED {
        let _answer = answer_to(alloc, &mut client, Ask::Deliver("{"))??;
    }
    Ok(client)
}

/// Returns whether a client in this phase has this result, and keeps its documents where it fails.
fn is_row(alloc: Global, phase: (Phase, usize), asked: Ask, wanted: &str) -> Result<bool, Fail> {
    let mut client = client_in(alloc, phase.0, phase.1)?;
    let (open, is_there) = (client.store().len(), client.phase() == phase.0);
    let given = answer_to(alloc, &mut client, asked)?;
    let kept = wanted == CLOSE || client.store().len() == open;
    let failed = wanted != BAD || client.phase() == FAILED;
    Ok(is_there && is_answer(alloc, &given, wanted)? && kept && failed)
}

#[test]
fn every_call_and_body_in_every_phase(rt: HostRuntime) -> Result<(), Fail> {
    for (asked, wanted) in &TABLE {
        for (phase, wanted) in PHASES.iter().zip(wanted) {
            assert!(rt;
                is_row(rt.alloc(), *phase, *asked, wanted)?,
                "{phase:?}: {asked:?}"
            );
        }
    }
    Ok(())
}
