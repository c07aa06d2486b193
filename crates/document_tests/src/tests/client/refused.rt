//! Calls that run out of memory once, and are repeated.

use super::{Ask, URI, answer_to, new_client};
use lsp_client::{Client, ClientFault, Phase};
use lsp_samples::bodies::{ACCEPTED, SHUT_DOWN};
use std::alloc::Global;
use std::process::Abort;
use std::test::Fail;

/// Returns what a caller sees of a client.
fn seen(client: &Client) -> (Phase, bool, usize, Option<i32>) {
    let version = client.store().get(URI).map(|document| document.version());
    (
        client.phase(),
        client.encoding().is_some(),
        client.store().len(),
        version,
    )
}

/// A session in which a call is repeated where memory runs out.
#[derive(Drop)]
struct Session {
    client: Client,
    refused: u32,
}

impl Session {
    /// Makes a call. Where memory runs out, the client is unchanged and the same call is repeated.
    fn call(&mut self, rt: &impl Abort, alloc: Global, asked: Ask) -> bool {
        let before = seen(&self.client);
        match answer_to(alloc, &mut self.client, asked) {
            Ok(Err(ClientFault::NoMemory)) | Err(_) => {
                self.refused = self.refused.saturating_add(1);
                assert!(rt; seen(&self.client) == before);
                matches!(answer_to(alloc, &mut self.client, asked), Ok(Ok(_)))
            }
            Ok(answer) => answer.is_ok(),
        }
    }
}

/// Returns the phase after some calls.
fn phase_after(rt: &impl Abort, alloc: Global, calls: &[Ask], refused: &mut u32) -> Phase {
    let mut session = Session {
        client: new_client(alloc),
        refused: *refused,
    };
    for asked in calls {
        assert!(rt; session.call(rt, alloc, *asked), "{asked:?}");
    }
    *refused = session.refused;
    session.client.phase()
}

/// The response of a server that asks for whole texts.
const FULL: &str = r#"{"id":1,"jsonrpc":"2.0","result":{"capabilities":{"textDocumentSync":1}}}"#;

/// Calls and bodies, and the phase after them.
static RUNS: [(&[Ask], Phase); 3] = [
    (
        &[
            Ask::Start,
            Ask::Deliver(r#"{"id":5,"jsonrpc":"2.0","method":"x"}"#),
            Ask::Deliver(ACCEPTED),
            Ask::Shutdown,
            Ask::Deliver(SHUT_DOWN),
            Ask::Exit,
        ],
        Phase::Done,
    ),
    (
        &[
            Ask::Start,
            Ask::Deliver(ACCEPTED),
            Ask::Open("abc"),
            Ask::Edit(2, 1, 2, "X"),
            Ask::Close,
        ],
        Phase::Ready,
    ),
    (
        &[
            Ask::Start,
            Ask::Deliver(FULL),
            Ask::Open("abc"),
            Ask::Edit(2, 1, 2, "X"),
        ],
        Phase::Ready,
    ),
];

#[test]
fn refused_calls(rt: HostRuntime) -> Result<(), Fail> {
    let mut refused = 0;
    for (calls, phase) in &RUNS {
        assert!(rt; phase_after(&rt, rt.alloc(), calls, &mut refused) == *phase);
    }
    println!(rt; "refused {refused}")?;
    Ok(())
}
