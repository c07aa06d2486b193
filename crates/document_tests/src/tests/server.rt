//! What a server answers in each phase, with the exact bytes, and bodies whose handling runs out of
//! memory.

mod front_page;
mod halves;
mod made_again;
mod phases;

use lsp_frame::{Limits, frame};
use lsp_server::{Answer, ChangeForm, Config, EncodingChoice, Phase, Server, ServerFault};
use lsp_text::Encoding;
use std::alloc::{AllocError, Global};
use std::test::Fail;

fn new_server(alloc: Global) -> Server {
    Server::new(alloc, Config::default())
}

/// The defaults that `docs/LSPSYNC.md` has, with those of `serve`.
#[test]
fn the_default_config(rt: HostRuntime) -> Result<(), Fail> {
    let documented = Config {
        limits: Limits::new(16_777_216, 16_777_216, 1_024, 65_536)?,
        choice: EncodingChoice::Negotiated {
            prefer: Encoding::Utf16,
        },
        sync: ChangeForm::Incremental,
    };
    assert!(rt; documented == Config::default());
    Ok(())
}

/// Leads a new server to this phase, by the bodies that lead it from each phase to the next.
fn lead(server: &mut Server, way: &[&[&str]], phase: Phase) -> Result<(), ServerFault> {
    for bodies in way {
        if server.phase() != phase {
            pass(server, bodies)?;
        }
    }
    Ok(())
}

fn pass(server: &mut Server, bodies: &[&str]) -> Result<(), ServerFault> {
    for body in bodies {
        let _answer = server.handle(body.as_bytes())?;
    }
    Ok(())
}

/// Returns whether this is the expected answer: a reply with this body, or what `Debug` prints so.
fn is_answer(
    alloc: Global,
    given: &Result<Answer, ServerFault>,
    wanted: &str,
) -> Result<bool, AllocError> {
    if let Ok(Answer::Reply { frame: given, code }) = given {
        let framed = frame(alloc, wanted.as_bytes())?;
        return Ok(*given == framed && code.is_some() == wanted.starts_with("{\"error\""));
    }
    let shown = format!(in alloc; "{given:?}")?;
    Ok(shown.as_str() == wanted)
}
