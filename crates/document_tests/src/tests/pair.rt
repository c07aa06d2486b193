//! Sessions of both ends that run out of memory.

mod refused;

use super::{Open, URI, is_left};
use lsp_message::Offers;
use lsp_pair::{Event, Pair, PairFault};
use lsp_samples::edits::batch;
use lsp_server::{ChangeForm, Config, EncodingChoice};
use lsp_text::Encoding;
use std::alloc::{AllocError, Global};

/// An event on the one document of a session, in values that a table can have. An edit has the
/// version, the first and the second character of line 0, and the text.
#[derive(Clone, Copy)]
enum Script {
    Start,
    Open(&'static str),
    Edit(i32, u32, u32, &'static str),
    Close,
    Shutdown,
    Exit,
    ToServer,
    ToClient,
}

fn event(alloc: Global, script: Script) -> Result<Event, AllocError> {
    match script {
        Script::Start => Ok(Event::Start),
        Script::Open(text) => Ok(Event::Open {
            uri: String::from_str(alloc, URI)?,
            language: String::from_str(alloc, "plaintext")?,
            version: 1,
            text: String::from_str(alloc, text)?,
        }),
        Script::Edit(version, start, stop, text) => Ok(Event::Edit {
            uri: String::from_str(alloc, URI)?,
            version,
            changes: batch(alloc, &[(0, start, 0, stop, text)])?,
        }),
        Script::Close => Ok(Event::Close {
            uri: String::from_str(alloc, URI)?,
        }),
        Script::Shutdown => Ok(Event::Shutdown),
        Script::Exit => Ok(Event::Exit),
        Script::ToServer => Ok(Event::ToServer),
        Script::ToClient => Ok(Event::ToClient),
    }
}

/// Returns whether each end has this document, and no other.
fn ends_have(pair: &Pair, client: Open, server: Open) -> bool {
    is_left(pair.client().store(), client) && is_left(pair.server().store(), server)
}

/// Returns a pair that counts in UTF-16.
fn new_pair(alloc: Global, sync: ChangeForm) -> Result<Pair, PairFault> {
    let config = Config {
        choice: EncodingChoice::Fixed(Encoding::Utf16),
        sync,
        ..Config::default()
    };
    Pair::new(alloc, config.limits, Offers::new(false, false), config)
}
