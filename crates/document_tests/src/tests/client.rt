//! Sessions of a client: calls and bodies, each with the expected result.

mod phases;
mod refused;
mod session;

use super::URI;
use lsp_client::{Client, ClientFault, Delivered};
use lsp_frame::{Limits, frame};
use lsp_message::Offers;
use lsp_samples::edits::batch;
use std::alloc::{AllocError, Global};

/// Returns a client that offers UTF-16 alone.
fn new_client(alloc: Global) -> Client {
    Client::new(alloc, Limits::default(), Offers::new(false, false))
}

fn open(alloc: Global, client: &mut Client, text: &str) -> Result<Vec<u8>, ClientFault> {
    client.open(
        String::from_str(alloc, URI)?,
        String::from_str(alloc, "plaintext")?,
        1,
        String::from_str(alloc, text)?,
    )
}

/// A call of a client.
#[derive(Clone, Copy, Debug)]
enum Ask {
    Start,
    /// Opens the document with this text, in version 1.
    Open(&'static str),
    /// Replaces characters on line 0 by a text, under a version.
    Edit(i32, u32, u32, &'static str),
    Close,
    Shutdown,
    Exit,
    Deliver(&'static str),
}

/// Makes one call, and returns its result: a frame to send, another delivery, or a fault.
fn answer_to(
    alloc: Global,
    client: &mut Client,
    asked: Ask,
) -> Result<Result<Delivered, ClientFault>, AllocError> {
    let sent = match asked {
        Ask::Start => client.start(),
        Ask::Open(text) => open(alloc, client, text),
        Ask::Edit(version, start, stop, text) => {
            client.edit(URI, version, &batch(alloc, &[(0, start, 0, stop, text)])?)
        }
        Ask::Close => client.close(URI),
        Ask::Shutdown => client.shutdown(),
        Ask::Exit => client.exit(),
        Ask::Deliver(body) => return Ok(client.deliver(body.as_bytes())),
    };
    Ok(sent.map(Delivered::Send))
}

/// Returns whether this is the expected result: the frame of this body, or what `Debug` prints so.
fn is_answer(
    alloc: Global,
    given: &Result<Delivered, ClientFault>,
    wanted: &str,
) -> Result<bool, AllocError> {
    if let Ok(Delivered::Send(given)) = given {
        return Ok(*given == frame(alloc, wanted.as_bytes())?);
    }
    let shown = format!(in alloc; "{given:?}")?;
    Ok(shown.as_str() == wanted)
}
