//! The messages of a whole session through one server. A body whose handling runs out of memory is
//! passed again.

use super::{is_answer, new_server};
use crate::tests::{Open, is_left};
use lsp_samples::again;
use lsp_samples::bodies::{
    ACCEPTED, CHANGE, CLOSE, EXIT, HOVER, INITIALIZE, INITIALIZED, NOT_INITIALIZED, OPEN,
    PARSE_ERROR, SHUT_DOWN, SHUTDOWN,
};
use lsp_server::{Server, ServerFault};
use std::alloc::{AllocError, Global};
use std::test::Fail;

/// A message, the body of its reply or its answer as `Debug` prints it, and the version and the text of the
/// document after it.
type Message = (&'static str, &'static str, Open);

static MESSAGES: [Message; 9] = [
    (HOVER, NOT_INITIALIZED, None),
    ("[", PARSE_ERROR, None),
    (INITIALIZE, ACCEPTED, None),
    (INITIALIZED, "Ok(Ignored)", None),
    (OPEN, "Ok(Changed)", Some((1, "abc"))),
    (CHANGE, "Ok(Changed)", Some((2, "aXc"))),
    (CLOSE, "Ok(Changed)", None),
    (SHUTDOWN, SHUT_DOWN, None),
    (EXIT, "Ok(Exit(0))", None),
];

/// Returns whether the message has its answer. Where memory runs out the server is unchanged, and
/// the same body is passed again.
fn is_answered(
    alloc: Global,
    server: &mut Server,
    message: &Message,
    before: Open,
    refused: &mut usize,
) -> Result<bool, AllocError> {
    let state = (server.phase(), server.encoding());
    let mut given = server.handle(message.0.as_bytes());
    if matches!(given, Err(ServerFault::NoMemory)) {
        *refused = refused.saturating_add(1);
        if !is_left(server.store(), before) || (server.phase(), server.encoding()) != state {
            return Ok(false);
        }
        given = server.handle(message.0.as_bytes());
    }
    let is_wanted = again!(refused, AllocError, is_answer(alloc, &given, message.1))?;
    Ok(is_wanted && is_left(server.store(), message.2))
}

/// Returns the number of the first message without its answer.
fn wrong_message(alloc: Global, refused: &mut usize) -> Result<Option<usize>, AllocError> {
    let mut server = new_server(alloc);
    let mut before = None;
    for (number, message) in MESSAGES.iter().enumerate() {
        if !is_answered(alloc, &mut server, message, before, refused)? {
            return Ok(Some(number));
        }
        before = message.2;
    }
    Ok(None)
}

#[test]
fn refused_messages_of_a_session(rt: HostRuntime) -> Result<(), Fail> {
    let mut refused = 0;
    assert_eq!(rt; wrong_message(rt.alloc(), &mut refused)?, None);
    println!(rt; "refused {refused}")?;
    Ok(())
}
