//! The two programs of the crate's head comment.

use super::new_server;
use lsp_frame::{Framer, frame};
use lsp_message::Id;
use lsp_samples::bodies::{ACCEPTED, EXIT, INITIALIZE, OPEN, SHUT_DOWN, SHUTDOWN};
use lsp_samples::logs::log;
use lsp_server::{Answer, Incoming, Limits, Phase, Server, ServerFault};
use std::alloc::{AllocError, Global};
use std::test::Fail;

/// Serves a stream that comes frame by frame.
fn serve(
    alloc: Global,
    server: &mut Server,
    pieces: &[Vec<u8>],
    output: &mut Vec<u8>,
) -> Result<Option<u8>, Fail> {
    let mut framer = Framer::new(alloc, Limits::default());
    for piece in pieces {
        let _taken = framer.feed(piece)?;
        if let Some(body) = framer.body() {
            match server.handle(body)? {
                Answer::Reply { frame, .. } => output.extend_from_slice(&frame)?,
                Answer::Exit(status) => return Ok(Some(status)),
                Answer::Changed | Answer::Dropped | Answer::Ignored | Answer::Refused(_) => {}
            }
        }
        framer.next();
    }
    Ok(None)
}

fn frames(alloc: Global, bodies: &[&str]) -> Result<Vec<Vec<u8>>, AllocError> {
    let mut frames = Vec::new(alloc);
    for body in bodies {
        frames.push(frame(alloc, body.as_bytes())?)?;
    }
    Ok(frames)
}

/// Serves the pieces by a new server.
fn served(alloc: Global, pieces: &[Vec<u8>], output: &mut Vec<u8>) -> Result<Option<u8>, Fail> {
    let mut server = new_server(alloc);
    serve(alloc, &mut server, pieces, output)
}

fn are_replies(alloc: Global, output: &[u8]) -> Result<bool, AllocError> {
    Ok(output == log(alloc, &[ACCEPTED, SHUT_DOWN])?.as_slice())
}

fn has_replies(alloc: Global) -> Result<bool, Fail> {
    let pieces = frames(alloc, &[INITIALIZE, OPEN, SHUTDOWN, EXIT])?;
    let mut output = Vec::new(alloc);
    let status = served(alloc, &pieces, &mut output)?;
    Ok(status == Some(0) && are_replies(alloc, &output)?)
}

#[test]
fn from_frames_to_replies(rt: HostRuntime) -> Result<(), Fail> {
    assert!(rt; has_replies(rt.alloc())?);
    Ok(())
}

/// Answers hover with the length of the document's text, and passes on all else.
fn serve_hover(alloc: Global, server: &mut Server, body: &[u8]) -> Result<Option<Vec<u8>>, Fail> {
    let incoming = server.read(body)?;
    if server.phase() == Phase::Running && is_hover(&incoming) {
        return hover(alloc, server, incoming);
    }
    reply_of(server.handle_incoming(incoming))
}

fn is_hover(incoming: &Incoming) -> bool {
    matches!(incoming, Incoming::OtherRequest { method, .. } if method.as_str() == "textDocument/hover")
}

fn reply_of(answer: Result<Answer, ServerFault>) -> Result<Option<Vec<u8>>, Fail> {
    match answer? {
        Answer::Reply { frame, .. } => Ok(Some(frame)),
        _other => Ok(None),
    }
}

fn hover(alloc: Global, server: &Server, request: Incoming) -> Result<Option<Vec<u8>>, Fail> {
    let id = match request {
        Incoming::OtherRequest {
            id: Id::Whole(id),
            ..
        } => id,
        _other => return Ok(None),
    };
    let length = match server.store().get("file:///a") {
        Some(document) => document.text().len(),
        None => 0,
    };
    let body = format!(in alloc;
        r#"{{"id":{id},"jsonrpc":"2.0","result":{{"contents":"{length} bytes"}}}}"#
    )?;
    Ok(Some(frame(alloc, body.as_bytes())?))
}

const HOVER: &str = r#"{"id":5,"jsonrpc":"2.0","method":"textDocument/hover"}"#;

/// Returns whether the answer to hover is a frame that begins so.
fn hover_begins(alloc: Global, server: &mut Server, wanted: &[u8]) -> Result<bool, Fail> {
    let reply = serve_hover(alloc, server, HOVER.as_bytes())?;
    Ok(reply.is_some_and(|frame| frame.starts_with(wanted)))
}

/// Returns whether the answer to hover is the frame of this body.
fn hover_is(alloc: Global, server: &mut Server, wanted: &[u8]) -> Result<bool, Fail> {
    let wanted = frame(alloc, wanted)?;
    Ok(serve_hover(alloc, server, HOVER.as_bytes())? == Some(wanted))
}

/// Returns whether hover is refused before `initialize`, and then has the length of the document.
fn hovers(alloc: Global, server: &mut Server) -> Result<bool, Fail> {
    let early = b"Content-Length: 83\r\n\r\n{\"error\":{\"code\":-32002";
    if !hover_begins(alloc, server, early)? {
        return Ok(false);
    }
    for body in [INITIALIZE, OPEN] {
        let _frame = serve_hover(alloc, server, body.as_bytes())?;
    }
    let length = b"{\"id\":5,\"jsonrpc\":\"2.0\",\"result\":{\"contents\":\"3 bytes\"}}";
    hover_is(alloc, server, length)
}

fn new_server_hovers(alloc: Global) -> Result<bool, Fail> {
    let mut server = new_server(alloc);
    hovers(alloc, &mut server)
}

#[test]
fn a_feature_of_its_own(rt: HostRuntime) -> Result<(), Fail> {
    assert!(rt; new_server_hovers(rt.alloc())?);
    Ok(())
}
