//! Calls that run out of memory once, and are made again.

use lsp_message::{
    ChangeParams, ErrorCode, Id, Message, Outgoing, ParamsFault, ReadFault, message_frame,
    params_change, read, write,
};
use lsp_samples::again;
use serde_json::Value;
use std::alloc::{AllocError, Global};
use std::test::Fail;

/// Returns whether a request with a text as its id is read.
fn request_is_read(alloc: Global, refused: &mut usize) -> bool {
    let body = b"{\"id\":\"q\",\"jsonrpc\":\"2.0\",\"method\":\"m\"}";
    matches!(
        again!(refused, ReadFault::NoMemory, read(alloc, body)),
        Ok(Message::Request {
            id: Id::Text(_),
            params: None,
            ..
        })
    )
}

#[test]
fn refused_read(rt: HostRuntime) -> Result<(), Fail> {
    let mut refused = 0;
    assert!(rt; request_is_read(rt.alloc(), &mut refused));
    println!(rt; "refused {refused}")?;
    Ok(())
}

const PARAMS: &str =
    "{\"contentChanges\":[{\"text\":\"a\"}],\"textDocument\":{\"uri\":\"u\",\"version\":2}}";

/// Parses the params and reads them, which consumes them.
fn params_of(alloc: Global) -> Result<ChangeParams, ParamsFault> {
    match Value::from_str(alloc, PARAMS) {
        Ok(value) => params_change(alloc, Some(value)),
        Err(_) => Err(ParamsFault::NoMemory),
    }
}

fn change_is_read(alloc: Global, refused: &mut usize) -> Result<bool, ParamsFault> {
    let params = again!(refused, ParamsFault::NoMemory, params_of(alloc))?;
    Ok(params.version == 2 && params.changes.len() == 1)
}

#[test]
fn refused_params_change(rt: HostRuntime) -> Result<(), Fail> {
    let mut refused = 0;
    assert!(rt; change_is_read(rt.alloc(), &mut refused)?);
    println!(rt; "refused {refused}")?;
    Ok(())
}

/// Returns a reply whose id doesn't fit into the buffer that a message starts with.
fn reply(alloc: Global) -> Result<Outgoing, AllocError> {
    Ok(Outgoing::ErrorReply {
        id: Some(Id::Text("0123456789".repeat(alloc, 28)?)),
        error: ErrorCode::InvalidRequest,
    })
}

/// Returns whether a reply is written alone and in its frame.
fn reply_is_written(alloc: Global, refused: &mut usize) -> Result<bool, AllocError> {
    let message = again!(refused, AllocError, reply(alloc))?;
    let body = again!(refused, AllocError, write(alloc, &message))?;
    let frame = again!(refused, AllocError, message_frame(alloc, &message))?;
    Ok(body.ends_with(b"6789\",\"jsonrpc\":\"2.0\"}") && frame.ends_with(&body))
}

#[test]
fn refused_write(rt: HostRuntime) -> Result<(), Fail> {
    let mut refused = 0;
    assert!(rt; reply_is_written(rt.alloc(), &mut refused)?);
    println!(rt; "refused {refused}")?;
    Ok(())
}
