//! The frames of a stream. Its bytes are the characters U+0000 to U+00FF of a text.

use anyhow::{Context, Result, bail};
use lsp_frame::{FrameFault, Limits, read_frames};
use serde_json::{Value, json};
use std::alloc::{AllocError, Global};

/// Returns the bodies of a stream's frames, and the fault after them or null.
pub fn frames_expected(alloc: Global, text: &str) -> Result<Value> {
    let bytes = bytes_of(alloc, text)?.context("a stream has bytes")?;
    let mut pieces = Vec::new(alloc);
    pieces.push(bytes)?;
    let frames = read_frames(alloc, Limits::default(), &pieces)?;
    let mut bodies = Vec::new(alloc);
    for body in &frames.bodies {
        bodies.push(Value::String(text_of(alloc, body)?))?;
    }
    let bodies = Value::Array(bodies);
    let fault = match frames.fault {
        None => Value::Null,
        Some(fault) => fault_value(alloc, fault)?,
    };
    Ok(json!(in alloc; {"bodies": bodies, "fault": fault})?)
}

/// Returns the bytes of a text, if each of its characters is one.
fn bytes_of(alloc: Global, text: &str) -> Result<Option<Vec<u8>>, AllocError> {
    let mut bytes = Vec::new(alloc);
    for character in text.chars() {
        match u8::try_from(u32::from(character)) {
            Ok(byte) => bytes.push(byte)?,
            Err(_) => return Ok(None),
        }
    }
    Ok(Some(bytes))
}

/// Returns the text whose characters are these bytes.
fn text_of(alloc: Global, bytes: &[u8]) -> Result<String, AllocError> {
    let mut text = String::new(alloc);
    for byte in bytes {
        text.push(char::from(*byte))?;
    }
    Ok(text)
}

fn fault_value(alloc: Global, fault: FrameFault) -> Result<Value> {
    let (why, offset) = match fault {
        FrameFault::BadHeader { place } => ("bad-header", place),
        FrameFault::HeaderTooLong { place } => ("header-too-long", place),
        FrameFault::MissingLength { place } => ("missing-length", place),
        FrameFault::RepeatedHeader { place } => ("repeated-header", place),
        FrameFault::BadLength { place } => ("bad-length", place),
        FrameFault::BodyTooLong { place } => ("body-too-long", place),
        FrameFault::BadCharset { place } => ("bad-charset", place),
        FrameFault::Failed | FrameFault::NoMemory => bail!("out of memory"),
    };
    Ok(json!(in alloc; {"why": why, "offset": offset})?)
}
