//! Logs of bodies.

use lsp_frame::frame;
use std::alloc::{AllocError, Global};

/// The line that a log of version 2 begins with.
pub const LINE: &[u8] = b"lsp-session-log 2\n";

/// Makes the frames of some bodies, one after another: a log of version 1.
pub fn log(alloc: Global, bodies: &[&str]) -> Result<Vec<u8>, AllocError> {
    let mut bytes = Vec::new(alloc);
    for body in bodies {
        bytes.extend_from_slice(&frame(alloc, body.as_bytes())?)?;
    }
    Ok(bytes)
}
