//! What is taken of a piece of a stream.

ghost use Rattle.std.specs.Prelude.{◌≡◌, ◌≢◌};
ghost use Rattle.laspidru.specs.Framers.{HasBody, IsFrameReport, IsPieceFed};
ghost use Rattle.laspidru.specs.Framers.{frame_code, nothing_taken, number_and_offset};

use crate::codes::{BAD_FRAME, FAILED, OK, OUT_OF_MEMORY};
use lsp_frame::{FrameFault, Framer};

/// What was taken of a piece of a stream, or where the stream is faulty. A member that isn't of the
/// code is 0.
#[repr(C)]
#[derive(Clone, Copy, Debug, PartialEq, Eq)]
pub struct Taken {
    /// OK, or OUT_OF_MEMORY of `laspidru_session_feed`, where a message is whole and waits: how
    /// many bytes of the piece were taken.
    pub bytes: usize,
    /// The same codes: how many bytes the body has, once the message is whole.
    pub body_len: usize,
    /// BAD_FRAME: the byte offset in the stream on which the fault was decided.
    pub offset: u64,
    /// BAD_FRAME: the number of the fault, 1 to 7 for F1 to F7.
    pub frame: u32,
    /// The same codes: whether the message is whole.
    pub is_whole: bool,
}

/// No byte of a piece was taken.
pub(crate) fn nothing() -> Taken
    ensures { result ≡ nothing_taken }
{
    Taken {
        bytes: 0,
        body_len: 0,
        offset: 0,
        frame: 0,
        is_whole: false,
    }
}

/// Returns whether a whole message is buffered, and the length of its body.
fn body_at(framer: &Framer) -> (bool, usize)
    ensures { HasBody framer.now result.0 result.1 }
{
    match framer.body() {
        Some(body) => (true, body.len()),
        None => (false, 0),
    }
}

/// Returns the number of a fault, 1 to 9 for F1 to F9, and its byte offset: 0 of F8 and F9.
pub(crate) fn number_and_offset_of(fault: FrameFault) -> (u32, u64)
    ensures { result ≡ number_and_offset fault }
{
    match fault {
        FrameFault::BadHeader { place } => (1, place),
        FrameFault::HeaderTooLong { place } => (2, place),
        FrameFault::MissingLength { place } => (3, place),
        FrameFault::RepeatedHeader { place } => (4, place),
        FrameFault::BadLength { place } => (5, place),
        FrameFault::BodyTooLong { place } => (6, place),
        FrameFault::BadCharset { place } => (7, place),
        FrameFault::Failed => (8, 0),
        FrameFault::NoMemory => (9, 0),
    }
}

/// Returns the code of a fault. One of F1 to F7 is written to `out`; another leaves it as it is.
fn report_frame(fault: FrameFault, out: &mut Taken) -> u32
    ensures report { IsFrameReport fault out.new }
    ensures code { result ≡ frame_code fault }
    ensures unchanged { result ≢ BAD_FRAME → out.new ≡ out.old }
{
    match fault {
        FrameFault::Failed => FAILED,
        FrameFault::NoMemory => OUT_OF_MEMORY,
        _ => {
            let (frame, offset) = number_and_offset_of(fault);
            *out = Taken {
                offset,
                frame,
                ..nothing()
            };
            BAD_FRAME
        }
    }
}

/// Feeds a piece of a stream to a framer.
pub(crate) fn feed(framer: &mut Framer, piece: &[u8], out: &mut Taken) -> u32
    ensures answer { IsPieceFed framer.old piece.now result framer.new out.new }
    ensures unchanged { result ≢ OK → result ≢ BAD_FRAME
        → (framer.new ≡ framer.old) × (out.new ≡ out.old) }
{
    let bytes = match framer.feed(piece) {
        Ok(bytes) => bytes,
        Err(fault) => return report_frame(fault, out),
    };
    let (is_whole, body_len) = body_at(framer);
    *out = Taken {
        bytes,
        body_len,
        is_whole,
        ..nothing()
    };
    OK
}
