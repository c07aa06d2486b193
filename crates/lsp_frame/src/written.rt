//! Frames in the one form in which they are written; most that are read have it too.
//!
//! A header in the form that we write is read in one step, if one piece begins with the frame
//! and has all of it. The result is the same, and no contract knows of it.

ghost use Rattle.std.specs.Prelude.{◌≡◌, ◌<◌, ◌≤◌, ◌^◌, ◌+◌, ◌-◌, ◌++◌, ℕ, true, false, length, take, drop, slice_index, IfOk, IfErr, OnOk, IfSome, IfNone, Err};
ghost use Rattle.std.specs.List.{list_all};
ghost use Rattle.lsp_frame.specs.Frame.{frame, IsFrameOf};
ghost use Rattle.lsp_frame.specs.Verdict.{is_digit};
ghost use Rattle.lsp_frame.specs.inside.Stage.{BeginsWritten};
ghost use Rattle.lsp_frame.specs.Encode.{IsEncodeFault};
ghost use Rattle.lsp_frame.specs.declared.written.WrittenHeader.{WrittenHeader};
ghost use Rattle.lsp_frame.specs.declared.written.EncodeFault.TheVariants.{BodyTooLong, NoMemory};

use crate::framer::header::first;
use crate::framer::notes::number_within;
use crate::limits::Limits;
use itoa::Buffer;
use std::alloc::{AllocError, Global};
use thiserror::Error;

/// Returns the frame of a body: `Content-Length: N`, an empty line and the body (LSP 3.17, Base
/// Protocol). The body may have any length.
///
/// Fails only where memory runs out. Linear in the body, which is copied once.
pub fn frame(alloc: Global, body: &[u8]) -> Result<Vec<u8>, AllocError>
    ensures framed { IfOk result (λ bytes. bytes.items ≡ frame body.now) }
    // Each limit that allows the body lets a reader take this frame.
    ensures is_frame_of { IfOk result (λ bytes. (max_body : ℕ) → length body.now ≤ max_body →
        IsFrameOf max_body bytes.items body.now) }
{
    written_bytes(alloc, body)
}

#[tactic(auto, unfolding(crate::specs::Frame::frame))]
fn written_bytes(alloc: Global, body: &[u8]) -> Result<Vec<u8>, AllocError>
    ensures { IfOk result (λ bytes. bytes.items ≡ frame body.now) }
{
    let mut buffer = Buffer::new();
    let length = buffer.format(body.len()).as_bytes();
    let mut bytes = Vec::with_capacity(alloc, NAME.len() + length.len() + END.len() + body.len())?;
    bytes.extend_from_slice(NAME)?;
    bytes.extend_from_slice(length)?;
    bytes.extend_from_slice(END)?;
    bytes.extend_from_slice(body)?;
    Ok(bytes)
}

const NAME: &[u8] = b"Content-Length: ";

const END: &[u8] = b"\r\n\r\n";

/// The most bytes that a written header has: its length has at most 20 digits.
pub const MOST_HEADER: usize = 40;

/// Makes a frame of the body that starts at index `body` of a buffer, and returns the index where
/// the frame starts.
///
/// It writes the header right before the body, over the bytes there: `body` is at least
/// [`MOST_HEADER`] and at most the buffer's length. It takes no memory, and doesn't move the body.
#[tactic(auto, unfolding(crate::specs::Frame::frame))]
pub fn put_header(bytes: &mut [u8], body: usize) -> usize
    requires room { MOST_HEADER ≤ body }
    requires within { body ≤ length bytes.old }
    ensures framed { drop result bytes.new ≡ frame (drop body bytes.old) }
    ensures before { take result bytes.new ≡ take result bytes.old }
    ensures len { length bytes.new ≡ length bytes.old }
    ensures begins { (result ≤ body) × (body ≤ result + MOST_HEADER) }
{
    let mut buffer = Buffer::new();
    let length = buffer.format(bytes.len() - body).as_bytes();
    let end = put_before(bytes, body, END);
    let digits = put_before(bytes, end, length);
    put_before(bytes, digits, NAME)
}

/// Writes bytes right before an index, over those there. Returns the index where they start. It is
/// public for `normalise` of `lsp_replay`, which writes marks before headers.
///
/// There is room for them: `index` is at least `new.len()`, and at most `bytes.len()`. It takes no
/// memory, and moves no other byte.
pub fn put_before(bytes: &mut [u8], index: usize, new: &[u8]) -> usize
    requires room { length new.now ≤ index }
    requires within { index ≤ length bytes.old }
    ensures put { drop result bytes.new ≡ new.now ++ drop index bytes.old }
    ensures before { take result bytes.new ≡ take result bytes.old }
    ensures len { length bytes.new ≡ length bytes.old }
    ensures begins { result ≡ index - length new.now }
{
    let start = index - new.len();
    bytes[start..index].copy_from_slice(new);
    start
}

/// The most digits of a length that are read at once. No limit on a body has more.
const MOST_DIGITS: usize = 10;

/// A header in the form that `frame` writes: its own length, and the length of the body after it.
#[derive(Clone, Copy)]
pub(crate) struct WrittenHeader {
    pub(crate) len: usize,
    pub(crate) body: usize,
}

/// Returns the header with which the bytes begin, if it has this form and no fault. It reads at
/// most the 30 bytes that such a header has.
pub(crate) fn written_header(bytes: &[u8], max_body: usize) -> Option<WrittenHeader>
    requires { max_body < 2 ^ 32 }
    ensures some { IfSome result (BeginsWritten max_body bytes.now) }
    ensures none { IfNone result ((header : WrittenHeader) →
        BeginsWritten max_body bytes.now header → ⊥) }
{
    let rest = bytes.strip_prefix(NAME)?;
    let (digits, rest_after) = rest.split_at(digits_len(first(rest, MOST_DIGITS)));
    if digits.is_empty() || !rest_after.starts_with(END) {
        return None;
    }
    let body = number_within(digits, max_body)?;
    let len = NAME.len() + digits.len() + END.len();
    Some(WrittenHeader { len, body })
}

/// Returns how many digits the bytes begin with.
fn digits_len(bytes: &[u8]) -> usize
    ensures within { result ≤ length bytes.now }
    ensures digits { list_all is_digit (take result bytes.now) ≡ true }
    ensures last { result < length bytes.now → is_digit (slice_index bytes.now result) ≡ false }
{
    for (i, b) in bytes.iter().enumerate() {
        if !b.is_ascii_digit() {
            return i;
        }
    }
    bytes.len()
}

/// Why a body has no frame under a limit.
#[derive(Clone, Copy, Debug, PartialEq, Eq, Error)]
pub enum EncodeFault {
    /// The body is longer than the limit; `len` is its length in bytes.
    #[error("the body has {len} bytes, more than the limit")]
    BodyTooLong { len: usize },
    /// Out of memory.
    #[error("out of memory")]
    NoMemory,
}

impl From<AllocError> for EncodeFault {
    ghost from_gives = { λ _ e. e ≡ NoMemory };

    fn from(_e: AllocError) -> EncodeFault {
        EncodeFault::NoMemory
    }
}

/// Returns the frame of a body that is no longer than `max_body` (LSP 3.17, Base Protocol).
///
/// Fails if the body is longer, or where memory runs out. Linear in the body.
pub fn encode(alloc: Global, limits: &Limits, body: &[u8]) -> Result<Vec<u8>, EncodeFault>
    ensures framed { IfOk result (λ bytes. bytes.items ≡ frame body.now) }
    ensures is_frame_of { IfOk result
        (λ bytes. IsFrameOf limits.now.max_body bytes.items body.now) }
    ensures within { OnOk result (length body.now ≤ limits.now.max_body) }
    ensures too_long { limits.now.max_body < length body.now →
        result ≡ Err (EncodeFault.BodyTooLong (length body.now)) }
    ensures error { IfErr result (IsEncodeFault limits.now.max_body (length body.now)) }
{
    if body.len() > limits.max_body() {
        return Err(EncodeFault::BodyTooLong { len: body.len() });
    }
    Ok(frame(alloc, body)?)
}
