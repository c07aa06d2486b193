//! The header of a frame, read line by line as its bytes come in.

ghost use Rattle.std.specs.Prelude.{◌≡◌, ◌≢◌, ◌+◌, ◌-◌, ◌<◌, ◌≤◌, ◌^◌, ℕ, false, [], ◌++◌, length, take, slice_index, IfOk, IfErr, OnOk, OnErr, vec_len, vec_capacity};
ghost use Rattle.lsp_frame.specs.Header.{Line, IsLine, line_bytes};
ghost use Rattle.lsp_frame.specs.inside.Stage.{IsSoFar, is_over};
ghost use Rattle.lsp_frame.specs.inside.Progress.{IsLineStop, IsHeaderStop, stopped_at};
ghost use Rattle.lsp_frame.specs.declared.framer.shape.Shape.TheVariants as shape;

use crate::fault::{FrameFault, HeaderFault};
use crate::framer::notes::Notes;
use crate::framer::shape::Shape;
use memchr::memchr;

/// The greatest length of a header, in bytes.
pub(crate) const LONGEST_HEADER: usize = 8_192;

/// What is known of a header that is coming in: shape and start of its last line, and what the
/// lines before it say.
#[derive(Clone, Copy, Debug)]
pub(crate) struct Header {
    pub(crate) shape: Shape,
    pub(crate) line: usize,
    pub(crate) notes: Notes,
}

/// Why no more of a header is taken: out of memory, or a fault with the offset in the frame of its
/// byte.
#[derive(Clone, Copy, Debug)]
pub(crate) enum Stop {
    Fault(HeaderFault, usize),
    NoMemory,
}

impl Stop {
    /// Returns the fault of a stream in which `before` bytes came before the frame.
    pub(crate) fn in_stream(self, before: u64) -> FrameFault
        ensures { result ≡ stopped_at before self }
    {
        match self {
            Stop::Fault(fault, at) => fault.at(before.saturating_add(at as u64)),
            Stop::NoMemory => FrameFault::NoMemory,
        }
    }
}

impl Header {
    /// Makes a header of which no byte has come in.
    pub(crate) fn new() -> Header
        ensures so_far { (max_body : ℕ) → IsSoFar max_body [] result }
        ensures line_open { is_over result.shape ≡ false }
    {
        Header {
            shape: Shape::Start,
            line: 0,
            notes: Notes::new(),
        }
    }

    /// Notes the line that is whole now, and starts the next one.
    fn with_line(self, buffered: &[u8], max_body: usize) -> Header
        requires small { max_body < 2 ^ 32 }
        requires so_far { IsSoFar max_body buffered.now self }
        requires whole { self.shape ≡ shape.Whole }
        ensures so_far { IsSoFar max_body buffered.now result }
        ensures start { result.shape ≡ shape.Start }
    {
        let (name, value) = split_line(&buffered[self.line..]);
        Header {
            shape: Shape::Start,
            line: buffered.len(),
            notes: self.notes.add(name, value, max_body),
        }
    }
}

/// Splits a whole line into its name and its value.
fn split_line(line: &[u8]) -> (&[u8], &[u8])
    requires { (parts : Line) × IsLine parts × (line.now ≡ line_bytes parts) }
    ensures { (parts : Line) → IsLine parts → line.now ≡ line_bytes parts →
        (result.0.now ≡ parts.name) × (result.1.now ≡ parts.value) }
{
    let colon = memchr(b':', line).unwrap_or(0);
    (&line[..colon], &line[colon + 1..line.len() - 2])
}

/// Returns how many bytes there are up to the end of the line: all, if it doesn't end here.
fn line_len(window: &[u8]) -> usize
    requires { 0 < length window.now }
    ensures some { 0 < result }
    ensures within { result ≤ length window.now }
    ensures one_line { (k : ℕ) → k + 1 < result → slice_index window.now k ≢ 10 }
    ensures line_end { result < length window.now → slice_index window.now (result - 1) ≡ 10 }
{
    match memchr(b'\n', window) {
        Some(at) => at + 1,
        None => window.len(),
    }
}

/// Takes the bytes of a window up to the end of the line: all of them, if it doesn't end there.
fn take_line(
    buffered: &mut Vec<u8>,
    header: &mut Header,
    window: &[u8],
    max_body: usize,
) -> Result<usize, Stop>
    requires small { max_body < 2 ^ 32 }
    requires so_far { IsSoFar max_body buffered.old.items header.old }
    requires line_open { is_over header.old.shape ≡ false }
    requires some { 0 < length window.now }
    ensures taken { IfOk result (λ n. (0 < n) × (n ≤ length window.now)) }
    ensures buffered { IfOk result
        (λ n. buffered.new.items ≡ buffered.old.items ++ take n window.now) }
    ensures so_far { OnOk result (IsSoFar max_body buffered.new.items header.new) }
    ensures line_start { OnOk result (header.new.shape ≢ shape.Whole) }
    ensures unchanged { OnErr result (buffered.new.items ≡ buffered.old.items) }
    ensures error { IfErr result (IsLineStop buffered.old.items window.now) }
    // Out of memory only where room was missing.
    ensures full { IfErr result (λ why. why ≡ Stop.NoMemory →
        vec_capacity buffered.old < vec_len buffered.old + length window.now) }
    ensures capacity { vec_capacity buffered.old ≤ vec_capacity buffered.new }
{
    let end = line_len(window);
    let piece = &window[..end];
    let shape = match header.shape.check(piece) {
        Ok(shape) => shape,
        Err(at) => return Err(Stop::Fault(HeaderFault::BadHeader, buffered.len() + at)),
    };
    if buffered.extend_from_slice(piece).is_err() {
        return Err(Stop::NoMemory);
    }
    header.shape = shape;
    if shape == Shape::Whole {
        *header = header.with_line(buffered, max_body);
    }
    Ok(end)
}

/// Takes the bytes of a piece up to the end of the header: all of them, if it doesn't end there.
pub(crate) fn take_header(
    buffered: &mut Vec<u8>,
    header: &mut Header,
    piece: &[u8],
    max_body: usize,
) -> Result<usize, Stop>
    requires small { max_body < 2 ^ 32 }
    requires so_far { IsSoFar max_body buffered.old.items header.old }
    requires line_open { is_over header.old.shape ≡ false }
    requires short { length buffered.old.items < 8192 }
    ensures taken { IfOk result (λ k. k ≤ length piece.now) }
    ensures buffered { IfOk result
        (λ k. buffered.new.items ≡ buffered.old.items ++ take k piece.now) }
    ensures so_far { OnOk result (IsSoFar max_body buffered.new.items header.new) }
    ensures short { OnOk result (length buffered.new.items ≤ 8192) }
    ensures continues { IfOk result (λ k. header.new.shape ≢ shape.End →
        (k ≡ length piece.now) × (is_over header.new.shape ≡ false)
        × (length buffered.new.items < 8192)) }
    ensures unchanged { OnErr result
        ((n : ℕ) × (buffered.new.items ≡ buffered.old.items ++ take n piece.now)) }
    ensures error { IfErr result (IsHeaderStop max_body (buffered.old.items ++ piece.now)) }
    // Out of memory only where room was missing.
    ensures full { IfErr result (λ why. why ≡ Stop.NoMemory →
        vec_capacity buffered.old < vec_len buffered.old + length piece.now) }
    ensures capacity { vec_capacity buffered.old ≤ vec_capacity buffered.new }
{
    let mut at = 0;
    while at < piece.len() && !header.shape.is_end() {
        let window = first(&piece[at..], LONGEST_HEADER - buffered.len());
        at += take_line(buffered, header, window, max_body)?;
        if buffered.len() == LONGEST_HEADER && !header.shape.is_end() {
            return Err(Stop::Fault(HeaderFault::HeaderTooLong, LONGEST_HEADER - 1));
        }
    }
    Ok(at)
}

/// Returns the first `most` bytes: all of them, if there are no more.
pub(crate) fn first(bytes: &[u8], most: usize) -> &[u8]
    ensures { result.now ≡ take most bytes.now }
{
    if bytes.len() > most {
        &bytes[..most]
    } else {
        bytes
    }
}
