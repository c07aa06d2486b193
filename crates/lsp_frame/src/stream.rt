//! `read_frames`, which reads all frames of a whole stream.

ghost use Rattle.std.specs.Prelude.{◌≡◌, ◌≢◌, ◌<◌, ◌++◌, ℕ, List, [], Option, false, length, map, IfOk, OnOk, OnErr, MatchOption};
ghost use Rattle.std.specs.List.{flat_map};
ghost use Rattle.lsp_frame.specs.Stream.{IsRead, IsFrame};
ghost use Rattle.lsp_frame.specs.inside.Stream.{IsHolding, HasTaken, IsFaulty};
ghost use Rattle.lsp_frame.specs.declared.fault.FrameFault.{FrameFault};

use crate::fault::FrameFault;
use crate::framer::Framer;
use crate::limits::Limits;
use std::alloc::{AllocError, Global};

/// The frames of a stream, and the fault that was found after them.
#[derive(Debug, Drop)]
pub struct Frames {
    /// The bodies, in the order of the stream.
    pub bodies: Vec<Vec<u8>>,
    /// The fault after the last of them, if any. A part of a frame at the end of the stream is no
    /// fault.
    pub fault: Option<FrameFault>,
}

/// Reads the frames of a stream that comes in these pieces, up to a fault (LSP 3.17, Base
/// Protocol).
///
/// Fails only where memory runs out. Linear in the stream.
pub fn read_frames(alloc: Global, limits: Limits, pieces: &[Vec<u8>]) -> Result<Frames, AllocError>
    // The frames and the fault are those of the pieces put together.
    ensures read { IfOk result (λ frames.
        IsRead limits.max_body (flat_map (λ piece. piece.items) pieces.now)
        (map (λ body. body.items) frames.bodies.items) frames.fault) }
    // No others are: it doesn't matter how the stream was cut.
    ensures only { IfOk result (λ frames. (bodies : List (List ℕ)) (fault : Option FrameFault) →
        IsRead limits.max_body (flat_map (λ piece. piece.items) pieces.now) bodies fault →
        (map (λ body. body.items) frames.bodies.items ≡ bodies) × (frames.fault ≡ fault)) }
    // It can be out of memory only if the stream has a byte.
    ensures memory { OnErr result (0 < length (flat_map (λ piece. piece.items) pieces.now)) }
{
    let mut framer = Framer::new(alloc, limits);
    let mut bodies = Vec::new(alloc);
    let fault = take_pieces(alloc, &mut framer, pieces, &mut bodies)?;
    Ok(Frames { bodies, fault })
}

/// Takes the frames of these pieces, up to a fault.
fn take_pieces(
    alloc: Global,
    framer: &mut Framer,
    pieces: &[Vec<u8>],
    bodies: &mut Vec<Vec<u8>>,
) -> Result<Option<FrameFault>, AllocError>
    requires none { IsFrame framer.old.limits.max_body framer.old.buffered → ⊥ }
    requires sound { framer.old.failed ≡ false }
    ensures read { IfOk result (λ fault. (max_body : ℕ) →
        HasTaken max_body [] (map (λ body. body.items) bodies.old.items) framer.old →
        IsRead max_body (flat_map (λ piece. piece.items) pieces.now)
        (map (λ body. body.items) bodies.new.items) fault) }
    // Out of memory means that no fault was found and that there was a byte.
    ensures memory { OnErr result (framer.new.failed ≡ false) }
    ensures some { OnErr result (0 < length (flat_map (λ piece. piece.items) pieces.now)) }
{
    for piece in pieces {
        if let Some(fault) = take_frames(alloc, framer, piece, bodies)? {
            return Ok(Some(fault));
        }
    }
    Ok(None)
}

/// Returns a fault of the stream itself; out of memory becomes an `AllocError`.
fn fault_of_stream(fault: FrameFault) -> Result<FrameFault, AllocError>
    ensures found { IfOk result (λ found. found ≡ fault) }
    ensures of_stream { OnOk result (fault ≢ FrameFault.NoMemory) }
    ensures memory { OnErr result (fault ≡ FrameFault.NoMemory) }
{
    match fault {
        FrameFault::NoMemory => Err(AllocError),
        _ => Ok(fault),
    }
}

/// Takes the frames of one piece, up to a fault.
fn take_frames(
    alloc: Global,
    framer: &mut Framer,
    piece: &[u8],
    bodies: &mut Vec<Vec<u8>>,
) -> Result<Option<FrameFault>, AllocError>
    requires none { IsFrame framer.old.limits.max_body framer.old.buffered → ⊥ }
    requires sound { framer.old.failed ≡ false }
    ensures none { IfOk result
        (λ fault. MatchOption fault ((IsFrame framer.new.limits.max_body framer.new.buffered → ⊥)
        × (framer.new.failed ≡ false)) (λ _. Unit {0})) }
    ensures taken { IfOk result (λ fault. (max_body : ℕ) (stream : List ℕ) →
        HasTaken max_body stream (map (λ body. body.items) bodies.old.items) framer.old →
        MatchOption fault
        (HasTaken max_body (stream ++ piece.now) (map (λ body. body.items) bodies.new.items)
        framer.new)
        (IsFaulty max_body (stream ++ piece.now) (map (λ body. body.items) bodies.new.items))) }
    // Out of memory means that no fault was found.
    ensures memory { OnErr result (framer.new.failed ≡ false) }
    ensures some { OnErr result (0 < length piece.now) }
{
    let mut at = 0;
    while at < piece.len() {
        match framer.feed(&piece[at..]) {
            Ok(taken) => at += taken,
            Err(fault) => return Ok(Some(fault_of_stream(fault)?)),
        }
        take_frame(alloc, framer, bodies)?;
    }
    Ok(None)
}

/// Copies the body of a whole frame, and releases the frame. Does nothing if none is whole.
fn take_frame(
    alloc: Global,
    framer: &mut Framer,
    bodies: &mut Vec<Vec<u8>>,
) -> Result<(), AllocError>
    requires sound { framer.old.failed ≡ false }
    ensures none { IfOk result (λ _. (IsFrame framer.new.limits.max_body framer.new.buffered → ⊥)
        × (framer.new.failed ≡ false)) }
    ensures taken { IfOk result (λ _. (max_body : ℕ) (stream : List ℕ) →
        IsHolding max_body stream (map (λ body. body.items) bodies.old.items) framer.old →
        HasTaken max_body stream (map (λ body. body.items) bodies.new.items) framer.new) }
    ensures memory { OnErr result (framer.new ≡ framer.old) }
{
    if let Some(body) = framer.body() {
        bodies.push(Vec::from_slice(alloc, body)?)?;
        framer.next();
    }
    Ok(())
}
