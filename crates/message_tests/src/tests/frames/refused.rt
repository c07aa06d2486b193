//! Each call that can run out of memory, with one request for memory refused. The object reads as
//! before, and the same call succeeds the second time. `tools/refused` runs these.

use super::narrow;
use lsp_frame::{EncodeFault, FrameFault, Framer, encode, frame, read_frames};
use lsp_samples::again;
use std::alloc::{AllocError, Global};
use std::test::Fail;

const STREAM: &[u8] =
    b"Content-Length:  012\r\n\r\n[10,2,3,4,5]content-type: text/x; charset=\"UTF8\"\r\nContent-Length: 2\r\n\r\n[]";

/// Lengths of pieces.
static SIZES: [usize; 3] = [1, 7, 200];

/// What was fed: how many requests for memory were refused, and the sum of the bodies' lengths.
#[derive(Drop)]
struct Fed {
    refused: usize,
    total: usize,
}

/// Feeds bytes. Out of memory leaves the framer as it was, and the same bytes are fed again.
fn feed_again(framer: &mut Framer, rest: &[u8], fed: &mut Fed) -> Option<usize> {
    let at_rest = framer.at_rest();
    match framer.feed(rest) {
        Ok(taken) => Some(taken),
        Err(FrameFault::NoMemory) => {
            fed.refused = fed.refused.saturating_add(1);
            if framer.at_rest() != at_rest || framer.body().is_some() {
                return None;
            }
            framer.feed(rest).ok()
        }
        Err(_) => None,
    }
}

/// Feeds a piece to its end. Returns whether no feed of it failed twice.
fn feed_piece(framer: &mut Framer, piece: &[u8], fed: &mut Fed) -> bool {
    let mut rest = piece;
    for _ in 0..4 {
        let Some(taken) = feed_again(framer, rest, fed) else {
            return false;
        };
        rest = rest.get(taken..).unwrap_or(b"");
        if let Some(body) = framer.body() {
            fed.total = fed.total.saturating_add(body.len());
            framer.next();
        }
    }
    true
}

/// Feeds the stream in pieces of `size` bytes. Returns whether the framer is at rest then.
fn feed_all(framer: &mut Framer, size: usize, fed: &mut Fed) -> bool {
    if size == 0 {
        return false;
    }
    for piece in STREAM.chunks(size) {
        if !feed_piece(framer, piece, fed) {
            return false;
        }
    }
    framer.at_rest()
}

#[test]
fn refused_feed(rt: HostRuntime) -> Result<(), Fail> {
    let mut fed = Fed {
        refused: 0,
        total: 0,
    };
    for size in &SIZES {
        let mut framer = Framer::new(rt.alloc(), narrow()?);
        assert!(rt; feed_all(&mut framer, *size, &mut fed), "{size}");
    }
    assert_eq!(rt; fed.total, 3 * 14);
    println!(rt; "refused {}", fed.refused)?;
    Ok(())
}

/// Returns whether a body is framed, and encoded under limits.
fn is_framed(alloc: Global, refused: &mut usize) -> Result<bool, Fail> {
    let (wanted, limits) = (b"Content-Length: 2\r\n\r\n[]".as_slice(), narrow()?);
    let framed = again!(refused, AllocError, frame(alloc, b"[]"))?;
    let encoded = again!(
        refused,
        EncodeFault::NoMemory,
        encode(alloc, &limits, b"[]")
    )?;
    Ok(framed.as_slice() == wanted && encoded.as_slice() == wanted)
}

#[test]
fn refused_frame_and_encode(rt: HostRuntime) -> Result<(), Fail> {
    let mut refused: usize = 0;
    assert!(rt; is_framed(rt.alloc(), &mut refused)?);
    println!(rt; "refused {refused}")?;
    Ok(())
}

/// Returns the stream in pieces.
fn pieces(alloc: Global) -> Result<Vec<Vec<u8>>, AllocError> {
    let mut pieces = Vec::new(alloc);
    for piece in STREAM.chunks(40) {
        pieces.push(Vec::from_slice(alloc, piece)?)?;
    }
    Ok(pieces)
}

/// Returns how many frames the pieces have, if they end without a fault.
fn frames_of(alloc: Global, refused: &mut usize) -> Result<Option<usize>, Fail> {
    let limits = narrow()?;
    let pieces = again!(refused, AllocError, pieces(alloc))?;
    let frames = again!(refused, AllocError, read_frames(alloc, limits, &pieces))?;
    Ok(frames.fault.is_none().then_some(frames.bodies.len()))
}

#[test]
fn refused_read_frames(rt: HostRuntime) -> Result<(), Fail> {
    let mut refused: usize = 0;
    assert_eq!(rt; frames_of(rt.alloc(), &mut refused)?, Some(2));
    println!(rt; "refused {refused}")?;
    Ok(())
}
