//! Streams whose frames and faults were worked out by hand, with `max_body` 4,096.

mod refused;
mod rows;

use lsp_frame::{BadLimits, FrameFault, Framer, Limits, read_frames};
use rows::{FAULTS, FRAMES, LONG_FAULTS};
use std::alloc::{AllocError, Global};
use std::test::Fail;

/// Limits with bodies of at most 4,096 bytes.
fn narrow() -> Result<Limits, BadLimits> {
    Limits::new(4_096, 0, 1, 1)
}

/// The numbers that `docs/LSPSYNC.md` has as the defaults.
#[test]
fn the_default_limits(rt: HostRuntime) -> Result<(), Fail> {
    assert!(rt; Limits::new(16_777_216, 16_777_216, 1_024, 65_536) == Ok(Limits::default()));
    Ok(())
}

/// Returns all frames, one after another.
fn joined(alloc: Global) -> Result<Vec<u8>, AllocError> {
    let mut stream = Vec::new(alloc);
    for frame in &FRAMES {
        stream.extend_from_slice(frame)?;
    }
    Ok(stream)
}

/// Returns the stream in one piece.
fn in_one_piece(alloc: Global, stream: &[u8]) -> Result<Vec<Vec<u8>>, AllocError> {
    let mut pieces = Vec::new(alloc);
    pieces.push(Vec::from_slice(alloc, stream)?)?;
    Ok(pieces)
}

/// Returns how many bodies `[]` a stream has, if it has no others and no fault.
fn lists_in(alloc: Global, stream: &[u8]) -> Result<Option<usize>, Fail> {
    let frames = read_frames(alloc, narrow()?, &in_one_piece(alloc, stream)?)?;
    for body in &frames.bodies {
        if body.as_slice() != b"[]".as_slice() {
            return Ok(None);
        }
    }
    Ok(frames.fault.is_none().then_some(frames.bodies.len()))
}

#[test]
fn frames_alone_and_one_after_another(rt: HostRuntime) -> Result<(), Fail> {
    for (index, frame) in FRAMES.iter().enumerate() {
        assert_eq!(rt; lists_in(rt.alloc(), frame)?, Some(1), "{index}");
    }
    let stream = joined(rt.alloc())?;
    assert_eq!(rt; lists_in(rt.alloc(), &stream)?, Some(FRAMES.len()));
    Ok(())
}

/// Returns the fault of a stream that begins with no frame.
fn fault_of(alloc: Global, stream: &[u8]) -> Result<Option<FrameFault>, Fail> {
    let frames = read_frames(alloc, narrow()?, &in_one_piece(alloc, stream)?)?;
    Ok(if frames.bodies.is_empty() {
        frames.fault
    } else {
        None
    })
}

/// Returns whether a stream has the fault of this code, with which this offset is printed.
fn is_faulty(alloc: Global, stream: &[u8], code: &str, place: u64) -> Result<bool, Fail> {
    let Some(fault) = fault_of(alloc, stream)? else {
        return Ok(false);
    };
    let printed = format!(in alloc; "{fault}")?;
    let wanted = format!(in alloc; "{code} at byte offset {place}: ")?;
    Ok(printed.as_str().starts_with(wanted.as_str()))
}

#[test]
fn each_fault_has_its_place(rt: HostRuntime) -> Result<(), Fail> {
    for (stream, code, place) in &FAULTS {
        assert!(rt;
            is_faulty(rt.alloc(), stream, code, *place)?,
            "{code} {place}"
        );
    }
    Ok(())
}

/// Returns whether a stream in which one letter is repeated has this fault.
fn is_long_fault(alloc: Global, row: &rows::Long) -> Result<bool, Fail> {
    let (before, letter, count, after, code, place) = *row;
    let letters = letter.repeat(alloc, count)?;
    let stream = format!(in alloc; "{before}{letters}{after}")?;
    is_faulty(alloc, stream.as_bytes(), code, place)
}

#[test]
fn a_header_has_at_most_8192_bytes(rt: HostRuntime) -> Result<(), Fail> {
    for row in &LONG_FAULTS {
        assert!(rt; is_long_fault(rt.alloc(), row)?, "{} {}", row.0, row.5);
    }
    Ok(())
}

/// After a fault nothing is buffered, and each call fails. Skipped bytes count for its offset.
#[test]
fn after_a_fault(rt: HostRuntime) -> Result<(), Fail> {
    let mut framer = Framer::new(rt.alloc(), narrow()?);
    framer.skip(18);
    let fed = framer.feed(b"x y");
    assert_eq!(rt; fed, Err(FrameFault::BadHeader { place: 19 }));
    assert_eq!(rt;
        framer.feed(b"Content-Length: 2\r\n\r\n[]"),
        Err(FrameFault::Failed)
    );
    assert!(rt; framer.body().is_none() && framer.spelling().is_none());
    framer.next();
    assert!(rt; !framer.at_rest());
    Ok(())
}
