//! The stages of a frame that is coming in.
//!
//! Header bytes are read as they come; `memchr` finds line ends, and a whole line is read once
//! more for its name and value.

ghost use Rattle.std.specs.Prelude.{◌≡◌, ◌+◌, ◌<◌, ◌≤◌, ◌^◌, ℕ, [], ◌++◌, length, take, IfOk, IfErr, OnOk, OnErr, IsOkAnd, Ok, false, vec_len, vec_capacity};
ghost use Rattle.lsp_frame.specs.Stream.{IsFrame};
ghost use Rattle.lsp_frame.specs.inside.Stage.{IsWhole, IsInHeader, IsInBody, IsAtStage, BeginsWritten};
ghost use Rattle.lsp_frame.specs.Stream.{has_failed};
ghost use Rattle.lsp_frame.specs.inside.Progress.{IsHeaderStop, stage_after};
ghost use Rattle.lsp_frame.specs.declared.framer.header.Stop.TheVariants as stop;

use crate::framer::header::{Header, Stop, first, take_header};
use crate::framer::notes::Notes;
use crate::written::{WrittenHeader, written_header};

/// Which part of a frame is buffered.
#[derive(Clone, Copy, Debug)]
pub(crate) enum Stage {
    /// The beginning of a header, or nothing.
    Header(Header),
    /// A whole header and a part of the body, which starts and ends at these offsets of the frame.
    Body { start: usize, end: usize },
    /// A fault was found.
    Failed,
}

impl Stage {
    /// Returns the stage after a piece was not taken: a fault ends the stream, out of memory
    /// changes nothing.
    fn after(self, stop: Stop) -> Stage
        ensures { result ≡ stage_after self stop }
    {
        match stop {
            Stop::Fault(..) => Stage::Failed,
            Stop::NoMemory => self,
        }
    }
}

/// Takes the bytes of a piece that belong to the frame that is coming in.
///
/// After an error the buffered bytes are unchanged. After a fault the stage is `Failed`; out of
/// memory leaves it unchanged.
pub(crate) fn take_piece(
    buffered: &mut Vec<u8>,
    stage: &mut Stage,
    piece: &[u8],
    max_body: usize,
) -> Result<usize, Stop>
    requires small { max_body ≤ 1073741824 }
    requires at_stage { IsAtStage max_body buffered.old.items stage.old }
    requires sound { has_failed stage.old ≡ false }
    ensures taken { IfOk result (λ k. k ≤ length piece.now) }
    ensures buffered { IfOk result
        (λ k. buffered.new.items ≡ buffered.old.items ++ take k piece.now) }
    ensures stage { OnOk result (IsAtStage max_body buffered.new.items stage.new) }
    ensures sound { OnOk result (has_failed stage.new ≡ false) }
    ensures stops { IfOk result (λ k. k < length piece.now → IsFrame max_body buffered.new.items) }
    ensures whole { IsFrame max_body buffered.old.items → IsOkAnd result (λ k. k ≡ 0) }
    ensures empty { length piece.now ≡ 0 → IsOkAnd result (λ k. k ≡ 0) }
    ensures unchanged { OnErr result (buffered.new.items ≡ buffered.old.items) }
    ensures after { IfErr result (λ why. stage.new ≡ stage_after stage.old why) }
    ensures error { IfErr result (IsHeaderStop max_body (buffered.old.items ++ piece.now)) }
    // Out of memory only where room was missing.
    ensures full { IfErr result (λ why. why ≡ stop.NoMemory →
        vec_capacity buffered.old < vec_len buffered.old + length piece.now) }
{
    match *stage {
        Stage::Header(header) => match take_from_header(buffered, header, piece, max_body) {
            Ok((taken, next)) => {
                *stage = next;
                Ok(taken)
            }
            Err(stop) => {
                *stage = stage.after(stop);
                Err(stop)
            }
        },
        Stage::Body { start, end } => take_body(buffered, start, end, piece, max_body),
        Stage::Failed => unreachable!(),
    }
}

/// Takes the bytes of a piece that belong to the frame whose header is coming in. After an error
/// the buffered bytes are unchanged.
fn take_from_header(
    buffered: &mut Vec<u8>,
    header: Header,
    piece: &[u8],
    max_body: usize,
) -> Result<(usize, Stage), Stop>
    requires small { max_body ≤ 1073741824 }
    requires in_header { IsInHeader max_body buffered.old.items header }
    ensures taken { IfOk result (λ got. got.0 ≤ length piece.now) }
    ensures buffered { IfOk result
        (λ got. buffered.new.items ≡ buffered.old.items ++ take got.0 piece.now) }
    ensures stage { IfOk result (λ got. IsAtStage max_body buffered.new.items got.1) }
    ensures stops { IfOk result (λ got. got.0 < length piece.now →
        IsFrame max_body buffered.new.items) }
    ensures sound { IfOk result (λ got. has_failed got.1 ≡ false) }
    ensures empty { length piece.now ≡ 0 → IsOkAnd result (λ got. got.0 ≡ 0) }
    ensures unchanged { OnErr result (buffered.new.items ≡ buffered.old.items) }
    ensures error { IfErr result (IsHeaderStop max_body (buffered.old.items ++ piece.now)) }
    // Out of memory only where room was missing.
    ensures full { IfErr result (λ why. why ≡ stop.NoMemory →
        vec_capacity buffered.old < vec_len buffered.old + length piece.now) }
{
    if piece.is_empty() {
        return Ok((0, Stage::Header(header)));
    }
    let before = buffered.len();
    if before == 0 {
        if let Some(written) = written_header(piece, max_body) {
            return take_written(buffered, written, piece, max_body);
        }
    }
    let mut header = header;
    let taken = match take_header(buffered, &mut header, piece, max_body) {
        Ok(taken) => taken,
        Err(stop) => {
            buffered.truncate(before);
            return Err(stop);
        }
    };
    if !header.shape.is_end() {
        return Ok((taken, Stage::Header(header)));
    }
    match begin_body(buffered, header.notes, &piece[taken..], max_body) {
        Ok((more, stage)) => Ok((taken + more, stage)),
        Err(stop) => {
            buffered.truncate(before);
            Err(stop)
        }
    }
}

/// Takes the bytes of a frame whose header begins the piece, in the form that `frame` writes.
fn take_written(
    buffered: &mut Vec<u8>,
    header: WrittenHeader,
    piece: &[u8],
    max_body: usize,
) -> Result<(usize, Stage), Stop>
    requires nothing_buffered { buffered.old.items ≡ [] }
    requires written { BeginsWritten max_body piece.now header }
    requires small { max_body ≤ 1073741824 }
    ensures taken { IfOk result (λ got. got.0 ≤ length piece.now) }
    ensures buffered { IfOk result
        (λ got. buffered.new.items ≡ buffered.old.items ++ take got.0 piece.now) }
    ensures stage { IfOk result (λ got. IsAtStage max_body buffered.new.items got.1) }
    ensures sound { IfOk result (λ got. has_failed got.1 ≡ false) }
    ensures stops { IfOk result (λ got. got.0 < length piece.now →
        IsFrame max_body buffered.new.items) }
    ensures error { IfErr result
        (λ why. (buffered.new.items ≡ buffered.old.items) × (why ≡ stop.NoMemory)) }
    ensures full { OnErr result
        (vec_capacity buffered.old < vec_len buffered.old + length piece.now) }
{
    let start = header.len;
    let end = start + header.body;
    let frame = first(piece, end);
    if buffered.extend_from_slice(frame).is_err() {
        return Err(Stop::NoMemory);
    }
    Ok((frame.len(), Stage::Body { start, end }))
}

/// Takes the bytes of the body after a whole header.
fn begin_body(
    buffered: &mut Vec<u8>,
    notes: Notes,
    rest: &[u8],
    max_body: usize,
) -> Result<(usize, Stage), Stop>
    requires small { max_body ≤ 1073741824 }
    requires whole { IsWhole max_body buffered.old.items notes }
    ensures taken { IfOk result (λ got. got.0 ≤ length rest.now) }
    ensures buffered { IfOk result
        (λ got. buffered.new.items ≡ buffered.old.items ++ take got.0 rest.now) }
    ensures stage { IfOk result (λ got. IsAtStage max_body buffered.new.items got.1) }
    ensures sound { IfOk result (λ got. has_failed got.1 ≡ false) }
    ensures stops { IfOk result (λ got. got.0 < length rest.now →
        IsFrame max_body buffered.new.items) }
    ensures unchanged { OnErr result (buffered.new.items ≡ buffered.old.items) }
    ensures error { IfErr result (IsHeaderStop max_body (buffered.old.items ++ rest.now)) }
    // Out of memory only where room was missing.
    ensures full { IfErr result (λ why. why ≡ stop.NoMemory →
        vec_capacity buffered.old < vec_len buffered.old + length rest.now) }
{
    let start = buffered.len();
    let wanted = match notes.verdict() {
        Ok(wanted) => wanted,
        Err(fault) => return Err(Stop::Fault(fault, start - 1)),
    };
    let end = start + wanted;
    let taken = take_body(buffered, start, end, rest, max_body)?;
    Ok((taken, Stage::Body { start, end }))
}

/// Takes the bytes of a piece that belong to the body, which ends at the offset `end` of the frame.
fn take_body(
    buffered: &mut Vec<u8>,
    start: usize,
    end: usize,
    piece: &[u8],
    max_body: usize,
) -> Result<usize, Stop>
    requires in_body { IsInBody max_body buffered.old.items start end }
    ensures taken { IfOk result (λ k. k ≤ length piece.now) }
    ensures buffered { IfOk result
        (λ k. buffered.new.items ≡ buffered.old.items ++ take k piece.now) }
    ensures stage { OnOk result (IsInBody max_body buffered.new.items start end) }
    ensures stops { IfOk result (λ k. k < length piece.now → IsFrame max_body buffered.new.items) }
    ensures quiet { length buffered.old.items ≡ end → result ≡ Ok 0 }
    ensures empty { length piece.now ≡ 0 → result ≡ Ok 0 }
    ensures error { IfErr result
        (λ why. (buffered.new.items ≡ buffered.old.items) × (why ≡ stop.NoMemory)) }
    ensures full { OnErr result
        (vec_capacity buffered.old < vec_len buffered.old + length piece.now) }
{
    let body = first(piece, end - buffered.len());
    if body.is_empty() {
        return Ok(0);
    }
    if buffered.extend_from_slice(body).is_err() {
        return Err(Stop::NoMemory);
    }
    Ok(body.len())
}
