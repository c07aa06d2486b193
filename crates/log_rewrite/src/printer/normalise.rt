//! `normalise`: writes a log in which each accepted change is its canonical message, or the whole
//! text that it leaves.

ghost use Rattle.std.specs.Prelude.{ℕ, ◌≡◌, ◌≤◌, ◌⊎◌, ◌++◌, List, [], length, drop, Option, Some, IfOk, IfErr, OnOk, Err};
ghost use Rattle.lsp_frame.specs.Frame.{frame};
ghost use Rattle.lsp_log.specs.Log.{mark_of};
ghost use Rattle.log_session.specs.inside.RunOutput.{output_of};
ghost use Rattle.log_rewrite.specs.Normalise.{normalising, front_of, writing_whole, written};
ghost use Rattle.log_session.specs.Selection.{line_if};
ghost use Rattle.log_session.specs.View.{writes, ends};
ghost use Rattle.log_session.specs.inside.Printer.{state_in};
ghost use Rattle.log_session.specs.inside.Verdicts.{IsAppended};

use crate::printer::front::{line_bytes, mark_bytes, push_front, push_line};
use log_session::{
    Appended, Canonical, Finished, Given, Output, Printed, Printer, RecordBody, Session, Whole,
    in_log,
};
use lsp_frame::{put_before, put_header};
use lsp_log::{Head, Record};
use lsp_stream::EngineFault;
use std::alloc::AllocError;
use std::mem::swap;

/// Writes each record as it is, and an accepted change as its canonical message.
#[derive(Drop)]
pub struct Normalise {
    pub session: Session,
    /// The canonical message of the last record, if it was an accepted change.
    pub canonical: Canonical,
}

impl Printer for Normalise {
    ghost state = { λ normalise. state_in normalising tt normalise.session };

    const NOTES: bool = false;

    fn session(&self) -> &Session {
        &self.session
    }

    fn print(&mut self, item: &Record<'_>, read: RecordBody<'_>, buffer: &mut Vec<u8>) -> Printed {
        self.canonical.clear(FRONT_ROOM)?;
        let taken = self.session.take(read, &mut self.canonical)?;
        in_log(&taken.verdict, item.head.place)?;
        let output = push_record(buffer, &mut self.canonical, item)?;
        Ok(Given::more(output))
    }

    fn finish(&mut self, line_due: bool, buffer: &mut Vec<u8>) -> Finished {
        push_line(buffer, line_due)?;
        Ok(Some(self.session.outcome()))
    }
}

/// Writes each record as it is, and an accepted change as the whole text that it leaves.
#[derive(Drop)]
pub struct WriteWhole {
    pub session: Session,
    /// The whole text that the last record leaves, if it was an accepted change.
    pub whole: Whole,
}

impl Printer for WriteWhole {
    ghost state = { λ writer. state_in writing_whole tt writer.session };

    const NOTES: bool = false;

    fn session(&self) -> &Session {
        &self.session
    }

    fn print(&mut self, item: &Record<'_>, read: RecordBody<'_>, buffer: &mut Vec<u8>) -> Printed {
        self.whole.written.clear(FRONT_ROOM)?;
        let taken = self.session.take(read, &mut self.whole)?;
        in_log(&taken.verdict, item.head.place)?;
        let output = push_record(buffer, &mut self.whole.written, item)?;
        Ok(Given::more(output))
    }

    fn finish(&mut self, line_due: bool, buffer: &mut Vec<u8>) -> Finished {
        push_line(buffer, line_due)?;
        Ok(Some(self.session.outcome()))
    }
}

/// Room before a body for what is written there: the line of version 2, a mark and a header.
const FRONT_ROOM: usize = 64;

/// Writes a record with its mark: as it is, or as its canonical message, whose body is after the
/// room.
#[tactic(auto, using(crate::proofs::NormaliseLog::AppendLemmas::appended_none, crate::proofs::NormaliseLog::AppendLemmas::appended_framed, crate::proofs::NormaliseLog::AppendLemmas::appended_too_long))]
fn push_record(
    buffer: &mut Vec<u8>,
    canonical: &mut Canonical,
    item: &Record<'_>,
) -> Result<Output, EngineFault>
    requires { canonical.old.appended ≡ Some Appended.Body →
        FRONT_ROOM ≤ length canonical.old.bytes.items }
    ensures ok { IfOk result
        (λ output. (max_body : ℕ) (canonical_log : Option (List ℕ)) (body room : List ℕ) →
        length room ≡ FRONT_ROOM →
        IsAppended max_body canonical_log canonical.old.appended room canonical.old.bytes.items →
        written max_body (record { head = item.now.head; raw = item.now.raw.now; body = body })
        (front_of item.now.head) canonical_log
        ≡ writes (output_of output item.now.raw.now buffer.new.items)) }
    ensures error { IfErr result
        (λ fault. (fault ≡ EngineFault.NoMemory)
        ⊎ ((fault ≡ EngineFault.BodyTooLong item.now.head.place)
        × ((max_body : ℕ) (canonical_log : Option (List ℕ)) (body room : List ℕ) →
        length room ≡ FRONT_ROOM →
        IsAppended max_body canonical_log canonical.old.appended room canonical.old.bytes.items →
        written max_body (record { head = item.now.head; raw = item.now.raw.now; body = body })
        (front_of item.now.head) canonical_log
        ≡ ends [] (Err (EngineFault.BodyTooLong item.now.head.place))))) }
{
    let Some(appended) = canonical.appended else {
        return Ok(push_as_it_is(buffer, item.head, item.raw)?);
    };
    within_limit(appended, item.head.place)?;
    swap(buffer, &mut canonical.bytes);
    let start = put_front(buffer, item.head);
    Ok(Output::BytesFrom(start))
}

/// Refuses a canonical body over the limit, of the record at this offset.
fn within_limit(appended: Appended, place: u64) -> Result<(), EngineFault>
    ensures ok { OnOk result (appended ≡ Appended.Body) }
    ensures error { IfErr result
        (λ fault. (fault ≡ EngineFault.BodyTooLong place) × (appended ≡ Appended.TooLong)) }
{
    match appended {
        Appended::Body => Ok(()),
        Appended::TooLong => Err(EngineFault::BodyTooLong { place }),
    }
}

/// Writes a record with its mark, as it is.
fn push_as_it_is(buffer: &mut Vec<u8>, head: Head, raw: &[u8]) -> Result<Output, AllocError>
    ensures { IfOk result (λ output. output_of output raw.now buffer.new.items
        ≡ front_of head ++ raw.now) }
{
    buffer.clear();
    push_front(buffer, head)?;
    if buffer.is_empty() {
        return Ok(Output::Frame);
    }
    buffer.extend_from_slice(raw)?;
    Ok(Output::Bytes)
}

/// Writes the line of version 2, if it is due, the mark and the header into the room right before a
/// body. Returns the index where they begin.
fn put_front(buffer: &mut [u8], head: Head) -> usize
    requires { FRONT_ROOM ≤ length buffer.old }
    ensures { drop result buffer.new ≡ line_if head.line_due
        ++ (mark_of head.version head.side ++ frame (drop FRONT_ROOM buffer.old)) }
{
    let header = put_header(buffer, FRONT_ROOM);
    let mark = put_before(buffer, header, mark_bytes(head));
    put_before(buffer, mark, line_bytes(head.line_due))
}
