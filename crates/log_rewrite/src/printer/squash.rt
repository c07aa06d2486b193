//! `normalise` with squash: writes accepted changes of one document, one after another, as one
//! message.

ghost use Rattle.lsp_log.specs.Splitting.{record_of};
ghost use Rattle.std.specs.Prelude.{◌≡◌, ◌++◌, ◌⊎◌, [], IfErr, OnOk, None, Some};
ghost use Rattle.log_rewrite.specs.Normalise.{front_of};
ghost use Rattle.log_session.specs.inside.Printer.{state_in};
ghost use Rattle.log_session.specs.inside.Reads.{IsReadOf};
ghost use Rattle.log_session.specs.inside.RunOutput.{IsRecordFault};
ghost use Rattle.log_rewrite.specs.inside.Squash.{IsSquashStep, end_bytes, faulty, series_of, squash_view, step_at};

use crate::joining::{Joiner, Writing};
use crate::printer::front::{push_front, push_line};
use log_session::{
    Finished, Given, Output, Printed, Printer, RecordBody, Session, in_log, unless_refused,
};
use lsp_log::{Head, Record};
use lsp_store::Batches;
use lsp_stream::EngineFault;
use std::alloc::{AllocError, Global};
use std::marker::Model;

/// The bytes of a series of changes, beside the canonical message of its batches.
#[derive(Drop)]
struct Texts {
    // The bytes before its first record's frame.
    front: Vec<u8>,
    // Its records as they are written without squash.
    singles: Vec<u8>,
}

impl Texts {
    /// Starts with the record that begins a series, and its canonical frame.
    fn begin(&mut self, head: Head, frame: &[u8]) -> Result<(), AllocError>
        ensures front { OnOk result (self.new.front.items ≡ front_of head) }
        ensures singles { OnOk result (self.new.singles.items ≡ front_of head ++ frame.now) }
    {
        self.front.clear();
        push_front(&mut self.front, head)?;
        self.singles.clear();
        self.continue_with(head, frame)
    }

    /// Adds a record, with its canonical frame.
    fn continue_with(&mut self, head: Head, frame: &[u8]) -> Result<(), AllocError>
        ensures front { OnOk result (self.new.front.items ≡ self.old.front.items) }
        ensures singles { OnOk result (self.new.singles.items
            ≡ self.old.singles.items ++ (front_of head ++ frame.now)) }
    {
        push_front(&mut self.singles, head)?;
        self.singles.extend_from_slice(frame)
    }

    /// Writes the series that has ended, if there is one, as the one canonical message of its
    /// batches. If that has too many changes or is too long, the series is written as without
    /// squash.
    fn push_end(&self, output: &mut Vec<u8>, ended: &Option<Batches>) -> Result<(), AllocError>
        ensures { OnOk result (output.new.items ≡ output.old.items
            ++ end_bytes (series_of self.now.front.items self.now.singles.items ended.now)) }
    {
        let Some(batches) = ended else {
            return Ok(());
        };
        match unless_refused(batches.message())? {
            Some(frame) => {
                output.extend_from_slice(&self.front)?;
                output.extend_from_slice(&frame)
            }
            None => output.extend_from_slice(&self.singles),
        }
    }
}

/// Writes each record as it is, and each series of accepted changes of one document as one message,
/// once the series has ended.
#[derive(Drop)]
pub struct Squashing {
    session: Session,
    texts: Texts,
    // The batches of the open series, if there is one. They lead to the document that is open now.
    batches: Option<Batches>,
}

impl Model for Squashing {
    ghost use Rattle.log_rewrite.specs.inside.Squash as spec;
    ghost use Rattle.log_rewrite.specs.inside.Squash.{series_of};
    ghost use Rattle.log_rewrite.specs.inside.Joining.{MayBeOpenIn};

    ghost Value = { spec.Squashing };

    ghost view = { λ h. record {
      session = h.session;
      series = series_of h.texts.front.items h.texts.singles.items h.batches;
    } };

    ghost invariant = { λ h. MayBeOpenIn h.session.server h.batches };
}

impl Squashing {
    /// Starts before the first record of a session.
    pub fn new(alloc: Global, session: Session) -> Squashing
        ensures { result ≡ record { session = session; series = None } }
    {
        Squashing {
            session,
            texts: Texts {
                front: Vec::new(alloc),
                singles: Vec::new(alloc),
            },
            batches: None,
        }
    }

    /// Takes the record that was read. Writes it as it is, or joins it to the open series if it is
    /// an accepted change. A bad record, and a canonical body over the limit, end the run.
    fn write_read(
        &mut self,
        item: &Record<'_>,
        read: RecordBody<'_>,
        buffer: &mut Vec<u8>,
    ) -> Result<(), EngineFault>
        requires is_read { IsReadOf item.now.head item.now.body.now read }
        requires empty { buffer.old.items ≡ [] }
        ensures ok { OnOk result
            (IsSquashStep self.old (record_of item.now) buffer.new.items self.new) }
        ensures error { IfErr result
            (λ fault. (fault ≡ EngineFault.NoMemory) ⊎ (IsRecordFault fault
            × (step_at self.old (record_of item.now) ≡ faulty fault))) }
    {
        let mut joiner = Joiner::new(self.batches.take());
        let taken = self.session.take(read, &mut joiner)?;
        let head = item.head;
        in_log(&taken.verdict, head.place)?;
        let Joiner { batches, writing } = joiner;
        let Some(writing) = writing else {
            self.texts.push_end(buffer, &batches)?;
            push_front(buffer, head)?;
            buffer.extend_from_slice(item.raw)?;
            return Ok(());
        };
        match writing {
            Writing::TooLong => Err(EngineFault::BodyTooLong { place: head.place }),
            Writing::Continues(frame, batches) => {
                self.texts.continue_with(head, &frame)?;
                self.batches = Some(batches);
                Ok(())
            }
            Writing::Begins(frame, ended, batches) => {
                self.texts.push_end(buffer, &ended)?;
                self.texts.begin(head, &frame)?;
                self.batches = Some(batches);
                Ok(())
            }
        }
    }
}

impl Printer for Squashing {
    ghost state = { λ squashing. state_in squash_view squashing.series squashing.session };

    const NOTES: bool = false;

    fn session(&self) -> &Session {
        &self.session
    }

    #[tactic(auto, using(crate::proofs::Squash::PrintLemmas::step_ends, crate::proofs::Squash::PrintLemmas::step_writes))]
    fn print(&mut self, item: &Record<'_>, read: RecordBody<'_>, buffer: &mut Vec<u8>) -> Printed {
        self.write_read(item, read, buffer)?;
        Ok(Given::more(Output::Bytes))
    }

    fn finish(&mut self, line_due: bool, buffer: &mut Vec<u8>) -> Finished {
        self.texts.push_end(buffer, &self.batches)?;
        push_line(buffer, line_due)?;
        Ok(Some(self.session.outcome()))
    }
}
