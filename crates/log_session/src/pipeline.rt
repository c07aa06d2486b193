//! From a record's bytes to a command's output: the body is read once, a record that doesn't stay
//! is left out, and any other is printed.

ghost use Rattle.std.specs.Prelude.{◌≡◌, [], ℕ, IfErr, IfOk, List};
ghost use Rattle.lsp_log.specs.Splitting.{record_of};
ghost use Rattle.log_session.specs.inside.Piped.{IsAdmitted, pipe_output};
ghost use Rattle.log_session.specs.inside.Reads.{IsReadOf};
ghost use Rattle.log_session.specs.inside.RunOutput.{IsFaultAt, IsGiven, IsLastPart};

use crate::output::{Finished, Given, Output, Printed};
use crate::printer::Printer;
use crate::session::RecordBody;
use crate::session::selecting::Selection;
use lsp_log::{Head, Record};
use lsp_message::Scratch;
use lsp_stream::EngineFault;
use std::alloc::{AllocError, Global};

/// A command over the records of a log, all of them or a selection.
#[derive(Drop)]
pub struct Pipeline<P> {
    pub printer: P,
    /// What is known of the records that stay, if some are left out.
    pub selection: Option<Selection>,
    // Bodies are read with it; clauses don't see it.
    scratch: Scratch,
    alloc: Global,
}

impl<P: Printer> Pipeline<P> {
    /// Starts before the first record.
    pub fn new(alloc: Global, printer: P, selection: Option<Selection>) -> Pipeline<P>
        ensures printer { result.printer ≡ printer }
        ensures selection { result.selection ≡ selection }
    {
        Pipeline {
            printer,
            selection,
            scratch: Scratch::new(alloc),
            alloc,
        }
    }

    /// Returns the head under which the record that was read is written, or `None` if the record is
    /// left out.
    fn admit(&mut self, head: Head, read: &RecordBody<'_>) -> Result<Option<Head>, AllocError>
        ensures admitted { IfOk result (λ written. (body : List ℕ) → IsReadOf head body read.now
            → IsAdmitted (P.state self.old.printer).session self.old.selection self.new.selection
            head body written) }
        ensures printer { self.new.printer ≡ self.old.printer }
    {
        match &mut self.selection {
            Some(selection) => selection.select(self.printer.session(), head, read),
            None => Ok(Some(head)),
        }
    }

    /// Handles a complete record. Its output is its frame, or is written into `buffer`, which is
    /// empty before.
    pub fn handle(&mut self, item: &Record<'_>, buffer: &mut Vec<u8>) -> Printed
        requires empty { buffer.old.items ≡ [] }
        ensures ok { IfOk result (IsGiven (pipe_output self.old.selection (P.state self.old.printer))
            (pipe_output self.new.selection (P.state self.new.printer)) (record_of item.now)
            buffer.new.items) }
        ensures error { IfErr result (IsFaultAt
            (pipe_output self.old.selection (P.state self.old.printer)) (record_of item.now)) }
    {
        let read = RecordBody::read(
            self.alloc,
            item.head,
            item.body,
            &mut self.scratch,
            P::NOTES,
        )?;
        let Some(head) = self.admit(item.head, &read)? else {
            return Ok(Given::more(Output::Bytes));
        };
        let item = Record { head, ..*item };
        self.printer.print(&item, read, buffer)
    }

    /// Writes a part of the output at the end of the input into `buffer`; with the last part it
    /// returns the outcome. `line_due` says whether it is the first part, and the input a log of
    /// version 2 without records.
    pub fn finish(&mut self, line_due: bool, buffer: &mut Vec<u8>) -> Finished
        requires { buffer.old.items ≡ [] }
        ensures ok { IfOk result
            (IsLastPart (pipe_output self.old.selection (P.state self.old.printer) [])
            (pipe_output self.new.selection (P.state self.new.printer) [])
            (P.parts self.old.printer) (P.parts self.new.printer) line_due buffer.new.items) }
        ensures error { IfErr result (λ fault. fault ≡ EngineFault.NoMemory) }
    {
        let Some(selection) = &mut self.selection else {
            return self.printer.finish(line_due, buffer);
        };
        let due = selection.take_due(line_due);
        self.printer.finish(due, buffer)
    }
}
