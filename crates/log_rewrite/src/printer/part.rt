//! `replay` of a part of a log: the documents after a record, or the last text of one document.

ghost use Rattle.std.specs.Prelude.{◌≡◌, ◌++◌, IfOk, OnOk};
ghost use Rattle.log_session.specs.Session.{session_outcome};
ghost use Rattle.log_session.specs.Replay.{report_from};
ghost use Rattle.log_rewrite.specs.Part.{is_last, part_bytes, part_data, part_outcome, replaying_part, text_found};
ghost use Rattle.log_session.specs.inside.Printer.{state_in};
ghost use Rattle.log_rewrite.specs.inside.Part.{found_now};

pub(crate) mod chosen;

use crate::commands::part::Part;
use crate::printer::part::chosen::Chosen;
use log_session::{
    Finished, Given, Missing, Outcome, Output, Printed, Printer, RecordBody, Session, opened_if,
    opened_uri, push_document_line,
};
use lsp_log::Record;
use lsp_store::Store;
use std::alloc::{AllocError, Global};

/// Writes the documents after the part's last record, or the last text of one.
#[derive(Drop)]
pub struct ReplayPart {
    pub session: Session,
    pub part: Part,
    pub chosen: Chosen,
    pub alloc: Global,
}

impl ReplayPart {
    /// Returns whether the last record was the part's last one.
    fn is_last(&self) -> bool
        ensures { result ≡ is_last self.now.part.at self.now.session.records }
    {
        match self.part.at {
            Some(at) => at == self.session.records(),
            None => false,
        }
    }

    /// Writes what is printed of the part, and returns the outcome.
    fn push_report(&self, buffer: &mut Vec<u8>) -> Result<Outcome, AllocError>
        ensures bytes { OnOk result (buffer.new.items ≡ buffer.old.items
            ++ part_bytes (part_data self.now.part).uri (text_found (found_now self.now))
            self.now.session.server.table) }
        ensures outcome { IfOk result (λ outcome. outcome
            ≡ part_outcome (part_data self.now.part).uri (text_found (found_now self.now))
            (session_outcome self.now.session)) }
    {
        let outcome = self.session.outcome();
        let documents = self.session.server().store();
        let Some(_) = &self.part.uri else {
            push_documents(buffer, documents)?;
            return Ok(outcome);
        };
        let Some(text) = self.chosen.text(self.alloc, documents)? else {
            return Ok(Outcome {
                status: 1,
                missing: Some(Missing::Document),
                ..outcome
            });
        };
        buffer.extend_from_slice(text.as_bytes())?;
        Ok(outcome)
    }
}

impl Printer for ReplayPart {
    ghost state = { λ replay.
        state_in (replaying_part (part_data replay.part)) (found_now replay) replay.session };

    const NOTES: bool = false;

    fn session(&self) -> &Session {
        &self.session
    }

    fn print(&mut self, item: &Record<'_>, read: RecordBody<'_>, buffer: &mut Vec<u8>) -> Printed {
        let found = self.chosen.uri();
        let closed = self.session.closed_text(&read, found)?;
        let uri = opened_uri(self.alloc, &read)?;
        let verdict = self.session.accept(item.head, read)?;
        let opened = opened_if(&verdict, uri);
        self.chosen.keep(closed);
        self.chosen.take(self.part.uri.as_deref(), opened);
        if !self.is_last() {
            return Ok(Given::more(Output::Bytes));
        }
        let outcome = self.push_report(buffer)?;
        Ok(Given {
            output: Output::Bytes,
            end: Some(outcome),
        })
    }

    fn finish(&mut self, _line_due: bool, buffer: &mut Vec<u8>) -> Finished {
        if self.part.at.is_some() {
            return Ok(Some(Outcome {
                status: 1,
                missing: Some(Missing::Record),
                ..self.session.outcome()
            }));
        }
        Ok(Some(self.push_report(buffer)?))
    }
}

/// Writes a line for each open document, in order of opening.
fn push_documents(buffer: &mut Vec<u8>, documents: &Store) -> Result<(), AllocError>
    ensures { OnOk result
        (buffer.new.items ≡ buffer.old.items ++ report_from 0 documents.now.table) }
{
    let mut next = 0;
    'documents: while next < documents.len() {
        let Some(document) = documents.at(next) else {
            return Ok(());
        };
        push_document_line(buffer, &document)?;
        next += 1;
    }
    Ok(())
}
