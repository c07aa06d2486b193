//! `trace`: a line of JSON for each record of a log.
//!
//! `first` writes the members that say what a record is, `values` the others.

ghost use Rattle.std.specs.Prelude.{◌≡◌, ◌++◌, ◌&&◌, IfOk, OnOk, codes, decimal, option_map, string_bytes, true};
ghost use Rattle.lsp_message.specs.Message.{reading};
ghost use Rattle.lsp_message.specs.Seen.{change_view};
ghost use Rattle.lsp_server.specs.Incoming.{incoming_of};
ghost use Rattle.lsp_stream.specs.Ports as ports;
ghost use Rattle.log_session.specs.inside.Printer.{state_in};
ghost use Rattle.log_report.specs.inside.Facts.{canonical_json, facts_view};
ghost use Rattle.log_session.specs.inside.Reads.{IsReadOf};
ghost use Rattle.log_session.specs.inside.Verdicts.{verdict_view};
ghost use Rattle.log_session.specs.Settings.{log_config};
ghost use Rattle.log_report.specs.Lines.{lines, nothing_known};
ghost use Rattle.log_session.specs.Session.{has_changed, opened};
ghost use Rattle.log_report.specs.Trace.{document_after, facts_members, first_members, is_json, member, notes_json, reason_json, tracing};

mod first;
mod values;

use crate::commands::trace::Details;
use crate::facts::{Facts, Known};
use crate::members::{push_number, push_words};
use crate::notes::Note;
use crate::notes::saved::document_of;
use crate::printer::noted::push_notes;
use crate::printer::reasons::{push_hint, push_reason};
use crate::printer::trace::first::{is_json, push_first};
use crate::printer::trace::values::{
    push_body, push_canonical, push_text, push_version, push_word,
};
use log_session::{
    Canonical, Finished, Given, Output, Printed, Printer, RecordBody, Session, Settings, Verdict,
    has_changed, is_refused, one_more,
};
use lsp_frame::Limits;
use lsp_log::{Head, Record};
use std::alloc::{AllocError, Global};

/// Writes a line for each record.
#[derive(Drop)]
pub struct Trace {
    pub session: Session,
    pub alloc: Global,
    pub details: Details,
    pub known: Known,
    /// The canonical message of the last record, if it was an accepted change.
    pub canonical: Canonical,
}

impl Trace {
    /// Starts before the first record.
    pub fn new(alloc: Global, settings: Settings, details: Details) -> Trace
        ensures session { result.session ≡ opened (log_config settings) }
        ensures known { result.known ≡ nothing_known }
        ensures details { result.details ≡ details }
    {
        Trace {
            session: settings.session(alloc),
            alloc,
            details,
            known: Known::nothing(alloc),
            canonical: Canonical::new(alloc),
        }
    }

    /// Writes the first members of the next record's line, and returns whether its body is JSON.
    /// The body of a server's record is read for that.
    fn push_asked(
        &mut self,
        buffer: &mut Vec<u8>,
        head: Head,
        body: &[u8],
        read: &RecordBody<'_>,
    ) -> Result<bool, AllocError>
        requires { IsReadOf head body.now read.now }
        ensures members { OnOk result (buffer.new.items ≡ buffer.old.items
            ++ first_members (ports.one_more self.old.session.records) head
            (incoming_of (reading body.now))) }
        ensures is_json { IfOk result (λ json. json ≡ is_json (incoming_of (reading body.now))) }
        ensures unchanged { self.new ≡ self.old }
    {
        let number = one_more(self.session.records());
        match read {
            RecordBody::Client(_, incoming, _) => {
                push_first(self.alloc, buffer, number, head, incoming)?;
                Ok(is_json(incoming))
            }
            RecordBody::Server(bytes) => {
                let incoming = self.session.read_incoming(bytes)?;
                push_first(self.alloc, buffer, number, head, &incoming)?;
                Ok(is_json(&incoming))
            }
        }
    }

    /// Writes the members after the first of the last record's line.
    fn push_facts(
        &self,
        buffer: &mut Vec<u8>,
        body: &[u8],
        is_json: bool,
        facts: &Facts,
    ) -> Result<(), AllocError>
        ensures { OnOk result (buffer.new.items ≡ buffer.old.items
            ++ facts_members self.now.details self.now.session.server.config.limits
            (facts_view facts.now)
            (document_after self.now.session.server.table (option_map string_bytes facts.now.uri))
            (canonical_json self.now.canonical.appended self.now.canonical.bytes.items) is_json
            body.now) }
    {
        let store = self.session.server().store();
        let document = document_of(store, facts.uri.as_deref());
        let has_text = self.has_text(&facts.verdict);
        let has_body = self.has_body(is_json);
        push_word(buffer, &facts.verdict)?;
        push_why(buffer, store.limits(), facts)?;
        push_mention(buffer, facts.last)?;
        push_noted(buffer, &facts.notes)?;
        push_version(buffer, &document)?;
        push_canonical(buffer, self.canonical.appended, &self.canonical.bytes)?;
        push_text(self.alloc, buffer, has_text, &document)?;
        push_body(buffer, has_body, body)?;
        push_words(buffer, "}\n")
    }

    /// Returns whether the last record's line has the document's text, if the document is open.
    fn has_text(&self, verdict: &Verdict) -> bool
        ensures { result
            ≡ (self.now.details.texts && has_changed (verdict_view verdict.now)) }
    {
        self.details.texts && has_changed(verdict)
    }

    /// Returns whether the last record's line has its body.
    fn has_body(&self, is_json: bool) -> bool
        ensures { result ≡ (self.now.details.bodies && is_json) }
    {
        self.details.bodies && is_json
    }
}

impl Printer for Trace {
    ghost state = { λ trace.
        state_in (lines (tracing trace.details)) trace.known trace.session };

    ghost NOTES = { true };

    const NOTES: bool = true;

    fn session(&self) -> &Session {
        &self.session
    }

    fn print(&mut self, item: &Record<'_>, read: RecordBody<'_>, buffer: &mut Vec<u8>) -> Printed {
        let is_json = self.push_asked(buffer, item.head, item.body, &read)?;
        self.canonical.clear(0)?;
        let facts = self
            .known
            .take(&mut self.session, item, read, &mut self.canonical)?;
        self.push_facts(buffer, item.body, is_json, &facts)?;
        Ok(Given::more(Output::Bytes))
    }

    fn finish(&mut self, _line_due: bool, _buffer: &mut Vec<u8>) -> Finished {
        Ok(Some(self.session.outcome()))
    }
}

/// Writes why a record was refused, if it was.
fn push_why(buffer: &mut Vec<u8>, limits: Limits, facts: &Facts) -> Result<(), AllocError>
    ensures { OnOk result (buffer.new.items ≡ buffer.old.items
        ++ member (codes ",\"reason\":") (reason_json limits
        (option_map change_view facts.now.change) facts.now.hint
        (verdict_view facts.now.verdict))) }
{
    let Verdict::Answered(answer) = &facts.verdict else {
        return Ok(());
    };
    if !is_refused(answer) {
        return Ok(());
    }
    buffer.extend_from_slice(b",\"reason\":")?;
    buffer.extend_from_slice(b"\"")?;
    push_reason(buffer, limits, facts.change.as_ref(), answer)?;
    push_hint(buffer, facts.hint)?;
    buffer.extend_from_slice(b"\"")
}

/// Writes which record to look at, if there is one.
fn push_mention(buffer: &mut Vec<u8>, last: Option<u64>) -> Result<(), AllocError>
    ensures { OnOk result (buffer.new.items ≡ buffer.old.items
        ++ member (codes ",\"last\":") (option_map decimal last)) }
{
    let Some(number) = last else {
        return Ok(());
    };
    buffer.extend_from_slice(b",\"last\":")?;
    push_number(buffer, number)
}

/// Writes what is suspicious of a record, if there is something.
fn push_noted(buffer: &mut Vec<u8>, notes: &[Note]) -> Result<(), AllocError>
    ensures { OnOk result (buffer.new.items ≡ buffer.old.items
        ++ member (codes ",\"notes\":") (notes_json notes.now)) }
{
    if notes.is_empty() {
        return Ok(());
    }
    buffer.extend_from_slice(b",\"notes\":")?;
    buffer.extend_from_slice(b"[\"")?;
    push_notes(buffer, "\",\"", notes)?;
    buffer.extend_from_slice(b"\"]")
}
