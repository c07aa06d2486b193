//! `compare`: whether a document's last text is that of a file, and else which message made it so.

ghost use Rattle.std.specs.Prelude.{◌≡◌, IfOk, None, OnOk, Some, option_map, string_bytes};
ghost use Rattle.lsp_store.specs.Table.{entry_at};
ghost use Rattle.log_report.specs.Compare.{closed_text, compared_outcome, comparing, comparison_equality, ended_if, if_ends_so, learned, splices_in, taken_if, open_text_of};
ghost use Rattle.log_report.specs.Lines.{uri_of};
ghost use Rattle.log_session.specs.Session.{session_outcome};
ghost use Rattle.log_session.specs.inside.Bodies.{body_view, on_client};
ghost use Rattle.log_session.specs.inside.Printer.{state_in};
ghost use Rattle.log_session.specs.inside.Verdicts.{verdict_view};

mod splices;

use crate::facts::asked::uri_of;
use crate::printer::compare::splices::splices_on;
use line_diff::{Comparison, Splice};
use log_session::{
    Finished, Given, Missing, Outcome, Output, Printed, Printer, RecordBody, Session, Verdict,
    copied_text,
};
use lsp_log::{Record, Sender};
use lsp_server::{Answer, Incoming};
use std::alloc::{AllocError, Global};

/// Writes at the end whether the document's text is the file's.
#[derive(Drop)]
pub struct Compare {
    pub session: Session,
    pub alloc: Global,
    pub comparison: Comparison,
}

impl Compare {
    /// Returns the document that a record is about, if its URI ends as that which is compared.
    fn uri_in(&self, read: &RecordBody<'_>) -> Result<Option<String>, AllocError>
        ensures { IfOk result (λ uri. option_map string_bytes uri
            ≡ on_client None (λ m. if_ends_so self.now.comparison.ending (uri_of Sender.Client m))
            (body_view read.now)) }
    {
        let RecordBody::Client(_, incoming, _) = read else {
            return Ok(None);
        };
        match uri_of(Sender::Client, incoming) {
            Some(uri) if self.comparison.is_of(uri) => copied_text(self.alloc, Some(uri)),
            _ => Ok(None),
        }
    }

    /// Returns which parts of its document a record replaces, if it is a change, and if the URI ends
    /// as that which is compared.
    fn splices_in(&self, read: &RecordBody<'_>) -> Result<Option<Vec<Splice>>, AllocError>
        ensures { IfOk result (λ splices. option_map (λ splices. splices.items) splices
            ≡ on_client None (splices_in self.now.comparison.ending self.now.session.server)
            (body_view read.now)) }
    {
        match read {
            RecordBody::Client(_, Incoming::DidChange(Some(params)), _)
                if self.comparison.is_of(&params.uri) => {
                let splices = splices_on(self.alloc, self.session.server(), params)?;
                Ok(Some(splices))
            }
            _ => Ok(None),
        }
    }

    /// Copies the text of a document, if it is open.
    fn open_text_of(&self, uri: &str) -> Result<Option<String>, AllocError>
        ensures { IfOk result (λ text. option_map string_bytes text
            ≡ open_text_of self.now.session.server (Some uri.now)) }
    {
        match self.session.server().store().get(uri) {
            Some(document) => Ok(Some(document.text().to_string(self.alloc)?)),
            None => Ok(None),
        }
    }

    /// Copies the text of the document, if it is open and a record closes it.
    fn closed_text(&self, read: &RecordBody<'_>) -> Result<Option<String>, AllocError>
        ensures { IfOk result (λ text. option_map string_bytes text
            ≡ on_client None (closed_text self.now.comparison.document self.now.session.server)
            (body_view read.now)) }
    {
        match read {
            RecordBody::Client(_, Incoming::DidClose(Some(params)), _)
                if self.comparison.is_followed(&params.uri) => self.open_text_of(&params.uri),
            _ => Ok(None),
        }
    }

    /// Takes what a record with this verdict has made of a document. `text` is what it closes.
    fn learn(
        &mut self,
        uri: Option<&str>,
        splices: Option<&[Splice]>,
        text: Option<String>,
        verdict: &Verdict,
    ) -> Result<(), AllocError>
        ensures session { OnOk result (self.new.session ≡ self.old.session) }
        ensures comparison { OnOk result (self.new.comparison
            ≡ learned (option_map string_bytes text)
            (option_map (λ splices. splices.now) splices.entry)
            (option_map (λ uri. uri.now) uri.entry) (verdict_view verdict.now)
            self.old.session self.old.comparison) }
    {
        match (uri, verdict) {
            (Some(uri), Verdict::Answered(Answer::Changed)) => self.take(uri, splices, text),
            (Some(uri), Verdict::Answered(Answer::Refused(refusal))) => {
                let number = self.session.records();
                self.comparison
                    .refuse(self.alloc, number, uri, refusal.code())
            }
            _ => Ok(()),
        }
    }

    /// Takes the text of a document that the last record has opened, or changed by splices; or of
    /// one that it has closed, its last text, if that is given.
    fn take(
        &mut self,
        uri: &str,
        splices: Option<&[Splice]>,
        text: Option<String>,
    ) -> Result<(), AllocError>
        ensures session { OnOk result (self.new.session ≡ self.old.session) }
        ensures comparison { OnOk result (self.new.comparison
            ≡ taken_if (option_map string_bytes text)
            (option_map (λ splices. splices.now) splices.entry) self.old.session.records uri.now
            (entry_at self.old.session.server.table uri.now) self.old.comparison) }
    {
        let number = self.session.records();
        let Some(document) = self.session.server().store().get(uri) else {
            self.end_with(text);
            return Ok(());
        };
        let len = document.text().len();
        self.comparison.take(self.alloc, number, uri, len, splices)
    }

    /// Takes the document's last text, if it is given.
    fn end_with(&mut self, text: Option<String>)
        ensures session { self.new.session ≡ self.old.session }
        ensures comparison { self.new.comparison
            ≡ ended_if (option_map string_bytes text) self.old.comparison }
    {
        let Some(text) = text else {
            return;
        };
        self.comparison.end(text);
    }

    /// Copies the text of the document, if it is still open.
    fn open_text(&self) -> Result<Option<String>, AllocError>
        ensures { IfOk result (λ text. option_map string_bytes text
            ≡ open_text_of self.now.session.server
            (option_map (λ d. d.uri) self.now.comparison.document)) }
    {
        match self.comparison.uri() {
            Some(uri) => self.open_text_of(uri),
            None => Ok(None),
        }
    }

    /// Returns the outcome at the end.
    fn outcome(&self) -> Outcome
        ensures { result ≡ compared_outcome (comparison_equality self.now.comparison)
            (session_outcome self.now.session) }
    {
        let outcome = self.session.outcome();
        match self.comparison.is_equal() {
            Some(equal) => Outcome {
                status: if equal { 0 } else { 1 },
                ..outcome
            },
            None => Outcome {
                status: 1,
                missing: Some(Missing::Document),
                ..outcome
            },
        }
    }
}

impl Printer for Compare {
    ghost state = { λ compare. state_in comparing compare.comparison compare.session };

    const NOTES: bool = false;

    fn session(&self) -> &Session {
        &self.session
    }

    fn print(&mut self, item: &Record<'_>, read: RecordBody<'_>, _buffer: &mut Vec<u8>) -> Printed {
        let uri = self.uri_in(&read)?;
        let splices = self.splices_in(&read)?;
        let text = self.closed_text(&read)?;
        let verdict = self.session.accept(item.head, read)?;
        self.learn(uri.as_deref(), splices.as_deref(), text, &verdict)?;
        Ok(Given::more(Output::Bytes))
    }

    fn finish(&mut self, _line_due: bool, buffer: &mut Vec<u8>) -> Finished {
        let text = self.open_text()?;
        self.end_with(text);
        self.comparison.push_report(self.alloc, buffer)?;
        Ok(Some(self.outcome()))
    }
}
