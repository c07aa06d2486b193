//! `replay`: the documents that are open at the end of a log.

ghost use Rattle.std.specs.Prelude.{◌≡◌, ◌++◌, ◌-◌, OnOk, length};
ghost use Rattle.log_session.specs.Replay.{replaying_from, document_line};
ghost use Rattle.log_session.specs.inside.Printer.{state_in};

use crate::output::{Finished, Given, Output, Printed};
use crate::printer::Printer;
use crate::session::{RecordBody, Session};
use lsp_log::Record;
use lsp_message::push_document;
use lsp_store::Document;
use std::alloc::AllocError;

/// Writes a line for each document that is open at the end, in order of opening.
#[derive(Drop)]
pub struct Replay {
    pub session: Session,
    /// The index of the next document to be written.
    pub next: usize,
}

impl Printer for Replay {
    ghost state = { λ replay. state_in (replaying_from replay.next) tt replay.session };

    const NOTES: bool = false;

    ghost parts = { λ replay. length replay.session.server.table - replay.next };

    fn session(&self) -> &Session {
        &self.session
    }

    fn print(&mut self, item: &Record<'_>, read: RecordBody<'_>, _buffer: &mut Vec<u8>) -> Printed {
        self.session.accept(item.head, read)?;
        Ok(Given::more(Output::Bytes))
    }

    fn finish(&mut self, _line_due: bool, buffer: &mut Vec<u8>) -> Finished {
        let documents = self.session.server().store();
        if self.next >= documents.len() {
            return Ok(Some(self.session.outcome()));
        }
        let Some(document) = documents.at(self.next) else {
            return Ok(Some(self.session.outcome()));
        };
        push_document_line(buffer, &document)?;
        self.next += 1;
        Ok(None)
    }
}

/// Appends a document's line. A text that has been changed is joined first.
pub fn push_document_line(buffer: &mut Vec<u8>, document: &Document<'_>) -> Result<(), AllocError>
    ensures { OnOk result (buffer.new.items ≡ buffer.old.items ++ document_line document.now) }
{
    let text = document.text();
    match text.as_str() {
        Some(text) => push_line_of(buffer, document, text),
        None => {
            let joined = text.to_string(*buffer.allocator())?;
            push_line_of(buffer, document, &joined)
        }
    }
}

/// Appends the line of a document that has this text.
fn push_line_of(buffer: &mut Vec<u8>, document: &Document<'_>, text: &str) -> Result<(), AllocError>
    requires { text.now ≡ document.now.text }
    ensures { OnOk result (buffer.new.items ≡ buffer.old.items ++ document_line document.now) }
{
    push_document(
        buffer,
        document.uri(),
        document.language(),
        document.version(),
        text,
    )?;
    buffer.extend_from_slice(b"\n")?;
    Ok(())
}
