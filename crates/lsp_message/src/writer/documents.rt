//! The messages on open documents.

ghost use Rattle.lsp_message.specs.Written as values;
ghost use Rattle.lsp_message.specs.Seen.{content_change_view, did_change_of};

use crate::writer::lifecycle::write_notification;
use crate::writer::object::{Member, Object};
use crate::writer::value::WriteValue;
use json::Writer;
use lsp_edit::Change;
use lsp_text::{Position, Range};
use std::alloc::AllocError;

/// A `TextDocumentItem`, whose texts are borrowed.
#[derive(Clone, Copy, Drop)]
pub(crate) struct TextDocumentItem<'a> {
    pub(crate) uri: &'a str,
    pub(crate) language: &'a str,
    pub(crate) version: i32,
    pub(crate) text: &'a str,
}

impl<'a> WriteValue for TextDocumentItem<'a> {
    ghost value = { λ item. values.opened_document (record {
      uri = item.uri.now;
      language = item.language.now;
      version = item.version;
      text = item.text.now;
    }) };

    fn write(&self, writer: &mut Writer) -> Result<(), AllocError> {
        let texts = (
            Member("languageId", self.language),
            Member("text", self.text),
        );
        let versioned = (Member("uri", self.uri), Member("version", self.version));
        Object((texts, versioned)).write(writer)
    }
}

/// A `textDocument/didChange`, whose URI and changes are borrowed.
#[derive(Clone, Copy, Drop)]
pub(crate) struct DidChange<'a> {
    pub(crate) uri: &'a str,
    pub(crate) version: i32,
    pub(crate) changes: &'a [Change],
}

impl<'a> WriteValue for DidChange<'a> {
    ghost value = { λ message.
        values.value_of (did_change_of message.uri.now message.version message.changes.now) };

    fn write(&self, writer: &mut Writer) -> Result<(), AllocError> {
        let document = Object((Member("uri", self.uri), Member("version", self.version)));
        let params = Object((
            Member("contentChanges", self.changes),
            Member("textDocument", document),
        ));
        write_notification(writer, "textDocument/didChange", params)
    }
}

impl WriteValue for Change {
    ghost value = { λ change. values.content_change_value (content_change_view change) };

    fn write(&self, writer: &mut Writer) -> Result<(), AllocError> {
        let text = Member("text", self.text.as_str());
        match self.range {
            Some(range) => Object((Member("range", range), text)).write(writer),
            None => Object(text).write(writer),
        }
    }
}

impl WriteValue for Range {
    ghost value = { values.range_value };

    fn write(&self, writer: &mut Writer) -> Result<(), AllocError> {
        Object((Member("end", self.stop), Member("start", self.start))).write(writer)
    }
}

impl WriteValue for Position {
    ghost value = { values.position_value };

    fn write(&self, writer: &mut Writer) -> Result<(), AllocError> {
        Object((
            Member("character", self.character),
            Member("line", self.line),
        ))
        .write(writer)
    }
}
