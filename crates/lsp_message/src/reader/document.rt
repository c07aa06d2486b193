//! The object `textDocument`, which names a document.

ghost use Rattle.std.specs.Prelude.{◌≡◌, ◌<◌, length, option_map, Some, None, Err, IfOk, OnOk};
ghost use Rattle.serde_json.specs.Data.{Data, Members};
ghost use Rattle.serde_json.specs.Find.{as_object};
ghost use Rattle.lsp_message.specs.Params.{open_by, close_by};
ghost use Rattle.lsp_message.specs.Seen.{open_view, close_view};
ghost use Rattle.lsp_message.specs.inside.Reading.{value_at};
ghost use Rattle.lsp_message.specs.inside.Objects.{IsDocumentOf, IsDocumentIn};

use crate::params::{CloseParams, OpenParams};
use crate::reader::fault::{Fault, Read};
use crate::reader::object::{Kept, Object, read_object};
use crate::reader::scalar::read_scalar;
use crate::reader::skip::skip_value;
use json::Reader;
use std::alloc::{AllocError, Global};

/// What is kept of the members of `textDocument`.
#[derive(Clone, Copy, Drop)]
pub(crate) struct DocumentMembers<'a> {
    pub(crate) uri: Option<&'a str>,
    language: Option<&'a str>,
    pub(crate) version: Option<i32>,
    text: Option<&'a str>,
}

impl<'a> Kept<'a> for DocumentMembers<'a> {
    ghost IsOf = { IsDocumentOf };

    #[inline(always)]
    #[tactic(auto, using(crate::proofs::Puts::one_more_member))]
    fn read_member(&mut self, reader: &mut Reader<'a>, depth: usize, name: &str) -> Read<()> {
        match name {
            "uri" => self.uri = read_scalar(reader, depth)?.text(),
            "languageId" => self.language = read_scalar(reader, depth)?.text(),
            "version" => self.version = read_scalar(reader, depth)?.version(),
            "text" => self.text = read_scalar(reader, depth)?.text(),
            _ => skip_value(reader, depth)?,
        }
        Ok(())
    }
}

impl<'a> DocumentMembers<'a> {
    /// Returns the params of a `textDocument/didOpen` of this document; `None` where a member
    /// doesn't fit.
    pub(crate) fn open(self, alloc: Global) -> Result<Option<OpenParams>, AllocError>
        ensures { IfOk result (λ r. (ms : Members) → IsDocumentOf self.entry ms
            → option_map open_view r ≡ open_by ms) }
    {
        let (Some(uri), Some(language), Some(version), Some(text)) = (
            self.uri,
            self.language,
            self.version,
            self.text,
        ) else {
            return Ok(None);
        };
        let uri = String::from_str(alloc, uri)?;
        let language = String::from_str(alloc, language)?;
        let text = String::from_str(alloc, text)?;
        Ok(Some(OpenParams {
            uri,
            language,
            version,
            text,
        }))
    }

    /// Returns the params of a `textDocument/didClose` of this document; `None` where a member
    /// doesn't fit.
    pub(crate) fn close(self, alloc: Global) -> Result<Option<CloseParams>, AllocError>
        ensures { IfOk result (λ r. (ms : Members) → IsDocumentOf self.entry ms
            → option_map close_view r ≡ close_by ms) }
    {
        let Some(uri) = self.uri else {
            return Ok(None);
        };
        let uri = String::from_str(alloc, uri)?;
        Ok(Some(CloseParams { uri }))
    }
}

/// Reads a value as an object that names a document; `None` where it is no object.
pub(crate) fn read_document<'a>(
    reader: &mut Reader<'a>,
    depth: usize,
) -> Read<Option<DocumentMembers<'a>>>
    ensures ok { IfOk result (λ r. (d : Data) × (value_at depth reader.old ≡ Some (d, reader.new))
        × IsDocumentIn r (as_object d)) }
    ensures shorter { OnOk result (length reader.new < length reader.old) }
    ensures error { result ≡ Err Fault.NotJson → value_at depth reader.old ≡ None }
{
    let none = DocumentMembers {
        uri: None,
        language: None,
        version: None,
        text: None,
    };
    match read_object(none, reader, depth)? {
        Object::Of(kept) => Ok(Some(kept)),
        Object::Null | Object::Other => Ok(None),
    }
}
