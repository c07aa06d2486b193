//! The params of a message, as far as the document messages need them.
//!
//! Params are read before the method is known.

ghost use Rattle.std.specs.Prelude.{◌≡◌, ◌<◌, length, option_map, Option, Some, None, Err, IfOk, OnOk};
ghost use Rattle.serde_json.specs.Data.{Data};
ghost use Rattle.lsp_message.specs.Params.{open_of, change_of, close_of};
ghost use Rattle.lsp_message.specs.Seen.{open_view, change_view, close_view};
ghost use Rattle.lsp_message.specs.inside.Reading.{value_at};
ghost use Rattle.lsp_message.specs.inside.Objects.{IsParamsOf, AreParamsMembers};

use crate::params::{ChangeParams, CloseParams, OpenParams};
use crate::reader::changes::read_changes;
use crate::reader::document::{DocumentMembers, read_document};
use crate::reader::fault::{Fault, Read};
use crate::reader::object::{Kept, Object, read_object};
use crate::reader::skip::skip_value;
use json::Reader;
use lsp_edit::Change;
use std::alloc::{AllocError, Global};

/// What is kept of the params of a message. They are read without the method, which may come after
/// them.
#[derive(Drop)]
pub(crate) struct ParamsMembers<'a> {
    alloc: Global,
    document: Option<DocumentMembers<'a>>,
    /// The changes; `None` where there is no array of them.
    changes: Option<Vec<Change>>,
}

impl<'a> Kept<'a> for ParamsMembers<'a> {
    ghost IsOf = { AreParamsMembers };

    #[inline(always)]
    #[tactic(auto, using(crate::proofs::Puts::one_more_member))]
    fn read_member(&mut self, reader: &mut Reader<'a>, depth: usize, name: &str) -> Read<()> {
        match name {
            "textDocument" => self.document = read_document(reader, depth)?,
            "contentChanges" => self.changes = read_changes(self.alloc, reader, depth)?,
            _ => skip_value(reader, depth)?,
        }
        Ok(())
    }
}

impl<'a> ParamsMembers<'a> {
    /// Returns what is kept of params that are missing.
    pub(crate) fn none(alloc: Global) -> Self
        ensures { IsParamsOf result None }
    {
        ParamsMembers {
            alloc,
            document: None,
            changes: None,
        }
    }

    /// Returns the params of a `textDocument/didOpen`; `None` where they don't fit.
    pub(crate) fn open(self) -> Result<Option<OpenParams>, AllocError>
        ensures { IfOk result (λ r. (v : Option Data) → IsParamsOf self.entry v
            → option_map open_view r ≡ open_of v) }
    {
        match self.document {
            Some(document) => document.open(self.alloc),
            None => Ok(None),
        }
    }

    /// Returns the params of a `textDocument/didClose`; `None` where they don't fit.
    pub(crate) fn close(self) -> Result<Option<CloseParams>, AllocError>
        ensures { IfOk result (λ r. (v : Option Data) → IsParamsOf self.entry v
            → option_map close_view r ≡ close_of v) }
    {
        match self.document {
            Some(document) => document.close(self.alloc),
            None => Ok(None),
        }
    }

    /// Returns the params of a `textDocument/didChange`; `None` where they don't fit.
    pub(crate) fn change(self) -> Result<Option<ChangeParams>, AllocError>
        ensures { IfOk result (λ r. (v : Option Data) → IsParamsOf self.entry v
            → option_map change_view r ≡ change_of v) }
    {
        let ParamsMembers {
            alloc,
            document,
            changes,
        } = self;
        let Some(document) = document else {
            return Ok(None);
        };
        let Some(changes) = changes else {
            return Ok(None);
        };
        let (Some(uri), Some(version)) = (document.uri, document.version) else {
            return Ok(None);
        };
        let uri = String::from_str(alloc, uri)?;
        Ok(Some(ChangeParams {
            uri,
            version,
            changes,
        }))
    }
}

/// Reads the value of a member `params`.
pub(crate) fn read_params<'a>(
    alloc: Global,
    reader: &mut Reader<'a>,
    depth: usize,
) -> Read<ParamsMembers<'a>>
    ensures ok { IfOk result (λ kept. (d : Data)
        × (value_at depth reader.old ≡ Some (d, reader.new)) × IsParamsOf kept (Some d)) }
    ensures shorter { OnOk result (length reader.new < length reader.old) }
    ensures error { result ≡ Err Fault.NotJson → value_at depth reader.old ≡ None }
{
    match read_object(ParamsMembers::none(alloc), reader, depth)? {
        Object::Of(kept) => Ok(kept),
        Object::Null | Object::Other => Ok(ParamsMembers::none(alloc)),
    }
}
