//! One change of a `textDocument/didChange`.

ghost use Rattle.std.specs.Prelude.{◌≡◌, ◌<◌, length, option_map, Some, None, Err, IfOk, OnOk};
ghost use Rattle.serde_json.specs.Data.{Data, object, Members};
ghost use Rattle.lsp_message.specs.Params.{content_change_in};
ghost use Rattle.lsp_message.specs.Seen.{content_change_view};
ghost use Rattle.lsp_message.specs.inside.Reading.{value_at};
ghost use Rattle.lsp_message.specs.inside.Objects.{IsChangeOf};

use crate::reader::fault::{Fault, Read};
use crate::reader::object::{Kept, Object, read_object};
use crate::reader::range::read_range;
use crate::reader::scalar::read_scalar;
use crate::reader::skip::skip_value;
use json::Reader;
use lsp_edit::Change;
use lsp_text::Range;
use std::alloc::{AllocError, Global};

/// What is kept of the members of a change.
#[derive(Clone, Copy, Drop)]
pub(crate) struct ChangeMembers<'a> {
    text: Option<&'a str>,
    range: Option<Option<Range>>,
}

impl<'a> Kept<'a> for ChangeMembers<'a> {
    ghost IsOf = { IsChangeOf };

    #[inline(always)]
    #[tactic(auto, using(crate::proofs::Puts::one_more_member))]
    fn read_member(&mut self, reader: &mut Reader<'a>, depth: usize, name: &str) -> Read<()> {
        match name {
            "text" => self.text = read_scalar(reader, depth)?.text(),
            "range" => self.range = read_range(reader, depth)?,
            _ => skip_value(reader, depth)?,
        }
        Ok(())
    }
}

impl<'a> ChangeMembers<'a> {
    #[inline(always)]
    fn change(self, alloc: Global) -> Result<Option<Change>, AllocError>
        ensures { IfOk result (λ r. (ms : Members) → IsChangeOf self.entry ms
            → option_map content_change_view r ≡ content_change_in (object ms)) }
    {
        let (Some(text), Some(range)) = (self.text, self.range) else {
            return Ok(None);
        };
        let text = String::from_str(alloc, text)?;
        Ok(Some(Change { range, text }))
    }
}

/// Reads a value as a change; `None` where it is none.
pub(crate) fn read_change(
    alloc: Global,
    reader: &mut Reader<'_>,
    depth: usize,
) -> Read<Option<Change>>
    ensures ok { IfOk result (λ c. (d : Data) × (value_at depth reader.old ≡ Some (d, reader.new))
        × (option_map content_change_view c ≡ content_change_in d)) }
    ensures shorter { OnOk result (length reader.new < length reader.old) }
    ensures error { result ≡ Err Fault.NotJson → value_at depth reader.old ≡ None }
{
    let none = ChangeMembers {
        text: None,
        range: Some(None),
    };
    match read_object(none, reader, depth)? {
        Object::Of(kept) => Ok(kept.change(alloc)?),
        Object::Null | Object::Other => Ok(None),
    }
}
