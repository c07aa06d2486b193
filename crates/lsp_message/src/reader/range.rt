//! The range of a change.

ghost use Rattle.std.specs.Prelude.{◌≡◌, ◌<◌, length, Some, None, Err, IfOk, OnOk};
ghost use Rattle.serde_json.specs.Data.{Data, object, Members};
ghost use Rattle.lsp_message.specs.Params.{range_of};
ghost use Rattle.lsp_message.specs.inside.Reading.{value_at};
ghost use Rattle.lsp_message.specs.inside.Objects.{IsRangeOf};

use crate::reader::fault::{Fault, Read};
use crate::reader::object::{Kept, Object, read_object};
use crate::reader::position::read_position;
use crate::reader::skip::skip_value;
use json::Reader;
use lsp_text::{Position, Range};

/// What is kept of the members of a range.
#[derive(Clone, Copy, Drop)]
pub(crate) struct RangeMembers {
    start: Option<Position>,
    stop: Option<Position>,
}

impl<'a> Kept<'a> for RangeMembers {
    ghost IsOf = { IsRangeOf };

    #[inline(always)]
    #[tactic(auto, using(crate::proofs::Puts::one_more_member))]
    fn read_member(&mut self, reader: &mut Reader<'a>, depth: usize, name: &str) -> Read<()> {
        match name {
            "start" => self.start = read_position(reader, depth)?,
            "end" => self.stop = read_position(reader, depth)?,
            _ => skip_value(reader, depth)?,
        }
        Ok(())
    }
}

impl RangeMembers {
    #[inline(always)]
    fn range(self) -> Option<Option<Range>>
        ensures { (ms : Members) → IsRangeOf self ms → result ≡ range_of (Some (object ms)) }
    {
        let start = self.start?;
        let stop = self.stop?;
        Some(Some(Range { start, stop }))
    }
}

/// Reads a value as a range: `Some(None)` where it is null, which means the whole text; `None`
/// where it is neither.
pub(crate) fn read_range(reader: &mut Reader<'_>, depth: usize) -> Read<Option<Option<Range>>>
    ensures ok { IfOk result (λ r. (d : Data) × (value_at depth reader.old ≡ Some (d, reader.new))
        × (r ≡ range_of (Some d))) }
    ensures shorter { OnOk result (length reader.new < length reader.old) }
    ensures error { result ≡ Err Fault.NotJson → value_at depth reader.old ≡ None }
{
    let none = RangeMembers {
        start: None,
        stop: None,
    };
    match read_object(none, reader, depth)? {
        Object::Of(kept) => Ok(kept.range()),
        Object::Null => Ok(Some(None)),
        Object::Other => Ok(None),
    }
}
