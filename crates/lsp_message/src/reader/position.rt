//! A position of a text.

ghost use Rattle.std.specs.Prelude.{◌≡◌, ◌<◌, length, Some, None, Err, IfOk, OnOk};
ghost use Rattle.serde_json.specs.Data.{Data, object, Members};
ghost use Rattle.lsp_message.specs.Params.{position_in};
ghost use Rattle.lsp_message.specs.inside.Reading.{value_at};
ghost use Rattle.lsp_message.specs.inside.Objects.{IsPositionOf};

use crate::reader::fault::{Fault, Read};
use crate::reader::object::{Kept, Object, read_object};
use crate::reader::scalar::read_scalar;
use crate::reader::skip::skip_value;
use json::Reader;
use lsp_text::Position;

/// What is kept of the members of a position.
#[derive(Clone, Copy, Drop)]
pub(crate) struct PositionMembers {
    line: Option<u32>,
    character: Option<u32>,
}

impl<'a> Kept<'a> for PositionMembers {
    ghost IsOf = { IsPositionOf };

    #[inline(always)]
    #[tactic(auto, using(crate::proofs::Puts::one_more_member))]
    fn read_member(&mut self, reader: &mut Reader<'a>, depth: usize, name: &str) -> Read<()> {
        match name {
            "line" => self.line = read_scalar(reader, depth)?.coordinate(),
            "character" => self.character = read_scalar(reader, depth)?.coordinate(),
            _ => skip_value(reader, depth)?,
        }
        Ok(())
    }
}

impl PositionMembers {
    #[inline(always)]
    fn position(self) -> Option<Position>
        ensures { (ms : Members) → IsPositionOf self ms → result ≡ position_in (Some (object ms)) }
    {
        let line = self.line?;
        let character = self.character?;
        Some(Position { line, character })
    }
}

/// Reads a value as a position; `None` where it is none.
pub(crate) fn read_position(reader: &mut Reader<'_>, depth: usize) -> Read<Option<Position>>
    ensures ok { IfOk result (λ p. (d : Data) × (value_at depth reader.old ≡ Some (d, reader.new))
        × (p ≡ position_in (Some d))) }
    ensures shorter { OnOk result (length reader.new < length reader.old) }
    ensures error { result ≡ Err Fault.NotJson → value_at depth reader.old ≡ None }
{
    let none = PositionMembers {
        line: None,
        character: None,
    };
    match read_object(none, reader, depth)? {
        Object::Of(kept) => Ok(kept.position()),
        Object::Null | Object::Other => Ok(None),
    }
}
