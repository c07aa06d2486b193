//! Objects, read a member at a time.

ghost use Rattle.std.specs.Prelude.{◌≡◌, ◌<◌, length, Some, None, Err, IfOk, OnOk};
ghost use Rattle.serde_json.specs.Data.{Data, Members, no_members, put};
ghost use Rattle.lsp_message.specs.inside.Reading.{value_at, object_at};
ghost use Rattle.lsp_message.specs.inside.Objects.{IsObject};

use crate::reader::fault::{Fault, Read};
use crate::reader::skip::skip_value_from;
use json::{Invalid, Reader, Token};

/// What is kept of the members of an object.
pub(crate) trait Kept<'a>: Drop {
    // These are what is kept of the members.
    ghost IsOf: { Self → Members → Type 0 };

    /// Reads the member of this name. The last of several members of one name counts.
    fn read_member(&mut self, reader: &mut Reader<'a>, depth: usize, name: &str) -> Read<()>
        ensures ok { OnOk result ((d : Data) × (value_at depth reader.old ≡ Some (d, reader.new))
            × ((ms : Members) → IsOf self.old ms → IsOf self.new (put name.now d ms))) }
        ensures shorter { OnOk result (length reader.new < length reader.old) }
        ensures error { result ≡ Err Fault.NotJson → value_at depth reader.old ≡ None };
}

/// A value that may be an object.
#[derive(Drop)]
pub(crate) enum Object<K> {
    /// An object, by what is kept of its members.
    Of(K),
    Null,
    /// Another value, which is skipped.
    Other,
}

/// Reads a value. `kept` is what is kept of an object without members.
#[inline(always)]
#[tactic(auto, using(crate::proofs::Openings::first_tokens))]
pub(crate) fn read_object<'a, K: Kept<'a>>(
    kept: K,
    reader: &mut Reader<'a>,
    depth: usize,
) -> Read<Object<K>>
    requires { K.IsOf kept no_members }
    ensures ok { IfOk result (λ o. (d : Data) × (value_at depth reader.old ≡ Some (d, reader.new))
        × IsObject K.IsOf o d) }
    ensures shorter { OnOk result (length reader.new < length reader.old) }
    ensures error { result ≡ Err Fault.NotJson → value_at depth reader.old ≡ None }
{
    let token = reader.next().ok_or(Invalid)?;
    match token {
        Token::BeginObject => {
            if depth == 0 {
                return Err(Fault::NotJson);
            }
            let kept = read_members(kept, reader, depth - 1)?;
            Ok(Object::Of(kept))
        }
        Token::Null => Ok(Object::Null),
        _ => {
            skip_value_from(reader, token, depth)?;
            Ok(Object::Other)
        }
    }
}

/// Reads the rest of an object, after its brace.
fn read_members<'a, K: Kept<'a>>(kept: K, reader: &mut Reader<'a>, depth: usize) -> Read<K>
    requires { K.IsOf kept no_members }
    ensures ok { IfOk result (λ kept. (ms : Members)
        × (object_at depth reader.old ≡ Some (ms, reader.new)) × K.IsOf kept ms) }
    ensures shorter { OnOk result (length reader.new < length reader.old) }
    ensures error { result ≡ Err Fault.NotJson → object_at depth reader.old ≡ None }
{
    let mut kept = kept;
    'members: while let Some(name) = reader.next_key()? {
        kept.read_member(reader, depth, name)?;
    }
    Ok(kept)
}
