//! A call that is made once more, on the part of its log before a fault.

ghost use Rattle.std.specs.Prelude.{◌≡◌, IfSome, None, true};
ghost use Rattle.std.specs.String.{string_bytes};
ghost use Rattle.log_rewrite.specs.Part.{part_data};
ghost use Rattle.lspsync.specs.Run.{engine_of, prints_last};

use crate::command_line::{Against, Call};
use lsp_replay::Part;
use std::alloc::Global;

/// Returns a copy of a call that prints only at the end of its log. Of another call, and without
/// memory, it returns none.
pub fn copied(alloc: Global, call: &Call) -> Option<Call>
    ensures { IfSome result (λ copy. (prints_last call.now ≡ true)
        × (engine_of copy ≡ engine_of call.now)) }
{
    match call {
        Call::Replay(settings) => Some(Call::Replay(*settings)),
        Call::ReplayPart(settings, part) => {
            Some(Call::ReplayPart(*settings, copied_part(alloc, part)?))
        }
        Call::Compare(settings, against) => {
            Some(Call::Compare(*settings, copied_against(alloc, against)?))
        }
        _ => None,
    }
}

/// Returns a copy of a part that ends with its log.
fn copied_part(alloc: Global, part: &Part) -> Option<Part>
    ensures { IfSome result (λ copy. (part.now.at ≡ None) × (part_data copy ≡ part_data part.now)) }
{
    if part.at.is_some() {
        return None;
    }
    let uri = match &part.uri {
        Some(uri) => Some(String::from_str(alloc, uri).ok()?),
        None => None,
    };
    Some(Part { at: None, uri })
}

fn copied_against(alloc: Global, against: &Against) -> Option<Against>
    ensures ending { IfSome result (λ copy.
        string_bytes copy.ending ≡ string_bytes against.now.ending) }
    ensures text { IfSome result (λ copy. string_bytes copy.text ≡ string_bytes against.now.text) }
{
    Some(Against {
        ending: String::from_str(alloc, &against.ending).ok()?,
        text: String::from_str(alloc, &against.text).ok()?,
    })
}
