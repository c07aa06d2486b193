//! What notes of a body go by, beside what the body asks.

ghost use Rattle.std.specs.Prelude.{◌≡◌, IfOk, Some, codes, false, option_map};
ghost use Rattle.serde_json.specs.View.{items_view, view};
ghost use Rattle.lsp_message.specs.Incoming.{incoming_of};
ghost use Rattle.lsp_message.specs.Lengths.{lengths_found, lengths_in};
ghost use Rattle.lsp_message.specs.Message.{Reading};
ghost use Rattle.lsp_message.specs.Seen.{IsNoted, incoming_view};
ghost use Rattle.lsp_message.specs.Values.{array_in, member_at, natural_in};
ghost use Rattle.lsp_message.specs.declared.reader.incoming.Incoming.{Incoming};
ghost use Rattle.lsp_message.specs.inside.Seen.{is_noted};

use crate::reader::incoming::Incoming;
use serde_json::Value;
use std::alloc::{AllocError, Global};

/// How many bytes at a body's ends are searched for the name of a method.
const NEAR: usize = 128;

/// How the methods of a change and a `didSave` go on, from the last letter of `textDocument`.
const NOTED: [&[u8]; 2] = [b"t/didCh", b"t/didSa"];

/// What notes of a body go by, beside what the body asks.
#[derive(Debug, PartialEq, Drop)]
pub struct Noted {
    /// The `rangeLength` of each change of a `textDocument/didChange`; empty for any other body. It
    /// is `None` for a change without one, and for one that is no whole number in the range of `u64`.
    pub lengths: Vec<Option<u64>>,
    /// The params of a `textDocument/didSave`; `None` for any other body.
    pub params: Option<Value>,
}

impl Noted {
    /// Returns what notes of a body go by that is no change and no `didSave`.
    pub(crate) fn nothing(alloc: Global) -> Noted
        ensures { (body : Reading) (m : Incoming) → incoming_view m ≡ incoming_of body
            → is_noted (incoming_view m) ≡ false → IsNoted body m result }
    {
        Noted {
            lengths: Vec::new(alloc),
            params: None,
        }
    }
}

/// Returns whether notes go by more of a message than what it asks.
pub(crate) fn is_noted(incoming: &Incoming) -> bool
    ensures { result ≡ is_noted (incoming_view incoming.now) }
{
    match incoming {
        Incoming::DidChange(_) => true,
        Incoming::OtherNotification { method } => method.as_str() == "textDocument/didSave",
        _ => false,
    }
}

/// Returns whether one end of a body names a method like those of a change and a `didSave`. What is
/// read of the body doesn't depend on it, only in how many passes.
pub(crate) fn may_be_noted(body: &[u8]) -> bool {
    let near = body.len().min(NEAR);
    names_noted(&body[..near]) || names_noted(&body[body.len() - near..])
}

fn names_noted(bytes: &[u8]) -> bool {
    bytes
        .windows(NOTED[0].len())
        .any(|name| name.get(1) == Some(&b'/') && NOTED.contains(&name))
}

/// Returns the `rangeLength` of each change in a notification's params.
pub(crate) fn lengths_found(
    alloc: Global,
    params: Option<&Value>,
) -> Result<Vec<Option<u64>>, AllocError>
    ensures { IfOk result (λ lengths. lengths.items ≡ lengths_found
        (array_in (member_at (codes "contentChanges")
        (option_map (λ params. view params.now) params.entry)))) }
{
    let Some(params) = params else {
        return Ok(Vec::new(alloc));
    };
    let Some(changes) = params.get("contentChanges") else {
        return Ok(Vec::new(alloc));
    };
    let Some(changes) = changes.as_array() else {
        return Ok(Vec::new(alloc));
    };
    lengths_in(alloc, changes)
}

/// Returns the `rangeLength` of each change.
fn lengths_in(alloc: Global, changes: &[Value]) -> Result<Vec<Option<u64>>, AllocError>
    ensures { IfOk result
        (λ lengths. lengths.items ≡ lengths_in (items_view changes.now)) }
{
    let mut lengths = Vec::new(alloc);
    for change in changes {
        lengths.push(length_of(change))?;
    }
    Ok(lengths)
}

/// Returns the `rangeLength` of a change.
fn length_of(change: &Value) -> Option<u64>
    ensures { result ≡ natural_in (member_at (codes "rangeLength") (Some (view change.now))) }
{
    change.get("rangeLength")?.as_u64()
}
