//! The first members of a line of `trace`: what a record is, whatever is answered.

ghost use Rattle.std.specs.Prelude.{◌≡◌, ◌++◌, OnOk, codes, decimal, option_map};
ghost use Rattle.lsp_message.specs.Seen.{id_view};
ghost use Rattle.lsp_server.specs.Seen.{incoming_view};
ghost use Rattle.log_report.specs.Trace.{first_members, id_json, id_of, is_json, member, method_of, side_word};

use crate::facts::asked::uri_of;
use crate::members::{push_json_string, push_number, push_signed, push_text};
use lsp_log::{Head, Sender};
use lsp_message::Id;
use lsp_server::Incoming;
use std::alloc::{AllocError, Global};

/// Writes the first members of a record's line.
pub(crate) fn push_first(
    alloc: Global,
    buffer: &mut Vec<u8>,
    number: u64,
    head: Head,
    incoming: &Incoming,
) -> Result<(), AllocError>
    ensures { OnOk result (buffer.new.items ≡ buffer.old.items
        ++ first_members number head (incoming_view incoming.now)) }
{
    push_head(buffer, number, head)?;
    push_text(alloc, buffer, ",\"method\":", method_of(incoming))?;
    push_id(alloc, buffer, id_of(incoming))?;
    push_text(alloc, buffer, ",\"uri\":", uri_of(head.side, incoming))
}

/// Writes a record's number, its offset and its side.
fn push_head(buffer: &mut Vec<u8>, number: u64, head: Head) -> Result<(), AllocError>
    ensures { OnOk result (buffer.new.items ≡ buffer.old.items ++ codes "{\"number\":"
        ++ decimal number ++ codes ",\"offset\":" ++ decimal head.place ++ codes ",\"from\":\""
        ++ side_word head.side ++ codes "\"") }
{
    buffer.extend_from_slice(b"{\"number\":")?;
    push_number(buffer, number)?;
    buffer.extend_from_slice(b",\"offset\":")?;
    push_number(buffer, head.place)?;
    buffer.extend_from_slice(b",\"from\":\"")?;
    buffer.extend_from_slice(side_word(head.side).as_bytes())?;
    buffer.extend_from_slice(b"\"")
}

fn side_word(side: Sender) -> &'static str
    ensures { result.now ≡ side_word side }
{
    match side {
        Sender::Client => "editor",
        Sender::Server => "server",
    }
}

/// Returns whether a body is JSON.
pub(crate) fn is_json(incoming: &Incoming) -> bool
    ensures { result ≡ is_json (incoming_view incoming.now) }
{
    !matches!(incoming, Incoming::NotJson)
}

/// Returns the method of a request or a notification.
fn method_of(incoming: &Incoming) -> Option<&str>
    ensures { option_map (λ method. method.now) result ≡ method_of (incoming_view incoming.now) }
{
    match incoming {
        Incoming::NotJson | Incoming::NotAMessage { .. } | Incoming::Response { .. } => None,
        Incoming::Initialize { .. } => Some("initialize"),
        Incoming::Shutdown { .. } => Some("shutdown"),
        Incoming::Exit => Some("exit"),
        Incoming::DidOpen(_) => Some("textDocument/didOpen"),
        Incoming::DidChange(_) => Some("textDocument/didChange"),
        Incoming::DidClose(_) => Some("textDocument/didClose"),
        Incoming::OtherRequest { method, .. } => Some(method.as_str()),
        Incoming::OtherNotification { method } => Some(method.as_str()),
    }
}

/// Returns the id of a request or a response, or the one that a body which is no message names.
fn id_of(incoming: &Incoming) -> Option<&Id>
    ensures { option_map (λ id. id_view id.now) result ≡ id_of (incoming_view incoming.now) }
{
    match incoming {
        Incoming::NotAMessage { id } => id.as_ref(),
        Incoming::Response { id } => id.as_ref(),
        Incoming::Initialize { id, .. } => Some(id),
        Incoming::Shutdown { id } => Some(id),
        Incoming::OtherRequest { id, .. } => Some(id),
        _ => None,
    }
}

/// Writes the member `id`, if there is one.
fn push_id(alloc: Global, buffer: &mut Vec<u8>, id: Option<&Id>) -> Result<(), AllocError>
    ensures { OnOk result (buffer.new.items ≡ buffer.old.items ++ member (codes ",\"id\":")
        (option_map id_json (option_map (λ id. id_view id.now) id.entry))) }
{
    let Some(id) = id else {
        return Ok(());
    };
    buffer.extend_from_slice(b",\"id\":")?;
    match id {
        Id::Whole(number) => push_signed(buffer, *number),
        Id::Text(text) => push_json_string(alloc, buffer, text.as_str()),
    }
}
