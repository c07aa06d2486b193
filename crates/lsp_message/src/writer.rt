//! The canonical body of each message, written a token at a time.
//!
//! Bodies go through `json`'s token writer, so no text is copied twice; that it is the compact
//! text of `serde_json` is proved.

ghost use Rattle.std.specs.Prelude.{◌≡◌, ◌++◌, IfOk, OnErr, OnOk};
ghost use Rattle.serde_json.specs.Written.{compact_text};
ghost use Rattle.lsp_frame.specs.Frame.{frame};
ghost use Rattle.lsp_message.specs.Outgoing as spec;
ghost use Rattle.lsp_message.specs.Written as values;
ghost use Rattle.lsp_message.specs.laws.Sent.{IsProper, IsReadAsSent, IsReadBack};
ghost use Rattle.lsp_message.specs.Seen.{did_change_of, outgoing_view};

mod documents;
mod lifecycle;
mod object;
mod value;

use crate::outgoing::Outgoing;
use crate::writer::documents::{DidChange, TextDocumentItem};
use crate::writer::lifecycle::{
    VERSION, write_error_reply, write_initialize, write_initialize_result, write_notification,
    write_response,
};
use crate::writer::object::{Member, Object};
use crate::writer::value::WriteValue;
use json::Writer;
use lsp_edit::Change;
use lsp_frame::frame;
use std::alloc::{AllocError, Global};
use std::mem;

/// Most messages fit into this many bytes.
const USUAL_LENGTH: usize = 256;

/// Writes the body of a message: compact JSON, with members in the order of their names' bytes.
///
/// Fails only where memory runs out. The receiver reads the body as the same message (an error as a
/// failure), and its parameters or result as those that were written. No other message has the same
/// body. Linear in the body; texts are copied only into it.
#[tactic(auto, using(crate::proofs::ReadBack::written_laws))]
pub fn write(alloc: Global, message: &Outgoing) -> Result<Vec<u8>, AllocError>
    ensures body { IfOk result (λ body. body.items ≡ spec.body_of (outgoing_view message.now)) }

    // What holds of a body, for each message with numbers in their ranges and texts in UTF-8.
    ensures read_as { (m : spec.OutgoingData) → IsProper m → IsReadAsSent m }
    ensures read_back { (m : spec.OutgoingData) → IsProper m → IsReadBack m }
    ensures unique { (m n : spec.OutgoingData) → IsProper m → IsProper n
        → spec.body_of m ≡ spec.body_of n → m ≡ n }
{
    let mut body = Vec::with_capacity(alloc, USUAL_LENGTH)?;
    push(&mut body, message)?;
    Ok(body)
}

/// Appends the body of a `textDocument/didChange`, whose URI and changes are borrowed.
///
/// Fails only where memory runs out, and then the bytes are unchanged. What holds of a body of
/// [`write`] holds of this one. Linear in the body; texts are copied only into it.
#[tactic(auto, using(crate::proofs::ReadBack::written_laws))]
pub fn push_change(
    bytes: &mut Vec<u8>,
    uri: &str,
    version: i32,
    changes: &[Change],
) -> Result<(), AllocError>
    ensures ok { OnOk result (bytes.new.items
        ≡ bytes.old.items ++ spec.body_of (did_change_of uri.now version changes.now)) }
    ensures unchanged { OnErr result (bytes.new.items ≡ bytes.old.items) }
    ensures read_as { (m : spec.OutgoingData) → IsProper m → IsReadAsSent m }
    ensures read_back { (m : spec.OutgoingData) → IsProper m → IsReadBack m }
    ensures unique { (m n : spec.OutgoingData) → IsProper m → IsProper n
        → spec.body_of m ≡ spec.body_of n → m ≡ n }
{
    let message = DidChange {
        uri,
        version,
        changes,
    };
    push(bytes, &message)
}

/// Appends the object of a document, compact: a `TextDocumentItem` (LSP 3.17, TextDocumentItem)
/// whose texts are borrowed.
///
/// Fails only where memory runs out, and then the bytes are unchanged. Linear in the texts, which
/// are copied only into it.
pub fn push_document(
    bytes: &mut Vec<u8>,
    uri: &str,
    language: &str,
    version: i32,
    text: &str,
) -> Result<(), AllocError>
    ensures ok { OnOk result (bytes.new.items ≡ bytes.old.items ++ spec.document_text
        (record { uri = uri.now; language = language.now; version = version; text = text.now })) }
    ensures unchanged { OnErr result (bytes.new.items ≡ bytes.old.items) }
{
    let document = TextDocumentItem {
        uri,
        language,
        version,
        text,
    };
    push(bytes, &document)
}

/// Returns the frame of a message (LSP 3.17, Base Protocol): the body of [`write`] after its
/// header.
///
/// Fails only where memory runs out. The body may have any length, and is copied once.
pub fn message_frame(alloc: Global, message: &Outgoing) -> Result<Vec<u8>, AllocError>
    ensures { IfOk result
        (λ bytes. bytes.items ≡ frame (spec.body_of (outgoing_view message.now))) }
{
    let body = write(alloc, message)?;
    frame(alloc, &body)
}

/// Appends the compact text of a value.
///
/// Fails only where memory runs out, and then the bytes are unchanged.
fn push<V: WriteValue>(bytes: &mut Vec<u8>, value: &V) -> Result<(), AllocError>
    ensures ok { OnOk result
        (bytes.new.items ≡ bytes.old.items ++ compact_text (V.value value.now)) }
    ensures unchanged { OnErr result (bytes.new.items ≡ bytes.old.items) }
{
    let alloc = *bytes.allocator();
    let len = bytes.len();
    let mut writer = Writer::new(mem::replace(bytes, Vec::new(alloc)));
    let written = value.write(&mut writer);
    *bytes = writer.into_inner();
    if written.is_err() {
        bytes.truncate(len);
    }
    written
}

impl WriteValue for Outgoing {
    ghost value = { λ message. values.value_of (outgoing_view message) };

    fn write(&self, writer: &mut Writer) -> Result<(), AllocError> {
        match self {
            Outgoing::Initialize(offers) => write_initialize(writer, *offers),
            Outgoing::Initialized => write_notification(writer, "initialized", Object(())),
            Outgoing::DidOpen(params) => {
                let document = TextDocumentItem {
                    uri: params.uri.as_str(),
                    language: params.language.as_str(),
                    version: params.version,
                    text: params.text.as_str(),
                };
                let params = Object(Member("textDocument", document));
                write_notification(writer, "textDocument/didOpen", params)
            }
            Outgoing::DidChange(params) => {
                let message = DidChange {
                    uri: params.uri.as_str(),
                    version: params.version,
                    changes: &params.changes,
                };
                message.write(writer)
            }
            Outgoing::DidClose(params) => {
                let document = Object(Member("uri", params.uri.as_str()));
                let params = Object(Member("textDocument", document));
                write_notification(writer, "textDocument/didClose", params)
            }
            Outgoing::Shutdown => {
                let call = (VERSION, Member("method", "shutdown"));
                Object((Member("id", 2_u32), call)).write(writer)
            }
            Outgoing::Exit => Object((VERSION, Member("method", "exit"))).write(writer),
            Outgoing::InitializeResult { id, encoding, kind } => {
                write_initialize_result(writer, id, *encoding, *kind)
            }
            Outgoing::ShutdownResult { id } => write_response(writer, id, ()),
            Outgoing::ErrorReply { id, error } => write_error_reply(writer, id.as_ref(), *error),
        }
    }
}
