//! The calls that open, change and close a client's documents.

ghost use Rattle.std.specs.Prelude.{◌≡◌, ◌≢◌};
ghost use Rattle.lsp_client.specs.Step.{call_result, closes, orders};
ghost use Rattle.laspidru.specs.Edits.{refused_edit};
ghost use Rattle.laspidru.specs.Clients.{IsCallOn, IsWritten, as_client, edit_asked, opening_asked};
ghost use Rattle.laspidru.specs.Codes.{IsRefusedOr, both, unless};
ghost use Rattle.laspidru.specs.Objects.{in_handle, uri_asked};

use crate::bytes::checked_text;
use crate::changes::Passed;
use crate::client::call::{Call, make_call, object_call};
use crate::codes::{INSIDE_CHARACTER, OK, REVERSED_RANGE, or_return};
use crate::handle::Handle;
use crate::structs::{Edit, FaultAt};
use std::alloc::Global;

/// Opens a document: the frame of `textDocument/didOpen` is to be sent (LSP 3.17,
/// DidOpenTextDocument). Codes, in this order: NOT_UTF8, EMPTY, OTHER_KIND, WRONG_PHASE; then
/// OUT_OF_MEMORY, or ALREADY_OPEN, TOO_MANY_DOCUMENTS, TOO_LONG, also of a message that is too
/// long. Costs [`Client::open`].
#[unsafe(no_mangle)]
pub extern "C" fn laspidru_client_did_open(
    alloc: Global,
    handle: &mut Handle,
    uri: &[u8],
    language: &[u8],
    version: i32,
    text: &[u8],
    len: &mut usize,
) -> u32
    ensures answer { IsRefusedOr (opening_asked uri.now language.now version text.now) result
        (λ order. IsCallOn (in_handle as_client handle.old.value) (orders order) result
        handle.new.value len.new) }
    ensures unchanged { result ≢ OK
        → (handle.new.value ≡ handle.old.value) × (len.new ≡ len.old) }
{
    let uri = or_return!(checked_text(uri));
    let language = or_return!(checked_text(language));
    let text = or_return!(checked_text(text));
    make_call(alloc, handle, Call::Open(uri, language, version, text), len)
}

/// Changes a document: the frame of one `textDocument/didChange` is to be sent, with the canonical
/// batch, or where the server asked for it with the whole text (LSP 3.17, DidChangeTextDocument).
/// Positions are in the encoding that was agreed on. The texts of the edits follow each other in
/// `texts`.
///
/// Codes, in this order: NOT_UTF8 of the URI; BAD_LENGTH or NOT_UTF8 of the first such edit; EMPTY,
/// OTHER_KIND, WRONG_PHASE. Then OUT_OF_MEMORY, or NOT_OPEN, STALE_VERSION, TOO_MANY_CHANGES,
/// INSIDE_CHARACTER, REVERSED_RANGE, TOO_LONG, also of a message that is too long. With the two
/// codes of a faulty change `fault` says which change it is. Costs a pass over the texts, their
/// copy, and [`Client::edit`].
#[unsafe(no_mangle)]
pub extern "C" fn laspidru_client_did_change(
    alloc: Global,
    handle: &mut Handle,
    uri: &[u8],
    version: i32,
    edits: &[Edit],
    texts: &[u8],
    fault: &mut FaultAt,
    len: &mut usize,
) -> u32
    ensures answer { let client = unless (refused_edit edits.now texts.now)
        (in_handle as_client handle.old.value) in
        IsRefusedOr (uri_asked uri.now) result (λ named.
        IsCallOn client (orders (edit_asked named version edits.now texts.now)) result
        handle.new.value len.new) }
    ensures report { let client = unless (refused_edit edits.now texts.now)
        (in_handle as_client handle.old.value) in
        IsRefusedOr (both (uri_asked uri.now) client) result
        (λ asked. IsWritten (call_result asked.1.0
        (orders (edit_asked asked.0 version edits.now texts.now))) result fault.new) }
    ensures unchanged { result ≢ OK
        → (handle.new.value ≡ handle.old.value) × (len.new ≡ len.old) }
    ensures fault { result ≢ INSIDE_CHARACTER → result ≢ REVERSED_RANGE → fault.new ≡ fault.old }
{
    let uri = or_return!(checked_text(uri));
    let passed = or_return!(Passed::new(edits, texts));
    object_call(alloc, handle, Call::Edit(uri, version, passed), fault, len)
}

/// Closes a document: the frame of `textDocument/didClose` is to be sent (LSP 3.17,
/// DidCloseTextDocument). Codes, in this order: NOT_UTF8 of the URI, EMPTY, OTHER_KIND,
/// WRONG_PHASE; then OUT_OF_MEMORY, or NOT_OPEN, or TOO_LONG of the message. Costs
/// [`Client::close`].
#[unsafe(no_mangle)]
pub extern "C" fn laspidru_client_did_close(
    alloc: Global,
    handle: &mut Handle,
    uri: &[u8],
    len: &mut usize,
) -> u32
    ensures answer { IsRefusedOr (uri_asked uri.now) result (λ named.
        IsCallOn (in_handle as_client handle.old.value) (orders (closes named)) result
        handle.new.value len.new) }
    ensures unchanged { result ≢ OK
        → (handle.new.value ≡ handle.old.value) × (len.new ≡ len.old) }
{
    let uri = or_return!(checked_text(uri));
    make_call(alloc, handle, Call::Close(uri), len)
}
