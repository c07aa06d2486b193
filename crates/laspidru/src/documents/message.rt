//! The function on canonical messages of an end's open documents.

ghost use Rattle.std.specs.Prelude.{◌≡◌, ◌≢◌, ◌⊎◌, None};
ghost use Rattle.laspidru.specs.Codes.{IsAnswerOrNoMemory, unless};
ghost use Rattle.laspidru.specs.Ends.{as_end};
ghost use Rattle.laspidru.specs.Messages.{IsMessageLeft, MessageAsked, canonical_message_of};
ghost use Rattle.laspidru.specs.Messages.{message_asked};
ghost use Rattle.laspidru.specs.Objects.{in_handle, in_use};
ghost use Rattle.laspidru.specs.inside.Passed.{changes_in};

use crate::bytes::checked_text;
use crate::changes::{Passed, encoding_of};
use crate::codes::{INSIDE_CHARACTER, OK, OUT_OF_MEMORY, REVERSED_RANGE, or_return};
use crate::ends::store_of;
use crate::handle::{Handle, with_object};
use crate::object::Object;
use crate::reports::report_call;
use crate::structs::{Edit, FaultAt};
use lsp_client::ClientFault;
use lsp_store::Store;
use lsp_text::Encoding;
use std::alloc::Global;

/// Puts the canonical message of a batch on an open document into an empty handle.
#[tactic(auto, using(crate::proofs::Written::message_refused))]
fn put_message(
    alloc: Global,
    store: &Store,
    uri: &str,
    version: i32,
    encoding: Encoding,
    passed: Passed<'_>,
    output: &mut Handle,
    fault: &mut FaultAt,
    len: &mut usize,
) -> u32
    requires { output.old.value ≡ None }
    ensures answer { let asked : MessageAsked = record {
      store = store.now;
      uri = uri.now;
      version = version;
      encoding = encoding;
      edits = changes_in passed.entry;
    } in (result ≡ OUT_OF_MEMORY)
        ⊎ IsMessageLeft (canonical_message_of asked) result output.new.value len.new fault.new }
    ensures unchanged { result ≢ OK → (output.new.value ≡ None) × (len.new ≡ len.old) }
    ensures fault { result ≢ INSIDE_CHARACTER → result ≢ REVERSED_RANGE → fault.new ≡ fault.old }
{
    let Ok(changes) = passed.changes(alloc) else {
        return OUT_OF_MEMORY;
    };
    let frame = match store.canonical_message(uri, version, encoding, &changes) {
        Ok(frame) => frame,
        Err(error) => return report_call(ClientFault::Store(error), fault),
    };
    let count = frame.len();
    let code = output.fill(alloc, Object::Output(frame));
    if code == OK {
        *len = count;
    }
    code
}

/// Puts the frame of the canonical message of a batch on an open document into an empty handle (LSP
/// 3.17, DidChangeTextDocument): that of [`Store::canonical_message`](lsp_store::Store). It is
/// copied by `laspidru_output_copy`. The document stays as it is.
///
/// Codes, in this order: NOT_UTF8 of the URI; BAD_ENCODING; BAD_LENGTH or NOT_UTF8 of the first
/// such edit; IN_USE of `output`; EMPTY, OTHER_KIND. Then OUT_OF_MEMORY, or NOT_OPEN,
/// STALE_VERSION, TOO_MANY_CHANGES, INSIDE_CHARACTER, REVERSED_RANGE, TOO_LONG, also of a message
/// that is too long. With the two codes of a faulty change `fault` says which change it is. Costs a
/// pass over the texts, their copy, and `Store::canonical_message`.
#[unsafe(no_mangle)]
pub extern "C" fn laspidru_session_document_canonical_message(
    alloc: Global,
    handle: &mut Handle,
    uri: &[u8],
    version: i32,
    encoding: u32,
    edits: &[Edit],
    texts: &[u8],
    output: &mut Handle,
    fault: &mut FaultAt,
    len: &mut usize,
) -> u32
    ensures answer { let held =
        unless (in_use output.old.value) (in_handle as_end handle.old.value) in
        IsAnswerOrNoMemory (message_asked uri.now version encoding edits.now texts.now held)
        result
        (λ asked. IsMessageLeft (canonical_message_of asked) result
        output.new.value len.new fault.new) }
    ensures handle { handle.new.value ≡ handle.old.value }
    ensures unchanged { result ≢ OK
        → (output.new.value ≡ output.old.value) × (len.new ≡ len.old) }
    ensures fault { result ≢ INSIDE_CHARACTER → result ≢ REVERSED_RANGE → fault.new ≡ fault.old }
{
    let uri = or_return!(checked_text(uri));
    let encoding = or_return!(encoding_of(encoding));
    let passed = or_return!(Passed::new(edits, texts));
    or_return!(output.check_empty(alloc));
    with_object!(handle, alloc, Object::End(held) => {
        let store = store_of(&held.party);
        put_message(alloc, store, uri, version, encoding, passed, output, fault, len)
    })
}
