//! A call of a client.

ghost use Rattle.std.specs.Prelude.{◌≡◌, ◌≢◌, IfErr, IfOk, OnErr};
ghost use Rattle.lsp_client.specs.Seen.{IsFaultOf, IsSent};
ghost use Rattle.lsp_client.specs.Step.{call_result, edits, orders};
ghost use Rattle.laspidru.specs.Clients.{IsCallOn, IsWritten, as_client, open_asked};
ghost use Rattle.laspidru.specs.Codes.{IsRefusedOr};
ghost use Rattle.laspidru.specs.inside.Clients.{call_made};
ghost use Rattle.laspidru.specs.inside.Passed.{changes_in};
ghost use Rattle.laspidru.specs.Objects.{in_handle};

use crate::changes::Passed;
use crate::codes::{INSIDE_CHARACTER, OK, OTHER_KIND, REVERSED_RANGE};
use crate::handle::{Handle, with_object};
use crate::object::Object;
use crate::party::Party;
use crate::reports::report_call;
use crate::structs::FaultAt;
use lsp_client::{Client, ClientFault, Phase};
use std::alloc::Global;

/// A call of a client. An edit is of a URI, to a version.
#[derive(Clone, Copy)]
pub enum Call<'a> {
    Start,
    Shutdown,
    Exit,
    Open(&'a str, &'a str, i32, &'a str),
    Edit(&'a str, i32, Passed<'a>),
    Close(&'a str),
}

/// Opens a document of a client in phase Ready.
fn opened(
    alloc: Global,
    client: &mut Client,
    uri: &str,
    language: &str,
    version: i32,
    text: &str,
) -> Result<Vec<u8>, ClientFault>
    ensures ok { IfOk result (λ frame.
        IsSent (call_result client.old
        (orders (open_asked uri.now language.now version text.now))) frame.items client.new) }
    ensures unchanged { OnErr result (client.new ≡ client.old) }
    ensures error { IfErr result (IsFaultOf (call_result client.old
        (orders (open_asked uri.now language.now version text.now)))) }
{
    match client.phase() {
        Phase::Ready => {
            let uri = uri.to_string(alloc)?;
            let language = language.to_string(alloc)?;
            let text = text.to_string(alloc)?;
            client.open(uri, language, version, text)
        }
        phase => Err(ClientFault::WrongPhase { phase }),
    }
}

/// Changes a document of a client.
fn edited(
    alloc: Global,
    client: &mut Client,
    uri: &str,
    version: i32,
    passed: Passed<'_>,
) -> Result<Vec<u8>, ClientFault>
    ensures ok { let order = edits uri.now version (changes_in passed.entry) in
        IfOk result (λ frame.
        IsSent (call_result client.old (orders order)) frame.items client.new) }
    ensures unchanged { OnErr result (client.new ≡ client.old) }
    ensures error { let order = edits uri.now version (changes_in passed.entry) in
        IfErr result (IsFaultOf (call_result client.old (orders order))) }
{
    match client.phase() {
        Phase::Ready => {
            let changes = passed.changes(alloc)?;
            client.edit(uri, version, &changes)
        }
        phase => Err(ClientFault::WrongPhase { phase }),
    }
}

/// Makes a call.
fn called(alloc: Global, client: &mut Client, call: Call<'_>) -> Result<Vec<u8>, ClientFault>
    ensures ok { IfOk result (λ frame.
        IsSent (call_result client.old (call_made call.entry)) frame.items client.new) }
    ensures unchanged { OnErr result (client.new ≡ client.old) }
    ensures error { IfErr result (IsFaultOf (call_result client.old (call_made call.entry))) }
{
    match call {
        Call::Start => client.start(),
        Call::Shutdown => client.shutdown(),
        Call::Exit => client.exit(),
        Call::Open(uri, language, version, text) => {
            opened(alloc, client, uri, language, version, text)
        }
        Call::Edit(uri, version, passed) => edited(alloc, client, uri, version, passed),
        Call::Close(uri) => client.close(uri),
    }
}

/// Makes a call by the client of a handle. A faulty change is written to `fault`.
#[tactic(auto, using(crate::proofs::Calls::accepted, crate::proofs::Calls::call_refused, crate::proofs::Calls::report_written, crate::proofs::Calls::none_written))]
pub(crate) fn object_call(
    alloc: Global,
    handle: &mut Handle,
    call: Call<'_>,
    fault: &mut FaultAt,
    len: &mut usize,
) -> u32
    ensures answer { IsCallOn (in_handle as_client handle.old.value) (call_made call.entry) result
        handle.new.value len.new }
    ensures report { IsRefusedOr (in_handle as_client handle.old.value) result (λ asked.
        IsWritten (call_result asked.0 (call_made call.entry)) result fault.new) }
    ensures unchanged { result ≢ OK
        → (handle.new.value ≡ handle.old.value) × (len.new ≡ len.old) }
    ensures fault { result ≢ INSIDE_CHARACTER → result ≢ REVERSED_RANGE → fault.new ≡ fault.old }
{
    with_object!(handle, alloc, mut Object::End(held) => match &mut held.party {
        Party::Client(client) => match called(alloc, client, call) {
            Ok(frame) => {
                *len = frame.len();
                held.frame = frame;
                OK
            }
            Err(error) => report_call(error, fault),
        },
        Party::Server(_) => OTHER_KIND,
    })
}

/// Makes a call without edits by the client of a handle.
pub(crate) fn make_call(alloc: Global, handle: &mut Handle, call: Call<'_>, len: &mut usize) -> u32
    ensures answer { IsCallOn (in_handle as_client handle.old.value) (call_made call.entry) result
        handle.new.value len.new }
    ensures unchanged { result ≢ OK
        → (handle.new.value ≡ handle.old.value) × (len.new ≡ len.old) }
{
    let mut fault = FaultAt {
        change: 0,
        at_end: false,
    };
    object_call(alloc, handle, call, &mut fault, len)
}
