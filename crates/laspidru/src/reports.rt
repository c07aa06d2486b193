//! The settings that C passes to a client, and what it gets of one; numbers of phases.

ghost use Rattle.std.specs.Prelude.{◌≡◌, ◌≢◌};
ghost use Rattle.lsp_client.specs.Seen.{delivered_view};
ghost use Rattle.laspidru.specs.Clients.{delivered_out, phase_numbers};
ghost use Rattle.laspidru.specs.Clients.{reason_number, sent_frame};
ghost use Rattle.laspidru.specs.Ends.{encoding_number, server_phase};
ghost use Rattle.laspidru.specs.inside.Clients.{IsCallReport, call_code};

use crate::answers::{Answer, plain, store_code_of};
use crate::changes::report_change;
use crate::codes::{
    BAD_ENCODING, BAD_SERVER, ERROR_ANSWER, IGNORED, INSIDE_CHARACTER, NO_SYNC, NOT_AN_ANSWER,
    NOTED, OUT_OF_MEMORY, REPLIED, REVERSED_RANGE, WRONG_PHASE,
};
use crate::structs::FaultAt;
use lsp_client::{ClientFault, Delivered, Phase, Reason};
use lsp_server::Phase as ServerPhase;
use lsp_store::StoreFault;
use lsp_text::Encoding;
use std::alloc::Global;

/// The set-up of a client: its limits, which may be lenient, and the encodings that it offers
/// beside UTF-16.
#[repr(C)]
#[derive(Clone, Copy, Debug, PartialEq, Eq)]
pub struct ClientSettings {
    pub max_body: usize,
    pub max_text: usize,
    pub max_docs: usize,
    pub max_changes: usize,
    pub utf8: bool,
    pub utf32: bool,
    pub lenient: bool,
}

/// Returns the code of a refused call.
pub(crate) fn call_code_of(fault: ClientFault) -> u32
    ensures { result ≡ call_code fault }
{
    match fault {
        ClientFault::WrongPhase { .. } => WRONG_PHASE,
        ClientFault::Store(fault) => store_code_of(fault),
        ClientFault::NoMemory => OUT_OF_MEMORY,
    }
}

/// Returns the code of a refused call. A faulty change is written to `out`; else it stays as it is.
pub(crate) fn report_call(fault: ClientFault, out: &mut FaultAt) -> u32
    ensures code { result ≡ call_code fault }
    ensures report { IsCallReport fault out.new }
    ensures unchanged { result ≢ INSIDE_CHARACTER → result ≢ REVERSED_RANGE → out.new ≡ out.old }
{
    match fault {
        ClientFault::Store(StoreFault::Edit(fault)) => report_change(fault, out),
        _ => call_code_of(fault),
    }
}

/// Returns the reason why a session can't continue, as a code.
fn reason_code(reason: Reason) -> u32
    ensures { result ≡ reason_number reason }
{
    match reason {
        Reason::NotAnAnswer => NOT_AN_ANSWER,
        Reason::ErrorAnswer => ERROR_ANSWER,
        Reason::NoSync => NO_SYNC,
        Reason::BadEncoding => BAD_ENCODING,
    }
}

/// Returns the result of a delivery for C.
pub(crate) fn delivered_answer(delivered: &Delivered) -> Answer
    ensures { result ≡ delivered_out (delivered_view delivered.now) }
{
    match delivered {
        Delivered::Send(frame) => Answer {
            reply_len: frame.len(),
            ..plain(REPLIED)
        },
        Delivered::Noted => plain(NOTED),
        Delivered::Ignored => plain(IGNORED),
        Delivered::BadServer(reason) => Answer {
            reason: reason_code(*reason),
            ..plain(BAD_SERVER)
        },
    }
}

/// Returns the frame that a delivery sends; no bytes if it sends none.
pub(crate) fn frame_of(alloc: Global, delivered: Delivered) -> Vec<u8>
    ensures { result.items ≡ sent_frame (delivered_view delivered) }
{
    match delivered {
        Delivered::Send(frame) => frame,
        Delivered::Noted | Delivered::Ignored | Delivered::BadServer(_) => Vec::new(alloc),
    }
}

/// Returns the number of a phase, and the code for why the session failed.
pub(crate) fn phase_of(phase: Phase) -> (u32, u32)
    ensures { result ≡ phase_numbers phase }
{
    match phase {
        Phase::New => (0, 0),
        Phase::Asked => (1, 0),
        Phase::Ready => (2, 0),
        Phase::Closing => (3, 0),
        Phase::Closed => (4, 0),
        Phase::Done => (5, 0),
        Phase::Failed(reason) => (6, reason_code(reason)),
    }
}

/// Returns the number of a server's phase, as a client in that phase has it.
pub(crate) fn server_phase_of(phase: ServerPhase) -> u32
    ensures { result ≡ server_phase phase }
{
    match phase {
        ServerPhase::New => 0,
        ServerPhase::Running => 2,
        ServerPhase::Down => 4,
        ServerPhase::Ended => 5,
    }
}

/// Returns the number of an encoding; 0 of none.
pub(crate) fn number_of(encoding: Option<Encoding>) -> u32
    ensures { result ≡ encoding_number encoding }
{
    match encoding {
        None => 0,
        Some(Encoding::Utf8) => 8,
        Some(Encoding::Utf16) => 16,
        Some(Encoding::Utf32) => 32,
    }
}
