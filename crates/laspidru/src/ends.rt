//! The functions on either end of a session.

ghost use Rattle.std.specs.Prelude.{◌≡◌, ◌≢◌, IsOkAnd, None, Ok, Some};
ghost use Rattle.laspidru.specs.Codes.{IsAnswer, IsAnswerOrNoMemory, IsRefusedOr, OnRefused};
ghost use Rattle.laspidru.specs.Codes.{and_then};
ghost use Rattle.laspidru.specs.Ends.{IsHandled, IsHandledBy, IsState, IsTaken, agreed_encoding};
ghost use Rattle.laspidru.specs.Ends.{as_end, closed, handling_of, listening};
ghost use Rattle.laspidru.specs.Ends.{party_phase, store_in};
ghost use Rattle.laspidru.specs.Framers.{IsBodyAnswer};
ghost use Rattle.laspidru.specs.Objects.{IsCopy, in_handle, rest_asked};

use crate::answers::{Answer, State, answer_of, reply_of};
use crate::bytes::copy_from;
use crate::codes::{ENDED, OK, OUT_OF_MEMORY, WRONG_PHASE};
use crate::end::End;
use crate::handle::{Handle, with_object};
use crate::object::Object;
use crate::party::Party;
use crate::reports::{
    call_code_of, delivered_answer, frame_of, number_of, phase_of, server_phase_of,
};
use crate::taken::Taken;
use lsp_client::Phase as ClientPhase;
use lsp_server::{Phase, ServerFault};
use lsp_store::Store;
use lsp_text::Encoding;
use std::alloc::Global;

/// Returns an end's open documents.
pub(crate) fn store_of(party: &Party) -> &Store
    ensures { result.now ≡ store_in party.now }
{
    match party {
        Party::Server(server) => server.store(),
        Party::Client(client) => client.store(),
    }
}

/// Computes a code with an open document of the end in a handle, as `with_object` does. The code is
/// NOT_OPEN if no document of the URI is open.
macro_rules! with_open {
    ($handle:ident, $alloc:ident, $uri:ident, |$document:ident| $code:expr) => {
        $crate::handle::with_object!($handle, $alloc, $crate::object::Object::End(held) => {
            match $crate::ends::store_of(&held.party).get($uri) {
                Some($document) => $code,
                None => $crate::codes::NOT_OPEN,
            }
        })
    };
}

pub(crate) use with_open;

/// Returns the encoding of positions that was agreed on.
fn encoding_of_session(party: &Party) -> Option<Encoding>
    ensures { result ≡ agreed_encoding party.now }
{
    match party {
        Party::Server(server) => server.encoding(),
        Party::Client(client) => client.encoding(),
    }
}

/// Returns the number of an end's phase, and the code for why its session failed.
fn phase_of_party(party: &Party) -> (u32, u32)
    ensures { result ≡ party_phase party.now }
{
    match party {
        Party::Server(server) => (server_phase_of(server.phase()), 0),
        Party::Client(client) => phase_of(client.phase()),
    }
}

/// Returns the code of an end that handles no message in its phase.
fn closed_code(party: &Party) -> Option<u32>
    ensures { result ≡ closed party.now }
{
    match party {
        Party::Server(server) => match server.phase() {
            Phase::New | Phase::Running | Phase::Down => None,
            Phase::Ended => Some(ENDED),
        },
        Party::Client(client) => match client.phase() {
            ClientPhase::New | ClientPhase::Done | ClientPhase::Failed(_) => Some(WRONG_PHASE),
            _ => None,
        },
    }
}

/// Handles a body by an end.
#[tactic(auto, using(crate::proofs::Bodies::delivered, crate::proofs::Bodies::delivery_refused))]
fn handled(
    alloc: Global,
    party: &mut Party,
    body: &[u8],
    frame: &mut Vec<u8>,
    out: &mut Answer,
) -> u32
    ensures answer { IsAnswerOrNoMemory (handling_of party.old body.now) result
        (IsHandledBy party.new frame.new.items result out.new) }
    ensures unchanged { result ≢ OK
        → (party.new ≡ party.old) × (frame.new ≡ frame.old) × (out.new ≡ out.old) }
{
    match party {
        Party::Server(server) => match server.handle(body) {
            Ok(answer) => {
                *out = answer_of(&answer);
                *frame = reply_of(alloc, answer);
                OK
            }
            Err(ServerFault::AlreadyEnded) => ENDED,
            Err(ServerFault::NoMemory) => OUT_OF_MEMORY,
        },
        Party::Client(client) => match client.deliver(body) {
            Ok(delivered) => {
                *out = delivered_answer(&delivered);
                *frame = frame_of(alloc, delivered);
                OK
            }
            Err(fault) => call_code_of(fault),
        },
    }
}

/// Handles the body of a message of the other end (LSP 3.17, Base Protocol). The answer is that of
/// `Server::handle`, or of `Client::deliver`, and the end keeps the frame that is to be sent
/// until the next message or call.
///
/// Codes, in this order: EMPTY, OTHER_KIND; ENDED of a server, WRONG_PHASE of a client;
/// OUT_OF_MEMORY, after which the body may be passed again. Costs `Server::handle`, or
/// `Client::deliver`.
#[tactic(auto, using(crate::proofs::Bodies::handled_in))]
#[unsafe(no_mangle)]
pub extern "C" fn laspidru_session_deliver(
    alloc: Global,
    handle: &mut Handle,
    body: &[u8],
    out: &mut Answer,
) -> u32
    ensures answer { IsRefusedOr (in_handle as_end handle.old.value) result (λ held.
        IsAnswerOrNoMemory (handling_of held.party body.now) result
        (IsHandled held result handle.new.value out.new)) }
    ensures unchanged { result ≢ OK
        → (handle.new.value ≡ handle.old.value) × (out.new ≡ out.old) }
{
    with_object!(handle, alloc, mut Object::End(held) => {
        handled(alloc, &mut held.party, body, &mut held.frame, out)
    })
}

/// Takes bytes of a piece, and handles the message that is whole then.
#[tactic(auto, using(crate::proofs::Bodies::untaken, crate::proofs::Bodies::none_taken, crate::proofs::Bodies::waits, crate::proofs::Bodies::one_taken))]
fn feed(alloc: Global, held: &mut End, piece: &[u8], taken: &mut Taken, out: &mut Answer) -> u32
    requires { closed held.old.party ≡ None }
    ensures { IsTaken held.old piece.now result held.new taken.new out.old out.new }
{
    let code = held.stream.feed(piece, taken);
    if code != OK {
        return code;
    }
    let Some(body) = held.stream.body() else {
        return OK;
    };
    if handled(alloc, &mut held.party, body, &mut held.frame, out) != OK {
        return OUT_OF_MEMORY;
    }
    held.stream.note_handled();
    OK
}

/// Takes bytes of the next piece of an end's stream: all of them, or those up to the end of one
/// message, and handles that message (LSP 3.17, Base Protocol). `taken` is what
/// `laspidru_framer_feed` writes. Once the message is whole, `out` is the answer of
/// `laspidru_session_deliver`; before, it stays as it is. The body can be copied until the next
/// call.
///
/// Codes, in this order: EMPTY, OTHER_KIND; ENDED of a server, WRONG_PHASE of a client. These
/// change nothing. Then FAILED; OUT_OF_MEMORY, or BAD_FRAME. After OUT_OF_MEMORY a message may be
/// whole and not handled: the next call handles it. Costs a pass over the bytes taken, their copy,
/// and `laspidru_session_deliver`.
#[tactic(auto, using(crate::proofs::Bodies::taken_in, crate::proofs::Bodies::unrefused))]
#[unsafe(no_mangle)]
pub extern "C" fn laspidru_session_feed(
    alloc: Global,
    handle: &mut Handle,
    piece: &[u8],
    taken: &mut Taken,
    out: &mut Answer,
) -> u32
    ensures answer { IsRefusedOr (listening (in_handle as_end handle.old.value)) result (λ held.
        IsOkAnd (in_handle as_end handle.new.value) (λ new.
        IsTaken held piece.now result new taken.new out.old out.new)) }
    ensures unchanged { OnRefused (listening (in_handle as_end handle.old.value))
        ((handle.new.value ≡ handle.old.value) × (taken.new ≡ taken.old) × (out.new ≡ out.old)) }
{
    with_object!(handle, alloc, mut Object::End(held) => match closed_code(&held.party) {
        Some(code) => code,
        None => feed(alloc, held, piece, taken, out),
    })
}

/// Copies the body that an end has buffered.
fn end_body(held: &End, start: usize, out: &mut [u8], copied: &mut usize) -> u32
    ensures answer { IsBodyAnswer held.now.stream.framing start result out.old out.new copied.new }
    ensures unchanged { result ≢ OK → (out.new ≡ out.old) × (copied.new ≡ copied.old) }
{
    held.stream.copy_body(start, out, copied)
}

/// Copies the bytes of the body of the message that an end took last from `start` on, as many as
/// `out` has room for, and returns how many. The next call of `laspidru_session_feed` releases it.
/// Codes, in this order: EMPTY, OTHER_KIND, NO_MESSAGE, OUT_OF_RANGE. Costs the copy.
#[unsafe(no_mangle)]
pub extern "C" fn laspidru_session_body(
    alloc: Global,
    handle: &mut Handle,
    start: usize,
    out: &mut [u8],
    copied: &mut usize,
) -> u32
    ensures answer { IsRefusedOr (in_handle as_end handle.old.value) result
        (λ held. IsBodyAnswer held.stream.framing start result out.old out.new copied.new) }
    ensures handle { handle.new.value ≡ handle.old.value }
    ensures unchanged { result ≢ OK → (out.new ≡ out.old) × (copied.new ≡ copied.old) }
{
    with_object!(handle, alloc, Object::End(held) => {
        end_body(held, start, out, copied)
    })
}

/// Copies the bytes of the frame to send from `start` on, as many as `out` has room for, and
/// returns how many. The frame is that of the last message or call that was accepted; if that sends
/// none it has no bytes. Codes, in this order: EMPTY, OTHER_KIND, OUT_OF_RANGE. Costs the copy.
#[unsafe(no_mangle)]
pub extern "C" fn laspidru_session_frame(
    alloc: Global,
    handle: &mut Handle,
    start: usize,
    out: &mut [u8],
    copied: &mut usize,
) -> u32
    ensures answer { let held = in_handle as_end handle.old.value in
        IsAnswer (rest_asked start (and_then held (λ it. Ok it.frame))) result
        (IsCopy out.old out.new copied.new) }
    ensures handle { handle.new.value ≡ handle.old.value }
    ensures unchanged { result ≢ OK → (out.new ≡ out.old) × (copied.new ≡ copied.old) }
{
    with_object!(handle, alloc, Object::End(held) => {
        copy_from(&held.frame, start, out, copied)
    })
}

/// Returns the phase of the session, the encoding that was agreed on (LSP 3.17,
/// PositionEncodingKind), and how many documents are open. Codes, in this order: EMPTY, OTHER_KIND.
#[unsafe(no_mangle)]
pub extern "C" fn laspidru_session_state(alloc: Global, handle: &mut Handle, out: &mut State) -> u32
    ensures answer { IsAnswer (in_handle as_end handle.old.value) result
        (λ held. IsState out.new held.party) }
    ensures handle { handle.new.value ≡ handle.old.value }
    ensures unchanged { result ≢ OK → out.new ≡ out.old }
{
    with_object!(handle, alloc, Object::End(held) => {
        let (phase, reason) = phase_of_party(&held.party);
        *out = State {
            phase,
            reason,
            encoding: number_of(encoding_of_session(&held.party)),
            documents: store_of(&held.party).len(),
        };
        OK
    })
}
