//! The functions on framers.

ghost use Rattle.std.specs.Prelude.{◌≡◌, ◌≢◌, ◌↔◌, IsTrue, IsOkAnd, Some, false, []};
ghost use Rattle.laspidru.specs.declared.object.Object.TheVariants.{Framer as FramerOf};
ghost use Rattle.laspidru.specs.Codes.{IsAnswer, IsAnswerOrNoMemory, IsRefusedOr, unless};
ghost use Rattle.laspidru.specs.Framers.{IsBodyAnswer, IsPieceFed, IsReleased, as_framer};
ghost use Rattle.laspidru.specs.Framers.{framer_limits};
ghost use Rattle.laspidru.specs.Objects.{in_handle, in_use};
ghost use Rattle.laspidru.specs.Streams.{framing_of};

use crate::answers::limits_of;
use crate::bytes::copy_from;
use crate::codes::{BAD_FRAME, NO_MESSAGE, OK, or_return};
use crate::handle::{Handle, with_object};
use crate::object::Object;
use crate::taken::{Taken, feed};
use lsp_frame::{Framer, Limits};
use std::alloc::Global;

/// Makes a framer in an empty handle, at the start of a stream. `max_body` is the greatest length
/// of a body, in bytes. Codes, in this order: IN_USE, BAD_MAX_BODY; OUT_OF_MEMORY.
#[unsafe(no_mangle)]
pub extern "C" fn laspidru_framer_new(alloc: Global, handle: &mut Handle, max_body: usize) -> u32
    ensures answer { let asked = unless (in_use handle.old.value) (framer_limits max_body) in
        IsAnswerOrNoMemory asked result (λ limits.
        (result ≡ OK) × (handle.new.value ≡ Some (FramerOf (framing_of limits)))) }
    ensures unchanged { result ≢ OK → handle.new.value ≡ handle.old.value }
{
    or_return!(handle.check_empty(alloc));
    let limits = or_return!(limits_of(
        max_body,
        Limits::DEFAULT_TEXT,
        Limits::DEFAULT_DOCS,
        Limits::DEFAULT_CHANGES,
        false,
    ));
    handle.fill(alloc, Object::Framer(Framer::new(alloc, limits)))
}

/// Takes bytes of the next piece of a stream: all of them, or those up to the end of one message
/// (LSP 3.17, Base Protocol, Header Part). While a whole message is buffered it takes none. Codes,
/// in this order: EMPTY, OTHER_KIND, FAILED; OUT_OF_MEMORY, or BAD_FRAME. After BAD_FRAME, which
/// `out` describes, no more of the stream is taken. Costs a pass over the bytes taken, and their
/// copy.
#[unsafe(no_mangle)]
pub extern "C" fn laspidru_framer_feed(
    alloc: Global,
    handle: &mut Handle,
    piece: &[u8],
    out: &mut Taken,
) -> u32
    ensures answer { IsRefusedOr (in_handle as_framer handle.old.value) result
        (λ framing. IsOkAnd (in_handle as_framer handle.new.value)
        (λ new. IsPieceFed framing piece.now result new out.new)) }
    ensures unchanged { result ≢ OK → result ≢ BAD_FRAME
        → (handle.new.value ≡ handle.old.value) × (out.new ≡ out.old) }
{
    with_object!(handle, alloc, mut Object::Framer(framer) => feed(framer, piece, out))
}

/// Copies the body that a framer has buffered.
pub(crate) fn copy_body(framer: &Framer, start: usize, out: &mut [u8], copied: &mut usize) -> u32
    ensures answer { IsBodyAnswer framer.now start result out.old out.new copied.new }
    ensures unchanged { result ≢ OK → (out.new ≡ out.old) × (copied.new ≡ copied.old) }
{
    let Some(body) = framer.body() else {
        return NO_MESSAGE;
    };
    copy_from(body, start, out, copied)
}

/// Copies the bytes of the buffered message's body from `start` on, as many as `out` has room for,
/// and returns how many. Codes, in this order: EMPTY, OTHER_KIND, NO_MESSAGE, OUT_OF_RANGE. Costs
/// the copy.
#[unsafe(no_mangle)]
pub extern "C" fn laspidru_framer_body(
    alloc: Global,
    handle: &mut Handle,
    start: usize,
    out: &mut [u8],
    copied: &mut usize,
) -> u32
    ensures answer { IsRefusedOr (in_handle as_framer handle.old.value) result
        (λ framing. IsBodyAnswer framing start result out.old out.new copied.new) }
    ensures handle { handle.new.value ≡ handle.old.value }
    ensures unchanged { result ≢ OK → (out.new ≡ out.old) × (copied.new ≡ copied.old) }
{
    with_object!(handle, alloc, Object::Framer(framer) => {
        copy_body(framer, start, out, copied)
    })
}

/// Releases the buffered message, so that the next one is taken. Does nothing if no whole message
/// is buffered. Codes, in this order: EMPTY, OTHER_KIND. Takes no memory.
#[unsafe(no_mangle)]
pub extern "C" fn laspidru_framer_next(alloc: Global, handle: &mut Handle) -> u32
    ensures answer { IsAnswer (in_handle as_framer handle.old.value) result
        (λ framing. IsOkAnd (in_handle as_framer handle.new.value) (IsReleased framing)) }
    ensures unchanged { result ≢ OK → handle.new.value ≡ handle.old.value }
{
    with_object!(handle, alloc, mut Object::Framer(framer) => {
        framer.next();
        OK
    })
}

/// Returns whether no byte of a message is buffered and no fault was found, so that the stream may
/// end here. Codes, in this order: EMPTY, OTHER_KIND.
#[unsafe(no_mangle)]
pub extern "C" fn laspidru_framer_at_rest(alloc: Global, handle: &mut Handle, out: &mut bool) -> u32
    ensures answer { IsAnswer (in_handle as_framer handle.old.value) result
        (λ framing. IsTrue out.new ↔ ((framing.buffered ≡ []) × (framing.failed ≡ false))) }
    ensures handle { handle.new.value ≡ handle.old.value }
    ensures unchanged { result ≢ OK → out.new ≡ out.old }
{
    with_object!(handle, alloc, Object::Framer(framer) => {
        *out = framer.at_rest();
        OK
    })
}
