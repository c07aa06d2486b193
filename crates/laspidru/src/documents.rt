//! The functions on the open documents of an end.

ghost use Rattle.std.specs.Prelude.{◌≡◌, ◌≢◌, length};
ghost use Rattle.laspidru.specs.Codes.{IsAnswer};
ghost use Rattle.laspidru.specs.Ends.{as_end, asked_of_open, entry_asked};
ghost use Rattle.laspidru.specs.Objects.{IsCopy, in_handle, rest_asked};

mod edits;
mod message;

use crate::answers::Opened;
use crate::bytes::{checked_text, copy_text};
use crate::codes::{OK, or_return};
use crate::ends::with_open;
use crate::handle::Handle;
use std::alloc::Global;

/// Returns the version of an open document, and how many bytes its text has. URIs are compared byte
/// for byte. Codes, in this order: NOT_UTF8 of the URI, EMPTY, OTHER_KIND, NOT_OPEN. Costs a hash
/// look-up.
#[unsafe(no_mangle)]
pub extern "C" fn laspidru_session_document_state(
    alloc: Global,
    handle: &mut Handle,
    uri: &[u8],
    out: &mut Opened,
) -> u32
    ensures answer { IsAnswer (entry_asked uri.now (in_handle as_end handle.old.value)) result
        (λ entry. (out.new.version ≡ entry.version) × (out.new.bytes ≡ length entry.text)) }
    ensures handle { handle.new.value ≡ handle.old.value }
    ensures unchanged { result ≢ OK → out.new ≡ out.old }
{
    let uri = or_return!(checked_text(uri));
    with_open!(handle, alloc, uri, |document| {
        *out = Opened {
            version: document.version(),
            bytes: document.text().len(),
        };
        OK
    })
}

/// Copies the bytes of an open document's text from `start` on, as many as `out` has room for, and
/// returns how many. Codes, in this order: NOT_UTF8 of the URI, EMPTY, OTHER_KIND, NOT_OPEN,
/// OUT_OF_RANGE. Costs a hash look-up and the copy.
#[unsafe(no_mangle)]
pub extern "C" fn laspidru_session_document_text(
    alloc: Global,
    handle: &mut Handle,
    uri: &[u8],
    start: usize,
    out: &mut [u8],
    copied: &mut usize,
) -> u32
    ensures answer { let held = in_handle as_end handle.old.value in
        IsAnswer (asked_of_open uri.now held (rest_asked start)) result
        (IsCopy out.old out.new copied.new) }
    ensures handle { handle.new.value ≡ handle.old.value }
    ensures unchanged { result ≢ OK → (out.new ≡ out.old) × (copied.new ≡ copied.old) }
{
    let uri = or_return!(checked_text(uri));
    with_open!(handle, alloc, uri, |document| {
        copy_text(document.text(), start, out, copied)
    })
}
