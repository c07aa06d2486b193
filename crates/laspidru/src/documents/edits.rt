//! The function on what edits mean on an end's open documents.

ghost use Rattle.std.specs.Prelude.{◌≡◌, ◌≢◌};
ghost use Rattle.laspidru.specs.Codes.{IsAnswerOrNoMemory, unless};
ghost use Rattle.laspidru.specs.Edits.{AreBatched, IsUnlessFaulty, edits_asked};
ghost use Rattle.laspidru.specs.Ends.{as_end, asked_of_open};
ghost use Rattle.laspidru.specs.Objects.{in_handle, in_use};

use crate::bytes::checked_text;
use crate::changes::{Passed, encoding_of};
use crate::codes::{OK, or_return};
use crate::edits::{Subject, put_batch_of_edits};
use crate::ends::with_open;
use crate::handle::Handle;
use crate::structs::{Edit, EditsFault};
use std::alloc::Global;

/// Puts the canonical batch of what text edits mean on an open document into an empty handle (LSP
/// 3.17, TextEdit[]). All their ranges count in its text as it is. The document stays as it is: it
/// changes when they are reported.
///
/// Codes, in this order: NOT_UTF8 of the URI; BAD_ENCODING; BAD_LENGTH or NOT_UTF8 of the first
/// such edit; IN_USE of `batch`; EMPTY, OTHER_KIND, NOT_OPEN, TOO_LONG; OUT_OF_MEMORY, or the
/// fault, as of `laspidru_document_batch_of_edits`. Costs the same, and a hash look-up.
#[unsafe(no_mangle)]
pub extern "C" fn laspidru_session_document_batch_of_edits(
    alloc: Global,
    handle: &mut Handle,
    uri: &[u8],
    encoding: u32,
    edits: &[Edit],
    texts: &[u8],
    batch: &mut Handle,
    fault: &mut EditsFault,
) -> u32
    ensures answer { let held =
        unless (in_use batch.old.value) (in_handle as_end handle.old.value) in
        IsAnswerOrNoMemory
        (asked_of_open uri.now held (edits_asked encoding edits.now texts.now)) result
        (λ asked. AreBatched asked result batch.new.value fault.new) }
    ensures handle { handle.new.value ≡ handle.old.value }
    ensures unchanged { result ≢ OK → batch.new.value ≡ batch.old.value }
    ensures fault { IsUnlessFaulty result (fault.new ≡ fault.old) }
{
    let uri = or_return!(checked_text(uri));
    let encoding = or_return!(encoding_of(encoding));
    let passed = or_return!(Passed::new(edits, texts));
    or_return!(batch.check_empty(alloc));
    with_open!(handle, alloc, uri, |document| {
        let subject = Subject::Open(document);
        put_batch_of_edits(alloc, &subject, encoding, passed, batch, fault)
    })
}
