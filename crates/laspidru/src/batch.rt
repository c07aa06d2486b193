//! The functions on canonical batches.

ghost use Rattle.std.specs.Prelude.{◌≡◌, ◌≢◌, None, length, string_bytes};
ghost use Rattle.laspidru.specs.Edits.{LeavesCanonical, IsEdit, batch_asked, change_asked};
ghost use Rattle.laspidru.specs.inside.Passed.{changes_on};
ghost use Rattle.laspidru.specs.Codes.{IsAnswer, IsAnswerOrNoMemory, unless};
ghost use Rattle.laspidru.specs.Objects.{IsCopy, as_batch, as_document, in_handle, in_use};

use crate::bytes::copy_bytes;
use crate::changes::{Passed, encoding_of, report};
use crate::codes::{INSIDE_CHARACTER, OK, OUT_OF_MEMORY, OUT_OF_RANGE, REVERSED_RANGE, or_return};
use crate::handle::{Handle, with_object};
use crate::object::Object;
use crate::structs::{CPosition, Edit, FaultAt};
use lsp_edit::{Change, IndexedText, MAX_OLD_TEXT};
use lsp_text::Encoding;
use std::alloc::Global;

/// Puts the canonical batch of a batch on a text into an empty handle.
#[tactic(auto, using(crate::proofs::Batches::is_batch_of))]
fn put_canonical(
    alloc: Global,
    document: &IndexedText,
    encoding: Encoding,
    passed: Passed<'_>,
    batch: &mut Handle,
    fault: &mut FaultAt,
) -> u32
    requires { batch.old.value ≡ None }
    ensures answer { IsAnswerOrNoMemory (changes_on encoding passed.entry document.now) result
        (λ asked. LeavesCanonical asked result batch.new.value fault.new) }
    ensures unchanged { result ≢ OK → batch.new.value ≡ None }
    ensures fault { result ≢ INSIDE_CHARACTER → result ≢ REVERSED_RANGE → fault.new ≡ fault.old }
{
    or_return!(passed.check_on(document.text()));
    let Ok(changes) = passed.changes(alloc) else {
        return OUT_OF_MEMORY;
    };
    match document.canonical(encoding, &changes, MAX_OLD_TEXT) {
        Ok(canonical) => batch.fill(alloc, Object::Batch(canonical)),
        Err(error) => report(error, fault),
    }
}

/// Puts the canonical batch of a batch on the text into an empty handle. It has one change for each
/// changed gap, from the last to the first. The document stays as it is. Codes and cost are those
/// of `laspidru_document_change`, with IN_USE of `batch` before EMPTY.
#[unsafe(no_mangle)]
pub extern "C" fn laspidru_document_canonical(
    alloc: Global,
    handle: &mut Handle,
    encoding: u32,
    edits: &[Edit],
    texts: &[u8],
    batch: &mut Handle,
    fault: &mut FaultAt,
) -> u32
    ensures answer { let text =
        unless (in_use batch.old.value) (in_handle as_document handle.old.value) in
        IsAnswerOrNoMemory (batch_asked encoding edits.now texts.now text) result
        (λ asked. LeavesCanonical asked result batch.new.value fault.new) }
    ensures handle { handle.new.value ≡ handle.old.value }
    ensures unchanged { result ≢ OK → batch.new.value ≡ batch.old.value }
    ensures fault { result ≢ INSIDE_CHARACTER → result ≢ REVERSED_RANGE → fault.new ≡ fault.old }
{
    let encoding = or_return!(encoding_of(encoding));
    let passed = or_return!(Passed::new(edits, texts));
    or_return!(batch.check_empty(alloc));
    with_object!(handle, alloc, Object::Document(document) => {
        put_canonical(alloc, document, encoding, passed, batch, fault)
    })
}

/// Returns how many changes a batch has, in constant time. Codes: EMPTY, OTHER_KIND.
#[unsafe(no_mangle)]
pub extern "C" fn laspidru_batch_len(alloc: Global, batch: &mut Handle, out: &mut usize) -> u32
    ensures answer { IsAnswer (in_handle as_batch batch.old.value) result
        (λ changes. out.new ≡ length changes) }
    ensures handle { batch.new.value ≡ batch.old.value }
    ensures unchanged { result ≢ OK → out.new ≡ out.old }
{
    with_object!(batch, alloc, Object::Batch(changes) => {
        *out = changes.len();
        OK
    })
}

/// Returns a change for C. One of the whole text has positions of zeros.
fn edit_of_change(change: &Change) -> Edit
    ensures { IsEdit result change.now }
{
    let zero = CPosition {
        line: 0,
        character: 0,
    };
    let (start, end) = match change.range {
        Some(range) => (CPosition::from(range.start), CPosition::from(range.stop)),
        None => (zero, zero),
    };
    Edit {
        start,
        end,
        len: change.text.len(),
        is_whole: change.range.is_none(),
    }
}

/// Returns a change of a batch, counted from 0, with the length of its text. Copies as much of the
/// text as `out` has room for. Codes, in this order: EMPTY, OTHER_KIND, OUT_OF_RANGE. Costs the
/// copy.
#[unsafe(no_mangle)]
pub extern "C" fn laspidru_batch_edit(
    alloc: Global,
    batch: &mut Handle,
    index: usize,
    out_edit: &mut Edit,
    out: &mut [u8],
    copied: &mut usize,
) -> u32
    ensures answer { IsAnswer (change_asked index (in_handle as_batch batch.old.value)) result
        (λ change. IsEdit out_edit.new change
        × IsCopy out.old out.new copied.new (string_bytes change.text)) }
    ensures handle { batch.new.value ≡ batch.old.value }
    ensures unchanged { result ≢ OK
        → (out_edit.new ≡ out_edit.old) × (out.new ≡ out.old) × (copied.new ≡ copied.old) }
{
    with_object!(batch, alloc, Object::Batch(changes) => match changes.get(index) {
        Some(change) => {
            *copied = copy_bytes(change.text.as_bytes(), out);
            *out_edit = edit_of_change(change);
            OK
        }
        None => OUT_OF_RANGE,
    })
}
