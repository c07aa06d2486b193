//! The functions on documents.

ghost use Rattle.std.specs.Prelude.{◌≡◌, ◌≢◌, ◌≤◌, ◌+◌, IfOk, None, Some, length};
ghost use Rattle.std.specs.Str.{chars};
ghost use Rattle.lsp_text.specs.TextLines.{line_ends};
ghost use Rattle.laspidru.specs.declared.object.Object.TheVariants.{Document};
ghost use Rattle.laspidru.specs.Edits.{IsChanged, batch_asked};
ghost use Rattle.laspidru.specs.inside.Passed.{changes_on};
ghost use Rattle.laspidru.specs.Codes.{IsAnswer, IsAnswerOrNoMemory, unless};
ghost use Rattle.laspidru.specs.Objects.{IsCopy, as_document, in_handle, in_use};
ghost use Rattle.laspidru.specs.Objects.{rest_asked, text_asked};

use crate::bytes::{checked_text, copy_text};
use crate::changes::{Passed, encoding_of, report};
use crate::codes::{INSIDE_CHARACTER, OK, OUT_OF_MEMORY, REVERSED_RANGE, TOO_LONG, or_return};
use crate::handle::{Handle, with_object};
use crate::object::Object;
use crate::structs::{Edit, FaultAt, Size};
use lsp_edit::{IndexedText, MAX_OLD_TEXT};
use lsp_text::Encoding;
use std::alloc::{AllocError, Global};

/// Makes a document of a copy of a text.
fn document_of(alloc: Global, text: &str) -> Result<IndexedText, AllocError>
    requires { length text.now ≤ MAX_OLD_TEXT }
    ensures { IfOk result (λ document. document ≡ text.now) }
{
    IndexedText::new(alloc, text.to_string(alloc)?)
}

/// Makes a document in an empty handle, of a copy of the text. Codes, in this order: IN_USE,
/// TOO_LONG, NOT_UTF8; OUT_OF_MEMORY. Costs a copy of the text and two passes over it.
#[unsafe(no_mangle)]
pub extern "C" fn laspidru_document_new(alloc: Global, handle: &mut Handle, text: &[u8]) -> u32
    ensures answer { let asked = unless (in_use handle.old.value) (text_asked text.now) in
        IsAnswerOrNoMemory asked result
        (λ text. (result ≡ OK) × (handle.new.value ≡ Some (Document text))) }
    ensures unchanged { result ≢ OK → handle.new.value ≡ handle.old.value }
{
    or_return!(handle.check_empty(alloc));
    if text.len() > MAX_OLD_TEXT {
        return TOO_LONG;
    }
    let text = or_return!(checked_text(text));
    let Ok(document) = document_of(alloc, text) else {
        return OUT_OF_MEMORY;
    };
    handle.fill(alloc, Object::Document(document))
}

/// Frees the object in a handle. An empty handle stays empty. There is no code.
#[unsafe(no_mangle)]
pub extern "C" fn laspidru_handle_free(alloc: Global, handle: &mut Handle)
    ensures { handle.new.value ≡ None }
{
    drop(handle.take(alloc));
}

/// Applies the changes of a batch to a document.
fn change_document(
    alloc: Global,
    document: &mut IndexedText,
    encoding: Encoding,
    passed: Passed<'_>,
    fault: &mut FaultAt,
) -> u32
    ensures answer { IsAnswerOrNoMemory (changes_on encoding passed.entry document.old) result
        (λ asked. IsChanged asked result (Some (Document document.new)) fault.new) }
    ensures unchanged { result ≢ OK → document.new ≡ document.old }
    ensures fault { result ≢ INSIDE_CHARACTER → result ≢ REVERSED_RANGE → fault.new ≡ fault.old }
{
    or_return!(passed.check_on(document.text()));
    let Ok(changes) = passed.changes(alloc) else {
        return OUT_OF_MEMORY;
    };
    match document.change(encoding, &changes, MAX_OLD_TEXT) {
        Ok(()) => OK,
        Err(error) => report(error, fault),
    }
}

/// Applies the changes of a `didChange` in order, or none of them (LSP 3.17,
/// DidChangeTextDocumentParams). The texts of the edits follow each other in `texts`.
///
/// Codes, in this order: BAD_ENCODING; BAD_LENGTH or NOT_UTF8 of the first such edit; EMPTY,
/// OTHER_KIND, TOO_LONG. Then OUT_OF_MEMORY, or INSIDE_CHARACTER, REVERSED_RANGE or TOO_LONG if
/// there is no text after the batch. With the two codes of a faulty change `fault` says which
/// change it is.
///
/// Costs a pass over the texts, their copy, and [`IndexedText::change`].
#[unsafe(no_mangle)]
pub extern "C" fn laspidru_document_change(
    alloc: Global,
    handle: &mut Handle,
    encoding: u32,
    edits: &[Edit],
    texts: &[u8],
    fault: &mut FaultAt,
) -> u32
    ensures answer { IsAnswerOrNoMemory
        (batch_asked encoding edits.now texts.now (in_handle as_document handle.old.value)) result
        (λ asked. IsChanged asked result handle.new.value fault.new) }
    ensures unchanged { result ≢ OK → handle.new.value ≡ handle.old.value }
    ensures fault { result ≢ INSIDE_CHARACTER → result ≢ REVERSED_RANGE → fault.new ≡ fault.old }
{
    let encoding = or_return!(encoding_of(encoding));
    let passed = or_return!(Passed::new(edits, texts));
    with_object!(handle, alloc, mut Object::Document(document) => {
        change_document(alloc, document, encoding, passed, fault)
    })
}

/// Returns how many bytes and how many lines the text has. Codes: EMPTY, OTHER_KIND. Costs a search
/// for the last block.
#[tactic(auto, using(lsp_text::proofs::TextLines::IndexesLemmas::indexes_count))]
#[unsafe(no_mangle)]
pub extern "C" fn laspidru_document_size(alloc: Global, handle: &mut Handle, out: &mut Size) -> u32
    ensures answer { IsAnswer (in_handle as_document handle.old.value) result (λ text.
        (out.new.bytes ≡ length text) × (out.new.lines ≡ line_ends (chars text) + 1)) }
    ensures handle { handle.new.value ≡ handle.old.value }
    ensures unchanged { result ≢ OK → out.new ≡ out.old }
{
    with_object!(handle, alloc, Object::Document(document) => {
        *out = Size {
            bytes: document.text().len(),
            lines: document.text().line_count(),
        };
        OK
    })
}

/// Copies the bytes of the text from `start` on, as many as `out` has room for, and returns how
/// many. Codes, in this order: EMPTY, OTHER_KIND, OUT_OF_RANGE. Costs the copy.
#[unsafe(no_mangle)]
pub extern "C" fn laspidru_document_copy(
    alloc: Global,
    handle: &mut Handle,
    start: usize,
    out: &mut [u8],
    copied: &mut usize,
) -> u32
    ensures answer { IsAnswer (rest_asked start (in_handle as_document handle.old.value)) result
        (IsCopy out.old out.new copied.new) }
    ensures handle { handle.new.value ≡ handle.old.value }
    ensures unchanged { result ≢ OK → (out.new ≡ out.old) × (copied.new ≡ copied.old) }
{
    with_object!(handle, alloc, Object::Document(document) => {
        copy_text(document.text(), start, out, copied)
    })
}
