//! The functions on text edits.

ghost use Rattle.std.specs.Prelude.{◌≡◌, ◌≢◌, ◌⊎◌, IfErr, IfOk, None, Some, map};
ghost use Rattle.laspidru.specs.declared.object.Object.TheVariants.{Document as DocumentOf};
ghost use Rattle.laspidru.specs.Edits.{AreApplied, AreBatched, AreFaulty, IsBatchOfAsked};
ghost use Rattle.laspidru.specs.Edits.{IsEditsReport, IsUnlessFaulty, edits_asked};
ghost use Rattle.laspidru.specs.Edits.{replacement_by, replacement_of};
ghost use Rattle.laspidru.specs.inside.Passed.{edits_in, replacements_in, replacements_on};
ghost use Rattle.laspidru.specs.Codes.{IsAnswerOrNoMemory, unless};
ghost use Rattle.laspidru.specs.Objects.{as_document, in_handle, in_use};
ghost use Rattle.laspidru.specs.inside.Subjects.{subject_text};

use crate::changes::{Passed, encoding_of, is_end};
use crate::codes::{
    INSIDE_CHARACTER, OK, OUT_OF_MEMORY, OVERLAP, REVERSED_RANGE, TOO_LONG, or_return,
};
use crate::handle::{Handle, with_object};
use crate::object::Object;
use crate::structs::{Edit, EditsFault};
use lsp_buffer::TextBuffer;
use lsp_edit::{BatchFault, Change, IndexedText, MAX_OLD_TEXT, TextEdit, TextEditFault, fits};
use lsp_store::Document;
use lsp_text::{Encoding, Position, Range};
use std::alloc::{AllocError, Global};

/// From the start of a text to after its last line.
const WHOLE: Range = Range {
    start: Position {
        line: 0,
        character: 0,
    },
    stop: Position {
        line: u32::MAX,
        character: u32::MAX,
    },
};

/// Returns a change as a text edit.
fn text_edit_of(change: Change) -> TextEdit
    ensures { replacement_of result ≡ replacement_by change }
{
    TextEdit {
        range: change.range.unwrap_or(WHOLE),
        new_text: change.text,
    }
}

/// Returns edits that were passed as text edits.
fn text_edits_of(alloc: Global, passed: Passed<'_>) -> Result<Vec<TextEdit>, AllocError>
    ensures { IfOk result (λ edits. map replacement_of edits.items ≡ replacements_in passed.entry) }
{
    let mut edits = Vec::new(alloc);
    for change in passed.changes(alloc)? {
        edits.push(text_edit_of(change))?;
    }
    Ok(edits)
}

/// Returns the code of a fault. A fault of an edit is written to `out`, another leaves it as it is.
fn report_edits(fault: TextEditFault, out: &mut EditsFault) -> u32
    ensures report { IsEditsReport fault result out.new }
    ensures unchanged { IsUnlessFaulty result (out.new ≡ out.old) }
{
    let (code, edit, other, at_end) = match fault {
        TextEditFault::InsideCharacter { edit, side } => {
            (INSIDE_CHARACTER, edit, 0, is_end(side))
        }
        TextEditFault::ReversedRange { edit } => (REVERSED_RANGE, edit, 0, false),
        TextEditFault::Overlap { first, second } => (OVERLAP, first, second, false),
        TextEditFault::NoMemory => return OUT_OF_MEMORY,
    };
    *out = EditsFault {
        edit,
        other,
        at_end,
    };
    code
}

/// The text that text edits count in: of a document, or of an open document of an end.
#[derive(Drop)]
pub(crate) enum Subject<'a> {
    Own(&'a IndexedText),
    Open(Document<'a>),
}

impl Subject<'_> {
    /// Returns the text.
    fn text(&self) -> &TextBuffer
        ensures { result.now ≡ subject_text self.now }
    {
        match self {
            Subject::Own(document) => document.text(),
            Subject::Open(document) => document.text(),
        }
    }
}

/// Returns the canonical batch of what edits mean on a text, or the code of their refusal.
fn batch_of(
    alloc: Global,
    subject: &Subject<'_>,
    encoding: Encoding,
    passed: Passed<'_>,
    fault: &mut EditsFault,
) -> Result<Vec<Change>, u32>
    ensures ok { let asked = edits_in encoding passed.entry (subject_text subject.now) in
        IfOk result (λ changes. IsBatchOfAsked asked changes.items) }
    ensures error { let asked = edits_in encoding passed.entry (subject_text subject.now) in
        IfErr result (λ code. (code ≡ OUT_OF_MEMORY) ⊎ AreFaulty asked code fault.new) }
    ensures no_fault { IfOk result (λ changes. fault.new ≡ fault.old) }
    ensures unchanged { IfErr result (λ code. IsUnlessFaulty code (fault.new ≡ fault.old)) }
{
    let Ok(edits) = text_edits_of(alloc, passed) else {
        return Err(OUT_OF_MEMORY);
    };
    let batch = match subject {
        Subject::Own(document) => document.batch_of_edits(encoding, &edits),
        Subject::Open(document) => document.batch_of_edits(encoding, &edits),
    };
    match batch {
        Ok(changes) => Ok(changes),
        Err(error) => Err(report_edits(error, fault)),
    }
}

/// Puts the batch of text edits into an empty handle.
pub(crate) fn put_batch_of_edits(
    alloc: Global,
    subject: &Subject<'_>,
    encoding: Encoding,
    passed: Passed<'_>,
    batch: &mut Handle,
    fault: &mut EditsFault,
) -> u32
    requires { batch.old.value ≡ None }
    ensures answer { IsAnswerOrNoMemory
        (replacements_on encoding passed.entry (subject_text subject.now)) result
        (λ asked. AreBatched asked result batch.new.value fault.new) }
    ensures unchanged { result ≢ OK → batch.new.value ≡ None }
    ensures fault { IsUnlessFaulty result (fault.new ≡ fault.old) }
{
    or_return!(passed.check_on(subject.text()));
    let changes = or_return!(batch_of(alloc, subject, encoding, passed, fault));
    batch.fill(alloc, Object::Batch(changes))
}

/// Puts the canonical batch of what text edits mean on the text into an empty handle (LSP 3.17,
/// TextEdit[]). All their ranges count in the text as it is. The document stays as it is.
///
/// Codes, in this order: BAD_ENCODING; BAD_LENGTH or NOT_UTF8 of the first such edit; IN_USE of
/// `batch`; EMPTY, OTHER_KIND, TOO_LONG; OUT_OF_MEMORY, or the fault. That is INSIDE_CHARACTER or
/// REVERSED_RANGE of the first such edit, else OVERLAP. With these three `fault` says which edits
/// they are. Costs a pass over the texts, their copy, and [`IndexedText::batch_of_edits`].
#[unsafe(no_mangle)]
pub extern "C" fn laspidru_document_batch_of_edits(
    alloc: Global,
    handle: &mut Handle,
    encoding: u32,
    edits: &[Edit],
    texts: &[u8],
    batch: &mut Handle,
    fault: &mut EditsFault,
) -> u32
    ensures answer { let text =
        unless (in_use batch.old.value) (in_handle as_document handle.old.value) in
        IsAnswerOrNoMemory (edits_asked encoding edits.now texts.now text) result
        (λ asked. AreBatched asked result batch.new.value fault.new) }
    ensures handle { handle.new.value ≡ handle.old.value }
    ensures unchanged { result ≢ OK → batch.new.value ≡ batch.old.value }
    ensures fault { IsUnlessFaulty result (fault.new ≡ fault.old) }
{
    let encoding = or_return!(encoding_of(encoding));
    let passed = or_return!(Passed::new(edits, texts));
    or_return!(batch.check_empty(alloc));
    with_object!(handle, alloc, Object::Document(document) => {
        let subject = Subject::Own(document);
        put_batch_of_edits(alloc, &subject, encoding, passed, batch, fault)
    })
}

/// Makes text edits on a document.
fn apply_edits(
    alloc: Global,
    document: &mut IndexedText,
    encoding: Encoding,
    passed: Passed<'_>,
    fault: &mut EditsFault,
) -> u32
    ensures answer { IsAnswerOrNoMemory (replacements_on encoding passed.entry document.old) result
        (λ asked. AreApplied asked result (Some (DocumentOf document.new)) fault.new) }
    ensures unchanged { result ≢ OK → document.new ≡ document.old }
    ensures fault { IsUnlessFaulty result (fault.new ≡ fault.old) }
{
    or_return!(passed.check_on(document.text()));
    let subject = Subject::Own(document);
    let batch = or_return!(batch_of(alloc, &subject, encoding, passed, fault));
    if !fits(&batch) {
        return TOO_LONG;
    }
    match document.change(encoding, &batch, MAX_OLD_TEXT) {
        Ok(()) => OK,
        Err(BatchFault::TooLong) => TOO_LONG,
        Err(BatchFault::Edit(_) | BatchFault::NoMemory) => OUT_OF_MEMORY,
    }
}

/// Makes text edits, or none of them (LSP 3.17, TextEdit[]). All their ranges count in the text as
/// it is. Codes are those of [`laspidru_document_batch_of_edits`] without IN_USE, and TOO_LONG
/// where the text that would be left is too long. Costs that call and [`IndexedText::change`].
#[unsafe(no_mangle)]
pub extern "C" fn laspidru_document_apply_edits(
    alloc: Global,
    handle: &mut Handle,
    encoding: u32,
    edits: &[Edit],
    texts: &[u8],
    fault: &mut EditsFault,
) -> u32
    ensures answer { IsAnswerOrNoMemory
        (edits_asked encoding edits.now texts.now (in_handle as_document handle.old.value)) result
        (λ asked. AreApplied asked result handle.new.value fault.new) }
    ensures unchanged { result ≢ OK → handle.new.value ≡ handle.old.value }
    ensures fault { IsUnlessFaulty result (fault.new ≡ fault.old) }
{
    let encoding = or_return!(encoding_of(encoding));
    let passed = or_return!(Passed::new(edits, texts));
    with_object!(handle, alloc, mut Object::Document(document) => {
        apply_edits(alloc, document, encoding, passed, fault)
    })
}
