//! Text edits (LSP 3.17, TextEdit[]): the ranges of all edits count in one old text.
//!
//! Public clauses speak of indexes (`specs/TextEdits.antt`), private ones of offsets in sorted
//! order (`specs/inside/TextEdits.antt`), and each answer by offsets is proved to be one by
//! indexes. The way back needs no proof: `located` is a function of the list, so a list has one
//! batch by indexes at most, and none that `NoneOverlap` refuses.

ghost use Rattle.std.specs.Prelude.{◌≡◌, ◌≢◌, ◌⊎◌, ◌++◌, ◌∷◌, [], Err, IfErr, IfOk, IsOk, OnOk};
ghost use Rattle.std.specs.Str.{IsUtf8, chars};
ghost use Rattle.lsp_text.specs.Units.{units_in};
ghost use Rattle.lsp_edit.specs.declared.text_edits.TextEditFault.TheVariants.{NoMemory};
ghost use Rattle.lsp_edit.specs.Parts.{parts_of};
ghost use Rattle.lsp_edit.specs.TextEdits.{HasRangeFault, IsEditsFault, fault_of, located};
ghost use Rattle.lsp_edit.specs.inside.TextEdits.{AreApart, ArePlaced, DoOverlap, IsInOrder, AreLeftByEdits, parts_left};

use crate::ends::ends;
use crate::fault::{EditFault, Side};
use crate::pieces::span::{Span, push_new, push_old};
use lsp_buffer::TextBuffer;
use lsp_text::{Encoding, Range};
use std::alloc::{AllocError, Global};
use thiserror::Error;

/// One edit of a text (LSP 3.17, TextEdit): `new_text` replaces the range. With an empty range it
/// is an insertion.
#[derive(Debug, PartialEq, Eq, Drop)]
pub struct TextEdit {
    pub range: Range,
    pub new_text: String,
}

/// Why text edits have no meaning.
///
/// Edits are counted from 0. The first edit with a faulty range decides: first by its start, then
/// by its stop, then by their order. An overlap is reported only if no range is faulty.
#[derive(Clone, Copy, Debug, PartialEq, Eq, Error)]
pub enum TextEditFault {
    /// An end of the edit's range lies inside a character.
    #[error("edit at index {edit}: the {side} of its range lies inside a character")]
    InsideCharacter { edit: usize, side: Side },
    /// The edit's range starts after its end.
    #[error("edit at index {edit}: the range is reversed")]
    ReversedRange { edit: usize },
    /// The second edit starts before the first one stops. An insertion at the start of another edit
    /// must come before it in the list.
    #[error("edits at the indexes {first} and {second} overlap")]
    Overlap { first: usize, second: usize },
    /// Out of memory.
    #[error("out of memory")]
    NoMemory,
}

impl From<EditFault> for TextEditFault {
    ghost from_gives = { λ fault error. error ≡ fault_of fault };

    fn from(fault: EditFault) -> TextEditFault {
        match fault {
            EditFault::InsideCharacter { change, side } => {
                TextEditFault::InsideCharacter { edit: change, side }
            }
            EditFault::ReversedRange { change } => TextEditFault::ReversedRange { edit: change },
            EditFault::NoMemory => TextEditFault::NoMemory,
        }
    }
}

impl From<AllocError> for TextEditFault {
    ghost from_gives = { λ _ error. error ≡ NoMemory };

    fn from(_: AllocError) -> TextEditFault {
        TextEditFault::NoMemory
    }
}

/// An edit, with its number in the list and the byte offsets of its range in the old text.
#[derive(Clone, Copy, Debug)]
pub struct Placed<'a> {
    pub number: usize,
    pub start: usize,
    pub stop: usize,
    pub text: &'a str,
}

/// Checks the ranges of edits: an error is the first faulty one. Takes no memory.
fn check_ranges(text: &TextBuffer, encoding: Encoding, edits: &[TextEdit]) -> Result<(), EditFault>
    ensures ok { OnOk result (IsOk (located (units_in encoding) (chars text.now) 0 edits.now)) }
    ensures error { IfErr result (λ fault.
        HasRangeFault (units_in encoding) (chars text.now) edits.now (fault_of fault)) }
    ensures memory { result ≢ Err EditFault.NoMemory }
{
    for (number, edit) in edits.iter().enumerate() {
        ends(text, encoding, edit.range, number)?;
    }
    Ok(())
}

/// Returns the fault of edits. In place of out of memory it is the first fault of a range, if one
/// is faulty. Takes no memory.
pub fn decided_fault(
    text: &TextBuffer,
    encoding: Encoding,
    edits: &[TextEdit],
    fault: TextEditFault,
) -> TextEditFault
    ensures error { IsEditsFault (units_in encoding) (chars text.now) edits.now fault
        → IsEditsFault (units_in encoding) (chars text.now) edits.now result }
    ensures memory { result ≡ NoMemory
        → IsOk (located (units_in encoding) (chars text.now) 0 edits.now) }
{
    match fault {
        TextEditFault::NoMemory => match check_ranges(text, encoding, edits) {
            Ok(()) => TextEditFault::NoMemory,
            Err(fault) => TextEditFault::from(fault),
        },
        fault => fault,
    }
}

/// Returns the spans that edits leave of a text.
pub fn spans_of_edits<'a>(
    alloc: Global,
    text: &TextBuffer,
    encoding: Encoding,
    edits: &'a [TextEdit],
) -> Result<Vec<Span<'a>>, TextEditFault>
    ensures are { IfOk result (λ spans. AreLeftByEdits (units_in encoding) text.now edits.now
        (parts_of spans.items)) }
    ensures utf8 { OnOk result (IsUtf8 text.now) }
    ensures error { IfErr result (λ fault.
        IsEditsFault (units_in encoding) (chars text.now) edits.now fault) }
{
    let mut placed = place_all(alloc, text, encoding, edits)?;
    put_in_order(&mut placed)?;
    spans_left(alloc, text.len(), &placed)
}

/// Finds the byte offsets of each edit in a text.
fn place_all<'a>(
    alloc: Global,
    text: &TextBuffer,
    encoding: Encoding,
    edits: &'a [TextEdit],
) -> Result<Vec<Placed<'a>>, TextEditFault>
    ensures ok { IfOk result (λ placed.
        ArePlaced (units_in encoding) (chars text.now) edits.now [] placed.items) }
    ensures error { IfErr result (λ fault. (fault ≡ NoMemory)
        ⊎ HasRangeFault (units_in encoding) (chars text.now) edits.now fault) }
{
    let mut placed = Vec::new(alloc);
    for edit in edits {
        let number = placed.len();
        let (start, stop) = ends(text, encoding, edit.range, number)?;
        let text = &edit.new_text;
        let edit = Placed {
            number,
            start,
            stop,
            text,
        };
        push_placed(&mut placed, edit)?;
    }
    Ok(placed)
}

/// Appends an edit.
fn push_placed<'a>(placed: &mut Vec<Placed<'a>>, edit: Placed<'a>) -> Result<(), AllocError>
    ensures { OnOk result (placed.new.items ≡ placed.old.items ++ edit.entry ∷ []) }
{
    placed.push(edit)?;
    Ok(())
}

/// Sorts edits by their starts. Those with the same start keep the order of the list.
fn put_in_order(placed: &mut Vec<Placed>) -> Result<(), AllocError>
    ensures { OnOk result (IsInOrder placed.old.items placed.new.items) }
{
    placed.sort_by_key(|edit| edit.start)?;
    Ok(())
}

/// Returns the spans that edits in order leave of an old text of `len` bytes. An error reports two
/// neighbours that overlap.
fn spans_left<'a>(
    alloc: Global,
    len: usize,
    ordered: &[Placed<'a>],
) -> Result<Vec<Span<'a>>, TextEditFault>
    ensures ok { IfOk result (λ spans. (parts_of spans.items ≡ parts_left len 0 ordered.now)
        × AreApart 0 ordered.now) }
    ensures error { IfErr result (λ fault. (fault ≡ NoMemory) ⊎ DoOverlap ordered.now fault) }
{
    let mut spans = Vec::new(alloc);
    let mut low = 0;
    let mut last = 0;
    for edit in ordered {
        if edit.start < low {
            return Err(TextEditFault::Overlap {
                first: last,
                second: edit.number,
            });
        }
        push_old(&mut spans, low, edit.start)?;
        push_new(&mut spans, edit.text)?;
        low = edit.stop;
        last = edit.number;
    }
    push_old(&mut spans, low, len)?;
    Ok(spans)
}
