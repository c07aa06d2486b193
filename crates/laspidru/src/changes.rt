//! Edits that C passes, and the report of a change's fault.

ghost use Rattle.std.specs.Prelude.{◌≡◌, ◌≢◌, ◌<◌, ◌≤◌, ◌⊎◌, IfErr, IfOk, None, OnOk, Some, length};
ghost use Rattle.std.specs.Prelude.{map, string_len, sum_by, true};
ghost use Rattle.std.specs.Str.{is_utf8};
ghost use Rattle.lsp_edit.specs.declared.indexed.fault.BatchFault.TheVariants.{Edit as EditOf};
ghost use Rattle.lsp_edit.specs.Edited.{content_change};
ghost use Rattle.laspidru.specs.Objects.{encoding_at, position_at};
ghost use Rattle.laspidru.specs.Edits.{IsReport, edit_with, is_end, len_of, refused_edit};
ghost use Rattle.laspidru.specs.Edits.{replacement_by, replacement_with};

use crate::bytes::utf8_text;
use crate::codes::{
    BAD_ENCODING, BAD_LENGTH, INSIDE_CHARACTER, NOT_UTF8, OUT_OF_MEMORY, REVERSED_RANGE, TOO_LONG,
};
use crate::structs::{CPosition, Edit, FaultAt};
use lsp_buffer::TextBuffer;
use lsp_edit::{BatchFault, Change, EditFault, MAX_NEW_TEXT, MAX_OLD_TEXT, Side};
use lsp_text::{Encoding, Position, Range};
use std::alloc::{AllocError, Global};

/// Returns the encoding of a number: 8, 16 or 32. Another is BAD_ENCODING.
pub(crate) fn encoding_of(number: u32) -> Result<Encoding, u32>
    ensures { result ≡ encoding_at number }
{
    match number {
        8 => Ok(Encoding::Utf8),
        16 => Ok(Encoding::Utf16),
        32 => Ok(Encoding::Utf32),
        _ => Err(BAD_ENCODING),
    }
}

/// Returns a position of C.
pub(crate) fn position_of(place: CPosition) -> Position
    ensures { result ≡ position_at place }
{
    Position {
        line: place.line,
        character: place.character,
    }
}

/// Returns an edit with its text.
#[tactic(auto, using(crate::proofs::Utf8::utf8_is))]
fn change_of(alloc: Global, edit: Edit, own: &[u8]) -> Result<Change, AllocError>
    requires { is_utf8 own.now ≡ true }
    ensures change { IfOk result (λ change. content_change change ≡ edit_with edit own.now) }
    ensures edit { IfOk result (λ change. replacement_by change ≡ replacement_with edit own.now) }
    ensures len { IfOk result (λ change. string_len change.text ≡ length own.now) }
{
    // SAFETY: `Passed::new` has read each text.
    let text = unsafe { std::str::from_utf8_unchecked(own) }.to_string(alloc)?;
    let range = if edit.is_whole {
        None
    } else {
        Some(Range {
            start: position_of(edit.start),
            stop: position_of(edit.end),
        })
    };
    Ok(Change { range, text })
}

/// Edits that C passes, each with its text: the changes of a batch, or text edits.
#[derive(Clone, Copy)]
pub struct Passed<'a> {
    edits: &'a [Edit],
    texts: &'a [u8],
    ghost whole: { refused_edit edits.now texts.now ≡ None },
}

impl<'a> Passed<'a> {
    ghost use Rattle.laspidru.specs.inside.Passed.{changes_in, replacements_in};

    /// Returns the edits with their texts, or the code of the first whose text is missing or isn't
    /// UTF-8. Takes no memory.
    pub(crate) fn new(edits: &'a [Edit], texts: &'a [u8]) -> Result<Passed<'a>, u32>
        ensures ok { IfOk result (λ passed.
            (passed.edits.now ≡ edits.now) × (passed.texts.now ≡ texts.now)) }
        ensures error { IfErr result (λ code. refused_edit edits.now texts.now ≡ Some code) }
    {
        let mut rest = texts;
        for edit in edits {
            let Some((own, more)) = rest.split_at_checked(edit.len) else {
                return Err(BAD_LENGTH);
            };
            if utf8_text(own).is_none() {
                return Err(NOT_UTF8);
            }
            rest = more;
        }
        Ok(Passed { edits, texts })
    }

    /// Returns TOO_LONG if the texts together have more than [`MAX_NEW_TEXT`] bytes, or the text that
    /// they are for more than [`MAX_OLD_TEXT`].
    pub(crate) fn check_on(self, text: &TextBuffer) -> Result<(), u32>
        ensures ok { OnOk result ((len_of self.entry.edits.now ≤ MAX_NEW_TEXT)
            × (length text.now ≤ MAX_OLD_TEXT)) }
        ensures error { IfErr result (λ code. (code ≡ TOO_LONG)
            × ((MAX_NEW_TEXT < len_of self.entry.edits.now)
            ⊎ (MAX_OLD_TEXT < length text.now))) }
    {
        let mut room = MAX_NEW_TEXT;
        for edit in self.edits {
            if edit.len > room {
                return Err(TOO_LONG);
            }
            room -= edit.len;
        }
        if text.len() > MAX_OLD_TEXT {
            return Err(TOO_LONG);
        }
        Ok(())
    }

    /// Returns them as changes of a batch.
    pub(crate) fn changes(self, alloc: Global) -> Result<Vec<Change>, AllocError>
        ensures changes { IfOk result (λ changes.
            map content_change changes.items ≡ changes_in self.entry) }
        ensures edits { IfOk result (λ changes.
            map replacement_by changes.items ≡ replacements_in self.entry) }
        ensures len { IfOk result (λ changes.
            sum_by (λ change. string_len change.text) changes.items
            ≡ len_of self.entry.edits.now) }
    {
        let mut changes = Vec::new(alloc);
        let mut rest = self.texts;
        for edit in self.edits {
            let (own, more) = rest.split_at(edit.len);
            rest = more;
            changes.push(change_of(alloc, *edit, own)?)?;
        }
        Ok(changes)
    }
}

/// Returns whether it is the end of a range.
pub(crate) fn is_end(side: Side) -> bool
    ensures { result ≡ is_end side }
{
    match side {
        Side::Start => false,
        Side::Stop => true,
    }
}

/// Returns the code of a fault of a change. It is written to `out`; out of memory leaves `out`
/// as it is.
pub(crate) fn report_change(fault: EditFault, out: &mut FaultAt) -> u32
    ensures report { IsReport (EditOf fault) result out.new }
    ensures unchanged { result ≢ INSIDE_CHARACTER → result ≢ REVERSED_RANGE → out.new ≡ out.old }
{
    match fault {
        EditFault::InsideCharacter { change, side } => {
            *out = FaultAt {
                change,
                at_end: is_end(side),
            };
            INSIDE_CHARACTER
        }
        EditFault::ReversedRange { change } => {
            *out = FaultAt {
                change,
                at_end: false,
            };
            REVERSED_RANGE
        }
        EditFault::NoMemory => OUT_OF_MEMORY,
    }
}

/// Returns the code of a fault. A faulty change is written to `out`; another fault leaves `out` as
/// it is.
pub(crate) fn report(fault: BatchFault, out: &mut FaultAt) -> u32
    ensures report { IsReport fault result out.new }
    ensures unchanged { result ≢ INSIDE_CHARACTER → result ≢ REVERSED_RANGE → out.new ≡ out.old }
{
    match fault {
        BatchFault::Edit(fault) => report_change(fault, out),
        BatchFault::TooLong => TOO_LONG,
        BatchFault::NoMemory => OUT_OF_MEMORY,
    }
}
