//! What is suspicious of the changes of a message, each on the text that the one before it leaves.

ghost use Rattle.std.specs.Prelude.{◌≡◌, ◌≤◌, ◌++◌, OnOk, length, map, option_map};
ghost use Rattle.std.specs.Str.{bytes_eq, chars};
ghost use Rattle.lsp_text.specs.Units.{units_in};
ghost use Rattle.lsp_edit.specs.Edited.{content_change};
ghost use Rattle.log_report.specs.Notes.{batch_notes, change_notes, end_notes, is_same, length_at, length_notes};
ghost use Rattle.log_report.specs.Notes.{range_notes, same_notes, taken_as};
ghost use Rattle.log_report.specs.inside.Terms.{terms_view};

pub(crate) mod replaced;

use crate::notes::Note;
use crate::notes::changes::replaced::{leave, replaced_by};
use crate::notes::units::units_of;
use lsp_buffer::TextBuffer;
use lsp_edit::{Change, Side};
use lsp_text::{Encoding, Position, Range};
use std::alloc::{AllocError, Global};

/// What the notes of changes go by beside the text.
#[derive(Clone, Copy)]
pub struct Terms<'a> {
    pub encoding: Encoding,
    /// The `rangeLength` of each change.
    pub lengths: &'a [Option<u64>],
    /// Whether the server asked for ranges.
    pub ranged: bool,
}

impl Terms<'_> {
    /// Returns the `rangeLength` of a change, by its index.
    fn length(&self, index: usize) -> Option<u64>
        ensures { result ≡ length_at (terms_view self.now).lengths index }
    {
        self.lengths.get(index).copied().flatten()
    }
}

/// Notes what is suspicious of a batch on a text. Several changes are applied to a copy, which
/// shares its blocks with the text.
pub fn push_batch_notes(
    alloc: Global,
    notes: &mut Vec<Note>,
    text: &TextBuffer,
    terms: &Terms<'_>,
    changes: &[Change],
) -> Result<(), AllocError>
    requires { length text.now ≤ 1073741824 }
    ensures { OnOk result (notes.new.items ≡ notes.old.items
        ++ batch_notes (terms_view terms.now) text.now (map content_change changes.now)) }
{
    match changes {
        [] => {
            notes.push(Note::NoChanges)?;
            Ok(())
        }
        [change] => push_change_notes(alloc, notes, text, terms, 0, change),
        _ => {
            let mut left = text.clone_in(alloc)?;
            for (index, change) in changes.iter().enumerate() {
                push_change_notes(alloc, notes, &left, terms, index, change)?;
                if !leave(alloc, &mut left, terms.encoding, change)? {
                    return Ok(());
                }
            }
            Ok(())
        }
    }
}

/// Notes what is suspicious of a change on a text.
fn push_change_notes(
    alloc: Global,
    notes: &mut Vec<Note>,
    text: &TextBuffer,
    terms: &Terms<'_>,
    index: usize,
    change: &Change,
) -> Result<(), AllocError>
    ensures { OnOk result (notes.new.items ≡ notes.old.items
        ++ change_notes (terms_view terms.now) (chars text.now) index (content_change change.now)) }
{
    let encoding = terms.encoding;
    let replaced = replaced_by(alloc, text, encoding, change.range)?;
    let replaced = replaced.as_deref();
    if terms.ranged && change.range.is_none() {
        notes.push(Note::WholeText { change: index })?;
    }
    push_range_notes(notes, text, encoding, index, change.range)?;
    push_length_note(notes, encoding, index, terms.length(index), replaced)?;
    push_same_note(notes, index, &change.text, replaced)
}

/// Notes a `rangeLength` that is neither the units of what is replaced nor its UTF-16 units, with
/// the number of its characters, which some editors count.
fn push_length_note(
    notes: &mut Vec<Note>,
    encoding: Encoding,
    index: usize,
    sent: Option<u64>,
    replaced: Option<&str>,
) -> Result<(), AllocError>
    ensures { OnOk result (notes.new.items ≡ notes.old.items ++ length_notes (units_in encoding)
        index sent (option_map (λ part. chars part.now) replaced.entry)) }
{
    let Some(sent) = sent else {
        return Ok(());
    };
    let Some(replaced) = replaced else {
        return Ok(());
    };
    let units = units_of(Encoding::Utf16, replaced);
    if sent != units as u64 && sent != units_of(encoding, replaced) as u64 {
        notes.push(Note::WrongLength {
            change: index,
            sent,
            replaced: units,
            characters: units_of(Encoding::Utf32, replaced),
        })?;
    }
    Ok(())
}

/// Notes the ends of a range that are past an end. An empty range is noted once.
fn push_range_notes(
    notes: &mut Vec<Note>,
    text: &TextBuffer,
    encoding: Encoding,
    index: usize,
    range: Option<Range>,
) -> Result<(), AllocError>
    ensures { OnOk result (notes.new.items ≡ notes.old.items
        ++ range_notes (units_in encoding) (chars text.now) index range) }
{
    let Some(Range { start, stop }) = range else {
        return Ok(());
    };
    let taken = taken_as(text, encoding, start);
    push_end_note(notes, index, Side::Start, start, taken)?;
    if is_same(start, stop) {
        return Ok(());
    }
    let taken = taken_as(text, encoding, stop);
    push_end_note(notes, index, Side::Stop, stop, taken)
}

/// Notes an end of a range that is taken as another position.
fn push_end_note(
    notes: &mut Vec<Note>,
    index: usize,
    side: Side,
    sent: Position,
    taken: Option<Position>,
) -> Result<(), AllocError>
    ensures { OnOk result
        (notes.new.items ≡ notes.old.items ++ end_notes index side sent taken) }
{
    let Some(taken) = taken else {
        return Ok(());
    };
    if !is_same(sent, taken) {
        notes.push(Note::PastEnd {
            change: index,
            side,
            sent,
            taken,
        })?;
    }
    Ok(())
}

/// Returns whether two positions are equal.
fn is_same(position: Position, other: Position) -> bool
    ensures { result ≡ is_same position other }
{
    position == other
}

/// Returns the exact position of what a position denotes in a text.
fn taken_as(text: &TextBuffer, encoding: Encoding, position: Position) -> Option<Position>
    ensures { result ≡ taken_as (units_in encoding) (chars text.now) position }
{
    match text.resolve(encoding, position) {
        Ok(offset) => Some(text.position(encoding, offset)),
        Err(_) => None,
    }
}

/// Notes a text that is what it replaces.
fn push_same_note(
    notes: &mut Vec<Note>,
    index: usize,
    new: &str,
    replaced: Option<&str>,
) -> Result<(), AllocError>
    ensures { OnOk result (notes.new.items ≡ notes.old.items
        ++ same_notes index (chars new.now) (option_map (λ part. chars part.now) replaced.entry)) }
{
    let Some(replaced) = replaced else {
        return Ok(());
    };
    if is_same_text(new, replaced) {
        notes.push(Note::SameText { change: index })?;
    }
    Ok(())
}

/// Returns whether two texts are equal.
#[tactic(auto, using(crate::proofs::Reports::NoteLemmas::same_chars))]
fn is_same_text(text: &str, other: &str) -> bool
    ensures { result ≡ bytes_eq (chars text.now) (chars other.now) }
{
    text == other
}
