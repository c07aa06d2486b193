//! What is suspicious of a message that wasn't refused, in words.

ghost use Rattle.std.specs.Prelude.{◌≡◌, ◌++◌, OnOk, codes, decimal};
ghost use Rattle.std.specs.Fmt.{signed_decimal};
ghost use Rattle.log_report.specs.Notes.{changes_words, note_words, notes_words, past_words, side_words, usual_words};
ghost use Rattle.log_report.specs.Reasons.{change_words, position_words};

use crate::members::{push_number, push_signed, push_words};
use crate::notes::Note;
use crate::printer::reasons::{push_change, push_position};
use lsp_edit::Side;
use lsp_text::Position;
use std::alloc::AllocError;

/// Writes notes, with words between two of them.
pub fn push_notes(buffer: &mut Vec<u8>, between: &str, notes: &[Note]) -> Result<(), AllocError>
    ensures { OnOk result
        (buffer.new.items ≡ buffer.old.items ++ notes_words between.now notes.now) }
{
    let Some((first, rest)) = notes.split_first() else {
        return Ok(());
    };
    push_note(buffer, *first)?;
    for note in rest {
        push_words(buffer, between)?;
        push_note(buffer, *note)?;
    }
    Ok(())
}

fn push_note(buffer: &mut Vec<u8>, note: Note) -> Result<(), AllocError>
    ensures { OnOk result (buffer.new.items ≡ buffer.old.items ++ note_words note) }
{
    match note {
        Note::OpenAlready => push_words(buffer, "the document was open already"),
        Note::LoneReturn => push_words(buffer, "a CR alone ends a line, and an LF another"),
        Note::OldVersion { sent, current } => push_old_version(buffer, sent, current),
        Note::OddVersion {
            sent,
            before,
            changes,
            usual,
        } => push_odd_version(buffer, sent, before, changes, usual),
        Note::NoChanges => push_words(buffer, "it has no changes"),
        Note::WholeText { change } => {
            push_remark(
                buffer,
                change,
                " is the whole text, and the server asked for ranges",
            )
        }
        Note::PastEnd {
            change,
            side,
            sent,
            taken,
        } => push_past_end(buffer, change, side, sent, taken),
        Note::WrongLength {
            change,
            sent,
            replaced,
            ..
        } => push_wrong_length(buffer, change, sent, replaced),
        Note::SameText { change } => push_remark(buffer, change, " changes nothing"),
        Note::PartSaved => push_words(buffer, "a part of the document was saved"),
        Note::OtherSaved { line } => push_other_saved(buffer, line),
    }
}

/// Writes the version that was sent, and the one before it.
fn push_old_version(buffer: &mut Vec<u8>, sent: i32, current: i32) -> Result<(), AllocError>
    ensures { OnOk result (buffer.new.items ≡ buffer.old.items ++ codes "version "
        ++ signed_decimal sent ++ codes " was sent, and the current one was "
        ++ signed_decimal current) }
{
    buffer.extend_from_slice(b"version ")?;
    push_signed(buffer, i64::from(sent))?;
    buffer.extend_from_slice(b" was sent, and the current one was ")?;
    push_signed(buffer, i64::from(current))
}

/// Writes a version, the one before it, how many changes it has, and what versions grew by before.
fn push_odd_version(
    buffer: &mut Vec<u8>,
    sent: i32,
    before: i32,
    changes: usize,
    usual: Option<u64>,
) -> Result<(), AllocError>
    ensures { OnOk result (buffer.new.items ≡ buffer.old.items
        ++ note_words (Note.OddVersion sent before changes usual)) }
{
    push_came_after(buffer, sent, before)?;
    push_words(buffer, ", with ")?;
    push_changes(buffer, changes)?;
    push_words(buffer, ", and until here it grew by ")?;
    push_usual(buffer, usual)
}

fn push_came_after(buffer: &mut Vec<u8>, sent: i32, before: i32) -> Result<(), AllocError>
    ensures { OnOk result (buffer.new.items ≡ buffer.old.items
        ++ codes "version " ++ signed_decimal sent ++ codes " came after "
        ++ signed_decimal before) }
{
    buffer.extend_from_slice(b"version ")?;
    push_signed(buffer, i64::from(sent))?;
    buffer.extend_from_slice(b" came after ")?;
    push_signed(buffer, i64::from(before))
}

/// Writes how many changes there are.
fn push_changes(buffer: &mut Vec<u8>, count: usize) -> Result<(), AllocError>
    ensures { OnOk result (buffer.new.items ≡ buffer.old.items ++ changes_words count) }
{
    if count == 1 {
        return push_words(buffer, "1 change");
    }
    push_number(buffer, count as u64)?;
    push_words(buffer, " changes")
}

/// Writes what versions grew by: a number, else the number of changes.
fn push_usual(buffer: &mut Vec<u8>, usual: Option<u64>) -> Result<(), AllocError>
    ensures { OnOk result (buffer.new.items ≡ buffer.old.items ++ usual_words usual) }
{
    match usual {
        Some(step) => push_number(buffer, step),
        None => push_words(buffer, "the number of changes"),
    }
}

/// Writes that an end of a change's range is past an end, and what it is taken as.
fn push_past_end(
    buffer: &mut Vec<u8>,
    index: usize,
    side: Side,
    sent: Position,
    taken: Position,
) -> Result<(), AllocError>
    ensures { OnOk result (buffer.new.items ≡ buffer.old.items ++ change_words index
        ++ side_words side ++ position_words sent ++ past_words sent taken
        ++ position_words taken ++ codes ")") }
{
    push_change(buffer, index)?;
    push_words(buffer, side_words(side))?;
    push_position(buffer, sent)?;
    push_words(buffer, past_words(sent, taken))?;
    push_position(buffer, taken)?;
    push_words(buffer, ")")
}

fn side_words(side: Side) -> &'static str
    ensures { result.now ≡ side_words side }
{
    match side {
        Side::Start => " starts at ",
        Side::Stop => " ends at ",
    }
}

/// Returns the words for the end that a position is past, by the position that it is taken as.
fn past_words(sent: Position, taken: Position) -> &'static str
    ensures { result.now ≡ past_words sent taken }
{
    if sent.line == taken.line {
        ", past the line's end (taken as "
    } else {
        ", past the last line (taken as "
    }
}

/// Writes the `rangeLength` of a change, and what it replaces.
fn push_wrong_length(
    buffer: &mut Vec<u8>,
    index: usize,
    sent: u64,
    replaced: usize,
) -> Result<(), AllocError>
    ensures { OnOk result (buffer.new.items ≡ buffer.old.items ++ change_words index
        ++ codes " has the rangeLength " ++ decimal sent ++ codes ", and replaces "
        ++ decimal replaced ++ codes " UTF-16 units") }
{
    push_change(buffer, index)?;
    push_words(buffer, " has the rangeLength ")?;
    push_number(buffer, sent)?;
    push_words(buffer, ", and replaces ")?;
    push_number(buffer, replaced as u64)?;
    push_words(buffer, " UTF-16 units")
}

/// Writes that another text was saved, and the first line that differs.
fn push_other_saved(buffer: &mut Vec<u8>, line: usize) -> Result<(), AllocError>
    ensures { OnOk result
        (buffer.new.items ≡ buffer.old.items ++ note_words (Note.OtherSaved line)) }
{
    push_words(
        buffer,
        "the saved text is not the document's: they differ in line ",
    )?;
    push_number(buffer, line as u64)?;
    push_words(buffer, " first")
}

/// Writes something of a change.
fn push_remark(buffer: &mut Vec<u8>, index: usize, words: &str) -> Result<(), AllocError>
    ensures { OnOk result
        (buffer.new.items ≡ buffer.old.items ++ (change_words index ++ words.now)) }
{
    push_change(buffer, index)?;
    push_words(buffer, words)
}
