//! The kinds of notes, by which they are counted.

ghost use Rattle.std.specs.Prelude.{◌≡◌};
ghost use Rattle.log_report.specs.Notes.{note_kind};

use crate::notes::Note;

/// Returns the kind of a note, in words.
pub fn note_kind(note: Note) -> &'static str
    ensures { result.now ≡ note_kind note }
{
    match note {
        Note::OpenAlready => "open already",
        Note::LoneReturn => "a CR alone",
        Note::OldVersion { .. } => "an old version",
        Note::OddVersion { .. } => "an odd version",
        Note::NoChanges => "no changes",
        Note::WholeText { .. } => "a whole text",
        Note::PastEnd { sent, taken, .. } if sent.line == taken.line => "past the line's end",
        Note::PastEnd { .. } => "past the last line",
        Note::WrongLength {
            sent,
            characters,
            ..
        } if sent == characters as u64 => "rangeLength in characters",
        Note::WrongLength { .. } => "rangeLength",
        Note::SameText { .. } => "changes nothing",
        Note::PartSaved => "a part saved",
        Note::OtherSaved { .. } => "another text saved",
    }
}
