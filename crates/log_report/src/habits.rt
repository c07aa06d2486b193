//! What is known of a document by its records: which notes it often has, how its versions grow, and
//! which it left out.

ghost use Rattle.std.specs.Prelude.{◌≡◌, [], IfOk, OnOk, option_map};
ghost use Rattle.std.specs.List.{list_any};
ghost use Rattle.std.specs.Str.{bytes_eq};
ghost use Rattle.log_report.specs.Habits.{after_accepted, after_refused, all_but, documents_after, gaps_after, habits_after};
ghost use Rattle.log_report.specs.Habits.{habits_at, habits_of, is_habit, is_hidden, is_left_out, is_of_save, is_same_text, no_habits};
ghost use Rattle.log_report.specs.Habits.{rare_notes, sent_after, versions_after};
ghost use Rattle.log_report.specs.inside.Habits.{IsHabitsAt};

use crate::counts::tallies::{Tally, count_of};
use crate::counts::{add_notes, count_if};
use crate::growths::{Grown, Pace};
use crate::notes::Note;
use crate::notes::kinds::note_kind;
use std::alloc::{AllocError, Global};
use std::marker::Model;

/// A kind of note is a habit, if so many notes of the document had it already,
const HABIT_COUNT: u64 = 3;

/// and about one of so many records that changed it.
const HABIT_RATE: u64 = 100;

/// So many documents are kept, those that came last.
const DOCUMENTS: usize = 64;

/// Of a document so many changes are kept that left out versions.
const GAPS: usize = 16;

/// What is known of a document.
#[derive(Drop)]
pub struct Habits {
    uri: String,
    // How many records changed it.
    changes: u64,
    // Its notes, by their kinds.
    noted: Vec<Tally>,
    // How its versions grew.
    pace: Pace,
    // The version of a change that was refused, after those that weren't.
    rejected: Option<i32>,
    // The changes that left out versions, the newest first.
    gaps: Vec<Grown>,
}

impl Model for Habits {
    ghost use Rattle.std.specs.Prelude.{string_bytes};
    ghost use Rattle.log_report.specs.Habits as spec;

    ghost Value = { spec.Habits };

    ghost view = { λ habits. record {
      uri = string_bytes habits.uri;
      changes = habits.changes;
      noted = habits.noted.items;
      pace = habits.pace;
      rejected = habits.rejected;
      gaps = habits.gaps.items;
    } };
}

impl Habits {
    /// Starts before the first record.
    fn new(alloc: Global, uri: &str) -> Result<Self, AllocError>
        ensures { IfOk result (λ habits. habits ≡ no_habits uri.now) }
    {
        Ok(Habits {
            uri: String::from_str(alloc, uri)?,
            changes: 0,
            noted: Vec::new(alloc),
            pace: Pace::nothing(),
            rejected: None,
            gaps: Vec::new(alloc),
        })
    }

    /// Returns whether the document's URI is this one.
    fn is_of(&self, uri: &str) -> bool
        ensures { result ≡ bytes_eq self.now.uri uri.now }
    {
        self.uri.as_str() == uri
    }

    /// Returns the version that was sent before: the current one, or a greater one that was refused.
    fn sent_after(&self, current: i32) -> i32
        ensures { result ≡ sent_after self.now.rejected current }
    {
        match self.rejected {
            Some(rejected) if current < rejected => rejected,
            _ => current,
        }
    }

    /// Returns whether a version was left out.
    fn has_left_out(&self, version: i32) -> bool
        ensures { result ≡ is_left_out version self.now.gaps }
    {
        self.gaps.iter().any(|gap| gap.leaves_out(version))
    }

    /// Returns whether the kind of a note is a habit.
    fn is_habit(&self, note: Note) -> bool
        ensures { result ≡ is_habit self.now note }
    {
        let count = count_of(self.noted.as_slice(), note_kind(note));
        count >= HABIT_COUNT && self.changes / HABIT_RATE <= count
    }

    /// Takes a record with these notes, which changed the document, or whose version was refused.
    fn take(
        &mut self,
        alloc: Global,
        has_changed: bool,
        grown: Option<Grown>,
        rejected: Option<i32>,
        notes: &[Note],
    ) -> Result<(), AllocError>
        ensures { OnOk result
            (self.new ≡ habits_after has_changed grown rejected notes.now self.old) }
    {
        self.take_version(has_changed, grown, rejected)?;
        self.changes = count_if(has_changed, self.changes);
        add_notes(alloc, &mut self.noted, notes, 0)
    }

    /// Takes the version of a record that changed the document, or the one that was refused.
    fn take_version(
        &mut self,
        has_changed: bool,
        grown: Option<Grown>,
        rejected: Option<i32>,
    ) -> Result<(), AllocError>
        ensures { OnOk result (self.new ≡ versions_after has_changed grown rejected self.old) }
    {
        if has_changed {
            self.change(grown)
        } else {
            self.refuse(rejected);
            Ok(())
        }
    }

    /// Takes a record that changed the document. If its version doesn't grow, versions begin anew.
    fn change(&mut self, grown: Option<Grown>) -> Result<(), AllocError>
        ensures { OnOk result (self.new ≡ after_accepted grown self.old) }
    {
        self.rejected = None;
        match grown {
            Some(grown) => {
                self.pace = self.pace.after(grown);
                keep_gap(&mut self.gaps, grown)
            }
            None => {
                self.gaps.clear();
                Ok(())
            }
        }
    }

    /// Takes another record, by the version that was refused.
    fn refuse(&mut self, rejected: Option<i32>)
        ensures { self.new ≡ after_refused rejected self.old }
    {
        if rejected.is_some() {
            self.rejected = rejected;
        }
    }
}

/// Keeps a change that left out versions, if it did.
fn keep_gap(gaps: &mut Vec<Grown>, grown: Grown) -> Result<(), AllocError>
    ensures { OnOk result (gaps.new.items ≡ gaps_after grown gaps.old.items) }
{
    if grown.by == 1 {
        return Ok(());
    }
    gaps.insert(0, grown)?;
    gaps.truncate(GAPS);
    Ok(())
}

/// What is known of the documents that came last, the newest first.
#[derive(Drop)]
pub struct Documents {
    alloc: Global,
    pub newest: Vec<Habits>,
}

impl Documents {
    /// Starts with no document. Takes no memory.
    pub fn new(alloc: Global) -> Self
        ensures { result.newest.items ≡ [] }
    {
        Documents {
            alloc,
            newest: Vec::new(alloc),
        }
    }

    /// Returns the version of a document that was sent before: the current one, or a greater one that
    /// was refused.
    pub fn sent_after(&self, uri: &str, current: i32) -> i32
        ensures { result ≡ sent_after (habits_of uri.now self.now.newest.items).rejected current }
    {
        match index_of(self.newest.as_slice(), uri) {
            Some(index) => self.newest[index].sent_after(current),
            None => current,
        }
    }

    /// Returns how the versions of a document grew.
    pub fn pace(&self, uri: &str) -> Pace
        ensures { result ≡ (habits_of uri.now self.now.newest.items).pace }
    {
        match index_of(self.newest.as_slice(), uri) {
            Some(index) => self.newest[index].pace,
            None => Pace::nothing(),
        }
    }

    /// Returns whether a version of a document was left out.
    pub fn has_left_out(&self, uri: &str, version: i32) -> bool
        ensures { result ≡ is_left_out version (habits_of uri.now self.now.newest.items).gaps }
    {
        match index_of(self.newest.as_slice(), uri) {
            Some(index) => self.newest[index].has_left_out(version),
            None => false,
        }
    }

    /// Returns whether the kind of a note is a habit of its document.
    fn is_habit(&self, uri: Option<&str>, note: Note) -> bool
        ensures { result ≡ is_habit (habits_at (option_map (λ uri. uri.now) uri.entry)
            self.now.newest.items) note }
    {
        let Some(uri) = uri else {
            return false;
        };
        match index_of(self.newest.as_slice(), uri) {
            Some(index) => self.newest[index].is_habit(note),
            None => false,
        }
    }

    /// Returns whether a note of a document is on no line.
    fn is_hidden(&self, uri: Option<&str>, note: Note) -> bool
        ensures { result ≡ is_hidden (habits_at (option_map (λ uri. uri.now) uri.entry)
            self.now.newest.items) note }
    {
        is_same_text(note) || !is_of_save(note) && self.is_habit(uri, note)
    }

    /// Returns whether one of some notes of a document is on no line.
    pub fn has_hidden(&self, uri: Option<&str>, notes: &[Note]) -> bool
        ensures { result ≡ list_any (is_hidden (habits_at (option_map (λ uri. uri.now) uri.entry)
            self.now.newest.items)) notes.now }
    {
        notes.iter().any(|note| self.is_hidden(uri, *note))
    }

    /// Returns the notes of a document that are on a line.
    pub fn rare(&self, uri: Option<&str>, notes: &[Note]) -> Result<Vec<Note>, AllocError>
        ensures { IfOk result (λ rare. rare.items ≡ rare_notes (habits_at
            (option_map (λ uri. uri.now) uri.entry) self.now.newest.items) notes.now) }
    {
        let mut rare = Vec::new(self.alloc);
        for note in notes {
            if !self.is_hidden(uri, *note) {
                rare.push(*note)?;
            }
        }
        Ok(rare)
    }

    /// Takes a record about a document, with these notes, which changed it, or whose version was
    /// refused.
    pub fn take(
        &mut self,
        has_changed: bool,
        grown: Option<Grown>,
        rejected: Option<i32>,
        notes: &[Note],
        uri: Option<&str>,
    ) -> Result<(), AllocError>
        ensures { OnOk result (self.new.newest.items ≡ documents_after has_changed grown rejected
            notes.now (option_map (λ uri. uri.now) uri.entry) self.old.newest.items) }
    {
        let Some(uri) = uri else {
            return Ok(());
        };
        let mut habits = self.remove(uri)?;
        habits.take(self.alloc, has_changed, grown, rejected, notes)?;
        self.newest.insert(0, habits)?;
        self.newest.truncate(DOCUMENTS);
        Ok(())
    }

    /// Moves what is known of a document out of the list.
    fn remove(&mut self, uri: &str) -> Result<Habits, AllocError>
        ensures habits { IfOk result
            (λ habits. habits ≡ habits_of uri.now self.old.newest.items) }
        ensures others { OnOk result
            (self.new.newest.items ≡ all_but uri.now self.old.newest.items) }
    {
        match index_of(self.newest.as_slice(), uri) {
            Some(index) => Ok(self.newest.remove(index)),
            None => Habits::new(self.alloc, uri),
        }
    }
}

/// Returns whether a note is that a change's text is what it replaces.
fn is_same_text(note: Note) -> bool
    ensures { result ≡ is_same_text note }
{
    matches!(note, Note::SameText { .. })
}

/// Returns whether a note is of a saved text.
fn is_of_save(note: Note) -> bool
    ensures { result ≡ is_of_save note }
{
    matches!(note, Note::OtherSaved { .. } | Note::PartSaved)
}

/// Returns the index of a document.
fn index_of(documents: &[Habits], uri: &str) -> Option<usize>
    ensures { IsHabitsAt uri.now documents.now result }
{
    let mut next = 0;
    'documents: while next < documents.len() {
        if documents[next].is_of(uri) {
            return Some(next);
        }
        next += 1;
    }
    None
}
