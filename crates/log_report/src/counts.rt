//! How often what came, for the last lines of `check --explain`.

ghost use Rattle.std.specs.Prelude.{◌≡◌, OnOk, option_map};
ghost use Rattle.lsp_server.specs.Seen.{answer_view};
ghost use Rattle.log_report.specs.Counts.{answer_code, counted_code, counts_after, dropped_word, first_hidden, hidden_after};
ghost use Rattle.log_report.specs.Counts.{nothing_counted, tallied_notes};
ghost use Rattle.log_session.specs.Session.{count_if};
ghost use Rattle.log_session.specs.inside.Verdicts.{verdict_view};

pub(crate) mod tallies;

use crate::counts::tallies::{Tally, add, add_if};
use crate::notes::Note;
use crate::notes::kinds::note_kind;
use crate::printer::check::code_word;
use log_session::{Verdict, has_changed, is_refused, one_more};
use lsp_server::Answer;
use std::alloc::{AllocError, Global};
use std::marker::Model;

/// The records with notes that are on no line: how many there are, the first and the last.
#[derive(Clone, Copy)]
pub struct Hidden {
    pub count: u64,
    pub first: u64,
    pub last: u64,
}

impl Hidden {
    /// Takes a record of this number, which may have such notes.
    fn after(self, number: u64, hides: bool) -> Self
        ensures { result ≡ hidden_after self number hides }
    {
        if !hides {
            return self;
        }
        Hidden {
            count: one_more(self.count),
            first: self.first_after(number),
            last: number,
        }
    }

    /// Returns the first record with such notes, where one of this number has some.
    fn first_after(self, number: u64) -> u64
        ensures { result ≡ first_hidden self number }
    {
        if self.count == 0 { number } else { self.first }
    }
}

/// What is counted of the records of a log.
#[derive(Drop)]
pub struct Counts {
    alloc: Global,
    /// How many records changed documents.
    pub changed: u64,
    /// Those that were dropped, as one thing that was counted, if there are any.
    pub dropped: Vec<Tally>,
    /// Those that count as refused, by their codes.
    pub refused: Vec<Tally>,
    /// The kinds of the notes.
    pub noted: Vec<Tally>,
    /// Those with notes that are on no line.
    pub hidden: Hidden,
}

impl Model for Counts {
    ghost use Rattle.log_report.specs.Counts as spec;

    ghost Value = { spec.Counts };

    ghost view = { λ counts. record {
      changes = counts.changed;
      drops = counts.dropped.items;
      refusals = counts.refused.items;
      noted = counts.noted.items;
      hidden = counts.hidden;
    } };
}

impl Counts {
    /// Starts before the first record. Takes no memory.
    pub fn nothing(alloc: Global) -> Self
        ensures { result ≡ nothing_counted }
    {
        Counts {
            alloc,
            changed: 0,
            dropped: Vec::new(alloc),
            refused: Vec::new(alloc),
            noted: Vec::new(alloc),
            hidden: Hidden {
                count: 0,
                first: 0,
                last: 0,
            },
        }
    }

    /// Counts a record with this number and these notes. `hides`: are some of them on no line?
    pub fn count(
        &mut self,
        number: u64,
        verdict: &Verdict,
        notes: &[Note],
        hides: bool,
    ) -> Result<(), AllocError>
        ensures { OnOk result
            (self.new ≡ counts_after self.old number (verdict_view verdict.now) notes.now hides) }
    {
        self.hidden = self.hidden.after(number, hides);
        self.changed = count_if(has_changed(verdict), self.changed);
        add_if(self.alloc, &mut self.dropped, dropped_word(verdict), number)?;
        add_if(self.alloc, &mut self.refused, counted_code(verdict), number)?;
        add_notes(self.alloc, &mut self.noted, notes, number)
    }
}

/// Counts once more, if something counts.
pub fn count_if(counts: bool, count: u64) -> u64
    ensures { result ≡ count_if counts count }
{
    if counts { one_more(count) } else { count }
}

/// Returns the word of a record that was dropped.
fn dropped_word(verdict: &Verdict) -> Option<&'static str>
    ensures { option_map (λ word. word.now) result ≡ dropped_word (verdict_view verdict.now) }
{
    match verdict {
        Verdict::Answered(Answer::Dropped) => Some("dropped"),
        _ => None,
    }
}

/// Returns the code of a record that counts as refused.
fn counted_code(verdict: &Verdict) -> Option<&'static str>
    ensures { option_map (λ code. code.now) result ≡ counted_code (verdict_view verdict.now) }
{
    let Verdict::Answered(answer) = verdict else {
        return None;
    };
    if !is_refused(answer) {
        return None;
    }
    Some(answer_code(answer))
}

/// Returns the code of an answer that counts as refused.
fn answer_code(answer: &Answer) -> &'static str
    ensures { result.now ≡ answer_code (answer_view answer.now) }
{
    match answer {
        Answer::Reply { code, .. } => code_word(*code),
        Answer::Refused(refusal) => refusal.code(),
        Answer::Exit(_) => "exit 1",
        Answer::Changed | Answer::Dropped | Answer::Ignored => "",
    }
}

/// Counts the notes that came with the record of this number.
pub fn add_notes(
    alloc: Global,
    tallies: &mut Vec<Tally>,
    notes: &[Note],
    number: u64,
) -> Result<(), AllocError>
    ensures { OnOk result (tallies.new.items ≡ tallied_notes notes.now number tallies.old.items) }
{
    for note in notes {
        add(alloc, tallies, note_kind(*note), number)?;
    }
    Ok(())
}
