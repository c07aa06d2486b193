//! `check` with reasons: what a server answers to each record of a log, why it was refused, and
//! what is suspicious of it.

ghost use Rattle.std.specs.Prelude.{◌≡◌, ◌++◌, IfOk, OnOk, codes, decimal, flat_map, option_map, true};
ghost use Rattle.log_report.specs.Counts.{counts_words};
ghost use Rattle.log_session.specs.Settings.{log_config};
ghost use Rattle.log_report.specs.Lines.{lines, nothing_known};
ghost use Rattle.log_session.specs.Session.{is_new, opened};
ghost use Rattle.log_report.specs.Tallies.{tally_words};
ghost use Rattle.log_report.specs.Explain.{advice, closing_lines, document_words, explaining, explanation, few_note, few_notes, first_advice, hidden_advice};
ghost use Rattle.log_report.specs.Explain.{is_listed, left_words, line_with, listed_line, remark, see_words};
ghost use Rattle.log_session.specs.inside.Printer.{state_in};
ghost use Rattle.log_report.specs.inside.Facts.{facts_view, listed_by, noted_by};
ghost use Rattle.log_session.specs.inside.Verdicts.{verdict_view};

use crate::commands::explain::Listing;
use crate::counts::tallies::{Tally, add, count_of, has_tallies};
use crate::counts::{Counts, Hidden};
use crate::facts::{Facts, Known};
use crate::members::{push_if, push_json_string, push_number, push_words};
use crate::notes::Note;
use crate::notes::kinds::note_kind;
use crate::printer::check::push_verdict;
use crate::printer::noted::push_notes;
use crate::printer::reasons::{push_hint, push_reason};
use log_session::{
    Finished, Given, Nothing, Output, Printed, Printer, RecordBody, Session, Settings, Verdict,
    is_refused, refuses,
};
use lsp_frame::Limits;
use lsp_log::Record;
use lsp_server::Phase;
use std::alloc::{AllocError, Global};

/// A line has at most so many notes of a kind.
const MOST_NOTES: u64 = 3;

/// Writes a line for each record, or for some, and at the end what came how often and what to do
/// next.
#[derive(Drop)]
pub struct Explain {
    pub session: Session,
    pub known: Known,
    pub alloc: Global,
    pub listing: Listing,
}

impl Explain {
    /// Starts before the first record.
    pub fn new(alloc: Global, settings: Settings, listing: Listing) -> Explain
        ensures session { result.session ≡ opened (log_config settings) }
        ensures known { result.known ≡ nothing_known }
        ensures listing { result.listing ≡ listing }
    {
        Explain {
            session: settings.session(alloc),
            known: Known::nothing(alloc),
            alloc,
            listing,
        }
    }

    /// Writes the line of a record, if it has one.
    fn push_facts(&self, buffer: &mut Vec<u8>, facts: &Facts) -> Result<(), AllocError>
        ensures { OnOk result (buffer.new.items ≡ buffer.old.items
            ++ listed_line self.now.listing self.now.session.server.config.limits
            (facts_view facts.now) (noted_by facts.now) (listed_by self.now.listing facts.now)) }
    {
        let notes = listed_notes(self.listing, facts);
        if !is_listed(self.listing, &facts.verdict, notes) {
            return Ok(());
        }
        let limits = self.session.server().store().limits();
        push_line(self.alloc, buffer, limits, facts, notes)
    }

    /// Writes the lines at the end.
    fn push_end(&self, buffer: &mut Vec<u8>) -> Result<(), AllocError>
        ensures { OnOk result (buffer.new.items ≡ buffer.old.items
            ++ closing_lines self.now.listing self.now.known self.now.session) }
    {
        if self.session.records() == 0 {
            return push_words(buffer, "The log has no messages.\n");
        }
        push_counts(buffer, self.session.outcome().messages, &self.known.counts)?;
        self.push_advice(buffer)
    }

    /// Writes what to do next.
    fn push_advice(&self, buffer: &mut Vec<u8>) -> Result<(), AllocError>
        ensures { OnOk result (buffer.new.items ≡ buffer.old.items
            ++ advice self.now.listing self.now.session self.now.known) }
    {
        let noted = self.known.counts.noted.as_slice();
        let refusals = self.session.outcome().refused;
        let phase = self.session.server().phase();
        push_words(buffer, first_advice(phase, refusals, has_tallies(noted)))?;
        push_if(
            buffer,
            self.known.strict_refusal,
            "Many servers don't refuse what is S1 or S5 here. `--lenient` doesn't either.\n",
        )?;
        push_hidden(buffer, self.listing.all, self.known.counts.hidden)
    }
}

impl Printer for Explain {
    ghost state = { λ explain.
        state_in (lines (explaining explain.listing)) explain.known explain.session };

    ghost NOTES = { true };

    const NOTES: bool = true;

    fn session(&self) -> &Session {
        &self.session
    }

    fn print(&mut self, item: &Record<'_>, read: RecordBody<'_>, buffer: &mut Vec<u8>) -> Printed {
        let mut witness = Nothing;
        let facts = self
            .known
            .take(&mut self.session, item, read, &mut witness)?;
        self.push_facts(buffer, &facts)?;
        Ok(Given::more(Output::Bytes))
    }

    fn finish(&mut self, _line_due: bool, buffer: &mut Vec<u8>) -> Finished {
        self.push_end(buffer)?;
        Ok(Some(self.session.outcome()))
    }
}

/// Writes which messages have notes that are on no line, if some do.
fn push_hidden(buffer: &mut Vec<u8>, all: bool, hidden: Hidden) -> Result<(), AllocError>
    ensures { OnOk result (buffer.new.items ≡ buffer.old.items ++ hidden_advice all hidden) }
{
    if all || hidden.count == 0 {
        return Ok(());
    }
    push_words(buffer, "Messages with notes that are on no line: ")?;
    push_number(buffer, hidden.count)?;
    push_words(buffer, ", from ")?;
    push_number(buffer, hidden.first)?;
    push_words(buffer, " to ")?;
    push_number(buffer, hidden.last)?;
    push_words(buffer, "; `--all` has them.\n")
}

/// Returns the notes on the line of a record: those that aren't hidden, or each.
fn listed_notes(listing: Listing, facts: &Facts) -> &[Note]
    ensures { result.now ≡ listed_by listing facts.now }
{
    if listing.all {
        facts.notes.as_slice()
    } else {
        facts.rare.as_slice()
    }
}

/// Returns whether a record with these notes on its line has one.
fn is_listed(listing: Listing, verdict: &Verdict, notes: &[Note]) -> bool
    ensures { result ≡ is_listed listing (verdict_view verdict.now) notes.now }
{
    !listing.brief || refuses(verdict) || !notes.is_empty()
}

/// Writes the line of a record, with these notes.
fn push_line(
    alloc: Global,
    buffer: &mut Vec<u8>,
    limits: Limits,
    facts: &Facts,
    notes: &[Note],
) -> Result<(), AllocError>
    ensures { OnOk result (buffer.new.items ≡ buffer.old.items
        ++ line_with limits (facts_view facts.now) (noted_by facts.now) notes.now) }
{
    push_number(buffer, facts.number)?;
    buffer.extend_from_slice(b" ")?;
    push_verdict(buffer, &facts.verdict)?;
    push_explanation(alloc, buffer, limits, facts)?;
    push_remark(alloc, buffer, facts.noted(), notes)?;
    buffer.extend_from_slice(b"\n")
}

/// Writes why a record was refused, if it was.
fn push_explanation(
    alloc: Global,
    buffer: &mut Vec<u8>,
    limits: Limits,
    facts: &Facts,
) -> Result<(), AllocError>
    ensures { OnOk result (buffer.new.items ≡ buffer.old.items
        ++ explanation limits (facts_view facts.now) (noted_by facts.now)
        (verdict_view facts.now.verdict)) }
{
    let Verdict::Answered(answer) = &facts.verdict else {
        return Ok(());
    };
    if !is_refused(answer) {
        return Ok(());
    }
    push_document(alloc, buffer, facts.noted())?;
    buffer.extend_from_slice(b": ")?;
    push_reason(buffer, limits, facts.change.as_ref(), answer)?;
    push_hint(buffer, facts.hint)?;
    push_see(buffer, facts.last)
}

/// Writes what is suspicious of a record, and of which document, if something is.
fn push_remark(
    alloc: Global,
    buffer: &mut Vec<u8>,
    uri: Option<&str>,
    notes: &[Note],
) -> Result<(), AllocError>
    ensures { OnOk result (buffer.new.items ≡ buffer.old.items
        ++ remark (option_map (λ uri. uri.now) uri.entry) notes.now) }
{
    if notes.is_empty() {
        return Ok(());
    }
    let few = few_notes(alloc, notes)?;
    push_document(alloc, buffer, uri)?;
    buffer.extend_from_slice(b": ")?;
    push_notes(buffer, "; ", few.as_slice())?;
    push_left(buffer, notes.len().saturating_sub(few.len()))
}

/// Returns the notes that a line has of some: at most three of a kind.
fn few_notes(alloc: Global, notes: &[Note]) -> Result<Vec<Note>, AllocError>
    ensures { IfOk result (λ few. few.items ≡ few_notes notes.now) }
{
    let mut few = Vec::new(alloc);
    let mut kinds = Vec::new(alloc);
    for note in notes {
        push_few(&mut few, kinds.as_slice(), *note)?;
        add(alloc, &mut kinds, note_kind(*note), 0)?;
    }
    Ok(few)
}

/// Adds a note, unless so many of its kind were counted.
fn push_few(few: &mut Vec<Note>, kinds: &[Tally], note: Note) -> Result<(), AllocError>
    ensures { OnOk result (few.new.items ≡ few.old.items ++ few_note kinds.now note) }
{
    if count_of(kinds, note_kind(note)) < MOST_NOTES {
        few.push(note)?;
    }
    Ok(())
}

/// Writes how many notes a line leaves out, if it does.
fn push_left(buffer: &mut Vec<u8>, left: usize) -> Result<(), AllocError>
    ensures { OnOk result (buffer.new.items ≡ buffer.old.items ++ left_words left) }
{
    if left == 0 {
        return Ok(());
    }
    push_words(buffer, "; and ")?;
    push_number(buffer, left as u64)?;
    push_words(buffer, " more")
}

/// Writes the document that a record or its notes are about.
fn push_document(alloc: Global, buffer: &mut Vec<u8>, uri: Option<&str>) -> Result<(), AllocError>
    ensures { OnOk result (buffer.new.items ≡ buffer.old.items
        ++ document_words (option_map (λ uri. uri.now) uri.entry)) }
{
    let Some(uri) = uri else {
        return Ok(());
    };
    buffer.extend_from_slice(b" of ")?;
    push_json_string(alloc, buffer, uri)
}

/// Writes which record to look at, if there is one.
fn push_see(buffer: &mut Vec<u8>, last: Option<u64>) -> Result<(), AllocError>
    ensures { OnOk result (buffer.new.items ≡ buffer.old.items ++ see_words last) }
{
    let Some(number) = last else {
        return Ok(());
    };
    buffer.extend_from_slice(b"; see message ")?;
    push_number(buffer, number)
}

/// Writes how many messages the editor sent, and what came how often.
fn push_counts(buffer: &mut Vec<u8>, messages: u64, counts: &Counts) -> Result<(), AllocError>
    ensures { OnOk result
        (buffer.new.items ≡ buffer.old.items ++ counts_words messages counts.now) }
{
    push_words(buffer, "messages of the editor: ")?;
    push_number(buffer, messages)?;
    push_words(buffer, ", changed documents: ")?;
    push_number(buffer, counts.changed)?;
    push_words(buffer, "\n")?;
    push_tallies(buffer, "", &counts.dropped)?;
    push_tallies(buffer, "refused by ", &counts.refused)?;
    push_tallies(buffer, "noted ", &counts.noted)
}

/// Writes a line for each thing that was counted.
fn push_tallies(buffer: &mut Vec<u8>, front: &str, tallies: &[Tally]) -> Result<(), AllocError>
    ensures { OnOk result (buffer.new.items ≡ buffer.old.items
        ++ flat_map (tally_words front.now) tallies.now) }
{
    for tally in tallies {
        push_tally(buffer, front, tally)?;
    }
    Ok(())
}

/// Writes how often something came, and with which record first.
fn push_tally(buffer: &mut Vec<u8>, front: &str, tally: &Tally) -> Result<(), AllocError>
    ensures { OnOk result
        (buffer.new.items ≡ buffer.old.items ++ tally_words front.now tally.now) }
{
    push_words(buffer, front)?;
    push_words(buffer, &tally.words)?;
    push_words(buffer, ": ")?;
    push_number(buffer, tally.count())?;
    push_words(buffer, ", first message ")?;
    push_number(buffer, tally.first)?;
    push_words(buffer, "\n")
}

/// Returns what to do first, after so many refusals, with the server in this phase.
fn first_advice(phase: Phase, refusals: u64, suspicious: bool) -> &'static str
    ensures { result.now ≡ first_advice phase refusals suspicious }
{
    if is_new(phase) {
        return "The log lacks its beginning: no `initialize` started the server, so no message changes a text (LOGS.md).\n";
    }
    if refusals != 0 {
        return "Refused messages change nothing. `lspsync replay --at N`: the texts after message N.\n";
    }
    if suspicious {
        "Nothing was refused; see the notes. `lspsync replay --at N`: the texts after message N.\n"
    } else {
        "Nothing was refused. `lspsync compare SAVED LOG` says where a saved file differs, and by which messages.\n"
    }
}

/// Returns whether the server was never started.
fn is_new(phase: Phase) -> bool
    ensures { result ≡ is_new phase }
{
    matches!(phase, Phase::New)
}
