//! The facts of a record, from which `trace` and `check --explain` print its line; and what is
//! known of the records before it.
//!
//! `noting` has what is suspicious of a message, `asked` what a body asks.

ghost use Rattle.std.specs.Prelude.{◌≡◌, ◌≢◌, ◌⊎◌, IfErr, IfOk, OnOk, option_map, true};
ghost use Rattle.lsp_log.specs.Splitting.{record_of};
ghost use Rattle.lsp_message.specs.Seen.{change_view};
ghost use Rattle.log_report.specs.Lines.{is_new_name, is_not_open, is_open_already};
ghost use Rattle.log_report.specs.Lines.{is_bad_params, is_parse_error, is_unread, unread_after};
ghost use Rattle.log_report.specs.Habits.{version_rejected};
ghost use Rattle.log_report.specs.Lines.{hint_in, hint_with, is_strict_in, is_swapped, noted_uri, was_left_out};
ghost use Rattle.log_report.specs.Lines.{is_renamed, is_stale_refusal, is_strict_refusal, known_after};
ghost use Rattle.log_report.specs.Lines.{last_in, lead_of, nothing_known, or_unread};
ghost use Rattle.log_report.specs.Mentions.{is_mention, last_for};
ghost use Rattle.log_session.specs.Session.{bad};
ghost use Rattle.log_session.specs.inside.Bodies.{judge_at};
ghost use Rattle.log_report.specs.inside.Facts.{AreFacts, IsLearned, kept_by, known_by, noted_by};
ghost use Rattle.log_session.specs.inside.Reads.{IsNotedOf, IsReadOf};
ghost use Rattle.log_session.specs.inside.Taken.{IsShown, accepted_of, ranged_with};
ghost use Rattle.log_session.specs.inside.Verdicts.{verdict_view};

pub(crate) mod asked;
mod noting;

use crate::counts::Counts;
use crate::facts::noting::{about_of, notes_if};
use crate::growths::Grown;
use crate::habits::Documents;
use crate::lacks::Lack;
use crate::mentions::Mentions;
use crate::notes::Note;
use crate::printer::reasons::is_idle;
use log_session::{RecordBody, Session, Taken, Verdict, Witness, has_changed, in_log};
use lsp_log::Record;
use lsp_message::{ChangeParams, ErrorCode};
use lsp_server::{Answer, Refusal};
use lsp_store::StoreFault;
use lsp_stream::EngineFault;
use std::alloc::{AllocError, Global};
use std::marker::Model;

/// What comes after the reason of a record that was refused.
#[derive(Clone, Copy, Debug, PartialEq, Eq)]
pub enum Hint {
    /// Its document may be another one under a new name.
    Renamed,
    /// Its version was left out before, so messages were swapped.
    Swapped,
    /// Its params lack this.
    Lacks(Lack),
}

/// What a record is about, before it is taken.
#[derive(Drop)]
pub struct About {
    /// The URI of its document.
    pub uri: Option<String>,
    /// The URI that its params name, if it isn't about a document: a text was saved, or they can't be
    /// read.
    pub named: Option<String>,
    /// What is suspicious of it, unless it is refused.
    pub notes: Vec<Note>,
    /// What its params lack, if they can't be read.
    pub lack: Option<Lack>,
    /// Its version and the one that was sent before, if it is a change and that is lower.
    pub grown: Option<Grown>,
}

/// The facts of a record that was taken.
#[derive(Drop)]
pub struct Facts {
    /// Its number, from 1.
    pub number: u64,
    pub verdict: Verdict,
    /// The URI of the document that it is about.
    pub uri: Option<String>,
    /// The URI that its params name, if it isn't about a document.
    pub named: Option<String>,
    /// The params of a change that a running server received: what a reason quotes.
    pub change: Option<ChangeParams>,
    /// What comes after the reason, if it was refused.
    pub hint: Option<Hint>,
    /// The record to look at, if the documents refused this one: which made the current version, if
    /// this one has an old version; else which opened, closed or refused the document last.
    pub last: Option<u64>,
    /// What is suspicious of it, unless it was refused.
    pub notes: Vec<Note>,
    /// The notes that are on its line.
    pub rare: Vec<Note>,
}

impl Facts {
    /// Returns the document that the line names: the record's, or the one that its params name.
    pub fn noted(&self) -> Option<&str>
        ensures { option_map (λ uri. uri.now) result ≡ noted_by self.now }
    {
        noted_uri(self.uri.as_deref(), self.named.as_deref())
    }
}

/// What is known of the records before one.
#[derive(Drop)]
pub struct Known {
    alloc: Global,
    // The documents that were opened, closed or refused last.
    mentions: Mentions,
    // The documents that were opened, changed or closed last.
    made: Mentions,
    // What is known of the documents that came last.
    documents: Documents,
    // Whether the server asked for ranges.
    ranged: bool,
    // The last record that couldn't be read, and may have opened a document.
    unread: Option<u64>,
    /// Whether a record is refused with S1 or S5, which lenient limits never do, was meant to change
    /// a text, and wasn't swapped with another.
    pub strict_refusal: bool,
    pub counts: Counts,
}

impl Model for Known {
    ghost use Rattle.log_report.specs.Lines as spec;

    ghost Value = { spec.Known };

    ghost view = { λ known. record {
      mentions = known.mentions.newest.items;
      made = known.made.newest.items;
      documents = known.documents.newest.items;
      ranged = known.ranged;
      unread = known.unread;
      strict_refusal = known.strict_refusal;
      counts = known.counts;
    } };
}

impl Known {
    /// Starts before the first record. Takes no memory.
    pub fn nothing(alloc: Global) -> Self
        ensures { result ≡ nothing_known }
    {
        Known {
            alloc,
            mentions: Mentions::new(alloc),
            made: Mentions::new(alloc),
            documents: Documents::new(alloc),
            ranged: false,
            unread: None,
            strict_refusal: false,
            counts: Counts::nothing(alloc),
        }
    }

    /// Takes the record that was read into a session, as [`Session::take`] does, and returns its
    /// facts. A record that can't be in a log is [`EngineFault::BadLog`], at its first byte.
    pub fn take<W: Witness>(
        &mut self,
        session: &mut Session,
        item: &Record<'_>,
        read: RecordBody<'_>,
        witness: &mut W,
    ) -> Result<Facts, EngineFault>
        requires is_read { IsReadOf item.now.head item.now.body.now read }
        requires noted { IsNotedOf true item.now.body.now read }
        requires fits { W.Fits witness.old session.old.server }
        ensures facts { IfOk result
            (AreFacts self.old session.old (record_of item.now)) }
        ensures in_log { IfOk result (λ facts. verdict_view facts.verdict ≢ bad) }
        ensures session { OnOk result (session.new
            ≡ (judge_at session.old item.now.head item.now.body.now).session) }
        ensures known { OnOk result
            (self.new ≡ known_after self.old session.old item.now.head item.now.body.now
            (judge_at session.old item.now.head item.now.body.now)) }
        ensures shown { OnOk result (IsShown (witness.new ≡ witness.old)
            (W.HasSeen witness.old witness.new) session.old session.new
            (accepted_of session.old item.now.head item.now.body.now)) }
        ensures error { IfErr result (λ fault. (fault ≡ EngineFault.NoMemory)
            ⊎ ((fault ≡ EngineFault.BadLog item.now.head.place)
            × ((judge_at session.old item.now.head item.now.body.now).verdict ≡ bad))) }
    {
        let about = about_of(
            self.alloc,
            session.server(),
            &self.documents,
            self.ranged,
            item.body,
            &read,
        )?;
        let taken = session.take(read, witness)?;
        in_log(&taken.verdict, item.head.place)?;
        Ok(self.learn(session.records(), about, taken)?)
    }

    /// Learns of a record with this number that was taken.
    fn learn(&mut self, number: u64, about: About, taken: Taken) -> Result<Facts, AllocError>
        ensures facts { IfOk result (IsLearned self.old number about taken) }
        ensures known { OnOk result (self.new ≡ known_by self.old number about taken) }
    {
        let About {
            uri,
            named,
            notes,
            lack,
            grown,
        } = about;
        let Taken {
            verdict,
            change,
            ranged,
        } = taken;
        let hint = self.hint_in(uri.as_deref(), change.as_ref(), &verdict);
        let hint = hint_with(lack, hint);
        let is_strict = self.is_strict_in(uri.as_deref(), change.as_ref(), &verdict);
        let last = self.last_in(uri.as_deref(), &verdict);
        let notes = notes_if(notes, &verdict);
        let noted = noted_uri(uri.as_deref(), named.as_deref());
        let rare = self.documents.rare(noted, &notes)?;
        let hides = self.documents.has_hidden(noted, &notes);
        self.counts.count(number, &verdict, &notes, hides)?;
        self.keep(number, uri.as_deref(), change.is_some(), &verdict)?;
        let rejected = version_rejected(change.as_ref(), &verdict);
        self.documents
            .take(has_changed(&verdict), grown, rejected, &notes, noted)?;
        self.ranged = ranged_with(self.ranged, ranged);
        self.strict_refusal = self.strict_refusal || is_strict;
        Ok(Facts {
            number,
            verdict,
            uri,
            named,
            change,
            hint,
            last,
            notes,
            rare,
        })
    }

    /// Keeps which documents a record of this number opened, changed, closed or refused, and whether
    /// it couldn't be read.
    fn keep(
        &mut self,
        number: u64,
        uri: Option<&str>,
        is_change: bool,
        verdict: &Verdict,
    ) -> Result<(), AllocError>
        ensures { OnOk result (self.new ≡ kept_by self.old number
            (option_map (λ uri. uri.now) uri.entry) is_change (verdict_view verdict.now)) }
    {
        let last = self.last_in(uri, verdict);
        let lead = lead_of(last, number, verdict);
        self.mentions
            .keep(is_mention(is_change, verdict), uri, lead)?;
        self.made.keep(has_changed(verdict), uri, number)?;
        self.unread = unread_after(self.unread, number, verdict);
        Ok(())
    }

    /// Returns the record to look at, if the documents refused one about a document: which made the
    /// current version, if it was an old version that they refused; else which opened, closed or
    /// refused the document last. If there is none, and the document isn't open, it is the last one
    /// that couldn't be read.
    fn last_in(&self, uri: Option<&str>, verdict: &Verdict) -> Option<u64>
        ensures { result ≡ last_in self.now (option_map (λ uri. uri.now) uri.entry)
            (verdict_view verdict.now) }
    {
        if is_stale_refusal(verdict) {
            last_for(&self.made, uri, verdict)
        } else {
            or_unread(last_for(&self.mentions, uri, verdict), self.unread, verdict)
        }
    }

    /// Returns whether an editor may have renamed a document, if the documents refused a record
    /// about it.
    fn is_renamed(&self, uri: Option<&str>, verdict: &Verdict) -> bool
        ensures { result ≡ is_renamed self.now (option_map (λ uri. uri.now) uri.entry)
            (verdict_view verdict.now) }
    {
        is_not_open(verdict) && (is_new_name(&self.made, uri) && self.unread.is_none())
    }

    /// Returns whether a record is refused for its version, which was left out before.
    fn is_swapped(
        &self,
        uri: Option<&str>,
        change: Option<&ChangeParams>,
        verdict: &Verdict,
    ) -> bool
        ensures { result ≡ is_swapped self.now (option_map (λ uri. uri.now) uri.entry)
            (option_map (λ p. change_view p.now) change.entry) (verdict_view verdict.now) }
    {
        is_stale_refusal(verdict) && was_left_out(&self.documents, uri, change)
    }

    /// Returns whether a record is refused with S1, or with S5 and changes, and wasn't swapped with
    /// another.
    fn is_strict_in(
        &self,
        uri: Option<&str>,
        change: Option<&ChangeParams>,
        verdict: &Verdict,
    ) -> bool
        ensures { result ≡ is_strict_in self.now (option_map (λ uri. uri.now) uri.entry)
            (option_map (λ p. change_view p.now) change.entry) (verdict_view verdict.now) }
    {
        is_strict_refusal(change, verdict) && !self.is_swapped(uri, change, verdict)
    }

    /// Returns what comes after the reason, if the documents refused a record about a document.
    fn hint_in(
        &self,
        uri: Option<&str>,
        change: Option<&ChangeParams>,
        verdict: &Verdict,
    ) -> Option<Hint>
        ensures { result ≡ hint_in self.now (option_map (λ uri. uri.now) uri.entry)
            (option_map (λ p. change_view p.now) change.entry) (verdict_view verdict.now) }
    {
        if self.is_renamed(uri, verdict) {
            Some(Hint::Renamed)
        } else if self.is_swapped(uri, change, verdict) {
            Some(Hint::Swapped)
        } else {
            None
        }
    }
}

/// Returns whether a version of a document was left out.
fn was_left_out(documents: &Documents, uri: Option<&str>, change: Option<&ChangeParams>) -> bool
    ensures { result ≡ was_left_out documents.now.newest.items
        (option_map (λ uri. uri.now) uri.entry)
        (option_map (λ p. change_view p.now) change.entry) }
{
    match (uri, change) {
        (Some(uri), Some(params)) => documents.has_left_out(uri, params.version),
        _ => false,
    }
}

/// Returns the version of a change that the documents refused.
fn version_rejected(change: Option<&ChangeParams>, verdict: &Verdict) -> Option<i32>
    ensures { result ≡ version_rejected (option_map (λ p. change_view p.now) change.entry)
        (verdict_view verdict.now) }
{
    match (change, verdict) {
        (Some(params), Verdict::Answered(Answer::Refused(_))) => Some(params.version),
        _ => None,
    }
}

/// Returns the document that a line names: the record's, or the one that its params name.
fn noted_uri<'a>(uri: Option<&'a str>, named: Option<&'a str>) -> Option<&'a str>
    ensures { option_map (λ uri. uri.now) result ≡ noted_uri (option_map (λ uri. uri.now) uri.entry)
        (option_map (λ named. named.now) named.entry) }
{
    match uri {
        Some(uri) => Some(uri),
        None => named,
    }
}

/// Returns what a record lacks, and else another hint.
fn hint_with(lack: Option<Lack>, hint: Option<Hint>) -> Option<Hint>
    ensures { result ≡ hint_with lack hint }
{
    match lack {
        Some(lack) => Some(Hint::Lacks(lack)),
        None => hint,
    }
}

/// Returns the record that is about a document last in a list, if the documents refused one about
/// it.
fn last_for(mentions: &Mentions, uri: Option<&str>, verdict: &Verdict) -> Option<u64>
    ensures { result ≡ last_for mentions.now.newest.items
        (option_map (λ uri. uri.now) uri.entry) (verdict_view verdict.now) }
{
    let Verdict::Answered(Answer::Refused(_)) = verdict else {
        return None;
    };
    mentions.last(uri?)
}

/// Returns whether no document of this name was opened, and another was.
fn is_new_name(made: &Mentions, uri: Option<&str>) -> bool
    ensures { result ≡ is_new_name made.now.newest.items (option_map (λ uri. uri.now) uri.entry) }
{
    match uri {
        Some(uri) => made.last(uri).is_none() && !made.is_empty(),
        None => false,
    }
}

/// Returns the record to look at; where there is none, and the document isn't open, the last one that
/// couldn't be read.
fn or_unread(last: Option<u64>, unread: Option<u64>, verdict: &Verdict) -> Option<u64>
    ensures { result ≡ or_unread last unread (verdict_view verdict.now) }
{
    if let Some(last) = last {
        return Some(last);
    }
    if is_not_open(verdict) { unread } else { None }
}

/// Returns the number that a record is known by, which has to look at another one: the number of
/// that one, if the document isn't open.
fn lead_of(last: Option<u64>, number: u64, verdict: &Verdict) -> u64
    ensures { result ≡ lead_of last number (verdict_view verdict.now) }
{
    let Some(last) = last else {
        return number;
    };
    if is_not_open(verdict) { last } else { number }
}

/// Returns whether a record couldn't be read that may have opened a document.
fn is_unread(verdict: &Verdict) -> bool
    ensures { result ≡ is_unread (verdict_view verdict.now) }
{
    match verdict {
        Verdict::Answered(Answer::Reply { code, .. }) => is_parse_error(*code),
        Verdict::Answered(Answer::Refused(refusal)) => is_bad_params(refusal),
        _ => false,
    }
}

/// Returns whether a body is no JSON.
fn is_parse_error(code: Option<ErrorCode>) -> bool
    ensures { result ≡ is_parse_error code }
{
    matches!(code, Some(ErrorCode::ParseError))
}

/// Returns whether params are none of their method.
fn is_bad_params(refusal: &Refusal) -> bool
    ensures { result ≡ is_bad_params refusal.now }
{
    matches!(refusal, Refusal::InvalidParams)
}

/// Returns the last record that couldn't be read, after one of this number.
fn unread_after(unread: Option<u64>, number: u64, verdict: &Verdict) -> Option<u64>
    ensures { result ≡ unread_after unread number (verdict_view verdict.now) }
{
    if is_unread(verdict) {
        Some(number)
    } else {
        unread
    }
}

/// Returns whether ranges are asked for after a record, by what it says of that, if it does.
fn ranged_with(before: bool, ranged: Option<bool>) -> bool
    ensures { result ≡ ranged_with before ranged }
{
    ranged.unwrap_or(before)
}

/// Returns whether an answer opens, closes or refuses a document.
fn is_mention(is_change: bool, verdict: &Verdict) -> bool
    ensures { result ≡ is_mention is_change (verdict_view verdict.now) }
{
    match verdict {
        Verdict::Answered(Answer::Changed) => !is_change,
        Verdict::Answered(Answer::Refused(_)) => true,
        _ => false,
    }
}

/// Returns whether a record is refused with S1, or with S5 and changes.
fn is_strict_refusal(change: Option<&ChangeParams>, verdict: &Verdict) -> bool
    ensures { result ≡ is_strict_refusal (option_map (λ p. change_view p.now) change.entry)
        (verdict_view verdict.now) }
{
    is_open_already(verdict) || is_stale_refusal(verdict) && !is_idle(change)
}

/// Returns whether a record is refused with S1.
fn is_open_already(verdict: &Verdict) -> bool
    ensures { result ≡ is_open_already (verdict_view verdict.now) }
{
    matches!(
        verdict,
        Verdict::Answered(Answer::Refused(Refusal::Store(StoreFault::AlreadyOpen)))
    )
}

/// Returns whether a record is refused with S4.
fn is_not_open(verdict: &Verdict) -> bool
    ensures { result ≡ is_not_open (verdict_view verdict.now) }
{
    matches!(
        verdict,
        Verdict::Answered(Answer::Refused(Refusal::Store(StoreFault::NotOpen)))
    )
}

/// Returns whether a record is refused with S5.
fn is_stale_refusal(verdict: &Verdict) -> bool
    ensures { result ≡ is_stale_refusal (verdict_view verdict.now) }
{
    matches!(
        verdict,
        Verdict::Answered(Answer::Refused(Refusal::Store(StoreFault::StaleVersion { .. })))
    )
}
