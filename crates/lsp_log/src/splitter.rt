//! The records of a log that comes in pieces.
//!
//! Puts the log's version into each record's `Head`, so an engine keeps none.

ghost use Rattle.std.specs.Prelude.{◌≡◌, ◌≢◌, ◌↔◌, ◌<◌, ◌≤◌, ◌++◌, ◌∷◌, [], ℕ, List, None, true, false, length, drop, Err, IfOk, IfErr, OnOk, MatchOption};
ghost use Rattle.lsp_frame.specs.Frame.{IsFrameOf};
ghost use Rattle.lsp_frame.specs.Stream.{IsFrame};
ghost use Rattle.lsp_log.specs.Log as log;
ghost use Rattle.lsp_log.specs.Log.{LogRules, mark_of};
ghost use Rattle.lsp_log.specs.Splitting.{IsSplitterFault};
ghost use Rattle.lsp_log.specs.Splitting.{IsReady, IsFed, IsAfter, IsSplitFault, IsOpen, IsSide, log_at, record_at, record_head, record_of, buffered_of, mark_part};

use crate::record::{Head, Record, Sender, Version};
use lsp_frame::{Framer, Limits};
use lsp_stream::EngineFault;
use std::alloc::Global;

/// Splits a log into its records, in whatever pieces it comes. It begins after the line of the
/// log's version, and buffers at most one record.
#[derive(Debug, Drop)]
pub struct Splitter {
    framer: Framer,
    version: Version,
    // Who wrote the record that is coming in; unknown until its mark has come.
    side: Option<Sender>,
    place: u64,
    line_due: bool,
}

impl Splitter {
    /// Makes a splitter that is after the line of a log of this version.
    pub fn new(alloc: Global, limits: Limits, version: Version) -> Splitter
        ensures ready { IsReady result }
        ensures version { result.version ≡ version }
        ensures is_after { (log_rules : LogRules) (input more : List ℕ) →
            log_rules.max_body ≡ limits.max_body → IsOpen log_rules input version more →
            IsAfter log_rules input more [] result }
    {
        let place = version.line().len() as u64;
        let mut framer = Framer::new(alloc, limits);
        framer.skip(place);
        Splitter {
            framer,
            version,
            side: first_side(version),
            place,
            line_due: version.has_line(),
        }
    }

    /// Takes the next bytes of the log: all of them, or those up to the end of a mark or of a
    /// record. Returns how many.
    ///
    /// # Errors
    /// [`EngineFault::Frame`] at a faulty frame, [`EngineFault::BadLog`] at a byte that is no mark,
    /// [`EngineFault::NoMemory`], which changes nothing.
    pub fn feed(&mut self, piece: &[u8]) -> Result<usize, EngineFault>
        requires { IsReady self.old }
        ensures taken { IfOk result (λ k. k ≤ length piece.now) }
        ensures some { IfOk result (λ k. 0 < length piece.now → 0 < k) }
        ensures fed { OnOk result (IsFed self.new) }
        ensures version { self.new.version ≡ self.old.version }
        ensures is_after { IfOk result
            (λ k. (log_rules : LogRules) (input : List ℕ) (records : List log.Record) →
            IsAfter log_rules input piece.now records self.old →
            IsAfter log_rules input (drop k piece.now) records self.new) }
        ensures kind { IfErr result IsSplitterFault }
        ensures error { IfErr result
            (λ fault. (log_rules : LogRules) (input : List ℕ) (records : List log.Record) →
            IsAfter log_rules input piece.now records self.old →
            IsSplitFault log_rules.max_body input (log_at self.old records piece.now) fault) }
        // Out of memory changes nothing. A mark takes none, nor does an empty piece.
        ensures memory { result ≡ Err EngineFault.NoMemory → (self.new ≡ self.old)
            × (self.old.side ≢ None) × (0 < length piece.now) }
    {
        if self.side.is_none() {
            let Some(mark) = piece.first() else {
                return Ok(0);
            };
            let Some(side) = Sender::of_mark(*mark) else {
                return Err(EngineFault::BadLog { place: self.place });
            };
            self.side = Some(side);
            self.framer.skip(1);
            return Ok(1);
        }
        Ok(self.framer.feed(piece)?)
    }

    /// Returns the buffered record, once it is complete.
    pub fn record(&self) -> Option<Record<'_>>
        ensures { MatchOption result
            (self.now.framer.failed ≡ false →
            IsFrame self.now.framer.limits.max_body self.now.framer.buffered → ⊥)
            (λ r. (record_of r ≡ record_at self.now r.body.now)
            × IsFrameOf self.now.framer.limits.max_body self.now.framer.buffered r.body.now) }
    {
        let raw = self.framer.spelling()?;
        let body = self.framer.body()?;
        let head = self.head();
        Some(Record { head, raw, body })
    }

    /// Returns what is known of the record that is coming in, beside its frame.
    fn head(&self) -> Head
        ensures { result ≡ record_head self.now }
    {
        Head {
            side: self.side.unwrap_or(Sender::Client),
            version: self.version,
            place: self.place,
            line_due: self.line_due,
        }
    }

    /// Releases the buffered record. Does nothing if none is complete.
    pub fn next(&mut self)
        requires { IsFed self.old }
        ensures ready { IsReady self.new }
        ensures version { self.new.version ≡ self.old.version }
        ensures is_after { (log_rules : LogRules) (input more body : List ℕ)
            (records : List log.Record) →
            IsFrameOf log_rules.max_body self.old.framer.buffered body →
            IsAfter log_rules input more records self.old →
            IsAfter log_rules input more
            (records ++ (record_at self.old body ∷ [])) self.new }
        ensures none { (IsFrame self.old.framer.limits.max_body self.old.framer.buffered → ⊥) →
            self.new ≡ self.old }
    {
        if let Some(raw) = self.framer.spelling() {
            let len = raw.len() as u64;
            self.framer.next();
            let mark = mark_len(self.version);
            self.place = self.place.saturating_add(mark).saturating_add(len);
            self.side = first_side(self.version);
            self.line_due = false;
        }
    }

    /// Returns whether no byte of a record is buffered.
    pub fn at_rest(&self) -> bool
        requires { IsReady self.now }
        ensures { result ≡ true ↔ buffered_of self.now ≡ [] }
    {
        match (self.version, self.side) {
            (Version::Two, Some(_)) => false,
            _ => self.framer.at_rest(),
        }
    }

    /// Returns whether the line of a version 2 log belongs to the next output.
    pub fn line_due(&self) -> bool
        ensures { result ≡ self.now.line_due }
    {
        self.line_due
    }
}

/// Returns who wrote the next record, as far as that is known without a mark.
fn first_side(version: Version) -> Option<Sender>
    ensures side { IsSide version result }
    ensures none { mark_part version result ≡ [] }
{
    match version {
        Version::One => Some(Sender::Client),
        Version::Two => None,
    }
}

/// Returns the length of a mark.
fn mark_len(version: Version) -> u64
    ensures { (side : Sender) → result ≡ length (mark_of version side) }
{
    match version {
        Version::One => 0,
        Version::Two => 1,
    }
}
