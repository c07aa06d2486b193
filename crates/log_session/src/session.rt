//! A server over the records of a log: each record is read once, and taken. A change is planned
//! once, shown to the witness, and applied. A plan of several changes is composed again for its
//! canonical message, and once more for a squash.
//!
//! - `witness`: what is made of an accepted change, before it is applied.
//! - `answering`: records that are no change which a running server receives.
//! - `canonical`: the canonical bodies of accepted changes.
//! - `selecting`: the records that stay where others are left out.
//! - `results`: the result of `initialize`.
//! - `counting`: what counts as refused.
//! - `closing`: the text of a document that a record may close.
//! - `opening`: the document that a record may open.

ghost use Rattle.std.specs.Prelude.{ℕ, ◌≡◌, ◌≢◌, ◌⊎◌, IfErr, IfOk, List, MatchResult, OnOk, None, Some};
ghost use Rattle.lsp_message.specs.Message.{reading};
ghost use Rattle.lsp_message.specs.Params.{ChangeData};
ghost use Rattle.lsp_message.specs.Seen.{change_view};
ghost use Rattle.lsp_server.specs.declared.phase.Phase.TheVariants.{Running};
ghost use Rattle.lsp_server.specs.Incoming.{did_change, incoming_of};
ghost use Rattle.lsp_server.specs.Planned.{IsNotObeyed};
ghost use Rattle.lsp_server.specs.Seen.{incoming_view};
ghost use Rattle.lsp_server.specs.Step.{step_on};
ghost use Rattle.log_session.specs.Session.{bad, opened, session_outcome};
ghost use Rattle.log_session.specs.inside.Bodies.{IsChangeTaken, IsReceived, body_view, judge_at};
ghost use Rattle.log_session.specs.inside.Reads.{IsNotedOf, IsReadOf};
ghost use Rattle.log_session.specs.inside.Taken.{IsChangeWitnessed, IsTakenAs};
ghost use Rattle.log_session.specs.inside.Verdicts.{verdict_view};

mod answering;
pub(crate) mod canonical;
pub(crate) mod closing;
pub(crate) mod counting;
pub(crate) mod opening;
pub(crate) mod results;
pub(crate) mod selecting;
pub(crate) mod witness;

use crate::outcome::Outcome;
use crate::session::counting::one_more;
use crate::session::witness::{Nothing, Witness};
use lsp_log::{Head, Sender, Version};
use lsp_message::{ChangeParams, Id, Noted, Scratch};
use lsp_server::{Answer, Config, Incoming, Phase, PlannedChange, Server};
use lsp_stream::EngineFault;
use std::alloc::{AllocError, Global};
use std::marker::Model;

/// The judgement of a record.
#[derive(Debug, PartialEq, Eq, Drop)]
pub enum Verdict {
    /// A client's record, with the server's answer to it.
    Answered(Answer),
    /// A server's record.
    Recorded,
    /// A record that can't be in a log.
    Bad,
}

/// The body of a record, read once.
#[derive(Drop)]
pub enum RecordBody<'a> {
    /// What a client's record in a log of this version asks of the server, and what notes of it go
    /// by, if that was read.
    Client(Version, Incoming, Noted),
    /// The body of a server's record.
    Server(&'a [u8]),
}

impl<'a> RecordBody<'a> {
    /// Reads the body of a record, with a scratch that is kept from body to body; or with what
    /// notes go by. A server's body is read where it matters alone.
    pub fn read(
        alloc: Global,
        head: Head,
        body: &'a [u8],
        scratch: &mut Scratch,
        notes: bool,
    ) -> Result<RecordBody<'a>, AllocError>
        ensures read { IfOk result (IsReadOf head body.now) }
        ensures noted { IfOk result (IsNotedOf notes body.now) }
    {
        match head.side {
            Sender::Client if notes => {
                let (incoming, noted) = Incoming::read_noted(alloc, body, scratch)?;
                Ok(RecordBody::Client(head.version, incoming, noted))
            }
            Sender::Client => {
                let incoming = Incoming::read_with(alloc, body, scratch)?;
                let noted = Noted {
                    lengths: Vec::new(alloc),
                    params: None,
                };
                Ok(RecordBody::Client(head.version, incoming, noted))
            }
            Sender::Server => Ok(RecordBody::Server(body)),
        }
    }
}

/// What became of a record.
#[derive(Drop)]
pub struct Taken {
    pub verdict: Verdict,
    /// The params of a change that a running server received, whatever it answered.
    pub change: Option<ChangeParams>,
    /// Whether ranges are asked for, if the record is the result of `initialize`.
    pub ranged: Option<bool>,
}

/// A server over the records of a log, and what is counted.
#[derive(Drop)]
pub struct Session {
    alloc: Global,
    server: Server,
    // The id of the accepted `initialize`, until its result has come in a log of version 2.
    expected: Option<Id>,
    records: u64,
    messages: u64,
    refusals: u64,
}

impl Model for Session {
    ghost use Rattle.std.specs.Prelude.{option_map};
    ghost use Rattle.lsp_message.specs.Seen.{id_view};
    ghost use Rattle.log_session.specs.Session as spec;

    ghost Value = { spec.Session };

    ghost view = { λ s. record {
      server = s.server;
      expected = option_map id_view s.expected;
      records = s.records;
      messages = s.messages;
      refusals = s.refusals;
    } };
}

impl Session {
    /// Starts before the first record, over a new server.
    pub fn new(alloc: Global, config: Config) -> Session
        ensures { result ≡ opened config }
    {
        Session {
            alloc,
            server: Server::new(alloc, config),
            expected: None,
            records: 0,
            messages: 0,
            refusals: 0,
        }
    }

    /// Returns how many records were taken.
    pub fn records(&self) -> u64
        ensures { result ≡ self.now.records }
    {
        self.records
    }

    /// Returns the server as it is now.
    pub fn server(&self) -> &Server
        ensures { result.now ≡ self.now.server }
    {
        &self.server
    }

    /// Returns the allocator of what is read.
    pub fn alloc(&self) -> Global {
        self.alloc
    }

    /// Returns the outcome of a log command at the end of the input.
    pub fn outcome(&self) -> Outcome
        ensures { result ≡ session_outcome self.now }
    {
        Outcome {
            status: if self.refusals == 0 { 0 } else { 1 },
            messages: self.messages,
            refused: self.refusals,
            missing: None,
        }
    }

    /// Takes the record that was read: hands a client's to the server, reads the encoding in a
    /// server's, and counts it. An accepted change is shown to the witness before it is applied.
    /// Fails only where memory runs out.
    pub fn take<W: Witness>(
        &mut self,
        read: RecordBody<'_>,
        witness: &mut W,
    ) -> Result<Taken, AllocError>
        requires fits { W.Fits witness.old self.old.server }
        ensures { IfOk result (IsTakenAs (witness.new ≡ witness.old)
            (W.HasSeen witness.old witness.new) self.old self.new (body_view read.entry)) }
    {
        match self.received(read) {
            Ok(params) => {
                let verdict = self.change(&params, witness)?;
                Ok(Taken {
                    verdict,
                    change: Some(params),
                    ranged: None,
                })
            }
            Err(read) => Ok(self.take_other(read)?),
        }
    }

    /// Takes the record that was read as [`Session::take`] does. If it can't be in a log, it is
    /// [`EngineFault::BadLog`], at its first byte.
    pub fn accept(&mut self, head: Head, read: RecordBody<'_>) -> Result<Verdict, EngineFault>
        ensures taken { (body : List ℕ) → IsReadOf head body read.entry → IfOk result
            (λ v. verdict_view v ≡ (judge_at self.old head body).verdict) }
        ensures in_log { IfOk result (λ v. verdict_view v ≢ bad) }
        ensures session { (body : List ℕ) → IsReadOf head body read.entry → OnOk result
            (self.new ≡ (judge_at self.old head body).session) }
        ensures error { (body : List ℕ) → IsReadOf head body read.entry → IfErr result
            (λ fault. (fault ≡ EngineFault.NoMemory) ⊎ ((fault ≡ EngineFault.BadLog head.place)
            × ((judge_at self.old head body).verdict ≡ bad))) }
    {
        let mut witness = Nothing;
        let taken = self.take(read, &mut witness)?;
        in_log(&taken.verdict, head.place)?;
        Ok(taken.verdict)
    }

    /// Reads what a server's body asks.
    pub fn read_incoming(&mut self, body: &[u8]) -> Result<Incoming, AllocError>
        ensures incoming { IfOk result
            (λ incoming. incoming_view incoming ≡ incoming_of (reading body.now)) }
        ensures unchanged { self.new ≡ self.old }
    {
        self.server.read(body)
    }

    /// Returns the params of a change that a running server is to receive, else the body again. A
    /// change that comes before the result of `initialize`, which says its encoding, is never
    /// received.
    fn received<'a>(&self, read: RecordBody<'a>) -> Result<ChangeParams, RecordBody<'a>>
        ensures { MatchResult result
            (λ params. IsReceived self.now (body_view read.entry) (change_view params))
            (λ other. (body_view other ≡ body_view read.entry)
            × ((p : ChangeData) → IsReceived self.now (body_view read.entry) p → ⊥)) }
    {
        if self.server.phase() != Phase::Running || self.expected.is_some() {
            return Err(read);
        }
        match read {
            RecordBody::Client(version, incoming, noted) => match incoming {
                Incoming::DidChange(Some(params)) => Ok(params),
                other => Err(RecordBody::Client(version, other, noted)),
            },
            other => Err(other),
        }
    }

    /// Judges a change that the server receives. If it is accepted, its plan is shown to the
    /// witness and applied.
    fn change<W: Witness>(
        &mut self,
        params: &ChangeParams,
        witness: &mut W,
    ) -> Result<Verdict, AllocError>
        requires running { self.old.server.phase ≡ Running }
        requires known { self.old.expected ≡ None }
        requires fits { W.Fits witness.old self.old.server }
        ensures { IfOk result (λ v. IsChangeWitnessed (witness.new ≡ witness.old)
            (W.HasSeen witness.old witness.new) self.old self.new (change_view params.now)
            (verdict_view v)) }
    {
        match self.server.plan(params)? {
            PlannedChange::Accepted(plan) => {
                witness.see(self, params, &plan)?;
                let answer = self.server.commit_change(plan)?;
                self.records = one_more(self.records);
                self.messages = one_more(self.messages);
                Ok(Verdict::Answered(answer))
            }
            PlannedChange::Answered(answer) => Ok(self.refuse(answer)),
        }
    }

    /// Counts a change that the server refuses with this answer.
    fn refuse(&mut self, answer: Answer) -> Verdict
        requires running { self.old.server.phase ≡ Running }
        requires known { self.old.expected ≡ None }
        ensures { (p : ChangeData)
            → IsNotObeyed self.old.server (step_on self.old.server (did_change (Some p))) answer
            → IsChangeTaken self.old p (verdict_view result) self.new }
    {
        self.records = one_more(self.records);
        self.messages = one_more(self.messages);
        self.refusals = one_more(self.refusals);
        Verdict::Answered(answer)
    }
}

/// Refuses a record that can't be in a log, and whose first byte is at this offset.
pub fn in_log(verdict: &Verdict, place: u64) -> Result<(), EngineFault>
    ensures in_log { OnOk result (verdict_view verdict.now ≢ bad) }
    ensures error { IfErr result
        (λ fault. (fault ≡ EngineFault.BadLog place) × (verdict_view verdict.now ≡ bad)) }
{
    if *verdict == Verdict::Bad {
        return Err(EngineFault::BadLog { place });
    }
    Ok(())
}
