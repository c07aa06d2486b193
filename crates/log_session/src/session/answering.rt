//! Records that are no change which a running server receives.

ghost use Rattle.std.specs.Prelude.{◌≡◌, ◌≢◌, IfOk, OnErr, OnOk, MatchOption, None, Some};
ghost use Rattle.lsp_message.specs.Seen.{id_view};
ghost use Rattle.lsp_server.specs.Seen.{incoming_view};
ghost use Rattle.log_session.specs.Session.{bad, counted, judge_client, is_early, expected_after};
ghost use Rattle.log_session.specs.inside.Bodies.{body_view, judge_read};
ghost use Rattle.log_session.specs.inside.Taken.{IsHeard};
ghost use Rattle.log_session.specs.inside.Verdicts.{verdict_view};

use crate::session::counting::{is_refused, one_more};
use crate::session::results::copied;
use crate::session::{RecordBody, Session, Taken, Verdict};
use lsp_log::Version;
use lsp_message::Id;
use lsp_server::{Incoming, Phase, ServerFault};
use std::alloc::AllocError;

impl Session {
    /// Takes a record that is no change which a running server receives.
    pub(super) fn take_other(&mut self, read: RecordBody<'_>) -> Result<Taken, AllocError>
        ensures verdict { IfOk result
            (λ t. verdict_view t.verdict ≡ (judge_read self.old (body_view read.entry)).verdict) }
        ensures session { OnOk result
            (self.new ≡ (counted (judge_read self.old (body_view read.entry))).session) }
        ensures change { IfOk result (λ t. t.change ≡ None) }
        ensures ranged { IfOk result (IsHeard self.old (body_view read.entry)) }
    {
        let taken = match read {
            RecordBody::Client(version, incoming, _noted) => Taken {
                verdict: self.answer(version, incoming)?,
                change: None,
                ranged: None,
            },
            RecordBody::Server(body) => self.hear(body)?,
        };
        self.records = one_more(self.records);
        Ok(taken)
    }

    /// Judges a client's record in a log of this version.
    fn answer(&mut self, version: Version, incoming: Incoming) -> Result<Verdict, AllocError>
        ensures verdict { IfOk result
            (λ v. verdict_view v
            ≡ (judge_client self.old version (incoming_view incoming)).verdict) }
        ensures session { OnOk result
            (self.new ≡ (judge_client self.old version (incoming_view incoming)).session) }
        ensures memory { OnErr result
            ((judge_client self.old version (incoming_view incoming)).verdict ≢ bad) }
    {
        if self.server.phase() == Phase::Ended || self.is_early(&incoming) {
            return Ok(Verdict::Bad);
        }
        let expected = self.begun_by(version, &incoming)?;
        let answer = match self.server.handle_incoming(incoming) {
            Ok(answer) => answer,
            Err(ServerFault::NoMemory) => return Err(AllocError),
            Err(ServerFault::AlreadyEnded) => unreachable!(),
        };
        if expected.is_some() {
            self.expected = expected;
        }
        self.messages = one_more(self.messages);
        if is_refused(&answer) {
            self.refusals = one_more(self.refusals);
        }
        Ok(Verdict::Answered(answer))
    }

    /// Returns whether it is a change that comes before the result of `initialize`, which says its
    /// encoding.
    fn is_early(&self, incoming: &Incoming) -> bool
        ensures { result ≡ is_early self.now (incoming_view incoming.now) }
    {
        self.expected.is_some()
            && self.server.phase() == Phase::Running
            && matches!(incoming, Incoming::DidChange(_))
    }

    /// Returns the id of an `initialize` that is accepted, in a log of version 2, which has its
    /// result.
    fn begun_by(&self, version: Version, incoming: &Incoming) -> Result<Option<Id>, AllocError>
        ensures { IfOk result (λ begun. MatchOption begun
            (expected_after self.now version (incoming_view incoming.now) ≡ self.now.expected)
            (λ id. expected_after self.now version (incoming_view incoming.now)
            ≡ Some (id_view id))) }
    {
        if version != Version::Two || self.server.phase() != Phase::New {
            return Ok(None);
        }
        match incoming {
            Incoming::Initialize {
                id,
                offers: Some(_),
            } => Ok(Some(copied(id)?)),
            _ => Ok(None),
        }
    }
}
