//! The result of `initialize` among a server's records, which says the encoding of the changes and
//! whether ranges are asked for.

ghost use Rattle.std.specs.Prelude.{◌≡◌, ◌≢◌, Err, IfErr, IfOk, None, Ok, OnErr, OnOk, Some, option_map};
ghost use Rattle.serde_json.specs.View.{view};
ghost use Rattle.lsp_message.specs.Agreement.{announced_of};
ghost use Rattle.lsp_message.specs.Message.{reading};
ghost use Rattle.lsp_message.specs.Message as spec;
ghost use Rattle.lsp_message.specs.Seen.{id_view, message_view};
ghost use Rattle.log_session.specs.Session.{asks_ranges};
ghost use Rattle.log_session.specs.Session.{encoding_for, encoding_in, judge_server, result_for, same_id};
ghost use Rattle.log_session.specs.inside.Bodies.{from_server};
ghost use Rattle.log_session.specs.inside.Taken.{IsHeard};
ghost use Rattle.log_session.specs.inside.Verdicts.{verdict_view};

use crate::session::{Session, Taken, Verdict};
use lsp_message::{Id, Message, Outcome, ReadFault, SyncKind, read, result_initialize};
use serde_json::Value;
use std::alloc::{AllocError, Global};

impl Session {
    /// Judges a server's record. Only the result of `initialize` is read.
    pub(super) fn hear(&mut self, body: &[u8]) -> Result<Taken, AllocError>
        ensures verdict { IfOk result
            (λ t. verdict_view t.verdict ≡ (judge_server self.old
            (encoding_for self.old.expected (reading body.now))).verdict) }
        ensures session { OnOk result
            (self.new ≡ (judge_server self.old
            (encoding_for self.old.expected (reading body.now))).session) }
        ensures change { IfOk result (λ t. t.change ≡ None) }
        ensures ranged { IfOk result (IsHeard self.old (from_server body.now)) }
    {
        let result = match &self.expected {
            None => None,
            Some(id) => result_for(self.alloc, id, body)?,
        };
        match result {
            None => Ok(heard(Verdict::Recorded, None)),
            Some(result) => Ok(self.settle(result)),
        }
    }

    /// Continues in the encoding that a result of `initialize` announces.
    fn settle(&mut self, value: Value) -> Taken
        ensures verdict { verdict_view result.verdict
            ≡ (judge_server self.old (Some (encoding_in (view value)))).verdict }
        ensures session { self.new
            ≡ (judge_server self.old (Some (encoding_in (view value)))).session }
        ensures change { result.change ≡ None }
        ensures ranged { result.ranged ≡ Some (asks_ranges (announced_of (view value))) }
    {
        let Ok(announced) = result_initialize(self.alloc, value) else {
            return heard(Verdict::Bad, Some(false));
        };
        let ranged = Some(matches!(announced.kind, SyncKind::Incremental));
        let Some(encoding) = announced.encoding else {
            return heard(Verdict::Bad, ranged);
        };
        self.server.settle(encoding);
        self.expected = None;
        heard(Verdict::Recorded, ranged)
    }
}

/// Returns what became of a server's record.
fn heard(verdict: Verdict, ranged: Option<bool>) -> Taken
    ensures { result ≡ record { verdict = verdict; change = None; ranged = ranged } }
{
    Taken {
        verdict,
        change: None,
        ranged,
    }
}

/// Returns a copy of an id.
pub(super) fn copied(id: &Id) -> Result<Id, AllocError>
    ensures { IfOk result (λ copy. id_view copy ≡ id_view id.now) }
{
    match id {
        Id::Whole(number) => Ok(Id::Whole(*number)),
        Id::Text(text) => Ok(Id::Text(text.clone()?)),
    }
}

/// Returns whether two ids are equal.
pub(super) fn same_id(id: &Id, other: &Id) -> bool
    ensures { result ≡ same_id (id_view id.now) (id_view other.now) }
{
    match (id, other) {
        (Id::Whole(number), Id::Whole(other)) => number == other,
        (Id::Text(text), Id::Text(other)) => text.as_str() == other.as_str(),
        _ => false,
    }
}

/// Returns the result in a body that is a successful response to the request with this id.
fn result_for(alloc: Global, id: &Id, body: &[u8]) -> Result<Option<Value>, AllocError>
    ensures { IfOk result
        (λ value. option_map view value ≡ result_for (id_view id.now) (reading body.now)) }
{
    match message_of(read(alloc, body))? {
        Some(message) => Ok(result_in(id, message)),
        None => Ok(None),
    }
}

/// Returns the message that was read of a body, if it has one. Fails only where memory ran
/// out in reading it.
pub fn message_of(outcome: Result<Message, ReadFault>) -> Result<Option<Message>, AllocError>
    ensures read { IfOk outcome (λ message. result ≡ Ok (Some message)) }
    ensures none { IfErr outcome (λ fault.
        IfOk result (λ message. (fault ≢ ReadFault.NoMemory) × (message ≡ None))) }
    ensures memory { OnErr result (outcome ≡ Err ReadFault.NoMemory) }
{
    match outcome {
        Ok(message) => Ok(Some(message)),
        Err(ReadFault::NoMemory) => Err(AllocError),
        Err(_) => Ok(None),
    }
}

/// Returns the result in a successful response to the request with this id.
fn result_in(id: &Id, message: Message) -> Option<Value>
    ensures { option_map view result
        ≡ result_for (id_view id.now) (spec.message (message_view message)) }
{
    let Message::Response { id: other, outcome } = message else {
        return None;
    };
    if !same_id(id, &other?) {
        return None;
    }
    match outcome {
        Outcome::Given(value) => Some(value),
        Outcome::Failed => None,
    }
}
