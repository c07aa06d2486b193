//! The records that stay where others are left out.

ghost use Rattle.std.specs.Prelude.{◌≡◌, ◌||◌, ℕ, false, IfOk, List, MatchOption, None, Option, Some, if◌then◌else◌, option_map};
ghost use Rattle.lsp_message.specs.Message.{IdData, reading};
ghost use Rattle.lsp_message.specs.Seen.{id_view};
ghost use Rattle.lsp_server.specs.Seen.{incoming_view};
ghost use Rattle.log_session.specs.Selection.{is_answer_to, message_stays, nothing_selected, waiting_for};
ghost use Rattle.log_session.specs.inside.Bodies.{body_view};
ghost use Rattle.log_session.specs.inside.Reads.{IsReadOf, IsSelection, asked_id, is_waited, stays_read, waiting_read};

use crate::session::results::{copied, message_of, same_id};
use crate::session::{RecordBody, Session};
use lsp_log::Head;
use lsp_message::{Id, Message, read};
use lsp_server::{Incoming, Phase};
use std::alloc::{AllocError, Global};
use std::marker::Model;

/// What is known between two records, of which some are left out.
#[derive(Drop)]
pub struct Selection {
    // The id of the last request that stayed, until a response to it has come.
    waiting: Option<Id>,
    // Whether the line of version 2 is still to be written.
    due: bool,
}

impl Model for Selection {
    ghost use Rattle.std.specs.Prelude.{option_map};
    ghost use Rattle.lsp_message.specs.Seen.{id_view};
    ghost use Rattle.log_session.specs.Selection as spec;

    ghost Value = { spec.Selection };

    ghost view = { λ c. record { waiting = option_map id_view c.waiting; due = c.due } };
}

impl Selection {
    /// Starts before the first record.
    pub fn new() -> Selection
        ensures { result ≡ nothing_selected }
    {
        Selection {
            waiting: None,
            due: false,
        }
    }

    /// Returns whether the line of version 2 is to be written at the end of the input. It is
    /// written once.
    pub fn take_due(&mut self, line_due: bool) -> bool
        ensures value { result ≡ (self.old.due || line_due) }
        ensures written { self.new ≡ record self.old { due = false } }
    {
        let due = self.due || line_due;
        self.due = false;
        due
    }

    /// Returns the head under which the record that was read is written: with the line of version
    /// 2, if that is still due. Returns `None` if the record is left out.
    pub fn select(
        &mut self,
        session: &Session,
        head: Head,
        read: &RecordBody<'_>,
    ) -> Result<Option<Head>, AllocError>
        ensures { IfOk result (λ written. (body : List ℕ) → IsReadOf head body read.now
            → IsSelection session.now self.old self.new head body written) }
    {
        let line_due = self.due || head.line_due;
        if !self.stays(session, read)? {
            self.due = line_due;
            return Ok(None);
        }
        self.due = false;
        Ok(Some(Head { line_due, ..head }))
    }

    /// Returns whether the record that was read stays. If it does, remembers whose answer is waited
    /// for.
    fn stays(&mut self, session: &Session, read: &RecordBody<'_>) -> Result<bool, AllocError>
        ensures stays { IfOk result (λ stays.
            stays ≡ stays_read session.now self.old.waiting (body_view read.now)) }
        ensures waiting { IfOk result (λ stays.
            self.new ≡ record self.old {
              waiting
                  = if stays then waiting_read self.old.waiting (body_view read.now) else
                  self.old.waiting;
            }) }
    {
        let body = match read {
            RecordBody::Client(_, incoming, _) => {
                return self.message_stays(session.server.phase(), incoming);
            }
            RecordBody::Server(body) => body,
        };
        if session.expected.is_none() && self.waiting.is_none() {
            return Ok(false);
        }
        let answered = answered_id(session.alloc, body)?;
        let expected = is_waited(&session.expected, &answered);
        if !is_waited(&self.waiting, &answered) {
            return Ok(expected);
        }
        self.waiting = None;
        Ok(true)
    }

    /// Returns whether a client's message in a phase stays. If it does, and is a request, remembers
    /// that its answer is waited for.
    fn message_stays(&mut self, phase: Phase, incoming: &Incoming) -> Result<bool, AllocError>
        ensures stays { IfOk result (λ stays.
            stays ≡ message_stays phase (incoming_view incoming.now)) }
        ensures waiting { IfOk result (λ stays.
            self.new ≡ record self.old {
              waiting
                  = if stays then waiting_for self.old.waiting (incoming_view incoming.now) else
                  self.old.waiting;
            }) }
    {
        if !message_stays(phase, incoming) {
            return Ok(false);
        }
        if let Some(id) = asked_id(incoming) {
            self.waiting = Some(copied(id)?);
        }
        Ok(true)
    }
}

/// Returns whether a client's message stays in a phase.
fn message_stays(phase: Phase, incoming: &Incoming) -> bool
    ensures { result ≡ message_stays phase (incoming_view incoming.now) }
{
    match incoming {
        Incoming::Response { .. } => phase == Phase::Ended,
        Incoming::OtherRequest { .. } => phase != Phase::Running,
        Incoming::OtherNotification { method } => {
            let method = method.as_str();
            phase == Phase::Ended
                || method == "initialized"
                || method == "shutdown"
                || method == "textDocument/didSave"
        }
        _ => true,
    }
}

/// Returns the id of a request.
fn asked_id(incoming: &Incoming) -> Option<&Id>
    ensures { MatchOption result (asked_id (incoming_view incoming.now) ≡ None)
        (λ id. asked_id (incoming_view incoming.now) ≡ Some (id_view id.now)) }
{
    match incoming {
        Incoming::Initialize { id, .. } => Some(id),
        Incoming::Shutdown { id } => Some(id),
        Incoming::OtherRequest { id, .. } => Some(id),
        _ => None,
    }
}

/// Returns the id in a body that is a response.
fn answered_id(alloc: Global, body: &[u8]) -> Result<Option<Id>, AllocError>
    ensures { IfOk result (λ id. (waiting : Option IdData) →
        is_answer_to waiting (reading body.now) ≡ is_waited waiting (option_map id_view id)) }
{
    match message_of(read(alloc, body))? {
        Some(Message::Response { id, .. }) => Ok(id),
        _ => Ok(None),
    }
}

/// Returns whether an id is the one that is waited for.
fn is_waited(waiting: &Option<Id>, answered: &Option<Id>) -> bool
    ensures { result
        ≡ is_waited (option_map id_view waiting.now) (option_map id_view answered.now) }
{
    match (waiting, answered) {
        (Some(id), Some(other)) => same_id(id, other),
        _ => false,
    }
}
