//! What the client does with a body that the server sent.

ghost use Rattle.std.specs.Prelude.{◌≡◌, true, Err, IfErr, IfOk, None, Ok, OnErr, Some, option_map};
ghost use Rattle.std.specs.Str.{IsUtf8};
ghost use Rattle.lsp_message.specs.Message.{OutcomeData, reading, message as read_as, response};
ghost use Rattle.lsp_message.specs.Seen.{message_view, id_view, outcome_view};
ghost use Rattle.lsp_client.specs.declared.phase.Phase.TheVariants.{Asked, Closing};
ghost use Rattle.lsp_client.specs.Step as spec;
ghost use Rattle.lsp_client.specs.Step.{delivery_result, delivery_of, delivery_in, begin_as_announced, failure};
ghost use Rattle.lsp_client.specs.Seen.{DeliveryMayAllocate, IsDelivered, IsFaultOf, delivered_view};
ghost use Rattle.lsp_client.specs.declared.fault.ClientFault.TheVariants.{NoMemory};

use crate::agreed::Agreed;
use crate::client::{Client, INITIALIZE_ID, SHUTDOWN_ID};
use crate::delivered::Delivered;
use crate::fault::ClientFault;
use crate::phase::{Phase, Reason};
use lsp_message::{
    Announced, ErrorCode, Id, Message, Outcome, Outgoing, ReadFault, SyncKind, message_frame, read,
    result_initialize,
};
use std::alloc::AllocError;

impl Client {
    /// Handles a body that the server sent (LSP 3.17, Base Protocol). In the phases Asked, Ready,
    /// Closing and Closed; else [`ClientFault::WrongPhase`]. The first row that fits decides:
    ///
    /// | Phase | Body | Delivered |
    /// |---|---|---|
    /// | any of the four | a notification | `Ignored` |
    /// | any of the four | a request | `Send` of the error -32601 with its id |
    /// | Asked | the response 1 with an error | `BadServer(ErrorAnswer)` |
    /// | Asked | the response 1 with a faulty result | `BadServer(NotAnAnswer)` |
    /// | Asked | the same, without `openClose` or with kind 0 | `BadServer(NoSync)` |
    /// | Asked | the same, the encoding unknown or not offered | `BadServer(BadEncoding)` |
    /// | Asked | the same, else | `Send` of `initialized`; now Ready |
    /// | Closing | the response 2 with an error | `BadServer(ErrorAnswer)` |
    /// | Closing | the response 2 with a result | `Noted`; now Closed |
    /// | any of the four | any other response, no message, no JSON | `BadServer(NotAnAnswer)` |
    ///
    /// After `BadServer` the phase is Failed, and the documents are as before. Nothing else
    /// changes. After [`ClientFault::NoMemory`] the client is unchanged, and a caller can deliver
    /// the same body again. It never comes for a body that isn't UTF-8. Costs one parse of the
    /// body, and the bytes of what is to be sent.
    pub fn deliver(&mut self, body: &[u8]) -> Result<Delivered, ClientFault>
        ensures ok { IfOk result (λ delivered.
            IsDelivered (delivery_result self.old (reading body.now))
            (delivered_view delivered) self.new) }
        ensures unchanged { OnErr result (self.new ≡ self.old) }
        ensures error { IfErr result (IsFaultOf (delivery_result self.old (reading body.now))) }
        ensures memory { result ≡ Err NoMemory → DeliveryMayAllocate self.old body.now }
    {
        match self.phase {
            Phase::Asked | Phase::Ready | Phase::Closing | Phase::Closed => {
                Ok(self.deliver_body(body)?)
            }
            phase => Err(ClientFault::WrongPhase { phase }),
        }
    }

    fn deliver_body(&mut self, body: &[u8]) -> Result<Delivered, AllocError>
        ensures ok { IfOk result (λ delivered.
            IsDelivered (Ok (delivery_of self.old (reading body.now)))
            (delivered_view delivered) self.new) }
        ensures unchanged { OnErr result (self.new ≡ self.old) }
        ensures memory { OnErr result (IsUtf8 body.now) }
    {
        match read(self.alloc, body) {
            Ok(message) => self.deliver_message(message),
            Err(ReadFault::NoMemory) => Err(AllocError),
            Err(_) => Ok(self.fail(Reason::NotAnAnswer)),
        }
    }

    fn deliver_message(&mut self, message: Message) -> Result<Delivered, AllocError>
        ensures ok { IfOk result (λ delivered.
            IsDelivered (Ok (delivery_of self.old (read_as (message_view message))))
            (delivered_view delivered) self.new) }
        ensures unchanged { OnErr result (self.new ≡ self.old) }
    {
        match message {
            Message::Notification { .. } => Ok(Delivered::Ignored),
            Message::Request { id, .. } => {
                let reply = Outgoing::ErrorReply {
                    id: Some(id),
                    error: ErrorCode::MethodNotFound,
                };
                Ok(Delivered::Send(message_frame(self.alloc, &reply)?))
            }
            Message::Response { id, outcome } => self.deliver_response(id, outcome),
        }
    }

    fn deliver_response(
        &mut self,
        id: Option<Id>,
        outcome: Outcome,
    ) -> Result<Delivered, AllocError>
        ensures ok { IfOk result (λ delivered.
            IsDelivered (Ok (delivery_of self.old
            (read_as (response (option_map id_view id) (outcome_view outcome)))))
            (delivered_view delivered) self.new) }
        ensures unchanged { OnErr result (self.new ≡ self.old) }
    {
        let awaited = is_awaited(self.phase, id.as_ref());
        match self.phase {
            Phase::Asked if awaited => self.begin(outcome),
            Phase::Closing if awaited => Ok(self.close_down(outcome)),
            _ => Ok(self.fail(Reason::NotAnAnswer)),
        }
    }

    /// Handles the response to `initialize`.
    fn begin(&mut self, outcome: Outcome) -> Result<Delivered, AllocError>
        ensures ok { IfOk result (λ delivered.
            IsDelivered (Ok (delivery_in Asked true self.old
            (read_as (response None (outcome_view outcome)))))
            (delivered_view delivered) self.new) }
        ensures unchanged { OnErr result (self.new ≡ self.old) }
    {
        match outcome {
            Outcome::Failed => Ok(self.fail(Reason::ErrorAnswer)),
            Outcome::Given(result) => match result_initialize(self.alloc, result) {
                Ok(announced) => self.begin_as(announced),
                Err(_) => Ok(self.fail(Reason::NotAnAnswer)),
            },
        }
    }

    fn begin_as(&mut self, announced: Announced) -> Result<Delivered, AllocError>
        ensures ok { IfOk result (λ delivered.
            IsDelivered (Ok (begin_as_announced self.old (Some announced)))
            (delivered_view delivered) self.new) }
        ensures unchanged { OnErr result (self.new ≡ self.old) }
    {
        let kind = announced.kind;
        if !announced.open_close {
            return Ok(self.fail(Reason::NoSync));
        }
        match kind {
            SyncKind::Off => Ok(self.fail(Reason::NoSync)),
            SyncKind::Full | SyncKind::Incremental => match announced.encoding {
                Some(encoding) if self.offers.includes(encoding) => {
                    let frame = message_frame(self.alloc, &Outgoing::Initialized)?;
                    self.phase = Phase::Ready;
                    self.agreed = Some(Agreed { encoding, kind });
                    Ok(Delivered::Send(frame))
                }
                _ => Ok(self.fail(Reason::BadEncoding)),
            },
        }
    }

    /// Handles the response to `shutdown`.
    fn close_down(&mut self, outcome: Outcome) -> Delivered
        ensures { IsDelivered (Ok (delivery_in Closing true self.old
            (read_as (response None (outcome_view outcome)))))
            (delivered_view result) self.new }
    {
        match outcome {
            Outcome::Failed => self.fail(Reason::ErrorAnswer),
            Outcome::Given(_) => {
                self.phase = Phase::Closed;
                Delivered::Noted
            }
        }
    }

    /// Ends the session with this reason; the documents stay.
    fn fail(&mut self, reason: Reason) -> Delivered
        ensures { IsDelivered (Ok (failure self.old reason)) (delivered_view result) self.new }
    {
        self.phase = Phase::Failed(reason);
        Delivered::BadServer(reason)
    }
}

/// Returns whether the client awaits the response with this id.
fn is_awaited(phase: Phase, id: Option<&Id>) -> bool
    ensures { (outcome : OutcomeData) → result ≡ spec.is_awaited phase
        (read_as (response (option_map (λ id. id_view id.now) id.entry) outcome)) }
{
    match (phase, id) {
        (Phase::Asked, Some(Id::Whole(id))) => *id == INITIALIZE_ID,
        (Phase::Closing, Some(Id::Whole(id))) => *id == SHUTDOWN_ID,
        _ => false,
    }
}
