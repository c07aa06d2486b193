//! The messages of a session's lifecycle, and error responses.

use super::Server;
use crate::answer::Answer;
use crate::phase::Phase;
use lsp_message::{ErrorCode, Id, Offers, Outgoing, message_frame};
use std::alloc::AllocError;

impl Server {
    ghost use Rattle.std.specs.Prelude.{◌≡◌, ◌≢◌, ℕ, List, None, option_map};
    ghost use Rattle.lsp_message.specs.Seen.{id_view};
    ghost use Rattle.lsp_message.specs.Incoming.{initialize, shutdown, other_request, exit, other_notification};
    ghost use Rattle.lsp_server.specs.declared.phase.Phase.TheVariants.{Ended};
    ghost use Rattle.lsp_server.specs.Answer.{as_sent};
    ghost use Rattle.lsp_server.specs.Seen.{answer_view};
    ghost use Rattle.lsp_server.specs.Step.{error_step, begin_step, step_on};
    ghost use Rattle.lsp_server.specs.Calls.{IsStepOf, IsQuietStepOf};

    /// Returns an error response, and changes nothing.
    pub(crate) fn fail(&self, id: Option<Id>, error: ErrorCode) -> Result<Answer, AllocError>
        ensures { IsStepOf (error_step self.now (option_map id_view id) error) result
            self.now self.now }
    {
        let frame = message_frame(self.alloc, &Outgoing::ErrorReply { id, error })?;
        Ok(Answer::Reply {
            frame,
            code: Some(error),
        })
    }

    pub(crate) fn initialize(
        &mut self,
        id: Id,
        offers: Option<Offers>,
    ) -> Result<Answer, AllocError>
        requires { self.old.phase ≢ Ended }
        ensures { IsQuietStepOf (step_on self.old (initialize (id_view id) offers)) result
            self.old self.new }
    {
        match self.phase {
            Phase::New => match offers {
                Some(offers) => self.begin(id, offers),
                None => self.fail(Some(id), ErrorCode::InvalidParams),
            },
            _ => self.fail(Some(id), ErrorCode::InvalidRequest),
        }
    }

    fn begin(&mut self, id: Id, offers: Offers) -> Result<Answer, AllocError>
        ensures { IsStepOf (begin_step self.old (id_view id) offers) result self.old self.new }
    {
        let encoding = self.choice.choose(offers);
        let accepted = Outgoing::InitializeResult {
            id,
            encoding,
            kind: self.sync.kind(),
        };
        let frame = message_frame(self.alloc, &accepted)?;
        self.phase = Phase::Running;
        self.encoding = Some(encoding);
        Ok(Answer::Reply { frame, code: None })
    }

    pub(crate) fn shutdown(&mut self, id: Id) -> Result<Answer, AllocError>
        requires { self.old.phase ≢ Ended }
        ensures { IsQuietStepOf (step_on self.old (shutdown (id_view id))) result
            self.old self.new }
    {
        match self.phase {
            Phase::New => self.fail(Some(id), ErrorCode::ServerNotInitialized),
            Phase::Running => {
                let frame = message_frame(self.alloc, &Outgoing::ShutdownResult { id })?;
                self.phase = Phase::Down;
                Ok(Answer::Reply { frame, code: None })
            }
            _ => self.fail(Some(id), ErrorCode::InvalidRequest),
        }
    }

    pub(crate) fn other_request(&self, id: Id) -> Result<Answer, AllocError>
        requires { self.now.phase ≢ Ended }
        ensures { (method : List ℕ) →
            IsQuietStepOf (step_on self.now (other_request (id_view id) method)) result
            self.now self.now }
    {
        let error = match self.phase {
            Phase::New => ErrorCode::ServerNotInitialized,
            Phase::Running => ErrorCode::MethodNotFound,
            _ => ErrorCode::InvalidRequest,
        };
        self.fail(Some(id), error)
    }

    pub(crate) fn exit(&mut self) -> Answer
        requires { self.old.phase ≢ Ended }
        ensures answer { answer_view result ≡ as_sent (step_on self.old exit).answer }
        ensures state { self.new ≡ (step_on self.old exit).state }
    {
        let status = match self.phase {
            Phase::Down => 0,
            _ => 1,
        };
        self.phase = Phase::Ended;
        Answer::Exit(status)
    }

    pub(crate) fn other_notification(&self) -> Answer
        requires { self.now.phase ≢ Ended }
        ensures answer { (method : List ℕ)
            → answer_view result ≡ as_sent (step_on self.now (other_notification method)).answer }
        ensures state { (method : List ℕ)
            → (step_on self.now (other_notification method)).state ≡ self.now }
    {
        match self.phase {
            Phase::Running => Answer::Ignored,
            _ => Answer::Dropped,
        }
    }
}
