//! The notifications of documents, as commands on the store.

ghost use Rattle.std.specs.Prelude.{◌≡◌, ◌≢◌, Ok, Err, IfOk, IfErr, OnOk, OnErr};
ghost use Rattle.lsp_store.specs.declared.fault.StoreFault.TheVariants.{NoMemory};

use super::Server;
use crate::answer::{Answer, Refusal, ServerFault};
use crate::phase::Phase;
use crate::planned::PlannedChange;
use lsp_message::{ChangeParams, CloseParams, OpenParams};
use lsp_store::{Plan, StoreFault};
use lsp_text::Encoding;
use std::alloc::AllocError;

impl Server {
    ghost use Rattle.std.specs.Prelude.{◌≡◌, ◌≢◌, ◌↔◌, Some, None, Err, IfOk, IsErrOf, OnErr, OnOk, map, option_map, string_bytes};
    ghost use Rattle.lsp_message.specs.Seen.{open_view, change_view, close_view};
    ghost use Rattle.lsp_message.specs.Incoming.{did_open, did_change, did_close};
    ghost use Rattle.lsp_edit.specs.Edited.{content_change};
    ghost use Rattle.lsp_message.specs.Params.{ChangeData};
    ghost use Rattle.lsp_store.specs.Opened.{ChangeMayAllocate};
    ghost use Rattle.lsp_store.specs.Table.{opens};
    ghost use Rattle.lsp_server.specs.declared.phase.Phase.TheVariants.{Running, Ended};
    ghost use Rattle.lsp_server.specs.Step.{step_on, command_step, change_command, close_command};
    ghost use Rattle.lsp_server.specs.Calls.{IsStepOf, IsQuietStepOf};
    ghost use Rattle.lsp_server.specs.Planned.{IsCommittable, IsPlanOfChange, IsPlannedAs, after_commit, store_of};

    /// Returns the params of a notification that is obeyed, else its answer: it is dropped outside
    /// phase Running, and refused where its params don't fit.
    fn admit<P: Drop>(&self, params: Option<P>) -> Result<P, Answer>
        ensures admitted { IfOk result (λ p. (self.now.phase ≡ Running) × (params ≡ Some p)) }
        ensures dropped { OnErr result (self.now.phase ≢ Running → result ≡ Err Answer.Dropped) }
        ensures refused { OnErr result (self.now.phase ≡ Running → (params ≡ None)
            × (result ≡ Err (Answer.Refused Refusal.InvalidParams))) }
    {
        if self.phase != Phase::Running {
            return Err(Answer::Dropped);
        }
        params.ok_or(Answer::Refused(Refusal::InvalidParams))
    }

    #[tactic(auto, using(crate::proofs::Commands::obeyed_row))]
    pub(crate) fn did_open(&mut self, params: Option<OpenParams>) -> Result<Answer, AllocError>
        requires { self.old.phase ≢ Ended }
        ensures { IsQuietStepOf (step_on self.old (did_open (option_map open_view params))) result
            self.old self.new }
    {
        match self.admit(params) {
            Ok(params) => self.open(params),
            Err(answer) => Ok(answer),
        }
    }

    fn open(&mut self, params: OpenParams) -> Result<Answer, AllocError>
        ensures { IsStepOf (command_step self.old (opens (open_view params))) result
            self.old self.new }
    {
        let OpenParams {
            uri,
            language,
            version,
            text,
        } = params;
        answer_of(self.store.open(uri, language, version, text))
    }

    #[tactic(auto, using(crate::proofs::Commands::obeyed_row))]
    pub(crate) fn did_change(&mut self, params: Option<ChangeParams>) -> Result<Answer, AllocError>
        requires { self.old.phase ≢ Ended }
        ensures { IsQuietStepOf (step_on self.old (did_change (option_map change_view params)))
            result self.old self.new }
    {
        match self.admit(params) {
            Ok(params) => self.change(&params),
            Err(answer) => Ok(answer),
        }
    }

    /// Resolves a change on the open documents, before it is made (LSP 3.17,
    /// DidChangeTextDocument). The result borrows the params, and nothing of the server. Nothing
    /// changes.
    ///
    /// [`handle_incoming`](Server::handle_incoming) of a change is this call and
    /// [`commit_change`](Server::commit_change). Between the two a caller can ask
    /// [`store`](Server::store) what the plan does, as
    /// [`Store::planned_message`](lsp_store::Store::planned_message).
    ///
    /// A change is dropped in phases New and Down, and refused in phase Running as
    /// [`Store::change`](lsp_store::Store::change) refuses it, in the same order; both are an
    /// answer and no fault. [`ServerFault::AlreadyEnded`] comes in phase Ended, and only there.
    ///
    /// Costs what [`Store::plan`](lsp_store::Store::plan) costs.
    #[tactic(auto, using(crate::proofs::Changes::dropped_is))]
    pub fn plan_change<'a>(
        &self,
        params: &'a ChangeParams,
    ) -> Result<PlannedChange<'a>, ServerFault>
        ensures planned { IfOk result (IsPlannedAs self.now (change_view params.now)) }
        ensures ended { IsErrOf result ServerFault.AlreadyEnded ↔ (self.now.phase ≡ Ended) }
        // Memory is taken only in phase Running, once nothing but what the batch means can refuse
        // it.
        ensures memory { result ≡ Err ServerFault.NoMemory → (self.now.phase ≡ Running)
            × ChangeMayAllocate (store_of self.now) (string_bytes params.now.uri) params.now.version
            (map content_change params.now.changes.items) }
    {
        match self.phase {
            Phase::New | Phase::Down => Ok(PlannedChange::Answered(Answer::Dropped)),
            Phase::Running => Ok(self.plan(params)?),
            Phase::Ended => Err(ServerFault::AlreadyEnded),
        }
    }

    /// Resolves a change as [`plan_change`](Server::plan_change) does, for a caller that knows that
    /// the session is running. Fails only where memory runs out, and costs the same.
    pub fn plan<'a>(&self, params: &'a ChangeParams) -> Result<PlannedChange<'a>, AllocError>
        requires { self.now.phase ≡ Running }
        ensures planned { IfOk result (IsPlannedAs self.now (change_view params.now)) }
        ensures memory { OnErr result (ChangeMayAllocate (store_of self.now)
            (string_bytes params.now.uri) params.now.version
            (map content_change params.now.changes.items)) }
    {
        let encoding = self.encoding.unwrap_or(Encoding::Utf16);
        let (version, changes) = (params.version, &params.changes);
        match self.store.plan(&params.uri, version, encoding, changes) {
            Ok(plan) => Ok(PlannedChange::Accepted(plan)),
            Err(fault) => Ok(PlannedChange::Answered(refused(fault)?)),
        }
    }

    /// Makes a change that was planned ([`plan_change`](Server::plan_change)) on the server as it
    /// is, and answers it: [`Answer::Changed`].
    ///
    /// Fails only where memory runs out, and then changes nothing; the change has to be planned
    /// again. Costs what [`Store::apply`](lsp_store::Store::apply) costs.
    pub fn commit_change(&mut self, plan: Plan<'_>) -> Result<Answer, AllocError>
        requires { IsCommittable self.old plan }
        ensures committed { OnOk result (self.new ≡ after_commit self.old plan.entry) }
        ensures answer { IfOk result (λ a. a ≡ Answer.Changed) }
        // It is the step of each change that the plan is of.
        ensures step { (p : ChangeData) → IsPlanOfChange self.old p plan.entry
            → IsStepOf (step_on self.old (did_change (Some p))) result self.old self.new }
        ensures unchanged { OnErr result (self.new ≡ self.old) }
    {
        self.store.apply(plan)?;
        Ok(Answer::Changed)
    }

    /// Makes a change of a running session.
    fn change(&mut self, params: &ChangeParams) -> Result<Answer, AllocError>
        requires { self.old.phase ≡ Running }
        ensures { IsStepOf
            (command_step self.old (change_command self.old (change_view params.now)))
            result self.old self.new }
    {
        match self.plan(params)? {
            PlannedChange::Accepted(plan) => self.commit_change(plan),
            PlannedChange::Answered(answer) => Ok(answer),
        }
    }

    #[tactic(auto, using(crate::proofs::Commands::obeyed_row))]
    pub(crate) fn did_close(&mut self, params: Option<CloseParams>) -> Result<Answer, AllocError>
        requires { self.old.phase ≢ Ended }
        ensures { IsQuietStepOf (step_on self.old (did_close (option_map close_view params))) result
            self.old self.new }
    {
        match self.admit(params) {
            Ok(params) => self.close(params),
            Err(answer) => Ok(answer),
        }
    }

    fn close(&mut self, params: CloseParams) -> Result<Answer, AllocError>
        ensures { IsStepOf (command_step self.old (close_command (close_view params))) result
            self.old self.new }
    {
        answer_of(self.store.close(&params.uri))
    }
}

/// Returns the answer to a command with this result on the store.
fn answer_of(outcome: Result<(), StoreFault>) -> Result<Answer, AllocError>
    ensures changed { OnOk outcome (result ≡ Ok Answer.Changed) }
    ensures refused { IfErr outcome
        (λ fault. IfOk result
        (λ a. (fault ≢ NoMemory) × (a ≡ Answer.Refused (Refusal.Store fault)))) }
    ensures memory { OnErr result (outcome ≡ Err StoreFault.NoMemory) }
{
    match outcome {
        Ok(()) => Ok(Answer::Changed),
        Err(fault) => refused(fault),
    }
}

/// Returns the answer to a command that the store refuses.
fn refused(fault: StoreFault) -> Result<Answer, AllocError>
    ensures refused { IfOk result
        (λ a. (fault ≢ NoMemory) × (a ≡ Answer.Refused (Refusal.Store fault))) }
    ensures memory { OnErr result (fault ≡ NoMemory) }
{
    match fault {
        StoreFault::NoMemory => Err(AllocError),
        _ => Ok(Answer::Refused(Refusal::Store(fault))),
    }
}
