//! The bodies that accepted changes are written with: canonical ones, and those of whole texts.

ghost use Rattle.std.specs.Prelude.{ℕ, ℤ, ⊤, ◌≡◌, ◌≢◌, [], List, Err, IfErr, IfOk, OnErr, OnOk, None, Ok, Some, length};
ghost use Rattle.lsp_text.specs.Units.{units_in};
ghost use Rattle.lsp_text.specs.declared.encoding.Encoding.{Encoding};
ghost use Rattle.lsp_edit.specs.Batch.{ContentChange};
ghost use Rattle.lsp_store.specs.declared.fault.StoreFault.TheVariants.{NoMemory};
ghost use Rattle.lsp_store.specs.Message.{canonical_body, whole_body};
ghost use Rattle.lsp_store.specs.Plan.{IsPlanOf, IsPlanOn};
ghost use Rattle.log_session.specs.Canonical.{canonical_change_body, whole_change_body};
ghost use Rattle.log_session.specs.inside.Verdicts.{IsAppended};

use crate::session::Session;
use crate::session::witness::Witness;
use lsp_message::ChangeParams;
use lsp_store::{Plan, Store, StoreFault};
use std::alloc::{AllocError, Global};

/// Returns the message, or `None` if it has too many changes or is too long. Fails only where
/// memory ran out in making it.
pub fn unless_refused<T>(message: Result<T, StoreFault>) -> Result<Option<T>, AllocError>
    ensures ok { IfOk message (λ m. result ≡ Ok (Some m)) }
    ensures refused { IfErr message (λ fault. IfOk result (λ m. (fault ≢ NoMemory) × (m ≡ None))) }
    ensures memory { OnErr result (message ≡ Err NoMemory) }
{
    match message {
        Ok(message) => Ok(Some(message)),
        Err(StoreFault::NoMemory) => Err(AllocError),
        Err(_) => Ok(None),
    }
}

/// What was appended for an accepted change.
#[derive(Clone, Copy, Debug, PartialEq, Eq)]
pub enum Appended {
    /// The body of its canonical message.
    Body,
    /// Nothing: that body is over the limit.
    TooLong,
}

/// The body of the last record's canonical message, if the record is an accepted change.
#[derive(Drop)]
pub struct Canonical {
    /// The body, after some room.
    pub bytes: Vec<u8>,
    /// What was appended to the room; `None` for any other record.
    pub appended: Option<Appended>,
}

impl Canonical {
    /// Starts before the first record. Takes no memory.
    pub fn new(alloc: Global) -> Canonical
        ensures bytes { result.bytes.items ≡ [] }
        ensures nothing { result.appended ≡ None }
    {
        Canonical {
            bytes: Vec::new(alloc),
            appended: None,
        }
    }

    /// Forgets the last record, and leaves room before the body of the next one.
    pub fn clear(&mut self, room: usize) -> Result<(), AllocError>
        ensures room { OnOk result (length self.new.bytes.items ≡ room) }
        ensures nothing { OnOk result (self.new.appended ≡ None) }
    {
        self.bytes.clear();
        self.bytes.resize(room, 0)?;
        self.appended = None;
        Ok(())
    }
}

impl Witness for Canonical {
    ghost Fits = { λ _ _. ⊤ };

    ghost HasSeen = { λ old new server p. IsAppended server.config.limits.max_body
        (Some (canonical_change_body server p)) new.appended old.bytes.items new.bytes.items };

    fn see(
        &mut self,
        session: &Session,
        _params: &ChangeParams,
        plan: &Plan<'_>,
    ) -> Result<(), AllocError> {
        let appended = append_body(session.server().store(), plan, &mut self.bytes)?;
        self.appended = Some(appended);
        Ok(())
    }
}

/// Appends the body of the canonical message of a plan, unless it is too long.
fn append_body(store: &Store, plan: &Plan<'_>, output: &mut Vec<u8>) -> Result<Appended, AllocError>
    requires on { IsPlanOn store.now plan.now }
    ensures { IfOk result (λ appended.
        (uri : List ℕ) (version : ℤ) (encoding : Encoding) (batch : List ContentChange)
        → IsPlanOf store.now uri version encoding batch plan.now
        → IsAppended store.now.limits.max_body
        (Some (canonical_body (units_in encoding) store.now.table uri version batch))
        (Some appended) output.old.items output.new.items) }
{
    match unless_refused(store.push_planned_body(output, plan))? {
        Some(()) => Ok(Appended::Body),
        None => Ok(Appended::TooLong),
    }
}

/// The body of the whole text that the last record leaves, if the record is an accepted change.
#[derive(Drop)]
pub struct Whole {
    pub written: Canonical,
}

impl Witness for Whole {
    ghost Fits = { λ _ _. ⊤ };

    ghost HasSeen = { λ old new server p. IsAppended server.config.limits.max_body
        (Some (whole_change_body server p)) new.written.appended old.written.bytes.items
        new.written.bytes.items };

    fn see(
        &mut self,
        session: &Session,
        _params: &ChangeParams,
        plan: &Plan<'_>,
    ) -> Result<(), AllocError> {
        let appended = append_whole(session.server().store(), plan, &mut self.written.bytes)?;
        self.written.appended = Some(appended);
        Ok(())
    }
}

/// Appends the body of the whole text that a plan leaves, unless it is too long.
fn append_whole(
    store: &Store,
    plan: &Plan<'_>,
    output: &mut Vec<u8>,
) -> Result<Appended, AllocError>
    requires on { IsPlanOn store.now plan.now }
    ensures { IfOk result (λ appended.
        (uri : List ℕ) (version : ℤ) (encoding : Encoding) (batch : List ContentChange)
        → IsPlanOf store.now uri version encoding batch plan.now
        → IsAppended store.now.limits.max_body
        (Some (whole_body (units_in encoding) store.now.table uri version batch))
        (Some appended) output.old.items output.new.items) }
{
    match unless_refused(store.push_whole_body(output, plan))? {
        Some(()) => Ok(Appended::Body),
        None => Ok(Appended::TooLong),
    }
}
