//! The canonical message of an accepted batch of changes.
//!
//! A message is written from borrowed texts, and `lsp_frame::put_header` puts its header before
//! it.

ghost use Rattle.std.specs.Prelude.{◌≡◌, ◌<◌, ◌≤◌, ◌↔◌, ◌+◌, ◌-◌, ◌++◌, List, None, Err, IfErr, IfOk, OnErr, OnOk, length, map, string_bytes, take, ℕ, ℤ};
ghost use Rattle.lsp_frame.specs.Frame.{frame};
ghost use Rattle.lsp_text.specs.Units.{units_in};
ghost use Rattle.lsp_edit.specs.Batch.{ContentChange};
ghost use Rattle.lsp_edit.specs.Edited.{content_change};
ghost use Rattle.lsp_store.specs.declared.fault.StoreFault.TheVariants.{BodyTooLong, NoMemory};
ghost use Rattle.lsp_store.specs.Faults.{IsRefusal};
ghost use Rattle.lsp_store.specs.Opened.{ChangeMayAllocate, OneMayAllocate};
ghost use Rattle.lsp_edit.specs.Delta.{bytes_after};
ghost use Rattle.lsp_store.specs.Plan.{IsBodyOfPlan, IsMessageFault, IsMessageOfPlan, IsPlanOf, IsPlanOn, IsWholeBodyOfPlan, IsWholeFault};
ghost use Rattle.lsp_store.specs.Table.{change_refusal};
ghost use Rattle.lsp_store.specs.Message.{AreTexts, DoAlike, IsCanonicalOn, IsReadAgain, IsCanonicalOf};
ghost use Rattle.lsp_store.specs.Message.{body_refusal, canonical_batch, canonical_body, canonical_frame, change_body, message_refusal, whole_body};

use crate::fault::StoreFault;
use crate::store::Store;
use crate::store::plan::Plan;
use lsp_edit::Change;
use lsp_frame::{Limits, encode};
use lsp_message::push_change;
use lsp_text::Encoding;
use std::alloc::{AllocError, Global};

/// Most messages fit into this many bytes.
const USUAL_LENGTH: usize = 256;

/// Returns the frame of the `textDocument/didChange` of a batch (LSP 3.17,
/// DidChangeTextDocument).
///
/// Refuses with [`StoreFault::BodyTooLong`] where the body has more than `max_body` bytes; and with
/// [`StoreFault::NoMemory`]. Costs the message's bytes.
pub fn change_frame(
    alloc: Global,
    limits: &Limits,
    uri: &str,
    version: i32,
    changes: Vec<Change>,
) -> Result<Vec<u8>, StoreFault>
    ensures framed { IfOk result
        (λ bytes. bytes.items
        ≡ frame (change_body uri.now version (map content_change changes.items))) }
    ensures within { OnOk result
        (body_refusal limits.now
        (change_body uri.now version (map content_change changes.items)) ≡ None) }
    ensures error { IfErr result
        (IsRefusal (body_refusal limits.now
        (change_body uri.now version (map content_change changes.items)))) }
{
    let mut body = Vec::with_capacity(alloc, USUAL_LENGTH)?;
    push_body(&mut body, limits, uri, version, changes)?;
    Ok(encode(alloc, limits, &body)?)
}

/// Appends the body of the `textDocument/didChange` of a batch, unless it is too long.
fn push_body(
    bytes: &mut Vec<u8>,
    limits: &Limits,
    uri: &str,
    version: i32,
    changes: Vec<Change>,
) -> Result<(), StoreFault>
    ensures body { OnOk result (bytes.new.items
        ≡ bytes.old.items ++ change_body uri.now version (map content_change changes.items)) }
    ensures within { OnOk result
        (body_refusal limits.now
        (change_body uri.now version (map content_change changes.items)) ≡ None) }
    ensures error { IfErr result
        (IsRefusal (body_refusal limits.now
        (change_body uri.now version (map content_change changes.items)))) }
    ensures unchanged { OnErr result (bytes.new.items ≡ bytes.old.items) }
{
    let start = bytes.len();
    push_change(bytes, uri, version, &changes)?;
    keep_within(bytes, start, limits)
}

/// Removes the body that begins at `start`, if it is too long. Takes no memory.
fn keep_within(bytes: &mut Vec<u8>, start: usize, limits: &Limits) -> Result<(), StoreFault>
    requires { start ≤ length bytes.old.items }
    ensures within { OnOk result (length bytes.old.items ≤ start + limits.now.max_body) }
    ensures kept { OnOk result (bytes.new.items ≡ bytes.old.items) }
    ensures error { IfErr result (λ fault. (fault ≡ BodyTooLong (length bytes.old.items - start))
        × (start + limits.now.max_body < length bytes.old.items)) }
    ensures cut { OnErr result (bytes.new.items ≡ take start bytes.old.items) }
{
    let len = bytes.len() - start;
    if len > limits.max_body() {
        bytes.truncate(start);
        return Err(StoreFault::BodyTooLong { len });
    }
    Ok(())
}

impl Store {
    /// Returns the frame of the canonical message of a batch on an open document (LSP 3.17,
    /// DidChangeTextDocument). Its canonical batch keeps the same old characters and inserts the
    /// same texts between them. Its positions are in the units of `encoding`.
    ///
    /// Refuses as [`Store::change`] does, then with [`StoreFault::BodyTooLong`] where the body has
    /// more than `max_body` bytes; and with [`StoreFault::NoMemory`]. Changes nothing. Costs what
    /// [`Store::plan`] and [`Store::planned_message`] cost.
    pub fn canonical_message(
        &self,
        uri: &str,
        version: i32,
        encoding: Encoding,
        changes: &[Change],
    ) -> Result<Vec<u8>, StoreFault>
        ensures framed { IfOk result
            (λ bytes. bytes.items
            ≡ canonical_frame (units_in encoding) self.now.table uri.now version
            (map content_change changes.now)) }
        ensures accepted { OnOk result
            (message_refusal self.now.limits (units_in encoding) self.now.table uri.now version
            (map content_change changes.now) ≡ None) }
        ensures error { IfErr result
            (IsRefusal (message_refusal self.now.limits (units_in encoding) self.now.table uri.now
            version (map content_change changes.now))) }
        // Memory is taken only once nothing but what the batch means, or its message's length, can
        // refuse it.
        ensures memory { result ≡ Err NoMemory
            → ChangeMayAllocate self.now uri.now version (map content_change changes.now) }
        ensures one { result ≡ Err NoMemory → OneMayAllocate self.now (units_in encoding) uri.now
            version (map content_change changes.now) }
        // The canonical batch is that of what the batch means; `batch_laws` has what holds of it.
        ensures canonical { OnOk result
            (IsCanonicalOn (units_in encoding) self.now.table uri.now
            (map content_change changes.now)) }
        // Every other batch that is accepted here has the same canonical message exactly if both
        // batches do the same.
        ensures exactly { OnOk result ((other : List ContentChange) → AreTexts other
            → change_refusal self.now.limits (units_in encoding) self.now.table uri.now version
            other ≡ None
            → (canonical_frame (units_in encoding) self.now.table uri.now version
            (map content_change changes.now)
            ≡ canonical_frame (units_in encoding) self.now.table uri.now version other)
            ↔ DoAlike (units_in encoding) self.now.table uri.now
            (map content_change changes.now) other) }
        // The canonical batch is accepted here, has the same result, and has the same canonical
        // message.
        ensures again { OnOk result
            (IsCanonicalOf self.now.limits (units_in encoding) self.now.table uri.now version
            (map content_change changes.now)
            (canonical_batch (units_in encoding) self.now.table uri.now
            (map content_change changes.now))) }
        // The receiver reads that batch, under this URI and version.
        ensures read { OnOk result
            (IsReadAgain uri.now version
            (canonical_batch (units_in encoding) self.now.table uri.now
            (map content_change changes.now))) }
    {
        // `?` isn't proved here.
        match self.plan(uri, version, encoding, changes) {
            Ok(plan) => self.planned_message(&plan),
            Err(fault) => Err(fault),
        }
    }

    /// Returns the URI, the version and the canonical batch of the message of a plan.
    fn planned_batch(&self, plan: &Plan<'_>) -> Result<(&str, i32, Vec<Change>), AllocError>
        requires on { IsPlanOn self.now plan.now }
        ensures { IfOk result (λ planned. (uri : List ℕ) (version : ℤ) (encoding : Encoding)
            (batch : List ContentChange) → IsPlanOf self.now uri version encoding batch plan.now
            → change_body planned.0.now planned.1 (map content_change planned.2.items)
            ≡ canonical_body (units_in encoding) self.now.table uri version batch) }
    {
        let Some((uri, stored)) = self.documents.get_index(plan.index) else {
            unreachable!()
        };
        let version = plan.version;
        let alloc = *self.documents.allocator();
        let batch = plan.delta.canonical(alloc, &stored.text)?;
        Ok((uri, version, batch))
    }

    /// Returns the frame of the canonical message of a plan, before it is applied: that of
    /// [`Store::canonical_message`].
    ///
    /// Refuses with [`StoreFault::BodyTooLong`] where the body has more than `max_body` bytes; and
    /// with [`StoreFault::NoMemory`]. For one change of a range it costs two exact positions, and
    /// the message's bytes. Any other batch is composed.
    pub fn planned_message(&self, plan: &Plan<'_>) -> Result<Vec<u8>, StoreFault>
        requires on { IsPlanOn self.now plan.now }
        ensures framed { IfOk result (λ bytes. IsMessageOfPlan self.now plan.now bytes.items) }
        ensures error { IfErr result (IsMessageFault self.now plan.now) }
    {
        let alloc = *self.documents.allocator();
        let (uri, version, batch) = self.planned_batch(plan)?;
        change_frame(alloc, &self.limits, uri, version, batch)
    }

    /// Appends the body of the message of [`Store::planned_message`], so that a caller can put its
    /// header before it ([`lsp_frame::put_header`]).
    ///
    /// Refuses as [`Store::planned_message`] does, and then the bytes are unchanged. Costs the
    /// same, with no copy of the message.
    pub fn push_planned_body(&self, bytes: &mut Vec<u8>, plan: &Plan<'_>) -> Result<(), StoreFault>
        requires on { IsPlanOn self.now plan.now }
        ensures body { OnOk result
            (IsBodyOfPlan self.now plan.now bytes.old.items bytes.new.items) }
        ensures error { IfErr result (IsMessageFault self.now plan.now) }
        ensures unchanged { OnErr result (bytes.new.items ≡ bytes.old.items) }
    {
        let (uri, version, changes) = self.planned_batch(plan)?;
        push_body(bytes, &self.limits, uri, version, changes)
    }

    /// Returns the URI, the version and the one change without a range of the text that a plan
    /// leaves.
    fn planned_whole(&self, plan: &Plan<'_>) -> Result<(&str, i32, Vec<Change>), AllocError>
        requires on { IsPlanOn self.now plan.now }
        ensures { IfOk result (λ planned. (uri : List ℕ) (version : ℤ) (encoding : Encoding)
            (batch : List ContentChange) → IsPlanOf self.now uri version encoding batch plan.now
            → change_body planned.0.now planned.1 (map content_change planned.2.items)
            ≡ whole_body (units_in encoding) self.now.table uri version batch) }
    {
        let alloc = *self.documents.allocator();
        let text = self.planned_text(plan)?;
        let changes = vec![in alloc; Change { range: None, text }]?;
        let document = self.planned_document(plan);
        Ok((document.uri(), plan.version, changes))
    }

    /// Appends the body of a `textDocument/didChange` of one change without a range: the text that
    /// a plan leaves, under the plan's version (LSP 3.17, TextDocumentContentChangeEvent).
    ///
    /// Refuses with [`StoreFault::BodyTooLong`] where the body has more than `max_body` bytes, and
    /// with [`StoreFault::NoMemory`]; then the bytes are unchanged. Costs that text and the body.
    pub fn push_whole_body(&self, bytes: &mut Vec<u8>, plan: &Plan<'_>) -> Result<(), StoreFault>
        requires on { IsPlanOn self.now plan.now }
        ensures body { OnOk result
            (IsWholeBodyOfPlan self.now plan.now bytes.old.items bytes.new.items) }
        ensures error { IfErr result (IsWholeFault self.now plan.now) }
        ensures unchanged { OnErr result (bytes.new.items ≡ bytes.old.items) }
    {
        let (uri, version, changes) = self.planned_whole(plan)?;
        push_body(bytes, &self.limits, uri, version, changes)
    }

    /// Returns the text that a plan leaves, before it is applied. Fails only where memory runs out.
    /// Costs one copy of that text.
    pub fn planned_text(&self, plan: &Plan<'_>) -> Result<String, AllocError>
        requires on { IsPlanOn self.now plan.now }
        ensures { IfOk result (λ text. (on : IsPlanOn self.now plan.now)
            → string_bytes text ≡ bytes_after on.entry.text plan.now.delta) }
    {
        let Some((_, stored)) = self.documents.get_index(plan.index) else {
            unreachable!()
        };
        let alloc = *self.documents.allocator();
        plan.delta.text(alloc, &stored.text)
    }
}
