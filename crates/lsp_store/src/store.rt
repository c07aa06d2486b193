//! The open documents, in order of opening.

ghost use Rattle.std.specs.Prelude.{◌≡◌, ◌≤◌, ◌↔◌, ℕ, IsTrue, ℤ, List, [], Err, IfErr, IfOk, OnErr, OnOk, map, length, slice_get};
ghost use Rattle.lsp_text.specs.Units.{units_in};
ghost use Rattle.lsp_edit.specs.Batch.{ContentChange};
ghost use Rattle.lsp_edit.specs.Edited.{content_change};
ghost use Rattle.lsp_store.specs.declared.fault.StoreFault.TheVariants.{NotOpen, NoMemory};
ghost use Rattle.lsp_store.specs.Table.{entry_at, changes as changing, closes};
ghost use Rattle.lsp_store.specs.Opened.{ChangeMayAllocate, IsRefused, OneMayAllocate, Takes};
ghost use Rattle.lsp_store.specs.Plan.{IsPlanOf, IsPlanOn, after_plan};

pub(crate) mod canonical;
pub(crate) mod document;
pub(crate) mod documents;
mod opening;
pub(crate) mod plan;
pub(crate) mod stored;

use crate::fault::StoreFault;
use crate::store::document::Document;
use crate::store::documents::Documents;
use crate::store::plan::Plan;
use crate::store::stored::Stored;
use lsp_edit::Change;
use lsp_frame::Limits;
use lsp_text::Encoding;
use ordered_map::OrderedMap;
use std::alloc::{AllocError, Global};
use std::marker::Model;

/// The open documents in order of opening, within limits (LSP 3.17, Text Document Synchronization).
/// Clauses see the limits and the table of documents.
#[derive(Debug, Drop)]
pub struct Store {
    pub(crate) limits: Limits,
    pub(crate) documents: OrderedMap<Stored>,
}

impl Model for Store {
    ghost use Rattle.std.specs.Prelude.{◌≤◌, length, map};
    ghost use Rattle.lsp_store.specs.Opened.{StoreData, entry_of};

    ghost Value = { StoreData };

    ghost view = { λ store.
        record { limits = store.limits; table = map entry_of store.documents.entries } };

    ghost invariant = { λ store. length store.documents.entries ≤ store.limits.max_docs };
}

impl Store {
    /// Returns a store with no open document. Takes no memory.
    pub fn new(alloc: Global, limits: Limits) -> Self
        ensures { result ≡ record { limits = limits; table = [] } }
    {
        Store {
            limits,
            documents: OrderedMap::new(alloc),
        }
    }

    /// Returns the store's limits.
    pub fn limits(&self) -> Limits
        ensures { result ≡ self.now.limits }
    {
        self.limits
    }

    /// Returns the number of open documents, at most `max_docs`. Costs one step.
    pub fn len(&self) -> usize
        ensures len { result ≡ length self.now.table }
        ensures limit { result ≤ self.now.limits.max_docs }
    {
        self.documents.len()
    }

    /// Returns whether no document is open. Costs one step.
    pub fn is_empty(&self) -> bool
        ensures { IsTrue result ↔ (self.now.table ≡ []) }
    {
        self.documents.is_empty()
    }

    /// Returns the open document of a URI, which is compared byte for byte. Costs a hash look-up,
    /// however many are open.
    pub fn get(&self, uri: &str) -> Option<Document<'_>>
        ensures { result ≡ entry_at self.now.table uri.now }
    {
        let (uri, stored) = self.documents.get_key_value(uri)?;
        Some(Document::new(uri, stored))
    }

    /// Returns the document at an index, in order of opening from 0. There is none from
    /// [`Store::len`] on. Costs one step, and once documents were closed at most a step for each
    /// 256 documents and some 256 more ([`ordered_map::OrderedMap::get_index`]).
    pub fn at(&self, index: usize) -> Option<Document<'_>>
        ensures { result ≡ slice_get self.now.table index }
    {
        let (uri, stored) = self.documents.get_index(index)?;
        Some(Document::new(uri, stored))
    }

    /// Returns the open documents in order of opening. Each costs one step, and once documents were
    /// closed a few more.
    pub fn iter(&self) -> Documents<'_>
        ensures { result ≡ self.now.table }
    {
        Documents::new(self.documents.iter())
    }

    /// Changes an open document: applies the batch to its text, and sets its version (LSP 3.17,
    /// DidChangeTextDocument). Positions are in the units of `encoding`.
    ///
    /// Refuses, in this order, with [`StoreFault::NotOpen`], [`StoreFault::StaleVersion`] within
    /// strict limits, [`StoreFault::TooManyChanges`], [`StoreFault::Edit`] and
    /// [`StoreFault::TextTooLong`]; and with [`StoreFault::NoMemory`]. Only the text after the
    /// whole batch has to be within `max_text` bytes. Costs what
    /// [`ordered_map::OrderedMap::get_full`] costs, and what the batch costs to apply
    /// ([`lsp_edit::IndexedText::change`]): for one change of a range its two positions, its block
    /// of the text, and an addition for each 32 blocks before it. The first one after an open, or
    /// after a change of the whole text, costs the text once: it is cut into blocks then.
    pub fn change(
        &mut self,
        uri: &str,
        version: i32,
        encoding: Encoding,
        changes: &[Change],
    ) -> Result<(), StoreFault>
        ensures taken { OnOk result
            (Takes self.old (changing uri.now version encoding (map content_change changes.now))
            self.new) }
        ensures unchanged { OnErr result (self.new ≡ self.old) }
        ensures error { IfErr result
            (IsRefused self.old
            (changing uri.now version encoding (map content_change changes.now))) }
        // Memory is taken only once nothing but what the batch means can refuse it; for one change,
        // once nothing can.
        ensures memory { result ≡ Err NoMemory
            → ChangeMayAllocate self.old uri.now version (map content_change changes.now) }
        ensures one { result ≡ Err NoMemory → OneMayAllocate self.old (units_in encoding) uri.now
            version (map content_change changes.now) }
    {
        // `?` isn't proved here.
        match self.plan(uri, version, encoding, changes) {
            Ok(plan) => {
                self.apply(plan)?;
                Ok(())
            }
            Err(fault) => Err(fault),
        }
    }

    /// Resolves a batch on an open document, and makes all refusals of [`Store::change`], in their
    /// order. The plan borrows the changes, and nothing of the store.
    ///
    /// Costs what [`ordered_map::OrderedMap::get_full`] costs, and what the batch costs to resolve
    /// ([`lsp_edit::IndexedText::delta`]): for one change of a range its two positions, and no
    /// memory.
    pub fn plan<'a>(
        &self,
        uri: &str,
        version: i32,
        encoding: Encoding,
        changes: &'a [Change],
    ) -> Result<Plan<'a>, StoreFault>
        ensures planned { IfOk result
            (IsPlanOf self.now uri.now version encoding (map content_change changes.now)) }
        ensures on { IfOk result (IsPlanOn self.now) }
        ensures error { IfErr result
            (IsRefused self.now
            (changing uri.now version encoding (map content_change changes.now))) }
        ensures memory { result ≡ Err NoMemory
            → ChangeMayAllocate self.now uri.now version (map content_change changes.now) }
        ensures one { result ≡ Err NoMemory → OneMayAllocate self.now (units_in encoding) uri.now
            version (map content_change changes.now) }
    {
        let Some((index, _, stored)) = self.documents.get_full(uri) else {
            return Err(StoreFault::NotOpen);
        };
        // `?` isn't proved here.
        match stored.plan(&self.limits, version, encoding, changes) {
            Ok(delta) => Ok(Plan {
                index,
                version,
                delta,
            }),
            Err(fault) => Err(fault),
        }
    }

    /// Returns the document that a plan is of, before the plan is applied. Costs one step. Once
    /// documents were closed, one more for each 256 slots of the table, and at most 256.
    pub fn planned_document(&self, plan: &Plan<'_>) -> Document<'_>
        requires on { IsPlanOn self.now plan.now }
        ensures { (on : IsPlanOn self.now plan.now) → result ≡ on.entry }
    {
        let Some((uri, stored)) = self.documents.get_index(plan.index) else {
            unreachable!()
        };
        Document::new(uri, stored)
    }

    /// Applies a plan that was made of this store as it is. Fails only where memory runs out, and
    /// then changes nothing. Costs what the delta costs ([`lsp_edit::IndexedText::apply`]).
    pub fn apply(&mut self, plan: Plan<'_>) -> Result<(), AllocError>
        requires on { IsPlanOn self.old plan }
        ensures applied { OnOk result (self.new ≡ after_plan self.old plan.entry) }
        ensures taken { OnOk result ((uri : List ℕ) (version : ℤ) (encoding : Encoding)
            (batch : List ContentChange) → IsPlanOf self.old uri version encoding batch plan.entry
            → Takes self.old (changing uri version encoding batch) self.new) }
        ensures unchanged { OnErr result (self.new ≡ self.old) }
    {
        let Plan {
            index,
            version,
            delta,
        } = plan;
        let Some(stored) = self.documents.get_index_mut(index) else {
            unreachable!()
        };
        stored.text.apply(delta)?;
        stored.version = version;
        Ok(())
    }

    /// Closes an open document; the others keep their order (LSP 3.17, DidCloseTextDocument).
    ///
    /// Refuses with [`StoreFault::NotOpen`]. Takes no memory. Costs a hash look-up and, whichever
    /// document it is, a few steps more ([`ordered_map::OrderedMap::remove`]).
    pub fn close(&mut self, uri: &str) -> Result<(), StoreFault>
        ensures taken { OnOk result (Takes self.old (closes uri.now) self.new) }
        ensures unchanged { OnErr result (self.new ≡ self.old) }
        ensures error { IfErr result
            (λ fault. (fault ≡ NotOpen) × IsRefused self.old (closes uri.now) fault) }
    {
        let Some(_) = self.documents.remove(uri) else {
            return Err(StoreFault::NotOpen);
        };
        Ok(())
    }
}

impl<'a> IntoIterator for &'a Store {
    type Item = Document<'a>;

    type IntoIter = Documents<'a>;

    ghost into_iter_gives = { λ store documents. documents ≡ store.now.table };

    fn into_iter(self) -> Documents<'a> {
        self.iter()
    }
}
