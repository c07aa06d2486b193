//! Batches of changes on one document, as one batch.

ghost use Rattle.std.specs.Prelude.{◌≡◌, ℕ, List, Option, None, Err, IfErr, IfOk, OnErr, OnOk, map, string_bytes};
ghost use Rattle.lsp_text.specs.declared.position.Range.{Range};
ghost use Rattle.lsp_edit.specs.Edited.{content_change};
ghost use Rattle.lsp_edit.specs.Indexed.{one_change};
ghost use Rattle.lsp_store.specs.declared.fault.StoreFault.TheVariants.{NoMemory};
ghost use Rattle.lsp_store.specs.Faults.{IsRefusal};
ghost use Rattle.lsp_store.specs.Opened.{entry_under};
ghost use Rattle.lsp_store.specs.Plan.{IsPlanOn};
ghost use Rattle.lsp_store.specs.Squash.{HasReached, IsSquashAfter, IsSquashOfPlan, add_refusal, reached_entry, squash_frame, squash_of, squash_refusal};
ghost use Rattle.lsp_store.specs.Table.{IsLeftToMeaning};

use crate::fault::StoreFault;
use crate::store::Store;
use crate::store::canonical::change_frame;
use crate::store::document::Document;
use crate::store::plan::Plan;
use crate::store::stored::Stored;
use lsp_edit::{Change, Joined};
use lsp_frame::Limits;
use lsp_text::Encoding;
use std::alloc::{AllocError, Global};
use std::marker::Model;

/// Batches of changes on one document, one after another, as one batch, for a caller who has the
/// document that they lead to. It keeps the old text with its lines and what became of it.
#[derive(Debug, Drop)]
pub struct Batches {
    uri: String,
    limits: Limits,
    encoding: Encoding,
    // The document's version after the batches.
    version: i32,
    // The old text, and what the batches made of it.
    joined: Joined,
}

impl Model for Batches {
    ghost use Rattle.std.specs.Prelude.{string_bytes};
    ghost use Rattle.lsp_store.specs.Squash.{SquashData};

    ghost Value = { SquashData };

    ghost view = { λ batches. record {
      uri = string_bytes batches.uri;
      limits = batches.limits;
      encoding = batches.encoding;
      text = batches.joined.before;
      items = batches.joined.items;
      version = batches.version;
    } };
}

impl Batches {
    /// Starts at a document before any batch, within limits.
    ///
    /// Fails only where memory runs out. Costs a step for each block of the text.
    pub fn start(
        alloc: Global,
        limits: Limits,
        document: &Document<'_>,
        encoding: Encoding,
    ) -> Result<Self, AllocError>
        ensures ok { IfOk result (λ batches. batches ≡ squash_of limits encoding document.now) }
        ensures reached { IfOk result (λ batches. HasReached batches document.now) }
    {
        let stored = document.stored;
        let uri = String::from_str(alloc, document.uri)?;
        let joined = Joined::over(alloc, &stored.text)?;
        Ok(Batches {
            uri,
            limits,
            encoding,
            version: stored.version,
            joined,
        })
    }

    /// Returns the document's URI.
    pub fn uri(&self) -> &str
        ensures { result.now ≡ self.now.uri }
    {
        &self.uri
    }

    /// Adds a batch that was planned on the document that the batches before it lead to, before the
    /// plan is applied.
    ///
    /// Fails only where memory runs out, and then nothing changes. The batch isn't resolved again:
    /// one change of a range costs three spans and a copy of its new text, any other batch is
    /// composed. There is a share in the joins of earlier batches, where k changes cost some k log
    /// k steps on spans.
    pub fn add_plan(&mut self, store: &Store, plan: &Plan<'_>) -> Result<(), AllocError>
        requires on { IsPlanOn store.now plan.now }
        requires reached { (on : IsPlanOn store.now plan.now) → HasReached self.old on.entry }
        ensures added { OnOk result (IsSquashOfPlan store.now plan.now self.old self.new) }
        ensures unchanged { OnErr result (self.new ≡ self.old) }
    {
        let document = store.planned_document(plan);
        self.joined.add_delta(&document.stored.text, &plan.delta)?;
        self.version = plan.version;
        Ok(())
    }

    /// Adds a batch on `reached`, to which the batches before it lead, and changes that document
    /// too. A refused batch changes neither.
    fn change(
        &mut self,
        reached: &mut Stored,
        version: i32,
        changes: &[Change],
    ) -> Result<(), StoreFault>
        requires reached { (uri : List ℕ) → HasReached self.old (entry_under uri reached.old) }
        ensures ok { OnOk result
            (IsSquashAfter self.old version (map content_change changes.now) self.new) }
        ensures reached { OnOk result
            ((uri : List ℕ) → HasReached self.new (entry_under uri reached.new)) }
        ensures unchanged { OnErr result (self.new ≡ self.old) }
        ensures reached_unchanged { OnErr result (reached.new ≡ reached.old) }
        ensures error { IfErr result
            (IsRefusal (add_refusal self.old version (map content_change changes.now))) }
        // Memory is taken only once nothing but the meaning can refuse the batch; for one change, once
        // nothing can.
        ensures memory { result ≡ Err NoMemory
            → IsLeftToMeaning self.old.limits (reached_entry self.old) version
            (map content_change changes.now) }
        ensures one { result ≡ Err NoMemory → (range : Option Range) (text : List ℕ)
            → map content_change changes.now ≡ one_change range text
            → add_refusal self.old version (map content_change changes.now) ≡ None }
    {
        // States that the text is UTF-8.
        let _ = reached.text.len();
        // `?` isn't proved here.
        match reached.plan(&self.limits, version, self.encoding, changes) {
            Ok(delta) => {
                self.joined.change(&mut reached.text, delta)?;
                reached.version = version;
                self.version = version;
                Ok(())
            }
            Err(fault) => Err(fault),
        }
    }

    /// Returns the frame of the canonical message of all added batches (LSP 3.17,
    /// DidChangeTextDocument): their canonical batch under the last version. With no batch added it
    /// has no changes, and the document's version.
    ///
    /// Refuses with [`StoreFault::TooManyChanges`] where that batch has more than `max_changes`
    /// changes, then with [`StoreFault::BodyTooLong`]; and with [`StoreFault::NoMemory`]. Costs a
    /// walk over the spans of its layers, and the message's bytes.
    pub fn message(&self) -> Result<Vec<u8>, StoreFault>
        ensures ok { IfOk result (λ bytes. bytes.items ≡ squash_frame self.now) }
        ensures accepted { OnOk result (squash_refusal self.now ≡ None) }
        ensures error { IfErr result (IsRefusal (squash_refusal self.now)) }
    {
        let batch = self.joined.canonical(self.encoding)?;
        if batch.len() > self.limits.max_changes() {
            return Err(StoreFault::TooManyChanges);
        }
        let alloc = *self.uri.allocator();
        change_frame(alloc, &self.limits, &self.uri, self.version, batch)
    }
}

/// [`Batches`] together with the document that they lead to, for a caller who hasn't that document.
#[derive(Debug, Drop)]
pub struct Squash {
    batches: Batches,
    // The document after the batches, without its language.
    reached: Stored,
}

impl Model for Squash {
    ghost use Rattle.std.specs.Prelude.{ℕ, List};
    ghost use Rattle.lsp_store.specs.Opened.{entry_under};
    ghost use Rattle.lsp_store.specs.Squash.{HasReached, SquashData};

    ghost Value = { SquashData };

    ghost view = { λ squash. squash.batches };

    ghost invariant = { λ squash.
        (uri : List ℕ) → HasReached squash.batches (entry_under uri squash.reached) };
}

impl Squash {
    /// Starts at a document before any batch, within limits. Later changes of the document have no
    /// effect on it.
    ///
    /// Fails only where memory runs out. Costs two steps for each block of the text.
    pub fn start(
        alloc: Global,
        limits: Limits,
        document: &Document<'_>,
        encoding: Encoding,
    ) -> Result<Self, AllocError>
        ensures { IfOk result (λ squash. squash ≡ squash_of limits encoding document.now) }
    {
        let batches = Batches::start(alloc, limits, document, encoding)?;
        let stored = document.stored;
        let text = stored.text.clone_in(alloc)?;
        let reached = Stored {
            language: String::new(alloc),
            version: stored.version,
            text,
        };
        Ok(Squash { batches, reached })
    }

    /// Adds a batch on the text reached so far (LSP 3.17, DidChangeTextDocumentParams).
    ///
    /// Refuses, on that text and version, as [`crate::Store::change`] does from
    /// [`StoreFault::StaleVersion`] on. A refused batch changes nothing. Costs what the change of a
    /// document costs, and a share in the joins of earlier batches. There k changes cost some k log
    /// k steps on spans.
    pub fn add(&mut self, version: i32, changes: &[Change]) -> Result<(), StoreFault>
        ensures ok { OnOk result
            (IsSquashAfter self.old version (map content_change changes.now) self.new) }
        ensures unchanged { OnErr result (self.new ≡ self.old) }
        ensures error { IfErr result
            (IsRefusal (add_refusal self.old version (map content_change changes.now))) }
        // Memory is taken only once nothing but the meaning can refuse the batch; for one change, once
        // nothing can.
        ensures memory { result ≡ Err NoMemory
            → IsLeftToMeaning self.old.limits (reached_entry self.old) version
            (map content_change changes.now) }
        ensures one { result ≡ Err NoMemory → (range : Option Range) (text : List ℕ)
            → map content_change changes.now ≡ one_change range text
            → add_refusal self.old version (map content_change changes.now) ≡ None }
    {
        self.batches.change(&mut self.reached, version, changes)?;
        Ok(())
    }

    /// Returns the frame of the canonical message of all added batches, as [`Batches::message`]
    /// does, with its refusals and costs.
    pub fn message(&self) -> Result<Vec<u8>, StoreFault>
        ensures ok { IfOk result (λ bytes. bytes.items ≡ squash_frame self.now) }
        ensures accepted { OnOk result (squash_refusal self.now ≡ None) }
        ensures error { IfErr result (IsRefusal (squash_refusal self.now)) }
    {
        self.batches.message()
    }
}
