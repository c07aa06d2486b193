//! The language, version and text of an open document.

ghost use Rattle.std.specs.Prelude.{◌≤◌, length, sum_by};

use crate::fault::StoreFault;
use lsp_edit::{Change, Delta, IndexedText, fits};
use lsp_frame::Limits;
use lsp_text::Encoding;
use std::alloc::{AllocError, Global};

/// An open document without its URI.
#[derive(Debug, Drop)]
pub struct Stored {
    pub language: String,
    pub version: i32,
    pub text: IndexedText,
    ghost short: { length text ≤ 1073741824 },
}

impl Stored {
    ghost use Rattle.std.specs.Prelude.{◌≡◌, ◌≢◌, ℕ, List, Option, Some, None, Err, IfErr, IfOk, OnErr, OnOk, map, option_map, string_bytes, string_len};
    ghost use Rattle.lsp_text.specs.Units.{units_in};
    ghost use Rattle.lsp_edit.specs.Edited.{content_change};
    ghost use Rattle.lsp_text.specs.declared.position.Range.{Range};
    ghost use Rattle.lsp_edit.specs.Delta.{IsDeltaOf};
    ghost use Rattle.lsp_edit.specs.Indexed.{one_change};
    ghost use Rattle.lsp_store.specs.declared.fault.StoreFault.TheVariants.{NoMemory};
    ghost use Rattle.lsp_store.specs.Table.{IsLeftToMeaning, entry_refusal, is_stale};
    ghost use Rattle.lsp_store.specs.Faults.{refusal_fault, IsRefusal};
    ghost use Rattle.lsp_store.specs.Opened.{entry_under};

    /// Opens a document. The texts are moved in. Costs a search through the text for its lines.
    pub fn new(
        alloc: Global,
        language: String,
        version: i32,
        text: String,
    ) -> Result<Self, AllocError>
        requires { string_len text ≤ 1073741824 }
        ensures { IfOk result (λ stored. (uri : List ℕ) →
            entry_under uri stored
            ≡ record {
              uri = uri;
              language = string_bytes language;
              version = version;
              text = string_bytes text;
            }) }
    {
        let text = IndexedText::new(alloc, text)?;
        Ok(Stored {
            language,
            version,
            text,
        })
    }

    /// Returns whether a version is stale: not greater than the current one, within strict limits.
    fn is_stale(&self, limits: &Limits, version: i32) -> bool
        ensures { result ≡ is_stale limits.now version self.now.version }
    {
        !limits.is_lenient() && version <= self.version
    }

    /// Checks a batch apart from its meaning: its version, and the limits on its changes. Takes no
    /// memory.
    pub fn check_change(
        &self,
        limits: &Limits,
        version: i32,
        changes: &[Change],
    ) -> Result<(), StoreFault>
        ensures may { OnOk result ((uri : List ℕ)
            → IsLeftToMeaning limits.now (entry_under uri self.now) version
            (map content_change changes.now)) }
        ensures error { IfErr result (λ fault. (units : ℕ → ℕ) (uri : List ℕ) →
            option_map refusal_fault
            (entry_refusal limits.now units (entry_under uri self.now) version
            (map content_change changes.now)) ≡ Some fault) }
        ensures fits { OnOk result
            (sum_by (λ change. string_len change.text) changes.now ≤ 1073741824) }
        ensures memory { result ≢ Err NoMemory }
    {
        if self.is_stale(limits, version) {
            return Err(StoreFault::StaleVersion { held: self.version });
        }
        if changes.len() > limits.max_changes() || !fits(changes) {
            return Err(StoreFault::TooManyChanges);
        }
        Ok(())
    }

    /// Resolves a batch on the document's text. Refuses as [`crate::Store::change`] does,
    /// from a stale version on.
    pub fn plan<'a>(
        &self,
        limits: &Limits,
        version: i32,
        encoding: Encoding,
        changes: &'a [Change],
    ) -> Result<Delta<'a>, StoreFault>
        ensures accepted { OnOk result ((uri : List ℕ) →
            entry_refusal limits.now (units_in encoding) (entry_under uri self.now) version
            (map content_change changes.now) ≡ None) }
        ensures delta { IfOk result (IsDeltaOf (units_in encoding) limits.now.max_text self.now.text
            (map content_change changes.now)) }
        ensures short { limits.now.max_text ≤ 1073741824 }
        ensures error { IfErr result (λ fault. (uri : List ℕ) →
            IsRefusal (entry_refusal limits.now (units_in encoding) (entry_under uri self.now)
            version (map content_change changes.now)) fault) }
        // Memory is taken only once nothing but the meaning can refuse the batch.
        ensures memory { result ≡ Err NoMemory → (uri : List ℕ)
            → IsLeftToMeaning limits.now (entry_under uri self.now) version
            (map content_change changes.now) }
        ensures one { result ≡ Err NoMemory → (uri : List ℕ) (range : Option Range)
            (text : List ℕ) → map content_change changes.now ≡ one_change range text
            → entry_refusal limits.now (units_in encoding) (entry_under uri self.now) version
            (map content_change changes.now) ≡ None }
    {
        let max_len = limits.max_text();
        self.check_change(limits, version, changes)?;
        // `?` isn't proved here.
        match self.text.delta(encoding, changes, max_len) {
            Ok(delta) => Ok(delta),
            Err(fault) => Err(StoreFault::from(fault)),
        }
    }
}
