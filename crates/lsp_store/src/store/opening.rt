//! A document is opened: what refuses it, and how many others there are.

ghost use Rattle.std.specs.Prelude.{◌≡◌, ◌≢◌, ◌<◌, ◌≤◌, ℕ, ℤ, List, Some, None, Err, option_map, IfErr, OnErr, OnOk, length, string_bytes};
ghost use Rattle.lsp_store.specs.declared.fault.StoreFault.TheVariants.{NoMemory};
ghost use Rattle.lsp_store.specs.Table.{is_taken, open_refusal, opens, other_count};
ghost use Rattle.lsp_store.specs.Opened.{IsRefused, Takes};
ghost use Rattle.lsp_store.specs.Faults.{refusal_fault};

use crate::fault::StoreFault;
use crate::store::Store;
use crate::store::stored::Stored;

impl Store {
    /// Checks whether [`Store::open`] would accept a document of this URI and text, whatever its
    /// language and version.
    ///
    /// Refuses as `open` does, in the same order. Takes no memory. Costs two hash look-ups.
    pub fn check_open(&self, uri: &str, text: &str) -> Result<(), StoreFault>
        ensures may { OnOk result ((language : List ℕ) (version : ℤ) →
            open_refusal self.now.limits self.now.table
            (record { uri = uri.now; language = language; version = version; text = text.now })
            ≡ None) }
        ensures error { IfErr result (λ fault. (language : List ℕ) (version : ℤ) →
            option_map refusal_fault (open_refusal self.now.limits self.now.table
            (record { uri = uri.now; language = language; version = version; text = text.now }))
            ≡ Some fault) }
        ensures short { OnOk result (length text.now ≤ 1073741824) }
        ensures room { OnOk result (other_count self.now.table uri.now < self.now.limits.max_docs) }
        ensures memory { result ≢ Err NoMemory }
    {
        if self.is_taken(uri) {
            return Err(StoreFault::AlreadyOpen);
        }
        if self.others(uri) >= self.limits.max_docs() {
            return Err(StoreFault::TooManyDocuments);
        }
        if text.len() > self.limits.max_text() {
            return Err(StoreFault::TextTooLong);
        }
        Ok(())
    }

    /// Returns whether a URI can't be opened: its document is open, and the limits are strict.
    fn is_taken(&self, uri: &str) -> bool
        ensures { result ≡ is_taken self.now.limits self.now.table uri.now }
    {
        !self.limits.is_lenient() && self.documents.contains_key(uri)
    }

    /// Returns the number of open documents with other URIs.
    fn others(&self, uri: &str) -> usize
        ensures { result ≡ other_count self.now.table uri.now }
    {
        let count = self.documents.len();
        if self.documents.contains_key(uri) {
            count - 1
        } else {
            count
        }
    }

    /// Opens a document after all others, even one that was open before (LSP 3.17,
    /// DidOpenTextDocument). Any version is accepted. Within lenient limits
    /// ([`lsp_frame::Limits::lenient`]) it replaces an open document of its URI.
    ///
    /// Refuses, in this order, with [`StoreFault::AlreadyOpen`], [`StoreFault::TooManyDocuments`]
    /// and, where the text has more than `max_text` bytes, [`StoreFault::TextTooLong`]; and with
    /// [`StoreFault::NoMemory`]. The texts are moved in; the URI is copied once. Costs a few hash
    /// look-ups and a search through the text for its lines.
    pub fn open(
        &mut self,
        uri: String,
        language: String,
        version: i32,
        text: String,
    ) -> Result<(), StoreFault>
        ensures taken { OnOk result (Takes self.old
            (opens (record {
              uri = string_bytes uri;
              language = string_bytes language;
              version = version;
              text = string_bytes text;
            })) self.new) }
        ensures unchanged { OnErr result (self.new ≡ self.old) }
        ensures error { IfErr result (IsRefused self.old
            (opens (record {
              uri = string_bytes uri;
              language = string_bytes language;
              version = version;
              text = string_bytes text;
            }))) }
        // Memory is taken only once nothing refuses the document.
        ensures memory { result ≡ Err NoMemory → open_refusal self.old.limits self.old.table
            (record {
              uri = string_bytes uri;
              language = string_bytes language;
              version = version;
              text = string_bytes text;
            }) ≡ None }
    {
        self.check_open(&uri, &text)?;
        let stored = Stored::new(*self.documents.allocator(), language, version, text)?;
        self.documents.insert_last(uri, stored)?;
        Ok(())
    }
}
