//! The document whose text is printed.

ghost use Rattle.std.specs.Prelude.{◌≡◌, ◌&&◌, IfOk, not, option_map, string_bytes};
ghost use Rattle.line_diff.specs.Names.{ends_so, is_exactly};
ghost use Rattle.log_rewrite.specs.Part.{found_if, is_named, none_found, only, refreshed, text_found, with_ending};
ghost use Rattle.log_session.specs.inside.Kept.{kept_after};

use line_diff::{ends_so, is_exactly};
use log_session::copied_text;
use lsp_store::Store;
use std::alloc::{AllocError, Global};
use std::marker::Model;

/// The document that is exactly what was asked for, else the one whose URI ends so.
#[derive(Drop)]
pub struct Chosen {
    uri: Option<String>,
    // Whether another one's URI ends so, too.
    several: bool,
    // The text that the document had when it was closed last.
    kept: Option<String>,
}

impl Model for Chosen {
    ghost use Rattle.std.specs.Prelude.{option_map, string_bytes};
    ghost use Rattle.log_rewrite.specs.Part as spec;

    ghost Value = { spec.Found };

    ghost view = { λ c. record {
      uri = option_map string_bytes c.uri;
      several = c.several;
      text = option_map string_bytes c.kept;
    } };
}

impl Chosen {
    /// Starts before the first record.
    pub fn none() -> Chosen
        ensures { result ≡ none_found }
    {
        Chosen {
            uri: None,
            several: false,
            kept: None,
        }
    }

    /// Chooses a document that has just been opened.
    pub fn only(uri: String) -> Chosen
        ensures { result ≡ only (string_bytes uri) }
    {
        Chosen {
            uri: Some(uri),
            several: false,
            kept: None,
        }
    }

    /// Returns the document's URI, if one was found.
    pub fn uri(&self) -> Option<&str>
        ensures { option_map (λ uri. uri.now) result ≡ self.now.uri }
    {
        self.uri.as_deref()
    }

    /// Returns whether the document is exactly what was asked for.
    fn is_named(&self, asked: &str) -> bool
        ensures { result ≡ is_named asked.now self.now.uri }
    {
        match &self.uri {
            Some(uri) => is_exactly(uri, asked),
            None => false,
        }
    }

    /// Keeps a text that the document had when it was closed.
    pub fn keep(&mut self, closed: Option<String>)
        ensures { self.new ≡ record self.old {
          text = kept_after (option_map string_bytes closed) self.old.text;
        } }
    {
        if let Some(text) = closed {
            self.kept = Some(text);
        }
    }

    /// Takes a document that was opened, if one was asked for.
    pub fn take(&mut self, asked: Option<&str>, opened: Option<String>)
        ensures { self.new
            ≡ found_if (option_map (λ asked. asked.now) asked.entry) (option_map string_bytes opened)
            self.old }
    {
        let Some(asked) = asked else {
            return;
        };
        let Some(uri) = opened else {
            return;
        };
        if is_exactly(&uri, asked) {
            *self = Chosen::only(uri);
            return;
        }
        if self.is_taken(&uri, asked) {
            self.take_ending(uri);
        }
    }

    /// Returns whether a document that was opened may be the one: its URI ends as was asked for,
    /// and none that is exactly that was opened.
    fn is_taken(&self, uri: &str, asked: &str) -> bool
        ensures { result ≡ (ends_so uri.now asked.now && not (is_named asked.now self.now.uri)) }
    {
        ends_so(uri, asked) && !self.is_named(asked)
    }

    /// Takes a document whose URI ends as was asked for.
    fn take_ending(&mut self, uri: String)
        ensures { self.new ≡ with_ending (string_bytes uri) self.old.uri self.old }
    {
        let Some(first) = &self.uri else {
            *self = Chosen::only(uri);
            return;
        };
        let differs = first.as_str() != uri.as_str();
        self.several = self.several || differs;
    }

    /// Returns the last text of the document in a copy, if there is one alone.
    pub fn text(&self, alloc: Global, documents: &Store) -> Result<Option<String>, AllocError>
        ensures { IfOk result (λ text. option_map string_bytes text
            ≡ text_found (refreshed documents.now.table self.now)) }
    {
        if self.several {
            return Ok(None);
        }
        let Some(uri) = &self.uri else {
            return Ok(None);
        };
        if let Some(document) = documents.get(uri) {
            return Ok(Some(document.text().to_string(alloc)?));
        }
        copied_text(alloc, self.kept.as_deref())
    }
}
