//! A file, and the document of a session that is compared with it.

ghost use Rattle.std.specs.Prelude.{◌≡◌, ◌++◌, IfOk, OnErr, OnOk, option_map, string_bytes};
ghost use Rattle.line_diff.specs.Comparison.{choice_words, followed_words, equality, new_comparison};
ghost use Rattle.line_diff.specs.Comparison.{comparison_words, ended_by, given, is_followed, opened_as, refused_by, refused_message, refused_of, refusals_words, taken};
ghost use Rattle.line_diff.specs.Names.{ends_so, is_exactly};

use crate::names::{ends_so, is_exactly};
use crate::owners::Splice;
use crate::report::{push_number, push_words};
use crate::shown::push_shown;
use crate::tracked::TrackedText;
use std::alloc::{AllocError, Global};
use std::marker::Model;

/// So many refused messages are named.
const NAMED: u64 = 5;

/// A file's text, and the text of a document that is to be the same. The document is the first one
/// that is taken, or one that is exactly what was asked for.
#[derive(Drop)]
pub struct Comparison {
    ending: String,
    file: String,
    document: Option<Followed>,
    // The URI of another one.
    second: Option<String>,
}

impl Model for Comparison {
    ghost use Rattle.std.specs.Prelude.{option_map, string_bytes};
    ghost use Rattle.line_diff.specs.Comparison.{ComparisonData};

    ghost Value = { ComparisonData };

    ghost view = { λ c. record {
      ending = string_bytes c.ending;
      file = string_bytes c.file;
      document = c.document;
      second = option_map string_bytes c.second;
    } };
}

/// A document, and what its text comes from.
#[derive(Drop)]
struct Followed {
    uri: String,
    origins: TrackedText,
    // Its text, once it was given.
    text: String,
    // The first messages about it that were refused, in words, and how many were.
    refused: Vec<u8>,
    refusals: u64,
}

impl Model for Followed {
    ghost use Rattle.std.specs.Prelude.{string_bytes};
    ghost use Rattle.line_diff.specs.Comparison as spec;

    ghost Value = { spec.Followed };

    ghost view = { λ d. record {
      uri = string_bytes d.uri;
      origins = d.origins;
      text = string_bytes d.text;
      refused = d.refused.items;
      refusals = d.refusals;
    } };
}

impl Followed {
    /// Starts with a text of so many bytes that the message of this number has given to a document.
    fn new(alloc: Global, number: u64, uri: &str, len: usize) -> Result<Followed, AllocError>
        ensures { IfOk result (λ document. document ≡ opened_as number uri.now len) }
    {
        Ok(Followed {
            uri: String::from_str(alloc, uri)?,
            origins: TrackedText::new(alloc, number, len)?,
            text: String::new(alloc),
            refused: Vec::new(alloc),
            refusals: 0,
        })
    }

    /// Takes that the message of this number has given a text to the document, by splices or as it
    /// opened it, with so many bytes.
    fn take(
        &mut self,
        alloc: Global,
        number: u64,
        len: usize,
        splices: Option<&[Splice]>,
    ) -> Result<(), AllocError>
        ensures taken { OnOk result (self.new ≡ given number len
            (option_map (λ splices. splices.now) splices.entry) self.old) }
        ensures unchanged { OnErr result (self.new ≡ self.old) }
    {
        if let Some(splices) = splices {
            return self.origins.change(alloc, number, splices);
        }
        self.origins = TrackedText::new(alloc, number, len)?;
        self.text.clear();
        self.refused.clear();
        self.refusals = 0;
        Ok(())
    }

    /// Names a message that was refused with this code, if it is one of the first.
    fn refuse(&mut self, alloc: Global, number: u64, code: &str) -> Result<(), AllocError>
        ensures refused { OnOk result (self.new ≡ refused_of number code.now self.old) }
        ensures unchanged { OnErr result (self.new ≡ self.old) }
    {
        if self.refusals < NAMED {
            let words = refused_message(alloc, self.refusals > 0, number, code)?;
            self.refused.extend_from_slice(&words)?;
        }
        self.refusals = self.refusals.saturating_add(1);
        Ok(())
    }
}

impl Comparison {
    /// Starts without a document. It is to be one whose URI ends so.
    pub fn new(ending: String, file: String) -> Comparison
        ensures { result ≡ new_comparison (string_bytes ending) (string_bytes file) }
    {
        Comparison {
            ending,
            file,
            document: None,
            second: None,
        }
    }

    /// Returns whether a URI ends as that of the document.
    pub fn is_of(&self, uri: &str) -> bool
        ensures { result ≡ ends_so uri.now self.now.ending }
    {
        ends_so(uri, &self.ending)
    }

    /// Takes that the message of this number has given a text to a document: by splices, or as it
    /// opened it, with so many bytes. Fails only where memory runs out; then nothing has changed.
    /// Linear in the changes between two splices, not in the text.
    pub fn take(
        &mut self,
        alloc: Global,
        number: u64,
        uri: &str,
        len: usize,
        splices: Option<&[Splice]>,
    ) -> Result<(), AllocError>
        ensures taken { OnOk result (self.new ≡ taken number uri.now len
            (option_map (λ splices. splices.now) splices.entry) self.old) }
        ensures unchanged { OnErr result (self.new ≡ self.old) }
    {
        let Some(document) = &mut self.document else {
            self.document = Some(Followed::new(alloc, number, uri, len)?);
            return Ok(());
        };
        if document.uri.as_str() == uri {
            return document.take(alloc, number, len, splices);
        }
        if is_exactly(&document.uri, &self.ending) {
            return Ok(());
        }
        if is_exactly(uri, &self.ending) {
            self.document = Some(Followed::new(alloc, number, uri, len)?);
            self.second = None;
            return Ok(());
        }
        if self.second.is_none() {
            self.second = Some(String::from_str(alloc, uri)?);
        }
        Ok(())
    }

    /// Returns the URI of the document, if one was taken.
    pub fn uri(&self) -> Option<&str>
        ensures { option_map (λ uri. uri.now) result
            ≡ option_map (λ d. d.uri) self.now.document }
    {
        match &self.document {
            Some(document) => Some(document.uri.as_str()),
            None => None,
        }
    }

    /// Returns whether this is the URI of the document.
    pub fn is_followed(&self, uri: &str) -> bool
        ensures { result ≡ is_followed uri.now self.now.document }
    {
        match &self.document {
            Some(document) => document.uri.as_str() == uri,
            None => false,
        }
    }

    /// Takes the document's last text.
    pub fn end(&mut self, text: String)
        ensures { self.new ≡ ended_by (string_bytes text) self.old }
    {
        if let Some(document) = &mut self.document {
            document.text = text;
        }
    }

    /// Takes that the message of this number about a document was refused with this code. Fails only
    /// where memory runs out; then nothing has changed.
    pub fn refuse(
        &mut self,
        alloc: Global,
        number: u64,
        uri: &str,
        code: &str,
    ) -> Result<(), AllocError>
        ensures refused { OnOk result (self.new ≡ refused_by number uri.now code.now self.old) }
        ensures unchanged { OnErr result (self.new ≡ self.old) }
    {
        match &mut self.document {
            Some(document) if document.uri.as_str() == uri => document.refuse(alloc, number, code),
            _ => Ok(()),
        }
    }

    /// Appends whether the document's text is the file's, and else how they differ; nothing where no
    /// document was taken. Fails only where memory runs out, and then the bytes are unchanged.
    #[tactic(auto, unfolding(crate::specs::Comparison::comparison_words))]
    pub fn push_report(&self, alloc: Global, buffer: &mut Vec<u8>) -> Result<(), AllocError>
        ensures report { OnOk result
            (buffer.new.items ≡ buffer.old.items ++ comparison_words self.now) }
        ensures unchanged { OnErr result (buffer.new.items ≡ buffer.old.items) }
    {
        let report = match (&self.document, &self.second) {
            (None, _) => Vec::new(alloc),
            (Some(document), Some(second)) => choice_report(alloc, &document.uri, second)?,
            (Some(document), None) => document_report(alloc, document, &self.file)?,
        };
        buffer.extend_from_slice(&report)
    }

    /// Returns whether the text of the one document that was taken is the file's, byte for byte; not
    /// if another one was taken; nothing if none was.
    pub fn is_equal(&self) -> Option<bool>
        ensures { result ≡ equality self.now.document self.now.second self.now.file }
    {
        match (&self.document, &self.second) {
            (None, _) => None,
            (Some(_), Some(_)) => Some(false),
            (Some(document), None) => Some(document.text.as_str() == self.file.as_str()),
        }
    }
}

/// Returns that two documents end so, in words.
fn choice_report(alloc: Global, first: &str, second: &str) -> Result<Vec<u8>, AllocError>
    ensures { IfOk result (λ report. report.items ≡ choice_words first.now second.now) }
{
    let mut report = Vec::new(alloc);
    push_words(
        &mut report,
        "more than one document ends so; `--uri` names one:\n",
    )?;
    push_shown(&mut report, first)?;
    push_words(&mut report, "\n")?;
    push_shown(&mut report, second)?;
    push_words(&mut report, "\n")?;
    Ok(report)
}

/// Returns whether a document's text is a file's, and else how they differ, in words.
fn document_report(alloc: Global, document: &Followed, file: &str) -> Result<Vec<u8>, AllocError>
    ensures { IfOk result (λ report. report.items ≡ followed_words document.now file.now) }
{
    let mut report = Vec::new(alloc);
    push_shown(&mut report, &document.uri)?;
    push_words(&mut report, " ")?;
    document
        .origins
        .push_report(alloc, &mut report, &document.text, file)?;
    if document.text.as_str() != file && document.refusals > 0 {
        push_refused(&mut report, &document.refused, document.refusals)?;
    }
    Ok(report)
}

/// Returns a message that was refused with this code in words, after another one or not.
fn refused_message(
    alloc: Global,
    is_later: bool,
    number: u64,
    code: &str,
) -> Result<Vec<u8>, AllocError>
    ensures { IfOk result (λ words. words.items ≡ refused_message is_later number code.now) }
{
    let mut words = Vec::new(alloc);
    push_words(&mut words, if is_later { ", " } else { " " })?;
    push_number(&mut words, number)?;
    push_words(&mut words, " (")?;
    push_words(&mut words, code)?;
    push_words(&mut words, ")")?;
    Ok(words)
}

/// Writes which messages were refused, of so many.
fn push_refused(buffer: &mut Vec<u8>, refused: &[u8], refusals: u64) -> Result<(), AllocError>
    ensures { OnOk result
        (buffer.new.items ≡ buffer.old.items ++ refusals_words refused.now refusals) }
{
    push_words(buffer, "Refused, so without effect:")?;
    buffer.extend_from_slice(refused)?;
    if refusals <= NAMED {
        push_words(buffer, "\n")?;
        return Ok(());
    }
    push_words(buffer, " and ")?;
    push_number(buffer, refusals - NAMED)?;
    push_words(buffer, " more\n")?;
    Ok(())
}
