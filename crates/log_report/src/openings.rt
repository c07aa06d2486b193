//! Which message opened each document of a log first.

ghost use Rattle.std.specs.Prelude.{◌≡◌, ◌++◌, OnOk, flat_map, option_map, string_bytes, take};
ghost use Rattle.log_report.specs.Openings.{listed_words, more_words, most_openings, no_openings, none_words, opening_words, openings_after, openings_words};

use crate::counts::tallies::{Tally, add, has_tallies};
use crate::members::{push_json_string, push_number, push_words};
use line_diff::ends_so;
use lsp_server::Phase;
use std::alloc::{AllocError, Global};
use std::marker::Model;

/// So many documents are listed.
const LISTED: usize = 20;

/// The documents that were opened, each with the number of the message that opened it first.
#[derive(Drop)]
pub struct Openings {
    alloc: Global,
    ending: String,
    // Those whose URIs end so.
    fitting: Vec<Tally>,
    others: Vec<Tally>,
}

impl Model for Openings {
    ghost use Rattle.std.specs.Prelude.{string_bytes};
    ghost use Rattle.log_report.specs.Openings as spec;

    ghost Value = { spec.OpeningsData };

    ghost view = { λ o. record {
      ending = string_bytes o.ending;
      fitting = o.fitting.items;
      others = o.others.items;
    } };
}

impl Openings {
    /// Starts before the first record.
    pub fn nothing(alloc: Global, ending: String) -> Self
        ensures { result ≡ no_openings (string_bytes ending) }
    {
        Openings {
            alloc,
            ending,
            fitting: Vec::new(alloc),
            others: Vec::new(alloc),
        }
    }

    /// Takes the document that the record of this number opened, if it did. It takes a step for
    /// each document that was opened before.
    pub fn take(&mut self, uri: Option<&str>, number: u64) -> Result<(), AllocError>
        ensures { OnOk result (self.new
            ≡ openings_after (option_map (λ uri. uri.now) uri.entry) number self.old) }
    {
        let Some(uri) = uri else {
            return Ok(());
        };
        if ends_so(uri, &self.ending) {
            add(self.alloc, &mut self.fitting, uri, number)
        } else {
            add(self.alloc, &mut self.others, uri, number)
        }
    }

    /// Writes the list at the end, with the server in this phase: of the documents whose URIs end
    /// as they should, else of all.
    pub fn push(&self, buffer: &mut Vec<u8>, phase: Phase) -> Result<(), AllocError>
        ensures { OnOk result
            (buffer.new.items ≡ buffer.old.items ++ openings_words phase self.now) }
    {
        if has_tallies(self.fitting.as_slice()) {
            return push_list(self.alloc, buffer, self.fitting.as_slice());
        }
        if has_tallies(self.others.as_slice()) {
            return push_list(self.alloc, buffer, self.others.as_slice());
        }
        push_words(buffer, none_words(phase))
    }
}

/// Returns why no document can be listed, with the server in this phase at the end.
fn none_words(phase: Phase) -> &'static str
    ensures { result.now ≡ none_words phase }
{
    match phase {
        Phase::New => {
            "  the log lacks its beginning: no `initialize` started the server (LOGS.md)\n"
        }
        Phase::Running | Phase::Down | Phase::Ended => "  no message opened a document\n",
    }
}

/// Writes a line for each of the first documents, and how many more there are.
fn push_list(alloc: Global, buffer: &mut Vec<u8>, documents: &[Tally]) -> Result<(), AllocError>
    ensures { OnOk result (buffer.new.items ≡ buffer.old.items ++ listed_words documents.now) }
{
    push_openings(alloc, buffer, first_of(documents))?;
    push_more(buffer, documents.len().saturating_sub(LISTED))
}

/// Returns the documents that are listed.
fn first_of(documents: &[Tally]) -> &[Tally]
    ensures { result.now ≡ take most_openings documents.now }
{
    if documents.len() <= LISTED {
        documents
    } else {
        &documents[..LISTED]
    }
}

fn push_openings(alloc: Global, buffer: &mut Vec<u8>, documents: &[Tally]) -> Result<(), AllocError>
    ensures { OnOk result
        (buffer.new.items ≡ buffer.old.items ++ flat_map opening_words documents.now) }
{
    for document in documents {
        push_opening(alloc, buffer, document)?;
    }
    Ok(())
}

/// Writes the line of a document.
fn push_opening(alloc: Global, buffer: &mut Vec<u8>, document: &Tally) -> Result<(), AllocError>
    ensures { OnOk result
        (buffer.new.items ≡ buffer.old.items ++ opening_words document.now) }
{
    push_words(buffer, "  message ")?;
    push_number(buffer, document.first)?;
    push_words(buffer, " opened ")?;
    push_json_string(alloc, buffer, &document.words)?;
    push_words(buffer, "\n")
}

/// Writes how many documents aren't listed, if there are some.
fn push_more(buffer: &mut Vec<u8>, more: usize) -> Result<(), AllocError>
    ensures { OnOk result (buffer.new.items ≡ buffer.old.items ++ more_words more) }
{
    if more == 0 {
        return Ok(());
    }
    push_words(buffer, "  and ")?;
    push_number(buffer, more as u64)?;
    push_words(buffer, " more\n")
}
