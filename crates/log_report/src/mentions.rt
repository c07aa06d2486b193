//! Which record opened, closed or refused a document last, or made its version.

ghost use Rattle.std.specs.Prelude.{◌≡◌, [], IfOk, OnOk, option_map};
ghost use Rattle.std.specs.Str.{bytes_eq};
ghost use Rattle.log_report.specs.Mentions.{last_record, mentioned, newest_first};
ghost use Rattle.log_report.specs.Reasons.{is_empty};
ghost use Rattle.log_report.specs.inside.Mentions.{IsFoundAt};

use std::alloc::{AllocError, Global};
use std::marker::Model;

/// How many documents are kept.
const MENTIONS: usize = 64;

/// A document, and the number of the record that opened, closed or refused it last.
#[derive(Drop)]
pub struct Mention {
    uri: String,
    number: u64,
}

impl Model for Mention {
    ghost use Rattle.std.specs.Prelude.{string_bytes};
    ghost use Rattle.log_report.specs.Mentions as spec;

    ghost Value = { spec.Mention };

    ghost view = { λ mention. record {
      uri = string_bytes mention.uri;
      number = mention.number;
    } };
}

impl Mention {
    fn new(alloc: Global, uri: &str, number: u64) -> Result<Self, AllocError>
        ensures { IfOk result
            (λ mention. mention ≡ record { uri = uri.now; number = number }) }
    {
        Ok(Mention {
            uri: String::from_str(alloc, uri)?,
            number,
        })
    }

    /// Returns whether the document's URI is this one.
    fn is_of(&self, uri: &str) -> bool
        ensures { result ≡ bytes_eq self.now.uri uri.now }
    {
        self.uri.as_str() == uri
    }
}

/// The documents that were opened, closed or refused last, the newest first.
#[derive(Drop)]
pub struct Mentions {
    alloc: Global,
    pub newest: Vec<Mention>,
}

impl Mentions {
    /// Starts with no document. Takes no memory.
    pub fn new(alloc: Global) -> Self
        ensures { result.newest.items ≡ [] }
    {
        Mentions {
            alloc,
            newest: Vec::new(alloc),
        }
    }

    /// Returns whether there is no document.
    pub fn is_empty(&self) -> bool
        ensures { result ≡ is_empty self.now.newest.items }
    {
        self.newest.is_empty()
    }

    /// Returns the number of the record that opened, closed or refused the document with this URI
    /// last.
    pub fn last(&self, uri: &str) -> Option<u64>
        ensures { result ≡ last_record uri.now self.now.newest.items }
    {
        let index = index_of(self.newest.as_slice(), uri)?;
        Some(self.newest[index].number)
    }

    /// Puts the document with this URI first, with the number of a record.
    pub fn mention(&mut self, uri: &str, number: u64) -> Result<(), AllocError>
        ensures { OnOk result
            (self.new.newest.items ≡ newest_first uri.now number self.old.newest.items) }
    {
        let mention = Mention::new(self.alloc, uri, number)?;
        if let Some(index) = index_of(self.newest.as_slice(), uri) {
            self.newest.remove(index);
        }
        self.newest.insert(0, mention)?;
        self.newest.truncate(MENTIONS);
        Ok(())
    }

    /// Puts the document with this URI first, with the number of a record, if the record opened,
    /// closed or refused it.
    pub fn keep(
        &mut self,
        is_mention: bool,
        uri: Option<&str>,
        number: u64,
    ) -> Result<(), AllocError>
        ensures { OnOk result (self.new.newest.items ≡ mentioned is_mention
            (option_map (λ uri. uri.now) uri.entry) number self.old.newest.items) }
    {
        if !is_mention {
            return Ok(());
        }
        let Some(uri) = uri else {
            return Ok(());
        };
        self.mention(uri, number)
    }
}

/// Returns the index of a document.
fn index_of(mentions: &[Mention], uri: &str) -> Option<usize>
    ensures { IsFoundAt uri.now mentions.now result }
{
    let mut next = 0;
    'mentions: while next < mentions.len() {
        if mentions[next].is_of(uri) {
            return Some(next);
        }
        next += 1;
    }
    None
}
