//! Lists of what was counted, in the order in which it came first.

ghost use Rattle.std.specs.Prelude.{◌≡◌, IfOk, OnOk, option_map};
ghost use Rattle.std.specs.Str.{bytes_eq};
ghost use Rattle.log_report.specs.Tallies.{count_of, has_tallies, raised, tallied, tallied_if};
ghost use Rattle.log_report.specs.inside.Tallies.{IsTallyAt};

use log_session::one_more;
use std::alloc::{AllocError, Global};
use std::marker::Model;

/// What was counted, how often it came, and the number of the first record with it.
#[derive(Drop)]
pub struct Tally {
    pub words: String,
    count: u64,
    pub first: u64,
}

impl Model for Tally {
    ghost use Rattle.std.specs.Prelude.{string_bytes};
    ghost use Rattle.log_report.specs.Tallies as spec;

    ghost Value = { spec.Tally };

    ghost view = { λ tally. record {
      words = string_bytes tally.words;
      count = tally.count;
      first = tally.first;
    } };
}

impl Tally {
    /// Counts what came first with the record of this number.
    fn new(alloc: Global, words: &str, number: u64) -> Result<Self, AllocError>
        ensures { IfOk result
            (λ tally. tally ≡ record { words = words.now; count = 1; first = number }) }
    {
        Ok(Tally {
            words: String::from_str(alloc, words)?,
            count: 1,
            first: number,
        })
    }

    /// Returns whether this is what was counted.
    fn is_of(&self, words: &str) -> bool
        ensures { result ≡ bytes_eq self.now.words words.now }
    {
        self.words.as_str() == words
    }

    /// Counts it once more.
    fn raise(&mut self)
        ensures { self.new ≡ raised self.old }
    {
        self.count = one_more(self.count);
    }

    /// Returns how often it came.
    pub fn count(&self) -> u64
        ensures { result ≡ self.now.count }
    {
        self.count
    }
}

/// Returns whether something was counted.
pub fn has_tallies(tallies: &[Tally]) -> bool
    ensures { result ≡ has_tallies tallies.now }
{
    !tallies.is_empty()
}

/// Returns how often something came.
pub fn count_of(tallies: &[Tally], words: &str) -> u64
    ensures { result ≡ count_of words.now tallies.now }
{
    match index_of(tallies, words) {
        Some(index) => tallies[index].count(),
        None => 0,
    }
}

/// Counts what came with the record of this number.
pub fn add(
    alloc: Global,
    tallies: &mut Vec<Tally>,
    words: &str,
    number: u64,
) -> Result<(), AllocError>
    ensures { OnOk result (tallies.new.items ≡ tallied words.now number tallies.old.items) }
{
    match index_of(tallies.as_slice(), words) {
        Some(index) => {
            tallies[index].raise();
            Ok(())
        }
        None => {
            tallies.push(Tally::new(alloc, words, number)?)?;
            Ok(())
        }
    }
}

/// Counts what came with the record of this number, if something did.
pub fn add_if(
    alloc: Global,
    tallies: &mut Vec<Tally>,
    words: Option<&str>,
    number: u64,
) -> Result<(), AllocError>
    ensures { OnOk result (tallies.new.items
        ≡ tallied_if (option_map (λ words. words.now) words.entry) number tallies.old.items) }
{
    match words {
        Some(words) => add(alloc, tallies, words, number),
        None => Ok(()),
    }
}

/// Returns the index of what was counted.
fn index_of(tallies: &[Tally], words: &str) -> Option<usize>
    ensures { IsTallyAt words.now tallies.now result }
{
    let mut next = 0;
    'tallies: while next < tallies.len() {
        if tallies[next].is_of(words) {
            return Some(next);
        }
        next += 1;
    }
    None
}
