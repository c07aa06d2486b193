//! Which change made each byte of a text.

ghost use Rattle.std.specs.Prelude.{◌≡◌, ◌++◌, IfOk, OnErr, OnOk};
ghost use Rattle.line_diff.specs.Report.{report_words};
ghost use Rattle.line_diff.specs.Tracked.{changed_by, opened_by};

use crate::numbers::Numbers;
use crate::owners::Splice;
use crate::repeats::Row;
use crate::report::{push_judgement, push_number, push_words};
use std::alloc::{AllocError, Global};
use std::marker::Model;

/// What is known of a text after several numbered changes: the number of the change that made each
/// byte, and of the last one at each place between two bytes. It takes at most 32 bytes for each
/// change, and none for the text, which is given when it is reported.
#[derive(Drop)]
pub struct TrackedText {
    // The number of the last change.
    made: u64,
    numbers: Numbers,
}

impl Model for TrackedText {
    ghost use Rattle.line_diff.specs.Tracked.{Tracked};

    ghost Value = { Tracked };

    ghost view = { λ t. record { made = t.made; numbers = t.numbers } };
}

impl TrackedText {
    /// Starts with a text of so many bytes that the change of this number has made whole. Fails only
    /// where memory runs out.
    pub fn new(alloc: Global, number: u64, len: usize) -> Result<TrackedText, AllocError>
        ensures { IfOk result (λ t. t ≡ opened_by number len) }
    {
        Ok(TrackedText {
            made: number,
            numbers: Numbers::new(alloc, number, len)?,
        })
    }

    /// Takes that the change of this number has replaced these parts, each of which counts in the
    /// text that the one before it leaves. Fails only where memory runs out; then nothing has
    /// changed. Linear in the changes between this one and the last; of several, in all before.
    pub fn change(
        &mut self,
        alloc: Global,
        number: u64,
        splices: &[Splice],
    ) -> Result<(), AllocError>
        ensures changed { OnOk result (self.new ≡ changed_by number splices.now self.old) }
        ensures unchanged { OnErr result (self.new ≡ self.old) }
    {
        match splices {
            [splice] => self.numbers.splice(number, *splice)?,
            _ => self.numbers = self.numbers.after_all(alloc, number, splices)?,
        }
        self.made = number;
        Ok(())
    }

    /// Appends whether this text is a file's, and else how they differ: by line ends, the last line
    /// end or a byte order mark alone, or by which lines, with the changes by which each does. Fails
    /// only where memory runs out, and then the bytes are unchanged. Linear where the texts are near.
    #[tactic(auto, unfolding(crate::specs::Report::report_words))]
    pub fn push_report(
        &self,
        alloc: Global,
        buffer: &mut Vec<u8>,
        text: &str,
        file: &str,
    ) -> Result<(), AllocError>
        ensures report { OnOk result
            (buffer.new.items ≡ buffer.old.items ++ report_words self.now text.now file.now) }
        ensures unchanged { OnErr result (buffer.new.items ≡ buffer.old.items) }
    {
        let mut report = Vec::new(alloc);
        push_words(&mut report, "after message ")?;
        push_number(&mut report, self.made)?;
        push_words(&mut report, ": the text is ")?;
        let repeats = self.numbers.repeats(alloc)?;
        push_judgement(alloc, &mut report, text, Row::new(&repeats), file)?;
        buffer.extend_from_slice(&report)
    }
}
