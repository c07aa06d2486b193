//! The limits that a user sets once, and that every layer keeps.

ghost use Rattle.std.specs.Prelude.{◌≡◌, ◌≤◌, false, true, None, Some, MatchResult};
ghost use Rattle.lsp_frame.specs.Limits.{LimitsData, AreInRange, first_out_of_range};

use std::marker::Model;
use thiserror::Error;

/// The limits on one session: bytes of a body, bytes of a text, open documents, and changes in one
/// message; and whether they are lenient ([`Limits::lenient`]). Clauses see the four numbers and
/// that flag.
#[derive(Clone, Copy, Debug, PartialEq, Eq)]
pub struct Limits {
    max_body: usize,
    max_text: usize,
    max_docs: usize,
    max_changes: usize,
    lenient: bool,
}

impl Model for Limits {
    ghost use Rattle.lsp_frame.specs.Limits.{LimitsData, AreInRange};

    ghost Value = { LimitsData };

    ghost view = { λ l.
        record {
          max_body = l.max_body;
          max_text = l.max_text;
          max_docs = l.max_docs;
          max_changes = l.max_changes;
          lenient = l.lenient;
        } };

    ghost invariant = { λ l. AreInRange
        (record {
          max_body = l.max_body;
          max_text = l.max_text;
          max_docs = l.max_docs;
          max_changes = l.max_changes;
          lenient = l.lenient;
        }) };

    ghost inverse = { λ b. record {
      max_body = b.max_body;
      max_text = b.max_text;
      max_docs = b.max_docs;
      max_changes = b.max_changes;
      lenient = b.lenient;
    } };
}

/// A limit that is out of its range.
///
/// `which` is the first such limit: 1 for `max_body`, 2 for `max_text`, 3 for `max_docs`, 4 for
/// `max_changes`.
#[derive(Clone, Copy, Debug, PartialEq, Eq, Error)]
#[error("limit {which} is out of range")]
pub struct BadLimits {
    pub which: u8,
}

impl Default for Limits {
    ghost use Rattle.lsp_frame.specs.Limits.{default_limits};

    ghost is_default = { λ limits. limits ≡ default_limits };

    /// 16,777,216 bytes (16 MiB) of a body, as many of a text, 1,024 documents, 65,536 changes.
    /// They are strict.
    fn default() -> Limits {
        Limits {
            max_body: Self::DEFAULT_BODY,
            max_text: Self::DEFAULT_TEXT,
            max_docs: Self::DEFAULT_DOCS,
            max_changes: Self::DEFAULT_CHANGES,
            lenient: false,
        }
    }
}

impl Limits {
    /// The least `max_body`, in bytes.
    pub const LEAST_BODY: usize = 4_096;
    /// The greatest `max_body`, in bytes.
    pub const GREATEST_BODY: usize = 1_073_741_824;
    /// The greatest `max_text`, in bytes. The least is 0.
    pub const GREATEST_TEXT: usize = 1_073_741_824;
    /// The greatest `max_docs`. The least is 1.
    pub const GREATEST_DOCS: usize = 65_536;
    /// The greatest `max_changes`. The least is 1.
    pub const GREATEST_CHANGES: usize = 1_048_576;
    /// The default `max_body`, in bytes: 16 MiB.
    pub const DEFAULT_BODY: usize = 16_777_216;
    /// The default `max_text`, in bytes: 16 MiB.
    pub const DEFAULT_TEXT: usize = 16_777_216;
    /// The default `max_docs`.
    pub const DEFAULT_DOCS: usize = 1_024;
    /// The default `max_changes`.
    pub const DEFAULT_CHANGES: usize = 65_536;

    /// Makes strict limits of these numbers, or returns the first of them that is out of its range.
    ///
    /// A body may have 4,096 to 1,073,741,824 bytes, a text 0 to 1,073,741,824. There may be 1 to
    /// 65,536 documents, and 1 to 1,048,576 changes.
    pub fn new(
        max_body: usize,
        max_text: usize,
        max_docs: usize,
        max_changes: usize,
    ) -> Result<Limits, BadLimits>
        ensures { let given : LimitsData
            = record {
              max_body = max_body;
              max_text = max_text;
              max_docs = max_docs;
              max_changes = max_changes;
              lenient = false;
            } in
            MatchResult result (λ limits. (limits ≡ given) × (first_out_of_range given ≡ None))
            (λ bad. first_out_of_range given ≡ Some bad.which) }
    {
        if !(Self::LEAST_BODY..=Self::GREATEST_BODY).contains(&max_body) {
            return Err(BadLimits { which: 1 });
        }
        if max_text > Self::GREATEST_TEXT {
            return Err(BadLimits { which: 2 });
        }
        if !(1..=Self::GREATEST_DOCS).contains(&max_docs) {
            return Err(BadLimits { which: 3 });
        }
        if !(1..=Self::GREATEST_CHANGES).contains(&max_changes) {
            return Err(BadLimits { which: 4 });
        }
        Ok(Limits {
            max_body,
            max_text,
            max_docs,
            max_changes,
            lenient: false,
        })
    }

    /// Returns these limits for editors that break two rules of LSP 3.17. A change is accepted
    /// whatever its version (DidChangeTextDocument), and opening an open document replaces it
    /// (DidOpenTextDocument).
    pub fn lenient(self) -> Limits
        ensures { result ≡ record self { lenient = true } }
    {
        Limits {
            lenient: true,
            ..self
        }
    }

    /// Returns the greatest length of a body, in bytes.
    pub fn max_body(&self) -> usize
        ensures value { result ≡ self.now.max_body }
        ensures range { (4096 ≤ result) × (result ≤ 1073741824) }
        // So are all four, whichever is asked for.
        ensures in_range { AreInRange self.now }
    {
        self.max_body
    }

    /// Returns the greatest length of a text, in bytes.
    pub fn max_text(&self) -> usize
        ensures value { result ≡ self.now.max_text }
        ensures range { result ≤ 1073741824 }
    {
        self.max_text
    }

    /// Returns the greatest number of open documents.
    pub fn max_docs(&self) -> usize
        ensures value { result ≡ self.now.max_docs }
        ensures range { (1 ≤ result) × (result ≤ 65536) }
    {
        self.max_docs
    }

    /// Returns the greatest number of changes in one message.
    pub fn max_changes(&self) -> usize
        ensures value { result ≡ self.now.max_changes }
        ensures range { (1 ≤ result) × (result ≤ 1048576) }
    {
        self.max_changes
    }

    /// Returns whether these limits are lenient, as [`Limits::lenient`] makes them.
    pub fn is_lenient(&self) -> bool
        ensures { result ≡ self.now.lenient }
    {
        self.lenient
    }
}
