//! What the lines of a header say, as far as they have come in.

ghost use Rattle.std.specs.Prelude.{◌≡◌, ◌<◌, ◌^◌, ℕ, [], true, nat_lt, if◌then◌else◌, None, Some};
ghost use Rattle.std.specs.List.{list_all};
ghost use Rattle.lsp_frame.specs.Verdict.{is_digit, number};
ghost use Rattle.lsp_frame.specs.inside.Stage.{length_said, length_noted, charset_noted, noted, notes_of};
ghost use Rattle.lsp_frame.specs.inside.Progress.{judge_notes};

use crate::fault::HeaderFault;
use crate::framer::words::{has_good_charset, is_text, trim};

/// What the Content-Length lines say.
#[derive(Clone, Copy, Debug)]
pub(crate) enum Length {
    Missing,
    Bad,
    TooLong,
    Given(usize),
    Repeated,
}

/// What the Content-Type lines say.
#[derive(Clone, Copy, Debug)]
pub(crate) enum Charset {
    Missing,
    Good,
    Bad,
    Repeated,
}

/// What the lines of a header say of the body's length and of the charset.
#[derive(Clone, Copy, Debug)]
pub(crate) struct Notes {
    pub(crate) length: Length,
    pub(crate) charset: Charset,
}

impl Notes {
    /// Makes the notes of a header without lines.
    #[tactic(auto, unfolding(crate::specs::inside::Stage::notes_of))]
    pub(crate) fn new() -> Notes
        ensures { (max_body : ℕ) → result ≡ notes_of max_body [] }
    {
        Notes {
            length: Length::Missing,
            charset: Charset::Missing,
        }
    }

    /// Adds what one more line says. Linear in the line.
    pub(crate) fn add(self, name: &[u8], value: &[u8], max_body: usize) -> Notes
        requires { max_body < 2 ^ 32 }
        ensures { result ≡ noted max_body self name.now value.now }
    {
        let length = if is_text(b"content-length", name) {
            self.length.with(value, max_body)
        } else {
            self.length
        };
        let charset = if is_text(b"content-type", name) {
            self.charset.with(value)
        } else {
            self.charset
        };
        Notes { length, charset }
    }

    /// Returns the length of the body, or the first fault of the header.
    pub(crate) fn verdict(self) -> Result<usize, HeaderFault>
        ensures { result ≡ judge_notes self }
    {
        match (self.length, self.charset) {
            (Length::Repeated, _) | (_, Charset::Repeated) => Err(HeaderFault::RepeatedHeader),
            (Length::Missing, _) => Err(HeaderFault::MissingLength),
            (Length::Bad, _) => Err(HeaderFault::BadLength),
            (Length::TooLong, _) => Err(HeaderFault::BodyTooLong),
            (Length::Given(_), Charset::Bad) => Err(HeaderFault::BadCharset),
            (Length::Given(n), Charset::Missing | Charset::Good) => Ok(n),
        }
    }
}

impl Length {
    /// Adds what one more Content-Length says.
    fn with(self, value: &[u8], max_body: usize) -> Length
        requires { max_body < 2 ^ 32 }
        ensures { result ≡ length_noted max_body self value.now }
    {
        match self {
            Length::Missing => read_length(value, max_body),
            _ => Length::Repeated,
        }
    }
}

impl Charset {
    /// Adds what one more Content-Type says.
    fn with(self, value: &[u8]) -> Charset
        ensures { result ≡ charset_noted self value.now }
    {
        match self {
            Charset::Missing if has_good_charset(value) => Charset::Good,
            Charset::Missing => Charset::Bad,
            _ => Charset::Repeated,
        }
    }
}

/// Reads the value of a Content-Length.
fn read_length(value: &[u8], max_body: usize) -> Length
    requires { max_body < 2 ^ 32 }
    ensures { result ≡ length_said max_body value.now }
{
    let digits = trim(value);
    if digits.is_empty() || !are_digits(digits) {
        return Length::Bad;
    }
    match number_within(digits, max_body) {
        Some(n) => Length::Given(n),
        None => Length::TooLong,
    }
}

fn are_digits(bytes: &[u8]) -> bool
    ensures { result ≡ list_all is_digit bytes.now }
{
    bytes.iter().all(|b| *b >= b'0' && *b <= b'9')
}

/// Returns the number that the digits write, unless it is greater than `most`.
pub(crate) fn number_within(digits: &[u8], most: usize) -> Option<usize>
    requires digits { list_all is_digit digits.now ≡ true }
    requires most { most < 2 ^ 32 }
    ensures { result
        ≡ (if nat_lt most (number digits.now) then None else Some (number digits.now)) }
{
    let mut n = 0;
    for b in digits {
        n = n * 10 + (*b - b'0') as usize;
        if n > most {
            return None;
        }
    }
    Some(n)
}
