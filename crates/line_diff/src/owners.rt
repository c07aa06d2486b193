//! What is common to two texts, and which part of the one replaced which of the other.

ghost use Rattle.std.specs.Prelude.{◌≡◌, ◌≤◌, ◌+◌, length};
ghost use Rattle.line_diff.specs.Common.{common_back, common_front};
ghost use Rattle.line_diff.specs.Owners.{splice_between};

/// A replaced part of a text: the bytes from `start` to `end`, in whose place `len` others are.
#[derive(Clone, Copy, Debug, PartialEq, Eq)]
pub struct Splice {
    pub start: usize,
    pub end: usize,
    pub len: usize,
}

impl Splice {
    /// Returns by what a text differs from the one before it, but for what is common to both at the
    /// front and at the back. Linear in both.
    pub fn between(before: &[u8], text: &[u8]) -> Splice
        ensures { result ≡ splice_between before.now text.now }
    {
        let front = common_front(before, text);
        let back = common_back(front, before, text);
        Splice {
            start: front,
            end: before.len() - back,
            len: text.len() - (front + back),
        }
    }
}

/// Returns how many bytes are equal from the first on.
pub(crate) fn common_front(text: &[u8], other: &[u8]) -> usize
    ensures value { result ≡ common_front text.now other.now }
    ensures within { result ≤ length text.now }
    ensures within_other { result ≤ length other.now }
{
    let most = text.len().min(other.len());
    for count in 0..most {
        if text[count] != other[count] {
            return count;
        }
    }
    most
}

/// Returns how many bytes are equal from the last back, up to so many at the front.
pub(crate) fn common_back(front: usize, text: &[u8], other: &[u8]) -> usize
    requires front { front ≤ length text.now }
    requires front_of_other { front ≤ length other.now }
    ensures value { result ≡ common_back front text.now other.now }
    ensures within { front + result ≤ length text.now }
    ensures within_other { front + result ≤ length other.now }
{
    let most = text.len().min(other.len()) - front;
    for count in 0..most {
        if text[text.len() - 1 - count] != other[other.len() - 1 - count] {
            return count;
        }
    }
    most
}
