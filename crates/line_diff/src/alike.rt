//! Texts that differ by line ends, the last line end and a byte order mark alone.

ghost use Rattle.std.specs.Prelude.{◌≡◌, IfOk, false};
ghost use Rattle.line_diff.specs.Alike.{are_alike, first_end, has_last_end, has_mark};
ghost use Rattle.line_diff.specs.Alike.{have_same_ends, have_same_marks, without_last_end, with_feeds, without_last_byte, without_mark};

use crate::owners::common_front;
use std::alloc::{AllocError, Global};

/// A byte order mark.
const MARK: &[u8] = b"\xef\xbb\xbf";

/// Returns whether a text begins with a byte order mark.
pub fn has_mark(text: &[u8]) -> bool
    ensures { result ≡ has_mark text.now }
{
    text.starts_with(MARK)
}

/// Returns whether both texts have a byte order mark, or neither.
pub fn have_same_marks(text: &[u8], other: &[u8]) -> bool
    ensures { result ≡ have_same_marks text.now other.now }
{
    if has_mark(text) {
        has_mark(other)
    } else {
        !has_mark(other)
    }
}

/// Returns the text after its byte order mark, if it has one.
fn without_mark(text: &[u8]) -> &[u8]
    ensures { result.now ≡ without_mark text.now }
{
    if has_mark(text) { &text[3..] } else { text }
}

/// Returns a text without this byte at its end, if it has it there.
fn without_last_byte(last: u8, text: &[u8]) -> &[u8]
    ensures { result.now ≡ without_last_byte last text.now }
{
    if text.ends_with(&[last]) {
        &text[..text.len() - 1]
    } else {
        text
    }
}

/// Returns whether a text ends with a line end.
pub fn has_last_end(text: &[u8]) -> bool
    ensures { result ≡ has_last_end text.now }
{
    text.ends_with(b"\n") || text.ends_with(b"\r")
}

/// Returns the index of the first line end of a text that another one has in another form. Where
/// that one has a line feed after a carriage return that both have, this is the carriage return's.
#[tactic(auto, unfolding(crate::specs::Alike::first_end))]
pub fn first_end(text: &[u8], other: &[u8]) -> usize
    ensures { result ≡ first_end text.now other.now }
{
    let front = common_front(text, other);
    if text[..front].ends_with(b"\r") && other[front..].starts_with(b"\n") {
        front - 1
    } else {
        front
    }
}

/// Copies a text, with a line feed for each line end.
fn with_feeds(alloc: Global, text: &[u8]) -> Result<Vec<u8>, AllocError>
    ensures { IfOk result (λ copy. copy.items ≡ with_feeds false text.now) }
{
    let mut copy = Vec::new(alloc);
    let mut after = false;
    let mut next = 0;
    'bytes: while next < text.len() {
        let byte = text[next];
        if byte == b'\r' {
            copy.push(b'\n')?;
        } else if !(after && byte == b'\n') {
            copy.push(byte)?;
        }
        after = byte == b'\r';
        next += 1;
    }
    Ok(copy)
}

/// Returns whether two texts are equal but for line ends, the last line end and a byte order mark.
/// Fails only where memory runs out. Linear in both texts, which it copies.
#[tactic(auto, unfolding(crate::specs::Alike::are_alike))]
pub fn are_alike(alloc: Global, text: &[u8], other: &[u8]) -> Result<bool, AllocError>
    ensures { IfOk result (λ alike. alike ≡ are_alike text.now other.now) }
{
    let text = with_feeds(alloc, without_mark(text))?;
    let other = with_feeds(alloc, without_mark(other))?;
    Ok(without_last_byte(b'\n', &text) == without_last_byte(b'\n', &other))
}

/// Returns a text without its byte order mark and its last line end.
fn without_last_end(text: &[u8]) -> &[u8]
    ensures { result.now ≡ without_last_end text.now }
{
    without_last_byte(b'\r', without_last_byte(b'\n', without_mark(text)))
}

/// Returns whether two texts that are alike have the same line ends, but for a last one that one of
/// them alone has.
pub fn have_same_ends(text: &[u8], other: &[u8]) -> bool
    ensures { result ≡ have_same_ends text.now other.now }
{
    if has_last_end(text) && has_last_end(other) {
        without_mark(text) == without_mark(other)
    } else {
        without_last_end(text) == without_last_end(other)
    }
}
