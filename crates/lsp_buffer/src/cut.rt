//! A text is cut into blocks, so that no CRLF is in two of them.
//!
//! No seam is inside a CRLF, so a run of carriage returns is never cut. Blocks are cut at 4,096
//! bytes. One that gets under 1,024 is joined with the next: so each but the last has that many,
//! and `block_count` has a bound. No clause says how long a block is at the most.
ghost use Rattle.std.specs.Prelude.{◌≡◌, ◌+◌, ◌≤◌, ◌<◌, IfOk, IfSome, IsTrue, length};
ghost use Rattle.std.specs.List.{concat};
ghost use Rattle.std.specs.Str.{IsCharBoundary};
ghost use Rattle.lsp_buffer.specs.Blocks.{AreBlocks, IsFull};
ghost use Rattle.lsp_buffer.specs.inside.Cuts.{AreFull, IsCut, IsFeed};

use crate::block::Block;
use memchr::memrchr;
use std::alloc::{AllocError, Global};

/// How many bytes a block has at the most where it is cut from a longer text. It has some more if
/// the text has a character of several bytes or a run of carriage returns there. The last block may
/// have half as many again, and a change may make a block twice as long.
pub const CUT: usize = 4_096;

/// How many bytes may be left in one block at the end of a text.
const LAST: usize = CUT + CUT / 2;

/// How many bytes a block has at the least, if it isn't the last.
pub const SMALL: usize = CUT / 4;

/// Returns whether a text can be cut at an offset that leaves both parts enough bytes: a character
/// begins there, and the one before it is no carriage return.
fn can_cut(text: &str, at: usize) -> bool
    requires enough { 1024 ≤ at }
    requires left { at + 1024 ≤ length text.now }
    ensures cut { IsTrue result → IsCut text.now at }
    ensures boundary { IsTrue result → IsCharBoundary text.now at }
{
    text.as_bytes()[at - 1] != b'\r' && text.is_char_boundary(at)
}

/// Returns where a text can be cut at an offset or after it, in the middle of a line.
fn cut_from(text: &str, first: usize) -> Option<usize>
    requires enough { 1024 ≤ first }
    requires left { 1024 ≤ length text.now }
    ensures cut { IfSome result (IsCut text.now) }
    ensures boundary { IfSome result (IsCharBoundary text.now) }
{
    for at in first..=text.len() - SMALL {
        if can_cut(text, at) {
            return Some(at);
        }
    }
    None
}

/// Returns the last line feed of the first `CUT` bytes.
fn feed_of(bytes: &[u8]) -> Option<usize>
    requires { 4096 ≤ length bytes.now }
    ensures feed { IfSome result (IsFeed bytes.now) }
    ensures front { IfSome result (λ at. at < 4096) }
{
    let (front, _) = bytes.split_at(CUT);
    memrchr(b'\n', front)
}

/// Returns where the first block of a text ends, if it isn't the last: after the last line feed of
/// its first `CUT` bytes. If that leaves too few, after them.
fn cut_of(text: &str) -> Option<usize>
    ensures cut { IfSome result (IsCut text.now) }
    ensures boundary { IfSome result (IsCharBoundary text.now) }
{
    let bytes = text.as_bytes();
    if bytes.len() <= LAST {
        return None;
    }
    match feed_of(bytes) {
        Some(at) if at >= SMALL => Some(at + 1),
        _ => cut_from(text, CUT),
    }
}

/// Cuts a text into blocks.
pub fn blocks_of(alloc: Global, text: &str) -> Result<Vec<Block>, AllocError>
    requires { length text.now ≤ 2147483648 }
    ensures text { IfOk result (λ blocks. concat blocks.items ≡ text.now) }
    ensures blocks { IfOk result (λ blocks. AreBlocks blocks.items) }
    ensures full { IfOk result (λ blocks. IsFull text.now → AreFull blocks.items) }
{
    let mut blocks = Vec::new(alloc);
    let mut rest = text;
    while let Some(cut) = cut_of(rest) {
        blocks.push(Block::from_str(alloc, &rest[..cut])?)?;
        rest = &rest[cut..];
    }
    blocks.push(Block::from_str(alloc, rest)?)?;
    Ok(blocks)
}
