//! A change of a text in blocks: the blocks that it meets, and a change across them, which cuts them
//! again.
//!
//! All memory is taken before anything changes: new blocks are built beside the old.
ghost use Rattle.std.specs.Prelude.{◌≡◌, ◌+◌, ◌*◌, ◌≤◌, ◌<◌, ◌↔◌, ◌++◌, [], IsTrue, IfOk, OnOk};
ghost use Rattle.std.specs.Prelude.{OnErr, length, take, drop, get_or, vec_len, string_bytes};
ghost use Rattle.std.specs.List.{concat};
ghost use Rattle.std.specs.Str.{IsCharBoundary};
ghost use Rattle.lsp_buffer.specs.Blocks.{AreGroups, IsTextBuffer};
ghost use Rattle.lsp_buffer.specs.inside.Changes.{IsChange, IsRangeOf, IsTaken, JoinsNext, StaysInside, text_after, text_left};

use crate::block::Block;
use crate::counts::Counts;
use crate::cut::{CUT, SMALL, blocks_of};
use crate::find::{Target, find, find_later};
use crate::groups::{GROUP, fill};
use std::alloc::{AllocError, Global};

/// A part of a text in blocks: from a byte offset in the block with index `first` to one in the
/// block with index `last`.
#[derive(Clone, Copy)]
pub struct BlockRange {
    pub first: usize,
    pub start: usize,
    pub last: usize,
    pub end: usize,
}

/// Returns the part of a text from one byte offset to another. Costs a search for each.
pub fn range_of(blocks: &[Block], groups: &[Counts], start: usize, end: usize) -> BlockRange
    requires are { IsTextBuffer blocks.now groups.now }
    requires order { start ≤ end }
    requires at_start { IsCharBoundary (concat blocks.now) start }
    requires at_end { IsCharBoundary (concat blocks.now) end }
    ensures { IsRangeOf blocks.now start end result }
{
    let from = find(blocks, groups, Target::Offset(start));
    let to = find_later(blocks, groups, from, end);
    BlockRange {
        first: from.index,
        start: start - from.before.len as usize,
        last: to.index,
        end: end - to.before.len as usize,
    }
}

/// Returns whether a block is short enough to take a new text in.
fn fits(block: &Block, new: &str) -> bool
    requires { length block.now ≤ 2147483648 }
    ensures { IsTrue result ↔ length block.now + length new.now ≤ 8192 }
{
    block.len() + new.len() <= 2 * CUT
}

/// Returns whether a text of so many bytes is joined with the block after it, the one with index
/// `past`: it is short, and there is such a block.
fn joins(blocks: &[Block], past: usize, len: usize) -> bool
    ensures { IsTrue result ↔ JoinsNext blocks.now past len }
{
    past < blocks.len() && len < SMALL
}

/// Returns how many bytes a change leaves of its blocks.
fn left(blocks: &[Block], range: BlockRange, new: &str) -> usize
    requires { IsChange blocks.now range new.now }
    ensures { result ≡ length (text_left blocks.now range new.now) }
{
    let back = blocks[range.last].len() - range.end;
    range.start + new.len() + back
}

/// Returns whether a change stays inside a block.
pub fn stays_inside(blocks: &[Block], range: BlockRange, new: &str) -> bool
    requires { IsChange blocks.now range new.now }
    ensures { IsTrue result ↔ StaysInside blocks.now range new.now }
{
    if range.first != range.last {
        return false;
    }
    let len = left(blocks, range, new);
    if joins(blocks, range.last + 1, len) {
        return false;
    }
    fits(&blocks[range.first], new)
}

/// Joins the front of one block, a new text and the back of another.
fn joined(
    alloc: Global,
    front: &Block,
    to: usize,
    new: &str,
    back: &Block,
    from: usize,
) -> Result<String, AllocError>
    requires to { IsCharBoundary front.now to }
    requires from { IsCharBoundary back.now from }
    ensures { IfOk result (λ text. string_bytes text
        ≡ take to front.now ++ (new.now ++ drop from back.now)) }
{
    let mut text = String::new(alloc);
    text.push_str(&front.text()[..to])?;
    text.push_str(new)?;
    text.push_str(&back.text()[from..])?;
    Ok(text)
}

/// A text that takes the place of the blocks of a change, up to the one with index `past`.
#[derive(Drop)]
struct Taken {
    text: String,
    past: usize,
}

/// Returns what a change leaves of its blocks, joined with the next block if it is short.
fn text_taken(
    alloc: Global,
    blocks: &[Block],
    range: BlockRange,
    new: &str,
) -> Result<Taken, AllocError>
    requires { IsChange blocks.now range new.now }
    ensures { IfOk result (λ taken.
        IsTaken blocks.now range new.now (string_bytes taken.text) taken.past) }
{
    let (front, back) = (&blocks[range.first], &blocks[range.last]);
    let mut text = joined(alloc, front, range.start, new, back, range.end)?;
    let past = range.last + 1;
    if !joins(blocks, past, text.len()) {
        return Ok(Taken { text, past });
    }
    text.push_str(blocks[past].text())?;
    Ok(Taken {
        text,
        past: past + 1,
    })
}

/// Replaces the blocks from index `from` to index `to`. Out of memory changes nothing.
fn replace_blocks(
    blocks: &mut Vec<Block>,
    from: usize,
    to: usize,
    fresh: Vec<Block>,
) -> Result<(), AllocError>
    requires order { from ≤ to }
    requires within { to ≤ vec_len blocks.old }
    ensures ok { OnOk result (blocks.new.items
        ≡ take from blocks.old.items ++ (fresh.items ++ drop to blocks.old.items)) }
    ensures unchanged { OnErr result (blocks.new.items ≡ blocks.old.items) }
{
    let _ = blocks.splice(from..to, fresh)?;
    Ok(())
}

/// Replaces bytes in one block or more, and cuts what they become again. Out of memory changes
/// nothing.
pub fn replace_across(
    blocks: &mut Vec<Block>,
    groups: &mut Vec<Counts>,
    range: BlockRange,
    new: &str,
) -> Result<(), AllocError>
    requires change { IsChange blocks.old.items range new.now }
    requires groups { AreGroups blocks.old.items groups.old.items }
    ensures are { IsTextBuffer blocks.new.items groups.new.items }
    ensures changed { OnOk result (concat blocks.new.items
        ≡ text_after blocks.old.items range new.now) }
    ensures unchanged { OnErr result (concat blocks.new.items ≡ concat blocks.old.items) }
{
    let alloc = *blocks.allocator();
    let taken = text_taken(alloc, blocks, range, new)?;
    let fresh = blocks_of(alloc, &taken.text)?;
    replace_blocks(blocks, range.first, taken.past, fresh)?;
    groups.truncate(range.first / GROUP);
    fill(groups, blocks);
    Ok(())
}
