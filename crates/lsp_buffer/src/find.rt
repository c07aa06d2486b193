//! The search for the block that a byte offset or a position is in.
ghost use Rattle.std.specs.Prelude.{◌≡◌, ◌≤◌, ◌↔◌, IsTrue, length, take};
ghost use Rattle.std.specs.List.{concat};
ghost use Rattle.lsp_buffer.specs.Blocks.{AreBlocks, IsTextBuffer, counts_of};
ghost use Rattle.lsp_buffer.specs.declared.counts.Counts.{Counts};
ghost use Rattle.lsp_buffer.specs.declared.find.Target.TheVariants.{Offset};
ghost use Rattle.lsp_buffer.specs.inside.Parts.{BeginsBefore, IsFound, IsPassed, Reaches};

use crate::block::Block;
use crate::counts::Counts;
use crate::groups::GROUP;
use lsp_text::{Encoding, Position};

/// What is searched for: a byte offset, or a position.
#[derive(Clone, Copy)]
pub enum Target {
    Offset(usize),
    Denoted(Encoding, Position),
}

/// A block, and what comes before it.
#[derive(Clone, Copy)]
pub struct Found {
    pub index: usize,
    pub before: Counts,
}

/// Returns whether a block begins at the target or before it, by what comes before the block.
fn reaches(target: Target, before: Counts) -> bool
    ensures { IsTrue result ↔ Reaches target before }
{
    match target {
        Target::Offset(offset) => before.len as usize <= offset,
        Target::Denoted(encoding, position) => {
            before.ends < position.line
                || before.ends == position.line && before.head(encoding) <= position.character
        }
    }
}

/// Returns the last group that begins at the target or before it, by its first block.
fn find_group(blocks: &[Block], groups: &[Counts], target: Target) -> Found
    requires { IsTextBuffer blocks.now groups.now }
    ensures { BeginsBefore blocks.now target result }
{
    let mut before = Counts::none();
    for (number, group) in groups.iter().enumerate() {
        let next = before.plus(*group);
        if !reaches(target, next) {
            let index = GROUP * number;
            return Found { index, before };
        }
        before = next;
    }
    let index = GROUP * groups.len();
    Found { index, before }
}

/// A block, and how many bytes and line ends come before it.
#[derive(Clone, Copy)]
struct Passed {
    index: usize,
    len: u32,
    ends: u32,
}

/// Returns whether what begins after so many bytes and line ends does so at the target or before
/// it. In a position's own line it isn't sure.
fn passes(target: Target, len: u32, ends: u32) -> bool
    ensures { IsTrue result → (before : Counts) → before.len ≡ len → before.ends ≡ ends
        → Reaches target before }
{
    match target {
        Target::Offset(offset) => len as usize <= offset,
        Target::Denoted(_, position) => ends < position.line,
    }
}

/// Returns a block that begins at the target or before it, from one on that does: the last that
/// bytes and line ends show.
fn pass(blocks: &[Block], first: Found, target: Target) -> Passed
    requires are { AreBlocks blocks.now }
    requires size { length (concat blocks.now) ≤ 2147483648 }
    requires first { BeginsBefore blocks.now target first }
    ensures passed { IsPassed blocks.now target result.index result.len result.ends }
    ensures order { first.index ≤ result.index }
{
    let mut len = first.before.len;
    let mut ends = first.before.ends;
    let last = blocks.len() - 1;
    for index in first.index..last {
        let counts = blocks[index].counts();
        let next_len = len + counts.len;
        let next_ends = ends + counts.ends;
        if !passes(target, next_len, next_ends) {
            return Passed { index, len, ends };
        }
        len = next_len;
        ends = next_ends;
    }
    let index = last;
    Passed { index, len, ends }
}

/// Returns what comes before a block that was passed to. Costs an addition for each block from the
/// last line end on.
fn before_of(blocks: &[Block], first: Found, target: Target, passed: Passed) -> Counts
    requires are { AreBlocks blocks.now }
    requires size { length (concat blocks.now) ≤ 2147483648 }
    requires first { BeginsBefore blocks.now target first }
    requires passed { IsPassed blocks.now target passed.index passed.len passed.ends }
    requires order { first.index ≤ passed.index }
    ensures { result ≡ counts_of (concat (take passed.index blocks.now)) }
{
    let mut from = passed.index;
    let mut tail = Counts::none();
    while from > first.index && tail.ends == 0 {
        from -= 1;
        tail = blocks[from].counts().plus(tail);
    }
    if tail.ends == 0 {
        return first.before.plus(tail);
    }
    Counts {
        len: passed.len,
        ends: passed.ends,
        utf8: tail.utf8,
        utf16: tail.utf16,
        utf32: tail.utf32,
    }
}

/// Returns the last block that begins at the target or before it, from one on that does.
fn find_from(blocks: &[Block], first: Found, target: Target) -> Found
    requires are { AreBlocks blocks.now }
    requires size { length (concat blocks.now) ≤ 2147483648 }
    requires first { BeginsBefore blocks.now target first }
    ensures { IsFound blocks.now target result }
{
    let passed = pass(blocks, first, target);
    let mut before = before_of(blocks, first, target, passed);
    let last = blocks.len() - 1;
    for index in passed.index..last {
        let next = before.plus(blocks[index].counts());
        if !reaches(target, next) {
            return Found { index, before };
        }
        before = next;
    }
    Found {
        index: last,
        before,
    }
}

/// Returns the last block that begins at the target or before it. Costs an addition for each group
/// before it, and for each block before it in its group one of bytes and line ends.
pub fn find(blocks: &[Block], groups: &[Counts], target: Target) -> Found
    requires { IsTextBuffer blocks.now groups.now }
    ensures { IsFound blocks.now target result }
{
    let group = find_group(blocks, groups, target);
    find_from(blocks, group, target)
}

/// Returns the last block that begins at a byte offset or before it, from one on that does. Costs
/// a search, if that isn't the block itself.
pub fn find_later(blocks: &[Block], groups: &[Counts], first: Found, offset: usize) -> Found
    requires are { IsTextBuffer blocks.now groups.now }
    requires first { BeginsBefore blocks.now (Offset offset) first }
    ensures { IsFound blocks.now (Offset offset) result }
{
    if first.index + 1 == blocks.len() {
        return first;
    }
    let inner = offset - first.before.len as usize;
    if inner < blocks[first.index].len() {
        return first;
    }
    find(blocks, groups, Target::Offset(offset))
}
