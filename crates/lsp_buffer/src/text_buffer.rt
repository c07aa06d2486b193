//! `TextBuffer`, a text in blocks.
//!
//! Clauses see the bytes alone. So `as_str` promises the text where it returns one, and not
//! when. A text that is moved in is one block until its first change, which cuts it. So a
//! document that is opened and never changed isn't copied.
//!
//! The invariant bounds the blocks: each but the last has 1,024 bytes or more. So a text of n
//! bytes is in at most n / 1,024 + 1 of them, however much was typed and deleted before. Clauses
//! see no blocks: `block_count` promises this bound alone, and a row of `lsp_bench` counts them.
ghost use Rattle.std.specs.Prelude.{◌≡◌, ◌+◌, ◌/◌, ◌<◌, ◌≤◌, ◌↔◌, ℕ, List, Some, IsTrue, IfOk};
ghost use Rattle.std.specs.Prelude.{OnOk, OnErr, length, option_map, string_bytes, string_len};
ghost use Rattle.std.specs.List.{concat, replace_range};
ghost use Rattle.std.specs.Result.{result_ok};
ghost use Rattle.std.specs.Str.{IsCharBoundary, IsUtf8, chars};
ghost use Rattle.lsp_text.specs.Text.{place_of};
ghost use Rattle.lsp_text.specs.TextLines.{line_ends};
ghost use Rattle.lsp_text.specs.LineStarts.{IsPlace};
ghost use Rattle.lsp_text.specs.Units.{units_in};
ghost use Rattle.lsp_text.specs.Positions.{exact_position, denoted};
ghost use Rattle.lsp_buffer.specs.Blocks.{AreBlocks};
ghost use Rattle.lsp_buffer.specs.inside.Parts.{IsPart};

mod change;
mod reading;

use crate::block::{Block, shared_blocks};
use crate::counts::Counts;
use crate::cut::blocks_of;
use crate::find::{Target, find};
use crate::groups::{fill, recount};
use crate::seams::{position_after, position_from};
use crate::text_buffer::change::{range_of, replace_across, stays_inside};
use lsp_text::{Encoding, InsideCharacter, Position};
use std::alloc::{AllocError, Global};
use std::fmt;
use std::marker::Model;

/// A text of at most 2,147,483,648 bytes in blocks of some kilobytes each. A change costs its
/// block, and a search for it: an addition for each 32 blocks, and at most 32 more. That is so in
/// long lines too: a line may be in many blocks, and one of many megabytes costs what many lines
/// cost. (A run of carriage returns alone is never cut.) The first change of a text that
/// [`TextBuffer::new`] took costs the text once: it is cut into blocks then.
///
/// Clauses see the bytes of the text.
#[derive(Debug, Drop)]
pub struct TextBuffer {
    blocks: Vec<Block>,
    // What each 32 blocks count.
    groups: Vec<Counts>,
    len: usize,
}

/// A block of a text, and what comes before it.
#[derive(Drop)]
struct Part<'a> {
    block: &'a Block,
    before: Counts,
}

impl Model for TextBuffer {
    ghost use Rattle.std.specs.Prelude.{◌≡◌, ℕ, List, length};
    ghost use Rattle.std.specs.List.{concat};
    ghost use Rattle.lsp_buffer.specs.Blocks.{IsTextBuffer};

    ghost Value = { List ℕ };

    ghost view = { λ text. concat text.blocks.items };

    ghost invariant = { λ text. (IsTextBuffer text.blocks.items text.groups.items)
        × (text.len ≡ length (concat text.blocks.items)) };
}

impl TextBuffer {
    /// Takes a text of at most 2,147,483,648 bytes, without a copy. Fails only where memory runs
    /// out. Linear in the text, which is one block until its first change.
    pub fn new(alloc: Global, text: String) -> Result<Self, AllocError>
        requires { string_len text ≤ 2147483648 }
        ensures { IfOk result (λ buffer. buffer ≡ string_bytes text) }
    {
        let len = text.len();
        let mut blocks = Vec::with_capacity(alloc, 1)?;
        blocks.push(Block::new(alloc, text)?)?;
        Ok(TextBuffer::of_blocks(alloc, blocks, len))
    }

    /// Copies a text of at most 2,147,483,648 bytes. Fails only where memory runs out. Linear in
    /// the text, which is cut into blocks at once.
    pub fn from_str(alloc: Global, text: &str) -> Result<Self, AllocError>
        requires { length text.now ≤ 2147483648 }
        ensures { IfOk result (λ buffer. buffer ≡ text.now) }
    {
        let blocks = blocks_of(alloc, text)?;
        Ok(TextBuffer::of_blocks(alloc, blocks, text.len()))
    }

    /// Takes some blocks of so many bytes in all, and counts their groups.
    fn of_blocks(alloc: Global, blocks: Vec<Block>, len: usize) -> Self
        requires are { AreBlocks blocks.items }
        requires size { len ≤ 2147483648 }
        requires len { len ≡ length (concat blocks.items) }
        ensures { result ≡ concat blocks.items }
    {
        let mut groups = Vec::new(alloc);
        fill(&mut groups, &blocks);
        TextBuffer {
            blocks,
            groups,
            len,
        }
    }

    /// Returns a copy, which shares its blocks with this text. Fails only where memory runs out.
    /// Costs a step for each block: a block is copied once one of both changes it.
    pub fn clone_in(&self, alloc: Global) -> Result<Self, AllocError>
        ensures copy { IfOk result (λ copy. copy ≡ self.now) }
        ensures utf8 { OnOk result (IsUtf8 self.now) }
    {
        let blocks = shared_blocks(alloc, &self.blocks)?;
        let groups = Vec::from_slice(alloc, &self.groups)?;
        let len = self.len;
        Ok(TextBuffer {
            blocks,
            groups,
            len,
        })
    }

    /// Returns the text's allocator.
    pub fn allocator(&self) -> &Global {
        self.blocks.allocator()
    }

    /// Returns the block that a byte offset or a position is in.
    fn part_at(&self, target: Target) -> Part<'_>
        ensures { IsPart self.now target result.block.now result.before }
    {
        let found = find(&self.blocks, &self.groups, target);
        Part {
            block: &self.blocks[found.index],
            before: found.before,
        }
    }

    /// Returns how many bytes the text has. In constant time.
    pub fn len(&self) -> usize
        ensures len { result ≡ length self.now }
        ensures size { length self.now ≤ 2147483648 }
        ensures utf8 { IsUtf8 self.now }
    {
        self.len
    }

    /// Returns whether the text has no bytes. In constant time.
    pub fn is_empty(&self) -> bool
        ensures { IsTrue result ↔ (length self.now ≡ 0) }
    {
        self.len() == 0
    }

    /// Returns how many lines there are: one more than line ends, so at least one. Costs a search
    /// for the last block.
    pub fn line_count(&self) -> usize
        ensures count { result ≡ line_ends (chars self.now) + 1 }
        ensures few { result ≤ 2147483649 }
    {
        let last = self.part_at(Target::Offset(usize::MAX));
        last.before.plus(last.block.counts()).ends as usize + 1
    }

    /// Returns how many blocks the text is in. Each but the last has 1,024 bytes or more. In
    /// constant time.
    pub fn block_count(&self) -> usize
        ensures some { 0 < result }
        ensures few { result ≤ length self.now / 1024 + 1 }
    {
        self.blocks.len()
    }

    /// Returns the byte offset that a position denotes (LSP 3.17, Position).
    ///
    /// A position past the last line denotes the end of the text, one past a line's content the end
    /// of that content. A position inside a character is an error. Costs a search for the block, and
    /// the line's text up to the position in it; in UTF-8 only the search.
    pub fn resolve(&self, encoding: Encoding, position: Position) -> Result<usize, InsideCharacter>
        ensures value { result_ok result
            ≡ option_map (place_of (chars self.now))
            (denoted (units_in encoding) (chars self.now) position) }
        ensures place { IfOk result (IsPlace (chars self.now)) }
        ensures boundary { IfOk result (IsCharBoundary self.now) }
    {
        let Part { block, before } = self.part_at(Target::Denoted(encoding, position));
        let inner = position_after(before.ends, before.head(encoding), position);
        let offset = block.resolve(encoding, inner)?;
        Ok(before.len as usize + offset)
    }

    /// Returns the exact position of a byte offset (LSP 3.17, Position). The offset is one that a
    /// position can denote ([`TextBuffer::is_place`]).
    ///
    /// Costs a search for the block, one over its lines, and the line's text in it up to the offset.
    pub fn position(&self, encoding: Encoding, offset: usize) -> Position
        requires { IsPlace (chars self.now) offset }
        ensures exact { (k : ℕ) → k ≤ length (chars self.now) → place_of (chars self.now) k ≡ offset
            → result ≡ exact_position (units_in encoding) (chars self.now) k }
        ensures resolves { option_map (place_of (chars self.now))
            (denoted (units_in encoding) (chars self.now) result) ≡ Some offset }
        ensures utf8 { IsUtf8 self.now }
    {
        let Part { block, before } = self.part_at(Target::Offset(offset));
        let inner = block.position(encoding, offset - before.len as usize);
        position_from(before.ends, before.head(encoding), inner)
    }

    /// Returns whether a character begins at this byte offset, or the text ends there. Costs a
    /// search for the block.
    pub fn is_char_boundary(&self, offset: usize) -> bool
        ensures boundary { IsTrue result ↔ IsCharBoundary self.now offset }
        ensures utf8 { IsUtf8 self.now }
    {
        let Part { block, before } = self.part_at(Target::Offset(offset));
        block.is_char_boundary(offset - before.len as usize)
    }

    /// Returns whether a position can denote this byte offset: it is a boundary of characters that
    /// splits no CRLF. Costs a search for the block.
    pub fn is_place(&self, offset: usize) -> bool
        ensures place { IsTrue result ↔ IsPlace (chars self.now) offset }
        ensures boundary { IsTrue result → IsCharBoundary self.now offset }
    {
        let Part { block, before } = self.part_at(Target::Offset(offset));
        block.is_place(offset - before.len as usize)
    }

    /// Replaces the bytes from `start` to `end` by another text. Out of memory changes nothing.
    ///
    /// `start` is at most `end`, and both are character boundaries
    /// ([`TextBuffer::is_char_boundary`]). The changed text has at most 2,147,483,648 bytes.
    ///
    /// Costs the new text, the blocks of the two ends, and a search for each. Blocks are cut
    /// again if the ends are in two of them, or if one gets too long, and one that gets short is
    /// joined with the next: then the later blocks are counted anew. The one block of
    /// [`TextBuffer::new`] is too long from 8 kilobytes on: its first change costs the text once.
    pub fn replace_range(&mut self, start: usize, end: usize, new: &str) -> Result<(), AllocError>
        requires order { start ≤ end }
        requires at_start { IsCharBoundary self.old start }
        requires at_end { IsCharBoundary self.old end }
        requires room { length (replace_range self.old start end new.now) ≤ 2147483648 }
        ensures changed { OnOk result (self.new ≡ replace_range self.old start end new.now) }
        ensures unchanged { OnErr result (self.new ≡ self.old) }
    {
        let range = range_of(&self.blocks, &self.groups, start, end);
        let len = self.len - (end - start) + new.len();
        if stays_inside(&self.blocks, range, new) {
            self.blocks[range.first].replace_range(range.start, range.end, new)?;
            recount(&mut self.groups, &self.blocks, range.first);
        } else {
            replace_across(&mut self.blocks, &mut self.groups, range, new)?;
        }
        self.len = len;
        Ok(())
    }
}

impl fmt::Display for TextBuffer {
    ghost output = { λ buffer. Some buffer };

    fn fmt<W: fmt::Write>(&self, f: &mut fmt::Formatter<W>) -> fmt::Result {
        for block in &self.blocks {
            f.write_str(block.text())?;
        }
        Ok(())
    }
}
