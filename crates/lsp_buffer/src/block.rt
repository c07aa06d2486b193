//! A block of a text, which copies of the text share.
//!
//! A copy of a text shares its blocks, and a change copies a block that is shared. They are
//! counted by `Arc`: with `Rc` no document could go to another thread.
ghost use Rattle.std.specs.Prelude.{◌≡◌, ◌+◌, ◌-◌, ◌≤◌, ◌↔◌, IsTrue, IfOk, OnOk, OnErr, Some, List, ℕ, length, option_map, string_bytes, string_capacity, string_len};
ghost use Rattle.std.specs.List.{concat, replace_range};
ghost use Rattle.std.specs.Result.{result_ok};
ghost use Rattle.std.specs.Str.{IsCharBoundary, IsUtf8, chars};
ghost use Rattle.lsp_text.specs.Text.{place_of};
ghost use Rattle.lsp_text.specs.TextLines.{line_ends};
ghost use Rattle.lsp_text.specs.LineStarts.{AreLinesOf, IsPlace};
ghost use Rattle.lsp_text.specs.Units.{units_in};
ghost use Rattle.lsp_text.specs.Positions.{exact_position, denoted};
ghost use Rattle.lsp_buffer.specs.Blocks.{counts_of, head_of};

use crate::counts::Counts;
use lsp_text::{Encoding, InsideCharacter, Lines, Position};
use std::alloc::{AllocError, Global};
use std::clone::Clone;
use std::marker::Model;
use std::sync::Arc;

/// A counted reference to a part of a text, with the lines of that part alone. It may begin and end
/// inside a line of the text. Copies of the text share the part, until one of them changes it.
/// Clauses see its bytes.
#[derive(Debug, Drop)]
pub struct Block {
    shared: Arc<SharedText>,
    // Those of the text, beside it, so that a search reads no text.
    counts: Counts,
}

impl Model for Block {
    ghost use Rattle.std.specs.Prelude.{◌≡◌, ℕ, List};
    ghost use Rattle.std.specs.Arc.{arc_value};
    ghost use Rattle.lsp_buffer.specs.Blocks.{counts_of};

    ghost Value = { List ℕ };

    ghost view = { λ block. arc_value block.shared };

    ghost invariant = { λ block. block.counts ≡ counts_of (arc_value block.shared) };
}

impl Block {
    /// Takes a text and finds its lines. Fails only where memory runs out.
    pub fn new(alloc: Global, text: String) -> Result<Self, AllocError>
        requires { string_len text ≤ 2147483648 }
        ensures { IfOk result (λ block. block ≡ string_bytes text) }
    {
        let shared = SharedText::new(alloc, text)?;
        let counts = shared.counts();
        let shared = Arc::new(alloc, shared)?;
        Ok(Block { shared, counts })
    }

    /// Copies a text and finds its lines. Fails only where memory runs out.
    pub fn from_str(alloc: Global, text: &str) -> Result<Self, AllocError>
        requires { length text.now ≤ 2147483648 }
        ensures { IfOk result (λ block. block ≡ text.now) }
    {
        Block::new(alloc, String::from_str(alloc, text)?)
    }

    /// Returns another reference to the same text, which both blocks then share. Costs the same for
    /// each text. Fails only where some 2^63 blocks share it, which counts as out of memory.
    pub fn share(&self) -> Result<Self, AllocError>
        ensures { IfOk result (λ block. block ≡ self.now) }
    {
        let shared = Arc::try_clone(&self.shared)?;
        let counts = self.counts;
        Ok(Block { shared, counts })
    }

    /// Returns the block's text.
    pub fn text(&self) -> &str
        ensures { result.now ≡ self.now }
    {
        self.shared.text()
    }

    /// Returns the lines of the block's text.
    fn lines(&self) -> &Lines
        ensures { AreLinesOf result.now self.now }
    {
        self.shared.lines()
    }

    /// Returns what the block counts.
    pub fn counts(&self) -> Counts
        ensures { result ≡ counts_of self.now }
    {
        self.counts
    }

    /// Returns how many bytes the block has.
    pub fn len(&self) -> usize
        ensures { result ≡ length self.now }
    {
        self.counts.len as usize
    }

    /// Returns the byte offset that a position denotes in the block alone.
    pub fn resolve(&self, encoding: Encoding, position: Position) -> Result<usize, InsideCharacter>
        ensures { result_ok result ≡ option_map (place_of (chars self.now))
            (denoted (units_in encoding) (chars self.now) position) }
    {
        self.lines().resolve(self.text(), encoding, position)
    }

    /// Returns the exact position of a byte offset in the block alone.
    pub fn position(&self, encoding: Encoding, offset: usize) -> Position
        requires { IsPlace (chars self.now) offset }
        ensures { (k : ℕ) → k ≤ length (chars self.now) → place_of (chars self.now) k ≡ offset
            → result ≡ exact_position (units_in encoding) (chars self.now) k }
    {
        self.lines().position(self.text(), encoding, offset)
    }

    /// Returns whether a character begins at a byte offset of the block, or it ends there.
    pub fn is_char_boundary(&self, offset: usize) -> bool
        ensures { IsTrue result ↔ IsCharBoundary self.now offset }
    {
        self.text().is_char_boundary(offset)
    }

    /// Returns whether a position can denote a byte offset in the block alone.
    pub fn is_place(&self, offset: usize) -> bool
        ensures place { IsTrue result ↔ IsPlace (chars self.now) offset }
        ensures boundary { IsTrue result → IsCharBoundary self.now offset }
    {
        self.lines().is_place(self.text(), offset)
    }

    /// Replaces the bytes from `start` to `end`. Out of memory changes nothing.
    ///
    /// If another text shares the block, this one has a copy of it first: the other stays as it is.
    pub fn replace_range(&mut self, start: usize, end: usize, new: &str) -> Result<(), AllocError>
        requires order { start ≤ end }
        requires at_start { IsCharBoundary self.old start }
        requires at_end { IsCharBoundary self.old end }
        requires room { length (replace_range self.old start end new.now) ≤ 2147483648 }
        ensures changed { OnOk result (self.new ≡ replace_range self.old start end new.now) }
        ensures unchanged { OnErr result (self.new ≡ self.old) }
    {
        let shared = Arc::make_mut(&mut self.shared)?;
        shared.replace_range(start, end, new)?;
        self.counts = shared.counts();
        Ok(())
    }
}

/// What the blocks of several texts share: a string, and its lines. Clauses see its bytes.
#[derive(Debug, Drop)]
struct SharedText {
    text: String,
    lines: Lines,
}

impl Model for SharedText {
    ghost use Rattle.std.specs.Prelude.{ℕ, List, string_bytes};
    ghost use Rattle.lsp_text.specs.LineStarts.{AreLinesOf};

    ghost Value = { List ℕ };

    ghost view = { λ shared. string_bytes shared.text };

    ghost invariant = { λ shared. AreLinesOf shared.lines (string_bytes shared.text) };
}

impl SharedText {
    /// Takes a text and finds its lines. Fails only where memory runs out.
    fn new(alloc: Global, text: String) -> Result<Self, AllocError>
        requires { string_len text ≤ 2147483648 }
        ensures { IfOk result (λ shared. shared ≡ string_bytes text) }
    {
        let lines = Lines::new(alloc, &text)?;
        Ok(SharedText { text, lines })
    }

    /// Returns the shared text.
    fn text(&self) -> &str
        ensures { result.now ≡ self.now }
    {
        &self.text
    }

    /// Returns the units from the start of the text's last line to its end. Costs that line, in
    /// UTF-8 a binary search.
    fn head(&self, encoding: Encoding) -> u32
        ensures { result ≡ head_of (units_in encoding) self.now }
    {
        let text = self.text();
        let bytes = text.as_bytes();
        let end = bytes.len();
        if end > 0 && bytes[end - 1] == b'\n' {
            return 0;
        }
        self.lines().position(text, encoding, end).character
    }

    /// Returns what the shared text counts. Costs its last line.
    fn counts(&self) -> Counts
        ensures { result ≡ counts_of self.now }
    {
        let text = self.text();
        let lines = self.lines();
        Counts {
            len: text.len() as u32,
            ends: (lines.count() - 1) as u32,
            utf8: self.head(Encoding::Utf8),
            utf16: self.head(Encoding::Utf16),
            utf32: self.head(Encoding::Utf32),
        }
    }

    /// Returns the lines of the shared text.
    fn lines(&self) -> &Lines
        ensures { AreLinesOf result.now self.now }
    {
        &self.lines
    }

    /// Replaces the bytes from `start` to `end`, and updates the lines. Out of memory changes nothing.
    ///
    /// Costs a copy of the removed bytes, one move of those after them, and what the lines cost.
    fn replace_range(&mut self, start: usize, end: usize, new: &str) -> Result<(), AllocError>
        requires order { start ≤ end }
        requires at_start { IsCharBoundary self.old start }
        requires at_end { IsCharBoundary self.old end }
        requires room { length (replace_range self.old start end new.now) ≤ 2147483648 }
        ensures changed { OnOk result (self.new ≡ replace_range self.old start end new.now) }
        ensures unchanged { OnErr result (self.new ≡ self.old) }
    {
        let removed = String::from_str(*self.text.allocator(), &self.text[start..end])?;
        self.text.reserve(new.len())?;
        replace_bytes(&mut self.text, start, end, new)?;
        let new_end = start + new.len();
        if self
            .lines
            .splice(&self.text, start, end, new.len())
            .is_err()
        {
            // The buffer kept its room for the removed bytes, so this takes no memory.
            let _ = self.text.replace_range(start..new_end, &removed);
            return Err(AllocError);
        }
        Ok(())
    }
}

impl Clone for SharedText {
    ghost is_clone = { λ shared copy. copy ≡ shared };

    fn clone(&self) -> Result<Self, AllocError> {
        let alloc = *self.text.allocator();
        let lines = self.lines.clone_in(alloc)?;
        let text = String::from_str(alloc, &self.text)?;
        Ok(SharedText { text, lines })
    }
}

/// Replaces the bytes from `start` to `end`. Out of memory changes nothing.
///
/// Costs one move of the bytes after them. An insertion of one ASCII character moves them by a
/// fixed distance, which is faster.
fn replace_bytes(text: &mut String, start: usize, end: usize, new: &str) -> Result<(), AllocError>
    requires order { start ≤ end }
    requires at_start { IsCharBoundary (string_bytes text.old) start }
    requires at_end { IsCharBoundary (string_bytes text.old) end }
    ensures bytes { OnOk result
        (string_bytes text.new ≡ replace_range (string_bytes text.old) start end new.now) }
    ensures capacity { string_capacity text.old ≤ string_capacity text.new }
    ensures unchanged { OnErr result (string_bytes text.new ≡ string_bytes text.old) }
{
    match new.as_bytes() {
        [byte] if start == end && byte.is_ascii() => text.insert(start, char::from(*byte)),
        _ => text.replace_range(start..end, new),
    }
}

/// Returns another reference to each block: both lists then share the blocks' texts. Fails only
/// where memory runs out.
pub fn shared_blocks(alloc: Global, blocks: &[Block]) -> Result<Vec<Block>, AllocError>
    ensures { IfOk result (λ shared. shared.items ≡ blocks.now) }
{
    let mut shared = Vec::with_capacity(alloc, blocks.len())?;
    for block in blocks {
        shared.push(block.share()?)?;
    }
    Ok(shared)
}

/// Returns whether these bytes are those of some blocks, one after another.
pub fn are_text(blocks: &[Block], bytes: &[u8]) -> bool
    ensures { IsTrue result ↔ (concat blocks.now ≡ bytes.now) }
{
    let mut rest = bytes;
    for block in blocks {
        match rest.strip_prefix(block.text().as_bytes()) {
            Some(back) => rest = back,
            None => return false,
        }
    }
    rest.is_empty()
}
