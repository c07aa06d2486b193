//! A text in blocks as it is read: its lines, its chunks, and copies of its parts.

ghost use Rattle.std.specs.Prelude.{◌≡◌, ◌+◌, ◌≤◌, ◌<◌, ◌↔◌, ◌++◌, IsTrue, IfOk, IfSome};
ghost use Rattle.std.specs.Prelude.{IfNone, OnOk, OnSome, length, take, drop, min, string_bytes};
ghost use Rattle.std.specs.List.{slice_range};
ghost use Rattle.std.specs.Str.{IsCharBoundary, IsUtf8, chars};
ghost use Rattle.lsp_text.specs.Text.{place_of};
ghost use Rattle.lsp_text.specs.TextLines.{line_ends, line_start, line_stop};
ghost use Rattle.lsp_buffer.specs.Contents.{IsContentOf};

use crate::block::are_text;
use crate::find::Target;
use crate::text_buffer::{Part, TextBuffer};
use lsp_text::{Encoding, Position};
use std::alloc::{AllocError, Global};
use std::ops::Range;

impl TextBuffer {
    /// Returns the byte offsets of a line's content, without its line end, or `None` if there is no
    /// such line. Costs three searches for blocks.
    pub fn line(&self, line: u32) -> Option<Range<usize>>
        ensures content { IfSome result (IsContentOf self.now line) }
        ensures some { OnSome result (line ≤ line_ends (chars self.now)) }
        ensures none { IfNone result (line_ends (chars self.now) < line) }
    {
        if line as usize >= self.line_count() {
            return None;
        }
        Some(self.line_start(line)..self.line_end(line))
    }

    /// Returns the byte offset at which a line starts.
    fn line_start(&self, line: u32) -> usize
        requires { line ≤ line_ends (chars self.now) }
        ensures { result ≡ place_of (chars self.now) (line_start (chars self.now) line) }
    {
        let first = Position { line, character: 0 };
        self.resolve(Encoding::Utf8, first).unwrap_or(0)
    }

    /// Returns the byte offset at which the content of a line ends.
    fn line_end(&self, line: u32) -> usize
        requires { line ≤ line_ends (chars self.now) }
        ensures value { result ≡ place_of (chars self.now) (line_stop (chars self.now) line) }
        ensures utf8 { IsUtf8 self.now }
    {
        // A text has at most 2,147,483,648 bytes, so no line has a character so far on.
        let after_all = Position {
            line,
            character: u32::MAX,
        };
        let len = self.len();
        self.resolve(Encoding::Utf8, after_all).unwrap_or(len)
    }

    /// Returns the text from an offset on, up to the end of its block. It is empty only at the end
    /// of the text. The offset is a character boundary ([`TextBuffer::is_char_boundary`]).
    ///
    /// The next chunk begins at `offset + chunk.len()`. Costs a search for the block.
    pub fn chunk_from(&self, offset: usize) -> &str
        requires { IsCharBoundary self.now offset }
        ensures part { result.now ≡ take (length result.now) (drop offset self.now) }
        ensures some { offset < length self.now → 0 < length result.now }
        ensures next { IsCharBoundary self.now (offset + length result.now) }
    {
        let Part { block, before } = self.part_at(Target::Offset(offset));
        &block.text()[offset - before.len as usize..]
    }

    /// Returns the part of the text from `offset` to `end`, or to the end of its block if that is
    /// nearer. `offset` is at most `end`, and both are character boundaries
    /// ([`TextBuffer::is_char_boundary`]).
    pub fn chunk_to(&self, offset: usize, end: usize) -> &str
        requires order { offset ≤ end }
        requires at_offset { IsCharBoundary self.now offset }
        requires at_end { IsCharBoundary self.now end }
        ensures part { result.now ≡ take (length result.now) (drop offset self.now) }
        ensures within { offset + length result.now ≤ end }
        ensures some { offset < end → 0 < length result.now }
        ensures next { IsCharBoundary self.now (offset + length result.now) }
    {
        let chunk = self.chunk_from(offset);
        let len = end - offset;
        if chunk.len() <= len {
            chunk
        } else {
            &chunk[..len]
        }
    }

    /// Copies the bytes from `start` to `end`. `start` is at most `end`, and both are character
    /// boundaries ([`TextBuffer::is_char_boundary`]).
    ///
    /// Fails only where memory runs out. Costs a search for each block of the range, and its bytes.
    pub fn slice(&self, alloc: Global, start: usize, end: usize) -> Result<String, AllocError>
        requires order { start ≤ end }
        requires at_start { IsCharBoundary self.now start }
        requires at_end { IsCharBoundary self.now end }
        ensures { IfOk result (λ text. string_bytes text ≡ slice_range self.now start end) }
    {
        let mut text = String::with_capacity(alloc, end - start)?;
        self.push_range(&mut text, start, end)?;
        Ok(text)
    }

    /// Appends the bytes from `start` to `end` to a string. `start` is at most `end`, and both are
    /// character boundaries ([`TextBuffer::is_char_boundary`]).
    ///
    /// Fails only where memory runs out. Costs a search for each block of the range, and its bytes.
    pub fn push_range(&self, out: &mut String, start: usize, end: usize) -> Result<(), AllocError>
        requires order { start ≤ end }
        requires at_start { IsCharBoundary self.now start }
        requires at_end { IsCharBoundary self.now end }
        ensures { OnOk result (string_bytes out.new
            ≡ string_bytes out.old ++ slice_range self.now start end) }
    {
        let mut offset = start;
        while offset < end {
            let chunk = self.chunk_to(offset, end);
            out.push_str(chunk)?;
            offset += chunk.len();
        }
        Ok(())
    }

    /// Returns the text without a copy, if it is in one block.
    pub fn as_str(&self) -> Option<&str>
        ensures { IfSome result (λ text. text.now ≡ self.now) }
    {
        match self.blocks.as_slice() {
            [block] => Some(block.text()),
            _ => None,
        }
    }

    /// Returns whether the text is this one, byte for byte. Nothing is copied. Linear in the text.
    pub fn is_text(&self, text: &str) -> bool
        ensures { IsTrue result ↔ (self.now ≡ text.now) }
    {
        are_text(&self.blocks, text.as_bytes())
    }

    /// Returns the bytes from an offset on, up to the end of their block. There are none only at
    /// the end of the text. Costs a search for the block.
    fn bytes_from(&self, offset: usize) -> &[u8]
        requires { offset ≤ length self.now }
        ensures part { result.now ≡ take (length result.now) (drop offset self.now) }
        ensures some { offset < length self.now → 0 < length result.now }
    {
        let Part { block, before } = self.part_at(Target::Offset(offset));
        let bytes = block.text().as_bytes();
        let (_, rest) = bytes.split_at(offset - before.len as usize);
        rest
    }

    /// Copies the bytes from `start` on, as many as `out` has room for, and returns how many.
    /// `start` is at most the text's length.
    ///
    /// Costs a search for each block of these bytes, and the copy.
    pub fn copy_to(&self, start: usize, out: &mut [u8]) -> usize
        requires { start ≤ length self.now }
        ensures count { result ≡ min (length (drop start self.now)) (length out.old) }
        ensures bytes { out.new ≡ take result (drop start self.now) ++ drop result out.old }
    {
        let end = out.len().min(self.len() - start);
        let mut copied = 0;
        while copied < end {
            let bytes = self.bytes_from(start + copied);
            copied += copy_front(bytes, &mut out[copied..end]);
        }
        copied
    }

    /// Copies the text into one string. Fails only where memory runs out. Linear in the text.
    pub fn to_string(&self, alloc: Global) -> Result<String, AllocError>
        ensures { IfOk result (λ text. string_bytes text ≡ self.now) }
    {
        let mut text = String::with_capacity(alloc, self.len())?;
        for block in &self.blocks {
            text.push_str(block.text())?;
        }
        Ok(text)
    }
}

/// Copies the first bytes, as many as `out` has room for, and returns how many.
fn copy_front(bytes: &[u8], out: &mut [u8]) -> usize
    ensures count { result ≡ min (length bytes.now) (length out.old) }
    ensures bytes { out.new ≡ take result bytes.now ++ drop result out.old }
{
    let count = out.len().min(bytes.len());
    out[..count].copy_from_slice(&bytes[..count]);
    count
}
