//! The lines of a text, kept as the byte offsets where they start.
ghost use Rattle.std.specs.Prelude.{◌≡◌, ◌+◌, ◌≤◌, ◌↔◌, ℕ, List, Some, length, option_map, IsTrue, IfOk, OnOk, OnErr};
ghost use Rattle.std.specs.Result.{result_ok};
ghost use Rattle.std.specs.Str.{IsCharBoundary, chars};
ghost use Rattle.lsp_text.specs.Text.{place_of};
ghost use Rattle.lsp_text.specs.TextLines.{line_ends};
ghost use Rattle.lsp_text.specs.LineStarts.{AreLinesOf, IsPlace};
ghost use Rattle.lsp_text.specs.Splice.{IsSpliced};
ghost use Rattle.lsp_text.specs.Units.{units_in};
ghost use Rattle.lsp_text.specs.Positions.{exact_position, denoted};

pub(crate) mod ends;
pub(crate) mod splice;
pub(crate) mod starts;

use crate::encoding::Encoding;
use crate::lines::ends::{is_inside_crlf, push_ends};
use crate::lines::splice::splice_starts;
use crate::lines::starts::{Looks, Starts};
use crate::position::Position;
use crate::position::exact::position_in;
use crate::position::resolve::{InsideCharacter, resolve_in};
use crate::position::units::{Utf8, Utf16, Utf32};
use std::alloc::{AllocError, Global};
use std::marker::Model;

/// The lines of a text, as the byte offsets where they start (LSP 3.17, Text Documents: `\n`,
/// `\r\n` and `\r` end a line). It has four bytes for each line, and doesn't contain the text.
#[derive(Debug, Drop)]
pub struct Lines {
    starts: Vec<u32>,
}

impl Model for Lines {
    ghost use Rattle.std.specs.Prelude.{ℕ, List};
    ghost use Rattle.lsp_text.specs.Starts.{AreStarts};

    ghost Value = { List ℕ };

    ghost view = { λ lines. lines.starts.items };

    ghost invariant = { λ lines. AreStarts lines.starts.items };
}

impl Lines {
    /// Finds the lines of a text of at most 2,147,483,648 bytes. Fails only where memory runs out.
    /// Linear in the text.
    pub fn new(alloc: Global, text: &str) -> Result<Self, AllocError>
        requires { length text.now ≤ 2147483648 }
        ensures { IfOk result (λ lines. AreLinesOf lines text.now) }
    {
        let bytes = text.as_bytes();
        let mut starts = Vec::new(alloc);
        starts.push(0)?;
        push_ends(&mut starts, bytes, 0, bytes.len())?;
        Ok(Lines { starts })
    }

    /// Returns a copy. Fails only where memory runs out. Costs four bytes for each line.
    pub fn clone_in(&self, alloc: Global) -> Result<Self, AllocError>
        ensures { IfOk result (λ lines. lines ≡ self.now) }
    {
        let mut starts = Vec::with_capacity(alloc, self.count())?;
        starts.extend_from_slice(&self.starts)?;
        Ok(Lines { starts })
    }

    /// Returns how many lines there are: one more than line ends, so at least one. In constant
    /// time.
    pub fn count(&self) -> usize
        ensures count { result ≡ length self.now }
        ensures line_ends { (text : List ℕ) → AreLinesOf self.now text →
            result ≡ line_ends (chars text) + 1 }
    {
        self.starts.len()
    }

    /// Returns the line starts for `line_of`, which counts each start that it reads. Nothing is
    /// copied.
    pub fn looks(&self) -> Looks<'_>
        ensures starts { ⟦<Looks<'static> as Starts>⟧.starts result ≡ self.now }
        ensures looks_made { ⟦<Looks<'static> as Starts>⟧.looks result ≡ 0 }
    {
        Looks::new(&self.starts)
    }

    /// Returns whether a position can denote this byte offset: it is a boundary of characters that
    /// splits no CRLF. In constant time.
    pub fn is_place(&self, text: &str, place: usize) -> bool
        ensures place { IsTrue result ↔ IsPlace (chars text.now) place }
        ensures boundary { IsTrue result → IsCharBoundary text.now place }
    {
        text.is_char_boundary(place) && !is_inside_crlf(text.as_bytes(), place)
    }

    /// Returns the byte offset that a position denotes in the text whose lines these are (LSP 3.17,
    /// Position).
    ///
    /// A position past the last line denotes the end of the text, one past a line's content the end
    /// of that content. A position inside a character is an error. Costs the line's text up to the
    /// position; in UTF-8 the time is constant.
    pub fn resolve(
        &self,
        text: &str,
        encoding: Encoding,
        position: Position,
    ) -> Result<usize, InsideCharacter>
        requires { AreLinesOf self.now text.now }
        ensures value { result_ok result
            ≡ option_map (place_of (chars text.now))
            (denoted (units_in encoding) (chars text.now) position) }
        ensures place { IfOk result (IsPlace (chars text.now)) }
        ensures boundary { IfOk result (IsCharBoundary text.now) }
    {
        let bytes = text.as_bytes();
        match encoding {
            Encoding::Utf8 => resolve_in::<Utf8>(&self.starts, bytes, position),
            Encoding::Utf16 => resolve_in::<Utf16>(&self.starts, bytes, position),
            Encoding::Utf32 => resolve_in::<Utf32>(&self.starts, bytes, position),
        }
    }

    /// Returns the exact position of a byte offset in the text whose lines these are (LSP 3.17,
    /// Position). The offset is one that a position can denote ([`Lines::is_place`]).
    ///
    /// Costs a binary search over the lines, and the line's text up to the offset; in UTF-8 only
    /// the search.
    pub fn position(&self, text: &str, encoding: Encoding, place: usize) -> Position
        requires indexed { AreLinesOf self.now text.now }
        requires place { IsPlace (chars text.now) place }
        ensures exact { (k : ℕ) → k ≤ length (chars text.now) → place_of (chars text.now) k ≡ place
            → result ≡ exact_position (units_in encoding) (chars text.now) k }
        ensures resolves { option_map (place_of (chars text.now))
            (denoted (units_in encoding) (chars text.now) result) ≡ Some place }
    {
        let bytes = text.as_bytes();
        match encoding {
            Encoding::Utf8 => position_in::<Utf8>(&self.starts, bytes, place),
            Encoding::Utf16 => position_in::<Utf16>(&self.starts, bytes, place),
            Encoding::Utf32 => position_in::<Utf32>(&self.starts, bytes, place),
        }
    }

    /// Updates the lines after an edit: `text` is the text whose lines these are, with the bytes
    /// from `from` to `to` replaced by `len` others. It has at most 2,147,483,648 bytes.
    ///
    /// Out of memory changes nothing. Costs two binary searches, a search of the `len` bytes for
    /// line ends, and an addition for each later start. If the number of lines changes, the later
    /// starts are also moved once.
    pub fn splice(
        &mut self,
        text: &str,
        from: usize,
        to: usize,
        len: usize,
    ) -> Result<(), AllocError>
        requires spliced { IsSpliced self.old text.now from to len }
        requires size { length text.now ≤ 2147483648 }
        ensures ok { OnOk result (AreLinesOf self.new text.now) }
        ensures unchanged { OnErr result (self.new ≡ self.old) }
    {
        splice_starts(&mut self.starts, text.as_bytes(), from, to, len)
    }
}
