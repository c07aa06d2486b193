//! An open document as a caller reads it.

ghost use Rattle.std.specs.Prelude.{◌≡◌, ◌↔◌, ◌+◌, ◌<◌, ◌≤◌, ℕ, Err, IfErr, IfNone, IfOk, IfSome, IsOk, OnSome, Some, length, map, option_map};
ghost use Rattle.std.specs.Result.{result_ok};
ghost use Rattle.std.specs.Str.{IsCharBoundary, IsUtf8, chars};
ghost use Rattle.lsp_text.specs.LineStarts.{IsPlace};
ghost use Rattle.lsp_text.specs.Positions.{denoted, exact_position};
ghost use Rattle.lsp_text.specs.Text.{place_of};
ghost use Rattle.lsp_text.specs.TextLines.{line_ends};
ghost use Rattle.lsp_text.specs.Units.{units_in};
ghost use Rattle.lsp_buffer.specs.Contents.{IsContentOf};
ghost use Rattle.lsp_edit.specs.Edited.{content_change};
ghost use Rattle.lsp_edit.specs.TextEdits.{IsBatchOfEdits, IsEditsFault, located};
ghost use Rattle.lsp_edit.specs.declared.text_edits.TextEditFault.TheVariants as edits_fault;
ghost use Rattle.lsp_store.specs.Opened.{entry_under};

use crate::store::stored::Stored;
use lsp_buffer::TextBuffer;
use lsp_edit::{Change, MAX_OLD_TEXT, TextEdit, TextEditFault};
use lsp_text::{Encoding, InsideCharacter, Position};
use std::marker::Model;
use std::ops::Range;

/// An open document (LSP 3.17, TextDocumentItem). It borrows from the store.
#[derive(Debug, Drop)]
pub struct Document<'a> {
    pub(crate) uri: &'a str,
    pub(crate) stored: &'a Stored,
}

impl<'a> Model for Document<'a> {
    ghost use Rattle.lsp_message.specs.Params.{DocumentItem};
    ghost use Rattle.lsp_store.specs.Opened.{entry_under};

    ghost Value = { DocumentItem };

    ghost view = { λ document. entry_under document.uri.now document.stored.now };
}

impl<'a> Document<'a> {
    /// Returns the document of a URI.
    pub(crate) fn new(uri: &'a str, stored: &'a Stored) -> Self
        ensures { result ≡ entry_under uri.now stored.now }
    {
        Document { uri, stored }
    }

    /// Returns the URI of the document's `didOpen`.
    pub fn uri(&self) -> &'a str
        ensures { result.now ≡ self.now.uri }
    {
        self.uri
    }

    /// Returns the language of the document's `didOpen`.
    pub fn language(&self) -> &'a str
        ensures { result.now ≡ self.now.language }
    {
        &self.stored.language
    }

    /// Returns the current version.
    pub fn version(&self) -> i32
        ensures { result ≡ self.now.version }
    {
        self.stored.version
    }

    /// Returns the current text, which is in blocks.
    pub fn text(&self) -> &'a TextBuffer
        ensures text { result.now ≡ self.now.text }
        ensures short { length result.now ≤ MAX_OLD_TEXT }
    {
        self.stored.text.text()
    }

    /// Returns how many lines there are: one more than line ends, so at least one. Costs a search
    /// for the last block.
    pub fn line_count(&self) -> usize
        ensures { result ≡ line_ends (chars self.now.text) + 1 }
    {
        self.text().line_count()
    }

    /// Returns the byte offsets of a line's content, without its line end (LSP 3.17, Position).
    /// [`TextBuffer::slice`] copies that part of [`Document::text`]. Lines are counted from 0.
    ///
    /// Returns `None` if the text has no such line. Costs three searches for blocks.
    pub fn line(&self, line: u32) -> Option<Range<usize>>
        ensures content { IfSome result (IsContentOf self.now.text line) }
        ensures some { OnSome result (line ≤ line_ends (chars self.now.text)) }
        ensures none { IfNone result (line_ends (chars self.now.text) < line) }
    {
        self.text().line(line)
    }

    /// Returns the byte offset that a position denotes in the text (LSP 3.17, Position). It is the
    /// end of the text where there is no such line, and the end of the line's content for a
    /// character after it.
    ///
    /// Fails where the position is inside a character. Costs a search for the block, and the line's
    /// text up to the position in it; in UTF-8 the search alone.
    pub fn resolve(&self, encoding: Encoding, position: Position) -> Result<usize, InsideCharacter>
        ensures value { result_ok result ≡ option_map (place_of (chars self.now.text))
            (denoted (units_in encoding) (chars self.now.text) position) }
        ensures place { IfOk result (IsPlace (chars self.now.text)) }
        ensures boundary { IfOk result (IsCharBoundary self.now.text) }
    {
        self.text().resolve(encoding, position)
    }

    /// Returns the exact position of a byte offset of the text (LSP 3.17, Position). No offset past
    /// the end, inside a character, or between the two characters of a CRLF has one.
    ///
    /// Costs a search for the block, one over its lines, and the line's text in it up to the
    /// offset; in UTF-8 the searches alone.
    pub fn position(&self, encoding: Encoding, offset: usize) -> Option<Position>
        ensures exact { IfSome result (λ position. (k : ℕ) → k ≤ length (chars self.now.text)
            → place_of (chars self.now.text) k ≡ offset
            → position ≡ exact_position (units_in encoding) (chars self.now.text) k) }
        ensures resolves { IfSome result (λ position. option_map (place_of (chars self.now.text))
            (denoted (units_in encoding) (chars self.now.text) position) ≡ Some offset) }
        ensures none { IfNone result (IsPlace (chars self.now.text) offset → ⊥) }
    {
        let text = self.text();
        text.is_place(offset)
            .then(|| text.position(encoding, offset))
    }

    /// Returns the batch that means what text edits mean on the text (LSP 3.17, TextEdit[]), for
    /// [`crate::Store::change`] or an editor. The ranges of all edits are in the current text.
    ///
    /// Fails where an edit's range is faulty or two edits overlap, and where memory runs out; a
    /// faulty range is reported also then. Costs each edit's two positions, a stable sort by their
    /// starts, and one exact position for each end of what is changed.
    pub fn batch_of_edits(
        &self,
        encoding: Encoding,
        edits: &[TextEdit],
    ) -> Result<Vec<Change>, TextEditFault>
        ensures batch { IfOk result (λ batch.
            IsBatchOfEdits (units_in encoding) self.now.text edits.now
            (map content_change batch.items)) }
        ensures error { IfErr result (λ fault.
            IsEditsFault (units_in encoding) (chars self.now.text) edits.now fault) }
        // Where memory runs out, no range is faulty.
        ensures memory { result ≡ Err edits_fault.NoMemory
            → IsOk (located (units_in encoding) (chars self.now.text) 0 edits.now) }
    {
        self.stored.text.batch_of_edits(encoding, edits)
    }

    /// Does nothing: its contract states that the text is UTF-8.
    pub(crate) fn show_utf8(&self)
        ensures { IsUtf8 self.now.text }
    {
        let _len = self.stored.text.len();
    }
}
