//! `Before`, the text before any change.

ghost use Rattle.std.specs.Prelude.{◌≡◌};
ghost use Rattle.lsp_edit.specs.inside.Before.{text_before};

use lsp_buffer::TextBuffer;

/// The text before any change: a copy that was made for it, or the caller's.
#[derive(Debug, Drop)]
pub enum Before<'a> {
    Own(TextBuffer),
    Borrowed(&'a TextBuffer),
}

impl<'a> Before<'a> {
    /// Returns the text.
    pub fn get(&self) -> &TextBuffer
        ensures { result.now ≡ text_before self.now }
    {
        match self {
            Before::Own(text) => text,
            Before::Borrowed(text) => text,
        }
    }
}
