//! A change as the protocol writes it, and the limit on the texts of a batch.

ghost use Rattle.std.specs.Prelude.{◌≤◌, ◌↔◌, sum_by, string_len, IsTrue};

use lsp_text::Range;

/// How many bytes the texts of one batch may have together.
pub const MAX_NEW_TEXT: usize = 1_073_741_824;

/// One change of a batch (LSP 3.17, TextDocumentContentChangeEvent): `text` replaces the range, or
/// the whole text if there is no range.
#[derive(Debug, PartialEq, Eq, Drop)]
pub struct Change {
    /// The range that is replaced; `None` for the whole text.
    pub range: Option<Range>,
    /// The text that replaces it.
    pub text: String,
}

/// Returns whether the texts of a batch have at most [`MAX_NEW_TEXT`] bytes together. Costs one
/// step for each change.
pub fn fits(changes: &[Change]) -> bool
    ensures { IsTrue result
        ↔ (sum_by (λ change. string_len change.text) changes.now ≤ MAX_NEW_TEXT) }
{
    let mut room = MAX_NEW_TEXT;
    for change in changes {
        if change.text.len() > room {
            return false;
        }
        room -= change.text.len();
    }
    true
}
