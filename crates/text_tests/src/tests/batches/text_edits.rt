//! Text edits whose ranges all count in one old text, in UTF-16. Calls that run out of memory are
//! made again.

use super::{is_changed, kept, kept_again};
use lsp_edit::{BatchFault, Change, TextEdit, TextEditFault};
use lsp_samples::again;
use lsp_samples::edits::{Edit, batch_again, text_edits};
use lsp_text::Encoding;
use std::alloc::{AllocError, Global};
use std::test::Fail;

/// A text, edits of it, the text that they leave, and their canonical batch.
type Edited = (&'static str, &'static [Edit], &'static str, &'static [Edit]);

static EDITED: [Edited; 2] = [
    (
        "one\ntwo\n",
        &[(0, 0, 0, 0, "\n\n"), (1, 0, 1, 3, "2")],
        "\n\none\n2\n",
        &[(1, 0, 1, 3, "2"), (0, 0, 0, 0, "\n\n")],
    ),
    // In the order of the list at one offset, else in that of the text.
    (
        "abc",
        &[(0, 2, 0, 3, ""), (0, 1, 0, 1, "X"), (0, 1, 0, 2, "Y")],
        "aXY",
        &[(0, 1, 0, 3, "XY")],
    ),
];

/// Returns the batch of text edits.
fn as_batch(alloc: Global, text: &str, edits: &[TextEdit]) -> Result<Vec<Change>, TextEditFault> {
    kept(alloc, text)?.batch_of_edits(Encoding::Utf16, edits)
}

/// Returns whether edits are one batch, and leave their text. Out of memory is counted, and the
/// call made again.
fn is_edited(alloc: Global, row: &Edited, refused: &mut usize) -> Result<bool, Fail> {
    let (before, edits, after, canonical) = *row;
    let edits = again!(refused, AllocError, text_edits(alloc, edits))?;
    let changes = again!(
        refused,
        TextEditFault::NoMemory,
        as_batch(alloc, before, &edits)
    )?;
    let wanted = batch_again(alloc, canonical, refused)?;
    Ok(changes == wanted && is_text_left(alloc, &changes, (before, after), refused)?)
}

fn is_text_left(
    alloc: Global,
    changes: &[Change],
    texts: (&str, &str),
    refused: &mut usize,
) -> Result<bool, BatchFault> {
    let mut kept = kept_again(alloc, texts.0, refused)?;
    is_changed(&mut kept, changes, texts, refused)
}

#[test]
fn refused_edits_are_one_batch(rt: HostRuntime) -> Result<(), Fail> {
    let mut refused: usize = 0;
    for (index, row) in EDITED.iter().enumerate() {
        assert!(rt; is_edited(rt.alloc(), row, &mut refused)?, "{index}");
    }
    println!(rt; "refused {refused}")?;
    Ok(())
}
