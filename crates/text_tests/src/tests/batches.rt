//! Batches on small texts that run out of memory, and are made again. Ranges are counted in UTF-16.

mod joined_batches;
mod pieces;
mod text_edits;

ghost use Rattle.std.specs.Prelude.{◌≡◌, IfOk};

use lsp_edit::{BatchFault, Change, IndexedText, MAX_OLD_TEXT, fits};
use lsp_samples::again;
use lsp_samples::edits::{ALL, Edit, batch_again, change};
use lsp_text::Encoding;
use std::alloc::{AllocError, Global};
use std::test::Fail;

/// A text, a batch, the text that it leaves, and its canonical batch.
type Batch = (&'static str, &'static [Edit], &'static str, &'static [Edit]);

static BATCHES: [Batch; 4] = [
    (
        "abcde",
        &[(0, 1, 0, 2, "X"), (0, 3, 0, 4, "Y"), (0, 2, 0, 3, "")],
        "aXYe",
        &[(0, 1, 0, 4, "XY")],
    ),
    ("aa", &[(ALL, 0, 0, 0, "a")], "a", &[(0, 0, 0, 2, "a")]),
    ("abc", &[(0, 1, 0, 1, "X"), (0, 1, 0, 2, "")], "abc", &[]),
    (
        "a\nb\nc\n",
        &[
            (1, 0, 1, 1, "B\nBB\nBBB"),
            (0, 0, 0, 1, "A"),
            (4, 0, 4, 0, "x"),
        ],
        "A\nB\nBB\nBBB\nxc\n",
        &[
            (2, 0, 2, 0, "x"),
            (1, 0, 1, 1, "B\nBB\nBBB"),
            (0, 0, 0, 1, "A"),
        ],
    ),
];

/// Returns a text that is kept with its lines.
fn kept(alloc: Global, text: &str) -> Result<IndexedText, AllocError>
    ensures { IfOk result (λ kept. kept ≡ text.now) }
{
    if text.len() > MAX_OLD_TEXT {
        return Err(AllocError);
    }
    IndexedText::new(alloc, String::from_str(alloc, text)?)
}

/// The same. Out of memory is counted, and the call made again.
fn kept_again(alloc: Global, text: &str, refused: &mut usize) -> Result<IndexedText, AllocError> {
    again!(refused, AllocError, kept(alloc, text))
}

/// Changes a kept text by a batch.
fn applied(kept: &mut IndexedText, changes: &[Change]) -> Result<(), BatchFault> {
    if kept.len() > MAX_OLD_TEXT || !fits(changes) {
        return Err(BatchFault::TooLong);
    }
    kept.change(Encoding::Utf16, changes, MAX_OLD_TEXT)
}

/// Changes a kept text from the first to the second. Where memory runs out it is as it was, and the
/// call is made again.
fn is_changed(
    kept: &mut IndexedText,
    changes: &[Change],
    texts: (&str, &str),
    refused: &mut usize,
) -> Result<bool, BatchFault> {
    if let Err(fault) = applied(kept, changes) {
        *refused = refused.saturating_add(1);
        if fault != BatchFault::NoMemory || !kept.text().is_text(texts.0) {
            return Ok(false);
        }
        applied(kept, changes)?;
    }
    Ok(kept.text().is_text(texts.1))
}

/// Returns whether a batch on a kept text has this canonical batch.
fn is_canonical(
    kept: &IndexedText,
    changes: &[Change],
    wanted: &[Change],
    refused: &mut usize,
) -> Result<bool, BatchFault> {
    if kept.len() > MAX_OLD_TEXT || !fits(changes) {
        return Err(BatchFault::TooLong);
    }
    let canonical = again!(
        refused,
        BatchFault::NoMemory,
        kept.canonical(Encoding::Utf16, changes, MAX_OLD_TEXT)
    )?;
    Ok(canonical.as_slice() == wanted)
}

fn is_left(alloc: Global, row: &Batch, refused: &mut usize) -> Result<bool, BatchFault> {
    let (before, edits, after, canonical) = *row;
    let wanted = batch_again(alloc, canonical, refused)?;
    let changes = batch_again(alloc, edits, refused)?;
    let mut kept = kept_again(alloc, before, refused)?;
    Ok(
        is_canonical(&kept, &changes, &wanted, refused)?
            && is_changed(&mut kept, &changes, (before, after), refused)?,
    )
}

#[test]
fn refused_batches_leave_their_texts(rt: HostRuntime) -> Result<(), Fail> {
    let mut refused: usize = 0;
    for (index, row) in BATCHES.iter().enumerate() {
        assert!(rt; is_left(rt.alloc(), row, &mut refused)?, "{index}");
    }
    println!(rt; "refused {refused}")?;
    Ok(())
}

/// Makes a batch that deletes the first character of the first line, again and again, also when
/// there is none left. After each deletion it changes nothing at the end of the text.
fn deletions(alloc: Global) -> Result<Vec<Change>, AllocError> {
    let mut changes = Vec::with_capacity(alloc, 2_048)?;
    for _ in 0..1_024 {
        changes.push(change(alloc, (0, 0, 0, 1, ""))?)?;
        changes.push(change(alloc, (9, 0, 9, 0, ""))?)?;
    }
    Ok(changes)
}

/// Returns whether so many changes to and fro, which are composed by halves, are one deletion.
fn are_one_deletion(alloc: Global, refused: &mut usize) -> Result<bool, BatchFault> {
    let text = kept_again(alloc, "one\ntwo \u{1F600} three\n\nfour", refused)?;
    let changes = again!(refused, AllocError, deletions(alloc))?;
    let wanted = batch_again(alloc, &[(0, 0, 0, 3, "")], refused)?;
    is_canonical(&text, &changes, &wanted, refused)
}

#[test]
fn refused_canonical_by_halves(rt: HostRuntime) -> Result<(), Fail> {
    let mut refused: usize = 0;
    assert!(rt; are_one_deletion(rt.alloc(), &mut refused)?);
    println!(rt; "refused {refused}")?;
    Ok(())
}
