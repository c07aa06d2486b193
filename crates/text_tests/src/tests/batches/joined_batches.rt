//! Two batches that are joined by `Joined`.

ghost use Rattle.std.specs.Prelude.{◌≡◌, IfOk, OnErr};
ghost use Rattle.lsp_edit.specs.Joined.{IsReached};

use super::kept_again;
use lsp_edit::{BatchFault, Change, IndexedText, Joined, MAX_OLD_TEXT, fits};
use lsp_samples::again;
use lsp_samples::edits::{Edit, batch_again};
use lsp_text::Encoding;
use std::alloc::{AllocError, Global};
use std::test::Fail;

/// Begins with a copy of a kept text. Out of memory is counted, and the call made again.
fn over_again(alloc: Global, kept: &IndexedText, refused: &mut usize) -> Result<Joined, AllocError>
    ensures { IfOk result (λ joined. IsReached joined kept.now) }
{
    again!(refused, AllocError, Joined::over(alloc, kept))
}

/// Resolves a batch on the text that was reached, and joins it.
fn add_delta(
    joined: &mut Joined,
    reached: &IndexedText,
    changes: &[Change],
) -> Result<(), BatchFault>
    requires { IsReached joined.old reached.now }
    ensures { OnErr result (joined.new ≡ joined.old) }
{
    if reached.len() > MAX_OLD_TEXT || !fits(changes) {
        return Err(BatchFault::TooLong);
    }
    let delta = reached.delta(Encoding::Utf16, changes, 9)?;
    joined.add_delta(reached, &delta)?;
    Ok(())
}

/// Returns whether the batches have so many changes in their canonical batch.
fn has_changes(joined: &Joined, count: usize, refused: &mut usize) -> Result<bool, AllocError> {
    let changes = again!(refused, AllocError, joined.canonical(Encoding::Utf16))?;
    Ok(changes.len() == count)
}

/// Joins a batch. Where memory runs out there is no batch yet, and it is joined again.
fn is_added(
    joined: &mut Joined,
    reached: &IndexedText,
    changes: &[Change],
    refused: &mut usize,
) -> Result<bool, BatchFault>
    requires { IsReached joined.old reached.now }
{
    if add_delta(joined, reached, changes).is_ok() {
        return Ok(true);
    }
    *refused = refused.saturating_add(1);
    let unchanged = has_changes(joined, 0, refused)?;
    add_delta(joined, reached, changes)?;
    Ok(unchanged)
}

/// Returns whether a batch on a kept text has so many canonical changes, whichever request was
/// refused.
fn is_joined_again(
    alloc: Global,
    edits: &[Edit],
    count: usize,
    refused: &mut usize,
) -> Result<bool, BatchFault> {
    let changes = batch_again(alloc, edits, refused)?;
    let kept = kept_again(alloc, "abc", refused)?;
    let mut joined = over_again(alloc, &kept, refused)?;
    Ok(is_added(&mut joined, &kept, &changes, refused)? && has_changes(&joined, count, refused)?)
}

#[test]
fn refused_delta_over_a_kept_text(rt: HostRuntime) -> Result<(), Fail> {
    let mut refused: usize = 0;
    assert!(rt; is_joined_again(rt.alloc(), &[(0, 1, 0, 2, "X")], 1, &mut refused)?);
    let edits = [(0, 0, 0, 0, "X"), (0, 4, 0, 4, "Y")];
    assert!(rt; is_joined_again(rt.alloc(), &edits, 2, &mut refused)?);
    println!(rt; "refused {refused}")?;
    Ok(())
}
