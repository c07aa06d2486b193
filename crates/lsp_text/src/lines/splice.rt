//! The line starts of a text after an edit.
//!
//! `Vec::splice` takes memory before it changes anything. Where lines come or go, later starts
//! move once.
ghost use Rattle.std.specs.Prelude.{◌≡◌, ◌+◌, ◌-◌, ◌≤◌, ◌<◌, ◌^◌, ℕ, ◌++◌, length, map, take, drop, slice_index, vec_len, OnOk, OnErr};
ghost use Rattle.lsp_text.specs.LineStarts.{line_starts};
ghost use Rattle.lsp_text.specs.inside.Splice.{Replaces};
ghost use Rattle.lsp_text.specs.Starts.{AreStarts, IsLineOf};

use crate::lines::ends::push_ends;
use crate::lines::starts::{Looks, line_of};
use std::alloc::AllocError;

/// Returns how many starts are at most a byte offset.
pub fn starts_to(starts: &[u32], place: usize) -> usize
    requires { AreStarts starts.now }
    ensures some { 0 < result }
    ensures last { IsLineOf starts.now place (result - 1) }
{
    line_of(&mut Looks::new(starts), place) + 1
}

/// Moves the starts from index `first` on, which are at `to` or after it, by as much as `to` moves
/// to `end`.
fn shift(starts: &mut [u32], first: usize, to: usize, end: usize)
    requires first { first ≤ length starts.old }
    requires rest_after { (k : ℕ) → first ≤ k → k < length starts.old →
        to ≤ slice_index starts.old k }
    requires room { (k : ℕ) → first ≤ k → k < length starts.old →
        slice_index starts.old k - to + end < 2 ^ 32 }
    ensures { starts.new
        ≡ take first starts.old ++ map (λ start. start - to + end) (drop first starts.old) }
{
    for index in first..starts.len() {
        starts[index] = (starts[index] as usize - to + end) as u32;
    }
}

/// Replaces the starts from index `keep` to index `past`. Out of memory changes nothing.
fn replace(
    starts: &mut Vec<u32>,
    keep: usize,
    past: usize,
    fresh: Vec<u32>,
) -> Result<(), AllocError>
    requires order { keep ≤ past }
    requires within { past ≤ vec_len starts.old }
    ensures ok { OnOk result
        (starts.new.items
        ≡ take keep starts.old.items ++ (fresh.items ++ drop past starts.old.items)) }
    ensures unchanged { OnErr result (starts.new.items ≡ starts.old.items) }
{
    if keep < past || !fresh.is_empty() {
        let _ = starts.splice(keep..past, fresh)?;
    }
    Ok(())
}

/// Updates the line starts after an edit: `bytes` is the text with the bytes from `from` to `to`
/// replaced by `len` others. Out of memory changes nothing.
pub fn splice_starts(
    starts: &mut Vec<u32>,
    bytes: &[u8],
    from: usize,
    to: usize,
    len: usize,
) -> Result<(), AllocError>
    requires replaces { Replaces starts.old.items bytes.now from to len }
    requires size { length bytes.now ≤ 2147483648 }
    ensures ok { OnOk result (starts.new.items ≡ line_starts bytes.now) }
    ensures unchanged { OnErr result (starts.new.items ≡ starts.old.items) }
{
    let low = from.saturating_sub(1);
    let end = from + len;
    let keep = starts_to(starts, low);
    let past = starts_to(starts, to);
    let mut fresh = Vec::new(*starts.allocator());
    push_ends(&mut fresh, bytes, low, end)?;
    let kept = keep + fresh.len();
    replace(starts, keep, past, fresh)?;
    shift(starts, kept, to, end);
    Ok(())
}
