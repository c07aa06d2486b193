//! How many slots of each block have an entry, so that the slot of an index is found without a look
//! at each slot before it.
//!
//! Counts of 256 slots, added up from the first on. A tree of counts would find an index in
//! fewer steps, and each removal would change more of it.

ghost use Rattle.std.specs.Prelude.{◌≡◌, ◌+◌, ◌-◌, ◌*◌, ◌/◌, ◌<◌, ◌≤◌, ℕ, All, IfSome, IfNone, length, min, slice_index, vec_len, vec_capacity};
ghost use Rattle.ordered_map.specs.inside.Slots.{AreCounted, IsLive, counted_last, live_to, somes, uncounted};

use crate::slots::Slots;

/// How many slots a count is of.
const BLOCK: usize = 256;

/// Returns how many slots before a slot have an entry, which is the index of its entry.
fn live_before<V>(slots: &Slots<V>, counts: &[usize], slot: usize) -> usize
    requires counted { AreCounted slots.now counts.now }
    requires within { slot < length slots.now }
    ensures { result ≡ live_to slots.now slot }
{
    let mut live = 0;
    for block in 0..slot / BLOCK {
        live += counts[block];
    }
    for before in BLOCK * (slot / BLOCK)..slot {
        if slots.is_live(before) {
            live += 1;
        }
    }
    live
}

/// Returns the slot, from a block on, before which so many have an entry.
fn live_from<V>(slots: &Slots<V>, block: usize, count: usize) -> Option<usize>
    requires { 256 * block < length slots.now }
    ensures found { IfSome result (λ slot. IsLive slots.now slot) }
    ensures count { IfSome result (λ slot. live_to slots.now slot
        ≡ live_to slots.now (256 * block) + count) }
    ensures none { IfNone result
        (length (somes slots.now) ≤ live_to slots.now (256 * block) + count) }
{
    let len = slots.len();
    let mut left = count;
    for slot in BLOCK * block..len {
        if slots.is_live(slot) {
            if left == 0 {
                return Some(slot);
            }
            left -= 1;
        }
    }
    None
}

/// Returns the slot of the entry at an index.
fn live_at<V>(slots: &Slots<V>, counts: &[usize], index: usize) -> Option<usize>
    requires { AreCounted slots.now counts.now }
    ensures found { IfSome result (λ slot. IsLive slots.now slot) }
    ensures index { IfSome result (λ slot. live_to slots.now slot ≡ index) }
    ensures none { IfNone result (length (somes slots.now) ≤ index) }
{
    let mut left = index;
    for (block, count) in counts.iter().enumerate() {
        if left < *count {
            return live_from(slots, block, left);
        }
        left -= *count;
    }
    None
}

/// Returns the index of the entry in a slot, of which there are so many. Where no slot is vacant it
/// costs one step.
pub(crate) fn index_of<V>(slots: &Slots<V>, counts: &[usize], live: usize, slot: usize) -> usize
    requires counted { AreCounted slots.now counts.now }
    requires live { live ≡ length (somes slots.now) }
    requires within { slot < length slots.now }
    ensures { result ≡ live_to slots.now slot }
{
    if live == slots.len() {
        slot
    } else {
        live_before(slots, counts, slot)
    }
}

/// Returns the slot of the entry at an index, of which there are so many. Where no slot is vacant
/// it costs one step.
pub(crate) fn slot_of<V>(
    slots: &Slots<V>,
    counts: &[usize],
    live: usize,
    index: usize,
) -> Option<usize>
    requires counted { AreCounted slots.now counts.now }
    requires live { live ≡ length (somes slots.now) }
    ensures found { IfSome result (λ slot. IsLive slots.now slot) }
    ensures index { IfSome result (λ slot. live_to slots.now slot ≡ index) }
    ensures none { IfNone result (length (somes slots.now) ≤ index) }
{
    if index >= live {
        None
    } else if live == slots.len() {
        Some(index)
    } else {
        live_at(slots, counts, index)
    }
}

/// Counts an entry in a new slot after so many.
pub(crate) fn count_last(counts: &mut Vec<usize>, len: usize)
    requires enough { len ≤ 256 * length counts.old.items }
    requires small { All (λ count. count ≤ 256) counts.old.items }
    requires room { vec_len counts.old < vec_capacity counts.old }
    ensures { counts.new.items ≡ counted_last counts.old.items len }
{
    let block = len / BLOCK;
    if block < counts.len() {
        counts[block] += 1;
    } else {
        counts.push_reserved(1);
    }
}

/// Counts an entry of a slot no more.
pub(crate) fn uncount(counts: &mut [usize], slot: usize)
    requires within { slot / 256 < length counts.old }
    requires some { 0 < slice_index counts.old (slot / 256) }
    ensures { counts.new ≡ uncounted counts.old slot }
{
    counts[slot / BLOCK] -= 1;
}

/// Counts so many slots, each of which has an entry.
pub(crate) fn recount(counts: &mut [usize], live: usize)
    ensures len { length counts.new ≡ length counts.old }
    ensures counts { (block : ℕ) → block < length counts.new
        → slice_index counts.new block ≡ min 256 (live - 256 * block) }
{
    let mut left = live;
    for count in counts.iter_mut() {
        *count = left.min(BLOCK);
        left -= *count;
    }
}
