//! By which changes a line differs from another one.

ghost use Rattle.std.specs.Prelude.{◌≡◌, ◌≤◌, ◌<◌, ◌+◌, ◌-◌, ◌^◌, [], IfOk, OnOk, map, take};
ghost use Rattle.std.specs.Option.{option_to_list};
ghost use Rattle.line_diff.specs.Makers.{gone_before, greater, greatest, last_beside, makers_between, makers_of, number_at};
ghost use Rattle.line_diff.specs.Makers.{owners_from, places_from, row_at, rows_of, seconds, with_number, with_numbers};
ghost use Rattle.line_diff.specs.Repeats.{row_numbers};

use crate::owners::{common_back, common_front};
use crate::repeats::Row;
use std::alloc::{AllocError, Global};
use std::marker::Model;

/// So many changes of a line are named.
pub(crate) const NAMED: usize = 8;

/// The changes by which a line differs: the first 9, and the last that isn't one of the first 8.
#[derive(Drop)]
pub struct Makers {
    pub named: Vec<u64>,
    pub last: u64,
}

impl Model for Makers {
    ghost use Rattle.line_diff.specs.Makers.{MakerNumbers};

    ghost Value = { MakerNumbers };

    ghost view = { λ m. record { named = m.named.items; last = m.last } };
}

/// Returns the first numbers, so many or all.
pub(crate) fn first_of(numbers: &[u64], count: usize) -> &[u64]
    ensures { result.now ≡ take count numbers.now }
{
    if count < numbers.len() {
        &numbers[..count]
    } else {
        numbers
    }
}

/// Returns the numbers from each line's start on, and from the end of the last line on. Fails only
/// where memory runs out.
pub fn rows_of<'a>(
    alloc: Global,
    numbers: Row<'a>,
    lines: &[&str],
) -> Result<Vec<Row<'a>>, AllocError>
    ensures { IfOk result (λ rows.
        map row_numbers rows.items ≡ rows_of (row_numbers numbers.entry)
        (map (λ line. line.now) lines.entry.now)) }
{
    let mut rest = numbers;
    let mut rows = Vec::new(alloc);
    for line in lines {
        rows.push(rest)?;
        rest = rest.from_place(line.len());
    }
    rows.push(rest)?;
    Ok(rows)
}

/// Returns a row, or an empty one where there is no such row.
pub fn row_at<'a>(rows: &[Row<'a>], index: usize) -> Row<'a>
    ensures { row_numbers result ≡ row_at (map row_numbers rows.entry.now) index }
{
    rows.get(index).copied().unwrap_or(Row {
        number: 0,
        count: 0,
        later: &[],
    })
}

/// Returns a number, or 0 where there is none.
pub(crate) fn number_at(row: Row<'_>, index: usize) -> u64
    ensures { result ≡ number_at (row_numbers row.entry) index }
{
    row.after(index).first().unwrap_or(0)
}

/// Returns the greater of a number and another one, which doesn't count if it is named.
fn greater(named: &[u64], most: u64, number: u64) -> u64
    ensures { result ≡ greater named.now most number }
{
    if named.contains(&number) {
        most
    } else {
        most.max(number)
    }
}

/// Returns the greatest of a number and of others that aren't named: the first of a row, and each
/// second one after it, so many.
fn greatest(named: &[u64], most: u64, row: Row<'_>, count: usize) -> u64
    ensures { result ≡ greatest named.now most (seconds count (row_numbers row.entry)) }
{
    let mut most = most;
    let mut rest = row;
    'steps: for _step in 0..count {
        let Some(number) = rest.first() else {
            return most;
        };
        most = greater(named, most, number);
        rest = rest.after(2);
    }
    most
}

/// Appends a number, unless it is there or 9 are.
fn note(found: &mut Vec<u64>, number: u64) -> Result<(), AllocError>
    ensures { OnOk result (found.new.items ≡ with_number found.old.items number) }
{
    if found.len() > NAMED || found.contains(&number) {
        return Ok(());
    }
    found.push(number)?;
    Ok(())
}

/// Appends of the first numbers of a row, and of each second one after it, so many, those that aren't
/// there yet, as long as 9 aren't.
fn note_all(found: &mut Vec<u64>, row: Row<'_>, count: usize) -> Result<(), AllocError>
    ensures { OnOk result (found.new.items
        ≡ with_numbers found.old.items (seconds count (row_numbers row.entry))) }
{
    let mut rest = row;
    'steps: for _step in 0..count {
        let Some(number) = rest.first() else {
            return Ok(());
        };
        note(found, number)?;
        rest = rest.after(2);
    }
    Ok(())
}

/// Returns the last change at a line's start, if it is later than the first byte: lines may have
/// gone there.
fn gone_before(row: Row<'_>) -> Option<u64>
    ensures { option_to_list result ≡ gone_before (row_numbers row.entry) }
{
    if number_at(row, 0) > number_at(row, 1) {
        row.first()
    } else {
        None
    }
}

/// Returns the last change that isn't named of those that made so many of a line's bytes, from `front`
/// to `end`, and of its places, from `low` to `end`.
fn last_between(named: &[u64], row: Row<'_>, low: usize, front: usize, end: usize) -> u64
    requires low { low ≤ front }
    requires front { front ≤ end }
    requires end { end + 1 < 2 ^ 64 }
    ensures { result
        ≡ last_beside named.now (owners_from front (end - front) (row_numbers row.entry))
        (places_from low (end - low + 1) (row_numbers row.entry)) [] }
{
    let most = greatest(named, 0, row.from_place(front).after(1), end - front);
    greatest(named, most, row.from_place(low), end - low + 1)
}

/// Returns the changes that made so many of a line's bytes, from `front` to `end`, and of its places,
/// from `low` to `end`, and a last one.
fn makers_between(
    alloc: Global,
    row: Row<'_>,
    low: usize,
    front: usize,
    end: usize,
) -> Result<Makers, AllocError>
    requires low { low ≤ front }
    requires front { front ≤ end }
    requires end { end + 1 < 2 ^ 64 }
    ensures { IfOk result
        (λ makers. makers ≡ makers_between low front end (row_numbers row.entry)) }
{
    let mut named = Vec::new(alloc);
    note_all(&mut named, row.from_place(front).after(1), end - front)?;
    note_all(&mut named, row.from_place(low), end - low + 1)?;
    match gone_before(row) {
        Some(number) => {
            note(&mut named, number)?;
            let first = first_of(&named, NAMED);
            let last = greater(first, last_between(first, row, low, front, end), number);
            Ok(Makers { named, last })
        }
        None => {
            let last = last_between(first_of(&named, NAMED), row, low, front, end);
            Ok(Makers { named, last })
        }
    }
}

/// Returns the changes by which a line differs from another one. `row` begins at its start. Fails
/// only where memory runs out.
pub fn makers_of(
    alloc: Global,
    row: Row<'_>,
    line: &[u8],
    other: &[u8],
) -> Result<Makers, AllocError>
    ensures { IfOk result
        (λ makers. makers ≡ makers_of (row_numbers row.entry) line.now other.now) }
{
    let front = common_front(line, other);
    let end = line.len() - common_back(front, line, other);
    // What differs may begin earlier: of letters that are alike, any may be the one too many.
    let low = front.min(line.len() - common_back(0, line, other));
    makers_between(alloc, row, low, front, end)
}
