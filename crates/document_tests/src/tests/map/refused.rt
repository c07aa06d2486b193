//! Calls that run out of memory once, and are made again.

use lsp_samples::again;
use ordered_map::OrderedMap;
use std::alloc::{AllocError, Global};
use std::test::Fail;

/// How many entries are inserted, so that each part of a map but its counts grows more than once.
const COUNT: u32 = 20;

/// A map whose values are numbers in order, from the first to before the end.
#[derive(Drop)]
struct Table {
    map: OrderedMap<u32>,
    first: u32,
    end: u32,
    /// How often memory ran out.
    refused: usize,
}

fn is_in_order(table: &Table) -> bool {
    let mut number = table.first;
    for (_, value) in &table.map {
        if *value != number {
            return false;
        }
        number = number.saturating_add(1);
    }
    number == table.end
}

fn key_of(alloc: Global, number: u32) -> Result<String, AllocError> {
    format!(in alloc; "file:///{number}")
}

fn insert(table: &mut Table, alloc: Global, number: u32) -> Result<(), AllocError> {
    table.map.insert_last(key_of(alloc, number)?, table.end)
}

/// Inserts the next value under the key of a number. Where memory runs out the table is as it was,
/// and the call is made again.
fn insert_again(table: &mut Table, alloc: Global, number: u32) -> Result<bool, AllocError> {
    if insert(table, alloc, number).is_err() {
        table.refused = table.refused.saturating_add(1);
        if !is_in_order(table) {
            return Ok(false);
        }
        insert(table, alloc, number)?;
    }
    table.end = table.end.saturating_add(1);
    Ok(true)
}

/// Moves the first value to the end: removes its entry, or inserts one of its key.
fn move_first(
    table: &mut Table,
    alloc: Global,
    number: u32,
    is_removed: bool,
) -> Result<bool, AllocError> {
    let key = again!(&mut table.refused, AllocError, key_of(alloc, number))?;
    let removed = if is_removed {
        table.map.remove(&key)
    } else {
        Some(table.first)
    };
    let first = table.first;
    table.first = first.saturating_add(u32::from(is_removed));
    let inserted = insert_again(table, alloc, number)?;
    table.first = first.saturating_add(1);
    Ok(removed == Some(first) && inserted && is_in_order(table))
}

/// Inserts entries, and moves each to the end.
fn stays_in_order(table: &mut Table, alloc: Global) -> Result<bool, AllocError> {
    let mut in_order = true;
    for number in 0..COUNT {
        in_order = in_order && insert_again(table, alloc, number)? && is_in_order(table);
    }
    for number in 0..COUNT {
        in_order = in_order && move_first(table, alloc, number, number % 2 == 0)?;
    }
    Ok(in_order)
}

#[test]
fn refused_insert_last_leaves_the_table_in_order(rt: HostRuntime) -> Result<(), Fail> {
    let mut table = Table {
        map: OrderedMap::new(rt.alloc()),
        first: 0,
        end: 0,
        refused: 0,
    };
    assert!(rt; stays_in_order(&mut table, rt.alloc())?);
    println!(rt; "refused {}", table.refused)?;
    Ok(())
}
