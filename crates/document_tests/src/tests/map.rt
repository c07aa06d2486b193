//! A map of difficult keys, by each call once, and calls that run out of memory.

mod refused;

use ordered_map::OrderedMap;
use std::alloc::{AllocError, Global};
use std::test::Fail;

/// Entries as they are inserted. Some keys look like what a vacant slot has, and one comes twice.
static INSERTED: [(&str, u32); 7] = [
    ("", 0),
    ("\0", 1),
    ("\x000", 2),
    ("file:///a", 3),
    ("\x003", 4),
    ("x", 5),
    ("", 6),
];

/// The entries once two are removed, and one has another value.
static LEFT: [(&str, u32); 4] = [("\x000", 7), ("\x003", 4), ("x", 5), ("", 6)];

fn filled(alloc: Global) -> Result<OrderedMap<u32>, AllocError> {
    let mut map = OrderedMap::new(alloc);
    for (key, value) in &INSERTED {
        map.insert_last(String::from_str(alloc, key)?, *value)?;
    }
    Ok(map)
}

/// Removes two entries, and writes the value of the first that is left.
fn is_changed(map: &mut OrderedMap<u32>) -> bool {
    let removed = map.remove("\0") == Some(1) && map.remove("file:///a") == Some(3);
    let Some(value) = map.get_index_mut(0) else {
        return false;
    };
    *value = 7;
    removed && map.remove("\0").is_none()
}

/// Returns whether an entry is found by its index and by its key.
fn is_found(map: &OrderedMap<u32>, index: usize, key: &str, value: u32) -> bool {
    let at = matches!(map.get_index(index), Some((name, number))
        if name.as_str() == key && *number == value);
    let full = matches!(map.get_full(key), Some((found, name, number))
        if found == index && name.as_str() == key && *number == value);
    at && full && map.get(key) == Some(&value) && map.contains_key(key)
}

/// Returns whether the entries are these, in this order.
fn are_left(map: &OrderedMap<u32>) -> bool {
    for (index, (key, value)) in LEFT.iter().enumerate() {
        if !is_found(map, index, key, *value) {
            return false;
        }
    }
    let last = map.iter().next_back();
    map.len() == 4 && !map.is_empty() && map.slots() >= 4 && last.is_some_and(|it| *it.1 == 6)
}

fn is_as_wanted(alloc: Global) -> Result<bool, AllocError> {
    let mut map = filled(alloc)?;
    Ok(is_changed(&mut map) && are_left(&map))
}

#[test]
fn difficult_keys_are_keys_as_others(rt: HostRuntime) -> Result<(), Fail> {
    assert!(rt; is_as_wanted(rt.alloc())?);
    Ok(())
}
