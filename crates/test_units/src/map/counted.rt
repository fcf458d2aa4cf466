//! The number of comparisons of each call, with keys that count them.
use super::put;
use indexset_core::refusal::Refusal;
use indexset_map::{BTreeMap, Entry};
use std::alloc::Global;
use std::cell::Cell;
use std::ops::Bound::{Excluded, Included};
use std::test::Fail;
use test_script::counted::Counted;

// Returns many keys that count in the cell, inserted in descending order: 19 nodes.
fn many(alloc: Global, asked: &Cell<u64>) -> Result<BTreeMap<Counted<'_>, u64>, Refusal> {
    let mut map = BTreeMap::with_maximum_node_size(alloc, 1024)?;
    for key in (0..10240).rev() {
        put(&mut map, Counted { key, asked }, key)?;
    }
    Ok(map)
}

// Returns whether at most `most` comparisons were made, and resets the count.
fn is_few(asked: &Cell<u64>, most: u64) -> bool {
    asked.replace(0) <= most
}

// Returns whether each look-up finds a key within the bound.
fn finds_in_few<'a>(map: &mut BTreeMap<Counted<'a>, u64>, key: u64, asked: &'a Cell<u64>) -> bool {
    let sought = Counted { key, asked };
    asked.set(0);
    let is_read = map.get(&sought).copied() == Some(key) && is_few(asked, 17);
    let lent = map.get_mut(&sought).is_some_and(|value| *value == key);
    let is_lent = lent && is_few(asked, 17);
    let is_held = map.contains_key(&sought) && is_few(asked, 17);
    let is_occupied = matches!(map.entry(sought), Entry::Occupied(_)) && is_few(asked, 17);
    is_read && is_lent && is_held && is_occupied
}

#[test]
fn few_comparisons_in_many_nodes(rt: HostRuntime) -> Result<(), Fail> {
    let asked = Cell::new(0);
    let mut map = many(rt.alloc(), &asked)?;
    assert!(rt; map.node_count() == 19);
    for key in [0, 5119, 10239] {
        assert!(rt; finds_in_few(&mut map, key, &asked), "of {key}");
    }
    Ok(())
}

// Returns whether indexing with a key gives its value. The cell then has only its comparisons.
fn is_indexed(map: &BTreeMap<Counted<'_>, u64>, sought: &Counted<'_>) -> bool {
    if !map.contains_key(sought) {
        return false;
    }
    sought.asked.set(0);
    map[sought] == sought.key
}

// Returns whether the rank, pair, cursor and value of a key are found within the bound.
fn ranks_in_few<'a>(map: &BTreeMap<Counted<'a>, u64>, key: u64, asked: &'a Cell<u64>) -> bool {
    let sought = Counted { key, asked };
    asked.set(0);
    let is_ranked = map.rank(&sought) as u64 == key && is_few(asked, 17);
    let held = map.get_key_value(&sought).map(|pair| *pair.1);
    let is_held = held == Some(key) && is_few(asked, 17);
    let found = map.lower_bound(Included(&sought)).value().copied();
    let is_found = found == Some(key) && is_few(asked, 17);
    is_ranked && is_held && is_found && is_indexed(map, &sought) && is_few(asked, 17)
}

#[test]
fn few_comparisons_of_rank(rt: HostRuntime) -> Result<(), Fail> {
    let asked = Cell::new(0);
    let map = many(rt.alloc(), &asked)?;
    for key in [0, 5119, 10239] {
        assert!(rt; ranks_in_few(&map, key, &asked), "of {key}");
    }
    Ok(())
}

// Returns whether the place of a key and the next pair are found within the bound.
fn places_in_few<'a>(map: &BTreeMap<Counted<'a>, u64>, key: u64, asked: &'a Cell<u64>) -> bool {
    let sought = Counted { key, asked };
    asked.set(0);
    let placed = map.index_of(&sought).map(|i| i as u64);
    let is_placed = placed == Some(key) && is_few(asked, 17);
    let next = map.upper_bound(Included(&sought)).value().copied();
    is_placed && next == Some(key.wrapping_add(1)) && is_few(asked, 17)
}

#[test]
fn few_comparisons_of_positions_and_upper_bounds(rt: HostRuntime) -> Result<(), Fail> {
    let asked = Cell::new(0);
    let map = many(rt.alloc(), &asked)?;
    for key in [0, 5119, 10238] {
        assert!(rt; places_in_few(&map, key, &asked), "of {key}");
    }
    Ok(())
}

#[test]
fn few_comparisons_of_ranges(rt: HostRuntime) -> Result<(), Fail> {
    let asked = Cell::new(0);
    let mut map = many(rt.alloc(), &asked)?;
    for key in [0, 5119, 10239] {
        let sought = Counted { key, asked: &asked };
        let next = Counted {
            key: key + 1,
            asked: &asked,
        };
        asked.set(0);
        let one = map.range((Included(&sought), Excluded(&next))).len() == 1;
        let range = asked.replace(0);
        let one_lent = map.range_mut((Included(&sought), Excluded(&next))).len() == 1;
        let few = range <= 34 && asked.get() <= 34;
        assert!(rt; one && one_lent && few, "of {key}: {range}");
    }
    Ok(())
}

// Returns whether a key is inserted with itself as value, returns this old value, and makes at most
// `most` comparisons.
fn is_put<'a>(
    map: &mut BTreeMap<Counted<'a>, u64>,
    put: Counted<'a>,
    old: Option<u64>,
    most: u64,
) -> bool {
    let (key, asked) = (put.key, put.asked);
    match map.insert(put, key) {
        Ok(out) => out == old && is_few(asked, most),
        Err(_) => false,
    }
}

// Returns whether a key is inserted, removed and inserted again within the bound.
fn changes_in_few<'a>(
    map: &mut BTreeMap<Counted<'a>, u64>,
    key: u64,
    asked: &'a Cell<u64>,
) -> bool {
    let sought = Counted { key, asked };
    asked.set(0);
    let is_replaced = is_put(map, Counted { key, asked }, Some(key), 17);
    let is_removed = map.remove(&sought) == Some(key) && is_few(asked, 17);
    let is_gone = map.remove_entry(&sought).is_none() && is_few(asked, 17);
    // A new key is looked up before it is inserted.
    is_replaced && is_removed && is_gone && is_put(map, sought, None, 35)
}

// Returns whether the map is split at a key within the bound.
fn splits_in_few<'a>(map: &mut BTreeMap<Counted<'a>, u64>, sought: &Counted<'a>) -> bool {
    sought.asked.set(0);
    match map.split_off(sought) {
        Ok(rest) => rest.len() == 5120 && is_few(sought.asked, 17),
        Err(_) => false,
    }
}

#[test]
fn few_comparisons_of_calls_that_change(rt: HostRuntime) -> Result<(), Fail> {
    let asked = Cell::new(0);
    let mut map = many(rt.alloc(), &asked)?;
    for key in [0, 5119, 10239] {
        assert!(rt; changes_in_few(&mut map, key, &asked), "of {key}");
    }
    let sought = Counted {
        key: 5120,
        asked: &asked,
    };
    assert!(rt; splits_in_few(&mut map, &sought));
    Ok(())
}
