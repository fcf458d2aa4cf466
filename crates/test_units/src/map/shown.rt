//! Debug texts of iterators over a map and of their clones: the remaining items.

use indexset_map::BTreeMap;
use std::alloc::Global;
use std::fmt::Debug;
use std::test::Fail;
use test_script::sized::map_of;

// Returns whether the debug text is this one.
fn has_text<T: Debug>(alloc: Global, value: &T, expected: &str) -> bool {
    matches!(format!(in alloc; "{value:?}"), Ok(text) if text.as_str() == expected)
}

// Returns whether an iterator and its clone have this text.
fn shows<I: Clone + Debug>(alloc: Global, walk: &I, expected: &str) -> bool {
    let is_cloned = matches!(walk.clone(), Ok(copy) if has_text(alloc, &copy, expected));
    is_cloned && has_text(alloc, walk, expected)
}

// Returns whether the iterator over pairs shows the remaining pairs.
fn shows_pairs(alloc: Global, map: &BTreeMap<u64, char>) -> bool {
    let mut pairs = map.iter();
    let is_shown = shows(alloc, &pairs, "[(1, 'a'), (2, 'b'), (3, 'c')]");
    let is_first = pairs.next() == Some((&1, &'a'));
    is_shown && is_first && shows(alloc, &pairs, "[(2, 'b'), (3, 'c')]")
}

// Returns the same for keys.
fn shows_keys(alloc: Global, map: &BTreeMap<u64, char>) -> bool {
    let mut keys = map.keys();
    let is_shown = shows(alloc, &keys, "[1, 2, 3]");
    let is_last = keys.next_back() == Some(&3);
    is_shown && is_last && shows(alloc, &keys, "[1, 2]")
}

// Returns the same for values.
fn shows_values(alloc: Global, map: &BTreeMap<u64, char>) -> bool {
    let mut values = map.values();
    let is_shown = shows(alloc, &values, "['a', 'b', 'c']");
    let is_first = values.next() == Some(&'a');
    is_shown && is_first && shows(alloc, &values, "['b', 'c']")
}

#[test]
fn what_remains_is_shown(rt: HostRuntime) -> Result<(), Fail> {
    let map = map_of(rt.alloc(), 2, &[(1u64, 'a'), (2, 'b'), (3, 'c')])?;
    assert!(rt; shows_pairs(rt.alloc(), &map));
    assert!(rt; shows_keys(rt.alloc(), &map) && shows_values(rt.alloc(), &map));
    Ok(())
}
