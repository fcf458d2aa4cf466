//! The number of comparisons of each call, with keys that count them, and of calls of a closure.
use super::{add, has_pairs, noughts};
use indexset_core::pair::Pair;
use indexset_core::refusal::Refusal;
use indexset_set::BTreeSet;
use std::alloc::Global;
use std::cell::Cell;
use std::ops::Bound::{Excluded, Included};
use std::test::Fail;
use test_script::counted::Counted;

// Returns many keys that count in the cell, inserted in descending order: 19 nodes.
fn many(alloc: Global, asked: &Cell<u64>) -> Result<BTreeSet<Counted<'_>>, Refusal> {
    let mut set = BTreeSet::with_maximum_node_size(alloc, 1024)?;
    for key in (0..10240).rev() {
        add(&mut set, Counted { key, asked })?;
    }
    Ok(set)
}

// Returns whether at most `most` comparisons were made, and resets the count.
fn is_few(asked: &Cell<u64>, most: u64) -> bool {
    asked.replace(0) <= most
}

// Returns whether there is an element and it has the key.
fn has_key(found: Option<&Counted<'_>>, key: u64) -> bool {
    matches!(found, Some(found) if found.key == key)
}

// Returns whether each call finds the key within the bound.
fn finds_by_few(set: &BTreeSet<Counted<'_>>, sought: &Counted<'_>) -> bool {
    let Counted { key, asked } = *sought;
    asked.set(0);
    let is_read = has_key(set.get(sought), key) && is_few(asked, 17);
    let is_held = set.contains(sought) && is_few(asked, 17);
    let is_first = has_key(set.lower_bound(sought), key) && is_few(asked, 17);
    let is_ranked = set.rank(sought) as u64 == key && is_few(asked, 17);
    is_read && is_held && is_first && is_ranked
}

#[test]
fn few_comparisons_in_many_nodes(rt: HostRuntime) -> Result<(), Fail> {
    let asked = Cell::new(0);
    let set = many(rt.alloc(), &asked)?;
    assert!(rt; set.node_count() == 19);
    for key in [0, 5119, 10239] {
        let asked = &asked;
        assert!(rt; finds_by_few(&set, &Counted { key, asked }));
    }
    Ok(())
}

// Returns whether the place of a key that is not the last, and the next key, are found within the
// bound.
fn places_by_few(set: &BTreeSet<Counted<'_>>, sought: &Counted<'_>) -> bool {
    let Counted { key, asked } = *sought;
    asked.set(0);
    let is_placed = matches!(set.index_of(sought), Some(i) if i as u64 == key);
    let is_near = is_few(asked, 17);
    let is_next = has_key(set.upper_bound(sought), key.saturating_add(1));
    is_placed && is_near && is_next && is_few(asked, 17)
}

#[test]
fn few_comparisons_of_positions_and_upper_bounds(rt: HostRuntime) -> Result<(), Fail> {
    let asked = Cell::new(0);
    let set = many(rt.alloc(), &asked)?;
    for key in [0, 5119, 10238] {
        let asked = &asked;
        assert!(rt; places_by_few(&set, &Counted { key, asked }));
    }
    Ok(())
}

// Returns whether a present key is inserted again and replaced within the bound.
fn puts_by_few<'a>(set: &mut BTreeSet<Counted<'a>>, sought: &Counted<'a>) -> bool {
    let Counted { key, asked } = *sought;
    asked.set(0);
    let is_old = matches!(add(set, Counted { key, asked }), Ok(false));
    // An insertion compares with the last element first.
    let is_put = is_old && is_few(asked, 18);
    let is_replaced = matches!(set.replace(Counted { key, asked }), Ok(Some(_)));
    is_put && is_replaced && is_few(asked, 17)
}

// Returns whether a range of one present key is found, and the key then taken, within the bound.
fn takes_by_few<'a>(set: &mut BTreeSet<Counted<'a>>, sought: &Counted<'a>) -> bool {
    let asked = sought.asked;
    let key = sought.key.saturating_add(1);
    let next = Counted { key, asked };
    asked.set(0);
    let is_only = set.range((Included(sought), Excluded(&next))).len() == 1;
    let is_within = is_only && is_few(asked, 34);
    let is_taken = set.take(sought).is_some() && is_few(asked, 17);
    is_within && is_taken && !set.remove(sought) && is_few(asked, 17)
}

// Returns whether the set is split in its middle within the bound.
fn splits_by_few<'a>(set: &mut BTreeSet<Counted<'a>>, sought: &Counted<'a>) -> bool {
    sought.asked.set(0);
    matches!(set.split_off(sought), Ok(rest) if rest.len() == 5119) && is_few(sought.asked, 17)
}

#[test]
fn few_comparisons_of_calls_that_change(rt: HostRuntime) -> Result<(), Fail> {
    let asked = Cell::new(0);
    let mut set = many(rt.alloc(), &asked)?;
    for key in [0, 5119, 10239] {
        let asked = &asked;
        let sought = Counted { key, asked };
        let is_put = puts_by_few(&mut set, &sought);
        assert!(rt; is_put && takes_by_few(&mut set, &sought));
    }
    let asked = &asked;
    let key = 5120;
    assert!(rt; splits_by_few(&mut set, &Counted { key, asked }));
    Ok(())
}

// Returns whether the closure is called once for each pair, in order.
fn asks_once_a_pair(set: &mut BTreeSet<Pair<u64, u64>>) -> bool {
    let mut asked = 0u64;
    set.retain_pairs(|key: &u64, value: &mut u64| -> bool {
        asked = asked.wrapping_add(1);
        *value = asked;
        key % 2 == 1
    });
    asked == 7 && has_pairs(set, &[(1, 1), (3, 3), (5, 5), (7, 7)])
}

#[test]
fn retain_pairs_asks_once_a_pair(rt: HostRuntime) -> Result<(), Fail> {
    let mut set = noughts(rt.alloc(), 1..8)?;
    assert!(rt; asks_once_a_pair(&mut set));
    Ok(())
}
