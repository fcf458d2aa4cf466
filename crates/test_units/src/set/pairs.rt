//! A set of pairs: ranges of its keys, and values that are written.
use super::{add, has_pairs, noughts};
use indexset_core::pair::Pair;
use indexset_set::BTreeSet;
use std::ops::Bound::{Excluded, Included, Unbounded};
use std::test::Fail;

// Returns whether the pair has this value.
fn has_value(pair: Option<&Pair<u64, char>>, value: char) -> bool {
    matches!(pair, Some(pair) if pair.value == value)
}

// Returns whether ranges of the keys yield their pairs, from either end.
fn gives_ranges_of_keys(set: &BTreeSet<Pair<u64, char>>) -> bool {
    let mut middle = set.range_by_key((Included(&2), Excluded(&5)));
    let is_forward = has_value(middle.next(), 'b') && has_value(middle.next(), 'c');
    let mut end = set.range_by_key((Excluded(&2), Unbounded));
    let is_back = has_value(end.next_back(), 'd') && has_value(end.next_back(), 'c');
    is_forward && middle.next().is_none() && is_back && end.next_back().is_none()
}

#[test]
fn bounds_on_the_keys_of_pairs(rt: HostRuntime) -> Result<(), Fail> {
    let mut set = BTreeSet::with_maximum_node_size(rt.alloc(), 2)?;
    for (key, value) in [(1u64, 'a'), (2, 'b'), (3, 'c'), (5, 'd')] {
        add(&mut set, Pair { key, value })?;
    }
    assert!(rt; gives_ranges_of_keys(&set));
    Ok(())
}

// Returns whether the values at two positions are written, and none past the end.
fn writes_values(set: &mut BTreeSet<Pair<u64, u64>>) -> bool {
    let Some(value) = set.value_mut(1) else {
        return false;
    };
    *value = 7;
    let Some((key, value)) = set.pair_mut(4) else {
        return false;
    };
    *value = *key;
    set.value_mut(5).is_none() && set.pair_mut(5).is_none()
}

// Returns whether a call that writes each value retains the right pairs.
fn retains_what_it_writes(set: &mut BTreeSet<Pair<u64, u64>>) -> bool {
    set.retain_pairs(|key: &u64, value: &mut u64| -> bool {
        *value = value.saturating_add(1);
        *key != 2
    });
    has_pairs(set, &[(0, 1), (1, 8), (3, 1), (4, 5)])
}

#[test]
fn values_of_pairs(rt: HostRuntime) -> Result<(), Fail> {
    let mut set = noughts(rt.alloc(), 0..5)?;
    assert!(rt; writes_values(&mut set) && retains_what_it_writes(&mut set));
    Ok(())
}
