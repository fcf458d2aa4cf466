//! Mutable iterators, over many nodes and over a range of names.
ghost use Rattle.std.specs.Prelude.{◌≤◌};

use super::put;
use indexset_core::refusal::Refusal;
use indexset_map::BTreeMap;
use std::alloc::Global;
use std::ops::Bound;
use std::test::Fail;
use test_script::sized::map_of;

// Returns the keys from 0 to below the end, each with itself as value, inserted in descending
// order.
fn selves(alloc: Global, size: usize, end: u64) -> Result<BTreeMap<u64, u64>, Refusal>
    requires { 2 ≤ size }
{
    let mut map = BTreeMap::with_maximum_node_size(alloc, size)?;
    for key in (0..end).rev() {
        put(&mut map, key, key)?;
    }
    Ok(map)
}

// Returns whether a pair is this key with itself as value.
fn is_self(pair: Option<(&u64, &mut u64)>, key: u64) -> bool {
    pair.is_some_and(|pair| *pair.0 == key && *pair.1 == key)
}

// Returns whether a mutable iterator yields the keys to below the end from the front, each with
// itself as value, and then `None`.
fn lends_all(map: &mut BTreeMap<u64, u64>, end: u64) -> bool {
    let mut walk = map.iter_mut();
    for key in 0..end {
        if !is_self(walk.next(), key) {
            return false;
        }
    }
    walk.next().is_none()
}

// Returns the same from the back.
fn lends_all_back(map: &mut BTreeMap<u64, u64>, end: u64) -> bool {
    let mut walk = map.iter_mut();
    for key in (0..end).rev() {
        if !is_self(walk.next_back(), key) {
            return false;
        }
    }
    walk.next_back().is_none()
}

#[test]
fn many_nodes_both_ways(rt: HostRuntime) -> Result<(), Fail> {
    let mut map = selves(rt.alloc(), 1024, 10240)?;
    assert!(rt; lends_all(&mut map, 10240) && lends_all_back(&mut map, 10240));
    Ok(())
}

// Adds 100 to the balances from `B` to below `Cheryl`.
fn raise(balances: &mut BTreeMap<&'static str, u64>) {
    let mut walk = balances.range_mut((Bound::Included(&"B"), Bound::Excluded(&"Cheryl")));
    for _ in 0..4 {
        if walk.has_next() {
            let (_, balance) = walk.next_pair();
            *balance = balance.saturating_add(100);
        }
    }
}

#[test]
fn balances_over_a_range_of_names(rt: HostRuntime) -> Result<(), Fail> {
    for size in [2, 1024] {
        let names = [("Alice", 0u64), ("Bob", 0), ("Carol", 0), ("Cheryl", 0)];
        let mut balances = map_of(rt.alloc(), size, &names)?;
        raise(&mut balances);
        assert!(rt; balances.values().copied().eq([0, 100, 100, 0]));
    }
    Ok(())
}
