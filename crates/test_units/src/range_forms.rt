//! Ranges in Rust's syntax, of the logged collections and of a replica.
use indexset_core::multipair::MultiPair;
use indexset_core::pair::Pair;
use indexset_log::map::BTreeMap;
use indexset_log::set::BTreeSet;
use indexset_multi::multimap::BTreeMultiMap;
use indexset_replica::Replica;
use std::test::Fail;

#[test]
fn of_a_logged_set(rt: HostRuntime) -> Result<(), Fail> {
    let mut set: BTreeSet<&str, Vec<&str>> = BTreeSet::with_maximum_node_size(rt.alloc(), 2);
    for name in ["plum", "fig", "kiwi"] {
        set.insert(name)?;
    }
    let by_order = set.range("g"..).copied().eq(["kiwi", "plum"]) && set.range(..="fig").len() == 1;
    let by_position = set.range_idx(1..).len() == 2 && set.range_idx(..).len() == 3;
    assert!(rt; by_order && by_position);
    Ok(())
}

#[test]
fn of_maps(rt: HostRuntime) -> Result<(), Fail> {
    let mut map: BTreeMap<u64, char, Vec<Pair<u64, char>>> = BTreeMap::new(rt.alloc());
    let mut tags: BTreeMultiMap<u64, char, Vec<MultiPair<u64, char>>> = BTreeMultiMap::new(
        rt.alloc(),
    );
    for (key, value) in [(1, 'a'), (3, 'b'), (5, 'c')] {
        map.insert(key, value)?;
        tags.insert(key, value)?;
    }
    let some = map.range(3..5).map(|(key, value)| (*key, *value));
    let rest = tags.range_idx(2..).map(|(key, value)| (*key, *value));
    assert!(rt; some.eq([(3, 'b')]) && rest.eq([(5, 'c')]));
    assert!(rt; map.range_idx(0..2).len() == 2 && tags.range(..=3).len() == 2);
    Ok(())
}

#[test]
fn of_a_replica(rt: HostRuntime) -> Result<(), Fail> {
    let node = vec![in rt.alloc(); MultiPair::new(1u64, 'a', 0), MultiPair::new(3, 'b', 1)]?;
    let copy: Replica<MultiPair<u64, char>> = Replica::from_nodes(vec![in rt.alloc(); node]?, 0)?;
    let by_key = copy.range(2..).count() == 1 && copy.range(..=3).count() == 2;
    assert!(rt; by_key && copy.range_idx(..1).count() == 1);
    Ok(())
}
