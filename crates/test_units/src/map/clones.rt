//! Clones that fail, and iterators with a wrong size hint.
use super::{put, shows};
use indexset_core::refusal::Refusal;
use indexset_map::BTreeMap;
use std::alloc::{AllocError, Global};
use std::cell::Cell;
use std::test::Fail;
use test_script::misled::Misled;
use test_script::scarce::Scarce;
use test_script::sized::map_of;

// Returns the keys 0 to 2, each with itself as value, in nodes of two.
fn three(alloc: Global, clones: &Cell<u64>) -> Result<BTreeMap<Scarce<'_>, Scarce<'_>>, Refusal> {
    let mut map = BTreeMap::with_maximum_node_size(alloc, 2)?;
    for key in 0..3 {
        put(&mut map, Scarce { key, clones }, Scarce { key, clones })?;
    }
    Ok(map)
}

// Returns whether the keys are 0 to 2, each with itself as value.
fn has_three(map: &BTreeMap<Scarce<'_>, Scarce<'_>>) -> bool {
    let pairs = map.iter().map(|(key, value)| (key.key, value.key));
    pairs.eq([(0, 0), (1, 1), (2, 2)])
}

// Returns whether cloning fails, and leaves the pairs unchanged.
fn refuses_a_clone(map: &BTreeMap<Scarce<'_>, Scarce<'_>>) -> bool {
    matches!(map.clone(), Err(Refusal::Memory)) && has_three(map)
}

// Returns whether a clone has the same pairs, in two nodes.
fn is_cloned(map: &BTreeMap<Scarce<'_>, Scarce<'_>>) -> bool {
    match map.clone() {
        Ok(copy) => has_three(&copy) && copy.node_count() == 2,
        Err(_) => false,
    }
}

#[test]
fn clone_fails_at_each_key_and_value(rt: HostRuntime) -> Result<(), Fail> {
    let clones = Cell::new(0);
    let map = three(rt.alloc(), &clones)?;
    for count in 0..6 {
        clones.set(count);
        assert!(rt; refuses_a_clone(&map), "with {count} clones");
    }
    clones.set(6);
    assert!(rt; is_cloned(&map));
    Ok(())
}

// Returns a key with the same letter for each key.
fn with_letter(key: u64) -> (u64, char) {
    (key, 'a')
}

// Returns whether a map is made of three pairs, with a size hint of at least `claim`.
fn is_made(alloc: Global, claim: usize) -> bool {
    match BTreeMap::from_iter(alloc, Misled { first: 3, claim }.map(with_letter)) {
        Ok(map) => shows(map.iter(), &[(1, 'a'), (2, 'a'), (3, 'a')]),
        Err(_) => false,
    }
}

// Returns the same for `collect`.
fn is_collected(alloc: Global, claim: usize) -> bool {
    let pairs = Misled { first: 3, claim }.map(with_letter);
    let collected: Result<BTreeMap<u64, char>, AllocError> = pairs.collect(alloc);
    match collected {
        Ok(map) => shows(map.iter(), &[(1, 'a'), (2, 'a'), (3, 'a')]),
        Err(_) => false,
    }
}

// Returns the same for `extend`, with one of the keys present.
fn is_extended(map: &mut BTreeMap<u64, char>, claim: usize) -> bool {
    let pairs = Misled { first: 3, claim }.map(with_letter);
    map.extend(pairs).is_ok() && shows(map.iter(), &[(1, 'a'), (2, 'a'), (3, 'a')])
}

#[test]
fn lengths_that_are_told_wrong(rt: HostRuntime) -> Result<(), Fail> {
    for claim in [0, 1, 1_000_000] {
        assert!(rt; is_made(rt.alloc(), claim) && is_collected(rt.alloc(), claim));
        let mut map = map_of(rt.alloc(), 2, &[(2u64, 'z')])?;
        assert!(rt; is_extended(&mut map, claim));
    }
    Ok(())
}
