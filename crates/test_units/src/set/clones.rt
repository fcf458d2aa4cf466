//! Clones that fail, or have another order.
use super::add;
use indexset_core::refusal::Refusal;
use indexset_set::BTreeSet;
use std::alloc::Global;
use std::cell::Cell;
use std::test::Fail;
use test_script::mirrored::Mirrored;
use test_script::scarce::Scarce;

// Returns the keys 0, 1 and 2, which share the cell.
fn scarce(alloc: Global, clones: &Cell<u64>) -> Result<BTreeSet<Scarce<'_>>, Refusal> {
    let mut set = BTreeSet::with_maximum_node_size(alloc, 2)?;
    for key in 0..3 {
        add(&mut set, Scarce { key, clones })?;
    }
    Ok(set)
}

// Returns whether the set has the keys 0, 1 and 2.
fn has_keys(set: &BTreeSet<Scarce<'_>>) -> bool {
    for i in 0..3 {
        if !matches!(set.get_index(i), Some(item) if item.key == i as u64) {
            return false;
        }
    }
    set.len() == 3
}

// Returns whether cloning the set fails, and leaves it unchanged.
fn refuses_a_clone(set: &BTreeSet<Scarce<'_>>) -> bool {
    matches!(set.clone(), Err(Refusal::Memory)) && has_keys(set)
}

// Returns whether a clone of the set has two nodes.
fn gives_a_clone(set: &BTreeSet<Scarce<'_>>) -> bool {
    matches!(set.clone(), Ok(copy) if has_keys(&copy) && copy.node_count() == 2)
}

#[test]
fn clone_fails_at_each_element(rt: HostRuntime) -> Result<(), Fail> {
    let clones = Cell::new(0);
    let set = scarce(rt.alloc(), &clones)?;
    for count in 0..3 {
        clones.set(count);
        assert!(rt; refuses_a_clone(&set));
    }
    clones.set(3);
    assert!(rt; gives_a_clone(&set));
    Ok(())
}

// Returns whether the set has the numbers 0, 5 and 8.
fn has_numbers(set: &BTreeSet<Mirrored>) -> bool {
    set.iter().eq(&[
        Mirrored { number: 0 },
        Mirrored { number: 5 },
        Mirrored { number: 8 },
    ])
}

// Returns whether the clone of the set has the clones of its elements in order, with the same node
// size.
fn gives_a_mirrored_clone(set: &BTreeSet<Mirrored>) -> bool {
    matches!(set.clone(), Ok(copy) if has_numbers(&copy) && copy.maximum_node_size() == 2)
}

#[test]
fn clones_that_descend_are_inserted_in_turn(rt: HostRuntime) -> Result<(), Fail> {
    let mut set = BTreeSet::with_maximum_node_size(rt.alloc(), 2)?;
    for number in [1, 4, 9, 12] {
        add(&mut set, Mirrored { number })?;
    }
    assert!(rt; gives_a_mirrored_clone(&set) && set.len() == 4);
    Ok(())
}
