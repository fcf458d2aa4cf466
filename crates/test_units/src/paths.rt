//! The paths of each type, trait and constant of the Rust crate, in the crate that a user lists. A
//! missing one does not compile.

use indexset::base::constants::DEFAULT_INNER_SIZE;
use indexset::base::key_range::bounds_are_ordered;
use indexset::base::multipair::MultiPair;
use indexset::base::node::NodeLike;
use indexset::base::pair::Pair;
use indexset::base::refusal::Refusal;
use indexset::cdc::change::ChangeEvent;
use indexset::concurrent::{map, multimap};
use indexset::replica::Replica;
use indexset::{BTreeMap, BTreeSet, IntoIterMap, IterMap, RangeMap};
use std::ops::Bound;
use std::test::Fail;

// The types in the root of the crate.
pub type Root<'a> = (
    (indexset::BTreeSet<u64>, indexset::BTreeMap<u64, char>),
    (indexset::Iter<'a, u64>, indexset::IntoIter<u64>),
    (indexset::Union<'a, u64>, indexset::Difference<'a, u64>),
    (
        indexset::SymmetricDifference<'a, u64>,
        indexset::Intersection<'a, u64>,
    ),
    (indexset::Range<'a, u64>, indexset::Cursor<'a, u64>),
    (
        indexset::VacantEntry<'a, u64, char>,
        indexset::OccupiedEntry<'a, u64, char>,
        indexset::Entry<'a, u64, char>,
    ),
    (
        indexset::IterMap<'a, u64, char>,
        indexset::IntoIterMap<u64, char>,
    ),
    (
        indexset::IntoKeys<u64, char>,
        indexset::IntoValues<u64, char>,
    ),
    (
        indexset::RangeMap<'a, u64, char>,
        indexset::CursorMap<'a, u64, char>,
    ),
    (
        indexset::Values<'a, u64, char>,
        indexset::Keys<'a, u64, char>,
    ),
    (
        indexset::IterMut<'a, u64, char>,
        indexset::ValuesMut<'a, u64, char>,
        indexset::RangeMut<'a, u64, char>,
    ),
);

// The types of the logged family.
pub type Logged<'a> = (
    (
        indexset::concurrent::set::BTreeSet<u64, Vec<u64>>,
        indexset::concurrent::set::Iter<'a, u64, Vec<u64>>,
        indexset::concurrent::set::Range<'a, u64, Vec<u64>>,
    ),
    (
        indexset::concurrent::map::BTreeMap<u64, char, Entries>,
        indexset::concurrent::map::Iter<'a, u64, char, Entries>,
        indexset::concurrent::map::Range<'a, u64, char, Entries>,
    ),
    (
        indexset::concurrent::multimap::BTreeMultiMap<u64, char, Numbered>,
        indexset::concurrent::multimap::Iter<'a, u64, char, Numbered>,
        indexset::concurrent::multimap::RawRange<'a, u64, char, Numbered>,
        indexset::concurrent::multimap::Range<'a, u64, char, Numbered>,
    ),
);

// The nodes of a logged map and of a multimap.
pub type Entries = Vec<indexset::base::pair::Pair<u64, char>>;

pub type Numbered = Vec<indexset::base::multipair::MultiPair<u64, char>>;

// The types of events.
pub type Events = (
    indexset::cdc::change::Id,
    indexset::cdc::change::ChangeEvent<u64>,
    indexset::cdc::change::ChangeEventUnassigned<u64>,
);

// The trait of nodes.
fn longest_node<N: indexset::base::node::NodeLike<u64>>(node: &N) -> usize {
    node.capacity()
}

#[test]
fn each_path_of_the_rust_crate(rt: HostRuntime) -> Result<(), Fail> {
    let sizes = indexset::base::constants::DEFAULT_CUTOFF
        < indexset::base::constants::DEFAULT_INNER_SIZE;
    let room = longest_node(&Vec::<u64>::with_capacity(rt.alloc(), 4)?);
    assert!(rt; sizes && room <= 4);
    Ok(())
}

// Returns whether the values between two bounds are these, in descending order.
fn shows_backwards(range: RangeMap<'_, u64, char>, values: &[char]) -> bool {
    range
        .rev()
        .map(|(_, value)| *value)
        .eq(values.iter().copied())
}

#[test]
fn a_map_and_a_set(rt: HostRuntime) -> Result<(), Fail> {
    let map = BTreeMap::from(
        rt.alloc(),
        vec![in rt.alloc(); (2u64, 'b'), (1, 'a'), (3, 'c')]?,
    )?;
    let bounds = (Bound::Excluded(&1), Bound::Unbounded);
    assert!(rt; bounds_are_ordered(bounds.0, bounds.1));
    let back = shows_backwards(map.range(bounds), &['c', 'b']);
    let size = map.maximum_node_size() == DEFAULT_INNER_SIZE;
    let walk: IterMap<'_, u64, char> = map.iter();
    let three = walk.len() == 3;
    let owned: IntoIterMap<u64, char> = map.into_iter();
    let mut set = BTreeSet::new(rt.alloc())?;
    for (key, value) in owned {
        set.insert(Pair { key, value })
            .map_err(|refused| refused.cause)?;
    }
    assert!(rt; back && size && three && set.len() == 3);
    Ok(())
}

#[test]
fn a_node_and_a_refusal(rt: HostRuntime) -> Result<(), Fail> {
    let node = vec![in rt.alloc(); 1u64, 3]?;
    assert!(rt; NodeLike::max(&node) == Some(&3) && Refusal::Memory.number() == 1);
    Ok(())
}

#[test]
fn a_logged_map_and_a_multimap(rt: HostRuntime) -> Result<(), Fail> {
    let mut prices: map::BTreeMap<u64, char, Vec<Pair<u64, char>>> =
        map::BTreeMap::with_maximum_node_size(rt.alloc(), 4);
    let (old, events) = prices.insert_cdc(1, 'a').map_err(|refused| refused.cause)?;
    assert!(rt; events.len() == 1);
    let created = matches!(&events[0], ChangeEvent::CreateNode { .. });
    let mut copy: Replica<Pair<u64, char>> = Replica::new(rt.alloc(), 0);
    copy.apply(&events[0])?;
    let followed = old.is_none() && created && copy.next() == 1;
    let mut tags: multimap::BTreeMultiMap<u64, char, Vec<MultiPair<u64, char>>> =
        multimap::BTreeMultiMap::with_maximum_node_size(rt.alloc(), 4);
    let added = tags.insert(1, 'a').map_err(|refused| refused.cause)?;
    assert!(rt; followed && added.is_none() && tags.contains_key(&1));
    Ok(())
}
