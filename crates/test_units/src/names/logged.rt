//! The logged set and map, and their iterators.

use super::{goes_both_ways, is_iterated};
use indexset::base::pair::Pair;
use indexset::concurrent::{map, set};
use std::ops::Bound;

type Set = set::BTreeSet<u64>;

type Map = map::BTreeMap<u64, char>;

type KeyRange<'a> = (Bound<&'a u64>, Bound<&'a u64>);

#[test]
fn a_set_makes_and_reads() {
    let _new = Set::new;
    let _default = Set::default;
    let _with_maximum_node_size = Set::with_maximum_node_size;
    let _from = Set::from;
    let _from_iter = Set::from_iter::<Vec<u64>>;
    let _contains = Set::contains::<&u64>;
    let _get = Set::get::<&u64>;
    let _len = Set::len;
    let _capacity = Set::capacity;
    let _node_count = Set::node_count;
    let _iter = Set::iter;
    let _iter_new = set::Iter::<u64>::new;
    let _range = Set::range::<KeyRange<'_>>;
    let _range_new = set::Range::<u64>::new::<KeyRange<'_>>;
    goes_both_ways::<set::Iter<'static, u64>>();
    goes_both_ways::<set::Range<'static, u64>>();
    is_iterated::<&'static Set>();
}

#[test]
fn a_set_changes() {
    let _attach_node = Set::attach_node;
    let _insert = Set::insert;
    let _put_cdc = Set::put_cdc;
    let _put_cdc_checked = Set::put_cdc_checked;
    let _remove = Set::remove::<&u64>;
    let _remove_cdc = Set::remove_cdc::<&u64>;
    let _remove_range = Set::remove_range::<KeyRange<'_>>;
}

#[test]
fn a_map_makes_and_reads() {
    let _new = Map::new;
    let _default = Map::default;
    let _with_maximum_node_size = Map::with_maximum_node_size;
    let _contains_key = Map::contains_key::<&u64>;
    let _get = Map::get::<&u64>;
    let _len = Map::len;
    let _capacity = Map::capacity;
    let _node_count = Map::node_count;
    let _iter = Map::iter;
    let _range = Map::range::<KeyRange<'_>>;
    let _iter_nodes = Map::iter_nodes;
    goes_both_ways::<map::Iter<'static, u64, char>>();
    goes_both_ways::<map::Range<'static, u64, char>>();
    goes_both_ways::<set::Nodes<'static, Vec<Pair<u64, char>>>>();
}

#[test]
fn a_map_changes() {
    let _attach_node = Map::attach_node;
    let _insert = Map::insert;
    let _checked_insert = Map::checked_insert;
    let _insert_cdc = Map::insert_cdc;
    let _checked_insert_cdc = Map::checked_insert_cdc;
    let _remove = Map::remove::<&u64>;
    let _remove_cdc = Map::remove_cdc::<&u64>;
}
