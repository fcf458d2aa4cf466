//! The multimap and its iterators.

use super::goes_both_ways;
use indexset::concurrent::multimap::{BTreeMultiMap, Iter, Range, RawRange};
use std::ops::Bound;

type Tags = BTreeMultiMap<u64, char>;

type KeyRange<'a> = (Bound<&'a u64>, Bound<&'a u64>);

#[test]
fn makes_and_reads() {
    let _new = Tags::new;
    let _default = Tags::default;
    let _with_maximum_node_size = Tags::with_maximum_node_size;
    let _contains_key = Tags::contains_key::<&u64>;
    let _get = Tags::get::<&u64>;
    let _raw_get = Tags::raw_get::<&u64>;
    let _len = Tags::len;
    let _capacity = Tags::capacity;
    let _node_count = Tags::node_count;
    let _iter = Tags::iter;
    let _range = Tags::range::<KeyRange<'_>>;
    let _iter_nodes = Tags::iter_nodes;
    goes_both_ways::<Iter<'static, u64, char>>();
    goes_both_ways::<Range<'static, u64, char>>();
    goes_both_ways::<RawRange<'static, u64, char>>();
}

#[test]
fn changes() {
    let _attach_multi_node = Tags::attach_multi_node;
    let _insert = Tags::insert;
    let _insert_cdc = Tags::insert_cdc;
    let _remove_some = Tags::remove_some::<&u64>;
    let _remove_some_cdc = Tags::remove_some_cdc::<&u64>;
    let _remove = Tags::remove::<&u64>;
    let _remove_cdc = Tags::remove_cdc::<&u64>;
}
