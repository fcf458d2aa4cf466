//! The plain set, its iterators, its algebra and its cursor.

use super::{goes_both_ways, goes_forward, is_indexed, is_iterated, is_ordered};
use indexset::{
    BTreeSet, Cursor, Difference, Intersection, IntoIter, Iter, Range, SymmetricDifference, Union,
};
use std::ops::Bound;

type Keys<'a> = (Bound<&'a u64>, Bound<&'a u64>);

type Places = (Bound<usize>, Bound<usize>);

#[test]
fn makes_and_reads() {
    let _new = BTreeSet::<u64>::new;
    let _default = BTreeSet::<u64>::default;
    let _with_maximum_node_size = BTreeSet::<u64>::with_maximum_node_size;
    let _from = BTreeSet::<u64>::from::<Vec<u64>>;
    let _from_iter = BTreeSet::<u64>::from_iter::<Vec<u64>>;
    let _clone = BTreeSet::<u64>::clone;
    let _get = BTreeSet::<u64>::get::<&u64>;
    let _get_index = BTreeSet::<u64>::get_index;
    let _lower_bound = BTreeSet::<u64>::lower_bound::<&u64>;
    let _contains = BTreeSet::<u64>::contains::<&u64>;
    let _rank = BTreeSet::<u64>::rank::<&u64>;
    let _first = BTreeSet::<u64>::first;
    let _last = BTreeSet::<u64>::last;
    let _len = BTreeSet::<u64>::len;
    let _is_empty = BTreeSet::<u64>::is_empty;
    let _is_subset = BTreeSet::<u64>::is_subset;
    let _is_superset = BTreeSet::<u64>::is_superset;
    let _is_disjoint = BTreeSet::<u64>::is_disjoint;
}

fn keeps_low(set: &mut BTreeSet<u64>) {
    set.retain(|number| *number < 5);
}

#[test]
fn changes() {
    let _insert = BTreeSet::<u64>::insert;
    let _replace = BTreeSet::<u64>::replace;
    let _remove = BTreeSet::<u64>::remove::<&u64>;
    let _take = BTreeSet::<u64>::take::<&u64>;
    let _pop_first = BTreeSet::<u64>::pop_first;
    let _pop_last = BTreeSet::<u64>::pop_last;
    let _pop_index = BTreeSet::<u64>::pop_index;
    let _clear = BTreeSet::<u64>::clear;
    let _split_off = BTreeSet::<u64>::split_off::<&u64>;
    let _append = BTreeSet::<u64>::append;
    let _retain = keeps_low;
}

#[test]
fn walks() {
    let _iter = BTreeSet::<u64>::iter;
    let _iter_new = Iter::<u64>::new;
    let _range = BTreeSet::<u64>::range::<Keys<'_>>;
    let _range_idx = BTreeSet::<u64>::range_idx::<Places>;
    let _union = BTreeSet::<u64>::union;
    let _difference = BTreeSet::<u64>::difference;
    let _symmetric_difference = BTreeSet::<u64>::symmetric_difference;
    let _intersection = BTreeSet::<u64>::intersection;
    goes_both_ways::<Iter<'static, u64>>();
    goes_both_ways::<IntoIter<u64>>();
    goes_both_ways::<Range<'static, u64>>();
    goes_forward::<Union<'static, u64>>();
    goes_forward::<Difference<'static, u64>>();
    goes_forward::<SymmetricDifference<'static, u64>>();
    goes_forward::<Intersection<'static, u64>>();
    is_iterated::<&'static BTreeSet<u64>>();
    is_iterated::<BTreeSet<u64>>();
    is_indexed::<usize, BTreeSet<u64>>();
    is_ordered::<BTreeSet<u64>>();
}

#[test]
fn a_cursor() {
    let _move_next = Cursor::<u64>::move_next;
    let _move_prev = Cursor::<u64>::move_prev;
    let _move_index = Cursor::<u64>::move_index;
    let _item = Cursor::<u64>::item;
    let _peek_next = Cursor::<u64>::peek_next;
    let _peek_prev = Cursor::<u64>::peek_prev;
    let _peek_index = Cursor::<u64>::peek_index;
}
