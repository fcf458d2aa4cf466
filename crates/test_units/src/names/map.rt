//! The plain map, its iterators, its entries and its cursor.

use super::{goes_both_ways, is_indexed, is_iterated, is_ordered};
use indexset::{
    BTreeMap, CursorMap, Entry, IntoIterMap, IntoKeys, IntoValues, IterMap, IterMut, Keys,
    OccupiedEntry, RangeMap, RangeMut, VacantEntry, Values, ValuesMut,
};
use std::ops::Bound;

type KeyRange<'a> = (Bound<&'a u64>, Bound<&'a u64>);

type Places = (Bound<usize>, Bound<usize>);

#[test]
fn makes_and_reads() {
    let _new = BTreeMap::<u64, char>::new;
    let _default = BTreeMap::<u64, char>::default;
    let _with_maximum_node_size = BTreeMap::<u64, char>::with_maximum_node_size;
    let _from = BTreeMap::<u64, char>::from::<Vec<(u64, char)>>;
    let _from_iter = BTreeMap::<u64, char>::from_iter::<Vec<(u64, char)>>;
    let _clone = BTreeMap::<u64, char>::clone;
    let _contains_key = BTreeMap::<u64, char>::contains_key::<&u64>;
    let _get = BTreeMap::<u64, char>::get::<&u64>;
    let _get_index = BTreeMap::<u64, char>::get_index;
    let _get_key_value = BTreeMap::<u64, char>::get_key_value::<&u64>;
    let _first_key_value = BTreeMap::<u64, char>::first_key_value;
    let _last_key_value = BTreeMap::<u64, char>::last_key_value;
    let _rank = BTreeMap::<u64, char>::rank::<&u64>;
    let _len = BTreeMap::<u64, char>::len;
    let _is_empty = BTreeMap::<u64, char>::is_empty;
    is_indexed::<&'static u64, BTreeMap<u64, char>>();
    is_ordered::<BTreeMap<u64, char>>();
}

fn keeps_low(map: &mut BTreeMap<u64, char>) {
    map.retain(|key, _| *key < 5);
}

#[test]
fn changes() {
    let _append = BTreeMap::<u64, char>::append;
    let _clear = BTreeMap::<u64, char>::clear;
    let _get_mut = BTreeMap::<u64, char>::get_mut::<&u64>;
    let _get_mut_index = BTreeMap::<u64, char>::get_mut_index;
    let _insert = BTreeMap::<u64, char>::insert;
    let _pop_first = BTreeMap::<u64, char>::pop_first;
    let _pop_index = BTreeMap::<u64, char>::pop_index;
    let _pop_last = BTreeMap::<u64, char>::pop_last;
    let _remove = BTreeMap::<u64, char>::remove::<&u64>;
    let _remove_entry = BTreeMap::<u64, char>::remove_entry::<&u64>;
    let _split_off = BTreeMap::<u64, char>::split_off::<&u64>;
    let _retain = keeps_low;
}

#[test]
fn walks() {
    let _iter = BTreeMap::<u64, char>::iter;
    let _keys = BTreeMap::<u64, char>::keys;
    let _values = BTreeMap::<u64, char>::values;
    let _into_keys = BTreeMap::<u64, char>::into_keys;
    let _into_values = BTreeMap::<u64, char>::into_values;
    let _range = BTreeMap::<u64, char>::range::<KeyRange<'_>>;
    let _range_idx = BTreeMap::<u64, char>::range_idx::<Places>;
    goes_both_ways::<IterMap<'static, u64, char>>();
    goes_both_ways::<IntoIterMap<u64, char>>();
    goes_both_ways::<IntoKeys<u64, char>>();
    goes_both_ways::<IntoValues<u64, char>>();
    goes_both_ways::<RangeMap<'static, u64, char>>();
    goes_both_ways::<Values<'static, u64, char>>();
    goes_both_ways::<Keys<'static, u64, char>>();
    is_iterated::<&'static BTreeMap<u64, char>>();
    is_iterated::<BTreeMap<u64, char>>();
}

#[test]
fn walks_that_lend() {
    let _iter_mut = BTreeMap::<u64, char>::iter_mut;
    let _values_mut = BTreeMap::<u64, char>::values_mut;
    let _range_mut = BTreeMap::<u64, char>::range_mut::<KeyRange<'_>>;
    let _range_mut_idx = BTreeMap::<u64, char>::range_mut_idx::<Places>;
    let _next = IterMut::<u64, char>::next;
    let _next_back = IterMut::<u64, char>::next_back;
    let _next_value = ValuesMut::<u64, char>::next;
    let _next_value_back = ValuesMut::<u64, char>::next_back;
    let _next_of_a_range = RangeMut::<u64, char>::next;
    let _next_of_a_range_back = RangeMut::<u64, char>::next_back;
}

#[test]
fn entries() {
    let _entry = BTreeMap::<u64, char>::entry;
    let _first_entry = BTreeMap::<u64, char>::first_entry;
    let _last_entry = BTreeMap::<u64, char>::last_entry;
    let _key = Entry::<u64, char>::key;
    let _or_insert = Entry::<u64, char>::or_insert;
    let _or_default = Entry::<u64, char>::or_default;
    let _occupied_key = OccupiedEntry::<u64, char>::key;
    let _occupied_get = OccupiedEntry::<u64, char>::get;
    let _occupied_get_mut = OccupiedEntry::<u64, char>::get_mut;
    let _occupied_into_mut = OccupiedEntry::<u64, char>::into_mut;
    let _occupied_insert = OccupiedEntry::<u64, char>::insert;
    let _occupied_remove = OccupiedEntry::<u64, char>::remove;
    let _occupied_remove_entry = OccupiedEntry::<u64, char>::remove_entry;
    let _vacant_key = VacantEntry::<u64, char>::key;
    let _vacant_into_key = VacantEntry::<u64, char>::into_key;
    let _vacant_insert = VacantEntry::<u64, char>::insert;
}

// The calls of an entry that take a closure.
fn fills(map: &mut BTreeMap<u64, char>) {
    let modified = map.entry(1).and_modify(|value| *value = 'b');
    let _ = modified.or_insert_with(|| 'a');
    let _ = map.entry(2).or_insert_with_key(|_| 'a');
}

#[test]
fn entries_that_call() {
    let _fills = fills;
}

#[test]
fn a_cursor() {
    let _lower_bound = BTreeMap::<u64, char>::lower_bound::<&u64>;
    let _move_next = CursorMap::<u64, char>::move_next;
    let _move_prev = CursorMap::<u64, char>::move_prev;
    let _move_index = CursorMap::<u64, char>::move_index;
    let _key = CursorMap::<u64, char>::key;
    let _value = CursorMap::<u64, char>::value;
    let _key_value = CursorMap::<u64, char>::key_value;
    let _peek_next = CursorMap::<u64, char>::peek_next;
    let _peek_prev = CursorMap::<u64, char>::peek_prev;
    let _peek_index = CursorMap::<u64, char>::peek_index;
}
