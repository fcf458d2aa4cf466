//! Calls that the library adds to those of the crate.

use super::goes_both_ways;
use indexset::base::array_node::ArrayNode;
use indexset::base::key_range::bounds_are_ordered;
use indexset::base::node::NodeLike;
use indexset::base::pair::Pair;
use indexset::base::probe::{ByItem, ByKey, Counting, Probe};
use indexset::base::refusal::{Refusal, Refused};
use indexset::base::search::{first_greater, first_not_less};
use indexset::concurrent::{map, multimap, set};
use indexset::replica::Replica;
use indexset::{BTreeMap, BTreeSet};
use indexset_bench::command_run::Run;
use indexset_bench::logged::Logged;
use indexset_bench::logged::map::LoggedMapCommand;
use indexset_bench::logged::multimap::LoggedMultiCommand;
use indexset_bench::logged::set::LoggedSetCommand;
use indexset_bench::logged_run::{LogRun, run_logged};
use indexset_bench::map_run::{MapCommand, run_map};
use indexset_bench::set_run::{SetCommand, SetReply, run_set};
use indexset_bench::{RunFault, run};
use indexset_core::item_iter::OfVec;
use indexset_core::steps::Steps;
use indexset_index::fenwick::Fenwick;
use indexset_index::fenwick::cells::{Cells, IndexCells};
use indexset_index::fenwick::sums::{find_in, prefix_in};
use indexset_spine::spine::Spine;
use indexset_spine::spot::Spot;
use std::collections::VecDeque;

type ByNumber<'a> = ByItem<'a, u64>;

type Set = set::BTreeSet<u64>;

type Map = map::BTreeMap<u64, char>;

type Tags = multimap::BTreeMultiMap<u64, char>;

type Prices = BTreeSet<Pair<u64, char>>;

fn is_node<N: NodeLike<u64>>() {}

fn is_logged<L: Logged>() {}

fn parts(refused: Refused<u64>) -> (u64, Refusal) {
    let Refused { value, cause } = refused;
    (value, cause)
}

#[test]
fn refusals_and_probes() {
    let _number = Refusal::number;
    let _parts = parts;
    let _bounds_are_ordered = bounds_are_ordered::<u64>;
    let _steps = Steps::new;
    let _tick = Steps::tick;
    let _by_item = ByItem::<u64>::new;
    let _by_key = ByKey::<u64>::new;
    let _counting = Counting::<ByNumber<'_>>::new;
    let _asked = Counting::<ByNumber<'_>>::asked;
    let _place = <ByNumber<'static> as Probe<u64>>::place;
    let _first_not_less = first_not_less::<u64, ByNumber<'_>>;
    let _first_greater = first_greater::<u64, ByNumber<'_>>;
}

#[test]
fn nodes() {
    let _limit = <Vec<u64> as NodeLike<u64>>::limit;
    let _reserve_one = <Vec<u64> as NodeLike<u64>>::reserve_one;
    let _reserve = <Vec<u64> as NodeLike<u64>>::reserve;
    let _absorb = <Vec<u64> as NodeLike<u64>>::absorb;
    let _insert_at = <Vec<u64> as NodeLike<u64>>::insert_at;
    let _remove_at = <Vec<u64> as NodeLike<u64>>::remove_at;
    let _first_not_less = <Vec<u64> as NodeLike<u64>>::first_not_less::<ByNumber<'_>>;
    let _first_greater = <Vec<u64> as NodeLike<u64>>::first_greater::<ByNumber<'_>>;
    is_node::<ArrayNode<u64, 4>>();
    let _numbered = Pair::<u64, char>::numbered;
}

fn place(spot: &Spot) -> (usize, usize, bool) {
    (spot.node, spot.offset, spot.found)
}

#[test]
fn an_index_and_a_spine() {
    let _from_lengths = Fenwick::from_lengths;
    let _reserve_one = Fenwick::reserve_one;
    let _add = Fenwick::add;
    let _sub = Fenwick::sub;
    let _rebuild = Fenwick::rebuild::<u64, Vec<u64>, OfVec>;
    let _cells = Fenwick::cells;
    let _count = <IndexCells<'static> as Cells>::count;
    let _read = <IndexCells<'static> as Cells>::read;
    let _prefix_in = prefix_in::<IndexCells<'_>>;
    let _find_in = find_in::<IndexCells<'_>>;
    let _new = Spine::<u64>::new;
    let _locate_by = Spine::<u64>::locate_by::<ByNumber<'_>>;
    let _place = place;
    let _position = Spine::<u64>::position;
    let _spot = Spine::<u64>::spot;
    let _get = Spine::<u64>::get;
    let _get_mut = Spine::<u64>::get_mut;
    let _insert = Spine::<u64>::insert;
    let _insert_from = Spine::<u64>::insert_from;
    let _clone = Spine::<u64>::clone;
    let _remove = Spine::<u64>::remove;
    let _replace = Spine::<u64>::replace;
    let _split_off = Spine::<u64>::split_off;
    let _clear = Spine::<u64>::clear;
    let _iter = Spine::<u64>::iter;
    let _iter_between = Spine::<u64>::iter_between;
}

fn keeps_low(prices: &mut Prices) {
    prices.retain_pairs(|key, _| *key < 5);
}

#[test]
fn the_plain_family() {
    let _node_count = BTreeSet::<u64>::node_count;
    let _maximum_node_size = BTreeSet::<u64>::maximum_node_size;
    let _locate_by = BTreeSet::<u64>::locate_by::<ByNumber<'_>>;
    let _split_off_index = BTreeSet::<u64>::split_off_index;
    let _cursor_at = BTreeSet::<u64>::cursor_at;
    let _value_mut = Prices::value_mut;
    let _pair_mut = Prices::pair_mut;
    let _retain_pairs = keeps_low;
    let _map_node_count = BTreeMap::<u64, char>::node_count;
}

#[test]
fn the_logged_family() {
    let _starting_at = Set::starting_at;
    let _put = Set::put;
    let _remove_at = Set::remove_at;
    let _remove_at_cdc = Set::remove_at_cdc;
    let _range_between = Set::range_between;
    let _iter_nodes = Set::iter_nodes;
    let _events_issued = Set::events_issued;
    let _maximum_node_size = Set::maximum_node_size;
    let _locate_by = Set::locate_by::<ByNumber<'_>>;
    let _map_starting_at = Map::starting_at;
    let _map_events_issued = Map::events_issued;
    let _multimap_starting_at = Tags::starting_at;
    let _multimap_events_issued = Tags::events_issued;
    goes_both_ways::<set::Nodes<'static, Vec<u64>>>();
}

#[test]
fn a_replica() {
    let _new = Replica::<u64>::new;
    let _attach = Replica::<u64>::attach;
    let _apply = Replica::<u64>::apply;
    let _nodes = Replica::<u64>::nodes;
    let _contains = Replica::<u64>::contains::<&u64>;
    let _next = Replica::<u64>::next;
    let _follow = Replica::<u64>::follow;
}

fn is_done(run: &Run<SetReply<u64>>) -> bool {
    run.refused.is_none() || run.replies.is_empty()
}

fn is_whole(run: &LogRun<Set>) -> bool {
    run.replies.len() <= run.events.len() && run.refused.is_none()
}

#[test]
fn runs() {
    let _run_set = run_set::<u64>;
    let _run_map = run_map::<u64, char>;
    let _run_logged = run_logged::<Set>;
    let _is_done = is_done;
    let _is_whole = is_whole;
    let _status = RunFault::status;
    let _word = RunFault::word;
    let _run = run::<VecDeque<u8>, VecDeque<u8>>;
    is_logged::<Set>();
    is_logged::<Map>();
    is_logged::<Tags>();
}

#[test]
fn commands() {
    let _set = SetCommand::<u64>::LowerBound;
    let _map = MapCommand::<u64, char>::RemoveEntry;
    let _logged_set = LoggedSetCommand::<u64>::PutChecked;
    let _logged_map = LoggedMapCommand::<u64, char>::CheckedInsert;
    let _multimap = LoggedMultiCommand::<u64, char>::RemoveSome;
}
