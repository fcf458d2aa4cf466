//! Look-ups in a replica: by an item, by a key, or by a position.

use crate::item::{Item, Source, Value, read_bound, read_range};
use crate::trees::{copies_before, copies_up_to};
use indexset_core::key_range::{KeyRange, bounds_are_ordered};
use indexset_core::lookup_key::LookupKey;
use indexset_core::multipair::MultiPair;
use indexset_core::pair::Pair;
use indexset_replica::Replica;
use indexset_replica::iter::Iter;
use std::ops::Bound;
use std::str::SplitWhitespace;
use test_script::script::{self, Stop, read, tell, tell_option};

/// What a script looks items up by: an item, or the key of a pair.
pub trait Keyed<T: Item>: Item + LookupKey<T> {
    /// Returns the rank of the key of an item.
    fn rank_of(replica: &Replica<T>, item: &T) -> usize;
}

impl<T: Item> Keyed<T> for T {
    fn rank_of(replica: &Replica<T>, item: &T) -> usize {
        replica.rank(item)
    }
}

impl<V: Value> Keyed<Pair<u64, V>> for u64 {
    fn rank_of(replica: &Replica<Pair<u64, V>>, item: &Pair<u64, V>) -> usize {
        replica.rank(item.key)
    }
}

impl<V: Value> Keyed<MultiPair<u64, V>> for u64 {
    fn rank_of(replica: &Replica<MultiPair<u64, V>>, item: &MultiPair<u64, V>) -> usize {
        replica.rank(item.key)
    }
}

/// Two bounds of keys.
#[derive(Drop)]
struct Between<Q> {
    start: Bound<Q>,
    end: Bound<Q>,
}

impl<T: Ord, Q: LookupKey<T>> KeyRange<T> for Between<Q> {
    type Key = Q;

    ghost start = { λ s. s.start };

    ghost end = { λ s. s.end };

    fn start_bound(&self) -> Bound<&Q> {
        self.start.as_ref()
    }

    fn end_bound(&self) -> Bound<&Q> {
        self.end.as_ref()
    }
}

/// Makes a look-up by an item or by a position.
pub fn seek<T: Item>(
    replica: &Replica<T>,
    source: &Source,
    name: &str,
    words: &mut SplitWhitespace<'_>,
    answer: &mut String,
) -> Result<(), Stop> {
    match name {
        "get_index" => tell_option(answer, replica.get_index(read(words)?)),
        "range_idx" | "range_idx_back" => {
            let range = (script::read_bound(words)?, script::read_bound(words)?);
            tell_items(name == "range_idx_back", answer, replica.range_idx(range))
        }
        "count_before" => {
            let start = read_bound::<T>(source, words)?;
            tell(answer, copies_before(replica, start.as_ref()))
        }
        "count_up_to" => {
            let end = read_bound::<T>(source, words)?;
            tell(answer, copies_up_to(replica, end.as_ref()))
        }
        _ => seek_by::<T, T>(replica, source, name, words, answer),
    }
}

/// Makes a look-up by a key.
pub fn seek_by<T: Item, Q: Keyed<T>>(
    replica: &Replica<T>,
    source: &Source,
    name: &str,
    words: &mut SplitWhitespace<'_>,
    answer: &mut String,
) -> Result<(), Stop> {
    match name {
        "ranks" => tell_ranks::<T, Q>(replica, answer),
        "range" | "range_back" => tell_range::<T, Q>(replica, source, name, words, answer),
        _ => tell_of::<T, Q>(replica, name, Q::read_item(source, words)?, answer),
    }
}

/// Writes what the replica has for a key.
fn tell_of<T: Item, Q: Keyed<T>>(
    replica: &Replica<T>,
    name: &str,
    key: Q,
    answer: &mut String,
) -> Result<(), Stop> {
    match name {
        "get" => tell_option(answer, replica.get(key)),
        "contains" => tell(answer, replica.contains(key)),
        "rank" => tell(answer, replica.rank(key)),
        "index_of" => tell_option(answer, replica.index_of(key)),
        "count_of" => tell(answer, replica.count(key)),
        _ => Err(Stop::NoCall),
    }
}

/// Writes the rank of the key of each item.
fn tell_ranks<T: Item, Q: Keyed<T>>(replica: &Replica<T>, answer: &mut String) -> Result<(), Stop> {
    for item in replica {
        tell(answer, Q::rank_of(replica, item))?;
    }
    Ok(())
}

fn tell_range<T: Item, Q: Keyed<T>>(
    replica: &Replica<T>,
    source: &Source,
    name: &str,
    words: &mut SplitWhitespace<'_>,
    answer: &mut String,
) -> Result<(), Stop> {
    let (start, end) = read_range::<Q>(source, words)?;
    if !bounds_are_ordered(start.as_ref(), end.as_ref()) {
        return Err(Stop::NoCall);
    }
    let items = replica.range(Between { start, end });
    tell_items(name == "range_back", answer, items)
}

/// Writes items, in ascending or descending order.
fn tell_items<T: Item>(is_back: bool, answer: &mut String, items: Iter<'_, T>) -> Result<(), Stop> {
    if is_back {
        for item in items.rev() {
            tell(answer, item)?;
        }
    } else {
        for item in items {
            tell(answer, item)?;
        }
    }
    Ok(())
}
