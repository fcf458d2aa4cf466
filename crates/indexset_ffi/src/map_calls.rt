//! Bodies of the calls of a map.
ghost use Rattle.std.specs.Prelude.{◌≡◌, ◌<◌, ◌≤◌, None, length, map, min, remove, slice_get, take};
ghost use Rattle.std.specs.Option.{option_map};
ghost use Rattle.std.specs.Ordering.{nat_cmp};
ghost use Rattle.std.specs.declared.ops.Bound.TheVariants.{Included, Excluded, Unbounded};
ghost use Rattle.indexset_core.specs.Pairs.{entry_of, key_rank, pair_keys};
ghost use Rattle.indexset_core.specs.Pairs.{pair_values, pairs_within};
ghost use Rattle.indexset_ffi.specs.Cursors.{cursor_position};
ghost use Rattle.indexset_ffi.specs.Elements.{entry_at, key_count_up_to};
ghost use Rattle.indexset_ffi.specs.Elements.{put_in_turn, value_or, written};

use crate::cursor::{self, Cursor};
use indexset_core::probe::ByKey;
use indexset_map::{BTreeMap, RangeMap};
use std::ops::Bound;

/// Puts each key and value until an allocation fails, and returns how many were put.
#[tactic(auto, unfolding(crate::specs::Elements::put_in_turn))]
pub fn put_each(map: &mut BTreeMap<u64, u64>, keys: &[u64], values: &[u64]) -> usize
    ensures count { result ≤ min (length keys.now) (length values.now) }
    ensures put { map.new.pairs ≡ put_in_turn map.old.pairs (take result keys.now)
        (take result values.now) }
{
    let room = keys.len().min(values.len());
    let mut count = 0;
    while count < room {
        if map.insert(keys[count], values[count]).is_err() {
            break;
        }
        count += 1;
    }
    count
}

/// Writes the value of each key, or `absent`, for as many keys as fit, and returns how many it
/// wrote.
pub fn value_each(held: &BTreeMap<u64, u64>, keys: &[u64], absent: u64, out: &mut [u64]) -> usize
    ensures count { result ≡ min (length keys.now) (length out.old) }
    ensures written { out.new ≡ written result (map (value_or held.now.pairs absent) keys.now)
        out.old }
{
    let count = keys.len().min(out.len());
    for i in 0..count {
        out[i] = held.get(&keys[i]).copied().unwrap_or(absent);
    }
    count
}

/// Writes as many pairs of an iterator as fit in both slices, and returns how many it wrote.
pub fn write_pairs(mut walk: RangeMap<'_, u64, u64>, keys: &mut [u64], values: &mut [u64]) -> usize
    ensures count { result ≡ min (length walk.entry) (min (length keys.old) (length values.old)) }
    ensures keys { keys.new ≡ written result (pair_keys walk.entry) keys.old }
    ensures values { values.new ≡ written result (pair_values walk.entry) values.old }
{
    let room = keys.len().min(values.len());
    let mut count = 0;
    while count < room {
        let Some((key, value)) = walk.next() else {
            break;
        };
        keys[count] = *key;
        values[count] = *value;
        count += 1;
    }
    count
}

/// Returns the first pair whose key is at least `from`, or `None` if there is none.
pub fn first_from(map: &BTreeMap<u64, u64>, from: u64) -> Option<(u64, u64)>
    ensures { result ≡ entry_at (pairs_within nat_cmp map.now.pairs (Included from) Unbounded) 0 }
{
    let (key, value) = map
        .range((Bound::Included(&from), Bound::Unbounded))
        .next()?;
    Some((*key, *value))
}

/// Returns the first pair whose key is greater than `from`, or `None` if there is none.
pub fn first_past(map: &BTreeMap<u64, u64>, from: u64) -> Option<(u64, u64)>
    ensures { result ≡ entry_at (pairs_within nat_cmp map.now.pairs (Excluded from) Unbounded) 0 }
{
    let (key, value) = map
        .range((Bound::Excluded(&from), Bound::Unbounded))
        .next()?;
    Some((*key, *value))
}

/// Returns how many keys are at most this one.
pub fn count_to(map: &BTreeMap<u64, u64>, key: u64) -> usize
    ensures { result ≡ key_count_up_to nat_cmp map.now.pairs key }
{
    map.range((Bound::Unbounded, Bound::Included(&key))).len()
}

/// Returns a cursor at the first pair whose key is at least `from`, or at the end.
pub fn cursor_from(map: &BTreeMap<u64, u64>, from: u64) -> Cursor
    ensures { cursor_position map.now.lengths result ≡ key_rank nat_cmp map.now.pairs from }
{
    // For the proof: the keys ascend, and no node of several is empty.
    map.node_count();
    cursor::find(map.nodes(), ByKey::new(&from))
}

/// Returns a cursor at a position, or at the end if the position is past it.
pub fn cursor_at(map: &BTreeMap<u64, u64>, position: usize) -> Cursor
    ensures { cursor_position map.now.lengths result ≡ min position (length map.now.pairs) }
{
    match map.get_index(position) {
        Some((key, _)) => {
            let near = cursor_from(map, *key);
            cursor::near_to(map.nodes(), near, map.rank(key), position)
        }
        None => cursor::end(map.nodes()),
    }
}

/// Removes the pair at a position, and returns it, or `None` if there is none.
pub fn take_index<K: Ord + Drop, V: Drop>(
    map: &mut BTreeMap<K, V>,
    position: usize,
) -> Option<(K, V)>
    ensures value { result ≡ option_map entry_of (slice_get map.old.pairs position) }
    ensures rest { map.new.pairs ≡ remove map.old.pairs position }
    ensures unchanged { result ≡ None → map.new ≡ map.old }
{
    if position < map.len() {
        Some(map.pop_index(position))
    } else {
        None
    }
}
