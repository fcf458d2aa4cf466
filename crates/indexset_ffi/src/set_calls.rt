//! Bodies of the calls of a set.
ghost use Rattle.std.specs.Prelude.{◌≡◌, ◌<◌, ◌≤◌, IfErr, IfOk, None, OnOk, false, length, map};
ghost use Rattle.std.specs.Prelude.{min, remove, slice_get, slice_index_or, take};
ghost use Rattle.std.specs.List.{AllWithin, fold};
ghost use Rattle.std.specs.Ordering.{nat_cmp};
ghost use Rattle.indexset_core.specs.Order.{IsAscending, has_equal, keep, rank};
ghost use Rattle.indexset_core.specs.Nodes.{node_lengths};
ghost use Rattle.indexset_spine.specs.NodeList.{items};
ghost use Rattle.indexset_ffi.specs.Cursors.{cursor_position};
ghost use Rattle.indexset_ffi.specs.Elements.{count_up_to, element_at, written};

use crate::cursor::{self, Cursor};
use indexset_core::probe::ByItem;
use indexset_core::refusal::Refusal;
use indexset_set::BTreeSet;
use indexset_set::range::Range;
use std::alloc::Global;
use std::ops::Bound;

/// Returns a set of keys that ascend strictly.
///
/// # Errors
///
/// `Unsorted` if they do not, or `Memory`.
pub fn sorted_set(alloc: Global, keys: &[u64]) -> Result<BTreeSet<u64>, Refusal>
    ensures elements { IfOk result (λ s. items s ≡ keys.now) }
    ensures ascending { OnOk result (IsAscending nat_cmp keys.now) }
    ensures memory { IfErr result (λ e. IsAscending nat_cmp keys.now → e ≡ Refusal.Memory) }
{
    let Ok(values) = Vec::from_slice(alloc, keys) else {
        return Err(Refusal::Memory);
    };
    match BTreeSet::from_sorted(alloc, values) {
        Ok(set) => Ok(set),
        Err(refused) => Err(refused.cause),
    }
}

/// Writes as many elements of an iterator as fit, and returns how many it wrote.
pub fn write_each(mut walk: Range<'_, u64>, out: &mut [u64]) -> usize
    ensures count { result ≡ min (length walk.entry) (length out.old) }
    ensures written { out.new ≡ written result walk.entry out.old }
{
    let mut count = 0;
    while count < out.len() {
        let Some(element) = walk.next() else {
            break;
        };
        out[count] = *element;
        count += 1;
    }
    count
}

/// Writes the ranks of as many keys as fit, and returns how many it wrote.
pub fn rank_each(set: &BTreeSet<u64>, keys: &[u64], out: &mut [usize]) -> usize
    ensures count { result ≡ min (length keys.now) (length out.old) }
    ensures written { out.new ≡ written result (map (rank nat_cmp (items set.now)) keys.now)
        out.old }
{
    let count = keys.len().min(out.len());
    for i in 0..count {
        out[i] = set.rank(&keys[i]);
    }
    count
}

/// Inserts each key until an allocation fails, and returns how many keys are present.
pub fn insert_each(set: &mut BTreeSet<u64>, keys: &[u64]) -> usize
    ensures count { result ≤ length keys.now }
    ensures kept { items set.new ≡ fold (keep nat_cmp) (items set.old) (take result keys.now) }
    ensures stop { result < length keys.now → has_equal nat_cmp (items set.new)
        (slice_index_or keys.now result 0) ≡ false }
{
    let mut count = 0;
    while count < keys.len() {
        if set.insert(keys[count]).is_err() {
            break;
        }
        count += 1;
    }
    count
}

/// Writes the element at each position, for as many positions as fit.
///
/// Stops at the first position that is past the end. Returns how many it wrote.
pub fn element_each(set: &BTreeSet<u64>, positions: &[usize], out: &mut [u64]) -> usize
    ensures room { result ≤ min (length positions.now) (length out.old) }
    ensures contains { AllWithin (λ i. i < length (items set.now)) positions.now 0 result }
    ensures stop { result < min (length positions.now) (length out.old)
        → length (items set.now) ≤ slice_index_or positions.now result 0 }
    ensures written { out.new ≡ written result (map (element_at (items set.now)) positions.now)
        out.old }
{
    let room = positions.len().min(out.len());
    let mut count = 0;
    while count < room {
        let Some(element) = set.get_index(positions[count]) else {
            break;
        };
        out[count] = *element;
        count += 1;
    }
    count
}

/// Returns how many elements are at most this key.
pub fn count_to(set: &BTreeSet<u64>, key: u64) -> usize
    ensures { result ≡ count_up_to nat_cmp (items set.now) key }
{
    set.range((Bound::Unbounded, Bound::Included(&key))).len()
}

/// Returns a cursor at the first element that is at least this key, or at the end.
pub fn cursor_from(set: &BTreeSet<u64>, key: u64) -> Cursor
    ensures { cursor_position (node_lengths set.now.nodes) result ≡ rank nat_cmp (items set.now)
        key }
{
    // For the proof: the elements ascend, and no node of several is empty.
    set.len();
    set.node_count();
    cursor::find(set.nodes(), ByItem::new(&key))
}

/// Returns a cursor at a position, or at the end if the position is past it.
pub fn cursor_at(set: &BTreeSet<u64>, position: usize) -> Cursor
    ensures { cursor_position (node_lengths set.now.nodes) result
        ≡ min position (length (items set.now)) }
{
    match set.get_index(position) {
        Some(key) => {
            let near = cursor_from(set, *key);
            cursor::near_to(set.nodes(), near, set.rank(key), position)
        }
        None => cursor::end(set.nodes()),
    }
}

/// Removes the element at a position, and returns it, or `None` if there is none.
pub fn take_index(set: &mut BTreeSet<u64>, position: usize) -> Option<u64>
    ensures value { result ≡ slice_get (items set.old) position }
    ensures rest { items set.new ≡ remove (items set.old) position }
    ensures unchanged { result ≡ None → set.new ≡ set.old }
{
    if position < set.len() {
        Some(set.pop_index(position))
    } else {
        None
    }
}
