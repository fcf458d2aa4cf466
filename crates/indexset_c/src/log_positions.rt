//! Positions in a logged map.
ghost use Rattle.std.specs.Prelude.{◌≡◌, Some, None, true, false, drop, length, min};
ghost use Rattle.std.specs.Ordering.{nat_cmp};
ghost use Rattle.indexset_core.specs.Pairs.{key_rank, pair_keys, pair_values};
ghost use Rattle.indexset_ffi.specs.Elements.{entry_at, logged_pairs, written};

use indexset_ffi::log_calls::write_logged;
use indexset_ffi::log_handle::LogHandle;
use indexset_ffi::write::write_pair;
use std::alloc::Global;
use std::ops::Bound;

/// Returns how many pairs have a key that is less than this one.
#[unsafe(no_mangle)]
pub extern "C" fn indexset_log_rank(alloc: Global, log: &mut LogHandle, key: u64) -> usize
    ensures value { result ≡ key_rank nat_cmp (logged_pairs log.old.slot.value) key }
    ensures unchanged { log.new.slot.value ≡ log.old.slot.value }
{
    let Some(held) = log.take(alloc) else {
        return 0;
    };
    let below = held.rank(&key);
    log.put(held);
    below
}

/// Writes the pair at a position, counted from 0. Returns `false` if the position is past the end.
#[unsafe(no_mangle)]
pub extern "C" fn indexset_log_at(
    alloc: Global,
    log: &mut LogHandle,
    position: usize,
    key: &mut u64,
    value: &mut u64,
) -> bool
    // Result.
    ensures found { result ≡ true → entry_at (logged_pairs log.old.slot.value) position
        ≡ Some (key.new, value.new) }
    ensures absent { result ≡ false → entry_at (logged_pairs log.old.slot.value) position ≡ None }
    ensures no_key { result ≡ false → key.new ≡ key.old }
    ensures no_value { result ≡ false → value.new ≡ value.old }

    // Contents.
    ensures unchanged { log.new.slot.value ≡ log.old.slot.value }
{
    let Some(held) = log.take(alloc) else {
        return false;
    };
    let found = match held.get_index(position) {
        Some((k, v)) => Some((*k, *v)),
        None => None,
    };
    log.put(held);
    write_pair(found, key, value)
}

/// Writes as many pairs from a position on as fit, in order. Returns how many it wrote.
#[unsafe(no_mangle)]
pub extern "C" fn indexset_log_range_by_position(
    alloc: Global,
    log: &mut LogHandle,
    from: usize,
    keys: &mut [u64],
    values: &mut [u64],
) -> usize
    ensures count { result ≡ min (length (drop from (logged_pairs log.old.slot.value)))
        (min (length keys.old) (length values.old)) }
    ensures keys { keys.new ≡ written result
        (pair_keys (drop from (logged_pairs log.old.slot.value))) keys.old }
    ensures values { values.new ≡ written result
        (pair_values (drop from (logged_pairs log.old.slot.value))) values.old }
    ensures unchanged { log.new.slot.value ≡ log.old.slot.value }
{
    let Some(held) = log.take(alloc) else {
        return 0;
    };
    let walk = held.range_idx((Bound::Included(from), Bound::Unbounded));
    let count = write_logged(walk, keys, values);
    log.put(held);
    count
}
