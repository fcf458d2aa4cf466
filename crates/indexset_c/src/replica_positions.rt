//! Positions in a replica.
ghost use Rattle.std.specs.Prelude.{◌≡◌, Some, None, true, false, drop, length, min};
ghost use Rattle.std.specs.Ordering.{nat_cmp};
ghost use Rattle.indexset_core.specs.Pairs.{key_rank, pair_keys, pair_values};
ghost use Rattle.indexset_ffi.specs.Elements.{entry_at, written};
ghost use Rattle.indexset_ffi.specs.Replicas.{copied_pairs};

use indexset_ffi::replica_calls::write_copied;
use indexset_ffi::replica_handle::ReplicaHandle;
use indexset_ffi::write::write_pair;
use std::alloc::Global;
use std::ops::Bound;

/// Returns how many pairs have a key that is less than this one.
#[unsafe(no_mangle)]
pub extern "C" fn indexset_replica_rank(
    alloc: Global,
    replica: &mut ReplicaHandle,
    key: u64,
) -> usize
    ensures value { result ≡ key_rank nat_cmp (copied_pairs replica.old.slot.value) key }
    ensures unchanged { replica.new.slot.value ≡ replica.old.slot.value }
{
    let Some(held) = replica.take(alloc) else {
        return 0;
    };
    let below = held.rank(&key);
    replica.put(held);
    below
}

/// Writes the pair at a position, counted from 0. Returns `false` if the position is past the end.
#[unsafe(no_mangle)]
pub extern "C" fn indexset_replica_at(
    alloc: Global,
    replica: &mut ReplicaHandle,
    position: usize,
    key: &mut u64,
    value: &mut u64,
) -> bool
    // Result.
    ensures found { result ≡ true → entry_at (copied_pairs replica.old.slot.value) position
        ≡ Some (key.new, value.new) }
    ensures absent { result ≡ false → entry_at (copied_pairs replica.old.slot.value) position
        ≡ None }
    ensures no_key { result ≡ false → key.new ≡ key.old }
    ensures no_value { result ≡ false → value.new ≡ value.old }

    // Contents.
    ensures unchanged { replica.new.slot.value ≡ replica.old.slot.value }
{
    let Some(held) = replica.take(alloc) else {
        return false;
    };
    let found = match held.get_index(position) {
        Some(pair) => Some((pair.key, pair.value)),
        None => None,
    };
    replica.put(held);
    write_pair(found, key, value)
}

/// Writes as many pairs from a position on as fit, in order. Returns how many it wrote.
#[unsafe(no_mangle)]
pub extern "C" fn indexset_replica_range_by_position(
    alloc: Global,
    replica: &mut ReplicaHandle,
    from: usize,
    keys: &mut [u64],
    values: &mut [u64],
) -> usize
    ensures count { result ≡ min (length (drop from (copied_pairs replica.old.slot.value)))
        (min (length keys.old) (length values.old)) }
    ensures keys { keys.new ≡ written result
        (pair_keys (drop from (copied_pairs replica.old.slot.value))) keys.old }
    ensures values { values.new ≡ written result
        (pair_values (drop from (copied_pairs replica.old.slot.value))) values.old }
    ensures unchanged { replica.new.slot.value ≡ replica.old.slot.value }
{
    let Some(held) = replica.take(alloc) else {
        return 0;
    };
    let walk = held.range_idx((Bound::Included(from), Bound::Unbounded));
    let count = write_copied(walk, keys, values);
    replica.put(held);
    count
}
