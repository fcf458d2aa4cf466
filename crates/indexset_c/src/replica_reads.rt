//! Look-ups in a replica.
ghost use Rattle.std.specs.Prelude.{◌≡◌, ◌<◌, ◌≤◌, ◌-◌, None, Some, false, true, length, min};
ghost use Rattle.std.specs.Ordering.{nat_cmp};
ghost use Rattle.std.specs.declared.ops.Bound.TheVariants.{Included};
ghost use Rattle.indexset_core.specs.Nodes.{node_lengths};
ghost use Rattle.indexset_core.specs.Pairs.{has_key, pair_keys, pair_values};
ghost use Rattle.indexset_core.specs.Pairs.{pairs_within, value_of};
ghost use Rattle.indexset_ffi.specs.Elements.{entry_at, written};
ghost use Rattle.indexset_ffi.specs.Replicas.{copied_nodes, copied_pairs};

use indexset_ffi::replica_calls::{sought, write_copied, write_lengths};
use indexset_ffi::replica_handle::ReplicaHandle;
use indexset_ffi::write::{write, write_pair};
use std::alloc::Global;
use std::ops::Bound;

/// Writes the value of a key. Returns `false` if the key is absent.
#[unsafe(no_mangle)]
pub extern "C" fn indexset_replica_get(
    alloc: Global,
    replica: &mut ReplicaHandle,
    key: u64,
    out: &mut u64,
) -> bool
    ensures found { result ≡ true → value_of nat_cmp (copied_pairs replica.old.slot.value) key
        ≡ Some out.new }
    ensures absent { result ≡ false → value_of nat_cmp (copied_pairs replica.old.slot.value) key
        ≡ None }
    ensures unwritten { result ≡ false → out.new ≡ out.old }
    ensures unchanged { replica.new.slot.value ≡ replica.old.slot.value }
{
    let Some(held) = replica.take(alloc) else {
        return false;
    };
    let found = match held.get(&sought(key)) {
        Some(pair) => Some(pair.value),
        None => None,
    };
    replica.put(held);
    write(found, out)
}

/// Returns whether a key is present.
#[unsafe(no_mangle)]
pub extern "C" fn indexset_replica_contains(
    alloc: Global,
    replica: &mut ReplicaHandle,
    key: u64,
) -> bool
    ensures value { result ≡ has_key nat_cmp (copied_pairs replica.old.slot.value) key }
    ensures unchanged { replica.new.slot.value ≡ replica.old.slot.value }
{
    let Some(held) = replica.take(alloc) else {
        return false;
    };
    let found = held.contains(&sought(key));
    replica.put(held);
    found
}

/// Writes the pair of the least key. Returns `false` if there is none.
#[unsafe(no_mangle)]
pub extern "C" fn indexset_replica_first(
    alloc: Global,
    replica: &mut ReplicaHandle,
    key: &mut u64,
    value: &mut u64,
) -> bool
    // Result.
    ensures found { result ≡ true → entry_at (copied_pairs replica.old.slot.value) 0
        ≡ Some (key.new, value.new) }
    ensures absent { result ≡ false → entry_at (copied_pairs replica.old.slot.value) 0 ≡ None }
    ensures no_key { result ≡ false → key.new ≡ key.old }
    ensures no_value { result ≡ false → value.new ≡ value.old }

    // Contents.
    ensures unchanged { replica.new.slot.value ≡ replica.old.slot.value }
{
    let Some(held) = replica.take(alloc) else {
        return false;
    };
    let found = match held.first() {
        Some(pair) => Some((pair.key, pair.value)),
        None => None,
    };
    replica.put(held);
    write_pair(found, key, value)
}

/// Writes the pair of the greatest key. Returns `false` if there is none.
#[unsafe(no_mangle)]
pub extern "C" fn indexset_replica_last(
    alloc: Global,
    replica: &mut ReplicaHandle,
    key: &mut u64,
    value: &mut u64,
) -> bool
    // Result.
    ensures found { result ≡ true → entry_at (copied_pairs replica.old.slot.value)
        (length (copied_pairs replica.old.slot.value) - 1) ≡ Some (key.new, value.new) }
    ensures absent { result ≡ false → entry_at (copied_pairs replica.old.slot.value)
        (length (copied_pairs replica.old.slot.value) - 1) ≡ None }
    ensures no_key { result ≡ false → key.new ≡ key.old }
    ensures no_value { result ≡ false → value.new ≡ value.old }

    // Contents.
    ensures unchanged { replica.new.slot.value ≡ replica.old.slot.value }
{
    let Some(held) = replica.take(alloc) else {
        return false;
    };
    let found = match held.last() {
        Some(pair) => Some((pair.key, pair.value)),
        None => None,
    };
    replica.put(held);
    write_pair(found, key, value)
}

/// Writes the number of pairs of each node, for as many nodes as fit, in order.
///
/// Returns how many it wrote.
#[unsafe(no_mangle)]
pub extern "C" fn indexset_replica_node_lengths(
    alloc: Global,
    replica: &mut ReplicaHandle,
    out: &mut [usize],
) -> usize
    ensures count { result ≡ min (length (copied_nodes replica.old.slot.value)) (length out.old) }
    ensures written { out.new ≡ written result (node_lengths (copied_nodes replica.old.slot.value))
        out.old }
    ensures unchanged { replica.new.slot.value ≡ replica.old.slot.value }
{
    let Some(held) = replica.take(alloc) else {
        return 0;
    };
    let count = write_lengths(held.nodes(), out);
    replica.put(held);
    count
}

/// Writes as many pairs with keys from `low` to `high`, both included, as fit, in order.
///
/// Returns how many it wrote.
#[unsafe(no_mangle)]
pub extern "C" fn indexset_replica_range(
    alloc: Global,
    replica: &mut ReplicaHandle,
    low: u64,
    high: u64,
    keys: &mut [u64],
    values: &mut [u64],
) -> usize
    // Result.
    ensures count { low ≤ high → result ≡ min
        (length (pairs_within nat_cmp (copied_pairs replica.old.slot.value) (Included low)
        (Included high))) (min (length keys.old) (length values.old)) }
    ensures keys { low ≤ high → keys.new ≡ written result
        (pair_keys (pairs_within nat_cmp (copied_pairs replica.old.slot.value) (Included low)
        (Included high))) keys.old }
    ensures values { low ≤ high → values.new
        ≡ written result (pair_values (pairs_within nat_cmp (copied_pairs replica.old.slot.value)
        (Included low) (Included high))) values.old }
    ensures none { high < low → result ≡ 0 }
    ensures no_keys { high < low → keys.new ≡ keys.old }
    ensures no_values { high < low → values.new ≡ values.old }

    // Contents.
    ensures unchanged { replica.new.slot.value ≡ replica.old.slot.value }
{
    if high < low {
        return 0;
    }
    let Some(held) = replica.take(alloc) else {
        return 0;
    };
    let first = sought(low);
    let last = sought(high);
    let walk = held.range((Bound::Included(&first), Bound::Included(&last)));
    let count = write_copied(walk, keys, values);
    replica.put(held);
    count
}
