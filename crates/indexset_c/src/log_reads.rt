//! Look-ups in a logged map.
ghost use Rattle.std.specs.Prelude.{◌≡◌, ◌<◌, ◌≤◌, None, Some, false, true, length, min};
ghost use Rattle.std.specs.Ordering.{nat_cmp};
ghost use Rattle.std.specs.declared.ops.Bound.TheVariants.{Included};
ghost use Rattle.indexset_core.specs.Nodes.{node_lengths};
ghost use Rattle.indexset_core.specs.Pairs.{has_key, pair_keys, pair_values};
ghost use Rattle.indexset_core.specs.Pairs.{pairs_within, value_of};
ghost use Rattle.indexset_ffi.specs.Elements.{logged_nodes, logged_pairs, written};

use indexset_ffi::log_calls::{write_lengths, write_logged};
use indexset_ffi::log_handle::LogHandle;
use indexset_ffi::write::write;
use std::alloc::Global;
use std::ops::Bound;

/// Writes the value of a key. Returns `false` if the key is absent.
#[unsafe(no_mangle)]
pub extern "C" fn indexset_log_get(
    alloc: Global,
    log: &mut LogHandle,
    key: u64,
    out: &mut u64,
) -> bool
    ensures found { result ≡ true → value_of nat_cmp (logged_pairs log.old.slot.value) key
        ≡ Some out.new }
    ensures absent { result ≡ false → value_of nat_cmp (logged_pairs log.old.slot.value) key
        ≡ None }
    ensures unwritten { result ≡ false → out.new ≡ out.old }
    ensures unchanged { log.new.slot.value ≡ log.old.slot.value }
{
    let Some(held) = log.take(alloc) else {
        return false;
    };
    let found = match held.get(&key) {
        Some(pair) => Some(pair.value),
        None => None,
    };
    log.put(held);
    write(found, out)
}

/// Returns whether a key is present.
#[unsafe(no_mangle)]
pub extern "C" fn indexset_log_contains(alloc: Global, log: &mut LogHandle, key: u64) -> bool
    ensures value { result ≡ has_key nat_cmp (logged_pairs log.old.slot.value) key }
    ensures unchanged { log.new.slot.value ≡ log.old.slot.value }
{
    let Some(held) = log.take(alloc) else {
        return false;
    };
    let found = held.contains_key(&key);
    log.put(held);
    found
}

/// Returns the number of nodes.
#[unsafe(no_mangle)]
pub extern "C" fn indexset_log_node_count(alloc: Global, log: &mut LogHandle) -> usize
    ensures value { result ≡ length (logged_nodes log.old.slot.value) }
    ensures unchanged { log.new.slot.value ≡ log.old.slot.value }
{
    let Some(held) = log.take(alloc) else {
        return 0;
    };
    let count = held.node_count();
    log.put(held);
    count
}

/// Writes the number of pairs of each node, for as many nodes as fit, in order.
///
/// Returns how many it wrote.
#[unsafe(no_mangle)]
pub extern "C" fn indexset_log_node_lengths(
    alloc: Global,
    log: &mut LogHandle,
    out: &mut [usize],
) -> usize
    ensures count { result ≡ min (length (logged_nodes log.old.slot.value)) (length out.old) }
    ensures written { out.new ≡ written result (node_lengths (logged_nodes log.old.slot.value))
        out.old }
    ensures unchanged { log.new.slot.value ≡ log.old.slot.value }
{
    let Some(held) = log.take(alloc) else {
        return 0;
    };
    let count = write_lengths(held.iter_nodes(), out);
    log.put(held);
    count
}

/// Writes as many pairs with keys from `low` to `high`, both included, as fit, in order.
///
/// Returns how many it wrote.
#[unsafe(no_mangle)]
pub extern "C" fn indexset_log_range(
    alloc: Global,
    log: &mut LogHandle,
    low: u64,
    high: u64,
    keys: &mut [u64],
    values: &mut [u64],
) -> usize
    // Result.
    ensures count { low ≤ high → result ≡ min
        (length (pairs_within nat_cmp (logged_pairs log.old.slot.value) (Included low)
        (Included high))) (min (length keys.old) (length values.old)) }
    ensures keys { low ≤ high → keys.new ≡ written result
        (pair_keys (pairs_within nat_cmp (logged_pairs log.old.slot.value) (Included low)
        (Included high))) keys.old }
    ensures values { low ≤ high → values.new
        ≡ written result (pair_values (pairs_within nat_cmp (logged_pairs log.old.slot.value)
        (Included low) (Included high))) values.old }
    ensures none { high < low → result ≡ 0 }
    ensures no_keys { high < low → keys.new ≡ keys.old }
    ensures no_values { high < low → values.new ≡ values.old }

    // Contents.
    ensures unchanged { log.new.slot.value ≡ log.old.slot.value }
{
    if high < low {
        return 0;
    }
    let Some(held) = log.take(alloc) else {
        return 0;
    };
    let walk = held.range((Bound::Included(&low), Bound::Included(&high)));
    let count = write_logged(walk, keys, values);
    log.put(held);
    count
}
