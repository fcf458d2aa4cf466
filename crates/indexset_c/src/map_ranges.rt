//! Ranges of a map.
ghost use Rattle.std.specs.Prelude.{◌≡◌, ◌≤◌, ◌<◌, drop, length, min};
ghost use Rattle.std.specs.Ordering.{nat_cmp};
ghost use Rattle.std.specs.declared.ops.Bound.TheVariants.{Included};
ghost use Rattle.indexset_core.specs.Pairs.{pair_keys, pair_values, pairs_within};
ghost use Rattle.indexset_ffi.specs.Elements.{pairs, written};

use indexset_ffi::map_calls::write_pairs;
use indexset_ffi::map_handle::MapHandle;
use std::alloc::Global;
use std::ops::Bound;

/// Writes as many pairs with keys from `low` to `high`, both included, as fit, in order.
///
/// Returns how many it wrote.
#[unsafe(no_mangle)]
pub extern "C" fn indexset_map_range_by_key(
    alloc: Global,
    map: &mut MapHandle,
    low: u64,
    high: u64,
    keys: &mut [u64],
    values: &mut [u64],
) -> usize
    // Result.
    ensures count { low ≤ high → result ≡ min
        (length (pairs_within nat_cmp (pairs map.old.slot.value) (Included low) (Included high)))
        (min (length keys.old) (length values.old)) }
    ensures keys { low ≤ high → keys.new ≡ written result
        (pair_keys (pairs_within nat_cmp (pairs map.old.slot.value) (Included low) (Included high)))
        keys.old }
    ensures values { low ≤ high → values.new
        ≡ written result (pair_values (pairs_within nat_cmp (pairs map.old.slot.value)
        (Included low) (Included high))) values.old }
    ensures none { high < low → result ≡ 0 }
    ensures no_keys { high < low → keys.new ≡ keys.old }
    ensures no_values { high < low → values.new ≡ values.old }

    // Contents.
    ensures unchanged { map.new.slot.value ≡ map.old.slot.value }
{
    if high < low {
        return 0;
    }
    let Some(held) = map.take(alloc) else {
        return 0;
    };
    let walk = held.range((Bound::Included(&low), Bound::Included(&high)));
    let count = write_pairs(walk, keys, values);
    map.put(held);
    count
}

/// Writes as many pairs from a position on as fit, in order. Returns how many it wrote.
#[unsafe(no_mangle)]
pub extern "C" fn indexset_map_range_by_position(
    alloc: Global,
    map: &mut MapHandle,
    from: usize,
    keys: &mut [u64],
    values: &mut [u64],
) -> usize
    ensures count { result ≡ min (length (drop from (pairs map.old.slot.value)))
        (min (length keys.old) (length values.old)) }
    ensures keys { keys.new ≡ written result (pair_keys (drop from (pairs map.old.slot.value)))
        keys.old }
    ensures values { values.new ≡ written result
        (pair_values (drop from (pairs map.old.slot.value))) values.old }
    ensures unchanged { map.new.slot.value ≡ map.old.slot.value }
{
    let Some(held) = map.take(alloc) else {
        return 0;
    };
    let walk = held.range_idx((Bound::Included(from), Bound::Unbounded));
    let count = write_pairs(walk, keys, values);
    map.put(held);
    count
}
