//! Ends and ranges of a multimap.
ghost use Rattle.std.specs.Prelude.{◌≡◌, ◌-◌, ◌<◌, ◌≤◌, [], Some, None, true, false, length, min};
ghost use Rattle.std.specs.Ordering.{nat_cmp};
ghost use Rattle.std.specs.declared.ops.Bound.TheVariants.{Included};
ghost use Rattle.indexset_core.specs.Pairs.{pair_keys, pair_values};
ghost use Rattle.indexset_multi.specs.Keys.{entries, pairs_between};
ghost use Rattle.indexset_ffi.specs.Elements.{entry_at, numbered_pairs, written};

use indexset_ffi::multi_calls::write_entries;
use indexset_ffi::multi_handle::MultiHandle;
use indexset_ffi::write::write_pair;
use std::alloc::Global;
use std::ops::Bound;

/// Writes the first pair: the least key and its first value. Returns `false` if there is none.
#[unsafe(no_mangle)]
pub extern "C" fn indexset_multi_first(
    alloc: Global,
    multi: &mut MultiHandle,
    key: &mut u64,
    value: &mut u64,
) -> bool
    // Result.
    ensures found { result ≡ true → entry_at (entries (numbered_pairs multi.old.slot.value)) 0
        ≡ Some (key.new, value.new) }
    ensures absent { result ≡ false → entry_at (entries (numbered_pairs multi.old.slot.value)) 0
        ≡ None }
    ensures no_key { result ≡ false → key.new ≡ key.old }
    ensures no_value { result ≡ false → value.new ≡ value.old }

    // Contents.
    ensures unchanged { multi.new.slot.value ≡ multi.old.slot.value }
{
    let Some(held) = multi.take(alloc) else {
        return false;
    };
    let found = match held.iter().next() {
        Some((k, v)) => Some((*k, *v)),
        None => None,
    };
    multi.put(held);
    write_pair(found, key, value)
}

/// Writes the last pair: the greatest key and its last value. Returns `false` if there is none.
#[unsafe(no_mangle)]
pub extern "C" fn indexset_multi_last(
    alloc: Global,
    multi: &mut MultiHandle,
    key: &mut u64,
    value: &mut u64,
) -> bool
    // Result.
    ensures found { result ≡ true → entry_at (entries (numbered_pairs multi.old.slot.value))
        (length (numbered_pairs multi.old.slot.value) - 1) ≡ Some (key.new, value.new) }
    ensures absent { result ≡ false → numbered_pairs multi.old.slot.value ≡ [] }
    ensures no_key { result ≡ false → key.new ≡ key.old }
    ensures no_value { result ≡ false → value.new ≡ value.old }

    // Contents.
    ensures unchanged { multi.new.slot.value ≡ multi.old.slot.value }
{
    let Some(held) = multi.take(alloc) else {
        return false;
    };
    let found = match held.iter().next_back() {
        Some((k, v)) => Some((*k, *v)),
        None => None,
    };
    multi.put(held);
    write_pair(found, key, value)
}

/// Writes as many pairs with keys from `low` to `high`, both included, as fit, in order.
///
/// Returns how many it wrote.
#[unsafe(no_mangle)]
pub extern "C" fn indexset_multi_range(
    alloc: Global,
    multi: &mut MultiHandle,
    low: u64,
    high: u64,
    keys: &mut [u64],
    values: &mut [u64],
) -> usize
    // Result.
    ensures count { low ≤ high → result ≡ min
        (length (pairs_between nat_cmp (numbered_pairs multi.old.slot.value) (Included low)
        (Included high))) (min (length keys.old) (length values.old)) }
    ensures keys { low ≤ high → keys.new ≡ written result
        (pair_keys (entries (pairs_between nat_cmp (numbered_pairs multi.old.slot.value)
        (Included low) (Included high)))) keys.old }
    ensures values { low ≤ high → values.new
        ≡ written result (pair_values (entries
        (pairs_between nat_cmp (numbered_pairs multi.old.slot.value) (Included low)
        (Included high)))) values.old }
    ensures none { high < low → result ≡ 0 }
    ensures no_keys { high < low → keys.new ≡ keys.old }
    ensures no_values { high < low → values.new ≡ values.old }

    // Contents.
    ensures unchanged { multi.new.slot.value ≡ multi.old.slot.value }
{
    if high < low {
        return 0;
    }
    let Some(held) = multi.take(alloc) else {
        return 0;
    };
    let walk = held.range((Bound::Included(&low), Bound::Included(&high)));
    let count = write_entries(walk, keys, values);
    multi.put(held);
    count
}
