//! Positions in a multimap.
ghost use Rattle.std.specs.Prelude.{◌≡◌, ◌≢◌, ◌≤◌, ◌↔◌, IfSome, Some, None};
ghost use Rattle.std.specs.Prelude.{true, false, drop, length, min, slice_get};
ghost use Rattle.std.specs.List.{count_by};
ghost use Rattle.std.specs.Option.{option_map};
ghost use Rattle.std.specs.Ordering.{is_lt, nat_cmp};
ghost use Rattle.indexset_core.specs.Nodes.{concat};
ghost use Rattle.indexset_core.specs.Pairs.{pair_keys, pair_values};
ghost use Rattle.indexset_log.specs.Tree.{refusal_for};
ghost use Rattle.indexset_multi.specs.Keys.{entries, key_and_value, without_named};
ghost use Rattle.indexset_multi.specs.Tree.{after_pair_removal, pair_removal_events};
ghost use Rattle.indexset_ffi.specs.Elements.{numbered_pairs, written};
ghost use Rattle.indexset_ffi.specs.Statuses.{IsToldAs};

use indexset_ffi::multi_calls::write_entries;
use indexset_ffi::multi_handle::MultiHandle;
use indexset_ffi::status::{HELD, NO, NONE, NUMBERS, YES, of_refusal};
use indexset_ffi::write::write_pair;
use std::alloc::Global;
use std::ops::Bound;

/// Returns how many pairs have a key that is less than this one.
#[unsafe(no_mangle)]
pub extern "C" fn indexset_multi_rank(alloc: Global, multi: &mut MultiHandle, key: u64) -> usize
    ensures value { result ≡ count_by (λ p. is_lt (nat_cmp p.key key))
        (numbered_pairs multi.old.slot.value) }
    ensures unchanged { multi.new.slot.value ≡ multi.old.slot.value }
{
    let Some(held) = multi.take(alloc) else {
        return 0;
    };
    let below = held.rank(&key);
    multi.put(held);
    below
}

/// Writes the pair at a position, counted from 0. Returns `false` if the position is past the end.
#[unsafe(no_mangle)]
pub extern "C" fn indexset_multi_at(
    alloc: Global,
    multi: &mut MultiHandle,
    position: usize,
    key: &mut u64,
    value: &mut u64,
) -> bool
    // Result.
    ensures found { result ≡ true → option_map key_and_value
        (slice_get (numbered_pairs multi.old.slot.value) position) ≡ Some (key.new, value.new) }
    ensures absent { result ≡ false → option_map key_and_value
        (slice_get (numbered_pairs multi.old.slot.value) position) ≡ None }
    ensures no_key { result ≡ false → key.new ≡ key.old }
    ensures no_value { result ≡ false → value.new ≡ value.old }

    // Contents.
    ensures unchanged { multi.new.slot.value ≡ multi.old.slot.value }
{
    let Some(held) = multi.take(alloc) else {
        return false;
    };
    let found = match held.get_index(position) {
        Some((k, v)) => Some((*k, *v)),
        None => None,
    };
    multi.put(held);
    write_pair(found, key, value)
}

/// Writes as many pairs from a position on as fit, in order. Returns how many it wrote.
#[unsafe(no_mangle)]
pub extern "C" fn indexset_multi_range_by_position(
    alloc: Global,
    multi: &mut MultiHandle,
    from: usize,
    keys: &mut [u64],
    values: &mut [u64],
) -> usize
    ensures count { result ≡ min (length (drop from (numbered_pairs multi.old.slot.value)))
        (min (length keys.old) (length values.old)) }
    ensures keys { keys.new ≡ written result
        (pair_keys (entries (drop from (numbered_pairs multi.old.slot.value)))) keys.old }
    ensures values { values.new ≡ written result
        (pair_values (entries (drop from (numbered_pairs multi.old.slot.value)))) values.old }
    ensures unchanged { multi.new.slot.value ≡ multi.old.slot.value }
{
    let Some(held) = multi.take(alloc) else {
        return 0;
    };
    let walk = held.range_idx((Bound::Included(from), Bound::Unbounded));
    let count = write_entries(walk, keys, values);
    multi.put(held);
    count
}

/// Removes the pair at a position, counted from 0, and writes it.
///
/// Returns `NO` if the position is past the end.
///
/// # Errors
///
/// `MEMORY` or `NUMBERS`. A failed call changes nothing.
#[unsafe(no_mangle)]
pub extern "C" fn indexset_multi_remove_at(
    alloc: Global,
    multi: &mut MultiHandle,
    position: usize,
    key: &mut u64,
    value: &mut u64,
) -> u32
    // Result.
    ensures found { result ≡ YES → option_map key_and_value
        (slice_get (numbered_pairs multi.old.slot.value) position) ≡ Some (key.new, value.new) }
    ensures absent { result ≡ NO ↔ (slice_get (numbered_pairs multi.old.slot.value) position
        ≡ None) }

    // Contents.
    ensures ok { result ≡ YES → numbered_pairs multi.new.slot.value
        ≡ without_named nat_cmp (numbered_pairs multi.old.slot.value)
        (slice_get (numbered_pairs multi.old.slot.value) position) }

    // Failure.
    ensures unchanged { result ≢ YES → (key.new ≡ key.old) × (value.new ≡ value.old)
        × (multi.new.slot.value ≡ multi.old.slot.value) }
    ensures cause { IfSome multi.old.slot.value (λ m. IsToldAs result (refusal_for m.next
        (length (pair_removal_events nat_cmp m.size m.nodes
        (slice_get (concat m.nodes) position))))) }
    ensures status { (result ≤ NUMBERS) × (result ≢ NONE) × (result ≢ HELD) }

    // Nodes.
    ensures tree { result ≡ YES → IfSome multi.old.slot.value (λ m. multi.new.slot.value
        ≡ Some (after_pair_removal nat_cmp m (slice_get (concat m.nodes) position))) }
{
    let Some(mut held) = multi.take(alloc) else {
        return NO;
    };
    let status = match held.pop_index(position) {
        Ok(Some((k, v))) => {
            *key = k;
            *value = v;
            YES
        }
        Ok(None) => NO,
        Err(cause) => of_refusal(cause),
    };
    multi.put(held);
    status
}
