//! Calls of a set that take many keys.
ghost use Rattle.std.specs.Prelude.{◌≡◌, ◌≢◌, ◌<◌, ◌≤◌, ◌↔◌, None, false, length};
ghost use Rattle.std.specs.Prelude.{map, min, slice_index_or, take, is_some};
ghost use Rattle.std.specs.List.{AllWithin, fold};
ghost use Rattle.std.specs.Ordering.{nat_cmp};
ghost use Rattle.indexset_core.specs.Order.{has_equal, keep, rank};
ghost use Rattle.indexset_ffi.specs.Elements.{element_at, elements, written};

use indexset_ffi::set_calls::{element_each, insert_each, rank_each};
use indexset_ffi::set_handle::SetHandle;
use indexset_ffi::status::{MEMORY, NO, NONE, YES};
use indexset_ffi::write::write_same;
use std::alloc::Global;

/// Inserts each key in order, and writes how many were taken.
///
/// # Errors
///
/// `MEMORY`: the keys before the one that failed were taken. `NONE` if the handle is empty.
#[unsafe(no_mangle)]
pub extern "C" fn indexset_set_insert_all(
    alloc: Global,
    set: &mut SetHandle,
    keys: &[u64],
    taken: &mut usize,
) -> u32
    // Result.
    ensures all { result ≡ YES → taken.new ≡ length keys.now }

    // Contents.
    ensures kept { elements set.new.slot.value
        ≡ fold (keep nat_cmp) (elements set.old.slot.value) (take taken.new keys.now) }
    ensures contains { is_some set.new.slot.value ≡ is_some set.old.slot.value }

    // Failure.
    ensures some { result ≡ MEMORY → taken.new < length keys.now }
    ensures none { result ≡ NONE ↔ (set.old.slot.value ≡ None) }
    ensures unchanged { result ≡ NONE → set.new.slot.value ≡ set.old.slot.value }
    ensures status { (result ≢ NO) × (result ≤ NONE) }

    // Memory.
    ensures stop { result ≡ MEMORY → has_equal nat_cmp (elements set.new.slot.value)
        (slice_index_or keys.now taken.new 0) ≡ false }
{
    let Some(mut held) = set.take(alloc) else {
        *taken = 0;
        return NONE;
    };
    *taken = insert_each(&mut held, keys);
    set.put(held);
    if *taken == keys.len() { YES } else { MEMORY }
}

/// Writes the rank of each key, for as many keys as fit. Returns how many it wrote.
#[unsafe(no_mangle)]
#[tactic(auto, using(crate::proofs::WrittenLemmas::no_ranks))]
pub extern "C" fn indexset_set_ranks(
    alloc: Global,
    set: &mut SetHandle,
    keys: &[u64],
    out: &mut [usize],
) -> usize
    ensures count { result ≡ min (length keys.now) (length out.old) }
    ensures written { out.new ≡ written result
        (map (rank nat_cmp (elements set.old.slot.value)) keys.now) out.old }
    ensures unchanged { set.new.slot.value ≡ set.old.slot.value }
{
    let Some(held) = set.take(alloc) else {
        return write_same(keys.len(), 0, out);
    };
    let count = rank_each(&held, keys, out);
    set.put(held);
    count
}

/// Writes the element at each position, for as many positions as fit.
///
/// Stops at the first position that is past the end. Returns how many it wrote.
#[unsafe(no_mangle)]
pub extern "C" fn indexset_set_at_all(
    alloc: Global,
    set: &mut SetHandle,
    positions: &[usize],
    out: &mut [u64],
) -> usize
    // Result.
    ensures room { result ≤ min (length positions.now) (length out.old) }
    ensures contains { AllWithin (λ i. i < length (elements set.old.slot.value)) positions.now 0
        result }
    ensures stop { result < min (length positions.now) (length out.old)
        → length (elements set.old.slot.value) ≤ slice_index_or positions.now result 0 }
    ensures written { out.new ≡ written result
        (map (element_at (elements set.old.slot.value)) positions.now) out.old }

    // Contents.
    ensures unchanged { set.new.slot.value ≡ set.old.slot.value }
{
    let Some(held) = set.take(alloc) else {
        return 0;
    };
    let count = element_each(&held, positions, out);
    set.put(held);
    count
}
