//! Keys of a set.
ghost use Rattle.std.specs.Prelude.{◌≡◌, ◌≢◌, ◌≤◌, ◌↔◌, Some, None, true, false, is_some};
ghost use Rattle.std.specs.Ordering.{nat_cmp};
ghost use Rattle.indexset_core.specs.Order as order;
ghost use Rattle.indexset_core.specs.Order.{has_equal, keep, lower_element, rank, without};
ghost use Rattle.indexset_set.specs.SetRanges.{upper_element};
ghost use Rattle.indexset_ffi.specs.Elements.{count_up_to, elements};

use indexset_ffi::set_calls::count_to;
use indexset_ffi::set_handle::SetHandle;
use indexset_ffi::status::{MEMORY, NO, NONE, YES};
use indexset_ffi::write::write;
use std::alloc::Global;

/// Inserts a key. Returns `NO` if it is present.
///
/// # Errors
///
/// `MEMORY`, or `NONE` if the handle is empty. A failed call changes nothing. A present key needs
/// no memory.
#[unsafe(no_mangle)]
#[tactic(auto, unfolding(indexset_set::specs::SetNodes::nodes_kept))]
pub extern "C" fn indexset_set_insert(alloc: Global, set: &mut SetHandle, key: u64) -> u32
    // Result.
    ensures added { result ≡ YES → has_equal nat_cmp (elements set.old.slot.value) key ≡ false }
    ensures contains { result ≡ NO → has_equal nat_cmp (elements set.old.slot.value) key ≡ true }

    // Contents.
    ensures ok { result ≡ YES → elements set.new.slot.value
        ≡ keep nat_cmp (elements set.old.slot.value) key }

    // Failure.
    ensures unchanged { result ≢ YES → set.new.slot.value ≡ set.old.slot.value }
    ensures none { result ≡ NONE ↔ (set.old.slot.value ≡ None) }
    ensures status { result ≤ NONE }

    // Memory.
    ensures no_memory { has_equal nat_cmp (elements set.old.slot.value) key ≡ true → result ≡ NO }
{
    let Some(mut held) = set.take(alloc) else {
        return NONE;
    };
    let status = match held.insert(key) {
        Ok(true) => YES,
        Ok(false) => NO,
        Err(_) => MEMORY,
    };
    set.put(held);
    status
}

/// Inserts a key, and writes its position. Returns `NO` if it is present.
///
/// # Errors
///
/// `MEMORY`, or `NONE` if the handle is empty. A failed call changes nothing. A present key needs
/// no memory.
#[unsafe(no_mangle)]
pub extern "C" fn indexset_set_insert_ranked(
    alloc: Global,
    set: &mut SetHandle,
    key: u64,
    rank: &mut usize,
) -> u32
    // Result.
    ensures added { result ≡ YES → has_equal nat_cmp (elements set.old.slot.value) key ≡ false }
    ensures contains { result ≡ NO → has_equal nat_cmp (elements set.old.slot.value) key ≡ true }
    ensures rank { result ≤ YES → rank.new ≡ order.rank nat_cmp (elements set.old.slot.value) key }

    // Contents.
    ensures ok { result ≡ YES → elements set.new.slot.value
        ≡ keep nat_cmp (elements set.old.slot.value) key }

    // Failure.
    ensures unchanged { result ≢ YES → set.new.slot.value ≡ set.old.slot.value }
    ensures unranked { MEMORY ≤ result → rank.new ≡ rank.old }
    ensures none { result ≡ NONE ↔ (set.old.slot.value ≡ None) }
    ensures status { result ≤ NONE }

    // Memory.
    ensures no_memory { has_equal nat_cmp (elements set.old.slot.value) key ≡ true → result ≡ NO }
{
    let below = indexset_set_rank(alloc, set, key);
    let status = indexset_set_insert(alloc, set, key);
    if status <= YES {
        *rank = below;
    }
    status
}

/// Removes a key, and returns whether it was present.
#[unsafe(no_mangle)]
#[tactic(auto, unfolding(indexset_core::specs::Order::unequal, indexset_set::specs::SetNodes::nodes_unequal))]
pub extern "C" fn indexset_set_remove(alloc: Global, set: &mut SetHandle, key: u64) -> bool
    ensures removed { result ≡ has_equal nat_cmp (elements set.old.slot.value) key }
    ensures rest { elements set.new.slot.value ≡ without nat_cmp (elements set.old.slot.value) key }
    ensures contains { is_some set.new.slot.value ≡ is_some set.old.slot.value }
    ensures unchanged { result ≡ false → set.new.slot.value ≡ set.old.slot.value }
{
    let Some(mut held) = set.take(alloc) else {
        return false;
    };
    let removed = held.remove(&key);
    set.put(held);
    removed
}

/// Returns whether a key is present.
#[unsafe(no_mangle)]
pub extern "C" fn indexset_set_contains(alloc: Global, set: &mut SetHandle, key: u64) -> bool
    ensures value { result ≡ has_equal nat_cmp (elements set.old.slot.value) key }
    ensures unchanged { set.new.slot.value ≡ set.old.slot.value }
{
    let Some(held) = set.take(alloc) else {
        return false;
    };
    let found = held.contains(&key);
    set.put(held);
    found
}

/// Returns how many elements are less than this key.
#[unsafe(no_mangle)]
pub extern "C" fn indexset_set_rank(alloc: Global, set: &mut SetHandle, key: u64) -> usize
    ensures value { result ≡ rank nat_cmp (elements set.old.slot.value) key }
    ensures unchanged { set.new.slot.value ≡ set.old.slot.value }
{
    let Some(held) = set.take(alloc) else {
        return 0;
    };
    let below = held.rank(&key);
    set.put(held);
    below
}

/// Writes the first element that is at least this key. Returns `false` if there is none.
#[unsafe(no_mangle)]
pub extern "C" fn indexset_set_lower_bound(
    alloc: Global,
    set: &mut SetHandle,
    key: u64,
    out: &mut u64,
) -> bool
    ensures found { result ≡ true → lower_element nat_cmp (elements set.old.slot.value) key
        ≡ Some out.new }
    ensures absent { result ≡ false → lower_element nat_cmp (elements set.old.slot.value) key
        ≡ None }
    ensures unwritten { result ≡ false → out.new ≡ out.old }
    ensures unchanged { set.new.slot.value ≡ set.old.slot.value }
{
    let Some(held) = set.take(alloc) else {
        return false;
    };
    let found = held.lower_bound(&key).copied();
    set.put(held);
    write(found, out)
}

/// Writes the first element that is greater than this key. Returns `false` if there is none.
#[unsafe(no_mangle)]
pub extern "C" fn indexset_set_upper_bound(
    alloc: Global,
    set: &mut SetHandle,
    key: u64,
    out: &mut u64,
) -> bool
    ensures found { result ≡ true → upper_element nat_cmp (elements set.old.slot.value) key
        ≡ Some out.new }
    ensures absent { result ≡ false → upper_element nat_cmp (elements set.old.slot.value) key
        ≡ None }
    ensures unwritten { result ≡ false → out.new ≡ out.old }
    ensures unchanged { set.new.slot.value ≡ set.old.slot.value }
{
    let Some(held) = set.take(alloc) else {
        return false;
    };
    let found = held.upper_bound(&key).copied();
    set.put(held);
    write(found, out)
}

/// Returns how many elements are at most this key.
#[unsafe(no_mangle)]
pub extern "C" fn indexset_set_count_up_to(alloc: Global, set: &mut SetHandle, key: u64) -> usize
    ensures value { result ≡ count_up_to nat_cmp (elements set.old.slot.value) key }
    ensures unchanged { set.new.slot.value ≡ set.old.slot.value }
{
    let Some(held) = set.take(alloc) else {
        return 0;
    };
    let count = count_to(&held, key);
    set.put(held);
    count
}
