//! Calls of a map that take many keys.
ghost use Rattle.std.specs.Prelude.{◌≡◌, ◌≢◌, ◌<◌, ◌≤◌, ◌↔◌, None, length, map, min, take, is_some};
ghost use Rattle.indexset_ffi.specs.Elements.{pairs, put_in_turn, value_or, written};

use indexset_ffi::map_calls::{put_each, value_each};
use indexset_ffi::map_handle::MapHandle;
use indexset_ffi::status::{MEMORY, NO, NONE, YES};
use indexset_ffi::write::write_same;
use std::alloc::Global;

/// Inserts a pair for each key and value, or replaces the value of a present key, in order.
///
/// It takes as many pairs as the shorter slice has, and writes how many were taken.
///
/// # Errors
///
/// `MEMORY`: the pairs before the one that failed were taken. `NONE` if the handle is empty.
#[unsafe(no_mangle)]
#[tactic(auto, unfolding(indexset_ffi::specs::Elements::put_in_turn))]
pub extern "C" fn indexset_map_insert_all(
    alloc: Global,
    map: &mut MapHandle,
    keys: &[u64],
    values: &[u64],
    taken: &mut usize,
) -> u32
    // Result.
    ensures all { result ≡ YES → taken.new ≡ min (length keys.now) (length values.now) }

    // Contents.
    ensures put { pairs map.new.slot.value
        ≡ put_in_turn (pairs map.old.slot.value) (take taken.new keys.now)
        (take taken.new values.now) }
    ensures contains { is_some map.new.slot.value ≡ is_some map.old.slot.value }

    // Failure.
    ensures some { result ≡ MEMORY → taken.new < min (length keys.now) (length values.now) }
    ensures none { result ≡ NONE ↔ (map.old.slot.value ≡ None) }
    ensures unchanged { result ≡ NONE → map.new.slot.value ≡ map.old.slot.value }
    ensures status { (result ≢ NO) × (result ≤ NONE) }
{
    let Some(mut held) = map.take(alloc) else {
        *taken = 0;
        return NONE;
    };
    *taken = put_each(&mut held, keys, values);
    map.put(held);
    if *taken == keys.len().min(values.len()) {
        YES
    } else {
        MEMORY
    }
}

/// Writes the value of each key, or `absent` for an absent key, for as many keys as fit.
///
/// Returns how many it wrote.
#[unsafe(no_mangle)]
#[tactic(auto, using(crate::proofs::WrittenLemmas::no_values))]
pub extern "C" fn indexset_map_gets(
    alloc: Global,
    handle: &mut MapHandle,
    keys: &[u64],
    absent: u64,
    out: &mut [u64],
) -> usize
    ensures count { result ≡ min (length keys.now) (length out.old) }
    ensures written { out.new ≡ written result
        (map (value_or (pairs handle.old.slot.value) absent) keys.now) out.old }
    ensures unchanged { handle.new.slot.value ≡ handle.old.slot.value }
{
    let Some(held) = handle.take(alloc) else {
        return write_same(keys.len(), absent, out);
    };
    let count = value_each(&held, keys, absent, out);
    handle.put(held);
    count
}
