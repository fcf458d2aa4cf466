//! Keys of a map from byte strings.
ghost use Rattle.std.specs.Prelude.{◌≡◌, ◌≢◌, ◌≤◌, ◌↔◌, Some, None, true, false, is_some};
ghost use Rattle.std.specs.Cmp.Lexicographic.{slice_cmp};
ghost use Rattle.std.specs.Ordering.{nat_cmp};
ghost use Rattle.indexset_core.specs.Pairs.{has_key, key_rank, put_value, value_of, without_key};
ghost use Rattle.indexset_ffi.specs.Elements.{key_count_up_to};
ghost use Rattle.indexset_ffi.specs.Text.{text_pairs};

use indexset_ffi::status::{MEMORY, NO, NONE, YES};
use indexset_ffi::text_edits::{put, take};
use indexset_ffi::text_find::{count_to, get, rank_of};
use indexset_ffi::text_handle::TextHandle;
use indexset_ffi::write::write;
use std::alloc::Global;

/// Inserts a pair, or replaces the value of a present key. The bytes of a new key are copied.
///
/// Returns `YES` for a new key. For a present key it writes the old value, and returns `NO`.
///
/// # Errors
///
/// `MEMORY`, or `NONE` if the handle is empty. A failed call changes nothing. A present key needs
/// no memory.
#[unsafe(no_mangle)]
#[tactic(auto, using(crate::proofs::PairLemmas::no_value_no_key))]
pub extern "C" fn indexset_text_map_insert(
    alloc: Global,
    map: &mut TextHandle,
    key: &[u8],
    value: u64,
    before: &mut u64,
) -> u32
    // Result.
    ensures added { result ≡ YES → value_of (slice_cmp nat_cmp) (text_pairs map.old.slot.value)
        key.now ≡ None }
    ensures replaced { result ≡ NO → value_of (slice_cmp nat_cmp) (text_pairs map.old.slot.value)
        key.now ≡ Some before.new }
    ensures unwritten { result ≢ NO → before.new ≡ before.old }

    // Contents.
    ensures ok { result ≤ YES → text_pairs map.new.slot.value
        ≡ put_value (slice_cmp nat_cmp) (text_pairs map.old.slot.value) key.now value }

    // Failure.
    ensures unchanged { MEMORY ≤ result → map.new.slot.value ≡ map.old.slot.value }
    ensures none { result ≡ NONE ↔ (map.old.slot.value ≡ None) }
    ensures status { result ≤ NONE }

    // Memory.
    ensures no_memory { has_key (slice_cmp nat_cmp) (text_pairs map.old.slot.value) key.now ≡ true
        → result ≡ NO }
{
    let Some(mut held) = map.take(alloc) else {
        return NONE;
    };
    let status = match put(alloc, &mut held, key, value) {
        Ok(None) => YES,
        Ok(Some(old)) => {
            *before = old;
            NO
        }
        Err(_) => MEMORY,
    };
    map.put(held);
    status
}

/// Inserts a pair, or replaces the value of a present key, and writes the position of the pair.
///
/// Returns `YES` for a new key. For a present key it writes the old value, and returns `NO`.
///
/// # Errors
///
/// `MEMORY`, or `NONE` if the handle is empty. A failed call changes nothing. A present key needs
/// no memory.
#[unsafe(no_mangle)]
pub extern "C" fn indexset_text_map_insert_ranked(
    alloc: Global,
    map: &mut TextHandle,
    key: &[u8],
    value: u64,
    before: &mut u64,
    rank: &mut usize,
) -> u32
    // Result.
    ensures added { result ≡ YES → value_of (slice_cmp nat_cmp) (text_pairs map.old.slot.value)
        key.now ≡ None }
    ensures replaced { result ≡ NO → value_of (slice_cmp nat_cmp) (text_pairs map.old.slot.value)
        key.now ≡ Some before.new }
    ensures rank { result ≤ YES → rank.new
        ≡ key_rank (slice_cmp nat_cmp) (text_pairs map.old.slot.value) key.now }
    ensures unwritten { result ≢ NO → before.new ≡ before.old }

    // Contents.
    ensures ok { result ≤ YES → text_pairs map.new.slot.value
        ≡ put_value (slice_cmp nat_cmp) (text_pairs map.old.slot.value) key.now value }

    // Failure.
    ensures unchanged { MEMORY ≤ result
        → (rank.new ≡ rank.old) × (map.new.slot.value ≡ map.old.slot.value) }
    ensures none { result ≡ NONE ↔ (map.old.slot.value ≡ None) }
    ensures status { result ≤ NONE }

    // Memory.
    ensures no_memory { has_key (slice_cmp nat_cmp) (text_pairs map.old.slot.value) key.now ≡ true
        → result ≡ NO }
{
    let below = indexset_text_map_rank(alloc, map, key);
    let status = indexset_text_map_insert(alloc, map, key, value, before);
    if status <= YES {
        *rank = below;
    }
    status
}

/// Writes the value of a key. Returns `false` if the key is absent.
#[unsafe(no_mangle)]
pub extern "C" fn indexset_text_map_get(
    alloc: Global,
    map: &mut TextHandle,
    key: &[u8],
    out: &mut u64,
) -> bool
    ensures found { result ≡ true → value_of (slice_cmp nat_cmp) (text_pairs map.old.slot.value)
        key.now ≡ Some out.new }
    ensures absent { result ≡ false → value_of (slice_cmp nat_cmp) (text_pairs map.old.slot.value)
        key.now ≡ None }
    ensures unwritten { result ≡ false → out.new ≡ out.old }
    ensures unchanged { map.new.slot.value ≡ map.old.slot.value }
{
    let Some(held) = map.take(alloc) else {
        return false;
    };
    let found = get(&held, key);
    map.put(held);
    write(found, out)
}

/// Removes a key, and writes its value. Returns `false` if the key is absent.
#[unsafe(no_mangle)]
#[tactic(auto, unfolding(indexset_core::specs::Order::unequal))]
pub extern "C" fn indexset_text_map_remove(
    alloc: Global,
    map: &mut TextHandle,
    key: &[u8],
    out: &mut u64,
) -> bool
    // Result.
    ensures found { result ≡ true → value_of (slice_cmp nat_cmp) (text_pairs map.old.slot.value)
        key.now ≡ Some out.new }
    ensures absent { result ≡ false → value_of (slice_cmp nat_cmp) (text_pairs map.old.slot.value)
        key.now ≡ None }
    ensures unwritten { result ≡ false → out.new ≡ out.old }

    // Contents.
    ensures rest { text_pairs map.new.slot.value
        ≡ without_key (slice_cmp nat_cmp) (text_pairs map.old.slot.value) key.now }
    ensures contains { is_some map.new.slot.value ≡ is_some map.old.slot.value }
    ensures unchanged { result ≡ false → map.new.slot.value ≡ map.old.slot.value }
{
    let Some(mut held) = map.take(alloc) else {
        return false;
    };
    let found = take(&mut held, key);
    map.put(held);
    write(found, out)
}

/// Returns whether a key is present.
#[unsafe(no_mangle)]
#[tactic(auto, using(crate::proofs::PairLemmas::value_there))]
pub extern "C" fn indexset_text_map_contains(
    alloc: Global,
    map: &mut TextHandle,
    key: &[u8],
) -> bool
    ensures value { result ≡ has_key (slice_cmp nat_cmp) (text_pairs map.old.slot.value) key.now }
    ensures unchanged { map.new.slot.value ≡ map.old.slot.value }
{
    let Some(held) = map.take(alloc) else {
        return false;
    };
    let found = get(&held, key).is_some();
    map.put(held);
    found
}

/// Returns how many keys are less than this one.
#[unsafe(no_mangle)]
pub extern "C" fn indexset_text_map_rank(alloc: Global, map: &mut TextHandle, key: &[u8]) -> usize
    ensures value { result ≡ key_rank (slice_cmp nat_cmp) (text_pairs map.old.slot.value) key.now }
    ensures unchanged { map.new.slot.value ≡ map.old.slot.value }
{
    let Some(held) = map.take(alloc) else {
        return 0;
    };
    let below = rank_of(&held, key);
    map.put(held);
    below
}

/// Returns how many keys are at most this one.
#[unsafe(no_mangle)]
pub extern "C" fn indexset_text_map_count_up_to(
    alloc: Global,
    map: &mut TextHandle,
    key: &[u8],
) -> usize
    ensures value { result
        ≡ key_count_up_to (slice_cmp nat_cmp) (text_pairs map.old.slot.value) key.now }
    ensures unchanged { map.new.slot.value ≡ map.old.slot.value }
{
    let Some(held) = map.take(alloc) else {
        return 0;
    };
    let count = count_to(&held, key);
    map.put(held);
    count
}
