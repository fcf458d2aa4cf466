//! Positions in a map from byte strings, bounds and ends.
ghost use Rattle.std.specs.Prelude.{◌≡◌, ◌-◌, Some, None, true, false, length, remove, is_some};
ghost use Rattle.std.specs.Cmp.Lexicographic.{slice_cmp};
ghost use Rattle.std.specs.Ordering.{nat_cmp};
ghost use Rattle.indexset_core.specs.Pairs.{key_rank};
ghost use Rattle.indexset_ffi.specs.Elements.{key_count_up_to};
ghost use Rattle.indexset_ffi.specs.Text.{key_at, text_pairs, value_at, written_over};

use crate::text_keys::{indexset_text_map_count_up_to, indexset_text_map_rank};
use crate::text_life::indexset_text_map_len;
use indexset_ffi::map_calls::take_index;
use indexset_ffi::text_handle::TextHandle;
use indexset_ffi::write::write_bytes;
use std::alloc::Global;

/// Writes the pair at a position, counted from 0. Returns `false` if the position is past the end.
///
/// It writes as many bytes of the key as fit, the length of the key, and the value.
#[unsafe(no_mangle)]
pub extern "C" fn indexset_text_map_at(
    alloc: Global,
    map: &mut TextHandle,
    position: usize,
    key: &mut [u8],
    len: &mut usize,
    value: &mut u64,
) -> bool
    // Result.
    ensures found { result ≡ true → value_at (text_pairs map.old.slot.value) position
        ≡ Some value.new }
    ensures long { result ≡ true → len.new
        ≡ length (key_at (text_pairs map.old.slot.value) position) }
    ensures bytes { key.new ≡ written_over (key_at (text_pairs map.old.slot.value) position)
        key.old }
    ensures absent { result ≡ false → value_at (text_pairs map.old.slot.value) position ≡ None }
    ensures no_len { result ≡ false → len.new ≡ len.old }
    ensures no_value { result ≡ false → value.new ≡ value.old }

    // Contents.
    ensures unchanged { map.new.slot.value ≡ map.old.slot.value }
{
    let Some(held) = map.take(alloc) else {
        return false;
    };
    let found = match held.get_index(position) {
        Some((stored, number)) => {
            write_bytes(stored.as_bytes(), key);
            *len = stored.len();
            *value = *number;
            true
        }
        None => false,
    };
    map.put(held);
    found
}

/// Removes the pair at a position, counted from 0, and writes it as `indexset_text_map_at` does.
///
/// Returns `false` if the position is past the end.
#[unsafe(no_mangle)]
pub extern "C" fn indexset_text_map_remove_at(
    alloc: Global,
    map: &mut TextHandle,
    position: usize,
    key: &mut [u8],
    len: &mut usize,
    value: &mut u64,
) -> bool
    // Result.
    ensures found { result ≡ true → value_at (text_pairs map.old.slot.value) position
        ≡ Some value.new }
    ensures long { result ≡ true → len.new
        ≡ length (key_at (text_pairs map.old.slot.value) position) }
    ensures bytes { key.new ≡ written_over (key_at (text_pairs map.old.slot.value) position)
        key.old }
    ensures absent { result ≡ false → value_at (text_pairs map.old.slot.value) position ≡ None }
    ensures unwritten { result ≡ false → (len.new ≡ len.old) × (value.new ≡ value.old) }

    // Contents.
    ensures rest { text_pairs map.new.slot.value ≡ remove (text_pairs map.old.slot.value) position }
    ensures contains { is_some map.new.slot.value ≡ is_some map.old.slot.value }
    ensures unchanged { result ≡ false → map.new.slot.value ≡ map.old.slot.value }
{
    let Some(mut held) = map.take(alloc) else {
        return false;
    };
    let found = match take_index(&mut held, position) {
        Some((taken, number)) => {
            write_bytes(taken.as_bytes(), key);
            *len = taken.len();
            *value = number;
            true
        }
        None => false,
    };
    map.put(held);
    found
}

/// Writes the pair of the first key that is at least this key, as `indexset_text_map_at` does.
///
/// Returns `false` if there is none.
#[unsafe(no_mangle)]
pub extern "C" fn indexset_text_map_lower_bound(
    alloc: Global,
    map: &mut TextHandle,
    from: &[u8],
    key: &mut [u8],
    len: &mut usize,
    value: &mut u64,
) -> bool
    // Result.
    ensures found { result ≡ true → value_at (text_pairs map.old.slot.value)
        (key_rank (slice_cmp nat_cmp) (text_pairs map.old.slot.value) from.now) ≡ Some value.new }
    ensures long { result ≡ true → len.new
        ≡ length (key_at (text_pairs map.old.slot.value)
        (key_rank (slice_cmp nat_cmp) (text_pairs map.old.slot.value) from.now)) }
    ensures bytes { key.new ≡ written_over
        (key_at (text_pairs map.old.slot.value)
        (key_rank (slice_cmp nat_cmp) (text_pairs map.old.slot.value) from.now)) key.old }
    ensures absent { result ≡ false → value_at (text_pairs map.old.slot.value)
        (key_rank (slice_cmp nat_cmp) (text_pairs map.old.slot.value) from.now) ≡ None }
    ensures no_len { result ≡ false → len.new ≡ len.old }
    ensures no_value { result ≡ false → value.new ≡ value.old }

    // Contents.
    ensures unchanged { map.new.slot.value ≡ map.old.slot.value }
{
    let position = indexset_text_map_rank(alloc, map, from);
    indexset_text_map_at(alloc, map, position, key, len, value)
}

/// Writes the pair of the first key that is greater than this key, as `indexset_text_map_at` does.
///
/// Returns `false` if there is none.
#[unsafe(no_mangle)]
pub extern "C" fn indexset_text_map_upper_bound(
    alloc: Global,
    map: &mut TextHandle,
    from: &[u8],
    key: &mut [u8],
    len: &mut usize,
    value: &mut u64,
) -> bool
    // Result.
    ensures found { result ≡ true → value_at (text_pairs map.old.slot.value)
        (key_count_up_to (slice_cmp nat_cmp) (text_pairs map.old.slot.value) from.now)
        ≡ Some value.new }
    ensures long { result ≡ true → len.new
        ≡ length (key_at (text_pairs map.old.slot.value)
        (key_count_up_to (slice_cmp nat_cmp) (text_pairs map.old.slot.value) from.now)) }
    ensures bytes { key.new ≡ written_over
        (key_at (text_pairs map.old.slot.value)
        (key_count_up_to (slice_cmp nat_cmp) (text_pairs map.old.slot.value) from.now)) key.old }
    ensures absent { result ≡ false → value_at (text_pairs map.old.slot.value)
        (key_count_up_to (slice_cmp nat_cmp) (text_pairs map.old.slot.value) from.now) ≡ None }
    ensures no_len { result ≡ false → len.new ≡ len.old }
    ensures no_value { result ≡ false → value.new ≡ value.old }

    // Contents.
    ensures unchanged { map.new.slot.value ≡ map.old.slot.value }
{
    let position = indexset_text_map_count_up_to(alloc, map, from);
    indexset_text_map_at(alloc, map, position, key, len, value)
}

/// Writes the pair of the least key, as `indexset_text_map_at` does. Returns `false` if there is
/// none.
#[unsafe(no_mangle)]
pub extern "C" fn indexset_text_map_first(
    alloc: Global,
    map: &mut TextHandle,
    key: &mut [u8],
    len: &mut usize,
    value: &mut u64,
) -> bool
    // Result.
    ensures found { result ≡ true → value_at (text_pairs map.old.slot.value) 0 ≡ Some value.new }
    ensures long { result ≡ true → len.new ≡ length (key_at (text_pairs map.old.slot.value) 0) }
    ensures bytes { key.new ≡ written_over (key_at (text_pairs map.old.slot.value) 0) key.old }
    ensures absent { result ≡ false → value_at (text_pairs map.old.slot.value) 0 ≡ None }
    ensures no_len { result ≡ false → len.new ≡ len.old }
    ensures no_value { result ≡ false → value.new ≡ value.old }

    // Contents.
    ensures unchanged { map.new.slot.value ≡ map.old.slot.value }
{
    indexset_text_map_at(alloc, map, 0, key, len, value)
}

/// Writes the pair of the greatest key, as `indexset_text_map_at` does.
///
/// Returns `false` if there is none.
#[unsafe(no_mangle)]
pub extern "C" fn indexset_text_map_last(
    alloc: Global,
    map: &mut TextHandle,
    key: &mut [u8],
    len: &mut usize,
    value: &mut u64,
) -> bool
    // Result.
    ensures found { result ≡ true → value_at (text_pairs map.old.slot.value)
        (length (text_pairs map.old.slot.value) - 1) ≡ Some value.new }
    ensures long { result ≡ true → len.new
        ≡ length (key_at (text_pairs map.old.slot.value)
        (length (text_pairs map.old.slot.value) - 1)) }
    ensures bytes { key.new ≡ written_over
        (key_at (text_pairs map.old.slot.value) (length (text_pairs map.old.slot.value) - 1))
        key.old }
    ensures absent { result ≡ false → value_at (text_pairs map.old.slot.value)
        (length (text_pairs map.old.slot.value) - 1) ≡ None }
    ensures no_len { result ≡ false → len.new ≡ len.old }
    ensures no_value { result ≡ false → value.new ≡ value.old }

    // Contents.
    ensures unchanged { map.new.slot.value ≡ map.old.slot.value }
{
    let count = indexset_text_map_len(alloc, map);
    indexset_text_map_at(alloc, map, count.saturating_sub(1), key, len, value)
}
