//! Positions in a logged map from byte strings.
ghost use Rattle.std.specs.Prelude.{◌≡◌, Some, None, true, false, drop, length, min, take};
ghost use Rattle.indexset_core.specs.Nodes.{concat};
ghost use Rattle.indexset_core.specs.Pairs.{pair_keys, pair_values};
ghost use Rattle.indexset_ffi.specs.Elements.{written};
ghost use Rattle.indexset_ffi.specs.Text.{key_at, key_lengths, value_at, written_over};
ghost use Rattle.indexset_ffi.specs.TextLogs.{logged_texts};

use indexset_ffi::text_log_calls::{write_keys, write_values};
use indexset_ffi::text_log_handle::TextLogHandle;
use indexset_ffi::write::write_bytes;
use std::alloc::Global;

/// Writes the pair at a position, counted from 0. Returns `false` if the position is past the end.
///
/// It writes as many bytes of the key as fit, the length of the key, and the value.
#[unsafe(no_mangle)]
pub extern "C" fn indexset_text_log_at(
    alloc: Global,
    log: &mut TextLogHandle,
    position: usize,
    key: &mut [u8],
    len: &mut usize,
    value: &mut u64,
) -> bool
    // Result.
    ensures found { result ≡ true → value_at (logged_texts log.old.slot.value) position
        ≡ Some value.new }
    ensures long { result ≡ true → len.new
        ≡ length (key_at (logged_texts log.old.slot.value) position) }
    ensures bytes { key.new ≡ written_over (key_at (logged_texts log.old.slot.value) position)
        key.old }
    ensures absent { result ≡ false → value_at (logged_texts log.old.slot.value) position ≡ None }
    ensures no_len { result ≡ false → len.new ≡ len.old }
    ensures no_value { result ≡ false → value.new ≡ value.old }

    // Contents.
    ensures unchanged { log.new.slot.value ≡ log.old.slot.value }
{
    let Some(held) = log.take(alloc) else {
        return false;
    };
    let found = match held.get_index(position) {
        Some((stored, number)) => {
            write_bytes(stored.as_bytes(), key);
            *len = stored.len();
            *value = *number;
            true
        }
        None => false,
    };
    log.put(held);
    found
}

/// Writes as many values of the pairs from a position on as fit, in order.
///
/// Returns how many it wrote.
#[unsafe(no_mangle)]
pub extern "C" fn indexset_text_log_range_by_position(
    alloc: Global,
    log: &mut TextLogHandle,
    from: usize,
    values: &mut [u64],
) -> usize
    ensures count { result ≡ min (length (drop from (logged_texts log.old.slot.value)))
        (length values.old) }
    ensures values { values.new ≡ written result
        (pair_values (drop from (logged_texts log.old.slot.value))) values.old }
    ensures unchanged { log.new.slot.value ≡ log.old.slot.value }
{
    let Some(held) = log.take(alloc) else {
        return 0;
    };
    let walk = held.range_from(from);
    let count = write_values(walk, values);
    log.put(held);
    count
}

/// Writes as many lengths of the keys from a position on as fit, in order.
///
/// The bytes of these keys are written one after another, as many as fit. Returns how many lengths
/// it wrote.
#[unsafe(no_mangle)]
pub extern "C" fn indexset_text_log_keys_by_position(
    alloc: Global,
    log: &mut TextLogHandle,
    from: usize,
    bytes: &mut [u8],
    lengths: &mut [usize],
) -> usize
    ensures count { result ≡ min (length (drop from (logged_texts log.old.slot.value)))
        (length lengths.old) }
    ensures lengths { lengths.new ≡ written result
        (key_lengths (drop from (logged_texts log.old.slot.value))) lengths.old }
    ensures bytes { bytes.new ≡ written_over
        (concat (take result (pair_keys (drop from (logged_texts log.old.slot.value))))) bytes.old }
    ensures unchanged { log.new.slot.value ≡ log.old.slot.value }
{
    let Some(held) = log.take(alloc) else {
        return 0;
    };
    let walk = held.range_from(from);
    let count = write_keys(walk, bytes, lengths);
    log.put(held);
    count
}
