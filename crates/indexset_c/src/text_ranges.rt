//! Ranges of a map from byte strings.
ghost use Rattle.std.specs.Prelude.{◌≡◌, drop, length, min, take};
ghost use Rattle.indexset_core.specs.Nodes.{concat};
ghost use Rattle.indexset_core.specs.Pairs.{pair_keys, pair_values};
ghost use Rattle.indexset_ffi.specs.Elements.{written};
ghost use Rattle.indexset_ffi.specs.Text.{key_lengths, text_pairs, written_over};

use indexset_ffi::text_calls::{write_keys, write_values};
use indexset_ffi::text_handle::TextHandle;
use std::alloc::Global;
use std::ops::Bound;

/// Writes as many values of the pairs from a position on as fit, in order.
///
/// Returns how many it wrote.
#[unsafe(no_mangle)]
pub extern "C" fn indexset_text_map_range_by_position(
    alloc: Global,
    map: &mut TextHandle,
    from: usize,
    values: &mut [u64],
) -> usize
    ensures count { result ≡ min (length (drop from (text_pairs map.old.slot.value)))
        (length values.old) }
    ensures values { values.new ≡ written result
        (pair_values (drop from (text_pairs map.old.slot.value))) values.old }
    ensures unchanged { map.new.slot.value ≡ map.old.slot.value }
{
    let Some(held) = map.take(alloc) else {
        return 0;
    };
    let walk = held.range_idx((Bound::Included(from), Bound::Unbounded));
    let count = write_values(walk, values);
    map.put(held);
    count
}

/// Writes as many lengths of the keys from a position on as fit, in order.
///
/// The bytes of these keys are written one after another, as many as fit. Returns how many lengths
/// it wrote.
#[unsafe(no_mangle)]
pub extern "C" fn indexset_text_map_keys_by_position(
    alloc: Global,
    map: &mut TextHandle,
    from: usize,
    bytes: &mut [u8],
    lengths: &mut [usize],
) -> usize
    ensures count { result ≡ min (length (drop from (text_pairs map.old.slot.value)))
        (length lengths.old) }
    ensures lengths { lengths.new ≡ written result
        (key_lengths (drop from (text_pairs map.old.slot.value))) lengths.old }
    ensures bytes { bytes.new ≡ written_over
        (concat (take result (pair_keys (drop from (text_pairs map.old.slot.value))))) bytes.old }
    ensures unchanged { map.new.slot.value ≡ map.old.slot.value }
{
    let Some(held) = map.take(alloc) else {
        return 0;
    };
    let walk = held.range_idx((Bound::Included(from), Bound::Unbounded));
    let count = write_keys(walk, bytes, lengths);
    map.put(held);
    count
}
