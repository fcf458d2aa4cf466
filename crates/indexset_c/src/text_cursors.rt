//! Cursors of a map from byte strings.
ghost use Rattle.std.specs.Prelude.{◌≡◌, ◌+◌, length, min, take};
ghost use Rattle.std.specs.Cmp.Lexicographic.{slice_cmp};
ghost use Rattle.std.specs.Ordering.{nat_cmp};
ghost use Rattle.indexset_core.specs.Nodes.{concat};
ghost use Rattle.indexset_core.specs.Pairs.{key_rank, pair_keys, pair_values};
ghost use Rattle.indexset_ffi.specs.Cursors.{cursor_position, text_from};
ghost use Rattle.indexset_ffi.specs.Elements.{written};
ghost use Rattle.indexset_ffi.specs.Text.{key_lengths, text_lengths, text_pairs, written_over};

use indexset_ffi::cursor::{Cursor, START};
use indexset_ffi::next::next_texts;
use indexset_ffi::text_find::{cursor_at, cursor_from};
use indexset_ffi::text_handle::TextHandle;
use std::alloc::Global;

/// Moves a cursor to a position, counted from 0, or to the end if the position is past it.
#[unsafe(no_mangle)]
pub extern "C" fn indexset_text_map_cursor_at(
    alloc: Global,
    map: &mut TextHandle,
    position: usize,
    cursor: &mut Cursor,
)
    ensures contains { cursor_position (text_lengths map.old.slot.value) cursor.new
        ≡ min position (length (text_pairs map.old.slot.value)) }
    ensures unchanged { map.new.slot.value ≡ map.old.slot.value }
{
    let Some(held) = map.take(alloc) else {
        *cursor = START;
        return;
    };
    *cursor = cursor_at(&held, position);
    map.put(held);
}

/// Moves a cursor to the first pair whose key is at least `from`, or to the end if there is none.
#[unsafe(no_mangle)]
pub extern "C" fn indexset_text_map_cursor_from(
    alloc: Global,
    map: &mut TextHandle,
    from: &[u8],
    cursor: &mut Cursor,
)
    ensures contains { cursor_position (text_lengths map.old.slot.value) cursor.new
        ≡ key_rank (slice_cmp nat_cmp) (text_pairs map.old.slot.value) from.now }
    ensures unchanged { map.new.slot.value ≡ map.old.slot.value }
{
    let Some(held) = map.take(alloc) else {
        *cursor = START;
        return;
    };
    *cursor = cursor_from(&held, from);
    map.put(held);
}

/// Writes as many pairs from a cursor on as fit, in order, and moves the cursor past them.
///
/// A pair is the length of its key and its value. The bytes of these keys are written one after
/// another, as many as fit. Returns how many pairs it wrote.
#[unsafe(no_mangle)]
pub extern "C" fn indexset_text_map_cursor_next(
    alloc: Global,
    map: &mut TextHandle,
    cursor: &mut Cursor,
    bytes: &mut [u8],
    lengths: &mut [usize],
    values: &mut [u64],
) -> usize
    // Result.
    ensures count { result ≡ min (length (text_from map.old.slot.value cursor.old))
        (min (length lengths.old) (length values.old)) }
    ensures bytes { bytes.new ≡ written_over
        (concat (take result (pair_keys (text_from map.old.slot.value cursor.old)))) bytes.old }
    ensures lengths { lengths.new ≡ written result
        (key_lengths (text_from map.old.slot.value cursor.old)) lengths.old }
    ensures values { values.new ≡ written result
        (pair_values (text_from map.old.slot.value cursor.old)) values.old }

    // Contents.
    ensures moved { cursor_position (text_lengths map.old.slot.value) cursor.new
        ≡ cursor_position (text_lengths map.old.slot.value) cursor.old + result }
    ensures unchanged { map.new.slot.value ≡ map.old.slot.value }
{
    let Some(held) = map.take(alloc) else {
        return 0;
    };
    let count = next_texts(held.nodes(), cursor, bytes, lengths, values);
    map.put(held);
    count
}
