//! Cursors of a map.
ghost use Rattle.std.specs.Prelude.{◌≡◌, ◌+◌, length, min};
ghost use Rattle.std.specs.Ordering.{nat_cmp};
ghost use Rattle.indexset_core.specs.Pairs.{key_rank, pair_keys, pair_values};
ghost use Rattle.indexset_ffi.specs.Cursors.{cursor_position, map_from};
ghost use Rattle.indexset_ffi.specs.Elements.{map_lengths, pairs, written};

use indexset_ffi::cursor::{Cursor, START};
use indexset_ffi::map_calls::{cursor_at, cursor_from};
use indexset_ffi::map_handle::MapHandle;
use indexset_ffi::next::next_pairs;
use std::alloc::Global;

/// Moves a cursor to a position, counted from 0, or to the end if the position is past it.
#[unsafe(no_mangle)]
pub extern "C" fn indexset_map_cursor_at(
    alloc: Global,
    map: &mut MapHandle,
    position: usize,
    cursor: &mut Cursor,
)
    ensures contains { cursor_position (map_lengths map.old.slot.value) cursor.new
        ≡ min position (length (pairs map.old.slot.value)) }
    ensures unchanged { map.new.slot.value ≡ map.old.slot.value }
{
    let Some(held) = map.take(alloc) else {
        *cursor = START;
        return;
    };
    *cursor = cursor_at(&held, position);
    map.put(held);
}

/// Moves a cursor to the first pair whose key is at least `from`, or to the end if there is none.
#[unsafe(no_mangle)]
pub extern "C" fn indexset_map_cursor_from(
    alloc: Global,
    map: &mut MapHandle,
    from: u64,
    cursor: &mut Cursor,
)
    ensures contains { cursor_position (map_lengths map.old.slot.value) cursor.new
        ≡ key_rank nat_cmp (pairs map.old.slot.value) from }
    ensures unchanged { map.new.slot.value ≡ map.old.slot.value }
{
    let Some(held) = map.take(alloc) else {
        *cursor = START;
        return;
    };
    *cursor = cursor_from(&held, from);
    map.put(held);
}

/// Writes as many pairs from a cursor on as fit, in order, and moves the cursor past them.
///
/// Returns how many it wrote.
#[unsafe(no_mangle)]
pub extern "C" fn indexset_map_cursor_next(
    alloc: Global,
    map: &mut MapHandle,
    cursor: &mut Cursor,
    keys: &mut [u64],
    values: &mut [u64],
) -> usize
    // Result.
    ensures count { result ≡ min (length (map_from map.old.slot.value cursor.old))
        (min (length keys.old) (length values.old)) }
    ensures keys { keys.new ≡ written result
        (pair_keys (map_from map.old.slot.value cursor.old)) keys.old }
    ensures values { values.new ≡ written result
        (pair_values (map_from map.old.slot.value cursor.old)) values.old }

    // Contents.
    ensures moved { cursor_position (map_lengths map.old.slot.value) cursor.new
        ≡ cursor_position (map_lengths map.old.slot.value) cursor.old + result }
    ensures unchanged { map.new.slot.value ≡ map.old.slot.value }
{
    let Some(held) = map.take(alloc) else {
        return 0;
    };
    let count = next_pairs(held.nodes(), cursor, keys, values);
    map.put(held);
    count
}
