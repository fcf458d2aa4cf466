//! Cursors of a set.
ghost use Rattle.std.specs.Prelude.{◌≡◌, ◌+◌, length, min};
ghost use Rattle.std.specs.Ordering.{nat_cmp};
ghost use Rattle.indexset_core.specs.Order.{rank};
ghost use Rattle.indexset_ffi.specs.Cursors.{cursor_position, set_from};
ghost use Rattle.indexset_ffi.specs.Elements.{elements, set_lengths, written};

use indexset_ffi::cursor::{Cursor, START};
use indexset_ffi::next::next_elements;
use indexset_ffi::set_calls::{cursor_at, cursor_from};
use indexset_ffi::set_handle::SetHandle;
use std::alloc::Global;

/// Moves a cursor to a position, counted from 0, or to the end if the position is past it.
#[unsafe(no_mangle)]
pub extern "C" fn indexset_set_cursor_at(
    alloc: Global,
    set: &mut SetHandle,
    position: usize,
    cursor: &mut Cursor,
)
    ensures contains { cursor_position (set_lengths set.old.slot.value) cursor.new
        ≡ min position (length (elements set.old.slot.value)) }
    ensures unchanged { set.new.slot.value ≡ set.old.slot.value }
{
    let Some(held) = set.take(alloc) else {
        *cursor = START;
        return;
    };
    *cursor = cursor_at(&held, position);
    set.put(held);
}

/// Moves a cursor to the first element that is at least this key, or to the end if there is none.
#[unsafe(no_mangle)]
pub extern "C" fn indexset_set_cursor_from(
    alloc: Global,
    set: &mut SetHandle,
    key: u64,
    cursor: &mut Cursor,
)
    ensures contains { cursor_position (set_lengths set.old.slot.value) cursor.new
        ≡ rank nat_cmp (elements set.old.slot.value) key }
    ensures unchanged { set.new.slot.value ≡ set.old.slot.value }
{
    let Some(held) = set.take(alloc) else {
        *cursor = START;
        return;
    };
    *cursor = cursor_from(&held, key);
    set.put(held);
}

/// Writes as many elements from a cursor on as fit, in order, and moves the cursor past them.
///
/// Returns how many it wrote.
#[unsafe(no_mangle)]
pub extern "C" fn indexset_set_cursor_next(
    alloc: Global,
    set: &mut SetHandle,
    cursor: &mut Cursor,
    out: &mut [u64],
) -> usize
    ensures count { result ≡ min (length (set_from set.old.slot.value cursor.old))
        (length out.old) }
    ensures written { out.new ≡ written result
        (set_from set.old.slot.value cursor.old) out.old }
    ensures moved { cursor_position (set_lengths set.old.slot.value) cursor.new
        ≡ cursor_position (set_lengths set.old.slot.value) cursor.old + result }
    ensures unchanged { set.new.slot.value ≡ set.old.slot.value }
{
    let Some(held) = set.take(alloc) else {
        return 0;
    };
    let count = next_elements(held.nodes(), cursor, out);
    set.put(held);
    count
}
