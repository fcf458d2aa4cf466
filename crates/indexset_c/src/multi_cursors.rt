//! Cursors of a multimap.
ghost use Rattle.std.specs.Prelude.{◌≡◌, ◌+◌, length, map, min};
ghost use Rattle.std.specs.List.{count_by};
ghost use Rattle.std.specs.Ordering.{is_lt, nat_cmp};
ghost use Rattle.indexset_ffi.specs.Cursors.{cursor_position, multi_from};
ghost use Rattle.indexset_ffi.specs.Elements.{multi_lengths, numbered_pairs, written};

use indexset_ffi::cursor::{Cursor, START};
use indexset_ffi::multi_calls::{cursor_at, cursor_from, nodes};
use indexset_ffi::multi_handle::MultiHandle;
use indexset_ffi::next::next_pairs;
use std::alloc::Global;

/// Moves a cursor to a position, counted from 0, or to the end if the position is past it.
#[unsafe(no_mangle)]
pub extern "C" fn indexset_multi_cursor_at(
    alloc: Global,
    multi: &mut MultiHandle,
    position: usize,
    cursor: &mut Cursor,
)
    ensures contains { cursor_position (multi_lengths multi.old.slot.value) cursor.new
        ≡ min position (length (numbered_pairs multi.old.slot.value)) }
    ensures unchanged { multi.new.slot.value ≡ multi.old.slot.value }
{
    let Some(held) = multi.take(alloc) else {
        *cursor = START;
        return;
    };
    *cursor = cursor_at(&held, position);
    multi.put(held);
}

/// Moves a cursor to the first pair whose key is at least `from`, or to the end if there is none.
#[unsafe(no_mangle)]
pub extern "C" fn indexset_multi_cursor_from(
    alloc: Global,
    multi: &mut MultiHandle,
    from: u64,
    cursor: &mut Cursor,
)
    ensures contains { cursor_position (multi_lengths multi.old.slot.value) cursor.new
        ≡ count_by (λ p. is_lt (nat_cmp p.key from)) (numbered_pairs multi.old.slot.value) }
    ensures unchanged { multi.new.slot.value ≡ multi.old.slot.value }
{
    let Some(held) = multi.take(alloc) else {
        *cursor = START;
        return;
    };
    *cursor = cursor_from(&held, from);
    multi.put(held);
}

/// Writes as many pairs from a cursor on as fit, in order, and moves the cursor past them.
///
/// Returns how many it wrote.
#[unsafe(no_mangle)]
pub extern "C" fn indexset_multi_cursor_next(
    alloc: Global,
    multi: &mut MultiHandle,
    cursor: &mut Cursor,
    keys: &mut [u64],
    values: &mut [u64],
) -> usize
    // Result.
    ensures count { result ≡ min (length (multi_from multi.old.slot.value cursor.old))
        (min (length keys.old) (length values.old)) }
    ensures keys { keys.new ≡ written result
        (map (λ p. p.key) (multi_from multi.old.slot.value cursor.old)) keys.old }
    ensures values { values.new ≡ written result
        (map (λ p. p.value) (multi_from multi.old.slot.value cursor.old)) values.old }

    // Contents.
    ensures moved { cursor_position (multi_lengths multi.old.slot.value) cursor.new
        ≡ cursor_position (multi_lengths multi.old.slot.value) cursor.old + result }
    ensures unchanged { multi.new.slot.value ≡ multi.old.slot.value }
{
    let Some(held) = multi.take(alloc) else {
        return 0;
    };
    let count = next_pairs(nodes(&held), cursor, keys, values);
    multi.put(held);
    count
}
