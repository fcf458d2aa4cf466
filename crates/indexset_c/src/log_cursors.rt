//! Cursors of a logged map.
ghost use Rattle.std.specs.Prelude.{◌≡◌, ◌+◌, length, min};
ghost use Rattle.std.specs.Ordering.{nat_cmp};
ghost use Rattle.indexset_core.specs.Nodes.{node_lengths};
ghost use Rattle.indexset_core.specs.Pairs.{key_rank, pair_keys, pair_values};
ghost use Rattle.indexset_ffi.specs.Cursors.{cursor_position, log_from};
ghost use Rattle.indexset_ffi.specs.Elements.{logged_nodes, logged_pairs, written};

use indexset_ffi::cursor::{Cursor, START};
use indexset_ffi::log_calls::{cursor_at, cursor_from, nodes};
use indexset_ffi::log_handle::LogHandle;
use indexset_ffi::next::next_pairs;
use std::alloc::Global;

/// Moves a cursor to a position, counted from 0, or to the end if the position is past it.
#[unsafe(no_mangle)]
pub extern "C" fn indexset_log_cursor_at(
    alloc: Global,
    log: &mut LogHandle,
    position: usize,
    cursor: &mut Cursor,
)
    ensures contains { cursor_position (node_lengths (logged_nodes log.old.slot.value)) cursor.new
        ≡ min position (length (logged_pairs log.old.slot.value)) }
    ensures unchanged { log.new.slot.value ≡ log.old.slot.value }
{
    let Some(held) = log.take(alloc) else {
        *cursor = START;
        return;
    };
    *cursor = cursor_at(&held, position);
    log.put(held);
}

/// Moves a cursor to the first pair whose key is at least `from`, or to the end if there is none.
#[unsafe(no_mangle)]
pub extern "C" fn indexset_log_cursor_from(
    alloc: Global,
    log: &mut LogHandle,
    from: u64,
    cursor: &mut Cursor,
)
    ensures contains { cursor_position (node_lengths (logged_nodes log.old.slot.value)) cursor.new
        ≡ key_rank nat_cmp (logged_pairs log.old.slot.value) from }
    ensures unchanged { log.new.slot.value ≡ log.old.slot.value }
{
    let Some(held) = log.take(alloc) else {
        *cursor = START;
        return;
    };
    *cursor = cursor_from(&held, from);
    log.put(held);
}

/// Writes as many pairs from a cursor on as fit, in order, and moves the cursor past them.
///
/// Returns how many it wrote.
#[unsafe(no_mangle)]
pub extern "C" fn indexset_log_cursor_next(
    alloc: Global,
    log: &mut LogHandle,
    cursor: &mut Cursor,
    keys: &mut [u64],
    values: &mut [u64],
) -> usize
    // Result.
    ensures count { result ≡ min (length (log_from log.old.slot.value cursor.old))
        (min (length keys.old) (length values.old)) }
    ensures keys { keys.new ≡ written result
        (pair_keys (log_from log.old.slot.value cursor.old)) keys.old }
    ensures values { values.new ≡ written result
        (pair_values (log_from log.old.slot.value cursor.old)) values.old }

    // Contents.
    ensures moved { cursor_position (node_lengths (logged_nodes log.old.slot.value)) cursor.new
        ≡ cursor_position (node_lengths (logged_nodes log.old.slot.value)) cursor.old + result }
    ensures unchanged { log.new.slot.value ≡ log.old.slot.value }
{
    let Some(held) = log.take(alloc) else {
        return 0;
    };
    let count = next_pairs(nodes(&held), cursor, keys, values);
    log.put(held);
    count
}
