//! Cursors of a replica.
ghost use Rattle.std.specs.Prelude.{◌≡◌, ◌+◌, length, min};
ghost use Rattle.std.specs.Ordering.{nat_cmp};
ghost use Rattle.indexset_core.specs.Nodes.{node_lengths};
ghost use Rattle.indexset_core.specs.Pairs.{key_rank, pair_keys, pair_values};
ghost use Rattle.indexset_ffi.specs.Cursors.{cursor_position, replica_from};
ghost use Rattle.indexset_ffi.specs.Elements.{written};
ghost use Rattle.indexset_ffi.specs.Replicas.{copied_nodes, copied_pairs};

use indexset_ffi::cursor::{Cursor, START};
use indexset_ffi::next::next_pairs;
use indexset_ffi::replica_calls::{cursor_at, cursor_from};
use indexset_ffi::replica_handle::ReplicaHandle;
use std::alloc::Global;

/// Moves a cursor to a position, counted from 0, or to the end if the position is past it.
#[unsafe(no_mangle)]
pub extern "C" fn indexset_replica_cursor_at(
    alloc: Global,
    replica: &mut ReplicaHandle,
    position: usize,
    cursor: &mut Cursor,
)
    ensures contains { cursor_position (node_lengths (copied_nodes replica.old.slot.value))
        cursor.new
        ≡ min position (length (copied_pairs replica.old.slot.value)) }
    ensures unchanged { replica.new.slot.value ≡ replica.old.slot.value }
{
    let Some(held) = replica.take(alloc) else {
        *cursor = START;
        return;
    };
    *cursor = cursor_at(&held, position);
    replica.put(held);
}

/// Moves a cursor to the first pair whose key is at least `from`, or to the end if there is none.
#[unsafe(no_mangle)]
pub extern "C" fn indexset_replica_cursor_from(
    alloc: Global,
    replica: &mut ReplicaHandle,
    from: u64,
    cursor: &mut Cursor,
)
    ensures contains { cursor_position (node_lengths (copied_nodes replica.old.slot.value))
        cursor.new
        ≡ key_rank nat_cmp (copied_pairs replica.old.slot.value) from }
    ensures unchanged { replica.new.slot.value ≡ replica.old.slot.value }
{
    let Some(held) = replica.take(alloc) else {
        *cursor = START;
        return;
    };
    *cursor = cursor_from(&held, from);
    replica.put(held);
}

/// Writes as many pairs from a cursor on as fit, in order, and moves the cursor past them.
///
/// Returns how many it wrote.
#[unsafe(no_mangle)]
pub extern "C" fn indexset_replica_cursor_next(
    alloc: Global,
    replica: &mut ReplicaHandle,
    cursor: &mut Cursor,
    keys: &mut [u64],
    values: &mut [u64],
) -> usize
    // Result.
    ensures count { result ≡ min (length (replica_from replica.old.slot.value cursor.old))
        (min (length keys.old) (length values.old)) }
    ensures keys { keys.new ≡ written result
        (pair_keys (replica_from replica.old.slot.value cursor.old)) keys.old }
    ensures values { values.new ≡ written result
        (pair_values (replica_from replica.old.slot.value cursor.old)) values.old }

    // Contents.
    ensures moved { cursor_position (node_lengths (copied_nodes replica.old.slot.value)) cursor.new
        ≡ cursor_position (node_lengths (copied_nodes replica.old.slot.value)) cursor.old + result }
    ensures unchanged { replica.new.slot.value ≡ replica.old.slot.value }
{
    let Some(held) = replica.take(alloc) else {
        return 0;
    };
    let count = next_pairs(held.nodes(), cursor, keys, values);
    replica.put(held);
    count
}
