//! Bodies of the calls of a replica.
ghost use Rattle.std.specs.Prelude.{◌≡◌, ◌≢◌, ◌<◌, ◌≤◌, length, take, unwrap_or};
ghost use Rattle.std.specs.Prelude.{IfSome, None, Some, slice_get, IfOk, min};
ghost use Rattle.indexset_ffi.specs.Replicas.{applied, applied_all, refused, replica_of};
ghost use Rattle.std.specs.Ordering.{nat_cmp};
ghost use Rattle.indexset_core.specs.Nodes.{concat, vec_items, node_lengths};
ghost use Rattle.indexset_core.specs.Pairs.{key_rank, pair_keys, pair_values};
ghost use Rattle.indexset_ffi.specs.Cursors.{cursor_position};
ghost use Rattle.indexset_ffi.specs.Elements.{written};

use crate::cursor::{self, Cursor};
use crate::event::{Event, event_of};
use crate::log_slot::{LoggedMap, LoggedNodes};
use crate::replica_slot::{MapReplica, ReplicaRange};
use crate::status::{MEMORY, NO, NONE, UNFIT, YES, status_of};
use indexset_core::pair::Pair;
use indexset_core::probe::ByKey;
use indexset_replica::Replica;
use std::alloc::{AllocError, Global};

/// Applies the event of a record, and returns the status.
pub fn apply_record(replica: &mut MapReplica, event: &Event) -> u32
    // Contents.
    ensures ok { result ≤ YES → applied replica.old event.now ≡ Some replica.new }

    // Failure.
    ensures fits { result ≡ YES → refused replica.old event.now ≡ None }
    ensures refusal { result ≢ YES → result ≡ unwrap_or (refused replica.old event.now) MEMORY }
    ensures unchanged { result ≢ YES → replica.new ≡ replica.old }
    ensures some { result ≢ NONE }
{
    let Some(change) = event_of(event) else {
        return UNFIT;
    };
    if change.id().inner() < replica.next() {
        return NO;
    }
    match replica.apply(&change) {
        Ok(()) => YES,
        Err(cause) => status_of(cause),
    }
}

/// Applies the events of records in order, and stops at the first that is refused.
///
/// Returns the status and how many records were taken.
pub fn apply_each(replica: &mut MapReplica, events: &[Event]) -> (u32, usize)
    // Result.
    ensures all { result.0 ≡ YES → result.1 ≡ length events.now }

    // Contents.
    ensures applied { applied_all replica.old (take result.1 events.now) ≡ Some replica.new }

    // Failure.
    ensures some { result.0 ≢ YES → result.1 < length events.now }
    ensures refusal { result.0 ≢ YES → IfSome (slice_get events.now result.1)
        (λ e. result.0 ≡ unwrap_or (refused replica.new e) MEMORY) }
    ensures status { (result.0 ≢ NO) × (result.0 ≢ NONE) }
{
    let mut count = 0;
    while count < events.len() {
        let status = apply_record(replica, &events[count]);
        if status > YES {
            return (status, count);
        }
        count += 1;
    }
    (YES, count)
}

/// Returns copies of the remaining nodes of an iterator.
pub fn copies(alloc: Global, walk: LoggedNodes<'_>) -> Result<Vec<Vec<Pair<u64, u64>>>, AllocError>
    ensures { IfOk result (λ nodes. vec_items nodes.items ≡ vec_items walk.entry) }
{
    let mut nodes = Vec::new(alloc);
    for node in walk {
        nodes.push(Vec::from_clones(alloc, node.as_slice())?)?;
    }
    Ok(nodes)
}

/// Returns a replica of a logged map, or `None` if memory runs out.
pub fn replica_of(alloc: Global, log: &LoggedMap) -> Option<MapReplica>
    ensures { IfSome result (λ r. r ≡ replica_of log.now) }
{
    // For the proof: the nodes are lawful.
    log.node_count();
    let Ok(nodes) = copies(alloc, log.iter_nodes()) else {
        return None;
    };
    match Replica::from_nodes(nodes, log.events_issued()) {
        Ok(replica) => Some(replica),
        Err(_) => None,
    }
}

/// Returns a pair with this key, for a look-up.
pub fn sought(key: u64) -> Pair<u64, u64>
    ensures { result ≡ record { key = key; value = 0 } }
{
    Pair { key, value: 0 }
}

/// Writes the lengths of as many nodes as fit, and returns how many it wrote.
pub fn write_lengths(nodes: &[Vec<Pair<u64, u64>>], out: &mut [usize]) -> usize
    ensures count { result ≡ min (length nodes.now) (length out.old) }
    ensures written { out.new ≡ written result (node_lengths (vec_items nodes.now)) out.old }
{
    let count = nodes.len().min(out.len());
    for i in 0..count {
        out[i] = nodes[i].len();
    }
    count
}

/// Writes as many pairs of an iterator as fit in both slices, and returns how many it wrote.
pub fn write_copied(mut walk: ReplicaRange<'_>, keys: &mut [u64], values: &mut [u64]) -> usize
    ensures count { result ≡ min (length walk.entry) (min (length keys.old) (length values.old)) }
    ensures keys { keys.new ≡ written result (pair_keys walk.entry) keys.old }
    ensures values { values.new ≡ written result (pair_values walk.entry) values.old }
{
    let room = keys.len().min(values.len());
    let mut count = 0;
    while count < room {
        let Some(pair) = walk.next() else {
            break;
        };
        keys[count] = pair.key;
        values[count] = pair.value;
        count += 1;
    }
    count
}

/// Returns a cursor at the first pair whose key is at least `from`, or at the end.
pub fn cursor_from(replica: &MapReplica, from: u64) -> Cursor
    ensures { cursor_position (node_lengths replica.now.nodes) result
        ≡ key_rank nat_cmp (concat replica.now.nodes) from }
{
    cursor::find(replica.nodes(), ByKey::new(&from))
}

/// Returns a cursor at a position, or at the end if the position is past it.
pub fn cursor_at(replica: &MapReplica, position: usize) -> Cursor
    ensures { cursor_position (node_lengths replica.now.nodes) result
        ≡ min position (length (concat replica.now.nodes)) }
{
    match replica.get_index(position) {
        Some(pair) => {
            let near = cursor_from(replica, pair.key);
            cursor::near_to(replica.nodes(), near, replica.rank(&pair.key), position)
        }
        None => cursor::end(replica.nodes()),
    }
}
