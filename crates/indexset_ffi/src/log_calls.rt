//! Bodies of the calls of a logged map.
ghost use Rattle.std.specs.Prelude.{◌≡◌, ◌+◌, ◌<◌, ◌≤◌, length, map, IfOk};
ghost use Rattle.std.specs.Prelude.{OnOk, IfErr, OnErr, IsOk, None, Some, min};
ghost use Rattle.std.specs.Ordering.{nat_cmp};
ghost use Rattle.indexset_core.specs.Nodes.{concat, node_lengths, vec_items};
ghost use Rattle.indexset_core.specs.Pairs.{by_key, key_rank, pair, value_of};
ghost use Rattle.indexset_core.specs.Pairs.{pair_keys, pair_values};
ghost use Rattle.indexset_log.specs.Changed.{Changed, key_removal};
ghost use Rattle.indexset_events.specs.Edits.{with_put};
ghost use Rattle.indexset_events.specs.Keys.{key_removal_events};
ghost use Rattle.indexset_events.specs.Replay.{numbered_from, replay};
ghost use Rattle.indexset_events.specs.Table.{put_events};
ghost use Rattle.indexset_log.specs.Tree.{refusal_for};
ghost use Rattle.indexset_ffi.specs.Cursors.{cursor_position};
ghost use Rattle.indexset_ffi.specs.Elements.{written};
ghost use Rattle.indexset_ffi.specs.Events.{record_of};

use crate::cursor::{self, Cursor};
use crate::event::{Event, write_events};
use crate::log_slot::{LoggedMap, LoggedNodes, LoggedRange};
use indexset_core::pair::Pair;
use indexset_core::probe::ByKey;
use indexset_core::refusal::Refusal;

/// Inserts a pair, and writes the events. Returns the old value and the number of events.
pub fn insert_told(
    log: &mut LoggedMap,
    key: u64,
    value: u64,
    events: &mut [Event],
) -> Result<(Option<u64>, usize), Refusal>
    requires { 3 ≤ length events.old }

    // Result.
    ensures before { IfOk result (λ r. r.0 ≡ value_of nat_cmp (concat log.old.nodes) key) }
    ensures event_count { IfOk result (λ r. r.1 ≡ length
        (put_events (by_key nat_cmp) log.old.size log.old.nodes (pair key value))) }
    ensures at_most_three_events { IfOk result (λ r. r.1 ≤ 3) }
    ensures events { OnOk result (events.new
        ≡ written (length (put_events (by_key nat_cmp) log.old.size log.old.nodes (pair key value)))
        (map record_of (numbered_from log.old.next
        (put_events (by_key nat_cmp) log.old.size log.old.nodes (pair key value)))) events.old) }

    // Contents.
    ensures ok { OnOk result (log.new ≡ record {
      nodes = with_put (by_key nat_cmp) log.old.size log.old.nodes (pair key value);
      size = log.old.size;
      next = log.old.next
          + length (put_events (by_key nat_cmp) log.old.size log.old.nodes (pair key value));
    }) }

    // Failure.
    ensures refusal { IfErr result (λ e. e
        ≡ refusal_for log.old.next (length
        (put_events (by_key nat_cmp) log.old.size log.old.nodes (pair key value)))) }
    ensures unchanged { OnErr result (log.new ≡ log.old) }
    ensures unwritten { OnErr result (events.new ≡ events.old) }

    // Nodes.
    ensures led { OnOk result (replay (by_key nat_cmp) log.old.nodes (numbered_from log.old.next
        (put_events (by_key nat_cmp) log.old.size log.old.nodes (pair key value)))
        ≡ Some log.new.nodes) }
{
    match log.insert_cdc(key, value) {
        Ok((before, changes)) => {
            write_events(changes.as_slice(), events);
            Ok((before, changes.len()))
        }
        Err(refused) => Err(refused.cause),
    }
}

/// Removes a key, and writes the events. Returns its value and the number of events.
pub fn remove_told(
    log: &mut LoggedMap,
    key: u64,
    events: &mut [Event],
) -> Result<(Option<u64>, usize), Refusal>
    requires { 3 ≤ length events.old }

    // Result.
    ensures found { IfOk result (λ r. r.0 ≡ value_of nat_cmp (concat log.old.nodes) key) }
    ensures event_count { IfOk result (λ r. r.1 ≡ length
        (key_removal_events nat_cmp log.old.size log.old.nodes key)) }
    ensures at_most_three_events { IfOk result (λ r. r.1 ≤ 3) }
    ensures events { OnOk result (events.new
        ≡ written (length (key_removal_events nat_cmp log.old.size log.old.nodes key))
        (map record_of (numbered_from log.old.next
        (key_removal_events nat_cmp log.old.size log.old.nodes key))) events.old) }

    // Contents.
    ensures changed { OnOk result (Changed (by_key nat_cmp) log.old log.new
        (key_removal nat_cmp log.old key)) }
    ensures absent { IfOk result (λ r. r.0 ≡ None → (r.1 ≡ 0) × (log.new ≡ log.old)) }

    // Failure.
    ensures refusal { IfErr result (λ e. e
        ≡ refusal_for log.old.next (length
        (key_removal_events nat_cmp log.old.size log.old.nodes key))) }
    ensures unchanged { OnErr result ((log.new ≡ log.old) × (events.new ≡ events.old)) }

    // Memory.
    ensures no_event { value_of nat_cmp (concat log.old.nodes) key ≡ None → IsOk result }
{
    let (found, changes) = log.remove_cdc(&key)?;
    write_events(changes.as_slice(), events);
    let value = match found {
        Some((_, value)) => Some(value),
        None => None,
    };
    Ok((value, changes.len()))
}

/// Writes the lengths of as many nodes of an iterator as fit, and returns how many it wrote.
pub fn write_lengths(mut walk: LoggedNodes<'_>, out: &mut [usize]) -> usize
    ensures count { result ≡ min (length walk.entry) (length out.old) }
    ensures written { out.new ≡ written result (node_lengths (vec_items walk.entry)) out.old }
{
    let mut count = 0;
    while count < out.len() {
        let Some(node) = walk.next() else {
            break;
        };
        out[count] = node.len();
        count += 1;
    }
    count
}

/// Writes as many pairs of an iterator as fit in both slices, and returns how many it wrote.
pub fn write_logged(mut walk: LoggedRange<'_>, keys: &mut [u64], values: &mut [u64]) -> usize
    ensures count { result ≡ min (length walk.entry) (min (length keys.old) (length values.old)) }
    ensures keys { keys.new ≡ written result (pair_keys walk.entry) keys.old }
    ensures values { values.new ≡ written result (pair_values walk.entry) values.old }
{
    let room = keys.len().min(values.len());
    let mut count = 0;
    while count < room {
        let Some((key, value)) = walk.next() else {
            break;
        };
        keys[count] = *key;
        values[count] = *value;
        count += 1;
    }
    count
}

/// Returns the nodes, in order.
pub fn nodes(log: &LoggedMap) -> &[Vec<Pair<u64, u64>>]
    ensures { vec_items result.now ≡ log.now.nodes }
{
    log.iter_nodes().as_slice()
}

/// Returns a cursor at the first pair whose key is at least `from`, or at the end.
pub fn cursor_from(log: &LoggedMap, from: u64) -> Cursor
    ensures { cursor_position (node_lengths log.now.nodes) result
        ≡ key_rank nat_cmp (concat log.now.nodes) from }
{
    // For the proof: the keys ascend, and no node is empty.
    log.node_count();
    cursor::find(nodes(log), ByKey::new(&from))
}

/// Returns a cursor at a position, or at the end if the position is past it.
pub fn cursor_at(log: &LoggedMap, position: usize) -> Cursor
    ensures { cursor_position (node_lengths log.now.nodes) result
        ≡ min position (length (concat log.now.nodes)) }
{
    match log.get_index(position) {
        Some((key, _)) => {
            let near = cursor_from(log, *key);
            cursor::near_to(nodes(log), near, log.rank(key), position)
        }
        None => cursor::end(nodes(log)),
    }
}
