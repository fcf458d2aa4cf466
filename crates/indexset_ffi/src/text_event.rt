//! Events of a logged map from byte strings as C records.
ghost use Rattle.std.specs.Prelude.{◌≡◌};
ghost use Rattle.std.specs.Option.{option_copied};
ghost use Rattle.indexset_ffi.specs.Text.{written_over};
ghost use Rattle.indexset_ffi.specs.TextLogs.{event_index, kind_of, node_key, event_node};
ghost use Rattle.indexset_ffi.specs.TextLogs.{pair_key, event_pair, text_record};

use crate::event::{CREATE, DROP, INSERT, MERGE, REMOVE, SPLIT};
use crate::text_log::TextChange;
use crate::write::write_bytes;
use indexset_core::pair::Pair;
use indexset_core::text::Text;
use indexset_events::change::ChangeEvent;

/// An event, without the bytes of its two keys. A field that a kind does not use is 0.
///
/// A node is identified by its last pair before the event, or by its only pair if the event creates
/// it.
#[repr(C)]
#[derive(Clone, Copy)]
pub struct TextEvent {
    /// The event number.
    pub number: u64,
    /// The length of the key of the pair that identifies the node.
    pub node_len: usize,
    /// The value of that pair.
    pub node_value: u64,
    /// The length of the key of the pair.
    pub key_len: usize,
    /// The value of the pair.
    pub value: u64,
    /// The index in the node.
    pub index: usize,
    /// The kind.
    pub kind: u32,
}

// Returns the kind of an event.
fn kind_of(change: &TextChange) -> u32
    ensures { result ≡ kind_of change.now }
{
    match change {
        ChangeEvent::InsertAt { .. } => INSERT,
        ChangeEvent::RemoveAt { .. } => REMOVE,
        ChangeEvent::CreateNode { .. } => CREATE,
        ChangeEvent::RemoveNode { .. } => DROP,
        ChangeEvent::SplitNode { .. } => SPLIT,
        ChangeEvent::MergeNodes { .. } => MERGE,
    }
}

// Returns the pair that identifies the node of an event.
fn event_node(change: &TextChange) -> &Pair<Text, u64>
    ensures { result.now ≡ event_node change.now }
{
    match change {
        ChangeEvent::InsertAt { max_value, .. } => max_value,
        ChangeEvent::RemoveAt { max_value, .. } => max_value,
        ChangeEvent::CreateNode { max_value, .. } => max_value,
        ChangeEvent::RemoveNode { max_value, .. } => max_value,
        ChangeEvent::SplitNode { max_value, .. } => max_value,
        ChangeEvent::MergeNodes { max_value, .. } => max_value,
    }
}

// Returns the pair that an event inserts or removes, or that identifies its second node.
fn event_pair(change: &TextChange) -> Option<&Pair<Text, u64>>
    ensures { option_copied result ≡ event_pair change.now }
{
    match change {
        ChangeEvent::InsertAt { value, .. } => Some(value),
        ChangeEvent::RemoveAt { value, .. } => Some(value),
        ChangeEvent::MergeNodes { next_max_value, .. } => Some(next_max_value),
        _ => None,
    }
}

// Returns the index of an event.
fn event_index(change: &TextChange) -> usize
    ensures { result ≡ event_index change.now }
{
    match change {
        ChangeEvent::InsertAt { index, .. } => *index,
        ChangeEvent::RemoveAt { index, .. } => *index,
        ChangeEvent::SplitNode { split_index, .. } => *split_index,
        _ => 0,
    }
}

/// Writes the record of an event, and as many bytes of its two keys as fit.
pub fn write_change(change: &TextChange, event: &mut TextEvent, node: &mut [u8], key: &mut [u8])
    ensures record { event.new ≡ text_record change.now }
    ensures node { node.new ≡ written_over (node_key change.now) node.old }
    ensures key { key.new ≡ written_over (pair_key change.now) key.old }
{
    let number = change.id().inner();
    let kind = kind_of(change);
    let index = event_index(change);
    let named = event_node(change);
    let (key_len, value) = match event_pair(change) {
        Some(pair) => {
            write_bytes(pair.key.as_bytes(), key);
            (pair.key.len(), pair.value)
        }
        None => (0, 0),
    };
    write_bytes(named.key.as_bytes(), node);
    *event = TextEvent {
        number,
        node_len: named.key.len(),
        node_value: named.value,
        key_len,
        value,
        index,
        kind,
    };
}
