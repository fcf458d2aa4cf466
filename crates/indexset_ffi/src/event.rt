//! Events of a logged map as C records.
ghost use Rattle.std.specs.Prelude.{◌≡◌, ◌≤◌, Some, length, map};
ghost use Rattle.indexset_ffi.specs.Elements.{written};
ghost use Rattle.indexset_ffi.specs.Events.{event_of, record_of, record_with, unnumbered};

use indexset_core::pair::Pair;
use indexset_events::change::{ChangeEvent, ChangeEventUnassigned, Id};

/// The pair is inserted into the node at the index.
pub const INSERT: u32 = 1;

/// The pair at the index is removed from the node.
pub const REMOVE: u32 = 2;

/// A node of one pair is inserted.
pub const CREATE: u32 = 3;

/// The node is removed.
pub const DROP: u32 = 4;

/// The node is split: the pairs before the index, and the rest.
pub const SPLIT: u32 = 5;

/// The node and the next node, whose last pair is the pair, are merged.
pub const MERGE: u32 = 6;

/// An event. A field that a kind does not use is 0.
///
/// A node is identified by its last pair before the event, or by its only pair if the event creates
/// it.
#[repr(C)]
#[derive(Clone, Copy)]
pub struct Event {
    /// The event number.
    pub number: u64,
    /// The key of the pair that identifies the node.
    pub node_key: u64,
    /// The value of that pair.
    pub node_value: u64,
    /// The key of the pair.
    pub key: u64,
    /// The value of the pair.
    pub value: u64,
    /// The index in the node.
    pub index: usize,
    /// The kind.
    pub kind: u32,
}

// Returns the record of an event of this kind.
fn filled(
    number: u64,
    kind: u32,
    node: &Pair<u64, u64>,
    pair: &Pair<u64, u64>,
    index: usize,
) -> Event
    ensures { result ≡ record_with number kind node.now pair.now index }
{
    Event {
        number,
        node_key: node.key,
        node_value: node.value,
        key: pair.key,
        value: pair.value,
        index,
        kind,
    }
}

/// Returns the record of an event.
#[tactic(auto, unfolding(crate::specs::Events::unnumbered))]
pub fn record_of(event: &ChangeEvent<Pair<u64, u64>>) -> Event
    ensures value { result ≡ record_of event.now }
    ensures undone { event_of result ≡ Some event.now }
{
    let number = event.id().inner();
    let none = Pair { key: 0, value: 0 };
    match event {
        ChangeEvent::InsertAt {
            max_value,
            value,
            index,
            ..
        } => filled(number, INSERT, max_value, value, *index),
        ChangeEvent::RemoveAt {
            max_value,
            value,
            index,
            ..
        } => filled(number, REMOVE, max_value, value, *index),
        ChangeEvent::CreateNode { max_value, .. } => filled(number, CREATE, max_value, &none, 0),
        ChangeEvent::RemoveNode { max_value, .. } => filled(number, DROP, max_value, &none, 0),
        ChangeEvent::SplitNode {
            max_value,
            split_index,
            ..
        } => filled(number, SPLIT, max_value, &none, *split_index),
        ChangeEvent::MergeNodes {
            max_value,
            next_max_value,
            ..
        } => filled(number, MERGE, max_value, next_max_value, 0),
    }
}

// Returns the event of a record, without its number.
#[tactic(auto, unfolding(crate::specs::Events::unnumbered))]
fn unnumbered(event: &Event) -> Option<ChangeEventUnassigned<Pair<u64, u64>>>
    ensures { result ≡ unnumbered event.now }
{
    let max_value = Pair {
        key: event.node_key,
        value: event.node_value,
    };
    let value = Pair {
        key: event.key,
        value: event.value,
    };
    let index = event.index;
    match event.kind {
        INSERT => Some(ChangeEventUnassigned::InsertAt {
            max_value,
            value,
            index,
        }),
        REMOVE => Some(ChangeEventUnassigned::RemoveAt {
            max_value,
            value,
            index,
        }),
        CREATE => Some(ChangeEventUnassigned::CreateNode { max_value }),
        DROP => Some(ChangeEventUnassigned::RemoveNode { max_value }),
        SPLIT => Some(ChangeEventUnassigned::SplitNode {
            max_value,
            split_index: index,
        }),
        MERGE => Some(ChangeEventUnassigned::MergeNodes {
            max_value,
            next_max_value: value,
        }),
        _ => None,
    }
}

/// Returns the event of a record, or `None` if its kind is unknown.
pub fn event_of(event: &Event) -> Option<ChangeEvent<Pair<u64, u64>>>
    ensures { result ≡ event_of event.now }
{
    match unnumbered(event) {
        Some(change) => Some(change.assign_id(Id::from(event.number))),
        None => None,
    }
}

/// Writes the records of events to the first elements of `out`.
pub fn write_events(events: &[ChangeEvent<Pair<u64, u64>>], out: &mut [Event])
    requires { length events.now ≤ length out.old }
    ensures { out.new ≡ written (length events.now) (map record_of events.now) out.old }
{
    for i in 0..events.len() {
        out[i] = record_of(&events[i]);
    }
}
