//! Events and their numbers.

use super::{has_default, is_made_from};
use indexset::base::multipair::MultiPair;
use indexset::base::pair::Pair;
use indexset::cdc::change::{ChangeEvent, ChangeEventUnassigned, Id};

fn is_copied<T: Copy + Ord>() {}

fn is_cloned<T: Clone>() {}

#[test]
fn numbers() {
    let _inner = Id::inner;
    let _is_next_for = Id::is_next_for;
    is_copied::<Id>();
    has_default::<Id>();
    is_made_from::<u64, Id>();
    is_made_from::<Id, u64>();
}

#[test]
fn events() {
    let _id = ChangeEvent::<u64>::id;
    let _assign_id = ChangeEventUnassigned::<u64>::assign_id;
    is_cloned::<ChangeEvent<u64>>();
    is_cloned::<ChangeEventUnassigned<u64>>();
    is_made_from::<ChangeEvent<MultiPair<u64, char>>, ChangeEvent<Pair<u64, char>>>();
}

// Returns an event without its number.
fn unassigned(event: ChangeEvent<u64>) -> ChangeEventUnassigned<u64> {
    match event {
        ChangeEvent::InsertAt {
            event_id: _,
            max_value,
            value,
            index,
        } => ChangeEventUnassigned::InsertAt {
            max_value,
            value,
            index,
        },
        ChangeEvent::RemoveAt {
            event_id: _,
            max_value,
            value,
            index,
        } => ChangeEventUnassigned::RemoveAt {
            max_value,
            value,
            index,
        },
        ChangeEvent::CreateNode {
            event_id: _,
            max_value,
        } => ChangeEventUnassigned::CreateNode { max_value },
        ChangeEvent::RemoveNode {
            event_id: _,
            max_value,
        } => ChangeEventUnassigned::RemoveNode { max_value },
        ChangeEvent::SplitNode {
            event_id: _,
            max_value,
            split_index,
        } => ChangeEventUnassigned::SplitNode {
            max_value,
            split_index,
        },
        ChangeEvent::MergeNodes {
            event_id: _,
            max_value,
            next_max_value,
        } => ChangeEventUnassigned::MergeNodes {
            max_value,
            next_max_value,
        },
    }
}

#[test]
fn kinds() {
    let _unassigned = unassigned;
}
