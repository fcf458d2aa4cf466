//! Events: the changes of a tree's nodes.
ghost use Rattle.std.specs.Prelude.{◌≡◌, ◌+◌, ◌↔◌, IsTrue};

mod text;

use indexset_core::multipair::MultiPair;
use indexset_core::pair::Pair;
use std::marker::Model;

/// The number of an event.
#[derive(Clone, Copy, Debug, PartialEq, Eq, PartialOrd, Ord, Default)]
pub struct Id(u64);

impl Id {
    /// Returns the number as a `u64`.
    ///
    /// ```
    /// assert_eq!(rt; Id::from(7).inner(), 7);
    /// ```
    pub fn inner(&self) -> u64
        ensures { result ≡ self.now.0 }
    {
        self.0
    }

    /// Returns true if this is the number after `other`.
    ///
    /// No number is after `u64::MAX`.
    ///
    /// ```
    /// assert!(rt; Id::from(8).is_next_for(Id::from(7)));
    /// assert!(rt; !Id::from(0).is_next_for(Id::from(u64::MAX)));
    /// ```
    pub fn is_next_for(&self, other: Id) -> bool
        ensures { IsTrue result ↔ (self.now.0 ≡ other.0 + 1) }
    {
        let number = self.0;
        match other.0.checked_add(1) {
            Some(next) => number == next,
            None => false,
        }
    }
}

impl From<u64> for Id {
    ghost use Rattle.std.specs.Prelude.{◌≡◌};

    ghost from_gives = { λ number id. id.0 ≡ number };

    fn from(number: u64) -> Self {
        Id(number)
    }
}

impl From<Id> for u64 {
    ghost use Rattle.std.specs.Prelude.{◌≡◌};

    ghost from_gives = { λ id number. number ≡ id.0 };

    fn from(id: Id) -> Self {
        id.0
    }
}

/// A numbered change of a node list.
///
/// An event names a node by its last item before the change. Two events are equal if their kinds,
/// numbers and indices are the same and their items are equal by their own `==`: pairs by their
/// keys, and numbered pairs by keys and numbers, for any values.
///
/// ```
/// // The first item makes a node, and the second is inserted at its start.
/// let mut tree: set::BTreeSet<u64, Vec<u64>> = set::BTreeSet::from_iter(alloc, [10])?;
/// let (_, events) = tree.put_cdc(5)?;
/// let event = ChangeEvent::InsertAt { event_id: Id::from(1), max_value: 10, value: 5, index: 0 };
/// assert!(rt; events.len() == 1 && events[0] == event);
/// ```
#[derive(Clone, Debug, PartialEq, Eq, Drop)]
pub enum ChangeEvent<T> {
    /// Inserts the value into the named node at the index.
    InsertAt {
        /// The number of the event.
        event_id: Id,
        /// The last item of the node before the change.
        max_value: T,
        /// The inserted item.
        value: T,
        /// Its index in the node after the change, at most the length of the node before it.
        index: usize,
    },
    /// Removes the value at the index of the named node.
    RemoveAt {
        /// The number of the event.
        event_id: Id,
        /// The last item of the node before the change.
        max_value: T,
        /// The removed item.
        value: T,
        /// Its index in the node before the change.
        index: usize,
    },
    /// Inserts a node with one item.
    CreateNode {
        /// The number of the event.
        event_id: Id,
        /// The only item of the new node.
        max_value: T,
    },
    /// Removes the named node.
    RemoveNode {
        /// The number of the event.
        event_id: Id,
        /// The last item of the node before the change.
        max_value: T,
    },
    /// Splits the named node into its first `split_index` items and the rest.
    SplitNode {
        /// The number of the event.
        event_id: Id,
        /// The last item of the node before the change.
        max_value: T,
        /// The number of items in the first of the two nodes.
        split_index: usize,
    },
    /// Merges the named node with the next one, which `next_max_value` names.
    MergeNodes {
        /// The number of the event.
        event_id: Id,
        /// The last item of the first node before the change.
        max_value: T,
        /// The last item of the next node before the change, and of the merged node.
        next_max_value: T,
    },
}

/// A change without a number.
///
/// Two changes are equal if they are equal as events with the same number.
#[derive(Clone, Debug, PartialEq, Eq, Drop)]
pub enum ChangeEventUnassigned<T> {
    /// Inserts the value into the named node at the index.
    InsertAt {
        /// The last item of the node before the change.
        max_value: T,
        /// The inserted item.
        value: T,
        /// Its index in the node after the change, at most the length of the node before it.
        index: usize,
    },
    /// Removes the value at the index of the named node.
    RemoveAt {
        /// The last item of the node before the change.
        max_value: T,
        /// The removed item.
        value: T,
        /// Its index in the node before the change.
        index: usize,
    },
    /// Inserts a node with one item.
    CreateNode {
        /// The only item of the new node.
        max_value: T,
    },
    /// Removes the named node.
    RemoveNode {
        /// The last item of the node before the change.
        max_value: T,
    },
    /// Splits the named node into its first `split_index` items and the rest.
    SplitNode {
        /// The last item of the node before the change.
        max_value: T,
        /// The number of items in the first of the two nodes.
        split_index: usize,
    },
    /// Merges the named node with the next one, which `next_max_value` names.
    MergeNodes {
        /// The last item of the first node before the change.
        max_value: T,
        /// The last item of the next node before the change, and of the merged node.
        next_max_value: T,
    },
}

impl<T> ChangeEvent<T> {
    ghost use Rattle.indexset_events.specs.Replay.{event_id};

    /// Returns the number of the event.
    ///
    /// ```
    /// let event = ChangeEvent::CreateNode { event_id: Id::from(7), max_value: 5 };
    /// assert_eq!(rt; event.id(), Id::from(7));
    /// ```
    pub fn id(&self) -> Id
        ensures { result ≡ event_id self.now }
    {
        match self {
            ChangeEvent::InsertAt { event_id, .. } => *event_id,
            ChangeEvent::RemoveAt { event_id, .. } => *event_id,
            ChangeEvent::CreateNode { event_id, .. } => *event_id,
            ChangeEvent::RemoveNode { event_id, .. } => *event_id,
            ChangeEvent::SplitNode { event_id, .. } => *event_id,
            ChangeEvent::MergeNodes { event_id, .. } => *event_id,
        }
    }
}

impl<T> ChangeEventUnassigned<T> {
    ghost use Rattle.indexset_events.specs.Replay.{with_id};

    /// Returns the change as an event with this number.
    ///
    /// ```
    /// # use indexset::cdc::change::ChangeEventUnassigned;
    /// let change = ChangeEventUnassigned::RemoveNode { max_value: 5 };
    /// let event = change.assign_id(Id::from(7));
    /// assert!(rt; event == ChangeEvent::RemoveNode { event_id: Id::from(7), max_value: 5 });
    /// ```
    pub fn assign_id(self, event_id: Id) -> ChangeEvent<T>
        ensures { result ≡ with_id event_id self }
    {
        match self {
            ChangeEventUnassigned::InsertAt {
                max_value,
                value,
                index,
            } => ChangeEvent::InsertAt {
                event_id,
                max_value,
                value,
                index,
            },
            ChangeEventUnassigned::RemoveAt {
                max_value,
                value,
                index,
            } => ChangeEvent::RemoveAt {
                event_id,
                max_value,
                value,
                index,
            },
            ChangeEventUnassigned::CreateNode { max_value } => ChangeEvent::CreateNode {
                event_id,
                max_value,
            },
            ChangeEventUnassigned::RemoveNode { max_value } => ChangeEvent::RemoveNode {
                event_id,
                max_value,
            },
            ChangeEventUnassigned::SplitNode {
                max_value,
                split_index,
            } => ChangeEvent::SplitNode {
                event_id,
                max_value,
                split_index,
            },
            ChangeEventUnassigned::MergeNodes {
                max_value,
                next_max_value,
            } => ChangeEvent::MergeNodes {
                event_id,
                max_value,
                next_max_value,
            },
        }
    }
}

impl<K, V> From<ChangeEvent<MultiPair<K, V>>> for ChangeEvent<Pair<K, V>> {
    ghost use Rattle.std.specs.Prelude.{◌≡◌};
    ghost use Rattle.indexset_events.specs.Pairs.{without_pair_numbers};

    ghost from_gives = { λ event r. r ≡ without_pair_numbers event };

    fn from(event: ChangeEvent<MultiPair<K, V>>) -> Self {
        match event {
            ChangeEvent::InsertAt {
                event_id,
                max_value,
                value,
                index,
            } => ChangeEvent::InsertAt {
                event_id,
                max_value: Pair::from(max_value),
                value: Pair::from(value),
                index,
            },
            ChangeEvent::RemoveAt {
                event_id,
                max_value,
                value,
                index,
            } => ChangeEvent::RemoveAt {
                event_id,
                max_value: Pair::from(max_value),
                value: Pair::from(value),
                index,
            },
            ChangeEvent::CreateNode {
                event_id,
                max_value,
            } => ChangeEvent::CreateNode {
                event_id,
                max_value: Pair::from(max_value),
            },
            ChangeEvent::RemoveNode {
                event_id,
                max_value,
            } => ChangeEvent::RemoveNode {
                event_id,
                max_value: Pair::from(max_value),
            },
            ChangeEvent::SplitNode {
                event_id,
                max_value,
                split_index,
            } => ChangeEvent::SplitNode {
                event_id,
                max_value: Pair::from(max_value),
                split_index,
            },
            ChangeEvent::MergeNodes {
                event_id,
                max_value,
                next_max_value,
            } => ChangeEvent::MergeNodes {
                event_id,
                max_value: Pair::from(max_value),
                next_max_value: Pair::from(next_max_value),
            },
        }
    }
}
