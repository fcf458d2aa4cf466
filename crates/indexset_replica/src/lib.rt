//! A replica of a logged tree's nodes, which applies the tree's events.
//!
//! [`Replica`] is a list of nodes with the number of the next event. `new` returns a replica
//! without nodes, `attach` inserts a node, and `from_nodes` makes a replica of all nodes at once.
//! `apply` applies the next event; it fails with a `Refusal` that states the reason if the event is
//! not the next or does not apply to the nodes. After it has applied the events of the tree's
//! calls, a replica has the nodes of the tree, with the same boundaries.
//!
//! `offer` is for events that are delivered with losses, repeats and in any order: it applies the
//! next one, and says of any other whether it is late or early. `follow` offers events of a list.
//!
//! `nodes`, `contains`, `next`, `range` and the calls of `lookup`, `positions` and [`iter`] read
//! the nodes. Look-ups take the keys of `base::lookup_key`; pairs are also found by their key.
//! [`laws`] states properties of the definitions: for example, what a replica has after events
//! that were offered in any order. `edits` has the change of each kind of event, `places` the
//! searches among the nodes, and `index` the lengths of the nodes.
#![tactic(auto)]

ghost use Rattle.indexset_core.specs.Clones.{AreIdentical};
ghost use Rattle.std.specs.Prelude.{◌≡◌, ◌+◌, ◌≤◌, [], insert, length, None};
ghost use Rattle.std.specs.Prelude.{Some, OnOk, IfErr, OnErr, unwrap_or};
ghost use Rattle.indexset_core.specs.Nodes.{IsNodeList, vec_items};
ghost use Rattle.indexset_replica.specs.Replica.{apply_refusal, IsClonedStep};
ghost use Rattle.indexset_events.specs.Attach.{attached, attach_refusal};
ghost use Rattle.indexset_events.specs.Replay.{step, unassigned};

mod delivery;
mod edits;
mod follow;
mod from_nodes;
mod index;
pub mod iter;
pub mod laws;
mod lookup;
mod places;
mod positions;
mod range;
mod text;

pub use self::delivery::Delivery;
use self::index::NodeIndex;
use indexset_core::refusal::{Refusal, Refused};
use indexset_events::change::ChangeEvent;
use std::alloc::Global;
use std::marker::Model;

/// A replica of a tree: nodes that change by the tree's events.
///
/// No node is empty, and the items ascend, within and across nodes. Events name a node by its last
/// item.
///
/// ```
/// let mut tree: set::BTreeSet<u64, Vec<u64>> = set::BTreeSet::new(alloc);
/// let mut copy = Replica::new(alloc, 0);
/// for number in [10, 5, 15] {
///     for event in tree.put_cdc(number)?.1 {
///         copy.apply(&event)?;
///     }
/// }
/// assert!(rt; copy.iter().eq(tree.iter()));
/// ```
#[derive(Drop)]
pub struct Replica<T: Ord + Clone + Drop> {
    nodes: Vec<Vec<T>>,
    // The lengths of the nodes, summed over blocks of 32.
    lengths: NodeIndex,
    // The number of the next event.
    next: u64,
}

impl<T: Ord + Clone + Drop> Model for Replica<T> {
    ghost use Rattle.indexset_core.specs.Nodes.{vec_items};
    ghost use Rattle.indexset_replica.specs.Replica.{AreIndexedNodes, ReplicaState};

    ghost Value = { ReplicaState T };

    ghost view = { λ r. record { nodes = vec_items r.nodes.items; next = r.next } };

    ghost invariant = { λ r. AreIndexedNodes T.cmp (vec_items r.nodes.items) r.lengths.sums };
}

impl<T: Ord + Clone + Drop> Replica<T> {
    /// Returns a replica without nodes, which expects the event `next`.
    ///
    /// It allocates nothing.
    ///
    /// ```
    /// let mut replica: Replica<u64> = Replica::new(alloc, 0);
    /// replica.apply(&ChangeEvent::CreateNode { event_id: Id::from(0), max_value: 5 })?;
    /// assert!(rt; replica.len() == 1 && replica.next() == 1);
    /// ```
    pub fn new(alloc: Global, next: u64) -> Self
        ensures { result ≡ record { nodes = []; next = next } }
    {
        Replica {
            nodes: Vec::new(alloc),
            lengths: NodeIndex::new(alloc),
            next,
        }
    }

    /// Returns the nodes, in order.
    ///
    /// # Examples
    ///
    /// ```
    /// let nodes = vec![in alloc; vec![in alloc; 10, 20]?, vec![in alloc; 30]?]?;
    /// let replica = Replica::from_nodes(nodes, 3)?;
    /// assert!(rt; replica.nodes().len() == 2);
    /// ```
    ///
    /// # Complexity
    ///
    /// Takes constant time.
    pub fn nodes(&self) -> &[Vec<T>]
        ensures value { vec_items result.now ≡ self.now.nodes }
        ensures lawful { IsNodeList T.cmp self.now.nodes }
    {
        self.nodes.as_slice()
    }

    /// Returns the number of the next event.
    ///
    /// # Examples
    ///
    /// ```
    /// let replica: Replica<u64> = Replica::new(alloc, 7);
    /// assert!(rt; replica.next() == 7);
    /// ```
    ///
    /// # Complexity
    ///
    /// Takes constant time.
    pub fn next(&self) -> u64
        ensures { result ≡ self.now.next }
    {
        self.next
    }

    /// Inserts a node among the other nodes.
    ///
    /// It consumes no event number.
    ///
    /// # Examples
    ///
    /// ```
    /// let mut replica: Replica<u64> = Replica::new(alloc, 7);
    /// replica.attach(vec![in alloc; 10, 20]?)?;
    /// assert!(rt; replica.len() == 2 && replica.next() == 7);
    /// ```
    ///
    /// # Errors
    ///
    /// Fails with the first of these that applies: `Empty` if the node is empty; `Unsorted` if its
    /// items do not ascend strictly; `Overlaps` if it does not lie entirely below or above each
    /// other node; `Memory`. A failed call returns the node in the error and changes nothing.
    ///
    /// # Complexity
    ///
    /// Compares the items of the node once each, and makes one binary search among the nodes.
    pub fn attach(&mut self, node: Vec<T>) -> Result<(), Refused<Vec<T>>>
        // Contents.
        ensures next { self.new.next ≡ self.old.next }

        // Failure.
        ensures good { OnOk result (attach_refusal T.cmp (length node.items) self.old.nodes
            node.items ≡ None) }
        ensures refusal { IfErr result (λ e. e.cause
            ≡ unwrap_or (attach_refusal T.cmp (length node.items) self.old.nodes node.items)
            Refusal.Memory) }
        ensures given_back { IfErr result (λ e. e.value ≡ node) }
        ensures unchanged { OnErr result (self.new ≡ self.old) }

        // Nodes.
        ensures nodes { OnOk result (self.new.nodes ≡ attached T.cmp self.old.nodes node.items) }
    {
        match places::place_of_node(self.nodes.as_slice(), node.as_slice()) {
            Ok(place) => self.insert_node(place, node),
            Err(cause) => Err(Refused { value: node, cause }),
        }
    }

    // Inserts a node at its place among the nodes.
    fn insert_node(&mut self, place: usize, node: Vec<T>) -> Result<(), Refused<Vec<T>>>
        requires within { place ≤ length self.old.nodes }
        requires nodes { IsNodeList T.cmp (insert self.old.nodes place node.items) }

        // Contents.
        ensures next { self.new.next ≡ self.old.next }

        // Failure.
        ensures refusal { IfErr result (λ e. e.cause ≡ Refusal.Memory) }
        ensures given_back { IfErr result (λ e. e.value ≡ node) }
        ensures unchanged { OnErr result (self.new ≡ self.old) }

        // Nodes.
        ensures nodes { OnOk result (self.new.nodes ≡ insert self.old.nodes place node.items) }
    {
        if let Err(cause) = self.lengths.reserve_node(node.len()) {
            return Err(Refused { value: node, cause });
        }
        match self.nodes.insert(place, node) {
            Ok(()) => {
                self.lengths.insert_node(place, self.nodes.as_slice());
                Ok(())
            }
            Err(failed) => Err(Refused {
                value: failed.value,
                cause: Refusal::Memory,
            }),
        }
    }

    /// Applies the next event.
    ///
    /// It inserts a clone of the event's item, which it compares with its source.
    ///
    /// # Examples
    ///
    /// ```
    /// let mut copy: Replica<u64> = Replica::new(alloc, 0);
    /// copy.apply(&ChangeEvent::CreateNode { event_id: Id::from(0), max_value: 5 })?;
    /// let again = copy.apply(&ChangeEvent::CreateNode { event_id: Id::from(0), max_value: 5 });
    /// assert!(rt; copy.contains(&5) && again.is_err() && copy.next() == 1);
    /// ```
    ///
    /// # Errors
    ///
    /// Fails with the first of these that applies: `Gap` if the event is not the next; `Numbers` if
    /// its number is `u64::MAX`, so that no number remains after it; the reason why it does not
    /// apply to the nodes, which is `NoSuchNode`, `IndexOutside`, `ValueDiffers`, `WouldBeEmpty`,
    /// `OutOfOrder`, `BadSplit` or `NotNeighbours`; `Memory`, also if the clone does not equal its
    /// source. A failed call changes nothing.
    ///
    /// # Complexity
    ///
    /// Makes a binary search among the nodes for each node that the event names, and moves no items
    /// of other nodes.
    pub fn apply(&mut self, event: &ChangeEvent<T>) -> Result<(), Refusal>
        // Contents.
        ensures next { OnOk result (self.new.next ≡ self.old.next + 1) }

        // Failure.
        ensures fits { OnOk result (apply_refusal T.cmp self.old.nodes self.old.next event.now
            ≡ None) }
        ensures refusal { IfErr result (λ e. e
            ≡ unwrap_or (apply_refusal T.cmp self.old.nodes self.old.next event.now)
            Refusal.Memory) }
        ensures unchanged { OnErr result (self.new ≡ self.old) }

        // Nodes.
        ensures cloned { OnOk result (IsClonedStep T.cmp T.is_clone self.old.nodes
            (unassigned event.now) self.new.nodes) }
        ensures step { AreIdentical T.is_clone
            → OnOk result (step T.cmp self.old.nodes event.now ≡ Some self.new.nodes) }
    {
        if event.id().inner() != self.next {
            return Err(Refusal::Gap);
        }
        if self.next == u64::MAX {
            return Err(Refusal::Numbers);
        }
        edits::carry_out(&mut self.nodes, &mut self.lengths, event)?;
        self.next += 1;
        Ok(())
    }
}
