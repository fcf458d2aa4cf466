//! Construction of replicas from nodes.
ghost use Rattle.std.specs.Prelude.{◌≡◌, None, OnOk, IfErr, IfOk, unwrap_or};
ghost use Rattle.indexset_core.specs.Nodes.{IsNodeList, vec_items};
ghost use Rattle.indexset_events.specs.Attach.{nodes_refusal};

use super::Replica;
use super::index::NodeIndex;
use indexset_core::refusal::{Refusal, Refused};
use indexset_events::nodes::test_nodes;

impl<T: Ord + Clone + Drop> Replica<T> {
    /// Returns a replica of these nodes, which expects the event `next`.
    ///
    /// It follows a tree that had these nodes and this next number. The nodes become those of the
    /// replica; no item is copied.
    ///
    /// # Examples
    ///
    /// ```
    /// // A snapshot: the nodes of a tree, and the number of its next event.
    /// let nodes = vec![in alloc; vec![in alloc; 1, 2]?, vec![in alloc; 5]?]?;
    /// let copy = Replica::from_nodes(nodes, 3)?;
    /// assert!(rt; copy.len() == 3 && copy.last() == Some(&5) && copy.next() == 3);
    /// ```
    ///
    /// # Errors
    ///
    /// Fails at the first node that is invalid, with the first of these that applies to it:
    /// `Empty`; `Unsorted` if its items do not ascend strictly; `Overlaps` if it does not begin
    /// above the node before. Otherwise fails with `Memory`, also if there are more than
    /// `usize::MAX` items. A failed call returns the nodes in the error.
    ///
    /// # Complexity
    ///
    /// Compares neighbouring items once, and allocates the index of the lengths.
    pub fn from_nodes(nodes: Vec<Vec<T>>, next: u64) -> Result<Self, Refused<Vec<Vec<T>>>>
        // Result.
        ensures replica { IfOk result (λ r. r
            ≡ record { nodes = vec_items nodes.items; next = next }) }

        // Failure.
        ensures good { OnOk result (nodes_refusal T.cmp usize.MAX (vec_items nodes.items) ≡ None) }
        ensures refusal { IfErr result (λ e. e.cause
            ≡ unwrap_or (nodes_refusal T.cmp usize.MAX (vec_items nodes.items)) Refusal.Memory) }
        ensures given_back { IfErr result (λ e. e.value ≡ nodes) }

        // Memory.
        ensures lawful { IsNodeList T.cmp (vec_items nodes.items)
            → IfErr result (λ e. e.cause ≡ Refusal.Memory) }
    {
        // No node has more than `usize::MAX` items.
        if let Err(cause) = test_nodes(nodes.as_slice(), usize::MAX) {
            return Err(Refused {
                value: nodes,
                cause,
            });
        }
        match NodeIndex::of_nodes(*nodes.allocator(), nodes.as_slice()) {
            Ok(lengths) => Ok(Replica {
                nodes,
                lengths,
                next,
            }),
            Err(cause) => Err(Refused {
                value: nodes,
                cause,
            }),
        }
    }

    /// Returns the nodes of the replica.
    ///
    /// A logged tree that `from_nodes` makes of them, with the number that `next` returned,
    /// continues where the replica stopped.
    ///
    /// # Examples
    ///
    /// ```
    /// // The replica continues as the tree.
    /// let nodes = vec![in alloc; vec![in alloc; 10, 20]?, vec![in alloc; 30]?]?;
    /// let replica = Replica::from_nodes(nodes, 3)?;
    /// let next = replica.next();
    /// let tree: set::BTreeSet<u64, Vec<u64>> =
    ///     set::BTreeSet::from_nodes(replica.into_nodes(), 64, next)?;
    /// assert!(rt; tree.len() == 3 && tree.events_issued() == 3);
    /// ```
    ///
    /// # Complexity
    ///
    /// Takes constant time.
    pub fn into_nodes(self) -> Vec<Vec<T>>
        ensures value { vec_items result.items ≡ self.nodes }
        ensures lawful { IsNodeList T.cmp self.nodes }
    {
        self.nodes
    }
}
