//! Construction of sets from nodes.
ghost use Rattle.std.specs.Prelude.{◌≡◌, ◌≤◌, ◌<◌, length, map, None};
ghost use Rattle.std.specs.Prelude.{Some, MatchOption, IfOk, OnOk, IfErr};
ghost use Rattle.std.specs.Option.{unwrap_or};
ghost use Rattle.indexset_core.specs.Nodes.{concat, node_lengths};
ghost use Rattle.indexset_events.specs.Attach.{nodes_refusal};
ghost use Rattle.indexset_index.specs.Blocks.{block_sums};

use super::BTreeSet;
use crate::nodes::index_of;
use indexset_core::node::NodeLike;
use indexset_core::refusal::{Refusal, Refused};
use indexset_events::nodes::test_nodes;
use indexset_index::blocks::Blocks;
use std::alloc::Global;
use std::marker::PhantomData;

impl<T: Ord + Clone + Drop, Node: NodeLike<T>> BTreeSet<T, Node> {
    /// Returns the tree of these nodes, with events numbered from `next`.
    ///
    /// It continues where another tree stopped. The nodes become those of the tree; no item is
    /// copied and no event number is consumed.
    ///
    /// # Examples
    ///
    /// ```
    /// let nodes = vec![in alloc; vec![in alloc; 5, 10]?, vec![in alloc; 15]?]?;
    /// let tree: set::BTreeSet<u64, Vec<u64>> = set::BTreeSet::from_nodes(nodes, 64, 7)?;
    /// assert!(rt; tree.len() == 3 && tree.node_count() == 2 && tree.events_issued() == 7);
    /// ```
    ///
    /// # Errors
    ///
    /// Fails at the first node that is invalid, with the first of these that applies to it:
    /// `Empty`; `TooLarge` if it has more items than the node size; `Unsorted` if its items do not
    /// ascend strictly; `Overlaps` if it does not begin above the node before. Otherwise fails with
    /// `Memory`, also if there are more than `usize::MAX` items. A failed call returns the nodes in
    /// the error.
    ///
    /// # Complexity
    ///
    /// Compares neighbouring items once, and allocates one number for every 32 nodes.
    pub fn from_nodes(nodes: Vec<Node>, size: usize, next: u64) -> Result<Self, Refused<Vec<Node>>>
        requires two { 2 ≤ size }
        requires within { size ≤ Node.most }
        ensures tree { IfOk result (λ t.
            t ≡ record { nodes = map Node.list nodes.items; size = size; next = next }) }
        ensures good { OnOk result (nodes_refusal T.cmp size (map Node.list nodes.items) ≡ None) }
        ensures refusal { IfErr result (λ e. e.cause ≡ unwrap_or
            (nodes_refusal T.cmp size (map Node.list nodes.items)) Refusal.Memory) }
        ensures given_back { IfErr result (λ e. e.value ≡ nodes) }
    {
        match test_and_count(*nodes.allocator(), nodes.as_slice(), size) {
            Ok((len, index)) => Ok(BTreeSet {
                nodes,
                size,
                len,
                index,
                next,
                items: PhantomData,
            }),
            Err(cause) => Err(Refused {
                value: nodes,
                cause,
            }),
        }
    }
}

// Returns the number of items and the index of the nodes, if they can be those of a tree.
fn test_and_count<T: Ord + Drop, Node: NodeLike<T>>(
    alloc: Global,
    nodes: &[Node],
    size: usize,
) -> Result<(usize, Blocks), Refusal>
    ensures good { OnOk result (nodes_refusal T.cmp size (map Node.list nodes.now) ≡ None) }
    ensures len { IfOk result (λ r. r.0 ≡ length (concat (map Node.list nodes.now))) }
    ensures index { IfOk result (λ r. r.1.sums ≡ block_sums (node_lengths
        (map Node.list nodes.now))) }
    ensures refusal { IfErr result (λ e. e ≡ unwrap_or (nodes_refusal T.cmp size
        (map Node.list nodes.now)) Refusal.Memory) }
{
    test_nodes(nodes, size)?;
    match count(nodes) {
        Some(len) => Ok((len, index_of(alloc, nodes)?)),
        None => Err(Refusal::Memory),
    }
}

// Returns the number of items in the nodes, if it fits a usize.
fn count<T: Ord + Drop, Node: NodeLike<T>>(nodes: &[Node]) -> Option<usize>
    ensures { MatchOption result (usize.MAX < length (concat (map Node.list nodes.now)))
        (λ len. len ≡ length (concat (map Node.list nodes.now))) }
{
    let mut len: usize = 0;
    for node in nodes {
        len = len.checked_add(node.len())?;
    }
    Some(len)
}
