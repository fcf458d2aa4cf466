//! The invariant of a set, for the proofs of its callers.
ghost use Rattle.indexset_core.specs.Nodes.{node_lengths};
ghost use Rattle.indexset_core.specs.Order.{IsAscending};
ghost use Rattle.indexset_spine.specs.NodeList.{items, AreNodeLengths};

use crate::BTreeSet;

/// Recalls for a proof that the elements of a set ascend, and how long its nodes are.
///
/// It has no effect.
pub fn recall_order<T: Ord>(set: &BTreeSet<T>)
    ensures ascending { IsAscending T.cmp (items set.now) }
    ensures cut { AreNodeLengths (node_lengths set.now.nodes) set.now.size }
{
    set.len();
    set.node_count();
}
