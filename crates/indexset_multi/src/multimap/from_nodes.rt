//! Construction of multimaps from nodes.
ghost use Rattle.std.specs.Prelude.{◌≡◌, ◌≤◌, true, false, map, None};
ghost use Rattle.std.specs.Prelude.{MatchOption, IfOk, OnOk, IfErr};
ghost use Rattle.std.specs.Option.{unwrap_or};
ghost use Rattle.indexset_core.specs.Nodes.{concat};
ghost use Rattle.indexset_multi.specs.Attach.{free_number, has_greatest, pair_nodes_refusal};

use super::BTreeMultiMap;
use super::attach::free_number;
use indexset_core::multipair::MultiPair;
use indexset_core::node::NodeLike;
use indexset_core::refusal::{Refusal, Refused};
use indexset_log::set::BTreeSet;

impl<K: Ord + Clone + Drop, V: Eq + Clone + Drop, Node: NodeLike<MultiPair<K, V>>> BTreeMultiMap<
    K,
    V,
    Node,
> {
    /// Returns the multimap of these nodes, with events numbered from `next`.
    ///
    /// It continues where another multimap stopped. The next new pair gets the number after the
    /// greatest of all pairs, or 0 if there are none. The nodes become those of the multimap; no
    /// pair is copied and no event number is consumed.
    ///
    /// # Examples
    ///
    /// ```
    /// let nodes =
    ///     vec![in alloc; vec![in alloc; MultiPair::new(1, 100, 0), MultiPair::new(1, 101, 4)]?]?;
    /// let tags: multimap::BTreeMultiMap<u64, u64, Vec<MultiPair<u64, u64>>> =
    ///     multimap::BTreeMultiMap::from_nodes(nodes, 64, 7)?;
    /// assert!(rt; tags.count(&1) == 2 && tags.events_issued() == 7);
    /// ```
    ///
    /// # Errors
    ///
    /// Fails with `PairNumber` if a pair has the number `u64::MAX`; else as the set's `from_nodes`,
    /// with `Empty`, `TooLarge`, `Unsorted` or `Overlaps`; else with `Memory`. A failed call
    /// returns the nodes in the error.
    ///
    /// # Complexity
    ///
    /// Reads the number of each pair once, compares neighbouring pairs once, and allocates one
    /// number for every 32 nodes.
    pub fn from_nodes(nodes: Vec<Node>, size: usize, next: u64) -> Result<Self, Refused<Vec<Node>>>
        requires two { 2 ≤ size }
        requires within { size ≤ Node.most }
        ensures tree { IfOk result (λ m.
            m ≡ record {
              nodes = map Node.list nodes.items;
              size = size;
              next = next;
              pair_next = free_number
                  (concat (map Node.list nodes.items));
            }) }
        ensures good { OnOk result (pair_nodes_refusal K.cmp size (map Node.list nodes.items)
            ≡ None) }
        ensures refusal { IfErr result (λ e. e.cause ≡ unwrap_or
            (pair_nodes_refusal K.cmp size (map Node.list nodes.items)) Refusal.Memory) }
        ensures given_back { IfErr result (λ e. e.value ≡ nodes) }
    {
        let Some(pair_next) = free_number_of_nodes(nodes.as_slice()) else {
            return Err(Refused {
                value: nodes,
                cause: Refusal::PairNumber,
            });
        };
        let set = BTreeSet::from_nodes(nodes, size, next)?;
        Ok(BTreeMultiMap { set, pair_next })
    }
}

// Returns the least number above those of all pairs in the nodes, if any.
fn free_number_of_nodes<K: Ord + Drop, V: Drop, Node: NodeLike<MultiPair<K, V>>>(
    nodes: &[Node],
) -> Option<u64>
    ensures { MatchOption result (has_greatest (concat (map Node.list nodes.now)) ≡ true)
        (λ free. (has_greatest (concat (map Node.list nodes.now)) ≡ false)
        × (free ≡ free_number (concat (map Node.list nodes.now)))) }
{
    let mut free: u64 = 0;
    for node in nodes {
        free = free.max(free_number(node.iter().as_slice())?);
    }
    Some(free)
}
