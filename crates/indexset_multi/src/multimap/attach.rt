//! Insertion of whole nodes.
ghost use Rattle.std.specs.Prelude.{◌≡◌, false, true, None, MatchOption, OnOk, IfErr, OnErr, IsOk};
ghost use Rattle.std.specs.Option.{unwrap_or};
ghost use Rattle.indexset_multi.specs.Attach.{IsAttached, free_number, has_greatest, pairs_refusal};

use super::BTreeMultiMap;
use indexset_core::multipair::MultiPair;
use indexset_core::node::NodeLike;
use indexset_core::refusal::{Refusal, Refused};

impl<K: Ord + Clone + Drop, V: Eq + Clone + Drop, Node: NodeLike<MultiPair<K, V>>> BTreeMultiMap<
    K,
    V,
    Node,
> {
    /// Inserts a node of pairs among the other nodes.
    ///
    /// It emits no event and consumes no event number. The number of the next new pair is raised
    /// above the numbers of the node's pairs, if it is not already.
    ///
    /// # Examples
    ///
    /// ```
    /// let mut tags: multimap::BTreeMultiMap<u64, u64, Vec<MultiPair<u64, u64>>> =
    ///     multimap::BTreeMultiMap::new(alloc);
    /// for (tag, document) in [(1, 100), (1, 101), (2, 100)] {
    ///     tags.insert(tag, document)?;
    /// }
    /// tags.attach_multi_node(vec![in alloc; MultiPair::new(5, 100, 7)]?)?;
    /// assert!(rt; tags.node_count() == 2 && tags.last_key_value() == Some((&5, &100)));
    /// ```
    ///
    /// # Errors
    ///
    /// Fails with `PairNumber` if a pair has the number `u64::MAX`; else as the set's
    /// `attach_node`, with `Empty`, `TooLarge`, `Unsorted` or `Overlaps`; else with `Memory`. A
    /// failed call returns the node in the error and changes nothing.
    pub fn attach_multi_node(&mut self, node: Node) -> Result<(), Refused<Node>>
        // Contents.
        ensures attached { OnOk result (IsAttached K.cmp self.old self.new (Node.list node)) }

        // Failure.
        ensures good { IsOk result → pairs_refusal K.cmp self.old (Node.list node) ≡ None }
        ensures refusal { IfErr result (λ e. e.cause ≡ unwrap_or
            (pairs_refusal K.cmp self.old (Node.list node)) Refusal.Memory) }
        ensures given_back { IfErr result (λ e. e.value ≡ node) }
        ensures unchanged { OnErr result (self.new ≡ self.old) }
    {
        let Some(free) = free_number(node.iter().as_slice()) else {
            return Err(Refused {
                value: node,
                cause: Refusal::PairNumber,
            });
        };
        self.set.attach_node(node)?;
        self.pair_next = self.pair_next.max(free);
        Ok(())
    }
}

// Returns the least number above those of all pairs, if any.
pub(super) fn free_number<K, V>(pairs: &[MultiPair<K, V>]) -> Option<u64>
    ensures { MatchOption result (has_greatest pairs.now ≡ true)
        (λ free. (has_greatest pairs.now ≡ false) × (free ≡ free_number pairs.now)) }
{
    let mut free: u64 = 0;
    for pair in pairs {
        free = free.max(pair.discriminator.checked_add(1)?);
    }
    Some(free)
}
