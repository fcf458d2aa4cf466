//! The merge of items of another spine into a node.
ghost use Rattle.std.specs.Prelude.{◌≡◌, ◌+◌, ◌-◌, ◌<◌, ◌≤◌, OnOk, IfErr};
ghost use Rattle.std.specs.Prelude.{OnErr, length, take, drop, slice_set};
ghost use Rattle.std.specs.List.{All, HoldsAt, fold};
ghost use Rattle.std.specs.declared.cmp.Ordering.TheVariants.{Less};
ghost use Rattle.indexset_core.specs.Nodes.{node_at};
ghost use Rattle.indexset_core.specs.Order.{IsAscending, put};
ghost use Rattle.indexset_spine.specs.NodeList.{items, IsSpot};

use super::Spine;
use super::remove::drop_indexed_if_empty;
use crate::merge::{count_below_last, merge_first};
use crate::spot::Spot;
use indexset_core::refusal::Refusal;

// A merge moves the items from the spot on: with more of them than this for each merged item,
// single insertions are as fast.
const FEW: usize = 16;

impl<T: Ord + Drop> Spine<T> {
    /// Returns how many first items of another spine may be merged into the node of a spot.
    ///
    /// All are below the node's last item, and the node has room for them. The number is 0 if they
    /// are few in comparison with the items from the spot on.
    pub fn count_inside(&self, spot: &Spot, other: &Spine<T>) -> usize
        requires spot { IsSpot self.now.nodes spot.now }
        requires order { IsAscending T.cmp (items other.now) }
        ensures below { All (λ x. HoldsAt (λ l. T.cmp x l ≡ Less)
            (node_at self.now.nodes spot.now.node)
            (length (node_at self.now.nodes spot.now.node) - 1)) (take result (items other.now)) }
        ensures room { length (node_at self.now.nodes spot.now.node) + result ≤ self.now.size }
        ensures within { result ≤ length (node_at other.now.nodes 0) }
    {
        other.recall_lengths();
        let node = self.nodes[spot.node].as_slice();
        let from = other.nodes[0].as_slice();
        let count = count_below_last(node, from, self.size - node.len());
        if count.saturating_mul(FEW) < node.len() - spot.offset {
            return 0;
        }
        count
    }

    /// Merges the first items of another spine into a node, replacing equal ones.
    ///
    /// # Errors
    ///
    /// Fails with `Memory` only. A failed call changes neither spine.
    pub fn merge_from(
        &mut self,
        node: usize,
        other: &mut Spine<T>,
        count: usize,
    ) -> Result<(), Refusal>
        requires node { node < length self.old.nodes }
        requires some { 0 < count }
        requires room { length (node_at self.old.nodes node) + count ≤ self.old.size }
        requires within { count ≤ length (node_at other.old.nodes 0) }
        requires order { IsAscending T.cmp (items self.old) }
        requires other_order { IsAscending T.cmp (items other.old) }

        // Contents.
        ensures rest { OnOk result (items other.new ≡ drop count (items other.old)) }

        // Failure.
        ensures refusal { IfErr result (λ e. e ≡ Refusal.Memory) }
        ensures unchanged { OnErr result (self.new ≡ self.old) }
        ensures other_unchanged { OnErr result (other.new ≡ other.old) }

        // Nodes.
        ensures nodes { OnOk result (self.new.nodes
            ≡ slice_set self.old.nodes node
            (fold (put T.cmp) (node_at self.old.nodes node) (take count (items other.old)))) }
        ensures size { self.new.size ≡ self.old.size }
        ensures other_size { other.new.size ≡ other.old.size }
    {
        if usize::MAX - self.len < count {
            return Err(Refusal::Memory);
        }
        other.recall_lengths();
        let before = self.nodes[node].len();
        merge_first(&mut self.nodes[node], &mut other.nodes[0], count)?;
        let more = self.nodes[node].len() - before;
        self.index.add(node, more);
        self.len += more;
        other.index.sub(0, count);
        other.len -= count;
        drop_indexed_if_empty(&mut other.nodes, &mut other.index, 0);
        Ok(())
    }
}
