//! The index of a replica: the lengths of its nodes by blocks, and the number of items.
ghost use Rattle.std.specs.Prelude.{◌≡◌, ◌+◌, ◌-◌, ◌/◌, ◌<◌, ◌≤◌, ◌^◌, [], insert};
ghost use Rattle.std.specs.Prelude.{length, remove, sum, slice_index, slice_set};
ghost use Rattle.std.specs.Prelude.{IfOk, IfErr, IfSome, OnOk, MatchOption};
ghost use Rattle.indexset_core.specs.Nodes.{concat, node_at, node_lengths, vec_items};
ghost use Rattle.indexset_core.specs.Places.{IsPlace, items_before};
ghost use Rattle.indexset_index.specs.Blocks.{block_sums};

use indexset_core::item_iter::OfVec;
use indexset_core::refusal::Refusal;
use indexset_index::blocks::Blocks;
use indexset_index::constants::NODES_PER_BLOCK;
use std::alloc::Global;
use std::marker::Model;

/// The sums of the lengths of nodes over blocks, and their total, which is at most `usize::MAX`.
#[derive(Drop)]
pub(super) struct NodeIndex {
    blocks: Blocks,
    total: usize,
}

impl Model for NodeIndex {
    ghost use Rattle.std.specs.Prelude.{◌≡◌, sum};
    ghost use Rattle.indexset_index.specs.Blocks.{Sums};

    ghost Value = { Sums };

    ghost view = { λ n. n.blocks };

    ghost invariant = { λ n. n.total ≡ sum n.blocks.sums };
}

impl NodeIndex {
    /// Returns the index of an empty list of nodes.
    pub(super) fn new(alloc: Global) -> Self
        ensures { result.sums ≡ [] }
    {
        NodeIndex {
            blocks: Blocks::new(alloc),
            total: 0,
        }
    }

    /// Returns the index of these nodes. It fails with `Memory`, also if there are more than
    /// `usize::MAX` items.
    pub(super) fn of_nodes<T>(alloc: Global, nodes: &[Vec<T>]) -> Result<Self, Refusal>
        ensures sums { IfOk result (λ n. n.sums ≡ block_sums (node_lengths
            (vec_items nodes.now))) }
        ensures refusal { IfErr result (λ e. e ≡ Refusal.Memory) }
    {
        let Some(total) = total_of(nodes) else {
            return Err(Refusal::Memory);
        };
        let blocks = Blocks::from_nodes::<T, Vec<T>, OfVec>(alloc, nodes)?;
        Ok(NodeIndex { blocks, total })
    }

    /// Returns the sum of the lengths.
    pub(super) fn total(&self) -> usize
        ensures { result ≡ sum self.now.sums }
    {
        self.total
    }

    /// Fails if the total with `more` items would exceed `usize::MAX`.
    pub(super) fn fits(&self, more: usize) -> Result<(), Refusal>
        ensures fits { OnOk result (sum self.now.sums + more < 2 ^ 64) }
        ensures refusal { IfErr result (λ e. e ≡ Refusal.Memory) }
    {
        if usize::MAX - self.total < more {
            return Err(Refusal::Memory);
        }
        Ok(())
    }

    /// Reserves room for a node of `count` new items. A failed call changes nothing.
    pub(super) fn reserve_node(&mut self, count: usize) -> Result<(), Refusal>
        ensures room { OnOk result (length self.new.sums < self.new.room) }
        ensures fits { OnOk result (sum self.new.sums + count < 2 ^ 64) }
        ensures sums { self.new.sums ≡ self.old.sums }
        ensures refusal { IfErr result (λ e. e ≡ Refusal.Memory) }
    {
        self.fits(count)?;
        self.blocks.reserve_one()
    }

    /// Adds to the length of a node.
    pub(super) fn add_items(&mut self, node: usize, count: usize)
        requires inside { node / NODES_PER_BLOCK < length self.old.sums }
        requires fits { sum self.old.sums + count < 2 ^ 64 }
        ensures sums { self.new.sums
            ≡ slice_set self.old.sums (node / NODES_PER_BLOCK)
            (slice_index self.old.sums (node / NODES_PER_BLOCK) + count) }
        ensures room { self.new.room ≡ self.old.room }
    {
        self.blocks.add(node, count);
        self.total += count;
    }

    /// Subtracts from the length of a node.
    pub(super) fn take_items(&mut self, node: usize, count: usize)
        requires inside { node / NODES_PER_BLOCK < length self.old.sums }
        requires enough { count ≤ slice_index self.old.sums (node / NODES_PER_BLOCK) }
        ensures sums { self.new.sums
            ≡ slice_set self.old.sums (node / NODES_PER_BLOCK)
            (slice_index self.old.sums (node / NODES_PER_BLOCK) - count) }
        ensures room { self.new.room ≡ self.old.room }
    {
        self.blocks.sub(node, count);
        self.total -= count;
    }

    /// Updates the index after a node was inserted at a place of `nodes`, for which it has room. It
    /// allocates nothing.
    pub(super) fn insert_node<T>(&mut self, place: usize, nodes: &[Vec<T>])
        requires inside { place < length nodes.now }
        requires before { self.old.sums
            ≡ block_sums (remove (node_lengths (vec_items nodes.now)) place) }
        requires room { length self.old.sums < self.old.room }
        requires fits { sum (node_lengths (vec_items nodes.now)) < 2 ^ 64 }
        ensures { self.new.sums ≡ block_sums (node_lengths (vec_items nodes.now)) }
    {
        self.blocks.insert::<T, Vec<T>, OfVec>(place, nodes);
        self.total += nodes[place].len();
    }

    /// Updates the index after a node of `count` items was removed from a place of `nodes`.
    pub(super) fn remove_node<T>(&mut self, place: usize, count: usize, nodes: &[Vec<T>])
        requires inside { place ≤ length nodes.now }
        requires before { self.old.sums
            ≡ block_sums (insert (node_lengths (vec_items nodes.now)) place count) }
        ensures { self.new.sums ≡ block_sums (node_lengths (vec_items nodes.now)) }
    {
        self.blocks.remove::<T, Vec<T>, OfVec>(place, count, nodes);
        self.total -= count;
    }

    /// Returns the number of items before a place of these nodes, by a sum over the index.
    pub(super) fn position<T>(&self, nodes: &[Vec<T>], place: (usize, usize)) -> usize
        requires sums { self.now.sums ≡ block_sums (node_lengths (vec_items nodes.now)) }
        requires place { IsPlace (vec_items nodes.now) place }
        ensures { result ≡ items_before (vec_items nodes.now) place }
    {
        // The sum of all lengths fits a usize, so each partial sum does.
        let _count = self.blocks.len();
        self.blocks.prefix::<T, Vec<T>, OfVec>(place.0, nodes) + place.1
    }

    /// Returns the place of the item at a position in these nodes, or `None` past the end, by a
    /// search of the index.
    pub(super) fn place<T>(&self, nodes: &[Vec<T>], position: usize) -> Option<(usize, usize)>
        requires { self.now.sums ≡ block_sums (node_lengths (vec_items nodes.now)) }
        ensures { MatchOption result (length (concat (vec_items nodes.now)) ≤ position)
            (λ p. (p.0 < length (vec_items nodes.now))
            × (p.1 < length (node_at (vec_items nodes.now) p.0))
            × (items_before (vec_items nodes.now) p ≡ position)) }
    {
        self.blocks.find::<T, Vec<T>, OfVec>(position, nodes)
    }

    /// Returns the place after the first `count` items of these nodes, by a search of the index.
    pub(super) fn place_after<T>(&self, nodes: &[Vec<T>], count: usize) -> (usize, usize)
        requires sums { self.now.sums ≡ block_sums (node_lengths (vec_items nodes.now)) }
        requires within { count ≤ length (concat (vec_items nodes.now)) }
        ensures place { IsPlace (vec_items nodes.now) result }
        ensures before { items_before (vec_items nodes.now) result ≡ count }
    {
        if count == 0 {
            return (0, 0);
        }
        let Some((node, offset)) = self.place(nodes, count - 1) else {
            unreachable!()
        };
        (node, offset + 1)
    }
}

// Returns the number of items in these nodes, if it fits a usize.
fn total_of<T>(nodes: &[Vec<T>]) -> Option<usize>
    ensures total { IfSome result (λ total. total ≡ length (concat (vec_items nodes.now))) }
    ensures fits { IfSome result (λ total. total < 2 ^ 64) }
{
    let mut total: usize = 0;
    for node in nodes {
        total = total.checked_add(node.len())?;
    }
    Some(total)
}
