//! The lengths of nodes, summed by blocks of neighbouring nodes.
ghost use Rattle.std.specs.Prelude.{◌≡◌, ◌+◌, ◌-◌, ◌/◌, ◌^◌, ◌<◌, ◌≤◌, [], insert};
ghost use Rattle.std.specs.Prelude.{length, map, remove, sum, slice_index};
ghost use Rattle.std.specs.Prelude.{slice_set, IfOk, IfErr, MatchOption, OnOk};
ghost use Rattle.indexset_core.specs.Nodes.{node_lengths};
ghost use Rattle.indexset_index.specs.Blocks.{block_count, block_sums};
ghost use Rattle.indexset_index.specs.Fenwick.{prefix_sum};

use crate::constants::NODES_PER_BLOCK;
use crate::fenwick::{Fenwick, length_at};
use indexset_core::item_iter::NodeItems;
use indexset_core::refusal::Refusal;
use std::alloc::Global;
use std::marker::Model;

/// The lengths of nodes, summed by blocks of [`NODES_PER_BLOCK`] neighbouring nodes.
///
/// The sum of all lengths is at most `usize::MAX`.
#[derive(Drop)]
pub struct Blocks {
    sums: Fenwick,
}

impl Model for Blocks {
    ghost use Rattle.indexset_index.specs.Blocks.{Sums};

    ghost Value = { Sums };

    ghost view = { λ b. record { sums = b.sums.lengths; room = b.sums.room } };
}

impl Blocks {
    /// Creates the sums of no nodes.
    ///
    /// It allocates nothing.
    pub fn new(alloc: Global) -> Self
        ensures { result.sums ≡ [] }
    {
        Blocks {
            sums: Fenwick::new(alloc),
        }
    }

    /// Creates the sums of these nodes.
    ///
    /// # Errors
    ///
    /// Fails with `Memory` only.
    pub fn from_nodes<T, Node, R: NodeItems<T, Node>>(
        alloc: Global,
        nodes: &[Node],
    ) -> Result<Self, Refusal>
        requires { sum (node_lengths (map R.list nodes.now)) < 2 ^ 64 }
        ensures sums { IfOk result (λ b. b.sums ≡ block_sums
            (node_lengths (map R.list nodes.now))) }
        ensures refusal { IfErr result (λ e. e ≡ Refusal.Memory) }
    {
        let mut blocks = Blocks {
            sums: Fenwick::with_capacity(alloc, nodes.len().div_ceil(NODES_PER_BLOCK))?,
        };
        blocks.rebuild::<T, Node, R>(nodes);
        Ok(blocks)
    }

    /// Returns the number of blocks, at most the capacity.
    pub fn len(&self) -> usize
        ensures value { result ≡ length self.now.sums }
        ensures within { length self.now.sums ≤ self.now.room }
        ensures fits { sum self.now.sums < 2 ^ 64 }
    {
        self.sums.len()
    }

    /// Reserves capacity for one more block.
    ///
    /// # Errors
    ///
    /// Fails with `Memory` only. A failed call leaves the sums as they were.
    pub fn reserve_one(&mut self) -> Result<(), Refusal>
        ensures room { OnOk result (length self.new.sums < self.new.room) }
        ensures sums { self.new.sums ≡ self.old.sums }
        ensures kept { self.old.room ≤ self.new.room }
        ensures refusal { IfErr result (λ e. e ≡ Refusal.Memory) }
    {
        self.sums.reserve_one()
    }

    /// Adds `n` to the length of node `k`.
    pub fn add(&mut self, k: usize, n: usize)
        requires inside { k / NODES_PER_BLOCK < length self.old.sums }
        requires fits { sum self.old.sums + n < 2 ^ 64 }
        ensures sums { self.new.sums
            ≡ slice_set self.old.sums (k / NODES_PER_BLOCK)
            (slice_index self.old.sums (k / NODES_PER_BLOCK) + n) }
        ensures room { self.new.room ≡ self.old.room }
    {
        self.sums.add(k / NODES_PER_BLOCK, n);
    }

    /// Subtracts `n` from the length of node `k`.
    pub fn sub(&mut self, k: usize, n: usize)
        requires inside { k / NODES_PER_BLOCK < length self.old.sums }
        requires enough { n ≤ slice_index self.old.sums (k / NODES_PER_BLOCK) }
        ensures sums { self.new.sums
            ≡ slice_set self.old.sums (k / NODES_PER_BLOCK)
            (slice_index self.old.sums (k / NODES_PER_BLOCK) - n) }
        ensures room { self.new.room ≡ self.old.room }
    {
        self.sums.sub(k / NODES_PER_BLOCK, n);
    }

    /// Replaces the sums by those of these nodes.
    ///
    /// There must be capacity for them. It allocates nothing.
    pub fn rebuild<T, Node, R: NodeItems<T, Node>>(&mut self, nodes: &[Node])
        requires room { length (block_sums (node_lengths (map R.list nodes.now)))
            ≤ self.old.room }
        requires fits { sum (node_lengths (map R.list nodes.now)) < 2 ^ 64 }
        ensures sums { self.new.sums ≡ block_sums (node_lengths (map R.list nodes.now)) }
        ensures room { self.new.room ≡ self.old.room }
    {
        self.sums.truncate(0);
        for block in 0..nodes.len().div_ceil(NODES_PER_BLOCK) {
            self.sums.push(sum_of_block::<T, Node, R>(nodes, block));
        }
    }

    /// Updates the sums after the insertion of node `k` of these.
    ///
    /// There must be capacity for one more block. It allocates nothing.
    ///
    /// # Complexity
    ///
    /// Reads two lengths for each block from that of the node on.
    pub fn insert<T, Node, R: NodeItems<T, Node>>(&mut self, k: usize, nodes: &[Node])
        requires inside { k < length nodes.now }
        requires before { self.old.sums
            ≡ block_sums (remove (node_lengths (map R.list nodes.now)) k) }
        requires room { length self.old.sums < self.old.room }
        requires fits { sum (node_lengths (map R.list nodes.now)) < 2 ^ 64 }
        ensures sums { self.new.sums ≡ block_sums (node_lengths (map R.list nodes.now)) }
        ensures room { self.new.room ≡ self.old.room }
    {
        if nodes.len() % NODES_PER_BLOCK == 1 {
            self.sums.push(0);
        }
        self.sums.shift_up::<T, Node, R>(k, nodes);
    }

    /// Updates the sums after the removal of node `k` of `n` items, which left these nodes.
    ///
    /// It allocates nothing.
    ///
    /// # Complexity
    ///
    /// Reads two lengths for each block from that of the node on.
    pub fn remove<T, Node, R: NodeItems<T, Node>>(&mut self, k: usize, n: usize, nodes: &[Node])
        requires inside { k ≤ length nodes.now }
        requires before { self.old.sums
            ≡ block_sums (insert (node_lengths (map R.list nodes.now)) k n) }
        ensures sums { self.new.sums ≡ block_sums (node_lengths (map R.list nodes.now)) }
        ensures room { self.new.room ≡ self.old.room }
    {
        self.sums.recall_bounds();
        self.sums.truncate(nodes.len().div_ceil(NODES_PER_BLOCK));
        self.sums.shift_down::<T, Node, R>(k, n, nodes);
    }

    /// Returns the sum of the lengths of the first `k` of these nodes.
    ///
    /// # Complexity
    ///
    /// A sum of whole blocks, and of fewer than [`NODES_PER_BLOCK`] nodes.
    pub fn prefix<T, Node, R: NodeItems<T, Node>>(&self, k: usize, nodes: &[Node]) -> usize
        requires sums { self.now.sums ≡ block_sums (node_lengths (map R.list nodes.now)) }
        requires within { k ≤ length nodes.now }
        ensures { result ≡ prefix_sum (node_lengths (map R.list nodes.now)) k }
    {
        self.sums.recall_bounds();
        let block = k / NODES_PER_BLOCK;
        self.sums.prefix(block) + sum_between::<T, Node, R>(nodes, NODES_PER_BLOCK * block, k)
    }

    /// Returns the node of a position, and the offset in it, or `None` past the end.
    ///
    /// # Complexity
    ///
    /// A search of the blocks, and of at most [`NODES_PER_BLOCK`] nodes.
    pub fn find<T, Node, R: NodeItems<T, Node>>(
        &self,
        position: usize,
        nodes: &[Node],
    ) -> Option<(usize, usize)>
        requires sums { self.now.sums ≡ block_sums (node_lengths (map R.list nodes.now)) }
        ensures { MatchOption result (sum (node_lengths (map R.list nodes.now)) ≤ position)
            (λ p. (p.0 < length (node_lengths (map R.list nodes.now)))
            × (p.1 < slice_index (node_lengths (map R.list nodes.now)) p.0)
            × (prefix_sum (node_lengths (map R.list nodes.now)) p.0 + p.1 ≡ position)) }
    {
        let (block, offset) = self.sums.find(position)?;
        Some(find_from::<T, Node, R>(nodes, NODES_PER_BLOCK * block, offset))
    }
}

// Returns the sum of a block of these nodes.
fn sum_of_block<T, Node, R: NodeItems<T, Node>>(nodes: &[Node], block: usize) -> usize
    requires block { block < block_count (length nodes.now) }
    requires fits { sum (node_lengths (map R.list nodes.now)) < 2 ^ 64 }
    ensures { result ≡ slice_index (block_sums (node_lengths (map R.list nodes.now))) block }
{
    let start = NODES_PER_BLOCK * block;
    let end = start + (nodes.len() - start).min(NODES_PER_BLOCK);
    sum_between::<T, Node, R>(nodes, start, end)
}

// Returns the sum of the lengths of these nodes from `start` up to `end`.
fn sum_between<T, Node, R: NodeItems<T, Node>>(nodes: &[Node], start: usize, end: usize) -> usize
    requires order { start ≤ end }
    requires within { end ≤ length nodes.now }
    requires fits { sum (node_lengths (map R.list nodes.now)) < 2 ^ 64 }
    ensures { prefix_sum (node_lengths (map R.list nodes.now)) start + result
        ≡ prefix_sum (node_lengths (map R.list nodes.now)) end }
{
    let mut total = 0;
    for i in start..end {
        total += length_at::<T, Node, R>(nodes, i);
    }
    total
}

// Returns the node of a position that is counted from node `start`, and the offset in it.
fn find_from<T, Node, R: NodeItems<T, Node>>(
    nodes: &[Node],
    start: usize,
    position: usize,
) -> (usize, usize)
    requires within { prefix_sum (node_lengths (map R.list nodes.now)) start + position
        < sum (node_lengths (map R.list nodes.now)) }
    ensures node { result.0 < length nodes.now }
    ensures offset { result.1 < slice_index (node_lengths (map R.list nodes.now)) result.0 }
    ensures place { prefix_sum (node_lengths (map R.list nodes.now)) result.0 + result.1
        ≡ prefix_sum (node_lengths (map R.list nodes.now)) start + position }
{
    let mut node = start;
    let mut offset = position;
    while offset >= length_at::<T, Node, R>(nodes, node) {
        offset -= length_at::<T, Node, R>(nodes, node);
        node += 1;
    }
    (node, offset)
}
