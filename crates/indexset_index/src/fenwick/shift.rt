//! Updates of the sums of blocks of nodes, after a node was inserted or removed.
ghost use Rattle.std.specs.Prelude.{◌≡◌, ◌+◌, ◌-◌, ◌*◌, ◌^◌, ◌<◌, ◌≤◌, ℕ, insert};
ghost use Rattle.std.specs.Prelude.{length, map, remove, sum, slice_index};
ghost use Rattle.indexset_core.specs.Nodes.{node_lengths};
ghost use Rattle.indexset_index.specs.Blocks.{block_count, block_sums};
ghost use Rattle.indexset_index.specs.Fenwick.{prefix_sum, lengths_of, IsFenwick};

use super::{Fenwick, length_at};
use crate::constants::NODES_PER_BLOCK;
use indexset_core::item_iter::NodeItems;

impl Fenwick {
    /// Updates the sums of blocks after the insertion of node `k` of these.
    pub(crate) fn shift_up<T, Node, R: NodeItems<T, Node>>(&mut self, k: usize, nodes: &[Node])
        requires inside { k < length nodes.now }
        requires count { length self.old.lengths ≡ block_count (length nodes.now) }
        requires before { (i : ℕ) → i ≤ length self.old.lengths → prefix_sum self.old.lengths i
            ≡ prefix_sum (remove (node_lengths (map R.list nodes.now)) k) (NODES_PER_BLOCK * i) }
        requires fits { sum (node_lengths (map R.list nodes.now)) < 2 ^ 64 }
        ensures lengths { self.new.lengths ≡ block_sums (node_lengths (map R.list nodes.now)) }
        ensures room { self.new.room ≡ self.old.room }
    {
        raise_from::<T, Node, R>(self.cells.as_mut_slice(), k, nodes);
    }

    /// Updates the sums of blocks after the removal of node `k`, which had `n` items.
    pub(crate) fn shift_down<T, Node, R: NodeItems<T, Node>>(
        &mut self,
        k: usize,
        n: usize,
        nodes: &[Node],
    )
        requires inside { k ≤ length nodes.now }
        requires count { length self.old.lengths ≡ block_count (length nodes.now) }
        requires before { (i : ℕ) → i ≤ length self.old.lengths → prefix_sum self.old.lengths i
            ≡ prefix_sum (insert (node_lengths (map R.list nodes.now)) k n) (NODES_PER_BLOCK * i) }
        requires fits { sum (node_lengths (map R.list nodes.now)) + n < 2 ^ 64 }
        ensures lengths { self.new.lengths ≡ block_sums (node_lengths (map R.list nodes.now)) }
        ensures room { self.new.room ≡ self.old.room }
    {
        lower_from::<T, Node, R>(self.cells.as_mut_slice(), k, n, nodes);
    }
}

// Each cell that ends past node `k` gains the node that its first block gained, and loses the one
// that its last block lost to the next.
fn raise_from<T, Node, R: NodeItems<T, Node>>(cells: &mut [usize], k: usize, nodes: &[Node])
    requires cells { IsFenwick cells.old }
    requires inside { k < length nodes.now }
    requires count { length cells.old ≡ block_count (length nodes.now) }
    requires before { (i : ℕ) → i ≤ length cells.old → prefix_sum (lengths_of cells.old) i
        ≡ prefix_sum (remove (node_lengths (map R.list nodes.now)) k) (NODES_PER_BLOCK * i) }
    requires fits { sum (node_lengths (map R.list nodes.now)) < 2 ^ 64 }
    ensures cells { IsFenwick cells.new }
    ensures lengths { lengths_of cells.new ≡ block_sums (node_lengths (map R.list nodes.now)) }
{
    let mut i = k / NODES_PER_BLOCK + 1;
    while i <= cells.len() {
        let gained = moved_in::<T, Node, R>(nodes, k, i & (i - 1));
        let lost = first_of_block::<T, Node, R>(nodes, i);
        cells[i - 1] = cells[i - 1] + gained - lost;
        i += 1;
    }
}

// Each cell that ends past node `k` loses the node that its first block lost, and gains the one
// that its last block gained from the next.
fn lower_from<T, Node, R: NodeItems<T, Node>>(
    cells: &mut [usize],
    k: usize,
    n: usize,
    nodes: &[Node],
)
    requires cells { IsFenwick cells.old }
    requires inside { k ≤ length nodes.now }
    requires count { length cells.old ≡ block_count (length nodes.now) }
    requires before { (i : ℕ) → i ≤ length cells.old → prefix_sum (lengths_of cells.old) i
        ≡ prefix_sum (insert (node_lengths (map R.list nodes.now)) k n) (NODES_PER_BLOCK * i) }
    requires fits { sum (node_lengths (map R.list nodes.now)) + n < 2 ^ 64 }
    ensures cells { IsFenwick cells.new }
    ensures lengths { lengths_of cells.new ≡ block_sums (node_lengths (map R.list nodes.now)) }
{
    let mut i = k / NODES_PER_BLOCK + 1;
    while i <= cells.len() {
        let gained = last_before_block::<T, Node, R>(nodes, i);
        let lost = moved_out::<T, Node, R>(nodes, k, n, i & (i - 1));
        cells[i - 1] = cells[i - 1] + gained - lost;
        i += 1;
    }
}

// Returns the length of the node that moves into the blocks from `start` on: the inserted one, `k`,
// if it is not before them.
fn moved_in<T, Node, R: NodeItems<T, Node>>(nodes: &[Node], k: usize, start: usize) -> usize
    requires { k < length nodes.now }
    ensures here { NODES_PER_BLOCK * start ≤ k
        → result ≡ slice_index (node_lengths (map R.list nodes.now)) k }
    ensures past { k < NODES_PER_BLOCK * start
        → result ≡ slice_index (node_lengths (map R.list nodes.now)) (NODES_PER_BLOCK * start) }
{
    if start <= k / NODES_PER_BLOCK {
        length_at::<T, Node, R>(nodes, k)
    } else {
        first_of_block::<T, Node, R>(nodes, start)
    }
}

// Returns the length of the node that moves out of the blocks from `start` on: the removed one, of
// `n` items, if it was not before them.
fn moved_out<T, Node, R: NodeItems<T, Node>>(
    nodes: &[Node],
    k: usize,
    n: usize,
    start: usize,
) -> usize
    ensures here { NODES_PER_BLOCK * start ≤ k → result ≡ n }
    ensures past { k < NODES_PER_BLOCK * start
        → result ≡ slice_index (node_lengths (map R.list nodes.now)) (NODES_PER_BLOCK * start - 1) }
{
    if start <= k / NODES_PER_BLOCK {
        n
    } else {
        last_before_block::<T, Node, R>(nodes, start)
    }
}

// Returns the length of the first node of a block, or 0 past the last.
fn first_of_block<T, Node, R: NodeItems<T, Node>>(nodes: &[Node], block: usize) -> usize
    ensures { result ≡ slice_index (node_lengths (map R.list nodes.now)) (NODES_PER_BLOCK * block) }
{
    if block < nodes.len().div_ceil(NODES_PER_BLOCK) {
        length_at::<T, Node, R>(nodes, NODES_PER_BLOCK * block)
    } else {
        0
    }
}

// Returns the length of the last node before a block, or 0 past the last.
fn last_before_block<T, Node, R: NodeItems<T, Node>>(nodes: &[Node], block: usize) -> usize
    requires { 1 ≤ block }
    ensures { result ≡ slice_index (node_lengths (map R.list nodes.now))
        (NODES_PER_BLOCK * block - 1) }
{
    if block <= nodes.len() / NODES_PER_BLOCK {
        length_at::<T, Node, R>(nodes, NODES_PER_BLOCK * block - 1)
    } else {
        0
    }
}
