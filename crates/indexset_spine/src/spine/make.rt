//! The creation of a spine, and `clear`.
ghost use Rattle.indexset_core.specs.Clones.{AreIdentical};
ghost use Rattle.std.specs.Prelude.{◌≡◌, ◌+◌, ◌*◌, ◌/◌, ◌<◌, ◌≤◌, [], ◌∷◌, IfOk, IfErr};
ghost use Rattle.std.specs.List.{AllZip};
ghost use Rattle.indexset_core.specs.Nodes.{node_lengths, vec_items};
ghost use Rattle.indexset_spine.specs.NodeList.{with_all_last};

use super::Spine;
use indexset_core::item_iter::OfVec;
use indexset_core::refusal::Refusal;
use indexset_index::fenwick::Fenwick;
use std::alloc::Global;

impl<T: Drop> Spine<T> {
    /// Creates a spine of one empty node, with nodes of at most `size` items.
    ///
    /// # Errors
    ///
    /// Fails with `Memory` only.
    pub fn new(alloc: Global, size: usize) -> Result<Self, Refusal>
        requires { 2 ≤ size }
        ensures nodes { IfOk result (λ s. s.nodes ≡ [] ∷ []) }
        ensures size { IfOk result (λ s. s.size ≡ size) }
        ensures refusal { IfErr result (λ e. e ≡ Refusal.Memory) }
    {
        let mut nodes = Vec::with_capacity(alloc, 1)?;
        let index = Fenwick::from_lengths(alloc, &[0])?;
        match nodes.push(Vec::new(alloc)) {
            Ok(()) => Ok(Spine {
                nodes,
                size,
                len: 0,
                index,
            }),
            Err(_) => Err(Refusal::Memory),
        }
    }

    /// Creates a spine of items by blocks, in the nodes that `insert` of each at the end leaves.
    ///
    /// # Errors
    ///
    /// Fails with `Memory` only. A failed call drops the items.
    pub fn of_items(alloc: Global, size: usize, items: Vec<T>) -> Result<Self, Refusal>
        requires { 2 ≤ size }
        ensures nodes { IfOk result (λ s. s.nodes ≡ with_all_last size ([] ∷ []) items.items) }
        ensures size { IfOk result (λ s. s.size ≡ size) }
        ensures refusal { IfErr result (λ e. e ≡ Refusal.Memory) }
    {
        let len = items.len();
        let nodes = nodes_of(alloc, size, items)?;
        let mut index = Fenwick::with_capacity(alloc, nodes.len())?;
        index.rebuild::<T, Vec<T>, OfVec>(nodes.as_slice());
        Ok(Spine {
            nodes,
            size,
            len,
            index,
        })
    }

    /// Returns a spine of clones of the items, in nodes of the same lengths.
    ///
    /// It is the same spine if clones are identical to their sources.
    ///
    /// # Errors
    ///
    /// Fails with `Memory` only. A failed call drops the clones.
    pub fn clone(&self) -> Result<Self, Refusal>
    where
        T: Clone,
        // Result.
        ensures cloned { IfOk result (λ s. AllZip (AllZip T.is_clone) self.now.nodes s.nodes) }
        ensures ok { AreIdentical T.is_clone → IfOk result (λ s. s ≡ self.now) }

        // Failure.
        ensures refusal { IfErr result (λ e. e ≡ Refusal.Memory) }

        // Nodes.
        ensures lengths { IfOk result (λ s. node_lengths s.nodes ≡ node_lengths self.now.nodes) }
        ensures size { IfOk result (λ s. s.size ≡ self.now.size) }
    {
        let alloc = *self.nodes.allocator();
        let nodes = clone_nodes(alloc, self.nodes.as_slice())?;
        let mut index = Fenwick::with_capacity(alloc, self.index.len())?;
        index.rebuild::<T, Vec<T>, OfVec>(nodes.as_slice());
        Ok(Spine {
            nodes,
            size: self.size,
            len: self.len,
            index,
        })
    }

    /// Removes all items, and keeps one empty node.
    pub fn clear(&mut self)
        ensures nodes { self.new.nodes ≡ [] ∷ [] }
        ensures size { self.new.size ≡ self.old.size }
    {
        self.nodes.truncate(1);
        self.nodes[0].clear();
        self.len = 0;
        self.index.recall_bounds();
        self.index
            .rebuild::<T, Vec<T>, OfVec>(self.nodes.as_slice());
    }
}

// Returns nodes of clones of the items of these.
fn clone_nodes<T: Clone + Drop>(alloc: Global, nodes: &[Vec<T>]) -> Result<Vec<Vec<T>>, Refusal>
    ensures cloned { IfOk result (λ copies. AllZip (AllZip T.is_clone) (vec_items nodes.now)
        (vec_items copies.items)) }
    ensures lengths { IfOk result (λ copies. node_lengths (vec_items copies.items)
        ≡ node_lengths (vec_items nodes.now)) }
    ensures nodes { AreIdentical T.is_clone
        → IfOk result (λ copies. vec_items copies.items ≡ vec_items nodes.now) }
    ensures refusal { IfErr result (λ e. e ≡ Refusal.Memory) }
{
    let mut copies = Vec::with_capacity(alloc, nodes.len())?;
    for node in nodes {
        copies.push_reserved(Vec::from_clones(alloc, node.as_slice())?);
    }
    Ok(copies)
}

// Returns nodes of these items: halves of the size, and the rest in the last. The list is split
// from the back, so that each item moves once.
fn nodes_of<T: Drop>(alloc: Global, size: usize, mut items: Vec<T>) -> Result<Vec<Vec<T>>, Refusal>
    requires { 2 ≤ size }
    ensures nodes { IfOk result (λ nodes. vec_items nodes.items
        ≡ with_all_last size ([] ∷ []) items.items) }
    ensures refusal { IfErr result (λ e. e ≡ Refusal.Memory) }
{
    let half = size / 2;
    let mut left = count_halves(items.len(), size);
    let mut nodes = Vec::with_capacity(alloc, left + 1)?;
    nodes.push_reserved(items.split_off(left * half)?);
    while left > 0 {
        left -= 1;
        nodes.push_reserved(items.split_off(left * half)?);
    }
    nodes.reverse();
    Ok(nodes)
}

// Returns how many halves of the size are split off before the rest of so many items is within the
// size.
fn count_halves(len: usize, size: usize) -> usize
    requires { 2 ≤ size }
    ensures within { len ≤ result * (size / 2) + size }
    ensures needed { 1 ≤ result → result * (size / 2) + size < len + size / 2 }
{
    len.saturating_sub(size).div_ceil(size / 2)
}
