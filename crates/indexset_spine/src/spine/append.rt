//! Appends items to a spine, as many at once as a node has room for.
ghost use Rattle.std.specs.Prelude.{◌≡◌, ℕ, ◌<◌, ◌≤◌, [], ◌∷◌, ◌++◌, OnOk, IfErr, OnErr, length};
ghost use Rattle.std.specs.List.{All};
ghost use Rattle.indexset_core.specs.Nodes.{concat, node_lengths, vec_items};
ghost use Rattle.indexset_spine.specs.NodeList.{items, with_last, with_all_last};
ghost use Rattle.indexset_spine.specs.Edits.{FoldsPrefix, without_all_emptied};

use super::Spine;
use super::insert::make_room;
use crate::lengths;
use indexset_core::item_iter::OfVec;
use indexset_core::moves::move_front;
use indexset_core::refusal::Refusal;

impl<T: Drop> Spine<T> {
    /// Appends the items of another spine, as `append_items` does, and leaves it one empty node.
    ///
    /// # Errors
    ///
    /// Fails with `Memory` only. A failed call has moved a prefix, and leaves the other items in
    /// their spine.
    pub fn append(&mut self, other: &mut Spine<T>) -> Result<(), Refusal>
        // Contents.
        ensures items { items self.new ++ items other.new ≡ items self.old ++ items other.old }
        ensures emptied { OnOk result (other.new.nodes ≡ [] ∷ []) }

        // Failure.
        ensures refusal { IfErr result (λ e. e ≡ Refusal.Memory) }
        ensures some_left { OnErr result (0 < length (items other.new)) }

        // Nodes.
        ensures nodes { OnOk result (self.new.nodes
            ≡ with_all_last self.old.size self.old.nodes (items other.old)) }
        ensures size { self.new.size ≡ self.old.size }
        ensures other_size { other.new.size ≡ other.old.size }
        ensures moved { FoldsPrefix (with_last self.old.size) self.old.nodes (items other.old)
            self.new.nodes (items other.new) }
    {
        self.recall_lengths();
        let moved = move_nodes(self, &mut other.nodes);
        drop_emptied(&mut other.nodes);
        other.len = lengths::count_items(other.nodes.as_slice());
        other.index.recall_bounds();
        other
            .index
            .rebuild::<T, Vec<T>, OfVec>(other.nodes.as_slice());
        moved
    }

    /// Appends the items of a list by blocks, to the nodes that `insert` of each would leave.
    ///
    /// # Errors
    ///
    /// Fails with `Memory` only. A failed call has moved a prefix, and leaves the others in the
    /// list.
    pub fn append_items(&mut self, from: &mut Vec<T>) -> Result<(), Refusal>
        // Contents.
        ensures items { items self.new ++ from.new.items ≡ items self.old ++ from.old.items }
        ensures emptied { OnOk result (from.new.items ≡ []) }

        // Failure.
        ensures refusal { IfErr result (λ e. e ≡ Refusal.Memory) }
        ensures some_left { OnErr result (0 < length from.new.items) }

        // Nodes.
        ensures nodes { OnOk result (self.new.nodes
            ≡ with_all_last self.old.size self.old.nodes from.old.items) }
        ensures size { self.new.size ≡ self.old.size }
        ensures moved { FoldsPrefix (with_last self.old.size) self.old.nodes from.old.items
            self.new.nodes from.new.items }
    {
        self.recall_lengths();
        while !from.is_empty() {
            self.append_block(from)?;
        }
        Ok(())
    }

    // Moves as many first items of a list as the last node has room for, after it was halved if it
    // was full. A failed call changes neither.
    fn append_block(&mut self, from: &mut Vec<T>) -> Result<(), Refusal>
        requires { 0 < length from.old.items }

        // Contents.
        ensures fewer { OnOk result (length from.new.items < length from.old.items) }

        // Failure.
        ensures refusal { IfErr result (λ e. e ≡ Refusal.Memory) }
        ensures unchanged { OnErr result (self.new ≡ self.old) }
        ensures from_unchanged { OnErr result (from.new.items ≡ from.old.items) }

        // Nodes.
        ensures moved { FoldsPrefix (with_last self.old.size) self.old.nodes from.old.items
            self.new.nodes from.new.items }
        ensures size { self.new.size ≡ self.old.size }
    {
        if self.len == usize::MAX {
            return Err(Refusal::Memory);
        }
        let end = self.end();
        let more = (self.size - end.offset).min(from.len()).max(1);
        let to = make_room(&mut self.nodes, &mut self.index, self.size, end, more)?;
        let node = &mut self.nodes[to.node];
        let room = self.size.min(node.capacity()) - node.len();
        let count = room.min(from.len()).min(usize::MAX - self.len);
        move_front(from, count, node);
        self.index.add(to.node, count);
        self.len += count;
        Ok(())
    }
}

// Appends the items of nodes to a spine, first to last, and leaves each node that it moved empty. A
// failed call has moved a prefix.
fn move_nodes<T: Drop>(spine: &mut Spine<T>, from: &mut Vec<Vec<T>>) -> Result<(), Refusal>
    // Contents.
    ensures emptied { OnOk result (concat (vec_items from.new.items) ≡ []) }

    // Failure.
    ensures refusal { IfErr result (λ e. e ≡ Refusal.Memory) }
    ensures some_left { OnErr result (0 < length (concat (vec_items from.new.items))) }

    // Nodes.
    ensures moved { FoldsPrefix (with_last spine.old.size) spine.old.nodes
        (concat (vec_items from.old.items)) spine.new.nodes (concat (vec_items from.new.items)) }
    ensures size { spine.new.size ≡ spine.old.size }
    ensures as_many { length from.new.items ≡ length from.old.items }
    ensures bounded { (n : ℕ) → All (λ l. l ≤ n) (node_lengths (vec_items from.old.items))
        → All (λ l. l ≤ n) (node_lengths (vec_items from.new.items)) }
{
    let mut k = 0;
    while k < from.len() {
        spine.append_items(&mut from[k])?;
        k += 1;
    }
    Ok(())
}

// Removes the empty nodes, and inserts one if all are empty.
fn drop_emptied<T: Drop>(nodes: &mut Vec<Vec<T>>)
    requires { 0 < length nodes.old.items }
    ensures { vec_items nodes.new.items ≡ without_all_emptied (vec_items nodes.old.items) }
{
    let alloc = *nodes.allocator();
    nodes.retain(|node| !node.is_empty());
    if nodes.is_empty() {
        nodes.push_reserved(Vec::new(alloc));
    }
}
