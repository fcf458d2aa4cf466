//! The split of a spine in two.
ghost use Rattle.std.specs.Prelude.{◌≡◌, ◌≤◌, IfOk, OnOk, IfErr, OnErr, length, take, drop};
ghost use Rattle.indexset_spine.specs.NodeList.{items, IsSpot, position_of};
ghost use Rattle.indexset_core.specs.Nodes.{vec_items};
ghost use Rattle.indexset_spine.specs.Edits.{left_nodes, right_nodes};

use super::Spine;
use super::remove::drop_if_empty;
use crate::spot::Spot;
use indexset_core::item_iter::OfVec;
use indexset_core::moves::move_tail;
use indexset_core::refusal::Refusal;
use indexset_index::fenwick::Fenwick;
use std::mem;

impl<T: Drop> Spine<T> {
    /// Splits the spine at a spot, and returns the items from there on, with the same node size.
    ///
    /// It allocates before an item moves.
    ///
    /// # Errors
    ///
    /// Fails with `Memory` only. A failed call changes nothing.
    pub fn split_off(&mut self, spot: Spot) -> Result<Spine<T>, Refusal>
        requires { IsSpot self.old.nodes spot }

        // Result.
        ensures right { IfOk result (λ s. items s
            ≡ drop (position_of self.old.nodes spot) (items self.old)) }

        // Contents.
        ensures left { OnOk result (items self.new
            ≡ take (position_of self.old.nodes spot) (items self.old)) }

        // Failure.
        ensures refusal { IfErr result (λ e. e ≡ Refusal.Memory) }
        ensures unchanged { OnErr result (self.new ≡ self.old) }

        // Nodes.
        ensures nodes { OnOk result (self.new.nodes ≡ left_nodes self.old.nodes spot) }
        ensures rest_nodes { IfOk result (λ s. s.nodes ≡ right_nodes self.old.nodes spot) }
        ensures size { self.new.size ≡ self.old.size }
        ensures right_size { IfOk result (λ s. s.size ≡ self.old.size) }
    {
        let left = self.position(&spot);
        let alloc = *self.nodes.allocator();
        let count = self.index.len();
        let mut index = Fenwick::with_capacity(alloc, count - spot.node)?;
        let nodes = split_nodes(&mut self.nodes, spot)?;
        index.rebuild::<T, Vec<T>, OfVec>(nodes.as_slice());
        self.index
            .rebuild_from::<T, Vec<T>, OfVec>(spot.node, self.nodes.as_slice());
        let right = Spine {
            nodes,
            size: self.size,
            len: self.len - left,
            index,
        };
        self.len = left;
        Ok(right)
    }
}

// Splits the nodes at a spot, and returns those from there on. A failed call changes nothing.
fn split_nodes<T: Drop>(nodes: &mut Vec<Vec<T>>, spot: Spot) -> Result<Vec<Vec<T>>, Refusal>
    requires { IsSpot (vec_items nodes.old.items) spot }
    ensures left { OnOk result (vec_items nodes.new.items
        ≡ left_nodes (vec_items nodes.old.items) spot) }
    ensures right { IfOk result (λ rest. vec_items rest.items
        ≡ right_nodes (vec_items nodes.old.items) spot) }
    ensures refusal { IfErr result (λ e. e ≡ Refusal.Memory) }
    ensures unchanged { OnErr result (vec_items nodes.new.items ≡ vec_items nodes.old.items) }
{
    let alloc = *nodes.allocator();
    let mut right = Vec::with_capacity(alloc, nodes.len() - spot.node)?;
    let back = take_back(&mut nodes[spot.node], spot.offset)?;
    right.push_reserved(back);
    move_tail(nodes, spot.node + 1, &mut right);
    drop_if_empty(nodes, spot.node);
    drop_if_empty(&mut right, 0);
    Ok(right)
}

// Splits a node at an offset, and returns the items from there on. A failed call changes nothing.
fn take_back<T>(node: &mut Vec<T>, offset: usize) -> Result<Vec<T>, Refusal>
    requires { offset ≤ length node.old.items }
    ensures front { OnOk result (node.new.items ≡ take offset node.old.items) }
    ensures back { IfOk result (λ back. back.items ≡ drop offset node.old.items) }
    ensures refusal { IfErr result (λ e. e ≡ Refusal.Memory) }
    ensures unchanged { OnErr result (node.new.items ≡ node.old.items) }
{
    if offset == 0 {
        let empty = Vec::new(*node.allocator());
        return Ok(mem::replace(node, empty));
    }
    Ok(node.split_off(offset)?)
}
