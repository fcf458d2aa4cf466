//! The removal and the replacement of an item.
ghost use Rattle.std.specs.Prelude.{◌≡◌, ◌<◌, false, Some, length, remove, slice_get, slice_set};
ghost use Rattle.indexset_core.specs.Nodes.{node_at, node_lengths, vec_items};
ghost use Rattle.indexset_spine.specs.NodeList.{items, IsItemSpot, position_of};
ghost use Rattle.indexset_spine.specs.NodeList.{without_item, with_replaced};
ghost use Rattle.indexset_spine.specs.Edits.{without_emptied};

use super::Spine;
use crate::spot::Spot;
use indexset_core::item_iter::OfVec;
use indexset_core::moves::remove_item;
use indexset_index::fenwick::Fenwick;
use std::mem;

impl<T: Drop> Spine<T> {
    /// Removes the item at a spot and returns it.
    ///
    /// An emptied node is removed too, unless it is the only one.
    pub fn remove(&mut self, spot: Spot) -> T
        requires { IsItemSpot self.old.nodes spot }
        ensures value { slice_get (items self.old) (position_of self.old.nodes spot) ≡ Some result }
        ensures nodes { self.new.nodes ≡ without_item self.old.nodes spot }
        ensures items { items self.new ≡ remove (items self.old) (position_of self.old.nodes spot) }
        ensures size { self.new.size ≡ self.old.size }
    {
        self.len -= 1;
        remove_from_node(&mut self.nodes, &mut self.index, spot)
    }

    /// Replaces the item at a spot, and returns the old one.
    pub fn replace(&mut self, spot: Spot, value: T) -> T
        requires { IsItemSpot self.old.nodes spot }
        ensures value { slice_get (items self.old) (position_of self.old.nodes spot) ≡ Some result }
        ensures nodes { self.new.nodes ≡ with_replaced self.old.nodes spot value }
        ensures items { items self.new ≡ slice_set (items self.old)
            (position_of self.old.nodes spot) value }
        ensures size { self.new.size ≡ self.old.size }
    {
        let node = &mut self.nodes[spot.node];
        mem::replace(&mut node[spot.offset], value)
    }
}

// Removes the item at a spot, and an emptied node unless it is the only one, and updates the index.
fn remove_from_node<T: Drop>(nodes: &mut Vec<Vec<T>>, index: &mut Fenwick, spot: Spot) -> T
    requires spot { IsItemSpot (vec_items nodes.old.items) spot }
    requires index { index.old.lengths ≡ node_lengths (vec_items nodes.old.items) }
    ensures value { slice_get (node_at (vec_items nodes.old.items) spot.node) spot.offset
        ≡ Some result }
    ensures nodes { vec_items nodes.new.items ≡ without_item (vec_items nodes.old.items) spot }
    ensures index { index.new.lengths ≡ node_lengths (vec_items nodes.new.items) }
{
    let value = remove_item(&mut nodes[spot.node], spot.offset);
    index.sub(spot.node, 1);
    drop_indexed_if_empty(nodes, index, spot.node);
    value
}

// Removes a node if it is empty and not the only one, and updates the index.
pub(super) fn drop_indexed_if_empty<T: Drop>(nodes: &mut Vec<Vec<T>>, index: &mut Fenwick, k: usize)
    requires node { k < length (vec_items nodes.old.items) }
    requires index { index.old.lengths ≡ node_lengths (vec_items nodes.old.items) }
    ensures nodes { vec_items nodes.new.items ≡ without_emptied (vec_items nodes.old.items) k }
    ensures index { index.new.lengths ≡ node_lengths (vec_items nodes.new.items) }
{
    if drop_if_empty(nodes, k) {
        index.recall_bounds();
        index.rebuild_from::<T, Vec<T>, OfVec>(k, nodes.as_slice());
    }
}

// Removes a node if it is empty and not the only one, and returns whether it did.
pub(super) fn drop_if_empty<T: Drop>(nodes: &mut Vec<Vec<T>>, k: usize) -> bool
    requires { k < length (vec_items nodes.old.items) }
    ensures nodes { vec_items nodes.new.items ≡ without_emptied (vec_items nodes.old.items) k }
    ensures stays { result ≡ false → vec_items nodes.new.items ≡ vec_items nodes.old.items }
{
    if nodes[k].is_empty() && 1 < nodes.len() {
        drop(remove_item(nodes, k));
        return true;
    }
    false
}
