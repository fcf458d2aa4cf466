//! Calls that insert an item.
ghost use Rattle.std.specs.Prelude.{◌≡◌, ◌+◌, ◌^◌, ◌<◌, ◌≤◌, IsTrue, IfOk, OnOk};
ghost use Rattle.std.specs.Prelude.{IfErr, OnErr, IfSome, length, sum, drop};
ghost use Rattle.std.specs.Prelude.{insert, slice_get, vec_len, vec_capacity};
ghost use Rattle.std.specs.List.{HoldsAt};
ghost use Rattle.indexset_core.specs.Nodes.{node_at, node_lengths, vec_items};
ghost use Rattle.indexset_spine.specs.NodeList.{items, IsItemSpot, IsSpot, position_of};
ghost use Rattle.indexset_spine.specs.NodeList.{with_inserted, without_item, first_spot};
ghost use Rattle.indexset_spine.specs.Edits.{IsShortEnd, with_item_in, with_halved};

use super::Spine;
use crate::spot::Spot;
use indexset_core::halve::halve_node;
use indexset_core::item_iter::OfVec;
use indexset_core::moves::insert_item;
use indexset_core::refusal::{Refusal, Refused};
use indexset_index::fenwick::Fenwick;

impl<T: Drop> Spine<T> {
    /// Inserts an item at a spot, and returns its spot.
    ///
    /// A full node is first halved. The item is then inserted into the right half if the offset is
    /// above half the length, else into the left half.
    ///
    /// # Errors
    ///
    /// Fails with `Memory` only. A failed call returns the item in the error and changes nothing.
    pub fn insert(&mut self, spot: Spot, value: T) -> Result<Spot, Refused<T>>
        requires { IsSpot self.old.nodes spot }

        // Result.
        ensures stands { IfOk result (λ to. IsItemSpot self.new.nodes to
            × (position_of self.new.nodes to ≡ position_of self.old.nodes spot) × IsTrue to.found) }

        // Contents.
        ensures items { OnOk result (items self.new
            ≡ insert (items self.old) (position_of self.old.nodes spot) value) }

        // Failure.
        ensures given_back { IfErr result (λ e. (e.value ≡ value) × (e.cause ≡ Refusal.Memory)) }
        ensures unchanged { OnErr result (self.new ≡ self.old) }

        // Nodes.
        ensures nodes { OnOk result (self.new.nodes
            ≡ with_inserted self.old.size self.old.nodes spot value) }
        ensures size { self.new.size ≡ self.old.size }
    {
        if self.len == usize::MAX {
            return Err(Refused {
                value,
                cause: Refusal::Memory,
            });
        }
        match make_room(&mut self.nodes, &mut self.index, self.size, spot, 1) {
            Ok(to) => {
                insert_in_room(&mut self.nodes, &mut self.index, to, value);
                self.len += 1;
                Ok(Spot {
                    node: to.node,
                    offset: to.offset,
                    found: true,
                })
            }
            Err(cause) => Err(Refused { value, cause }),
        }
    }

    /// Moves the first item of another spine to a spot.
    ///
    /// It inserts as `insert` does, and removes as `remove` does.
    ///
    /// # Errors
    ///
    /// Fails with `Memory` only. A failed call changes neither spine.
    pub fn insert_from(&mut self, spot: Spot, other: &mut Spine<T>) -> Result<(), Refusal>
        requires spot { IsSpot self.old.nodes spot }
        requires other { 0 < length (items other.old) }

        // Contents.
        ensures items { OnOk result (IfSome (slice_get (items other.old) 0)
            (λ x. items self.new ≡ insert (items self.old) (position_of self.old.nodes spot) x)) }
        ensures rest { OnOk result (items other.new ≡ drop 1 (items other.old)) }

        // Failure.
        ensures refusal { IfErr result (λ e. e ≡ Refusal.Memory) }
        ensures unchanged { OnErr result (self.new ≡ self.old) }
        ensures other_unchanged { OnErr result (other.new ≡ other.old) }

        // Nodes.
        ensures nodes { OnOk result (IfSome (slice_get (items other.old) 0)
            (λ x. self.new.nodes ≡ with_inserted self.old.size self.old.nodes spot x)) }
        ensures rest_nodes { OnOk result (other.new.nodes
            ≡ without_item other.old.nodes first_spot) }
        ensures size { self.new.size ≡ self.old.size }
        ensures other_size { other.new.size ≡ other.old.size }
    {
        if self.len == usize::MAX {
            return Err(Refusal::Memory);
        }
        let to = make_room(&mut self.nodes, &mut self.index, self.size, spot, 1)?;
        let first = Spot {
            node: 0,
            offset: 0,
            found: true,
        };
        // A spine with an item has one in its first node.
        other.recall_lengths();
        let value = other.remove(first);
        insert_in_room(&mut self.nodes, &mut self.index, to, value);
        self.len += 1;
        Ok(())
    }
}

// Makes room for more items at a spot, and returns the spot at which the first is then inserted. A
// full node is halved first, into nodes that have room for as many as it held. The index is
// updated. A failed call changes nothing.
pub(super) fn make_room<T>(
    nodes: &mut Vec<Vec<T>>,
    index: &mut Fenwick,
    size: usize,
    spot: Spot,
    more: usize,
) -> Result<Spot, Refusal>
    requires spot { IsSpot (vec_items nodes.old.items) spot }
    requires two { 2 ≤ size }
    requires some { 1 ≤ more }
    requires index { index.old.lengths ≡ node_lengths (vec_items nodes.old.items) }
    requires fits { sum index.old.lengths < 2 ^ 64 }

    // Result.
    ensures spot { IfOk result (λ to. IsSpot (vec_items nodes.new.items) to) }
    ensures position { IfOk result (λ to. position_of (vec_items nodes.new.items) to
        ≡ position_of (vec_items nodes.old.items) spot) }
    ensures end { IsShortEnd (size + 1) (vec_items nodes.old.items) spot
        → IfOk result (λ to. IsShortEnd size (vec_items nodes.new.items) to) }

    // Failure.
    ensures refusal { IfErr result (λ e. e ≡ Refusal.Memory) }
    ensures unchanged { OnErr result (vec_items nodes.new.items ≡ vec_items nodes.old.items) }

    // Memory.
    ensures room { IfOk result (λ to. HoldsAt (λ node. vec_len node < vec_capacity node)
        nodes.new.items to.node) }

    // Nodes.
    ensures nodes { IfOk result (λ to. (value : T)
        → with_item_in (vec_items nodes.new.items) to value
        ≡ with_inserted size (vec_items nodes.old.items) spot value) }
    ensures index { index.new.lengths ≡ node_lengths (vec_items nodes.new.items) }
    ensures sum { sum index.new.lengths ≡ sum index.old.lengths }
{
    if nodes[spot.node].len() < size {
        nodes[spot.node].reserve(more)?;
        return Ok(spot);
    }
    index.reserve_one()?;
    let to = halve_at(nodes, spot)?;
    index.rebuild_from::<T, Vec<T>, OfVec>(spot.node, nodes.as_slice());
    Ok(to)
}

// Halves the node of a spot, and returns the spot after that. A failed call changes nothing.
fn halve_at<T>(nodes: &mut Vec<Vec<T>>, spot: Spot) -> Result<Spot, Refusal>
    requires spot { IsSpot (vec_items nodes.old.items) spot }
    requires two { 2 ≤ length (node_at (vec_items nodes.old.items) spot.node) }

    // Result.
    ensures spot { IfOk result (λ to. IsSpot (vec_items nodes.new.items) to) }
    ensures position { IfOk result (λ to. position_of (vec_items nodes.new.items) to
        ≡ position_of (vec_items nodes.old.items) spot) }
    ensures end { IsShortEnd (spot.offset + 1) (vec_items nodes.old.items) spot
        → IfOk result (λ to. IsShortEnd spot.offset (vec_items nodes.new.items) to) }

    // Failure.
    ensures refusal { IfErr result (λ e. e ≡ Refusal.Memory) }
    ensures unchanged { OnErr result (vec_items nodes.new.items ≡ vec_items nodes.old.items) }

    // Memory.
    ensures room { IfOk result (λ to. HoldsAt (λ node. vec_len node < vec_capacity node)
        nodes.new.items to.node) }

    // Nodes.
    ensures nodes { IfOk result (λ to. (value : T)
        → with_item_in (vec_items nodes.new.items) to value
        ≡ with_inserted (length (node_at (vec_items nodes.old.items) spot.node))
        (vec_items nodes.old.items) spot value) }
    ensures halved { OnOk result (vec_items nodes.new.items
        ≡ with_halved (vec_items nodes.old.items) spot.node) }
{
    nodes.reserve(1)?;
    let node = &mut nodes[spot.node];
    let right = halve_node(node)?;
    let half = node.len();
    insert_item(nodes, spot.node + 1, right);
    if half < spot.offset {
        return Ok(Spot {
            node: spot.node + 1,
            offset: spot.offset - half,
            found: spot.found,
        });
    }
    Ok(spot)
}

// Inserts an item into a node that has room, and updates the index.
fn insert_in_room<T>(nodes: &mut Vec<Vec<T>>, index: &mut Fenwick, to: Spot, value: T)
    requires spot { IsSpot (vec_items nodes.old.items) to }
    requires room { HoldsAt (λ node. vec_len node < vec_capacity node) nodes.old.items to.node }
    requires index { index.old.lengths ≡ node_lengths (vec_items nodes.old.items) }
    requires fits { sum index.old.lengths + 1 < 2 ^ 64 }
    ensures nodes { vec_items nodes.new.items ≡ with_item_in (vec_items nodes.old.items) to value }
    ensures index { index.new.lengths ≡ node_lengths (vec_items nodes.new.items) }
{
    insert_item(&mut nodes[to.node], to.offset, value);
    index.add(to.node, 1);
}
