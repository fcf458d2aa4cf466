//! A list partitioned into nodes.
ghost use Rattle.std.specs.Prelude.{◌≡◌, ◌+◌, ◌<◌, ◌≤◌, ◌^◌, IsTrue, Some, length};
ghost use Rattle.std.specs.Prelude.{max, sum, take, slice_get, MatchOption};
ghost use Rattle.std.specs.Option.{option_copied, option_copied_mut};
ghost use Rattle.std.specs.Borrow.{sem};
ghost use Rattle.std.specs.List.{between};
ghost use Rattle.std.specs.Map.Iter.{ShowsInOrder, ShowsInReverse};
ghost use Rattle.std.specs.Map.Iter.{GivesInOrder, GivesInReverse, deref};
ghost use Rattle.indexset_core.specs.Nodes.{node_at, node_lengths, vec_items};
ghost use Rattle.indexset_spine.specs.NodeList.{items, AreNodeLengths, IsSpot};
ghost use Rattle.indexset_spine.specs.NodeList.{IsItemSpot, position_of};
ghost use Rattle.indexset_spine.specs.Lengths.{node_of};

mod append;
mod bounds;
mod ends;
mod extract;
mod insert;
mod make;
mod merge;
mod part;
mod remove;
mod retain;
mod search;
mod split;

use crate::into_iter::IntoIter;
use crate::iter::{Iter, walk_between};
use crate::lengths;
use crate::spot::Spot;
use indexset_core::item_iter::ItemIter;
use indexset_index::fenwick::Fenwick;
use std::alloc::Global;
use std::marker::Model;

/// A list partitioned into nodes of at most a given number of items each.
#[derive(Drop)]
pub struct Spine<T> {
    nodes: Vec<Vec<T>>,
    size: usize,
    // The number of items, which is the sum of the lengths of the nodes.
    len: usize,
    // The lengths of the nodes.
    index: Fenwick,
}

impl<T> Model for Spine<T> {
    ghost use Rattle.indexset_core.specs.Nodes.{node_lengths};
    ghost use Rattle.indexset_spine.specs.NodeList.{NodeList, node_list, node_list_code, IsIndexed};
    ghost use Rattle.indexset_core.specs.Nodes.{vec_items};

    ghost Value = { NodeList T };

    ghost view = { λ s. node_list (vec_items s.nodes.items) s.size };

    ghost invariant = { λ s. IsIndexed (node_lengths (vec_items s.nodes.items)) s.size s.len
        s.index.lengths };
}

impl<T> Spine<T> {
    ghost use Rattle.indexset_spine.specs.SpineLends.{lends_item, lends_at};

    /// Returns the maximum number of items in a node.
    pub fn maximum_node_size(&self) -> usize
        ensures value { result ≡ self.now.size }
        ensures two { 2 ≤ result }
    {
        self.size
    }

    /// Returns the allocator of the nodes.
    pub fn allocator(&self) -> &Global {
        self.nodes.allocator()
    }

    /// Returns the nodes, in order.
    pub fn nodes(&self) -> &[Vec<T>]
        ensures { vec_items result.now ≡ self.now.nodes }
    {
        self.nodes.as_slice()
    }

    /// Returns the number of nodes.
    pub fn node_count(&self) -> usize
        ensures value { result ≡ length self.now.nodes }
        ensures some { 1 ≤ result }
        ensures node_bound { result ≤ max 1 (length (items self.now)) }
        ensures cut { AreNodeLengths (node_lengths self.now.nodes) self.now.size }
    {
        self.nodes.len()
    }

    /// Recalls for a proof that there is a node, how long the nodes are, and that the sum of their
    /// lengths fits a `usize`.
    ///
    /// It has no effect.
    pub fn recall_lengths(&self)
        ensures some { 0 < length self.now.nodes }
        ensures cut { AreNodeLengths (node_lengths self.now.nodes) self.now.size }
        ensures fits { length (items self.now) < 2 ^ 64 }
    {
        self.node_count();
        self.len();
    }

    /// Returns the number of items.
    pub fn len(&self) -> usize
        ensures { result ≡ length (items self.now) }
    {
        self.len
    }

    /// Returns the position of a spot: how many items are before it.
    pub fn position(&self, spot: &Spot) -> usize
        requires { IsSpot self.now.nodes spot.now }
        ensures { result ≡ position_of self.now.nodes spot.now }
    {
        self.recall_lengths();
        self.index.prefix(spot.node) + spot.offset
    }

    /// Returns the spot of the item at a position, or `None` past the end.
    pub fn spot(&self, i: usize) -> Option<Spot>
        ensures { MatchOption result (length (items self.now) ≤ i)
            (λ s. IsItemSpot self.now.nodes s × (position_of self.now.nodes s ≡ i)
            × IsTrue s.found) }
    {
        let (node, offset) = self.index.find(i)?;
        Some(Spot {
            node,
            offset,
            found: true,
        })
    }

    /// Returns the spot of the item at a position.
    ///
    /// Before node `near` there are `start` items. The index is read only if the item is in another
    /// node.
    pub fn spot_near(&self, near: usize, start: usize, i: usize) -> Spot
        requires near { start ≡ sum (take near (node_lengths self.now.nodes)) }
        requires inside { i < length (items self.now) }
        ensures spot { IsItemSpot self.now.nodes result }
        ensures position { position_of self.now.nodes result ≡ i }
        ensures node { result.node ≡ node_of (node_lengths self.now.nodes) i }
    {
        if lengths::is_in(self.nodes.as_slice(), near, start, i) {
            return Spot {
                node: near,
                offset: i - start,
                found: true,
            };
        }
        self.spot(i).unwrap()
    }

    /// Returns the spot after the first `i` items.
    pub fn spot_after(&self, i: usize) -> Spot
        requires { i ≤ length (items self.now) }
        ensures spot { IsSpot self.now.nodes result }
        ensures position { position_of self.now.nodes result ≡ i }
    {
        self.recall_lengths();
        if i == 0 {
            return Spot {
                node: 0,
                offset: 0,
                found: false,
            };
        }
        let Some(last) = self.spot(i - 1) else {
            unreachable!()
        };
        Spot {
            node: last.node,
            offset: last.offset + 1,
            found: false,
        }
    }

    /// Returns the item at a spot.
    pub fn item(&self, spot: &Spot) -> &T
        requires { IsItemSpot self.now.nodes spot.now }
        ensures { slice_get (items self.now) (position_of self.now.nodes spot.now)
            ≡ Some result.now }
    {
        &self.nodes[spot.node][spot.offset]
    }

    /// Returns the item at a spot, or `None` past the last item.
    ///
    /// At the end of a node, it returns the first item of the next.
    pub fn item_from(&self, spot: &Spot) -> Option<&T>
        requires { IsSpot self.now.nodes spot.now }
        ensures { option_copied result ≡ slice_get (items self.now)
            (position_of self.now.nodes spot.now) }
    {
        match item_in(&self.nodes, spot.node, spot.offset) {
            Some(item) => Some(item),
            None => item_in(&self.nodes, spot.node + 1, 0),
        }
    }

    /// Returns the item at a position, or `None` past the end.
    pub fn get(&self, i: usize) -> Option<&T>
        ensures { option_copied result ≡ slice_get (items self.now) i }
    {
        let spot = self.spot(i)?;
        Some(self.item(&spot))
    }

    /// Returns a mutable reference to the item at a position, or `None` past the end.
    pub fn get_mut(&mut self, i: usize) -> Option<&mut T>
        ensures* writes_back { sem 𝓛 (lends_item T.row self.entry i result) }
        ensures value { option_copied_mut result ≡ slice_get (items self.old) i }
    {
        match self.spot(i) {
            Some(spot) => Some(self.item_mut(spot)),
            None => None,
        }
    }

    /// Returns a double-ended iterator over the items, in order.
    pub fn iter(&self) -> Iter<'_, T>
        ensures rest { result ≡ items self.now }
        ensures runs { ShowsInOrder (deref {X = T}) }
        ensures runs_back { ShowsInReverse (deref {X = T}) }
    {
        Iter::new(ItemIter::over(self.nodes.as_slice()), self.len)
    }

    /// Returns a double-ended iterator over the items from position `i` up to position `j`.
    pub fn iter_between(&self, i: usize, j: usize) -> Iter<'_, T>
        requires order { i ≤ j }
        requires within { j ≤ length (items self.now) }
        ensures rest { result ≡ between i j (items self.now) }
        ensures runs { ShowsInOrder (deref {X = T}) }
        ensures runs_back { ShowsInReverse (deref {X = T}) }
    {
        let (start, end) = (self.spot_after(i), self.spot_after(j));
        Iter::new(walk_between(self.nodes.as_slice(), &start, &end), j - i)
    }

    /// Returns a mutable reference to the item at a spot.
    pub fn item_mut(&mut self, spot: Spot) -> &mut T
        requires { IsItemSpot self.old.nodes spot }
        ensures* writes_back { sem 𝓛 (lends_at T.row self.entry (position_of self.old.nodes spot)
            result) }
        ensures value { slice_get (items self.old) (position_of self.old.nodes spot)
            ≡ Some result.now }
    {
        let items = &mut self.nodes[spot.node];
        &mut items[spot.offset]
    }
}

// Returns the item at an offset of node `k`, or `None` past its end.
fn item_in<T>(nodes: &[Vec<T>], k: usize, offset: usize) -> Option<&T>
    ensures { option_copied result ≡ slice_get (node_at (vec_items nodes.now) k) offset }
{
    nodes.get(k)?.get(offset)
}

impl<'a, T> IntoIterator for &'a Spine<T> {
    type Item = &'a T;

    type IntoIter = Iter<'a, T>;

    ghost into_iter_gives = { λ b r. (r ≡ items b.now) × ShowsInOrder (deref {X = T})
        × ShowsInReverse (deref {X = T}) };

    fn into_iter(self) -> Iter<'a, T> {
        self.iter()
    }
}

impl<T: Drop> IntoIterator for Spine<T> {
    type Item = T;

    type IntoIter = IntoIter<T>;

    ghost into_iter_gives = { λ s r. (r ≡ items s) × GivesInOrder T × GivesInReverse T };

    fn into_iter(self) -> IntoIter<T> {
        let Spine {
            nodes,
            size: _,
            len,
            index: _,
        } = self;
        IntoIter::over(nodes, len)
    }
}
