//! The part of a spine between two spots.
ghost use Rattle.std.specs.Prelude.{◌≡◌, ◌+◌, ◌≤◌, length};
ghost use Rattle.std.specs.List.{between};
ghost use Rattle.std.specs.Map.Iter.{ShowsInOrder, ShowsInReverse, deref};
ghost use Rattle.indexset_spine.specs.NodeList.{items, IsSpot, end_spot, position_of};

use super::Spine;
use crate::iter::{Iter, walk_between};
use crate::spot::Spot;

impl<T> Spine<T> {
    /// Returns the spot before the first item.
    pub fn start(&self) -> Spot
        ensures spot { IsSpot self.now.nodes result }
        ensures position { position_of self.now.nodes result ≡ 0 }
    {
        self.recall_lengths();
        Spot {
            node: 0,
            offset: 0,
            found: false,
        }
    }

    /// Returns the spot after the last item.
    pub fn end(&self) -> Spot
        ensures spot { IsSpot self.now.nodes result }
        ensures place { result ≡ end_spot self.now.nodes }
        ensures position { position_of self.now.nodes result ≡ length (items self.now) }
    {
        let node = self.nodes.len() - 1;
        Spot {
            node,
            offset: self.nodes[node].len(),
            found: false,
        }
    }

    /// Returns a double-ended iterator over the items from one spot up to another.
    pub fn iter_from_to(&self, start: &Spot, end: &Spot) -> Iter<'_, T>
        requires start { IsSpot self.now.nodes start.now }
        requires end { IsSpot self.now.nodes end.now }
        requires order { position_of self.now.nodes start.now ≤ position_of self.now.nodes end.now }
        ensures rest { result ≡ between (position_of self.now.nodes start.now)
            (position_of self.now.nodes end.now) (items self.now) }
        ensures runs { ShowsInOrder (deref {X = T}) }
        ensures runs_back { ShowsInReverse (deref {X = T}) }
    {
        self.recall_lengths();
        let walk = walk_between(self.nodes.as_slice(), start, end);
        let left = walk.item_count();
        Iter::new(walk, left)
    }
}
