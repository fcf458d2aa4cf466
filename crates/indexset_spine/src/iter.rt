//! A double-ended iterator that borrows the items of a spine.
ghost use Rattle.std.specs.Prelude.{◌≡◌, ◌≤◌};
ghost use Rattle.std.specs.List.{between};
ghost use Rattle.indexset_core.specs.Nodes.{concat, vec_items};
ghost use Rattle.indexset_spine.specs.NodeList.{IsSpot, position_of};

pub mod runs;

use crate::spot::Spot;
use indexset_core::item_iter::counted::ExactItemIter;
use indexset_core::item_iter::{ItemIter, OfVec};

/// A double-ended iterator over the items of a spine, which knows how many remain.
pub type Iter<'a, T> = ExactItemIter<'a, T, Vec<T>, OfVec>;

/// Creates an iterator over the items from one spot up to another.
pub(crate) fn walk_between<'a, T>(
    nodes: &'a [Vec<T>],
    start: &Spot,
    end: &Spot,
) -> ItemIter<'a, T, Vec<T>, OfVec>
    requires start { IsSpot (vec_items nodes.now) start.now }
    requires end { IsSpot (vec_items nodes.now) end.now }
    requires order { position_of (vec_items nodes.now) start.now
        ≤ position_of (vec_items nodes.now) end.now }
    ensures { result ≡ between (position_of (vec_items nodes.now) start.now)
        (position_of (vec_items nodes.now) end.now) (concat (vec_items nodes.now)) }
{
    ItemIter::between(nodes, (start.node, start.offset), (end.node, end.offset))
}
