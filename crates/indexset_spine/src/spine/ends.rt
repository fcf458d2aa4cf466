//! The spots of the first and of the last item, found without the index.
ghost use Rattle.std.specs.Prelude.{◌≡◌, ◌-◌, IsTrue, length, MatchOption};
ghost use Rattle.indexset_spine.specs.NodeList.{items, IsItemSpot, position_of};

use super::Spine;
use crate::spot::Spot;

impl<T> Spine<T> {
    /// Returns the spot of the first item, or `None` if the spine is empty.
    pub fn first_spot(&self) -> Option<Spot>
        ensures { MatchOption result (length (items self.now) ≡ 0)
            (λ s. IsItemSpot self.now.nodes s × (position_of self.now.nodes s ≡ 0)
            × IsTrue s.found) }
    {
        if self.len == 0 {
            return None;
        }
        Some(Spot {
            node: 0,
            offset: 0,
            found: true,
        })
    }

    /// Returns the spot of the last item, or `None` if the spine is empty.
    pub fn last_spot(&self) -> Option<Spot>
        ensures { MatchOption result (length (items self.now) ≡ 0)
            (λ s. IsItemSpot self.now.nodes s
            × (position_of self.now.nodes s ≡ length (items self.now) - 1) × IsTrue s.found) }
    {
        if self.len == 0 {
            return None;
        }
        let node = self.nodes.len() - 1;
        Some(Spot {
            node,
            offset: self.nodes[node].len() - 1,
            found: true,
        })
    }
}
