//! The removal of single items, as a closure selects them.
ghost use Rattle.std.specs.Prelude.{◌≡◌, MatchOption, length};
ghost use Rattle.std.specs.Fn.{CalledAtMut};
ghost use Rattle.indexset_core.specs.Nodes.{node_lengths};
ghost use Rattle.indexset_spine.specs.NodeList.{items};
ghost use Rattle.indexset_spine.specs.Extract.{Extracts, IsExtractRange, extract_state};
ghost use Rattle.indexset_spine.specs.Lengths.{lengths_without};

use super::Spine;
use crate::extract_range::ExtractRange;

impl<T: Drop> Spine<T> {
    /// Removes the next item of a stretch for which the closure returns true, and returns it.
    ///
    /// The closure is called for each item of the stretch in order, up to that one. The items
    /// before it stay, as the closure left them, and are no longer in the stretch. An emptied node
    /// is removed, unless it is the only one. It allocates nothing.
    pub fn extract<F: FnMut(&mut T) -> bool>(
        &mut self,
        at: &mut ExtractRange,
        f: &mut F,
    ) -> Option<T>
        requires callable { F.IsAlwaysCallable f.old }
        requires at { IsExtractRange (node_lengths self.old.nodes) (length (items self.old))
            at.old }

        // Result.
        ensures extracted { Extracts (CalledAtMut F.FnMut) f.old
            (extract_state (items self.old) at.old.front at.old.back) result f.new
            (extract_state (items self.new) at.new.front at.new.back) }

        // Contents.
        ensures at { IsExtractRange (node_lengths self.new.nodes) (length (items self.new)) at.new }
        ensures callable { F.IsAlwaysCallable f.new }

        // Nodes.
        ensures lengths { MatchOption result
            (node_lengths self.new.nodes ≡ node_lengths self.old.nodes)
            (λ _. node_lengths self.new.nodes
            ≡ lengths_without (node_lengths self.old.nodes) at.new.front) }
        ensures size { self.new.size ≡ self.old.size }
    {
        while at.front < at.back {
            let spot = self.spot_near(at.node, at.start, at.front);
            at.node = spot.node;
            at.start = at.front - spot.offset;
            if f(self.item_mut(spot)) {
                at.back -= 1;
                return Some(self.remove(spot));
            }
            at.front += 1;
        }
        None
    }
}
