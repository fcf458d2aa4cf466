//! Searches by a comparator.
ghost use Rattle.std.specs.Prelude.{◌≡◌, ◌+◌, ◌≤◌, length};
ghost use Rattle.indexset_core.specs.Digits.{digits};
ghost use Rattle.indexset_core.specs.Nodes.{node_for};
ghost use Rattle.indexset_core.specs.Parted.{IsParted};
ghost use Rattle.indexset_spine.specs.NodeList.{items};
ghost use Rattle.indexset_spine.specs.Search.{IsSearchResult};

use super::Spine;
use crate::locate;
use crate::spot::Spot;
use indexset_core::item_iter::OfVec;
use indexset_core::locate::node_by;
use indexset_core::probe::Probe;
use indexset_core::search;

// What a search is for.
#[derive(Clone, Copy)]
enum Purpose {
    Lookup,
    Insertion,
}

impl<T> Spine<T> {
    /// Returns the spot of the first item that compares Equal, or its insertion point.
    ///
    /// # Complexity
    ///
    /// Two binary searches.
    #[inline(always)]
    pub fn locate_by<P: Probe<T>>(&self, probe: &mut P) -> Spot
        requires { IsParted (P.answer probe.old) (items self.now) }
        ensures spot { IsSearchResult (P.answer probe.old) self.now.nodes result }
        ensures fixed { P.answer probe.new ≡ P.answer probe.old }
        ensures comparisons { P.asked probe.new ≤ P.asked probe.old
            + (digits (length self.now.nodes) + digits self.now.size + 1) }
    {
        self.locate_for(probe, Purpose::Lookup)
    }

    /// Returns the same as `locate_by`, with the last item compared first.
    ///
    /// It serves items that come in order.
    ///
    /// # Complexity
    ///
    /// One comparison if the last item compares Less, else one more than `locate_by`.
    pub fn locate_from_end_by<P: Probe<T>>(&self, probe: &mut P) -> Spot
        requires { IsParted (P.answer probe.old) (items self.now) }
        ensures spot { IsSearchResult (P.answer probe.old) self.now.nodes result }
        ensures fixed { P.answer probe.new ≡ P.answer probe.old }
        ensures comparisons { P.asked probe.new ≤ P.asked probe.old
            + (digits (length self.now.nodes) + digits self.now.size + 2) }
    {
        let node = self.nodes.len() - 1;
        let items = self.nodes[node].as_slice();
        if locate::ends_less(items, probe) {
            return Spot {
                node,
                offset: items.len(),
                found: false,
            };
        }
        self.locate_for(probe, Purpose::Insertion)
    }

    /// Returns the same as `locate_by`, with node `near` tried first.
    ///
    /// It serves items whose insertion points are near each other.
    ///
    /// # Complexity
    ///
    /// Two comparisons more than `locate_by` at most.
    pub fn locate_near_by<P: Probe<T>>(&self, near: usize, probe: &mut P) -> Spot
        requires { IsParted (P.answer probe.old) (items self.now) }
        ensures spot { IsSearchResult (P.answer probe.old) self.now.nodes result }
        ensures fixed { P.answer probe.new ≡ P.answer probe.old }
        ensures comparisons { P.asked probe.new ≤ P.asked probe.old
            + (digits (length self.now.nodes) + digits self.now.size + 3) }
    {
        if locate::is_sought(self.nodes.as_slice(), near, probe) {
            return self.locate_in(near, probe, Purpose::Lookup);
        }
        self.locate_by(probe)
    }

    // Does the same as `locate_by`, by the kind of search for this purpose.
    #[inline(always)]
    fn locate_for<P: Probe<T>>(&self, probe: &mut P, purpose: Purpose) -> Spot
        requires { IsParted (P.answer probe.old) (items self.now) }
        ensures spot { IsSearchResult (P.answer probe.old) self.now.nodes result }
        ensures fixed { P.answer probe.new ≡ P.answer probe.old }
        ensures comparisons { P.asked probe.new ≤ P.asked probe.old
            + (digits (length self.now.nodes) + digits self.now.size + 1) }
    {
        let node = node_by::<T, Vec<T>, OfVec, P>(self.nodes.as_slice(), probe);
        self.locate_in(node, probe, purpose)
    }

    // Does the same in node `node`, in which the search ends.
    fn locate_in<P: Probe<T>>(&self, node: usize, probe: &mut P, purpose: Purpose) -> Spot
        requires parted { IsParted (P.answer probe.old) (items self.now) }
        requires node { node ≡ node_for (P.answer probe.old) self.now.nodes }
        ensures spot { IsSearchResult (P.answer probe.old) self.now.nodes result }
        ensures fixed { P.answer probe.new ≡ P.answer probe.old }
        ensures comparisons { P.asked probe.new ≤ P.asked probe.old + (digits self.now.size + 1) }
    {
        let items = self.nodes[node].as_slice();
        let (offset, found) = search::place_in(items, probe, self.cached_node_count(purpose));
        Spot {
            node,
            offset,
            found,
        }
    }

    // Returns how many nodes must fit in the cache for a search without branches to be the faster
    // one.
    fn cached_node_count(&self, purpose: Purpose) -> usize {
        match purpose {
            Purpose::Lookup => self.nodes.len(),
            // A search with branches prefetches items that the insertion then moves, so one without
            // branches is faster only among a quarter as many nodes.
            Purpose::Insertion => self.nodes.len().saturating_mul(4),
        }
    }
}
