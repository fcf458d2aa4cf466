//! The items of a replica between two bounds.
ghost use Rattle.std.specs.Map.Iter.{ShowsInOrder, ShowsInReverse, deref};
ghost use Rattle.std.specs.Range.Bound.{bound_map};
ghost use Rattle.std.specs.Prelude.{◌≡◌, IsTrue};
ghost use Rattle.indexset_core.specs.KeyRange.{are_ordered, in_range};
ghost use Rattle.indexset_core.specs.Nodes.{concat};

use super::Replica;
use super::iter::Iter;
use indexset_core::item_iter::OfVec;
use indexset_core::key_range::KeyRange;
use indexset_core::locate::{place_from, place_to};
use indexset_core::lookup_key::LookupKey;
use indexset_core::probe::ByItem;
use std::ops::Bound;

impl<T: Ord + Clone + Drop> Replica<T> {
    /// Returns a double-ended iterator over the items within the range, in order.
    ///
    /// A range of keys has the pairs of these keys. The start must not be past the end, nor equal
    /// to it if both are excluded: see `base::key_range::bounds_are_ordered`.
    ///
    /// # Examples
    ///
    /// ```
    /// // The items from 10 on that are below 20.
    /// let nodes = vec![in alloc; vec![in alloc; 5, 10]?, vec![in alloc; 15, 20]?]?;
    /// let copy = Replica::from_nodes(nodes, 4)?;
    /// let teens = copy.range(10..20);
    /// assert!(rt; teens.copied().eq([10, 15]));
    /// ```
    ///
    /// # Complexity
    ///
    /// Makes two binary searches for each bound that names an item, one among the nodes and one in
    /// a node. It allocates nothing.
    pub fn range<R: KeyRange<T> + Drop>(&self, range: R) -> Iter<'_, T>
        requires { IsTrue (are_ordered R.Key.cmp (R.start range) (R.end range)) }
        ensures rest { result ≡ in_range R.Key.order (concat self.now.nodes) (R.start range)
            (R.end range) }
        ensures runs { ShowsInOrder (deref {X = T}) }
        ensures runs_back { ShowsInReverse (deref {X = T}) }
    {
        self.within((range.start_bound(), range.end_bound()))
    }

    // Returns the same for two bounds.
    fn within<Q: LookupKey<T>>(&self, range: (Bound<&Q>, Bound<&Q>)) -> Iter<'_, T>
        requires { IsTrue (are_ordered Q.cmp (bound_map (λ v. v.now) range.0)
            (bound_map (λ v. v.now) range.1)) }
        ensures { result ≡ in_range Q.order (concat self.now.nodes)
            (bound_map (λ v. v.now) range.entry.0) (bound_map (λ v. v.now) range.entry.1) }
    {
        let nodes = self.nodes.as_slice();
        let from = place_from::<T, Vec<T>, OfVec, ByItem<'_, Q>>(nodes, range.0.map(ByItem::new));
        let to = place_to::<T, Vec<T>, OfVec, ByItem<'_, Q>>(nodes, range.1.map(ByItem::new));
        Iter::between(nodes, from, to)
    }
}
