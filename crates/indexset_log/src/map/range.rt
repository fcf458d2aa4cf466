//! The pairs between two bounds on keys.
ghost use Rattle.std.specs.Prelude.{◌≡◌, IsTrue};
ghost use Rattle.std.specs.Map.Iter.{ShowsInOrder, ShowsInReverse};
ghost use Rattle.std.specs.Range.Bound.{bound_map};
ghost use Rattle.indexset_core.specs.KeyRange.{are_ordered};
ghost use Rattle.indexset_core.specs.Nodes.{concat};
ghost use Rattle.indexset_core.specs.Pairs.{pair_deref, pairs_within};

use super::BTreeMap;
use super::iter::Iter;
use crate::set::range;
use indexset_core::key_range::KeyRange;
use indexset_core::lookup_key::LookupKey;
use indexset_core::node::NodeLike;
use indexset_core::pair::Pair;
use indexset_core::probe::ByKey;
use std::ops::Bound;

/// A double-ended iterator over a range of the pairs of a map.
pub type Range<'a, K, V, Node = Vec<Pair<K, V>>> = Iter<'a, K, V, Node>;

impl<K: Ord + Clone + Drop, V: Clone + Drop, Node: NodeLike<Pair<K, V>>> BTreeMap<K, V, Node> {
    /// Returns a double-ended iterator over the pairs whose keys are within the range, in order.
    ///
    /// The start must not be past the end, nor equal to it if both are excluded: see
    /// `base::key_range::bounds_are_ordered`.
    ///
    /// ```
    /// // The pairs of the keys from 10 on that are below 20.
    /// let mut tree: map::BTreeMap<u64, u64, Vec<Pair<u64, u64>>> = map::BTreeMap::new(alloc);
    /// for key in [5, 10, 15, 20] {
    ///     tree.insert(key, 0)?;
    /// }
    /// let teens = tree.range(10..20);
    /// assert!(rt; teens.map(|(key, _)| *key).eq([10, 15]));
    /// ```
    pub fn range<R: KeyRange<K> + Drop>(&self, range: R) -> Range<'_, K, V, Node>
        requires { IsTrue (are_ordered R.Key.cmp (R.start range) (R.end range)) }
        ensures rest { result ≡ pairs_within R.Key.order (concat self.now.nodes) (R.start range)
            (R.end range) }
        ensures runs { ShowsInOrder (pair_deref {K = K} {V = V}) }
        ensures runs_back { ShowsInReverse (pair_deref {K = K} {V = V}) }
    {
        self.within((range.start_bound(), range.end_bound()))
    }

    // Returns the same for two bounds.
    fn within<Q: LookupKey<K>>(&self, range: (Bound<&Q>, Bound<&Q>)) -> Range<'_, K, V, Node>
        requires { IsTrue (are_ordered Q.cmp (bound_map (λ k. k.now) range.0)
            (bound_map (λ k. k.now) range.1)) }
        ensures { result ≡ pairs_within Q.order (concat self.now.nodes)
            (bound_map (λ k. k.now) range.entry.0) (bound_map (λ k. k.now) range.entry.1) }
    {
        // The pairs ascend, so the range lies between two places.
        self.set.recall_invariant();
        let from = self.set.place_from(range.0.map(ByKey::new));
        let to = self.set.place_to(range.1.map(ByKey::new));
        let range::Range { rest } = self.set.range_between(from, to);
        Iter { rest }
    }
}
