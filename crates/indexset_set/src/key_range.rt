//! The pairs of a set between two bounds on keys.
ghost use Rattle.std.specs.Prelude.{◌≡◌, IsTrue};
ghost use Rattle.std.specs.Map.Iter.{ShowsInOrder, ShowsInReverse, deref};
ghost use Rattle.std.specs.Range.Bound.{bound_map};
ghost use Rattle.indexset_core.specs.KeyRange.{are_ordered};
ghost use Rattle.indexset_core.specs.Order.{IsAscending};
ghost use Rattle.indexset_core.specs.Pairs.{by_key, pairs_within};
ghost use Rattle.indexset_core.specs.declared.pair.Pair.{Pair};
ghost use Rattle.indexset_spine.specs.NodeList.{items};

use super::BTreeSet;
use super::iter::Iter;
use super::range::Range;
use indexset_core::lookup_key::LookupKey;
use indexset_core::pair::Pair;
use indexset_core::probe::ByKey;
use std::ops::Bound;

impl<K: Ord, V> BTreeSet<Pair<K, V>> {
    /// Returns a double-ended iterator over the pairs whose keys are within the range, in order.
    ///
    /// The start must not be past the end, nor equal to it if both are excluded (see
    /// `base::key_range::bounds_are_ordered`).
    ///
    /// ```
    /// let (one, two) = (Pair { key: 1, value: 10 }, Pair { key: 2, value: 20 });
    /// let pairs = BTreeSet::from_iter(alloc, [one, two])?;
    /// let range = pairs.range_by_key((Bound::Excluded(&1), Bound::Unbounded));
    /// assert!(rt; range.map(|pair| pair.value).eq([20]));
    /// ```
    pub fn range_by_key<Q: LookupKey<K>>(
        &self,
        range: (Bound<&Q>, Bound<&Q>),
    ) -> Range<'_, Pair<K, V>>
        requires { IsTrue (are_ordered Q.cmp (bound_map (λ k. k.now) range.0)
            (bound_map (λ k. k.now) range.1)) }
        ensures rest { result ≡ pairs_within Q.order (items self.now)
            (bound_map (λ k. k.now) range.entry.0) (bound_map (λ k. k.now) range.entry.1) }
        ensures ascending { IsAscending (by_key K.cmp) result }
        ensures runs { ShowsInOrder (deref {X = Pair K V}) }
        ensures runs_back { ShowsInReverse (deref {X = Pair K V}) }
    {
        let from = self.spine.start_of(range.0.map(ByKey::new));
        let to = self.spine.end_of(range.1.map(ByKey::new));
        Iter::of(self.spine.iter_from_to(&from, &to))
    }
}
