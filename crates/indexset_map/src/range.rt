//! The pairs between two bounds on keys, or between two positions.
ghost use Rattle.std.specs.Prelude.{◌≡◌, IsTrue};
ghost use Rattle.std.specs.List.{count_by};
ghost use Rattle.std.specs.Map.Iter.{ShowsInOrder, ShowsInReverse};
ghost use Rattle.std.specs.Range.Bound.{bound_map};
ghost use Rattle.indexset_core.specs.KeyRange.{are_ordered, in_positions, is_before, is_up_to_end};
ghost use Rattle.indexset_core.specs.Order.{IsAscending};
ghost use Rattle.indexset_core.specs.Pairs.{by_key, pair_deref, pairs_within};
ghost use Rattle.indexset_spine.specs.Lengths.{place_of};

use super::BTreeMap;
use super::iter::IterMap;
use indexset_core::key_range::KeyRange;
use indexset_core::lookup_key::LookupKey;
use indexset_core::position_range::PositionRange;
use indexset_core::probe::ByKey;
use indexset_set::inner;
use indexset_spine::spot::Spot;
use std::ops::Bound;

/// A double-ended iterator over a range of the pairs of a map.
pub type RangeMap<'a, K, V> = IterMap<'a, K, V>;

impl<K: Ord, V> BTreeMap<K, V> {
    /// Returns a double-ended iterator over the pairs whose keys are within the range, in order.
    ///
    /// The start must not be past the end, nor equal to it if both are excluded: see
    /// `base::key_range::bounds_are_ordered`.
    ///
    /// ```
    /// let map = BTreeMap::from_iter(alloc, [(5, 'a'), (10, 'b'), (15, 'c'), (20, 'd')])?;
    /// let teens = map.range(10..20);
    /// let above = map.range((Bound::Excluded(&15), Bound::Unbounded));
    /// assert!(rt; teens.eq([(&10, &'b'), (&15, &'c')]) && above.eq([(&20, &'d')]));
    /// ```
    pub fn range<R: KeyRange<K> + Drop>(&self, range: R) -> RangeMap<'_, K, V>
        requires { IsTrue (are_ordered R.Key.cmp (R.start range) (R.end range)) }
        ensures rest { result ≡ pairs_within R.Key.order self.now.pairs (R.start range)
            (R.end range) }
        ensures ascending { IsAscending (by_key K.cmp) result }
        ensures runs { ShowsInOrder (pair_deref {K = K} {V = V}) }
        ensures runs_back { ShowsInReverse (pair_deref {K = K} {V = V}) }
    {
        let bounds = (range.start_bound(), range.end_bound());
        IterMap::of(self.set.range_by_key(bounds))
    }

    /// Returns a double-ended iterator over the pairs at a range of positions, in order.
    ///
    /// The bounds are clipped to the length. The iterator is empty if the start is past the end.
    ///
    /// ```
    /// let map = BTreeMap::from_iter(alloc, [(5, 'a'), (10, 'b'), (15, 'c')])?;
    /// let page = map.range_idx(1..);
    /// assert!(rt; page.eq([(&10, &'b'), (&15, &'c')]));
    /// ```
    pub fn range_idx<R: PositionRange + Drop>(&self, range: R) -> RangeMap<'_, K, V>
        ensures rest { result ≡ in_positions self.now.pairs (R.start range) (R.end range) }
        ensures ascending { IsAscending (by_key K.cmp) result }
        ensures runs { ShowsInOrder (pair_deref {K = K} {V = V}) }
        ensures runs_back { ShowsInReverse (pair_deref {K = K} {V = V}) }
    {
        IterMap::of(self.set.range_idx(range))
    }

    // Returns the spot after the pairs before the start, and the number of these pairs.
    pub(super) fn start_spot<Q: LookupKey<K>>(&self, start: Bound<&Q>) -> (Spot, usize)
        ensures place { result.1 ≡ place_of self.now.lengths result.0 }
        ensures position { result.1 ≡ count_by
            (λ p. is_before Q.order (bound_map (λ k. k.now) start.entry) p.key) self.now.pairs }
    {
        inner::recall_order(&self.set);
        let spot = inner::start_of(&self.set, start.map(ByKey::new));
        let position = inner::position(&self.set, &spot);
        (spot, position)
    }

    // Returns the first position whose key is past the end, or the length if there is none.
    pub(super) fn end_position<Q: LookupKey<K>>(&self, end: Bound<&Q>) -> usize
        ensures { result ≡ count_by (λ p. is_up_to_end Q.order (bound_map (λ k. k.now) end.entry)
            p.key) self.now.pairs }
    {
        inner::recall_order(&self.set);
        self.set.count_up_to(end.map(ByKey::new))
    }
}
