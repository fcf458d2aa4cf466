//! Iterators with mutable references to the values between two bounds on keys, or two positions.
ghost use Rattle.std.specs.Prelude.{◌≡◌, IsTrue, length, min};
ghost use Rattle.std.specs.Range.Bound.{bound_map, end_index, start_index};
ghost use Rattle.indexset_core.specs.KeyRange.{are_ordered, in_positions, is_within};
ghost use Rattle.indexset_core.specs.Pairs.{pairs_within};

use super::BTreeMap;
use super::iter_mut::IterMut;
use indexset_core::key_range::KeyRange;
use indexset_core::lookup_key::LookupKey;
use indexset_core::position_range::{PositionRange, end_position, first_position};
use std::ops::Bound;

/// A double-ended iterator over a range of a map, with mutable references to the values.
pub type RangeMut<'a, K, V> = IterMut<'a, K, V>;

impl<K: Ord, V> BTreeMap<K, V> {
    ghost use Rattle.indexset_map.specs.Walk.{IsSpan, walk_back, walk_front, walk_map, walk_rest};

    /// Returns a mutable double-ended iterator over the pairs whose keys are within the range.
    ///
    /// It yields the pairs in order, each key with a mutable reference to its value. The start must
    /// not be past the end, nor equal to it if both are excluded: see
    /// `base::key_range::bounds_are_ordered`.
    ///
    /// ```
    /// let mut map = BTreeMap::from_iter(alloc, [(5, 1), (10, 1), (15, 1)])?;
    /// let mut upper = map.range_mut(10..);
    /// while let Some((_, value)) = upper.next() {
    ///     *value += 1;
    /// }
    /// assert!(rt; map.values().copied().eq([1, 2, 2]));
    /// ```
    pub fn range_mut<R: KeyRange<K> + Drop>(&mut self, range: R) -> RangeMut<'_, K, V>
        requires { IsTrue (are_ordered R.Key.cmp (R.start range) (R.end range)) }
        ensures same_map { (walk_map result).ghost_name ≡ self.entry.ghost_name }
        ensures unchanged { (walk_map result).now ≡ self.old }
        ensures rest { walk_rest result ≡ pairs_within R.Key.order self.old.pairs (R.start range)
            (R.end range) }
        ensures span { IsSpan (λ p. is_within R.Key.order (R.start range) (R.end range) p.key)
            self.old.pairs (walk_front result) (walk_back result) }
    {
        self.within_mut(range.start_bound(), range.end_bound())
    }

    // Returns the same for two bounds.
    fn within_mut<Q: LookupKey<K>>(
        &mut self,
        start: Bound<&Q>,
        end: Bound<&Q>,
    ) -> RangeMut<'_, K, V>
        requires { IsTrue (are_ordered Q.cmp (bound_map (λ k. k.now) start)
            (bound_map (λ k. k.now) end)) }
        ensures same_map { (walk_map result).ghost_name ≡ self.entry.ghost_name }
        ensures unchanged { (walk_map result).now ≡ self.old }
        ensures rest { walk_rest result ≡ pairs_within Q.order self.old.pairs
            (bound_map (λ k. k.now) start.entry) (bound_map (λ k. k.now) end.entry) }
        ensures span { IsSpan (λ p. is_within Q.order (bound_map (λ k. k.now) start.entry)
            (bound_map (λ k. k.now) end.entry) p.key) self.old.pairs (walk_front result)
            (walk_back result) }
    {
        // The keys ascend, so the range lies between two positions.
        self.recall_order();
        let (spot, from) = self.start_spot(start);
        let back = self.end_position(end);
        IterMut {
            map: self,
            front: from.min(back),
            back,
            node: spot.node,
            start: from - spot.offset,
        }
    }

    /// Returns a mutable double-ended iterator over the pairs at a range of positions.
    ///
    /// It yields the pairs in order, each key with a mutable reference to its value. The bounds are
    /// clipped to the length. The iterator is empty if the start is past the end.
    ///
    /// ```
    /// let mut map = BTreeMap::from_iter(alloc, [(5, 1), (10, 1), (15, 1)])?;
    /// let mut last = map.range_mut_idx(2..);
    /// if let Some((_, value)) = last.next() {
    ///     *value += 1;
    /// }
    /// assert!(rt; map.values().copied().eq([1, 1, 2]));
    /// ```
    pub fn range_mut_idx<R: PositionRange + Drop>(&mut self, range: R) -> RangeMut<'_, K, V>
        // Result.
        ensures same_map { (walk_map result).ghost_name ≡ self.entry.ghost_name }
        ensures rest { walk_rest result
            ≡ in_positions self.old.pairs (R.start range) (R.end range) }
        ensures front { walk_front result ≡ min (start_index (R.start range)) (walk_back result) }
        ensures back { walk_back result ≡ min (end_index (R.end range) (length self.old.pairs))
            (length self.old.pairs) }

        // Contents.
        ensures unchanged { (walk_map result).now ≡ self.old }
    {
        let len = self.len();
        let back = end_position(range.end_bound(), len);
        let front = first_position(range.start_bound(), len).min(back);
        IterMut {
            map: self,
            front,
            back,
            node: 0,
            start: 0,
        }
    }
}
