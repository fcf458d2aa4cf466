//! The elements between two bounds, or between two positions.
ghost use Rattle.std.specs.Prelude.{◌≡◌, IsTrue};
ghost use Rattle.std.specs.List.{count_by};
ghost use Rattle.std.specs.Map.Iter.{ShowsInOrder, ShowsInReverse, deref};
ghost use Rattle.std.specs.Range.Bound.{bound_map};
ghost use Rattle.indexset_core.specs.KeyRange.{IfBounded, are_ordered, in_positions};
ghost use Rattle.indexset_core.specs.KeyRange.{in_range, is_before, is_up_to_end};
ghost use Rattle.indexset_core.specs.Order.{IsAscending};
ghost use Rattle.indexset_spine.specs.NodeList.{items};
ghost use Rattle.indexset_set.specs.SetProbes.{FindsInOrder};

use super::BTreeSet;
use super::iter::Iter;
use indexset_core::key_range::KeyRange;
use indexset_core::lookup_key::LookupKey;
use indexset_core::position_range::{PositionRange, end_position, first_position};
use indexset_core::probe::{ByItem, Probe};
use std::ops::Bound;

/// A double-ended iterator over a range of a set, in ascending order.
pub type Range<'a, T> = Iter<'a, T>;

impl<T: Ord> BTreeSet<T> {
    /// Returns a double-ended iterator over the elements within the range, in order.
    ///
    /// The start must not be past the end, nor equal to it if both are excluded (see
    /// `base::key_range::bounds_are_ordered`).
    ///
    /// ```
    /// let set = BTreeSet::from_iter(alloc, [5, 10, 15, 20])?;
    /// let teens = set.range(10..20);
    /// let above = set.range((Bound::Excluded(&10), Bound::Unbounded));
    /// assert!(rt; teens.copied().eq([10, 15]) && above.copied().eq([15, 20]));
    /// ```
    pub fn range<R: KeyRange<T> + Drop>(&self, range: R) -> Range<'_, T>
        requires { IsTrue (are_ordered R.Key.cmp (R.start range) (R.end range)) }
        ensures rest { result ≡ in_range R.Key.order (items self.now) (R.start range)
            (R.end range) }
        ensures ascending { IsAscending T.cmp result }
        ensures runs { ShowsInOrder (deref {X = T}) }
        ensures runs_back { ShowsInReverse (deref {X = T}) }
    {
        self.within(range.start_bound(), range.end_bound())
    }

    // Returns the same for two bounds.
    fn within<Q: LookupKey<T>>(&self, start: Bound<&Q>, end: Bound<&Q>) -> Range<'_, T>
        requires { IsTrue (are_ordered Q.cmp (bound_map (λ v. v.now) start)
            (bound_map (λ v. v.now) end)) }
        ensures rest { result ≡ in_range Q.order (items self.now)
            (bound_map (λ v. v.now) start.entry) (bound_map (λ v. v.now) end.entry) }
        ensures ascending { IsAscending T.cmp result }
        ensures runs { ShowsInOrder (deref {X = T}) }
        ensures runs_back { ShowsInReverse (deref {X = T}) }
    {
        let from = self.spine.start_of(start.map(ByItem::new));
        let to = self.spine.end_of(end.map(ByItem::new));
        Iter::of(self.spine.iter_from_to(&from, &to))
    }

    /// Returns a double-ended iterator over the elements at a range of positions, in order.
    ///
    /// It is empty if the start is past the end. The bounds are clipped to the length.
    ///
    /// ```
    /// // The second page of two elements each.
    /// let set = BTreeSet::from_iter(alloc, [5, 10, 15, 20, 25])?;
    /// let page = set.range_idx(2..4);
    /// assert!(rt; page.copied().eq([15, 20]));
    /// ```
    pub fn range_idx<R: PositionRange + Drop>(&self, range: R) -> Range<'_, T>
        ensures rest { result ≡ in_positions (items self.now) (R.start range) (R.end range) }
        ensures ascending { IsAscending T.cmp result }
        ensures runs { ShowsInOrder (deref {X = T}) }
        ensures runs_back { ShowsInReverse (deref {X = T}) }
    {
        let len = self.len();
        let to = end_position(range.end_bound(), len);
        let from = first_position(range.start_bound(), len).min(to);
        Iter::of(self.spine.iter_between(from, to))
    }

    /// Returns how many elements are before the start, a bound given by a comparator.
    ///
    /// ```
    /// # use indexset::base::probe::ByItem;
    /// let set = BTreeSet::from_iter(alloc, [10, 20, 30])?;
    /// assert_eq!(rt; set.count_before(Bound::Included(ByItem::new(&20))), 1);
    /// ```
    pub fn count_before<P: Probe<T> + Drop>(&self, start: Bound<P>) -> usize
        requires { IfBounded (λ p. FindsInOrder (P.answer p) (items self.now)) start }
        ensures { result ≡ count_by (is_before (λ x p. P.answer p x) start) (items self.now) }
    {
        self.spine.position(&self.spine.start_of(start))
    }

    /// Returns how many elements are not past the end, a bound given by a comparator.
    ///
    /// ```
    /// # use indexset::base::probe::ByItem;
    /// let set = BTreeSet::from_iter(alloc, [10, 20, 30])?;
    /// assert_eq!(rt; set.count_up_to(Bound::Included(ByItem::new(&20))), 2);
    /// ```
    pub fn count_up_to<P: Probe<T> + Drop>(&self, end: Bound<P>) -> usize
        requires { IfBounded (λ p. FindsInOrder (P.answer p) (items self.now)) end }
        ensures { result ≡ count_by (is_up_to_end (λ x p. P.answer p x) end) (items self.now) }
    {
        self.spine.position(&self.spine.end_of(end))
    }
}
