//! Bounds of a range of keys: two bounds, or one of Rust's ranges.
ghost use Rattle.std.specs.Prelude.{◌≡◌};
ghost use Rattle.std.specs.Range.{range_inclusive_end, range_inclusive_start};
ghost use Rattle.std.specs.Range.Bound.{bound_map};
ghost use Rattle.std.specs.declared.ops.Bound.{Bound};
ghost use Rattle.std.specs.declared.ops.Bound.TheVariants.{Excluded, Included, Unbounded};
ghost use Rattle.indexset_core.specs.KeyRange.{are_ordered};

use crate::lookup_key::LookupKey;
use std::ops::{Bound, Range, RangeFrom, RangeFull, RangeInclusive, RangeTo, RangeToInclusive};

/// The bounds of a range of keys: one of Rust's ranges, or a pair of `Bound`s.
///
/// The keys are look-up keys of any type ([`LookupKey`]). The ranges are `a..b`, `a..=b`, `a..`,
/// `..b`, `..=b` and `..`. The trait takes the place of std's `RangeBounds`. As there,
/// `(Unbounded, Unbounded)` needs a type annotation, and `..` does not. An `a..=b` that was
/// iterated to its end still includes both bounds.
///
/// ```
/// let board = BTreeSet::from_iter(alloc, [10, 20, 30])?;
/// assert!(rt; board.range(15..).copied().eq([20, 30]) && board.range(..=10).len() == 1);
/// assert!(rt; board.range((Bound::Excluded(10), Bound::Unbounded)).copied().eq([20, 30]));
/// assert!(rt; board.range((Bound::Excluded(&10), Bound::Unbounded)).len() == 2);
/// ```
pub trait KeyRange<T: Ord> {
    /// The type of the keys.
    type Key: LookupKey<T>;

    /// The bound at the start.
    ghost start: { Self → Bound Self.Key };

    /// The bound at the end.
    ghost end: { Self → Bound Self.Key };

    /// Returns the bound at the start.
    fn start_bound(&self) -> Bound<&Self::Key>
        ensures { bound_map (λ x. x.now) result ≡ start self.now };

    /// Returns the bound at the end.
    fn end_bound(&self) -> Bound<&Self::Key>
        ensures { bound_map (λ x. x.now) result ≡ end self.now };
}

impl<T: Ord, Q: LookupKey<T>> KeyRange<T> for (Bound<Q>, Bound<Q>) {
    type Key = Q;

    ghost start = { λ s. s.0 };

    ghost end = { λ s. s.1 };

    fn start_bound(&self) -> Bound<&Q> {
        self.0.as_ref()
    }

    fn end_bound(&self) -> Bound<&Q> {
        self.1.as_ref()
    }
}

impl<T: Ord> KeyRange<T> for RangeFull {
    type Key = T;

    ghost start = { λ _. Unbounded };

    ghost end = { λ _. Unbounded };

    fn start_bound(&self) -> Bound<&T> {
        Bound::Unbounded
    }

    fn end_bound(&self) -> Bound<&T> {
        Bound::Unbounded
    }
}

impl<T: Ord, Q: LookupKey<T>> KeyRange<T> for Range<Q> {
    type Key = Q;

    ghost start = { λ s. Included s.start };

    ghost end = { λ s. Excluded s.end };

    fn start_bound(&self) -> Bound<&Q> {
        Bound::Included(&self.start)
    }

    fn end_bound(&self) -> Bound<&Q> {
        Bound::Excluded(&self.end)
    }
}

impl<T: Ord, Q: LookupKey<T>> KeyRange<T> for RangeInclusive<Q> {
    type Key = Q;

    ghost start = { λ s. Included (range_inclusive_start s) };

    ghost end = { λ s. Included (range_inclusive_end s) };

    fn start_bound(&self) -> Bound<&Q> {
        Bound::Included(self.start())
    }

    fn end_bound(&self) -> Bound<&Q> {
        Bound::Included(self.end())
    }
}

impl<T: Ord, Q: LookupKey<T>> KeyRange<T> for RangeFrom<Q> {
    type Key = Q;

    ghost start = { λ s. Included s.start };

    ghost end = { λ _. Unbounded };

    fn start_bound(&self) -> Bound<&Q> {
        Bound::Included(&self.start)
    }

    fn end_bound(&self) -> Bound<&Q> {
        Bound::Unbounded
    }
}

impl<T: Ord, Q: LookupKey<T>> KeyRange<T> for RangeTo<Q> {
    type Key = Q;

    ghost start = { λ _. Unbounded };

    ghost end = { λ s. Excluded s.end };

    fn start_bound(&self) -> Bound<&Q> {
        Bound::Unbounded
    }

    fn end_bound(&self) -> Bound<&Q> {
        Bound::Excluded(&self.end)
    }
}

impl<T: Ord, Q: LookupKey<T>> KeyRange<T> for RangeToInclusive<Q> {
    type Key = Q;

    ghost start = { λ _. Unbounded };

    ghost end = { λ s. Included s.end };

    fn start_bound(&self) -> Bound<&Q> {
        Bound::Unbounded
    }

    fn end_bound(&self) -> Bound<&Q> {
        Bound::Included(&self.end)
    }
}

/// Returns whether the start is at most the end, and below it if both are excluded.
///
/// An unbounded start or end is in order with any other.
///
/// ```
/// # use indexset::base::key_range::bounds_are_ordered;
/// assert!(rt; bounds_are_ordered(Bound::Included(&5), Bound::Included(&5)));
/// assert!(rt; !bounds_are_ordered(Bound::Excluded(&5), Bound::Excluded(&5)));
/// ```
pub fn bounds_are_ordered<T: Ord>(start: Bound<&T>, end: Bound<&T>) -> bool
    ensures { result ≡ are_ordered T.cmp (bound_map (λ x. x.now) start.entry)
        (bound_map (λ x. x.now) end.entry) }
{
    match (start, end) {
        (Bound::Excluded(first), Bound::Excluded(last)) => first.cmp(last).is_lt(),
        (Bound::Excluded(first), Bound::Included(last)) => first.cmp(last).is_le(),
        (Bound::Included(first), Bound::Excluded(last)) => first.cmp(last).is_le(),
        (Bound::Included(first), Bound::Included(last)) => first.cmp(last).is_le(),
        _ => true,
    }
}
