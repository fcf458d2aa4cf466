//! Ranges of positions: two bounds, or one of Rust's ranges.
ghost use Rattle.std.specs.Prelude.{◌≡◌, ℕ, min};
ghost use Rattle.std.specs.Range.{range_inclusive_end, range_inclusive_start};
ghost use Rattle.std.specs.Range.Bound.{end_index, start_index};
ghost use Rattle.std.specs.declared.ops.Bound.{Bound};
ghost use Rattle.std.specs.declared.ops.Bound.TheVariants.{Excluded, Included, Unbounded};

use std::ops::{Bound, Range, RangeFrom, RangeFull, RangeInclusive, RangeTo, RangeToInclusive};

/// The bounds of a range of positions: one of Rust's ranges, or a pair of `Bound<usize>`s.
///
/// The ranges are `i..j`, `i..=j`, `i..`, `..j`, `..=j` and `..`. Calls such as `range_idx` take
/// them.
///
/// ```
/// # use indexset::PositionRange;
/// let page = (Bound::Included(2), Bound::Excluded(4));
/// assert!(rt; page.start_bound() == (2..4).start_bound());
/// let board = BTreeSet::from_iter(alloc, [5, 10, 15, 20, 25])?;
/// assert!(rt; board.range_idx(page).eq(board.range_idx(2..4)));
/// ```
pub trait PositionRange {
    /// The bound at the start.
    ghost start: { Self → Bound ℕ };

    /// The bound at the end.
    ghost end: { Self → Bound ℕ };

    /// Returns the bound at the start.
    fn start_bound(&self) -> Bound<usize>
        ensures { result ≡ start self.now };

    /// Returns the bound at the end.
    fn end_bound(&self) -> Bound<usize>
        ensures { result ≡ end self.now };
}

impl PositionRange for (Bound<usize>, Bound<usize>) {
    ghost start = { λ s. s.0 };

    ghost end = { λ s. s.1 };

    fn start_bound(&self) -> Bound<usize> {
        self.0
    }

    fn end_bound(&self) -> Bound<usize> {
        self.1
    }
}

impl PositionRange for RangeFull {
    ghost start = { λ _. Unbounded };

    ghost end = { λ _. Unbounded };

    fn start_bound(&self) -> Bound<usize> {
        Bound::Unbounded
    }

    fn end_bound(&self) -> Bound<usize> {
        Bound::Unbounded
    }
}

impl PositionRange for Range<usize> {
    ghost start = { λ s. Included s.start };

    ghost end = { λ s. Excluded s.end };

    fn start_bound(&self) -> Bound<usize> {
        Bound::Included(self.start)
    }

    fn end_bound(&self) -> Bound<usize> {
        Bound::Excluded(self.end)
    }
}

impl PositionRange for RangeInclusive<usize> {
    ghost start = { λ s. Included (range_inclusive_start s) };

    ghost end = { λ s. Included (range_inclusive_end s) };

    fn start_bound(&self) -> Bound<usize> {
        Bound::Included(*self.start())
    }

    fn end_bound(&self) -> Bound<usize> {
        Bound::Included(*self.end())
    }
}

impl PositionRange for RangeFrom<usize> {
    ghost start = { λ s. Included s.start };

    ghost end = { λ _. Unbounded };

    fn start_bound(&self) -> Bound<usize> {
        Bound::Included(self.start)
    }

    fn end_bound(&self) -> Bound<usize> {
        Bound::Unbounded
    }
}

impl PositionRange for RangeTo<usize> {
    ghost start = { λ _. Unbounded };

    ghost end = { λ s. Excluded s.end };

    fn start_bound(&self) -> Bound<usize> {
        Bound::Unbounded
    }

    fn end_bound(&self) -> Bound<usize> {
        Bound::Excluded(self.end)
    }
}

impl PositionRange for RangeToInclusive<usize> {
    ghost start = { λ _. Unbounded };

    ghost end = { λ s. Included s.end };

    fn start_bound(&self) -> Bound<usize> {
        Bound::Unbounded
    }

    fn end_bound(&self) -> Bound<usize> {
        Bound::Included(self.end)
    }
}

/// Returns the first position that is not before the start, or the length if there is none.
pub fn first_position(start: Bound<usize>, len: usize) -> usize
    ensures { result ≡ min (start_index start) len }
{
    match start {
        Bound::Included(i) => i.min(len),
        Bound::Excluded(i) => i.saturating_add(1).min(len),
        Bound::Unbounded => 0,
    }
}

/// Returns the first position past the end, or the length if there is none.
pub fn end_position(end: Bound<usize>, len: usize) -> usize
    ensures { result ≡ min (end_index end len) len }
{
    match end {
        Bound::Included(i) => i.saturating_add(1).min(len),
        Bound::Excluded(i) => i.min(len),
        Bound::Unbounded => len,
    }
}
