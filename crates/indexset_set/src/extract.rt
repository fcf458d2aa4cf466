//! The removal of single elements, as a closure selects them.
ghost use Rattle.std.specs.Prelude.{◌≡◌, IsTrue, MatchOption, length};
ghost use Rattle.std.specs.Fn.{CalledAt, always_mut};
ghost use Rattle.std.specs.Iterator.{at_most};
ghost use Rattle.std.specs.List.{between};
ghost use Rattle.std.specs.Range.Bound.{bound_map};
ghost use Rattle.indexset_core.specs.KeyRange.{are_ordered, in_range};
ghost use Rattle.indexset_core.specs.Nodes.{node_lengths};
ghost use Rattle.indexset_spine.specs.NodeList.{items};
ghost use Rattle.indexset_spine.specs.Extract.{Extracts, IsExtractRange, extract_state};
ghost use Rattle.indexset_spine.specs.Lengths.{lengths_without};

use super::BTreeSet;
use indexset_core::key_range::KeyRange;
use indexset_core::lookup_key::LookupKey;
use indexset_core::probe::ByItem;
use indexset_spine::extract_range::ExtractRange;
use std::iter::FusedIterator;
use std::ops::Bound;

/// An iterator that removes the elements of a range that a closure selects, in order.
///
/// Each element is removed when the iterator returns it. If the iterator is dropped, the elements
/// that it has not returned stay in the set.
#[derive(Drop)]
#[must_use]
pub struct ExtractIf<'a, T: Ord, F> {
    set: &'a mut BTreeSet<T>,
    at: ExtractRange,
    pred: F,
    ghost stretch: { IsExtractRange (node_lengths set.now.nodes) (length (items set.now)) at },
}

impl<T: Ord + Drop> BTreeSet<T> {
    ghost use Rattle.indexset_set.specs.SetExtract.{CalledOn, extract_items};
    ghost use Rattle.indexset_set.specs.SetExtract.{extract_pred, extract_set};

    /// Returns an iterator that removes the elements of a range for which the closure returns true.
    ///
    /// The closure is called for each element within the range, in order. The start must not be
    /// past the end, nor equal to it if both are excluded (see
    /// `base::key_range::bounds_are_ordered`). It allocates nothing.
    ///
    /// # Examples
    ///
    /// ```
    /// let mut set = BTreeSet::from_iter(alloc, 1..=6)?;
    /// assert!(rt; set.extract_if(..5, |element| element % 2 == 0).eq([2, 4]));
    /// assert!(rt; set.iter().copied().eq([1, 3, 5, 6]));
    /// ```
    ///
    /// # Complexity
    ///
    /// Each element costs as in an iteration; the removal of one moves those after it in its node.
    pub fn extract_if<F: FnMut(&T) -> bool, R: KeyRange<T> + Drop>(
        &mut self,
        range: R,
        pred: F,
    ) -> ExtractIf<'_, T, F>
        requires callable { F.IsAlwaysCallable pred }
        requires order { IsTrue (are_ordered R.Key.cmp (R.start range) (R.end range)) }
        ensures same_set { (extract_set result).ghost_name ≡ self.entry.ghost_name }
        ensures unchanged { (extract_set result).now ≡ self.old }
        ensures unasked { (extract_items result).unasked ≡ in_range R.Key.order (items self.old)
            (R.start range) (R.end range) }
        ensures pred { extract_pred result ≡ pred }
    {
        let at = self.stretch(range.start_bound(), range.end_bound());
        ExtractIf {
            set: self,
            at,
            pred,
        }
    }

    // Returns the stretch of the elements between two bounds.
    fn stretch<Q: LookupKey<T>>(&self, start: Bound<&Q>, end: Bound<&Q>) -> ExtractRange
        requires { IsTrue (are_ordered Q.cmp (bound_map (λ v. v.now) start)
            (bound_map (λ v. v.now) end)) }
        ensures at { IsExtractRange (node_lengths self.now.nodes) (length (items self.now)) result }
        ensures rest { between result.front result.back (items self.now) ≡ in_range Q.order
            (items self.now) (bound_map (λ v. v.now) start.entry)
            (bound_map (λ v. v.now) end.entry) }
    {
        let from = self.spine.start_of(start.map(ByItem::new));
        let to = self.spine.end_of(end.map(ByItem::new));
        let front = self.spine.position(&from);
        ExtractRange {
            front,
            back: self.spine.position(&to),
            node: from.node,
            start: front - from.offset,
        }
    }

    // Removes the next element of a stretch for which the closure returns true, and returns it.
    fn extract<F: FnMut(&T) -> bool>(&mut self, at: &mut ExtractRange, pred: &mut F) -> Option<T>
        requires callable { F.IsAlwaysCallable pred.old }
        requires at { IsExtractRange (node_lengths self.old.nodes) (length (items self.old))
            at.old }

        // Result.
        ensures extracted { Extracts (CalledOn F.FnMut) pred.old
            (extract_state (items self.old) at.old.front at.old.back) result pred.new
            (extract_state (items self.new) at.new.front at.new.back) }

        // Contents.
        ensures at { IsExtractRange (node_lengths self.new.nodes) (length (items self.new)) at.new }
        ensures callable { F.IsAlwaysCallable pred.new }

        // Nodes.
        ensures lengths { MatchOption result
            (node_lengths self.new.nodes ≡ node_lengths self.old.nodes)
            (λ _. node_lengths self.new.nodes
            ≡ lengths_without (node_lengths self.old.nodes) at.new.front) }
        ensures size { self.new.size ≡ self.old.size }
    {
        let mut ask = |x: &mut T| -> bool
            requires { F.IsAlwaysCallable pred.now }
            ensures called { CalledAt F.FnMut pred.entry.now x.old result pred.exit.now }
            ensures again { F.IsAlwaysCallable pred.exit.now }
            ensures unchanged { x.new ≡ x.old }
            ensures held { pred.exit.ghost_name ≡ pred.entry.ghost_name }
        { pred(x) };
        self.spine.extract(at, &mut ask)
    }
}

impl<'a, T: Ord + Drop, F: FnMut(&T) -> bool> Iterator for ExtractIf<'a, T, F> {
    ghost use Rattle.indexset_set.specs.SetExtract.{ExtractsOne, extract_items, extract_pred};

    type Item = T;

    ghost can_next = { λ s. always_mut F.FnMut (extract_pred s) };

    ghost next_gives = { ExtractsOne F.FnMut };

    ghost remaining = { λ s. at_most (length (extract_items s).unasked) };

    fn next(&mut self) -> Option<T> {
        self.set.extract(&mut self.at, &mut self.pred)
    }

    fn size_hint(&self) -> (usize, Option<usize>) {
        (0, Some(self.at.back - self.at.front))
    }
}

impl<'a, T: Ord, F: Drop> FusedIterator for ExtractIf<'a, T, F>
where
    ExtractIf<'a, T, F>: Iterator,
{}
