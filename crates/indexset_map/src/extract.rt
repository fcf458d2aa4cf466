//! An iterator that removes the pairs for which a closure returns true.
ghost use Rattle.std.specs.Prelude.{◌≡◌, IsTrue, MatchOption, length};
ghost use Rattle.std.specs.Fn.{always_mut};
ghost use Rattle.std.specs.Iterator.{at_most};
ghost use Rattle.std.specs.List.{between};
ghost use Rattle.std.specs.Option.{option_map};
ghost use Rattle.std.specs.Range.Bound.{bound_map};
ghost use Rattle.indexset_core.specs.KeyRange.{are_ordered};
ghost use Rattle.indexset_core.specs.Pairs.{CalledOnPair, pair, pairs_within};
ghost use Rattle.indexset_spine.specs.Extract.{Extracts, IsExtractRange, extract_state};
ghost use Rattle.indexset_spine.specs.Lengths.{lengths_without};

use super::BTreeMap;
use indexset_core::key_range::KeyRange;
use indexset_core::lookup_key::LookupKey;
use indexset_core::pair::Pair;
use indexset_spine::extract_range::ExtractRange;
use std::iter::FusedIterator;
use std::ops::Bound;

/// An iterator that removes the pairs of a range for which a closure returns true, in order.
///
/// Each call of `next` removes the pair that it returns. Pairs that were not returned when the
/// iterator is dropped stay in the map, with the values that the closure wrote.
#[derive(Drop)]
#[must_use]
pub struct ExtractIfMap<'a, K: Ord, V, F> {
    map: &'a mut BTreeMap<K, V>,
    at: ExtractRange,
    pred: F,
    ghost stretch: { IsExtractRange map.now.lengths (length map.now.pairs) at },
}

impl<K: Ord + Drop, V: Drop> BTreeMap<K, V> {
    ghost use Rattle.indexset_map.specs.Extract.{extract_pairs, extract_map, extract_map_pred};

    /// Returns an iterator that removes and returns the pairs for which the closure returns true.
    ///
    /// It calls the closure for each pair whose key is within the range, in order. The start must
    /// not be past the end, nor equal to it if both are excluded.
    ///
    /// # Examples
    ///
    /// ```
    /// let mut prices = BTreeMap::from_iter(alloc, [("pear", 120), ("fig", 45), ("plum", 80)])?;
    /// let dear = prices.extract_if(.., |_, price| *price > 70);
    /// assert!(rt; dear.eq([("pear", 120), ("plum", 80)]));
    /// assert!(rt; prices.len() == 1 && prices.contains_key(&"fig"));
    /// ```
    ///
    /// # Complexity
    ///
    /// A step costs as that of `iter_mut`; a removal also moves the later pairs of its node. It
    /// allocates nothing.
    pub fn extract_if<F: FnMut(&K, &mut V) -> bool, R: KeyRange<K> + Drop>(
        &mut self,
        range: R,
        pred: F,
    ) -> ExtractIfMap<'_, K, V, F>
        requires callable { F.IsAlwaysCallable pred }
        requires order { IsTrue (are_ordered R.Key.cmp (R.start range) (R.end range)) }
        ensures same_map { (extract_map result).ghost_name ≡ self.entry.ghost_name }
        ensures unchanged { (extract_map result).now ≡ self.old }
        ensures unasked { (extract_pairs result).unasked ≡ pairs_within R.Key.order self.old.pairs
            (R.start range) (R.end range) }
        ensures pred { extract_map_pred result ≡ pred }
    {
        let at = self.stretch(range.start_bound(), range.end_bound());
        ExtractIfMap {
            map: self,
            at,
            pred,
        }
    }

    // Returns the stretch of the pairs between two bounds.
    fn stretch<Q: LookupKey<K>>(&self, start: Bound<&Q>, end: Bound<&Q>) -> ExtractRange
        requires { IsTrue (are_ordered Q.cmp (bound_map (λ k. k.now) start)
            (bound_map (λ k. k.now) end)) }
        ensures at { IsExtractRange self.now.lengths (length self.now.pairs) result }
        ensures rest { between result.front result.back self.now.pairs ≡ pairs_within Q.order
            self.now.pairs (bound_map (λ k. k.now) start.entry)
            (bound_map (λ k. k.now) end.entry) }
    {
        // The keys ascend, so the range lies between two positions.
        self.recall_order();
        let (spot, from) = self.start_spot(start);
        let back = self.end_position(end);
        ExtractRange {
            front: from.min(back),
            back,
            node: spot.node,
            start: from - spot.offset,
        }
    }

    // Calls the closure for the pairs of a stretch in order, removes the first for which it returns
    // true, and returns that pair.
    fn extract<F: FnMut(&K, &mut V) -> bool>(
        &mut self,
        at: &mut ExtractRange,
        pred: &mut F,
    ) -> Option<(K, V)>
        requires callable { F.IsAlwaysCallable pred.old }
        requires at { IsExtractRange self.old.lengths (length self.old.pairs) at.old }

        // Result.
        ensures extracted { Extracts (CalledOnPair F.FnMut) pred.old
            (extract_state self.old.pairs at.old.front at.old.back)
            (option_map (λ entry. pair entry.0 entry.1) result) pred.new
            (extract_state self.new.pairs at.new.front at.new.back) }

        // Contents.
        ensures at { IsExtractRange self.new.lengths (length self.new.pairs) at.new }
        ensures callable { F.IsAlwaysCallable pred.new }

        // Nodes.
        ensures lengths { MatchOption result (self.new.lengths ≡ self.old.lengths)
            (λ _. self.new.lengths ≡ lengths_without self.old.lengths at.new.front) }
        ensures size { self.new.size ≡ self.old.size }
    {
        let Pair { key, value } = self.set.extract_pair(at, pred)?;
        Some((key, value))
    }
}

impl<'a, K: Ord + Drop, V: Drop, F: FnMut(&K, &mut V) -> bool> Iterator
    for ExtractIfMap<'a, K, V, F> {
    ghost use Rattle.indexset_map.specs.Extract.{ExtractsPair, extract_pairs, extract_map_pred};

    type Item = (K, V);

    ghost can_next = { λ s. always_mut F.FnMut (extract_map_pred s) };

    ghost next_gives = { ExtractsPair F.FnMut };

    ghost remaining = { λ s. at_most (length (extract_pairs s).unasked) };

    fn next(&mut self) -> Option<(K, V)> {
        self.map.extract(&mut self.at, &mut self.pred)
    }

    fn size_hint(&self) -> (usize, Option<usize>) {
        (0, Some(self.at.back - self.at.front))
    }
}

impl<'a, K: Ord, V, F: Drop> FusedIterator for ExtractIfMap<'a, K, V, F>
where
    ExtractIfMap<'a, K, V, F>: Iterator,
{}
