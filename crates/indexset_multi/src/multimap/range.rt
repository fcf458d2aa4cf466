//! The pairs of a key, or between two bounds on keys.
ghost use Rattle.std.specs.Prelude.{◌≡◌, ◌≤◌, IsTrue, length, IfSome, Some};
ghost use Rattle.std.specs.Iterator.{UpTo, at_most};
ghost use Rattle.std.specs.Iterator.SizeHint.{IsWithinCount};
ghost use Rattle.std.specs.List.{between, count_by};
ghost use Rattle.std.specs.Map.Iter.{TakesFirst, TakesLast, ShowsInOrder, ShowsInReverse, deref};
ghost use Rattle.std.specs.Ordering.{is_lt};
ghost use Rattle.std.specs.Range.Bound.{bound_map};
ghost use Rattle.indexset_core.specs.KeyRange.{are_ordered};
ghost use Rattle.indexset_core.specs.Nodes.{concat};
ghost use Rattle.indexset_core.specs.Pairs.{pair_deref};
ghost use Rattle.indexset_core.specs.Places.{IsPlace, items_before};
ghost use Rattle.indexset_multi.specs.Keys.{entries, number_shown, pairs_between, pairs_of};

use super::BTreeMultiMap;
use indexset_core::key_range::KeyRange;
use indexset_core::lookup_key::LookupKey;
use indexset_core::multipair::MultiPair;
use indexset_core::node::NodeLike;
use indexset_core::probe::ByKey;
use indexset_log::set::range;
use std::iter::FusedIterator;
use std::marker::Model;
use std::ops::Bound;

/// A double-ended iterator over a range of the pairs of a multimap, or over those of a key.
#[derive(Drop)]
pub struct Range<
    'a,
    K: Ord + Clone + Drop,
    V: Eq + Clone + Drop,
    Node: NodeLike<MultiPair<K, V>> = Vec<MultiPair<K, V>>,
> {
    pub(super) rest: range::Range<'a, MultiPair<K, V>, Node>,
}

impl<'a, K: Ord + Clone + Drop, V: Eq + Clone + Drop, Node: NodeLike<MultiPair<K, V>>> Model
    for Range<'a, K, V, Node> {
    ghost use Rattle.std.specs.Prelude.{List};
    ghost use Rattle.indexset_core.specs.declared.pair.Pair.{Pair};
    ghost use Rattle.indexset_multi.specs.Keys.{entries};

    ghost Value = { List (Pair K V) };

    ghost view = { λ a. entries a.rest };
}

impl<'a, K: Ord + Clone + Drop, V: Eq + Clone + Drop, Node: NodeLike<MultiPair<K, V>>> Iterator
    for Range<'a, K, V, Node> {
    type Item = (&'a K, &'a V);

    ghost next_gives = { TakesFirst pair_deref };

    ghost remaining = { λ s. at_most (length s) };

    fn next(&mut self) -> Option<(&'a K, &'a V)> {
        let pair = self.rest.next()?;
        Some((&pair.key, &pair.value))
    }

    fn size_hint(&self) -> (usize, Option<usize>)
        ensures lower { IsWithinCount result.0 (at_most (length self.now)) }
        ensures upper { IfSome result.1 (UpTo (at_most (length self.now))) }
        ensures exact { result ≡ (length self.now, Some (length self.now)) }
    {
        self.rest.size_hint()
    }
}

impl<
    'a,
    K: Ord + Clone + Drop,
    V: Eq + Clone + Drop,
    Node: NodeLike<MultiPair<K, V>>,
> DoubleEndedIterator for Range<'a, K, V, Node> {
    ghost next_back_gives = { TakesLast pair_deref };

    fn next_back(&mut self) -> Option<(&'a K, &'a V)> {
        let pair = self.rest.next_back()?;
        Some((&pair.key, &pair.value))
    }
}

impl<
    'a,
    K: Ord + Clone + Drop,
    V: Eq + Clone + Drop,
    Node: NodeLike<MultiPair<K, V>>,
> ExactSizeIterator for Range<'a, K, V, Node> {
    fn len(&self) -> usize {
        self.rest.len()
    }
}

impl<'a, K: Ord + Clone + Drop, V: Eq + Clone + Drop, Node: NodeLike<MultiPair<K, V>>> FusedIterator
    for Range<'a, K, V, Node> {}

/// A double-ended iterator over the pairs of a key, with their numbers.
#[derive(Drop)]
pub struct RawRange<
    'a,
    K: Ord + Clone + Drop,
    V: Eq + Clone + Drop,
    Node: NodeLike<MultiPair<K, V>> = Vec<MultiPair<K, V>>,
> {
    rest: range::Range<'a, MultiPair<K, V>, Node>,
}

impl<'a, K: Ord + Clone + Drop, V: Eq + Clone + Drop, Node: NodeLike<MultiPair<K, V>>> Model
    for RawRange<'a, K, V, Node> {
    ghost use Rattle.std.specs.Prelude.{List};
    ghost use Rattle.indexset_core.specs.declared.multipair.MultiPair.{MultiPair};

    ghost Value = { List (MultiPair K V) };

    ghost view = { λ a. a.rest };
}

impl<'a, K: Ord + Clone + Drop, V: Eq + Clone + Drop, Node: NodeLike<MultiPair<K, V>>> Iterator
    for RawRange<'a, K, V, Node> {
    type Item = (&'a K, &'a u64, &'a V);

    ghost next_gives = { TakesFirst number_shown };

    ghost remaining = { λ s. at_most (length s) };

    fn next(&mut self) -> Option<(&'a K, &'a u64, &'a V)> {
        let pair = self.rest.next()?;
        Some((&pair.key, &pair.discriminator, &pair.value))
    }

    fn size_hint(&self) -> (usize, Option<usize>)
        ensures lower { IsWithinCount result.0 (at_most (length self.now)) }
        ensures upper { IfSome result.1 (UpTo (at_most (length self.now))) }
        ensures exact { result ≡ (length self.now, Some (length self.now)) }
    {
        self.rest.size_hint()
    }
}

impl<
    'a,
    K: Ord + Clone + Drop,
    V: Eq + Clone + Drop,
    Node: NodeLike<MultiPair<K, V>>,
> DoubleEndedIterator for RawRange<'a, K, V, Node> {
    ghost next_back_gives = { TakesLast number_shown };

    fn next_back(&mut self) -> Option<(&'a K, &'a u64, &'a V)> {
        let pair = self.rest.next_back()?;
        Some((&pair.key, &pair.discriminator, &pair.value))
    }
}

impl<
    'a,
    K: Ord + Clone + Drop,
    V: Eq + Clone + Drop,
    Node: NodeLike<MultiPair<K, V>>,
> ExactSizeIterator for RawRange<'a, K, V, Node> {
    fn len(&self) -> usize {
        self.rest.len()
    }
}

impl<'a, K: Ord + Clone + Drop, V: Eq + Clone + Drop, Node: NodeLike<MultiPair<K, V>>> FusedIterator
    for RawRange<'a, K, V, Node> {}

impl<K: Ord + Clone + Drop, V: Eq + Clone + Drop, Node: NodeLike<MultiPair<K, V>>> BTreeMultiMap<
    K,
    V,
    Node,
> {
    /// Returns a double-ended iterator over the pairs of a key, in the order of their numbers.
    ///
    /// # Examples
    ///
    /// ```
    /// let mut tags: multimap::BTreeMultiMap<u64, u64, Vec<MultiPair<u64, u64>>> =
    ///     multimap::BTreeMultiMap::new(alloc);
    /// tags.insert(1, 100)?;
    /// assert!(rt; tags.get(&1).eq([(&1, &100)]) && tags.get(&2).len() == 0);
    /// ```
    ///
    /// # Complexity
    ///
    /// Makes two binary searches for the first pair, then an exponential search for the last: at
    /// most one comparison more if the key has at most one pair, and a number that grows with the
    /// bit length of n if it has n pairs.
    pub fn get<Q: LookupKey<K> + Drop>(&self, key: Q) -> Range<'_, K, V, Node>
        ensures rest { result ≡ entries (pairs_of Q.order (concat self.now.nodes) key) }
        ensures runs { ShowsInOrder (pair_deref {K = K} {V = V}) }
        ensures runs_back { ShowsInReverse (pair_deref {K = K} {V = V}) }
    {
        Range {
            rest: self.pairs_of(&key),
        }
    }

    /// Returns a double-ended iterator over the pairs of a key with their numbers, in this order.
    ///
    /// # Examples
    ///
    /// ```
    /// let mut tags: multimap::BTreeMultiMap<u64, u64, Vec<MultiPair<u64, u64>>> =
    ///     multimap::BTreeMultiMap::new(alloc);
    /// for (tag, document) in [(1, 100), (1, 101), (2, 100)] {
    ///     tags.insert(tag, document)?;
    /// }
    /// assert!(rt; tags.raw_get(&1).eq([(&1, &0, &100), (&1, &1, &101)]));
    /// ```
    ///
    /// # Complexity
    ///
    /// Makes the comparisons of `get`.
    pub fn raw_get<Q: LookupKey<K> + Drop>(&self, key: Q) -> RawRange<'_, K, V, Node>
        ensures rest { result ≡ pairs_of Q.order (concat self.now.nodes) key }
        ensures runs { ShowsInOrder (number_shown {K = K} {V = V}) }
        ensures runs_back { ShowsInReverse (number_shown {K = K} {V = V}) }
    {
        RawRange {
            rest: self.pairs_of(&key),
        }
    }

    /// Returns a double-ended iterator over the pairs whose keys are within the range, in order.
    ///
    /// The start must not be past the end, nor equal to it if both are excluded: see
    /// `base::key_range::bounds_are_ordered`.
    ///
    /// # Examples
    ///
    /// ```
    /// // The pairs of the keys from 10 on that are below 20.
    /// let mut tags: multimap::BTreeMultiMap<u64, u64, Vec<MultiPair<u64, u64>>> =
    ///     multimap::BTreeMultiMap::new(alloc);
    /// for (tag, document) in [(5, 1), (10, 1), (10, 2), (20, 1)] {
    ///     tags.insert(tag, document)?;
    /// }
    /// let teens = tags.range(10..20);
    /// assert!(rt; teens.eq([(&10, &1), (&10, &2)]));
    /// ```
    ///
    /// # Complexity
    ///
    /// Makes two binary searches for each bound.
    pub fn range<R: KeyRange<K> + Drop>(&self, range: R) -> Range<'_, K, V, Node>
        requires { IsTrue (are_ordered R.Key.cmp (R.start range) (R.end range)) }
        ensures rest { result ≡ entries (pairs_between R.Key.order (concat self.now.nodes)
            (R.start range) (R.end range)) }
        ensures runs { ShowsInOrder (pair_deref {K = K} {V = V}) }
        ensures runs_back { ShowsInReverse (pair_deref {K = K} {V = V}) }
    {
        Range {
            rest: self.pairs_between((range.start_bound(), range.end_bound())),
        }
    }

    // Returns the pairs of a key.
    pub(super) fn pairs_of<Q: LookupKey<K>>(
        &self,
        key: &Q,
    ) -> range::Range<'_, MultiPair<K, V>, Node>
        ensures rest { result ≡ pairs_of Q.order (concat self.now.nodes) key.now }
        ensures runs { ShowsInOrder (deref {X = MultiPair K V}) }
    {
        let (from, to) = self.places_of(key);
        self.set.range_between(from, to)
    }

    // Returns the places before and after the pairs of a key.
    pub(super) fn places_of<Q: LookupKey<K>>(&self, key: &Q) -> ((usize, usize), (usize, usize))
        // Result.
        ensures from { IsPlace self.now.nodes result.0 }
        ensures to { IsPlace self.now.nodes result.1 }
        ensures order { items_before self.now.nodes result.0
            ≤ items_before self.now.nodes result.1 }
        ensures before { items_before self.now.nodes result.0
            ≡ count_by (λ p. is_lt (Q.order p.key key.now)) (concat self.now.nodes) }
        ensures pairs { between (items_before self.now.nodes result.0)
            (items_before self.now.nodes result.1) (concat self.now.nodes)
            ≡ pairs_of Q.order (concat self.now.nodes) key.now }
    {
        // The pairs ascend, as a search by key requires.
        self.set.recall_invariant();
        self.set.places_by(&mut ByKey::new(key))
    }

    // Returns the pairs whose keys are within the bounds.
    fn pairs_between<Q: LookupKey<K>>(
        &self,
        range: (Bound<&Q>, Bound<&Q>),
    ) -> range::Range<'_, MultiPair<K, V>, Node>
        requires { IsTrue (are_ordered Q.cmp (bound_map (λ k. k.now) range.0)
            (bound_map (λ k. k.now) range.1)) }
        ensures rest { result ≡ pairs_between Q.order (concat self.now.nodes)
            (bound_map (λ k. k.now) range.entry.0) (bound_map (λ k. k.now) range.entry.1) }
        ensures runs { ShowsInOrder (deref {X = MultiPair K V}) }
    {
        // The pairs ascend, so the range lies between two places.
        self.set.recall_invariant();
        let from = self.set.place_from(range.0.map(ByKey::new));
        let to = self.set.place_to(range.1.map(ByKey::new));
        self.set.range_between(from, to)
    }
}
