//! Ranks and positions of keys, and the pairs at positions.
ghost use Rattle.std.specs.Prelude.{◌≡◌, ◌+◌, ◌<◌, ◌≤◌, true, if◌then◌else◌};
ghost use Rattle.std.specs.Prelude.{None, Some, IfSome, find, length, slice_get};
ghost use Rattle.std.specs.List.{AllWithin, count_by};
ghost use Rattle.std.specs.Map.Iter.{ShowsInOrder, ShowsInReverse};
ghost use Rattle.std.specs.Option.{option_map};
ghost use Rattle.std.specs.Ordering.{is_eq};
ghost use Rattle.std.specs.declared.cmp.Ordering.TheVariants.{Less};
ghost use Rattle.indexset_core.specs.KeyRange.{IfBounded, in_positions, is_before, is_up_to_end};
ghost use Rattle.indexset_core.specs.Digits.{digits};
ghost use Rattle.indexset_core.specs.Nodes.{concat};
ghost use Rattle.indexset_core.specs.Order.{IsAscending};
ghost use Rattle.indexset_core.specs.Pairs.{by_key, entry_of, has_key};
ghost use Rattle.indexset_core.specs.Pairs.{key_rank, pair_of, pair_deref};
ghost use Rattle.indexset_core.specs.Parted.{IsParted};

use super::BTreeMap;
use super::iter::Iter;
use super::range::Range;
use crate::set::range;
use indexset_core::lookup_key::LookupKey;
use indexset_core::node::NodeLike;
use indexset_core::pair::Pair;
use indexset_core::position_range::PositionRange;
use indexset_core::probe::Probe;
use std::ops::Bound;

impl<K: Ord + Clone + Drop, V: Clone + Drop, Node: NodeLike<Pair<K, V>>> BTreeMap<K, V, Node> {
    /// Returns the stored key and the value of a key, if any.
    ///
    /// # Examples
    ///
    /// ```
    /// let mut tree: map::BTreeMap<u64, u64, Vec<Pair<u64, u64>>> = map::BTreeMap::new(alloc);
    /// tree.insert(1, 10)?;
    /// assert_eq!(rt; tree.get_key_value(&1), Some((&1, &10)));
    /// ```
    ///
    /// # Complexity
    ///
    /// Makes two binary searches.
    pub fn get_key_value<Q: LookupKey<K> + Drop>(&self, key: Q) -> Option<(&K, &V)>
        ensures { option_map (λ p. (p.0.now, p.1.now)) result
            ≡ option_map entry_of (pair_of Q.order (concat self.now.nodes) key) }
    {
        let pair = self.get(key)?;
        Some((&pair.key, &pair.value))
    }

    /// Returns the first pair that the comparator finds equal, if any.
    ///
    /// The comparator must find the pairs in order.
    ///
    /// # Examples
    ///
    /// ```
    /// let mut prices: map::BTreeMap<String, u64, Vec<Pair<String, u64>>> =
    ///     map::BTreeMap::new(alloc);
    /// prices.insert(String::from_str(alloc, "pear")?, 120)?;
    /// let mut sought = ByKey::new(&"pear");
    /// assert!(rt; prices.get_key_value_by(&mut sought).is_some_and(|(_, price)| *price == 120));
    /// ```
    ///
    /// # Complexity
    ///
    /// Makes two binary searches, as `get_by`.
    pub fn get_key_value_by<P: Probe<Pair<K, V>>>(&self, probe: &mut P) -> Option<(&K, &V)>
        requires { IsParted (P.answer probe.old) (concat self.now.nodes) }
        ensures pair { option_map (λ p. (p.0.now, p.1.now)) result
            ≡ option_map entry_of (find (λ p. is_eq (P.answer probe.old p))
            (concat self.now.nodes)) }
        ensures fixed { P.answer probe.new ≡ P.answer probe.old }
        ensures comparisons { P.asked probe.new ≤ P.asked probe.old +
            (digits (length self.now.nodes) + digits self.now.size + 1) }
    {
        let pair = self.get_by(probe)?;
        Some((&pair.key, &pair.value))
    }

    /// Returns the number of keys below the key.
    ///
    /// # Examples
    ///
    /// ```
    /// let mut tree: map::BTreeMap<u64, u64, Vec<Pair<u64, u64>>> = map::BTreeMap::new(alloc);
    /// tree.insert(5, 50)?;
    /// tree.insert(7, 70)?;
    /// assert!(rt; tree.rank(&7) == 1 && tree.rank(&6) == 1);
    /// ```
    ///
    /// # Complexity
    ///
    /// Makes two binary searches and a sum over the index.
    pub fn rank<Q: LookupKey<K> + Drop>(&self, key: Q) -> usize
        ensures value { result ≡ key_rank Q.order (concat self.now.nodes) key }
        ensures at_rank { has_key Q.order (concat self.now.nodes) key ≡ true
            → slice_get (concat self.now.nodes) result
            ≡ pair_of Q.order (concat self.now.nodes) key }
        ensures inside { has_key Q.order (concat self.now.nodes) key ≡ true
            → result < length (concat self.now.nodes) }
        ensures before { AllWithin (λ p. Q.order p.key key ≡ Less)
            (concat self.now.nodes) 0 result }
    {
        self.set.count_before(Bound::Included(self.by_key(&key)))
    }

    /// Returns the position of a key, if any.
    ///
    /// # Examples
    ///
    /// ```
    /// let mut tree: map::BTreeMap<u64, u64, Vec<Pair<u64, u64>>> = map::BTreeMap::new(alloc);
    /// tree.insert(5, 50)?;
    /// tree.insert(7, 70)?;
    /// assert!(rt; tree.index_of(&7) == Some(1) && tree.index_of(&6).is_none());
    /// ```
    ///
    /// # Complexity
    ///
    /// Makes two binary searches and a sum over the index.
    pub fn index_of<Q: LookupKey<K> + Drop>(&self, key: Q) -> Option<usize>
        ensures value { result ≡ (if has_key Q.order (concat self.now.nodes) key
            then Some (key_rank Q.order (concat self.now.nodes) key) else None) }
        ensures at_index { IfSome result (λ i. slice_get (concat self.now.nodes) i
            ≡ pair_of Q.order (concat self.now.nodes) key) }
        ensures inside { IfSome result (λ i. i < length (concat self.now.nodes)) }
    {
        self.set.position_by(&mut self.by_key(&key)).ok()
    }

    /// Returns the number of pairs before the start, a bound given by a comparator.
    ///
    /// The comparator must find the pairs in order.
    ///
    /// ```
    /// # use indexset::base::probe::ByKey;
    /// let mut tree: map::BTreeMap<u64, u64, Vec<Pair<u64, u64>>> = map::BTreeMap::new(alloc);
    /// tree.insert(1, 10)?;
    /// tree.insert(2, 20)?;
    /// assert!(rt; tree.count_before(Bound::Included(ByKey::new(&2))) == 1);
    /// ```
    pub fn count_before<P: Probe<Pair<K, V>> + Drop>(&self, start: Bound<P>) -> usize
        requires { IfBounded (λ p. IsParted (P.answer p) (concat self.now.nodes)) start }
        ensures { result ≡ count_by (is_before (λ x p. P.answer p x) start)
            (concat self.now.nodes) }
    {
        self.set.count_before(start)
    }

    /// Returns the number of pairs that are not past the end, a bound given by a comparator.
    ///
    /// The comparator must find the pairs in order.
    ///
    /// ```
    /// # use indexset::base::probe::ByKey;
    /// let mut tree: map::BTreeMap<u64, u64, Vec<Pair<u64, u64>>> = map::BTreeMap::new(alloc);
    /// tree.insert(1, 10)?;
    /// tree.insert(2, 20)?;
    /// assert!(rt; tree.count_up_to(Bound::Included(ByKey::new(&2))) == 2);
    /// ```
    pub fn count_up_to<P: Probe<Pair<K, V>> + Drop>(&self, end: Bound<P>) -> usize
        requires { IfBounded (λ p. IsParted (P.answer p) (concat self.now.nodes)) end }
        ensures { result ≡ count_by (is_up_to_end (λ x p. P.answer p x) end)
            (concat self.now.nodes) }
    {
        self.set.count_up_to(end)
    }

    /// Returns the pair at a position, counted from 0, or `None` past the end.
    ///
    /// # Examples
    ///
    /// ```
    /// let mut tree: map::BTreeMap<u64, u64, Vec<Pair<u64, u64>>> = map::BTreeMap::new(alloc);
    /// tree.insert(7, 70)?;
    /// tree.insert(5, 50)?;
    /// assert_eq!(rt; tree.get_index(0), Some((&5, &50)));
    /// ```
    ///
    /// # Complexity
    ///
    /// Makes no comparison.
    pub fn get_index(&self, i: usize) -> Option<(&K, &V)>
        ensures { option_map (λ p. (p.0.now, p.1.now)) result
            ≡ option_map entry_of (slice_get (concat self.now.nodes) i) }
    {
        let pair = self.set.get_index(i)?;
        Some((&pair.key, &pair.value))
    }

    /// Returns a double-ended iterator over the pairs at a range of positions, in order.
    ///
    /// The bounds are clipped to the length.
    ///
    /// # Examples
    ///
    /// ```
    /// let mut tree: map::BTreeMap<u64, u64, Vec<Pair<u64, u64>>> = map::BTreeMap::new(alloc);
    /// for key in [5, 10, 15] {
    ///     tree.insert(key, key * 10)?;
    /// }
    /// let page = tree.range_idx(1..);
    /// assert!(rt; page.eq([(&10, &100), (&15, &150)]));
    /// ```
    ///
    /// # Complexity
    ///
    /// Makes no comparison.
    pub fn range_idx<R: PositionRange + Drop>(&self, range: R) -> Range<'_, K, V, Node>
        ensures rest { result ≡ in_positions (concat self.now.nodes) (R.start range)
            (R.end range) }
        ensures ascending { IsAscending (by_key K.cmp) result }
        ensures runs { ShowsInOrder (pair_deref {K = K} {V = V}) }
        ensures runs_back { ShowsInReverse (pair_deref {K = K} {V = V}) }
    {
        let range::Range { rest } = self.set.range_idx(range);
        Iter { rest }
    }
}
