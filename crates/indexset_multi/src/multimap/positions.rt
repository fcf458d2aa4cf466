//! Positions: the number of pairs before those of a key, the pair at a position, and its removal.
ghost use Rattle.std.specs.Prelude.{◌≡◌, ◌+◌, ◌<◌, ◌≤◌, [], length, slice_get, true, false};
ghost use Rattle.std.specs.Prelude.{None, MatchOption, IfOk, OnOk, IfErr, OnErr, IsOk};
ghost use Rattle.std.specs.List.{count_by};
ghost use Rattle.std.specs.Map.Iter.{ShowsInOrder, ShowsInReverse};
ghost use Rattle.std.specs.Option.{option_map};
ghost use Rattle.std.specs.Ordering.{is_lt};
ghost use Rattle.indexset_core.specs.KeyRange.{in_positions};
ghost use Rattle.indexset_core.specs.Nodes.{concat};
ghost use Rattle.indexset_core.specs.Pairs.{pair_deref};
ghost use Rattle.indexset_multi.specs.Changed.{MultiFits, MultiChanged, MultiPairEvents};
ghost use Rattle.indexset_multi.specs.Changed.{named_removal, multi_refusal_of};
ghost use Rattle.indexset_multi.specs.Keys.{entries, equal_pair, first_pair};
ghost use Rattle.indexset_multi.specs.Keys.{has_pair_of, key_and_value, pairs_of};

use super::BTreeMultiMap;
use super::range::Range;
use indexset_core::lookup_key::LookupKey;
use indexset_core::multipair::MultiPair;
use indexset_core::node::NodeLike;
use indexset_core::position_range::PositionRange;
use indexset_core::refusal::Refusal;
use indexset_events::change::ChangeEvent;

impl<K: Ord + Clone + Drop, V: Eq + Clone + Drop, Node: NodeLike<MultiPair<K, V>>> BTreeMultiMap<
    K,
    V,
    Node,
> {
    /// Returns the number of pairs whose keys are below the key.
    ///
    /// If the key is present, that is the position of its first pair.
    ///
    /// # Examples
    ///
    /// ```
    /// let mut tags: multimap::BTreeMultiMap<u64, u64, Vec<MultiPair<u64, u64>>> =
    ///     multimap::BTreeMultiMap::new(alloc);
    /// for (tag, document) in [(1, 100), (1, 101), (2, 100)] {
    ///     tags.insert(tag, document)?;
    /// }
    /// assert!(rt; tags.rank(&2) == 2 && tags.count(&1) == 2);
    /// assert!(rt; tags.get_index(1) == Some((&1, &101)));
    /// ```
    ///
    /// # Complexity
    ///
    /// Makes the comparisons of `get` and a sum over the index.
    pub fn rank<Q: LookupKey<K> + Drop>(&self, key: Q) -> usize
        ensures value { result ≡ count_by (λ p. is_lt (Q.order p.key key))
            (concat self.now.nodes) }
        ensures at_rank { has_pair_of Q.order (concat self.now.nodes) key ≡ true
            → slice_get (concat self.now.nodes) result
            ≡ first_pair Q.order (concat self.now.nodes) key }
    {
        self.set.position(self.places_of(&key).0)
    }

    /// Returns the number of pairs of a key.
    ///
    /// # Examples
    ///
    /// ```
    /// let mut tags: multimap::BTreeMultiMap<u64, u64, Vec<MultiPair<u64, u64>>> =
    ///     multimap::BTreeMultiMap::new(alloc);
    /// for (tag, document) in [(1, 100), (1, 101), (2, 100)] {
    ///     tags.insert(tag, document)?;
    /// }
    /// assert!(rt; tags.count(&1) == 2 && tags.count(&3) == 0);
    /// ```
    ///
    /// # Complexity
    ///
    /// Makes the comparisons of `get`.
    pub fn count<Q: LookupKey<K> + Drop>(&self, key: Q) -> usize
        ensures { result ≡ length (pairs_of Q.order (concat self.now.nodes) key) }
    {
        let (from, to) = self.places_of(&key);
        self.set.position(to) - self.set.position(from)
    }

    /// Returns the position of the first pair of a key with an equal value, if any.
    ///
    /// # Examples
    ///
    /// ```
    /// let mut tags: multimap::BTreeMultiMap<u64, u64, Vec<MultiPair<u64, u64>>> =
    ///     multimap::BTreeMultiMap::new(alloc);
    /// for (tag, document) in [(1, 100), (1, 101), (2, 100)] {
    ///     tags.insert(tag, document)?;
    /// }
    /// assert!(rt; tags.index_of(&1, &101) == Some(1) && tags.index_of(&1, &102).is_none());
    /// ```
    ///
    /// # Complexity
    ///
    /// Makes the comparisons of `get`, and then compares the values of the key's pairs one by one.
    pub fn index_of<Q: LookupKey<K> + Drop>(&self, key: Q, value: &V) -> Option<usize>
        ensures { MatchOption result
            (equal_pair Q.order V.eq (concat self.now.nodes) key value.now ≡ None)
            (λ i. (i < length (concat self.now.nodes)) × (slice_get (concat self.now.nodes) i
            ≡ equal_pair Q.order V.eq (concat self.now.nodes) key value.now)) }
    {
        let place = self.equal_place(&key, value)?;
        Some(self.set.position(place))
    }

    /// Returns the pair at a position, or `None` past the end.
    ///
    /// # Examples
    ///
    /// ```
    /// let mut tags: multimap::BTreeMultiMap<u64, u64, Vec<MultiPair<u64, u64>>> =
    ///     multimap::BTreeMultiMap::new(alloc);
    /// for (tag, document) in [(1, 100), (1, 101), (2, 100)] {
    ///     tags.insert(tag, document)?;
    /// }
    /// assert!(rt; tags.get_index(2) == Some((&2, &100)) && tags.get_index(3).is_none());
    /// ```
    ///
    /// # Complexity
    ///
    /// Makes no comparison.
    pub fn get_index(&self, i: usize) -> Option<(&K, &V)>
        ensures { option_map (λ p. (p.0.now, p.1.now)) result
            ≡ option_map key_and_value (slice_get (concat self.now.nodes) i) }
    {
        let pair = self.set.get_index(i)?;
        Some((&pair.key, &pair.value))
    }

    /// Returns a double-ended iterator over the pairs at a range of positions, in order.
    ///
    /// The bounds are clipped to the length.
    ///
    /// # Examples
    ///
    /// ```
    /// let mut tags: multimap::BTreeMultiMap<u64, u64, Vec<MultiPair<u64, u64>>> =
    ///     multimap::BTreeMultiMap::new(alloc);
    /// for (tag, document) in [(1, 100), (1, 101), (2, 100)] {
    ///     tags.insert(tag, document)?;
    /// }
    /// let page = tags.range_idx(1..);
    /// assert!(rt; page.eq([(&1, &101), (&2, &100)]));
    /// ```
    ///
    /// # Complexity
    ///
    /// Makes no comparison.
    pub fn range_idx<R: PositionRange + Drop>(&self, range: R) -> Range<'_, K, V, Node>
        ensures rest { result ≡ entries (in_positions (concat self.now.nodes) (R.start range)
            (R.end range)) }
        ensures runs { ShowsInOrder (pair_deref {K = K} {V = V}) }
        ensures runs_back { ShowsInReverse (pair_deref {K = K} {V = V}) }
    {
        Range {
            rest: self.set.range_idx(range),
        }
    }

    /// Removes the pair at a position and returns it, if any, with the events.
    ///
    /// Its node is merged with a neighbour if the two then hold at most half the node size.
    ///
    /// # Examples
    ///
    /// ```
    /// let mut tags: multimap::BTreeMultiMap<u64, u64, Vec<MultiPair<u64, u64>>> =
    ///     multimap::BTreeMultiMap::new(alloc);
    /// for (tag, document) in [(1, 100), (1, 101), (2, 100)] {
    ///     tags.insert(tag, document)?;
    /// }
    /// let (removed, events) = tags.pop_index_cdc(1)?;
    /// assert!(rt; removed == Some((1, 101)) && events.len() == 1);
    /// ```
    ///
    /// # Errors
    ///
    /// Fails with `Numbers` if the events do not fit the counter, else with `Memory`. A failed call
    /// changes nothing.
    ///
    /// # Complexity
    ///
    /// Makes no comparison.
    pub fn pop_index_cdc(
        &mut self,
        i: usize,
    ) -> Result<(Option<(K, V)>, Vec<ChangeEvent<MultiPair<K, V>>>), Refusal>
        // Result.
        ensures answer { IfOk result (λ r.
            r.0 ≡ option_map key_and_value (slice_get (concat self.old.nodes) i)) }
        ensures events { IfOk result
            (λ r. MultiPairEvents K.cmp K.is_clone V.is_clone self.old self.new
            (named_removal K.cmp self.old (slice_get (concat self.old.nodes) i)) r.1.items) }

        // Contents.
        ensures changed { OnOk result (MultiChanged K.cmp self.old self.new
            (named_removal K.cmp self.old (slice_get (concat self.old.nodes) i))) }

        // Failure.
        ensures refusal { IfErr result (λ e. e ≡ multi_refusal_of self.old
            (named_removal K.cmp self.old (slice_get (concat self.old.nodes) i))) }
        ensures unchanged { OnErr result (self.new ≡ self.old) }

        // Memory.
        ensures no_event { length (concat self.old.nodes) ≤ i → IsOk result }
    {
        let place = self.set.place_at(i);
        self.take_cdc(place)
    }

    /// Removes the pair at a position and returns it, if any.
    ///
    /// It consumes as many event numbers as `pop_index_cdc`, and allocates only if it merges two
    /// nodes of a type that allocates.
    ///
    /// # Examples
    ///
    /// ```
    /// let mut tags: multimap::BTreeMultiMap<u64, u64, Vec<MultiPair<u64, u64>>> =
    ///     multimap::BTreeMultiMap::new(alloc);
    /// for (tag, document) in [(1, 100), (1, 101), (2, 100)] {
    ///     tags.insert(tag, document)?;
    /// }
    /// assert!(rt; tags.pop_index(1)? == Some((1, 101)) && tags.pop_index(2)?.is_none());
    /// ```
    ///
    /// # Errors
    ///
    /// Fails with `Numbers` if the event numbers do not fit the counter, else with `Memory`, only
    /// if it allocates. A failed call changes nothing.
    ///
    /// # Complexity
    ///
    /// Makes no comparison.
    pub fn pop_index(&mut self, i: usize) -> Result<Option<(K, V)>, Refusal>
        // Result.
        ensures answer { IfOk result (λ entry.
            entry ≡ option_map key_and_value (slice_get (concat self.old.nodes) i)) }

        // Contents.
        ensures changed { OnOk result (MultiChanged K.cmp self.old self.new
            (named_removal K.cmp self.old (slice_get (concat self.old.nodes) i))) }

        // Failure.
        ensures refusal { IfErr result (λ e. e ≡ multi_refusal_of self.old
            (named_removal K.cmp self.old (slice_get (concat self.old.nodes) i))) }
        ensures unchanged { OnErr result (self.new ≡ self.old) }

        // Memory.
        ensures no_event { length (concat self.old.nodes) ≤ i → IsOk result }
        ensures no_memory { length (named_removal K.cmp self.old
            (slice_get (concat self.old.nodes) i)).events ≤ 1 → MultiFits self.old
            (named_removal K.cmp self.old (slice_get (concat self.old.nodes) i)) → IsOk result }
        ensures never { Node.allocates ≡ false → MultiFits self.old
            (named_removal K.cmp self.old (slice_get (concat self.old.nodes) i)) → IsOk result }
    {
        let place = self.set.place_at(i);
        self.take(place)
    }
}
