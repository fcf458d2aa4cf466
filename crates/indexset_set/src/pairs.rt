//! Calls on a set of pairs that write values.
ghost use Rattle.std.specs.Prelude.{◌≡◌, ◌+◌, ◌<◌, ◌≤◌, Some, MatchOption};
ghost use Rattle.std.specs.Prelude.{find, length, nat_lt, slice_get};
ghost use Rattle.std.specs.Map.Iter.{deref_pair_mut};
ghost use Rattle.std.specs.Option.{option_copied_mut, option_map};
ghost use Rattle.std.specs.Borrow.{sem};
ghost use Rattle.std.specs.List.Retain.{RetainsInTurn};
ghost use Rattle.std.specs.Ordering.{is_eq};
ghost use Rattle.indexset_spine.specs.NodeList.{items};
ghost use Rattle.indexset_core.specs.Digits.{digits};
ghost use Rattle.indexset_core.specs.Nodes.{node_lengths};
ghost use Rattle.indexset_core.specs.Parted.{less_count};
ghost use Rattle.indexset_set.specs.SetProbes.{FindsInOrder};
ghost use Rattle.indexset_spine.specs.Extract.{Extracts, IsExtractRange, extract_state};
ghost use Rattle.indexset_spine.specs.Lengths.{lengths_without};
ghost use Rattle.indexset_core.specs.Pairs.{entry_of, CalledOnPair};

use super::BTreeSet;
use super::inner::value_in;
use indexset_core::pair::Pair;
use indexset_core::probe::Probe;
use indexset_spine::extract_range::ExtractRange;

impl<K: Ord, V> BTreeSet<Pair<K, V>> {
    ghost use Rattle.indexset_set.specs.SetLends.{lends_value, lends_pair};
    ghost use Rattle.indexset_set.specs.SetLends.{lends_pair_if, lends_value_if};

    /// Returns a mutable reference to the value at a position, if any.
    ///
    /// ```
    /// let mut pairs = BTreeSet::from_iter(alloc, [Pair { key: 1, value: 10 }])?;
    /// if let Some(value) = pairs.value_mut(0) {
    ///     *value = 11;
    /// }
    /// assert!(rt; pairs.first().map(|pair| pair.value) == Some(11));
    /// ```
    pub fn value_mut(&mut self, i: usize) -> Option<&mut V>
        ensures* writes_back { sem 𝓛 (lends_value_if K.row V.row K.Ord self.entry i result) }
        ensures value { option_copied_mut result
            ≡ option_map (λ p. p.value) (slice_get (items self.old) i) }
    {
        if i < self.spine.len() {
            Some(self.value_at_mut(i))
        } else {
            None
        }
    }

    /// Returns a mutable reference to the value of the first pair that compares Equal, if any.
    ///
    /// # Examples
    ///
    /// ```
    /// # use indexset::base::probe::ByKey;
    /// let mut pairs = BTreeSet::from_iter(alloc, [Pair { key: 1, value: 10 }])?;
    /// if let Some(value) = pairs.value_mut_by(&mut ByKey::new(&1)) {
    ///     *value = 11;
    /// }
    /// assert!(rt; pairs.first().map(|pair| pair.value) == Some(11));
    /// ```
    ///
    /// # Complexity
    ///
    /// One comparison for each step of two binary searches.
    pub fn value_mut_by<P: Probe<Pair<K, V>>>(&mut self, probe: &mut P) -> Option<&mut V>
        requires { FindsInOrder (P.answer probe.old) (items self.old) }
        ensures* writes_back { sem 𝓛 (lends_value_if K.row V.row K.Ord self.entry
            (less_count (P.answer probe.old) (items self.old)) result) }
        ensures value { option_copied_mut result
            ≡ option_map (λ p. p.value) (find (λ x. is_eq (P.answer probe.old x))
            (items self.old)) }
        ensures fixed { P.answer probe.new ≡ P.answer probe.old }
        ensures comparisons { P.asked probe.new ≤ P.asked probe.old
            + (digits (length self.old.nodes) + digits self.old.size + 1) }
    {
        let spot = self.spine.locate_by(probe);
        if spot.found {
            Some(value_in(self, spot))
        } else {
            None
        }
    }

    /// Returns the key at a position with a mutable reference to its value, or `None` past the end.
    ///
    /// ```
    /// let mut pairs = BTreeSet::from_iter(alloc, [Pair { key: 1, value: 10 }])?;
    /// if let Some((key, value)) = pairs.pair_mut(0) {
    ///     *value += key;
    /// }
    /// assert!(rt; pairs.first().map(|pair| pair.value) == Some(11));
    /// ```
    pub fn pair_mut(&mut self, i: usize) -> Option<(&K, &mut V)>
        ensures* writes_back { sem 𝓛 (lends_pair_if K.row V.row K.Ord self.entry i result) }
        ensures value { option_map deref_pair_mut result
            ≡ option_map entry_of (slice_get (items self.old) i) }
    {
        let has = self.reaches(i);
        if has {
            return Some(self.pair_at_mut(i));
        }
        None
    }

    // Returns whether a position has a pair, of a set that is borrowed mutably.
    fn reaches(&mut self, i: usize) -> bool
        ensures { (result ≡ nat_lt i (length (items self.old))) × (self.new ≡ self.old) }
    {
        i < self.spine.len()
    }

    // Returns the key at a position with a mutable reference to its value.
    fn pair_at_mut(&mut self, i: usize) -> (&K, &mut V)
        requires { i < length (items self.old) }
        ensures* writes_back { sem 𝓛 (lends_pair K.row V.row K.Ord self.entry i result) }
        ensures value { option_map entry_of (slice_get (items self.old) i)
            ≡ Some (result.0.now, result.1.now) }
    {
        let pair = self.spine.get_mut(i).unwrap();
        (&pair.key, &mut pair.value)
    }

    // Returns a mutable reference to the value at a position.
    fn value_at_mut(&mut self, i: usize) -> &mut V
        requires { i < length (items self.old) }
        ensures* writes_back { sem 𝓛 (lends_value K.row V.row K.Ord self.entry i result) }
        ensures value { option_map (λ p. p.value) (slice_get (items self.old) i) ≡ Some result.now }
    {
        let pair = self.spine.get_mut(i).unwrap();
        &mut pair.value
    }
}

impl<K: Ord + Drop, V: Drop> BTreeSet<Pair<K, V>> {
    /// Retains the pairs for which the closure returns true, with the values that it left.
    ///
    /// The closure is called once for each pair, in order. The set allocates nothing.
    ///
    /// ```
    /// let mut pairs = BTreeSet::from_iter(alloc, [Pair { key: 1, value: 10 }])?;
    /// pairs.retain_pairs(|_, value| *value < 10);
    /// assert!(rt; pairs.is_empty());
    /// ```
    pub fn retain_pairs<F: FnMut(&K, &mut V) -> bool>(&mut self, mut f: F)
        requires { F.IsAlwaysCallable f }
        ensures kept { RetainsInTurn (CalledOnPair F.FnMut) f (items self.old) (items self.new) }
        ensures size { self.new.size ≡ self.old.size }
    {
        self.spine.retain_mut(
            |pair: &mut Pair<K, V>| -> bool
                requires { F.IsAlwaysCallable f }
                ensures called { CalledOnPair F.FnMut f.entry pair.old result f.exit pair.new }
                ensures again { F.IsAlwaysCallable f.exit }
            { f(&pair.key, &mut pair.value) },
        );
    }

    /// Removes the next pair of a stretch for which the closure returns true, and returns it.
    ///
    /// The closure is called for each pair of the stretch in order, up to that one. The pairs
    /// before it stay, with the values that the closure left, and are no longer in the stretch. It
    /// allocates nothing.
    pub fn extract_pair<F: FnMut(&K, &mut V) -> bool>(
        &mut self,
        at: &mut ExtractRange,
        f: &mut F,
    ) -> Option<Pair<K, V>>
        requires callable { F.IsAlwaysCallable f.old }
        requires at { IsExtractRange (node_lengths self.old.nodes) (length (items self.old))
            at.old }

        // Result.
        ensures extracted { Extracts (CalledOnPair F.FnMut) f.old
            (extract_state (items self.old) at.old.front at.old.back) result f.new
            (extract_state (items self.new) at.new.front at.new.back) }

        // Contents.
        ensures at { IsExtractRange (node_lengths self.new.nodes) (length (items self.new)) at.new }
        ensures callable { F.IsAlwaysCallable f.new }

        // Nodes.
        ensures lengths { MatchOption result
            (node_lengths self.new.nodes ≡ node_lengths self.old.nodes)
            (λ _. node_lengths self.new.nodes
            ≡ lengths_without (node_lengths self.old.nodes) at.new.front) }
        ensures size { self.new.size ≡ self.old.size }
    {
        let mut ask = |pair: &mut Pair<K, V>| -> bool
            requires { F.IsAlwaysCallable f.now }
            ensures called { CalledOnPair F.FnMut f.entry.now pair.old result f.exit.now pair.new }
            ensures again { F.IsAlwaysCallable f.exit.now }
            ensures held { f.exit.ghost_name ≡ f.entry.ghost_name }
        { f(&pair.key, &mut pair.value) };
        self.spine.extract(at, &mut ask)
    }
}
