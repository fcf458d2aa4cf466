//! Look-ups by key.
ghost use Rattle.std.specs.Prelude.{◌≡◌, ◌+◌, ◌≤◌, find, length};
ghost use Rattle.std.specs.Option.{option_copied};
ghost use Rattle.std.specs.Ordering.{is_eq};
ghost use Rattle.indexset_core.specs.Digits.{digits};
ghost use Rattle.indexset_core.specs.Nodes.{concat, IsLawful};
ghost use Rattle.indexset_core.specs.Pairs.{by_key, has_key, pair_of};
ghost use Rattle.indexset_core.specs.Parted.{IsParted};
ghost use Rattle.indexset_core.specs.Places.{located};

use super::BTreeMap;
use indexset_core::lookup_key::LookupKey;
use indexset_core::node::NodeLike;
use indexset_core::pair::Pair;
use indexset_core::probe::{ByKey, Probe};

impl<K: Ord + Clone + Drop, V: Clone + Drop, Node: NodeLike<Pair<K, V>>> BTreeMap<K, V, Node> {
    /// Returns the pair of a key, if any.
    ///
    /// ```
    /// let mut tree: map::BTreeMap<u64, u64, Vec<Pair<u64, u64>>> = map::BTreeMap::new(alloc);
    /// tree.insert(1, 10)?;
    /// assert!(rt; tree.get(&1).is_some_and(|pair| pair.value == 10));
    /// ```
    pub fn get<Q: LookupKey<K> + Drop>(&self, key: Q) -> Option<&Pair<K, V>>
        ensures { option_copied result ≡ pair_of Q.order (concat self.now.nodes) key }
    {
        self.set.get_by(&mut self.by_key(&key))
    }

    /// Returns the first pair that the comparator finds equal, if any.
    ///
    /// The comparator must find the pairs in order.
    ///
    /// # Examples
    ///
    /// ```
    /// // A text key, found by a &str without an allocation.
    /// let mut prices: map::BTreeMap<String, u64, Vec<Pair<String, u64>>> =
    ///     map::BTreeMap::new(alloc);
    /// prices.insert(String::from_str(alloc, "pear")?, 120)?;
    /// let mut sought = ByKey::new(&"pear");
    /// assert!(rt; prices.get_by(&mut sought).is_some_and(|pair| pair.value == 120));
    /// ```
    ///
    /// # Complexity
    ///
    /// Makes two binary searches, as `get`.
    pub fn get_by<P: Probe<Pair<K, V>>>(&self, probe: &mut P) -> Option<&Pair<K, V>>
        requires { IsParted (P.answer probe.old) (concat self.now.nodes) }
        ensures value { option_copied result ≡ find (λ p. is_eq (P.answer probe.old p))
            (concat self.now.nodes) }
        ensures fixed { P.answer probe.new ≡ P.answer probe.old }
        ensures comparisons { P.asked probe.new ≤ P.asked probe.old +
            (digits (length self.now.nodes) + digits self.now.size + 1) }
    {
        self.set.get_by(probe)
    }

    /// Returns true if the map contains the key.
    ///
    /// # Examples
    ///
    /// ```
    /// let mut tree: map::BTreeMap<u64, u64, Vec<Pair<u64, u64>>> = map::BTreeMap::new(alloc);
    /// tree.insert(1, 10)?;
    /// tree.insert(2, 20)?;
    /// assert!(rt; tree.contains_key(&1) && !tree.contains_key(&3));
    /// ```
    ///
    /// # Complexity
    ///
    /// Makes two binary searches.
    pub fn contains_key<Q: LookupKey<K> + Drop>(&self, key: Q) -> bool
        ensures { result ≡ has_key Q.order (concat self.now.nodes) key }
    {
        self.get(key).is_some()
    }

    // Returns a probe for a key, which finds the pairs in order.
    pub(super) fn by_key<'a, Q: LookupKey<K>>(&self, key: &'a Q) -> ByKey<'a, Q>
        ensures probe { result ≡ (key.now, 0) }
        ensures parted { IsParted (λ p. Q.order p.key key.now) (concat self.now.nodes) }
    {
        self.set.recall_invariant();
        ByKey::new(key)
    }

    // Returns the place where a search for a key ends.
    pub(super) fn locate<Q: LookupKey<K> + Drop>(
        &self,
        key: Q,
    ) -> Result<(usize, usize), (usize, usize)>
        ensures place { result ≡ located (λ p. Q.order p.key key) self.now.nodes }
        ensures lawful { IsLawful (by_key K.cmp) self.now.size self.now.nodes }
        ensures two { 2 ≤ self.now.size }
        ensures number { self.now.next ≤ u64.MAX }
    {
        self.set.recall_invariant();
        self.set.locate_by(&mut self.by_key(&key))
    }
}
