//! Insertion and removal of pairs, and `retain`.
ghost use Rattle.std.specs.Prelude.{◌≡◌, ◌-◌, ◌<◌, ◌++◌, true, false, Some, None};
ghost use Rattle.std.specs.Prelude.{IfOk, OnOk, IfErr, OnErr, IsOk, MatchOption};
ghost use Rattle.std.specs.Prelude.{length, map, take, drop, slice_get};
ghost use Rattle.std.specs.Option.{option_map, option_to_list};
ghost use Rattle.std.specs.Ordering.{is_eq};
ghost use Rattle.std.specs.List.Retain.{RetainsInTurn};
ghost use Rattle.indexset_core.specs.Pairs.{CalledOnPair, entry_of, has_key, pair_of, value_of};
ghost use Rattle.indexset_map.specs.Contents.{no_pairs, with_entry, without_at, without_entry};

use super::BTreeMap;
use indexset_core::lookup_key::UniqueKey;
use indexset_core::pair::Pair;
use indexset_core::refusal::{Refusal, Refused};
use std::mem;

impl<K: Ord + Drop, V: Drop> BTreeMap<K, V> {
    /// Inserts a pair, or replaces the value of a present key and returns the old value.
    ///
    /// Returns `None` if the key was absent. A present key stays as it is, and the call then
    /// allocates nothing.
    ///
    /// # Examples
    ///
    /// ```
    /// let mut prices = BTreeMap::new(alloc)?;
    /// let first = prices.insert("pear", 120)?;
    /// let again = prices.insert("pear", 130)?;
    /// assert!(rt; first.is_none() && again == Some(120));
    /// ```
    ///
    /// # Errors
    ///
    /// Fails with `Memory`. A failed call returns the key and the value in the error and changes
    /// nothing.
    ///
    /// # Complexity
    ///
    /// Makes one comparison if the key is above all keys, and two binary searches at most.
    pub fn insert(&mut self, key: K, value: V) -> Result<Option<V>, Refused<(K, V)>>
        // Result.
        ensures old { IfOk result (λ o. o ≡ value_of K.cmp self.old.pairs key) }

        // Contents.
        ensures contains { OnOk result (value_of K.cmp self.new.pairs key ≡ Some value) }
        ensures others { OnOk result ((other : K) → is_eq (K.cmp other key) ≡ false
            → value_of K.cmp self.new.pairs other ≡ value_of K.cmp self.old.pairs other) }
        ensures ok { OnOk result (self.new ≡ with_entry K.cmp self.old key value) }

        // Failure.
        ensures given_back { IfErr result
            (λ e. (e.value ≡ (key, value)) × (e.cause ≡ Refusal.Memory)) }
        ensures unchanged { OnErr result (self.new ≡ self.old) }

        // Memory.
        ensures no_memory { has_key K.cmp self.old.pairs key ≡ true → IsOk result }
    {
        let spot = self.spot_from_end(&key);
        if spot.found {
            return Ok(Some(mem::replace(self.value_in(spot), value)));
        }
        self.put_at(spot, key, value)?;
        Ok(None)
    }

    /// Removes a key and returns the stored key and its value, if any.
    ///
    /// # Examples
    ///
    /// ```
    /// let mut prices = BTreeMap::from_iter(alloc, [("pear", 120), ("fig", 45)])?;
    /// assert_eq!(rt; prices.remove_entry(&"fig"), Some(("fig", 45)));
    /// ```
    ///
    /// # Complexity
    ///
    /// Makes two binary searches and allocates nothing.
    pub fn remove_entry<Q: UniqueKey<K> + Drop>(&mut self, key: Q) -> Option<(K, V)>
        // Result.
        ensures value { result ≡ option_map entry_of (pair_of Q.order self.old.pairs key) }

        // Contents.
        ensures gone { has_key Q.order self.new.pairs key ≡ false }
        ensures no_value { value_of Q.order self.new.pairs key ≡ None }
        ensures others { (other : K) → is_eq (Q.order other key) ≡ false
            → value_of K.cmp self.new.pairs other ≡ value_of K.cmp self.old.pairs other }
        ensures rest { self.new ≡ without_entry Q.order self.old key }
    {
        let spot = self.spot(key);
        if spot.found {
            Some(self.take_at(spot))
        } else {
            None
        }
    }

    /// Removes a key and returns its value, if any.
    ///
    /// # Examples
    ///
    /// ```
    /// let mut prices = BTreeMap::from_iter(alloc, [("pear", 120)])?;
    /// assert!(rt; prices.remove(&"pear") == Some(120) && prices.remove(&"pear").is_none());
    /// ```
    ///
    /// # Complexity
    ///
    /// Makes two binary searches and allocates nothing.
    pub fn remove<Q: UniqueKey<K> + Drop>(&mut self, key: Q) -> Option<V>
        // Result.
        ensures value { result ≡ value_of Q.order self.old.pairs key }

        // Contents.
        ensures gone { has_key Q.order self.new.pairs key ≡ false }
        ensures no_value { value_of Q.order self.new.pairs key ≡ None }
        ensures others { (other : K) → is_eq (Q.order other key) ≡ false
            → value_of K.cmp self.new.pairs other ≡ value_of K.cmp self.old.pairs other }
        ensures rest { self.new ≡ without_entry Q.order self.old key }
    {
        let (_, value) = self.remove_entry(key)?;
        Some(value)
    }

    /// Removes the pair of the first key and returns it, if any.
    ///
    /// It allocates nothing.
    ///
    /// ```
    /// let mut prices = BTreeMap::from_iter(alloc, [("pear", 120), ("fig", 45)])?;
    /// assert_eq!(rt; prices.pop_first(), Some(("fig", 45)));
    /// ```
    pub fn pop_first(&mut self) -> Option<(K, V)>
        ensures value { result ≡ option_map entry_of (slice_get self.old.pairs 0) }
        ensures rest { self.new.pairs ≡ drop 1 self.old.pairs }
        ensures whole { map entry_of self.old.pairs
            ≡ option_to_list result ++ map entry_of self.new.pairs }
        ensures nodes { MatchOption result (self.new ≡ self.old)
            (λ _. self.new ≡ without_at self.old 0) }
    {
        let Pair { key, value } = self.set.pop_first()?;
        Some((key, value))
    }

    /// Removes the pair of the last key and returns it, if any.
    ///
    /// It allocates nothing.
    ///
    /// ```
    /// let mut prices = BTreeMap::from_iter(alloc, [("pear", 120), ("fig", 45)])?;
    /// assert_eq!(rt; prices.pop_last(), Some(("pear", 120)));
    /// ```
    pub fn pop_last(&mut self) -> Option<(K, V)>
        ensures value { result ≡ option_map entry_of
            (slice_get self.old.pairs (length self.old.pairs - 1)) }
        ensures rest { self.new.pairs ≡ take (length self.old.pairs - 1) self.old.pairs }
        ensures whole { map entry_of self.old.pairs
            ≡ map entry_of self.new.pairs ++ option_to_list result }
        ensures nodes { MatchOption result (self.new ≡ self.old)
            (λ _. self.new ≡ without_at self.old (length self.old.pairs - 1)) }
    {
        let Pair { key, value } = self.set.pop_last()?;
        Some((key, value))
    }

    /// Removes the pair at a position and returns it.
    ///
    /// The position must be less than the length. It allocates nothing.
    ///
    /// ```
    /// let mut prices = BTreeMap::from_iter(alloc, [("pear", 120), ("fig", 45)])?;
    /// assert_eq!(rt; prices.pop_index(0), ("fig", 45));
    /// ```
    pub fn pop_index(&mut self, i: usize) -> (K, V)
        requires { i < length self.old.pairs }
        ensures value { option_map entry_of (slice_get self.old.pairs i) ≡ Some result }
        ensures rest { self.new ≡ without_at self.old i }
    {
        let Pair { key, value } = self.set.pop_index(i);
        (key, value)
    }

    /// Removes all pairs, and keeps one empty node.
    ///
    /// It allocates nothing.
    ///
    /// ```
    /// let mut prices = BTreeMap::from_iter(alloc, [("pear", 120), ("fig", 45)])?;
    /// prices.clear();
    /// assert!(rt; prices.is_empty());
    /// ```
    pub fn clear(&mut self)
        ensures empty { self.new ≡ no_pairs self.old.size }
    {
        self.set.clear();
    }

    /// Retains the pairs for which the closure returns true, with the values that it wrote.
    ///
    /// It calls the closure once for each pair, in order, and allocates nothing.
    ///
    /// ```
    /// let mut prices = BTreeMap::from_iter(alloc, [("pear", 120), ("fig", 45)])?;
    /// prices.retain(|_, price| *price < 100);
    /// assert!(rt; prices.len() == 1 && prices.contains_key(&"fig"));
    /// ```
    pub fn retain<F: FnMut(&K, &mut V) -> bool>(&mut self, f: F)
        requires { F.IsAlwaysCallable f }
        ensures kept { RetainsInTurn (CalledOnPair F.FnMut) f self.old.pairs self.new.pairs }
        ensures size { self.new.size ≡ self.old.size }
    {
        self.set.retain_pairs(f);
    }
}
