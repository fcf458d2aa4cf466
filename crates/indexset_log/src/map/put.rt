//! Insertion of pairs.
ghost use Rattle.std.specs.Prelude.{◌≡◌, true, Some, IfOk, OnOk, IfErr};
ghost use Rattle.std.specs.Prelude.{OnErr, IsOk, IfSome, is_none};
ghost use Rattle.std.specs.Option.{option_map};
ghost use Rattle.indexset_core.specs.Nodes.{concat};
ghost use Rattle.indexset_core.specs.Pairs.{by_key, has_key, pair, value_of};
ghost use Rattle.indexset_log.specs.Changed.{Changed, PairEvents, checked_put_change};
ghost use Rattle.indexset_log.specs.Changed.{put_change, refusal_of};
ghost use Rattle.indexset_log.specs.Keys.{KeepsOthers};

use super::BTreeMap;
use indexset_core::node::NodeLike;
use indexset_core::pair::Pair;
use indexset_core::refusal::Refused;
use indexset_events::change::ChangeEvent;

impl<K: Ord + Clone + Drop, V: Clone + Drop, Node: NodeLike<Pair<K, V>>> BTreeMap<K, V, Node> {
    /// Inserts or replaces the pair of a key, and returns the old value, if any, with the events.
    ///
    /// # Examples
    ///
    /// ```
    /// // The events of a change, applied to a copy.
    /// let mut tree: map::BTreeMap<u64, u64, Vec<Pair<u64, u64>>> = map::BTreeMap::new(alloc);
    /// let mut copy = Replica::new(alloc, 0);
    /// let (_, events) = tree.insert_cdc(1, 10)?;
    /// for event in &events {
    ///     copy.apply(event)?;
    /// }
    /// assert!(rt; copy.len() == 1 && copy.next() == tree.events_issued());
    /// ```
    ///
    /// # Errors
    ///
    /// Fails with `Numbers` if the events do not fit the counter, else with `Memory`. A failed call
    /// returns the key and the value in the error and changes nothing.
    pub fn insert_cdc(
        &mut self,
        key: K,
        value: V,
    ) -> Result<(Option<V>, Vec<ChangeEvent<Pair<K, V>>>), Refused<(K, V)>>
        // Result.
        ensures answer { IfOk result (λ r. r.0 ≡ value_of K.cmp (concat self.old.nodes) key) }
        ensures events { IfOk result (λ r. PairEvents K.cmp K.is_clone V.is_clone self.old self.new
            (put_change (by_key K.cmp) self.old (pair key value)) r.1.items) }

        // Contents.
        ensures contains { OnOk result (has_key K.cmp (concat self.new.nodes) key ≡ true) }
        ensures written { OnOk result (value_of K.cmp (concat self.new.nodes) key ≡ Some value) }
        ensures others { OnOk result (KeepsOthers K.cmp K.cmp self.old.nodes self.new.nodes key) }
        ensures changed { OnOk result (Changed (by_key K.cmp) self.old self.new
            (put_change (by_key K.cmp) self.old (pair key value))) }

        // Failure.
        ensures refusal { IfErr result (λ e.
            e.cause ≡ refusal_of self.old (put_change (by_key K.cmp) self.old (pair key value))) }
        ensures given_back { IfErr result (λ e. e.value ≡ (key, value)) }
        ensures unchanged { OnErr result (self.new ≡ self.old) }
    {
        let (old, events) = self.set.put_cdc(Pair { key, value })?;
        Ok((value_in(old), events))
    }

    /// Inserts a pair if the key is absent, and returns the events.
    ///
    /// Returns `None` if the key is present: the call then drops the key and the value, allocates
    /// nothing, consumes no event number and changes nothing.
    ///
    /// # Examples
    ///
    /// ```
    /// let mut tree: map::BTreeMap<u64, u64, Vec<Pair<u64, u64>>> = map::BTreeMap::new(alloc);
    /// assert!(rt; tree.checked_insert_cdc(1, 10)?.is_some_and(|events| events.len() == 1));
    /// assert!(rt; tree.checked_insert_cdc(1, 11)?.is_none());
    /// ```
    ///
    /// # Errors
    ///
    /// Fails with `Numbers` if the events do not fit the counter, else with `Memory`. A failed call
    /// returns the key and the value in the error and changes nothing.
    pub fn checked_insert_cdc(
        &mut self,
        key: K,
        value: V,
    ) -> Result<Option<Vec<ChangeEvent<Pair<K, V>>>>, Refused<(K, V)>>
        // Result.
        ensures answer { IfOk result (λ r. is_none r ≡ has_key K.cmp (concat self.old.nodes) key) }
        ensures events { IfOk result (λ r. IfSome r (λ events.
            PairEvents K.cmp K.is_clone V.is_clone self.old self.new
            (checked_put_change (by_key K.cmp) self.old (pair key value)) events.items)) }

        // Contents.
        ensures contains { OnOk result (has_key K.cmp (concat self.new.nodes) key ≡ true) }
        ensures written { IfOk result (λ r. IfSome r (λ _.
            value_of K.cmp (concat self.new.nodes) key ≡ Some value)) }
        ensures changed { OnOk result (Changed (by_key K.cmp) self.old self.new
            (checked_put_change (by_key K.cmp) self.old (pair key value))) }

        // Failure.
        ensures refusal { IfErr result (λ e.
            e.cause ≡ refusal_of self.old (checked_put_change (by_key K.cmp) self.old
            (pair key value))) }
        ensures given_back { IfErr result (λ e. e.value ≡ (key, value)) }
        ensures unchanged { OnErr result (self.new ≡ self.old) }

        // Memory.
        ensures no_event { has_key K.cmp (concat self.old.nodes) key ≡ true → IsOk result }
    {
        Ok(self.set.put_cdc_checked(Pair { key, value })?)
    }

    /// Inserts or replaces the pair of a key, and returns the old value, if any.
    ///
    /// It consumes as many event numbers as `insert_cdc`.
    ///
    /// # Examples
    ///
    /// ```
    /// let mut tree: map::BTreeMap<u64, u64, Vec<Pair<u64, u64>>> = map::BTreeMap::new(alloc);
    /// assert!(rt; tree.insert(1, 10)?.is_none() && tree.insert(1, 11)? == Some(10));
    /// ```
    ///
    /// # Errors
    ///
    /// Fails with `Numbers` if the event numbers do not fit the counter, else with `Memory`. A
    /// failed call returns the key and the value in the error and changes nothing.
    pub fn insert(&mut self, key: K, value: V) -> Result<Option<V>, Refused<(K, V)>>
        // Result.
        ensures answer { IfOk result (λ old. old ≡ value_of K.cmp (concat self.old.nodes) key) }

        // Contents.
        ensures contains { OnOk result (has_key K.cmp (concat self.new.nodes) key ≡ true) }
        ensures written { OnOk result (value_of K.cmp (concat self.new.nodes) key ≡ Some value) }
        ensures others { OnOk result (KeepsOthers K.cmp K.cmp self.old.nodes self.new.nodes key) }
        ensures changed { OnOk result (Changed (by_key K.cmp) self.old self.new
            (put_change (by_key K.cmp) self.old (pair key value))) }

        // Failure.
        ensures refusal { IfErr result (λ e.
            e.cause ≡ refusal_of self.old (put_change (by_key K.cmp) self.old (pair key value))) }
        ensures given_back { IfErr result (λ e. e.value ≡ (key, value)) }
        ensures unchanged { OnErr result (self.new ≡ self.old) }
    {
        let old = self.set.put(Pair { key, value })?;
        Ok(old.map(|pair| pair.value))
    }

    /// Inserts a pair if the key is absent.
    ///
    /// Returns `None` if the key is present: the call then drops the key and the value, allocates
    /// nothing, consumes no event number and changes nothing.
    ///
    /// # Examples
    ///
    /// ```
    /// let mut tree: map::BTreeMap<u64, u64, Vec<Pair<u64, u64>>> = map::BTreeMap::new(alloc);
    /// assert!(rt; tree.checked_insert(1, 10)?.is_some() && tree.checked_insert(1, 11)?.is_none());
    /// assert!(rt; tree.get(&1).is_some_and(|pair| pair.value == 10));
    /// ```
    ///
    /// # Errors
    ///
    /// Fails with `Numbers` if the event numbers do not fit the counter, else with `Memory`. A
    /// failed call returns the key and the value in the error and changes nothing.
    pub fn checked_insert(&mut self, key: K, value: V) -> Result<Option<()>, Refused<(K, V)>>
        // Result.
        ensures answer { IfOk result (λ r. is_none r ≡ has_key K.cmp (concat self.old.nodes) key) }

        // Contents.
        ensures contains { OnOk result (has_key K.cmp (concat self.new.nodes) key ≡ true) }
        ensures written { IfOk result (λ r. IfSome r (λ _.
            value_of K.cmp (concat self.new.nodes) key ≡ Some value)) }
        ensures changed { OnOk result (Changed (by_key K.cmp) self.old self.new
            (checked_put_change (by_key K.cmp) self.old (pair key value))) }

        // Failure.
        ensures refusal { IfErr result (λ e.
            e.cause ≡ refusal_of self.old (checked_put_change (by_key K.cmp) self.old
            (pair key value))) }
        ensures given_back { IfErr result (λ e. e.value ≡ (key, value)) }
        ensures unchanged { OnErr result (self.new ≡ self.old) }

        // Memory.
        ensures no_event { has_key K.cmp (concat self.old.nodes) key ≡ true → IsOk result }
    {
        let added = self.set.insert(Pair { key, value })?;
        Ok(added.then_some(()))
    }
}

// Returns the value of a pair, if any.
fn value_in<K: Drop, V>(pair: Option<Pair<K, V>>) -> Option<V>
    ensures { result ≡ option_map (λ p. p.value) pair }
{
    Some(pair?.value)
}
