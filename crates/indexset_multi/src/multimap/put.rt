//! Insertion of pairs.
ghost use Rattle.std.specs.Prelude.{◌≡◌, ◌+◌, ◌==◌, false, is_err, IfOk, OnOk, IfErr, OnErr};
ghost use Rattle.std.specs.Option.{option_map};
ghost use Rattle.indexset_core.specs.MultiPairs.{numbered_pair};
ghost use Rattle.indexset_core.specs.Nodes.{concat};
ghost use Rattle.indexset_multi.specs.Changed.{IsAdded, IsInserted, MultiChanged, MultiPairEvents};
ghost use Rattle.indexset_multi.specs.Changed.{addition, addition_refusal, insertion};
ghost use Rattle.indexset_multi.specs.Keys.{equal_pair, kept_number};
ghost use Rattle.indexset_multi.specs.Tree.{insertion_refusal, inserted_pair};
ghost use Rattle.indexset_multi.specs.Tree.{lacks_number, pair_next_after};

use super::BTreeMultiMap;
use indexset_core::multipair::MultiPair;
use indexset_core::node::NodeLike;
use indexset_core::refusal::{Refusal, Refused};
use indexset_events::change::ChangeEvent;

impl<K: Ord + Clone + Drop, V: Eq + Clone + Drop, Node: NodeLike<MultiPair<K, V>>> BTreeMultiMap<
    K,
    V,
    Node,
> {
    /// Inserts a pair and returns the replaced value, if any, with the events.
    ///
    /// If the key has pairs with an equal value, the new pair replaces the first of them, at its
    /// position and with its number. Otherwise the pair gets the next number and becomes the last
    /// of its key.
    ///
    /// # Examples
    ///
    /// ```
    /// let mut tags: multimap::BTreeMultiMap<u64, u64, Vec<MultiPair<u64, u64>>> =
    ///     multimap::BTreeMultiMap::new(alloc);
    /// let (old, events) = tags.insert_cdc(1, 100)?;
    /// assert!(rt; old.is_none() && events.len() == 1);
    /// ```
    ///
    /// # Errors
    ///
    /// Fails with `Numbers` if the events do not fit the counter or the pair needs a new number and
    /// none remains, else with `Memory`. A failed call returns the key and the value in the error
    /// and changes nothing.
    ///
    /// # Complexity
    ///
    /// Makes the comparisons of `get`, compares the values of the key's pairs one by one, and makes
    /// a search for the place.
    pub fn insert_cdc(
        &mut self,
        key: K,
        value: V,
    ) -> Result<(Option<V>, Vec<ChangeEvent<MultiPair<K, V>>>), Refused<(K, V)>>
        // Result.
        ensures answer { IfOk result (λ r.
            r.0 ≡ option_map (λ p. p.value) (equal_pair K.cmp V.eq
            (concat self.old.nodes) key value)) }
        ensures events { IfOk result
            (λ r. MultiPairEvents K.cmp K.is_clone V.is_clone self.old self.new
            (insertion K.cmp V.eq self.old key value) r.1.items) }

        // Contents.
        ensures inserted { OnOk result (IsInserted K.cmp V.eq self.old self.new key value) }
        ensures changed { OnOk result (MultiChanged K.cmp self.old self.new
            (insertion K.cmp V.eq self.old key value)) }

        // Failure.
        ensures refusal { IfErr result (λ e.
            e.cause ≡ insertion_refusal K.cmp V.eq self.old key value) }
        ensures given_back { IfErr result (λ e. e.value ≡ (key, value)) }
        ensures unchanged { OnErr result (self.new ≡ self.old) }
        ensures number_left { OnOk result (lacks_number K.cmp V.eq self.old key value ≡ false) }
    {
        // The pairs ascend, with numbers below the next.
        self.recall_invariant();
        let (pair, pair_next) = self.pair_for(key, value)?;
        let (old, events) = self.set.put_cdc(pair)?;
        self.pair_next = pair_next;
        Ok((value_in(old), events))
    }

    /// Inserts a pair and returns the replaced value, if any, as `insert_cdc`.
    ///
    /// It consumes as many event numbers as `insert_cdc`.
    ///
    /// # Examples
    ///
    /// ```
    /// let mut tags: multimap::BTreeMultiMap<u64, u64, Vec<MultiPair<u64, u64>>> =
    ///     multimap::BTreeMultiMap::new(alloc);
    /// for (tag, document) in [(1, 100), (1, 101), (2, 100)] {
    ///     tags.insert(tag, document)?;
    /// }
    /// assert!(rt; tags.get(&1).map(|(_, document)| *document).eq([100, 101]));
    /// ```
    ///
    /// # Errors
    ///
    /// Fails with `Numbers` if the event numbers do not fit the counter or the pair needs a new
    /// number and none remains, else with `Memory`. A failed call returns the key and the value in
    /// the error and changes nothing.
    pub fn insert(&mut self, key: K, value: V) -> Result<Option<V>, Refused<(K, V)>>
        // Result.
        ensures answer { IfOk result (λ old.
            old ≡ option_map (λ p. p.value) (equal_pair K.cmp V.eq
            (concat self.old.nodes) key value)) }

        // Contents.
        ensures inserted { OnOk result (IsInserted K.cmp V.eq self.old self.new key value) }
        ensures changed { OnOk result (MultiChanged K.cmp self.old self.new
            (insertion K.cmp V.eq self.old key value)) }

        // Failure.
        ensures refusal { IfErr result (λ e.
            e.cause ≡ insertion_refusal K.cmp V.eq self.old key value) }
        ensures given_back { IfErr result (λ e. e.value ≡ (key, value)) }
        ensures unchanged { OnErr result (self.new ≡ self.old) }
        ensures number_left { OnOk result (lacks_number K.cmp V.eq self.old key value ≡ false) }
    {
        // The pairs ascend, with numbers below the next.
        self.recall_invariant();
        let (pair, pair_next) = self.pair_for(key, value)?;
        let old = self.set.put(pair)?;
        self.pair_next = pair_next;
        Ok(value_in(old))
    }

    /// Inserts a pair as the last of its key, and returns the events.
    ///
    /// It compares no values, so the key may then have pairs with equal values.
    ///
    /// # Examples
    ///
    /// ```
    /// let mut tags: multimap::BTreeMultiMap<u64, u64, Vec<MultiPair<u64, u64>>> =
    ///     multimap::BTreeMultiMap::new(alloc);
    /// let events = tags.push_cdc(1, 100)?;
    /// assert!(rt; events.len() == 1 && tags.len() == 1);
    /// ```
    ///
    /// # Errors
    ///
    /// Fails with `Numbers` if the events do not fit the counter or no number remains for the pair,
    /// else with `Memory`. A failed call returns the key and the value in the error and changes
    /// nothing.
    ///
    /// # Complexity
    ///
    /// Makes one search for the place. The cost does not grow with the number of the key's pairs.
    pub fn push_cdc(
        &mut self,
        key: K,
        value: V,
    ) -> Result<Vec<ChangeEvent<MultiPair<K, V>>>, Refused<(K, V)>>
        // Result.
        ensures events { IfOk result (λ events. MultiPairEvents K.cmp K.is_clone V.is_clone self.old
            self.new (addition K.cmp self.old key value) events.items) }

        // Contents.
        ensures added { OnOk result (IsAdded K.cmp self.old self.new key value) }
        ensures changed { OnOk result (MultiChanged K.cmp self.old self.new
            (addition K.cmp self.old key value)) }

        // Failure.
        ensures refusal { IfErr result (λ e. e.cause ≡ addition_refusal K.cmp self.old key value) }
        ensures given_back { IfErr result (λ e. e.value ≡ (key, value)) }
        ensures unchanged { OnErr result (self.new ≡ self.old) }
        ensures number_left { OnOk result ((self.old.pair_next == u64.MAX) ≡ false) }
    {
        // The pairs ascend, with numbers below the next.
        self.recall_invariant();
        let (pair, pair_next) = self.new_pair(key, value)?;
        let (_, events) = self.set.put_cdc(pair)?;
        self.pair_next = pair_next;
        Ok(events)
    }

    /// Inserts a pair as the last of its key, as `push_cdc`.
    ///
    /// It consumes as many event numbers as `push_cdc`.
    ///
    /// # Examples
    ///
    /// ```
    /// let mut scores: multimap::BTreeMultiMap<u64, u64, Vec<MultiPair<u64, u64>>> =
    ///     multimap::BTreeMultiMap::new(alloc);
    /// for (round, score) in [(1, 100), (1, 100), (2, 50)] {
    ///     scores.push(round, score)?;
    /// }
    /// assert!(rt; scores.get(&1).map(|(_, score)| *score).eq([100, 100]));
    /// ```
    ///
    /// # Errors
    ///
    /// Fails with `Numbers` if the event numbers do not fit the counter or no number remains for
    /// the pair, else with `Memory`. A failed call returns the key and the value in the error and
    /// changes nothing.
    pub fn push(&mut self, key: K, value: V) -> Result<(), Refused<(K, V)>>
        // Contents.
        ensures added { OnOk result (IsAdded K.cmp self.old self.new key value) }
        ensures changed { OnOk result (MultiChanged K.cmp self.old self.new
            (addition K.cmp self.old key value)) }

        // Failure.
        ensures refusal { IfErr result (λ e. e.cause ≡ addition_refusal K.cmp self.old key value) }
        ensures given_back { IfErr result (λ e. e.value ≡ (key, value)) }
        ensures unchanged { OnErr result (self.new ≡ self.old) }
        ensures number_left { OnOk result ((self.old.pair_next == u64.MAX) ≡ false) }
    {
        // The pairs ascend, with numbers below the next.
        self.recall_invariant();
        let (pair, pair_next) = self.new_pair(key, value)?;
        self.set.put(pair)?;
        self.pair_next = pair_next;
        Ok(())
    }

    // Returns a pair with the next number, and the number of the next new pair after it.
    fn new_pair(&self, key: K, value: V) -> Result<(MultiPair<K, V>, u64), Refused<(K, V)>>
        ensures answer { IfOk result (λ r. r
            ≡ (numbered_pair key value self.now.pair_next, self.now.pair_next + 1)) }
        ensures refusal { is_err result ≡ (self.now.pair_next == u64.MAX) }
        ensures cause { IfErr result (λ e. e.cause ≡ Refusal.Numbers) }
        ensures given_back { IfErr result (λ e. e.value ≡ (key, value)) }
    {
        let number = self.pair_next;
        match number.checked_add(1) {
            Some(pair_next) => Ok((MultiPair::new(key, value, number), pair_next)),
            None => Err(Refused {
                value: (key, value),
                cause: Refusal::Numbers,
            }),
        }
    }

    // Returns the pair that an insertion puts, and the number of the next new pair after it.
    fn pair_for(&self, key: K, value: V) -> Result<(MultiPair<K, V>, u64), Refused<(K, V)>>
        ensures answer { IfOk result (λ r.
            r ≡ (
              inserted_pair K.cmp V.eq self.now key value,
              pair_next_after K.cmp V.eq self.now key value,
            )) }
        ensures refusal { is_err result ≡ lacks_number K.cmp V.eq self.now key value }
        ensures cause { IfErr result (λ e. e.cause ≡ Refusal.Numbers) }
        ensures given_back { IfErr result (λ e. e.value ≡ (key, value)) }
    {
        if let Some(kept) = self.kept_number(&key, &value) {
            return Ok((MultiPair::new(key, value, kept), self.pair_next));
        }
        self.new_pair(key, value)
    }

    // Returns the number of the first pair of the key with an equal value, if any.
    pub(super) fn kept_number(&self, key: &K, value: &V) -> Option<u64>
        ensures { result ≡ kept_number K.cmp V.eq (concat self.now.nodes) key.now value.now }
    {
        self.pairs_of(key)
            .find(|pair| pair.value == *value)
            .map(|pair| pair.discriminator)
    }
}

// Returns the value of a pair, if any.
fn value_in<K: Drop, V>(pair: Option<MultiPair<K, V>>) -> Option<V>
    ensures { result ≡ option_map (λ p. p.value) pair }
{
    Some(pair?.value)
}
