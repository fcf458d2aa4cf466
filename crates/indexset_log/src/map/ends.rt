//! The pairs of the first and the last key, and calls that remove them.
ghost use Rattle.std.specs.Prelude.{◌≡◌, ◌↔◌, ◌-◌, ◌<◌, ◌≤◌, [], length, slice_get, false};
ghost use Rattle.std.specs.Prelude.{IfOk, OnOk, IfErr, OnErr, IsOk, IfSome, IsSome};
ghost use Rattle.std.specs.Option.{option_map};
ghost use Rattle.indexset_core.specs.Nodes.{concat};
ghost use Rattle.indexset_core.specs.Order.{above, below};
ghost use Rattle.indexset_core.specs.Pairs.{by_key, entry_of, pair_keys};
ghost use Rattle.indexset_log.specs.Changed.{Changed, Fits, PairEvents};
ghost use Rattle.indexset_log.specs.Changed.{first_removal, last_removal, refusal_of};

use super::BTreeMap;
use indexset_core::node::NodeLike;
use indexset_core::pair::Pair;
use indexset_core::refusal::Refusal;
use indexset_events::change::ChangeEvent;

impl<K: Ord + Clone + Drop, V: Clone + Drop, Node: NodeLike<Pair<K, V>>> BTreeMap<K, V, Node> {
    /// Returns the first key, which is the least, and its value, if any.
    ///
    /// # Examples
    ///
    /// ```
    /// let mut tree: map::BTreeMap<u64, u64, Vec<Pair<u64, u64>>> = map::BTreeMap::new(alloc);
    /// tree.insert(1, 10)?;
    /// tree.insert(2, 20)?;
    /// assert!(rt; tree.first_key_value() == Some((&1, &10)));
    /// ```
    ///
    /// # Complexity
    ///
    /// Takes constant time.
    pub fn first_key_value(&self) -> Option<(&K, &V)>
        ensures pair { option_map (λ p. (p.0.now, p.1.now)) result
            ≡ option_map entry_of (slice_get (concat self.now.nodes) 0) }
        ensures variant { IsSome result ↔ (0 < length (concat self.now.nodes)) }
        ensures least { IfSome result (λ p. below K.cmp (pair_keys (concat self.now.nodes)) p.0.now
            ≡ []) }
    {
        let pair = self.set.first()?;
        Some((&pair.key, &pair.value))
    }

    /// Returns the last key, which is the greatest, and its value, if any.
    ///
    /// # Examples
    ///
    /// ```
    /// let mut tree: map::BTreeMap<u64, u64, Vec<Pair<u64, u64>>> = map::BTreeMap::new(alloc);
    /// tree.insert(1, 10)?;
    /// tree.insert(2, 20)?;
    /// assert!(rt; tree.last_key_value() == Some((&2, &20)));
    /// ```
    ///
    /// # Complexity
    ///
    /// Takes constant time.
    pub fn last_key_value(&self) -> Option<(&K, &V)>
        ensures pair { option_map (λ p. (p.0.now, p.1.now)) result
            ≡ option_map entry_of (slice_get (concat self.now.nodes)
            (length (concat self.now.nodes) - 1)) }
        ensures variant { IsSome result ↔ (0 < length (concat self.now.nodes)) }
        ensures greatest { IfSome result (λ p. above K.cmp
            (pair_keys (concat self.now.nodes)) p.0.now ≡ []) }
    {
        let pair = self.set.last()?;
        Some((&pair.key, &pair.value))
    }

    /// Removes the pair of the least key and returns it, if any, with the events.
    ///
    /// The events are those of `remove_cdc` of that key.
    ///
    /// # Examples
    ///
    /// ```
    /// let mut tree: map::BTreeMap<u64, u64, Vec<Pair<u64, u64>>> = map::BTreeMap::new(alloc);
    /// tree.insert(1, 10)?;
    /// tree.insert(2, 20)?;
    /// let (removed, events) = tree.pop_first_cdc()?;
    /// assert!(rt; removed == Some((1, 10)) && events.len() == 1);
    /// ```
    ///
    /// # Errors
    ///
    /// Fails with `Numbers` if the events do not fit the counter, else with `Memory`. A failed call
    /// changes nothing.
    pub fn pop_first_cdc(
        &mut self,
    ) -> Result<(Option<(K, V)>, Vec<ChangeEvent<Pair<K, V>>>), Refusal>
        // Result.
        ensures answer { IfOk result (λ r.
            r.0 ≡ option_map entry_of (slice_get (concat self.old.nodes) 0)) }
        ensures events { IfOk result (λ r. PairEvents K.cmp K.is_clone V.is_clone self.old self.new
            (first_removal (by_key K.cmp) self.old) r.1.items) }

        // Contents.
        ensures changed { OnOk result (Changed (by_key K.cmp) self.old self.new
            (first_removal (by_key K.cmp) self.old)) }

        // Failure.
        ensures refusal { IfErr result (λ e. e ≡ refusal_of self.old
            (first_removal (by_key K.cmp) self.old)) }
        ensures unchanged { OnErr result (self.new ≡ self.old) }

        // Memory.
        ensures no_event { (first_removal (by_key K.cmp) self.old).events ≡ [] → IsOk result }
    {
        let (pair, events) = self.set.pop_first_cdc()?;
        Ok((entry_of(pair), events))
    }

    /// Removes the pair of the least key and returns it, if any.
    ///
    /// It consumes as many event numbers as `pop_first_cdc`, and allocates only if it merges two
    /// nodes of a type that allocates.
    ///
    /// # Examples
    ///
    /// ```
    /// let mut tree: map::BTreeMap<u64, u64, Vec<Pair<u64, u64>>> = map::BTreeMap::new(alloc);
    /// tree.insert(1, 10)?;
    /// tree.insert(2, 20)?;
    /// assert!(rt; tree.pop_first()? == Some((1, 10)) && tree.pop_first()? == Some((2, 20)));
    /// assert!(rt; tree.pop_first()?.is_none());
    /// ```
    ///
    /// # Errors
    ///
    /// Fails with `Numbers` if the event numbers do not fit the counter, else with `Memory`, only
    /// if it allocates. A failed call changes nothing.
    pub fn pop_first(&mut self) -> Result<Option<(K, V)>, Refusal>
        // Result.
        ensures answer { IfOk result (λ entry.
            entry ≡ option_map entry_of (slice_get (concat self.old.nodes) 0)) }

        // Contents.
        ensures changed { OnOk result (Changed (by_key K.cmp) self.old self.new
            (first_removal (by_key K.cmp) self.old)) }

        // Failure.
        ensures refusal { IfErr result (λ e. e ≡ refusal_of self.old
            (first_removal (by_key K.cmp) self.old)) }
        ensures unchanged { OnErr result (self.new ≡ self.old) }

        // Memory.
        ensures no_event { (first_removal (by_key K.cmp) self.old).events ≡ [] → IsOk result }
        ensures no_memory { length (first_removal (by_key K.cmp) self.old).events ≤ 1
            → Fits self.old (first_removal (by_key K.cmp) self.old) → IsOk result }
        ensures never { Node.allocates ≡ false
            → Fits self.old (first_removal (by_key K.cmp) self.old) → IsOk result }
    {
        let pair = self.set.pop_first()?;
        Ok(entry_of(pair))
    }

    /// Removes the pair of the greatest key and returns it, if any, with the events.
    ///
    /// The events are those of `remove_cdc` of that key.
    ///
    /// # Examples
    ///
    /// ```
    /// let mut tree: map::BTreeMap<u64, u64, Vec<Pair<u64, u64>>> = map::BTreeMap::new(alloc);
    /// tree.insert(1, 10)?;
    /// tree.insert(2, 20)?;
    /// let (removed, events) = tree.pop_last_cdc()?;
    /// assert!(rt; removed == Some((2, 20)) && events.len() == 1);
    /// ```
    ///
    /// # Errors
    ///
    /// Fails with `Numbers` if the events do not fit the counter, else with `Memory`. A failed call
    /// changes nothing.
    pub fn pop_last_cdc(
        &mut self,
    ) -> Result<(Option<(K, V)>, Vec<ChangeEvent<Pair<K, V>>>), Refusal>
        // Result.
        ensures answer { IfOk result (λ r.
            r.0 ≡ option_map entry_of (slice_get (concat self.old.nodes)
            (length (concat self.old.nodes) - 1))) }
        ensures events { IfOk result (λ r. PairEvents K.cmp K.is_clone V.is_clone self.old self.new
            (last_removal (by_key K.cmp) self.old) r.1.items) }

        // Contents.
        ensures changed { OnOk result (Changed (by_key K.cmp) self.old self.new
            (last_removal (by_key K.cmp) self.old)) }

        // Failure.
        ensures refusal { IfErr result (λ e. e ≡ refusal_of self.old
            (last_removal (by_key K.cmp) self.old)) }
        ensures unchanged { OnErr result (self.new ≡ self.old) }

        // Memory.
        ensures no_event { (last_removal (by_key K.cmp) self.old).events ≡ [] → IsOk result }
    {
        let (pair, events) = self.set.pop_last_cdc()?;
        Ok((entry_of(pair), events))
    }

    /// Removes the pair of the greatest key and returns it, if any.
    ///
    /// It consumes as many event numbers as `pop_last_cdc`, and allocates only if it merges two
    /// nodes of a type that allocates.
    ///
    /// # Examples
    ///
    /// ```
    /// let mut tree: map::BTreeMap<u64, u64, Vec<Pair<u64, u64>>> = map::BTreeMap::new(alloc);
    /// tree.insert(1, 10)?;
    /// tree.insert(2, 20)?;
    /// assert!(rt; tree.pop_last()? == Some((2, 20)) && tree.pop_last()? == Some((1, 10)));
    /// assert!(rt; tree.pop_last()?.is_none());
    /// ```
    ///
    /// # Errors
    ///
    /// Fails with `Numbers` if the event numbers do not fit the counter, else with `Memory`, only
    /// if it allocates. A failed call changes nothing.
    pub fn pop_last(&mut self) -> Result<Option<(K, V)>, Refusal>
        // Result.
        ensures answer { IfOk result (λ entry.
            entry ≡ option_map entry_of (slice_get (concat self.old.nodes)
            (length (concat self.old.nodes) - 1))) }

        // Contents.
        ensures changed { OnOk result (Changed (by_key K.cmp) self.old self.new
            (last_removal (by_key K.cmp) self.old)) }

        // Failure.
        ensures refusal { IfErr result (λ e. e ≡ refusal_of self.old
            (last_removal (by_key K.cmp) self.old)) }
        ensures unchanged { OnErr result (self.new ≡ self.old) }

        // Memory.
        ensures no_event { (last_removal (by_key K.cmp) self.old).events ≡ [] → IsOk result }
        ensures no_memory { length (last_removal (by_key K.cmp) self.old).events ≤ 1
            → Fits self.old (last_removal (by_key K.cmp) self.old) → IsOk result }
        ensures never { Node.allocates ≡ false
            → Fits self.old (last_removal (by_key K.cmp) self.old) → IsOk result }
    {
        let pair = self.set.pop_last()?;
        Ok(entry_of(pair))
    }
}

// Returns the key and the value of a pair, if any.
fn entry_of<K, V>(pair: Option<Pair<K, V>>) -> Option<(K, V)>
    ensures { result ≡ option_map entry_of pair }
{
    let Pair { key, value } = pair?;
    Some((key, value))
}
