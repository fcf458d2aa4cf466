//! The first and the last pair, and calls that remove them.
ghost use Rattle.std.specs.Prelude.{◌≡◌, ◌↔◌, ◌-◌, ◌<◌, ◌≤◌, [], length, slice_get, false};
ghost use Rattle.std.specs.Prelude.{IfOk, OnOk, IfErr, OnErr, IsOk, IfSome, IsSome};
ghost use Rattle.std.specs.Option.{option_map};
ghost use Rattle.indexset_core.specs.Nodes.{concat};
ghost use Rattle.indexset_core.specs.Order.{above, below};
ghost use Rattle.indexset_core.specs.Pairs.{pair_keys};
ghost use Rattle.indexset_multi.specs.Changed.{MultiFits, MultiChanged};
ghost use Rattle.indexset_multi.specs.Changed.{MultiPairEvents, first_pair_removal};
ghost use Rattle.indexset_multi.specs.Changed.{last_pair_removal, multi_refusal_of};
ghost use Rattle.indexset_multi.specs.Keys.{entries, key_and_value};

use super::BTreeMultiMap;
use indexset_core::multipair::MultiPair;
use indexset_core::node::NodeLike;
use indexset_core::refusal::Refusal;
use indexset_events::change::ChangeEvent;

impl<K: Ord + Clone + Drop, V: Eq + Clone + Drop, Node: NodeLike<MultiPair<K, V>>> BTreeMultiMap<
    K,
    V,
    Node,
> {
    /// Returns the first key, which is the least, and the value of its first pair, if any.
    ///
    /// # Examples
    ///
    /// ```
    /// let mut tags: multimap::BTreeMultiMap<u64, u64, Vec<MultiPair<u64, u64>>> =
    ///     multimap::BTreeMultiMap::new(alloc);
    /// for (tag, document) in [(1, 100), (1, 101), (2, 100)] {
    ///     tags.insert(tag, document)?;
    /// }
    /// assert!(rt; tags.first_key_value() == Some((&1, &100)));
    /// ```
    ///
    /// # Complexity
    ///
    /// Takes constant time.
    pub fn first_key_value(&self) -> Option<(&K, &V)>
        ensures pair { option_map (λ p. (p.0.now, p.1.now)) result
            ≡ option_map key_and_value (slice_get (concat self.now.nodes) 0) }
        ensures variant { IsSome result ↔ (0 < length (concat self.now.nodes)) }
        ensures least { IfSome result (λ p. below K.cmp
            (pair_keys (entries (concat self.now.nodes))) p.0.now ≡ []) }
    {
        let pair = self.set.first()?;
        Some((&pair.key, &pair.value))
    }

    /// Returns the last key, which is the greatest, and the value of its last pair, if any.
    ///
    /// # Examples
    ///
    /// ```
    /// let mut tags: multimap::BTreeMultiMap<u64, u64, Vec<MultiPair<u64, u64>>> =
    ///     multimap::BTreeMultiMap::new(alloc);
    /// for (tag, document) in [(2, 100), (2, 101), (1, 100)] {
    ///     tags.insert(tag, document)?;
    /// }
    /// assert!(rt; tags.first_key_value() == Some((&1, &100)));
    /// assert!(rt; tags.last_key_value() == Some((&2, &101)));
    /// ```
    ///
    /// # Complexity
    ///
    /// Takes constant time.
    pub fn last_key_value(&self) -> Option<(&K, &V)>
        ensures pair { option_map (λ p. (p.0.now, p.1.now)) result
            ≡ option_map key_and_value (slice_get (concat self.now.nodes)
            (length (concat self.now.nodes) - 1)) }
        ensures variant { IsSome result ↔ (0 < length (concat self.now.nodes)) }
        ensures greatest { IfSome result (λ p. above K.cmp
            (pair_keys (entries (concat self.now.nodes))) p.0.now ≡ []) }
    {
        let pair = self.set.last()?;
        Some((&pair.key, &pair.value))
    }

    /// Removes the first pair of the least key and returns it, if any, with the events.
    ///
    /// The events are those of `remove_some_cdc` of that key.
    ///
    /// # Examples
    ///
    /// ```
    /// let mut tags: multimap::BTreeMultiMap<u64, u64, Vec<MultiPair<u64, u64>>> =
    ///     multimap::BTreeMultiMap::new(alloc);
    /// for (tag, document) in [(2, 100), (1, 100), (1, 101)] {
    ///     tags.insert(tag, document)?;
    /// }
    /// let (removed, events) = tags.pop_first_cdc()?;
    /// assert!(rt; removed == Some((1, 100)) && events.len() == 1);
    /// ```
    ///
    /// # Errors
    ///
    /// Fails with `Numbers` if the events do not fit the counter, else with `Memory`. A failed call
    /// changes nothing.
    ///
    /// # Complexity
    ///
    /// Makes no comparison.
    pub fn pop_first_cdc(
        &mut self,
    ) -> Result<(Option<(K, V)>, Vec<ChangeEvent<MultiPair<K, V>>>), Refusal>
        // Result.
        ensures answer { IfOk result (λ r.
            r.0 ≡ option_map key_and_value (slice_get (concat self.old.nodes) 0)) }
        ensures events { IfOk result
            (λ r. MultiPairEvents K.cmp K.is_clone V.is_clone self.old self.new
            (first_pair_removal K.cmp self.old) r.1.items) }

        // Contents.
        ensures changed { OnOk result (MultiChanged K.cmp self.old self.new
            (first_pair_removal K.cmp self.old)) }

        // Failure.
        ensures refusal { IfErr result (λ e. e ≡ multi_refusal_of self.old
            (first_pair_removal K.cmp self.old)) }
        ensures unchanged { OnErr result (self.new ≡ self.old) }

        // Memory.
        ensures no_event { (first_pair_removal K.cmp self.old).events ≡ [] → IsOk result }
    {
        let (pair, events) = self.set.pop_first_cdc()?;
        Ok((entry_of(pair), events))
    }

    /// Removes the first pair of the least key and returns it, if any.
    ///
    /// It consumes as many event numbers as `pop_first_cdc`, and allocates only if it merges two
    /// nodes of a type that allocates.
    ///
    /// # Examples
    ///
    /// ```
    /// let mut tags: multimap::BTreeMultiMap<u64, u64, Vec<MultiPair<u64, u64>>> =
    ///     multimap::BTreeMultiMap::new(alloc);
    /// for (tag, document) in [(1, 100), (1, 101), (2, 100)] {
    ///     tags.insert(tag, document)?;
    /// }
    /// assert!(rt; tags.pop_first()? == Some((1, 100)) && tags.pop_first()? == Some((1, 101)));
    /// ```
    ///
    /// # Errors
    ///
    /// Fails with `Numbers` if the event numbers do not fit the counter, else with `Memory`, only
    /// if it allocates. A failed call changes nothing.
    ///
    /// # Complexity
    ///
    /// Makes no comparison.
    pub fn pop_first(&mut self) -> Result<Option<(K, V)>, Refusal>
        // Result.
        ensures answer { IfOk result (λ entry.
            entry ≡ option_map key_and_value (slice_get (concat self.old.nodes) 0)) }

        // Contents.
        ensures changed { OnOk result (MultiChanged K.cmp self.old self.new
            (first_pair_removal K.cmp self.old)) }

        // Failure.
        ensures refusal { IfErr result (λ e. e ≡ multi_refusal_of self.old
            (first_pair_removal K.cmp self.old)) }
        ensures unchanged { OnErr result (self.new ≡ self.old) }

        // Memory.
        ensures no_event { (first_pair_removal K.cmp self.old).events ≡ [] → IsOk result }
        ensures no_memory { length (first_pair_removal K.cmp self.old).events ≤ 1
            → MultiFits self.old (first_pair_removal K.cmp self.old) → IsOk result }
        ensures never { Node.allocates ≡ false
            → MultiFits self.old (first_pair_removal K.cmp self.old) → IsOk result }
    {
        let pair = self.set.pop_first()?;
        Ok(entry_of(pair))
    }

    /// Removes the last pair of the greatest key and returns it, if any, with the events.
    ///
    /// Its node is merged with a neighbour if the two then hold at most half the node size.
    ///
    /// # Examples
    ///
    /// ```
    /// let mut tags: multimap::BTreeMultiMap<u64, u64, Vec<MultiPair<u64, u64>>> =
    ///     multimap::BTreeMultiMap::new(alloc);
    /// for (tag, document) in [(1, 100), (1, 101), (2, 100)] {
    ///     tags.insert(tag, document)?;
    /// }
    /// let (removed, events) = tags.pop_last_cdc()?;
    /// assert!(rt; removed == Some((2, 100)) && events.len() == 1);
    /// ```
    ///
    /// # Errors
    ///
    /// Fails with `Numbers` if the events do not fit the counter, else with `Memory`. A failed call
    /// changes nothing.
    ///
    /// # Complexity
    ///
    /// Makes no comparison.
    pub fn pop_last_cdc(
        &mut self,
    ) -> Result<(Option<(K, V)>, Vec<ChangeEvent<MultiPair<K, V>>>), Refusal>
        // Result.
        ensures answer { IfOk result (λ r. r.0 ≡ option_map key_and_value
            (slice_get (concat self.old.nodes) (length (concat self.old.nodes) - 1))) }
        ensures events { IfOk result
            (λ r. MultiPairEvents K.cmp K.is_clone V.is_clone self.old self.new
            (last_pair_removal K.cmp self.old) r.1.items) }

        // Contents.
        ensures changed { OnOk result (MultiChanged K.cmp self.old self.new
            (last_pair_removal K.cmp self.old)) }

        // Failure.
        ensures refusal { IfErr result (λ e. e ≡ multi_refusal_of self.old
            (last_pair_removal K.cmp self.old)) }
        ensures unchanged { OnErr result (self.new ≡ self.old) }

        // Memory.
        ensures no_event { (last_pair_removal K.cmp self.old).events ≡ [] → IsOk result }
    {
        let (pair, events) = self.set.pop_last_cdc()?;
        Ok((entry_of(pair), events))
    }

    /// Removes the last pair of the greatest key and returns it, if any.
    ///
    /// It consumes as many event numbers as `pop_last_cdc`, and allocates only if it merges two
    /// nodes of a type that allocates.
    ///
    /// # Examples
    ///
    /// ```
    /// let mut tags: multimap::BTreeMultiMap<u64, u64, Vec<MultiPair<u64, u64>>> =
    ///     multimap::BTreeMultiMap::new(alloc);
    /// for (tag, document) in [(2, 100), (1, 100), (2, 101)] {
    ///     tags.insert(tag, document)?;
    /// }
    /// assert!(rt; tags.pop_last()? == Some((2, 101)) && tags.pop_last()? == Some((2, 100)));
    /// ```
    ///
    /// # Errors
    ///
    /// Fails with `Numbers` if the event numbers do not fit the counter, else with `Memory`, only
    /// if it allocates. A failed call changes nothing.
    ///
    /// # Complexity
    ///
    /// Makes no comparison.
    pub fn pop_last(&mut self) -> Result<Option<(K, V)>, Refusal>
        // Result.
        ensures answer { IfOk result (λ entry. entry ≡ option_map key_and_value
            (slice_get (concat self.old.nodes) (length (concat self.old.nodes) - 1))) }

        // Contents.
        ensures changed { OnOk result (MultiChanged K.cmp self.old self.new
            (last_pair_removal K.cmp self.old)) }

        // Failure.
        ensures refusal { IfErr result (λ e. e ≡ multi_refusal_of self.old
            (last_pair_removal K.cmp self.old)) }
        ensures unchanged { OnErr result (self.new ≡ self.old) }

        // Memory.
        ensures no_event { (last_pair_removal K.cmp self.old).events ≡ [] → IsOk result }
        ensures no_memory { length (last_pair_removal K.cmp self.old).events ≤ 1
            → MultiFits self.old (last_pair_removal K.cmp self.old) → IsOk result }
        ensures never { Node.allocates ≡ false
            → MultiFits self.old (last_pair_removal K.cmp self.old) → IsOk result }
    {
        let pair = self.set.pop_last()?;
        Ok(entry_of(pair))
    }
}

// Returns the key and the value of a pair, if any.
fn entry_of<K, V>(pair: Option<MultiPair<K, V>>) -> Option<(K, V)>
    ensures { result ≡ option_map key_and_value pair }
{
    let pair = pair?;
    Some((pair.key, pair.value))
}
