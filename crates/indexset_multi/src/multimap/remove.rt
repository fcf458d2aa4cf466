//! Calls that remove pairs.
ghost use Rattle.std.specs.Prelude.{◌≡◌, ◌<◌, ◌≤◌, [], drop, length, false, find, slice_get};
ghost use Rattle.std.specs.Prelude.{None, Some, MatchOption, IfOk, OnOk, IfErr, OnErr, IsOk};
ghost use Rattle.std.specs.Option.{option_map};
ghost use Rattle.indexset_core.specs.MultiPairs.{by_number};
ghost use Rattle.indexset_core.specs.Nodes.{concat};
ghost use Rattle.indexset_events.specs.Clones.{AreTableEvents};
ghost use Rattle.indexset_log.specs.PlaceRemoval.{IsItemPlaceInNodes, placed_item};
ghost use Rattle.indexset_log.specs.Tree.{IsTree};
ghost use Rattle.indexset_multi.specs.Changed.{MultiFits, KeepsOtherPairs, MultiChanged};
ghost use Rattle.indexset_multi.specs.Changed.{MultiPairEvents, equal_removal};
ghost use Rattle.indexset_multi.specs.Changed.{multi_refusal_of, named_removal, some_removal};
ghost use Rattle.indexset_multi.specs.Keys.{equal_pair, first_pair, key_and_value};
ghost use Rattle.indexset_multi.specs.Keys.{pairs_of, without_first};
ghost use Rattle.indexset_multi.specs.Tree.{IsMultiPairClone};

use super::BTreeMultiMap;
use indexset_core::lookup_key::LookupKey;
use indexset_core::multipair::MultiPair;
use indexset_core::node::NodeLike;
use indexset_core::refusal::Refusal;
use indexset_events::change::ChangeEvent;
use indexset_log::set::range::Range;

impl<K: Ord + Clone + Drop, V: Eq + Clone + Drop, Node: NodeLike<MultiPair<K, V>>> BTreeMultiMap<
    K,
    V,
    Node,
> {
    /// Removes the first pair of a key and returns it, if any, with the events.
    ///
    /// Its node is merged with a neighbour if the two then hold at most half the node size.
    ///
    /// # Examples
    ///
    /// ```
    /// let mut tags: multimap::BTreeMultiMap<u64, u64, Vec<MultiPair<u64, u64>>> =
    ///     multimap::BTreeMultiMap::new(alloc);
    /// for (tag, document) in [(1, 100), (1, 101), (2, 100)] {
    ///     tags.insert(tag, document)?;
    /// }
    /// let (removed, events) = tags.remove_some_cdc(&1)?;
    /// assert!(rt; removed == Some((1, 100)) && events.len() == 1);
    /// ```
    ///
    /// # Errors
    ///
    /// Fails with `Numbers` if the events do not fit the counter, else with `Memory`. A failed call
    /// changes nothing.
    ///
    /// # Complexity
    ///
    /// Makes one search.
    pub fn remove_some_cdc<Q: LookupKey<K> + Drop>(
        &mut self,
        key: Q,
    ) -> Result<(Option<(K, V)>, Vec<ChangeEvent<MultiPair<K, V>>>), Refusal>
        // Result.
        ensures answer { IfOk result (λ r.
            r.0 ≡ option_map key_and_value (first_pair Q.order (concat self.old.nodes) key)) }
        ensures events { IfOk result
            (λ r. MultiPairEvents K.cmp K.is_clone V.is_clone self.old self.new
            (some_removal K.cmp Q.order self.old key) r.1.items) }

        // Contents.
        ensures gone { OnOk result (pairs_of Q.order (concat self.new.nodes) key
            ≡ drop 1 (pairs_of Q.order (concat self.old.nodes) key)) }
        ensures others { OnOk result (KeepsOtherPairs K.cmp Q.order self.old self.new key) }
        ensures changed { OnOk result (MultiChanged K.cmp self.old self.new
            (some_removal K.cmp Q.order self.old key)) }

        // Failure.
        ensures refusal { IfErr result (λ e. e ≡ multi_refusal_of self.old
            (some_removal K.cmp Q.order self.old key)) }
        ensures unchanged { OnErr result (self.new ≡ self.old) }

        // Memory.
        ensures no_event { (some_removal K.cmp Q.order self.old key).events ≡ [] → IsOk result }
    {
        let first = self.first_place(&key);
        self.take_cdc(first)
    }

    /// Removes the first pair of a key and returns it, if any.
    ///
    /// It consumes as many event numbers as `remove_some_cdc`, and allocates only if it merges two
    /// nodes of a type that allocates.
    ///
    /// # Examples
    ///
    /// ```
    /// let mut tags: multimap::BTreeMultiMap<u64, u64, Vec<MultiPair<u64, u64>>> =
    ///     multimap::BTreeMultiMap::new(alloc);
    /// for (tag, document) in [(1, 100), (1, 101), (2, 100)] {
    ///     tags.insert(tag, document)?;
    /// }
    /// assert!(rt; tags.remove_some(&1)? == Some((1, 100)) && tags.remove_some(&3)?.is_none());
    /// ```
    ///
    /// # Errors
    ///
    /// Fails with `Numbers` if the event numbers do not fit the counter, else with `Memory`, only
    /// if it allocates. A failed call changes nothing.
    pub fn remove_some<Q: LookupKey<K> + Drop>(&mut self, key: Q) -> Result<Option<(K, V)>, Refusal>
        // Result.
        ensures answer { IfOk result (λ entry.
            entry ≡ option_map key_and_value (first_pair Q.order (concat self.old.nodes) key)) }

        // Contents.
        ensures gone { OnOk result (pairs_of Q.order (concat self.new.nodes) key
            ≡ drop 1 (pairs_of Q.order (concat self.old.nodes) key)) }
        ensures others { OnOk result (KeepsOtherPairs K.cmp Q.order self.old self.new key) }
        ensures changed { OnOk result (MultiChanged K.cmp self.old self.new
            (some_removal K.cmp Q.order self.old key)) }

        // Failure.
        ensures refusal { IfErr result (λ e. e ≡ multi_refusal_of self.old
            (some_removal K.cmp Q.order self.old key)) }
        ensures unchanged { OnErr result (self.new ≡ self.old) }

        // Memory.
        ensures no_event { (some_removal K.cmp Q.order self.old key).events ≡ [] → IsOk result }
        ensures no_memory { length (some_removal K.cmp Q.order self.old key).events ≤ 1
            → MultiFits self.old (some_removal K.cmp Q.order self.old key) → IsOk result }
        ensures never { Node.allocates ≡ false
            → MultiFits self.old (some_removal K.cmp Q.order self.old key) → IsOk result }
    {
        let first = self.first_place(&key);
        self.take(first)
    }

    /// Removes the first pair of a key with an equal value and returns it, if any, with the events.
    ///
    /// Other such pairs of the key stay. The pair's node is merged with a neighbour if the two then
    /// hold at most half the node size.
    ///
    /// # Examples
    ///
    /// ```
    /// let mut tags: multimap::BTreeMultiMap<u64, u64, Vec<MultiPair<u64, u64>>> =
    ///     multimap::BTreeMultiMap::new(alloc);
    /// for (tag, document) in [(1, 100), (1, 101), (2, 100)] {
    ///     tags.insert(tag, document)?;
    /// }
    /// let (removed, events) = tags.remove_cdc(&1, &101)?;
    /// assert!(rt; removed == Some((1, 101)) && events.len() == 1);
    /// ```
    ///
    /// # Errors
    ///
    /// Fails with `Numbers` if the events do not fit the counter, else with `Memory`. A failed call
    /// changes nothing.
    ///
    /// # Complexity
    ///
    /// Makes the comparisons of `get`, and then compares the values of the key's pairs one by one.
    pub fn remove_cdc<Q: LookupKey<K> + Drop>(
        &mut self,
        key: Q,
        value: &V,
    ) -> Result<(Option<(K, V)>, Vec<ChangeEvent<MultiPair<K, V>>>), Refusal>
        // Result.
        ensures answer { IfOk result (λ r. r.0 ≡ option_map key_and_value
            (equal_pair Q.order V.eq (concat self.old.nodes) key value.now)) }
        ensures events { IfOk result
            (λ r. MultiPairEvents K.cmp K.is_clone V.is_clone self.old self.new
            (equal_removal K.cmp Q.order V.eq self.old key value.now) r.1.items) }

        // Contents.
        ensures gone { OnOk result (pairs_of Q.order (concat self.new.nodes) key
            ≡ without_first (λ p. V.eq p.value value.now)
            (pairs_of Q.order (concat self.old.nodes) key)) }
        ensures others { OnOk result (KeepsOtherPairs K.cmp Q.order self.old self.new key) }
        ensures changed { OnOk result (MultiChanged K.cmp self.old self.new
            (equal_removal K.cmp Q.order V.eq self.old key value.now)) }

        // Failure.
        ensures refusal { IfErr result (λ e. e ≡ multi_refusal_of self.old
            (equal_removal K.cmp Q.order V.eq self.old key value.now)) }
        ensures unchanged { OnErr result (self.new ≡ self.old) }

        // Memory.
        ensures no_event { (equal_removal K.cmp Q.order V.eq self.old key value.now).events ≡ []
            → IsOk result }
    {
        let place = self.equal_place(&key, value);
        self.take_cdc(place)
    }

    /// Removes the first pair of a key with an equal value and returns it, if any.
    ///
    /// It consumes as many event numbers as `remove_cdc`, and allocates only if it merges two nodes
    /// of a type that allocates.
    ///
    /// # Examples
    ///
    /// ```
    /// let mut tags: multimap::BTreeMultiMap<u64, u64, Vec<MultiPair<u64, u64>>> =
    ///     multimap::BTreeMultiMap::new(alloc);
    /// tags.insert(1, 100)?;
    /// let removed = tags.remove(&1, &100)?;
    /// assert!(rt; removed == Some((1, 100)) && !tags.contains_key(&1));
    /// ```
    ///
    /// # Errors
    ///
    /// Fails with `Numbers` if the event numbers do not fit the counter, else with `Memory`, only
    /// if it allocates. A failed call changes nothing.
    ///
    /// # Complexity
    ///
    /// Makes the comparisons of `remove_cdc`.
    pub fn remove<Q: LookupKey<K> + Drop>(
        &mut self,
        key: Q,
        value: &V,
    ) -> Result<Option<(K, V)>, Refusal>
        // Result.
        ensures answer { IfOk result (λ entry. entry ≡ option_map key_and_value
            (equal_pair Q.order V.eq (concat self.old.nodes) key value.now)) }

        // Contents.
        ensures gone { OnOk result (pairs_of Q.order (concat self.new.nodes) key
            ≡ without_first (λ p. V.eq p.value value.now)
            (pairs_of Q.order (concat self.old.nodes) key)) }
        ensures others { OnOk result (KeepsOtherPairs K.cmp Q.order self.old self.new key) }
        ensures changed { OnOk result (MultiChanged K.cmp self.old self.new
            (equal_removal K.cmp Q.order V.eq self.old key value.now)) }

        // Failure.
        ensures refusal { IfErr result (λ e. e ≡ multi_refusal_of self.old
            (equal_removal K.cmp Q.order V.eq self.old key value.now)) }
        ensures unchanged { OnErr result (self.new ≡ self.old) }

        // Memory.
        ensures no_event { (equal_removal K.cmp Q.order V.eq self.old key value.now).events ≡ []
            → IsOk result }
        ensures no_memory { length
            (equal_removal K.cmp Q.order V.eq self.old key value.now).events
            ≤ 1
            → MultiFits self.old (equal_removal K.cmp Q.order V.eq self.old key value.now)
            → IsOk result }
        ensures never { Node.allocates ≡ false
            → MultiFits self.old (equal_removal K.cmp Q.order V.eq self.old key value.now)
            → IsOk result }
    {
        let place = self.equal_place(&key, value);
        self.take(place)
    }

    // Returns the place of the first pair of a key, if any.
    pub(super) fn first_place<Q: LookupKey<K>>(&self, key: &Q) -> Option<(usize, usize)>
        ensures place { IsItemPlaceInNodes self.now.nodes result }
        ensures pair { placed_item self.now.nodes result
            ≡ first_pair Q.order (concat self.now.nodes) key.now }
    {
        self.locate(key).ok()
    }

    // Returns the place of the first pair of a key with an equal value, if any.
    pub(super) fn equal_place<Q: LookupKey<K>>(&self, key: &Q, value: &V) -> Option<(usize, usize)>
        ensures place { IsItemPlaceInNodes self.now.nodes result }
        ensures pair { placed_item self.now.nodes result
            ≡ equal_pair Q.order V.eq (concat self.now.nodes) key.now value.now }
    {
        self.recall_invariant();
        let (from, to) = self.places_of(key);
        let index = index_of(self.set.range_between(from, to), value)?;
        Some(self.set.place_ahead(from, index))
    }

    // Removes the pair at a place, if given, and returns it with the events.
    pub(super) fn take_cdc(
        &mut self,
        place: Option<(usize, usize)>,
    ) -> Result<(Option<(K, V)>, Vec<ChangeEvent<MultiPair<K, V>>>), Refusal>
        requires { IsItemPlaceInNodes self.old.nodes place }

        // Result.
        ensures answer { IfOk result (λ r. r.0 ≡ option_map key_and_value
            (placed_item self.old.nodes place)) }
        ensures events { IfOk result
            (λ r. AreTableEvents (IsMultiPairClone K.is_clone V.is_clone) self.old.next
            (named_removal K.cmp self.old (placed_item self.old.nodes place)).events r.1.items) }

        // Failure.
        ensures fits { OnOk result (MultiFits self.old
            (named_removal K.cmp self.old (placed_item self.old.nodes place))) }
        ensures refusal { IfErr result (λ e. e ≡ multi_refusal_of self.old
            (named_removal K.cmp self.old (placed_item self.old.nodes place))) }
        ensures unchanged { OnErr result (self.new ≡ self.old) }

        // Memory.
        ensures no_event { (named_removal K.cmp self.old
            (placed_item self.old.nodes place)).events ≡ [] → IsOk result }

        // Nodes.
        ensures tree { OnOk result (self.new
            ≡ (named_removal K.cmp self.old (placed_item self.old.nodes place)).tree) }
        ensures invariant { IsTree (by_number K.cmp) Node.most self.old.nodes self.old.size
            (length (concat self.old.nodes)) }
    {
        self.recall_invariant();
        match place {
            Some((node, offset)) => {
                let (pair, events) = self.set.remove_at_cdc(node, offset)?;
                Ok((Some((pair.key, pair.value)), events))
            }
            None => Ok((None, Vec::new(*self.set.allocator()))),
        }
    }

    // Removes the pair at a place, if given, and returns it.
    pub(super) fn take(&mut self, place: Option<(usize, usize)>) -> Result<Option<(K, V)>, Refusal>
        requires { IsItemPlaceInNodes self.old.nodes place }

        // Result.
        ensures answer { IfOk result (λ entry. entry ≡ option_map key_and_value
            (placed_item self.old.nodes place)) }

        // Failure.
        ensures fits { OnOk result (MultiFits self.old
            (named_removal K.cmp self.old (placed_item self.old.nodes place))) }
        ensures refusal { IfErr result (λ e. e ≡ multi_refusal_of self.old
            (named_removal K.cmp self.old (placed_item self.old.nodes place))) }
        ensures unchanged { OnErr result (self.new ≡ self.old) }

        // Memory.
        ensures no_event { (named_removal K.cmp self.old
            (placed_item self.old.nodes place)).events ≡ [] → IsOk result }
        ensures no_memory { length
            (named_removal K.cmp self.old (placed_item self.old.nodes place)).events ≤ 1
            → MultiFits self.old (named_removal K.cmp self.old (placed_item self.old.nodes place))
            → IsOk result }
        ensures never { Node.allocates ≡ false
            → MultiFits self.old (named_removal K.cmp self.old (placed_item self.old.nodes place))
            → IsOk result }

        // Nodes.
        ensures tree { OnOk result (self.new
            ≡ (named_removal K.cmp self.old (placed_item self.old.nodes place)).tree) }
        ensures invariant { IsTree (by_number K.cmp) Node.most self.old.nodes self.old.size
            (length (concat self.old.nodes)) }
    {
        self.recall_invariant();
        match place {
            Some((node, offset)) => {
                let pair = self.set.remove_at(node, offset)?;
                Ok(Some((pair.key, pair.value)))
            }
            None => Ok(None),
        }
    }
}

// Returns the number of pairs before the first with an equal value, if any.
fn index_of<K: Ord + Clone + Drop, V: Eq + Clone + Drop, Node: NodeLike<MultiPair<K, V>>>(
    pairs: Range<'_, MultiPair<K, V>, Node>,
    value: &V,
) -> Option<usize>
    requires { length pairs ≤ usize.MAX }
    ensures { MatchOption result (find (λ p. V.eq p.value value.now) pairs.entry ≡ None)
        (λ i. (i < length pairs.entry) × (slice_get pairs.entry i
        ≡ find (λ p. V.eq p.value value.now) pairs.entry)) }
{
    let mut rest = pairs;
    let mut index = 0;
    while let Some(pair) = rest.next() {
        if pair.value == *value {
            return Some(index);
        }
        index += 1;
    }
    None
}
