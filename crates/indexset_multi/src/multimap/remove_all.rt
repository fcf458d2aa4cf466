//! Removal of all pairs of a key.
ghost use Rattle.std.specs.Prelude.{◌≡◌, [], length, false, true, is_some};
ghost use Rattle.std.specs.Prelude.{IfOk, OnOk, IfErr, OnErr, IsOk};
ghost use Rattle.std.specs.Option.{option_map};
ghost use Rattle.indexset_core.specs.Nodes.{concat};
ghost use Rattle.indexset_log.specs.Tree.{refusal_for};
ghost use Rattle.indexset_multi.specs.Changed.{AreRemoved, RemovalEvents};
ghost use Rattle.indexset_multi.specs.Changed.{multi_refusal_of, some_removal};
ghost use Rattle.indexset_multi.specs.Keys.{first_pair, key_and_value, pairs_of, without_pairs_of};
ghost use Rattle.indexset_multi.specs.Appended.{AppendsEvents};
ghost use Rattle.indexset_multi.specs.Tree.{IsMultiPairClone, after_pair_removal, first_events};

use super::BTreeMultiMap;
use indexset_core::lookup_key::LookupKey;
use indexset_core::moves::move_tail;
use indexset_core::multipair::MultiPair;
use indexset_core::node::NodeLike;
use indexset_core::refusal::{Refusal, Refused};
use indexset_events::change::ChangeEvent;

impl<K: Ord + Clone + Drop, V: Eq + Clone + Drop, Node: NodeLike<MultiPair<K, V>>> BTreeMultiMap<
    K,
    V,
    Node,
> {
    /// Removes all pairs of a key, one by one as `remove_some`, and returns their number.
    ///
    /// # Examples
    ///
    /// ```
    /// let mut tags: multimap::BTreeMultiMap<u64, u64, Vec<MultiPair<u64, u64>>> =
    ///     multimap::BTreeMultiMap::new(alloc);
    /// for (tag, document) in [(1, 100), (1, 101), (2, 100)] {
    ///     tags.insert(tag, document)?;
    /// }
    /// assert!(rt; tags.remove_all(&1)? == 2 && tags.len() == 1);
    /// ```
    ///
    /// # Errors
    ///
    /// Fails with `Numbers` or `Memory` if one of the removals does: the pairs before are removed,
    /// and the other pairs of the key stay. It does not fail if the key has no pairs.
    pub fn remove_all<Q: LookupKey<K> + Drop>(&mut self, key: Q) -> Result<usize, Refusal>
        // Result.
        ensures count { IfOk result (λ n. n ≡ length (pairs_of Q.order
            (concat self.old.nodes) key)) }

        // Contents.
        ensures contents { OnOk result (concat self.new.nodes
            ≡ without_pairs_of Q.order (concat self.old.nodes) key) }
        ensures gone { OnOk result (pairs_of Q.order (concat self.new.nodes) key ≡ []) }
        ensures removed { AreRemoved K.cmp Q.order self.old self.new key }

        // Failure.
        ensures refusal { IfErr result (λ e. e ≡ multi_refusal_of self.new
            (some_removal K.cmp Q.order self.new key)) }

        // Memory.
        ensures no_event { pairs_of Q.order (concat self.old.nodes) key ≡ [] → IsOk result }
    {
        self.recall_invariant();
        let mut count = 0;
        while let Some(_) = self.remove_first(&key)? {
            count += 1;
        }
        Ok(count)
    }

    /// Removes all pairs of a key, as `remove_all`, and returns their number with the events.
    ///
    /// It allocates nothing if the key has no pairs.
    ///
    /// # Examples
    ///
    /// ```
    /// let mut tags: multimap::BTreeMultiMap<u64, u64, Vec<MultiPair<u64, u64>>> =
    ///     multimap::BTreeMultiMap::new(alloc);
    /// for (tag, document) in [(1, 100), (1, 101), (2, 100)] {
    ///     tags.insert(tag, document)?;
    /// }
    /// let (count, events) = tags.remove_all_cdc(&1)?;
    /// assert!(rt; count == 2 && events.len() == 2);
    /// ```
    ///
    /// # Errors
    ///
    /// Fails if one of the removals does, or if the list of events cannot grow: with `Numbers` if
    /// the events of that removal do not fit the counter, else with `Memory`. The pairs before are
    /// removed, and their events are returned in the error; the other pairs of the key stay.
    pub fn remove_all_cdc<Q: LookupKey<K> + Drop>(
        &mut self,
        key: Q,
    ) -> Result<
        (usize, Vec<ChangeEvent<MultiPair<K, V>>>),
        Refused<Vec<ChangeEvent<MultiPair<K, V>>>>,
    >
        // Result.
        ensures count { IfOk result (λ r.
            r.0 ≡ length (pairs_of Q.order (concat self.old.nodes) key)) }
        ensures events { IfOk result
            (λ r. RemovalEvents K.cmp Q.order K.is_clone V.is_clone self.old self.new
            key r.1.items) }

        // Contents.
        ensures contents { OnOk result (concat self.new.nodes
            ≡ without_pairs_of Q.order (concat self.old.nodes) key) }
        ensures gone { OnOk result (pairs_of Q.order (concat self.new.nodes) key ≡ []) }
        ensures removed { AreRemoved K.cmp Q.order self.old self.new key }

        // Failure.
        ensures refusal { IfErr result (λ e. e.cause ≡ multi_refusal_of self.new
            (some_removal K.cmp Q.order self.new key)) }
        ensures events_before { IfErr result
            (λ e. RemovalEvents K.cmp Q.order K.is_clone V.is_clone self.old
            self.new key e.value.items) }

        // Memory.
        ensures no_event { pairs_of Q.order (concat self.old.nodes) key ≡ [] → IsOk result }
    {
        self.recall_invariant();
        let mut count = 0;
        let mut events = Vec::new(*self.set.allocator());
        loop {
            match self.remove_next(&key, &mut events) {
                Ok(true) => count += 1,
                Ok(false) => return Ok((count, events)),
                Err(cause) => {
                    return Err(Refused {
                        value: events,
                        cause,
                    });
                }
            }
        }
    }

    // Removes the first pair of a key, if any, and returns it. A failed call changes nothing.
    fn remove_first<Q: LookupKey<K>>(&mut self, key: &Q) -> Result<Option<(K, V)>, Refusal>
        // Result.
        ensures answer { IfOk result (λ entry. entry ≡ option_map key_and_value
            (first_pair Q.order (concat self.old.nodes) key.now)) }

        // Failure.
        ensures refusal { IfErr result (λ e. e ≡ refusal_for self.old.next
            (length (first_events K.cmp Q.order self.old key.now))) }
        ensures unchanged { OnErr result (self.new ≡ self.old) }

        // Memory.
        ensures no_event { first_events K.cmp Q.order self.old key.now ≡ [] → IsOk result }

        // Nodes.
        ensures tree { OnOk result (self.new ≡ after_pair_removal K.cmp self.old
            (first_pair Q.order (concat self.old.nodes) key.now)) }
    {
        let place = self.first_place(key);
        self.take(place)
    }

    // Removes the first pair of a key, if any, appends the events to others, and returns whether
    // the key had one. A failed call changes nothing.
    fn remove_next<Q: LookupKey<K>>(
        &mut self,
        key: &Q,
        events: &mut Vec<ChangeEvent<MultiPair<K, V>>>,
    ) -> Result<bool, Refusal>
        // Result.
        ensures found { IfOk result (λ found. found ≡ is_some
            (first_pair Q.order (concat self.old.nodes) key.now)) }
        ensures events { IfOk result (λ found. found ≡ true
            → AppendsEvents (IsMultiPairClone K.is_clone V.is_clone) self.old.next
            (first_events K.cmp Q.order self.old key.now) events.old.items events.new.items) }
        ensures no_events { IfOk result (λ found.
            found ≡ false → events.new.items ≡ events.old.items) }

        // Failure.
        ensures refusal { IfErr result (λ e. e ≡ refusal_for self.old.next
            (length (first_events K.cmp Q.order self.old key.now))) }
        ensures contains { OnErr result
            (is_some (first_pair Q.order (concat self.old.nodes) key.now) ≡ true) }
        ensures kept { OnErr result (events.new.items ≡ events.old.items) }
        ensures unchanged { OnErr result (self.new ≡ self.old) }

        // Nodes.
        ensures tree { OnOk result (self.new ≡ after_pair_removal K.cmp self.old
            (first_pair Q.order (concat self.old.nodes) key.now)) }
    {
        self.recall_invariant();
        let Some((node, offset)) = self.first_place(key) else {
            return Ok(false);
        };
        // It reserves room for the events before it removes the pair.
        let Ok(()) = events.reserve(3) else {
            return Err(self.set.removal_refusal(node, offset));
        };
        let (_, mut more) = self.take_cdc(Some((node, offset)))?;
        move_tail(&mut more, 0, events);
        Ok(true)
    }
}
