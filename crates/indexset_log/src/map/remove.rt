//! Calls that remove pairs.
ghost use Rattle.std.specs.Prelude.{◌≡◌, ◌≤◌, [], length, false, IfOk, OnOk, IfErr, OnErr, IsOk};
ghost use Rattle.std.specs.Option.{option_map};
ghost use Rattle.indexset_core.specs.Nodes.{concat};
ghost use Rattle.indexset_core.specs.Pairs.{by_key, entry_of, has_key, pair_of};
ghost use Rattle.indexset_log.specs.Changed.{Changed, Fits, PairEvents, key_removal, refusal_of};
ghost use Rattle.indexset_log.specs.Keys.{KeepsOthers};

use super::BTreeMap;
use indexset_core::lookup_key::UniqueKey;
use indexset_core::node::NodeLike;
use indexset_core::pair::Pair;
use indexset_core::refusal::Refusal;
use indexset_events::change::ChangeEvent;

impl<K: Ord + Clone + Drop, V: Clone + Drop, Node: NodeLike<Pair<K, V>>> BTreeMap<K, V, Node> {
    /// Removes the pair of a key and returns it, if any, with the events.
    ///
    /// Its node is merged with a neighbour if the two then hold at most half the node size.
    ///
    /// # Examples
    ///
    /// ```
    /// let mut tree: map::BTreeMap<u64, u64, Vec<Pair<u64, u64>>> = map::BTreeMap::new(alloc);
    /// tree.insert(1, 10)?;
    /// let (removed, events) = tree.remove_cdc(&1)?;
    /// assert!(rt; removed == Some((1, 10)) && events.len() == 1);
    /// ```
    ///
    /// # Errors
    ///
    /// Fails with `Numbers` if the events do not fit the counter, else with `Memory`. A failed call
    /// changes nothing.
    pub fn remove_cdc<Q: UniqueKey<K> + Drop>(
        &mut self,
        key: Q,
    ) -> Result<(Option<(K, V)>, Vec<ChangeEvent<Pair<K, V>>>), Refusal>
        // Result.
        ensures answer { IfOk result (λ r.
            r.0 ≡ option_map entry_of (pair_of Q.order (concat self.old.nodes) key)) }
        ensures events { IfOk result (λ r. PairEvents K.cmp K.is_clone V.is_clone self.old self.new
            (key_removal Q.order self.old key) r.1.items) }

        // Contents.
        ensures gone { OnOk result (has_key Q.order (concat self.new.nodes) key ≡ false) }
        ensures others { OnOk result (KeepsOthers K.cmp Q.order self.old.nodes self.new.nodes key) }
        ensures changed { OnOk result (Changed (by_key K.cmp) self.old self.new
            (key_removal Q.order self.old key)) }

        // Failure.
        ensures refusal { IfErr result (λ e. e ≡ refusal_of self.old
            (key_removal Q.order self.old key)) }
        ensures unchanged { OnErr result (self.new ≡ self.old) }

        // Memory.
        ensures no_event { (key_removal Q.order self.old key).events ≡ [] → IsOk result }
    {
        match self.locate(key) {
            Ok((node, offset)) => {
                let (pair, events) = self.set.remove_at_cdc(node, offset)?;
                let Pair { key, value } = pair;
                Ok((Some((key, value)), events))
            }
            Err(_) => Ok((None, Vec::new(*self.set.allocator()))),
        }
    }

    /// Removes the pair of a key and returns it, if any.
    ///
    /// It consumes as many event numbers as `remove_cdc`, and allocates only if it merges two nodes
    /// of a type that allocates.
    ///
    /// # Examples
    ///
    /// ```
    /// let mut tree: map::BTreeMap<u64, u64, Vec<Pair<u64, u64>>> = map::BTreeMap::new(alloc);
    /// tree.insert(1, 10)?;
    /// tree.insert(2, 20)?;
    /// assert!(rt; tree.remove(&1)? == Some((1, 10)) && tree.remove(&1)?.is_none());
    /// ```
    ///
    /// # Errors
    ///
    /// Fails with `Numbers` if the event numbers do not fit the counter, else with `Memory`, only
    /// if it allocates. A failed call changes nothing.
    pub fn remove<Q: UniqueKey<K> + Drop>(&mut self, key: Q) -> Result<Option<(K, V)>, Refusal>
        // Result.
        ensures answer { IfOk result (λ entry.
            entry ≡ option_map entry_of (pair_of Q.order (concat self.old.nodes) key)) }

        // Contents.
        ensures gone { OnOk result (has_key Q.order (concat self.new.nodes) key ≡ false) }
        ensures others { OnOk result (KeepsOthers K.cmp Q.order self.old.nodes self.new.nodes key) }
        ensures changed { OnOk result (Changed (by_key K.cmp) self.old self.new
            (key_removal Q.order self.old key)) }

        // Failure.
        ensures refusal { IfErr result (λ e. e ≡ refusal_of self.old
            (key_removal Q.order self.old key)) }
        ensures unchanged { OnErr result (self.new ≡ self.old) }

        // Memory.
        ensures no_event { (key_removal Q.order self.old key).events ≡ [] → IsOk result }
        ensures no_memory { length (key_removal Q.order self.old key).events ≤ 1
            → Fits self.old (key_removal Q.order self.old key) → IsOk result }
        ensures never { Node.allocates ≡ false
            → Fits self.old (key_removal Q.order self.old key) → IsOk result }
    {
        match self.locate(key) {
            Ok((node, offset)) => {
                let pair = self.set.remove_at(node, offset)?;
                let Pair { key, value } = pair;
                Ok(Some((key, value)))
            }
            Err(_) => Ok(None),
        }
    }
}
