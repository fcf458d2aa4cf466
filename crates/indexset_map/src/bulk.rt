//! Calls that move many pairs at once.
ghost use Rattle.std.specs.Prelude.{◌≡◌, ◌<◌, [], true, false, IfOk, OnOk, IfErr, OnErr, length};
ghost use Rattle.std.specs.List.{All};
ghost use Rattle.std.specs.Ordering.{is_lt};
ghost use Rattle.indexset_core.specs.Pairs.{by_key, pair_keys, pairs_below, pairs_from};
ghost use Rattle.indexset_map.specs.Contents.{with_pairs_put, PutsPairPrefix};
ghost use Rattle.indexset_set.specs.SetAlgebra.{put_all, MovesPrefix};

use super::BTreeMap;
use indexset_core::lookup_key::LookupKey;
use indexset_core::refusal::Refusal;

impl<K: Ord + Drop, V: Drop> BTreeMap<K, V> {
    /// Splits the map at the key and returns the pairs whose keys are not below it.
    ///
    /// The returned map has the same node size.
    ///
    /// # Examples
    ///
    /// ```
    /// let mut low = BTreeMap::from_iter(alloc, [(1, 'a'), (2, 'b'), (3, 'c')])?;
    /// let high = low.split_off(&2)?;
    /// assert!(rt; low.len() == 1 && high.len() == 2);
    /// ```
    ///
    /// # Errors
    ///
    /// Fails with `Memory`. A failed call changes nothing.
    pub fn split_off<Q: LookupKey<K> + Drop>(&mut self, key: Q) -> Result<Self, Refusal>
        // Result.
        ensures rest { IfOk result (λ m. m.pairs ≡ pairs_from Q.order self.old.pairs key) }
        ensures all_from { IfOk result (λ m. All (λ k. is_lt (Q.order k key) ≡ false)
            (pair_keys m.pairs)) }

        // Contents.
        ensures below { OnOk result (self.new.pairs ≡ pairs_below Q.order self.old.pairs key) }
        ensures all_below { OnOk result (All (λ k. is_lt (Q.order k key) ≡ true)
            (pair_keys self.new.pairs)) }

        // Failure.
        ensures refusal { IfErr result (λ e. e ≡ Refusal.Memory) }
        ensures unchanged { OnErr result (self.new ≡ self.old) }

        // Nodes.
        ensures size { self.new.size ≡ self.old.size }
        ensures rest_size { IfOk result (λ m. m.size ≡ self.old.size) }
    {
        // The keys ascend, so the rank of the key splits them.
        self.recall_order();
        let place = self.rank(key);
        let set = self.set.split_off_index(place)?;
        Ok(BTreeMap { set })
    }

    /// Moves all pairs of `other` into this map, first to last, replacing pairs of equal keys.
    ///
    /// # Examples
    ///
    /// ```
    /// let mut map = BTreeMap::from_iter(alloc, [(1, 'a'), (2, 'b')])?;
    /// let mut other = BTreeMap::from_iter(alloc, [(2, 'c')])?;
    /// map.append(&mut other)?;
    /// assert!(rt; map.get(&2) == Some(&'c') && other.is_empty());
    /// ```
    ///
    /// # Errors
    ///
    /// Fails with `Memory`. A failed call has moved a prefix of the pairs; `other` keeps the rest.
    pub fn append(&mut self, other: &mut Self) -> Result<(), Refusal>
        // Contents.
        ensures ok { OnOk result (self.new.pairs
            ≡ put_all (by_key K.cmp) self.old.pairs other.old.pairs) }
        ensures emptied { OnOk result (other.new.pairs ≡ []) }

        // Failure.
        ensures refusal { IfErr result (λ e. e ≡ Refusal.Memory) }
        ensures err { OnErr result (MovesPrefix (by_key K.cmp) self.old.pairs other.old.pairs
            self.new.pairs other.new.pairs) }
        ensures some_left { OnErr result (0 < length other.new.pairs) }

        // Nodes.
        ensures nodes { OnOk result (self.new ≡ with_pairs_put K.cmp self.old other.old.pairs) }
        ensures size { self.new.size ≡ self.old.size }
        ensures other_size { other.new.size ≡ other.old.size }
        ensures err_nodes { OnErr result (PutsPairPrefix K.cmp self.old other.old.pairs self.new
            other.new.pairs) }
    {
        self.set.append(&mut other.set)
    }
}
