//! The entry of a present key: reads, writes and removes its pair.
ghost use Rattle.std.specs.Prelude.{◌≡◌, Some};
ghost use Rattle.std.specs.Borrow.{sem};

use super::OccupiedEntry;
use indexset_spine::spot::Spot;
use std::mem;

impl<'a, K: Ord, V> OccupiedEntry<'a, K, V> {
    ghost use Rattle.indexset_map.specs.Entry.{Occupied, entry_key, entry_pair, entry_value};
    ghost use Rattle.indexset_map.specs.Entry.{entry_lends, occupied_lends, with_entry_value};

    /// Returns the stored key.
    ///
    /// ```
    /// let mut stock = BTreeMap::from_iter(alloc, [("fig", 5), ("pear", 2)])?;
    /// if let Some(entry) = stock.last_entry() {
    ///     assert_eq!(rt; entry.key(), &"pear");
    /// }
    /// ```
    pub fn key(&self) -> &K
        ensures { entry_key (Occupied self.now) ≡ Some result.now }
    {
        self.pair().0
    }

    /// Returns the value.
    ///
    /// ```
    /// let mut stock = BTreeMap::from_iter(alloc, [("fig", 5), ("pear", 2)])?;
    /// if let Some(entry) = stock.last_entry() {
    ///     assert_eq!(rt; entry.get(), &2);
    /// }
    /// ```
    pub fn get(&self) -> &V
        ensures { entry_value (Occupied self.now) ≡ Some result.now }
    {
        self.pair().1
    }

    // Returns the stored key and the value.
    fn pair(&self) -> (&K, &V)
        ensures { entry_pair (Occupied self.now) ≡ Some (result.0.now, result.1.now) }
    {
        let spot = Spot {
            node: self.node,
            offset: self.offset,
            found: true,
        };
        self.map.pair_in(&spot)
    }

    /// Returns a mutable reference to the value.
    ///
    /// ```
    /// # use indexset::Entry;
    /// let mut stock = BTreeMap::from_iter(alloc, [("fig", 5)])?;
    /// if let Entry::Occupied(mut entry) = stock.entry("fig") {
    ///     *entry.get_mut() += 1;
    ///     *entry.get_mut() += 1;
    /// }
    /// assert_eq!(rt; stock.get(&"fig"), Some(&7));
    /// ```
    pub fn get_mut(&mut self) -> &mut V
        ensures* writes_back { sem 𝓛 (occupied_lends K.row V.row self.entry result) }
        ensures value { entry_value (Occupied self.old) ≡ Some result.now }
    {
        let spot = Spot {
            node: self.node,
            offset: self.offset,
            found: true,
        };
        self.map.value_in(spot)
    }

    /// Returns a mutable reference to the value, with the lifetime of the map's borrow.
    ///
    /// ```
    /// let mut stock = BTreeMap::from_iter(alloc, [("fig", 5), ("pear", 2)])?;
    /// let first = stock.first_entry().map(|entry| entry.into_mut());
    /// if let Some(count) = first {
    ///     *count += 1;
    /// }
    /// assert_eq!(rt; stock.get(&"fig"), Some(&6));
    /// ```
    pub fn into_mut(self) -> &'a mut V
        ensures* writes_back { sem 𝓛 (entry_lends K.row V.row (Occupied self.entry) result) }
        ensures value { entry_value (Occupied self.entry) ≡ Some result.now }
    {
        let spot = Spot {
            node: self.node,
            offset: self.offset,
            found: true,
        };
        let map = self.map;
        map.value_in(spot)
    }

    /// Replaces the value and returns the old one.
    ///
    /// ```
    /// # use indexset::Entry;
    /// let mut stock = BTreeMap::from_iter(alloc, [("fig", 5)])?;
    /// if let Entry::Occupied(mut entry) = stock.entry("fig") {
    ///     assert_eq!(rt; entry.insert(7), 5);
    /// }
    /// assert_eq!(rt; stock.get(&"fig"), Some(&7));
    /// ```
    pub fn insert(&mut self, value: V) -> V
        ensures old { entry_value (Occupied self.old) ≡ Some result }
        ensures new { self.new ≡ with_entry_value self.old value }
    {
        mem::replace(self.get_mut(), value)
    }
}

impl<'a, K: Ord + Drop, V: Drop> OccupiedEntry<'a, K, V> {
    ghost use Rattle.indexset_map.specs.Entry.{Occupied, entry_pair};
    ghost use Rattle.indexset_map.specs.Entry.{entry_value, map_without_entry};

    /// Removes the pair and returns the stored key and the value.
    ///
    /// ```
    /// # use indexset::Entry;
    /// let mut stock = BTreeMap::from_iter(alloc, [("fig", 5), ("pear", 2)])?;
    /// if let Entry::Occupied(entry) = stock.entry("fig") {
    ///     assert!(rt; entry.remove_entry() == ("fig", 5));
    /// }
    /// assert_eq!(rt; stock.len(), 1);
    /// ```
    pub fn remove_entry(self) -> (K, V)
        ensures pair { entry_pair (Occupied self.entry) ≡ Some result }
        ensures removed { self.exit.0.now ≡ map_without_entry (Occupied self.entry) }
    {
        let spot = Spot {
            node: self.node,
            offset: self.offset,
            found: true,
        };
        self.map.take_at(spot)
    }

    /// Removes the pair and returns the value.
    ///
    /// ```
    /// # use indexset::Entry;
    /// let mut stock = BTreeMap::from_iter(alloc, [("fig", 5), ("pear", 2)])?;
    /// if let Entry::Occupied(entry) = stock.entry("fig") {
    ///     assert_eq!(rt; entry.remove(), 5);
    /// }
    /// assert!(rt; !stock.contains_key(&"fig"));
    /// ```
    pub fn remove(self) -> V
        ensures value { entry_value (Occupied self.entry) ≡ Some result }
        ensures removed { self.exit.0.now ≡ map_without_entry (Occupied self.entry) }
    {
        let spot = Spot {
            node: self.node,
            offset: self.offset,
            found: true,
        };
        self.map.take_at(spot).1
    }
}
