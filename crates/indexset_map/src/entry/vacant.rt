//! The entry of an absent key: the key, and its insertion.
ghost use Rattle.std.specs.Prelude.{◌≡◌, Some, IfOk, IfErr};
ghost use Rattle.std.specs.Borrow.{sem};

use super::VacantEntry;
use indexset_core::refusal::{Refusal, Refused};
use std::alloc::Global;

impl<'a, K: Ord, V> VacantEntry<'a, K, V> {
    ghost use Rattle.indexset_map.specs.Entry.{Vacant, entry_map_ref, missing_key};

    /// Returns the given key.
    ///
    /// ```
    /// # use indexset::Entry;
    /// let mut stock: BTreeMap<&str, u64> = BTreeMap::new(alloc)?;
    /// if let Entry::Vacant(entry) = stock.entry("plum") {
    ///     assert_eq!(rt; entry.key(), &"plum");
    /// }
    /// ```
    pub fn key(&self) -> &K
        ensures { missing_key (Vacant self.now) ≡ Some result.now }
    {
        &self.key
    }

    /// Returns the key and changes nothing.
    ///
    /// ```
    /// # use indexset::Entry;
    /// let mut stock: BTreeMap<&str, u64> = BTreeMap::new(alloc)?;
    /// if let Entry::Vacant(entry) = stock.entry("plum") {
    ///     assert_eq!(rt; entry.into_key(), "plum");
    /// }
    /// assert!(rt; stock.is_empty());
    /// ```
    pub fn into_key(self) -> K
        ensures key { missing_key (Vacant self.entry) ≡ Some result }
        ensures unchanged { self.exit.0.now ≡ (entry_map_ref (Vacant self.entry)).now }
    {
        self.key
    }
}

impl<'a, K: Ord + Drop, V: Drop> VacantEntry<'a, K, V> {
    ghost use Rattle.indexset_map.specs.Entry.{Vacant, entry_lends_ok, missing_key};

    /// Inserts the key with a value, and returns a mutable reference to the value.
    ///
    /// # Examples
    ///
    /// ```
    /// # use indexset::Entry;
    /// let mut stock = BTreeMap::new(alloc)?;
    /// if let Entry::Vacant(entry) = stock.entry("plum") {
    ///     *entry.insert(1)? += 1;
    /// }
    /// assert_eq!(rt; stock.get(&"plum"), Some(&2));
    /// ```
    ///
    /// # Errors
    ///
    /// Fails with `Memory`. A failed call returns the key and the value in the error and changes
    /// nothing.
    pub fn insert(self, value: V) -> Result<&'a mut V, Refused<(K, V)>>
        ensures* writes_back { sem 𝓛 (entry_lends_ok K.row V.row (Vacant self.entry) result) }
        ensures value { IfOk result (λ r. r.now ≡ value) }
        ensures given_back { IfErr result
            (λ e. (missing_key (Vacant self.entry) ≡ Some e.value.0) × (e.value.1 ≡ value)
            × (e.cause ≡ Refusal.Memory)) }
    {
        let VacantEntry { map, key, spot } = self;
        let to = match map.put_at(spot, key, value) {
            Ok(to) => to,
            Err(refused) => return Err(refused),
        };
        Ok(map.value_in(to))
    }

    // Returns the allocator of the map.
    pub(super) fn allocator(&self) -> Global {
        self.map.allocator()
    }
}
