//! Insertion and removal of one element.
ghost use Rattle.std.specs.Prelude.{◌≡◌, [], ◌∷◌, true, false, not, IfOk, OnOk, IfErr, OnErr, IsOk};
ghost use Rattle.indexset_spine.specs.NodeList.{items};
ghost use Rattle.indexset_core.specs.Order.{has_equal, keep, put, without, equal_element};
ghost use Rattle.indexset_set.specs.SetNodes.{nodes_kept, nodes_put, nodes_without};

use super::BTreeSet;
use super::lookup::{locate, locate_from_end};
use indexset_core::lookup_key::UniqueKey;
use indexset_core::refusal::{Refusal, Refused};

impl<T: Ord + Drop> BTreeSet<T> {
    /// Inserts `value`, and returns whether it was inserted.
    ///
    /// If an equal element is present, the set keeps that element, drops `value`, allocates nothing
    /// and returns false.
    ///
    /// # Examples
    ///
    /// ```
    /// let mut set = BTreeSet::new(alloc)?;
    /// let first = set.insert(7)?;
    /// let again = set.insert(7)?;
    /// assert!(rt; first && !again && set.len() == 1);
    /// ```
    ///
    /// # Errors
    ///
    /// Fails with `Memory` only. A failed call returns `value` in the error and changes nothing.
    ///
    /// # Complexity
    ///
    /// One comparison if `value` is above all elements, else one more than two binary searches.
    /// Items of one node move.
    pub fn insert(&mut self, value: T) -> Result<bool, Refused<T>>
        // Result.
        ensures added { IfOk result (λ b. b ≡ not (has_equal T.cmp (items self.old) value)) }

        // Contents.
        ensures contains { OnOk result (has_equal T.cmp (items self.new) value ≡ true) }
        ensures ok { OnOk result (items self.new ≡ keep T.cmp (items self.old) value) }

        // Failure.
        ensures given_back { IfErr result (λ e. (e.value ≡ value) × (e.cause ≡ Refusal.Memory)) }
        ensures unchanged { OnErr result (self.new ≡ self.old) }

        // Memory.
        ensures no_memory { has_equal T.cmp (items self.old) value ≡ true → IsOk result }

        // Nodes.
        ensures nodes { OnOk result (self.new.nodes ≡ nodes_kept T.cmp self.old value) }
        ensures size { self.new.size ≡ self.old.size }
    {
        let spot = locate_from_end(&self.spine, &value);
        if spot.found {
            return Ok(false);
        }
        self.spine.insert(spot, value)?;
        Ok(true)
    }

    /// Inserts `value`, replacing the equal element, if any, and returns the replaced one.
    ///
    /// A replacement allocates nothing.
    ///
    /// # Examples
    ///
    /// ```
    /// let mut set = BTreeSet::from_iter(alloc, [7])?;
    /// let old = set.replace(7)?;
    /// assert_eq!(rt; old, Some(7));
    /// ```
    ///
    /// # Errors
    ///
    /// Fails with `Memory` only. A failed call returns `value` in the error and changes nothing.
    ///
    /// # Complexity
    ///
    /// Two binary searches. Items of one node move.
    pub fn replace(&mut self, value: T) -> Result<Option<T>, Refused<T>>
        // Result.
        ensures old { IfOk result (λ o. o ≡ equal_element T.cmp (items self.old) value) }

        // Contents.
        ensures contains { OnOk result (has_equal T.cmp (items self.new) value ≡ true) }
        ensures ok { OnOk result (items self.new ≡ put T.cmp (items self.old) value) }

        // Failure.
        ensures given_back { IfErr result (λ e. (e.value ≡ value) × (e.cause ≡ Refusal.Memory)) }
        ensures unchanged { OnErr result (self.new ≡ self.old) }

        // Memory.
        ensures no_memory { has_equal T.cmp (items self.old) value ≡ true → IsOk result }

        // Nodes.
        ensures nodes { OnOk result (self.new.nodes ≡ nodes_put T.cmp self.old value) }
        ensures size { self.new.size ≡ self.old.size }
    {
        let spot = locate(&self.spine, &value);
        if spot.found {
            return Ok(Some(self.spine.replace(spot, value)));
        }
        self.spine.insert(spot, value)?;
        Ok(None)
    }

    /// Removes the element equal to the value and returns it, if any.
    ///
    /// It allocates nothing.
    ///
    /// # Examples
    ///
    /// ```
    /// let mut set = BTreeSet::from_iter(alloc, [7, 8])?;
    /// assert!(rt; set.take(&7) == Some(7) && set.take(&7).is_none());
    /// ```
    ///
    /// # Complexity
    ///
    /// Two binary searches.
    pub fn take<Q: UniqueKey<T> + Drop>(&mut self, value: Q) -> Option<T>
        // Result.
        ensures value { result ≡ equal_element Q.order (items self.old) value }

        // Contents.
        ensures gone { has_equal Q.order (items self.new) value ≡ false }
        ensures rest { items self.new ≡ without Q.order (items self.old) value }

        // Nodes.
        ensures nodes { self.new.nodes ≡ nodes_without Q.order self.old value }
        ensures size { self.new.size ≡ self.old.size }
    {
        let spot = locate(&self.spine, value);
        if spot.found {
            Some(self.spine.remove(spot))
        } else {
            None
        }
    }

    /// Removes the element equal to the value, and returns whether there was one.
    ///
    /// It allocates nothing.
    ///
    /// ```
    /// let mut set = BTreeSet::from_iter(alloc, [7, 8])?;
    /// assert!(rt; set.remove(&7) && !set.remove(&7));
    /// ```
    pub fn remove<Q: UniqueKey<T> + Drop>(&mut self, value: Q) -> bool
        // Result.
        ensures removed { result ≡ has_equal Q.order (items self.old) value }

        // Contents.
        ensures gone { has_equal Q.order (items self.new) value ≡ false }
        ensures rest { items self.new ≡ without Q.order (items self.old) value }

        // Nodes.
        ensures nodes { self.new.nodes ≡ nodes_without Q.order self.old value }
        ensures size { self.new.size ≡ self.old.size }
    {
        self.take(value).is_some()
    }

    /// Removes all elements, and keeps one empty node.
    ///
    /// It allocates nothing.
    ///
    /// ```
    /// let mut set = BTreeSet::from_iter(alloc, [10, 20])?;
    /// set.clear();
    /// assert!(rt; set.is_empty());
    /// ```
    pub fn clear(&mut self)
        ensures empty { self.new.nodes ≡ [] ∷ [] }
        ensures size { self.new.size ≡ self.old.size }
    {
        self.spine.clear();
    }
}
