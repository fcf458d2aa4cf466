//! Calls that remove items.
ghost use Rattle.std.specs.Prelude.{◌≡◌, ◌+◌, ◌<◌, ◌≤◌, [], length, slice_get, Some, false};
ghost use Rattle.std.specs.Prelude.{IfOk, OnOk, IfErr, OnErr, IsOk};
ghost use Rattle.indexset_core.specs.Nodes.{concat, node_at};
ghost use Rattle.indexset_core.specs.Order.{equal_element, has_equal};
ghost use Rattle.indexset_log.specs.Changed.{Changed, Fits, ItemEvents, refusal_of};
ghost use Rattle.indexset_log.specs.Changed.{removal_change, place_removal};
ghost use Rattle.indexset_events.specs.Clones.{AreTableEvents};
ghost use Rattle.indexset_events.specs.Table.{place_removal_count};
ghost use Rattle.indexset_log.specs.PlaceRemoval.{IsItemPlaceInNodes, optional_removal};
ghost use Rattle.indexset_log.specs.PlaceRemoval.{placed_item};
ghost use Rattle.indexset_log.specs.Tree.{refusal_for};

use super::BTreeSet;
use indexset_core::lookup_key::UniqueKey;
use indexset_core::node::NodeLike;
use indexset_core::refusal::Refusal;
use indexset_events::change::ChangeEvent;

impl<T: Ord + Clone + Drop, Node: NodeLike<T>> BTreeSet<T, Node> {
    /// Removes the equal item and returns it, if any, with the events.
    ///
    /// Its node is merged with a neighbour if the two then hold at most half the node size.
    ///
    /// # Examples
    ///
    /// ```
    /// let mut tree: set::BTreeSet<u64, Vec<u64>> = set::BTreeSet::new(alloc);
    /// tree.insert(5)?;
    /// let (removed, events) = tree.remove_cdc(&5)?;
    /// assert!(rt; removed == Some(5) && events.len() == 1);
    /// ```
    ///
    /// # Errors
    ///
    /// Fails with `Numbers` if the events do not fit the counter, else with `Memory`. A failed call
    /// changes nothing.
    pub fn remove_cdc<Q: UniqueKey<T> + Drop>(
        &mut self,
        value: Q,
    ) -> Result<(Option<T>, Vec<ChangeEvent<T>>), Refusal>
        // Result.
        ensures answer { IfOk result (λ r. r.0 ≡ equal_element Q.order (concat self.old.nodes)
            value) }
        ensures events { IfOk result (λ r. ItemEvents T.cmp T.is_clone self.old self.new
            (removal_change Q.order self.old value) r.1.items) }

        // Contents.
        ensures gone { OnOk result (has_equal Q.order (concat self.new.nodes) value ≡ false) }
        ensures changed { OnOk result (Changed T.cmp self.old self.new
            (removal_change Q.order self.old value)) }

        // Failure.
        ensures refusal { IfErr result (λ e. e ≡ refusal_of self.old
            (removal_change Q.order self.old value)) }
        ensures unchanged { OnErr result (self.new ≡ self.old) }

        // Memory.
        ensures no_event { (removal_change Q.order self.old value).events ≡ [] → IsOk result }
    {
        let place = self.place_of(value);
        self.remove_from_cdc(place)
    }

    /// Removes the item at a place and returns it with the events.
    ///
    /// Its node is merged with a neighbour if the two then hold at most half the node size.
    ///
    /// # Examples
    ///
    /// ```
    /// let mut tree: set::BTreeSet<u64, Vec<u64>> = set::BTreeSet::from_iter(alloc, [5, 10, 15])?;
    /// let (removed, events) = tree.remove_at_cdc(0, 1)?;
    /// assert!(rt; removed == 10 && events.len() == 1);
    /// ```
    ///
    /// # Errors
    ///
    /// Fails with `Numbers` if the events do not fit the counter, else with `Memory`. A failed call
    /// changes nothing.
    pub fn remove_at_cdc(
        &mut self,
        node: usize,
        offset: usize,
    ) -> Result<(T, Vec<ChangeEvent<T>>), Refusal>
        requires node { node < length self.old.nodes }
        requires offset { offset < length (node_at self.old.nodes node) }

        // Result.
        ensures item { IfOk result (λ r. slice_get (node_at self.old.nodes node) offset
            ≡ Some r.0) }
        ensures events { IfOk result (λ r. ItemEvents T.cmp T.is_clone self.old self.new
            (place_removal self.old node offset r.0) r.1.items) }

        // Contents.
        ensures changed { IfOk result (λ r. Changed T.cmp self.old self.new
            (place_removal self.old node offset r.0)) }

        // Failure.
        ensures refusal { IfErr result (λ e. e ≡ refusal_for self.old.next
            (place_removal_count self.old.size self.old.nodes node offset)) }
        ensures unchanged { OnErr result (self.new ≡ self.old) }
    {
        let join = self.merge_after(node);
        self.check_removal(join)?;
        let events = self.removal_log(node, offset, join)?;
        let item = self.take(node, offset, join)?;
        Ok((item, events))
    }

    /// Removes the equal item and returns it, if any.
    ///
    /// It consumes as many event numbers as `remove_cdc`, and allocates only if it merges two nodes
    /// of a type that allocates.
    ///
    /// # Examples
    ///
    /// ```
    /// let mut tree: set::BTreeSet<u64, Vec<u64>> = set::BTreeSet::from_iter(alloc, [5, 10, 15])?;
    /// assert!(rt; tree.remove(&10)? == Some(10) && tree.remove(&10)?.is_none());
    /// ```
    ///
    /// # Errors
    ///
    /// Fails with `Numbers` if the event numbers do not fit the counter, else with `Memory`, only
    /// if it allocates. A failed call changes nothing.
    pub fn remove<Q: UniqueKey<T> + Drop>(&mut self, value: Q) -> Result<Option<T>, Refusal>
        // Result.
        ensures answer { IfOk result (λ item.
            item ≡ equal_element Q.order (concat self.old.nodes) value) }

        // Contents.
        ensures gone { OnOk result (has_equal Q.order (concat self.new.nodes) value ≡ false) }
        ensures changed { OnOk result (Changed T.cmp self.old self.new
            (removal_change Q.order self.old value)) }

        // Failure.
        ensures refusal { IfErr result (λ e. e ≡ refusal_of self.old
            (removal_change Q.order self.old value)) }
        ensures unchanged { OnErr result (self.new ≡ self.old) }

        // Memory.
        ensures no_event { (removal_change Q.order self.old value).events ≡ [] → IsOk result }
        ensures no_memory { length (removal_change Q.order self.old value).events ≤ 1
            → Fits self.old (removal_change Q.order self.old value) → IsOk result }
        ensures never { Node.allocates ≡ false
            → Fits self.old (removal_change Q.order self.old value) → IsOk result }
    {
        let place = self.place_of(value);
        self.remove_from(place)
    }

    /// Removes the item at a place and returns it.
    ///
    /// It consumes as many event numbers as `remove_at_cdc`, and allocates only if it merges two
    /// nodes of a type that allocates.
    ///
    /// # Examples
    ///
    /// ```
    /// let mut tree: set::BTreeSet<u64, Vec<u64>> = set::BTreeSet::from_iter(alloc, [5, 10, 15])?;
    /// assert!(rt; tree.remove_at(0, 1)? == 10);
    /// ```
    ///
    /// # Errors
    ///
    /// Fails with `Numbers` if the event numbers do not fit the counter, else with `Memory`, only
    /// if it allocates. A failed call changes nothing.
    pub fn remove_at(&mut self, node: usize, offset: usize) -> Result<T, Refusal>
        requires node { node < length self.old.nodes }
        requires offset { offset < length (node_at self.old.nodes node) }

        // Result.
        ensures item { IfOk result (λ item. slice_get (node_at self.old.nodes node) offset
            ≡ Some item) }

        // Contents.
        ensures changed { IfOk result (λ item. Changed T.cmp self.old self.new
            (place_removal self.old node offset item)) }

        // Failure.
        ensures refusal { IfErr result (λ e. e ≡ refusal_for self.old.next
            (place_removal_count self.old.size self.old.nodes node offset)) }
        ensures unchanged { OnErr result (self.new ≡ self.old) }

        // Memory.
        ensures no_memory { place_removal_count self.old.size self.old.nodes node offset ≡ 1
            → self.old.next + 1 ≤ u64.MAX → IsOk result }
        ensures never { Node.allocates ≡ false
            → self.old.next + place_removal_count self.old.size self.old.nodes node offset ≤ u64.MAX
            → IsOk result }
    {
        let join = self.merge_after(node);
        self.check_removal(join)?;
        self.take(node, offset, join)
    }

    /// Returns the error that a failed removal of the item at a place would return.
    ///
    /// That is `Numbers` if its event numbers do not fit the counter, else `Memory`.
    ///
    /// ```
    /// // A removal needs a number for its event, and none is left.
    /// let mut tree: set::BTreeSet<u64, Vec<u64>> =
    ///     set::BTreeSet::starting_at(alloc, 256, u64::MAX - 1);
    /// tree.insert(5)?;
    /// assert_eq!(rt; tree.removal_refusal(0, 0), Refusal::Numbers);
    /// ```
    pub fn removal_refusal(&self, node: usize, offset: usize) -> Refusal
        requires node { node < length self.now.nodes }
        requires offset { offset < length (node_at self.now.nodes node) }
        ensures { result ≡ refusal_for self.now.next
            (place_removal_count self.now.size self.now.nodes node offset) }
    {
        // The result does not depend on it.
        let _ = offset;
        match self.check_removal(self.merge_after(node)) {
            Ok(()) => Refusal::Memory,
            Err(cause) => cause,
        }
    }

    // Removes the item at a place, if any, and returns it with the events.
    pub(super) fn remove_from_cdc(
        &mut self,
        place: Option<(usize, usize)>,
    ) -> Result<(Option<T>, Vec<ChangeEvent<T>>), Refusal>
        requires { IsItemPlaceInNodes self.old.nodes place }

        // Result.
        ensures answer { IfOk result (λ r. r.0 ≡ placed_item self.old.nodes place) }
        ensures events { IfOk result (λ r. AreTableEvents T.is_clone self.old.next
            (optional_removal self.old place).events r.1.items) }

        // Failure.
        ensures fits { OnOk result (Fits self.old (optional_removal self.old place)) }
        ensures refusal { IfErr result (λ e. e ≡ refusal_of self.old
            (optional_removal self.old place)) }
        ensures unchanged { OnErr result (self.new ≡ self.old) }

        // Memory.
        ensures no_event { (optional_removal self.old place).events ≡ [] → IsOk result }

        // Nodes.
        ensures tree { OnOk result (self.new ≡ (optional_removal self.old place).tree) }
    {
        // A call without events does not overflow the counter.
        self.recall_invariant();
        match place {
            Some((node, offset)) => {
                let (item, events) = self.remove_at_cdc(node, offset)?;
                Ok((Some(item), events))
            }
            None => Ok((None, Vec::new(*self.nodes.allocator()))),
        }
    }

    // Removes the item at a place, if any, and returns it.
    pub(super) fn remove_from(
        &mut self,
        place: Option<(usize, usize)>,
    ) -> Result<Option<T>, Refusal>
        requires { IsItemPlaceInNodes self.old.nodes place }

        // Result.
        ensures answer { IfOk result (λ item. item ≡ placed_item self.old.nodes place) }

        // Failure.
        ensures fits { OnOk result (Fits self.old (optional_removal self.old place)) }
        ensures refusal { IfErr result (λ e. e ≡ refusal_of self.old
            (optional_removal self.old place)) }
        ensures unchanged { OnErr result (self.new ≡ self.old) }

        // Memory.
        ensures no_event { (optional_removal self.old place).events ≡ [] → IsOk result }
        ensures no_memory { length (optional_removal self.old place).events ≤ 1
            → Fits self.old (optional_removal self.old place) → IsOk result }
        ensures never { Node.allocates ≡ false → Fits self.old (optional_removal self.old place)
            → IsOk result }

        // Nodes.
        ensures tree { OnOk result (self.new ≡ (optional_removal self.old place).tree) }
    {
        // A call without events does not overflow the counter.
        self.recall_invariant();
        match place {
            Some((node, offset)) => Ok(Some(self.remove_at(node, offset)?)),
            None => Ok(None),
        }
    }
}
