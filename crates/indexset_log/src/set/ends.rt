//! The first and the last item, and calls that remove them.
ghost use Rattle.std.specs.Prelude.{◌≡◌, ◌↔◌, ◌-◌, ◌<◌, ◌≤◌, [], length, slice_get, false, IfOk};
ghost use Rattle.std.specs.Prelude.{OnOk, IfErr, OnErr, IsOk, IfSome, IsSome, MatchOption};
ghost use Rattle.std.specs.Option.{option_copied};
ghost use Rattle.indexset_core.specs.Nodes.{concat, IsLawful};
ghost use Rattle.indexset_core.specs.Order.{above, below};
ghost use Rattle.indexset_log.specs.Changed.{Changed, Fits, ItemEvents};
ghost use Rattle.indexset_log.specs.Changed.{first_removal, last_removal, refusal_of};
ghost use Rattle.indexset_events.specs.Ends.{IsItemAt};

use super::BTreeSet;
use indexset_core::node::NodeLike;
use indexset_core::refusal::Refusal;
use indexset_events::change::ChangeEvent;

impl<T: Ord + Clone + Drop, Node: NodeLike<T>> BTreeSet<T, Node> {
    /// Returns the first item, which is the least, if any.
    ///
    /// # Examples
    ///
    /// ```
    /// let tree: set::BTreeSet<u64, Vec<u64>> = set::BTreeSet::from_iter(alloc, [5, 10, 15])?;
    /// assert!(rt; tree.first() == Some(&5));
    /// ```
    ///
    /// # Complexity
    ///
    /// Takes constant time.
    pub fn first(&self) -> Option<&T>
        ensures element { option_copied result ≡ slice_get (concat self.now.nodes) 0 }
        ensures variant { IsSome result ↔ (0 < length (concat self.now.nodes)) }
        ensures least { IfSome result (λ least. below T.cmp (concat self.now.nodes) least.now
            ≡ []) }
    {
        self.iter().next()
    }

    /// Returns the last item, which is the greatest, if any.
    ///
    /// # Examples
    ///
    /// ```
    /// let tree: set::BTreeSet<u64, Vec<u64>> = set::BTreeSet::from_iter(alloc, [5, 10, 15])?;
    /// assert!(rt; tree.last() == Some(&15));
    /// ```
    ///
    /// # Complexity
    ///
    /// Takes constant time.
    pub fn last(&self) -> Option<&T>
        ensures element { option_copied result ≡ slice_get (concat self.now.nodes)
            (length (concat self.now.nodes) - 1) }
        ensures variant { IsSome result ↔ (0 < length (concat self.now.nodes)) }
        ensures greatest { IfSome result (λ greatest. above T.cmp
            (concat self.now.nodes) greatest.now ≡ []) }
    {
        self.iter().next_back()
    }

    /// Removes the least item and returns it, if any, with the events.
    ///
    /// The events are those of `remove_cdc` of that item.
    ///
    /// # Examples
    ///
    /// ```
    /// let mut tree: set::BTreeSet<u64, Vec<u64>> = set::BTreeSet::from_iter(alloc, [5, 10, 15])?;
    /// let (removed, events) = tree.pop_first_cdc()?;
    /// assert!(rt; removed == Some(5) && events.len() == 1);
    /// ```
    ///
    /// # Errors
    ///
    /// Fails with `Numbers` if the events do not fit the counter, else with `Memory`. A failed call
    /// changes nothing.
    pub fn pop_first_cdc(&mut self) -> Result<(Option<T>, Vec<ChangeEvent<T>>), Refusal>
        // Result.
        ensures answer { IfOk result (λ r. r.0 ≡ slice_get (concat self.old.nodes) 0) }
        ensures events { IfOk result (λ r. ItemEvents T.cmp T.is_clone self.old self.new
            (first_removal T.cmp self.old) r.1.items) }

        // Contents.
        ensures changed { OnOk result (Changed T.cmp self.old self.new
            (first_removal T.cmp self.old)) }

        // Failure.
        ensures refusal { IfErr result (λ e. e ≡ refusal_of self.old
            (first_removal T.cmp self.old)) }
        ensures unchanged { OnErr result (self.new ≡ self.old) }

        // Memory.
        ensures no_event { (first_removal T.cmp self.old).events ≡ [] → IsOk result }
    {
        let place = self.first_item_place();
        self.remove_from_cdc(place)
    }

    /// Removes the least item and returns it, if any.
    ///
    /// It consumes as many event numbers as `pop_first_cdc`, and allocates only if it merges two
    /// nodes of a type that allocates.
    ///
    /// # Examples
    ///
    /// ```
    /// let mut tree: set::BTreeSet<u64, Vec<u64>> = set::BTreeSet::from_iter(alloc, [5, 10])?;
    /// assert!(rt; tree.pop_first()? == Some(5) && tree.pop_first()? == Some(10));
    /// assert!(rt; tree.pop_first()?.is_none());
    /// ```
    ///
    /// # Errors
    ///
    /// Fails with `Numbers` if the event numbers do not fit the counter, else with `Memory`, only
    /// if it allocates. A failed call changes nothing.
    pub fn pop_first(&mut self) -> Result<Option<T>, Refusal>
        // Result.
        ensures answer { IfOk result (λ item. item ≡ slice_get (concat self.old.nodes) 0) }

        // Contents.
        ensures changed { OnOk result (Changed T.cmp self.old self.new
            (first_removal T.cmp self.old)) }

        // Failure.
        ensures refusal { IfErr result (λ e. e ≡ refusal_of self.old
            (first_removal T.cmp self.old)) }
        ensures unchanged { OnErr result (self.new ≡ self.old) }

        // Memory.
        ensures no_event { (first_removal T.cmp self.old).events ≡ [] → IsOk result }
        ensures no_memory { length (first_removal T.cmp self.old).events ≤ 1
            → Fits self.old (first_removal T.cmp self.old) → IsOk result }
        ensures never { Node.allocates ≡ false → Fits self.old (first_removal T.cmp self.old)
            → IsOk result }
    {
        let place = self.first_item_place();
        self.remove_from(place)
    }

    /// Removes the greatest item and returns it, if any, with the events.
    ///
    /// The events are those of `remove_cdc` of that item.
    ///
    /// # Examples
    ///
    /// ```
    /// let mut tree: set::BTreeSet<u64, Vec<u64>> = set::BTreeSet::from_iter(alloc, [5, 10, 15])?;
    /// let (removed, events) = tree.pop_last_cdc()?;
    /// assert!(rt; removed == Some(15) && events.len() == 1);
    /// ```
    ///
    /// # Errors
    ///
    /// Fails with `Numbers` if the events do not fit the counter, else with `Memory`. A failed call
    /// changes nothing.
    pub fn pop_last_cdc(&mut self) -> Result<(Option<T>, Vec<ChangeEvent<T>>), Refusal>
        // Result.
        ensures answer { IfOk result (λ r.
            r.0 ≡ slice_get (concat self.old.nodes) (length (concat self.old.nodes) - 1)) }
        ensures events { IfOk result (λ r. ItemEvents T.cmp T.is_clone self.old self.new
            (last_removal T.cmp self.old) r.1.items) }

        // Contents.
        ensures changed { OnOk result (Changed T.cmp self.old self.new
            (last_removal T.cmp self.old)) }

        // Failure.
        ensures refusal { IfErr result (λ e. e ≡ refusal_of self.old
            (last_removal T.cmp self.old)) }
        ensures unchanged { OnErr result (self.new ≡ self.old) }

        // Memory.
        ensures no_event { (last_removal T.cmp self.old).events ≡ [] → IsOk result }
    {
        let place = self.last_item_place();
        self.remove_from_cdc(place)
    }

    /// Removes the greatest item and returns it, if any.
    ///
    /// It consumes as many event numbers as `pop_last_cdc`, and allocates only if it merges two
    /// nodes of a type that allocates.
    ///
    /// # Examples
    ///
    /// ```
    /// let mut tree: set::BTreeSet<u64, Vec<u64>> = set::BTreeSet::from_iter(alloc, [5, 10])?;
    /// assert!(rt; tree.pop_last()? == Some(10) && tree.pop_last()? == Some(5));
    /// assert!(rt; tree.pop_last()?.is_none());
    /// ```
    ///
    /// # Errors
    ///
    /// Fails with `Numbers` if the event numbers do not fit the counter, else with `Memory`, only
    /// if it allocates. A failed call changes nothing.
    pub fn pop_last(&mut self) -> Result<Option<T>, Refusal>
        // Result.
        ensures answer { IfOk result (λ item.
            item ≡ slice_get (concat self.old.nodes) (length (concat self.old.nodes) - 1)) }

        // Contents.
        ensures changed { OnOk result (Changed T.cmp self.old self.new
            (last_removal T.cmp self.old)) }

        // Failure.
        ensures refusal { IfErr result (λ e. e ≡ refusal_of self.old
            (last_removal T.cmp self.old)) }
        ensures unchanged { OnErr result (self.new ≡ self.old) }

        // Memory.
        ensures no_event { (last_removal T.cmp self.old).events ≡ [] → IsOk result }
        ensures no_memory { length (last_removal T.cmp self.old).events ≤ 1
            → Fits self.old (last_removal T.cmp self.old) → IsOk result }
        ensures never { Node.allocates ≡ false → Fits self.old (last_removal T.cmp self.old)
            → IsOk result }
    {
        let place = self.last_item_place();
        self.remove_from(place)
    }

    // Returns the place of the first item, if any.
    fn first_item_place(&self) -> Option<(usize, usize)>
        ensures place { MatchOption result (concat self.now.nodes ≡ [])
            (λ p. IsItemAt self.now.nodes p 0) }
        ensures lawful { IsLawful T.cmp self.now.size self.now.nodes }
        ensures two { 2 ≤ self.now.size }
    {
        if self.nodes.is_empty() {
            return None;
        }
        Some((0, 0))
    }

    // Returns the place of the last item, if any.
    fn last_item_place(&self) -> Option<(usize, usize)>
        ensures place { MatchOption result (concat self.now.nodes ≡ [])
            (λ p. IsItemAt self.now.nodes p (length (concat self.now.nodes) - 1)) }
        ensures lawful { IsLawful T.cmp self.now.size self.now.nodes }
        ensures two { 2 ≤ self.now.size }
    {
        if self.nodes.is_empty() {
            return None;
        }
        let last = self.nodes.len() - 1;
        Some((last, self.nodes[last].len() - 1))
    }
}
