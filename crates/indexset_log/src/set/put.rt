//! Insertion of items.
ghost use Rattle.std.specs.Prelude.{◌≡◌, true, not, is_none};
ghost use Rattle.std.specs.Prelude.{IfOk, OnOk, IfErr, OnErr, IsOk, IfSome};
ghost use Rattle.indexset_core.specs.Nodes.{concat};
ghost use Rattle.indexset_core.specs.Order.{equal_element, has_equal};
ghost use Rattle.indexset_log.specs.Changed.{Changed, ItemEvents, checked_put_change};
ghost use Rattle.indexset_log.specs.Changed.{put_change, refusal_of};

use super::BTreeSet;
use crate::insert_plan::finds_equal;
use indexset_core::node::NodeLike;
use indexset_core::refusal::Refused;
use indexset_events::change::ChangeEvent;

impl<T: Ord + Clone + Drop, Node: NodeLike<T>> BTreeSet<T, Node> {
    /// Inserts an item, replacing an equal one, and returns that one, if any, with the events.
    ///
    /// # Examples
    ///
    /// ```
    /// let mut tree: set::BTreeSet<u64, Vec<u64>> = set::BTreeSet::new(alloc);
    /// let (old, events) = tree.put_cdc(5)?;
    /// let made = ChangeEvent::CreateNode { event_id: Id::from(0), max_value: 5 };
    /// assert!(rt; old.is_none() && events.as_slice() == [made].as_slice());
    /// ```
    ///
    /// # Errors
    ///
    /// Fails with `Numbers` if the events do not fit the counter, else with `Memory`. A failed call
    /// returns the item in the error and changes nothing.
    pub fn put_cdc(&mut self, value: T) -> Result<(Option<T>, Vec<ChangeEvent<T>>), Refused<T>>
        // Result.
        ensures answer { IfOk result (λ r. r.0 ≡ equal_element T.cmp
            (concat self.old.nodes) value) }
        ensures events { IfOk result (λ r. ItemEvents T.cmp T.is_clone self.old self.new
            (put_change T.cmp self.old value) r.1.items) }

        // Contents.
        ensures contains { OnOk result (has_equal T.cmp (concat self.new.nodes) value ≡ true) }
        ensures changed { OnOk result (Changed T.cmp self.old self.new
            (put_change T.cmp self.old value)) }

        // Failure.
        ensures refusal { IfErr result (λ e. e.cause ≡ refusal_of self.old
            (put_change T.cmp self.old value)) }
        ensures given_back { IfErr result (λ e. e.value ≡ value) }
        ensures unchanged { OnErr result (self.new ≡ self.old) }
    {
        let aim = self.aim(&value);
        self.put_cdc_at(aim, value)
    }

    /// Inserts an item if no equal one is present, and returns the events.
    ///
    /// Returns `None` if an equal item is present: the call then drops the item, allocates nothing,
    /// consumes no event number and changes nothing.
    ///
    /// # Examples
    ///
    /// ```
    /// let mut tree: set::BTreeSet<u64, Vec<u64>> = set::BTreeSet::new(alloc);
    /// assert!(rt; tree.put_cdc_checked(5)?.is_some_and(|events| events.len() == 1));
    /// assert!(rt; tree.put_cdc_checked(5)?.is_none());
    /// ```
    ///
    /// # Errors
    ///
    /// Fails with `Numbers` if the events do not fit the counter, else with `Memory`. A failed call
    /// returns the item in the error and changes nothing.
    #[tactic(auto, unfolding(indexset_core::specs::Order::keep, indexset_events::specs::Edits::with_checked_put, indexset_events::specs::Table::checked_put_events))]
    pub fn put_cdc_checked(&mut self, value: T) -> Result<Option<Vec<ChangeEvent<T>>>, Refused<T>>
        // Result.
        ensures answer { IfOk result (λ r. is_none r ≡ has_equal T.cmp
            (concat self.old.nodes) value) }
        ensures events { IfOk result (λ r. IfSome r (λ events.
            ItemEvents T.cmp T.is_clone self.old self.new
            (checked_put_change T.cmp self.old value) events.items)) }

        // Contents.
        ensures contains { OnOk result (has_equal T.cmp (concat self.new.nodes) value ≡ true) }
        ensures changed { OnOk result (Changed T.cmp self.old self.new
            (checked_put_change T.cmp self.old value)) }

        // Failure.
        ensures refusal { IfErr result (λ e.
            e.cause ≡ refusal_of self.old (checked_put_change T.cmp self.old value)) }
        ensures given_back { IfErr result (λ e. e.value ≡ value) }
        ensures unchanged { OnErr result (self.new ≡ self.old) }

        // Memory.
        ensures no_event { has_equal T.cmp (concat self.old.nodes) value ≡ true → IsOk result }
    {
        let aim = self.aim(&value);
        if finds_equal(&aim) {
            return Ok(None);
        }
        match self.put_cdc_at(aim, value) {
            Ok((_, events)) => Ok(Some(events)),
            Err(refused) => Err(refused),
        }
    }

    /// Inserts an item, replacing an equal one, and returns that one, if any.
    ///
    /// It consumes as many event numbers as `put_cdc`.
    ///
    /// # Examples
    ///
    /// ```
    /// let mut tree: set::BTreeSet<u64, Vec<u64>> = set::BTreeSet::new(alloc);
    /// assert!(rt; tree.put(5)?.is_none() && tree.put(5)? == Some(5));
    /// ```
    ///
    /// # Errors
    ///
    /// Fails with `Numbers` if the event numbers do not fit the counter, else with `Memory`. A
    /// failed call returns the item in the error and changes nothing.
    pub fn put(&mut self, value: T) -> Result<Option<T>, Refused<T>>
        // Result.
        ensures answer { IfOk result (λ old. old ≡ equal_element T.cmp
            (concat self.old.nodes) value) }

        // Contents.
        ensures contains { OnOk result (has_equal T.cmp (concat self.new.nodes) value ≡ true) }
        ensures changed { OnOk result (Changed T.cmp self.old self.new
            (put_change T.cmp self.old value)) }

        // Failure.
        ensures refusal { IfErr result (λ e. e.cause ≡ refusal_of self.old
            (put_change T.cmp self.old value)) }
        ensures given_back { IfErr result (λ e. e.value ≡ value) }
        ensures unchanged { OnErr result (self.new ≡ self.old) }
    {
        let aim = self.aim(&value);
        self.put_at(aim, value)
    }

    /// Inserts an item if no equal one is present, and returns true.
    ///
    /// Returns false if an equal item is present: the call then drops the item, allocates nothing,
    /// consumes no event number and changes nothing.
    ///
    /// # Examples
    ///
    /// ```
    /// let mut tree: set::BTreeSet<u64, Vec<u64>> = set::BTreeSet::new(alloc);
    /// tree.insert(5)?;
    /// assert!(rt; tree.contains(&5) && tree.events_issued() == 1);
    /// ```
    ///
    /// # Errors
    ///
    /// Fails with `Numbers` if the event numbers do not fit the counter, else with `Memory`. A
    /// failed call returns the item in the error and changes nothing.
    #[tactic(auto, unfolding(indexset_core::specs::Order::keep, indexset_events::specs::Edits::with_checked_put, indexset_events::specs::Table::checked_put_events))]
    pub fn insert(&mut self, value: T) -> Result<bool, Refused<T>>
        // Result.
        ensures answer { IfOk result (λ r. r ≡ not (has_equal T.cmp
            (concat self.old.nodes) value)) }

        // Contents.
        ensures contains { OnOk result (has_equal T.cmp (concat self.new.nodes) value ≡ true) }
        ensures changed { OnOk result (Changed T.cmp self.old self.new
            (checked_put_change T.cmp self.old value)) }

        // Failure.
        ensures refusal { IfErr result (λ e.
            e.cause ≡ refusal_of self.old (checked_put_change T.cmp self.old value)) }
        ensures given_back { IfErr result (λ e. e.value ≡ value) }
        ensures unchanged { OnErr result (self.new ≡ self.old) }

        // Memory.
        ensures no_event { has_equal T.cmp (concat self.old.nodes) value ≡ true → IsOk result }
    {
        let aim = self.aim(&value);
        if finds_equal(&aim) {
            return Ok(false);
        }
        match self.put_at(aim, value) {
            Ok(_) => Ok(true),
            Err(refused) => Err(refused),
        }
    }
}
