//! What becomes of an event that is offered to a replica: it may be late, repeated or early.
ghost use Rattle.indexset_core.specs.Clones.{AreIdentical};
ghost use Rattle.std.specs.Prelude.{◌≡◌, Some, IfErr, IfOk, OnErr, OnOk};
ghost use Rattle.indexset_events.specs.Replay.{event_number};
ghost use Rattle.indexset_replica.specs.Delivery.{delivered, delivery_of, FailsWith, IsDelivery};

use super::Replica;
use indexset_core::refusal::Refusal;
use indexset_events::change::ChangeEvent;

/// What became of an event that was offered to a replica.
///
/// ```
/// # use indexset::replica::Delivery;
/// let mut copy: Replica<u64> = Replica::new(alloc, 4);
/// let event = ChangeEvent::CreateNode { event_id: Id::from(6), max_value: 5 };
/// assert_eq!(rt; copy.offer(&event)?, Delivery::Gap);
/// ```
#[derive(Clone, Copy, Debug, PartialEq, Eq)]
pub enum Delivery {
    /// The event was the next, and is applied.
    Applied,
    /// An event with this number was applied, or it precedes the first one: it can be dropped.
    Duplicate,
    /// Events between the last applied one and this one are missing: it can be offered again later.
    Gap,
}

impl<T: Ord + Clone + Drop> Replica<T> {
    /// Applies the event if it is the next, and returns what became of it.
    ///
    /// An event that is not the next changes nothing.
    ///
    /// # Examples
    ///
    /// ```
    /// # use indexset::replica::Delivery;
    /// let first = ChangeEvent::CreateNode { event_id: Id::from(0), max_value: 5 };
    /// let third = ChangeEvent::RemoveNode { event_id: Id::from(2), max_value: 5 };
    /// let mut copy: Replica<u64> = Replica::new(alloc, 0);
    /// assert!(rt; copy.offer(&first)? == Delivery::Applied);
    /// assert!(rt; copy.offer(&first)? == Delivery::Duplicate);
    /// assert!(rt; copy.offer(&third)? == Delivery::Gap && copy.next() == 1);
    /// ```
    ///
    /// # Errors
    ///
    /// Fails if `apply` fails at the next event, with its error, which is not `Gap`. A failed call
    /// changes nothing.
    ///
    /// # Complexity
    ///
    /// Takes constant time for an event that is not the next, and the time of `apply` for the next.
    pub fn offer(&mut self, event: &ChangeEvent<T>) -> Result<Delivery, Refusal>
        // Result.
        ensures delivery { IfOk result (λ d. d
            ≡ delivery_of self.old.next (event_number event.now)) }

        // Contents.
        ensures cloned { OnOk result (IsDelivery T.cmp T.is_clone self.old event.now self.new) }
        ensures delivered { AreIdentical T.is_clone
            → OnOk result (delivered T.cmp self.old event.now ≡ Some self.new) }

        // Failure.
        ensures refusal { IfErr result (λ e. FailsWith T.cmp self.old event.now e) }
        ensures unchanged { OnErr result (self.new ≡ self.old) }
    {
        let number = event.id().inner();
        if number < self.next {
            return Ok(Delivery::Duplicate);
        }
        if number > self.next {
            return Ok(Delivery::Gap);
        }
        self.apply(event)?;
        Ok(Delivery::Applied)
    }
}
