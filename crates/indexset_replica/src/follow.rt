//! Events of a list, which are offered to a replica in the order of their places.
ghost use Rattle.indexset_core.specs.Clones.{AreIdentical};
ghost use Rattle.std.specs.Prelude.{◌≡◌, ◌<◌, ◌≤◌, ℕ, List, IfErr, OnOk, OnErr, length, take};
ghost use Rattle.std.specs.List.{All};
ghost use Rattle.indexset_replica.specs.Delivery.{events_at, HasStopped, IsAt, IsDelivered};
ghost use Rattle.indexset_replica.specs.Delivery.{IsEventLog, IsOffered, IsPrefix};

use crate::Replica;
use indexset_core::refusal::Refusal;
use indexset_events::change::ChangeEvent;

impl<T: Ord + Clone + Drop> Replica<T> {
    /// Offers the events at places of a list in order: it applies each that is the next.
    ///
    /// Each place must be within the list.
    ///
    /// Let the events be numbered without a gap and apply to some nodes in order, and let the
    /// replica have the nodes after the first j of them. It then has the nodes after the first m,
    /// and expects event m: m is the greatest number for which j, j + 1, .. m - 1 occur among the
    /// places in this order. So it always has the nodes after some prefix of the events, and those
    /// after all events if all occur in order among the places. The items are identical to those of
    /// the events if clones are identical to their sources, and are copies of them otherwise:
    /// `laws::delivery` states it for both.
    ///
    /// # Examples
    ///
    /// ```
    /// // The first event comes twice, and the second before it: that one is passed over.
    /// let first = ChangeEvent::CreateNode { event_id: Id::from(0), max_value: 5 };
    /// let second =
    ///     ChangeEvent::InsertAt { event_id: Id::from(1), max_value: 5, value: 7, index: 1 };
    /// let mut copy = Replica::new(alloc, 0);
    /// copy.follow([first, second].as_slice(), [1, 0, 0].as_slice())?;
    /// assert!(rt; copy.len() == 1 && copy.next() == 1);
    /// ```
    ///
    /// # Errors
    ///
    /// Fails with the first error of `offer`; the events before stay applied. For events as above
    /// that error is `Memory`, and the replica has the nodes after a prefix.
    ///
    /// # Complexity
    ///
    /// Costs as `offer` for each place.
    pub fn follow(&mut self, events: &[ChangeEvent<T>], order: &[usize]) -> Result<(), Refusal>
        requires inside { All (λ p. p < length events.now) order.now }

        // Contents.
        ensures offered { OnOk result (IsOffered T.cmp T.is_clone self.old
            (events_at events.now order.now) self.new) }
        ensures delivery { AreIdentical T.is_clone → (s j : ℕ) (ns : List (List T))
            → IsEventLog T.cmp s ns events.now → IsAt T.cmp s ns events.now j self.old
            → OnOk result (IsDelivered T.cmp s ns events.now j order.now self.new) }
        ensures prefix { AreIdentical T.is_clone → (s : ℕ) (ns : List (List T))
            → IsEventLog T.cmp s ns events.now
            → IsPrefix T.cmp s ns events.now self.old
            → IsPrefix T.cmp s ns events.now self.new }

        // Failure.
        ensures stopped { IfErr result (λ e. HasStopped T.cmp T.is_clone self.old
            (events_at events.now order.now) e self.new) }
        ensures partly { AreIdentical T.is_clone → (s j : ℕ) (ns : List (List T))
            → IsEventLog T.cmp s ns events.now → IsAt T.cmp s ns events.now j self.old
            → OnErr result ((k : ℕ) × (k ≤ length order.now)
            × IsDelivered T.cmp s ns events.now j (take k order.now) self.new) }

        // Memory.
        ensures memory_alone { (s j : ℕ) (ns : List (List T)) → IsEventLog T.cmp s ns events.now
            → IsAt T.cmp s ns events.now j self.old
            → IfErr result (λ e. e ≡ Refusal.Memory) }
    {
        for place in order {
            self.offer(&events[*place])?;
        }
        Ok(())
    }
}
