//! What a replica holds after events were offered to it, in any order, with losses and repeats.

ghost use Rattle.indexset_core.specs.Clones.{AreIdentical};
ghost use Rattle.std.specs.Prelude.{◌≡◌, ◌↔◌, ◌<◌, ◌≤◌, ◌+◌, ◌-◌, ℕ, List, [], ◌∷◌, ◌++◌, Some};
ghost use Rattle.std.specs.Prelude.{Contains, length, map, take};
ghost use Rattle.std.specs.List.{All, fold};
ghost use Rattle.std.specs.Option.{option_and_then};
ghost use Rattle.indexset_events.specs.Replay.{event_number, IsNumberedFrom};
ghost use Rattle.indexset_events.specs.declared.change.ChangeEvent.{ChangeEvent};
ghost use Rattle.indexset_replica.specs.Delivery.{delivered, events_at, numbers_from, offered};
ghost use Rattle.indexset_replica.specs.Delivery.{CopiesAll, CopiesPrefix, FailsWith, IsAlike};
ghost use Rattle.indexset_replica.specs.Delivery.{IsCaughtUp, IsDeliveredUpTo, IsDelivery};
ghost use Rattle.indexset_replica.specs.Delivery.{IsEventLog, IsOffered, IsPrefix, IsSubsequence};
ghost use Rattle.indexset_replica.specs.Replica.{ReplicaState};

use indexset_core::refusal::Refusal;

/// However the events of a log arrive, a replica that is offered them has the nodes after a prefix.
///
/// The events of the log are numbered from s without a gap, and apply to the nodes `ns` in order.
/// The replica has the nodes after a prefix of them, as a new one or a snapshot. Some of them
/// arrive, in any order, with losses and repeats, and are offered to it. None fails but for memory.
/// The replica then has the nodes after a prefix, and expects event m: m is the greatest number for
/// which all events from the one that it expected to m - 1 arrived, each after the one before it.
pub fn offers_leave_a_prefix<T: Ord>()
    ensures { (s : ℕ) (ns : List (List T)) (log arriving : List (ChangeEvent T))
        (old : ReplicaState T)
        → IsEventLog T.cmp s ns log → IsPrefix T.cmp s ns log old → All (Contains log) arriving
        → (new : ReplicaState T) × (offered T.cmp old arriving ≡ Some new)
        × IsPrefix T.cmp s ns log new
        × ((m : ℕ) → IsDeliveredUpTo old.next (map event_number arriving) m → new.next ≡ m) }
{}

/// The same at every type: the replica has copies of the nodes after a prefix.
///
/// If it had copies of the nodes of another replica, it then has copies of those that the other has
/// after the same events. The only error of an event is `Memory`.
pub fn offers_leave_copies_of_a_prefix<T: Ord + Clone>()
    ensures alike { (s : ℕ) (ns : List (List T)) (log arriving : List (ChangeEvent T))
        (source old new : ReplicaState T)
        → IsEventLog T.cmp s ns log → IsPrefix T.cmp s ns log source → All (Contains log) arriving
        → IsAlike T.cmp T.is_clone source old → IsOffered T.cmp T.is_clone old arriving new
        → (after : ReplicaState T) × (offered T.cmp source arriving ≡ Some after)
        × IsAlike T.cmp T.is_clone after new }
    ensures prefix { (s : ℕ) (ns : List (List T)) (log arriving : List (ChangeEvent T))
        (old new : ReplicaState T)
        → IsEventLog T.cmp s ns log → CopiesPrefix T.cmp T.is_clone s ns log old
        → All (Contains log) arriving → IsOffered T.cmp T.is_clone old arriving new
        → CopiesPrefix T.cmp T.is_clone s ns log new }
    ensures memory { (s : ℕ) (ns : List (List T)) (log : List (ChangeEvent T))
        (old : ReplicaState T) (event : ChangeEvent T) (cause : Refusal)
        → IsEventLog T.cmp s ns log → CopiesPrefix T.cmp T.is_clone s ns log old
        → Contains log event → FailsWith T.cmp old event cause → cause ≡ Refusal.Memory }
{}

/// A replica to which all events arrived in order, from the one that it expected on, has the nodes
/// after all of them.
///
/// `by_number` says the same of a replica that has the nodes after a prefix and expects the event
/// after the last; `copies` and `copies_by_number` say both of copies.
pub fn all_events_arrived<T: Ord + Clone>()
    ensures all { (s : ℕ) (ns : List (List T)) (log arriving : List (ChangeEvent T))
        (old new : ReplicaState T)
        → IsEventLog T.cmp s ns log → IsPrefix T.cmp s ns log old → All (Contains log) arriving
        → IsSubsequence (numbers_from old.next (s + length log - old.next))
        (map event_number arriving)
        → offered T.cmp old arriving ≡ Some new → IsCaughtUp T.cmp s ns log new }
    ensures copies { (s : ℕ) (ns : List (List T)) (log arriving : List (ChangeEvent T))
        (old new : ReplicaState T)
        → IsEventLog T.cmp s ns log → CopiesPrefix T.cmp T.is_clone s ns log old
        → All (Contains log) arriving
        → IsSubsequence (numbers_from old.next (s + length log - old.next))
        (map event_number arriving)
        → IsOffered T.cmp T.is_clone old arriving new
        → CopiesAll T.cmp T.is_clone s ns log new }
    ensures by_number { (s : ℕ) (ns : List (List T)) (log : List (ChangeEvent T))
        (r : ReplicaState T) → IsPrefix T.cmp s ns log r → r.next ≡ s + length log
        → IsCaughtUp T.cmp s ns log r }
    ensures copies_by_number { (s : ℕ) (ns : List (List T)) (log : List (ChangeEvent T))
        (r : ReplicaState T) → CopiesPrefix T.cmp T.is_clone s ns log r
        → r.next ≡ s + length log → CopiesAll T.cmp T.is_clone s ns log r }
{}

/// The number that a replica expects never decreases.
pub fn offers_only_advance<T: Ord + Clone>()
    ensures { (old new : ReplicaState T) (arriving : List (ChangeEvent T))
        → IsOffered T.cmp T.is_clone old arriving new → old.next ≤ new.next }
{}

/// If clones are identical to their sources, a replica is as after the events themselves.
pub fn offers_of_identical_clones<T: Ord + Clone>()
    ensures { AreIdentical T.is_clone → (old new : ReplicaState T)
        (arriving : List (ChangeEvent T)) → IsOffered T.cmp T.is_clone old arriving new
        → offered T.cmp old arriving ≡ Some new }
{}

/// `follow` is a fold of `offer`s, of which each continues from the replica that the one before it
/// left.
pub fn follow_is_a_fold_of_offers<T: Ord + Clone>()
    ensures fold { (old : ReplicaState T) (arriving : List (ChangeEvent T))
        → offered T.cmp old arriving
        ≡ fold (λ made e. option_and_then (λ r. delivered T.cmp r e) made) (Some old) arriving }
    ensures one { (old new : ReplicaState T) (event : ChangeEvent T)
        → IsOffered T.cmp T.is_clone old (event ∷ []) new
        ↔ IsDelivery T.cmp T.is_clone old event new }
    ensures parts { (old new : ReplicaState T) (before after : List (ChangeEvent T))
        → IsOffered T.cmp T.is_clone old (before ++ after) new
        ↔ ((r : ReplicaState T) × IsOffered T.cmp T.is_clone old before r
        × IsOffered T.cmp T.is_clone r after new) }
{}

/// The events at places of a log are events of the log, and arrive in the order of the places.
///
/// So what the laws above say of events that arrive, by their numbers, holds of `follow`, by the
/// places.
pub fn events_at_places<T>()
    ensures of_log { (log : List (ChangeEvent T)) (order : List ℕ)
        → All (Contains log) (events_at log order) }
    ensures in_order { (s j n : ℕ) (log : List (ChangeEvent T)) (order : List ℕ)
        → IsNumberedFrom s log → All (λ p. p < length log) order
        → IsSubsequence (numbers_from j n) order
        → IsSubsequence (numbers_from (s + j) n) (map event_number (events_at log order)) }
    ensures up_to { (s j m : ℕ) (log : List (ChangeEvent T)) (order : List ℕ)
        → IsNumberedFrom s log → All (λ p. p < length log) order → IsDeliveredUpTo j order m
        → IsDeliveredUpTo (s + j) (map event_number (events_at log order)) (s + m) }
    ensures parts { (k : ℕ) (log : List (ChangeEvent T)) (order : List ℕ)
        → All (λ p. p < length log) order
        → events_at log (take k order) ≡ take k (events_at log order) }
{}
