//! Properties of the definitions of a replica. Each function does nothing; its contract is the law.

ghost use Rattle.std.specs.Prelude.{◌≡◌, ◌≢◌, ◌↔◌, ◌-◌, ℕ, List, None, Some, map, true, is_some};
ghost use Rattle.indexset_core.specs.Nodes.{IsNodeList};
ghost use Rattle.indexset_core.specs.DoubleEnded.{IsDoubleEnded};
ghost use Rattle.std.specs.List.{AllZip, fold};
ghost use Rattle.std.specs.Map.Iter.{deref};
ghost use Rattle.std.specs.declared.cmp.Ordering.TheVariants.{Equal};
ghost use Rattle.indexset_replica.specs.Copies.{AreClonesEqual, AreCopies, LeadsToCopies};
ghost use Rattle.indexset_replica.specs.Delivery.{awaited, numbers_from};
ghost use Rattle.indexset_replica.specs.Delivery.{IsDeliveredUpTo, IsSubsequence};
ghost use Rattle.indexset_replica.specs.Replica.{apply_refusal, IsClonedStep};
ghost use Rattle.indexset_events.specs.Clones.{IsEventClone};
ghost use Rattle.indexset_events.specs.Replay.{event_number, replay, step, unassigned};
ghost use Rattle.indexset_events.specs.declared.change.ChangeEvent.{ChangeEvent};

pub mod clones;
pub mod delivery;
pub mod positions;

use crate::iter::Iter;

/// An event has no error but `Memory` exactly if its number is the next and not `u64::MAX`, and the
/// event is a step from the nodes.
pub fn refused_unless_a_step<T: Ord>()
    ensures { (ns : List (List T)) (next : ℕ) (e : ChangeEvent T) → IsNodeList T.cmp ns
        → (apply_refusal T.cmp ns next e ≡ None)
        ↔ ((event_number e ≡ next) × (next ≢ u64.MAX) × (is_some (step T.cmp ns e) ≡ true)) }
{}

/// One pass over the places finds the greatest number that is reached, which is unique.
///
/// The expected number is incremented at each place that equals it.
pub fn reached_in_one_pass()
    ensures found { (j : ℕ) (order : List ℕ) → IsDeliveredUpTo j order (fold awaited j order) }
    ensures once { (j m n : ℕ) (order : List ℕ) → IsDeliveredUpTo j order m
        → IsDeliveredUpTo j order n
        → m ≡ n }
{}

/// The replay of clones of events, from nodes with equal items, gives nodes with equal items.
///
/// Clones must equal their sources. From copies of nodes the replay gives copies.
pub fn replay_of_clones<T: Ord + Clone>()
    ensures equal { ((x y : T) → T.is_clone x y → T.cmp x y ≡ Equal)
        → (ns ms after : List (List T)) (es fs : List (ChangeEvent T))
        → AllZip (AllZip (λ x y. T.cmp x y ≡ Equal)) ns ms → AllZip (IsEventClone T.is_clone) es fs
        → replay T.cmp ns es ≡ Some after
        → (r : List (List T)) × (replay T.cmp ms fs ≡ Some r)
        × AllZip (AllZip (λ x y. T.cmp x y ≡ Equal)) after r }
    ensures copies { AreClonesEqual T.cmp T.is_clone
        → (ns ms after : List (List T)) (es fs : List (ChangeEvent T))
        → AreCopies T.cmp T.is_clone ns ms → AllZip (IsEventClone T.is_clone) es fs
        → replay T.cmp ns es ≡ Some after
        → LeadsToCopies T.cmp T.is_clone ms fs after }
{}

/// A replica that copies a tree's nodes still does after it applies a clone of the tree's event.
pub fn step_of_clones<T: Ord + Clone>()
    ensures { AreClonesEqual T.cmp T.is_clone
        → (ns ms after new : List (List T)) (e f : ChangeEvent T)
        → AreCopies T.cmp T.is_clone ns ms → IsEventClone T.is_clone e f
        → step T.cmp ns e ≡ Some after
        → IsClonedStep T.cmp T.is_clone ms (unassigned f) new
        → AreCopies T.cmp T.is_clone after new }
{}

/// Copies of copies are copies, and the items of copies equal those of their sources.
///
/// Nodes are copies of themselves.
pub fn copies_are_equal<T: Ord + Clone>()
    ensures itself { (ns : List (List T)) → AreCopies T.cmp T.is_clone ns ns }
    ensures again { (ns ms ks : List (List T)) → AreCopies T.cmp T.is_clone ns ms
        → AreCopies T.cmp T.is_clone ms ks → AreCopies T.cmp T.is_clone ns ks }
    ensures equal { (ns ms : List (List T)) → AreCopies T.cmp T.is_clone ns ms
        → AllZip (AllZip (λ x y. T.cmp x y ≡ Equal)) ns ms }
{}

/// A property that clones share with their sources, such as their text, copies share with theirs.
pub fn copies_keep<T: Ord + Clone, U>()
    ensures { (f : T → U) → ((x y : T) → T.is_clone x y → f y ≡ f x) → (ns ms : List (List T))
        → AreCopies T.cmp T.is_clone ns ms → map (map f) ms ≡ map (map f) ns }
{}

/// The list of all places has the places from any j on in order.
pub fn all_places_in_turn()
    ensures { (j n : ℕ) → IsSubsequence (numbers_from j (n - j)) (numbers_from 0 n) }
{}

/// Iterators over a replica, or over a range of it, yield each item once.
///
/// They do so for every sequence of calls of `next` and `next_back`, and then return `None`.
pub fn iterators_yield_each_item_once<'a, T: 'a>()
    ensures { IsDoubleEnded deref ⟦<Iter<'a, T> as Iterator>⟧.next_gives
        ⟦<Iter<'a, T> as DoubleEndedIterator>⟧.next_back_gives }
{}
