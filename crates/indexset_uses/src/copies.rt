//! Replicas of trees: events that are applied in order, and events that arrive in any order.
ghost use Rattle.indexset_core.specs.Clones.{AreIdentical};
ghost use Rattle.std.specs.Prelude.{◌≡◌, ◌+◌, ◌-◌, ◌<◌, ◌≤◌, ℕ, List, length, map, slice_get};
ghost use Rattle.std.specs.Prelude.{take, unwrap_or, Contains, Some, IfErr, IfSome, OnErr, OnOk};
ghost use Rattle.std.specs.List.{All, AllZip};
ghost use Rattle.indexset.specs.Words.{apply_refusal, event_number, replay, AreClonesEqual};
ghost use Rattle.indexset.specs.Words.{AreCopies, ChangeEvent, IsDeliveredUpTo, IsEventClone};
ghost use Rattle.indexset.specs.Words.{IsEventLog, IsPrefix};

use indexset::base::refusal::Refusal;
use indexset::cdc::change::ChangeEvent;
use indexset::cdc::laws::replay_in_parts;
use indexset::replica::Replica;
use indexset::replica::laws::delivery::{
    follow_is_a_fold_of_offers, offers_leave_a_prefix, offers_of_identical_clones,
};
use indexset::replica::laws::step_of_clones;

/// Applies events in order, and stops at the first that fails.
///
/// If clones are identical to their sources, the replica then has the nodes after the applied
/// events. If clones equal their sources, a replica that had copies of a tree's nodes has copies of
/// the nodes after the tree's events, if these events are clones of those.
pub fn apply_all<T: Ord + Clone + Drop>(
    copy: &mut Replica<T>,
    events: &[ChangeEvent<T>],
) -> Result<(), Refusal>
    // Contents.
    ensures next { OnOk result (copy.new.next ≡ copy.old.next + length events.now) }
    ensures onwards { copy.old.next ≤ copy.new.next }

    // Failure.
    ensures stopped { OnErr result (copy.new.next < copy.old.next + length events.now) }
    ensures refusal { IfErr result (λ e. IfSome
        (slice_get events.now (copy.new.next - copy.old.next)) (λ event. e ≡ unwrap_or
        (apply_refusal T.cmp copy.new.nodes copy.new.next event) Refusal.Memory)) }

    // Nodes.
    ensures unchanged { AreIdentical T.is_clone
        → OnOk result (replay T.cmp copy.old.nodes events.now ≡ Some copy.new.nodes) }
    ensures applied { AreIdentical T.is_clone → replay T.cmp copy.old.nodes
        (take (copy.new.next - copy.old.next) events.now) ≡ Some copy.new.nodes }
    ensures copies { AreClonesEqual T.cmp T.is_clone → (ns after : List (List T)) (es : List _)
        → AreCopies T.cmp T.is_clone ns copy.old.nodes
        → AllZip (IsEventClone T.is_clone) es events.now → replay T.cmp ns es ≡ Some after
        → OnOk result (AreCopies T.cmp T.is_clone after copy.new.nodes) }
{
    replay_in_parts::<T>();
    step_of_clones::<T>();
    for event in events {
        copy.apply(event)?;
    }
    Ok(())
}

/// Offers events of a log as they arrive, in any order, with losses and repeats.
///
/// A replica that had the nodes after a prefix of the log then has the nodes after a prefix, and
/// expects event m: all events from the one that it expected to m - 1 arrived in this order.
pub fn offer_all<T: Ord + Clone + Drop>(
    copy: &mut Replica<T>,
    arriving: &[ChangeEvent<T>],
) -> Result<(), Refusal>
    ensures { AreIdentical T.is_clone → (s : ℕ) (ns : List (List T)) (log : List (ChangeEvent T))
        → IsEventLog T.cmp s ns log → IsPrefix T.cmp s ns log copy.old
        → All (Contains log) arriving.now
        → OnOk result (IsPrefix T.cmp s ns log copy.new
        × ((m : ℕ) → IsDeliveredUpTo copy.old.next (map event_number arriving.now) m
        → copy.new.next ≡ m)) }
{
    follow_is_a_fold_of_offers::<T>();
    offers_of_identical_clones::<T>();
    offers_leave_a_prefix::<T>();
    for event in arriving {
        copy.offer(event)?;
    }
    Ok(())
}
