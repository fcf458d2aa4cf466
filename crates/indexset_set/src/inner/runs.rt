//! Values in ascending order, gathered in a run that is appended by blocks.
ghost use Rattle.std.specs.Prelude.{◌≡◌, [], ◌∷◌, ◌++◌, None, true, false, ◌<◌, IsTrue};
ghost use Rattle.std.specs.Prelude.{IfOk, IfSome, OnOk, IfErr, OnErr, vec_len, vec_capacity};
ghost use Rattle.indexset_core.specs.Order.{IsAscending};
ghost use Rattle.indexset_spine.specs.NodeList.{items, with_all_last};

use super::invariant::recall_order;
use crate::BTreeSet;
use indexset_core::refusal::{Refusal, Refused};

/// Appends a value to a run if it is above all elements, else appends the run to the set.
///
/// The values of the run are not yet in the set. Returns `None` if the value is in the run, else
/// the value.
///
/// # Errors
///
/// Fails with `Memory` only. A failed call returns the value in the error, and has moved a prefix
/// of the run.
///
/// # Complexity
///
/// One comparison.
pub fn join_run<T: Ord + Drop>(
    set: &mut BTreeSet<T>,
    run: &mut Vec<T>,
    value: T,
) -> Result<Option<T>, Refused<T>>
    requires order { IsAscending T.cmp (items set.old ++ run.old.items) }

    // Result.
    ensures back { IfOk result (λ back. IfSome back (λ v. v ≡ value)) }

    // Contents.
    ensures order { OnOk result (IsAscending T.cmp (items set.new ++ run.new.items)) }
    ensures items { IfOk result (λ back. back ≡ None
        → items set.new ++ run.new.items ≡ items set.old ++ (run.old.items ++ value ∷ [])) }
    ensures emptied { IfOk result (λ back. IfSome back (λ _. run.new.items ≡ [])) }

    // Failure.
    ensures given_back { IfErr result (λ e. (e.value ≡ value) × (e.cause ≡ Refusal.Memory)) }
    ensures err { OnErr result (items set.new ++ run.new.items ≡ items set.old ++ run.old.items) }

    // Nodes.
    ensures nodes { IfOk result (λ back. back ≡ None
        → with_all_last set.old.size set.new.nodes run.new.items
        ≡ with_all_last set.old.size set.old.nodes (run.old.items ++ value ∷ [])) }
    ensures moved { IfOk result (λ back. IfSome back
        (λ _. set.new.nodes ≡ with_all_last set.old.size set.old.nodes run.old.items)) }
    ensures size { set.new.size ≡ set.old.size }
    ensures err_nodes { OnErr result (with_all_last set.old.size set.new.nodes run.new.items
        ≡ with_all_last set.old.size set.old.nodes run.old.items) }
{
    recall_order(set);
    let joins = is_above(set, run.as_slice(), &value);
    match ready_run(set, run, joins) {
        Ok(()) if joins => {
            run.push_reserved(value);
            Ok(None)
        }
        Ok(()) => {
            recall_order(set);
            Ok(Some(value))
        }
        Err(cause) => Err(Refused { value, cause }),
    }
}

// Prepares a run for a value: makes room for it if it joins the run, else moves the run into the
// set. A failed call has moved a prefix.
fn ready_run<T: Ord + Drop>(
    set: &mut BTreeSet<T>,
    run: &mut Vec<T>,
    joins: bool,
) -> Result<(), Refusal>
    requires order { IsAscending T.cmp (items set.old ++ run.old.items) }

    // Contents.
    ensures items { items set.new ++ run.new.items ≡ items set.old ++ run.old.items }
    ensures emptied { OnOk result (joins ≡ false → run.new.items ≡ []) }

    // Failure.
    ensures refusal { IfErr result (λ e. e ≡ Refusal.Memory) }

    // Memory.
    ensures room { OnOk result (joins ≡ true → vec_len run.new < vec_capacity run.new) }

    // Nodes.
    ensures nodes { with_all_last set.old.size set.new.nodes run.new.items
        ≡ with_all_last set.old.size set.old.nodes run.old.items }
    ensures size { set.new.size ≡ set.old.size }
{
    if !joins {
        return take_run(set, run);
    }
    take_full_run(set, run)?;
    run.reserve(1)?;
    Ok(())
}

/// Appends the values of a run to the set, by blocks and without a comparison.
///
/// # Errors
///
/// Fails with `Memory` only. A failed call has moved a prefix.
pub fn take_run<T: Ord + Drop>(set: &mut BTreeSet<T>, run: &mut Vec<T>) -> Result<(), Refusal>
    requires order { IsAscending T.cmp (items set.old ++ run.old.items) }

    // Contents.
    ensures items { items set.new ++ run.new.items ≡ items set.old ++ run.old.items }
    ensures emptied { OnOk result (run.new.items ≡ []) }

    // Failure.
    ensures refusal { IfErr result (λ e. e ≡ Refusal.Memory) }

    // Nodes.
    ensures nodes { with_all_last set.old.size set.new.nodes run.new.items
        ≡ with_all_last set.old.size set.old.nodes run.old.items }
    ensures size { set.new.size ≡ set.old.size }
{
    set.spine.recall_lengths();
    set.spine.append_items(run)
}

// Does the same if the run fills half a node, so that it fits whole into one that was just halved.
fn take_full_run<T: Ord + Drop>(set: &mut BTreeSet<T>, run: &mut Vec<T>) -> Result<(), Refusal>
    requires order { IsAscending T.cmp (items set.old ++ run.old.items) }
    ensures items { items set.new ++ run.new.items ≡ items set.old ++ run.old.items }
    ensures nodes { with_all_last set.old.size set.new.nodes run.new.items
        ≡ with_all_last set.old.size set.old.nodes run.old.items }
    ensures size { set.new.size ≡ set.old.size }
    ensures refusal { IfErr result (λ e. e ≡ Refusal.Memory) }
{
    if run.len() < set.maximum_node_size() / 2 {
        return Ok(());
    }
    take_run(set, run)
}

// Returns whether a value is above the elements and a run after them, by one comparison.
fn is_above<T: Ord>(set: &BTreeSet<T>, run: &[T], value: &T) -> bool
    requires order { IsAscending T.cmp (items set.now ++ run.now) }
    ensures { IsTrue result → IsAscending T.cmp (items set.now ++ (run.now ++ value.now ∷ [])) }
{
    if let Some(last) = run.last() {
        return last.cmp(value).is_lt();
    }
    match set.spine.last_spot() {
        Some(last) => set.spine.item(&last).cmp(value).is_lt(),
        None => true,
    }
}
