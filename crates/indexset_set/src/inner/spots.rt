//! Calls by spots: they read and edit where a search has ended, with no second search.
ghost use Rattle.std.specs.Prelude.{◌≡◌, ◌+◌, ◌-◌, ◌<◌, ◌≤◌, IsTrue, Some, IfOk};
ghost use Rattle.std.specs.Prelude.{OnOk, IfErr, OnErr, MatchOption, insert};
ghost use Rattle.std.specs.Prelude.{length, remove, slice_get, sum, take};
ghost use Rattle.std.specs.List.{count_by};
ghost use Rattle.indexset_core.specs.KeyRange.{IfBounded, is_before};
ghost use Rattle.indexset_core.specs.Digits.{digits};
ghost use Rattle.indexset_core.specs.Nodes.{node_lengths};
ghost use Rattle.indexset_core.specs.Order.{IsAscending, IsGapFor};
ghost use Rattle.indexset_spine.specs.NodeList.{items, AreNodeLengths, IsItemSpot, IsSpot};
ghost use Rattle.indexset_spine.specs.NodeList.{position_of, with_inserted, without_item};
ghost use Rattle.indexset_spine.specs.Lengths.{node_of};
ghost use Rattle.indexset_spine.specs.Search.{IsSearchResult};
ghost use Rattle.indexset_set.specs.SetProbes.{FindsInOrder};

use crate::BTreeSet;
use indexset_core::probe::Probe;
use indexset_core::refusal::{Refusal, Refused};
use indexset_spine::spot::Spot;
use std::alloc::Global;
use std::ops::Bound;

/// Returns the spot of the first element that compares Equal, or its insertion point.
///
/// # Complexity
///
/// One comparison for each step of two binary searches.
pub fn spot_by<T: Ord, P: Probe<T>>(set: &BTreeSet<T>, probe: &mut P) -> Spot
    requires { FindsInOrder (P.answer probe.old) (items set.now) }

    // Result.
    ensures spot { IsSearchResult (P.answer probe.old) set.now.nodes result }

    // Contents.
    ensures ascending { IsAscending T.cmp (items set.now) }
    ensures fixed { P.answer probe.new ≡ P.answer probe.old }
    ensures comparisons { P.asked probe.new ≤ P.asked probe.old
        + (digits (length set.now.nodes) + digits set.now.size + 1) }

    // Nodes.
    ensures cut { AreNodeLengths (node_lengths set.now.nodes) set.now.size }
{
    set.spine.recall_lengths();
    set.spine.locate_by(probe)
}

/// Returns the same as `spot_by`, with the last element compared first.
///
/// It serves elements that come in order.
///
/// # Complexity
///
/// One comparison if the last element compares Less.
pub fn spot_from_end_by<T: Ord, P: Probe<T>>(set: &BTreeSet<T>, probe: &mut P) -> Spot
    requires { FindsInOrder (P.answer probe.old) (items set.now) }

    // Result.
    ensures spot { IsSearchResult (P.answer probe.old) set.now.nodes result }

    // Contents.
    ensures ascending { IsAscending T.cmp (items set.now) }
    ensures fixed { P.answer probe.new ≡ P.answer probe.old }
    ensures comparisons { P.asked probe.new ≤ P.asked probe.old
        + (digits (length set.now.nodes) + digits set.now.size + 2) }

    // Nodes.
    ensures cut { AreNodeLengths (node_lengths set.now.nodes) set.now.size }
{
    set.spine.recall_lengths();
    set.spine.locate_from_end_by(probe)
}

/// Returns the allocator of the nodes.
pub fn allocator<T: Ord>(set: &BTreeSet<T>) -> &Global {
    set.spine.allocator()
}

/// Returns the spot of the least element, if any.
pub fn first_spot<T: Ord>(set: &BTreeSet<T>) -> Option<Spot>
    ensures { MatchOption result (length (items set.now) ≡ 0)
        (λ s. IsItemSpot set.now.nodes s × (position_of set.now.nodes s ≡ 0) × IsTrue s.found) }
{
    set.spine.first_spot()
}

/// Returns the spot of the greatest element, if any.
pub fn last_spot<T: Ord>(set: &BTreeSet<T>) -> Option<Spot>
    ensures { MatchOption result (length (items set.now) ≡ 0)
        (λ s. IsItemSpot set.now.nodes s × (position_of set.now.nodes s
        ≡ length (items set.now) - 1) × IsTrue s.found) }
{
    set.spine.last_spot()
}

/// Returns the spot after the elements before the start, a bound given by a comparator.
///
/// # Complexity
///
/// Two binary searches.
pub fn start_of<T: Ord, P: Probe<T> + Drop>(set: &BTreeSet<T>, start: Bound<P>) -> Spot
    requires { IfBounded (λ p. FindsInOrder (P.answer p) (items set.now)) start }
    ensures spot { IsSpot set.now.nodes result }
    ensures position { position_of set.now.nodes result
        ≡ count_by (is_before (λ x p. P.answer p x) start) (items set.now) }
{
    set.spine.start_of(start)
}

/// Returns how many elements are before a spot, by the index.
pub fn position<T: Ord>(set: &BTreeSet<T>, spot: &Spot) -> usize
    requires { IsSpot set.now.nodes spot.now }
    ensures { result ≡ position_of set.now.nodes spot.now }
{
    set.spine.position(spot)
}

/// Returns the spot of the element at a position.
///
/// Before node `near` there are `start` elements. The index is read only if the element is in
/// another node.
pub fn spot_near<T: Ord>(set: &BTreeSet<T>, near: usize, start: usize, i: usize) -> Spot
    requires near { start ≡ sum (take near (node_lengths set.now.nodes)) }
    requires inside { i < length (items set.now) }
    ensures spot { IsItemSpot set.now.nodes result }
    ensures position { position_of set.now.nodes result ≡ i }
    ensures node { result.node ≡ node_of (node_lengths set.now.nodes) i }
{
    set.spine.spot_near(near, start, i)
}

/// Returns the element at a spot.
pub fn element<'a, T: Ord>(set: &'a BTreeSet<T>, spot: &Spot) -> &'a T
    requires { IsItemSpot set.now.nodes spot.now }
    ensures { slice_get (items set.now) (position_of set.now.nodes spot.now) ≡ Some result.now }
{
    set.spine.item(spot)
}

/// Inserts a value at the spot at which a search for it ended, and returns its spot.
///
/// It makes no comparison.
///
/// # Errors
///
/// Fails with `Memory` only. A failed call returns the value in the error and changes nothing.
pub fn insert_at<T: Ord + Drop>(
    set: &mut BTreeSet<T>,
    spot: Spot,
    value: T,
) -> Result<Spot, Refused<T>>
    requires spot { IsSpot set.old.nodes spot }
    requires gap { IsGapFor T.cmp (items set.old) value (position_of set.old.nodes spot) }

    // Result.
    ensures stands { IfOk result (λ to. IsItemSpot set.new.nodes to
        × (position_of set.new.nodes to ≡ position_of set.old.nodes spot) × IsTrue to.found) }

    // Contents.
    ensures items { OnOk result (items set.new
        ≡ insert (items set.old) (position_of set.old.nodes spot) value) }

    // Failure.
    ensures given_back { IfErr result (λ e. (e.value ≡ value) × (e.cause ≡ Refusal.Memory)) }
    ensures unchanged { OnErr result (set.new ≡ set.old) }

    // Nodes.
    ensures nodes { OnOk result (set.new.nodes
        ≡ with_inserted set.old.size set.old.nodes spot value) }
    ensures size { set.new.size ≡ set.old.size }
{
    let to = set.spine.insert(spot, value)?;
    Ok(to)
}

/// Removes the element at a spot and returns it.
///
/// It allocates nothing.
pub fn remove_at<T: Ord + Drop>(set: &mut BTreeSet<T>, spot: Spot) -> T
    requires { IsItemSpot set.old.nodes spot }
    ensures value { slice_get (items set.old) (position_of set.old.nodes spot) ≡ Some result }
    ensures rest { items set.new ≡ remove (items set.old) (position_of set.old.nodes spot) }
    ensures nodes { set.new.nodes ≡ without_item set.old.nodes spot }
    ensures size { set.new.size ≡ set.old.size }
{
    set.spine.remove(spot)
}
