//! Binary searches of a list of nodes.
ghost use Rattle.std.specs.Prelude.{◌≡◌, ℕ, ◌+◌, ◌≤◌, length, map};
ghost use Rattle.std.specs.List.{All, count_by};
ghost use Rattle.indexset_core.specs.KeyRange.{IfBounded, is_before, is_up_to_end};
ghost use Rattle.indexset_core.specs.Digits.{digits};
ghost use Rattle.indexset_core.specs.Nodes.{concat, node_lengths, node_for};
ghost use Rattle.indexset_core.specs.Parted.{IsParted, less_count, not_greater_count};
ghost use Rattle.indexset_core.specs.Places.{IsPlace, items_before, located};

use crate::item_iter::NodeItems;
use crate::probe::{After, Probe};
use crate::search::{self, choose};
use std::ops::Bound;

// The greatest number of nodes that are searched without branches, if their items fit the cache:
// the last items of more nodes do not.
const NEAR_NODES: usize = 1 << 10;

/// Returns the index of the node in which the search by the comparator ends.
///
/// It is the first node whose last item does not compare Less, else the last node. There must be a
/// node, and only a single node may be empty. The items must be partitioned by the comparator.
///
/// # Complexity
///
/// One binary search over the nodes' last items.
pub fn node_by<T, Node, R: NodeItems<T, Node>, P: Probe<T>>(nodes: &[Node], probe: &mut P) -> usize
    requires some { 1 ≤ length nodes.now }
    requires filled { 2 ≤ length nodes.now → All (λ n. 1 ≤ n)
        (node_lengths (map R.list nodes.now)) }
    requires parted { IsParted (P.answer probe.old) (concat (map R.list nodes.now)) }
    ensures node { result ≡ node_for (P.answer probe.old) (map R.list nodes.now) }
    ensures fixed { P.answer probe.new ≡ P.answer probe.old }
    ensures comparisons { P.asked probe.new ≤ P.asked probe.old + digits (length nodes.now) }
{
    if nodes.len() == 1 {
        return 0;
    }
    // The node that both searches read first is taken as a sample of all.
    let items = R::items_of(&nodes[(nodes.len() - 1) / 2]);
    if nodes.len() <= NEAR_NODES && search::is_near(items, nodes.len()) {
        node_near::<T, Node, R, P>(nodes, probe)
    } else {
        node_far::<T, Node, R, P>(nodes, probe)
    }
}

// Does the same by a search without branches on comparisons, as `first_not_less_near` does.
fn node_near<T, Node, R: NodeItems<T, Node>, P: Probe<T>>(nodes: &[Node], probe: &mut P) -> usize
    requires some { 1 ≤ length nodes.now }
    requires filled { 2 ≤ length nodes.now → All (λ n. 1 ≤ n)
        (node_lengths (map R.list nodes.now)) }
    requires parted { IsParted (P.answer probe.old) (concat (map R.list nodes.now)) }
    ensures node { result ≡ node_for (P.answer probe.old) (map R.list nodes.now) }
    ensures fixed { P.answer probe.new ≡ P.answer probe.old }
    ensures comparisons { P.asked probe.new ≤ P.asked probe.old + digits (length nodes.now) }
{
    let last = nodes.len() - 1;
    let mut low = 0;
    let mut left = last;
    let mut equal = last;
    while left > 0 {
        let middle = low + left / 2;
        let node = R::items_of(&nodes[middle]);
        let answer = probe.place(&node[node.len() - 1]);
        equal = choose(answer.is_eq(), middle, equal);
        low = choose(answer.is_lt(), middle + left % 2, low);
        left /= 2;
    }
    choose(equal < last, equal, low)
}

// Does the same by a search whose predicted branches fetch ahead.
fn node_far<T, Node, R: NodeItems<T, Node>, P: Probe<T>>(nodes: &[Node], probe: &mut P) -> usize
    requires some { 1 ≤ length nodes.now }
    requires filled { 2 ≤ length nodes.now → All (λ n. 1 ≤ n)
        (node_lengths (map R.list nodes.now)) }
    requires parted { IsParted (P.answer probe.old) (concat (map R.list nodes.now)) }
    ensures node { result ≡ node_for (P.answer probe.old) (map R.list nodes.now) }
    ensures fixed { P.answer probe.new ≡ P.answer probe.old }
    ensures comparisons { P.asked probe.new ≤ P.asked probe.old + digits (length nodes.now) }
{
    let mut low = 0;
    let mut high = nodes.len() - 1;
    while low < high {
        let middle = low + (high - low) / 2;
        let node = R::items_of(&nodes[middle]);
        if probe.place(&node[node.len() - 1]).is_lt() {
            low = middle + 1;
        } else {
            high = middle;
        }
    }
    low
}

/// Returns the place before the first item that does not compare Less.
///
/// The place is (0, 0) if there is no node.
///
/// # Complexity
///
/// Two binary searches, one over the nodes and one in a node, or no comparison if there is no node.
pub fn place_by<T, Node, R: NodeItems<T, Node>, P: Probe<T>>(
    nodes: &[Node],
    probe: &mut P,
) -> (usize, usize)
    requires filled { 2 ≤ length nodes.now → All (λ n. 1 ≤ n)
        (node_lengths (map R.list nodes.now)) }
    requires parted { IsParted (P.answer probe.old) (concat (map R.list nodes.now)) }
    ensures place { IsPlace (map R.list nodes.now) result }
    ensures before { items_before (map R.list nodes.now) result
        ≡ less_count (P.answer probe.old) (concat (map R.list nodes.now)) }
{
    if nodes.is_empty() {
        return (0, 0);
    }
    let node = node_by::<T, Node, R, P>(nodes, probe);
    let items = R::items_of(&nodes[node]);
    let offset = search::less_len(items, probe, nodes.len());
    (node, offset)
}

// Returns the place before the first item that compares Greater. A single node is searched without
// `After`, whose answers are never Equal.
fn place_past<T, Node, R: NodeItems<T, Node>, P: Probe<T> + Drop>(
    nodes: &[Node],
    mut probe: P,
) -> (usize, usize)
    requires filled { 2 ≤ length nodes.now → All (λ n. 1 ≤ n)
        (node_lengths (map R.list nodes.now)) }
    requires parted { IsParted (P.answer probe) (concat (map R.list nodes.now)) }
    ensures place { IsPlace (map R.list nodes.now) result }
    ensures before { items_before (map R.list nodes.now) result
        ≡ not_greater_count (P.answer probe) (concat (map R.list nodes.now)) }
{
    if nodes.len() == 1 {
        let items = R::items_of(&nodes[0]);
        return (0, search::not_greater_len(items, &mut probe, 1));
    }
    place_by::<T, Node, R, After<P>>(nodes, &mut After::new(probe))
}

/// Returns the place after the items before the start.
///
/// # Complexity
///
/// Two binary searches, or no comparison if the start is unbounded.
pub fn place_from<T, Node, R: NodeItems<T, Node>, P: Probe<T> + Drop>(
    nodes: &[Node],
    start: Bound<P>,
) -> (usize, usize)
    requires filled { 2 ≤ length nodes.now → All (λ n. 1 ≤ n)
        (node_lengths (map R.list nodes.now)) }
    requires parted { IfBounded (λ p. IsParted (P.answer p) (concat (map R.list nodes.now))) start }
    ensures place { IsPlace (map R.list nodes.now) result }
    ensures before { items_before (map R.list nodes.now) result
        ≡ count_by (is_before (λ x p. P.answer p x) start) (concat (map R.list nodes.now)) }
{
    match start {
        Bound::Included(mut probe) => place_by::<T, Node, R, P>(nodes, &mut probe),
        Bound::Excluded(probe) => place_past::<T, Node, R, P>(nodes, probe),
        Bound::Unbounded => (0, 0),
    }
}

/// Returns the place after the items that are not past the end.
///
/// # Complexity
///
/// Two binary searches, or no comparison if the end is unbounded.
pub fn place_to<T, Node, R: NodeItems<T, Node>, P: Probe<T> + Drop>(
    nodes: &[Node],
    end: Bound<P>,
) -> (usize, usize)
    requires filled { 2 ≤ length nodes.now → All (λ n. 1 ≤ n)
        (node_lengths (map R.list nodes.now)) }
    requires parted { IfBounded (λ p. IsParted (P.answer p) (concat (map R.list nodes.now))) end }
    ensures place { IsPlace (map R.list nodes.now) result }
    ensures before { items_before (map R.list nodes.now) result
        ≡ count_by (is_up_to_end (λ x p. P.answer p x) end) (concat (map R.list nodes.now)) }
{
    match end {
        Bound::Included(probe) => place_past::<T, Node, R, P>(nodes, probe),
        Bound::Excluded(mut probe) => place_by::<T, Node, R, P>(nodes, &mut probe),
        Bound::Unbounded => last_place::<T, Node, R>(nodes),
    }
}

/// Returns the place after all items.
pub fn last_place<T, Node, R: NodeItems<T, Node>>(nodes: &[Node]) -> (usize, usize)
    ensures place { IsPlace (map R.list nodes.now) result }
    ensures before { items_before (map R.list nodes.now) result
        ≡ length (concat (map R.list nodes.now)) }
{
    if nodes.is_empty() {
        return (0, 0);
    }
    let last = nodes.len() - 1;
    let items = R::items_of(&nodes[last]);
    (last, items.len())
}

/// Returns the node and the offset of the first item that compares Equal, or its insertion point.
///
/// # Complexity
///
/// Two binary searches, or no comparison if there is no node.
pub fn locate_by<T, Node, R: NodeItems<T, Node>, P: Probe<T>>(
    nodes: &[Node],
    probe: &mut P,
) -> Result<(usize, usize), (usize, usize)>
    requires filled { 2 ≤ length nodes.now → All (λ n. 1 ≤ n)
        (node_lengths (map R.list nodes.now)) }
    requires parted { IsParted (P.answer probe.old) (concat (map R.list nodes.now)) }
    ensures place { result ≡ located (P.answer probe.old) (map R.list nodes.now) }
    ensures fixed { P.answer probe.new ≡ P.answer probe.old }
    ensures comparisons { (size : ℕ) → All (λ n. n ≤ size) (node_lengths (map R.list nodes.now))
        → P.asked probe.new ≤ P.asked probe.old
        + (digits (length nodes.now) + digits size + 1) }
    ensures unasked { length nodes.now ≡ 0 → P.asked probe.new ≡ P.asked probe.old }
{
    if nodes.is_empty() {
        return Err((0, 0));
    }
    let node = node_by::<T, Node, R, P>(nodes, probe);
    let items = R::items_of(&nodes[node]);
    let (offset, found) = search::place_in(items, probe, nodes.len());
    if found {
        Ok((node, offset))
    } else {
        Err((node, offset))
    }
}
