//! Edits of the node list and its index.
ghost use Rattle.std.specs.Prelude.{◌≡◌, ◌+◌, ◌/◌, ◌^◌, ◌<◌, ◌≤◌, ◌++◌, true, false, []};
ghost use Rattle.std.specs.Prelude.{vec_len, vec_capacity, length, map, set, cond, if◌then◌else◌};
ghost use Rattle.std.specs.Prelude.{min, sum, sum_by, Option, Some, nat_le, ◌⊎◌, insert, remove};
ghost use Rattle.std.specs.Prelude.{slice_get, IfOk, OnOk, IfErr, OnErr, IsOk, is_err};
ghost use Rattle.std.specs.List.{HoldsAt};
ghost use Rattle.indexset_core.specs.Nodes.{concat, node_at, node_lengths};
ghost use Rattle.indexset_core.specs.Order.{IsAscending, IsFoundAt, IsGapFor, put, equal_element};
ghost use Rattle.indexset_events.specs.Edits.{with_halved};
ghost use Rattle.indexset_events.specs.Merging.{item_removed, with_merged};
ghost use Rattle.indexset_events.specs.Table.{half_of};
ghost use Rattle.indexset_index.specs.Blocks.{block_sums};

use crate::insert_plan::InsertPlan;
use indexset_core::item_iter::OfNode;
use indexset_core::node::NodeLike;
use indexset_core::refusal::{Refusal, Refused};
use indexset_index::blocks::Blocks;
use std::alloc::Global;

/// Returns a node, or one half of it if it is full.
pub(crate) fn part_of<T>(items: &[T], full: bool, right: bool) -> &[T]
    ensures { result.now ≡ half_of full right items.now }
{
    let half = items.len() / 2;
    if !full {
        return items;
    }
    if right {
        &items[half..]
    } else {
        &items[..half]
    }
}

/// Halves a node. A failed call leaves the items as they are.
pub(crate) fn halve_at<T: Ord + Drop, Node: NodeLike<T>>(
    nodes: &mut Vec<Node>,
    index: &mut Blocks,
    place: usize,
) -> Result<(), Refusal>
    requires place { place < length nodes.old.items }
    requires two { 2 ≤ length (node_at (map Node.list nodes.old.items) place) }
    requires index { index.old.sums ≡ block_sums (node_lengths (map Node.list nodes.old.items)) }
    requires fits { length (concat (map Node.list nodes.old.items)) ≤ usize.MAX }

    // Failure.
    ensures refusal { IfErr result (λ e. e ≡ Refusal.Memory) }
    ensures unchanged { OnErr result (map Node.list nodes.new.items
        ≡ map Node.list nodes.old.items) }

    // Memory.
    ensures left_room { OnOk result (HoldsAt (λ n. length (Node.list n)
        < Node.room n) nodes.new.items place) }
    ensures right_room { OnOk result (HoldsAt (λ n. length (Node.list n)
        < Node.room n) nodes.new.items (place + 1)) }

    // Nodes.
    ensures nodes { OnOk result (map Node.list nodes.new.items
        ≡ with_halved (map Node.list nodes.old.items) place) }
    ensures index { index.new.sums ≡ block_sums (node_lengths (map Node.list nodes.new.items)) }
{
    nodes.reserve(1)?;
    index.reserve_one()?;
    let node = &mut nodes[place];
    let right = node.halve()?;
    let moved = right.len();
    match nodes.insert(place + 1, right) {
        Ok(()) => {
            index.sub(place, moved);
            index.insert::<T, Node, OfNode>(place + 1, nodes.as_slice());
            Ok(())
        }
        Err(_) => unreachable!(),
    }
}

/// Makes room for an item, by halving a full node, and returns the place of its node. A failed call
/// leaves the items as they are.
pub(crate) fn make_room<T: Ord + Drop, Node: NodeLike<T>>(
    nodes: &mut Vec<Node>,
    index: &mut Blocks,
    aim: &InsertPlan,
) -> Result<usize, Refusal>
    requires place { aim.now.node < length nodes.old.items }
    requires two { (aim.now.full ≡ true) → 2 ≤ length (node_at
        (map Node.list nodes.old.items) aim.now.node) }
    requires most { (aim.now.full ≡ false) → length (node_at
        (map Node.list nodes.old.items) aim.now.node) < Node.most }
    requires right { (aim.now.full ≡ false) → aim.now.right ≡ false }
    requires index { index.old.sums ≡ block_sums (node_lengths (map Node.list nodes.old.items)) }
    requires fits { length (concat (map Node.list nodes.old.items)) ≤ usize.MAX }

    // Result.
    ensures place { IfOk result (λ place. place ≡ aim.now.node + cond aim.now.right 1 0) }

    // Failure.
    ensures refusal { IfErr result (λ e. e ≡ Refusal.Memory) }
    ensures unchanged { OnErr result (map Node.list nodes.new.items
        ≡ map Node.list nodes.old.items) }

    // Memory.
    ensures room { IfOk result (λ place. is_err aim.now.at ≡ true
        → HoldsAt (λ n. length (Node.list n) < Node.room n) nodes.new.items place) }

    // Nodes.
    ensures nodes { OnOk result (map Node.list nodes.new.items
        ≡ (if aim.now.full then with_halved
        (map Node.list nodes.old.items) aim.now.node else map Node.list nodes.old.items)) }
    ensures index { index.new.sums ≡ block_sums (node_lengths (map Node.list nodes.new.items)) }
{
    if aim.full {
        halve_at(nodes, index, aim.node)?;
        return Ok(if aim.right { aim.node + 1 } else { aim.node });
    }
    if aim.at.is_err() {
        let node = &mut nodes[aim.node];
        node.reserve_one()?;
    }
    Ok(aim.node)
}

/// Inserts an item into a node that has room, or replaces an equal one and returns it.
pub(crate) fn put_in<T: Ord + Drop, Node: NodeLike<T>>(
    nodes: &mut Vec<Node>,
    index: &mut Blocks,
    place: usize,
    at: Result<usize, usize>,
    value: T,
) -> Option<T>
    requires place { place < length nodes.old.items }
    requires ascending { IsAscending T.cmp (node_at (map Node.list nodes.old.items) place) }
    requires found { IfOk at (IsFoundAt T.cmp (node_at (map Node.list nodes.old.items) place)
        value) }
    requires gap { IfErr at (IsGapFor T.cmp (node_at (map Node.list nodes.old.items) place)
        value) }
    requires room { is_err at ≡ true → HoldsAt (λ n. length (Node.list n)
        < Node.room n) nodes.old.items place }
    requires index { index.old.sums ≡ block_sums (node_lengths (map Node.list nodes.old.items)) }
    requires fits { is_err at ≡ true → length (concat (map Node.list nodes.old.items))
        < usize.MAX }
    ensures answer { result ≡ equal_element T.cmp
        (node_at (map Node.list nodes.old.items) place) value }
    ensures nodes { map Node.list nodes.new.items ≡ set (map Node.list nodes.old.items) place
        (put T.cmp (node_at (map Node.list nodes.old.items) place) value) }
    ensures index { index.new.sums ≡ block_sums (node_lengths (map Node.list nodes.new.items)) }
{
    let node = &mut nodes[place];
    match at {
        Ok(offset) => node.replace(offset, value),
        Err(offset) => {
            node.insert_at(offset, value);
            index.add(place, 1);
            None
        }
    }
}

/// Returns an empty node with room for one item, and reserves room for it in the list and the
/// index.
pub(crate) fn first_node<T: Ord + Drop, Node: NodeLike<T>>(
    nodes: &mut Vec<Node>,
    index: &mut Blocks,
) -> Result<Node, Refusal>
    requires { 1 ≤ Node.most }

    // Result.
    ensures empty { IfOk result (λ node. Node.list node ≡ []) }

    // Failure.
    ensures refusal { IfErr result (λ e. e ≡ Refusal.Memory) }

    // Memory.
    ensures room { IfOk result (λ node. 1 ≤ Node.room node) }
    ensures capacity { OnOk result (vec_len nodes.new < vec_capacity nodes.new) }
    ensures index_room { OnOk result (length index.new.sums < index.new.room) }

    // Nodes.
    ensures nodes { nodes.new.items ≡ nodes.old.items }
    ensures index { index.new.sums ≡ index.old.sums }
{
    nodes.reserve(1)?;
    index.reserve_one()?;
    Node::with_capacity(*nodes.allocator(), 1)
}

/// States that an index has room for its sums, and that all lengths together fit a usize. It does
/// nothing.
pub(crate) fn recall_bounds(index: &Blocks)
    ensures within { length index.now.sums ≤ index.now.room }
    ensures fits { sum index.now.sums < 2 ^ 64 }
{
    index.len();
}

/// Returns whether two nodes of these lengths hold at most `most` items together.
pub(crate) fn fit_in_one_node(left: usize, right: usize, most: usize) -> bool
    ensures { result ≡ nat_le (left + right) most }
{
    left <= most && right <= most - left
}

/// Inserts a node at a place. A failed call returns it in the error and changes nothing.
pub(crate) fn insert_node<T: Ord + Drop, Node: NodeLike<T>>(
    nodes: &mut Vec<Node>,
    index: &mut Blocks,
    place: usize,
    node: Node,
) -> Result<(), Refused<Node>>
    requires place { place ≤ length nodes.old.items }
    requires index { index.old.sums ≡ block_sums (node_lengths (map Node.list nodes.old.items)) }
    requires fits { length (concat (map Node.list nodes.old.items)) + length (Node.list node)
        ≤ usize.MAX }

    // Failure.
    ensures refusal { IfErr result (λ e. e.cause ≡ Refusal.Memory) }
    ensures given_back { IfErr result (λ e. e.value ≡ node) }
    ensures unchanged { OnErr result (nodes.new.items ≡ nodes.old.items) }

    // Nodes.
    ensures nodes { OnOk result (map Node.list nodes.new.items
        ≡ insert (map Node.list nodes.old.items) place (Node.list node)) }
    ensures index { index.new.sums ≡ block_sums (node_lengths (map Node.list nodes.new.items)) }
{
    if index.reserve_one().is_err() {
        return Err(Refused {
            value: node,
            cause: Refusal::Memory,
        });
    }
    match nodes.insert(place, node) {
        Ok(()) => {
            index.insert::<T, Node, OfNode>(place, nodes.as_slice());
            Ok(())
        }
        Err(refused) => Err(Refused {
            value: refused.value,
            cause: Refusal::Memory,
        }),
    }
}

/// Removes the item at a place, and the node if this empties it.
pub(crate) fn remove_item<T: Ord + Drop, Node: NodeLike<T>>(
    nodes: &mut Vec<Node>,
    index: &mut Blocks,
    node: usize,
    offset: usize,
) -> T
    requires node { node < length nodes.old.items }
    requires offset { offset < length (node_at (map Node.list nodes.old.items) node) }
    requires index { index.old.sums ≡ block_sums (node_lengths (map Node.list nodes.old.items)) }
    ensures item { slice_get (node_at (map Node.list nodes.old.items) node) offset ≡ Some result }
    ensures nodes { map Node.list nodes.new.items
        ≡ item_removed (map Node.list nodes.old.items) node offset }
    ensures index { index.new.sums ≡ block_sums (node_lengths (map Node.list nodes.new.items)) }
{
    if nodes[node].len() == 1 {
        let mut emptied = nodes.remove(node);
        index.remove::<T, Node, OfNode>(node, 1, nodes.as_slice());
        return emptied.remove_at(offset);
    }
    index.sub(node, 1);
    nodes[node].remove_at(offset)
}

/// Removes the item at a place, which is in the node at `left` or the next one, and merges the two.
/// It reserves room first. A failed call leaves the items as they are.
pub(crate) fn remove_and_merge<T: Ord + Drop, Node: NodeLike<T>>(
    nodes: &mut Vec<Node>,
    index: &mut Blocks,
    node: usize,
    offset: usize,
    left: usize,
) -> Result<T, Refusal>
    requires place { left + 1 < length nodes.old.items }
    requires node { (node ≡ left) ⊎ (node ≡ left + 1) }
    requires offset { offset < length (node_at (map Node.list nodes.old.items) node) }
    requires most { length (node_at (map Node.list nodes.old.items) left) + length
        (node_at (map Node.list nodes.old.items) (left + 1)) ≤ Node.most }
    requires order { IsAscending T.cmp (node_at (set (map Node.list nodes.old.items) node
        (remove (node_at (map Node.list nodes.old.items) node) offset)) left
        ++ node_at (set (map Node.list nodes.old.items) node
        (remove (node_at (map Node.list nodes.old.items) node) offset)) (left + 1)) }
    requires index { index.old.sums ≡ block_sums (node_lengths (map Node.list nodes.old.items)) }

    // Result.
    ensures item { IfOk result (λ item. slice_get (node_at
        (map Node.list nodes.old.items) node) offset ≡ Some item) }

    // Failure.
    ensures refusal { IfErr result (λ e. e ≡ Refusal.Memory) }
    ensures unchanged { OnErr result (map Node.list nodes.new.items
        ≡ map Node.list nodes.old.items) }

    // Memory.
    ensures never { Node.allocates ≡ false → IsOk result }

    // Nodes.
    ensures nodes { OnOk result (map Node.list nodes.new.items
        ≡ with_merged (set (map Node.list nodes.old.items) node
        (remove (node_at (map Node.list nodes.old.items) node) offset)) left) }
    ensures index { index.new.sums ≡ block_sums (node_lengths (map Node.list nodes.new.items)) }
{
    let more = nodes[left + 1].len();
    let first = &mut nodes[left];
    first.reserve(more)?;
    let mut next = nodes.remove(left + 1);
    recall_bounds(index);
    index.remove::<T, Node, OfNode>(left + 1, more, nodes.as_slice());
    index.add(left, more);
    index.sub(left, 1);
    let first = &mut nodes[left];
    let item = if node == left {
        first.remove_at(offset)
    } else {
        next.remove_at(offset)
    };
    first.absorb(next);
    Ok(item)
}

/// Returns the index of the nodes.
pub(crate) fn index_of<T: Ord + Drop, Node: NodeLike<T>>(
    alloc: Global,
    nodes: &[Node],
) -> Result<Blocks, Refusal>
    requires { length (concat (map Node.list nodes.now)) ≤ usize.MAX }
    ensures index { IfOk result (λ index. index.sums ≡ block_sums (node_lengths
        (map Node.list nodes.now))) }
    ensures refusal { IfErr result (λ e. e ≡ Refusal.Memory) }
{
    Blocks::from_nodes::<T, Node, OfNode>(alloc, nodes)
}

/// Returns the sum of the capacities of the nodes, at most `usize::MAX`.
pub(crate) fn capacity_of<T: Ord + Drop, Node: NodeLike<T>>(nodes: &[Node]) -> usize
    ensures value { result ≡ min usize.MAX (sum_by Node.room nodes.now) }
    ensures enough { min usize.MAX (length (concat (map Node.list nodes.now))) ≤ result }
{
    let mut room: usize = 0;
    for node in nodes {
        room = room.saturating_add(node.capacity());
    }
    room
}
