//! The removal of an item at a place, and the merge of its node.
ghost use Rattle.std.specs.Prelude.{◌≡◌, ℕ, ◌+◌, ◌/◌, ◌<◌, ◌≤◌, length, set, remove, slice_get};
ghost use Rattle.std.specs.Prelude.{Some, None, false, IfOk, OnOk, IfErr, OnErr, IsOk};
ghost use Rattle.indexset_core.specs.Nodes.{node_at, IsLawful};
ghost use Rattle.indexset_log.specs.Edits.{after_place_removal};
ghost use Rattle.indexset_events.specs.Merging.{are_small, merge_after};
ghost use Rattle.indexset_events.specs.Table.{count_with};
ghost use Rattle.indexset_log.specs.Tree.{refusal_for};

use super::BTreeSet;
use crate::nodes::{fit_in_one_node, remove_and_merge, remove_item};
use indexset_core::node::NodeLike;
use indexset_core::refusal::Refusal;

impl<T: Ord + Clone + Drop, Node: NodeLike<T>> BTreeSet<T, Node> {
    // Returns the first of the two nodes to merge after the removal of any item of a node, if any.
    pub(super) fn merge_after(&self, node: usize) -> Option<usize>
        requires { node < length self.now.nodes }
        ensures join { (i : ℕ) → i < length (node_at self.now.nodes node)
            → result ≡ merge_after self.now.size self.now.nodes node i }
        ensures lawful { IsLawful T.cmp self.now.size self.now.nodes }
        ensures two { 2 ≤ self.now.size }
    {
        if self.nodes[node].len() == 1 {
            return None;
        }
        if self.are_small(node, node) {
            return Some(node);
        }
        if node > 0 && self.are_small(node - 1, node) {
            return Some(node - 1);
        }
        None
    }

    // Returns whether the node at `left` and the next one are small together, after the removal of
    // an item of a node.
    fn are_small(&self, left: usize, node: usize) -> bool
        requires left { left < length self.now.nodes }
        requires node { node < length self.now.nodes }
        ensures { (i : ℕ) → i < length (node_at self.now.nodes node)
            → result ≡ are_small (self.now.size / 2) (set self.now.nodes node
            (remove (node_at self.now.nodes node) i)) left }
    {
        let count = self.nodes.len();
        left + 1 < count
            && fit_in_one_node(
                self.length_without(left, node),
                self.length_without(left + 1, node),
                self.size / 2,
            )
    }

    // Returns the length of the node at a place, after the removal of an item of a node.
    fn length_without(&self, place: usize, node: usize) -> usize
        requires place { place < length self.now.nodes }
        requires node { node < length self.now.nodes }
        ensures { (i : ℕ) → i < length (node_at self.now.nodes node)
            → result ≡ length (node_at (set self.now.nodes node
            (remove (node_at self.now.nodes node) i)) place) }
    {
        let length = self.nodes[place].len();
        if place == node { length - 1 } else { length }
    }

    // Returns whether the event numbers of a removal fit the counter.
    pub(super) fn check_removal(&self, join: Option<usize>) -> Result<(), Refusal>
        ensures fits { OnOk result (self.now.next + count_with join ≤ u64.MAX) }
        ensures memory { OnOk result (refusal_for self.now.next (count_with join)
            ≡ Refusal.Memory) }
        ensures refusal { IfErr result (λ e. e ≡ refusal_for self.now.next (count_with join)) }
        ensures short { OnErr result (u64.MAX < self.now.next + count_with join) }
    {
        if removal_count(join) > u64::MAX - self.next {
            return Err(Refusal::Numbers);
        }
        Ok(())
    }

    // Removes the item at a place, and merges the node at `join`, if given, with the next one. A
    // failed call changes nothing.
    pub(super) fn take(
        &mut self,
        node: usize,
        offset: usize,
        join: Option<usize>,
    ) -> Result<T, Refusal>
        requires node { node < length self.old.nodes }
        requires offset { offset < length (node_at self.old.nodes node) }
        requires join { join ≡ merge_after self.old.size self.old.nodes node offset }
        requires numbers { self.old.next + count_with join ≤ u64.MAX }

        // Result.
        ensures item { IfOk result (λ item. slice_get (node_at self.old.nodes node) offset
            ≡ Some item) }

        // Failure.
        ensures refusal { IfErr result (λ e. e ≡ Refusal.Memory) }
        ensures unchanged { OnErr result (self.new ≡ self.old) }

        // Memory.
        ensures no_memory { join ≡ None → IsOk result }
        ensures never { Node.allocates ≡ false → IsOk result }

        // Nodes.
        ensures tree { OnOk result (self.new ≡ after_place_removal self.old node offset) }
    {
        match join {
            Some(left) => self.take_joining(node, offset, left),
            None => Ok(self.remove_item(node, offset)),
        }
    }

    // Removes the item at a place, and merges the node at `left` with the next one. A failed call
    // changes nothing.
    fn take_joining(&mut self, node: usize, offset: usize, left: usize) -> Result<T, Refusal>
        requires node { node < length self.old.nodes }
        requires offset { offset < length (node_at self.old.nodes node) }
        requires join { merge_after self.old.size self.old.nodes node offset ≡ Some left }
        requires numbers { self.old.next + 2 ≤ u64.MAX }

        // Result.
        ensures item { IfOk result (λ item. slice_get (node_at self.old.nodes node) offset
            ≡ Some item) }

        // Failure.
        ensures refusal { IfErr result (λ e. e ≡ Refusal.Memory) }
        ensures unchanged { OnErr result (self.new ≡ self.old) }

        // Memory.
        ensures never { Node.allocates ≡ false → IsOk result }

        // Nodes.
        ensures tree { OnOk result (self.new ≡ after_place_removal self.old node offset) }
    {
        let item = remove_and_merge(&mut self.nodes, &mut self.index, node, offset, left)?;
        self.next += 2;
        self.len -= 1;
        Ok(item)
    }

    // Removes the item at a place, and the node if this empties it.
    fn remove_item(&mut self, node: usize, offset: usize) -> T
        requires node { node < length self.old.nodes }
        requires offset { offset < length (node_at self.old.nodes node) }
        requires join { merge_after self.old.size self.old.nodes node offset ≡ None }
        requires number { self.old.next < u64.MAX }
        ensures tree { self.new ≡ after_place_removal self.old node offset }
        ensures item { slice_get (node_at self.old.nodes node) offset ≡ Some result }
    {
        self.next += 1;
        self.len -= 1;
        remove_item(&mut self.nodes, &mut self.index, node, offset)
    }
}

// Returns the number of events of a removal.
fn removal_count(join: Option<usize>) -> u64
    ensures { result ≡ count_with join }
{
    match join {
        Some(_) => 2,
        None => 1,
    }
}
