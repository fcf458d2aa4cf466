//! The events of a removal.
ghost use Rattle.std.specs.Prelude.{◌≡◌, ℕ, ◌+◌, ◌<◌, ◌≤◌, length, remove};
ghost use Rattle.std.specs.Prelude.{slice_get, Some, IfOk, IfErr, IfSome};
ghost use Rattle.indexset_core.specs.Nodes.{node_at};
ghost use Rattle.indexset_events.specs.Clones.{IsEventClone, AreTableEvents};
ghost use Rattle.indexset_events.specs.Merging.{merge_after, item_removed};
ghost use Rattle.indexset_events.specs.Nodes.{last_of};
ghost use Rattle.indexset_events.specs.Replay.{assigned};
ghost use Rattle.indexset_events.specs.Table.{count_with, merge_event};
ghost use Rattle.indexset_events.specs.Table.{removal_event, place_removal_events};

use super::BTreeSet;
use crate::log::Log;
use indexset_core::node::NodeLike;
use indexset_core::refusal::Refusal;
use indexset_events::change::{ChangeEvent, ChangeEventUnassigned};

impl<T: Ord + Clone + Drop, Node: NodeLike<T>> BTreeSet<T, Node> {
    // Returns the events of a removal.
    pub(super) fn removal_log(
        &self,
        node: usize,
        offset: usize,
        join: Option<usize>,
    ) -> Result<Vec<ChangeEvent<T>>, Refusal>
        requires node { node < length self.now.nodes }
        requires offset { offset < length (node_at self.now.nodes node) }
        requires join { join ≡ merge_after self.now.size self.now.nodes node offset }
        requires numbers { self.now.next + count_with join ≤ u64.MAX }
        ensures events { IfOk result (λ events. IfSome (slice_get
            (node_at self.now.nodes node) offset) (λ x.
            AreTableEvents T.is_clone self.now.next
            (place_removal_events self.now.size self.now.nodes node offset x) events.items)) }
        ensures refusal { IfErr result (λ e. e ≡ Refusal.Memory) }
    {
        let mut log = Log::new(*self.nodes.allocator(), self.next);
        log.add(self.removal_event(node, offset)?)?;
        match join {
            Some(left) => {
                log.add(self.merge_event(left, node, offset)?)?;
                Ok(log.events)
            }
            None => Ok(log.events),
        }
    }

    // Returns the event of the removal of the item at a place.
    fn removal_event(&self, node: usize, offset: usize) -> Result<ChangeEventUnassigned<T>, Refusal>
        requires node { node < length self.now.nodes }
        requires offset { offset < length (node_at self.now.nodes node) }
        ensures clones { (s : ℕ) → IfOk result (λ event.
            IfSome (slice_get (node_at self.now.nodes node) offset)
            (λ x. IsEventClone T.is_clone (assigned s (removal_event
            (node_at self.now.nodes node) offset x)) (assigned s event))) }
        ensures refusal { IfErr result (λ e. e ≡ Refusal.Memory) }
    {
        let items = self.nodes[node].iter().as_slice();
        let value = items[offset].clone()?;
        if items.len() == 1 {
            return Ok(ChangeEventUnassigned::RemoveNode { max_value: value });
        }
        Ok(ChangeEventUnassigned::RemoveAt {
            max_value: items[items.len() - 1].clone()?,
            value,
            index: offset,
        })
    }

    // Returns the event that merges the node at `left` with the next one, after the removal of the
    // item at a place.
    fn merge_event(
        &self,
        left: usize,
        node: usize,
        offset: usize,
    ) -> Result<ChangeEventUnassigned<T>, Refusal>
        requires node { node < length self.now.nodes }
        requires offset { offset < length (node_at self.now.nodes node) }
        requires join { merge_after self.now.size self.now.nodes node offset ≡ Some left }
        ensures clones { (s : ℕ) (d : T) → IfOk result (λ event.
            IsEventClone T.is_clone (assigned s (merge_event
            (item_removed self.now.nodes node offset) d left)) (assigned s event)) }
        ensures refusal { IfErr result (λ e. e ≡ Refusal.Memory) }
    {
        self.recall_invariant();
        Ok(ChangeEventUnassigned::MergeNodes {
            max_value: self.last_without(left, node, offset).clone()?,
            next_max_value: self.last_without(left + 1, node, offset).clone()?,
        })
    }

    // Returns the last item of a node after the removal of the item at a place, from a node of two
    // or more items.
    fn last_without(&self, place: usize, node: usize, offset: usize) -> &T
        requires place { place < length self.now.nodes }
        requires node { node < length self.now.nodes }
        requires offset { offset < length (node_at self.now.nodes node) }
        requires two { 2 ≤ length (node_at self.now.nodes node) }
        ensures { (d : T) → last_of (node_at (item_removed self.now.nodes node offset) place) d
            ≡ result.now }
    {
        let items = self.nodes[place].iter().as_slice();
        if place == node {
            last_but(items, offset)
        } else {
            &items[items.len() - 1]
        }
    }
}

// Returns the last item but the one at `index`.
fn last_but<T>(items: &[T], index: usize) -> &T
    requires index { index < length items.now }
    requires two { 2 ≤ length items.now }
    ensures { (d : T) → last_of (remove items.now index) d ≡ result.now }
{
    let last = items.len() - 1;
    if index == last {
        &items[last - 1]
    } else {
        &items[last]
    }
}
