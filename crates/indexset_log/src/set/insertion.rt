//! The insertion of an item where its plan says.
ghost use Rattle.std.specs.Prelude.{◌≡◌, ◌+◌, ◌≤◌, [], length, Some, IfOk, OnOk, IfErr, OnErr};
ghost use Rattle.indexset_core.specs.Nodes.{concat, IsLawful};
ghost use Rattle.indexset_core.specs.Order.{equal_element, has_equal};
ghost use Rattle.indexset_log.specs.Changed.{Fits, put_change, refusal_of};
ghost use Rattle.indexset_log.specs.InsertPlan.{IsInsertPlan, IsPlanned, count_for, is_present};
ghost use Rattle.indexset_events.specs.Clones.{AreTableEvents};
ghost use Rattle.indexset_log.specs.Edits.{after_put};
ghost use Rattle.indexset_events.specs.Table.{put_events};
ghost use Rattle.indexset_log.specs.Tree.{refusal_for};

use super::BTreeSet;
use crate::insert_plan::{InsertPlan, event_count};
use crate::log::{Log, add_halving, add_put};
use crate::nodes::{first_node, make_room, part_of, put_in};
use indexset_core::item_iter::OfNode;
use indexset_core::locate::node_by;
use indexset_core::node::NodeLike;
use indexset_core::probe::ByItem;
use indexset_core::refusal::{Refusal, Refused};
use indexset_core::search;
use indexset_events::change::{ChangeEvent, ChangeEventUnassigned};

impl<T: Ord + Clone + Drop, Node: NodeLike<T>> BTreeSet<T, Node> {
    // Returns where to insert an item; `None` in an empty tree.
    pub(super) fn aim(&self, value: &T) -> Option<InsertPlan>
        // Result.
        ensures aim { IsPlanned T.cmp self.now.size self.now.nodes value.now result }
        ensures present { is_present result ≡ has_equal T.cmp (concat self.now.nodes) value.now }

        // Contents.
        ensures number { self.now.next ≤ u64.MAX }

        // Nodes.
        ensures lawful { IsLawful T.cmp self.now.size self.now.nodes }
        ensures two { 2 ≤ self.now.size }
    {
        // A call without events does not overflow the counter.
        self.recall_invariant();
        if self.nodes.is_empty() {
            return None;
        }
        Some(self.aim_in_target(value))
    }

    // Inserts an item at its aim, and returns the events.
    pub(super) fn put_cdc_at(
        &mut self,
        aim: Option<InsertPlan>,
        value: T,
    ) -> Result<(Option<T>, Vec<ChangeEvent<T>>), Refused<T>>
        requires { IsPlanned T.cmp self.old.size self.old.nodes value aim }

        // Result.
        ensures answer { IfOk result (λ r. r.0 ≡ equal_element T.cmp
            (concat self.old.nodes) value) }
        ensures events { IfOk result (λ r. AreTableEvents T.is_clone self.old.next
            (put_events T.cmp self.old.size self.old.nodes value) r.1.items) }

        // Failure.
        ensures fits { OnOk result (Fits self.old (put_change T.cmp self.old value)) }
        ensures refusal { IfErr result (λ e. e.cause ≡ refusal_of self.old
            (put_change T.cmp self.old value)) }
        ensures given_back { IfErr result (λ e. e.value ≡ value) }
        ensures unchanged { OnErr result (self.new ≡ self.old) }

        // Nodes.
        ensures tree { OnOk result (self.new ≡ after_put T.cmp self.old value) }
    {
        let next = match self.next_after(&aim) {
            Ok(next) => next,
            Err(cause) => return Err(Refused { value, cause }),
        };
        match self.put_log(&aim, &value) {
            Ok(events) => match self.carry_out(aim, next, value) {
                Ok(old) => Ok((old, events)),
                Err(refused) => Err(refused),
            },
            Err(cause) => Err(Refused { value, cause }),
        }
    }

    // Inserts an item at its aim.
    pub(super) fn put_at(
        &mut self,
        aim: Option<InsertPlan>,
        value: T,
    ) -> Result<Option<T>, Refused<T>>
        requires { IsPlanned T.cmp self.old.size self.old.nodes value aim }

        // Result.
        ensures answer { IfOk result (λ old. old ≡ equal_element T.cmp
            (concat self.old.nodes) value) }

        // Failure.
        ensures fits { OnOk result (Fits self.old (put_change T.cmp self.old value)) }
        ensures refusal { IfErr result (λ e. e.cause ≡ refusal_of self.old
            (put_change T.cmp self.old value)) }
        ensures given_back { IfErr result (λ e. e.value ≡ value) }
        ensures unchanged { OnErr result (self.new ≡ self.old) }

        // Nodes.
        ensures tree { OnOk result (self.new ≡ after_put T.cmp self.old value) }
    {
        match self.next_after(&aim) {
            Ok(next) => self.carry_out(aim, next, value),
            Err(cause) => Err(Refused { value, cause }),
        }
    }

    // Returns the number of the next event after a put, if the event numbers fit.
    pub(super) fn next_after(&self, aim: &Option<InsertPlan>) -> Result<u64, Refusal>
        // Result.
        ensures next { IfOk result (λ next. next ≡ self.now.next + count_for aim.now) }

        // Failure.
        ensures fits { OnOk result (self.now.next + count_for aim.now ≤ u64.MAX) }
        ensures refusal { IfErr result (λ e. e ≡ refusal_for self.now.next (count_for aim.now)) }

        // Memory.
        ensures memory { OnOk result (refusal_for self.now.next (count_for aim.now)
            ≡ Refusal.Memory) }

        // Nodes.
        ensures lawful { IsLawful T.cmp self.now.size self.now.nodes }
        ensures two { 2 ≤ self.now.size }
    {
        let count = event_count(aim);
        if count > u64::MAX - self.next {
            return Err(Refusal::Numbers);
        }
        Ok(self.next + count)
    }

    // Returns the events of a put.
    fn put_log(&self, aim: &Option<InsertPlan>, value: &T) -> Result<Vec<ChangeEvent<T>>, Refusal>
        requires aim { IsPlanned T.cmp self.now.size self.now.nodes value.now aim.now }
        requires fits { self.now.next + count_for aim.now ≤ u64.MAX }
        ensures events { IfOk result (λ events. AreTableEvents T.is_clone self.now.next
            (put_events T.cmp self.now.size self.now.nodes value.now) events.items) }
        ensures refusal { IfErr result (λ e. e ≡ Refusal.Memory) }
    {
        match aim {
            Some(aim) => self.target_log(aim, value),
            None => self.first_log(value),
        }
    }

    // Inserts an item at its aim, and sets the number of the next event to `next`. A failed call
    // returns the item in the error and changes nothing.
    fn carry_out(
        &mut self,
        aim: Option<InsertPlan>,
        next: u64,
        value: T,
    ) -> Result<Option<T>, Refused<T>>
        requires aim { IsPlanned T.cmp self.old.size self.old.nodes value aim }
        requires next { next ≡ self.old.next + count_for aim }

        // Result.
        ensures answer { IfOk result (λ old. old ≡ equal_element T.cmp
            (concat self.old.nodes) value) }

        // Failure.
        ensures refusal { IfErr result (λ e. e.cause ≡ Refusal.Memory) }
        ensures given_back { IfErr result (λ e. e.value ≡ value) }
        ensures unchanged { OnErr result (self.new ≡ self.old) }

        // Nodes.
        ensures tree { OnOk result (self.new ≡ after_put T.cmp self.old value) }
    {
        match aim {
            Some(aim) => self.put_in_target(aim, next, value),
            None => self.put_first(next, value),
        }
    }

    // Returns where to insert an item, in a tree with nodes.
    fn aim_in_target(&self, value: &T) -> InsertPlan
        requires { 1 ≤ length self.now.nodes }
        ensures { IsInsertPlan T.cmp self.now.size self.now.nodes value.now result }
    {
        let node = node_by::<T, Node, OfNode, ByItem<'_, T>>(
            self.nodes.as_slice(),
            &mut ByItem::new(value),
        );
        let items = self.nodes[node].iter().as_slice();
        let full = items.len() == self.size;
        let right = full && value.cmp(&items[items.len() / 2 - 1]).is_gt();
        InsertPlan {
            node,
            full,
            right,
            at: search::find_in(part_of(items, full, right), value, self.nodes.len()),
        }
    }

    // Returns the events of a put into a tree with nodes.
    fn target_log(&self, aim: &InsertPlan, value: &T) -> Result<Vec<ChangeEvent<T>>, Refusal>
        requires aim { IsInsertPlan T.cmp self.now.size self.now.nodes value.now aim.now }
        requires fits { self.now.next + count_for (Some aim.now) ≤ u64.MAX }
        ensures events { IfOk result (λ events. AreTableEvents T.is_clone self.now.next
            (put_events T.cmp self.now.size self.now.nodes value.now) events.items) }
        ensures refusal { IfErr result (λ e. e ≡ Refusal.Memory) }
    {
        let mut log = Log::new(*self.nodes.allocator(), self.next);
        let items = self.nodes[aim.node].iter().as_slice();
        add_halving(&mut log, items, self.size)?;
        add_put(
            &mut log,
            part_of(items, aim.full, aim.right),
            &aim.at,
            value,
        )?;
        Ok(log.events)
    }

    // Inserts an item into a tree with nodes. A failed call returns it in the error and changes
    // nothing.
    fn put_in_target(
        &mut self,
        aim: InsertPlan,
        next: u64,
        value: T,
    ) -> Result<Option<T>, Refused<T>>
        requires aim { IsInsertPlan T.cmp self.old.size self.old.nodes value aim }
        requires next { next ≡ self.old.next + count_for (Some aim) }

        // Result.
        ensures answer { IfOk result (λ old. old ≡ equal_element T.cmp
            (concat self.old.nodes) value) }

        // Failure.
        ensures refusal { IfErr result (λ e. e.cause ≡ Refusal.Memory) }
        ensures given_back { IfErr result (λ e. e.value ≡ value) }
        ensures unchanged { OnErr result (self.new ≡ self.old) }

        // Nodes.
        ensures tree { OnOk result (self.new ≡ after_put T.cmp self.old value) }
    {
        if aim.growth() > usize::MAX - self.len {
            return Err(Refused {
                value,
                cause: Refusal::Memory,
            });
        }
        match make_room(&mut self.nodes, &mut self.index, &aim) {
            Ok(place) => {
                self.next = next;
                self.len += aim.growth();
                Ok(put_in(&mut self.nodes, &mut self.index, place, aim.at, value))
            }
            Err(cause) => Err(Refused { value, cause }),
        }
    }

    // Inserts the first item. A failed call returns it in the error and changes nothing.
    #[tactic(auto, unfolding(indexset_events::specs::Edits::with_put, indexset_events::specs::Table::put_events))]
    fn put_first(&mut self, next: u64, value: T) -> Result<Option<T>, Refused<T>>
        requires none { self.old.nodes ≡ [] }
        requires next { next ≡ self.old.next + 1 }

        // Result.
        ensures answer { IfOk result (λ old. old ≡ equal_element T.cmp
            (concat self.old.nodes) value) }

        // Failure.
        ensures refusal { IfErr result (λ e. e.cause ≡ Refusal.Memory) }
        ensures given_back { IfErr result (λ e. e.value ≡ value) }
        ensures unchanged { OnErr result (self.new ≡ self.old) }

        // Nodes.
        ensures tree { OnOk result (self.new ≡ after_put T.cmp self.old value) }
    {
        match first_node(&mut self.nodes, &mut self.index) {
            Ok(mut node) => {
                node.insert_at(0, value);
                self.nodes.push_reserved(node);
                self.index
                    .insert::<T, Node, OfNode>(0, self.nodes.as_slice());
                self.len = 1;
                self.next = next;
                Ok(None)
            }
            Err(cause) => Err(Refused { value, cause }),
        }
    }

    // Returns the event of the first item's insertion.
    #[tactic(auto, unfolding(indexset_events::specs::Table::put_events))]
    fn first_log(&self, value: &T) -> Result<Vec<ChangeEvent<T>>, Refusal>
        requires none { self.now.nodes ≡ [] }
        requires fits { self.now.next + 1 ≤ u64.MAX }
        ensures events { IfOk result (λ events. AreTableEvents T.is_clone self.now.next
            (put_events T.cmp self.now.size self.now.nodes value.now) events.items) }
        ensures refusal { IfErr result (λ e. e ≡ Refusal.Memory) }
    {
        let mut log = Log::new(*self.nodes.allocator(), self.next);
        log.add(ChangeEventUnassigned::CreateNode {
            max_value: value.clone()?,
        })?;
        Ok(log.events)
    }
}
