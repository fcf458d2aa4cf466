//! Values inserted one by one, ascending runs of them by blocks.
ghost use Rattle.std.specs.Prelude.{◌≡◌, ◌++◌, OnOk, IfErr};
ghost use Rattle.indexset_core.specs.Order.{IsAscending, keep};
ghost use Rattle.indexset_spine.specs.NodeList.{node_list, items, with_all_last};
ghost use Rattle.indexset_set.specs.SetNodes.{nodes_kept};

use super::BTreeSet;
use super::inner::{join_run, recall_order};
use indexset_core::refusal::Refusal;

impl<T: Ord + Drop> BTreeSet<T> {
    // Inserts a value as `insert` does, while the values of a run follow the elements and are not
    // in the set yet: a value above all joins the run, and any other is inserted after the run is.
    // A failed call drops the value.
    pub(super) fn keep_behind(&mut self, run: &mut Vec<T>, value: T) -> Result<(), Refusal>
        requires order { IsAscending T.cmp (items self.old ++ run.old.items) }

        // Contents.
        ensures order { OnOk result (IsAscending T.cmp (items self.new ++ run.new.items)) }
        ensures kept { OnOk result (items self.new ++ run.new.items
            ≡ keep T.cmp (items self.old ++ run.old.items) value) }

        // Failure.
        ensures refusal { IfErr result (λ e. e ≡ Refusal.Memory) }

        // Nodes.
        ensures nodes { OnOk result (with_all_last self.old.size self.new.nodes run.new.items
            ≡ nodes_kept T.cmp (node_list (with_all_last self.old.size self.old.nodes run.old.items)
            self.old.size) value) }
        ensures size { self.new.size ≡ self.old.size }
    {
        recall_order(self);
        match join_run(self, run, value) {
            Ok(None) => Ok(()),
            Ok(Some(value)) => {
                self.insert(value)?;
                recall_order(self);
                Ok(())
            }
            Err(refused) => Err(refused.cause),
        }
    }
}
