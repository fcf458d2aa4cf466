//! Entries whose keys ascend, collected in a run that is appended by blocks.
ghost use Rattle.std.specs.Prelude.{◌≡◌, ◌++◌, OnOk, IfErr, map};
ghost use Rattle.indexset_core.specs.Order.{IsAscending};
ghost use Rattle.indexset_core.specs.Pairs.{by_key, entry_of};
ghost use Rattle.indexset_map.specs.Contents.{with_all, with_entry};

use super::BTreeMap;
use indexset_core::pair::Pair;
use indexset_core::refusal::Refusal;
use indexset_set::inner;

impl<K: Ord + Drop, V: Drop> BTreeMap<K, V> {
    // Inserts an entry behind a run that is not yet appended. If its key is above all others, it
    // joins the run; otherwise the run is appended first. A failed call drops the entry.
    pub(super) fn put_behind(
        &mut self,
        run: &mut Vec<Pair<K, V>>,
        key: K,
        value: V,
    ) -> Result<(), Refusal>
        requires order { IsAscending (by_key K.cmp) (self.old.pairs ++ run.old.items) }
        ensures order { OnOk result (IsAscending (by_key K.cmp) (self.new.pairs ++ run.new.items)) }
        ensures inserted { OnOk result (with_all K.cmp self.new (map entry_of run.new.items)
            ≡ with_entry K.cmp (with_all K.cmp self.old (map entry_of run.old.items)) key value) }
        ensures refusal { IfErr result (λ e. e ≡ Refusal.Memory) }
    {
        inner::recall_order(&self.set);
        let joined = inner::join_run(&mut self.set, run, Pair { key, value });
        inner::recall_order(&self.set);
        match joined {
            Ok(None) => Ok(()),
            Ok(Some(Pair { key, value })) => {
                self.insert(key, value)?;
                self.recall_order();
                Ok(())
            }
            Err(refused) => Err(refused.cause),
        }
    }

    // Appends the pairs of a run. A failed call has moved a prefix.
    pub(super) fn take_run(&mut self, run: &mut Vec<Pair<K, V>>) -> Result<(), Refusal>
        requires order { IsAscending (by_key K.cmp) (self.old.pairs ++ run.old.items) }
        ensures inserted { OnOk result (self.new
            ≡ with_all K.cmp self.old (map entry_of run.old.items)) }
        ensures refusal { IfErr result (λ e. e ≡ Refusal.Memory) }
    {
        inner::recall_order(&self.set);
        inner::take_run(&mut self.set, run)?;
        Ok(())
    }
}
