//! A journal: a list of the events of all calls to a set that was empty at first.
ghost use Rattle.std.specs.Prelude.{◌≡◌, [], length, take, Some, IfErr, OnErr, OnOk};
ghost use Rattle.std.specs.Ordering.{nat_cmp};
ghost use Rattle.indexset.specs.Words.{IsNumberedFrom, concat, put, replay, without};

use crate::change_log::Numbers;
use indexset::base::refusal::{Refusal, Refused};
use indexset::cdc::change::ChangeEvent;
use indexset::cdc::laws;

/// Inserts a number, and appends the events of the call to the journal.
///
/// Replaying the journal from no nodes gives the nodes of the set, also after an error.
///
/// # Errors
///
/// Only `Memory`, since a list is full before event numbers run out. A failed call changes nothing,
/// and returns the value in the error.
pub fn insert(
    tree: &mut Numbers,
    journal: &mut Vec<ChangeEvent<u64>>,
    value: u64,
) -> Result<(), Refused<u64>>
    requires replay { replay nat_cmp [] journal.old.items ≡ Some tree.old.nodes }
    requires numbered { IsNumberedFrom 0 journal.old.items }
    requires next { tree.old.next ≡ length journal.old.items }

    // Contents.
    ensures numbered { IsNumberedFrom 0 journal.new.items }
    ensures next { tree.new.next ≡ length journal.new.items }
    ensures contents { OnOk result (concat tree.new.nodes
        ≡ put nat_cmp (concat tree.old.nodes) value) }
    ensures kept { take (length journal.old.items) journal.new.items ≡ journal.old.items }

    // Failure.
    ensures given_back { IfErr result (λ refused. refused.value ≡ value) }
    ensures unchanged { OnErr result (tree.new ≡ tree.old) }

    // Memory.
    ensures memory { IfErr result (λ refused. refused.cause ≡ Refusal.Memory) }

    // Nodes.
    ensures replay { replay nat_cmp [] journal.new.items ≡ Some tree.new.nodes }
{
    // A call returns at most three events. With space for three, none is lost, and there are
    // numbers for them.
    laws::three_events::<u64>();
    if journal.reserve(3).is_err() {
        let cause = Refusal::Memory;
        return Err(Refused { value, cause });
    }
    let (_, mut events) = tree.put_cdc(value)?;
    laws::replay_in_parts::<u64>();
    laws::numbered_by_place::<u64>();
    laws::numbered_in_parts::<u64>();
    let _appended = journal.append(&mut events);
    Ok(())
}
