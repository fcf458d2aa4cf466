//! Writes rows to the table of lines, and ends the transaction.
ghost use Rattle.std.specs.Prelude.{◌≡◌, ◌⊎◌, ◌+◌, ◌≤◌, ◌<◌, ◌^◌, ◌++◌, [], false};
ghost use Rattle.std.specs.Prelude.{length, Any, IsTrue, Ok, Err, IfErr, OnOk, OnErr};
ghost use Rattle.sqlite_disk.specs.Disk.{MoreFaults};
ghost use Rattle.sqlite_trees.specs.Tree.{Trees};
ghost use Rattle.sqlite_trees.specs.View.{IsClean, IsQuiet, HasCause, KeepsCommitted};
ghost use Rattle.sqlite_trees.specs.View.{Commits, IsRolledBack, Tells};
ghost use Rattle.indexset_journal.specs.Kept.{texts, rows_of, AreBelow, IsTooLong};
ghost use Rattle.indexset_journal.specs.State.{IsReady, IsSteady, Stages};

use crate::row::{TABLE, set_line};
use sqlite_trees::error::StoreError;
use sqlite_trees::store::{Direction, Store};
use sqlite_value::row::Row;
use sqlite_value::value::ValueRef;

/// Inserts the lines after all rows, numbered from `next` on.
pub(crate) fn put_lines<S: Store>(
    store: &mut S,
    row: &mut Row,
    next: u64,
    lines: &[Vec<u8>],
) -> Result<(), StoreError>
    requires room { next + length lines.now ≤ 2 ^ 63 }
    requires ready { IsClean (S.view store.old) → IsReady (S.view store.old) }
    requires below { IsClean (S.view store.old) → AreBelow next ((S.view store.old).trees 0) }

    // Contents.
    ensures ok { OnOk result (IsClean (S.view store.new)
        → Stages (S.view store.old) (S.view store.new)
        ((S.view store.old).trees 0 ++ rows_of next (texts lines.now))) }
    ensures quiet { IsQuiet S.view S.faults S.recovers S.is_shielded store.old store.new }

    // Failure.
    ensures err { OnErr result (IsClean (S.view store.new)
        → KeepsCommitted (S.view store.old) (S.view store.new)) }
    ensures cause { IsClean (S.view store.new) → IfErr result (HasCause (S.view store.old)
        (MoreFaults (S.faults store.old) (S.faults store.new)) (Any IsTooLong lines.now)) }
    ensures told { IfErr result (Tells (S.blamed store.new)) }
{
    for (at, line) in lines.iter().enumerate() {
        set_line(row, next + at as u64, line.as_slice())?;
        store.put(TABLE, row)?;
    }
    Ok(())
}

/// Deletes all rows.
pub(crate) fn take_all<S: Store>(store: &mut S, row: &mut Row) -> Result<(), StoreError>
    requires ready { IsClean (S.view store.old) → IsReady (S.view store.old) }

    // Contents.
    ensures ok { OnOk result (IsClean (S.view store.new)
        → Stages (S.view store.old) (S.view store.new) []) }
    ensures quiet { IsQuiet S.view S.faults S.recovers S.is_shielded store.old store.new }

    // Failure.
    ensures err { OnErr result (IsClean (S.view store.new)
        → KeepsCommitted (S.view store.old) (S.view store.new)) }
    ensures cause { IsClean (S.view store.new) → IfErr result (HasCause (S.view store.old)
        (MoreFaults (S.faults store.old) (S.faults store.new)) ⊥) }
    ensures told { IfErr result (Tells (S.blamed store.new)) }
{
    'rows: for _ in 0..u64::MAX {
        row.clear();
        store.seek(0, TABLE, row, Direction::Forward)?;
        if !store.next(0, row)? {
            return Ok(());
        }
        let ValueRef::Int(number) = row.get(0) else {
            // Each row of a table has a number.
            return Err(StoreError::OutOfMemory);
        };
        store.delete(TABLE, number)?;
    }
    // No table has that many rows.
    Err(StoreError::OutOfMemory)
}

/// Replaces all rows by the lines.
pub(crate) fn put_instead<S: Store>(
    store: &mut S,
    row: &mut Row,
    lines: &[Vec<u8>],
) -> Result<(), StoreError>
    requires room { length lines.now ≤ 2 ^ 63 }
    requires ready { IsClean (S.view store.old) → IsReady (S.view store.old) }

    // Contents.
    ensures ok { OnOk result (IsClean (S.view store.new)
        → Stages (S.view store.old) (S.view store.new) (rows_of 0 (texts lines.now))) }
    ensures quiet { IsQuiet S.view S.faults S.recovers S.is_shielded store.old store.new }

    // Failure.
    ensures err { OnErr result (IsClean (S.view store.new)
        → KeepsCommitted (S.view store.old) (S.view store.new)) }
    ensures cause { IsClean (S.view store.new) → IfErr result (HasCause (S.view store.old)
        (MoreFaults (S.faults store.old) (S.faults store.new)) (Any IsTooLong lines.now)) }
    ensures told { IfErr result (Tells (S.blamed store.new)) }
{
    take_all(store, row)?;
    put_lines(store, row, 0, lines)
}

/// Commits what was staged, or rolls it back if that failed.
pub(crate) fn commit_or_undo<S: Store>(
    store: &mut S,
    staged: Result<(), StoreError>,
) -> Result<(), StoreError>
    requires told { IfErr staged (Tells (S.blamed store.old)) }

    // Contents.
    ensures ok { OnOk result (IsClean (S.view store.new)
        → Commits (S.view store.old) (S.view store.new)) }
    ensures crash { (db : Trees) → S.recovers store.new db
        → ((staged ≡ Ok tt) × (db ≡ (S.view store.old).trees)) ⊎ S.recovers store.old db }
    ensures steady { IsSteady S.view S.faults S.is_shielded store.old store.new }

    // Failure.
    ensures staged { OnOk result (staged ≡ Ok tt) }
    ensures err { OnErr result (IsRolledBack (S.view store.old) (S.view store.new)) }
    ensures cause { IsClean (S.view store.new) → IfErr result (λ error. (staged ≡ Err error)
        ⊎ ((staged ≡ Ok tt) × HasCause (S.view store.old)
        (MoreFaults (S.faults store.old) (S.faults store.new)) ⊥ error)) }
    ensures told { IfErr result (Tells (S.blamed store.new)) }
{
    match staged {
        Ok(()) => store.commit(),
        Err(error) => {
            store.rollback();
            Err(error)
        }
    }
}
