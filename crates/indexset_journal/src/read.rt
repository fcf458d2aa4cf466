//! Reads the lines of a store that was just opened.
ghost use Rattle.std.specs.Prelude.{◌≡◌, ◌≤◌, ◌^◌, false, IsTrue, IfOk, IfErr, OnOk, OnErr};
ghost use Rattle.std.specs.List.{AllByRecursion};
ghost use Rattle.sqlite_disk.specs.Disk.{MoreFaults};
ghost use Rattle.sqlite_trees.specs.View.{IsClean, IsQuiet, KeepsCommitted};
ghost use Rattle.indexset_journal.specs.Kept.{IsLine, texts};
ghost use Rattle.indexset_journal.specs.State.{IsForLines, IsAlone, Reads};
ghost use Rattle.indexset_journal.specs.Cause.{Explains, TellsFault};

use crate::error::JournalError;
use crate::row::{TABLE, number_of};
use sqlite_trees::sound::bytes_of;
use sqlite_trees::store::{Direction, Shape, Store};
use sqlite_value::row::Row;
use std::alloc::Global;

/// Returns whether the store has only the table of lines.
fn is_for_lines<S: Store>(store: &S) -> bool
    ensures yes { IsTrue result → IsForLines (S.view store.now).shape (S.view store.now).reals }
    ensures no { result ≡ false → ¬ (IsForLines (S.view store.now).shape (S.view store.now).reals
        × IsAlone (S.view store.now).shape) }
{
    store.shape(TABLE) == Shape::Table && store.reals(TABLE) == 0 && store.tree_count() <= 1
}

/// Returns the lines of the table, and the number of the next line.
fn read_lines<S: Store>(alloc: Global, store: &mut S) -> Result<(Vec<Vec<u8>>, u64), JournalError>
    // Result.
    ensures ok { IfOk result (λ read. IsClean (S.view store.new)
        → Reads (S.view store.old) (S.view store.new) (texts read.0.items) read.1) }
    ensures small { IfOk result (λ read. read.1 ≤ 2 ^ 63) }

    // Contents.
    ensures quiet { IsQuiet S.view S.faults S.recovers S.is_shielded store.old store.new }

    // Failure.
    ensures err { OnErr result (IsClean (S.view store.new)
        → KeepsCommitted (S.view store.old) (S.view store.new)) }
    ensures cause { IsClean (S.view store.new) → IfErr result (Explains
        (MoreFaults (S.faults store.old) (S.faults store.new)) (IsTrue (S.view store.old).is_broken)
        ⊥ ⊥ (¬ AllByRecursion IsLine ((S.view store.old).trees 0))) }
    ensures told { IfErr result (TellsFault (S.blamed store.new)) }
{
    let mut row = Row::new(alloc);
    store.seek(0, TABLE, &row, Direction::Forward)?;
    let mut lines = Vec::new(alloc);
    let mut next = 0;
    'rows: for _ in 0..u64::MAX {
        if !store.next(0, &mut row)? {
            return Ok((lines, next));
        }
        let Some(number) = number_of(&row) else {
            return Err(JournalError::NotLines);
        };
        next = next.max(number + 1);
        lines.push(bytes_of(row.get(2)).to_vec(alloc)?)?;
    }
    // No table has that many rows.
    Err(JournalError::OutOfMemory)
}

/// Does `read_lines` for a store that has the table of lines and no open transaction.
pub(crate) fn find_lines<S: Store>(
    alloc: Global,
    store: &mut S,
) -> Result<(Vec<Vec<u8>>, u64), JournalError>
    // Result.
    ensures ok { IfOk result (λ read. IsClean (S.view store.new)
        → Reads (S.view store.old) (S.view store.new) (texts read.0.items) read.1) }

    // Contents.
    ensures quiet { IsQuiet S.view S.faults S.recovers S.is_shielded store.old store.new }

    // Failure.
    ensures form { OnOk result (IsForLines (S.view store.old).shape (S.view store.old).reals) }
    ensures err { OnErr result (IsClean (S.view store.new)
        → KeepsCommitted (S.view store.old) (S.view store.new)) }
    ensures cause { IsClean (S.view store.new) → IfErr result (Explains
        (MoreFaults (S.faults store.old) (S.faults store.new)) (IsTrue (S.view store.old).is_broken)
        ⊥ ⊥ (((S.view store.old).is_broken ≡ false)
        × ¬ (IsForLines (S.view store.old).shape (S.view store.old).reals
        × AllByRecursion IsLine ((S.view store.old).trees 0) × IsAlone (S.view store.old).shape))) }
    ensures told { IfErr result (TellsFault (S.blamed store.new)) }
{
    if store.is_broken() {
        return Err(JournalError::Shut);
    }
    if !is_for_lines(store) {
        return Err(JournalError::NotLines);
    }
    read_lines(alloc, store)
}
