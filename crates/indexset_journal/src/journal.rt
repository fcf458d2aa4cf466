//! The journal.
ghost use Rattle.std.specs.Prelude.{◌≡◌, ◌⊎◌, ◌+◌, ◌<◌, ◌≤◌, ◌^◌, ◌++◌, false};
ghost use Rattle.std.specs.Prelude.{length, IsTrue, IfOk, IfErr, OnOk, OnErr};
ghost use Rattle.sqlite_disk.specs.Disk.{MoreFaults};
ghost use Rattle.sqlite_trees.specs.Tree.{Trees};
ghost use Rattle.sqlite_trees.specs.View.{IsClean, IsQuiet};
ghost use Rattle.indexset_journal.specs.Kept.{texts, lines_in, rows_of, next_number};
ghost use Rattle.indexset_journal.specs.State.{HoldsLines, IsSteady};
ghost use Rattle.indexset_journal.specs.Cause.{is_of_disk, Explains, FailsToKeep};
ghost use Rattle.indexset_journal.specs.Cause.{FailsToOpen, TellsFault};

use crate::error::JournalError;
use crate::read::find_lines;
use crate::write::{commit_or_undo, put_instead, put_lines};
use sqlite_trees::store::Store;
use sqlite_value::row::Row;
use std::alloc::Global;
use std::marker::Model;

/// SQLite's row numbers are less than this one.
const PAST_LAST: u64 = 1 << 63;

/// Lines in the only table of a store. They survive a crash.
#[derive(Drop)]
pub struct Journal<S: Store> {
    store: S,
    // The number of the next line.
    next: u64,
    // A buffer for the row that is written.
    row: Row,
}

impl<S: Store> Model for Journal<S> {
    ghost use Rattle.indexset_journal.specs.State.{RestsIfOpen};

    ghost Value = { S };

    ghost view = { λ journal. journal.store };

    ghost invariant = { λ journal. RestsIfOpen journal.next (S.view journal.store) };
}

/// Returns the number after those of `count` lines that are numbered from `next` on.
fn end_of<S: Store>(store: &S, next: u64, count: usize) -> Result<u64, JournalError>
    ensures end { IfOk result (λ end. (end ≡ next + count) × (end ≤ 2 ^ 63)) }
    ensures sound { OnOk result (IsClean (S.view store.now)
        → (S.view store.now).is_broken ≡ false) }
    ensures cause { IfErr result (λ error. IsClean (S.view store.now)
        → Explains ⊥ (IsTrue (S.view store.now).is_broken) ⊥
        (((S.view store.now).is_broken ≡ false) × (2 ^ 63 < next + count)) ⊥ error) }
    ensures other { IfErr result (λ error. is_of_disk error ≡ false) }
{
    if store.is_broken() {
        return Err(JournalError::Shut);
    }
    match next.checked_add(count as u64) {
        Some(end) if end <= PAST_LAST => Ok(end),
        _ => Err(JournalError::Numbers),
    }
}

impl<S: Store> Journal<S> {
    /// Opens the journal of a store, and returns it with its lines in order.
    ///
    /// An open transaction of the store is rolled back. Nothing is committed.
    ///
    /// # Examples
    ///
    /// ```
    /// # use indexset_journal::Journal;
    /// let mut conn = sqlite::Connection::open_in_memory(alloc)?;
    /// let table = "CREATE TABLE kept (number INTEGER PRIMARY KEY, line TEXT NOT NULL) STRICT";
    /// conn.execute(table, &[])?;
    /// let opened = Journal::open(alloc, conn.into_store());
    /// assert!(rt; opened.is_ok_and(|(_, lines)| lines.is_empty()));
    /// ```
    ///
    /// # Errors
    ///
    /// The error, with the store: see [`JournalError`].
    pub fn open(
        alloc: Global,
        mut store: S,
    ) -> Result<(Journal<S>, Vec<Vec<u8>>), (JournalError, S)>
        // Result.
        ensures lines { IfOk result (λ opened. IsClean (S.view opened.0)
            → texts opened.1.items ≡ lines_in (S.view opened.0).committed) }

        // Contents.
        ensures holds { IfOk result (λ opened. IsClean (S.view opened.0)
            → IsTrue (S.view opened.0).is_open × HoldsLines (S.view opened.0)) }
        ensures same { IfOk result (λ opened. IsClean (S.view opened.0)
            → (S.view opened.0).committed ≡ (S.view store).committed) }
        ensures any_moment { IfOk result (λ opened.
            IsQuiet S.view S.faults S.recovers S.is_shielded store opened.0) }

        // Failure.
        ensures same_err { IfErr result (λ failed. IsClean (S.view failed.1)
            → IsTrue (S.view failed.1).is_open
            → (S.view failed.1).committed ≡ (S.view store).committed) }
        ensures any_moment_err { IfErr result (λ failed.
            IsQuiet S.view S.faults S.recovers S.is_shielded store failed.1) }
        ensures cause { IfErr result (λ failed. IsClean (S.view failed.1)
            → FailsToOpen (S.view store) (MoreFaults (S.faults store)
            (S.faults failed.1)) failed.0) }
        ensures told { IfErr result (λ failed. TellsFault (S.blamed failed.1) failed.0) }
    {
        store.rollback();
        match find_lines(alloc, &mut store) {
            Ok((lines, next)) => {
                let row = Row::new(alloc);
                Ok((Journal { store, next, row }, lines))
            }
            Err(error) => Err((error, store)),
        }
    }

    /// Appends lines, with one commit.
    ///
    /// After `Ok` the lines survive a crash. A crash during the call leaves the lines from before
    /// the call, or those and all new lines.
    ///
    /// # Examples
    ///
    /// ```
    /// # use indexset_journal::Journal;
    /// # let mut conn = sqlite::Connection::open_in_memory(alloc)?;
    /// # let table = "CREATE TABLE kept (number INTEGER PRIMARY KEY, line TEXT NOT NULL) STRICT";
    /// # conn.execute(table, &[])?;
    /// if let Ok((mut journal, _)) = Journal::open(alloc, conn.into_store()) {
    ///     journal.append(&[b"one".to_vec(alloc)?, b"two".to_vec(alloc)?])?;
    ///     let opened = Journal::open(alloc, journal.into_store());
    ///     assert!(rt; opened.is_ok_and(|(_, lines)| lines.len() == 2));
    /// }
    /// ```
    ///
    /// # Errors
    ///
    /// See [`JournalError`]. While the store is open, the lines are as before the call. Only a
    /// failure of the disk shuts the store.
    pub fn append(&mut self, lines: &[Vec<u8>]) -> Result<(), JournalError>
        // Contents.
        ensures kept { OnOk result (IsClean (S.view self.new) → IsTrue (S.view self.new).is_open
            × (lines_in (S.view self.new).committed
            ≡ lines_in (S.view self.old).committed ++ texts lines.now)) }
        ensures numbered { OnOk result (IsClean (S.view self.new)
            → (S.view self.new).committed 0 ≡ (S.view self.old).committed 0
            ++ rows_of (next_number ((S.view self.old).committed 0)) (texts lines.now)) }
        ensures durable { OnOk result (IsClean (S.view self.new)
            → (db : Trees) → S.recovers self.new db
            → lines_in db ≡ lines_in (S.view self.old).committed ++ texts lines.now) }
        ensures any_moment { IsClean (S.view self.new) → (db : Trees) → S.recovers self.new db
            → S.recovers self.old db
            ⊎ (lines_in db ≡ lines_in (S.view self.old).committed ++ texts lines.now) }
        ensures steady { IsSteady S.view S.faults S.is_shielded self.old self.new }

        // Failure.
        ensures same { OnErr result (IsClean (S.view self.new) → IsTrue (S.view self.new).is_open
            → (S.view self.new).committed ≡ (S.view self.old).committed) }
        ensures cause { IsClean (S.view self.new) → IfErr result (FailsToKeep (S.view self.old)
            (MoreFaults (S.faults self.old) (S.faults self.new))
            (next_number ((S.view self.old).committed 0)) lines.now) }
        ensures told { IfErr result (TellsFault (S.blamed self.new)) }
    {
        let end = end_of(&self.store, self.next, lines.len())?;
        let staged = put_lines(&mut self.store, &mut self.row, self.next, lines);
        commit_or_undo(&mut self.store, staged)?;
        self.next = end;
        Ok(())
    }

    /// Replaces all lines, with one commit.
    ///
    /// After `Ok` the new lines survive a crash. A crash during the call leaves the old lines, or
    /// all new lines.
    ///
    /// # Examples
    ///
    /// ```
    /// # use indexset_journal::Journal;
    /// # let mut conn = sqlite::Connection::open_in_memory(alloc)?;
    /// # let table = "CREATE TABLE kept (number INTEGER PRIMARY KEY, line TEXT NOT NULL) STRICT";
    /// # conn.execute(table, &[])?;
    /// if let Ok((mut journal, _)) = Journal::open(alloc, conn.into_store()) {
    ///     journal.append(&[b"one".to_vec(alloc)?, b"two".to_vec(alloc)?])?;
    ///     journal.replace(&[b"both".to_vec(alloc)?])?;
    ///     let opened = Journal::open(alloc, journal.into_store());
    ///     assert!(rt; opened.is_ok_and(|(_, lines)| lines.len() == 1));
    /// }
    /// ```
    ///
    /// # Errors
    ///
    /// See [`JournalError`]. While the store is open, the lines are as before the call. Only a
    /// failure of the disk shuts the store.
    pub fn replace(&mut self, lines: &[Vec<u8>]) -> Result<(), JournalError>
        // Contents.
        ensures kept { OnOk result (IsClean (S.view self.new) → IsTrue (S.view self.new).is_open
            × (lines_in (S.view self.new).committed ≡ texts lines.now)) }
        ensures numbered { OnOk result (IsClean (S.view self.new)
            → (S.view self.new).committed 0 ≡ rows_of 0 (texts lines.now)) }
        ensures durable { OnOk result (IsClean (S.view self.new)
            → (db : Trees) → S.recovers self.new db → lines_in db ≡ texts lines.now) }
        ensures any_moment { IsClean (S.view self.new) → (db : Trees) → S.recovers self.new db
            → S.recovers self.old db ⊎ (lines_in db ≡ texts lines.now) }
        ensures steady { IsSteady S.view S.faults S.is_shielded self.old self.new }

        // Failure.
        ensures same { OnErr result (IsClean (S.view self.new) → IsTrue (S.view self.new).is_open
            → (S.view self.new).committed ≡ (S.view self.old).committed) }
        ensures cause { IsClean (S.view self.new) → IfErr result (FailsToKeep (S.view self.old)
            (MoreFaults (S.faults self.old) (S.faults self.new)) 0 lines.now) }
        ensures told { IfErr result (TellsFault (S.blamed self.new)) }
    {
        let end = end_of(&self.store, 0, lines.len())?;
        let staged = put_instead(&mut self.store, &mut self.row, lines);
        commit_or_undo(&mut self.store, staged)?;
        self.next = end;
        Ok(())
    }

    /// Returns the store.
    ///
    /// ```
    /// # use indexset_journal::Journal;
    /// # let mut conn = sqlite::Connection::open_in_memory(alloc)?;
    /// # let table = "CREATE TABLE kept (number INTEGER PRIMARY KEY, line TEXT NOT NULL) STRICT";
    /// # conn.execute(table, &[])?;
    /// if let Ok((journal, _)) = Journal::open(alloc, conn.into_store()) {
    ///     let store = journal.into_store();
    ///     assert!(rt; Journal::open(alloc, store).is_ok());
    /// }
    /// ```
    pub fn into_store(self) -> S
        ensures { result ≡ self }
    {
        let Journal {
            store,
            next: _,
            row: _,
        } = self;
        store
    }
}
