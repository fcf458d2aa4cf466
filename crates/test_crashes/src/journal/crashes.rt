//! Crashes after a number of calls of the disk.

use super::support::{lines, opened, shown, store_of};
use indexset_journal::{Journal, JournalError};
use sqlite::Files;
use sqlite_disk::{Fuse, Memory};
use sqlite_trees::store::{Reopen, Store};
use std::alloc::Global;
use std::test::Fail;

/// The lines after each number of successful calls.
const TEXTS: [&[u8]; 6] = [b"", b"a b ", b"a b c ", b"d ", b"d e ", b""];

/// Makes the calls in order, up to the first that fails, and returns how many succeeded.
fn run<S: Store>(alloc: Global, journal: &mut Journal<S>) -> Result<usize, JournalError> {
    if journal
        .append(lines(alloc, &["a", "b"])?.as_slice())
        .is_err()
    {
        return Ok(0);
    }
    if journal.append(lines(alloc, &["c"])?.as_slice()).is_err() {
        return Ok(1);
    }
    if journal.replace(lines(alloc, &["d"])?.as_slice()).is_err() {
        return Ok(2);
    }
    if journal.append(lines(alloc, &["e"])?.as_slice()).is_err() {
        return Ok(3);
    }
    if journal.replace(&[]).is_err() {
        return Ok(4);
    }
    Ok(5)
}

/// Opens the journal of a store, and makes the calls.
///
/// Returns how many succeeded and the store, or `None` if the journal could not be opened.
fn run_on<S: Store + Drop>(alloc: Global, store: S) -> Result<Option<(usize, S)>, Fail> {
    let Ok((mut journal, found)) = opened(alloc, store) else {
        return Ok(None);
    };
    if !found.is_empty() {
        return Err(Fail::new("lines from nowhere"));
    }
    let done = run(alloc, &mut journal)?;
    Ok(Some((done, journal.into_store())))
}

/// Crashes, and asserts that the lines are those after `done` calls or after the next call.
///
/// The journal then continues.
fn is_found<S: Reopen + Drop>(alloc: Global, store: S, done: usize) -> Result<(), Fail> {
    let mut store = store;
    store.crash_and_reopen()?;
    let (mut again, found) = opened(alloc, store)?;
    let text = shown(alloc, found.as_slice())?;
    let mut either = TEXTS.iter().skip(done).take(2);
    if !either.any(|known| text.as_slice() == *known) {
        return Err(Fail::new("neither the lines from before nor all of the new ones"));
    }
    again.append(lines(alloc, &["z"])?.as_slice())?;
    Ok(())
}

/// Runs over files that fail from a call on, crashes, and opens the files again.
///
/// Returns how many calls succeeded, or `None` if the journal could not be opened.
fn run_until(alloc: Global, log_calls: u64, db_calls: u64) -> Result<Option<usize>, Fail> {
    let files = Files {
        log: Fuse::new(Memory::new(alloc), log_calls),
        db: Fuse::new(Memory::new(alloc), db_calls),
    };
    let Ok(store) = store_of(alloc, files, false) else {
        return Ok(None);
    };
    let Some((done, store)) = run_on(alloc, store)? else {
        return Ok(None);
    };
    is_found(alloc, store, done)?;
    Ok(Some(done))
}

#[test]
fn calls_of_both_files_end(rt: HostRuntime) -> Result<(), Fail> {
    let (mut least, mut most) = (5, 0);
    for calls in [0, 12, 28, 44, 60, 80, 116] {
        if let Some(done) = run_until(rt.alloc(), calls, calls)? {
            least = done.min(least);
            most = done.max(most);
        }
    }
    assert!(rt; least < 5);
    assert!(rt; most == 5);
    Ok(())
}

#[test]
fn calls_of_one_file_end(rt: HostRuntime) -> Result<(), Fail> {
    let mut ends = false;
    for calls in [0, 21, 49, 98] {
        run_until(rt.alloc(), calls, 1_000_000)?;
        if run_until(rt.alloc(), 1_000_000, calls)? == Some(5) {
            ends = true;
        }
    }
    assert!(rt; ends);
    Ok(())
}
