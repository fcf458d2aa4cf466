//! Truncated files, and files with a changed byte.

use super::support::{lines, opened, shown, store_of};
use crate::files::{copied, file_of, new_files, turned};
use indexset_journal::JournalError;
use sqlite::Files;
use sqlite_disk::Memory;
use sqlite_trees::store::Store;
use std::alloc::Global;
use std::test::Fail;

/// The lines of the files after each commit.
const TEXTS: [&[u8]; 4] = [b"", b"first ", b"first second third ", b"fourth "];

/// The distance of the bytes that are changed, or at which a file is truncated.
const STRIDE: usize = 797;

/// Appends three lines with two commits.
fn keep_three<S: Store + Drop>(alloc: Global, store: S) -> Result<S, JournalError> {
    let (mut journal, _none) = opened(alloc, store)?;
    journal.append(lines(alloc, &["first"])?.as_slice())?;
    journal.append(lines(alloc, &["second", "third"])?.as_slice())?;
    Ok(journal.into_store())
}

/// Replaces all lines by another.
fn keep_another<S: Store + Drop>(alloc: Global, store: S) -> Result<S, JournalError> {
    let (mut journal, _found) = opened(alloc, store)?;
    journal.replace(lines(alloc, &["fourth"])?.as_slice())?;
    Ok(journal.into_store())
}

/// Returns two files with three commits, of which the last is only in the log.
fn files(alloc: Global) -> Result<Files<Memory>, JournalError> {
    let store = keep_three(alloc, store_of(alloc, new_files(alloc), true)?)?;
    let store = keep_another(alloc, copied(store)?)?;
    Ok(store.close())
}

/// Returns the lines of files, or `None` if the journal refuses them.
fn lines_in(alloc: Global, log: Memory, db: Memory) -> Result<Option<Vec<u8>>, Fail> {
    let Ok(store) = store_of(alloc, Files { log, db }, true) else {
        return Ok(None);
    };
    match opened(alloc, store) {
        Ok((_journal, found)) => Ok(Some(shown(alloc, found.as_slice())?)),
        Err(_) => Ok(None),
    }
}

/// Opens files, and asserts that the lines are those after some commit.
///
/// Returns whether the files were refused.
fn is_refused(alloc: Global, log: Memory, db: Memory) -> Result<bool, Fail> {
    let Some(text) = lines_in(alloc, log, db)? else {
        return Ok(true);
    };
    if TEXTS.iter().any(|known| text.as_slice() == *known) {
        Ok(false)
    } else {
        Err(Fail::new("lines that were never kept"))
    }
}

#[test]
fn whole_files_open(rt: HostRuntime) -> Result<(), Fail> {
    let both = files(rt.alloc())?;
    let Some(text) = lines_in(rt.alloc(), both.log, both.db)? else {
        return Err(Fail::new("whole files are refused"));
    };
    assert!(rt; text.as_slice() == TEXTS[3]);
    Ok(())
}

#[test]
fn a_turned_byte_is_noticed(rt: HostRuntime) -> Result<(), Fail> {
    let alloc = rt.alloc();
    let both = files(alloc)?;
    let (log, db) = (both.log.bytes(), both.db.bytes());
    let mut refused = false;
    for step in 0..db.len() / STRIDE {
        let changed = turned(alloc, db, STRIDE * step)?;
        if is_refused(alloc, file_of(alloc, log)?, changed)? {
            refused = true;
        }
    }
    for step in 0..log.len() / STRIDE {
        let changed = turned(alloc, log, STRIDE * step)?;
        is_refused(alloc, changed, file_of(alloc, db)?)?;
    }
    assert!(rt; refused);
    Ok(())
}

#[test]
fn a_cut_is_noticed(rt: HostRuntime) -> Result<(), Fail> {
    let alloc = rt.alloc();
    let both = files(alloc)?;
    let (log, db) = (both.log.bytes(), both.db.bytes());
    for step in 0..log.len() / STRIDE {
        let cut = file_of(alloc, &log[..STRIDE * step])?;
        is_refused(alloc, cut, file_of(alloc, db)?)?;
    }
    for step in 0..db.len() / STRIDE {
        let cut = file_of(alloc, &db[..STRIDE * step])?;
        is_refused(alloc, file_of(alloc, log)?, cut)?;
    }
    Ok(())
}
