//! Two files in memory, and a store over them.

use indexset_journal::JournalError;
use sqlite::{Connection, FileStore, Files, Options};
use sqlite_disk::{Disk, Memory};
use std::alloc::Global;
use std::test::Fail;

/// The statement that creates the table of lines.
pub(crate) const TABLE: &str =
    "CREATE TABLE kept (number INTEGER PRIMARY KEY, line TEXT NOT NULL) STRICT";

/// Returns two new files.
pub(crate) fn new_files(alloc: Global) -> Files<Memory> {
    Files {
        log: Memory::new(alloc),
        db: Memory::new(alloc),
    }
}

/// Returns a file of these bytes.
pub(crate) fn file_of(alloc: Global, bytes: &[u8]) -> Result<Memory, Fail> {
    let mut file = Memory::new(alloc);
    file.write_at(0, bytes)?;
    file.sync()?;
    Ok(file)
}

/// Returns a file of these bytes with one byte changed. The changed bits depend on the position.
pub(crate) fn turned(alloc: Global, bytes: &[u8], at: usize) -> Result<Memory, Fail> {
    let mut copy = bytes.to_vec(alloc)?;
    if let Some(byte) = copy.get_mut(at) {
        *byte ^= (at % 255 + 1) as u8;
    }
    file_of(alloc, copy.as_slice())
}

/// Returns the store of two files, and creates the table of lines if they have none.
///
/// New files have checksums if `has_sums`.
///
/// # Errors
///
/// The error, with the files.
pub(crate) fn store_over<D: Disk + Drop>(
    alloc: Global,
    files: Files<D>,
    options: Options,
    has_sums: bool,
) -> Result<FileStore<D>, (JournalError, Files<D>)> {
    if !files.may_be_used() {
        return Err((JournalError::Shut, files));
    }
    let mut conn = match Connection::open_files_with(alloc, files, options, has_sums) {
        Ok(conn) => conn,
        Err((error, left)) => return Err((JournalError::from(error), left.into_files())),
    };
    if !conn.schema().tables.as_slice().is_empty() {
        return Ok(conn.into_store());
    }
    let made = conn.execute(TABLE, &[]);
    let store = conn.into_store();
    match made {
        Ok(_) => Ok(store),
        Err(error) => Err((JournalError::from(error), store.close())),
    }
}

/// Copies the log of a store to the database.
pub(crate) fn copied<D: Disk + Drop>(store: FileStore<D>) -> Result<FileStore<D>, JournalError> {
    let mut store = store;
    store.checkpoint()?;
    Ok(store)
}
