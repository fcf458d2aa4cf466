//! What the tests share.

use crate::files::store_over;
use indexset_journal::{Journal, JournalError};
use sqlite::{FileStore, Files, Options};
use sqlite_disk::Disk;
use sqlite_trees::store::Store;
use std::alloc::Global;

/// A small cache, which is fast to create.
const SMALL: Options = Options {
    cache_pages: 20,
    spill_pages: 20,
    checkpoint_frames: 1_000,
    seed: 1,
};

/// Returns a line for each text.
pub(crate) fn lines(alloc: Global, texts: &[&str]) -> Result<Vec<Vec<u8>>, JournalError> {
    let mut lines = Vec::new(alloc);
    for text in texts {
        lines.push(text.as_bytes().to_vec(alloc)?)?;
    }
    Ok(lines)
}

/// Returns the lines as one text, with a space after each.
pub(crate) fn shown(alloc: Global, lines: &[Vec<u8>]) -> Result<Vec<u8>, JournalError> {
    let mut text = Vec::new(alloc);
    for line in lines {
        text.extend_from_slice(line.as_slice())?;
        text.push(b' ')?;
    }
    Ok(text)
}

/// Returns the store of two files, with the table of lines. New files have checksums if `has_sums`.
pub(crate) fn store_of<D: Disk + Drop>(
    alloc: Global,
    files: Files<D>,
    has_sums: bool,
) -> Result<FileStore<D>, JournalError> {
    match store_over(alloc, files, SMALL, has_sums) {
        Ok(store) => Ok(store),
        Err((error, _files)) => Err(error),
    }
}

/// Opens a journal, and drops the store on failure.
pub(crate) fn opened<S: Store + Drop>(
    alloc: Global,
    store: S,
) -> Result<(Journal<S>, Vec<Vec<u8>>), JournalError> {
    match Journal::open(alloc, store) {
        Ok(both) => Ok(both),
        Err((error, _store)) => Err(error),
    }
}
