//! Runs over two files.

use crate::files::{copied, file_of, store_over};
use indexset_follow::others::{Others, Voice};
use indexset_journal::Journal;
use indexset_keep::KeepFault;
use indexset_keep::kept::Kept;
use indexset_keep::manner::Manner;
use indexset_keep::run::run;
use sqlite::{FileStore, Files, Options};
use sqlite_disk::{Disk, Memory};
use std::alloc::Global;
use std::io::BufReader;
use std::test::Fail;

/// The maximum number of pairs in a node of a leader.
pub(crate) const SIZE: usize = 4;

/// How far ahead of the awaited event a follower holds events.
pub(crate) const WINDOW: u64 = 64;

/// A map that answers each line.
pub(crate) const VOICE: Voice = Voice {
    others: Others::Tell,
    is_quiet: false,
};

/// A cache of few pages and a short log, so that pages are read again and the log is copied to the
/// database.
const NARROW: Options = Options {
    cache_pages: 2,
    spill_pages: 2,
    checkpoint_frames: 12,
    seed: 1,
};

/// The first bytes of an empty SQLite file with the smallest pages, so that few lines fill several
/// pages.
const EMPTY: &[u8] = b"SQLite format 3\0\x02\0\x02\x02\0\x40\x20\x20\0\0\0\x02\0\0\0\x01\
\0\0\0\0\0\0\0\0\0\0\0\x03\0\0\0\0\0\0\0\0\0\0\0\0\0\0\0\x01\0\0\0\0\0\0\0\0\0\0\0\0\0\0\0\0\
\0\0\0\0\0\0\0\0\0\0\0\0\0\0\0\0\0\0\0\x02\0\x2e\x63\x01\x0d\0\0\0\0\x02\0\0";

/// The size of such a page in bytes.
pub(crate) const PAGE: usize = 512;

/// The settings of a run.
#[derive(Clone, Copy, Debug)]
pub(crate) struct Way {
    /// Whether the map starts as a leader.
    pub(crate) leads: bool,
    /// The number of bytes that a read returns.
    pub(crate) at_hand: usize,
}

/// A leader that makes a commit for each line.
pub(crate) const LEADER: Way = Way {
    leads: true,
    at_hand: 1,
};

/// A leader that makes a commit for a few lines.
pub(crate) const GROUPS: Way = Way {
    leads: true,
    at_hand: 40,
};

/// A follower that makes a commit for each line.
pub(crate) const FOLLOWER: Way = Way {
    leads: false,
    at_hand: 1,
};

/// The outcome of a run.
#[derive(Drop)]
pub(crate) struct Ended<D: Disk> {
    /// The output.
    pub(crate) answers: Vec<u8>,
    /// The result.
    pub(crate) told: Result<(), KeepFault>,
    /// The files, unless the journal could not be opened.
    pub(crate) files: Option<Files<D>>,
}

/// Returns two files with small pages and no table.
pub(crate) fn small_files(alloc: Global) -> Result<Files<Memory>, Fail> {
    let mut db = file_of(alloc, EMPTY)?;
    if db.may_be_used() {
        db.set_len(PAGE)?;
    }
    if db.may_be_used() {
        db.sync()?;
    }
    Ok(Files {
        log: Memory::new(alloc),
        db,
    })
}

/// Returns the files after a run without faults.
pub(crate) fn files_after(alloc: Global, way: Way, text: &[u8]) -> Result<Files<Memory>, Fail> {
    let Ended {
        answers: _,
        told,
        files,
    } = run_over(alloc, small_files(alloc)?, way, text)?;
    told?;
    match files {
        Some(files) => Ok(files),
        None => Err(Fail::new("the journal could not be opened")),
    }
}

/// Copies the log of two files to the database.
pub(crate) fn without_log(alloc: Global, files: Files<Memory>) -> Result<Files<Memory>, Fail> {
    match store_over(alloc, files, NARROW, false) {
        Ok(store) => Ok(copied(store)?.close()),
        Err((error, _files)) => Err(Fail::from(error)),
    }
}

/// Opens the journal of two files, and returns the files.
pub(crate) fn opened<D: Disk + Drop>(alloc: Global, files: Files<D>) -> Files<D> {
    let store = match store_over(alloc, files, NARROW, false) {
        Ok(store) => store,
        Err((_error, files)) => return files,
    };
    match Journal::open(alloc, store) {
        Ok((journal, _lines)) => journal.into_store().close(),
        Err((_error, store)) => store.close(),
    }
}

/// Runs over two files.
pub(crate) fn run_over<D: Disk + Drop>(
    alloc: Global,
    files: Files<D>,
    way: Way,
    text: &[u8],
) -> Result<Ended<D>, Fail> {
    match store_over(alloc, files, NARROW, false) {
        Ok(store) => run_on(alloc, store, way, text),
        Err((error, files)) => Ok(Ended {
            answers: Vec::new(alloc),
            told: Err(KeepFault::Journal(error)),
            files: Some(files),
        }),
    }
}

/// Runs over a store.
fn run_on<D: Disk + Drop>(
    alloc: Global,
    store: FileStore<D>,
    way: Way,
    text: &[u8],
) -> Result<Ended<D>, Fail> {
    let mut answers = Vec::new(alloc);
    let (mut kept, found) = match Kept::open(alloc, store) {
        Ok(opened) => opened,
        Err(error) => {
            return Ok(Ended {
                answers,
                told: Err(KeepFault::Journal(error)),
                files: None,
            });
        }
    };
    let manner = Manner {
        voice: VOICE,
        size: SIZE,
        window: WINDOW,
        leads: way.leads,
    };
    let mut reader = BufReader::with_capacity(alloc, way.at_hand, text)?;
    let lines = found.as_slice();
    let told = run::<u64, _, _, _>(alloc, manner, &mut kept, lines, &mut reader, &mut answers);
    Ok(Ended {
        answers,
        told,
        files: Some(kept.journal.into_store().close()),
    })
}
