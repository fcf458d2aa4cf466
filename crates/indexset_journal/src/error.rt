//! The error of a journal.

use sqlite::ErrorCode;
use sqlite_trees::error::StoreError;
use std::alloc::{AllocError, AllocFailed};
use std::error::Error;
use std::fmt;

/// The error of a call of a journal.
#[derive(Clone, Copy, Debug, PartialEq, Eq)]
pub enum JournalError {
    /// An allocation failed.
    OutOfMemory,
    /// The disk failed.
    Disk,
    /// The file is damaged.
    Damaged,
    /// The disk or the file is full.
    Full,
    /// An earlier failure shut the store.
    Shut,
    /// A line is longer than 999,999,946 bytes.
    TooLong,
    /// The file is not a database, has another table, or has a row that is not a line.
    NotLines,
    /// Too few numbers remain for the lines.
    Numbers,
    /// Another process has the file open.
    InUse,
    /// The file cannot be opened for writing.
    CannotOpen,
}

impl fmt::Display for JournalError {
    fn fmt<W: fmt::Write>(&self, f: &mut fmt::Formatter<W>) -> fmt::Result {
        f.write_str(match self {
            JournalError::OutOfMemory => "memory ran out",
            JournalError::Disk => "the disk failed while the file was read or written",
            JournalError::Damaged => "the file is damaged",
            JournalError::Full => "the disk is full",
            JournalError::Shut =>
                "the file was closed by an earlier failure and has to be opened again",
            JournalError::TooLong => "a line is longer than 999,999,946 bytes",
            JournalError::NotLines => "the file holds something other than lines",
            JournalError::Numbers =>
                "the numbers of rows are used up; a compaction begins them again",
            JournalError::InUse => "another process has the file open",
            JournalError::CannotOpen => "the file cannot be opened for writing",
        })
    }
}

impl Error for JournalError {}

impl From<StoreError> for JournalError {
    ghost use Rattle.std.specs.Prelude.{◌≡◌};
    ghost use Rattle.indexset_journal.specs.Cause.{named};

    ghost from_gives = { λ store error. error ≡ named store };

    fn from(error: StoreError) -> JournalError {
        match error {
            StoreError::OutOfMemory => JournalError::OutOfMemory,
            StoreError::Io => JournalError::Disk,
            StoreError::Corrupt => JournalError::Damaged,
            StoreError::Full => JournalError::Full,
            StoreError::Broken => JournalError::Shut,
            StoreError::Unstorable => JournalError::TooLong,
        }
    }
}

/// Converts the error of opening the file, or of the statement that creates its table.
impl From<sqlite::Error> for JournalError {
    ghost use Rattle.std.specs.Prelude.{◌≡◌};
    ghost use Rattle.indexset_journal.specs.Opening.{opening};

    ghost from_gives = { λ failed error. error ≡ opening failed };

    fn from(error: sqlite::Error) -> JournalError {
        let sqlite::Error::SqliteFailure(code) = error else {
            return JournalError::NotLines;
        };
        match code {
            ErrorCode::OutOfMemory => JournalError::OutOfMemory,
            ErrorCode::SystemIoFailure => JournalError::Disk,
            ErrorCode::DatabaseCorrupt => JournalError::Damaged,
            ErrorCode::DiskFull => JournalError::Full,
            ErrorCode::Closed => JournalError::Shut,
            ErrorCode::TooBig => JournalError::TooLong,
            ErrorCode::DatabaseBusy => JournalError::InUse,
            ErrorCode::CannotOpen => JournalError::CannotOpen,
            _ => JournalError::NotLines,
        }
    }
}

impl From<AllocError> for JournalError {
    ghost use Rattle.std.specs.Prelude.{◌≡◌};
    ghost use Rattle.indexset_journal.specs.declared.error.JournalError.TheVariants.{OutOfMemory};

    ghost from_gives = { λ _ error. error ≡ OutOfMemory };

    fn from(_error: AllocError) -> JournalError {
        JournalError::OutOfMemory
    }
}

impl<T: Drop> From<AllocFailed<T>> for JournalError {
    ghost use Rattle.std.specs.Prelude.{◌≡◌};
    ghost use Rattle.indexset_journal.specs.declared.error.JournalError.TheVariants.{OutOfMemory};

    ghost from_gives = { λ _ error. error ≡ OutOfMemory };

    fn from(_error: AllocFailed<T>) -> JournalError {
        JournalError::OutOfMemory
    }
}
