//! Changed bytes, and bytes that cannot be read.

use super::drill::{Drill, Part};
use super::history::{COMMANDS, FURTHER};
use super::runs::{Ended, LEADER, PAGE, files_after, run_over};
use crate::files::{file_of, turned};
use sqlite::Files;
use sqlite_disk::{Memory, Rot};
use std::alloc::Global;
use std::test::Fail;

/// The distance of the bytes of the log that are changed.
const STRIDE: usize = 61;

/// The distance of the bytes that cannot be read: at least one in each page, which is read as a
/// whole.
const HALF: usize = 256;

type Rotten = Rot<Memory>;

impl Drill<'_> {
    /// Returns the files with one byte changed.
    fn turned(&self, part: Part, at: usize) -> Result<Files<Memory>, Fail> {
        let (log, db) = (self.bytes(Part::Log), self.bytes(Part::Database));
        match part {
            Part::Log => Ok(Files {
                log: turned(self.alloc, log, at)?,
                db: file_of(self.alloc, db)?,
            }),
            Part::Database => Ok(Files {
                log: file_of(self.alloc, log)?,
                db: turned(self.alloc, db, at)?,
            }),
        }
    }

    /// Changes each byte of a page of the database, or bytes of the log, one at a time.
    ///
    /// Asserts that the files are refused, or have the map after all lines, or with a changed byte
    /// of the log after some of them. Returns how often they are refused.
    fn turn_each(&self, part: Part, from: usize) -> Result<usize, Fail> {
        let (count, stride, lines) = match part {
            Part::Log => (self.bytes(part).len() / STRIDE, STRIDE, 0),
            Part::Database => (PAGE, 1, self.line_count()),
        };
        let mut refused = 0usize;
        for step in 0..count {
            let at = step.saturating_mul(stride).saturating_add(from);
            if self.look(self.turned(part, at)?, lines)?.is_err() {
                refused = refused.saturating_add(1);
            }
        }
        Ok(refused)
    }

    /// Returns the files with one byte that cannot be read.
    fn rotten(&self, part: Part, at: usize) -> Result<Files<Rotten>, Fail> {
        let log = file_of(self.alloc, self.bytes(Part::Log))?;
        let db = file_of(self.alloc, self.bytes(Part::Database))?;
        let (log_at, db_at) = match part {
            Part::Log => (at, usize::MAX),
            Part::Database => (usize::MAX, at),
        };
        Ok(Files {
            log: Rot::new(log, log_at),
            db: Rot::new(db, db_at),
        })
    }

    /// Runs over files with one byte that cannot be read.
    ///
    /// Asserts that they have the map after the lines that were answered, or more. Returns whether
    /// the run failed.
    fn run_rotten(&self, part: Part, at: usize) -> Result<bool, Fail> {
        let Ended {
            answers,
            told,
            files,
        } = run_over(self.alloc, self.rotten(part, at)?, self.way, self.text)?;
        let count = self.answered(answers.as_slice())?;
        if let Some(files) = files {
            let on_disk = Files {
                log: file_of(self.alloc, files.log.inner().bytes())?,
                db: file_of(self.alloc, files.db.inner().bytes())?,
            };
            self.look(on_disk, count)??;
        }
        Ok(told.is_err())
    }

    /// Runs with one byte that cannot be read, for a byte of each page of a file.
    ///
    /// Returns how many runs failed.
    fn lose_each(&self, part: Part) -> Result<usize, Fail> {
        let mut cut = 0usize;
        for step in 0..self.bytes(part).len() / HALF {
            if self.run_rotten(part, step.saturating_mul(HALF))? {
                cut = cut.saturating_add(1);
            }
        }
        Ok(cut)
    }
}

/// Returns a leader, with its lines in files.
fn leader(alloc: Global) -> Result<Drill<'static>, Fail> {
    let made = files_after(alloc, LEADER, COMMANDS)?;
    Drill::over(alloc, made, LEADER, COMMANDS)
}

#[test]
fn a_turned_byte_of_the_first_page_is_noticed(rt: HostRuntime) -> Result<(), Fail> {
    let drill = leader(rt.alloc())?.settled()?;
    assert!(rt; drill.turn_each(Part::Database, 0)? > 100);
    Ok(())
}

#[test]
fn a_turned_byte_of_the_lines_is_noticed(rt: HostRuntime) -> Result<(), Fail> {
    let drill = leader(rt.alloc())?.settled()?;
    assert!(rt; drill.turn_each(Part::Database, PAGE)? > 100);
    Ok(())
}

#[test]
fn a_turned_byte_of_the_log_is_noticed(rt: HostRuntime) -> Result<(), Fail> {
    let drill = leader(rt.alloc())?;
    assert!(rt; drill.turn_each(Part::Log, 0)? > 10);
    Ok(())
}

#[test]
fn a_lost_byte_is_noticed(rt: HostRuntime) -> Result<(), Fail> {
    let drill = Drill::after(rt.alloc(), LEADER, COMMANDS, LEADER, FURTHER)?;
    assert!(rt; drill.lose_each(Part::Log)? > 0);
    assert!(rt; drill.settled()?.lose_each(Part::Database)? > 0);
    Ok(())
}
