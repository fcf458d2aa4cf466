//! Runs in which the calls of a file fail from some call on, for each call.

use super::drill::{Drill, Part};
use super::history::{COMMANDS, EVENTS, EVENTS_THEN_COMMANDS, FURTHER};
use super::runs::{Ended, FOLLOWER, GROUPS, LEADER, opened, run_over, small_files};
use crate::files::{file_of, new_files};
use sqlite::Files;
use sqlite_disk::{Crash, Disk, Fuse, Memory};
use std::alloc::Global;
use std::test::Fail;

type Burning = Fuse<Memory>;

/// More calls than any run makes.
const MANY: u64 = 10_000;

/// The number of calls of each file that succeed.
#[derive(Clone, Copy, Debug)]
struct Calls {
    log: u64,
    db: u64,
}

impl Calls {
    /// Returns that `count` calls of one file succeed, and all of the other file.
    fn of(part: Part, count: u64) -> Calls {
        match part {
            Part::Log => Calls {
                log: count,
                db: MANY,
            },
            Part::Database => Calls {
                log: MANY,
                db: count,
            },
        }
    }
}

/// Returns whether a call of a file has failed.
fn has_failed(file: &mut Burning) -> bool {
    !file.may_be_used() || file.len().is_err()
}

/// Returns copies of the files that do not fail.
fn on_disk(alloc: Global, files: &Files<Burning>) -> Result<Files<Memory>, Fail> {
    Ok(Files {
        log: file_of(alloc, files.log.inner().bytes())?,
        db: file_of(alloc, files.db.inner().bytes())?,
    })
}

/// Returns whether the files have the same bytes.
fn are_same(files: &Files<Memory>, others: &Files<Memory>) -> bool {
    files.log.bytes() == others.log.bytes() && files.db.bytes() == others.db.bytes()
}

impl Drill<'_> {
    /// Returns copies of the files, with this number of calls that succeed.
    fn burning(&self, calls: Calls) -> Result<Files<Burning>, Fail> {
        Ok(Files {
            log: Fuse::new(file_of(self.alloc, self.made.log.bytes())?, calls.log),
            db: Fuse::new(file_of(self.alloc, self.made.db.bytes())?, calls.db),
        })
    }

    /// Runs over files with this number of calls that succeed, and opens them again.
    ///
    /// Returns whether a call failed.
    fn run_until(&self, calls: Calls) -> Result<bool, Fail> {
        let Ended {
            answers,
            told,
            files,
        } = run_over(self.alloc, self.burning(calls)?, self.way, self.text)?;
        let count = self.answered(answers.as_slice())?;
        let mut files = self.left(files, calls)?;
        let has_failed = has_failed(&mut files.log) | has_failed(&mut files.db);
        if !has_failed || told.is_ok() {
            told?;
            self.ends_well(count)?;
        }
        self.look_after(files, count)?;
        Ok(has_failed)
    }

    /// Returns the files after a run, or after a failed open of its journal.
    fn left(&self, files: Option<Files<Burning>>, calls: Calls) -> Result<Files<Burning>, Fail> {
        match files {
            Some(files) => Ok(files),
            None => Ok(opened(self.alloc, self.burning(calls)?)),
        }
    }

    /// Asserts that each line was answered.
    fn ends_well(&self, count: usize) -> Result<(), Fail> {
        if count == self.line_count() {
            Ok(())
        } else {
            Err(Fail::new("a run ends well, and has not answered each line"))
        }
    }

    /// Opens files again, as a kill leaves them, and as a loss of power leaves them, without
    /// unsynced writes.
    fn look_after(&self, files: Files<Burning>, count: usize) -> Result<(), Fail> {
        let mut files = files;
        let written = on_disk(self.alloc, &files)?;
        files.log.crash();
        files.db.crash();
        let synced = on_disk(self.alloc, &files)?;
        if !are_same(&written, &synced) {
            self.look(written, count)??;
        }
        self.look(synced, count)??;
        Ok(())
    }

    /// Runs with failures from each call of one of the files on. Returns the number of calls.
    fn fail_each(&self, part: Part) -> Result<u64, Fail> {
        for count in 0..MANY {
            if !self.run_until(Calls::of(part, count))? {
                return Ok(count);
            }
        }
        Err(Fail::new("there is no end of calls"))
    }
}

#[test]
fn each_call_on_new_files_fails(rt: HostRuntime) -> Result<(), Fail> {
    let alloc = rt.alloc();
    let drill = Drill::over(alloc, new_files(alloc), LEADER, b"put 5 30\n")?;
    assert!(rt; drill.fail_each(Part::Log)? > 20);
    assert!(rt; drill.fail_each(Part::Database)? > 10);
    Ok(())
}

#[test]
fn each_call_of_a_leader_fails(rt: HostRuntime) -> Result<(), Fail> {
    let alloc = rt.alloc();
    let drill = Drill::over(alloc, small_files(alloc)?, LEADER, COMMANDS)?;
    assert!(rt; drill.fail_each(Part::Log)? > 80);
    assert!(rt; drill.fail_each(Part::Database)? > 15);
    Ok(())
}

#[test]
fn each_call_of_a_leader_of_groups_fails(rt: HostRuntime) -> Result<(), Fail> {
    let alloc = rt.alloc();
    let drill = Drill::over(alloc, small_files(alloc)?, GROUPS, COMMANDS)?;
    assert!(rt; drill.fail_each(Part::Log)? > 40);
    assert!(rt; drill.fail_each(Part::Database)? > 10);
    Ok(())
}

#[test]
fn each_call_of_a_follower_fails(rt: HostRuntime) -> Result<(), Fail> {
    let alloc = rt.alloc();
    let drill = Drill::over(alloc, small_files(alloc)?, FOLLOWER, EVENTS)?;
    assert!(rt; drill.fail_each(Part::Log)? > 60);
    assert!(rt; drill.fail_each(Part::Database)? > 10);
    Ok(())
}

#[test]
fn each_call_of_a_follower_that_leads_fails(rt: HostRuntime) -> Result<(), Fail> {
    let alloc = rt.alloc();
    let drill = Drill::over(alloc, small_files(alloc)?, FOLLOWER, EVENTS_THEN_COMMANDS)?;
    assert!(rt; drill.fail_each(Part::Log)? > 60);
    assert!(rt; drill.fail_each(Part::Database)? > 10);
    Ok(())
}

#[test]
fn each_call_after_a_restart_fails(rt: HostRuntime) -> Result<(), Fail> {
    let drill = Drill::after(rt.alloc(), LEADER, COMMANDS, LEADER, FURTHER)?;
    assert!(rt; drill.fail_each(Part::Log)? > 80);
    assert!(rt; drill.fail_each(Part::Database)? > 10);
    Ok(())
}

#[test]
fn each_call_after_a_restart_that_leads_fails(rt: HostRuntime) -> Result<(), Fail> {
    let alloc = rt.alloc();
    let mut before = EVENTS.to_vec(alloc)?;
    before.extend_from_slice(b"lead\n")?;
    let drill = Drill::after(alloc, FOLLOWER, before.as_slice(), LEADER, FURTHER)?;
    assert!(rt; drill.fail_each(Part::Log)? > 80);
    assert!(rt; drill.fail_each(Part::Database)? > 10);
    Ok(())
}
