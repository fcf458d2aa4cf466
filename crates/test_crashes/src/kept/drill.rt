//! A run of a map that is kept, and the possible contents of its files if it is cut off.

use super::history::{Step, line_count, steps_of};
use super::runs::{FOLLOWER, Way, files_after, run_over, without_log};
use indexset_keep::KeepFault;
use sqlite::Files;
use sqlite_disk::{Disk, Memory};
use std::alloc::Global;
use std::test::Fail;

/// One of the two files.
#[derive(Clone, Copy, Debug)]
pub(crate) enum Part {
    Log,
    Database,
}

/// A run over files, with the map after each line.
#[derive(Drop)]
pub(crate) struct Drill<'a> {
    pub(crate) alloc: Global,
    /// The files before the run.
    pub(crate) made: Files<Memory>,
    /// The settings of the run.
    pub(crate) way: Way,
    /// Its lines.
    pub(crate) text: &'a [u8],
    /// The maps after no line, after the first line, and so on.
    steps: Vec<Step>,
}

impl<'a> Drill<'a> {
    /// Returns a run over files without lines.
    pub(crate) fn over(
        alloc: Global,
        made: Files<Memory>,
        way: Way,
        text: &'a [u8],
    ) -> Result<Drill<'a>, Fail> {
        let steps = steps_of(alloc, way.leads, b"", text)?;
        Ok(Drill {
            alloc,
            made,
            way,
            text,
            steps,
        })
    }

    /// Returns a run over the files of an earlier run.
    pub(crate) fn after(
        alloc: Global,
        earlier: Way,
        before: &[u8],
        way: Way,
        text: &'a [u8],
    ) -> Result<Drill<'a>, Fail> {
        let made = files_after(alloc, earlier, before)?;
        let steps = steps_of(alloc, earlier.leads, before, text)?;
        Ok(Drill {
            alloc,
            made,
            way,
            text,
            steps,
        })
    }

    /// Returns the run over the files after their log is copied to the database.
    pub(crate) fn settled(self) -> Result<Drill<'a>, Fail> {
        let Drill {
            alloc,
            made,
            way,
            text,
            steps,
        } = self;
        Ok(Drill {
            alloc,
            made: without_log(alloc, made)?,
            way,
            text,
            steps,
        })
    }

    /// Returns the bytes of one of the files before the run.
    pub(crate) fn bytes(&self, part: Part) -> &[u8] {
        match part {
            Part::Log => self.made.log.bytes(),
            Part::Database => self.made.db.bytes(),
        }
    }

    /// Returns the number of lines.
    pub(crate) fn line_count(&self) -> usize {
        line_count(self.text)
    }

    /// Returns the number of lines that have these answers.
    pub(crate) fn answered(&self, answers: &[u8]) -> Result<usize, Fail> {
        let mut steps = self.steps.iter();
        match steps.position(|step| step.answers.as_slice() == answers) {
            Some(count) => Ok(count),
            None => Err(Fail::new("not the answers to the first lines")),
        }
    }

    /// Opens files, and asserts that they have the map after `count` lines or more.
    ///
    /// An inner `Err` is the refusal of the journal.
    pub(crate) fn look<D: Disk + Drop>(
        &self,
        files: Files<D>,
        count: usize,
    ) -> Result<Result<(), KeepFault>, Fail> {
        let ended = run_over(self.alloc, files, FOLLOWER, b"snapshot\n")?;
        let map = ended.answers.as_slice();
        let mut steps = self.steps.iter().skip(count);
        let is_right = match ended.told {
            Ok(()) => steps.any(|step| step.map.as_slice() == map),
            Err(KeepFault::Journal(_)) => map.is_empty(),
            Err(_) => false,
        };
        if is_right {
            Ok(ended.told)
        } else {
            Err(Fail::new("not the map after the lines that were answered, or more"))
        }
    }
}
