//! What is kept of a line that a follower reads.

ghost use Rattle.std.specs.Prelude.{◌≡◌, ◌++◌, IfErr, IfOk, List, ℕ, OnOk, Some};
ghost use Rattle.indexset_follow.specs.EventLine.{event_of};
ghost use Rattle.indexset_follow.specs.Follow.{after_event, after_line, after_mark};
ghost use Rattle.indexset_follow.specs.declared.role.Role.TheVariants as role;
ghost use Rattle.indexset_journal.specs.Kept.{texts};
ghost use Rattle.indexset_keep.specs.Followed.{event_kept, line_kept, mark_kept};
ghost use Rattle.indexset_keep.specs.Tells.{lines_told};

use crate::role::{next_number, push_snapshot};
use crate::text::{push_first, push_line};
use indexset_bench::key::Key;
use indexset_follow::event::{Event, read_event};
use indexset_follow::follower::Follower;
use indexset_follow::mark::{Mark, read_mark};
use indexset_follow::role::Role;
use indexset_follow::snapshot::wrong_end;
use indexset_lines::RunFault;
use std::alloc::Global;

/// What is kept of a line that a follower reads.
#[derive(Drop)]
pub enum Tells {
    /// Nothing.
    Nothing,
    /// The line.
    Line,
    /// As many of these lines of events as are applied.
    Steps(Vec<Vec<u8>>),
    /// A snapshot.
    Snapshot,
}

/// Returns what is kept of a line that a follower is about to read.
pub fn followed<T: Key>(
    alloc: Global,
    follower: &Follower<T>,
    line: &[u8],
) -> Result<Tells, RunFault>
    ensures tells { IfOk result (λ tells. lines_told T.texts tells line.now follower.now.held.next
        (role.Following (after_line T.cmp T.texts follower.now line.now))
        ≡ line_kept T.cmp T.texts follower.now line.now) }
    ensures fault { IfErr result (λ fault. fault ≡ RunFault.Memory) }
{
    if let Some(event) = read_event(alloc, line)? {
        return steps(alloc, follower, &event, line);
    }
    match read_mark(line) {
        Some(Mark::Done(_, end)) if follower.held.next() >= end => Ok(Tells::Line),
        Some(Mark::End(count, sum)) => snapshot(alloc, follower, count, sum),
        _ => Ok(Tells::Nothing),
    }
}

/// Returns the lines of the awaited event and of the early events after it, or nothing for another
/// event.
fn steps<T: Key>(
    alloc: Global,
    follower: &Follower<T>,
    event: &Event<T>,
    line: &[u8],
) -> Result<Tells, RunFault>
    requires { event_of T.texts line.now ≡ Some event.now }
    ensures tells { IfOk result (λ tells. lines_told T.texts tells line.now follower.now.held.next
        (role.Following (after_event T.cmp follower.now event.now))
        ≡ event_kept T.cmp T.texts follower.now event.now) }
    ensures fault { IfErr result (λ fault. fault ≡ RunFault.Memory) }
{
    let next = follower.held.next();
    if event.id().inner() != next {
        return Ok(Tells::Nothing);
    }
    let Some(second) = next.checked_add(1) else {
        return Ok(Tells::Nothing);
    };
    let mut lines = follower.early.lines_from(alloc, second)?;
    let first = line.to_vec(alloc).map_err(|_| RunFault::Memory)?;
    lines.insert(0, first).map_err(|_| RunFault::Memory)?;
    Ok(Tells::Steps(lines))
}

/// Returns `Snapshot` if these numbers end a complete snapshot.
fn snapshot<T: Key>(
    alloc: Global,
    follower: &Follower<T>,
    count: u64,
    sum: Option<u64>,
) -> Result<Tells, RunFault>
    ensures tells { (line : List ℕ) → IfOk result (λ tells. lines_told T.texts tells line
        follower.now.held.next (role.Following (after_mark T.texts follower.now (Mark.End count
        sum))) ≡ mark_kept T.texts follower.now line (Mark.End count sum)) }
    ensures fault { IfErr result (λ fault. fault ≡ RunFault.Memory) }
{
    let Some(coming) = &follower.coming else {
        return Ok(Tells::Nothing);
    };
    match wrong_end(alloc, coming, follower.coming_done, count, sum)? {
        Some(_) => Ok(Tells::Nothing),
        None => Ok(Tells::Snapshot),
    }
}

impl Tells {
    /// Appends what is kept of a line that was read, where `next` was awaited before it.
    pub fn push<T: Key>(
        self,
        alloc: Global,
        told: &mut Vec<Vec<u8>>,
        line: &[u8],
        next: u64,
        role: &Role<T>,
    ) -> Result<(), RunFault>
        ensures told { OnOk result (texts told.new.items
            ≡ texts told.old.items ++ lines_told T.texts self line.now next role.now) }
        ensures fault { IfErr result (λ fault. fault ≡ RunFault.Memory) }
    {
        match self {
            Tells::Nothing => Ok(()),
            Tells::Line => push_line(alloc, told, line),
            Tells::Steps(lines) => {
                let count = next_number(role).saturating_sub(next);
                push_first(alloc, told, lines.as_slice(), count as usize)
            }
            Tells::Snapshot => push_snapshot(alloc, told, role),
        }
    }
}
