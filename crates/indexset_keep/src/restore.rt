//! Restores a map from kept lines.

ghost use Rattle.std.specs.Prelude.{◌≡◌, ◌≤◌, IfOk, IsTrue, None, true};
ghost use Rattle.indexset_follow.specs.Follow.{start_state, state_after};
ghost use Rattle.indexset_follow.specs.Store.{can_lead};
ghost use Rattle.indexset_journal.specs.Kept.{texts};
ghost use Rattle.indexset_keep.specs.Roles.{role_of};

use crate::fault::KeepFault;
use crate::seal::read_seal;
use indexset_bench::key::Key;
use indexset_follow::answer::answer_line;
use indexset_follow::follower::Follower;
use indexset_follow::leader::Leader;
use indexset_follow::others::{Others, Voice};
use indexset_follow::role::Role;
use indexset_follow::store::{holding, promote};
use indexset_follow::write::Nodes;
use indexset_journal::JournalError;
use std::alloc::Global;

/// A follower that replies to each line.
const TELLING: Voice = Voice {
    others: Others::Tell,
    is_quiet: false,
};

/// Returns whether a kept line was accepted, from the reply to it. A seal is not for the follower.
fn is_taken(reply: &[u8], line: &[u8]) -> bool {
    let is_told = reply.starts_with(b"next ") || reply == b"held\n".as_slice();
    is_told || read_seal(line).is_some()
}

/// Returns a follower without a window that has read these lines.
///
/// # Errors
///
/// `Damaged` if the follower does not accept a line, such as one with keys of another type.
pub fn follow<T: Key>(alloc: Global, lines: &[Vec<u8>]) -> Result<Follower<T>, KeepFault>
    ensures follower { IfOk result (λ follower.
        follower ≡ state_after T.cmp T.texts (start_state 0) (texts lines.now)) }
{
    let mut follower = holding(0, Nodes::new(alloc, 0), 0);
    let mut told = Vec::new(alloc);
    for line in lines {
        told.clear();
        answer_line(alloc, TELLING, &mut told, &mut follower, line.as_slice())?;
        if !is_taken(told.as_slice(), line.as_slice()) {
            return Err(KeepFault::Journal(JournalError::Damaged));
        }
    }
    Ok(follower)
}

/// Returns whether a follower has no snapshot that has begun and not ended.
pub fn is_settled<T: Key>(follower: &Follower<T>) -> bool
    ensures coming { IsTrue result → follower.now.coming ≡ None }
    ensures done { IsTrue result → follower.now.coming_done ≡ 0 }
{
    follower.coming.is_none() && follower.coming_done == 0
}

/// Returns the initial role for the state of a follower, without copying the nodes.
///
/// A leader continues with the number that the follower awaits; a follower has this window.
///
/// # Errors
///
/// `NodeSize` if a leader would have a node of more than `size` pairs.
pub fn begin<T: Key>(
    alloc: Global,
    follower: Follower<T>,
    size: usize,
    window: u64,
    leads: bool,
) -> Result<Role<T>, KeepFault>
    requires { 2 ≤ size }
    ensures role { IfOk result (λ role. role ≡ role_of size window leads follower) }
    ensures fits { IfOk result (λ role. IsTrue leads → can_lead T.cmp size follower.held ≡ true) }
{
    let done = follower.done;
    let mut held = follower.held;
    if !leads {
        return Ok(Role::Following(holding(window, held, done)));
    }
    match promote(alloc, &mut held, size)? {
        Some(pairs) => Ok(Role::Leading(Leader { pairs, done })),
        None => Err(KeepFault::NodeSize),
    }
}
