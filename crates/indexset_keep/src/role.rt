//! The state of a map in either role.

ghost use Rattle.std.specs.Prelude.{◌≡◌, ◌++◌, IfErr, OnOk, length};
ghost use Rattle.indexset_core.specs.Nodes.{concat};
ghost use Rattle.indexset_follow.specs.Copy.{unsummed_text};
ghost use Rattle.indexset_journal.specs.Kept.{texts};
ghost use Rattle.indexset_keep.specs.Roles.{copy_held, done_held, snapshot_of};

use crate::text::push_text_lines;
use indexset_bench::key::Key;
use indexset_follow::reads::{Reads, write_unsummed};
use indexset_follow::role::Role;
use indexset_lines::RunFault;
use std::alloc::Global;

/// Returns the number of the next event.
pub fn next_number<T: Key>(role: &Role<T>) -> u64
    ensures { result ≡ (copy_held role.now).next }
{
    match role {
        Role::Following(follower) => follower.held.next_number(),
        Role::Leading(leader) => leader.pairs.next_number(),
    }
}

/// Returns the number of pairs.
pub fn pair_count<T: Key>(role: &Role<T>) -> usize
    ensures { result ≡ length (concat (copy_held role.now).nodes) }
{
    match role {
        Role::Following(follower) => follower.held.len(),
        Role::Leading(leader) => leader.pairs.len(),
    }
}

/// Returns the number of nodes.
pub fn node_count<T: Key>(role: &Role<T>) -> usize
    ensures { result ≡ length (copy_held role.now).nodes }
{
    match role {
        Role::Following(follower) => follower.held.node_total(),
        Role::Leading(leader) => leader.pairs.node_total(),
    }
}

/// Appends the lines of a snapshot without a sum, which seals replace.
pub fn push_snapshot<T: Key>(
    alloc: Global,
    lines: &mut Vec<Vec<u8>>,
    role: &Role<T>,
) -> Result<(), RunFault>
    ensures lines { OnOk result
        (texts lines.new.items ≡ texts lines.old.items ++ snapshot_of T.texts role.now) }
    ensures fault { IfErr result (λ fault. fault ≡ RunFault.Memory) }
{
    let mut text = Vec::new(alloc);
    write_snapshot(&mut text, role)?;
    push_text_lines(alloc, lines, text.as_slice())
}

/// Writes the lines of a snapshot without a sum.
fn write_snapshot<T: Key>(text: &mut Vec<u8>, role: &Role<T>) -> Result<(), RunFault>
    ensures text { OnOk result (text.new.items ≡ text.old.items
        ++ unsummed_text T.texts (copy_held role.now) (done_held role.now)) }
    ensures fault { IfErr result (λ fault. fault ≡ RunFault.Memory) }
{
    let written = match role {
        Role::Following(follower) => write_unsummed(text, &follower.held, follower.done),
        Role::Leading(leader) => write_unsummed(text, &leader.pairs, leader.done),
    };
    written.map_err(|_| RunFault::Memory)
}
