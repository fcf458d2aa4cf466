//! The sum that compares the states of two maps.

ghost use Rattle.std.specs.Prelude.{◌≡◌, IfOk, IfErr};
ghost use Rattle.indexset_follow.specs.Copy.{copy, sum_of};

use crate::mark::Mark;
use crate::reads::nodes::WalkNodes;
use crate::write::{write_mark, write_node_line};
use indexset_bench::key::Key;
use indexset_lines::RunFault;
use sha2::{Digest, Sha256};
use std::alloc::Global;

/// Returns the first 64 bits of the SHA-256 of the lines of a snapshot before its last.
pub fn sum<'a, T: Key + 'a, N: WalkNodes<'a, T> + Drop>(
    alloc: Global,
    next: u64,
    done: u64,
    nodes: N,
) -> Result<u64, RunFault>
    ensures sum { IfOk result (λ sum. sum ≡ sum_of T.texts (copy (N.rest nodes) next) done) }
    ensures fault { IfErr result (λ fault. fault ≡ RunFault.Memory) }
{
    let mut walk = nodes;
    let mut text = Vec::new(alloc);
    let mut hasher = Sha256::new();
    write_mark(&mut text, Mark::Start(next, done)).map_err(|_| RunFault::Memory)?;
    hasher.update(text.as_slice());
    while let Some(node) = walk.next_node() {
        text.clear();
        write_node_line(&mut text, node).map_err(|_| RunFault::Memory)?;
        hasher.update(text.as_slice());
    }
    let digest = hasher.finalize();
    Ok(u64::from_be_bytes([
        digest[0], digest[1], digest[2], digest[3], digest[4], digest[5], digest[6], digest[7],
    ]))
}
