//! Makes a leader a follower.

ghost use Rattle.std.specs.Prelude.{◌≡◌, IfErr, IfOk};
ghost use Rattle.indexset_follow.specs.Copy.{copy};

use crate::write::Nodes;
use indexset_bench::key::Key;
use indexset_bench::pairs::Pairs;
use indexset_core::pair::Pair;
use indexset_lines::RunFault;
use std::alloc::Global;

/// Returns copies of the nodes of a leader, as a follower that awaits the leader's next event.
pub fn follower_of<T: Key>(alloc: Global, pairs: &Pairs<T>) -> Result<Nodes<T>, RunFault>
    ensures follower { IfOk result (λ nodes. nodes ≡ copy pairs.now.nodes pairs.now.next) }
    ensures fault { IfErr result (λ fault. fault ≡ RunFault.Memory) }
{
    let mut nodes = Vec::new(alloc);
    for node in pairs.iter_nodes() {
        let copy = copied(alloc, node)?;
        nodes.push(copy).map_err(|_| RunFault::Memory)?;
    }
    Nodes::from_nodes(nodes, pairs.events_issued()).map_err(|_| RunFault::Memory)
}

/// Returns a copy of a node.
fn copied<T: Key>(alloc: Global, node: &[Pair<T, T>]) -> Result<Vec<Pair<T, T>>, RunFault>
    ensures copy { IfOk result (λ copy. copy.items ≡ node.now) }
    ensures fault { IfErr result (λ fault. fault ≡ RunFault.Memory) }
{
    node.to_vec(alloc).map_err(|_| RunFault::Memory)
}
