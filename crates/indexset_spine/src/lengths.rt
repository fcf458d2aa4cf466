//! The lengths of nodes.
ghost use Rattle.std.specs.Prelude.{◌≡◌, ◌^◌, ◌-◌, ◌<◌, ◌≤◌, IsTrue, length};
ghost use Rattle.indexset_core.specs.Nodes.{concat, node_at, vec_items};

/// Returns whether the item at a position is in node `k`, before which there are `start` items.
pub(crate) fn is_in<T>(nodes: &[Vec<T>], k: usize, start: usize, i: usize) -> bool
    ensures { IsTrue result → (k < length nodes.now) × (start ≤ i)
        × (i - start < length (node_at (vec_items nodes.now) k)) }
{
    k < nodes.len() && start <= i && i - start < nodes[k].len()
}

/// Returns how many items the nodes hold.
pub(crate) fn count_items<T>(nodes: &[Vec<T>]) -> usize
    requires { length (concat (vec_items nodes.now)) < 2 ^ 64 }
    ensures { result ≡ length (concat (vec_items nodes.now)) }
{
    let mut total = 0;
    for node in nodes {
        total += node.len();
    }
    total
}
