//! The searches that test whether a search ends in a node.
ghost use Rattle.std.specs.Prelude.{◌≡◌, ◌+◌, ◌<◌, ◌≤◌, IsTrue, length};
ghost use Rattle.std.specs.List.{All};
ghost use Rattle.indexset_core.specs.Digits.{digits};
ghost use Rattle.indexset_core.specs.Parted.{IsParted, less_count};
ghost use Rattle.indexset_core.specs.Nodes.{ends_less, equal_at, concat};
ghost use Rattle.indexset_core.specs.Nodes.{node_lengths, node_for, vec_items};

use indexset_core::probe::Probe;

/// Returns whether `node_by` returns node `k`, by two comparisons at most.
pub(crate) fn is_sought<T, P: Probe<T>>(nodes: &[Vec<T>], k: usize, probe: &mut P) -> bool
    requires filled { 2 ≤ length nodes.now → All (λ n. 1 ≤ n) (node_lengths (vec_items nodes.now)) }
    requires parted { IsParted (P.answer probe.old) (concat (vec_items nodes.now)) }
    ensures node { IsTrue result → k ≡ node_for (P.answer probe.old) (vec_items nodes.now) }
    ensures fixed { P.answer probe.new ≡ P.answer probe.old }
    ensures comparisons { P.asked probe.new ≤ P.asked probe.old + 2 }
{
    if k >= nodes.len() {
        return false;
    }
    if k + 1 < nodes.len() && ends_less(&nodes[k], probe) {
        return false;
    }
    k == 0 || ends_less(&nodes[k - 1], probe)
}

/// Returns whether the last item of a node compares Less, by one comparison.
pub(crate) fn ends_less<T, P: Probe<T>>(node: &[T], probe: &mut P) -> bool
    ensures value { result ≡ ends_less (P.answer probe.old) node.now }
    ensures fixed { P.answer probe.new ≡ P.answer probe.old }
    ensures comparisons { P.asked probe.new ≤ P.asked probe.old + 1 }
{
    match node.last() {
        Some(last) => probe.place(last).is_lt(),
        None => false,
    }
}
