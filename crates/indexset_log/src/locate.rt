//! Searches for the end of a run of items, in a node and among the nodes.
ghost use Rattle.std.specs.Prelude.{◌≡◌, ◌+◌, ◌-◌, ◌*◌, ◌/◌, ◌<◌, ◌≤◌};
ghost use Rattle.std.specs.Prelude.{length, map, min, take, if◌then◌else◌};
ghost use Rattle.std.specs.List.{All};
ghost use Rattle.indexset_core.specs.Digits.{digits};
ghost use Rattle.indexset_core.specs.Parted.{IsParted, not_greater_count};
ghost use Rattle.indexset_core.specs.Nodes.{concat, node_lengths};

use indexset_core::node::NodeLike;
use indexset_core::probe::Probe;

/// Returns how many items are not found Greater, if the first `from` are not, by exponential search
/// from there.
pub(crate) fn run_end<T, P: Probe<T>>(items: &[T], from: usize, probe: &mut P) -> usize
    requires parted { IsParted (P.answer probe.old) items.now }
    requires from { from ≤ not_greater_count (P.answer probe.old) items.now }
    ensures count { result ≡ not_greater_count (P.answer probe.old) items.now }
    ensures fixed { P.answer probe.new ≡ P.answer probe.old }
    ensures comparisons { P.asked probe.new ≤ P.asked probe.old + (2 * digits (result - from) + 1) }
    ensures unasked { from ≡ length items.now → P.asked probe.new ≡ P.asked probe.old }
{
    let mut low = from;
    let mut high = items.len();
    while low < high {
        let at = next_step(from, low, high, high == items.len());
        if probe.place(&items[at]).is_gt() {
            high = at;
        } else {
            low = at + 1;
        }
    }
    low
}

/// Returns the last node whose first item is not found Greater, if that of `node` is not, by
/// exponential search from there.
pub(crate) fn last_started<T: Ord + Drop, Node: NodeLike<T>, P: Probe<T>>(
    nodes: &[Node],
    node: usize,
    probe: &mut P,
) -> usize
    requires node { node < length nodes.now }
    requires filled { All (λ n. 1 ≤ n) (node_lengths (map Node.list nodes.now)) }
    requires parted { IsParted (P.answer probe.old) (concat (map Node.list nodes.now)) }
    requires started { length (concat (take node (map Node.list nodes.now)))
        < not_greater_count (P.answer probe.old) (concat (map Node.list nodes.now)) }

    // Result.
    ensures node { result < length nodes.now }
    ensures order { node ≤ result }
    ensures started { length (concat (take result (map Node.list nodes.now)))
        < not_greater_count (P.answer probe.old) (concat (map Node.list nodes.now)) }
    ensures ended { not_greater_count (P.answer probe.old) (concat (map Node.list nodes.now))
        ≤ length (concat (take (result + 1) (map Node.list nodes.now))) }

    // Contents.
    ensures fixed { P.answer probe.new ≡ P.answer probe.old }
    ensures comparisons { P.asked probe.new ≤ P.asked probe.old + (2 * digits (result - node) + 1) }
{
    let from = node + 1;
    let mut low = from;
    let mut high = nodes.len();
    while low < high {
        let at = next_step(from, low, high, high == nodes.len());
        let Some(first) = nodes[at].min() else {
            unreachable!()
        };
        if probe.place(first).is_gt() {
            high = at;
        } else {
            low = at + 1;
        }
    }
    low - 1
}

// Returns the index that a search compares next: twice as far from the start, or in the middle.
fn next_step(from: usize, low: usize, high: usize, ahead: bool) -> usize
    requires order { from ≤ low }
    requires some { low < high }
    ensures { result ≡ low + (if ahead then min (low - from) (high - low - 1) else
        (high - low) / 2) }
{
    if ahead {
        low + (low - from).min(high - low - 1)
    } else {
        low + (high - low) / 2
    }
}
