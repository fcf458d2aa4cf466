//! Tests of whole nodes.
ghost use Rattle.std.specs.Prelude.{◌≡◌, ◌<◌, true, length, map, slice_get};
ghost use Rattle.std.specs.Prelude.{◌-◌, None, Some, IsOk, OnOk, IfErr};
ghost use Rattle.std.specs.Option.{option_map_or};
ghost use Rattle.std.specs.Ordering.{is_lt};
ghost use Rattle.indexset_core.specs.Nodes.{IsLawful};
ghost use Rattle.indexset_events.specs.Attach.{follow_refusal, nodes_refusal};
ghost use Rattle.indexset_events.specs.Nodes.{is_ascending};

use indexset_core::node::NodeLike;
use indexset_core::refusal::Refusal;

/// Tests whether the nodes can be those of a tree with nodes of at most `size` items.
///
/// # Errors
///
/// Fails at the first node that is invalid, with the first of these that applies to it: `Empty`;
/// `TooLarge` if it has more than `size` items, which does not occur if `size` is `usize::MAX`;
/// `Unsorted` if its items do not ascend strictly; `Overlaps` if it does not begin above the node
/// before.
///
/// # Complexity
///
/// Compares neighbouring items once, within and across nodes, and allocates nothing.
pub fn test_nodes<'a, T: Ord + Drop + 'a, Node: NodeLike<T>>(
    nodes: &'a [Node],
    size: usize,
) -> Result<(), Refusal>
    // Failure.
    ensures good { OnOk result (nodes_refusal T.cmp size (map Node.list nodes.now) ≡ None) }
    ensures refusal { IfErr result (λ e. nodes_refusal T.cmp size (map Node.list nodes.now)
        ≡ Some e) }
    ensures taken { IsLawful T.cmp size (map Node.list nodes.now) → IsOk result }
    ensures large { IfErr result (λ e. e ≡ Refusal.TooLarge → size < usize.MAX) }

    // Nodes.
    ensures lawful { OnOk result (IsLawful T.cmp size (map Node.list nodes.now)) }
{
    let mut before: &'a [T] = &[];
    for node in nodes {
        let items = node.iter().as_slice();
        test_node(before, items, size)?;
        before = items;
    }
    Ok(())
}

// Tests whether a node can follow another.
fn test_node<T: Ord>(before: &[T], items: &[T], size: usize) -> Result<(), Refusal>
    requires { is_ascending T.cmp before.now ≡ true }
    ensures good { OnOk result (follow_refusal T.cmp size before.now items.now ≡ None) }
    ensures ascending { OnOk result (is_ascending T.cmp items.now ≡ true) }
    ensures refusal { IfErr result (λ e. follow_refusal T.cmp size before.now items.now ≡ Some e) }
    ensures large { IfErr result (λ e. e ≡ Refusal.TooLarge → size < usize.MAX) }
{
    let Some(first) = items.first() else {
        return Err(Refusal::Empty);
    };
    if items.len() > size {
        return Err(Refusal::TooLarge);
    }
    if !is_ascending(items) {
        return Err(Refusal::Unsorted);
    }
    if !ends_below(before, first) {
        return Err(Refusal::Overlaps);
    }
    Ok(())
}

// Returns whether the last item, if any, is below a value.
fn ends_below<T: Ord>(items: &[T], value: &T) -> bool
    ensures { result ≡ option_map_or (λ x. is_lt (T.cmp x value.now))
        (slice_get items.now (length items.now - 1)) true }
{
    match items.last() {
        Some(last) => last.cmp(value).is_lt(),
        None => true,
    }
}

/// Returns true if the items ascend strictly.
pub fn is_ascending<T: Ord>(items: &[T]) -> bool
    ensures { result ≡ is_ascending T.cmp items.now }
{
    items.is_sorted_by(|item, next| item.cmp(next).is_lt())
}
