//! Nodes made of values.
ghost use Rattle.std.specs.Prelude.{◌≤◌, length, IfOk};
ghost use Rattle.indexset_core.specs.Order.{IsAscending};

use indexset_core::node::NodeLike;
use indexset_core::refusal::Refusal;
use std::alloc::Global;

/// Returns a node of these values, inserted in order.
pub fn node_of<T: Ord + Clone + Drop, Node: NodeLike<T>>(
    alloc: Global,
    values: &[T],
) -> Result<Node, Refusal>
    requires { length values.now ≤ Node.most }
    ensures { IfOk result (λ node. IsAscending T.cmp (Node.list node)) }
{
    let mut node = Node::with_capacity(alloc, values.len())?;
    for value in values {
        if node.len() < Node::limit() {
            node.insert(value.clone()?)
                .map_err(|refused| refused.cause)?;
        }
    }
    Ok(node)
}
