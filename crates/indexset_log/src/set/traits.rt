//! The text forms of a logged set.

use super::BTreeSet;
use indexset_core::node::NodeLike;
use indexset_core::node_text::write_node;
use std::fmt;

impl<T: Ord + Clone + Drop + fmt::Debug, Node: NodeLike<T>> fmt::Debug for BTreeSet<T, Node> {
    fn fmt<W: fmt::Write>(&self, f: &mut fmt::Formatter<W>) -> fmt::Result {
        f.debug_set().entries(self.iter()).finish()
    }
}

/// Formats the nodes with their items, as in `[0, 2] [4, 5]`.
///
/// An empty set has the empty text.
///
/// ```
/// let mut tree: set::BTreeSet<u64, Vec<u64>> = set::BTreeSet::with_maximum_node_size(alloc, 2);
/// for item in [1, 2, 3] {
///     tree.insert(item)?;
/// }
/// assert_eq!(rt; format!(in alloc; "{tree}")?.as_str(), "[1] [2, 3]");
/// ```
impl<T: Ord + Clone + Drop + fmt::Display, Node: NodeLike<T>> fmt::Display for BTreeSet<T, Node> {
    fn fmt<W: fmt::Write>(&self, f: &mut fmt::Formatter<W>) -> fmt::Result {
        let mut is_first = true;
        for node in &self.nodes {
            write_node(f, is_first, node.iter().as_slice())?;
            is_first = false;
        }
        Ok(())
    }
}
