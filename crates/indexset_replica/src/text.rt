//! The text form of a replica.

use super::Replica;
use indexset_core::node_text::write_node;
use std::fmt;

/// Formats the nodes with their items, as in `[0, 2] [4, 5]`.
///
/// A replica without nodes has the empty text.
impl<T: Ord + Clone + Drop + fmt::Display> fmt::Display for Replica<T> {
    fn fmt<W: fmt::Write>(&self, f: &mut fmt::Formatter<W>) -> fmt::Result {
        let mut is_first = true;
        for node in &self.nodes {
            write_node(f, is_first, node.as_slice())?;
            is_first = false;
        }
        Ok(())
    }
}
