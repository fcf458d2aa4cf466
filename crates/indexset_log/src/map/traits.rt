//! The text forms of a logged map.

use super::BTreeMap;
use indexset_core::node::NodeLike;
use indexset_core::pair::Pair;
use std::fmt;

impl<
    K: Ord + Clone + Drop + fmt::Debug,
    V: Clone + Drop + fmt::Debug,
    Node: NodeLike<Pair<K, V>>,
> fmt::Debug for BTreeMap<K, V, Node> {
    fn fmt<W: fmt::Write>(&self, f: &mut fmt::Formatter<W>) -> fmt::Result {
        f.debug_map().entries(self.iter()).finish()
    }
}

/// Formats the nodes with their pairs, as in `[0:a, 2:b] [4:c]`.
///
/// An empty map has the empty text.
impl<
    K: Ord + Clone + Drop + fmt::Display,
    V: Clone + Drop + fmt::Display,
    Node: NodeLike<Pair<K, V>>,
> fmt::Display for BTreeMap<K, V, Node> {
    fn fmt<W: fmt::Write>(&self, f: &mut fmt::Formatter<W>) -> fmt::Result {
        fmt::Display::fmt(&self.set, f)
    }
}
