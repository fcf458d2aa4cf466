//! The text forms of a multimap.

use super::BTreeMultiMap;
use indexset_core::multipair::MultiPair;
use indexset_core::node::NodeLike;
use std::fmt;

impl<
    K: Ord + Clone + Drop + fmt::Debug,
    V: Eq + Clone + Drop + fmt::Debug,
    Node: NodeLike<MultiPair<K, V>>,
> fmt::Debug for BTreeMultiMap<K, V, Node> {
    fn fmt<W: fmt::Write>(&self, f: &mut fmt::Formatter<W>) -> fmt::Result {
        f.debug_map().entries(self.iter()).finish()
    }
}

/// Formats the nodes with their numbered pairs, as in `[0:a #0, 0:b #1] [4:c #2]`.
///
/// An empty multimap has the empty text.
impl<
    K: Ord + Clone + Drop + fmt::Display,
    V: Eq + Clone + Drop + fmt::Display,
    Node: NodeLike<MultiPair<K, V>>,
> fmt::Display for BTreeMultiMap<K, V, Node> {
    fn fmt<W: fmt::Write>(&self, f: &mut fmt::Formatter<W>) -> fmt::Result {
        fmt::Display::fmt(&self.set, f)
    }
}
