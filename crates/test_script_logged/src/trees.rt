//! Positions of items in a logged set, a logged map and a replica.
ghost use Rattle.std.specs.Prelude.{◌<◌, length, IfOk};
ghost use Rattle.indexset_core.specs.Nodes.{node_at};
ghost use Rattle.indexset_core.specs.Places.{IsPlace};

use indexset_core::node::NodeLike;
use indexset_core::pair::Pair;
use indexset_core::probe::{ByItem, ByKey};
use indexset_log::map::BTreeMap;
use indexset_log::set::BTreeSet;
use indexset_replica::Replica;
use std::ops::Bound;
use std::ops::Bound::Included;

/// Returns the place before the first item that is at least this one.
pub fn start_of<T: Ord + Clone + Drop, Node: NodeLike<T>>(
    tree: &BTreeSet<T, Node>,
    value: &T,
) -> (usize, usize)
    ensures { IsPlace tree.now.nodes result }
{
    // For the proof: the nodes are lawful.
    let _nodes = tree.node_count();
    tree.place_from(Included(ByItem::new(value)))
}

/// Returns the place of an item: its node, and the offset there.
pub fn place_of<T: Ord + Clone + Drop, Node: NodeLike<T>>(
    tree: &BTreeSet<T, Node>,
    value: &T,
) -> Result<(usize, usize), (usize, usize)>
    ensures node { IfOk result (λ place. place.0 < length tree.now.nodes) }
    ensures offset { IfOk result (λ place. place.1 < length (node_at tree.now.nodes place.0)) }
{
    let count = tree.node_count();
    if count == 0 {
        return Err((0, 0));
    }
    tree.locate_by(&mut ByItem::new(value))
}

/// Returns the position of an item, or if it is absent the number of items that are less than it.
pub fn position_of<T: Ord + Clone + Drop, Node: NodeLike<T>>(
    tree: &BTreeSet<T, Node>,
    value: &T,
) -> Result<usize, usize> {
    let _nodes = tree.node_count();
    tree.position_by(&mut ByItem::new(value))
}

/// Returns the number of items before a start bound.
pub fn items_before<T: Ord + Clone + Drop, Node: NodeLike<T>>(
    tree: &BTreeSet<T, Node>,
    start: Bound<&T>,
) -> usize {
    let _nodes = tree.node_count();
    tree.count_before(start.map(ByItem::new))
}

/// Returns the number of items up to an end bound.
pub fn items_up_to<T: Ord + Clone + Drop, Node: NodeLike<T>>(
    tree: &BTreeSet<T, Node>,
    end: Bound<&T>,
) -> usize {
    let _nodes = tree.node_count();
    tree.count_up_to(end.map(ByItem::new))
}

/// Returns the pair of a key, which a comparator finds.
pub fn pair_of<'a, K: Ord + Clone + Drop, V: Clone + Drop, Node: NodeLike<Pair<K, V>>>(
    map: &'a BTreeMap<K, V, Node>,
    key: &K,
) -> Option<(&'a K, &'a V)> {
    let _nodes = map.node_count();
    map.get_key_value_by(&mut ByKey::new(key))
}

/// Returns the number of pairs before a start bound.
pub fn pairs_before<K: Ord + Clone + Drop, V: Clone + Drop, Node: NodeLike<Pair<K, V>>>(
    map: &BTreeMap<K, V, Node>,
    start: Bound<&K>,
) -> usize {
    let _nodes = map.node_count();
    map.count_before(start.map(ByKey::new))
}

/// Returns the number of pairs up to an end bound.
pub fn pairs_up_to<K: Ord + Clone + Drop, V: Clone + Drop, Node: NodeLike<Pair<K, V>>>(
    map: &BTreeMap<K, V, Node>,
    end: Bound<&K>,
) -> usize {
    let _nodes = map.node_count();
    map.count_up_to(end.map(ByKey::new))
}

/// Returns the number of items of a replica before a start bound.
pub fn copies_before<T: Ord + Clone + Drop>(replica: &Replica<T>, start: Bound<&T>) -> usize {
    let _nodes = replica.nodes();
    replica.count_before(start.map(ByItem::new))
}

/// Returns the number of items of a replica up to an end bound.
pub fn copies_up_to<T: Ord + Clone + Drop>(replica: &Replica<T>, end: Bound<&T>) -> usize {
    let _nodes = replica.nodes();
    replica.count_up_to(end.map(ByItem::new))
}
