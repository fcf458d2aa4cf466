//! The logged map, a logged set of pairs.
ghost use Rattle.std.specs.Prelude.{◌≡◌, ◌==◌, ◌+◌, ◌<◌, ◌≤◌, [], length};
ghost use Rattle.std.specs.Prelude.{map, None, IfOk, OnOk, IfErr, OnErr, IsOk};
ghost use Rattle.std.specs.Map.Iter.{ShowsInOrder, ShowsInReverse, deref};
ghost use Rattle.std.specs.Option.{unwrap_or};
ghost use Rattle.indexset_core.specs.Nodes.{concat, IsLawful};
ghost use Rattle.indexset_core.specs.Order.{IsAscending};
ghost use Rattle.indexset_core.specs.Pairs.{by_key};
ghost use Rattle.indexset_core.specs.declared.refusal.Refusal.TheVariants.{Memory};
ghost use Rattle.indexset_events.specs.Attach.{attached, attach_refusal, nodes_refusal};
ghost use Rattle.indexset_events.specs.Nodes.{AddsUp};

mod ends;
pub mod iter;
pub mod laws;
mod lookup;
mod positions;
mod put;
pub mod range;
mod remove;
mod traits;

use crate::set::BTreeSet;
use crate::set::nodes::Nodes;
use indexset_core::constants::DEFAULT_INNER_SIZE;
use indexset_core::node::NodeLike;
use indexset_core::pair::Pair;
use indexset_core::refusal::Refused;
use std::alloc::Global;
use std::marker::Model;

/// A logged map: pairs ascending by key, partitioned into nodes.
///
/// It returns its changes as events.
///
/// ```
/// let mut tree: map::BTreeMap<u64, u64, Vec<Pair<u64, u64>>> = map::BTreeMap::new(alloc);
/// let mut copy = Replica::new(alloc, 0);
/// let (_, events) = tree.insert_cdc(5, 50)?;
/// for event in events {
///     copy.apply(&event)?;
/// }
/// assert!(rt; tree.contains_key(&5) && copy.contains(&5));
/// ```
#[derive(Drop)]
pub struct BTreeMap<
    K: Ord + Clone + Drop,
    V: Clone + Drop,
    Node: NodeLike<Pair<K, V>> = Vec<Pair<K, V>>,
> {
    set: BTreeSet<Pair<K, V>, Node>,
}

impl<K: Ord + Clone + Drop, V: Clone + Drop, Node: NodeLike<Pair<K, V>>> Model
    for BTreeMap<K, V, Node> {
    ghost use Rattle.indexset_core.specs.declared.pair.Pair.{Pair};
    ghost use Rattle.indexset_log.specs.Tree.{Tree};

    ghost Value = { Tree (Pair K V) };

    ghost view = { λ m. m.set };
}

impl<K: Ord + Clone + Drop, V: Clone + Drop, Node: NodeLike<Pair<K, V>>> BTreeMap<K, V, Node> {
    /// Returns an empty map with nodes of at most `size` pairs and events numbered from `next`.
    ///
    /// The size must be at least 2 and at most the limit of the node type.
    ///
    /// ```
    /// let tree: map::BTreeMap<u64, u64, Vec<Pair<u64, u64>>> =
    ///     map::BTreeMap::starting_at(alloc, 256, 100);
    /// assert!(rt; tree.events_issued() == 100);
    /// ```
    pub fn starting_at(alloc: Global, size: usize, next: u64) -> Self
        requires two { 2 ≤ size }
        requires within { size ≤ Node.most }
        ensures { result ≡ record { nodes = []; size = size; next = next } }
    {
        BTreeMap {
            set: BTreeSet::starting_at(alloc, size, next),
        }
    }

    /// Returns the map of these nodes, with events numbered from `next`.
    ///
    /// The nodes become those of the map; no pair is copied and no event number is consumed.
    ///
    /// # Examples
    ///
    /// ```
    /// // A replica continues as the map.
    /// let mut replica: Replica<Pair<u64, u64>> = Replica::new(alloc, 0);
    /// replica.apply(&ChangeEvent::CreateNode {
    ///     event_id: Id::from(0),
    ///     max_value: Pair { key: 5, value: 50 },
    /// })?;
    /// let next = replica.next();
    /// let tree: map::BTreeMap<u64, u64, Vec<Pair<u64, u64>>> =
    ///     map::BTreeMap::from_nodes(replica.into_nodes(), 64, next)?;
    /// assert!(rt; tree.contains_key(&5) && tree.events_issued() == 1);
    /// ```
    ///
    /// # Errors
    ///
    /// Fails as the set's `from_nodes`: with `Empty`, `TooLarge`, `Unsorted` or `Overlaps`, else
    /// with `Memory`. A failed call returns the nodes in the error.
    ///
    /// # Complexity
    ///
    /// Allocates one number for every 32 nodes.
    pub fn from_nodes(nodes: Vec<Node>, size: usize, next: u64) -> Result<Self, Refused<Vec<Node>>>
        requires two { 2 ≤ size }
        requires within { size ≤ Node.most }
        ensures tree { IfOk result (λ t.
            t ≡ record { nodes = map Node.list nodes.items; size = size; next = next }) }
        ensures good { OnOk result (nodes_refusal (by_key K.cmp) size (map Node.list nodes.items)
            ≡ None) }
        ensures refusal { IfErr result (λ e. e.cause ≡ unwrap_or
            (nodes_refusal (by_key K.cmp) size (map Node.list nodes.items)) Memory) }
        ensures given_back { IfErr result (λ e. e.value ≡ nodes) }
    {
        match BTreeSet::from_nodes(nodes, size, next) {
            Ok(set) => Ok(BTreeMap { set }),
            Err(refused) => Err(refused),
        }
    }

    /// Returns an empty map with nodes of at most `size` pairs and events numbered from 0.
    ///
    /// The size must be at least 2 and at most the limit of the node type.
    ///
    /// ```
    /// let tree: map::BTreeMap<u64, u64, Vec<Pair<u64, u64>>> =
    ///     map::BTreeMap::with_maximum_node_size(alloc, 256);
    /// assert!(rt; tree.is_empty());
    /// ```
    pub fn with_maximum_node_size(alloc: Global, size: usize) -> Self
        requires two { 2 ≤ size }
        requires within { size ≤ Node.most }
        ensures { result ≡ record { nodes = []; size = size; next = 0 } }
    {
        BTreeMap::starting_at(alloc, size, 0)
    }

    /// Returns an empty map of the default node size, with events numbered from 0.
    ///
    /// ```
    /// let mut tree: map::BTreeMap<u64, u64, Vec<Pair<u64, u64>>> = map::BTreeMap::new(alloc);
    /// tree.insert(1, 10)?;
    /// assert!(rt; tree.len() == 1);
    /// ```
    pub fn new(alloc: Global) -> Self
        requires { DEFAULT_INNER_SIZE ≤ Node.most }
        ensures { result ≡ record { nodes = []; size = DEFAULT_INNER_SIZE; next = 0 } }
    {
        BTreeMap::with_maximum_node_size(alloc, DEFAULT_INNER_SIZE)
    }

    /// Returns an empty map, as `new`.
    ///
    /// ```
    /// let tree: map::BTreeMap<u64, u64, Vec<Pair<u64, u64>>> = map::BTreeMap::default(alloc);
    /// assert!(rt; tree.is_empty() && tree.events_issued() == 0);
    /// ```
    pub fn default(alloc: Global) -> Self
        requires { DEFAULT_INNER_SIZE ≤ Node.most }
        ensures { result ≡ record { nodes = []; size = DEFAULT_INNER_SIZE; next = 0 } }
    {
        BTreeMap::new(alloc)
    }

    /// Returns the number of pairs.
    ///
    /// ```
    /// let mut tree: map::BTreeMap<u64, u64, Vec<Pair<u64, u64>>> = map::BTreeMap::new(alloc);
    /// tree.insert(1, 10)?;
    /// tree.insert(2, 20)?;
    /// assert!(rt; tree.len() == 2);
    /// ```
    pub fn len(&self) -> usize
        ensures { result ≡ length (concat self.now.nodes) }
    {
        self.set.len()
    }

    /// Returns true if the map contains no pairs.
    ///
    /// ```
    /// let mut tree: map::BTreeMap<u64, u64, Vec<Pair<u64, u64>>> = map::BTreeMap::new(alloc);
    /// assert!(rt; tree.is_empty());
    /// tree.insert(1, 10)?;
    /// assert!(rt; !tree.is_empty());
    /// ```
    pub fn is_empty(&self) -> bool
        ensures { result ≡ (length (concat self.now.nodes) == 0) }
    {
        self.set.is_empty()
    }

    /// Returns the number of nodes.
    ///
    /// No node is empty or has more pairs than the node size, and the pairs ascend by key, within
    /// and across nodes.
    ///
    /// ```
    /// let mut tree: map::BTreeMap<u64, u64, Vec<Pair<u64, u64>>> = map::BTreeMap::new(alloc);
    /// tree.insert(1, 10)?;
    /// tree.insert(2, 20)?;
    /// assert!(rt; tree.node_count() == 1);
    /// ```
    pub fn node_count(&self) -> usize
        ensures value { result ≡ length self.now.nodes }
        ensures node_bound { result ≤ length (concat self.now.nodes) }
        ensures lawful { IsLawful (by_key K.cmp) self.now.size self.now.nodes }
    {
        self.set.node_count()
    }

    /// Returns the sum of the capacities of the nodes, at most `usize::MAX`.
    ///
    /// ```
    /// let mut tree: map::BTreeMap<u64, u64, Vec<Pair<u64, u64>>> = map::BTreeMap::new(alloc);
    /// tree.insert(1, 10)?;
    /// tree.insert(2, 20)?;
    /// assert!(rt; tree.capacity() >= 2);
    /// ```
    pub fn capacity(&self) -> usize
        ensures enough { length (concat self.now.nodes) ≤ result }
        ensures sum { AddsUp Node.list Node.room self.now.nodes result }
    {
        self.set.capacity()
    }

    /// Returns the number of the next event.
    ///
    /// ```
    /// let mut tree: map::BTreeMap<u64, u64, Vec<Pair<u64, u64>>> = map::BTreeMap::new(alloc);
    /// tree.insert(1, 10)?;
    /// tree.insert(2, 20)?;
    /// assert!(rt; tree.events_issued() == 2);
    /// ```
    pub fn events_issued(&self) -> u64
        ensures { result ≡ self.now.next }
    {
        self.set.events_issued()
    }

    /// Returns the allocator of the map.
    ///
    /// A `Global` has one value, so it is identical to every other.
    ///
    /// ```
    /// // A key made by the allocator of the map.
    /// let mut tree: map::BTreeMap<String, u64, Vec<Pair<String, u64>>> =
    ///     map::BTreeMap::new(alloc);
    /// let key = String::from_str(*tree.allocator(), "fig")?;
    /// tree.insert(key, 5)?;
    /// assert_eq!(rt; tree.len(), 1);
    /// ```
    pub fn allocator(&self) -> &Global
        ensures { (alloc : Global) → result.now ≡ alloc }
    {
        self.set.allocator()
    }

    /// Returns a double-ended iterator over the nodes, in order.
    ///
    /// ```
    /// let mut tree: map::BTreeMap<u64, u64, Vec<Pair<u64, u64>>> = map::BTreeMap::new(alloc);
    /// tree.insert(1, 10)?;
    /// tree.insert(2, 20)?;
    /// assert!(rt; tree.iter_nodes().map(|node| node.len()).eq([2]));
    /// ```
    pub fn iter_nodes(&self) -> Nodes<'_, Node>
        ensures rest { map Node.list result ≡ self.now.nodes }
        ensures runs { ShowsInOrder (deref {X = Node}) }
        ensures runs_back { ShowsInReverse (deref {X = Node}) }
    {
        self.set.iter_nodes()
    }

    /// Inserts a node of pairs among the other nodes.
    ///
    /// It emits no event and consumes no event number.
    ///
    /// # Examples
    ///
    /// ```
    /// let mut tree: map::BTreeMap<u64, u64, Vec<Pair<u64, u64>>> = map::BTreeMap::new(alloc);
    /// tree.insert(1, 10)?;
    /// tree.insert(2, 20)?;
    /// tree.attach_node(vec![in alloc; Pair { key: 5, value: 50 }]?)?;
    /// assert!(rt; tree.node_count() == 2 && tree.last_key_value() == Some((&5, &50)));
    /// ```
    ///
    /// # Errors
    ///
    /// Fails as the set's `attach_node`: with `Empty`, `TooLarge`, `Unsorted` or `Overlaps`, else
    /// with `Memory`. A failed call returns the node in the error and changes nothing.
    pub fn attach_node(&mut self, node: Node) -> Result<(), Refused<Node>>
        // Contents.
        ensures ascending { OnOk result (IsAscending (by_key K.cmp) (concat self.new.nodes)) }
        ensures count { OnOk result (length (concat self.new.nodes)
            ≡ length (concat self.old.nodes) + length (Node.list node)) }
        ensures next { self.new.next ≡ self.old.next }

        // Failure.
        ensures good { IsOk result → attach_refusal (by_key K.cmp) self.old.size self.old.nodes
            (Node.list node) ≡ None }
        ensures refusal { IfErr result (λ e. e.cause ≡ unwrap_or
            (attach_refusal (by_key K.cmp) self.old.size self.old.nodes (Node.list node)) Memory) }
        ensures given_back { IfErr result (λ e. e.value ≡ node) }
        ensures unchanged { OnErr result (self.new ≡ self.old) }

        // Nodes.
        ensures nodes { OnOk result (self.new.nodes ≡ attached (by_key K.cmp) self.old.nodes
            (Node.list node)) }
        ensures size { self.new.size ≡ self.old.size }
    {
        self.set.attach_node(node)
    }
}
