//! The logged map with repeated keys: a logged set of numbered pairs.
ghost use Rattle.std.specs.Prelude.{◌≡◌, ◌==◌, ◌≤◌, [], length, map, IfSome};
ghost use Rattle.std.specs.Map.Iter.{ShowsInOrder, ShowsInReverse, deref};
ghost use Rattle.indexset_core.specs.MultiPairs.{by_number};
ghost use Rattle.indexset_core.specs.Nodes.{concat, IsLawful};
ghost use Rattle.indexset_events.specs.Nodes.{AddsUp};
ghost use Rattle.indexset_log.specs.Tree.{IsTree};
ghost use Rattle.indexset_multi.specs.Keys.{AreNumberedBelow, has_pair_of};
ghost use Rattle.indexset_core.specs.Places.{located};

mod attach;
mod ends;
mod from_nodes;
pub mod iter;
mod positions;
mod put;
pub mod range;
mod remove;
mod remove_all;
mod traits;

use indexset_core::constants::DEFAULT_INNER_SIZE;
use indexset_core::lookup_key::LookupKey;
use indexset_core::multipair::MultiPair;
use indexset_core::node::NodeLike;
use indexset_core::probe::ByKey;
use indexset_log::set::BTreeSet;
use indexset_log::set::nodes::Nodes;
use std::alloc::Global;
use std::marker::Model;

/// A logged multimap: numbered pairs, ascending by key and then by number.
///
/// The pairs are partitioned into nodes. It returns its changes as events.
///
/// ```
/// // Two values of one key.
/// let mut tree: multimap::BTreeMultiMap<u64, u64, Vec<MultiPair<u64, u64>>> =
///     multimap::BTreeMultiMap::new(alloc);
/// tree.insert(5, 50)?;
/// tree.insert(5, 51)?;
/// assert!(rt; tree.get(&5).map(|pair| *pair.1).eq([50, 51]));
/// ```
#[derive(Drop)]
pub struct BTreeMultiMap<
    K: Ord + Clone + Drop,
    V: Eq + Clone + Drop,
    Node: NodeLike<MultiPair<K, V>> = Vec<MultiPair<K, V>>,
> {
    set: BTreeSet<MultiPair<K, V>, Node>,
    // The number of the next new pair.
    pair_next: u64,
}

impl<K: Ord + Clone + Drop, V: Eq + Clone + Drop, Node: NodeLike<MultiPair<K, V>>> Model
    for BTreeMultiMap<K, V, Node> {
    ghost use Rattle.indexset_core.specs.Nodes.{concat};
    ghost use Rattle.indexset_multi.specs.Keys.{AreNumberedBelow};
    ghost use Rattle.indexset_multi.specs.Tree.{MultiTree};

    ghost Value = { MultiTree K V };

    ghost view = { λ m. record {
      nodes = m.set.nodes;
      size = m.set.size;
      next = m.set.next;
      pair_next = m.pair_next;
    } };

    ghost invariant = { λ m. AreNumberedBelow m.pair_next (concat m.set.nodes) };
}

impl<K: Ord + Clone + Drop, V: Eq + Clone + Drop, Node: NodeLike<MultiPair<K, V>>> BTreeMultiMap<
    K,
    V,
    Node,
> {
    /// Returns an empty multimap with nodes of at most `size` pairs and events from `next` on.
    ///
    /// The size must be at least 2 and at most the limit of the node type.
    ///
    /// ```
    /// let tags: multimap::BTreeMultiMap<u64, u64, Vec<MultiPair<u64, u64>>> =
    ///     multimap::BTreeMultiMap::starting_at(alloc, 256, 100);
    /// assert!(rt; tags.events_issued() == 100);
    /// ```
    pub fn starting_at(alloc: Global, size: usize, next: u64) -> Self
        requires two { 2 ≤ size }
        requires within { size ≤ Node.most }
        ensures { result ≡ record { nodes = []; size = size; next = next; pair_next = 0 } }
    {
        BTreeMultiMap {
            set: BTreeSet::starting_at(alloc, size, next),
            pair_next: 0,
        }
    }

    /// Returns an empty multimap with nodes of at most `size` pairs and events from 0 on.
    ///
    /// The size must be at least 2 and at most the limit of the node type.
    ///
    /// ```
    /// let tags: multimap::BTreeMultiMap<u64, u64, Vec<MultiPair<u64, u64>>> =
    ///     multimap::BTreeMultiMap::with_maximum_node_size(alloc, 256);
    /// assert!(rt; tags.is_empty());
    /// ```
    pub fn with_maximum_node_size(alloc: Global, size: usize) -> Self
        requires two { 2 ≤ size }
        requires within { size ≤ Node.most }
        ensures { result ≡ record { nodes = []; size = size; next = 0; pair_next = 0 } }
    {
        BTreeMultiMap::starting_at(alloc, size, 0)
    }

    /// Returns an empty multimap of the default node size, with events numbered from 0.
    ///
    /// ```
    /// let mut tags: multimap::BTreeMultiMap<u64, u64, Vec<MultiPair<u64, u64>>> =
    ///     multimap::BTreeMultiMap::new(alloc);
    /// tags.insert(1, 100)?;
    /// tags.insert(1, 101)?;
    /// assert!(rt; tags.len() == 2);
    /// ```
    pub fn new(alloc: Global) -> Self
        requires { DEFAULT_INNER_SIZE ≤ Node.most }
        ensures { result ≡ record {
          nodes = [];
          size = DEFAULT_INNER_SIZE;
          next = 0;
          pair_next = 0;
        } }
    {
        BTreeMultiMap::with_maximum_node_size(alloc, DEFAULT_INNER_SIZE)
    }

    /// Returns an empty multimap, as `new`.
    ///
    /// ```
    /// let tree: multimap::BTreeMultiMap<u64, u64, Vec<MultiPair<u64, u64>>> =
    ///     multimap::BTreeMultiMap::default(alloc);
    /// assert!(rt; tree.is_empty() && tree.events_issued() == 0);
    /// ```
    pub fn default(alloc: Global) -> Self
        requires { DEFAULT_INNER_SIZE ≤ Node.most }
        ensures { result ≡ record {
          nodes = [];
          size = DEFAULT_INNER_SIZE;
          next = 0;
          pair_next = 0;
        } }
    {
        BTreeMultiMap::new(alloc)
    }

    /// Returns the number of pairs.
    ///
    /// ```
    /// let mut tags: multimap::BTreeMultiMap<u64, u64, Vec<MultiPair<u64, u64>>> =
    ///     multimap::BTreeMultiMap::new(alloc);
    /// for (tag, document) in [(1, 100), (1, 101), (2, 100)] {
    ///     tags.insert(tag, document)?;
    /// }
    /// assert!(rt; tags.len() == 3);
    /// ```
    pub fn len(&self) -> usize
        ensures { result ≡ length (concat self.now.nodes) }
    {
        self.set.len()
    }

    /// Returns true if the multimap contains no pairs.
    ///
    /// ```
    /// let mut tags: multimap::BTreeMultiMap<u64, u64, Vec<MultiPair<u64, u64>>> =
    ///     multimap::BTreeMultiMap::new(alloc);
    /// assert!(rt; tags.is_empty());
    /// tags.insert(1, 100)?;
    /// assert!(rt; !tags.is_empty());
    /// ```
    pub fn is_empty(&self) -> bool
        ensures { result ≡ (length (concat self.now.nodes) == 0) }
    {
        self.set.is_empty()
    }

    /// Returns the number of nodes.
    ///
    /// No node is empty or has more pairs than the node size. The pairs ascend by key and then by
    /// number, within and across nodes, and their numbers are below that of the next new pair.
    ///
    /// ```
    /// let mut tags: multimap::BTreeMultiMap<u64, u64, Vec<MultiPair<u64, u64>>> =
    ///     multimap::BTreeMultiMap::new(alloc);
    /// for (tag, document) in [(1, 100), (1, 101), (2, 100)] {
    ///     tags.insert(tag, document)?;
    /// }
    /// assert!(rt; tags.node_count() == 1);
    /// ```
    pub fn node_count(&self) -> usize
        ensures value { result ≡ length self.now.nodes }
        ensures node_bound { result ≤ length (concat self.now.nodes) }
        ensures lawful { IsLawful (by_number K.cmp) self.now.size self.now.nodes }
        ensures numbers { AreNumberedBelow self.now.pair_next (concat self.now.nodes) }
    {
        self.set.node_count()
    }

    /// Returns the sum of the capacities of the nodes, at most `usize::MAX`.
    ///
    /// ```
    /// let mut tags: multimap::BTreeMultiMap<u64, u64, Vec<MultiPair<u64, u64>>> =
    ///     multimap::BTreeMultiMap::new(alloc);
    /// for (tag, document) in [(1, 100), (1, 101), (2, 100)] {
    ///     tags.insert(tag, document)?;
    /// }
    /// assert!(rt; tags.capacity() >= 3);
    /// ```
    pub fn capacity(&self) -> usize
        ensures enough { length (concat self.now.nodes) ≤ result }
        ensures sum { AddsUp Node.list Node.room self.now.nodes result }
    {
        self.set.capacity()
    }

    /// Returns the number of the next event.
    ///
    /// ```
    /// let mut tags: multimap::BTreeMultiMap<u64, u64, Vec<MultiPair<u64, u64>>> =
    ///     multimap::BTreeMultiMap::new(alloc);
    /// for (tag, document) in [(1, 100), (1, 101), (2, 100)] {
    ///     tags.insert(tag, document)?;
    /// }
    /// assert!(rt; tags.events_issued() == 3);
    /// ```
    pub fn events_issued(&self) -> u64
        ensures { result ≡ self.now.next }
    {
        self.set.events_issued()
    }

    /// Returns a double-ended iterator over the nodes, in order.
    ///
    /// ```
    /// let mut tags: multimap::BTreeMultiMap<u64, u64, Vec<MultiPair<u64, u64>>> =
    ///     multimap::BTreeMultiMap::new(alloc);
    /// for (tag, document) in [(1, 100), (1, 101), (2, 100)] {
    ///     tags.insert(tag, document)?;
    /// }
    /// assert!(rt; tags.iter_nodes().map(|node| node.len()).eq([3]));
    /// ```
    pub fn iter_nodes(&self) -> Nodes<'_, Node>
        ensures rest { map Node.list result ≡ self.now.nodes }
        ensures runs { ShowsInOrder (deref {X = Node}) }
        ensures runs_back { ShowsInReverse (deref {X = Node}) }
    {
        self.set.iter_nodes()
    }

    /// Returns true if a pair has the key.
    ///
    /// ```
    /// let mut tags: multimap::BTreeMultiMap<u64, u64, Vec<MultiPair<u64, u64>>> =
    ///     multimap::BTreeMultiMap::new(alloc);
    /// for (tag, document) in [(1, 100), (1, 101), (2, 100)] {
    ///     tags.insert(tag, document)?;
    /// }
    /// assert!(rt; tags.contains_key(&1) && !tags.contains_key(&3));
    /// ```
    pub fn contains_key<Q: LookupKey<K> + Drop>(&self, key: Q) -> bool
        ensures { result ≡ has_pair_of Q.order (concat self.now.nodes) key }
    {
        self.locate(&key).is_ok()
    }

    // States the invariant of the multimap, and that it fits its counters. It does nothing.
    fn recall_invariant(&self)
        ensures tree { IsTree (by_number K.cmp) Node.most self.now.nodes self.now.size
            (length (concat self.now.nodes)) }
        ensures numbers { AreNumberedBelow self.now.pair_next (concat self.now.nodes) }
        ensures items { length (concat self.now.nodes) ≤ usize.MAX }
        ensures number { self.now.next ≤ u64.MAX }
    {
        self.set.recall_invariant();
    }

    // Returns the place where a search for a key ends.
    fn locate<Q: LookupKey<K>>(&self, key: &Q) -> Result<(usize, usize), (usize, usize)>
        ensures place { result ≡ located (λ p. Q.order p.key key.now) self.now.nodes }
        ensures lawful { IsLawful (by_number K.cmp) self.now.size self.now.nodes }
    {
        // The pairs ascend, as a search by key requires.
        self.set.recall_invariant();
        self.set.locate_by(&mut ByKey::new(key))
    }
}
