//! The logged set.
ghost use Rattle.std.specs.Prelude.{◌≡◌, ◌==◌, ◌+◌, ◌≤◌, [], length, None, MatchOption, find};
ghost use Rattle.std.specs.Ordering.{is_eq};
ghost use Rattle.std.specs.Option.{option_copied};
ghost use Rattle.indexset_core.specs.Nodes.{concat, IsLawful};
ghost use Rattle.indexset_core.specs.Digits.{digits};
ghost use Rattle.indexset_core.specs.Order.{has_equal, equal_element};
ghost use Rattle.indexset_core.specs.Parted.{IsParted};
ghost use Rattle.indexset_core.specs.Places.{located};
ghost use Rattle.indexset_events.specs.Located.{IsFoundIn};
ghost use Rattle.indexset_log.specs.Tree.{IsTree};

mod attach;
mod ends;
mod from_nodes;
mod insertion;
pub mod iter;
pub mod laws;
mod make;
pub mod nodes;
mod positions;
mod put;
pub mod range;
mod removal;
mod removal_log;
mod remove;
mod remove_range;
mod traits;

use indexset_core::constants::DEFAULT_INNER_SIZE;
use indexset_core::item_iter::OfNode;
use indexset_core::locate::locate_by;
use indexset_core::lookup_key::LookupKey;
use indexset_core::node::NodeLike;
use indexset_core::probe::{ByItem, Probe};
use indexset_index::blocks::Blocks;
use std::alloc::Global;
use std::marker::{Model, PhantomData};

/// A logged set: items in ascending order, partitioned into nodes.
///
/// It returns its changes as events.
///
/// ```
/// let mut tree: set::BTreeSet<u64, Vec<u64>> = set::BTreeSet::new(alloc);
/// let mut copy = Replica::new(alloc, 0);
/// let (_, events) = tree.put_cdc(5)?;
/// for event in events {
///     copy.apply(&event)?;
/// }
/// assert!(rt; tree.contains(&5) && copy.contains(&5));
/// ```
#[derive(Drop)]
pub struct BTreeSet<T: Ord + Clone + Drop, Node: NodeLike<T> = Vec<T>> {
    nodes: Vec<Node>,
    // The maximum number of items in a node.
    size: usize,
    // The number of items.
    len: usize,
    // The lengths of the nodes, summed over blocks.
    index: Blocks,
    // The number of the next event.
    next: u64,
    items: PhantomData<T>,
}

impl<T: Ord + Clone + Drop, Node: NodeLike<T>> Model for BTreeSet<T, Node> {
    ghost use Rattle.std.specs.Prelude.{map};
    ghost use Rattle.indexset_log.specs.Tree.{Tree, IsIndexedTree};

    ghost Value = { Tree T };

    ghost view = { λ s. record {
      nodes = map Node.list s.nodes.items;
      size = s.size;
      next = s.next;
    } };

    ghost invariant = { λ s.
        IsIndexedTree T.cmp Node.most (map Node.list s.nodes.items) s.size s.len
        s.index.sums };
}

impl<T: Ord + Clone + Drop, Node: NodeLike<T>> BTreeSet<T, Node> {
    /// Returns an empty tree with nodes of at most `size` items and events numbered from `next`.
    ///
    /// The size must be at least 2 and at most the limit of the node type.
    ///
    /// ```
    /// let tree: set::BTreeSet<u64, Vec<u64>> = set::BTreeSet::starting_at(alloc, 256, 100);
    /// assert!(rt; tree.events_issued() == 100);
    /// ```
    pub fn starting_at(alloc: Global, size: usize, next: u64) -> Self
        requires two { 2 ≤ size }
        requires within { size ≤ Node.most }
        ensures { result ≡ record { nodes = []; size = size; next = next } }
    {
        prove!(2 <= size);
        BTreeSet {
            nodes: Vec::new(alloc),
            size,
            len: 0,
            index: Blocks::new(alloc),
            next,
            items: PhantomData,
        }
    }

    /// Returns an empty tree with nodes of at most `size` items and events numbered from 0.
    ///
    /// The size must be at least 2 and at most the limit of the node type.
    ///
    /// ```
    /// let tree: set::BTreeSet<u64, Vec<u64>> = set::BTreeSet::with_maximum_node_size(alloc, 256);
    /// assert!(rt; tree.maximum_node_size() == 256);
    /// ```
    pub fn with_maximum_node_size(alloc: Global, size: usize) -> Self
        requires two { 2 ≤ size }
        requires within { size ≤ Node.most }
        ensures { result ≡ record { nodes = []; size = size; next = 0 } }
    {
        BTreeSet::starting_at(alloc, size, 0)
    }

    /// Returns an empty tree of the default node size, with events numbered from 0.
    ///
    /// ```
    /// let tree: set::BTreeSet<u64, Vec<u64>> = set::BTreeSet::new(alloc);
    /// assert!(rt; tree.is_empty() && tree.events_issued() == 0);
    /// ```
    pub fn new(alloc: Global) -> Self
        requires { DEFAULT_INNER_SIZE ≤ Node.most }
        ensures { result ≡ record { nodes = []; size = DEFAULT_INNER_SIZE; next = 0 } }
    {
        BTreeSet::with_maximum_node_size(alloc, DEFAULT_INNER_SIZE)
    }

    /// Returns an empty tree, as `new`.
    ///
    /// ```
    /// let tree: set::BTreeSet<u64, Vec<u64>> = set::BTreeSet::default(alloc);
    /// assert!(rt; tree.is_empty() && tree.events_issued() == 0);
    /// ```
    pub fn default(alloc: Global) -> Self
        requires { DEFAULT_INNER_SIZE ≤ Node.most }
        ensures { result ≡ record { nodes = []; size = DEFAULT_INNER_SIZE; next = 0 } }
    {
        BTreeSet::new(alloc)
    }

    /// Returns the number of items.
    ///
    /// ```
    /// let tree: set::BTreeSet<u64, Vec<u64>> = set::BTreeSet::from_iter(alloc, [5, 10, 15])?;
    /// assert!(rt; tree.len() == 3);
    /// ```
    pub fn len(&self) -> usize
        ensures { result ≡ length (concat self.now.nodes) }
    {
        self.len
    }

    /// Returns true if the tree contains no items.
    ///
    /// ```
    /// let mut tree: set::BTreeSet<u64, Vec<u64>> = set::BTreeSet::new(alloc);
    /// assert!(rt; tree.is_empty());
    /// tree.insert(5)?;
    /// assert!(rt; !tree.is_empty());
    /// ```
    pub fn is_empty(&self) -> bool
        ensures { result ≡ (length (concat self.now.nodes) == 0) }
    {
        self.len == 0
    }

    /// Returns the number of nodes.
    ///
    /// No node is empty or has more items than the node size, and the items ascend, within and
    /// across nodes.
    ///
    /// ```
    /// // The fifth item halves a full node.
    /// let mut tree: set::BTreeSet<u64, Vec<u64>> =
    ///     set::BTreeSet::with_maximum_node_size(alloc, 4);
    /// for number in [0, 2, 4, 6, 3] {
    ///     tree.insert(number)?;
    /// }
    /// assert!(rt; tree.node_count() == 2);
    /// ```
    pub fn node_count(&self) -> usize
        ensures value { result ≡ length self.now.nodes }
        ensures node_bound { result ≤ length (concat self.now.nodes) }
        ensures lawful { IsLawful T.cmp self.now.size self.now.nodes }
    {
        self.nodes.len()
    }

    /// Returns the number of the next event.
    ///
    /// ```
    /// let mut tree: set::BTreeSet<u64, Vec<u64>> = set::BTreeSet::new(alloc);
    /// tree.insert(5)?;
    /// tree.insert(5)?;
    /// assert!(rt; tree.events_issued() == 1);
    /// ```
    pub fn events_issued(&self) -> u64
        ensures { result ≡ self.now.next }
    {
        self.next
    }

    /// Returns the maximum number of items in a node.
    ///
    /// It is at least 2 and at most the limit of the node type.
    ///
    /// ```
    /// let tree: set::BTreeSet<u64, Vec<u64>> = set::BTreeSet::new(alloc);
    /// assert!(rt; tree.maximum_node_size() == 1024);
    /// ```
    pub fn maximum_node_size(&self) -> usize
        ensures value { result ≡ self.now.size }
        ensures two { 2 ≤ result }
        ensures within { result ≤ Node.most }
    {
        self.size
    }

    /// Returns the allocator of the tree.
    ///
    /// A `Global` has one value, so it is identical to every other.
    ///
    /// ```
    /// // A second tree from the allocator of the first.
    /// let tree: set::BTreeSet<u64, Vec<u64>> = set::BTreeSet::new(alloc);
    /// let other: set::BTreeSet<u64, Vec<u64>> = set::BTreeSet::from_iter(*tree.allocator(), [5])?;
    /// assert_eq!(rt; other.len(), 1);
    /// ```
    pub fn allocator(&self) -> &Global
        ensures { (alloc : Global) → result.now ≡ alloc }
    {
        self.nodes.allocator()
    }

    /// Returns the place of the first item that the probe finds Equal, a node and an offset in it.
    ///
    /// Returns `Err` with the place after the items that it finds Less if it finds none Equal. The
    /// probe must find the items in order.
    ///
    /// # Examples
    ///
    /// ```
    /// # use indexset::base::probe::ByItem;
    /// let tree: set::BTreeSet<u64, Vec<u64>> = set::BTreeSet::from_iter(alloc, [5, 10, 15])?;
    /// assert!(rt; tree.locate_by(&mut ByItem::new(&10)) == Ok((0, 1)));
    /// assert!(rt; tree.locate_by(&mut ByItem::new(&12)) == Err((0, 2)));
    /// ```
    ///
    /// # Complexity
    ///
    /// Makes two binary searches, and no comparison if the tree is empty.
    pub fn locate_by<P: Probe<T>>(&self, probe: &mut P) -> Result<(usize, usize), (usize, usize)>
        requires { IsParted (P.answer probe.old) (concat self.now.nodes) }
        ensures place { result ≡ located (P.answer probe.old) self.now.nodes }
        ensures fixed { P.answer probe.new ≡ P.answer probe.old }
        ensures comparisons { P.asked probe.new ≤ P.asked probe.old +
            (digits (length self.now.nodes) + digits self.now.size + 1) }
        ensures unasked { self.now.nodes ≡ [] → P.asked probe.new ≡ P.asked probe.old }
    {
        locate_by::<T, Node, OfNode, P>(self.nodes.as_slice(), probe)
    }

    /// States the invariant of the tree, and that it fits its counters.
    ///
    /// It does nothing: a caller whose proof needs one of these facts calls it.
    ///
    /// ```
    /// // A proof knows after the call that the items ascend.
    /// let tree: set::BTreeSet<u64, Vec<u64>> = set::BTreeSet::from_iter(alloc, [5, 10])?;
    /// tree.recall_invariant();
    /// assert!(rt; tree.first() == Some(&5));
    /// ```
    pub fn recall_invariant(&self)
        ensures tree { IsTree T.cmp Node.most self.now.nodes self.now.size
            (length (concat self.now.nodes)) }
        ensures items { length (concat self.now.nodes) ≤ usize.MAX }
        ensures nodes { length self.now.nodes ≤ usize.MAX }
        ensures number { self.now.next ≤ u64.MAX }
    {
        self.len();
        self.node_count();
        self.maximum_node_size();
        self.events_issued();
    }

    // Returns a probe for an item, which finds the items in order.
    fn by_item<'a, Q: LookupKey<T>>(&self, value: &'a Q) -> ByItem<'a, Q>
        ensures probe { result ≡ (value.now, 0) }
        ensures parted { IsParted (λ x. Q.order x value.now) (concat self.now.nodes) }
    {
        self.recall_invariant();
        ByItem::new(value)
    }

    // Returns the place of the equal item, if any: its node, and the offset in it.
    fn place_of<Q: LookupKey<T> + Drop>(&self, value: Q) -> Option<(usize, usize)>
        ensures place { MatchOption result (equal_element Q.order (concat self.now.nodes) value
            ≡ None) (λ p. IsFoundIn Q.order self.now.nodes value p.0 p.1) }
        ensures lawful { IsLawful T.cmp self.now.size self.now.nodes }
        ensures two { 2 ≤ self.now.size }
    {
        self.recall_invariant();
        self.locate_by(&mut self.by_item(&value)).ok()
    }

    /// Returns true if the tree contains an item equal to the value.
    ///
    /// ```
    /// let tree: set::BTreeSet<u64, Vec<u64>> = set::BTreeSet::from_iter(alloc, [5, 10, 15])?;
    /// assert!(rt; tree.contains(&10) && !tree.contains(&12));
    /// ```
    pub fn contains<Q: LookupKey<T> + Drop>(&self, value: Q) -> bool
        ensures { result ≡ has_equal Q.order (concat self.now.nodes) value }
    {
        self.get(value).is_some()
    }

    /// Returns the item equal to the value, if any.
    ///
    /// ```
    /// let tree: set::BTreeSet<u64, Vec<u64>> = set::BTreeSet::from_iter(alloc, [5, 10, 15])?;
    /// assert!(rt; tree.get(&10) == Some(&10) && tree.get(&12).is_none());
    /// ```
    pub fn get<Q: LookupKey<T> + Drop>(&self, value: Q) -> Option<&T>
        ensures { option_copied result ≡ equal_element Q.order (concat self.now.nodes) value }
    {
        self.get_by(&mut self.by_item(&value))
    }

    /// Returns the first item that the comparator finds equal, if any.
    ///
    /// The comparator must find the items in order.
    ///
    /// # Examples
    ///
    /// ```
    /// // A text, found by a &str without an allocation.
    /// let mut names: set::BTreeSet<String, Vec<String>> = set::BTreeSet::new(alloc);
    /// names.insert(String::from_str(alloc, "pear")?)?;
    /// assert!(rt; names.get_by(&mut ByItem::new(&"pear")).is_some());
    /// ```
    ///
    /// # Complexity
    ///
    /// Makes two binary searches, as `locate_by`.
    pub fn get_by<P: Probe<T>>(&self, probe: &mut P) -> Option<&T>
        requires { IsParted (P.answer probe.old) (concat self.now.nodes) }
        ensures value { option_copied result ≡ find (λ x. is_eq (P.answer probe.old x))
            (concat self.now.nodes) }
        ensures fixed { P.answer probe.new ≡ P.answer probe.old }
        ensures comparisons { P.asked probe.new ≤ P.asked probe.old +
            (digits (length self.now.nodes) + digits self.now.size + 1) }
    {
        match self.locate_by(probe) {
            Ok((node, offset)) => self.nodes[node].get_ith(offset),
            Err(_) => None,
        }
    }
}
