//! The items between two bounds, or between two places.
ghost use Rattle.std.specs.Prelude.{◌≡◌, ◌+◌, ◌-◌, ◌*◌, ◌<◌, ◌≤◌};
ghost use Rattle.std.specs.Prelude.{IfSome, IsTrue, Some, length, List};
ghost use Rattle.std.specs.Iterator.{UpTo, at_most};
ghost use Rattle.std.specs.Iterator.SizeHint.{IsWithinCount};
ghost use Rattle.std.specs.List.{between, count_by};
ghost use Rattle.std.specs.Map.Iter.{TakesFirst, TakesLast, ShowsInOrder, ShowsInReverse, deref};
ghost use Rattle.std.specs.Range.Bound.{bound_map};
ghost use Rattle.indexset_core.specs.KeyRange.{IfBounded, are_ordered, in_range};
ghost use Rattle.indexset_core.specs.KeyRange.{is_before, is_up_to_end};
ghost use Rattle.indexset_core.specs.Digits.{digits};
ghost use Rattle.indexset_core.specs.Nodes.{concat, node_at};
ghost use Rattle.indexset_core.specs.Parted.{IsParted, less_count, not_greater_count};
ghost use Rattle.indexset_core.specs.Places.{IsPlace, items_before};

use super::BTreeSet;
use super::iter::Iter;
use crate::locate::{last_started, run_end};
use indexset_core::item_iter::OfNode;
use indexset_core::key_range::KeyRange;
use indexset_core::locate::{node_by, place_from, place_to};
use indexset_core::lookup_key::LookupKey;
use indexset_core::node::NodeLike;
use indexset_core::probe::{ByItem, Probe};
use indexset_core::search::first_not_less_near;
use std::iter::FusedIterator;
use std::marker::Model;
use std::ops::Bound;

/// A double-ended iterator over a range of the items of a set.
#[derive(Drop)]
pub struct Range<'a, T: Ord + Clone + Drop, Node: NodeLike<T> = Vec<T>> {
    pub(crate) rest: Iter<'a, T, Node>,
}

impl<'a, T: Ord + Clone + Drop, Node: NodeLike<T>> Model for Range<'a, T, Node> {
    ghost use Rattle.std.specs.Prelude.{List};

    ghost Value = { List T };

    ghost view = { λ a. a.rest };
}

impl<'a, T: Ord + Clone + Drop, Node: NodeLike<T>> Range<'a, T, Node> {
    /// Returns a double-ended iterator over the items of a set within the range, in order.
    ///
    /// It is that of the set's `range`. The start must not be past the end, nor equal to it if both
    /// are excluded: see `base::key_range::bounds_are_ordered`.
    ///
    /// ```
    /// let tree: set::BTreeSet<u64, Vec<u64>> = set::BTreeSet::from_iter(alloc, [5, 10, 15])?;
    /// assert!(rt; set::Range::new(&tree, 10..).copied().eq([10, 15]));
    /// ```
    pub fn new<R: KeyRange<T> + Drop>(set: &'a BTreeSet<T, Node>, range: R) -> Self
        requires { IsTrue (are_ordered R.Key.cmp (R.start range) (R.end range)) }
        ensures rest { result ≡ in_range R.Key.order (concat set.now.nodes) (R.start range)
            (R.end range) }
        ensures runs { ShowsInOrder (deref {X = T}) }
        ensures runs_back { ShowsInReverse (deref {X = T}) }
    {
        set.range(range)
    }
}

impl<'a, T: Ord + Clone + Drop, Node: NodeLike<T>> Iterator for Range<'a, T, Node> {
    type Item = &'a T;

    ghost next_gives = { TakesFirst deref };

    ghost remaining = { λ s. at_most (length s) };

    fn next(&mut self) -> Option<&'a T> {
        self.rest.next()
    }

    fn size_hint(&self) -> (usize, Option<usize>)
        ensures lower { IsWithinCount result.0 (at_most (length self.now)) }
        ensures upper { IfSome result.1 (UpTo (at_most (length self.now))) }
        ensures exact { result ≡ (length self.now, Some (length self.now)) }
    {
        self.rest.size_hint()
    }
}

impl<'a, T: Ord + Clone + Drop, Node: NodeLike<T>> DoubleEndedIterator for Range<'a, T, Node> {
    ghost next_back_gives = { TakesLast deref };

    fn next_back(&mut self) -> Option<&'a T> {
        self.rest.next_back()
    }
}

impl<'a, T: Ord + Clone + Drop, Node: NodeLike<T>> ExactSizeIterator for Range<'a, T, Node> {
    fn len(&self) -> usize {
        self.rest.len()
    }
}

impl<'a, T: Ord + Clone + Drop, Node: NodeLike<T>> FusedIterator for Range<'a, T, Node> {}

impl<T: Ord + Clone + Drop, Node: NodeLike<T>> BTreeSet<T, Node> {
    /// Returns a double-ended iterator over the items within the range, in order.
    ///
    /// The start must not be past the end, nor equal to it if both are excluded: see
    /// `base::key_range::bounds_are_ordered`.
    ///
    /// ```
    /// let mut tree: set::BTreeSet<u64, Vec<u64>> = set::BTreeSet::new(alloc);
    /// for number in [5, 10, 15] {
    ///     tree.insert(number)?;
    /// }
    /// assert!(rt; tree.range(10..).copied().eq([10, 15]) && tree.range(..=10).len() == 2);
    /// ```
    pub fn range<R: KeyRange<T> + Drop>(&self, range: R) -> Range<'_, T, Node>
        requires { IsTrue (are_ordered R.Key.cmp (R.start range) (R.end range)) }
        ensures rest { result ≡ in_range R.Key.order (concat self.now.nodes) (R.start range)
            (R.end range) }
        ensures runs { ShowsInOrder (deref {X = T}) }
        ensures runs_back { ShowsInReverse (deref {X = T}) }
    {
        self.within((range.start_bound(), range.end_bound()))
    }

    // Returns the same for two bounds.
    fn within<Q: LookupKey<T>>(&self, range: (Bound<&Q>, Bound<&Q>)) -> Range<'_, T, Node>
        requires { IsTrue (are_ordered Q.cmp (bound_map (λ v. v.now) range.0)
            (bound_map (λ v. v.now) range.1)) }
        ensures { result ≡ in_range Q.order (concat self.now.nodes)
            (bound_map (λ v. v.now) range.entry.0) (bound_map (λ v. v.now) range.entry.1) }
    {
        self.recall_invariant();
        let from = self.place_from(range.0.map(ByItem::new));
        let to = self.place_to(range.1.map(ByItem::new));
        self.range_between(from, to)
    }

    /// Returns a double-ended iterator over the items from one place to before another, in order.
    ///
    /// A place is a node and an offset of at most its length, as `locate_by` returns it; in an
    /// empty tree it is (0, 0). The second place must not be before the first.
    ///
    /// ```
    /// let tree: set::BTreeSet<u64, Vec<u64>> = set::BTreeSet::from_iter(alloc, [5, 10, 15])?;
    /// assert!(rt; tree.range_between((0, 1), (0, 3)).copied().eq([10, 15]));
    /// ```
    pub fn range_between(&self, from: (usize, usize), to: (usize, usize)) -> Range<'_, T, Node>
        requires from { IsPlace self.now.nodes from }
        requires to { IsPlace self.now.nodes to }
        requires order { items_before self.now.nodes from ≤ items_before self.now.nodes to }
        ensures rest { result ≡ between (items_before self.now.nodes from)
            (items_before self.now.nodes to) (concat self.now.nodes) }
        ensures runs { ShowsInOrder (deref {X = T}) }
        ensures runs_back { ShowsInReverse (deref {X = T}) }
    {
        let count = self.count_between(from, to);
        Range {
            rest: Iter::between(self.nodes.as_slice(), from, to, count),
        }
    }

    // Returns the number of items between two places, from the index if they are in two nodes.
    fn count_between(&self, from: (usize, usize), to: (usize, usize)) -> usize
        requires from { IsPlace self.now.nodes from }
        requires to { IsPlace self.now.nodes to }
        requires order { items_before self.now.nodes from ≤ items_before self.now.nodes to }
        ensures { items_before self.now.nodes from + result ≡ items_before self.now.nodes to }
    {
        if from.0 == to.0 {
            to.1 - from.1
        } else {
            self.position(to) - self.position(from)
        }
    }

    /// Returns the place after the items before the start, a bound given by a comparator.
    ///
    /// The comparator must find the items in order.
    ///
    /// # Examples
    ///
    /// ```
    /// # use indexset::base::probe::ByItem;
    /// let tree: set::BTreeSet<u64, Vec<u64>> = set::BTreeSet::from_iter(alloc, [5, 10, 15])?;
    /// assert!(rt; tree.place_from(Bound::Excluded(ByItem::new(&5))) == (0, 1));
    /// ```
    ///
    /// # Complexity
    ///
    /// Makes two binary searches, and none if the start is unbounded.
    pub fn place_from<P: Probe<T> + Drop>(&self, start: Bound<P>) -> (usize, usize)
        requires { IfBounded (λ p. IsParted (P.answer p) (concat self.now.nodes)) start }
        ensures place { IsPlace self.now.nodes result }
        ensures before { items_before self.now.nodes result
            ≡ count_by (is_before (λ x p. P.answer p x) start) (concat self.now.nodes) }
    {
        place_from::<T, Node, OfNode, P>(self.nodes.as_slice(), start)
    }

    /// Returns the place after the items that are not past the end, a bound given by a comparator.
    ///
    /// The comparator must find the items in order.
    ///
    /// # Examples
    ///
    /// ```
    /// # use indexset::base::probe::ByItem;
    /// let tree: set::BTreeSet<u64, Vec<u64>> = set::BTreeSet::from_iter(alloc, [5, 10, 15])?;
    /// assert!(rt; tree.place_to(Bound::Included(ByItem::new(&10))) == (0, 2));
    /// ```
    ///
    /// # Complexity
    ///
    /// Makes two binary searches, and none if the end is unbounded.
    pub fn place_to<P: Probe<T> + Drop>(&self, end: Bound<P>) -> (usize, usize)
        requires { IfBounded (λ p. IsParted (P.answer p) (concat self.now.nodes)) end }
        ensures place { IsPlace self.now.nodes result }
        ensures before { items_before self.now.nodes result
            ≡ count_by (is_up_to_end (λ x p. P.answer p x) end) (concat self.now.nodes) }
    {
        place_to::<T, Node, OfNode, P>(self.nodes.as_slice(), end)
    }

    /// Returns the places before and after the items that the comparator finds Equal.
    ///
    /// If there are none, both are the place where such an item would be inserted. The comparator
    /// must find the items in order.
    ///
    /// # Examples
    ///
    /// ```
    /// # use indexset::base::probe::ByItem;
    /// let tree: set::BTreeSet<u64, Vec<u64>> = set::BTreeSet::from_iter(alloc, [5, 10, 15])?;
    /// assert!(rt; tree.places_by(&mut ByItem::new(&10)) == ((0, 1), (0, 2)));
    /// ```
    ///
    /// # Complexity
    ///
    /// Makes two binary searches for the first such item, then an exponential search for the last.
    pub fn places_by<P: Probe<T>>(&self, probe: &mut P) -> ((usize, usize), (usize, usize))
        requires { IsParted (P.answer probe.old) (concat self.now.nodes) }

        // Result.
        ensures from { IsPlace self.now.nodes result.0 }
        ensures to { IsPlace self.now.nodes result.1 }
        ensures before { items_before self.now.nodes result.0
            ≡ less_count (P.answer probe.old) (concat self.now.nodes) }
        ensures past { items_before self.now.nodes result.1
            ≡ not_greater_count (P.answer probe.old) (concat self.now.nodes) }

        // Contents.
        ensures fixed { P.answer probe.new ≡ P.answer probe.old }
        ensures comparisons { P.asked probe.new ≤ P.asked probe.old +
            (digits (length self.now.nodes) + digits self.now.size + 1 + 8 * digits
            (items_before self.now.nodes result.1 - items_before self.now.nodes result.0 - 1)) }
    {
        if self.nodes.is_empty() {
            return ((0, 0), (0, 0));
        }
        let node = node_by::<T, Node, OfNode, P>(self.nodes.as_slice(), probe);
        let (offset, found) = first_not_less_near(self.nodes[node].iter().as_slice(), probe);
        let from = (node, offset);
        if found {
            (from, self.end_from(node, offset, probe))
        } else {
            (from, from)
        }
    }

    // Returns the place after the items that are not found Greater, if the item at a place is not.
    fn end_from<P: Probe<T>>(&self, node: usize, offset: usize, probe: &mut P) -> (usize, usize)
        requires parted { IsParted (P.answer probe.old) (concat self.now.nodes) }
        requires node { node < length self.now.nodes }
        requires offset { offset < length (node_at self.now.nodes node) }
        requires started { items_before self.now.nodes (node, offset)
            < not_greater_count (P.answer probe.old) (concat self.now.nodes) }
        ensures place { IsPlace self.now.nodes result }
        ensures before { items_before self.now.nodes result
            ≡ not_greater_count (P.answer probe.old) (concat self.now.nodes) }
        ensures fixed { P.answer probe.new ≡ P.answer probe.old }
        ensures comparisons { P.asked probe.new ≤ P.asked probe.old +
            (1 + 8 * digits (items_before self.now.nodes result - items_before self.now.nodes
            (node, offset) - 1)) }
    {
        let items = self.nodes[node].iter().as_slice();
        let end = run_end(items, offset + 1, probe);
        if end < items.len() {
            return (node, end);
        }
        let last = last_started(self.nodes.as_slice(), node, probe);
        if last == node {
            return (node, end);
        }
        (last, run_end(self.nodes[last].iter().as_slice(), 1, probe))
    }

    /// Returns the place of the item `count` items after a place.
    ///
    /// There must be such an item. It reads the lengths of the nodes between.
    ///
    /// # Examples
    ///
    /// ```
    /// let nodes = vec![in alloc; vec![in alloc; 5, 10]?, vec![in alloc; 15]?]?;
    /// let tree: set::BTreeSet<u64, Vec<u64>> = set::BTreeSet::from_nodes(nodes, 64, 0)?;
    /// assert!(rt; tree.place_ahead((0, 0), 2) == (1, 0));
    /// ```
    ///
    /// # Complexity
    ///
    /// Makes no comparison.
    pub fn place_ahead(&self, place: (usize, usize), count: usize) -> (usize, usize)
        requires place { IsPlace self.now.nodes place }
        requires within { items_before self.now.nodes place + count
            < length (concat self.now.nodes) }
        ensures node { result.0 < length self.now.nodes }
        ensures offset { result.1 < length (node_at self.now.nodes result.0) }
        ensures before { items_before self.now.nodes result
            ≡ items_before self.now.nodes place + count }
    {
        let (mut node, mut offset) = place;
        let mut left = count;
        while left >= self.nodes[node].len() - offset {
            left -= self.nodes[node].len() - offset;
            node += 1;
            offset = 0;
        }
        (node, offset + left)
    }
}
