//! The nodes of a set.
ghost use Rattle.std.specs.Prelude.{◌≡◌, ◌≤◌, length, List, map, min, sum_by, IfSome, Some};
ghost use Rattle.std.specs.Iterator.{UpTo, at_most};
ghost use Rattle.std.specs.Iterator.SizeHint.{IsWithinCount};
ghost use Rattle.std.specs.Map.Iter.{TakesFirst, TakesLast, ShowsInOrder, ShowsInReverse, deref};
ghost use Rattle.indexset_core.specs.Nodes.{concat};
ghost use Rattle.indexset_events.specs.Nodes.{AddsUp};

use super::BTreeSet;
use crate::nodes::capacity_of;
use indexset_core::node::NodeLike;
use std::iter::FusedIterator;
use std::marker::Model;
use std::slice;

/// A double-ended iterator over the nodes of a tree.
#[derive(Drop)]
pub struct Nodes<'a, Node> {
    rest: slice::Iter<'a, Node>,
}

impl<'a, Node> Model for Nodes<'a, Node> {
    ghost use Rattle.std.specs.Prelude.{List};
    ghost use Rattle.std.specs.Slice.Iter.{iter_rest};

    ghost Value = { List Node };

    ghost view = { λ a. iter_rest a.rest };
}

impl<'a, Node> Nodes<'a, Node> {
    /// Returns the remaining nodes.
    ///
    /// ```
    /// let tree: set::BTreeSet<u64, Vec<u64>> = set::BTreeSet::from_iter(alloc, [5, 10, 15])?;
    /// assert!(rt; tree.iter_nodes().as_slice()[0].len() == 3);
    /// ```
    pub fn as_slice(&self) -> &'a [Node]
        ensures { result.now ≡ self.now }
    {
        self.rest.as_slice()
    }

    /// Returns the sum of the capacities of the remaining nodes, at most `usize::MAX`.
    ///
    /// ```
    /// let tree: set::BTreeSet<u64, Vec<u64>> = set::BTreeSet::from_iter(alloc, [5, 10, 15])?;
    /// assert!(rt; tree.iter_nodes().capacity::<u64>() == tree.capacity());
    /// ```
    pub fn capacity<T: Ord + Drop>(&self) -> usize
    where
        Node: NodeLike<T>,
        ensures { result ≡ min usize.MAX (sum_by Node.room self.now) }
    {
        capacity_of(self.as_slice())
    }
}

impl<'a, Node> Iterator for Nodes<'a, Node> {
    type Item = &'a Node;

    ghost next_gives = { TakesFirst deref };

    ghost remaining = { λ s. at_most (length s) };

    fn next(&mut self) -> Option<&'a Node> {
        self.rest.next()
    }

    fn size_hint(&self) -> (usize, Option<usize>)
        ensures lower { IsWithinCount result.0 (at_most (length self.now)) }
        ensures upper { IfSome result.1 (UpTo (at_most (length self.now))) }
        ensures exact { result ≡ (length self.now, Some (length self.now)) }
    {
        let len = self.len();
        (len, Some(len))
    }
}

impl<'a, Node> DoubleEndedIterator for Nodes<'a, Node> {
    ghost next_back_gives = { TakesLast deref };

    fn next_back(&mut self) -> Option<&'a Node> {
        self.rest.next_back()
    }
}

impl<'a, Node> ExactSizeIterator for Nodes<'a, Node> {
    fn len(&self) -> usize {
        self.rest.len()
    }
}

impl<'a, Node> FusedIterator for Nodes<'a, Node> {}

impl<T: Ord + Clone + Drop, Node: NodeLike<T>> BTreeSet<T, Node> {
    /// Returns a double-ended iterator over the nodes, in order.
    ///
    /// ```
    /// let nodes = vec![in alloc; vec![in alloc; 5, 10]?, vec![in alloc; 15]?]?;
    /// let tree: set::BTreeSet<u64, Vec<u64>> = set::BTreeSet::from_nodes(nodes, 64, 0)?;
    /// assert!(rt; tree.iter_nodes().map(|node| node.len()).eq([2, 1]));
    /// ```
    pub fn iter_nodes(&self) -> Nodes<'_, Node>
        ensures rest { map Node.list result ≡ self.now.nodes }
        ensures runs { ShowsInOrder (deref {X = Node}) }
        ensures runs_back { ShowsInReverse (deref {X = Node}) }
    {
        Nodes {
            rest: self.nodes.as_slice().iter(),
        }
    }

    /// Returns the sum of the capacities of the nodes, at most `usize::MAX`.
    ///
    /// ```
    /// let tree: set::BTreeSet<u64, Vec<u64>> = set::BTreeSet::from_iter(alloc, [5, 10, 15])?;
    /// assert!(rt; tree.capacity() >= tree.len());
    /// ```
    pub fn capacity(&self) -> usize
        ensures enough { length (concat self.now.nodes) ≤ result }
        ensures sum { AddsUp Node.list Node.room self.now.nodes result }
    {
        self.recall_invariant();
        capacity_of(self.nodes.as_slice())
    }
}
