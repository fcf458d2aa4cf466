//! Double-ended iterators over a set.
ghost use Rattle.std.specs.Prelude.{◌≡◌, ◌+◌, length, List, map, IfSome, Some};
ghost use Rattle.std.specs.List.{between};
ghost use Rattle.std.specs.Iterator.{UpTo, at_most};
ghost use Rattle.std.specs.Iterator.SizeHint.{IsWithinCount};
ghost use Rattle.std.specs.Map.Iter.{TakesFirst, TakesLast, ShowsInOrder, ShowsInReverse, deref};
ghost use Rattle.indexset_core.specs.Nodes.{concat};
ghost use Rattle.indexset_core.specs.Order.{IsAscending};
ghost use Rattle.indexset_core.specs.Places.{IsPlace, items_before};

use super::BTreeSet;
use indexset_core::item_iter::counted::ExactItemIter;
use indexset_core::item_iter::{ItemIter, OfNode};
use indexset_core::node::NodeLike;
use std::iter::FusedIterator;
use std::marker::Model;

/// A double-ended iterator over the items of a set.
#[derive(Drop)]
pub struct Iter<'a, T: Ord + Clone + Drop, Node: NodeLike<T> = Vec<T>> {
    rest: ExactItemIter<'a, T, Node, OfNode>,
}

impl<'a, T: Ord + Clone + Drop, Node: NodeLike<T>> Model for Iter<'a, T, Node> {
    ghost use Rattle.std.specs.Prelude.{List};

    ghost Value = { List T };

    ghost view = { λ a. a.rest };
}

impl<'a, T: Ord + Clone + Drop, Node: NodeLike<T>> Iter<'a, T, Node> {
    /// Returns a double-ended iterator over the items of a set, in order.
    ///
    /// ```
    /// let tree: set::BTreeSet<u64, Vec<u64>> = set::BTreeSet::from_iter(alloc, [15, 5, 10])?;
    /// assert!(rt; set::Iter::new(&tree).copied().eq([5, 10, 15]));
    /// ```
    pub fn new(set: &'a BTreeSet<T, Node>) -> Self
        ensures rest { result ≡ concat set.now.nodes }
        ensures ascending { IsAscending T.cmp result }
        ensures runs { ShowsInOrder (deref {X = T}) }
        ensures runs_back { ShowsInReverse (deref {X = T}) }
    {
        Iter {
            rest: ExactItemIter::new(ItemIter::over(set.nodes.as_slice()), set.len),
        }
    }

    // Returns the iterator over the `count` items from one place to before another.
    pub(super) fn between(
        nodes: &'a [Node],
        from: (usize, usize),
        to: (usize, usize),
        count: usize,
    ) -> Self
        requires from { IsPlace (map Node.list nodes.now) from }
        requires to { IsPlace (map Node.list nodes.now) to }
        requires count { items_before (map Node.list nodes.now) from + count
            ≡ items_before (map Node.list nodes.now) to }
        ensures { result ≡ between (items_before (map Node.list nodes.now) from)
            (items_before (map Node.list nodes.now) to) (concat (map Node.list nodes.now)) }
    {
        Iter {
            rest: ExactItemIter::new(ItemIter::between(nodes, from, to), count),
        }
    }
}

impl<'a, T: Ord + Clone + Drop, Node: NodeLike<T>> Iterator for Iter<'a, T, Node> {
    type Item = &'a T;

    ghost next_gives = { TakesFirst deref };

    ghost remaining = { λ s. at_most (length s) };

    fn next(&mut self) -> Option<&'a T> {
        self.rest.next()
    }

    fn size_hint(&self) -> (usize, Option<usize>)
        ensures lower { IsWithinCount result.0 (at_most (length self.now)) }
        ensures upper { IfSome result.1 (UpTo (at_most (length self.now))) }
        ensures exact { result ≡ (length self.now, Some (length self.now)) }
    {
        self.rest.size_hint()
    }
}

impl<'a, T: Ord + Clone + Drop, Node: NodeLike<T>> DoubleEndedIterator for Iter<'a, T, Node> {
    ghost next_back_gives = { TakesLast deref };

    fn next_back(&mut self) -> Option<&'a T> {
        self.rest.next_back()
    }
}

impl<'a, T: Ord + Clone + Drop, Node: NodeLike<T>> ExactSizeIterator for Iter<'a, T, Node> {
    fn len(&self) -> usize {
        self.rest.len()
    }
}

impl<'a, T: Ord + Clone + Drop, Node: NodeLike<T>> FusedIterator for Iter<'a, T, Node> {}

impl<T: Ord + Clone + Drop, Node: NodeLike<T>> BTreeSet<T, Node> {
    /// Returns a double-ended iterator over the items, in order.
    ///
    /// ```
    /// let tree: set::BTreeSet<u64, Vec<u64>> = set::BTreeSet::from_iter(alloc, [15, 5, 10])?;
    /// assert!(rt; tree.iter().rev().copied().eq([15, 10, 5]));
    /// ```
    pub fn iter(&self) -> Iter<'_, T, Node>
        ensures rest { result ≡ concat self.now.nodes }
        ensures ascending { IsAscending T.cmp result }
        ensures runs { ShowsInOrder (deref {X = T}) }
        ensures runs_back { ShowsInReverse (deref {X = T}) }
    {
        Iter::new(self)
    }
}

impl<'a, T: Ord + Clone + Drop, Node: NodeLike<T>> IntoIterator for &'a BTreeSet<T, Node> {
    type Item = &'a T;

    type IntoIter = Iter<'a, T, Node>;

    ghost into_iter_gives = { λ b r. (r ≡ concat b.now.nodes) × ShowsInOrder (deref {X = T})
        × ShowsInReverse (deref {X = T}) };

    fn into_iter(self) -> Iter<'a, T, Node> {
        self.iter()
    }
}
