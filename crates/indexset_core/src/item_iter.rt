//! A double-ended iterator over the items of nodes.
ghost use Rattle.std.specs.Prelude.{◌≡◌, ◌<◌, ◌≤◌, ◌++◌, List, IfSome, length, map};
ghost use Rattle.std.specs.List.{between};
ghost use Rattle.std.specs.Iterator.{UpTo, at_most};
ghost use Rattle.std.specs.Iterator.SizeHint.{IsWithinCount};
ghost use Rattle.std.specs.Map.Iter.{TakesFirst, TakesLast, deref};
ghost use Rattle.indexset_core.specs.Nodes.{concat};
ghost use Rattle.indexset_core.specs.Places.{IsPlace, items_before};

pub mod counted;

use crate::node::NodeLike;
use std::alloc::AllocError;
use std::iter::FusedIterator;
use std::marker::{Model, PhantomData};

/// How an iterator reads the items of a node.
///
/// [`OfVec`] reads a `Vec` of any items, and [`OfNode`] a node of any type.
pub trait NodeItems<T, Node> {
    /// The items, in order.
    ghost list: { Node → List T };

    /// Returns the items.
    fn items_of(node: &Node) -> &[T]
        ensures { result.now ≡ list node.now };
}

/// Reads a `Vec`.
pub struct OfVec;

impl<T> NodeItems<T, Vec<T>> for OfVec {
    ghost list = { λ v. v.items };

    fn items_of(node: &Vec<T>) -> &[T] {
        node.as_slice()
    }
}

/// Reads a node of any type.
pub struct OfNode;

impl<T: Ord + Drop, Node: NodeLike<T>> NodeItems<T, Node> for OfNode {
    ghost list = { Node.list };

    fn items_of(node: &Node) -> &[T] {
        node.iter().as_slice()
    }
}

/// A double-ended iterator over the items of nodes.
///
/// It holds the remaining items of the front node, the nodes between, and the remaining items of
/// the back node.
#[derive(Drop)]
pub struct ItemIter<'a, T, Node, R: NodeItems<T, Node>> {
    front: &'a [T],
    middle: &'a [Node],
    back: &'a [T],
    read: PhantomData<R>,
}

impl<'a, T, Node, R: NodeItems<T, Node>> Model for ItemIter<'a, T, Node, R> {
    ghost use Rattle.std.specs.Prelude.{List, ◌++◌, map};
    ghost use Rattle.indexset_core.specs.Nodes.{concat};

    ghost Value = { List T };

    ghost view = { λ a. a.front.now ++ (concat (map R.list a.middle.now) ++ a.back.now) };
}

impl<'a, T, Node, R: NodeItems<T, Node>> ItemIter<'a, T, Node, R> {
    /// Creates an iterator over the items of all nodes.
    pub fn over(nodes: &'a [Node]) -> Self
        ensures { result ≡ concat (map R.list nodes.now) }
    {
        ItemIter {
            front: &[],
            middle: nodes,
            back: &[],
            read: PhantomData,
        }
    }

    /// Creates an iterator over the items from one place, a node and an offset, up to another.
    pub fn between(nodes: &'a [Node], from: (usize, usize), to: (usize, usize)) -> Self
        requires from { IsPlace (map R.list nodes.now) from }
        requires to { IsPlace (map R.list nodes.now) to }
        requires order { items_before (map R.list nodes.now) from
            ≤ items_before (map R.list nodes.now) to }
        ensures { result ≡ between (items_before (map R.list nodes.now) from)
            (items_before (map R.list nodes.now) to) (concat (map R.list nodes.now)) }
    {
        if nodes.is_empty() || from.0 > to.0 {
            return ItemIter::over(&[]);
        }
        let first = R::items_of(&nodes[from.0]);
        if from.0 == to.0 {
            return ItemIter {
                front: &first[from.1..to.1],
                middle: &[],
                back: &[],
                read: PhantomData,
            };
        }
        let last = R::items_of(&nodes[to.0]);
        ItemIter {
            front: &first[from.1..],
            middle: &nodes[from.0 + 1..to.0],
            back: &last[..to.1],
            read: PhantomData,
        }
    }

    /// Returns the remaining items of the front node, or of the next node that has items.
    ///
    /// They are empty only at the end.
    pub fn next_chunk(&mut self) -> &'a [T]
        ensures taken { self.old ≡ result.now ++ self.new }
        ensures some { 0 < length self.old → 0 < length result.now }
    {
        let mut run = self.front;
        self.front = &[];
        while run.is_empty()
            && let Some((node, rest)) = self.middle.split_first()
        {
            run = R::items_of(node);
            self.middle = rest;
        }
        if run.is_empty() {
            run = self.back;
            self.back = &[];
        }
        run
    }

    /// Returns how many items remain, as the sum of the lengths of the nodes.
    pub fn item_count(&self) -> usize
        requires { length self.now ≤ usize.MAX }
        ensures { result ≡ length self.now }
    {
        let middle = self.middle;
        let mut count = 0;
        for node in middle {
            count += R::items_of(node).len();
        }
        self.front.len() + count + self.back.len()
    }
}

impl<'a, T, Node, R: NodeItems<T, Node>> Iterator for ItemIter<'a, T, Node, R> {
    type Item = &'a T;

    ghost next_gives = { TakesFirst deref };

    ghost remaining = { λ rest. at_most (length rest) };

    fn next(&mut self) -> Option<&'a T> {
        loop {
            let front = self.front;
            if let Some((first, rest)) = front.split_first() {
                self.front = rest;
                return Some(first);
            }
            // Both are tested at once: after a test of only the back, the compiler enters the
            // caller's loop from here, behind that loop's test, and copies registers for it at each
            // item.
            if self.middle.len().max(self.back.len()) == 0 {
                return None;
            }
            if let Some((node, rest)) = self.middle.split_first() {
                self.front = R::items_of(node);
                self.middle = rest;
            } else {
                self.front = self.back;
                self.back = &[];
            }
        }
    }

    fn size_hint(&self) -> (usize, Option<usize>)
        ensures lower { IsWithinCount result.0 (at_most (length self.now)) }
        ensures upper { IfSome result.1 (UpTo (at_most (length self.now))) }
    {
        (0, None)
    }
}

impl<'a, T, Node, R: NodeItems<T, Node>> DoubleEndedIterator for ItemIter<'a, T, Node, R> {
    ghost next_back_gives = { TakesLast deref };

    fn next_back(&mut self) -> Option<&'a T> {
        loop {
            let back = self.back;
            if let Some((last, rest)) = back.split_last() {
                self.back = rest;
                return Some(last);
            }
            if let Some((node, rest)) = self.middle.split_last() {
                self.back = R::items_of(node);
                self.middle = rest;
            } else if self.front.is_empty() {
                return None;
            } else {
                // The front keeps half: if it were emptied, calls at alternating ends would move
                // the rest at each step.
                let front = self.front;
                let (first, last) = front.split_at(front.len() / 2);
                self.front = first;
                self.back = last;
            }
        }
    }
}

impl<'a, T, Node, R: NodeItems<T, Node>> FusedIterator for ItemIter<'a, T, Node, R> {}

impl<'a, T, Node, R: NodeItems<T, Node>> Clone for ItemIter<'a, T, Node, R> {
    ghost use Rattle.std.specs.Prelude.{◌≡◌, ⊤};

    ghost is_clone = { λ walk copy. copy ≡ walk };

    ghost is_infallible = { λ _. ⊤ };

    fn clone(&self) -> Result<Self, AllocError> {
        Ok(ItemIter {
            front: self.front,
            middle: self.middle,
            back: self.back,
            read: PhantomData,
        })
    }
}
