//! An iterator that knows how many items remain.
ghost use Rattle.std.specs.Prelude.{◌≡◌, ◌<◌, ◌++◌, length, IfSome, Some};
ghost use Rattle.std.specs.Iterator.{UpTo, at_most};
ghost use Rattle.std.specs.Iterator.SizeHint.{IsWithinCount};
ghost use Rattle.std.specs.Map.Iter.{TakesFirst, TakesLast, deref};

use super::{ItemIter, NodeItems};
use std::alloc::AllocError;
use std::fmt;
use std::iter::FusedIterator;
use std::marker::Model;

/// A double-ended iterator over the items of nodes, which knows how many remain.
#[derive(Drop)]
pub struct ExactItemIter<'a, T, Node, R: NodeItems<T, Node>> {
    walk: ItemIter<'a, T, Node, R>,
    left: usize,
}

impl<'a, T, Node, R: NodeItems<T, Node>> Model for ExactItemIter<'a, T, Node, R> {
    ghost use Rattle.std.specs.Prelude.{◌≡◌, List, length};

    ghost Value = { List T };

    ghost view = { λ a. a.walk };

    ghost invariant = { λ a. a.left ≡ length a.walk };
}

impl<'a, T, Node, R: NodeItems<T, Node>> ExactItemIter<'a, T, Node, R> {
    /// Creates an iterator from one of which `left` items remain.
    pub fn new(walk: ItemIter<'a, T, Node, R>, left: usize) -> Self
        requires { left ≡ length walk }
        ensures { result ≡ walk.entry }
    {
        ExactItemIter { walk, left }
    }

    /// Returns the remaining items of the front node, or of the next node that has items.
    ///
    /// They are empty only at the end.
    pub fn next_chunk(&mut self) -> &'a [T]
        ensures taken { self.old ≡ result.now ++ self.new }
        ensures some { 0 < length self.old → 0 < length result.now }
    {
        let run = self.walk.next_chunk();
        self.left -= run.len();
        run
    }
}

impl<'a, T, Node, R: NodeItems<T, Node>> Iterator for ExactItemIter<'a, T, Node, R> {
    type Item = &'a T;

    ghost next_gives = { TakesFirst deref };

    ghost remaining = { λ rest. at_most (length rest) };

    fn next(&mut self) -> Option<&'a T> {
        let item = self.walk.next()?;
        self.left -= 1;
        Some(item)
    }

    fn size_hint(&self) -> (usize, Option<usize>)
        ensures lower { IsWithinCount result.0 (at_most (length self.now)) }
        ensures upper { IfSome result.1 (UpTo (at_most (length self.now))) }
        ensures exact { result ≡ (length self.now, Some (length self.now)) }
    {
        (self.left, Some(self.left))
    }
}

impl<'a, T, Node, R: NodeItems<T, Node>> DoubleEndedIterator for ExactItemIter<'a, T, Node, R> {
    ghost next_back_gives = { TakesLast deref };

    fn next_back(&mut self) -> Option<&'a T> {
        let item = self.walk.next_back()?;
        self.left -= 1;
        Some(item)
    }
}

impl<'a, T, Node, R: NodeItems<T, Node>> ExactSizeIterator for ExactItemIter<'a, T, Node, R> {
    fn len(&self) -> usize {
        self.left
    }
}

impl<'a, T, Node, R: NodeItems<T, Node>> FusedIterator for ExactItemIter<'a, T, Node, R> {}

impl<'a, T, Node, R: NodeItems<T, Node>> Clone for ExactItemIter<'a, T, Node, R> {
    ghost use Rattle.std.specs.Prelude.{◌≡◌, ⊤};

    ghost is_clone = { λ walk copy. copy ≡ walk };

    ghost is_infallible = { λ _. ⊤ };

    fn clone(&self) -> Result<Self, AllocError> {
        let walk = self.walk.clone()?;
        Ok(ExactItemIter {
            walk,
            left: self.left,
        })
    }
}

/// Writes the remaining items.
impl<'a, T: fmt::Debug, Node, R: NodeItems<T, Node>> fmt::Debug for ExactItemIter<'a, T, Node, R> {
    fn fmt<W: fmt::Write>(&self, f: &mut fmt::Formatter<W>) -> fmt::Result {
        let mut rest = self.clone().unwrap();
        let mut list = f.debug_list();
        while let Some(item) = rest.next() {
            list.entry(item);
        }
        list.finish()
    }
}
