//! A double-ended iterator that owns the items of a spine.
ghost use Rattle.std.specs.Prelude.{◌≡◌, length, List, Some, IfSome};
ghost use Rattle.std.specs.Iterator.{at_most, UpTo};
ghost use Rattle.std.specs.Iterator.SizeHint.{IsWithinCount};
ghost use Rattle.std.specs.Map.Iter.{TakesFirst, TakesLast};
ghost use Rattle.indexset_core.specs.Nodes.{concat, vec_items};

mod traits;

use std::iter::FusedIterator;
use std::marker::Model;
use std::vec;

/// A double-ended iterator that owns the items of a spine.
///
/// It holds the remaining items of the front node, the nodes between, and the remaining items of
/// the back node.
#[derive(Drop)]
pub struct IntoIter<T> {
    front: vec::IntoIter<T>,
    middle: vec::IntoIter<Vec<T>>,
    back: vec::IntoIter<T>,
    left: usize,
}

impl<T> Model for IntoIter<T> {
    ghost use Rattle.std.specs.Prelude.{◌≡◌, List, ◌++◌, length};
    ghost use Rattle.std.specs.Vec.Iter.{into_iter_items};
    ghost use Rattle.indexset_core.specs.Nodes.{concat};
    ghost use Rattle.indexset_core.specs.Nodes.{vec_items};

    ghost Value = { List T };

    ghost view = { λ a. into_iter_items a.front
        ++ (concat (vec_items (into_iter_items a.middle)) ++ into_iter_items a.back) };

    ghost invariant = { λ a. a.left ≡ length
        (into_iter_items a.front ++ (concat (vec_items (into_iter_items a.middle))
        ++ into_iter_items a.back)) };
}

impl<T> IntoIter<T> {
    /// Creates an iterator over the items of all nodes.
    pub(crate) fn over(nodes: Vec<Vec<T>>, left: usize) -> Self
        requires { left ≡ length (concat (vec_items nodes.items)) }
        ensures { result ≡ concat (vec_items nodes.items) }
    {
        let alloc = *nodes.allocator();
        IntoIter {
            front: Vec::new(alloc).into_iter(),
            middle: nodes.into_iter(),
            back: Vec::new(alloc).into_iter(),
            left,
        }
    }
}

impl<T: Drop> Iterator for IntoIter<T> {
    type Item = T;

    ghost remaining = { λ s. at_most (length s) };

    ghost next_gives = { TakesFirst (λ x. x) };

    fn next(&mut self) -> Option<T> {
        loop {
            if let Some(first) = self.front.next() {
                self.left -= 1;
                return Some(first);
            }
            if let Some(node) = self.middle.next() {
                self.front = node.into_iter();
            } else {
                let first = self.back.next()?;
                self.left -= 1;
                return Some(first);
            }
        }
    }

    fn size_hint(&self) -> (usize, Option<usize>)
        ensures value { result ≡ (length self.now, Some (length self.now)) }
        ensures lower { IsWithinCount result.0 (at_most (length self.now)) }
        ensures upper { IfSome result.1 (UpTo (at_most (length self.now))) }
    {
        (self.left, Some(self.left))
    }
}

impl<T: Drop> DoubleEndedIterator for IntoIter<T> {
    ghost next_back_gives = { TakesLast (λ x. x) };

    fn next_back(&mut self) -> Option<T> {
        loop {
            if let Some(last) = self.back.next_back() {
                self.left -= 1;
                return Some(last);
            }
            if let Some(node) = self.middle.next_back() {
                self.back = node.into_iter();
            } else {
                let last = self.front.next_back()?;
                self.left -= 1;
                return Some(last);
            }
        }
    }
}

impl<T: Drop> ExactSizeIterator for IntoIter<T> {
    fn len(&self) -> usize {
        self.left
    }
}

impl<T: Drop> FusedIterator for IntoIter<T> {}
