//! Double-ended iterators over the items of a replica.
ghost use Rattle.std.specs.Prelude.{◌≡◌, ◌≤◌, length, IfSome};
ghost use Rattle.std.specs.Iterator.{UpTo, at_most};
ghost use Rattle.std.specs.Iterator.SizeHint.{IsWithinCount};
ghost use Rattle.std.specs.List.{between};
ghost use Rattle.std.specs.Map.Iter.{TakesFirst, TakesLast, ShowsInOrder, ShowsInReverse, deref};
ghost use Rattle.indexset_core.specs.Nodes.{concat, vec_items};
ghost use Rattle.indexset_core.specs.Places.{IsPlace, items_before};
ghost use Rattle.indexset_replica.specs.Count.{counted, hint_for};

use super::Replica;
use indexset_core::item_iter::{ItemIter, OfVec};
use std::alloc::AllocError;
use std::iter::FusedIterator;
use std::marker::Model;

/// A double-ended iterator over the items of a replica.
#[derive(Drop)]
pub struct Iter<'a, T> {
    rest: ItemIter<'a, T, Vec<T>, OfVec>,
}

impl<'a, T> Model for Iter<'a, T> {
    ghost use Rattle.std.specs.Prelude.{List};

    ghost Value = { List T };

    ghost view = { λ a. a.rest };
}

impl<'a, T> Iter<'a, T> {
    // Returns the iterator over the items of all nodes.
    fn over(nodes: &'a [Vec<T>]) -> Self
        ensures { result ≡ concat (vec_items nodes.now) }
    {
        Iter {
            rest: ItemIter::over(nodes),
        }
    }

    // Returns the iterator over the items from one place to before another.
    pub(super) fn between(nodes: &'a [Vec<T>], from: (usize, usize), to: (usize, usize)) -> Self
        requires from { IsPlace (vec_items nodes.now) from }
        requires to { IsPlace (vec_items nodes.now) to }
        requires order { items_before (vec_items nodes.now) from
            ≤ items_before (vec_items nodes.now) to }
        ensures { result ≡ between (items_before (vec_items nodes.now) from)
            (items_before (vec_items nodes.now) to) (concat (vec_items nodes.now)) }
    {
        Iter {
            rest: ItemIter::between(nodes, from, to),
        }
    }
}

impl<'a, T> Iterator for Iter<'a, T> {
    type Item = &'a T;

    ghost next_gives = { TakesFirst deref };

    ghost remaining = { λ rest. at_most (length rest) };

    fn next(&mut self) -> Option<&'a T> {
        self.rest.next()
    }

    /// Returns the number of remaining items, as the sum of the lengths of the nodes.
    fn size_hint(&self) -> (usize, Option<usize>)
        ensures lower { IsWithinCount result.0 (at_most (length self.now)) }
        ensures upper { IfSome result.1 (UpTo (at_most (length self.now))) }
        ensures exact { result ≡ hint_for (length self.now) }
    {
        match count_left(self.rest.clone().unwrap()) {
            Some(count) => (count, Some(count)),
            None => (usize::MAX, None),
        }
    }
}

// Returns the number of items of an iterator, if it fits a usize.
fn count_left<T>(walk: ItemIter<'_, T, Vec<T>, OfVec>) -> Option<usize>
    ensures { result ≡ counted (length walk.entry) }
{
    let mut rest = walk;
    let mut count: usize = 0;
    loop {
        let run = rest.next_chunk();
        if run.is_empty() {
            return Some(count);
        }
        count = count.checked_add(run.len())?;
    }
}

impl<'a, T> DoubleEndedIterator for Iter<'a, T> {
    ghost next_back_gives = { TakesLast deref };

    fn next_back(&mut self) -> Option<&'a T> {
        self.rest.next_back()
    }
}

impl<'a, T> FusedIterator for Iter<'a, T> {}

impl<'a, T> Clone for Iter<'a, T> {
    ghost use Rattle.std.specs.Prelude.{◌≡◌, ⊤};

    ghost is_clone = { λ walk copy. copy ≡ walk };

    ghost is_infallible = { λ _. ⊤ };

    fn clone(&self) -> Result<Self, AllocError> {
        let rest = self.rest.clone()?;
        Ok(Iter { rest })
    }
}

impl<T: Ord + Clone + Drop> Replica<T> {
    /// Returns a double-ended iterator over the items, in order.
    ///
    /// It allocates nothing.
    ///
    /// # Examples
    ///
    /// ```
    /// let nodes = vec![in alloc; vec![in alloc; 10, 20]?, vec![in alloc; 30]?]?;
    /// let replica = Replica::from_nodes(nodes, 3)?;
    /// assert!(rt; replica.iter().rev().copied().eq([30, 20, 10]));
    /// ```
    ///
    /// # Complexity
    ///
    /// Takes constant time.
    pub fn iter(&self) -> Iter<'_, T>
        ensures rest { result ≡ concat self.now.nodes }
        ensures runs { ShowsInOrder (deref {X = T}) }
        ensures runs_back { ShowsInReverse (deref {X = T}) }
    {
        Iter::over(self.nodes.as_slice())
    }
}

impl<'a, T: Ord + Clone + Drop> IntoIterator for &'a Replica<T> {
    type Item = &'a T;

    type IntoIter = Iter<'a, T>;

    ghost into_iter_gives = { λ r i. (i ≡ concat r.now.nodes) × ShowsInOrder (deref {X = T})
        × ShowsInReverse (deref {X = T}) };

    fn into_iter(self) -> Iter<'a, T> {
        self.iter()
    }
}
