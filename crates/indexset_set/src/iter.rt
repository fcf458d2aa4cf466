//! Iterators over a set, from both ends.
ghost use Rattle.std.specs.Prelude.{◌≡◌, length, List, IfSome, Some};
ghost use Rattle.std.specs.Iterator.{UpTo, at_most};
ghost use Rattle.std.specs.Iterator.SizeHint.{IsWithinCount};
ghost use Rattle.std.specs.Map.Iter.{TakesFirst, TakesLast, ShowsInOrder, ShowsInReverse};
ghost use Rattle.std.specs.Map.Iter.{GivesInOrder, GivesInReverse, deref};
ghost use Rattle.indexset_core.specs.Order.{IsAscending};
ghost use Rattle.indexset_spine.specs.NodeList.{items};

mod traits;

use super::BTreeSet;
pub use indexset_spine::into_iter::IntoIter;
use indexset_spine::iter;
use std::iter::FusedIterator;
use std::marker::Model;

/// A double-ended iterator over the elements of a set, in ascending order.
#[derive(Drop)]
pub struct Iter<'a, T> {
    rest: iter::Iter<'a, T>,
}

impl<'a, T> Model for Iter<'a, T> {
    ghost use Rattle.std.specs.Prelude.{List};

    ghost Value = { List T };

    ghost view = { λ a. a.rest };
}

impl<'a, T> Iter<'a, T> {
    // Wraps an iterator over a spine.
    pub(super) fn of(rest: iter::Iter<'a, T>) -> Self
        ensures { result ≡ rest.entry }
    {
        Iter { rest }
    }
}

impl<'a, T: Ord> Iter<'a, T> {
    /// Returns a double-ended iterator over the elements of a set, in ascending order.
    ///
    /// ```
    /// # use indexset::Iter;
    /// let set = BTreeSet::from_iter(alloc, [30, 10, 20])?;
    /// assert!(rt; Iter::new(&set).copied().eq([10, 20, 30]));
    /// ```
    pub fn new(set: &'a BTreeSet<T>) -> Self
        ensures rest { result ≡ items set.now }
        ensures ascending { IsAscending T.cmp result }
        ensures runs { ShowsInOrder (deref {X = T}) }
        ensures runs_back { ShowsInReverse (deref {X = T}) }
    {
        Iter::of(set.spine.iter())
    }
}

impl<'a, T> Iterator for Iter<'a, T> {
    type Item = &'a T;

    ghost next_gives = { TakesFirst deref };

    ghost remaining = { λ rest. at_most (length rest) };

    fn next(&mut self) -> Option<&'a T> {
        self.rest.next()
    }

    fn size_hint(&self) -> (usize, Option<usize>)
        ensures lower { IsWithinCount result.0 (at_most (length self.now)) }
        ensures upper { IfSome result.1 (UpTo (at_most (length self.now))) }
        ensures exact { result ≡ (length self.now, Some (length self.now)) }
    {
        self.rest.size_hint()
    }
}

impl<'a, T> DoubleEndedIterator for Iter<'a, T> {
    ghost next_back_gives = { TakesLast deref };

    fn next_back(&mut self) -> Option<&'a T> {
        self.rest.next_back()
    }
}

impl<'a, T> ExactSizeIterator for Iter<'a, T> {
    fn len(&self) -> usize {
        self.rest.len()
    }
}

impl<'a, T> FusedIterator for Iter<'a, T> {}

impl<T: Ord> BTreeSet<T> {
    /// Returns a double-ended iterator over the elements, in ascending order.
    ///
    /// ```
    /// let set = BTreeSet::from_iter(alloc, [30, 10, 20])?;
    /// assert!(rt; set.iter().rev().copied().eq([30, 20, 10]));
    /// ```
    pub fn iter(&self) -> Iter<'_, T>
        ensures rest { result ≡ items self.now }
        ensures ascending { IsAscending T.cmp result }
        ensures runs { ShowsInOrder (deref {X = T}) }
        ensures runs_back { ShowsInReverse (deref {X = T}) }
    {
        Iter::new(self)
    }
}

impl<'a, T: Ord> IntoIterator for &'a BTreeSet<T> {
    type Item = &'a T;

    type IntoIter = Iter<'a, T>;

    ghost into_iter_gives = { λ b r. (r ≡ items b.now) × ShowsInOrder (deref {X = T})
        × ShowsInReverse (deref {X = T}) };

    fn into_iter(self) -> Iter<'a, T> {
        self.iter()
    }
}

impl<T: Ord + Drop> IntoIterator for BTreeSet<T> {
    type Item = T;

    type IntoIter = IntoIter<T>;

    ghost into_iter_gives = { λ s r. (r ≡ items s) × GivesInOrder T × GivesInReverse T };

    fn into_iter(self) -> IntoIter<T> {
        let BTreeSet { spine } = self;
        spine.into_iter()
    }
}
