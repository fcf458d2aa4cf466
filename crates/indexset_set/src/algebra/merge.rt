//! The merge of two iterators, whose items name the lists that they come from.
ghost use Rattle.std.specs.Prelude.{◌≡◌, ◌<◌, ◌↔◌, IsTrue, length};
ghost use Rattle.std.specs.Iterator.{at_most};
ghost use Rattle.std.specs.Map.Iter.{TakesFirst, deref};
ghost use Rattle.indexset_set.specs.Merge.{map_merge_item, merged, of_left, of_right, read};

use indexset_spine::iter::Iter;
use std::cmp::Ordering;
use std::marker::Model;

/// An item of two merged lists: of one list, or of both, from each its own.
#[derive(Clone, Copy)]
pub(crate) enum MergeItem<X> {
    Left(X),
    Right(X),
    Both(X, X),
}

/// An iterator over the merged items of two lists.
#[derive(Drop)]
pub(crate) struct Merge<'a, T: Ord> {
    // The next item of each list, and what follows it there.
    pub(super) next_left: Option<&'a T>,
    pub(super) next_right: Option<&'a T>,
    pub(super) left: Iter<'a, T>,
    pub(super) right: Iter<'a, T>,
}

impl<'a, T: Ord> Model for Merge<'a, T> {
    ghost use Rattle.std.specs.Prelude.{◌≡◌, List, [], IfNone};
    ghost use Rattle.std.specs.Option.{option_copied};
    ghost use Rattle.std.specs.List.{cons_option};
    ghost use Rattle.indexset_set.specs.declared.algebra.merge.MergeItem.{MergeItem};

    ghost Value = { List (MergeItem T) };

    ghost use Rattle.indexset_set.specs.Merge.{merged};

    ghost view = { λ m. merged T.cmp (cons_option (option_copied m.next_left) m.left)
        (cons_option (option_copied m.next_right) m.right) };

    ghost invariant = { λ m. IfNone m.next_left (m.left ≡ [])
        × IfNone m.next_right (m.right ≡ []) };
}

impl<'a, T: Ord> Merge<'a, T> {
    /// Creates an iterator over the items of both lists.
    pub(crate) fn new(mut left: Iter<'a, T>, mut right: Iter<'a, T>) -> Self
        ensures { result ≡ merged T.cmp left.entry right.entry }
    {
        Merge {
            next_left: left.next(),
            next_right: right.next(),
            left,
            right,
        }
    }

    /// Returns whether an item of the left list remains.
    pub(crate) fn has_left(&self) -> bool
        ensures { IsTrue result ↔ (0 < length (read of_left self.now)) }
    {
        self.next_left.is_some()
    }

    /// Returns whether an item of the right list remains.
    pub(crate) fn has_right(&self) -> bool
        ensures { IsTrue result ↔ (0 < length (read of_right self.now)) }
    {
        self.next_right.is_some()
    }
}

impl<'a, T: Ord> Iterator for Merge<'a, T> {
    type Item = MergeItem<&'a T>;

    ghost next_gives = { TakesFirst (map_merge_item deref) };

    ghost remaining = { λ m. at_most (length m) };

    fn next(&mut self) -> Option<MergeItem<&'a T>> {
        let next = match (self.next_left, self.next_right) {
            (None, None) => return None,
            (Some(x), None) => MergeItem::Left(x),
            (None, Some(y)) => MergeItem::Right(y),
            (Some(x), Some(y)) => match x.cmp(y) {
                Ordering::Less => MergeItem::Left(x),
                Ordering::Equal => MergeItem::Both(x, y),
                Ordering::Greater => MergeItem::Right(y),
            },
        };
        if !matches!(next, MergeItem::Right(_)) {
            self.next_left = self.left.next();
        }
        if !matches!(next, MergeItem::Left(_)) {
            self.next_right = self.right.next();
        }
        Some(next)
    }
}
