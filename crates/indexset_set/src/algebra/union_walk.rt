//! The iterator over the union of two sets.
ghost use Rattle.std.specs.Prelude.{◌≡◌, length};
ghost use Rattle.std.specs.Iterator.{at_most};
ghost use Rattle.std.specs.Map.Iter.{TakesFirst, deref};
ghost use Rattle.indexset_set.specs.Merge.{of_either, read};

use super::merge::{Merge, MergeItem};
use std::iter::FusedIterator;
use std::marker::Model;

/// An iterator over the union of two sets, in ascending order.
#[derive(Drop)]
pub struct Union<'a, T: Ord> {
    pub(super) merge: Merge<'a, T>,
}

impl<'a, T: Ord> Model for Union<'a, T> {
    ghost use Rattle.std.specs.Prelude.{List};
    ghost use Rattle.indexset_set.specs.Merge.{of_either, read};

    ghost Value = { List T };

    ghost view = { λ walk. read of_either walk.merge };
}

impl<'a, T: Ord> Iterator for Union<'a, T> {
    type Item = &'a T;

    ghost next_gives = { TakesFirst deref };

    ghost remaining = { λ rest. at_most (length rest) };

    fn next(&mut self) -> Option<&'a T> {
        match self.merge.next()? {
            MergeItem::Left(x) | MergeItem::Both(x, _) => Some(x),
            MergeItem::Right(y) => Some(y),
        }
    }
}

impl<'a, T: Ord> FusedIterator for Union<'a, T> {}
