//! The iterator over the symmetric difference of two sets.
ghost use Rattle.std.specs.Prelude.{◌≡◌, length};
ghost use Rattle.std.specs.Iterator.{at_most};
ghost use Rattle.std.specs.Map.Iter.{TakesFirst, deref};
ghost use Rattle.indexset_set.specs.Merge.{of_one_alone, read};

use super::merge::{Merge, MergeItem};
use std::iter::FusedIterator;
use std::marker::Model;

/// An iterator over the symmetric difference of two sets, in ascending order.
#[derive(Drop)]
pub struct SymmetricDifference<'a, T: Ord> {
    pub(super) merge: Merge<'a, T>,
}

impl<'a, T: Ord> Model for SymmetricDifference<'a, T> {
    ghost use Rattle.std.specs.Prelude.{List};
    ghost use Rattle.indexset_set.specs.Merge.{of_one_alone, read};

    ghost Value = { List T };

    ghost view = { λ walk. read of_one_alone walk.merge };
}

impl<'a, T: Ord> Iterator for SymmetricDifference<'a, T> {
    type Item = &'a T;

    ghost next_gives = { TakesFirst deref };

    ghost remaining = { λ rest. at_most (length rest) };

    fn next(&mut self) -> Option<&'a T> {
        loop {
            if let MergeItem::Left(x) | MergeItem::Right(x) = self.merge.next()? {
                return Some(x);
            }
        }
    }
}

impl<'a, T: Ord> FusedIterator for SymmetricDifference<'a, T> {}
