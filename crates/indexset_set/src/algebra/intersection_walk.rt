//! The iterator over the intersection of two sets.
ghost use Rattle.std.specs.Prelude.{◌≡◌, length};
ghost use Rattle.std.specs.Iterator.{at_most};
ghost use Rattle.std.specs.Map.Iter.{TakesFirst, deref};
ghost use Rattle.indexset_set.specs.Merge.{of_both, read};

use super::merge::{Merge, MergeItem};
use std::iter::FusedIterator;
use std::marker::Model;

/// An iterator over the intersection of two sets, in ascending order.
#[derive(Drop)]
pub struct Intersection<'a, T: Ord> {
    pub(super) merge: Merge<'a, T>,
}

impl<'a, T: Ord> Model for Intersection<'a, T> {
    ghost use Rattle.std.specs.Prelude.{List};
    ghost use Rattle.indexset_set.specs.Merge.{of_both, read};

    ghost Value = { List T };

    ghost view = { λ walk. read of_both walk.merge };
}

impl<'a, T: Ord> Iterator for Intersection<'a, T> {
    type Item = &'a T;

    ghost next_gives = { TakesFirst deref };

    ghost remaining = { λ rest. at_most (length rest) };

    fn next(&mut self) -> Option<&'a T> {
        while self.merge.has_left() && self.merge.has_right() {
            if let MergeItem::Both(x, _) = self.merge.next()? {
                return Some(x);
            }
        }
        None
    }
}

impl<'a, T: Ord> FusedIterator for Intersection<'a, T> {}
