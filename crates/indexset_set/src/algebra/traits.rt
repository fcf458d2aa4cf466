//! `Clone` and `Debug` of the iterators over two sets.
ghost use Rattle.std.specs.Prelude.{◌≡◌, ⊤};

use super::merge::Merge;
use super::{Difference, Intersection, SymmetricDifference, Union};
use std::alloc::AllocError;
use std::fmt;

impl<'a, T: Ord> Clone for Merge<'a, T> {
    ghost is_clone = { λ merge copy. copy ≡ merge };

    ghost is_infallible = { λ _. ⊤ };

    fn clone(&self) -> Result<Self, AllocError> {
        let left = self.left.clone()?;
        let right = self.right.clone()?;
        Ok(Merge {
            next_left: self.next_left,
            next_right: self.next_right,
            left,
            right,
        })
    }
}

impl<'a, T: Ord> Clone for Union<'a, T> {
    ghost is_clone = { λ walk copy. copy ≡ walk };

    ghost is_infallible = { λ _. ⊤ };

    fn clone(&self) -> Result<Self, AllocError> {
        let merge = self.merge.clone()?;
        Ok(Union { merge })
    }
}

/// Writes the remaining elements.
impl<'a, T: Ord + fmt::Debug> fmt::Debug for Union<'a, T> {
    fn fmt<W: fmt::Write>(&self, f: &mut fmt::Formatter<W>) -> fmt::Result {
        f.debug_list().entries(self.clone().unwrap()).finish()
    }
}

impl<'a, T: Ord> Clone for Intersection<'a, T> {
    ghost is_clone = { λ walk copy. copy ≡ walk };

    ghost is_infallible = { λ _. ⊤ };

    fn clone(&self) -> Result<Self, AllocError> {
        let merge = self.merge.clone()?;
        Ok(Intersection { merge })
    }
}

/// Writes the remaining elements.
impl<'a, T: Ord + fmt::Debug> fmt::Debug for Intersection<'a, T> {
    fn fmt<W: fmt::Write>(&self, f: &mut fmt::Formatter<W>) -> fmt::Result {
        f.debug_list().entries(self.clone().unwrap()).finish()
    }
}

impl<'a, T: Ord> Clone for Difference<'a, T> {
    ghost is_clone = { λ walk copy. copy ≡ walk };

    ghost is_infallible = { λ _. ⊤ };

    fn clone(&self) -> Result<Self, AllocError> {
        let merge = self.merge.clone()?;
        Ok(Difference { merge })
    }
}

/// Writes the remaining elements.
impl<'a, T: Ord + fmt::Debug> fmt::Debug for Difference<'a, T> {
    fn fmt<W: fmt::Write>(&self, f: &mut fmt::Formatter<W>) -> fmt::Result {
        f.debug_list().entries(self.clone().unwrap()).finish()
    }
}

impl<'a, T: Ord> Clone for SymmetricDifference<'a, T> {
    ghost is_clone = { λ walk copy. copy ≡ walk };

    ghost is_infallible = { λ _. ⊤ };

    fn clone(&self) -> Result<Self, AllocError> {
        let merge = self.merge.clone()?;
        Ok(SymmetricDifference { merge })
    }
}

/// Writes the remaining elements.
impl<'a, T: Ord + fmt::Debug> fmt::Debug for SymmetricDifference<'a, T> {
    fn fmt<W: fmt::Write>(&self, f: &mut fmt::Formatter<W>) -> fmt::Result {
        f.debug_list().entries(self.clone().unwrap()).finish()
    }
}
