//! The traits of the standard library that `derive`, `collect` and `extend` need.
ghost use Rattle.std.specs.Prelude.{◌≡◌, List, [], ◌∷◌, fold, map};
ghost use Rattle.indexset_core.specs.Order.{keep};
ghost use Rattle.indexset_core.specs.declared.constants.TheConstants.{DEFAULT_INNER_SIZE};
ghost use Rattle.indexset_set.specs.SetCopy.{IsSetClone};
ghost use Rattle.indexset_spine.specs.NodeList.{items};

use super::BTreeSet;
use std::alloc::{AllocError, Global};
use std::default::Emptied;
use std::fmt;

impl<T: Ord + fmt::Debug> fmt::Debug for BTreeSet<T> {
    fn fmt<W: fmt::Write>(&self, f: &mut fmt::Formatter<W>) -> fmt::Result {
        f.debug_set().entries(self.iter()).finish()
    }
}

impl<T: Ord + Clone> Clone for BTreeSet<T> {
    ghost is_clone = { λ s copy. IsSetClone T.cmp T.is_clone s copy };

    /// Returns the same as the inherent `clone`.
    ///
    /// # Errors
    ///
    /// Fails with `AllocError` if that one fails.
    fn clone(&self) -> Result<BTreeSet<T>, AllocError> {
        match BTreeSet::clone(self) {
            Ok(copy) => Ok(copy),
            Err(_) => Err(AllocError),
        }
    }
}

impl<T: Ord + Drop> Extend<T> for BTreeSet<T> {
    ghost extend_gives = { λ s xs new. (items new ≡ fold (keep T.cmp) (items s) xs)
        × (new.size ≡ s.size) };

    fn extend<I: IntoIterator<Item = T>>(&mut self, iter: I) -> Result<(), AllocError> {
        for value in iter {
            self.insert(value).map_err(|_| AllocError)?;
        }
        Ok(())
    }
}

impl<'a, T: Ord + Copy + Drop + 'a> Extend<&'a T> for BTreeSet<T> {
    ghost extend_gives = { λ s xs new.
        (items new ≡ fold (keep T.cmp) (items s) (map (λ x. x.now) xs))
        × (new.size ≡ s.size) };

    fn extend<I: IntoIterator<Item = &'a T>>(&mut self, iter: I) -> Result<(), AllocError> {
        for value in iter {
            self.insert(*value).map_err(|_| AllocError)?;
        }
        Ok(())
    }
}

/// `mem::try_take` leaves an empty set of the same node size.
impl<T: Ord + Drop> Emptied for BTreeSet<T> {
    ghost is_emptied = { λ s. s.nodes ≡ [] ∷ [] };

    fn emptied(like: &BTreeSet<T>) -> Result<BTreeSet<T>, AllocError> {
        let alloc = *like.spine.allocator();
        let size = like.maximum_node_size();
        BTreeSet::with_maximum_node_size(alloc, size).map_err(|_| AllocError)
    }
}

impl<T: Ord + Drop> FromIterator<T> for BTreeSet<T> {
    type Alloc = Global;

    ghost from_iter_gives = { λ xs s. (items s ≡ fold (keep T.cmp) [] xs)
        × (s.size ≡ DEFAULT_INNER_SIZE) };

    fn from_iter<I: IntoIterator<Item = T>>(alloc: Global, iter: I) -> Result<Self, AllocError> {
        match BTreeSet::from_iter(alloc, iter) {
            Ok(set) => Ok(set),
            Err(_) => Err(AllocError),
        }
    }
}
