//! Traits of the standard library for maps, which `derive`, `collect` and `extend` use.
ghost use Rattle.std.specs.Prelude.{◌≡◌, map};
ghost use Rattle.indexset_core.specs.declared.constants.TheConstants.{DEFAULT_INNER_SIZE};
ghost use Rattle.indexset_map.specs.Contents.{no_pairs, with_all};
ghost use Rattle.indexset_map.specs.Copy.{IsMapClone};

use super::BTreeMap;
use std::alloc::{AllocError, Global};
use std::default::Emptied;
use std::fmt;

impl<K: Ord + fmt::Debug, V: fmt::Debug> fmt::Debug for BTreeMap<K, V> {
    fn fmt<W: fmt::Write>(&self, f: &mut fmt::Formatter<W>) -> fmt::Result {
        f.debug_map().entries(self.iter()).finish()
    }
}

impl<K: Ord + Clone, V: Clone> Clone for BTreeMap<K, V> {
    ghost is_clone = { λ m copy. IsMapClone K.is_clone V.is_clone K.cmp m copy };

    /// Returns a copy of the map, as the inherent `clone`.
    ///
    /// # Errors
    ///
    /// Fails with `AllocError`.
    fn clone(&self) -> Result<BTreeMap<K, V>, AllocError> {
        match BTreeMap::clone(self) {
            Ok(copy) => Ok(copy),
            Err(_) => Err(AllocError),
        }
    }
}

impl<K: Ord + Drop, V: Drop> Extend<(K, V)> for BTreeMap<K, V> {
    ghost extend_gives = { λ m entries new. new ≡ with_all K.cmp m entries };

    fn extend<I: IntoIterator<Item = (K, V)>>(&mut self, iter: I) -> Result<(), AllocError> {
        for (key, value) in iter {
            self.insert(key, value).map_err(|_| AllocError)?;
        }
        Ok(())
    }
}

impl<'a, K: Ord + Copy + Drop + 'a, V: Copy + Drop + 'a> Extend<(&'a K, &'a V)> for BTreeMap<K, V> {
    ghost extend_gives = { λ m entries new. new
        ≡ with_all K.cmp m (map (λ e. (e.0.now, e.1.now)) entries) };

    fn extend<I: IntoIterator<Item = (&'a K, &'a V)>>(
        &mut self,
        iter: I,
    ) -> Result<(), AllocError> {
        for (key, value) in iter {
            self.insert(*key, *value).map_err(|_| AllocError)?;
        }
        Ok(())
    }
}

/// `mem::try_take` leaves an empty map of the same node size.
impl<K: Ord + Drop, V: Drop> Emptied for BTreeMap<K, V> {
    ghost is_emptied = { λ m. m ≡ no_pairs m.size };

    fn emptied(like: &BTreeMap<K, V>) -> Result<BTreeMap<K, V>, AllocError> {
        let set = Emptied::emptied(&like.set)?;
        Ok(BTreeMap { set })
    }
}

impl<K: Ord + Drop, V: Drop> FromIterator<(K, V)> for BTreeMap<K, V> {
    type Alloc = Global;

    ghost from_iter_gives = { λ entries m. m
        ≡ with_all K.cmp (no_pairs DEFAULT_INNER_SIZE) entries };

    fn from_iter<I: IntoIterator<Item = (K, V)>>(
        alloc: Global,
        iter: I,
    ) -> Result<Self, AllocError> {
        match BTreeMap::from_iter(alloc, iter) {
            Ok(map) => Ok(map),
            Err(_) => Err(AllocError),
        }
    }
}
