//! `Clone` and `Debug` of the iterators over a map.
ghost use Rattle.std.specs.Prelude.{◌≡◌, ⊤};

use super::{IterMap, Keys, Values};
use std::alloc::AllocError;
use std::fmt;

impl<'a, K, V> Clone for IterMap<'a, K, V> {
    ghost is_clone = { λ walk copy. copy ≡ walk };

    ghost is_infallible = { λ _. ⊤ };

    fn clone(&self) -> Result<Self, AllocError> {
        let rest = self.rest.clone()?;
        Ok(IterMap { rest })
    }
}

impl<'a, K, V> Clone for Keys<'a, K, V> {
    ghost is_clone = { λ walk copy. copy ≡ walk };

    ghost is_infallible = { λ _. ⊤ };

    fn clone(&self) -> Result<Self, AllocError> {
        let pairs = self.pairs.clone()?;
        Ok(Keys { pairs })
    }
}

impl<'a, K, V> Clone for Values<'a, K, V> {
    ghost is_clone = { λ walk copy. copy ≡ walk };

    ghost is_infallible = { λ _. ⊤ };

    fn clone(&self) -> Result<Self, AllocError> {
        let pairs = self.pairs.clone()?;
        Ok(Values { pairs })
    }
}

/// Formats the remaining pairs.
impl<'a, K: fmt::Debug, V: fmt::Debug> fmt::Debug for IterMap<'a, K, V> {
    fn fmt<W: fmt::Write>(&self, f: &mut fmt::Formatter<W>) -> fmt::Result {
        f.debug_list().entries(self.clone().unwrap()).finish()
    }
}

/// Formats the remaining keys.
impl<'a, K: fmt::Debug, V> fmt::Debug for Keys<'a, K, V> {
    fn fmt<W: fmt::Write>(&self, f: &mut fmt::Formatter<W>) -> fmt::Result {
        f.debug_list().entries(self.clone().unwrap()).finish()
    }
}

/// Formats the remaining values.
impl<'a, K, V: fmt::Debug> fmt::Debug for Values<'a, K, V> {
    fn fmt<W: fmt::Write>(&self, f: &mut fmt::Formatter<W>) -> fmt::Result {
        f.debug_list().entries(self.clone().unwrap()).finish()
    }
}
