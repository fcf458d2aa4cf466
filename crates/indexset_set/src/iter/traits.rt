//! `Clone` and `Debug` of an iterator.

use super::Iter;
use std::alloc::AllocError;
use std::fmt;

impl<'a, T> Clone for Iter<'a, T> {
    ghost use Rattle.std.specs.Prelude.{◌≡◌, ⊤};

    ghost is_clone = { λ walk copy. copy ≡ walk };

    ghost is_infallible = { λ _. ⊤ };

    fn clone(&self) -> Result<Self, AllocError> {
        let rest = self.rest.clone()?;
        Ok(Iter { rest })
    }
}

/// Writes the remaining elements.
impl<'a, T: fmt::Debug> fmt::Debug for Iter<'a, T> {
    fn fmt<W: fmt::Write>(&self, f: &mut fmt::Formatter<W>) -> fmt::Result {
        self.rest.fmt(f)
    }
}
