//! A key that can be cloned a limited number of times.

use std::alloc::AllocError;
use std::cell::Cell;

/// A key that can be cloned as often as the cell says that the keys share.
#[derive(Drop)]
#[derive_where(PartialEq, Eq, PartialOrd, Ord)]
pub struct Scarce<'a> {
    pub key: u64,
    #[derive_where(skip(EqHashOrd))]
    pub clones: &'a Cell<u64>,
}

impl Clone for Scarce<'_> {
    ghost use Rattle.std.specs.Prelude.{◌≡◌};

    ghost is_clone = { λ s r. r ≡ s };

    fn clone(&self) -> Result<Self, AllocError> {
        let left = self.clones.get().checked_sub(1).ok_or(AllocError)?;
        self.clones.set(left);
        Ok(Scarce {
            key: self.key,
            clones: self.clones,
        })
    }
}
