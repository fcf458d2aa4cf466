//! A key whose clones have the reverse order.

use std::alloc::AllocError;

/// A number whose clone is nine minus the number, or 0.
#[derive(Debug, PartialEq, Eq, PartialOrd, Ord, Drop)]
pub struct Mirrored {
    pub number: u64,
}

impl Clone for Mirrored {
    ghost use Rattle.std.specs.Prelude.{◌≡◌, ◌-◌};

    ghost is_clone = { λ s copy. copy.number ≡ 9 - s.number };

    fn clone(&self) -> Result<Self, AllocError> {
        Ok(Mirrored {
            number: 9u64.saturating_sub(self.number),
        })
    }
}
