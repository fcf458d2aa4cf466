//! Keys that own an allocation.
ghost use Rattle.std.proofs.Common.{rules};
ghost use Rattle.std.specs.Hash as fed;
ghost use Rattle.std.specs.Prelude.{IfOk, ◌≡◌, nat_eq};
ghost use Rattle.std.specs.Cmp.{partial_order_from_own_ties};
ghost use Rattle.std.specs.Cmp.Rules.{comparing};
ghost use Rattle.std.specs.Ordering.{nat_cmp, as_partial_cmp};

use std::alloc::{AllocError, Global};
use std::cmp::Ordering;
use std::fmt;
use std::hash::{Hash, Hasher};
use std::marker::Model;

/// A number in an allocation of its own, so that a clone allocates.
#[derive(Debug, Drop)]
pub struct Owned {
    block: Box<u64>,
}

impl Model for Owned {
    ghost use Rattle.std.specs.Prelude.{ℕ};

    ghost Value = { ℕ };

    ghost view = { λ s. s.block.value };
}

impl Owned {
    /// Returns the number in a new allocation.
    pub fn new(alloc: Global, number: u64) -> Result<Self, AllocError>
        ensures { IfOk result (λ s. s ≡ number) }
    {
        let block = Box::new(alloc, number)?;
        Ok(Owned { block })
    }

    /// Returns the number.
    pub fn number(&self) -> u64
        ensures { result ≡ self.now }
    {
        *self.block
    }
}

impl fmt::Display for Owned {
    fn fmt<W: fmt::Write>(&self, f: &mut fmt::Formatter<W>) -> fmt::Result {
        write!(f, "{}", self.number())
    }
}

impl Clone for Owned {
    ghost use Rattle.std.specs.Prelude.{◌≡◌};

    ghost is_clone = { λ s r. r ≡ s };

    fn clone(&self) -> Result<Self, AllocError> {
        Owned::new(*Box::allocator(&self.block), self.number())
    }
}

impl PartialEq for Owned {
    ghost eq = { nat_eq };

    ghost laws = { Prim.search (comparing, rules) };

    fn eq(&self, other: &Self) -> bool {
        self.number() == other.number()
    }
}

impl Eq for Owned {
    ghost laws = { Prim.search (comparing, rules) };
}

impl PartialOrd for Owned {
    ghost partial_cmp = { as_partial_cmp nat_cmp };

    ghost laws = { partial_order_from_own_ties (Prim.search (comparing, rules))
        (Prim.search (comparing, rules)) };

    fn partial_cmp(&self, other: &Self) -> Option<Ordering> {
        Some(self.cmp(other))
    }
}

impl Ord for Owned {
    ghost cmp = { nat_cmp };

    ghost total = { Prim.search (comparing, rules) };

    ghost matches_partial_cmp = { Prim.search (comparing, rules) };

    ghost matches_eq = { Prim.search (comparing, rules) };

    fn cmp(&self, other: &Self) -> Ordering {
        self.number().cmp(&other.number())
    }
}

impl Hash for Owned {
    ghost hash_input = { fed.u64 };

    ghost respects_eq = { Prim.search rules };

    fn hash<H: Hasher>(&self, state: &mut H) {
        self.number().hash(state);
    }
}
