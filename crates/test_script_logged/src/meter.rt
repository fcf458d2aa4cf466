//! Items that count their comparisons, and have a limited number of clones.
ghost use Rattle.std.proofs.Common.{rules};
ghost use Rattle.std.specs.Prelude.{nat_eq};
ghost use Rattle.std.specs.Cmp.{partial_order_from_own_ties};
ghost use Rattle.std.specs.Cmp.Rules.{comparing};
ghost use Rattle.std.specs.Ordering.{nat_cmp, on, as_partial_cmp};

use std::alloc::AllocError;
use std::cell::Cell;
use std::cmp::Ordering;
use std::fmt;
use std::rc::Rc;

/// The state that items share: the number of comparisons, and the number of clones that remain.
#[derive(Drop)]
pub struct Meter {
    pub asked: Cell<u64>,
    pub clones: Cell<u64>,
}

/// A number whose comparisons and clones its meter counts. It cannot be cloned if no clone remains.
#[derive(Drop)]
pub struct Metered {
    key: u64,
    meter: Rc<Meter>,
}

impl Metered {
    /// Returns the number, with this meter.
    pub fn new(key: u64, meter: &Rc<Meter>) -> Result<Metered, AllocError> {
        let meter = Rc::clone(meter)?;
        Ok(Metered { key, meter })
    }
}

impl Clone for Metered {
    ghost use Rattle.std.specs.Prelude.{◌≡◌};

    ghost is_clone = { λ s r. r.key ≡ s.key };

    fn clone(&self) -> Result<Self, AllocError> {
        let left = self.meter.clones.get().checked_sub(1).ok_or(AllocError)?;
        self.meter.clones.set(left);
        Ok(Metered {
            key: self.key,
            meter: Rc::clone(&self.meter)?,
        })
    }
}

impl PartialEq for Metered {
    ghost eq = { on (λ x. x.key) nat_eq };

    ghost laws = { Prim.search (comparing, rules) };

    fn eq(&self, other: &Self) -> bool {
        self.key == other.key
    }
}

impl Eq for Metered {
    ghost laws = { Prim.search (comparing, rules) };
}

impl PartialOrd for Metered {
    ghost partial_cmp = { as_partial_cmp (on (λ x. x.key) nat_cmp) };

    ghost laws = { partial_order_from_own_ties (Prim.search (comparing, rules))
        (Prim.search (comparing, rules)) };

    fn partial_cmp(&self, other: &Self) -> Option<Ordering> {
        Some(self.cmp(other))
    }
}

impl Ord for Metered {
    ghost cmp = { on (λ x. x.key) nat_cmp };

    ghost total = { Prim.search (comparing, rules) };

    ghost matches_partial_cmp = { Prim.search (comparing, rules) };

    ghost matches_eq = { Prim.search (comparing, rules) };

    fn cmp(&self, other: &Self) -> Ordering {
        let asked = self.meter.asked.get();
        self.meter.asked.set(asked.saturating_add(1));
        self.key.cmp(&other.key)
    }
}

impl fmt::Display for Metered {
    fn fmt<W: fmt::Write>(&self, f: &mut fmt::Formatter<W>) -> fmt::Result {
        write!(f, "{}", self.key)
    }
}
