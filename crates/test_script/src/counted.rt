//! A key that counts its comparisons.
ghost use Rattle.std.proofs.Common.{rules};
ghost use Rattle.std.specs.Prelude.{nat_eq};
ghost use Rattle.std.specs.Cmp.{partial_order_from_own_ties};
ghost use Rattle.std.specs.Cmp.Rules.{comparing};
ghost use Rattle.std.specs.Ordering.{nat_cmp, on, as_partial_cmp};

use std::cell::Cell;
use std::cmp::Ordering;

/// A key whose order counts comparisons in a cell that the keys share.
#[derive(Clone, Drop)]
pub struct Counted<'a> {
    pub key: u64,
    pub asked: &'a Cell<u64>,
}

impl PartialEq for Counted<'_> {
    ghost eq = { on (λ x. x.key) nat_eq };

    ghost laws = { Prim.search (comparing, rules) };

    fn eq(&self, other: &Self) -> bool {
        self.key == other.key
    }
}

impl Eq for Counted<'_> {
    ghost laws = { Prim.search (comparing, rules) };
}

impl PartialOrd for Counted<'_> {
    ghost partial_cmp = { as_partial_cmp (on (λ x. x.key) nat_cmp) };

    ghost laws = { partial_order_from_own_ties (Prim.search (comparing, rules))
        (Prim.search (comparing, rules)) };

    fn partial_cmp(&self, other: &Self) -> Option<Ordering> {
        Some(self.cmp(other))
    }
}

impl Ord for Counted<'_> {
    ghost cmp = { on (λ x. x.key) nat_cmp };

    ghost total = { Prim.search (comparing, rules) };

    ghost matches_partial_cmp = { Prim.search (comparing, rules) };

    ghost matches_eq = { Prim.search (comparing, rules) };

    fn cmp(&self, other: &Self) -> Ordering {
        self.asked.set(self.asked.get().saturating_add(1));
        self.key.cmp(&other.key)
    }
}
