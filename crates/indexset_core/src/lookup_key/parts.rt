//! Look-up keys of tuples: references to all parts, or, for tuples of two, a `&str` for a part in
//! the order of its bytes.
ghost use Rattle.std.specs.Cmp.{on_total, then_total};
ghost use Rattle.std.specs.Prelude.{refl};
ghost use Rattle.std.specs.Cmp.Lexicographic.{nat_list_cmp_total, slice_cmp};
ghost use Rattle.std.specs.Ordering.{nat_cmp, ordering_then};
ghost use Rattle.indexset_core.specs.ByteOrder.{acts_by_view, both_ordered, one_by_view};
ghost use Rattle.indexset_core.specs.LookupKey.{acts_by, both_total, one_by};
ghost use Rattle.indexset_core.specs.LookupKey.{then_both, then_three, three_total};

use super::{LookupKey, UniqueKey};
use crate::by_bytes::{ByBytes, compare_bytes};
use std::cmp::Ordering;

impl<A: Ord, B: Ord> LookupKey<(A, B)> for (&A, &B) {
    ghost order = { λ x q. ordering_then (A.cmp x.0 q.0.now) (B.cmp x.1 q.1.now) };

    ghost acts_as_key = { acts_by (then_both A.cmp B.cmp) (both_total A.total B.total) (λ x. x)
        (λ q. (q.0.now, q.1.now)) };

    fn cmp_item(&self, item: &(A, B)) -> Ordering {
        item.0.cmp(self.0).then(item.1.cmp(self.1))
    }
}

impl<A: Ord, B: Ord> UniqueKey<(A, B)> for (&A, &B) {
    ghost equals_at_most_one = { one_by (then_both A.cmp B.cmp) (both_total A.total B.total)
        (λ x. x) (λ q. (q.0.now, q.1.now)) };
}

impl<A: Ord, B: Ord, C: Ord> LookupKey<(A, B, C)> for (&A, &B, &C) {
    ghost order = { λ x q.
        ordering_then (ordering_then (A.cmp x.0 q.0.now) (B.cmp x.1 q.1.now)) (C.cmp x.2 q.2.now) };

    ghost acts_as_key = { acts_by (then_three A.cmp B.cmp C.cmp)
        (three_total A.total B.total C.total) (λ x. x) (λ q. (q.0.now, q.1.now, q.2.now)) };

    fn cmp_item(&self, item: &(A, B, C)) -> Ordering {
        item.0
            .cmp(self.0)
            .then(item.1.cmp(self.1))
            .then(item.2.cmp(self.2))
    }
}

impl<A: Ord, B: Ord, C: Ord> UniqueKey<(A, B, C)> for (&A, &B, &C) {
    ghost equals_at_most_one = { one_by (then_three A.cmp B.cmp C.cmp)
        (three_total A.total B.total C.total) (λ x. x) (λ q. (q.0.now, q.1.now, q.2.now)) };
}

impl<A: ByBytes, B: Ord> LookupKey<(A, B)> for (&str, &B) {
    ghost order = { λ x q.
        ordering_then (slice_cmp nat_cmp (A.bytes x.0) q.0.now) (B.cmp x.1 q.1.now) };

    ghost acts_as_key = { acts_by_view (both_total nat_list_cmp_total B.total)
        (λ x. (A.bytes x.0, x.1)) (λ q. (q.0.now, q.1.now))
        (both_ordered (slice_cmp nat_cmp) B.cmp A.bytes (λ y. y) A.ordered_by_bytes
        (λ x y. refl)) };

    fn cmp_item(&self, item: &(A, B)) -> Ordering {
        compare_bytes(item.0.bytes(), self.0.as_bytes()).then(item.1.cmp(self.1))
    }
}

impl<A: ByBytes, B: Ord> UniqueKey<(A, B)> for (&str, &B) {
    ghost equals_at_most_one = { one_by_view (both_total nat_list_cmp_total B.total)
        (λ x. (A.bytes x.0, x.1)) (λ q. (q.0.now, q.1.now))
        (both_ordered (slice_cmp nat_cmp) B.cmp A.bytes (λ y. y) A.ordered_by_bytes
        (λ x y. refl)) };
}

impl<A: Ord, B: ByBytes> LookupKey<(A, B)> for (&A, &str) {
    ghost order = { λ x q.
        ordering_then (A.cmp x.0 q.0.now) (slice_cmp nat_cmp (B.bytes x.1) q.1.now) };

    ghost acts_as_key = { acts_by_view (both_total A.total nat_list_cmp_total)
        (λ x. (x.0, B.bytes x.1)) (λ q. (q.0.now, q.1.now))
        (both_ordered A.cmp (slice_cmp nat_cmp) (λ y. y) B.bytes (λ x y. refl)
        B.ordered_by_bytes) };

    fn cmp_item(&self, item: &(A, B)) -> Ordering {
        item.0
            .cmp(self.0)
            .then(compare_bytes(item.1.bytes(), self.1.as_bytes()))
    }
}

impl<A: Ord, B: ByBytes> UniqueKey<(A, B)> for (&A, &str) {
    ghost equals_at_most_one = { one_by_view (both_total A.total nat_list_cmp_total)
        (λ x. (x.0, B.bytes x.1)) (λ q. (q.0.now, q.1.now))
        (both_ordered A.cmp (slice_cmp nat_cmp) (λ y. y) B.bytes (λ x y. refl)
        B.ordered_by_bytes) };
}

impl<A: ByBytes, B: ByBytes> LookupKey<(A, B)> for (&str, &str) {
    ghost order = { λ x q.
        ordering_then (slice_cmp nat_cmp (A.bytes x.0) q.0.now)
        (slice_cmp nat_cmp (B.bytes x.1) q.1.now) };

    ghost acts_as_key = { acts_by_view (both_total nat_list_cmp_total nat_list_cmp_total)
        (λ x. (A.bytes x.0, B.bytes x.1)) (λ q. (q.0.now, q.1.now))
        (both_ordered (slice_cmp nat_cmp) (slice_cmp nat_cmp) A.bytes B.bytes A.ordered_by_bytes
        B.ordered_by_bytes) };

    fn cmp_item(&self, item: &(A, B)) -> Ordering {
        compare_bytes(item.0.bytes(), self.0.as_bytes()).then(compare_bytes(
            item.1.bytes(),
            self.1.as_bytes(),
        ))
    }
}

impl<A: ByBytes, B: ByBytes> UniqueKey<(A, B)> for (&str, &str) {
    ghost equals_at_most_one = { one_by_view (both_total nat_list_cmp_total nat_list_cmp_total)
        (λ x. (A.bytes x.0, B.bytes x.1)) (λ q. (q.0.now, q.1.now))
        (both_ordered (slice_cmp nat_cmp) (slice_cmp nat_cmp) A.bytes B.bytes A.ordered_by_bytes
        B.ordered_by_bytes) };
}
