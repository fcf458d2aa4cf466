//! Look-up keys of pairs: their keys, or look-up keys of these.
ghost use Rattle.std.specs.Cmp.Lexicographic.{nat_list_cmp_total, slice_cmp};
ghost use Rattle.std.specs.Ordering.{nat_cmp};
ghost use Rattle.indexset_core.specs.ByteOrder.{acts_by_view, one_by_view};
ghost use Rattle.indexset_core.specs.LookupKey.{acts_as_itself, acts_by, acts_on};
ghost use Rattle.indexset_core.specs.LookupKey.{acts_on_numbered, one_as_itself, one_by, one_on};

use super::{LookupKey, UniqueKey};
use crate::by_bytes::{ByBytes, compare_bytes};
use crate::multipair::MultiPair;
use crate::pair::Pair;
use std::cmp::Ordering;

impl<K: Ord, V> LookupKey<Pair<K, V>> for K {
    ghost order = { λ p q. K.cmp p.key q };

    ghost acts_as_key = { acts_on (λ p. p.key) (acts_as_itself K.total) };

    #[inline(always)]
    fn cmp_item(&self, item: &Pair<K, V>) -> Ordering {
        item.key.cmp(self)
    }
}

impl<K: Ord, V> UniqueKey<Pair<K, V>> for K {
    ghost equals_at_most_one = { one_on (λ p. p.key) (one_as_itself K.total) };
}

impl<K: Ord, V> LookupKey<MultiPair<K, V>> for K {
    ghost order = { λ p q. K.cmp p.key q };

    ghost acts_as_key = { acts_on_numbered (acts_as_itself K.total) };

    #[inline(always)]
    fn cmp_item(&self, item: &MultiPair<K, V>) -> Ordering {
        item.key.cmp(self)
    }
}

impl<K: Ord, V> LookupKey<Pair<K, V>> for &K {
    ghost order = { λ p q. K.cmp p.key q.now };

    ghost acts_as_key = { acts_on (λ p. p.key) (acts_by K.cmp K.total (λ x. x) (λ q. q.now)) };

    #[inline(always)]
    fn cmp_item(&self, item: &Pair<K, V>) -> Ordering {
        item.key.cmp(*self)
    }
}

impl<K: Ord, V> UniqueKey<Pair<K, V>> for &K {
    ghost equals_at_most_one = { one_on (λ p. p.key) (one_by K.cmp K.total (λ x. x) (λ q. q.now)) };
}

impl<K: Ord, V> LookupKey<MultiPair<K, V>> for &K {
    ghost order = { λ p q. K.cmp p.key q.now };

    ghost acts_as_key = { acts_on_numbered (acts_by K.cmp K.total (λ x. x) (λ q. q.now)) };

    #[inline(always)]
    fn cmp_item(&self, item: &MultiPair<K, V>) -> Ordering {
        item.key.cmp(*self)
    }
}

impl<K: ByBytes, V> LookupKey<Pair<K, V>> for &str {
    ghost order = { λ p q. slice_cmp nat_cmp (K.bytes p.key) q.now };

    ghost acts_as_key = { acts_on (λ p. p.key)
        (acts_by_view nat_list_cmp_total K.bytes (λ q. q.now) K.ordered_by_bytes) };

    fn cmp_item(&self, item: &Pair<K, V>) -> Ordering {
        compare_bytes(item.key.bytes(), (*self).as_bytes())
    }
}

impl<K: ByBytes, V> UniqueKey<Pair<K, V>> for &str {
    ghost equals_at_most_one = { one_on (λ p. p.key)
        (one_by_view nat_list_cmp_total K.bytes (λ q. q.now) K.ordered_by_bytes) };
}

impl<K: ByBytes, V> LookupKey<MultiPair<K, V>> for &str {
    ghost order = { λ p q. slice_cmp nat_cmp (K.bytes p.key) q.now };

    ghost acts_as_key = { acts_on_numbered
        (acts_by_view nat_list_cmp_total K.bytes (λ q. q.now) K.ordered_by_bytes) };

    fn cmp_item(&self, item: &MultiPair<K, V>) -> Ordering {
        compare_bytes(item.key.bytes(), (*self).as_bytes())
    }
}

impl<K: ByBytes, V> LookupKey<Pair<K, V>> for &[u8] {
    ghost order = { λ p q. slice_cmp nat_cmp (K.bytes p.key) q.now };

    ghost acts_as_key = { acts_on (λ p. p.key)
        (acts_by_view nat_list_cmp_total K.bytes (λ q. q.now) K.ordered_by_bytes) };

    fn cmp_item(&self, item: &Pair<K, V>) -> Ordering {
        compare_bytes(item.key.bytes(), *self)
    }
}

impl<K: ByBytes, V> UniqueKey<Pair<K, V>> for &[u8] {
    ghost equals_at_most_one = { one_on (λ p. p.key)
        (one_by_view nat_list_cmp_total K.bytes (λ q. q.now) K.ordered_by_bytes) };
}

impl<K: ByBytes, V> LookupKey<MultiPair<K, V>> for &[u8] {
    ghost order = { λ p q. slice_cmp nat_cmp (K.bytes p.key) q.now };

    ghost acts_as_key = { acts_on_numbered
        (acts_by_view nat_list_cmp_total K.bytes (λ q. q.now) K.ordered_by_bytes) };

    fn cmp_item(&self, item: &MultiPair<K, V>) -> Ordering {
        compare_bytes(item.key.bytes(), *self)
    }
}
