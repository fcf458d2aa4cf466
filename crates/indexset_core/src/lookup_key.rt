//! Look-up keys: what a look-up takes in the place of an item or a key.
//!
//! [`LookupKey`] is compared with items; a key that is [`UniqueKey`] equals at most one of them.
ghost use Rattle.std.specs.Prelude.{◌≡◌};
ghost use Rattle.std.specs.Cmp.Lexicographic.{lists_total, nat_list_cmp_total, slice_cmp};
ghost use Rattle.std.specs.Ordering.{nat_cmp};
ghost use Rattle.std.specs.declared.cmp.Ordering.{Ordering};
ghost use Rattle.indexset_core.specs.ByteOrder.{acts_by_view, one_by_view};
ghost use Rattle.indexset_core.specs.LookupKey.{OrdersAsItem, EqualsAtMostOne, acts_as_itself};
ghost use Rattle.indexset_core.specs.LookupKey.{acts_by, one_as_itself, one_by};

mod pairs;
mod parts;

use crate::by_bytes::{ByBytes, compare_bytes};
use std::alloc::Allocator;
use std::cmp::Ordering;

/// A look-up key, which a look-up compares with items.
///
/// A look-up key is one of these:
///
/// - an item, or a reference to one
/// - a `&str` or a `&[u8]`, for items in the order of their bytes ([`ByBytes`]), such as `String`
///   and `Text`
/// - a `&[U]`, for items `Vec<U>`
/// - a key, a reference to one, or a `&str` or a `&[u8]` for keys in the order of their bytes, for
///   items `Pair` and `MultiPair`
/// - references to all parts, for tuples of two and three; for tuples of two also a `&str` for a
///   part in the order of its bytes
///
/// The trait takes the place of `Borrow`. No look-up allocates. Items in ascending order must
/// compare first Less, then Equal, then Greater, and equal items alike; a type of your own proves
/// that by `acts_as_key`.
///
/// ```
/// let mut names = BTreeSet::new(alloc)?;
/// names.insert(String::from_str(alloc, "pear")?)?;
/// assert!(rt; names.contains("pear") && !names.contains("plum"));
/// ```
pub trait LookupKey<T: Ord>: Ord {
    /// How an item compares with the key.
    ghost order: { T → Self → Ordering };

    /// Compares an item with the key.
    ///
    /// ```
    /// # use indexset::base::lookup_key::LookupKey;
    /// assert!(rt; 5.cmp_item(&3).is_lt() && (&5).cmp_item(&5).is_eq());
    /// ```
    fn cmp_item(&self, item: &T) -> Ordering
        ensures { result ≡ order item.now self.now };

    ghost acts_as_key: { OrdersAsItem T.cmp order Self.cmp };
}

/// A look-up key that equals at most one item, as a removal takes it.
///
/// Of the look-up keys, only those of `MultiPair` are not such keys.
pub trait UniqueKey<T: Ord>: LookupKey<T> {
    ghost equals_at_most_one: { EqualsAtMostOne T.cmp Self.order };
}

impl<T: Ord> LookupKey<T> for T {
    ghost order = { T.cmp };

    ghost acts_as_key = { acts_as_itself T.total };

    #[inline(always)]
    fn cmp_item(&self, item: &T) -> Ordering {
        item.cmp(self)
    }
}

impl<T: Ord> UniqueKey<T> for T {
    ghost equals_at_most_one = { one_as_itself T.total };
}

impl<T: Ord> LookupKey<T> for &T {
    ghost order = { λ x q. T.cmp x q.now };

    ghost acts_as_key = { acts_by T.cmp T.total (λ x. x) (λ q. q.now) };

    #[inline(always)]
    fn cmp_item(&self, item: &T) -> Ordering {
        item.cmp(*self)
    }
}

impl<T: Ord> UniqueKey<T> for &T {
    ghost equals_at_most_one = { one_by T.cmp T.total (λ x. x) (λ q. q.now) };
}

impl<T: ByBytes> LookupKey<T> for &str {
    ghost order = { λ x q. slice_cmp nat_cmp (T.bytes x) q.now };

    ghost acts_as_key = { acts_by_view nat_list_cmp_total T.bytes (λ q. q.now) T.ordered_by_bytes };

    fn cmp_item(&self, item: &T) -> Ordering {
        compare_bytes(item.bytes(), (*self).as_bytes())
    }
}

impl<T: ByBytes> UniqueKey<T> for &str {
    ghost equals_at_most_one = { one_by_view nat_list_cmp_total T.bytes (λ q. q.now)
        T.ordered_by_bytes };
}

impl<T: ByBytes> LookupKey<T> for &[u8] {
    ghost order = { λ x q. slice_cmp nat_cmp (T.bytes x) q.now };

    ghost acts_as_key = { acts_by_view nat_list_cmp_total T.bytes (λ q. q.now) T.ordered_by_bytes };

    fn cmp_item(&self, item: &T) -> Ordering {
        compare_bytes(item.bytes(), *self)
    }
}

impl<T: ByBytes> UniqueKey<T> for &[u8] {
    ghost equals_at_most_one = { one_by_view nat_list_cmp_total T.bytes (λ q. q.now)
        T.ordered_by_bytes };
}

impl<U: Ord, A: Allocator> LookupKey<Vec<U, A>> for &[U] {
    ghost order = { λ x q. slice_cmp U.cmp x.items q.now };

    ghost acts_as_key = { acts_by (slice_cmp U.cmp) (lists_total U.total) (λ x. x.items)
        (λ q. q.now) };

    fn cmp_item(&self, item: &Vec<U, A>) -> Ordering {
        compare_slices(item.as_slice(), *self)
    }
}

impl<U: Ord, A: Allocator> UniqueKey<Vec<U, A>> for &[U] {
    ghost equals_at_most_one = { one_by (slice_cmp U.cmp) (lists_total U.total) (λ x. x.items)
        (λ q. q.now) };
}

// Compares two slices of one lifetime, as the borrow checker requires.
fn compare_slices<'x, T: Ord>(first: &'x [T], second: &'x [T]) -> Ordering
    ensures { result ≡ slice_cmp T.cmp first.now second.now }
{
    first.cmp(second)
}
