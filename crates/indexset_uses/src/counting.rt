//! Counts of the elements of two sets, and of the comparisons of a search.
ghost use Rattle.std.specs.Prelude.{◌≡◌, ◌+◌, ◌≤◌, ◌^◌, length, position};
ghost use Rattle.std.specs.Prelude.{None, Some, IfSome, IfNone, IfOk, IfErr};
ghost use Rattle.std.specs.Ordering.{is_eq, nat_cmp};
ghost use Rattle.indexset.specs.Words.{digits, intersection, items, rank, union};

use indexset::BTreeSet;
use indexset::base::probe::{ByItem, Counting};

/// Returns how many elements are in either set, or `None` if the sum of their lengths overflows.
pub fn count_of_either(a: &BTreeSet<u64>, b: &BTreeSet<u64>) -> Option<usize>
    ensures count { IfSome result (λ n. n ≡ length (union nat_cmp (items a.now) (items b.now))) }
    ensures many { IfNone result (2 ^ 64 ≤ length (items a.now) + length (items b.now)) }
{
    // There are at most this many.
    let _most = a.len().checked_add(b.len())?;
    Some(a.union(b).count())
}

/// Returns how many elements are in both sets.
pub fn count_of_both(a: &BTreeSet<u64>, b: &BTreeSet<u64>) -> usize
    ensures { result ≡ length (intersection nat_cmp (items a.now) (items b.now)) }
{
    // There are at most this many.
    let _most = a.len();
    a.intersection(b).count()
}

/// Returns the position of a key, or how many keys are less than it, and the number of comparisons.
pub fn place_of(set: &BTreeSet<u64>, key: u64) -> (Result<usize, usize>, u64)
    ensures found { IfOk result.0 (λ i. position (λ x. is_eq (nat_cmp x key)) (items set.now)
        ≡ Some i) }
    ensures absent { IfErr result.0 (λ _. position (λ x. is_eq (nat_cmp x key)) (items set.now)
        ≡ None) }
    ensures below { IfErr result.0 (λ i. i ≡ rank nat_cmp (items set.now) key) }
    ensures comparisons { result.1 ≤ digits (length set.now.nodes) + digits set.now.size + 1 }
{
    // For the proof: the elements are in order.
    let _len = set.len();
    let mut probe = Counting::new(ByItem::new(&key));
    let place = set.locate_by(&mut probe);
    (place, probe.asked())
}
