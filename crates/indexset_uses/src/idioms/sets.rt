//! Idioms of std's `BTreeSet`.
ghost use Rattle.std.specs.Prelude.{◌≡◌, ◌≤◌, ◌-◌, [], ◌∷◌, nat_lt, length, slice_get, OnOk, IfOk};
ghost use Rattle.std.specs.List.{filter, fold, list_any};
ghost use Rattle.std.specs.Ordering.{nat_cmp};
ghost use Rattle.std.specs.declared.ops.Bound.TheVariants.{Included, Excluded, Unbounded};
ghost use Rattle.indexset.specs.Words.{difference, has_equal, in_range, intersection};
ghost use Rattle.indexset.specs.Words.{items, keep, put, rank, without};

use indexset::base::refusal::{Refusal, Refused};
use indexset::{BTreeSet, Range};
use std::alloc::{AllocError, Global};

/// `BTreeSet::from([3, 1, 2])`: takes the allocator, and returns a `Result`.
pub fn three(alloc: Global) -> Result<BTreeSet<u64>, Refusal>
    ensures { IfOk result (λ set. items set ≡ fold (keep nat_cmp) [] (3 ∷ 1 ∷ 2 ∷ [])) }
{
    BTreeSet::from(alloc, [3, 1, 2])
}

/// `if !seen.insert(x) { .. }`: whether a value was present.
pub fn is_repeated(seen: &mut BTreeSet<u64>, value: u64) -> Result<bool, Refused<u64>>
    ensures { IfOk result (λ repeated. repeated ≡ has_equal nat_cmp (items seen.old) value) }
{
    Ok(!seen.insert(value)?)
}

/// `iter.into_iter().collect::<BTreeSet<_>>().into_iter().collect()`: sorts, and drops duplicates.
pub fn sorted(alloc: Global, values: Vec<u64>) -> Result<Vec<u64>, AllocError>
    ensures { IfOk result (λ sorted. sorted.items ≡ fold (keep nat_cmp) [] values.items) }
{
    let set: BTreeSet<u64> = values.into_iter().collect(alloc)?;
    set.into_iter().collect(alloc)
}

/// `set.remove(&x)`.
pub fn withdraw(set: &mut BTreeSet<u64>, value: u64) -> bool
    ensures rest { items set.new ≡ without nat_cmp (items set.old) value }
    ensures contains { result ≡ has_equal nat_cmp (items set.old) value }
{
    set.remove(&value)
}

/// `set.replace(x)`.
pub fn renew(set: &mut BTreeSet<u64>, value: u64) -> Result<Option<u64>, Refused<u64>>
    ensures { OnOk result (items set.new ≡ put nat_cmp (items set.old) value) }
{
    set.replace(value)
}

/// `set.range(x..).next()`: the least element that is at least `x`.
pub fn at_least(set: &BTreeSet<u64>, value: u64) -> Option<u64>
    ensures { result ≡ slice_get (in_range nat_cmp (items set.now) (Included value) Unbounded) 0 }
{
    set.range(value..).next().copied()
}

/// `set.range(..x).next_back()`: the greatest element that is less than `x`.
pub fn before(set: &BTreeSet<u64>, value: u64) -> Option<u64>
    ensures { let below = in_range nat_cmp (items set.now) Unbounded (Excluded value) in
        result ≡ slice_get below (length below - 1) }
{
    set.range(..value).next_back().copied()
}

/// `set.range(a..b)`: `a > b` panics in std, and a `requires` excludes it here.
pub fn within(set: &BTreeSet<u64>, from: u64, to: u64) -> Range<'_, u64>
    requires { from ≤ to }
    ensures { result ≡ in_range nat_cmp (items set.now) (Included from) (Excluded to) }
{
    set.range(from..to)
}

/// `set.range(..x).count()`, which visits each element: `rank` needs one search.
pub fn count_below(set: &BTreeSet<u64>, value: u64) -> usize
    ensures { result ≡ rank nat_cmp (items set.now) value }
{
    set.rank(&value)
}

/// `set.iter().nth(i)`, which visits each element: `get_index` uses the index.
pub fn at_position(set: &BTreeSet<u64>, i: usize) -> Option<u64>
    ensures { result ≡ slice_get (items set.now) i }
{
    set.get_index(i).copied()
}

/// `for x in &set { .. }`.
pub fn has_above(set: &BTreeSet<u64>, value: u64) -> bool
    ensures { result ≡ list_any (λ element. nat_lt value element) (items set.now) }
{
    for element in set {
        if *element > value {
            return true;
        }
    }
    false
}

/// `set.retain(|x| ..)`.
pub fn keep_below(set: &mut BTreeSet<u64>, value: u64)
    ensures { items set.new ≡ filter (λ element. nat_lt element value) (items set.old) }
{
    set.retain(|element| *element < value);
}

/// `set.extract_if(.., |x| ..).count()`.
pub fn drop_above(set: &mut BTreeSet<u64>, value: u64) -> usize {
    set.extract_if(.., |element| *element > value).count()
}

/// `&a & &b`: returns a `Result`, because it clones.
pub fn common(a: &BTreeSet<u64>, b: &BTreeSet<u64>) -> Result<BTreeSet<u64>, Refusal>
    ensures { IfOk result (λ both. items both ≡ intersection nat_cmp (items a.now) (items b.now)) }
{
    a & b
}

/// `a.difference(&b).copied().collect()`.
pub fn only_in(alloc: Global, a: &BTreeSet<u64>, b: &BTreeSet<u64>) -> Result<Vec<u64>, AllocError>
    ensures { IfOk result (λ rest. rest.items ≡ difference nat_cmp (items a.now) (items b.now)) }
{
    a.difference(b).copied().collect(alloc)
}

/// `set.extend(iter)`.
pub fn extend_to(set: &mut BTreeSet<u64>, end: u64) -> Result<(), AllocError> {
    set.extend(0..end)
}
