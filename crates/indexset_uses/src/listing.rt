//! A paged listing of the elements.
ghost use Rattle.std.specs.Prelude.{◌≡◌, ◌<◌, ◌^◌, ◌+◌, length, IfOk};
ghost use Rattle.std.specs.Int.{div_ceil};
ghost use Rattle.std.specs.declared.ops.Bound.TheVariants.{Included, Excluded};
ghost use Rattle.indexset.specs.Words.{in_positions, items};

use indexset::BTreeSet;
use std::alloc::{AllocError, Global};
use std::ops::Bound;

/// Returns a page: at most `size` elements from a position on.
pub fn page(
    alloc: Global,
    set: &BTreeSet<u64>,
    from: usize,
    size: usize,
) -> Result<Vec<u64>, AllocError>
    requires { from + size < 2 ^ 64 }
    ensures { IfOk result (λ page. page.items
        ≡ in_positions (items set.now) (Included from) (Excluded (from + size))) }
{
    let bounds = (Bound::Included(from), Bound::Excluded(from + size));
    set.range_idx(bounds).copied().collect(alloc)
}

/// Returns the number of pages.
pub fn page_count(set: &BTreeSet<u64>, size: usize) -> usize
    requires { 0 < size }
    ensures { result ≡ div_ceil (length (items set.now)) size }
{
    set.len().div_ceil(size)
}
