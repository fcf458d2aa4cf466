//! Ranges of a set.
ghost use Rattle.std.specs.Prelude.{◌≡◌, ◌≤◌, ◌<◌, drop, length, min, take};
ghost use Rattle.std.specs.Ordering.{nat_cmp};
ghost use Rattle.std.specs.declared.ops.Bound.TheVariants.{Included};
ghost use Rattle.indexset_core.specs.KeyRange.{in_range};
ghost use Rattle.indexset_ffi.specs.Elements.{elements, written};

use indexset_ffi::set_calls::write_each;
use indexset_ffi::set_handle::SetHandle;
use std::alloc::Global;
use std::ops::Bound;

/// Writes as many elements from `low` to `high`, both included, as fit, in order.
///
/// Returns how many it wrote.
#[unsafe(no_mangle)]
pub extern "C" fn indexset_set_range_by_key(
    alloc: Global,
    set: &mut SetHandle,
    low: u64,
    high: u64,
    out: &mut [u64],
) -> usize
    // Result.
    ensures count { low ≤ high → result ≡ min
        (length (in_range nat_cmp (elements set.old.slot.value) (Included low) (Included high)))
        (length out.old) }
    ensures written { low ≤ high → out.new
        ≡ written result (in_range nat_cmp (elements set.old.slot.value) (Included low)
        (Included high)) out.old }
    ensures none { high < low → result ≡ 0 }
    ensures unwritten { high < low → out.new ≡ out.old }

    // Contents.
    ensures unchanged { set.new.slot.value ≡ set.old.slot.value }
{
    if high < low {
        return 0;
    }
    let Some(held) = set.take(alloc) else {
        return 0;
    };
    let count = write_each(
        held.range((Bound::Included(&low), Bound::Included(&high))),
        out,
    );
    set.put(held);
    count
}

/// Writes as many elements from a position on as fit, in order. Returns how many it wrote.
#[unsafe(no_mangle)]
pub extern "C" fn indexset_set_range_by_position(
    alloc: Global,
    set: &mut SetHandle,
    from: usize,
    out: &mut [u64],
) -> usize
    ensures count { result ≡ min (length (drop from (elements set.old.slot.value)))
        (length out.old) }
    ensures written { out.new ≡ written result (drop from (elements set.old.slot.value)) out.old }
    ensures unchanged { set.new.slot.value ≡ set.old.slot.value }
{
    let Some(held) = set.take(alloc) else {
        return 0;
    };
    let count = write_each(
        held.range_idx((Bound::Included(from), Bound::Unbounded)),
        out,
    );
    set.put(held);
    count
}
