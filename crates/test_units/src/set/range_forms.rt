//! Ranges in Rust's syntax.
use indexset_set::{BTreeSet, Range};
use std::ops::Bound::{Excluded, Unbounded};
use std::test::Fail;
use test_script::sized::set_of;

// Returns whether the range yields these elements.
fn gives(range: Range<'_, u64>, elements: &[u64]) -> bool {
    range.eq(elements)
}

// Returns whether ranges with at most one bound yield their elements.
fn gives_open_ranges(set: &BTreeSet<u64>) -> bool {
    let from = gives(set.range(3..), &[3, 5, 7]);
    let from_lent = gives(set.range(&4..), &[5, 7]);
    let to = gives(set.range(..5), &[1, 3]);
    let up_to = gives(set.range(..=5), &[1, 3, 5]);
    let all = set.range(..).len() == 4;
    let open = set.range((Unbounded::<u64>, Unbounded)).len() == 4;
    let past = gives(set.range((Excluded(3), Unbounded)), &[5, 7]);
    from && from_lent && to && up_to && all && open && past
}

// Returns whether ranges with two bounds yield their elements.
fn gives_closed_ranges(set: &BTreeSet<u64>) -> bool {
    let between = gives(set.range(2..7), &[3, 5]);
    let within = gives(set.range(3..=7), &[3, 5, 7]);
    between && within && gives(set.range(&1..&3), &[1])
}

#[test]
fn ranges_as_rust_writes_them(rt: HostRuntime) -> Result<(), Fail> {
    for size in [2, 1024] {
        let set = set_of(rt.alloc(), size, &[1u64, 3, 5, 7])?;
        assert!(rt; gives_open_ranges(&set) && gives_closed_ranges(&set));
    }
    Ok(())
}
