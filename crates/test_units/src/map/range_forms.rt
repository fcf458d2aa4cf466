//! Ranges in Rust's syntax.
use super::{five, shows};
use indexset_map::BTreeMap;
use std::test::Fail;

// Returns whether a range of each form yields its pairs.
fn reads_ranges(map: &BTreeMap<u64, &'static str>) -> bool {
    let from = shows(map.range(17..), &[(17, "d"), (41, "e")]);
    let to = shows(map.range(..3), &[(1, "a"), (2, "b")]);
    let within = shows(map.range(3..=17), &[(3, "c"), (17, "d")]);
    let between = shows(map.range(3..17), &[(3, "c")]);
    let up_to = map.range(..=&2).len() == 2 && map.range(..).len() == 5;
    from && to && within && between && up_to
}

// Returns whether a mutable range of each form yields its pairs.
fn lends_ranges(map: &mut BTreeMap<u64, &'static str>) -> bool {
    let two = map.range_mut(2..=3).len() == 2;
    two && map.range_mut(41..).len() == 1
}

#[test]
fn ranges_as_rust_writes_them(rt: HostRuntime) -> Result<(), Fail> {
    for size in [2, 1024] {
        let mut map = five(rt.alloc(), size)?;
        assert!(rt; reads_ranges(&map) && lends_ranges(&mut map));
    }
    Ok(())
}
