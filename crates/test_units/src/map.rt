//! Tests of the map that no script can express.
ghost use Rattle.std.specs.Prelude.{◌≤◌};

use indexset_core::refusal::Refusal;
use indexset_map::{BTreeMap, IterMap};
use std::alloc::Global;
use test_script::sized::map_of;

mod clones;
mod counted;
mod entries;
mod floats;
mod lending;
mod range_forms;
mod shown;
mod text;

// Inserts a pair, and drops it if an allocation fails.
fn put<K: Ord + Drop, V: Drop>(
    map: &mut BTreeMap<K, V>,
    key: K,
    value: V,
) -> Result<Option<V>, Refusal> {
    Ok(map.insert(key, value)?)
}

// Returns five pairs whose keys have gaps between them.
fn five(alloc: Global, size: usize) -> Result<BTreeMap<u64, &'static str>, Refusal>
    requires { 2 ≤ size }
{
    map_of(
        alloc,
        size,
        &[(1, "a"), (2, "b"), (3, "c"), (17, "d"), (41, "e")],
    )
}

// Returns whether an iterator yields these pairs.
fn shows<V: Copy + PartialEq>(walk: IterMap<'_, u64, V>, pairs: &[(u64, V)]) -> bool {
    walk.map(|(key, value)| (*key, *value))
        .eq(pairs.iter().copied())
}
