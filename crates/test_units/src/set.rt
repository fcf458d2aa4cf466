//! Tests of the set that no script can express.

use indexset_core::pair::Pair;
use indexset_core::refusal::Refusal;
use indexset_set::BTreeSet;
use std::alloc::Global;
use std::ops::Range;

mod clones;
mod counted;
mod pairs;
mod range_forms;
mod traits;

// Inserts a value, and drops it if an allocation fails.
fn add<T: Ord + Drop>(set: &mut BTreeSet<T>, value: T) -> Result<bool, Refusal> {
    Ok(set.insert(value)?)
}

// Returns the pairs of these keys with the value 0, in nodes of two.
fn noughts(alloc: Global, keys: Range<u64>) -> Result<BTreeSet<Pair<u64, u64>>, Refusal> {
    let mut set = BTreeSet::with_maximum_node_size(alloc, 2)?;
    for key in keys {
        add(&mut set, Pair { key, value: 0 })?;
    }
    Ok(set)
}

// Returns whether the set has these keys with these values.
fn has_pairs(set: &BTreeSet<Pair<u64, u64>>, pairs: &[(u64, u64)]) -> bool {
    let held = set.iter().map(|pair| (pair.key, pair.value));
    held.eq(pairs.iter().copied())
}
