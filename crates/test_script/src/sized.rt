//! Collections of a given node size.
ghost use Rattle.std.specs.Prelude.{◌≤◌};

use indexset_core::refusal::Refusal;
use indexset_map::BTreeMap;
use indexset_set::BTreeSet;
use std::alloc::Global;

/// Returns the set of these elements, inserted in order.
pub fn set_of<T: Ord + Copy + Drop>(
    alloc: Global,
    size: usize,
    elements: &[T],
) -> Result<BTreeSet<T>, Refusal>
    requires { 2 ≤ size }
{
    let mut set = BTreeSet::with_maximum_node_size(alloc, size)?;
    for element in elements {
        set.insert(*element)?;
    }
    Ok(set)
}

/// Returns the map of these pairs, inserted in order.
pub fn map_of<K: Ord + Copy + Drop, V: Copy + Drop>(
    alloc: Global,
    size: usize,
    pairs: &[(K, V)],
) -> Result<BTreeMap<K, V>, Refusal>
    requires { 2 ≤ size }
{
    let mut map = BTreeMap::with_maximum_node_size(alloc, size)?;
    for (key, value) in pairs {
        map.insert(*key, *value)?;
    }
    Ok(map)
}
