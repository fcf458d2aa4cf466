//! Positions in a map, bounds and ends.
ghost use Rattle.std.specs.Prelude.{◌≡◌, ◌-◌, Some, None, true, false};
ghost use Rattle.std.specs.Prelude.{drop, length, remove, take, is_some};
ghost use Rattle.std.specs.Ordering.{nat_cmp};
ghost use Rattle.std.specs.declared.ops.Bound.TheVariants.{Included, Excluded, Unbounded};
ghost use Rattle.indexset_core.specs.Pairs.{pairs_within};
ghost use Rattle.indexset_ffi.specs.Elements.{entry_at, pairs};

use indexset_ffi::map_calls::{first_from, first_past, take_index};
use indexset_ffi::map_handle::MapHandle;
use indexset_ffi::write::write_pair;
use std::alloc::Global;

/// Writes the pair at a position, counted from 0. Returns `false` if the position is past the end.
#[unsafe(no_mangle)]
pub extern "C" fn indexset_map_at(
    alloc: Global,
    map: &mut MapHandle,
    position: usize,
    key: &mut u64,
    value: &mut u64,
) -> bool
    // Result.
    ensures found { result ≡ true → entry_at (pairs map.old.slot.value) position
        ≡ Some (key.new, value.new) }
    ensures absent { result ≡ false → entry_at (pairs map.old.slot.value) position ≡ None }
    ensures no_key { result ≡ false → key.new ≡ key.old }
    ensures no_value { result ≡ false → value.new ≡ value.old }

    // Contents.
    ensures unchanged { map.new.slot.value ≡ map.old.slot.value }
{
    let Some(held) = map.take(alloc) else {
        return false;
    };
    let found = match held.get_index(position) {
        Some((k, v)) => Some((*k, *v)),
        None => None,
    };
    map.put(held);
    write_pair(found, key, value)
}

/// Writes the pair of the first key that is at least `from`. Returns `false` if there is none.
#[unsafe(no_mangle)]
pub extern "C" fn indexset_map_lower_bound(
    alloc: Global,
    map: &mut MapHandle,
    from: u64,
    key: &mut u64,
    value: &mut u64,
) -> bool
    // Result.
    ensures found { result ≡ true → entry_at
        (pairs_within nat_cmp (pairs map.old.slot.value) (Included from) Unbounded) 0
        ≡ Some (key.new, value.new) }
    ensures absent { result ≡ false → entry_at
        (pairs_within nat_cmp (pairs map.old.slot.value) (Included from) Unbounded) 0 ≡ None }
    ensures no_key { result ≡ false → key.new ≡ key.old }
    ensures no_value { result ≡ false → value.new ≡ value.old }

    // Contents.
    ensures unchanged { map.new.slot.value ≡ map.old.slot.value }
{
    let Some(held) = map.take(alloc) else {
        return false;
    };
    let found = first_from(&held, from);
    map.put(held);
    write_pair(found, key, value)
}

/// Writes the pair of the first key that is greater than `from`. Returns `false` if there is none.
#[unsafe(no_mangle)]
pub extern "C" fn indexset_map_upper_bound(
    alloc: Global,
    map: &mut MapHandle,
    from: u64,
    key: &mut u64,
    value: &mut u64,
) -> bool
    // Result.
    ensures found { result ≡ true → entry_at
        (pairs_within nat_cmp (pairs map.old.slot.value) (Excluded from) Unbounded) 0
        ≡ Some (key.new, value.new) }
    ensures absent { result ≡ false → entry_at
        (pairs_within nat_cmp (pairs map.old.slot.value) (Excluded from) Unbounded) 0 ≡ None }
    ensures no_key { result ≡ false → key.new ≡ key.old }
    ensures no_value { result ≡ false → value.new ≡ value.old }

    // Contents.
    ensures unchanged { map.new.slot.value ≡ map.old.slot.value }
{
    let Some(held) = map.take(alloc) else {
        return false;
    };
    let found = first_past(&held, from);
    map.put(held);
    write_pair(found, key, value)
}

/// Removes the pair at a position, counted from 0, and writes it.
///
/// Returns `false` if the position is past the end.
#[unsafe(no_mangle)]
pub extern "C" fn indexset_map_remove_at(
    alloc: Global,
    map: &mut MapHandle,
    position: usize,
    key: &mut u64,
    value: &mut u64,
) -> bool
    // Result.
    ensures found { result ≡ true → entry_at (pairs map.old.slot.value) position
        ≡ Some (key.new, value.new) }
    ensures absent { result ≡ false → entry_at (pairs map.old.slot.value) position ≡ None }
    ensures no_key { result ≡ false → key.new ≡ key.old }
    ensures no_value { result ≡ false → value.new ≡ value.old }

    // Contents.
    ensures rest { pairs map.new.slot.value ≡ remove (pairs map.old.slot.value) position }
    ensures contains { is_some map.new.slot.value ≡ is_some map.old.slot.value }
    ensures unchanged { result ≡ false → map.new.slot.value ≡ map.old.slot.value }
{
    let Some(mut held) = map.take(alloc) else {
        return false;
    };
    let found = take_index(&mut held, position);
    map.put(held);
    write_pair(found, key, value)
}

/// Writes the pair of the least key. Returns `false` if there is none.
#[unsafe(no_mangle)]
pub extern "C" fn indexset_map_first(
    alloc: Global,
    map: &mut MapHandle,
    key: &mut u64,
    value: &mut u64,
) -> bool
    // Result.
    ensures found { result ≡ true → entry_at (pairs map.old.slot.value) 0
        ≡ Some (key.new, value.new) }
    ensures absent { result ≡ false → entry_at (pairs map.old.slot.value) 0 ≡ None }
    ensures no_key { result ≡ false → key.new ≡ key.old }
    ensures no_value { result ≡ false → value.new ≡ value.old }

    // Contents.
    ensures unchanged { map.new.slot.value ≡ map.old.slot.value }
{
    indexset_map_at(alloc, map, 0, key, value)
}

/// Writes the pair of the greatest key. Returns `false` if there is none.
#[unsafe(no_mangle)]
pub extern "C" fn indexset_map_last(
    alloc: Global,
    map: &mut MapHandle,
    key: &mut u64,
    value: &mut u64,
) -> bool
    // Result.
    ensures found { result ≡ true → entry_at (pairs map.old.slot.value)
        (length (pairs map.old.slot.value) - 1) ≡ Some (key.new, value.new) }
    ensures absent { result ≡ false → entry_at (pairs map.old.slot.value)
        (length (pairs map.old.slot.value) - 1) ≡ None }
    ensures no_key { result ≡ false → key.new ≡ key.old }
    ensures no_value { result ≡ false → value.new ≡ value.old }

    // Contents.
    ensures unchanged { map.new.slot.value ≡ map.old.slot.value }
{
    let Some(held) = map.take(alloc) else {
        return false;
    };
    let found = match held.last_key_value() {
        Some((k, v)) => Some((*k, *v)),
        None => None,
    };
    map.put(held);
    write_pair(found, key, value)
}

/// Removes the pair of the least key, and writes it. Returns `false` if there is none.
#[unsafe(no_mangle)]
pub extern "C" fn indexset_map_pop_first(
    alloc: Global,
    map: &mut MapHandle,
    key: &mut u64,
    value: &mut u64,
) -> bool
    // Result.
    ensures found { result ≡ true → entry_at (pairs map.old.slot.value) 0
        ≡ Some (key.new, value.new) }
    ensures absent { result ≡ false → entry_at (pairs map.old.slot.value) 0 ≡ None }
    ensures no_key { result ≡ false → key.new ≡ key.old }
    ensures no_value { result ≡ false → value.new ≡ value.old }

    // Contents.
    ensures rest { pairs map.new.slot.value ≡ drop 1 (pairs map.old.slot.value) }
    ensures contains { is_some map.new.slot.value ≡ is_some map.old.slot.value }
    ensures unchanged { result ≡ false → map.new.slot.value ≡ map.old.slot.value }
{
    let Some(mut held) = map.take(alloc) else {
        return false;
    };
    let found = held.pop_first();
    map.put(held);
    write_pair(found, key, value)
}

/// Removes the pair of the greatest key, and writes it. Returns `false` if there is none.
#[unsafe(no_mangle)]
pub extern "C" fn indexset_map_pop_last(
    alloc: Global,
    map: &mut MapHandle,
    key: &mut u64,
    value: &mut u64,
) -> bool
    // Result.
    ensures found { result ≡ true → entry_at (pairs map.old.slot.value)
        (length (pairs map.old.slot.value) - 1) ≡ Some (key.new, value.new) }
    ensures absent { result ≡ false → entry_at (pairs map.old.slot.value)
        (length (pairs map.old.slot.value) - 1) ≡ None }
    ensures no_key { result ≡ false → key.new ≡ key.old }
    ensures no_value { result ≡ false → value.new ≡ value.old }

    // Contents.
    ensures rest { pairs map.new.slot.value
        ≡ take (length (pairs map.old.slot.value) - 1) (pairs map.old.slot.value) }
    ensures contains { is_some map.new.slot.value ≡ is_some map.old.slot.value }
    ensures unchanged { result ≡ false → map.new.slot.value ≡ map.old.slot.value }
{
    let Some(mut held) = map.take(alloc) else {
        return false;
    };
    let found = held.pop_last();
    map.put(held);
    write_pair(found, key, value)
}
