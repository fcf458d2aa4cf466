//! Positions in a set, and its ends.
ghost use Rattle.std.specs.Prelude.{◌≡◌, ◌-◌, Some, None, true, false, drop};
ghost use Rattle.std.specs.Prelude.{length, remove, slice_get, take, is_some};
ghost use Rattle.indexset_ffi.specs.Elements.{elements};

use indexset_ffi::set_calls::take_index;
use indexset_ffi::set_handle::SetHandle;
use indexset_ffi::write::write;
use std::alloc::Global;

/// Writes the element at a position, counted from 0. Returns `false` if the position is past the
/// end.
#[unsafe(no_mangle)]
pub extern "C" fn indexset_set_at(
    alloc: Global,
    set: &mut SetHandle,
    position: usize,
    out: &mut u64,
) -> bool
    ensures found { result ≡ true → slice_get (elements set.old.slot.value) position
        ≡ Some out.new }
    ensures absent { result ≡ false → slice_get (elements set.old.slot.value) position ≡ None }
    ensures unwritten { result ≡ false → out.new ≡ out.old }
    ensures unchanged { set.new.slot.value ≡ set.old.slot.value }
{
    let Some(held) = set.take(alloc) else {
        return false;
    };
    let found = held.get_index(position).copied();
    set.put(held);
    write(found, out)
}

/// Removes the element at a position, counted from 0, and writes it.
///
/// Returns `false` if the position is past the end.
#[unsafe(no_mangle)]
pub extern "C" fn indexset_set_remove_at(
    alloc: Global,
    set: &mut SetHandle,
    position: usize,
    out: &mut u64,
) -> bool
    // Result.
    ensures found { result ≡ true → slice_get (elements set.old.slot.value) position
        ≡ Some out.new }
    ensures absent { result ≡ false → slice_get (elements set.old.slot.value) position ≡ None }
    ensures unwritten { result ≡ false → out.new ≡ out.old }

    // Contents.
    ensures rest { elements set.new.slot.value ≡ remove (elements set.old.slot.value) position }
    ensures contains { is_some set.new.slot.value ≡ is_some set.old.slot.value }
    ensures unchanged { result ≡ false → set.new.slot.value ≡ set.old.slot.value }
{
    let Some(mut held) = set.take(alloc) else {
        return false;
    };
    let found = take_index(&mut held, position);
    set.put(held);
    write(found, out)
}

/// Writes the least element. Returns `false` if there is none.
#[unsafe(no_mangle)]
pub extern "C" fn indexset_set_first(alloc: Global, set: &mut SetHandle, out: &mut u64) -> bool
    ensures found { result ≡ true → slice_get (elements set.old.slot.value) 0 ≡ Some out.new }
    ensures absent { result ≡ false → length (elements set.old.slot.value) ≡ 0 }
    ensures unwritten { result ≡ false → out.new ≡ out.old }
    ensures unchanged { set.new.slot.value ≡ set.old.slot.value }
{
    let Some(held) = set.take(alloc) else {
        return false;
    };
    let found = held.first().copied();
    set.put(held);
    write(found, out)
}

/// Writes the greatest element. Returns `false` if there is none.
#[unsafe(no_mangle)]
pub extern "C" fn indexset_set_last(alloc: Global, set: &mut SetHandle, out: &mut u64) -> bool
    ensures found { result ≡ true → slice_get (elements set.old.slot.value)
        (length (elements set.old.slot.value) - 1) ≡ Some out.new }
    ensures absent { result ≡ false → length (elements set.old.slot.value) ≡ 0 }
    ensures unwritten { result ≡ false → out.new ≡ out.old }
    ensures unchanged { set.new.slot.value ≡ set.old.slot.value }
{
    let Some(held) = set.take(alloc) else {
        return false;
    };
    let found = held.last().copied();
    set.put(held);
    write(found, out)
}

/// Removes the least element, and writes it. Returns `false` if there is none.
#[unsafe(no_mangle)]
pub extern "C" fn indexset_set_pop_first(alloc: Global, set: &mut SetHandle, out: &mut u64) -> bool
    // Result.
    ensures found { result ≡ true → slice_get (elements set.old.slot.value) 0 ≡ Some out.new }
    ensures absent { result ≡ false → length (elements set.old.slot.value) ≡ 0 }
    ensures unwritten { result ≡ false → out.new ≡ out.old }

    // Contents.
    ensures rest { elements set.new.slot.value ≡ drop 1 (elements set.old.slot.value) }
    ensures contains { is_some set.new.slot.value ≡ is_some set.old.slot.value }
    ensures unchanged { result ≡ false → set.new.slot.value ≡ set.old.slot.value }
{
    let Some(mut held) = set.take(alloc) else {
        return false;
    };
    let found = held.pop_first();
    set.put(held);
    write(found, out)
}

/// Removes the greatest element, and writes it. Returns `false` if there is none.
#[unsafe(no_mangle)]
pub extern "C" fn indexset_set_pop_last(alloc: Global, set: &mut SetHandle, out: &mut u64) -> bool
    // Result.
    ensures found { result ≡ true → slice_get (elements set.old.slot.value)
        (length (elements set.old.slot.value) - 1) ≡ Some out.new }
    ensures absent { result ≡ false → length (elements set.old.slot.value) ≡ 0 }
    ensures unwritten { result ≡ false → out.new ≡ out.old }

    // Contents.
    ensures rest { elements set.new.slot.value
        ≡ take (length (elements set.old.slot.value) - 1) (elements set.old.slot.value) }
    ensures contains { is_some set.new.slot.value ≡ is_some set.old.slot.value }
    ensures unchanged { result ≡ false → set.new.slot.value ≡ set.old.slot.value }
{
    let Some(mut held) = set.take(alloc) else {
        return false;
    };
    let found = held.pop_last();
    set.put(held);
    write(found, out)
}
