//! Creation and release of a multimap, and its length.
ghost use Rattle.std.specs.Prelude.{◌≡◌, ◌≢◌, ◌↔◌, [], Some, None};
ghost use Rattle.std.specs.Prelude.{true, length, is_some, option_map};
ghost use Rattle.indexset_ffi.specs.Elements.{fresh_multi, numbered_pairs};

use indexset_ffi::multi_handle::MultiHandle;
use indexset_ffi::multi_owner::MultiOwner;
use indexset_ffi::status::{HELD, MEMORY, YES};
use indexset_multi::multimap::BTreeMultiMap;
use std::alloc::Global;
use std::mem::swap;

/// Makes an empty multimap.
///
/// # Errors
///
/// `HELD` if the handle is not empty, or `MEMORY`. A failed call changes nothing.
#[unsafe(no_mangle)]
pub extern "C" fn indexset_multi_new(alloc: Global, multi: &mut MultiHandle) -> u32
    // Contents.
    ensures empty { result ≡ YES → numbered_pairs multi.new.slot.value ≡ [] }
    ensures made { result ≡ YES → multi.new.slot.value ≡ Some fresh_multi }

    // Failure.
    ensures refused { result ≢ YES → multi.new.slot.value ≡ multi.old.slot.value }
    ensures held { result ≡ HELD ↔ (is_some multi.old.slot.value ≡ true) }
    ensures status { result ≢ YES → result ≢ HELD → result ≡ MEMORY }
{
    if let Some(held) = multi.take(alloc) {
        multi.put(held);
        return HELD;
    }
    match Box::new(alloc, BTreeMultiMap::new(alloc)) {
        Ok(made) => {
            multi.put(made);
            YES
        }
        Err(_) => MEMORY,
    }
}

/// Frees a multimap, and leaves its handle empty.
#[unsafe(no_mangle)]
pub extern "C" fn indexset_multi_free(alloc: Global, multi: &mut MultiHandle)
    ensures { multi.new.slot.value ≡ None }
{
    drop(multi.take(alloc));
}

/// Makes a handle on the heap with an empty multimap.
///
/// # Errors
///
/// `MEMORY`. A failed call changes nothing.
#[unsafe(no_mangle)]
pub extern "C" fn indexset_multi_create(alloc: Global, multi: &mut MultiOwner) -> u32
    ensures made { result ≡ YES → option_map (λ h. h.slot.value) multi.new.value
        ≡ Some (Some fresh_multi) }
    ensures refused { result ≢ YES → multi.new.value ≡ multi.old.value }
    ensures status { result ≢ YES → result ≡ MEMORY }
{
    let Ok(mut handle) = Box::new(alloc, MultiHandle::none(alloc)) else {
        return MEMORY;
    };
    let status = indexset_multi_new(alloc, &mut *handle);
    if status == YES {
        multi.put(handle);
    }
    status
}

/// Frees a handle on the heap and its collection.
#[unsafe(no_mangle)]
pub extern "C" fn indexset_multi_destroy(alloc: Global, multi: &mut MultiOwner)
    requires { is_some multi.old.value ≡ true }
    ensures { multi.new.value ≡ None }
{
    let mut handle = multi.take(alloc);
    indexset_multi_free(alloc, &mut *handle);
}

/// Moves a multimap from the handle `from` to `to`, and leaves `from` empty.
///
/// A multimap that `to` had is freed.
#[unsafe(no_mangle)]
pub extern "C" fn indexset_multi_move(alloc: Global, to: &mut MultiHandle, from: &mut MultiHandle)
    ensures moved { to.new.slot.value ≡ from.old.slot.value }
    ensures left { from.new.slot.value ≡ None }
{
    drop(to.take(alloc));
    swap(to, from);
}

/// Swaps the collections of two handles.
#[unsafe(no_mangle)]
pub extern "C" fn indexset_multi_swap(one: &mut MultiHandle, other: &mut MultiHandle)
    ensures one { one.new.slot.value ≡ other.old.slot.value }
    ensures other { other.new.slot.value ≡ one.old.slot.value }
{
    swap(one, other);
}

/// Removes all pairs.
#[unsafe(no_mangle)]
pub extern "C" fn indexset_multi_clear(alloc: Global, multi: &mut MultiHandle)
    ensures empty { numbered_pairs multi.new.slot.value ≡ [] }
    ensures contains { is_some multi.new.slot.value ≡ is_some multi.old.slot.value }
    ensures fresh { multi.old.slot.value ≢ None → multi.new.slot.value ≡ Some fresh_multi }
{
    let Some(mut held) = multi.take(alloc) else {
        return;
    };
    *held = BTreeMultiMap::new(alloc);
    multi.put(held);
}

/// Returns the number of pairs.
#[unsafe(no_mangle)]
pub extern "C" fn indexset_multi_len(alloc: Global, multi: &mut MultiHandle) -> usize
    ensures value { result ≡ length (numbered_pairs multi.old.slot.value) }
    ensures unchanged { multi.new.slot.value ≡ multi.old.slot.value }
{
    let Some(held) = multi.take(alloc) else {
        return 0;
    };
    let len = held.len();
    multi.put(held);
    len
}
