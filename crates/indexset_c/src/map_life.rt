//! Creation and release of a map, its clone and its length.
ghost use Rattle.std.specs.Prelude.{◌≡◌, ◌≢◌, ◌↔◌, [], Some, None, true};
ghost use Rattle.std.specs.Prelude.{length, is_some, IfSome, option_map};
ghost use Rattle.indexset_core.specs.declared.constants.TheConstants.{DEFAULT_INNER_SIZE};
ghost use Rattle.indexset_map.specs.Contents.{no_pairs};
ghost use Rattle.indexset_ffi.specs.Elements.{pairs};

use indexset_ffi::map_handle::MapHandle;
use indexset_ffi::map_owner::MapOwner;
use indexset_ffi::status::{HELD, MEMORY, NONE, YES};
use indexset_map::BTreeMap;
use std::alloc::Global;
use std::mem::swap;

/// Makes an empty map.
///
/// # Errors
///
/// `HELD` if the handle is not empty, or `MEMORY`. A failed call changes nothing.
#[unsafe(no_mangle)]
pub extern "C" fn indexset_map_new(alloc: Global, map: &mut MapHandle) -> u32
    // Contents.
    ensures empty { result ≡ YES → pairs map.new.slot.value ≡ [] }
    ensures made { result ≡ YES → map.new.slot.value ≡ Some (no_pairs DEFAULT_INNER_SIZE) }

    // Failure.
    ensures refused { result ≢ YES → map.new.slot.value ≡ map.old.slot.value }
    ensures held { result ≡ HELD ↔ (is_some map.old.slot.value ≡ true) }
    ensures status { result ≢ YES → result ≢ HELD → result ≡ MEMORY }
{
    if let Some(held) = map.take(alloc) {
        map.put(held);
        return HELD;
    }
    let Ok(made) = BTreeMap::new(alloc) else {
        return MEMORY;
    };
    match Box::new(alloc, made) {
        Ok(made) => {
            map.put(made);
            YES
        }
        Err(_) => MEMORY,
    }
}

/// Makes a clone of a map in the handle `to`.
///
/// # Errors
///
/// `NONE` if the first handle is empty, `HELD` if `to` is not empty, or `MEMORY`. A failed call
/// changes nothing.
#[unsafe(no_mangle)]
pub extern "C" fn indexset_map_clone(alloc: Global, map: &mut MapHandle, to: &mut MapHandle) -> u32
    // Contents.
    ensures ok { result ≡ YES → to.new.slot.value ≡ map.old.slot.value }
    ensures unchanged { map.new.slot.value ≡ map.old.slot.value }

    // Failure.
    ensures refused { result ≢ YES → to.new.slot.value ≡ to.old.slot.value }
    ensures none { result ≡ NONE ↔ (map.old.slot.value ≡ None) }
    ensures held { map.old.slot.value ≢ None
        → (result ≡ HELD ↔ (is_some to.old.slot.value ≡ true)) }
    ensures status { result ≢ YES → result ≢ NONE → result ≢ HELD → result ≡ MEMORY }
{
    let Some(held) = map.take(alloc) else {
        return NONE;
    };
    if let Some(other) = to.take(alloc) {
        to.put(other);
        map.put(held);
        return HELD;
    }
    let cloned: Result<_, _> = BTreeMap::clone(&held);
    map.put(held);
    let Ok(cloned) = cloned else {
        return MEMORY;
    };
    match Box::new(alloc, cloned) {
        Ok(cloned) => {
            to.put(cloned);
            YES
        }
        Err(_) => MEMORY,
    }
}

/// Frees a map, and leaves its handle empty.
#[unsafe(no_mangle)]
pub extern "C" fn indexset_map_free(alloc: Global, map: &mut MapHandle)
    ensures { map.new.slot.value ≡ None }
{
    drop(map.take(alloc));
}

/// Makes a handle on the heap with an empty map.
///
/// # Errors
///
/// `MEMORY`. A failed call changes nothing.
#[unsafe(no_mangle)]
pub extern "C" fn indexset_map_create(alloc: Global, map: &mut MapOwner) -> u32
    ensures made { result ≡ YES → option_map (λ h. h.slot.value) map.new.value
        ≡ Some (Some (no_pairs DEFAULT_INNER_SIZE)) }
    ensures refused { result ≢ YES → map.new.value ≡ map.old.value }
    ensures status { result ≢ YES → result ≡ MEMORY }
{
    let Ok(mut handle) = Box::new(alloc, MapHandle::none(alloc)) else {
        return MEMORY;
    };
    let status = indexset_map_new(alloc, &mut *handle);
    if status == YES {
        map.put(handle);
    }
    status
}

/// Frees a handle on the heap and its collection.
#[unsafe(no_mangle)]
pub extern "C" fn indexset_map_destroy(alloc: Global, map: &mut MapOwner)
    requires { is_some map.old.value ≡ true }
    ensures { map.new.value ≡ None }
{
    let mut handle = map.take(alloc);
    indexset_map_free(alloc, &mut *handle);
}

/// Moves a map from the handle `from` to `to`, and leaves `from` empty.
///
/// A map that `to` had is freed.
#[unsafe(no_mangle)]
pub extern "C" fn indexset_map_move(alloc: Global, to: &mut MapHandle, from: &mut MapHandle)
    ensures moved { to.new.slot.value ≡ from.old.slot.value }
    ensures left { from.new.slot.value ≡ None }
{
    drop(to.take(alloc));
    swap(to, from);
}

/// Swaps the collections of two handles.
#[unsafe(no_mangle)]
pub extern "C" fn indexset_map_swap(one: &mut MapHandle, other: &mut MapHandle)
    ensures one { one.new.slot.value ≡ other.old.slot.value }
    ensures other { other.new.slot.value ≡ one.old.slot.value }
{
    swap(one, other);
}

/// Removes all pairs.
#[unsafe(no_mangle)]
pub extern "C" fn indexset_map_clear(alloc: Global, map: &mut MapHandle)
    ensures empty { pairs map.new.slot.value ≡ [] }
    ensures contains { is_some map.new.slot.value ≡ is_some map.old.slot.value }
    ensures size { IfSome map.old.slot.value (λ m. map.new.slot.value ≡ Some (no_pairs m.size)) }
{
    let Some(mut held) = map.take(alloc) else {
        return;
    };
    held.clear();
    map.put(held);
}

/// Returns the number of pairs.
#[unsafe(no_mangle)]
pub extern "C" fn indexset_map_len(alloc: Global, map: &mut MapHandle) -> usize
    ensures value { result ≡ length (pairs map.old.slot.value) }
    ensures unchanged { map.new.slot.value ≡ map.old.slot.value }
{
    let Some(held) = map.take(alloc) else {
        return 0;
    };
    let len = held.len();
    map.put(held);
    len
}
