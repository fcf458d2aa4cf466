//! Creation and release of a logged map, its length and its next event number.
ghost use Rattle.std.specs.Prelude.{◌≡◌, ◌≢◌, ◌<◌, ◌↔◌, [], Some, None};
ghost use Rattle.std.specs.Prelude.{false, true, length, is_some, option_map};
ghost use Rattle.std.specs.Option.{option_map_or};
ghost use Rattle.indexset_ffi.specs.Elements.{logged_pairs};

use indexset_ffi::log_handle::LogHandle;
use indexset_ffi::log_owner::LogOwner;
use indexset_ffi::status::{HELD, MEMORY, UNFIT, YES};
use indexset_log::map::BTreeMap;
use std::alloc::Global;
use std::mem::swap;

/// Makes an empty map with at most `size` pairs in a node, whose first event has the number `next`.
///
/// # Errors
///
/// `HELD` if the handle is not empty, `UNFIT` if `size` is less than 2, or `MEMORY`. A failed call
/// changes nothing.
#[unsafe(no_mangle)]
pub extern "C" fn indexset_log_new(
    alloc: Global,
    log: &mut LogHandle,
    size: usize,
    next: u64,
) -> u32
    // Contents.
    ensures made { result ≡ YES → log.new.slot.value
        ≡ Some (record { nodes = []; size = size; next = next }) }

    // Failure.
    ensures refused { result ≢ YES → log.new.slot.value ≡ log.old.slot.value }
    ensures held { result ≡ HELD ↔ (is_some log.old.slot.value ≡ true) }
    ensures unfit { is_some log.old.slot.value ≡ false → (result ≡ UNFIT ↔ (size < 2)) }
    ensures status { result ≢ YES → result ≢ HELD → result ≢ UNFIT → result ≡ MEMORY }
{
    if let Some(held) = log.take(alloc) {
        log.put(held);
        return HELD;
    }
    if size < 2 {
        return UNFIT;
    }
    match Box::new(alloc, BTreeMap::starting_at(alloc, size, next)) {
        Ok(made) => {
            log.put(made);
            YES
        }
        Err(_) => MEMORY,
    }
}

/// Frees a map, and leaves its handle empty.
#[unsafe(no_mangle)]
pub extern "C" fn indexset_log_free(alloc: Global, log: &mut LogHandle)
    ensures { log.new.slot.value ≡ None }
{
    drop(log.take(alloc));
}

/// Makes a handle on the heap with an empty map, as `indexset_log_new` does.
///
/// # Errors
///
/// `UNFIT` if `size` is less than 2, or `MEMORY`. A failed call changes nothing.
#[unsafe(no_mangle)]
pub extern "C" fn indexset_log_create(
    alloc: Global,
    log: &mut LogOwner,
    size: usize,
    next: u64,
) -> u32
    ensures made { result ≡ YES → option_map (λ h. h.slot.value) log.new.value
        ≡ Some (Some (record { nodes = []; size = size; next = next })) }
    ensures refused { result ≢ YES → log.new.value ≡ log.old.value }
    ensures unfit { result ≡ UNFIT ↔ (size < 2) }
    ensures status { result ≢ YES → result ≢ UNFIT → result ≡ MEMORY }
{
    if size < 2 {
        return UNFIT;
    }
    let Ok(mut handle) = Box::new(alloc, LogHandle::none(alloc)) else {
        return MEMORY;
    };
    let status = indexset_log_new(alloc, &mut *handle, size, next);
    if status == YES {
        log.put(handle);
    }
    status
}

/// Frees a handle on the heap and its collection.
#[unsafe(no_mangle)]
pub extern "C" fn indexset_log_destroy(alloc: Global, log: &mut LogOwner)
    requires { is_some log.old.value ≡ true }
    ensures { log.new.value ≡ None }
{
    let mut handle = log.take(alloc);
    indexset_log_free(alloc, &mut *handle);
}

/// Moves a logged map from the handle `from` to `to`, and leaves `from` empty.
///
/// A map that `to` had is freed.
#[unsafe(no_mangle)]
pub extern "C" fn indexset_log_move(alloc: Global, to: &mut LogHandle, from: &mut LogHandle)
    ensures moved { to.new.slot.value ≡ from.old.slot.value }
    ensures left { from.new.slot.value ≡ None }
{
    drop(to.take(alloc));
    swap(to, from);
}

/// Swaps the collections of two handles.
#[unsafe(no_mangle)]
pub extern "C" fn indexset_log_swap(one: &mut LogHandle, other: &mut LogHandle)
    ensures one { one.new.slot.value ≡ other.old.slot.value }
    ensures other { other.new.slot.value ≡ one.old.slot.value }
{
    swap(one, other);
}

/// Returns the number of pairs.
#[unsafe(no_mangle)]
pub extern "C" fn indexset_log_len(alloc: Global, log: &mut LogHandle) -> usize
    ensures value { result ≡ length (logged_pairs log.old.slot.value) }
    ensures unchanged { log.new.slot.value ≡ log.old.slot.value }
{
    let Some(held) = log.take(alloc) else {
        return 0;
    };
    let len = held.len();
    log.put(held);
    len
}

/// Returns the number of the next event.
#[unsafe(no_mangle)]
pub extern "C" fn indexset_log_next(alloc: Global, log: &mut LogHandle) -> u64
    ensures value { result ≡ option_map_or (λ m. m.next) log.old.slot.value 0 }
    ensures unchanged { log.new.slot.value ≡ log.old.slot.value }
{
    let Some(held) = log.take(alloc) else {
        return 0;
    };
    let next = held.events_issued();
    log.put(held);
    next
}
