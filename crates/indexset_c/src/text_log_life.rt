//! Creation and release of a logged map from byte strings, and its size.
ghost use Rattle.std.specs.Prelude.{◌≡◌, ◌≢◌, ◌<◌, ◌↔◌, [], Some, None};
ghost use Rattle.std.specs.Prelude.{false, true, length, is_some, option_map};
ghost use Rattle.std.specs.Option.{option_map_or};
ghost use Rattle.indexset_ffi.specs.TextLogs.{logged_texts, untold};

use indexset_ffi::status::{HELD, MEMORY, UNFIT, YES};
use indexset_ffi::text_log::TextLog;
use indexset_ffi::text_log_handle::TextLogHandle;
use indexset_ffi::text_log_owner::TextLogOwner;
use std::alloc::Global;
use std::mem::swap;

/// Makes an empty map with at most `size` pairs in a node, whose first event has the number `next`.
///
/// # Errors
///
/// `HELD` if the handle is not empty, `UNFIT` if `size` is less than 2, or `MEMORY`. A failed call
/// changes nothing.
#[unsafe(no_mangle)]
pub extern "C" fn indexset_text_log_new(
    alloc: Global,
    log: &mut TextLogHandle,
    size: usize,
    next: u64,
) -> u32
    // Contents.
    ensures made { result ≡ YES → log.new.slot.value
        ≡ Some (untold size next) }

    // Failure.
    ensures refused { result ≢ YES → log.new.slot.value ≡ log.old.slot.value }
    ensures held { result ≡ HELD ↔ (is_some log.old.slot.value ≡ true) }
    ensures unfit { is_some log.old.slot.value ≡ false → (result ≡ UNFIT ↔ (size < 2)) }
    ensures status { result ≢ YES → result ≢ HELD → result ≢ UNFIT → result ≡ MEMORY }
{
    if let Some(held) = log.take(alloc) {
        log.put(held);
        return HELD;
    }
    if size < 2 {
        return UNFIT;
    }
    match Box::new(alloc, TextLog::starting_at(alloc, size, next)) {
        Ok(made) => {
            log.put(made);
            YES
        }
        Err(_) => MEMORY,
    }
}

/// Frees a map, and leaves its handle empty.
#[unsafe(no_mangle)]
pub extern "C" fn indexset_text_log_free(alloc: Global, log: &mut TextLogHandle)
    ensures { log.new.slot.value ≡ None }
{
    drop(log.take(alloc));
}

/// Makes a handle on the heap with an empty map, as `indexset_text_log_new` does.
///
/// # Errors
///
/// `UNFIT` if `size` is less than 2, or `MEMORY`. A failed call changes nothing.
#[unsafe(no_mangle)]
pub extern "C" fn indexset_text_log_create(
    alloc: Global,
    log: &mut TextLogOwner,
    size: usize,
    next: u64,
) -> u32
    ensures made { result ≡ YES → option_map (λ h. h.slot.value) log.new.value
        ≡ Some (Some (untold size next)) }
    ensures refused { result ≢ YES → log.new.value ≡ log.old.value }
    ensures unfit { result ≡ UNFIT ↔ (size < 2) }
    ensures status { result ≢ YES → result ≢ UNFIT → result ≡ MEMORY }
{
    if size < 2 {
        return UNFIT;
    }
    let Ok(mut handle) = Box::new(alloc, TextLogHandle::none(alloc)) else {
        return MEMORY;
    };
    let status = indexset_text_log_new(alloc, &mut *handle, size, next);
    if status == YES {
        log.put(handle);
    }
    status
}

/// Frees a handle on the heap and its collection.
#[unsafe(no_mangle)]
pub extern "C" fn indexset_text_log_destroy(alloc: Global, log: &mut TextLogOwner)
    requires { is_some log.old.value ≡ true }
    ensures { log.new.value ≡ None }
{
    let mut handle = log.take(alloc);
    indexset_text_log_free(alloc, &mut *handle);
}

/// Moves a logged map from byte strings from the handle `from` to `to`, and leaves `from` empty.
///
/// A map that `to` had is freed.
#[unsafe(no_mangle)]
pub extern "C" fn indexset_text_log_move(
    alloc: Global,
    to: &mut TextLogHandle,
    from: &mut TextLogHandle,
)
    ensures moved { to.new.slot.value ≡ from.old.slot.value }
    ensures left { from.new.slot.value ≡ None }
{
    drop(to.take(alloc));
    swap(to, from);
}

/// Swaps the collections of two handles.
#[unsafe(no_mangle)]
pub extern "C" fn indexset_text_log_swap(one: &mut TextLogHandle, other: &mut TextLogHandle)
    ensures one { one.new.slot.value ≡ other.old.slot.value }
    ensures other { other.new.slot.value ≡ one.old.slot.value }
{
    swap(one, other);
}

/// Returns the number of pairs.
#[unsafe(no_mangle)]
pub extern "C" fn indexset_text_log_len(alloc: Global, log: &mut TextLogHandle) -> usize
    ensures value { result ≡ length (logged_texts log.old.slot.value) }
    ensures unchanged { log.new.slot.value ≡ log.old.slot.value }
{
    let Some(held) = log.take(alloc) else {
        return 0;
    };
    let len = held.len();
    log.put(held);
    len
}

/// Returns the number of the next event.
#[unsafe(no_mangle)]
pub extern "C" fn indexset_text_log_next(alloc: Global, log: &mut TextLogHandle) -> u64
    ensures value { result ≡ option_map_or (λ t. t.tree.next) log.old.slot.value 0 }
    ensures unchanged { log.new.slot.value ≡ log.old.slot.value }
{
    let Some(held) = log.take(alloc) else {
        return 0;
    };
    let next = held.next();
    log.put(held);
    next
}

/// Returns the number of nodes.
#[unsafe(no_mangle)]
pub extern "C" fn indexset_text_log_node_count(alloc: Global, log: &mut TextLogHandle) -> usize
    ensures value { result ≡ option_map_or (λ t. length t.tree.nodes) log.old.slot.value 0 }
    ensures unchanged { log.new.slot.value ≡ log.old.slot.value }
{
    let Some(held) = log.take(alloc) else {
        return 0;
    };
    let count = held.node_count();
    log.put(held);
    count
}
