//! Creation and release of a replica, its length, its node count and the awaited event number.
ghost use Rattle.std.specs.Prelude.{◌≡◌, ◌≢◌, ◌↔◌, [], Some, None};
ghost use Rattle.std.specs.Prelude.{length, is_some, option_map, true};
ghost use Rattle.std.specs.Option.{option_map_or};
ghost use Rattle.indexset_ffi.specs.Replicas.{copied_nodes, copied_pairs, replica_of};

use indexset_ffi::log_handle::LogHandle;
use indexset_ffi::replica_calls::replica_of;
use indexset_ffi::replica_handle::ReplicaHandle;
use indexset_ffi::replica_owner::ReplicaOwner;
use indexset_ffi::status::{HELD, MEMORY, NONE, YES};
use indexset_replica::Replica;
use std::alloc::Global;
use std::mem::swap;

/// Makes an empty replica that awaits the event with the number `next`.
///
/// # Errors
///
/// `HELD` if the handle is not empty, or `MEMORY`. A failed call changes nothing.
#[unsafe(no_mangle)]
pub extern "C" fn indexset_replica_new(alloc: Global, replica: &mut ReplicaHandle, next: u64) -> u32
    ensures made { result ≡ YES → replica.new.slot.value
        ≡ Some (record { nodes = []; next = next }) }
    ensures refused { result ≢ YES → replica.new.slot.value ≡ replica.old.slot.value }
    ensures held { result ≡ HELD ↔ (is_some replica.old.slot.value ≡ true) }
    ensures status { result ≢ YES → result ≢ HELD → result ≡ MEMORY }
{
    if let Some(held) = replica.take(alloc) {
        replica.put(held);
        return HELD;
    }
    match Box::new(alloc, Replica::new(alloc, next)) {
        Ok(made) => {
            replica.put(made);
            YES
        }
        Err(_) => MEMORY,
    }
}

/// Makes a replica that has the nodes of a logged map and awaits its next event.
///
/// The logged map is unchanged.
///
/// # Errors
///
/// `NONE` if the handle of the logged map is empty, `HELD` if that of the replica is not, or
/// `MEMORY`. A failed call changes nothing.
#[unsafe(no_mangle)]
pub extern "C" fn indexset_replica_from_log(
    alloc: Global,
    replica: &mut ReplicaHandle,
    log: &mut LogHandle,
) -> u32
    // Contents.
    ensures made { result ≡ YES → replica.new.slot.value
        ≡ option_map replica_of log.old.slot.value }
    ensures unchanged { log.new.slot.value ≡ log.old.slot.value }

    // Failure.
    ensures refused { result ≢ YES → replica.new.slot.value ≡ replica.old.slot.value }
    ensures none { result ≡ NONE ↔ (log.old.slot.value ≡ None) }
    ensures held { log.old.slot.value ≢ None
        → (result ≡ HELD ↔ (is_some replica.old.slot.value ≡ true)) }
    ensures status { result ≢ YES → result ≢ NONE → result ≢ HELD → result ≡ MEMORY }
{
    let Some(held) = log.take(alloc) else {
        return NONE;
    };
    if let Some(other) = replica.take(alloc) {
        replica.put(other);
        log.put(held);
        return HELD;
    }
    let made = replica_of(alloc, &held);
    log.put(held);
    let Some(made) = made else {
        return MEMORY;
    };
    match Box::new(alloc, made) {
        Ok(made) => {
            replica.put(made);
            YES
        }
        Err(_) => MEMORY,
    }
}

/// Frees a replica, and leaves its handle empty.
#[unsafe(no_mangle)]
pub extern "C" fn indexset_replica_free(alloc: Global, replica: &mut ReplicaHandle)
    ensures { replica.new.slot.value ≡ None }
{
    drop(replica.take(alloc));
}

/// Makes a handle on the heap with an empty replica, as `indexset_replica_new` does.
///
/// # Errors
///
/// `MEMORY`. A failed call changes nothing.
#[unsafe(no_mangle)]
pub extern "C" fn indexset_replica_create(
    alloc: Global,
    replica: &mut ReplicaOwner,
    next: u64,
) -> u32
    ensures made { result ≡ YES → option_map (λ h. h.slot.value) replica.new.value
        ≡ Some (Some (record { nodes = []; next = next })) }
    ensures refused { result ≢ YES → replica.new.value ≡ replica.old.value }
    ensures status { result ≢ YES → result ≡ MEMORY }
{
    let Ok(mut handle) = Box::new(alloc, ReplicaHandle::none(alloc)) else {
        return MEMORY;
    };
    let status = indexset_replica_new(alloc, &mut *handle, next);
    if status == YES {
        replica.put(handle);
    }
    status
}

/// Frees a handle on the heap and its collection.
#[unsafe(no_mangle)]
pub extern "C" fn indexset_replica_destroy(alloc: Global, replica: &mut ReplicaOwner)
    requires { is_some replica.old.value ≡ true }
    ensures { replica.new.value ≡ None }
{
    let mut handle = replica.take(alloc);
    indexset_replica_free(alloc, &mut *handle);
}

/// Moves a replica from the handle `from` to `to`, and leaves `from` empty.
///
/// A replica that `to` had is freed.
#[unsafe(no_mangle)]
pub extern "C" fn indexset_replica_move(
    alloc: Global,
    to: &mut ReplicaHandle,
    from: &mut ReplicaHandle,
)
    ensures moved { to.new.slot.value ≡ from.old.slot.value }
    ensures left { from.new.slot.value ≡ None }
{
    drop(to.take(alloc));
    swap(to, from);
}

/// Swaps the collections of two handles.
#[unsafe(no_mangle)]
pub extern "C" fn indexset_replica_swap(one: &mut ReplicaHandle, other: &mut ReplicaHandle)
    ensures one { one.new.slot.value ≡ other.old.slot.value }
    ensures other { other.new.slot.value ≡ one.old.slot.value }
{
    swap(one, other);
}

/// Returns the number of pairs, in constant time.
#[unsafe(no_mangle)]
pub extern "C" fn indexset_replica_len(alloc: Global, replica: &mut ReplicaHandle) -> usize
    ensures value { result ≡ length (copied_pairs replica.old.slot.value) }
    ensures unchanged { replica.new.slot.value ≡ replica.old.slot.value }
{
    let Some(held) = replica.take(alloc) else {
        return 0;
    };
    let len = held.len();
    replica.put(held);
    len
}

/// Returns the number of nodes.
#[unsafe(no_mangle)]
pub extern "C" fn indexset_replica_node_count(alloc: Global, replica: &mut ReplicaHandle) -> usize
    ensures value { result ≡ length (copied_nodes replica.old.slot.value) }
    ensures unchanged { replica.new.slot.value ≡ replica.old.slot.value }
{
    let Some(held) = replica.take(alloc) else {
        return 0;
    };
    let count = held.nodes().len();
    replica.put(held);
    count
}

/// Returns the number of the awaited event.
#[unsafe(no_mangle)]
pub extern "C" fn indexset_replica_next(alloc: Global, replica: &mut ReplicaHandle) -> u64
    ensures value { result ≡ option_map_or (λ r. r.next) replica.old.slot.value 0 }
    ensures unchanged { replica.new.slot.value ≡ replica.old.slot.value }
{
    let Some(held) = replica.take(alloc) else {
        return 0;
    };
    let next = held.next();
    replica.put(held);
    next
}
