//! Application of events to a replica.
ghost use Rattle.std.specs.Prelude.{◌≡◌, ◌≢◌, ◌<◌, ◌≤◌, ◌↔◌, length, take};
ghost use Rattle.std.specs.Prelude.{unwrap_or, IfSome, None, Some, slice_get};
ghost use Rattle.indexset_ffi.specs.Replicas.{applied, applied_all, refused};

use indexset_ffi::event::Event;
use indexset_ffi::replica_calls::{apply_each, apply_record};
use indexset_ffi::replica_handle::ReplicaHandle;
use indexset_ffi::status::{MEMORY, NO, NONE, YES};
use std::alloc::Global;

/// Applies an event of a logged map.
///
/// Returns `NO` for an event that came before, without applying it.
///
/// # Errors
///
/// `MEMORY`, `NONE` if the handle is empty, or the status of the refusal: the event is not the
/// awaited one, or does not fit the nodes. A failed call changes nothing.
#[unsafe(no_mangle)]
pub extern "C" fn indexset_replica_apply(
    alloc: Global,
    replica: &mut ReplicaHandle,
    event: &Event,
) -> u32
    // Contents.
    ensures ok { result ≤ YES → IfSome replica.old.slot.value
        (λ r. replica.new.slot.value ≡ applied r event.now) }
    ensures contains { (replica.new.slot.value ≡ None) ↔ (replica.old.slot.value ≡ None) }

    // Failure.
    ensures fits { result ≡ YES → IfSome replica.old.slot.value (λ r. refused r event.now ≡ None) }
    ensures refusal { result ≢ YES → IfSome replica.old.slot.value
        (λ r. result ≡ unwrap_or (refused r event.now) MEMORY) }
    ensures none { result ≡ NONE ↔ (replica.old.slot.value ≡ None) }
    ensures unchanged { result ≢ YES → replica.new.slot.value ≡ replica.old.slot.value }
{
    let Some(mut held) = replica.take(alloc) else {
        return NONE;
    };
    let status = apply_record(&mut held, event);
    replica.put(held);
    status
}

/// Applies events of a logged map in order, ignoring each that came before.
///
/// Writes how many events were taken.
///
/// # Errors
///
/// The status of the first event that fails, as `indexset_replica_apply` returns it; the events
/// before it were taken. `NONE` if the handle is empty.
#[unsafe(no_mangle)]
pub extern "C" fn indexset_replica_apply_all(
    alloc: Global,
    replica: &mut ReplicaHandle,
    events: &[Event],
    taken: &mut usize,
) -> u32
    // Result.
    ensures all { result ≡ YES → taken.new ≡ length events.now }

    // Contents.
    ensures applied { IfSome replica.old.slot.value
        (λ r. replica.new.slot.value ≡ applied_all r (take taken.new events.now)) }
    ensures contains { (replica.new.slot.value ≡ None) ↔ (replica.old.slot.value ≡ None) }

    // Failure.
    ensures some { result ≢ YES → result ≢ NONE → taken.new < length events.now }
    ensures refusal { result ≢ YES → IfSome replica.new.slot.value
        (λ r. IfSome (slice_get events.now taken.new)
        (λ e. result ≡ unwrap_or (refused r e) MEMORY)) }
    ensures none { result ≡ NONE ↔ (replica.old.slot.value ≡ None) }
    ensures unchanged { result ≡ NONE → (taken.new ≡ 0) × (replica.new.slot.value ≡ None) }
    ensures status { result ≢ NO }
{
    *taken = 0;
    let Some(mut held) = replica.take(alloc) else {
        return NONE;
    };
    let (status, count) = apply_each(&mut held, events);
    replica.put(held);
    *taken = count;
    status
}
