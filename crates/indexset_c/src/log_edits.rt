//! Changes of a logged map, which return their events.
ghost use Rattle.std.specs.Prelude.{◌≡◌, ◌≢◌, ◌+◌, ◌<◌, ◌≤◌, ◌↔◌, length, IfSome, None, Some};
ghost use Rattle.std.specs.Ordering.{nat_cmp};
ghost use Rattle.indexset_core.specs.Pairs.{by_key, pair, value_of, without_key};
ghost use Rattle.indexset_log.specs.Changed.{Changed, key_removal};
ghost use Rattle.indexset_events.specs.Edits.{with_put};
ghost use Rattle.indexset_events.specs.Keys.{key_removal_events};
ghost use Rattle.indexset_events.specs.Replay.{numbered_from, replay};
ghost use Rattle.indexset_events.specs.Table.{put_events};
ghost use Rattle.indexset_log.specs.Tree.{refusal_for};
ghost use Rattle.indexset_ffi.specs.Elements.{logged_pairs};
ghost use Rattle.indexset_ffi.specs.Events.{IsWritten};
ghost use Rattle.indexset_ffi.specs.Statuses.{IsToldAs};

use indexset_ffi::event::Event;
use indexset_ffi::log_calls::{insert_told, remove_told};
use indexset_ffi::log_handle::LogHandle;
use indexset_ffi::status::{HELD, MEMORY, NO, NONE, UNFIT, YES, of_refusal};
use indexset_ffi::write::write;
use std::alloc::Global;

/// Inserts a pair, or replaces the value of a present key, and writes the events and their number.
///
/// Returns `YES` for a new key. For a present key it writes the old value, and returns `NO`.
///
/// # Errors
///
/// `UNFIT` if there is space for fewer than three events, `NONE` if the handle is empty, `MEMORY`
/// or `NUMBERS`. A failed call changes nothing, and writes 0 as the number of events.
#[unsafe(no_mangle)]
pub extern "C" fn indexset_log_insert(
    alloc: Global,
    log: &mut LogHandle,
    key: u64,
    value: u64,
    before: &mut u64,
    events: &mut [Event],
    event_count: &mut usize,
) -> u32
    // Result.
    ensures before { (result ≡ YES
        → value_of nat_cmp (logged_pairs log.old.slot.value) key ≡ None)
        × (result ≡ NO
        → value_of nat_cmp (logged_pairs log.old.slot.value) key ≡ Some before.new) }
    ensures events { result ≤ YES → IfSome log.old.slot.value (λ m. IsWritten m
        (put_events (by_key nat_cmp) m.size m.nodes (pair key value)) event_count.new events.old
        events.new) }
    ensures at_most_three_events { event_count.new ≤ 3 }
    ensures unwritten { result ≢ NO → before.new ≡ before.old }

    // Contents.
    ensures ok { result ≤ YES → IfSome log.old.slot.value
        (λ m. log.new.slot.value ≡ Some (record {
          nodes = with_put (by_key nat_cmp) m.size m.nodes (pair key value);
          size = m.size;
          next = m.next + event_count.new;
        })) }

    // Failure.
    ensures unchanged { MEMORY ≤ result → (event_count.new ≡ 0) × (events.new ≡ events.old)
        × (log.new.slot.value ≡ log.old.slot.value) }
    ensures cause { IfSome log.old.slot.value (λ m. IsToldAs result (refusal_for m.next
        (length (put_events (by_key nat_cmp) m.size m.nodes (pair key value))))) }
    ensures status { (result ≡ NONE ↔ (log.old.slot.value ≡ None))
        × (result ≡ UNFIT ↔ ((log.old.slot.value ≢ None) × (length events.old < 3)))
        × (result ≤ UNFIT) × (result ≢ HELD) }

    // Nodes.
    ensures led { result ≤ YES → IfSome log.old.slot.value (λ m. IfSome log.new.slot.value (λ n.
        replay (by_key nat_cmp) m.nodes (numbered_from m.next
        (put_events (by_key nat_cmp) m.size m.nodes (pair key value))) ≡ Some n.nodes)) }
{
    *event_count = 0;
    let Some(mut held) = log.take(alloc) else {
        return NONE;
    };
    if events.len() < 3 {
        log.put(held);
        return UNFIT;
    }
    let status = match insert_told(&mut *held, key, value, events) {
        Ok((old, count)) => {
            *event_count = count;
            if write(old, before) { NO } else { YES }
        }
        Err(cause) => of_refusal(cause),
    };
    log.put(held);
    status
}

/// Removes a key, and writes its value, the events and their number.
///
/// Returns `NO` if the key is absent.
///
/// # Errors
///
/// `UNFIT` if there is space for fewer than three events, `MEMORY` or `NUMBERS`. A failed call
/// changes nothing, and writes 0 as the number of events.
#[unsafe(no_mangle)]
#[tactic(auto, unfolding(indexset_core::specs::Order::unequal))]
pub extern "C" fn indexset_log_remove(
    alloc: Global,
    log: &mut LogHandle,
    key: u64,
    out: &mut u64,
    events: &mut [Event],
    event_count: &mut usize,
) -> u32
    // Result.
    ensures found { (result ≡ YES
        → value_of nat_cmp (logged_pairs log.old.slot.value) key ≡ Some out.new)
        × (result ≡ NO → value_of nat_cmp (logged_pairs log.old.slot.value) key ≡ None)
        × (value_of nat_cmp (logged_pairs log.old.slot.value) key ≡ None
        → 3 ≤ length events.old → result ≡ NO) }
    ensures events { result ≤ YES → IfSome log.old.slot.value (λ m. IsWritten m
        (key_removal_events nat_cmp m.size m.nodes key) event_count.new events.old events.new) }
    ensures at_most_three_events { event_count.new ≤ 3 }

    // Contents.
    ensures rest { result ≤ YES → logged_pairs log.new.slot.value
        ≡ without_key nat_cmp (logged_pairs log.old.slot.value) key }
    ensures changed { result ≡ YES → IfSome log.old.slot.value (λ m. IfSome log.new.slot.value
        (λ n. Changed (by_key nat_cmp) m n (key_removal nat_cmp m key))) }
    ensures contains { (log.new.slot.value ≡ None) ↔ (log.old.slot.value ≡ None) }

    // Failure.
    ensures unchanged { result ≢ YES
        → (out.new ≡ out.old) × (event_count.new ≡ 0) × (events.new ≡ events.old)
        × (log.new.slot.value ≡ log.old.slot.value) }
    ensures cause { IfSome log.old.slot.value (λ m. IsToldAs result (refusal_for m.next
        (length (key_removal_events nat_cmp m.size m.nodes key)))) }
    ensures status { (result ≡ UNFIT ↔ ((log.old.slot.value ≢ None) × (length events.old < 3)))
        × (result ≤ UNFIT) × (result ≢ NONE) × (result ≢ HELD) }
{
    *event_count = 0;
    let Some(mut held) = log.take(alloc) else {
        return NO;
    };
    if events.len() < 3 {
        log.put(held);
        return UNFIT;
    }
    let status = match remove_told(&mut *held, key, events) {
        Ok((found, count)) => {
            *event_count = count;
            if write(found, out) { YES } else { NO }
        }
        Err(cause) => of_refusal(cause),
    };
    log.put(held);
    status
}
