//! Changes of a logged map from byte strings, and their events.
ghost use Rattle.std.specs.Prelude.{◌≡◌, ◌≢◌, ◌≤◌, ◌↔◌, [], length, IfSome};
ghost use Rattle.std.specs.Prelude.{None, Some, true, false, slice_get};
ghost use Rattle.std.specs.Cmp.Lexicographic.{slice_cmp};
ghost use Rattle.std.specs.Option.{option_map, option_map_or};
ghost use Rattle.std.specs.Ordering.{nat_cmp};
ghost use Rattle.indexset_core.specs.Pairs.{by_key, pair, value_of};
ghost use Rattle.indexset_core.specs.declared.refusal.Refusal.TheVariants.{Numbers};
ghost use Rattle.indexset_log.specs.Changed.{Changed, key_removal, put_change, refusal_of};
ghost use Rattle.indexset_ffi.specs.Text.{written_over};
ghost use Rattle.indexset_ffi.specs.TextLogs.{after, logged_texts, node_key};
ghost use Rattle.indexset_ffi.specs.TextLogs.{pair_key, text_record, told_changes};

use indexset_ffi::status::{HELD, MEMORY, NO, NONE, NUMBERS, YES, of_refusal};
use indexset_ffi::text_event::{TextEvent, write_change};
use indexset_ffi::text_log_handle::TextLogHandle;
use indexset_ffi::write::write;
use std::alloc::Global;

/// Inserts a pair, or replaces the value of a present key. The bytes of the key are copied.
///
/// The map keeps the events, and the call writes their number. Returns `YES` for a new key. For a
/// present key it writes the old value, and returns `NO`.
///
/// # Errors
///
/// `NONE` if the handle is empty, `MEMORY` or `NUMBERS`. A failed call changes nothing, and writes
/// 0 as the number of events.
#[unsafe(no_mangle)]
pub extern "C" fn indexset_text_log_insert(
    alloc: Global,
    log: &mut TextLogHandle,
    key: &[u8],
    value: u64,
    before: &mut u64,
    event_count: &mut usize,
) -> u32
    // Result.
    ensures before { (result ≡ YES
        → value_of (slice_cmp nat_cmp) (logged_texts log.old.slot.value) key.now ≡ None)
        × (result ≡ NO → value_of (slice_cmp nat_cmp) (logged_texts log.old.slot.value) key.now
        ≡ Some before.new) }
    ensures events { result ≤ YES → event_count.new ≡ length (told_changes log.new.slot.value) }
    ensures at_most_three_events { event_count.new ≤ 3 }
    ensures unwritten { result ≢ NO → before.new ≡ before.old }

    // Contents.
    ensures ok { result ≤ YES → IfSome log.old.slot.value (λ t. log.new.slot.value
        ≡ Some (after t.tree
        (put_change (by_key (slice_cmp nat_cmp)) t.tree (pair key.now value)))) }
    ensures changed { result ≤ YES → IfSome log.old.slot.value (λ t. IfSome log.new.slot.value
        (λ u. Changed (by_key (slice_cmp nat_cmp)) t.tree u.tree
        (put_change (by_key (slice_cmp nat_cmp)) t.tree (pair key.now value)))) }

    // Failure.
    ensures unchanged { MEMORY ≤ result
        → (event_count.new ≡ 0) × (log.new.slot.value ≡ log.old.slot.value) }
    ensures cause { result ≡ NUMBERS → IfSome log.old.slot.value (λ t. refusal_of t.tree
        (put_change (by_key (slice_cmp nat_cmp)) t.tree (pair key.now value)) ≡ Numbers) }
    ensures status { (result ≡ NONE ↔ (log.old.slot.value ≡ None))
        × (result ≤ NUMBERS) × (result ≢ HELD) }
{
    *event_count = 0;
    let Some(mut held) = log.take(alloc) else {
        return NONE;
    };
    let status = match held.insert(alloc, key, value) {
        Ok(old) => {
            *event_count = held.told();
            if write(old, before) { NO } else { YES }
        }
        Err(cause) => of_refusal(cause),
    };
    log.put(held);
    status
}

/// Removes a key, and writes its value.
///
/// The map keeps the events, and the call writes their number. Returns `NO` if the key is absent;
/// the map then keeps the events that it had.
///
/// # Errors
///
/// `MEMORY` or `NUMBERS`. A failed call changes nothing, and writes 0 as the number of events.
#[unsafe(no_mangle)]
pub extern "C" fn indexset_text_log_remove(
    alloc: Global,
    log: &mut TextLogHandle,
    key: &[u8],
    out: &mut u64,
    event_count: &mut usize,
) -> u32
    // Result.
    ensures found { (result ≡ YES
        → value_of (slice_cmp nat_cmp) (logged_texts log.old.slot.value) key.now ≡ Some out.new)
        × (result ≡ NO ↔ (value_of (slice_cmp nat_cmp) (logged_texts log.old.slot.value) key.now
        ≡ None)) }
    ensures events { result ≡ YES → event_count.new ≡ length (told_changes log.new.slot.value) }
    ensures at_most_three_events { event_count.new ≤ 3 }

    // Contents.
    ensures ok { result ≡ YES → IfSome log.old.slot.value (λ t. log.new.slot.value
        ≡ Some (after t.tree (key_removal (slice_cmp nat_cmp) t.tree key.now))) }
    ensures changed { result ≡ YES → IfSome log.old.slot.value (λ t. IfSome log.new.slot.value
        (λ u. Changed (by_key (slice_cmp nat_cmp)) t.tree u.tree
        (key_removal (slice_cmp nat_cmp) t.tree key.now))) }

    // Failure.
    ensures unchanged { result ≢ YES → (out.new ≡ out.old) × (event_count.new ≡ 0)
        × (log.new.slot.value ≡ log.old.slot.value) }
    ensures cause { result ≡ NUMBERS → IfSome log.old.slot.value (λ t. refusal_of t.tree
        (key_removal (slice_cmp nat_cmp) t.tree key.now) ≡ Numbers) }
    ensures status { (result ≤ NUMBERS) × (result ≢ NONE) × (result ≢ HELD) }
{
    *event_count = 0;
    let Some(mut held) = log.take(alloc) else {
        return NO;
    };
    let status = match held.remove(key) {
        Ok(Some(value)) => {
            *event_count = held.told();
            *out = value;
            YES
        }
        Ok(None) => NO,
        Err(cause) => of_refusal(cause),
    };
    log.put(held);
    status
}

/// Writes an event that the map keeps, counted from 0.
///
/// It writes the record, and as many bytes of the key of the node's maximum and of the key of the
/// pair as fit. Returns `false` if the position is past the last event.
#[unsafe(no_mangle)]
pub extern "C" fn indexset_text_log_change(
    alloc: Global,
    log: &mut TextLogHandle,
    i: usize,
    event: &mut TextEvent,
    node: &mut [u8],
    key: &mut [u8],
) -> bool
    // Result.
    ensures found { result ≡ true
        → option_map text_record (slice_get (told_changes log.old.slot.value) i) ≡ Some event.new }
    ensures absent { result ≡ false → slice_get (told_changes log.old.slot.value) i ≡ None }
    ensures node { node.new ≡ written_over
        (option_map_or node_key (slice_get (told_changes log.old.slot.value) i) []) node.old }
    ensures key { key.new ≡ written_over
        (option_map_or pair_key (slice_get (told_changes log.old.slot.value) i) []) key.old }
    ensures unwritten { result ≡ false → event.new ≡ event.old }

    // Contents.
    ensures unchanged { log.new.slot.value ≡ log.old.slot.value }
{
    let Some(held) = log.take(alloc) else {
        return false;
    };
    let found = match held.change(i) {
        Some(change) => {
            write_change(change, event, node, key);
            true
        }
        None => false,
    };
    log.put(held);
    found
}
