//! Look-ups by key in a logged map from byte strings.
ghost use Rattle.std.specs.Prelude.{◌≡◌, Some, None, true, false};
ghost use Rattle.std.specs.Cmp.Lexicographic.{slice_cmp};
ghost use Rattle.std.specs.Ordering.{nat_cmp};
ghost use Rattle.indexset_core.specs.Pairs.{has_key, key_rank, value_of};
ghost use Rattle.indexset_ffi.specs.Elements.{key_count_up_to};
ghost use Rattle.indexset_ffi.specs.TextLogs.{logged_texts};

use indexset_ffi::text_log_handle::TextLogHandle;
use indexset_ffi::write::write;
use std::alloc::Global;

/// Writes the value of a key. Returns `false` if the key is absent.
#[unsafe(no_mangle)]
pub extern "C" fn indexset_text_log_get(
    alloc: Global,
    log: &mut TextLogHandle,
    key: &[u8],
    out: &mut u64,
) -> bool
    ensures found { result ≡ true → value_of (slice_cmp nat_cmp) (logged_texts log.old.slot.value)
        key.now ≡ Some out.new }
    ensures absent { result ≡ false → value_of (slice_cmp nat_cmp) (logged_texts log.old.slot.value)
        key.now ≡ None }
    ensures unwritten { result ≡ false → out.new ≡ out.old }
    ensures unchanged { log.new.slot.value ≡ log.old.slot.value }
{
    let Some(held) = log.take(alloc) else {
        return false;
    };
    let found = held.get(key);
    log.put(held);
    write(found, out)
}

/// Returns whether a key is present.
#[unsafe(no_mangle)]
#[tactic(auto, using(crate::proofs::PairLemmas::value_there))]
pub extern "C" fn indexset_text_log_contains(
    alloc: Global,
    log: &mut TextLogHandle,
    key: &[u8],
) -> bool
    ensures value { result ≡ has_key (slice_cmp nat_cmp) (logged_texts log.old.slot.value) key.now }
    ensures unchanged { log.new.slot.value ≡ log.old.slot.value }
{
    let Some(held) = log.take(alloc) else {
        return false;
    };
    let found = held.get(key).is_some();
    log.put(held);
    found
}

/// Returns how many keys are less than this one.
#[unsafe(no_mangle)]
pub extern "C" fn indexset_text_log_rank(
    alloc: Global,
    log: &mut TextLogHandle,
    key: &[u8],
) -> usize
    ensures value { result
        ≡ key_rank (slice_cmp nat_cmp) (logged_texts log.old.slot.value) key.now }
    ensures unchanged { log.new.slot.value ≡ log.old.slot.value }
{
    let Some(held) = log.take(alloc) else {
        return 0;
    };
    let below = held.rank(key);
    log.put(held);
    below
}

/// Returns how many keys are at most this one.
#[unsafe(no_mangle)]
pub extern "C" fn indexset_text_log_count_up_to(
    alloc: Global,
    log: &mut TextLogHandle,
    key: &[u8],
) -> usize
    ensures value { result
        ≡ key_count_up_to (slice_cmp nat_cmp) (logged_texts log.old.slot.value) key.now }
    ensures unchanged { log.new.slot.value ≡ log.old.slot.value }
{
    let Some(held) = log.take(alloc) else {
        return 0;
    };
    let count = held.count_up_to(key);
    log.put(held);
    count
}
