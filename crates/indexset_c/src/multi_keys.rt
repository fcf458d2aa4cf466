//! Look-ups of keys and of pairs in a multimap.
ghost use Rattle.std.specs.Prelude.{◌≡◌, is_some, length, min, nat_eq};
ghost use Rattle.std.specs.Ordering.{nat_cmp};
ghost use Rattle.indexset_multi.specs.Keys.{equal_pair, has_pair_of};
ghost use Rattle.indexset_ffi.specs.Elements.{numbered_pairs, key_values, written};

use indexset_ffi::multi_calls::{has_pair, write_values};
use indexset_ffi::multi_handle::MultiHandle;
use std::alloc::Global;

/// Returns whether a key has this value.
#[unsafe(no_mangle)]
pub extern "C" fn indexset_multi_contains(
    alloc: Global,
    multi: &mut MultiHandle,
    key: u64,
    value: u64,
) -> bool
    ensures value { result ≡ is_some (equal_pair nat_cmp nat_eq
        (numbered_pairs multi.old.slot.value) key value) }
    ensures unchanged { multi.new.slot.value ≡ multi.old.slot.value }
{
    let Some(held) = multi.take(alloc) else {
        return false;
    };
    let found = has_pair(&held, key, value);
    multi.put(held);
    found
}

/// Returns whether a key is present.
#[unsafe(no_mangle)]
pub extern "C" fn indexset_multi_contains_key(
    alloc: Global,
    multi: &mut MultiHandle,
    key: u64,
) -> bool
    ensures value { result ≡ has_pair_of nat_cmp (numbered_pairs multi.old.slot.value) key }
    ensures unchanged { multi.new.slot.value ≡ multi.old.slot.value }
{
    let Some(held) = multi.take(alloc) else {
        return false;
    };
    let found = held.contains_key(&key);
    multi.put(held);
    found
}

/// Returns the number of values of a key.
#[unsafe(no_mangle)]
pub extern "C" fn indexset_multi_count(alloc: Global, multi: &mut MultiHandle, key: u64) -> usize
    ensures value { result ≡ length (key_values (numbered_pairs multi.old.slot.value) key) }
    ensures unchanged { multi.new.slot.value ≡ multi.old.slot.value }
{
    let Some(held) = multi.take(alloc) else {
        return 0;
    };
    let count = held.get(&key).len();
    multi.put(held);
    count
}

/// Writes as many values of a key as fit, in insertion order. Returns how many it wrote.
#[unsafe(no_mangle)]
pub extern "C" fn indexset_multi_get(
    alloc: Global,
    multi: &mut MultiHandle,
    key: u64,
    out: &mut [u64],
) -> usize
    ensures count { result ≡ min (length (key_values (numbered_pairs multi.old.slot.value) key))
        (length out.old) }
    ensures written { out.new
        ≡ written result (key_values (numbered_pairs multi.old.slot.value) key)
        out.old }
    ensures unchanged { multi.new.slot.value ≡ multi.old.slot.value }
{
    let Some(held) = multi.take(alloc) else {
        return 0;
    };
    let count = write_values(held.get(&key), out);
    multi.put(held);
    count
}
