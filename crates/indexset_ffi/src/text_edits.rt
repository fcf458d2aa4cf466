//! Changes of a map from byte strings.
ghost use Rattle.std.specs.Prelude.{◌≡◌, true, None, IfOk, IsOk, OnErr, OnOk, OnSome};
ghost use Rattle.std.specs.Cmp.Lexicographic.{slice_cmp};
ghost use Rattle.std.specs.Ordering.{nat_cmp};
ghost use Rattle.indexset_core.specs.Pairs.{has_key, put_value, value_of, without_key};

use crate::text_slot::TextMap;
use indexset_core::text::Text;
use std::alloc::{AllocError, Global};
use std::mem::replace;

// Replaces the value of a key, and returns the old value, or `None` if the key is absent.
fn replace_value(map: &mut TextMap, key: &[u8], value: u64) -> Option<u64>
    ensures before { result ≡ value_of (slice_cmp nat_cmp) map.old.pairs key.now }
    ensures ok { OnSome result (map.new.pairs
        ≡ put_value (slice_cmp nat_cmp) map.old.pairs key.now value) }
    ensures unchanged { result ≡ None → map.new ≡ map.old }
{
    match map.get_mut(key) {
        Some(place) => Some(replace(place, value)),
        None => None,
    }
}

/// Inserts a pair, or replaces the value of a present key, and returns the old value.
///
/// The bytes of the key are copied first, so that one search serves a new key and a present one. If
/// memory runs out for the copy, the value of a present key is still replaced.
pub fn put(
    alloc: Global,
    map: &mut TextMap,
    key: &[u8],
    value: u64,
) -> Result<Option<u64>, AllocError>
    ensures before { IfOk result (λ o. o ≡ value_of (slice_cmp nat_cmp) map.old.pairs key.now) }
    ensures ok { OnOk result (map.new.pairs
        ≡ put_value (slice_cmp nat_cmp) map.old.pairs key.now value) }
    ensures unchanged { OnErr result (map.new ≡ map.old) }
    ensures no_memory { has_key (slice_cmp nat_cmp) map.old.pairs key.now ≡ true → IsOk result }
{
    let Ok(copied) = Text::copied_bytes(alloc, key) else {
        return match replace_value(map, key, value) {
            Some(before) => Ok(Some(before)),
            None => Err(AllocError),
        };
    };
    match map.insert(copied, value) {
        Ok(before) => Ok(before),
        Err(_) => Err(AllocError),
    }
}

/// Removes a key, and returns its value, or `None` if it is absent.
pub fn take(map: &mut TextMap, key: &[u8]) -> Option<u64>
    ensures value { result ≡ value_of (slice_cmp nat_cmp) map.old.pairs key.now }
    ensures rest { map.new.pairs ≡ without_key (slice_cmp nat_cmp) map.old.pairs key.now }
    ensures unchanged { result ≡ None → map.new ≡ map.old }
{
    map.remove(key)
}
