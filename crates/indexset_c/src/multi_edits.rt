//! Changes of a multimap.
ghost use Rattle.std.specs.Prelude.{◌≡◌, ◌≢◌, ◌≤◌, ◌↔◌, ◌∷◌, ◌++◌, [], drop, length, ℕ};
ghost use Rattle.std.specs.Prelude.{false, true, is_some, IfSome, nat_eq, None, Some};
ghost use Rattle.std.specs.Ordering.{is_eq, nat_cmp};
ghost use Rattle.std.specs.Option.{option_map};
ghost use Rattle.indexset_core.specs.MultiPairs.{by_number, numbered_pair};
ghost use Rattle.indexset_core.specs.Nodes.{concat};
ghost use Rattle.indexset_core.specs.Order.{put};
ghost use Rattle.indexset_multi.specs.Changed.{addition, addition_refusal};
ghost use Rattle.indexset_multi.specs.Keys.{equal_pair, first_pair, pairs_of};
ghost use Rattle.indexset_multi.specs.Keys.{without_first, without_named};
ghost use Rattle.indexset_multi.specs.Tree.{after_insertion, after_pair_removal};
ghost use Rattle.indexset_multi.specs.Tree.{insertion_refusal, pair_removal_events};
ghost use Rattle.indexset_log.specs.Tree.{refusal_for};
ghost use Rattle.indexset_ffi.specs.Elements.{numbered_pairs, key_values};
ghost use Rattle.indexset_ffi.specs.Statuses.{IsToldAs};

use indexset_ffi::multi_calls::{has_pair, insert_new};
use indexset_ffi::multi_handle::MultiHandle;
use indexset_ffi::status::{HELD, NO, NONE, NUMBERS, YES, of_refusal};
use std::alloc::Global;

/// Adds a value as the last of a key, unless the key has it.
///
/// Returns `NO` if the key has it.
///
/// # Errors
///
/// `NONE` if the handle is empty, `MEMORY` or `NUMBERS`. A failed call changes nothing.
#[unsafe(no_mangle)]
pub extern "C" fn indexset_multi_insert(
    alloc: Global,
    multi: &mut MultiHandle,
    key: u64,
    value: u64,
) -> u32
    // Result.
    ensures contains { result ≡ NO ↔ (is_some
        (equal_pair nat_cmp nat_eq (numbered_pairs multi.old.slot.value) key value) ≡ true) }

    // Contents.
    ensures ok { result ≡ YES → IfSome multi.old.slot.value
        (λ m. numbered_pairs multi.new.slot.value
        ≡ put (by_number nat_cmp) (concat m.nodes) (numbered_pair key value m.pair_next)) }
    ensures last { result ≡ YES → key_values (numbered_pairs multi.new.slot.value) key
        ≡ key_values (numbered_pairs multi.old.slot.value) key ++ value ∷ [] }
    ensures others { result ≡ YES → (other : ℕ) → is_eq (nat_cmp other key) ≡ false
        → pairs_of nat_cmp (numbered_pairs multi.new.slot.value) other
        ≡ pairs_of nat_cmp (numbered_pairs multi.old.slot.value) other }

    // Failure.
    ensures unchanged { result ≢ YES → multi.new.slot.value ≡ multi.old.slot.value }
    ensures none { result ≡ NONE ↔ (multi.old.slot.value ≡ None) }
    ensures cause { IfSome multi.old.slot.value
        (λ m. IsToldAs result (insertion_refusal nat_cmp nat_eq m key value)) }
    ensures status { (result ≤ NUMBERS) × (result ≢ HELD) }

    // Nodes.
    ensures tree { result ≡ YES → IfSome multi.old.slot.value (λ m. multi.new.slot.value
        ≡ Some (after_insertion nat_cmp nat_eq m key value)) }
{
    let Some(mut held) = multi.take(alloc) else {
        return NONE;
    };
    if has_pair(&held, key, value) {
        multi.put(held);
        return NO;
    }
    let status = match insert_new(&mut *held, key, value) {
        Ok(()) => YES,
        Err(cause) => of_refusal(cause),
    };
    multi.put(held);
    status
}

/// Adds a value as the last of a key, without comparing values.
///
/// # Errors
///
/// `NONE` if the handle is empty, `MEMORY` or `NUMBERS`. A failed call changes nothing.
#[unsafe(no_mangle)]
pub extern "C" fn indexset_multi_push(
    alloc: Global,
    multi: &mut MultiHandle,
    key: u64,
    value: u64,
) -> u32
    // Contents.
    ensures last { result ≡ YES → key_values (numbered_pairs multi.new.slot.value) key
        ≡ key_values (numbered_pairs multi.old.slot.value) key ++ value ∷ [] }
    ensures others { result ≡ YES → (other : ℕ) → is_eq (nat_cmp other key) ≡ false
        → pairs_of nat_cmp (numbered_pairs multi.new.slot.value) other
        ≡ pairs_of nat_cmp (numbered_pairs multi.old.slot.value) other }

    // Failure.
    ensures unchanged { result ≢ YES → multi.new.slot.value ≡ multi.old.slot.value }
    ensures none { result ≡ NONE ↔ (multi.old.slot.value ≡ None) }
    ensures cause { IfSome multi.old.slot.value
        (λ m. IsToldAs result (addition_refusal nat_cmp m key value)) }
    ensures status { (result ≤ NUMBERS) × (result ≢ NO) × (result ≢ HELD) }

    // Nodes.
    ensures tree { result ≡ YES → IfSome multi.old.slot.value (λ m. multi.new.slot.value
        ≡ Some (addition nat_cmp m key value).tree) }
{
    let Some(mut held) = multi.take(alloc) else {
        return NONE;
    };
    let status = match held.push(key, value) {
        Ok(()) => YES,
        Err(refused) => of_refusal(refused.cause),
    };
    multi.put(held);
    status
}

/// Removes a value of a key.
///
/// Returns `NO` if the key does not have it.
///
/// # Errors
///
/// `MEMORY` or `NUMBERS`. A failed call changes nothing.
#[unsafe(no_mangle)]
pub extern "C" fn indexset_multi_remove(
    alloc: Global,
    multi: &mut MultiHandle,
    key: u64,
    value: u64,
) -> u32
    // Result.
    ensures absent { result ≡ NO ↔ (equal_pair nat_cmp nat_eq (numbered_pairs multi.old.slot.value)
        key value ≡ None) }

    // Contents.
    ensures ok { result ≡ YES → numbered_pairs multi.new.slot.value
        ≡ without_named nat_cmp (numbered_pairs multi.old.slot.value)
        (equal_pair nat_cmp nat_eq (numbered_pairs multi.old.slot.value) key value) }
    ensures gone { result ≡ YES → pairs_of nat_cmp (numbered_pairs multi.new.slot.value) key
        ≡ without_first (λ p. nat_eq p.value value)
        (pairs_of nat_cmp (numbered_pairs multi.old.slot.value) key) }
    ensures others { result ≡ YES → (other : ℕ) → is_eq (nat_cmp other key) ≡ false
        → pairs_of nat_cmp (numbered_pairs multi.new.slot.value) other
        ≡ pairs_of nat_cmp (numbered_pairs multi.old.slot.value) other }

    // Failure.
    ensures unchanged { result ≢ YES → multi.new.slot.value ≡ multi.old.slot.value }
    ensures cause { IfSome multi.old.slot.value (λ m. IsToldAs result (refusal_for m.next
        (length (pair_removal_events nat_cmp m.size m.nodes
        (equal_pair nat_cmp nat_eq (concat m.nodes) key value))))) }
    ensures status { (result ≤ NUMBERS) × (result ≢ NONE) × (result ≢ HELD) }

    // Nodes.
    ensures tree { result ≡ YES → IfSome multi.old.slot.value (λ m. multi.new.slot.value
        ≡ Some
        (after_pair_removal nat_cmp m (equal_pair nat_cmp nat_eq (concat m.nodes) key value))) }
{
    let Some(mut held) = multi.take(alloc) else {
        return NO;
    };
    let status = match held.remove(&key, &value) {
        Ok(Some(_)) => YES,
        Ok(None) => NO,
        Err(cause) => of_refusal(cause),
    };
    multi.put(held);
    status
}

/// Removes the first value of a key, and writes it.
///
/// Returns `NO` if the key has none.
///
/// # Errors
///
/// `MEMORY` or `NUMBERS`. A failed call changes nothing.
#[unsafe(no_mangle)]
pub extern "C" fn indexset_multi_remove_first(
    alloc: Global,
    multi: &mut MultiHandle,
    key: u64,
    out: &mut u64,
) -> u32
    // Result.
    ensures found { result ≡ YES → option_map (λ p. p.value)
        (first_pair nat_cmp (numbered_pairs multi.old.slot.value) key) ≡ Some out.new }
    ensures absent { result ≡ NO ↔ (first_pair nat_cmp (numbered_pairs multi.old.slot.value) key
        ≡ None) }

    // Contents.
    ensures ok { result ≡ YES → numbered_pairs multi.new.slot.value
        ≡ without_named nat_cmp (numbered_pairs multi.old.slot.value)
        (first_pair nat_cmp (numbered_pairs multi.old.slot.value) key) }
    ensures gone { result ≡ YES → pairs_of nat_cmp (numbered_pairs multi.new.slot.value) key
        ≡ drop 1 (pairs_of nat_cmp (numbered_pairs multi.old.slot.value) key) }
    ensures others { result ≡ YES → (other : ℕ) → is_eq (nat_cmp other key) ≡ false
        → pairs_of nat_cmp (numbered_pairs multi.new.slot.value) other
        ≡ pairs_of nat_cmp (numbered_pairs multi.old.slot.value) other }

    // Failure.
    ensures unchanged { result ≢ YES
        → (out.new ≡ out.old) × (multi.new.slot.value ≡ multi.old.slot.value) }
    ensures cause { IfSome multi.old.slot.value (λ m. IsToldAs result (refusal_for m.next
        (length (pair_removal_events nat_cmp m.size m.nodes
        (first_pair nat_cmp (concat m.nodes) key))))) }
    ensures status { (result ≤ NUMBERS) × (result ≢ NONE) × (result ≢ HELD) }

    // Nodes.
    ensures tree { result ≡ YES → IfSome multi.old.slot.value (λ m. multi.new.slot.value
        ≡ Some (after_pair_removal nat_cmp m (first_pair nat_cmp (concat m.nodes) key))) }
{
    let Some(mut held) = multi.take(alloc) else {
        return NO;
    };
    let status = match held.remove_some(&key) {
        Ok(Some((_, value))) => {
            *out = value;
            YES
        }
        Ok(None) => NO,
        Err(cause) => of_refusal(cause),
    };
    multi.put(held);
    status
}
