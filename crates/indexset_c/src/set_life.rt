//! Creation and release of a set, its clone and its length.
ghost use Rattle.std.specs.Prelude.{◌≡◌, ◌≢◌, ◌↔◌, [], Some, None, true};
ghost use Rattle.std.specs.Prelude.{length, is_some, IfSome, ◌∷◌, option_map};
ghost use Rattle.std.specs.Ordering.{nat_cmp};
ghost use Rattle.indexset_core.specs.Order.{IsAscending};
ghost use Rattle.indexset_core.specs.declared.constants.TheConstants.{DEFAULT_INNER_SIZE};
ghost use Rattle.indexset_spine.specs.NodeList.{node_list};
ghost use Rattle.indexset_ffi.specs.Elements.{elements};

use indexset_core::refusal::Refusal;
use indexset_ffi::set_calls::sorted_set;
use indexset_ffi::set_handle::SetHandle;
use indexset_ffi::set_owner::SetOwner;
use indexset_ffi::status::{HELD, MEMORY, NONE, UNFIT, YES};
use indexset_set::BTreeSet;
use std::alloc::Global;
use std::mem::swap;

/// Makes an empty set.
///
/// # Errors
///
/// `HELD` if the handle is not empty, or `MEMORY`. A failed call changes nothing.
#[unsafe(no_mangle)]
pub extern "C" fn indexset_set_new(alloc: Global, set: &mut SetHandle) -> u32
    // Contents.
    ensures empty { result ≡ YES → elements set.new.slot.value ≡ [] }
    ensures made { result ≡ YES
        → set.new.slot.value ≡ Some (node_list ([] ∷ []) DEFAULT_INNER_SIZE) }

    // Failure.
    ensures refused { result ≢ YES → set.new.slot.value ≡ set.old.slot.value }
    ensures held { result ≡ HELD ↔ (is_some set.old.slot.value ≡ true) }
    ensures status { result ≢ YES → result ≢ HELD → result ≡ MEMORY }
{
    if let Some(held) = set.take(alloc) {
        set.put(held);
        return HELD;
    }
    let Ok(made) = BTreeSet::new(alloc) else {
        return MEMORY;
    };
    match Box::new(alloc, made) {
        Ok(made) => {
            set.put(made);
            YES
        }
        Err(_) => MEMORY,
    }
}

/// Makes a set of keys that ascend strictly, with full nodes.
///
/// # Errors
///
/// `HELD` if the handle is not empty, `UNFIT` if the keys do not ascend strictly, or `MEMORY`. A
/// failed call changes nothing.
#[unsafe(no_mangle)]
pub extern "C" fn indexset_set_from_sorted(alloc: Global, set: &mut SetHandle, keys: &[u64]) -> u32
    // Result.
    ensures ascending { result ≡ YES → IsAscending nat_cmp keys.now }

    // Contents.
    ensures ok { result ≡ YES → elements set.new.slot.value ≡ keys.now }

    // Failure.
    ensures refused { result ≢ YES → set.new.slot.value ≡ set.old.slot.value }
    ensures held { result ≡ HELD ↔ (is_some set.old.slot.value ≡ true) }
    ensures unfit { result ≡ UNFIT → IsAscending nat_cmp keys.now → ⊥ }
    ensures status { result ≢ YES → result ≢ HELD → result ≢ UNFIT → result ≡ MEMORY }
{
    if set.live {
        return HELD;
    }
    let made = match sorted_set(alloc, keys) {
        Ok(made) => made,
        Err(Refusal::Memory) => return MEMORY,
        Err(_) => return UNFIT,
    };
    match Box::new(alloc, made) {
        Ok(made) => {
            set.put(made);
            YES
        }
        Err(_) => MEMORY,
    }
}

/// Makes a clone of a set in the handle `to`.
///
/// # Errors
///
/// `NONE` if the first handle is empty, `HELD` if `to` is not empty, or `MEMORY`. A failed call
/// changes nothing.
#[unsafe(no_mangle)]
pub extern "C" fn indexset_set_clone(alloc: Global, set: &mut SetHandle, to: &mut SetHandle) -> u32
    // Contents.
    ensures ok { result ≡ YES → to.new.slot.value ≡ set.old.slot.value }
    ensures unchanged { set.new.slot.value ≡ set.old.slot.value }

    // Failure.
    ensures refused { result ≢ YES → to.new.slot.value ≡ to.old.slot.value }
    ensures none { result ≡ NONE ↔ (set.old.slot.value ≡ None) }
    ensures held { set.old.slot.value ≢ None
        → (result ≡ HELD ↔ (is_some to.old.slot.value ≡ true)) }
    ensures status { result ≢ YES → result ≢ NONE → result ≢ HELD → result ≡ MEMORY }
{
    let Some(held) = set.take(alloc) else {
        return NONE;
    };
    if let Some(other) = to.take(alloc) {
        to.put(other);
        set.put(held);
        return HELD;
    }
    let cloned: Result<_, _> = BTreeSet::clone(&held);
    set.put(held);
    let Ok(cloned) = cloned else {
        return MEMORY;
    };
    match Box::new(alloc, cloned) {
        Ok(cloned) => {
            to.put(cloned);
            YES
        }
        Err(_) => MEMORY,
    }
}

/// Frees a set, and leaves its handle empty.
#[unsafe(no_mangle)]
pub extern "C" fn indexset_set_free(alloc: Global, set: &mut SetHandle)
    ensures { set.new.slot.value ≡ None }
{
    drop(set.take(alloc));
}

/// Makes a handle on the heap with an empty set.
///
/// # Errors
///
/// `MEMORY`. A failed call changes nothing.
#[unsafe(no_mangle)]
pub extern "C" fn indexset_set_create(alloc: Global, set: &mut SetOwner) -> u32
    ensures made { result ≡ YES → option_map (λ h. h.slot.value) set.new.value
        ≡ Some (Some (node_list ([] ∷ []) DEFAULT_INNER_SIZE)) }
    ensures refused { result ≢ YES → set.new.value ≡ set.old.value }
    ensures status { result ≢ YES → result ≡ MEMORY }
{
    let Ok(mut handle) = Box::new(alloc, SetHandle::none(alloc)) else {
        return MEMORY;
    };
    let status = indexset_set_new(alloc, &mut *handle);
    if status == YES {
        set.put(handle);
    }
    status
}

/// Frees a handle on the heap and its collection.
#[unsafe(no_mangle)]
pub extern "C" fn indexset_set_destroy(alloc: Global, set: &mut SetOwner)
    requires { is_some set.old.value ≡ true }
    ensures { set.new.value ≡ None }
{
    let mut handle = set.take(alloc);
    indexset_set_free(alloc, &mut *handle);
}

/// Moves a set from the handle `from` to `to`, and leaves `from` empty.
///
/// A set that `to` had is freed.
#[unsafe(no_mangle)]
pub extern "C" fn indexset_set_move(alloc: Global, to: &mut SetHandle, from: &mut SetHandle)
    ensures moved { to.new.slot.value ≡ from.old.slot.value }
    ensures left { from.new.slot.value ≡ None }
{
    drop(to.take(alloc));
    swap(to, from);
}

/// Swaps the collections of two handles.
#[unsafe(no_mangle)]
pub extern "C" fn indexset_set_swap(one: &mut SetHandle, other: &mut SetHandle)
    ensures one { one.new.slot.value ≡ other.old.slot.value }
    ensures other { other.new.slot.value ≡ one.old.slot.value }
{
    swap(one, other);
}

/// Removes all elements.
#[unsafe(no_mangle)]
pub extern "C" fn indexset_set_clear(alloc: Global, set: &mut SetHandle)
    ensures empty { elements set.new.slot.value ≡ [] }
    ensures contains { is_some set.new.slot.value ≡ is_some set.old.slot.value }
    ensures size { IfSome set.old.slot.value
        (λ s. set.new.slot.value ≡ Some (node_list ([] ∷ []) s.size)) }
{
    let Some(mut held) = set.take(alloc) else {
        return;
    };
    held.clear();
    set.put(held);
}

/// Returns the number of elements.
#[unsafe(no_mangle)]
pub extern "C" fn indexset_set_len(alloc: Global, set: &mut SetHandle) -> usize
    ensures value { result ≡ length (elements set.old.slot.value) }
    ensures unchanged { set.new.slot.value ≡ set.old.slot.value }
{
    let Some(held) = set.take(alloc) else {
        return 0;
    };
    let len = held.len();
    set.put(held);
    len
}
