//! The handle of a set.
ghost use Rattle.std.specs.Prelude.{◌≡◌, Some, None, is_some};
ghost use Rattle.std.specs.Option.{option_map};

use crate::Parts;
use crate::set_slot::SetSlot;
use indexset_set::BTreeSet;
use std::alloc::Global;
use std::mem::replace;

/// A handle that C has: a set on the heap, or none.
#[repr(C)]
#[derive(Drop)]
pub struct SetHandle {
    /// The set, if any.
    pub slot: SetSlot,
    /// Whether there is a set.
    pub live: bool,
    /// The flag is whether the slot has a value.
    pub ghost sound: { live ≡ is_some slot.value },
}

impl SetHandle {
    /// Returns an empty handle.
    pub fn none(alloc: Global) -> SetHandle
        ensures { result.slot.value ≡ None }
    {
        SetHandle {
            slot: SetSlot::of_parts(Parts::none(alloc)),
            live: false,
        }
    }

    fn of(set: Box<BTreeSet<u64>, Global>) -> SetHandle
        ensures { result.slot.value ≡ Some set.value }
    {
        SetHandle {
            slot: SetSlot::of_parts(Parts::of(set)),
            live: true,
        }
    }

    /// Removes the set from the handle, and returns it, if there is one.
    pub fn take(&mut self, alloc: Global) -> Option<Box<BTreeSet<u64>, Global>>
        ensures taken { option_map (λ b. b.value) result ≡ self.old.slot.value }
        ensures left { self.new.slot.value ≡ None }
    {
        let SetHandle { slot, live } = replace(self, SetHandle::none(alloc));
        let parts = slot.into_parts();
        if live { Some(parts.into_box()) } else { None }
    }

    /// Stores a set in the handle. One that the handle had is not freed.
    pub fn put(&mut self, set: Box<BTreeSet<u64>, Global>)
        ensures { self.new.slot.value ≡ Some set.value }
    {
        *self = SetHandle::of(set);
    }
}
