//! The handle of a multimap.
ghost use Rattle.std.specs.Prelude.{◌≡◌, Some, None, is_some};
ghost use Rattle.std.specs.Option.{option_map};

use crate::Parts;
use crate::multi_slot::{MultiMap, MultiSlot};
use std::alloc::Global;
use std::mem::replace;

/// A handle that C has: a multimap on the heap, or none.
#[repr(C)]
#[derive(Drop)]
pub struct MultiHandle {
    /// The multimap, if any.
    pub slot: MultiSlot,
    /// Whether there is a multimap.
    pub live: bool,
    /// The flag is whether the slot has a value.
    pub ghost sound: { live ≡ is_some slot.value },
}

impl MultiHandle {
    /// Returns an empty handle.
    pub fn none(alloc: Global) -> MultiHandle
        ensures { result.slot.value ≡ None }
    {
        MultiHandle {
            slot: MultiSlot::of_parts(Parts::none(alloc)),
            live: false,
        }
    }

    fn of(multi: Box<MultiMap, Global>) -> MultiHandle
        ensures { result.slot.value ≡ Some multi.value }
    {
        MultiHandle {
            slot: MultiSlot::of_parts(Parts::of(multi)),
            live: true,
        }
    }

    /// Removes the multimap from the handle, and returns it, if there is one.
    pub fn take(&mut self, alloc: Global) -> Option<Box<MultiMap, Global>>
        ensures taken { option_map (λ b. b.value) result ≡ self.old.slot.value }
        ensures left { self.new.slot.value ≡ None }
    {
        let MultiHandle { slot, live } = replace(self, MultiHandle::none(alloc));
        let parts = slot.into_parts();
        if live { Some(parts.into_box()) } else { None }
    }

    /// Stores a multimap in the handle. One that the handle had is not freed.
    pub fn put(&mut self, multi: Box<MultiMap, Global>)
        ensures { self.new.slot.value ≡ Some multi.value }
    {
        *self = MultiHandle::of(multi);
    }
}
