//! The handle of a map from byte strings.
ghost use Rattle.std.specs.Prelude.{◌≡◌, Some, None, is_some};
ghost use Rattle.std.specs.Option.{option_map};

use crate::Parts;
use crate::text_slot::{TextMap, TextSlot};
use std::alloc::Global;
use std::mem::replace;

/// A handle that C has: a map from byte strings on the heap, or none.
#[repr(C)]
#[derive(Drop)]
pub struct TextHandle {
    /// The map, if any.
    pub slot: TextSlot,
    /// Whether there is a map.
    pub live: bool,
    /// The flag is whether the slot has a value.
    pub ghost sound: { live ≡ is_some slot.value },
}

impl TextHandle {
    /// Returns an empty handle.
    pub fn none(alloc: Global) -> TextHandle
        ensures { result.slot.value ≡ None }
    {
        TextHandle {
            slot: TextSlot::of_parts(Parts::none(alloc)),
            live: false,
        }
    }

    fn of(map: Box<TextMap, Global>) -> TextHandle
        ensures { result.slot.value ≡ Some map.value }
    {
        TextHandle {
            slot: TextSlot::of_parts(Parts::of(map)),
            live: true,
        }
    }

    /// Removes the map from the handle, and returns it, if there is one.
    pub fn take(&mut self, alloc: Global) -> Option<Box<TextMap, Global>>
        ensures taken { option_map (λ b. b.value) result ≡ self.old.slot.value }
        ensures left { self.new.slot.value ≡ None }
    {
        let TextHandle { slot, live } = replace(self, TextHandle::none(alloc));
        let parts = slot.into_parts();
        if live { Some(parts.into_box()) } else { None }
    }

    /// Stores a map in the handle. One that the handle had is not freed.
    pub fn put(&mut self, map: Box<TextMap, Global>)
        ensures { self.new.slot.value ≡ Some map.value }
    {
        *self = TextHandle::of(map);
    }
}
