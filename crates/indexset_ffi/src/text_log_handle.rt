//! The handle of a logged map from byte strings.
ghost use Rattle.std.specs.Prelude.{◌≡◌, Some, None, is_some};
ghost use Rattle.std.specs.Option.{option_map};

use crate::Parts;
use crate::text_log::TextLog;
use crate::text_log_slot::TextLogSlot;
use std::alloc::Global;
use std::mem::replace;

/// A handle that C has: a logged map from byte strings on the heap, or none.
#[repr(C)]
#[derive(Drop)]
pub struct TextLogHandle {
    /// The map, if any.
    pub slot: TextLogSlot,
    /// Whether there is a map.
    pub live: bool,
    /// The flag is whether the slot has a value.
    pub ghost sound: { live ≡ is_some slot.value },
}

impl TextLogHandle {
    /// Returns an empty handle.
    pub fn none(alloc: Global) -> TextLogHandle
        ensures { result.slot.value ≡ None }
    {
        TextLogHandle {
            slot: TextLogSlot::of_parts(Parts::none(alloc)),
            live: false,
        }
    }

    fn of(map: Box<TextLog, Global>) -> TextLogHandle
        ensures { result.slot.value ≡ Some map.value }
    {
        TextLogHandle {
            slot: TextLogSlot::of_parts(Parts::of(map)),
            live: true,
        }
    }

    /// Removes the map from the handle, and returns it, if there is one.
    pub fn take(&mut self, alloc: Global) -> Option<Box<TextLog, Global>>
        ensures taken { option_map (λ b. b.value) result ≡ self.old.slot.value }
        ensures left { self.new.slot.value ≡ None }
    {
        let TextLogHandle { slot, live } = replace(self, TextLogHandle::none(alloc));
        let parts = slot.into_parts();
        if live { Some(parts.into_box()) } else { None }
    }

    /// Stores a map in the handle. One that the handle had is not freed.
    pub fn put(&mut self, map: Box<TextLog, Global>)
        ensures { self.new.slot.value ≡ Some map.value }
    {
        *self = TextLogHandle::of(map);
    }
}
