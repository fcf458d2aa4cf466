//! The handle of a logged map.
ghost use Rattle.std.specs.Prelude.{◌≡◌, Some, None, is_some};
ghost use Rattle.std.specs.Option.{option_map};

use crate::Parts;
use crate::log_slot::{LogSlot, LoggedMap};
use std::alloc::Global;
use std::mem::replace;

/// A handle that C has: a logged map on the heap, or none.
#[repr(C)]
#[derive(Drop)]
pub struct LogHandle {
    /// The logged map, if any.
    pub slot: LogSlot,
    /// Whether there is a logged map.
    pub live: bool,
    /// The flag is whether the slot has a value.
    pub ghost sound: { live ≡ is_some slot.value },
}

impl LogHandle {
    /// Returns an empty handle.
    pub fn none(alloc: Global) -> LogHandle
        ensures { result.slot.value ≡ None }
    {
        LogHandle {
            slot: LogSlot::of_parts(Parts::none(alloc)),
            live: false,
        }
    }

    fn of(log: Box<LoggedMap, Global>) -> LogHandle
        ensures { result.slot.value ≡ Some log.value }
    {
        LogHandle {
            slot: LogSlot::of_parts(Parts::of(log)),
            live: true,
        }
    }

    /// Removes the logged map from the handle, and returns it, if there is one.
    pub fn take(&mut self, alloc: Global) -> Option<Box<LoggedMap, Global>>
        ensures taken { option_map (λ b. b.value) result ≡ self.old.slot.value }
        ensures left { self.new.slot.value ≡ None }
    {
        let LogHandle { slot, live } = replace(self, LogHandle::none(alloc));
        let parts = slot.into_parts();
        if live { Some(parts.into_box()) } else { None }
    }

    /// Stores a logged map in the handle. One that the handle had is not freed.
    pub fn put(&mut self, log: Box<LoggedMap, Global>)
        ensures { self.new.slot.value ≡ Some log.value }
    {
        *self = LogHandle::of(log);
    }
}
