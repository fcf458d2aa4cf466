//! The handle of a map.
ghost use Rattle.std.specs.Prelude.{◌≡◌, Some, None, is_some};
ghost use Rattle.std.specs.Option.{option_map};

use crate::Parts;
use crate::map_slot::MapSlot;
use indexset_map::BTreeMap;
use std::alloc::Global;
use std::mem::replace;

/// A handle that C has: a map on the heap, or none.
#[repr(C)]
#[derive(Drop)]
pub struct MapHandle {
    /// The map, if any.
    pub slot: MapSlot,
    /// Whether there is a map.
    pub live: bool,
    /// The flag is whether the slot has a value.
    pub ghost sound: { live ≡ is_some slot.value },
}

impl MapHandle {
    /// Returns an empty handle.
    pub fn none(alloc: Global) -> MapHandle
        ensures { result.slot.value ≡ None }
    {
        MapHandle {
            slot: MapSlot::of_parts(Parts::none(alloc)),
            live: false,
        }
    }

    fn of(map: Box<BTreeMap<u64, u64>, Global>) -> MapHandle
        ensures { result.slot.value ≡ Some map.value }
    {
        MapHandle {
            slot: MapSlot::of_parts(Parts::of(map)),
            live: true,
        }
    }

    /// Removes the map from the handle, and returns it, if there is one.
    pub fn take(&mut self, alloc: Global) -> Option<Box<BTreeMap<u64, u64>, Global>>
        ensures taken { option_map (λ b. b.value) result ≡ self.old.slot.value }
        ensures left { self.new.slot.value ≡ None }
    {
        let MapHandle { slot, live } = replace(self, MapHandle::none(alloc));
        let parts = slot.into_parts();
        if live { Some(parts.into_box()) } else { None }
    }

    /// Stores a map in the handle. One that the handle had is not freed.
    pub fn put(&mut self, map: Box<BTreeMap<u64, u64>, Global>)
        ensures { self.new.slot.value ≡ Some map.value }
    {
        *self = MapHandle::of(map);
    }
}
