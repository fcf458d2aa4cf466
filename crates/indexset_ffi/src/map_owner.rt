//! The handle of a map on the heap.
ghost use Rattle.std.specs.Prelude.{◌≡◌, Option, Some, None, is_some, true};
ghost use Rattle.indexset_ffi.specs.Owners.{map_handle_row};

use crate::Parts;
use crate::map_handle::MapHandle;
use std::alloc::Global;
use std::marker::Model;
use std::mem::replace;

/// A handle on the heap, or none.
#[repr(C)]
#[derive(Drop)]
pub struct MapOwner {
    at: *mut u8,
    alloc: Global,
    pub ghost value: { Option map_handle_row.Denot },
}

impl Model for MapOwner {
    ghost use Rattle.indexset_ffi.specs.Owners.{holds_map_handle};

    ghost also_owns = { λ owner. holds_map_handle owner.alloc owner.at owner.value };
}

impl MapOwner {
    /// Returns the owner of these parts.
    pub fn of_parts(parts: Parts<MapHandle, Global>) -> MapOwner
        ensures { result.value ≡ parts.value }
    {
        let Parts { at, alloc } = parts;
        MapOwner {
            at: at as *mut u8,
            alloc,
        }
    }

    /// Returns the parts of this owner.
    pub fn into_parts(self) -> Parts<MapHandle, Global>
        ensures { result.value ≡ self.value }
    {
        let MapOwner { at, alloc } = self;
        Parts {
            at: at as *mut MapHandle,
            alloc,
        }
    }

    /// Removes the handle, and returns it.
    pub fn take(&mut self, alloc: Global) -> Box<MapHandle, Global>
        requires { is_some self.old.value ≡ true }
        ensures taken { self.old.value ≡ Some result.value }
        ensures left { self.new.value ≡ None }
    {
        replace(self, MapOwner::of_parts(Parts::none(alloc)))
            .into_parts()
            .into_box()
    }

    /// Stores a handle. One that was stored before is not freed.
    pub fn put(&mut self, handle: Box<MapHandle, Global>)
        ensures { self.new.value ≡ Some handle.value }
    {
        *self = MapOwner::of_parts(Parts::of(handle));
    }
}
