//! The handle of a set on the heap.
ghost use Rattle.std.specs.Prelude.{◌≡◌, Option, Some, None, is_some, true};
ghost use Rattle.indexset_ffi.specs.Owners.{set_handle_row};

use crate::Parts;
use crate::set_handle::SetHandle;
use std::alloc::Global;
use std::marker::Model;
use std::mem::replace;

/// A handle on the heap, or none.
#[repr(C)]
#[derive(Drop)]
pub struct SetOwner {
    at: *mut u8,
    alloc: Global,
    pub ghost value: { Option set_handle_row.Denot },
}

impl Model for SetOwner {
    ghost use Rattle.indexset_ffi.specs.Owners.{holds_set_handle};

    ghost also_owns = { λ owner. holds_set_handle owner.alloc owner.at owner.value };
}

impl SetOwner {
    /// Returns the owner of these parts.
    pub fn of_parts(parts: Parts<SetHandle, Global>) -> SetOwner
        ensures { result.value ≡ parts.value }
    {
        let Parts { at, alloc } = parts;
        SetOwner {
            at: at as *mut u8,
            alloc,
        }
    }

    /// Returns the parts of this owner.
    pub fn into_parts(self) -> Parts<SetHandle, Global>
        ensures { result.value ≡ self.value }
    {
        let SetOwner { at, alloc } = self;
        Parts {
            at: at as *mut SetHandle,
            alloc,
        }
    }

    /// Removes the handle, and returns it.
    pub fn take(&mut self, alloc: Global) -> Box<SetHandle, Global>
        requires { is_some self.old.value ≡ true }
        ensures taken { self.old.value ≡ Some result.value }
        ensures left { self.new.value ≡ None }
    {
        replace(self, SetOwner::of_parts(Parts::none(alloc)))
            .into_parts()
            .into_box()
    }

    /// Stores a handle. One that was stored before is not freed.
    pub fn put(&mut self, handle: Box<SetHandle, Global>)
        ensures { self.new.value ≡ Some handle.value }
    {
        *self = SetOwner::of_parts(Parts::of(handle));
    }
}
