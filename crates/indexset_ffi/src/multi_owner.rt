//! The handle of a multimap on the heap.
ghost use Rattle.std.specs.Prelude.{◌≡◌, Option, Some, None, is_some, true};
ghost use Rattle.indexset_ffi.specs.Owners.{multi_handle_row};

use crate::Parts;
use crate::multi_handle::MultiHandle;
use std::alloc::Global;
use std::marker::Model;
use std::mem::replace;

/// A handle on the heap, or none.
#[repr(C)]
#[derive(Drop)]
pub struct MultiOwner {
    at: *mut u8,
    alloc: Global,
    pub ghost value: { Option multi_handle_row.Denot },
}

impl Model for MultiOwner {
    ghost use Rattle.indexset_ffi.specs.Owners.{holds_multi_handle};

    ghost also_owns = { λ owner. holds_multi_handle owner.alloc owner.at owner.value };
}

impl MultiOwner {
    /// Returns the owner of these parts.
    pub fn of_parts(parts: Parts<MultiHandle, Global>) -> MultiOwner
        ensures { result.value ≡ parts.value }
    {
        let Parts { at, alloc } = parts;
        MultiOwner {
            at: at as *mut u8,
            alloc,
        }
    }

    /// Returns the parts of this owner.
    pub fn into_parts(self) -> Parts<MultiHandle, Global>
        ensures { result.value ≡ self.value }
    {
        let MultiOwner { at, alloc } = self;
        Parts {
            at: at as *mut MultiHandle,
            alloc,
        }
    }

    /// Removes the handle, and returns it.
    pub fn take(&mut self, alloc: Global) -> Box<MultiHandle, Global>
        requires { is_some self.old.value ≡ true }
        ensures taken { self.old.value ≡ Some result.value }
        ensures left { self.new.value ≡ None }
    {
        replace(self, MultiOwner::of_parts(Parts::none(alloc)))
            .into_parts()
            .into_box()
    }

    /// Stores a handle. One that was stored before is not freed.
    pub fn put(&mut self, handle: Box<MultiHandle, Global>)
        ensures { self.new.value ≡ Some handle.value }
    {
        *self = MultiOwner::of_parts(Parts::of(handle));
    }
}
