//! The handle of a replica on the heap.
ghost use Rattle.std.specs.Prelude.{◌≡◌, Option, Some, None, is_some, true};
ghost use Rattle.indexset_ffi.specs.Owners.{replica_handle_row};

use crate::Parts;
use crate::replica_handle::ReplicaHandle;
use std::alloc::Global;
use std::marker::Model;
use std::mem::replace;

/// A handle on the heap, or none.
#[repr(C)]
#[derive(Drop)]
pub struct ReplicaOwner {
    at: *mut u8,
    alloc: Global,
    pub ghost value: { Option replica_handle_row.Denot },
}

impl Model for ReplicaOwner {
    ghost use Rattle.indexset_ffi.specs.Owners.{holds_replica_handle};

    ghost also_owns = { λ owner. holds_replica_handle owner.alloc owner.at owner.value };
}

impl ReplicaOwner {
    /// Returns the owner of these parts.
    pub fn of_parts(parts: Parts<ReplicaHandle, Global>) -> ReplicaOwner
        ensures { result.value ≡ parts.value }
    {
        let Parts { at, alloc } = parts;
        ReplicaOwner {
            at: at as *mut u8,
            alloc,
        }
    }

    /// Returns the parts of this owner.
    pub fn into_parts(self) -> Parts<ReplicaHandle, Global>
        ensures { result.value ≡ self.value }
    {
        let ReplicaOwner { at, alloc } = self;
        Parts {
            at: at as *mut ReplicaHandle,
            alloc,
        }
    }

    /// Removes the handle, and returns it.
    pub fn take(&mut self, alloc: Global) -> Box<ReplicaHandle, Global>
        requires { is_some self.old.value ≡ true }
        ensures taken { self.old.value ≡ Some result.value }
        ensures left { self.new.value ≡ None }
    {
        replace(self, ReplicaOwner::of_parts(Parts::none(alloc)))
            .into_parts()
            .into_box()
    }

    /// Stores a handle. One that was stored before is not freed.
    pub fn put(&mut self, handle: Box<ReplicaHandle, Global>)
        ensures { self.new.value ≡ Some handle.value }
    {
        *self = ReplicaOwner::of_parts(Parts::of(handle));
    }
}
