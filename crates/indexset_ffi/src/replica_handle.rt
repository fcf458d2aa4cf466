//! The handle of a replica.
ghost use Rattle.std.specs.Prelude.{◌≡◌, Some, None, is_some};
ghost use Rattle.std.specs.Option.{option_map};

use crate::Parts;
use crate::replica_slot::{MapReplica, ReplicaSlot};
use std::alloc::Global;
use std::mem::replace;

/// A handle that C has: a replica on the heap, or none.
#[repr(C)]
#[derive(Drop)]
pub struct ReplicaHandle {
    /// The replica, if any.
    pub slot: ReplicaSlot,
    /// Whether there is a replica.
    pub live: bool,
    /// The flag is whether the slot has a value.
    pub ghost sound: { live ≡ is_some slot.value },
}

impl ReplicaHandle {
    /// Returns an empty handle.
    pub fn none(alloc: Global) -> ReplicaHandle
        ensures { result.slot.value ≡ None }
    {
        ReplicaHandle {
            slot: ReplicaSlot::of_parts(Parts::none(alloc)),
            live: false,
        }
    }

    fn of(replica: Box<MapReplica, Global>) -> ReplicaHandle
        ensures { result.slot.value ≡ Some replica.value }
    {
        ReplicaHandle {
            slot: ReplicaSlot::of_parts(Parts::of(replica)),
            live: true,
        }
    }

    /// Removes the replica from the handle, and returns it, if there is one.
    pub fn take(&mut self, alloc: Global) -> Option<Box<MapReplica, Global>>
        ensures taken { option_map (λ b. b.value) result ≡ self.old.slot.value }
        ensures left { self.new.slot.value ≡ None }
    {
        let ReplicaHandle { slot, live } = replace(self, ReplicaHandle::none(alloc));
        let parts = slot.into_parts();
        if live { Some(parts.into_box()) } else { None }
    }

    /// Stores a replica in the handle. One that the handle had is not freed.
    pub fn put(&mut self, replica: Box<MapReplica, Global>)
        ensures { self.new.slot.value ≡ Some replica.value }
    {
        *self = ReplicaHandle::of(replica);
    }
}
