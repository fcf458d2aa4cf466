//! The slot of a replica.
ghost use Rattle.std.specs.Prelude.{◌≡◌, Option};
ghost use Rattle.indexset_ffi.specs.Slots.{replica_row};

use crate::Parts;
use indexset_core::pair::Pair;
use indexset_replica::Replica;
use indexset_replica::iter::Iter;
use std::alloc::Global;
use std::marker::Model;

/// A replica of a map of numbers.
pub type MapReplica = Replica<Pair<u64, u64>>;

/// An iterator over some of its pairs.
pub type ReplicaRange<'a> = Iter<'a, Pair<u64, u64>>;

/// A replica on the heap, or none.
#[repr(C)]
#[derive(Drop)]
pub struct ReplicaSlot {
    at: *mut u8,
    alloc: Global,
    pub ghost value: { Option replica_row.Denot },
}

impl Model for ReplicaSlot {
    ghost use Rattle.indexset_ffi.specs.Slots.{holds_replica};

    ghost also_owns = { λ slot. holds_replica slot.alloc slot.at slot.value };
}

impl ReplicaSlot {
    /// Returns the slot of these parts.
    pub fn of_parts(parts: Parts<MapReplica, Global>) -> ReplicaSlot
        ensures { result.value ≡ parts.value }
    {
        let Parts { at, alloc } = parts;
        ReplicaSlot {
            at: at as *mut u8,
            alloc,
        }
    }

    /// Returns the parts of this slot.
    pub fn into_parts(self) -> Parts<MapReplica, Global>
        ensures { result.value ≡ self.value }
    {
        let ReplicaSlot { at, alloc } = self;
        Parts {
            at: at as *mut MapReplica,
            alloc,
        }
    }
}
