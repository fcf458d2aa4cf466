//! The slot of a map.
ghost use Rattle.std.specs.Prelude.{◌≡◌, Option};
ghost use Rattle.indexset_ffi.specs.Slots.{map_row};

use crate::Parts;
use indexset_map::BTreeMap;
use std::alloc::Global;
use std::marker::Model;

/// A map on the heap, or none.
#[repr(C)]
#[derive(Drop)]
pub struct MapSlot {
    at: *mut u8,
    alloc: Global,
    pub ghost value: { Option map_row.Denot },
}

impl Model for MapSlot {
    ghost use Rattle.indexset_ffi.specs.Slots.{holds_map};

    ghost also_owns = { λ slot. holds_map slot.alloc slot.at slot.value };
}

impl MapSlot {
    /// Returns the slot of these parts.
    pub fn of_parts(parts: Parts<BTreeMap<u64, u64>, Global>) -> MapSlot
        ensures { result.value ≡ parts.value }
    {
        let Parts { at, alloc } = parts;
        MapSlot {
            at: at as *mut u8,
            alloc,
        }
    }

    /// Returns the parts of this slot.
    pub fn into_parts(self) -> Parts<BTreeMap<u64, u64>, Global>
        ensures { result.value ≡ self.value }
    {
        let MapSlot { at, alloc } = self;
        Parts {
            at: at as *mut BTreeMap<u64, u64>,
            alloc,
        }
    }
}
