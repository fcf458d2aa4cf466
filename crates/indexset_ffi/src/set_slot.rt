//! The slot of a set.
ghost use Rattle.std.specs.Prelude.{◌≡◌, Option};
ghost use Rattle.indexset_ffi.specs.Slots.{set_row};

use crate::Parts;
use indexset_set::BTreeSet;
use std::alloc::Global;
use std::marker::Model;

/// A set on the heap, or none.
#[repr(C)]
#[derive(Drop)]
pub struct SetSlot {
    at: *mut u8,
    alloc: Global,
    pub ghost value: { Option set_row.Denot },
}

impl Model for SetSlot {
    ghost use Rattle.indexset_ffi.specs.Slots.{holds_set};

    ghost also_owns = { λ slot. holds_set slot.alloc slot.at slot.value };
}

impl SetSlot {
    /// Returns the slot of these parts.
    pub fn of_parts(parts: Parts<BTreeSet<u64>, Global>) -> SetSlot
        ensures { result.value ≡ parts.value }
    {
        let Parts { at, alloc } = parts;
        SetSlot {
            at: at as *mut u8,
            alloc,
        }
    }

    /// Returns the parts of this slot.
    pub fn into_parts(self) -> Parts<BTreeSet<u64>, Global>
        ensures { result.value ≡ self.value }
    {
        let SetSlot { at, alloc } = self;
        Parts {
            at: at as *mut BTreeSet<u64>,
            alloc,
        }
    }
}
