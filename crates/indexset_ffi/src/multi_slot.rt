//! The slot of a multimap.
ghost use Rattle.std.specs.Prelude.{◌≡◌, Option};
ghost use Rattle.indexset_ffi.specs.Slots.{multi_row};

use crate::Parts;
use indexset_core::multipair::MultiPair;
use indexset_multi::multimap::BTreeMultiMap;
use indexset_multi::multimap::range::Range;
use std::alloc::Global;
use std::marker::Model;

/// A multimap of numbers.
pub type MultiMap = BTreeMultiMap<u64, u64, Vec<MultiPair<u64, u64>>>;

/// An iterator over some of its pairs.
pub type MultiRange<'a> = Range<'a, u64, u64, Vec<MultiPair<u64, u64>>>;

/// A multimap on the heap, or none.
#[repr(C)]
#[derive(Drop)]
pub struct MultiSlot {
    at: *mut u8,
    alloc: Global,
    pub ghost value: { Option multi_row.Denot },
}

impl Model for MultiSlot {
    ghost use Rattle.indexset_ffi.specs.Slots.{holds_multi};

    ghost also_owns = { λ slot. holds_multi slot.alloc slot.at slot.value };
}

impl MultiSlot {
    /// Returns the slot of these parts.
    pub fn of_parts(parts: Parts<MultiMap, Global>) -> MultiSlot
        ensures { result.value ≡ parts.value }
    {
        let Parts { at, alloc } = parts;
        MultiSlot {
            at: at as *mut u8,
            alloc,
        }
    }

    /// Returns the parts of this slot.
    pub fn into_parts(self) -> Parts<MultiMap, Global>
        ensures { result.value ≡ self.value }
    {
        let MultiSlot { at, alloc } = self;
        Parts {
            at: at as *mut MultiMap,
            alloc,
        }
    }
}
