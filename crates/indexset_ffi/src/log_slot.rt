//! The slot of a logged map.
ghost use Rattle.std.specs.Prelude.{◌≡◌, Option};
ghost use Rattle.indexset_ffi.specs.Slots.{log_row};

use crate::Parts;
use indexset_core::pair::Pair;
use indexset_log::map::BTreeMap;
use indexset_log::map::range::Range;
use indexset_log::set::nodes::Nodes;
use std::alloc::Global;
use std::marker::Model;

/// A map of numbers that returns its changes.
pub type LoggedMap = BTreeMap<u64, u64, Vec<Pair<u64, u64>>>;

/// An iterator over some of its pairs.
pub type LoggedRange<'a> = Range<'a, u64, u64, Vec<Pair<u64, u64>>>;

/// An iterator over its nodes.
pub type LoggedNodes<'a> = Nodes<'a, Vec<Pair<u64, u64>>>;

/// A logged map on the heap, or none.
#[repr(C)]
#[derive(Drop)]
pub struct LogSlot {
    at: *mut u8,
    alloc: Global,
    pub ghost value: { Option log_row.Denot },
}

impl Model for LogSlot {
    ghost use Rattle.indexset_ffi.specs.Slots.{holds_log};

    ghost also_owns = { λ slot. holds_log slot.alloc slot.at slot.value };
}

impl LogSlot {
    /// Returns the slot of these parts.
    pub fn of_parts(parts: Parts<LoggedMap, Global>) -> LogSlot
        ensures { result.value ≡ parts.value }
    {
        let Parts { at, alloc } = parts;
        LogSlot {
            at: at as *mut u8,
            alloc,
        }
    }

    /// Returns the parts of this slot.
    pub fn into_parts(self) -> Parts<LoggedMap, Global>
        ensures { result.value ≡ self.value }
    {
        let LogSlot { at, alloc } = self;
        Parts {
            at: at as *mut LoggedMap,
            alloc,
        }
    }
}
