//! The slot of a logged map from byte strings.
ghost use Rattle.std.specs.Prelude.{◌≡◌, Option};
ghost use Rattle.indexset_ffi.specs.Slots.{text_log_row};

use crate::Parts;
use crate::text_log::TextLog;
use std::alloc::Global;
use std::marker::Model;

/// A logged map from byte strings on the heap, or none.
#[repr(C)]
#[derive(Drop)]
pub struct TextLogSlot {
    at: *mut u8,
    alloc: Global,
    pub ghost value: { Option text_log_row.Denot },
}

impl Model for TextLogSlot {
    ghost use Rattle.indexset_ffi.specs.Slots.{holds_text_log};

    ghost also_owns = { λ slot. holds_text_log slot.alloc slot.at slot.value };
}

impl TextLogSlot {
    /// Returns the slot of these parts.
    pub fn of_parts(parts: Parts<TextLog, Global>) -> TextLogSlot
        ensures { result.value ≡ parts.value }
    {
        let Parts { at, alloc } = parts;
        TextLogSlot {
            at: at as *mut u8,
            alloc,
        }
    }

    /// Returns the parts of this slot.
    pub fn into_parts(self) -> Parts<TextLog, Global>
        ensures { result.value ≡ self.value }
    {
        let TextLogSlot { at, alloc } = self;
        Parts {
            at: at as *mut TextLog,
            alloc,
        }
    }
}
