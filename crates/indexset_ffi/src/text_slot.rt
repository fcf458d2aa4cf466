//! The slot of a map from byte strings.
ghost use Rattle.std.specs.Prelude.{◌≡◌, Option};
ghost use Rattle.indexset_ffi.specs.Text.{text_row};

use crate::Parts;
use indexset_core::text::Text;
use indexset_map::{BTreeMap, RangeMap};
use std::alloc::Global;
use std::marker::Model;

/// A map from byte strings to numbers.
pub type TextMap = BTreeMap<Text, u64>;

/// The maximum number of pairs in a node of such a map.
///
/// It is a quarter of the default, because an insertion or a removal moves half of the pairs of a
/// node, of 32 bytes each.
pub const TEXT_NODE_SIZE: usize = 256;

/// An iterator over some of its pairs.
pub type TextRange<'a> = RangeMap<'a, Text, u64>;

/// A map from byte strings on the heap, or none.
#[repr(C)]
#[derive(Drop)]
pub struct TextSlot {
    at: *mut u8,
    alloc: Global,
    pub ghost value: { Option text_row.Denot },
}

impl Model for TextSlot {
    ghost use Rattle.indexset_ffi.specs.Text.{holds_text};

    ghost also_owns = { λ slot. holds_text slot.alloc slot.at slot.value };
}

impl TextSlot {
    /// Returns the slot of these parts.
    pub fn of_parts(parts: Parts<TextMap, Global>) -> TextSlot
        ensures { result.value ≡ parts.value }
    {
        let Parts { at, alloc } = parts;
        TextSlot {
            at: at as *mut u8,
            alloc,
        }
    }

    /// Returns the parts of this slot.
    pub fn into_parts(self) -> Parts<TextMap, Global>
        ensures { result.value ≡ self.value }
    {
        let TextSlot { at, alloc } = self;
        Parts {
            at: at as *mut TextMap,
            alloc,
        }
    }
}
