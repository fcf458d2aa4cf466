//! The handle of a logged map from byte strings on the heap.
ghost use Rattle.std.specs.Prelude.{◌≡◌, Option, Some, None, is_some, true};
ghost use Rattle.indexset_ffi.specs.Owners.{text_log_handle_row};

use crate::Parts;
use crate::text_log_handle::TextLogHandle;
use std::alloc::Global;
use std::marker::Model;
use std::mem::replace;

/// A handle on the heap, or none.
#[repr(C)]
#[derive(Drop)]
pub struct TextLogOwner {
    at: *mut u8,
    alloc: Global,
    pub ghost value: { Option text_log_handle_row.Denot },
}

impl Model for TextLogOwner {
    ghost use Rattle.indexset_ffi.specs.Owners.{holds_text_log_handle};

    ghost also_owns = { λ owner. holds_text_log_handle owner.alloc owner.at owner.value };
}

impl TextLogOwner {
    /// Returns the owner of these parts.
    pub fn of_parts(parts: Parts<TextLogHandle, Global>) -> TextLogOwner
        ensures { result.value ≡ parts.value }
    {
        let Parts { at, alloc } = parts;
        TextLogOwner {
            at: at as *mut u8,
            alloc,
        }
    }

    /// Returns the parts of this owner.
    pub fn into_parts(self) -> Parts<TextLogHandle, Global>
        ensures { result.value ≡ self.value }
    {
        let TextLogOwner { at, alloc } = self;
        Parts {
            at: at as *mut TextLogHandle,
            alloc,
        }
    }

    /// Removes the handle, and returns it.
    pub fn take(&mut self, alloc: Global) -> Box<TextLogHandle, Global>
        requires { is_some self.old.value ≡ true }
        ensures taken { self.old.value ≡ Some result.value }
        ensures left { self.new.value ≡ None }
    {
        replace(self, TextLogOwner::of_parts(Parts::none(alloc)))
            .into_parts()
            .into_box()
    }

    /// Stores a handle. One that was stored before is not freed.
    pub fn put(&mut self, handle: Box<TextLogHandle, Global>)
        ensures { self.new.value ≡ Some handle.value }
    {
        *self = TextLogOwner::of_parts(Parts::of(handle));
    }
}
