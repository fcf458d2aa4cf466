//! The handle of a logged map on the heap.
ghost use Rattle.std.specs.Prelude.{◌≡◌, Option, Some, None, is_some, true};
ghost use Rattle.indexset_ffi.specs.Owners.{log_handle_row};

use crate::Parts;
use crate::log_handle::LogHandle;
use std::alloc::Global;
use std::marker::Model;
use std::mem::replace;

/// A handle on the heap, or none.
#[repr(C)]
#[derive(Drop)]
pub struct LogOwner {
    at: *mut u8,
    alloc: Global,
    pub ghost value: { Option log_handle_row.Denot },
}

impl Model for LogOwner {
    ghost use Rattle.indexset_ffi.specs.Owners.{holds_log_handle};

    ghost also_owns = { λ owner. holds_log_handle owner.alloc owner.at owner.value };
}

impl LogOwner {
    /// Returns the owner of these parts.
    pub fn of_parts(parts: Parts<LogHandle, Global>) -> LogOwner
        ensures { result.value ≡ parts.value }
    {
        let Parts { at, alloc } = parts;
        LogOwner {
            at: at as *mut u8,
            alloc,
        }
    }

    /// Returns the parts of this owner.
    pub fn into_parts(self) -> Parts<LogHandle, Global>
        ensures { result.value ≡ self.value }
    {
        let LogOwner { at, alloc } = self;
        Parts {
            at: at as *mut LogHandle,
            alloc,
        }
    }

    /// Removes the handle, and returns it.
    pub fn take(&mut self, alloc: Global) -> Box<LogHandle, Global>
        requires { is_some self.old.value ≡ true }
        ensures taken { self.old.value ≡ Some result.value }
        ensures left { self.new.value ≡ None }
    {
        replace(self, LogOwner::of_parts(Parts::none(alloc)))
            .into_parts()
            .into_box()
    }

    /// Stores a handle. One that was stored before is not freed.
    pub fn put(&mut self, handle: Box<LogHandle, Global>)
        ensures { self.new.value ≡ Some handle.value }
    {
        *self = LogOwner::of_parts(Parts::of(handle));
    }
}
