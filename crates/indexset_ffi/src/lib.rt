//! The layer below the static library for C: what C owns, and the bodies of its calls.
//!
//! C has a pointer where Rattle has a box. [`Parts`] converts between them: a box becomes its
//! parts, a handle stores them, and the parts become the box again. Each collection has a slot
//! (such as [`set_slot`]), which owns the parts, and a handle (such as [`set_handle`]), which has a
//! flag for whether there are any. Modules such as [`set_calls`] have the bodies of calls on a
//! collection that is taken out of its handle. [`event`] has the record of an event, and [`status`]
//! the results of calls that can fail.
#![tactic(auto)]

ghost use Rattle.std.specs.Prelude.{◌≡◌, Option, Some, None, is_some, true};
ghost use Rattle.indexset_ffi.specs.Holds.{holds};

pub mod cursor;
pub mod event;
pub mod log_calls;
pub mod log_handle;
pub mod log_owner;
mod log_slot;
pub mod map_calls;
pub mod map_handle;
pub mod map_owner;
mod map_slot;
pub mod multi_calls;
pub mod multi_handle;
pub mod multi_owner;
mod multi_slot;
pub mod next;
pub mod replica_calls;
pub mod replica_handle;
pub mod replica_owner;
mod replica_slot;
pub mod set_calls;
pub mod set_handle;
pub mod set_owner;
mod set_slot;
pub mod status;
pub mod text_calls;
pub mod text_edits;
pub mod text_event;
pub mod text_find;
pub mod text_handle;
pub mod text_log;
pub mod text_log_calls;
pub mod text_log_handle;
pub mod text_log_owner;
mod text_log_slot;
pub mod text_owner;
pub mod text_slot;
pub mod write;

use std::alloc::Allocator;
use std::marker::Model;

/// A boxed value taken apart, or no value. Dropping the parts frees nothing.
#[derive(Drop)]
pub struct Parts<T, A: Allocator> {
    /// The address of the value.
    pub at: *mut T,
    /// The allocator of the block.
    pub alloc: A,
    /// The value, if any.
    pub ghost value: { Option T },
}

impl<T, A: Allocator> Model for Parts<T, A> {
    ghost also_owns = { λ parts. holds (A.dealloc_token parts.alloc) T.row parts.at parts.value };
}

impl<T, A: Allocator> Parts<T, A> {
    /// Returns parts without a value.
    pub fn none(alloc: A) -> Parts<T, A>
        ensures { result.value ≡ None }
    {
        let at = std::ptr::null_mut();
        Parts { at, alloc }
    }

    /// Returns the parts of a box.
    pub fn of(boxed: Box<T, A>) -> Parts<T, A>
    where
        T: Drop,
        ensures { result.value ≡ Some boxed.value }
    {
        let (at, alloc) = Box::into_raw_with_allocator(boxed);
        Parts { at, alloc }
    }

    /// Returns the box of these parts.
    pub fn into_box(self) -> Box<T, A>
        requires { is_some self.value ≡ true }
        ensures { self.value ≡ Some result.value }
    {
        let Parts { at, alloc } = self;
        unsafe { Box::from_raw(alloc, at) }
    }
}
