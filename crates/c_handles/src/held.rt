//! A box as its pointer.

ghost use Rattle.std.specs.Prelude.{◌≡◌, Option, None, Some, option_map};
ghost use Rattle.std.specs.Coded.{coded_option};
ghost use Rattle.c_handles.specs.Held.{held};

use std::alloc::Global;
use std::marker::Model;
use std::ptr::null_mut;

/// A box as its pointer, or nothing. The pointer is null if there is no box.
pub struct Held<T> {
    /// Where the box's value is.
    pub at: *mut T,
    /// What frees it.
    pub alloc: Global,
    /// The box's value; None if there is no box.
    pub ghost value: { Option T } by { coded_option T.code },
}

impl<T> Model for Held<T> {
    ghost also_owns = { λ h. held T.row h.alloc h.at h.value };
}

impl<T> Held<T> {
    /// No box.
    pub fn none(alloc: Global) -> Held<T>
        ensures { result.value ≡ None }
    {
        Held {
            at: null_mut(),
            alloc,
        }
    }
}

impl<T: Drop> Held<T> {
    /// A box as its pointer.
    pub fn some(value: Box<T, Global>) -> Held<T>
        ensures { result.value ≡ Some value.value }
    {
        let (at, alloc) = Box::into_raw_with_allocator(value);
        Held { at, alloc }
    }

    /// The box; None if there is none.
    pub fn into_box(self) -> Option<Box<T, Global>>
        ensures { option_map (λ b. b.value) result ≡ self.value }
    {
        let Held { at, alloc } = self;
        if at.is_null() {
            return None;
        }
        Some(unsafe { Box::from_raw(alloc, at) })
    }
}
