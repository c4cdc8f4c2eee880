//! The handle of a part of a log, for C.

ghost use Rattle.std.specs.Prelude.{◌≡◌, Option, None, Some, option_map};
ghost use Rattle.std.specs.Coded.{coded_option};
ghost use Rattle.c_handles.specs.Held.{held};
ghost use Rattle.library_log.specs.declared.part.Part.{Part};
ghost use Rattle.cuvragyen.specs.PartRows.{part_row};

use c_handles::Held;
use library_log::Part;
use std::alloc::Global;
use std::marker::Model;

/// The handle of a part of a log: a box that the handle owns, or nothing. In C it is a structure with one pointer, which is null if
/// the handle is closed.
#[repr(C)]
pub struct Handle {
    at: *mut u8,
    alloc: Global,
    /// The part; None if the handle is closed.
    pub ghost value: { Option Part } by { coded_option part_row.coded },
}

impl Model for Handle {
    ghost also_owns = { λ h. held part_row h.alloc h.at h.value };
}

impl Handle {
    /// A closed handle.
    pub fn closed(alloc: Global) -> Handle
        ensures { result.value ≡ None }
    {
        Handle::of(Held::none(alloc))
    }

    /// A handle that owns a part.
    pub fn open(part: Box<Part<'static>, Global>) -> Handle
        ensures { result.value ≡ Some part.entry.value }
    {
        Handle::of(Held::some(part))
    }

    /// The part of a handle; None if the handle is closed.
    pub fn into_part(self) -> Option<Box<Part<'static>, Global>>
        ensures { option_map (λ b. b.value) result ≡ self.value }
    {
        self.into_held().into_box()
    }

    /// A handle, as C has it.
    fn of(held: Held<Part<'static>>) -> Handle
        ensures { result.value ≡ held.entry.value }
    {
        let Held { at, alloc } = held;
        Handle {
            at: at as *mut u8,
            alloc,
        }
    }

    /// What a handle owns.
    fn into_held(self) -> Held<Part<'static>>
        ensures { result.value ≡ self.value }
    {
        let Handle { at, alloc } = self;
        Held {
            at: at as *mut Part<'static>,
            alloc,
        }
    }
}

impl Drop for Handle {
    fn drop(self) {
        drop(self.into_part());
    }
}
