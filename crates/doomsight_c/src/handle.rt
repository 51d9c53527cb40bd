//! A kept build as C holds it.

ghost use Rattle.std.specs.Prelude.{◌≡◌, Option, Some, None};
ghost use Rattle.std.specs.Option.{MatchOption};
ghost use Rattle.doomsight_c.specs.declared.kept.Kept.{Kept as Whole};
ghost use Rattle.doomsight_c.specs.Handle.{handle_owns};

use crate::kept::Kept;
use crate::loose::Loose;
use std::alloc::Global;
use std::marker::Model;

/// A build that the library keeps, or none, which is a null pointer. To C it is a struct of that one pointer, 8 bytes: the
/// allocator takes none. C only ever makes an empty one; whoever has one that isn't empty owns the table and the certificate
/// behind it.
#[repr(C)]
pub struct DoomsightKept {
    at: *mut u8,
    alloc: Global,
    pub ghost value: { Option Whole },
}

impl Model for DoomsightKept {
    ghost also_owns = { λ h. handle_owns h.alloc h.at h.value };
}

impl DoomsightKept {
    /// A handle of nothing.
    pub fn empty(alloc: Global) -> DoomsightKept
        ensures { result.value ≡ None }
    {
        DoomsightKept {
            at: std::ptr::null_mut(),
            alloc,
        }
    }

    fn of_loose(kept: Loose<Kept, Global>) -> DoomsightKept
        ensures { result.value ≡ Some kept.value }
    {
        let Loose { at, alloc } = kept;
        DoomsightKept {
            at: at as *mut u8,
            alloc,
        }
    }

    fn into_loose(self) -> Option<Loose<Kept, Global>>
        ensures { MatchOption result (self.value ≡ None) (λ l. self.value ≡ Some l.value) }
    {
        let DoomsightKept { at, alloc } = self;
        if at.is_null() {
            None
        } else {
            Some(Loose {
                at: at as *mut Kept,
                alloc,
            })
        }
    }

    /// The handle of what lies in the box.
    pub fn of(kept: Box<Kept>) -> DoomsightKept
        ensures { result.value ≡ Some kept.value }
    {
        DoomsightKept::of_loose(Loose::of(kept))
    }

    /// The box behind the handle, where there is one.
    pub fn into_box(self) -> Option<Box<Kept>>
        ensures { MatchOption result (self.value ≡ None) (λ b. self.value ≡ Some b.value) }
    {
        match self.into_loose() {
            Some(kept) => Some(kept.into_box()),
            None => None,
        }
    }
}

impl Drop for DoomsightKept {
    fn drop(self) {
        drop(self.into_box());
    }
}

// Another thread may have it, as it may have the bytes behind it.
unsafe impl Send for DoomsightKept {}
