//! The handle of a shelf atlas.
//!
//! Definitions: `Held`.

ghost use Rattle.std.specs.Prelude.{◌≡◌, None, Some, IfNone, IfSome, option_map};
ghost use Rattle.std.specs.Borrow.{sem};
ghost use Rattle.std.specs.declared.option.Option.{Option};
ghost use Rattle.shelf_model.specs.State.{AtlasState};
ghost use Rattle.c_answers.specs.Held.{atlas_coded, atlas_owns};

use crate::parts::Parts;
use etagere::AtlasAllocator;
use std::alloc::Global;
use std::marker::Model;
use std::mem;
use std::ptr::null_mut;

/// A shelf atlas, or none: the pointer is null exactly where there is none.
#[repr(C)]
pub struct EtagereAtlas {
    pointer: *mut u8,
    alloc: Global,
    pub ghost state: { Option AtlasState } by { atlas_coded },
}

impl Model for EtagereAtlas {
    ghost also_owns = { λ handle. atlas_owns handle.alloc handle.pointer handle.state };
}

impl EtagereAtlas {
    /// The null handle.
    fn null(alloc: Global) -> EtagereAtlas
        ensures { result.state ≡ None }
    {
        EtagereAtlas {
            pointer: null_mut(),
            alloc,
        }
    }

    fn of_parts(parts: Parts<AtlasAllocator, Global>) -> EtagereAtlas
        ensures { result.state ≡ Some parts.value }
    {
        let Parts { pointer, alloc } = parts;
        EtagereAtlas {
            pointer: pointer as *mut u8,
            alloc,
        }
    }

    fn into_parts(self) -> Option<Parts<AtlasAllocator, Global>>
        ensures { option_map (λ parts. parts.value) result ≡ self.state }
    {
        let EtagereAtlas { pointer, alloc } = self;
        if pointer.is_null() {
            None
        } else {
            let pointer = pointer as *mut AtlasAllocator;
            Some(Parts { pointer, alloc })
        }
    }
}

impl EtagereAtlas {
    ghost use Rattle.c_answers.specs.Lent.{LendsAtlas};

    /// What the handle holds, to be used in its place; none where it is null.
    pub fn lend(&mut self) -> Option<&mut AtlasAllocator>
        ensures* writes_back { sem 𝓛 (LendsAtlas self.entry result) }
        ensures lent { option_map (λ held. held.now) result ≡ self.old.state }
    {
        if self.pointer.is_null() {
            return None;
        }
        let pointer = self.pointer as *mut AtlasAllocator;
        Some(unsafe { &mut *pointer })
    }

    /// What the handle holds, which is null after.
    pub fn take(&mut self, alloc: Global) -> Option<Box<AtlasAllocator>>
        ensures some { IfSome result (λ boxed. self.old.state ≡ Some boxed.value) }
        ensures none { IfNone result (self.old.state ≡ None) }
        ensures left { self.new.state ≡ None }
    {
        let held = mem::replace(self, EtagereAtlas::null(alloc));
        Some(held.into_parts()?.into_box())
    }

    /// Makes the handle hold an atlas. What it held before is dropped.
    pub fn put(&mut self, boxed: Box<AtlasAllocator>)
        ensures { self.new.state ≡ Some boxed.value }
    {
        *self = EtagereAtlas::of_parts(Parts::of(boxed));
    }
}

impl Drop for EtagereAtlas {
    fn drop(self) {
        if let Some(parts) = self.into_parts() {
            drop(parts.into_box());
        }
    }
}

unsafe impl Send for EtagereAtlas {}
