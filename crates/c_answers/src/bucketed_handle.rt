//! The handle of a bucketed atlas.
//!
//! Definitions: `Held`.

ghost use Rattle.std.specs.Prelude.{◌≡◌, None, Some, IfNone, IfSome, option_map};
ghost use Rattle.std.specs.Borrow.{sem};
ghost use Rattle.std.specs.declared.option.Option.{Option};
ghost use Rattle.bucketed_model.specs.State.{BucketedState};
ghost use Rattle.c_answers.specs.Held.{bucketed_coded, bucketed_owns};

use crate::parts::Parts;
use etagere::BucketedAtlasAllocator;
use std::alloc::Global;
use std::marker::Model;
use std::mem;
use std::ptr::null_mut;

/// A bucketed atlas, or none: the pointer is null exactly where there is none.
#[repr(C)]
pub struct EtagereBucketed {
    pointer: *mut u8,
    alloc: Global,
    pub ghost state: { Option BucketedState } by { bucketed_coded },
}

impl Model for EtagereBucketed {
    ghost also_owns = { λ handle. bucketed_owns handle.alloc handle.pointer handle.state };
}

impl EtagereBucketed {
    /// The null handle.
    fn null(alloc: Global) -> EtagereBucketed
        ensures { result.state ≡ None }
    {
        EtagereBucketed {
            pointer: null_mut(),
            alloc,
        }
    }

    fn of_parts(parts: Parts<BucketedAtlasAllocator, Global>) -> EtagereBucketed
        ensures { result.state ≡ Some parts.value }
    {
        let Parts { pointer, alloc } = parts;
        EtagereBucketed {
            pointer: pointer as *mut u8,
            alloc,
        }
    }

    fn into_parts(self) -> Option<Parts<BucketedAtlasAllocator, Global>>
        ensures { option_map (λ parts. parts.value) result ≡ self.state }
    {
        let EtagereBucketed { pointer, alloc } = self;
        if pointer.is_null() {
            None
        } else {
            let pointer = pointer as *mut BucketedAtlasAllocator;
            Some(Parts { pointer, alloc })
        }
    }
}

impl EtagereBucketed {
    ghost use Rattle.c_answers.specs.Lent.{LendsBucketed};

    /// What the handle holds, to be used in its place; none where it is null.
    pub fn lend(&mut self) -> Option<&mut BucketedAtlasAllocator>
        ensures* writes_back { sem 𝓛 (LendsBucketed self.entry result) }
        ensures lent { option_map (λ held. held.now) result ≡ self.old.state }
    {
        if self.pointer.is_null() {
            return None;
        }
        let pointer = self.pointer as *mut BucketedAtlasAllocator;
        Some(unsafe { &mut *pointer })
    }

    /// What the handle holds, which is null after.
    pub fn take(&mut self, alloc: Global) -> Option<Box<BucketedAtlasAllocator>>
        ensures some { IfSome result (λ boxed. self.old.state ≡ Some boxed.value) }
        ensures none { IfNone result (self.old.state ≡ None) }
        ensures left { self.new.state ≡ None }
    {
        let held = mem::replace(self, EtagereBucketed::null(alloc));
        Some(held.into_parts()?.into_box())
    }

    /// Makes the handle hold an atlas. What it held before is dropped.
    pub fn put(&mut self, boxed: Box<BucketedAtlasAllocator>)
        ensures { self.new.state ≡ Some boxed.value }
    {
        *self = EtagereBucketed::of_parts(Parts::of(boxed));
    }
}

impl Drop for EtagereBucketed {
    fn drop(self) {
        if let Some(parts) = self.into_parts() {
            drop(parts.into_box());
        }
    }
}

unsafe impl Send for EtagereBucketed {}
