//! The handle of a cache.
//!
//! Definitions: `Held`.

ghost use Rattle.std.specs.Prelude.{◌≡◌, None, Some, IfNone, IfSome, option_map};
ghost use Rattle.std.specs.Borrow.{sem};
ghost use Rattle.std.specs.declared.option.Option.{Option};
ghost use Rattle.glyph_shelf.specs.Cache.{CacheState};
ghost use Rattle.c_answers.specs.Held.{cache_coded, cache_owns};

use crate::parts::Parts;
use glyph_shelf::GlyphCache;
use std::alloc::Global;
use std::marker::Model;
use std::mem;
use std::ptr::null_mut;

/// A cache, or none: the pointer is null exactly where there is none.
#[repr(C)]
pub struct EtagereCache {
    pointer: *mut u8,
    alloc: Global,
    pub ghost state: { Option CacheState } by { cache_coded },
}

impl Model for EtagereCache {
    ghost also_owns = { λ handle. cache_owns handle.alloc handle.pointer handle.state };
}

impl EtagereCache {
    /// The null handle.
    fn null(alloc: Global) -> EtagereCache
        ensures { result.state ≡ None }
    {
        EtagereCache {
            pointer: null_mut(),
            alloc,
        }
    }

    fn of_parts(parts: Parts<GlyphCache, Global>) -> EtagereCache
        ensures { result.state ≡ Some parts.value }
    {
        let Parts { pointer, alloc } = parts;
        EtagereCache {
            pointer: pointer as *mut u8,
            alloc,
        }
    }

    fn into_parts(self) -> Option<Parts<GlyphCache, Global>>
        ensures { option_map (λ parts. parts.value) result ≡ self.state }
    {
        let EtagereCache { pointer, alloc } = self;
        if pointer.is_null() {
            None
        } else {
            let pointer = pointer as *mut GlyphCache;
            Some(Parts { pointer, alloc })
        }
    }
}

impl EtagereCache {
    ghost use Rattle.c_answers.specs.Lent.{LendsCache};

    /// What the handle holds, to be used in its place; none where it is null.
    pub fn lend(&mut self) -> Option<&mut GlyphCache>
        ensures* writes_back { sem 𝓛 (LendsCache self.entry result) }
        ensures lent { option_map (λ held. held.now) result ≡ self.old.state }
    {
        if self.pointer.is_null() {
            return None;
        }
        let pointer = self.pointer as *mut GlyphCache;
        Some(unsafe { &mut *pointer })
    }

    /// What the handle holds, which is null after.
    pub fn take(&mut self, alloc: Global) -> Option<Box<GlyphCache>>
        ensures some { IfSome result (λ boxed. self.old.state ≡ Some boxed.value) }
        ensures none { IfNone result (self.old.state ≡ None) }
        ensures left { self.new.state ≡ None }
    {
        let held = mem::replace(self, EtagereCache::null(alloc));
        Some(held.into_parts()?.into_box())
    }

    /// Makes the handle hold a cache. What it held before is dropped.
    pub fn put(&mut self, boxed: Box<GlyphCache>)
        ensures { self.new.state ≡ Some boxed.value }
    {
        *self = EtagereCache::of_parts(Parts::of(boxed));
    }
}

impl Drop for EtagereCache {
    fn drop(self) {
        if let Some(parts) = self.into_parts() {
            drop(parts.into_box());
        }
    }
}

unsafe impl Send for EtagereCache {}
