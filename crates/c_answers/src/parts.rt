//! A box as its pointer and its allocator, in sight of the handles.

ghost use Rattle.std.specs.Prelude.{◌≡◌};
ghost use Rattle.std.specs.Box.Ownership.{box_owns};

use std::alloc::Allocator;
use std::marker::Model;

/// What a box is made of: whoever has it has what the box held.
pub(crate) struct Parts<T, A: Allocator> {
    pub(crate) pointer: *mut T,
    pub(crate) alloc: A,
    pub(crate) ghost value: { T },
}

impl<T, A: Allocator> Model for Parts<T, A> {
    ghost also_owns = { λ parts. box_owns (A.dealloc_token parts.alloc) T.row parts.pointer parts.value };
}

impl<T, A: Allocator> Parts<T, A> {
    /// Takes a box apart.
    pub(crate) fn of(boxed: Box<T, A>) -> Parts<T, A>
    where
        T: Drop,
        ensures { result.value ≡ boxed.value }
    {
        let (pointer, alloc) = Box::into_raw_with_allocator(boxed);
        Parts { pointer, alloc }
    }

    /// Makes the box again.
    pub(crate) fn into_box(self) -> Box<T, A>
        ensures { result.value ≡ self.value }
    {
        let Parts { pointer, alloc } = self;
        unsafe { Box::from_raw(alloc, pointer) }
    }
}
