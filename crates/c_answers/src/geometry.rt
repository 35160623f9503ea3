//! What crosses to C by value: places, sizes, rectangles, allocations, entries of a cache, and options.
//!
//! Definitions: `Crossing`, and `Plain` of `etagere_shelves`. The header has the same fields in the same order.

ghost use Rattle.std.specs.Prelude.{◌≡◌};
ghost use Rattle.c_answers.specs.Crossing.{entry_in, options_in, size_in};

use etagere::{AllocatorOptions, Rectangle, Size};
pub use etagere::{
    PlainAllocation as EtagereAllocation, PlainPoint as EtagerePoint,
    PlainRectangle as EtagereRectangle,
};

/// Two sides in pixels.
#[repr(C)]
#[derive(Clone, Copy)]
pub struct EtagereSize {
    pub width: i32,
    pub height: i32,
}

/// How an atlas is divided and what it rounds sizes to. Shelves stand upright where `vertical_shelves` isn't 0.
#[repr(C)]
#[derive(Clone, Copy)]
pub struct EtagereOptions {
    pub alignment: EtagereSize,
    pub num_columns: i32,
    pub vertical_shelves: u32,
}

/// A key of a cache with its rectangle.
#[repr(C)]
#[derive(Clone, Copy)]
pub struct EtagereEntry {
    pub key: u64,
    pub rectangle: EtagereRectangle,
}

impl EtagereEntry {
    /// The same entry, to go out.
    pub fn of(entry: (u64, Rectangle)) -> EtagereEntry
        ensures { entry_in result ≡ entry }
    {
        let (key, rectangle) = entry;
        EtagereEntry {
            key,
            rectangle: EtagereRectangle::of(rectangle),
        }
    }
}

impl EtagereSize {
    /// The same size.
    pub fn size(self) -> Size
        ensures { result ≡ size_in self }
    {
        Size {
            width: self.width,
            height: self.height,
        }
    }

    /// The same size, to go out.
    pub fn of(size: Size) -> EtagereSize
        ensures { size_in result ≡ size }
    {
        EtagereSize {
            width: size.width,
            height: size.height,
        }
    }
}

impl EtagereOptions {
    /// The same options.
    pub fn options(&self) -> AllocatorOptions
        ensures { result ≡ options_in self.now }
    {
        AllocatorOptions {
            alignment: self.alignment.size(),
            vertical_shelves: self.vertical_shelves != 0,
            num_columns: self.num_columns,
        }
    }

    /// The same options, to go out.
    pub fn of(options: &AllocatorOptions) -> EtagereOptions
        ensures { options_in result ≡ options.now }
    {
        EtagereOptions {
            alignment: EtagereSize::of(options.alignment),
            num_columns: options.num_columns,
            vertical_shelves: u32::from(options.vertical_shelves),
        }
    }
}
