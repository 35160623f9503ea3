//! The trait of atlases of both kinds, whose calls promise nothing: what goes through them is proved safe in a fraction of
//! the time, since what an atlas promises isn't gone through at each call.

use etagere::{
    AllocId, Allocation, AllocatorOptions, AtlasAllocator, AtlasGrowFault, AtlasSnapshot,
    BucketedAtlasAllocator, BucketedSnapshot, GrowFault, OptionsFault, Rectangle, RestoreFault,
    Size, UnknownId,
};
use std::alloc::{AllocError, Global};
use std::io::{self, Write};

/// Why an atlas doesn't grow.
#[derive(Clone, Copy)]
pub enum NotGrown {
    Memory,
    /// The number of the fault.
    Refused(u32),
}

/// An atlas of either kind, with the calls that both kinds have.
pub trait Atlas: Sized {
    type Snapshot: Drop;

    fn made(alloc: Global, size: Size) -> Result<Self, OptionsFault>;

    fn made_with(
        alloc: Global,
        size: Size,
        options: &AllocatorOptions,
    ) -> Result<Self, OptionsFault>;

    fn copied(&self) -> Result<Self, AllocError>;

    fn saved(&self) -> Result<Self::Snapshot, AllocError>;

    fn restored(alloc: Global, saved: Self::Snapshot) -> Result<Self, RestoreFault>;

    fn ask(&mut self, size: Size) -> Result<Option<Allocation>, AllocError>;

    fn give_back(&mut self, id: AllocId) -> Result<(), UnknownId>;

    fn enlarge(&mut self, size: Size) -> Result<(), NotGrown>;

    fn empty(&mut self);

    /// The size, whether nothing is allocated, what is allocated and what is free.
    fn counts(&self) -> (Size, bool, i32, i32);

    fn largest(&self) -> Size;

    fn draw<W: Write>(&self, writer: &mut W) -> io::Result<()>;

    fn draw_into<W: Write>(&self, area: Option<&Rectangle>, writer: &mut W) -> io::Result<()>;
}

impl Atlas for AtlasAllocator {
    type Snapshot = AtlasSnapshot;

    fn made(alloc: Global, size: Size) -> Result<Self, OptionsFault> {
        AtlasAllocator::new(alloc, size)
    }

    fn made_with(
        alloc: Global,
        size: Size,
        options: &AllocatorOptions,
    ) -> Result<Self, OptionsFault> {
        AtlasAllocator::with_options(alloc, size, options)
    }

    fn copied(&self) -> Result<Self, AllocError> {
        self.clone()
    }

    fn saved(&self) -> Result<AtlasSnapshot, AllocError> {
        self.snapshot()
    }

    fn restored(alloc: Global, saved: AtlasSnapshot) -> Result<Self, RestoreFault> {
        AtlasAllocator::restore(alloc, saved)
    }

    fn ask(&mut self, size: Size) -> Result<Option<Allocation>, AllocError> {
        self.allocate(size)
    }

    fn give_back(&mut self, id: AllocId) -> Result<(), UnknownId> {
        self.deallocate(id)
    }

    fn enlarge(&mut self, size: Size) -> Result<(), NotGrown> {
        self.grow(size).map_err(|fault| match fault {
            AtlasGrowFault::Memory => NotGrown::Memory,
            fault => NotGrown::Refused(fault.number()),
        })
    }

    fn empty(&mut self) {
        self.clear();
    }

    fn counts(&self) -> (Size, bool, i32, i32) {
        let (allocated, free) = (self.allocated_space(), self.free_space());
        (self.size(), self.is_empty(), allocated, free)
    }

    fn largest(&self) -> Size {
        self.largest_free()
    }

    fn draw<W: Write>(&self, writer: &mut W) -> io::Result<()> {
        self.dump_svg(writer)
    }

    fn draw_into<W: Write>(&self, area: Option<&Rectangle>, writer: &mut W) -> io::Result<()> {
        self.dump_into_svg(area, writer)
    }
}

impl Atlas for BucketedAtlasAllocator {
    type Snapshot = BucketedSnapshot;

    fn made(alloc: Global, size: Size) -> Result<Self, OptionsFault> {
        BucketedAtlasAllocator::new(alloc, size)
    }

    fn made_with(
        alloc: Global,
        size: Size,
        options: &AllocatorOptions,
    ) -> Result<Self, OptionsFault> {
        BucketedAtlasAllocator::with_options(alloc, size, options)
    }

    fn copied(&self) -> Result<Self, AllocError> {
        self.clone()
    }

    fn saved(&self) -> Result<BucketedSnapshot, AllocError> {
        self.snapshot()
    }

    fn restored(alloc: Global, saved: BucketedSnapshot) -> Result<Self, RestoreFault> {
        BucketedAtlasAllocator::restore(alloc, saved)
    }

    fn ask(&mut self, size: Size) -> Result<Option<Allocation>, AllocError> {
        self.allocate(size)
    }

    fn give_back(&mut self, id: AllocId) -> Result<(), UnknownId> {
        self.deallocate(id)
    }

    fn enlarge(&mut self, size: Size) -> Result<(), NotGrown> {
        self.grow(size).map_err(|fault| match fault {
            GrowFault::Memory => NotGrown::Memory,
            fault => NotGrown::Refused(fault.number()),
        })
    }

    fn empty(&mut self) {
        self.clear();
    }

    fn counts(&self) -> (Size, bool, i32, i32) {
        let (allocated, free) = (self.allocated_space(), self.free_space());
        (self.size(), self.is_empty(), allocated, free)
    }

    fn largest(&self) -> Size {
        self.largest_free()
    }

    fn draw<W: Write>(&self, writer: &mut W) -> io::Result<()> {
        self.dump_svg(writer)
    }

    fn draw_into<W: Write>(&self, area: Option<&Rectangle>, writer: &mut W) -> io::Result<()> {
        self.dump_into_svg(area, writer)
    }
}
