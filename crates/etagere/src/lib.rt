//! A texture atlas allocator: rectangles are placed on shelves, or in their buckets, and given back in any order.
//!
//! The atlas of shelves is that of `etagere_shelves`, and the bucketed one that of `etagere_bucketed`: two crates side by
//! side, whose public items are re-exported here. `laws` has what the laws of restoring are stated of, of both.
#![tactic(auto)]

pub mod laws;

pub use etagere_base::{
    AllocId, Allocation, AllocatorOptions, DEFAULT_OPTIONS, OptionsFault, Point, Rectangle,
    RestoreFault, Size, UnknownId, point2, size2,
};
pub use etagere_bucketed::{
    BucketRecord, BucketShelfRecord, BucketedAtlasAllocator, BucketedRefusal, BucketedSnapshot,
    BucketedUsage, GrowFault,
};
pub use etagere_shelves::{
    AtlasAllocator, AtlasGrowFault, AtlasSnapshot, ItemRecord, Iter, PlainAllocation, PlainPoint,
    PlainRectangle, Refusal, ShelfRecord, Usage,
};
