//! The atlas of shelves: rectangles are placed on shelves and given back in any order.
//!
//! The calls are in `atlas`, those that the laws of restoring are stated of in `laws`, the iterator in `listing`, and what
//! callers in C keep in `plain`; `restored` makes an atlas from a snapshot, and `walking` decides how a place is looked for.
//! The layers below are crates of their own, not meant for users: `shelf_model` has the model and its laws, `shelf_records`
//! what records spell and are saved as, `shelf_heights` the shelves by height, `shelf_notes` what is noted beside these,
//! `shelf_search` what calls find out from records, `shelf_store` what they change, and `shelf_restoring` how a snapshot is
//! judged.
#![tactic(auto)]

mod atlas;
pub mod laws;
mod listing;
mod plain;
mod restored;
mod walking;

pub use atlas::AtlasAllocator;
pub use etagere_base::{
    AllocId, Allocation, AllocatorOptions, DEFAULT_OPTIONS, OptionsFault, Point, Rectangle,
    RestoreFault, Size, UnknownId, point2, size2,
};
pub use listing::Iter;
pub use plain::{PlainAllocation, PlainPoint, PlainRectangle};
pub use shelf_model::faults::{AtlasGrowFault, Refusal};
pub use shelf_model::usage::Usage;
pub use snapshot_records::shelves::{AtlasSnapshot, ItemRecord, ShelfRecord};
