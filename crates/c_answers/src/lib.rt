//! What calls from C work with: the handles that C has of both atlases and of the cache, and what calls answer of what a
//! handle holds.
//!
//! A handle is one pointer, which owns what is held or is null. It is filled by `put`, lends what it holds by `lend`, and
//! gives it back by `take`; `parts` is a box as its pointer and its allocator. `geometry` and `fullness` have what crosses
//! by value, `statuses` the numbers that calls answer, `buffers` how texts and lists get into buffers, and the others what
//! the calls of the same names do to an atlas or a cache.
#![tactic(auto)]

pub mod atlas;
mod atlas_handle;
pub mod batches;
mod boxes;
pub mod bucketed;
mod bucketed_handle;
pub mod buffers;
pub mod cache;
mod cache_handle;
pub mod cache_keys;
pub mod cache_snapshots;
pub mod drawings;
pub mod fullness;
pub mod geometry;
pub mod listing;
mod parts;
pub mod picture_parts;
pub mod snapshots;
pub mod statuses;

pub use atlas_handle::EtagereAtlas;
pub use bucketed_handle::EtagereBucketed;
pub use cache_handle::EtagereCache;
