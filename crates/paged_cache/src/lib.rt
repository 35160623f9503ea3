//! A cache over several pages: each key of 64 bits gets a rectangle on one of them, and where there is no room, the least
//! recently used keys are evicted, no more than needed.
//!
//! `cache` has the public calls, `faults` why there is no room, `listing` the iterator. `keyed` has the keys of anything
//! that allocates sizes, `allocating` says what does, and `on_atlas` and `on_pages` that an atlas and pages do. `runs`
//! has what holds of one call after another.
#![tactic(auto)]

mod allocating;
mod cache;
mod faults;
mod keyed;
mod listing;
mod on_atlas;
mod on_pages;
pub mod runs;

pub use allocating::Allocates;
pub use cache::PagedCache;
pub use faults::{NewCacheFault, PlacingFault};
pub use keyed::{KeyedAllocations, PlacedKey};
pub use listing::Iter;
