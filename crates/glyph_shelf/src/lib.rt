//! A cache of glyphs: each key gets a rectangle of one atlas, and where there is no room, the least recently used keys
//! are evicted, no more than needed.
//!
//! `cache` has the public calls, `kept` the entries with their atlas, which change together, `giving_back` how an
//! entry's rectangle goes back to the atlas, `saving` what a cache is saved as, and `listing` the iterator. `used_keys` has
//! keys in the order of use, also for other caches. `laws` states what a cache without a frame is, and what snapshots
//! stand for.
#![tactic(auto)]

mod cache;
mod faults;
mod giving_back;
mod kept;
pub mod laws;
mod listing;
mod saving;
pub mod used_keys;

pub use cache::{GlyphCache, Placed};
pub use faults::{CacheRestoreFault, GlyphFault};
pub use listing::Iter;
pub use saving::{CacheSnapshot, SavedKey};
