//! Saved caches as JSON text.
//!
//! `reading` and `writing` have the calls, `texts` what serde reads and writes, and `values` what a JSON value has to say
//! of a cache.

mod reading;
mod texts;
mod values;
mod writing;

pub use reading::read_saved_cache;
pub use writing::write_saved_cache;
