//! A cache in which so many pixels stay free around each rectangle: a size is asked for with them, and a rectangle is
//! given back without them.
//!
//! `padded_cache` has the calls, `listing` the iterator, `trimming` what a test is told of, and `runs` what holds of one
//! call after another.

mod listing;
mod padded_cache;
pub mod runs;
mod trimming;

pub use listing::Iter;
pub use padded_cache::PaddedCache;
