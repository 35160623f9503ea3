//! Padding: pixels that stay free around a rectangle. A size is asked for with them, and a rectangle is given back
//! without them.
//!
//! `sides` has how many they are, `laws` what that means; `pages` has pages on which each rectangle has padding, and
//! `caches` such a cache.
#![tactic(auto)]

pub mod caches;
pub mod laws;
pub mod pages;
mod sides;

pub use sides::{NO_PADDING, Padding};
