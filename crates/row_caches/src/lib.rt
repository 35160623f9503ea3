//! What the rows of tests call that keeps keys in the order of use: a cache, also while it moves into another one, a padded
//! cache, and a map.
//!
//! It promises nothing, so that what calls it is proved once and fast.
#![tactic(auto)]

pub mod caches;
pub mod maps;
mod moved_caches;
pub mod padded_caches;
