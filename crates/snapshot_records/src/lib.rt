//! What atlases are saved as: records by plain numbers, which anybody may have written.
//!
//! `shelves` has those of a shelf atlas, `buckets` those of a bucketed one.
#![tactic(auto)]

pub mod buckets;
pub mod shelves;
