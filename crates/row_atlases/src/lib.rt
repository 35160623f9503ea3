//! The calls of atlases of both kinds for the rows of tests, by lines, as `row_calls` says, over one trait with the calls
//! that both have; and those of a bucketed one.
//!
//! It promises nothing, so that what calls it is proved once and fast.
#![tactic(auto)]

pub mod atlases;
pub mod buckets;
pub mod kinds;
