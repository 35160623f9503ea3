//! Moving house: what an atlas, several pages or a cache hold gets new places, the tallest first, and so without the gaps
//! that returns have left.
//!
//! `atlases` moves all of an atlas, `pages` what stands on several pages, and `caches` what a cache holds.
#![tactic(auto)]

pub mod atlases;
pub mod caches;
pub mod pages;
