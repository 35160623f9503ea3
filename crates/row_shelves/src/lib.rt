//! What the rows of tests call of shelf atlases: one, also while it moves into another one, and several pages, plain or
//! padded.
//!
//! It promises nothing, so that what calls it is proved once and fast.
#![tactic(auto)]

pub mod padded_pages;
pub mod pages;
pub mod shelves;
