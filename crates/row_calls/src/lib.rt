//! What the rows of tests call, and how answers are written: the trait of what can be called by lines, the two slots for
//! such, and words of lines as values. What implements the trait stands in `row_atlases`, `row_caches` and `rows`.
//!
//! It promises nothing, so that what calls it is proved once and fast.
#![tactic(auto)]

pub mod lines;
pub mod slots;
