//! Pages on which each rectangle has padding.
//!
//! `padded_pages` has the calls, `listing` the iterator, and `runs` commands on such pages, with what holds of every run.

mod listing;
mod padded_pages;
pub mod runs;

pub use listing::PaddedIter;
pub use padded_pages::PaddedPages;
