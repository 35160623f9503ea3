//! Moving house with several pages: what is allocated on them gets places on new pages, the tallest first, and so without
//! the gaps that returns have left.
//!
//! `moving` has the call, `rearrangement` what it answers, `order` who asks first.

mod moving;
mod order;
mod rearrangement;

pub use moving::rearranged_pages;
pub use rearrangement::{PageMove, RearrangedPages};
