//! Moving house with a cache: its keys get places in a new atlas, the tallest first, and so without the gaps that returns
//! have left. The order of use stays.
//!
//! `moving` has the call, `rearrangement` what it answers, `by_id` which key stands under which id, and where it has moved.

mod by_id;
mod moving;
mod rearrangement;

pub use moving::rearranged_cache;
pub use rearrangement::{KeyMove, RearrangedCache, UnplacedKey};
