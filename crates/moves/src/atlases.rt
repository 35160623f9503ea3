//! Moving house with one atlas: what it has allocated gets places in a new atlas, the tallest first, and so without the
//! gaps that returns have left.
//!
//! `moving` has the call, `rearrangement` what it answers, `order` who asks first, `kept_options` by which options the new atlas
//! is made.

mod kept_options;
mod moving;
mod order;
mod rearrangement;

pub use moving::rearranged;
pub use order::height_across;
pub use rearrangement::{Move, Rearranged};
