//! Saved pages as JSON text.
//!
//! `reading` and `writing` have the calls, `texts` what serde reads and writes, and `values` what a JSON value has to say
//! of pages.

mod reading;
mod texts;
mod values;
mod writing;

pub use reading::read_saved_pages;
pub use writing::write_saved_pages;
