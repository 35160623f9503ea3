//! How a tool that looks into recorded traffic answers: with a text that is made of words and numbers and a status, or
//! with why there is none.
//!
//! `bad_lines` says what was expected on the first bad line of a script, and `reasons` why a size was refused. `packing`
//! tells places for a list of sizes, on as many pages as it takes. `plot` and `watching` are pictures of a run: fill, live
//! and refusals over its commands, and a page for a browser that steps through them.
#![tactic(auto)]

pub mod bad_lines;
pub mod ending;
mod packing;
mod packing_lines;
mod packing_text;
pub mod pieces;
mod plot;
pub mod reasons;
pub mod script_lines;
mod series;
mod watch_page;
mod watching;

pub use packing::{asked_pages, pack_list};
pub use plot::plot_text;
pub use series::series_of;
pub use watching::watch;
