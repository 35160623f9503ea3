//! Several atlases of one size and options: a size gets a place on a page that has one, and a page is opened where none
//! has.
//!
//! `pages` has the public calls, `open_pages` what they do to the atlases of the open pages, `choosing` the search for
//! the fullest page, `listing` the iterator, `picture` all pages side by side, `saving` what pages are saved as, `options`
//! how pages are made and chosen, `paged_allocation` what a size gets, `faults` why there are no such pages. `laws`
//! states the rules of the choice and of snapshots, and `runs` answers commands on pages.
#![tactic(auto)]

mod choosing;
mod faults;
pub mod laws;
mod listing;
mod open_pages;
mod options;
mod paged_allocation;
mod pages;
mod picture;
pub mod runs;
mod saving;

pub use faults::{FewerPages, PagesFault, PagesRestoreFault};
pub use listing::Iter;
pub use options::{PageChoice, PageOptions};
pub use paged_allocation::PagedAllocation;
pub use pages::AtlasPages;
pub use saving::PagesSnapshot;
