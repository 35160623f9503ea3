//! How pages are made, how many there may be, and which of them gets a size.
//!
//! Definitions: `Pages` for what is made of them, `Choosing` for the choice.

ghost use Rattle.std.specs.Prelude.{◌≡◌, ◌<◌, ◌^◌, IfNone};
ghost use Rattle.atlas_pages.specs.Pages as pages;

use crate::faults::PagesFault;
use etagere_base::{AllocatorOptions, LONGEST_SIDE, Size, options_fault};

/// Which of the pages that have a place for a size gets it.
#[derive(Clone, Copy, Debug, PartialEq, Eq, Hash)]
pub enum PageChoice {
    /// The first one.
    FirstFit,
    /// The one with the greatest area allocated, and among equals the first.
    FullestFirst,
}

/// How pages are made, how many there may be, and which of them gets a size.
#[derive(Clone, Copy, Debug, PartialEq, Eq, Hash)]
pub struct PageOptions {
    /// The size of each page in pixels.
    pub size: Size,
    /// How each page is divided.
    pub atlas: AllocatorOptions,
    /// How many pages may be open at once, at least 1.
    pub most_pages: u32,
    /// Which page gets a size.
    pub choice: PageChoice,
}

/// The first fault of options of pages.
pub(crate) fn pages_fault(options: &PageOptions) -> Option<PagesFault>
    ensures value { result ≡ pages.pages_fault options.now }
    ensures short { IfNone result (options.now.most_pages < 2 ^ 32) }
{
    if let Some(fault) = options_fault(LONGEST_SIDE, options.size, &options.atlas) {
        return Some(PagesFault::Options(fault));
    }
    if options.most_pages == 0 {
        return Some(PagesFault::NoPages);
    }
    None
}
