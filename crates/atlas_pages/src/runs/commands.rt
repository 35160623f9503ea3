//! The commands of a run on pages, and the replies to them.
//!
//! The definition of runs (`Running`) matches on them.

use crate::PagedAllocation;
use etagere_shelves::{AllocId, Size};

/// A command of a run on pages.
#[derive(Clone, Copy, Debug, PartialEq)]
pub enum PageCommand {
    /// Asks for a rectangle of this size in pixels, on whatever page.
    Allocate(Size),
    /// Takes back what is allocated on the page of this number under an id.
    Deallocate(u32, AllocId),
    /// Takes everything back.
    Clear,
    /// Sets how many pages there may be.
    Grow(u32),
    /// Closes the empty pages at the end.
    Shrink,
}

/// What a run answers to a command.
#[derive(Clone, Copy, Debug, PartialEq)]
pub enum PageReply {
    /// The size has this place.
    Placed(PagedAllocation),
    /// No page has a place for the size, and none may be opened for it. Nothing changed.
    Refused,
    /// The size has a place that needs memory, and there was none. Nothing changed.
    NoMemory,
    /// It was taken back.
    Returned,
    /// Nothing is allocated there under the id. Nothing changed.
    Unknown,
    /// Nothing is allocated any more.
    Cleared,
    /// There may be as many pages now.
    Grown,
    /// There may be more pages already. Nothing changed.
    Fewer,
    /// So many pages were closed.
    Closed(u32),
}
