//! What a size gets: a page, and an allocation on it.

use etagere_base::Allocation;

/// An allocation on one of several pages.
#[derive(Clone, Copy, Debug, PartialEq)]
pub struct PagedAllocation {
    /// The number of the page. Pages are counted from 0, in the order in which they were opened.
    pub page: u32,
    /// The rectangle on the page, and the id by which it is given back to that page.
    pub allocation: Allocation,
}
