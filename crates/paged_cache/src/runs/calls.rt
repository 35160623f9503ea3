//! The calls that change a cache over pages, as values, and what each answers.
//!
//! The definition of runs (`Runs`) matches on them.

use crate::PlacedKey;
use atlas_pages::PagedAllocation;
use etagere_shelves::Size;

/// A call of a cache over pages.
#[derive(Drop)]
pub enum PagedCall {
    /// `place` of a key, for a size in pixels.
    Place(u64, Size),
    /// `get`.
    Get(u64),
    /// `remove`.
    Remove(u64),
    /// `clear`.
    Clear,
}

/// What a call answers.
#[derive(Drop)]
pub enum PagedReply {
    /// The key has this place.
    Placed(PlacedKey<PagedAllocation>),
    /// An empty page has no room for the size. Nothing changed.
    TooLarge,
    /// There was no memory. These keys went.
    NoMemory(Vec<u64>),
    /// The key has this place.
    At(PagedAllocation),
    /// The key had this place.
    Removed(PagedAllocation),
    /// The key isn't there. Nothing changed.
    NotThere,
    /// Nothing is there any more.
    Cleared,
}
