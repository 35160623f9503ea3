//! How full a shelf atlas is.
//!
//! Definitions: `Usage`.

use etagere_base::Size;

/// How full a shelf atlas is, in counts, and the largest of its free items.
#[derive(Clone, Copy, Debug, PartialEq, Eq)]
pub struct Usage {
    /// How many shelves there are.
    pub shelves: u32,
    /// How many of them are empty.
    pub empty_shelves: u32,
    /// How many items are allocated.
    pub items: u32,
    /// How many items are free.
    pub free_items: u32,
    /// How many more items there can be, allocated and free ones together: 65535 less those in use.
    pub unused_records: u32,
    /// The widest free item along the shelves, and of equally wide ones the tallest, in pixels; 0x0 where none is free.
    pub largest_free: Size,
}
