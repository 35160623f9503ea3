//! What a shelf atlas is saved as: its records by plain numbers, and what they lie in.
//!
//! The fields, their names and their order are those of the format, so they don't change. Which rules a snapshot keeps
//! is judged where it is restored.

use serde::{Deserialize, Serialize};

/// An item as it is saved: a stretch of a shelf, or an unused record for one.
///
/// Lengths and places are in pixels. A link is the number of a record, or 65535 for none.
#[derive(Clone, Copy, Debug, PartialEq, Eq, Serialize, Deserialize)]
pub struct ItemRecord {
    /// Where the item begins along the shelf.
    pub x: u16,
    /// How long it is along the shelf.
    pub width: u16,
    /// The link to the item before it in the shelf.
    pub prev: u16,
    /// The link to the item after it in the shelf; of an unused record, to the unused one before it.
    pub next: u16,
    /// The link to the item before it in the free list of its shelf.
    pub prev_unallocated: u16,
    /// The link to the item after it in the free list of its shelf.
    pub next_unallocated: u16,
    /// The number of the shelf that it lies in.
    pub shelf: u16,
    /// Whether it is given out.
    pub allocated: bool,
    /// How often the record was put to use, modulo 65536.
    pub generation: u16,
}

/// A shelf as it is saved: a strip across a column, or an unused record for one.
///
/// Lengths and places are in pixels. A link is the number of a record, or 65535 for none.
#[derive(Clone, Copy, Debug, PartialEq, Eq, Serialize, Deserialize)]
pub struct ShelfRecord {
    /// Where its column begins along the shelves.
    pub x: u16,
    /// Where the shelf begins across.
    pub y: u16,
    /// How high it is.
    pub height: u16,
    /// The link to the shelf before it.
    pub prev: u16,
    /// The link to the shelf after it; of an unused record, to the unused one before it.
    pub next: u16,
    /// The link to the first of its items.
    pub first_item: u16,
    /// The link to the first of its free list.
    pub first_unallocated: u16,
    /// Whether all of it is one free item.
    pub is_empty: bool,
}

/// An atlas as it is saved, to be read by anyone and judged when it is loaded.
///
/// Lengths and places are in pixels. `x` of a record is a place along the shelves, `y` one across. A link is the number
/// of a record, or 65535 for none.
#[derive(Debug, PartialEq, Eq, Serialize, Deserialize, Drop)]
pub struct AtlasSnapshot {
    /// The width of the atlas, as `size` gives it.
    pub width: i32,
    /// The height of the atlas, as `size` gives it.
    pub height: i32,
    /// Widths are rounded up to multiples of this.
    pub alignment_width: i32,
    /// Heights are rounded up to multiples of this.
    pub alignment_height: i32,
    /// Whether the shelves lie along the height.
    pub vertical_shelves: bool,
    /// The width of a column, which all its shelves have.
    pub shelf_width: u16,
    /// The link to the first shelf.
    pub first_shelf: u16,
    /// The link to the item record that became unused last.
    pub free_items: u16,
    /// The link to the shelf record that became unused last.
    pub free_shelves: u16,
    /// The areas of everything that is allocated, added up, in square pixels.
    pub allocated_space: i32,
    /// The shelf records, by number.
    pub shelves: Vec<ShelfRecord>,
    /// The item records, by number.
    pub items: Vec<ItemRecord>,
}
