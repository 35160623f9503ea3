//! What a bucketed atlas is saved as: its records by plain numbers, and what they lie in.
//!
//! The fields, their names and their order are those of the format, so they don't change. Which rules a snapshot keeps
//! is judged where it is restored.

use serde::{Deserialize, Serialize};

/// A strip across a column as it is saved. Lengths and places are in pixels.
#[derive(Clone, Copy, Debug, PartialEq, Eq, Serialize, Deserialize)]
pub struct BucketShelfRecord {
    /// Where its column begins along the shelves.
    pub x: u16,
    /// Where the shelf begins across.
    pub y: u16,
    /// How high it is.
    pub height: u16,
    /// How wide each of its buckets is.
    pub bucket_width: u16,
    /// The number of the bucket that is searched first, 65535 for none.
    pub first_bucket: u16,
}

/// A bucket of a shelf as it is saved, or an unused record for one. Lengths and places are in pixels.
#[derive(Clone, Copy, Debug, PartialEq, Eq, Serialize, Deserialize)]
pub struct BucketRecord {
    /// Where the bucket begins along the shelf.
    pub x: u16,
    /// The width that it has left.
    pub free_space: u16,
    /// The number of the bucket that is searched after it; of an unused record, of the one that is used after it.
    /// 65535 for none.
    pub next: u16,
    /// How many of its items are live.
    pub refcount: u16,
    /// How many items it has given since it was empty.
    pub item_count: u16,
    /// The number of the shelf that it lies in.
    pub shelf: u16,
    /// How often it was emptied or put to use again, modulo 256.
    pub generation: u8,
}

/// A bucketed atlas as plain records. Lengths and places are in pixels. Anybody may have written it: `restore`
/// tells whether it stands for an atlas.
#[derive(Debug, PartialEq, Eq, Serialize, Deserialize, Drop)]
pub struct BucketedSnapshot {
    /// The width of the atlas, as `size` gives it.
    pub width: i32,
    /// The height of the atlas, as `size` gives it.
    pub height: i32,
    /// Widths are rounded up to multiples of this.
    pub alignment_width: i32,
    /// Heights are rounded up to multiples of this.
    pub alignment_height: i32,
    /// Whether the shelves lie along the height.
    pub vertical_shelves: bool,
    /// The width of a column.
    pub column_width: u16,
    /// How many columns there are.
    pub num_columns: u16,
    /// The column in which shelves are added.
    pub current_column: u16,
    /// The height that the shelves of that column leave.
    pub available_height: u16,
    /// The number of the unused bucket record that is used first, 65535 for none.
    pub first_unallocated_bucket: u16,
    /// The areas that buckets have used, added up, in square pixels.
    pub allocated_space: i32,
    /// The shelf records, column after column, in each by their places across.
    pub shelves: Vec<BucketShelfRecord>,
    /// The bucket records, by number.
    pub buckets: Vec<BucketRecord>,
}
