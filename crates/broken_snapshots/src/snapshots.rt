//! What is asked of the snapshots of both kinds: their frame, and the links that lead along their lists of records.

ghost use Rattle.std.specs.Prelude.{◌≤◌};

use etagere_base::{Frame, size2};
use snapshot_records::buckets::BucketedSnapshot;
use snapshot_records::shelves::AtlasSnapshot;

/// A record of a snapshot; or the field of the snapshot that leads to the first of a list.
#[derive(Clone, Copy)]
pub enum Record {
    Field(&'static str),
    Shelf(usize),
    Item(usize),
    Bucket(usize),
}

/// A list of records.
#[derive(Clone, Copy)]
pub enum Chain {
    Shelves,
    UnusedShelves,
    UnusedItems,
    UnusedBuckets,
    /// The items of the shelf of this number.
    Items(usize),
    /// The free list of the shelf of this number.
    FreeList(usize),
    /// The buckets of the shelf of this number.
    Buckets(usize),
}

impl Chain {
    /// The record of this number.
    pub fn record(self, number: usize) -> Record {
        match self {
            Chain::Shelves | Chain::UnusedShelves => Record::Shelf(number),
            Chain::Buckets(_) | Chain::UnusedBuckets => Record::Bucket(number),
            _ => Record::Item(number),
        }
    }

    /// What leads to the first record.
    pub fn head(self) -> Record {
        match self {
            Chain::Shelves => Record::Field("first_shelf"),
            Chain::UnusedShelves => Record::Field("free_shelves"),
            Chain::UnusedItems => Record::Field("free_items"),
            Chain::UnusedBuckets => Record::Field("first_unallocated_bucket"),
            Chain::Items(shelf) | Chain::FreeList(shelf) => Record::Shelf(shelf),
            Chain::Buckets(shelf) => Record::Shelf(shelf),
        }
    }
}

/// A snapshot. A list that snapshots of its kind don't have is empty.
pub trait Snapshot {
    /// The frame that it says, without its columns.
    fn frame(&self) -> Frame;

    /// The link to the first record of a list.
    fn first(&self, chain: Chain) -> Option<u16>;

    /// The link behind a record; none where there is no such record.
    fn next(&self, chain: Chain, number: usize) -> Option<u16>;

    /// The alignment along the shelves, at least 1.
    fn step(&self) -> u32
        ensures { 1 ≤ result }
    {
        self.frame().alignment_along().max(1)
    }
}

impl Snapshot for AtlasSnapshot {
    fn frame(&self) -> Frame {
        let size = size2(self.width, self.height);
        let alignment = size2(self.alignment_width, self.alignment_height);
        Frame::without_columns(size, alignment, self.vertical_shelves)
    }

    fn first(&self, chain: Chain) -> Option<u16> {
        match chain {
            Chain::Shelves => Some(self.first_shelf),
            Chain::UnusedShelves => Some(self.free_shelves),
            Chain::UnusedItems => Some(self.free_items),
            Chain::Items(shelf) => Some(self.shelves.get(shelf)?.first_item),
            Chain::FreeList(shelf) => Some(self.shelves.get(shelf)?.first_unallocated),
            Chain::Buckets(_) | Chain::UnusedBuckets => None,
        }
    }

    fn next(&self, chain: Chain, number: usize) -> Option<u16> {
        match chain {
            Chain::Shelves | Chain::UnusedShelves => Some(self.shelves.get(number)?.next),
            Chain::UnusedItems | Chain::Items(_) => Some(self.items.get(number)?.next),
            Chain::FreeList(_) => Some(self.items.get(number)?.next_unallocated),
            Chain::Buckets(_) | Chain::UnusedBuckets => None,
        }
    }
}

impl Snapshot for BucketedSnapshot {
    fn frame(&self) -> Frame {
        let size = size2(self.width, self.height);
        let alignment = size2(self.alignment_width, self.alignment_height);
        Frame::without_columns(size, alignment, self.vertical_shelves)
    }

    fn first(&self, chain: Chain) -> Option<u16> {
        match chain {
            Chain::Buckets(shelf) => Some(self.shelves.get(shelf)?.first_bucket),
            Chain::UnusedBuckets => Some(self.first_unallocated_bucket),
            _ => None,
        }
    }

    fn next(&self, _chain: Chain, number: usize) -> Option<u16> {
        Some(self.buckets.get(number)?.next)
    }
}
