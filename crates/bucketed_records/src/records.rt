//! The records of a bucketed atlas, as it keeps them, and what is kept beside each shelf.
//!
//! Definitions: `BucketRecords`, what they spell, and `Private/Store`, what is kept.

ghost use Rattle.std.specs.Prelude.{◌≡◌};
ghost use Rattle.bucketed_records.specs.Private.Store as spec;

use etagere_links::Link;

/// No more buckets are in use at once, and no record has a greater number.
pub const MOST_BUCKETS: u32 = 4095;

/// No bucket gives more items before it is empty again.
pub const MOST_GIVEN: u16 = 4095;

/// A strip across a column. Lengths and places are in pixels.
#[derive(Clone, Copy, Debug, PartialEq, Eq)]
pub struct LinkedBucketShelf {
    /// Where its column begins along the shelves.
    pub x: u16,
    /// Where the shelf begins across.
    pub y: u16,
    /// How high it is.
    pub height: u16,
    /// How wide each of its buckets is.
    pub bucket_width: u16,
    /// The bucket that is searched first.
    pub first_bucket: Link,
}

/// A bucket of a shelf, or an unused record for one. Lengths and places are in pixels.
#[derive(Clone, Copy, Debug, PartialEq, Eq)]
pub struct LinkedBucket {
    /// Where the bucket begins along the shelf.
    pub x: u16,
    /// The width that it has left.
    pub free_space: u16,
    /// The bucket that is searched after it; of an unused record, the one that is used after it.
    pub next: Link,
    /// How many of its items are live.
    pub refcount: u16,
    /// How many items it has given since it was empty.
    pub item_count: u16,
    /// The number of the shelf that it lies in.
    pub shelf: u16,
    /// How often it was emptied or put to use again, modulo 256.
    pub generation: u8,
}

/// The width that a bucket can give to one item: what it has left, and 0 where it has given the most.
pub fn record_room(bucket: &LinkedBucket) -> u16
    ensures { result ≡ spec.record_room bucket.now }
{
    if bucket.item_count < MOST_GIVEN {
        bucket.free_space
    } else {
        0
    }
}

/// A shelf's record, and beside it how many items of its buckets are live, and the greatest width that one of them
/// can give to an item.
#[derive(Clone, Copy, Debug, PartialEq, Eq)]
pub struct KeptShelf {
    pub shelf: LinkedBucketShelf,
    pub live_items: u32,
    pub widest_room: u16,
}

impl KeptShelf {
    /// Whether nothing of the shelf is live.
    pub fn is_idle(&self) -> bool
        ensures { result ≡ spec.is_kept_idle self.now }
    {
        self.live_items == 0
    }
}
