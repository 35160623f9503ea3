//! From records as an atlas keeps them to those that are saved, and back: a link and its bits.
//!
//! Definitions: `Restoring`, which has the linked record that a saved one stands for.

ghost use Rattle.std.specs.Prelude.{◌≡◌, IfOk, map};
ghost use Rattle.bucketed_records.specs.Private.Restored.{linked_records};
ghost use Rattle.bucketed_records.specs.Private.Store.{shelf_record};
ghost use Rattle.bucketed_records.specs.Restoring as spec;

use crate::records::{KeptShelf, LinkedBucket, LinkedBucketShelf};
use etagere_links::Link;
use snapshot_records::buckets::{BucketRecord, BucketShelfRecord, BucketedSnapshot};
use std::alloc::{AllocError, Global};

/// A snapshot whose links were read, but not followed.
#[derive(Drop)]
pub struct LinkedSnapshot {
    pub width: i32,
    pub height: i32,
    pub alignment_width: i32,
    pub alignment_height: i32,
    pub vertical_shelves: bool,
    pub column_width: u16,
    pub num_columns: u16,
    pub current_column: u16,
    pub available_height: u16,
    pub first_unused: Link,
    pub allocated_space: i32,
    pub shelves: Vec<LinkedBucketShelf>,
    pub buckets: Vec<LinkedBucket>,
}

impl LinkedSnapshot {
    /// Reads the links of a snapshot. Takes memory for all records.
    pub fn of(alloc: Global, snapshot: &BucketedSnapshot) -> Result<LinkedSnapshot, AllocError>
        ensures { IfOk result (λ linked. linked_records linked ≡ spec.snapshot_records snapshot.now) }
    {
        Ok(LinkedSnapshot {
            width: snapshot.width,
            height: snapshot.height,
            alignment_width: snapshot.alignment_width,
            alignment_height: snapshot.alignment_height,
            vertical_shelves: snapshot.vertical_shelves,
            column_width: snapshot.column_width,
            num_columns: snapshot.num_columns,
            current_column: snapshot.current_column,
            available_height: snapshot.available_height,
            first_unused: Link::from_bits(snapshot.first_unallocated_bucket),
            allocated_space: snapshot.allocated_space,
            shelves: linked_shelves(alloc, &snapshot.shelves)?,
            buckets: linked_buckets(alloc, &snapshot.buckets)?,
        })
    }
}

/// The linked shelf for which a saved one stands.
fn linked_shelf(shelf: &BucketShelfRecord) -> LinkedBucketShelf
    ensures { result ≡ spec.linked_shelf shelf.now }
{
    LinkedBucketShelf {
        x: shelf.x,
        y: shelf.y,
        height: shelf.height,
        bucket_width: shelf.bucket_width,
        first_bucket: Link::from_bits(shelf.first_bucket),
    }
}

/// The linked bucket for which a saved one stands.
fn linked_bucket(bucket: &BucketRecord) -> LinkedBucket
    ensures { result ≡ spec.linked_bucket bucket.now }
{
    LinkedBucket {
        x: bucket.x,
        free_space: bucket.free_space,
        next: Link::from_bits(bucket.next),
        refcount: bucket.refcount,
        item_count: bucket.item_count,
        shelf: bucket.shelf,
        generation: bucket.generation,
    }
}

fn linked_shelves(
    alloc: Global,
    shelves: &[BucketShelfRecord],
) -> Result<Vec<LinkedBucketShelf>, AllocError>
    ensures { IfOk result (λ linked. linked.items ≡ map spec.linked_shelf shelves.now) }
{
    let mut linked = Vec::with_capacity(alloc, shelves.len())?;
    for shelf in shelves {
        linked.push_reserved(linked_shelf(shelf));
    }
    Ok(linked)
}

fn linked_buckets(alloc: Global, buckets: &[BucketRecord]) -> Result<Vec<LinkedBucket>, AllocError>
    ensures { IfOk result (λ linked. linked.items ≡ map spec.linked_bucket buckets.now) }
{
    let mut linked = Vec::with_capacity(alloc, buckets.len())?;
    for bucket in buckets {
        linked.push_reserved(linked_bucket(bucket));
    }
    Ok(linked)
}

/// What a shelf is saved as.
fn saved_shelf(kept: &KeptShelf) -> BucketShelfRecord
    ensures { spec.linked_shelf result ≡ shelf_record kept.now }
{
    BucketShelfRecord {
        x: kept.shelf.x,
        y: kept.shelf.y,
        height: kept.shelf.height,
        bucket_width: kept.shelf.bucket_width,
        first_bucket: kept.shelf.first_bucket.bits(),
    }
}

/// What a bucket is saved as.
fn saved_bucket(bucket: &LinkedBucket) -> BucketRecord
    ensures { spec.linked_bucket result ≡ bucket.now }
{
    BucketRecord {
        x: bucket.x,
        free_space: bucket.free_space,
        next: bucket.next.bits(),
        refcount: bucket.refcount,
        item_count: bucket.item_count,
        shelf: bucket.shelf,
        generation: bucket.generation,
    }
}

/// What shelves are saved as. Takes memory for all of them.
pub fn saved_shelves(
    alloc: Global,
    shelves: &[KeptShelf],
) -> Result<Vec<BucketShelfRecord>, AllocError>
    ensures { IfOk result (λ saved. map spec.linked_shelf saved.items ≡ map shelf_record shelves.now) }
{
    let mut saved = Vec::with_capacity(alloc, shelves.len())?;
    for kept in shelves {
        saved.push(saved_shelf(kept))?;
    }
    Ok(saved)
}

/// What buckets are saved as. Takes memory for all of them.
pub fn saved_buckets(
    alloc: Global,
    buckets: &[LinkedBucket],
) -> Result<Vec<BucketRecord>, AllocError>
    ensures { IfOk result (λ saved. map spec.linked_bucket saved.items ≡ buckets.now) }
{
    let mut saved = Vec::with_capacity(alloc, buckets.len())?;
    for bucket in buckets {
        saved.push(saved_bucket(bucket))?;
    }
    Ok(saved)
}
