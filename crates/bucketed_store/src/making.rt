//! Makes buckets: from unused records, the one that became unused last first, else from new records.
//!
//! Definitions: `StoreEdits`. Memory is taken before, by `reserve_records`: nothing else fails.

ghost use Rattle.std.specs.Prelude.{◌≡◌, ◌+◌, ◌*◌, ◌%◌, ◌<◌, ◌≤◌, ◌^◌, None, OnOk, OnErr, length, vec_len, vec_capacity};
ghost use Rattle.etagere_links.specs.Links.{no_link};
ghost use Rattle.bucketed_model.specs.State.{generations};
ghost use Rattle.bucket_index.specs.Private.Spans.{AreSpans};
ghost use Rattle.bucketed_store.specs.Private.StoreEdits as spec;

use bucket_index::spans::Spans;
use bucketed_records::records::LinkedBucket;
use etagere_links::Link;
use std::alloc::AllocError;

/// Buckets to be made side by side: the number of their shelf, their width, and where the first one begins.
#[derive(Clone, Copy, Debug, PartialEq, Eq)]
pub(crate) struct NewBuckets {
    pub shelf: u16,
    pub width: u16,
    pub x: u16,
}

/// Makes room for so many records in all. The error comes only where there are fewer and there was no
/// memory.
pub(crate) fn reserve_records(buckets: &mut Vec<LinkedBucket>, count: u32) -> Result<(), AllocError>
    ensures same { buckets.new.items ≡ buckets.old.items }
    ensures room { OnOk result (count ≤ vec_capacity buckets.new) }
    ensures within { vec_len buckets.new ≤ vec_capacity buckets.new }
    ensures fewer { OnErr result (vec_len buckets.old < count) }
{
    let count = count as usize;
    if buckets.len() < count {
        buckets.reserve(count - buckets.len())?;
    }
    Ok(())
}

fn new_record(new: &NewBuckets, next: Link, generation: u8) -> LinkedBucket
    ensures { result ≡ spec.new_record new.now next generation }
{
    LinkedBucket {
        x: new.x,
        free_space: new.width,
        next,
        refcount: 0,
        item_count: 0,
        shelf: new.shelf,
        generation,
    }
}

/// Makes a record one of a bucket that has given nothing yet, under its next generation. Fields are written one by one,
/// so that what pads a record isn't.
fn renew(bucket: &mut LinkedBucket, new: &NewBuckets, next: Link)
    ensures { bucket.new
        ≡ spec.new_record new.now next ((bucket.old.generation + 1) % generations) }
{
    bucket.x = new.x;
    bucket.free_space = new.width;
    bucket.next = next;
    bucket.refcount = 0;
    bucket.item_count = 0;
    bucket.shelf = new.shelf;
    bucket.generation = bucket.generation.wrapping_add(1);
}

/// Makes a bucket in front of the first one of its shelf, in the unused record of this number, which became unused
/// last, and answers the link to it.
#[inline(always)]
fn reuse_bucket(
    buckets: &mut [LinkedBucket],
    spans: &mut Spans,
    unused: &mut Link,
    first: Link,
    new: &NewBuckets,
    number: usize,
) -> Link
    requires within { number < length buckets.old }
    requires few { length buckets.old ≤ no_link }
    requires named { unused.old ≡ Some number }
    requires spans { AreSpans spans.old buckets.old }
    ensures buckets { buckets.new
        ≡ (spec.made_one new.now
        (record { buckets = buckets.old; unused = unused.old; first = first })).buckets }
    ensures unused { unused.new
        ≡ (spec.made_one new.now
        (record { buckets = buckets.old; unused = unused.old; first = first })).unused }
    ensures first { result
        ≡ (spec.made_one new.now
        (record { buckets = buckets.old; unused = unused.old; first = first })).first }
    ensures spans { AreSpans spans.new buckets.new }
{
    let bucket = &mut buckets[number];
    *unused = bucket.next;
    renew(bucket, new, first);
    spans.forget(number);
    Link::to(number)
}

/// Makes a bucket in front of the first one of its shelf, in a new record where none is unused, and answers the link to it.
#[inline(always)]
fn push_bucket(buckets: &mut Vec<LinkedBucket>, first: Link, new: &NewBuckets) -> Link
    requires room { vec_len buckets.old < vec_capacity buckets.old }
    requires few { vec_len buckets.old < no_link }
    ensures made { record { buckets = buckets.new.items; unused = None; first = result }
        ≡ spec.made_one new.now
        (record { buckets = buckets.old.items; unused = None; first = first }) }
    ensures length { vec_len buckets.new ≡ vec_len buckets.old + 1 }
    ensures capacity { vec_capacity buckets.old ≤ vec_capacity buckets.new }
    ensures spans { (spans : Spans) → AreSpans spans buckets.old.items
        → AreSpans spans buckets.new.items }
{
    let number = buckets.len();
    buckets.push_reserved(new_record(new, first, 0));
    Link::to(number)
}

/// Makes a bucket in front of the first one of its shelf, and answers the link to it.
#[inline(always)]
fn make_bucket(
    buckets: &mut Vec<LinkedBucket>,
    spans: &mut Spans,
    unused: &mut Link,
    first: Link,
    new: &NewBuckets,
) -> Link
    requires room { length
        (spec.made_one new.now
        (record { buckets = buckets.old.items; unused = unused.old; first = first })).buckets
        ≤ vec_capacity buckets.old }
    requires few { vec_len buckets.old < no_link }
    requires spans { AreSpans spans.old buckets.old.items }
    ensures buckets { buckets.new.items
        ≡ (spec.made_one new.now
        (record { buckets = buckets.old.items; unused = unused.old; first = first })).buckets }
    ensures unused { unused.new
        ≡ (spec.made_one new.now
        (record { buckets = buckets.old.items; unused = unused.old; first = first })).unused }
    ensures first { result
        ≡ (spec.made_one new.now
        (record { buckets = buckets.old.items; unused = unused.old; first = first })).first }
    ensures length { vec_len buckets.new ≤ vec_len buckets.old + 1 }
    ensures capacity { vec_capacity buckets.old ≤ vec_capacity buckets.new }
    ensures spans { AreSpans spans.new buckets.new.items }
{
    let number = usize::from(unused.bits());
    if number < buckets.len() {
        return reuse_bucket(buckets, spans, unused, first, new, number);
    }
    push_bucket(buckets, first, new)
}

/// Makes so many buckets from left to right as long as there are unused records, each in front of the one before, and
/// answers how many are still to be made. It goes over a slice, whose place and length stay at hand from step to step.
#[inline(always)]
fn reuse_buckets(
    buckets: &mut [LinkedBucket],
    spans: &mut Spans,
    left: &mut Link,
    first: &mut Link,
    row: &mut NewBuckets,
    count: u32,
) -> u32
    requires few { length buckets.old ≤ no_link }
    requires narrow { row.old.x + count * row.old.width < 2 ^ 16 }
    requires spans { AreSpans spans.old buckets.old }
    ensures made { spec.made_many result row.new
        (record { buckets = buckets.new; unused = left.new; first = first.new })
        ≡ spec.made_many count row.old
        (record { buckets = buckets.old; unused = left.old; first = first.old }) }
    ensures some { result ≤ count }
    ensures narrow { row.new.x + result * row.new.width < 2 ^ 16 }
    ensures spans { AreSpans spans.new buckets.new }
{
    for made in 0..count {
        let number = usize::from(left.bits());
        if number >= buckets.len() {
            return count - made;
        }
        *first = reuse_bucket(buckets, spans, left, *first, row, number);
        row.x += row.width;
    }
    0
}

/// Makes so many buckets from left to right, each in front of the one before, where no record is unused, and answers the
/// link to the last.
#[inline(always)]
fn push_buckets(buckets: &mut Vec<LinkedBucket>, first: Link, new: &NewBuckets, count: u32) -> Link
    requires room { length
        (spec.made_many count new.now
        (record { buckets = buckets.old.items; unused = None; first = first })).buckets
        ≤ vec_capacity buckets.old }
    requires few { vec_len buckets.old + count ≤ no_link }
    requires narrow { new.now.x + count * new.now.width < 2 ^ 16 }
    ensures made { record { buckets = buckets.new.items; unused = None; first = result }
        ≡ spec.made_many count new.now
        (record { buckets = buckets.old.items; unused = None; first = first }) }
    ensures length { vec_len buckets.new ≤ vec_len buckets.old + count }
    ensures capacity { vec_capacity buckets.old ≤ vec_capacity buckets.new }
    ensures spans { (spans : Spans) → AreSpans spans buckets.old.items
        → AreSpans spans buckets.new.items }
{
    let mut first = first;
    let mut here = *new;
    for _made in 0..count {
        first = push_bucket(buckets, first, &here);
        here.x += here.width;
    }
    first
}

/// Makes so many buckets from left to right, each in front of the one before, and answers the link to the last. Never
/// inlined: where the unused records don't serve for all, mostly none is left.
#[inline(never)]
fn make_rest(
    buckets: &mut Vec<LinkedBucket>,
    spans: &mut Spans,
    unused: &mut Link,
    first: Link,
    new: &NewBuckets,
    count: u32,
) -> Link
    requires room { length
        (spec.made_many count new.now
        (record { buckets = buckets.old.items; unused = unused.old; first = first })).buckets
        ≤ vec_capacity buckets.old }
    requires few { vec_len buckets.old + count ≤ no_link }
    requires narrow { new.now.x + count * new.now.width < 2 ^ 16 }
    requires spans { AreSpans spans.old buckets.old.items }
    ensures buckets { buckets.new.items
        ≡ (spec.made_many count new.now
        (record { buckets = buckets.old.items; unused = unused.old; first = first })).buckets }
    ensures unused { unused.new
        ≡ (spec.made_many count new.now
        (record { buckets = buckets.old.items; unused = unused.old; first = first })).unused }
    ensures first { result
        ≡ (spec.made_many count new.now
        (record { buckets = buckets.old.items; unused = unused.old; first = first })).first }
    ensures length { vec_len buckets.new ≤ vec_len buckets.old + count }
    ensures capacity { vec_capacity buckets.old ≤ vec_capacity buckets.new }
    ensures spans { AreSpans spans.new buckets.new.items }
{
    let mut first = first;
    let mut left = *unused;
    let mut here = *new;
    for _made in 0..count {
        first = make_bucket(buckets, spans, &mut left, first, &here);
        here.x += here.width;
    }
    *unused = left;
    first
}

/// Makes so many buckets from left to right, each in front of the one before, and answers the link to the last. Most shelves
/// have one.
#[inline(always)]
pub(crate) fn make_buckets(
    buckets: &mut Vec<LinkedBucket>,
    spans: &mut Spans,
    unused: &mut Link,
    first: Link,
    new: &NewBuckets,
    count: u32,
) -> Link
    requires room { length
        (spec.made_many count new.now
        (record { buckets = buckets.old.items; unused = unused.old; first = first })).buckets
        ≤ vec_capacity buckets.old }
    requires few { vec_len buckets.old + count ≤ no_link }
    requires narrow { new.now.x + count * new.now.width < 2 ^ 16 }
    requires spans { AreSpans spans.old buckets.old.items }
    ensures buckets { buckets.new.items
        ≡ (spec.made_many count new.now
        (record { buckets = buckets.old.items; unused = unused.old; first = first })).buckets }
    ensures unused { unused.new
        ≡ (spec.made_many count new.now
        (record { buckets = buckets.old.items; unused = unused.old; first = first })).unused }
    ensures first { result
        ≡ (spec.made_many count new.now
        (record { buckets = buckets.old.items; unused = unused.old; first = first })).first }
    ensures length { vec_len buckets.new ≤ vec_len buckets.old + count }
    ensures capacity { vec_capacity buckets.old ≤ vec_capacity buckets.new }
    ensures spans { AreSpans spans.new buckets.new.items }
{
    let mut first = first;
    let mut left = *unused;
    let mut here = *new;
    let rest = reuse_buckets(buckets, spans, &mut left, &mut first, &mut here, count);
    *unused = left;
    if rest == 0 {
        return first;
    }
    if rest == 1 {
        return make_bucket(buckets, spans, unused, first, &here);
    }
    if unused.number().is_none() {
        return push_buckets(buckets, first, &here, rest);
    }
    make_rest(buckets, spans, unused, first, &here, rest)
}
