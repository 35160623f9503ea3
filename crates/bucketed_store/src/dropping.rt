//! Dropping the shelves at the end that hold nothing live, and what the others leave.
//!
//! Definitions: `Private/Returns`. The buckets of a dropped shelf are unused as a whole, in their order.

ghost use Rattle.std.specs.Prelude.{◌≡◌, ◌<◌, ◌≤◌, ◌+◌, ◌^◌, None, Some, length, vec_len, vec_capacity};
ghost use Rattle.etagere_links.specs.Edits.{changed_by};
ghost use Rattle.etagere_links.specs.Links.{no_link};
ghost use Rattle.bucketed_model.specs.Picking.{or_else};
ghost use Rattle.bucketed_model.specs.State.{most_buckets};
ghost use Rattle.bucketed_records.specs.BucketRecords.{next_of};
ghost use Rattle.bucket_index.specs.Private.Spans.{AreSpans};
ghost use Rattle.bucketed_store.specs.Private.Returns as spec;

use bucket_index::spans::Spans;
use bucketed_records::records::{KeptShelf, LinkedBucket};
use etagere_links::Link;

/// Where a list of buckets ends: its last one, and how many there are.
#[derive(Clone, Copy, Debug, PartialEq, Eq)]
pub(crate) struct RowEnd {
    pub last: usize,
    pub count: u32,
}

/// What `number_or_none` answers for no link.
const NO_NUMBER: usize = 65535;

/// The number of the bucket that a link names, `NO_NUMBER` where it names none: where that is tested at once, a number that may
/// be none takes more instructions.
fn number_or_none(link: Link) -> usize
    ensures none { result ≡ no_link → link ≡ None }
    ensures some { (result ≡ no_link → ⊥) → link ≡ Some result }
{
    usize::from(link.bits())
}

/// The link to the bucket after the one of this number; none where there is no such bucket.
pub(crate) fn next_of(buckets: &[LinkedBucket], number: usize) -> Link
    ensures { result ≡ next_of buckets.now number }
{
    if number < buckets.len() {
        buckets[number].next
    } else {
        Link::none()
    }
}

/// Where a list ends that comes to a number of no record: there, unless that stands for no link.
fn end_by(end: RowEnd, number: usize) -> RowEnd
    requires few { end.count < 2 ^ 31 }
    ensures none { number ≡ no_link → result ≡ end }
    ensures some { (number ≡ no_link → ⊥)
        → result ≡ record { last = number; count = end.count + 1 } }
{
    if number == NO_NUMBER {
        return end;
    }
    RowEnd {
        last: number,
        count: end.count + 1,
    }
}

/// Where the list of a bucket ends. Each step has one test for both of no link and no record, as there are few records.
fn row_end(buckets: &[LinkedBucket], first: usize) -> RowEnd
    requires { length buckets.now ≤ most_buckets }
    ensures end { result ≡ spec.row_end buckets.now first }
    ensures small { result.count ≤ most_buckets + 1 }
{
    let mut end = RowEnd {
        last: first,
        count: 1,
    };
    let mut number = usize::from(next_of(buckets, first).bits());
    for _step in 0..buckets.len() {
        if number >= buckets.len() {
            return end_by(end, number);
        }
        end = RowEnd {
            last: number,
            count: end.count + 1,
        };
        number = usize::from(buckets[number].next.bits());
    }
    end
}

/// Changes the link of a bucket.
fn link_to(buckets: &mut [LinkedBucket], number: usize, next: Link)
    ensures { buckets.new ≡ changed_by (Some number) (spec.linked_to next) buckets.old }
{
    if number < buckets.len() {
        let bucket = &mut buckets[number];
        bucket.next = next;
    }
}

/// Puts the list of a bucket in front of the unused ones, and answers how many stand in it.
fn make_row_unused(
    buckets: &mut [LinkedBucket],
    spans: &mut Spans,
    unused: &mut Link,
    first: Link,
) -> u32
    requires few { length buckets.old ≤ most_buckets }
    requires spans { AreSpans spans.old buckets.old }
    ensures buckets { buckets.new ≡ spec.row_unused first unused.old buckets.old }
    ensures unused { unused.new ≡ or_else first unused.old }
    ensures count { result ≡ spec.row_count buckets.old first }
    ensures spans { AreSpans spans.new buckets.new }
    ensures small { result ≤ most_buckets + 1 }
{
    let first_number = number_or_none(first);
    if first_number == NO_NUMBER {
        return 0;
    }
    let end = row_end(buckets, first_number);
    link_to(buckets, end.last, *unused);
    spans.forget(end.last);
    *unused = first;
    end.count
}

/// Whether there is a last shelf and it holds nothing live.
pub(crate) fn ends_idle(shelves: &[KeptShelf]) -> bool
    ensures { result ≡ spec.ends_idle shelves.now }
{
    match shelves.last() {
        Some(last) => last.is_idle(),
        None => false,
    }
}

/// Drops the shelves at the end that hold nothing live, and answers how many buckets became unused. Inlined, which
/// saves some 4 % of the instructions where a shelf of one bucket comes and goes.
#[inline(always)]
pub(crate) fn drop_idle_end(
    shelves: &mut Vec<KeptShelf>,
    buckets: &mut [LinkedBucket],
    spans: &mut Spans,
    unused: &mut Link,
) -> u32
    requires shelves { vec_len shelves.old ≤ most_buckets }
    requires buckets { length buckets.old ≤ most_buckets }
    requires spans { AreSpans spans.old buckets.old }
    ensures dropped { spec.dropping_of shelves.new.items buckets.new unused.new result
        ≡ spec.end_dropped (vec_len shelves.old)
        (spec.dropping_of shelves.old.items buckets.old unused.old 0) }
    ensures capacity { vec_capacity shelves.new ≡ vec_capacity shelves.old }
    ensures spans { AreSpans spans.new buckets.new }
{
    let mut left = shelves.len();
    let mut dropped = 0;
    while 0 < left {
        let last = &shelves[left - 1];
        if last.live_items > 0 {
            break;
        }
        let first = last.shelf.first_bucket;
        dropped += make_row_unused(buckets, spans, unused, first);
        left -= 1;
    }
    shelves.truncate(left);
    dropped
}
