//! Giving shelves further buckets in a width that is added.
//!
//! Definitions: `Private/Grows`, and `Growing` for what they mean. Room for new records is reserved
//! before, by the caller.

ghost use Rattle.std.specs.Prelude.{◌≡◌, ◌+◌, ◌-◌, ◌*◌, ◌<◌, ◌≤◌, ◌^◌, Some, length, vec_len, vec_capacity};
ghost use Rattle.etagere_links.specs.Edits.{changed_by};
ghost use Rattle.etagere_links.specs.Links.{no_link};
ghost use Rattle.bucketed_model.specs.State.{most_buckets};
ghost use Rattle.bucket_index.specs.Private.Spans.{AreSpans};
ghost use Rattle.bucketed_store.specs.Private.Grows as spec;
ghost use Rattle.bucketed_store.specs.Private.Returns.{width_of};

use crate::making::{NewBuckets, make_buckets};
use crate::store::first_bucket;
use bucket_index::spans::Spans;
use bucketed_records::records::{KeptShelf, LinkedBucket, LinkedBucketShelf};
use etagere_links::Link;

/// How many buckets a shelf gets for a width that is added, where so many are left.
fn share(added: u32, width: u16, left: u32) -> u32
    ensures { result ≡ spec.share added width left }
{
    if width == 0 {
        return 0;
    }
    (added / u32::from(width)).min(left)
}

/// How many buckets are left after the shelves got theirs for a width that is added.
pub(crate) fn left_after(shelves: &[KeptShelf], added: u32, left: u32) -> u32
    ensures { result ≡ spec.left_after added left shelves.now }
{
    if added == 0 {
        return left;
    }
    let mut left = left;
    for kept in shelves {
        left -= share(added, kept.shelf.bucket_width, left);
    }
    left
}

/// What is kept of a shelf that got so many buckets, of which `first` names the first.
fn widened_kept(kept: &KeptShelf, count: u32, first: Link) -> KeptShelf
    ensures { result ≡ spec.widened_kept count first kept.now }
{
    KeptShelf {
        shelf: LinkedBucketShelf {
            first_bucket: first,
            ..kept.shelf
        },
        live_items: kept.live_items,
        widest_room: if count == 0 {
            kept.widest_room
        } else {
            kept.shelf.bucket_width
        },
    }
}

/// Keeps that the shelf of a number got so many buckets, of which `first` names the first.
fn set_widened(shelves: &mut [KeptShelf], number: usize, count: u32, first: Link)
    requires { number < length shelves.old }
    ensures { shelves.new ≡ changed_by (Some number) (spec.widened_kept count first) shelves.old }
{
    let kept = widened_kept(&shelves[number], count, first);
    shelves[number] = kept;
}

/// How wide the buckets of the shelf of a number are.
fn width_of(shelves: &[KeptShelf], number: usize) -> u16
    requires { number < length shelves.now }
    ensures { result ≡ width_of shelves.now number }
{
    shelves[number].shelf.bucket_width
}

/// Gives the shelf of a number so many buckets, side by side from a place on.
fn widen_shelf(
    shelves: &mut [KeptShelf],
    buckets: &mut Vec<LinkedBucket>,
    spans: &mut Spans,
    unused: &mut Link,
    number: usize,
    place: u32,
    count: u32,
)
    requires number { number < length shelves.old }
    requires small { number < 2 ^ 16 }
    requires room { length
        (spec.shelf_widened number place count
        (spec.stored_of shelves.old buckets.old.items unused.old)).buckets
        ≤ vec_capacity buckets.old }
    requires few { vec_len buckets.old + count ≤ no_link }
    requires narrow { place + count * width_of shelves.old number < 2 ^ 16 }
    requires spans { AreSpans spans.old buckets.old.items }
    ensures stored { spec.stored_of shelves.new buckets.new.items unused.new
        ≡ spec.shelf_widened number place count
        (spec.stored_of shelves.old buckets.old.items unused.old) }
    ensures length { length shelves.new ≡ length shelves.old }
    ensures used { vec_len buckets.new ≤ vec_len buckets.old + count }
    ensures capacity { vec_capacity buckets.old ≤ vec_capacity buckets.new }
    ensures spans { AreSpans spans.new buckets.new.items }
{
    let row = NewBuckets {
        shelf: number as u16,
        width: width_of(shelves, number),
        x: place as u16,
    };
    let old = first_bucket(shelves, number);
    let first = make_buckets(buckets, spans, unused, old, &row, count);
    set_widened(shelves, number, count, first);
}

/// Gives the shelves their buckets for a width that is added at a place, where so many are left.
pub(crate) fn widen_shelves(
    shelves: &mut [KeptShelf],
    buckets: &mut Vec<LinkedBucket>,
    spans: &mut Spans,
    unused: &mut Link,
    place: u32,
    added: u32,
    left: u32,
)
    requires shelves { length shelves.old ≤ most_buckets }
    requires room { length
        (spec.shelves_widened (length shelves.old) 0 place added left
        (spec.stored_of shelves.old buckets.old.items unused.old)).buckets
        ≤ vec_capacity buckets.old }
    requires few { vec_len buckets.old + (left - spec.left_after added left shelves.old)
        ≤ no_link }
    requires narrow { place + added < 2 ^ 16 }
    requires spans { AreSpans spans.old buckets.old.items }
    ensures stored { spec.stored_of shelves.new buckets.new.items unused.new
        ≡ spec.shelves_widened (length shelves.old) 0 place added left
        (spec.stored_of shelves.old buckets.old.items unused.old) }
    ensures capacity { vec_capacity buckets.old ≤ vec_capacity buckets.new }
    ensures spans { AreSpans spans.new buckets.new.items }
{
    let mut left = left;
    for number in 0..shelves.len() {
        let count = share(added, width_of(shelves, number), left);
        left -= count;
        widen_shelf(shelves, buckets, spans, unused, number, place, count);
    }
}
