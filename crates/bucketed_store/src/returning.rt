//! Returning an item to its bucket, which is emptied with the last one.
//!
//! Definitions: `Private/Returns`, and `Returning` for what they mean. A return looks at one bucket and its shelf.

ghost use Rattle.std.specs.Prelude.{◌≡◌, ◌+◌, ◌<◌, ◌≤◌, ◌*◌, IsTrue, Some, length, nat_le, false, true};
ghost use Rattle.etagere_links.specs.Edits.{changed_by};
ghost use Rattle.bucketed_model.specs.Returning as returning;
ghost use Rattle.bucketed_records.specs.StandsFor.{free_of, live_of, shelf_of};
ghost use Rattle.bucketed_store.specs.Private.Returns as spec;

use crate::dropping::ends_idle;
use crate::store::{GENERATION_UNIT, GIVEN_UNIT};
use bucketed_records::records::{KeptShelf, LinkedBucket};
use etagere_base::AllocId;

/// The number of the bucket that an id names.
pub fn bucket_number(id: AllocId) -> usize
    ensures { result ≡ (returning.tag_of id).number }
{
    (id.serialize() % GIVEN_UNIT) as usize
}

/// Whether a bucket holds something live and has given the item of an id.
fn gives_item(id: u32, bucket: &LinkedBucket) -> bool
    ensures { result ≡ spec.gives_item id bucket.now }
{
    let given = id / GIVEN_UNIT % GIVEN_UNIT;
    id / GENERATION_UNIT == u32::from(bucket.generation)
        && 0 < bucket.refcount
        && 0 < given
        && given <= u32::from(bucket.item_count)
}

/// Whether the bucket that an id names has given its item, and holds something live.
pub(crate) fn is_known(buckets: &[LinkedBucket], id: AllocId) -> bool
    ensures { result ≡ spec.is_known_in buckets.now id }
{
    let number = bucket_number(id);
    number < buckets.len() && gives_item(id.serialize(), &buckets[number])
}

/// The number of the shelf of a bucket.
pub(crate) fn shelf_number(buckets: &[LinkedBucket], number: usize) -> usize
    requires { number < length buckets.now }
    ensures { result ≡ shelf_of buckets.now number }
{
    usize::from(buckets[number].shelf)
}

/// The area that a return to the bucket of this number gives back, in square pixels.
pub(crate) fn returned_area(shelves: &[KeptShelf], buckets: &[LinkedBucket], number: usize) -> u32
    requires number { number < length buckets.now }
    requires shelf { shelf_of buckets.now number < length shelves.now }
    requires free { free_of buckets.now number
        ≤ spec.width_of shelves.now (shelf_of buckets.now number) }
    ensures { result ≡ spec.returned_area number shelves.now buckets.now }
{
    let bucket = &buckets[number];
    let shelf = &shelves[usize::from(bucket.shelf)].shelf;
    if bucket.refcount > 1 {
        return 0;
    }
    u32::from(shelf.bucket_width - bucket.free_space) * u32::from(shelf.height)
}

/// Takes an item out of a bucket, in a shelf whose buckets are this wide.
fn take_back(bucket: &mut LinkedBucket, width: u16)
    ensures { bucket.new ≡ spec.returned_record width bucket.old }
{
    if bucket.refcount > 1 {
        bucket.refcount -= 1;
        return;
    }
    empty_bucket(bucket, width);
}

/// Empties a bucket, in a shelf whose buckets are this wide.
fn empty_bucket(bucket: &mut LinkedBucket, width: u16)
    ensures { bucket.new ≡ spec.emptied_record width bucket.old }
{
    bucket.free_space = width;
    bucket.refcount = 0;
    bucket.item_count = 0;
    bucket.generation = bucket.generation.wrapping_add(1);
}

/// Counts one live item less in a shelf, which may have emptied a bucket.
fn count_returned(kept: &mut KeptShelf, empties: bool)
    ensures { kept.new ≡ spec.returned_kept empties kept.old }
{
    kept.live_items = kept.live_items.saturating_sub(1);
    if empties {
        kept.widest_room = kept.shelf.bucket_width;
    }
}

/// Counts the only live item of a shelf as returned, which emptied a bucket.
fn count_none(kept: &mut KeptShelf)
    requires { kept.old.live_items ≡ 1 }
    ensures { kept.new ≡ spec.returned_kept true kept.old }
{
    kept.live_items = 0;
    kept.widest_room = kept.shelf.bucket_width;
}

/// Returns an item to the bucket of this number.
pub(crate) fn return_item(shelves: &mut [KeptShelf], buckets: &mut [LinkedBucket], number: usize)
    requires number { number < length buckets.old }
    requires shelf { shelf_of buckets.old number < length shelves.old }
    ensures shelves { shelves.new
        ≡ changed_by (Some (shelf_of buckets.old number))
        (spec.returned_kept (nat_le (live_of buckets.old number) 1)) shelves.old }
    ensures buckets { buckets.new
        ≡ changed_by (Some number)
        (spec.returned_record (spec.width_of shelves.old (shelf_of buckets.old number)))
        buckets.old }
{
    let bucket = &mut buckets[number];
    let kept = &mut shelves[usize::from(bucket.shelf)];
    let empties = bucket.refcount <= 1;
    take_back(bucket, kept.shelf.bucket_width);
    count_returned(kept, empties);
}

/// The same where that is the only live item of its shelf.
pub(crate) fn return_only(shelves: &mut [KeptShelf], buckets: &mut [LinkedBucket], number: usize)
    requires number { number < length buckets.old }
    requires shelf { shelf_of buckets.old number < length shelves.old }
    requires only { spec.IsOnly number shelves.old buckets.old }
    ensures shelves { shelves.new
        ≡ changed_by (Some (shelf_of buckets.old number))
        (spec.returned_kept (nat_le (live_of buckets.old number) 1)) shelves.old }
    ensures buckets { buckets.new
        ≡ changed_by (Some number)
        (spec.returned_record (spec.width_of shelves.old (shelf_of buckets.old number)))
        buckets.old }
{
    let bucket = &mut buckets[number];
    let kept = &mut shelves[usize::from(bucket.shelf)];
    count_none(kept);
    empty_bucket(bucket, kept.shelf.bucket_width);
}

/// Whether an item returned to the bucket of a number is the only live one of its shelf, and no shelf is dropped then.
#[inline(always)]
pub(crate) fn leaves_idle(shelves: &[KeptShelf], buckets: &[LinkedBucket], number: usize) -> bool
    requires number { number < length buckets.now }
    requires shelf { shelf_of buckets.now number < length shelves.now }
    ensures exact { result ≡ spec.leaves_idle number shelves.now buckets.now }
    ensures only { IsTrue result → spec.IsOnly number shelves.now buckets.now }
    ensures before { IsTrue result → shelf_of buckets.now number + 1 < length shelves.now }
    ensures last { IsTrue result → spec.ends_idle shelves.now ≡ false }
{
    let bucket = &buckets[number];
    let shelf = usize::from(bucket.shelf);
    bucket.refcount <= 1
        && shelves[shelf].live_items == 1
        && shelf + 1 < shelves.len()
        && !ends_idle(shelves)
}

/// Whether the bucket of a number keeps other live items, and its shelf too, where an item is returned to it, and no shelf is
/// dropped then.
#[inline(always)]
pub(crate) fn leaves_others(shelves: &[KeptShelf], buckets: &[LinkedBucket], number: usize) -> bool
    requires number { number < length buckets.now }
    requires shelf { shelf_of buckets.now number < length shelves.now }
    ensures { IsTrue result → spec.LeavesOthers number shelves.now buckets.now }
{
    let bucket = &buckets[number];
    bucket.refcount > 1 && shelves[usize::from(bucket.shelf)].live_items > 1 && !ends_idle(shelves)
}
