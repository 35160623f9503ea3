//! What one pass over the buckets of a shelf finds: whose they are, how they are filled, where they stand, and what
//! they have.
//!
//! Definitions: `Judging`.

ghost use Rattle.std.specs.Prelude.{◌≡◌, ◌+◌, ◌*◌, ◌%◌, ◌<◌, ◌≤◌, ◌^◌, ◌&&◌, ◌==◌, nat_le, length};
ghost use Rattle.std.specs.List.{AllByRecursion, list_all};
ghost use Rattle.bucketed_model.specs.State.{generations};
ghost use Rattle.bucketed_restoring.specs.Private.Judging as spec;

use bucketed_records::records::{LinkedBucket, LinkedBucketShelf, MOST_GIVEN, record_room};
use etagere_base::Frame;
use etagere_links::is_multiple;

/// What is found of the buckets of a shelf.
#[derive(Clone, Copy)]
pub(crate) struct JudgedBuckets {
    /// Whether each names its shelf.
    pub are_owned: bool,
    /// Whether each is filled as a bucket must be.
    pub are_filled: bool,
    /// Whether they stand side by side: the last one where the shelf begins, each other one at an aligned place, and
    /// each ends at most where the one before it stands.
    pub stand_together: bool,
    /// How much of their width they have used.
    pub used_width: u32,
    /// How many of their items are live.
    pub live_items: u32,
    /// The greatest width that one of them can give.
    pub widest_room: u16,
}

/// Where the buckets met so far stand.
#[derive(Clone, Copy)]
struct Stand {
    /// Whether each ends at most where the one before it stands, which is an aligned place.
    are_apart: bool,
    /// Whether the last one stands at an aligned place.
    is_aligned: bool,
    /// Where the last one stands.
    place: u32,
}

/// Judges the buckets of these numbers, of the shelf of a number, in one pass.
pub(crate) fn judged_buckets(
    frame: &Frame,
    buckets: &[LinkedBucket],
    shelf: &LinkedBucketShelf,
    number: u16,
    numbers: &[u16],
) -> JudgedBuckets
    requires alignment { 1 ≤ spec.alignment_along frame.now }
    requires narrow { frame.now.column_width < 2 ^ 16 }
    requires few { length numbers.now < 2 ^ 16 }
    requires within { AllByRecursion (λ bucket. bucket < length buckets.now) numbers.now }
    ensures owned { result.are_owned ≡ list_all (spec.is_owned buckets.now number) numbers.now }
    ensures filled { result.are_filled ≡ list_all (spec.is_filled_at
        (spec.alignment_along frame.now) shelf.now.bucket_width shelf.now.height buckets.now) numbers.now }
    ensures generations { AllByRecursion
        (λ bucket. spec.generation_of buckets.now bucket < generations) numbers.now }
    ensures stand { result.stand_together ≡ spec.stand_together
        (spec.alignment_along frame.now) shelf.now.bucket_width buckets.now shelf.now.x
        (shelf.now.x + frame.now.column_width) numbers.now }
    ensures used { result.used_width
        ≡ spec.used_by shelf.now.bucket_width buckets.now numbers.now }
    ensures small { result.used_width ≤ length numbers.now * 2 ^ 16 }
    ensures live { result.live_items ≡ spec.live_by buckets.now numbers.now }
    ensures widest { result.widest_room ≡ spec.widest_by buckets.now numbers.now }
{
    let alignment = frame.alignment_along();
    let begin = u32::from(shelf.x);
    let mut judged = JudgedBuckets {
        are_owned: true,
        are_filled: true,
        stand_together: false,
        used_width: 0,
        live_items: 0,
        widest_room: 0,
    };
    let mut stand = Stand {
        are_apart: !numbers.is_empty(),
        is_aligned: true,
        place: begin + frame.column_width,
    };
    for met in numbers {
        let at = usize::from(*met);
        let bucket = &buckets[at];
        judged.are_owned = judged.are_owned & (bucket.shelf == number);
        judged.are_filled = judged.are_filled & is_kept(alignment, shelf, bucket);
        judged.used_width += u32::from(shelf.bucket_width.saturating_sub(bucket.free_space));
        judged.live_items += u32::from(bucket.refcount);
        judged.widest_room = judged.widest_room.max(record_room(bucket));
        stand = stand_below(alignment, shelf.bucket_width, stand, bucket);
    }
    judged.stand_together = stand.are_apart & (stand.place == begin);
    judged
}

/// Where buckets this wide stand once one more is met.
fn stand_below(alignment: u32, width: u16, stand: Stand, bucket: &LinkedBucket) -> Stand
    requires { 1 ≤ alignment }
    ensures apart { result.are_apart ≡ (stand.are_apart
        && (stand.is_aligned && nat_le (bucket.now.x + width) stand.place)) }
    ensures aligned { result.is_aligned ≡ (bucket.now.x % alignment == 0) }
    ensures place { result.place ≡ bucket.now.x }
{
    let place = u32::from(bucket.x);
    Stand {
        are_apart: stand.are_apart && stand.is_aligned && place + u32::from(width) <= stand.place,
        is_aligned: is_multiple(place, alignment),
        place,
    }
}

/// Whether a bucket's used width, given count and live count agree, where its shelf has this bucket width and height.
fn is_filled(alignment: u32, width: u16, height: u16, bucket: &LinkedBucket) -> bool
    requires { 1 ≤ alignment }
    ensures { result ≡ spec.is_filled alignment width height bucket.now }
{
    if bucket.free_space > width {
        return false;
    }
    let used = u32::from(width - bucket.free_space);
    if !is_multiple(used, alignment)
        || bucket.refcount > bucket.item_count
        || bucket.item_count > MOST_GIVEN
    {
        return false;
    }
    if bucket.refcount == 0 {
        bucket.item_count == 0 && used == 0
    } else {
        u64::from(bucket.item_count) * u64::from(alignment) <= u64::from(used) && 1 <= height
    }
}

/// Whether a bucket of this shelf is filled as it must be. Reads the generation, which has 8 bits and so fits into an
/// id, and the live count, which has 16.
fn is_kept(alignment: u32, shelf: &LinkedBucketShelf, bucket: &LinkedBucket) -> bool
    requires { 1 ≤ alignment }
    ensures value { result
        ≡ spec.is_filled alignment shelf.now.bucket_width shelf.now.height bucket.now }
    ensures generation { bucket.now.generation < generations }
    ensures live { bucket.now.refcount < 2 ^ 16 }
{
    let _generation = bucket.generation;
    let _live_items = bucket.refcount;
    is_filled(alignment, shelf.bucket_width, shelf.height, bucket)
}
