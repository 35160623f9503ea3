//! Why a size does not fit. Nothing here changes the records.
//!
//! Definitions: `Refusals`, and `Refusal` for what they mean.

ghost use Rattle.std.specs.Prelude.{◌≡◌, ◌<◌, ◌^◌};
ghost use Rattle.std.specs.List.{list_any};
ghost use Rattle.bucketed_model.specs.Frames.{IsBucketedFrame};
ghost use Rattle.bucket_index.specs.Private.Spans.{AreSpans};
ghost use Rattle.bucketed_store.specs.Private.Refusals as spec;

use crate::placing::has_placement;
use crate::store::Store;
use bucket_index::searching::{Wanted, first_wanted};
use bucket_index::spans::Spans;
use bucketed_model::adding::Remaining;
use bucketed_model::refusals::{BucketedRefusal, has_space};
use bucketed_records::records::{KeptShelf, LinkedBucket};
use etagere_base::{Frame, Sides};

/// The widest room in the shelves that are at least so tall.
pub(crate) fn widest_in(shelves: &[KeptShelf], height: u32) -> u16
    ensures { result ≡ spec.kept_widest height shelves.now }
{
    let mut widest = 0;
    for kept in shelves {
        if height <= u32::from(kept.shelf.height) {
            widest = widest.max(kept.widest_room);
        }
    }
    widest
}

/// Whether a shelf is tall enough, and a bucket of it has the width left.
fn has_width(sides: &Sides, kept: &KeptShelf, buckets: &[LinkedBucket], spans: &Spans) -> bool
    requires { AreSpans spans.now buckets.now }
    ensures { result ≡ spec.kept_has_width sides.now buckets.now kept.now }
{
    let wanted = Wanted::Wide(sides.along);
    sides.across <= u32::from(kept.shelf.height)
        && first_wanted(wanted, buckets, spans, kept.shelf.first_bucket).is_some()
}

/// Whether one of the shelves does so.
fn any_has_width(
    sides: &Sides,
    shelves: &[KeptShelf],
    buckets: &[LinkedBucket],
    spans: &Spans,
) -> bool
    requires { AreSpans spans.now buckets.now }
    ensures { result ≡ list_any (spec.kept_has_width sides.now buckets.now) shelves.now }
{
    for kept in shelves {
        if has_width(sides, kept, buckets, spans) {
            return true;
        }
    }
    false
}

/// Why these sides do not fit into shelves of which none can take them.
fn shelves_refusal(
    frame: &Frame,
    left: &Remaining,
    sides: &Sides,
    shelves: &[KeptShelf],
    buckets: &[LinkedBucket],
    spans: &Spans,
) -> BucketedRefusal
    requires column { left.now.column < 2 ^ 31 }
    requires spans { AreSpans spans.now buckets.now }
    ensures { result
        ≡ spec.kept_shelves_refusal frame.now left.now sides.now shelves.now buckets.now }
{
    if has_space(frame, left, sides.across) {
        return BucketedRefusal::NoBuckets;
    }
    if any_has_width(sides, shelves, buckets, spans) {
        return BucketedRefusal::ItemsUsedUp;
    }
    BucketedRefusal::NoRoom {
        widest: u32::from(widest_in(shelves, sides.across)),
    }
}

/// Why these sides do not fit, none where they do. Goes through the shelves as the search of an allocation does, and
/// once more where there is none, and then looks at the buckets of those that are tall enough.
pub fn sides_refusal(
    frame: &Frame,
    left: &Remaining,
    sides: &Sides,
    store: &Store,
) -> Option<BucketedRefusal>
    requires frame { IsBucketedFrame frame.now }
    requires across { (0 < sides.now.across) × (sides.now.across < 2 ^ 31) }
    requires column { left.now.column < 2 ^ 31 }
    ensures { result
        ≡ spec.kept_refusal frame.now left.now sides.now store.now.shelves store.now.buckets }
{
    if has_placement(frame, left, sides, store) {
        return None;
    }
    Some(shelves_refusal(
        frame,
        left,
        sides,
        &store.shelves,
        &store.buckets,
        &store.spans,
    ))
}
