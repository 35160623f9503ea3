//! Where an item goes, and what is made ready for it.
//!
//! Definitions: `Private/Placing` and `StoreEdits`, and `Placing` of `bucketed_model` for what they mean.

ghost use Rattle.std.specs.Prelude.{◌≡◌, ◌<◌, ◌^◌, IsTrue, is_some};
ghost use Rattle.std.specs.Option.{option_map};
ghost use Rattle.bucketed_model.specs.Adding.{can_add};
ghost use Rattle.bucketed_model.specs.Frames.{IsBucketedFrame};
ghost use Rattle.bucket_index.specs.Private.Blocks.{AreKnown};
ghost use Rattle.bucket_index.specs.Private.Heights.{AreBelow};
ghost use Rattle.bucket_index.specs.Private.Missed.{IsMissed};
ghost use Rattle.bucket_index.specs.Private.Rest.{IsRest};
ghost use Rattle.bucket_index.specs.Private.Rooms.{AreCounted};
ghost use Rattle.bucket_index.specs.Private.Spans.{AreSpans};
ghost use Rattle.bucketed_store.specs.Private.Placing as spec;
ghost use Rattle.bucketed_store.specs.Private.StoreEdits as edits;

use crate::merging::{Group, mergeable_shelves};
use crate::store::Store;
use bucket_index::blocks::Blocks;
use bucket_index::heights::Heights;
use bucket_index::missed::Missed;
use bucket_index::rest::Rest;
use bucket_index::rooms::Rooms;
use bucket_index::searching::{FoundBucket, pick};
use bucket_index::spans::Spans;
use bucketed_model::adding::{NewShelves, Remaining, can_add, new_shelves};
use bucketed_records::records::{KeptShelf, LinkedBucket};
use etagere_base::{Frame, Sides};

/// Where an item goes.
#[derive(Clone, Copy)]
pub enum Placement {
    /// Into a bucket that is there.
    InBucket(FoundBucket),
    /// Into the first bucket of a shelf that is added.
    InAdded(NewShelves),
    /// Into the first bucket of shelves that are merged.
    InMerged(Group),
}

impl Placement {
    /// Whether it is in a bucket that is there.
    pub fn is_there(&self) -> bool
        ensures { IsTrue result → edits.IsThere (spec.placement_seen self.now) }
    {
        match self {
            Placement::InBucket(_) => true,
            _ => false,
        }
    }

    /// How many buckets have to be made for it.
    pub fn needed_buckets(&self) -> u32
        requires { edits.needed_for (spec.placement_seen self.now) < 2 ^ 32 }
        ensures { result ≡ edits.needed_for (spec.placement_seen self.now) }
    {
        match self {
            Placement::InAdded(news) => news.total_count(),
            _ => 0,
        }
    }
}

/// The placement of these sides: the bucket that is picked, else a shelf to be added, else shelves to be merged. Where no
/// bucket can be, that is kept in mind for the next search.
pub fn placement_of(
    frame: &Frame,
    left: &Remaining,
    sides: &Sides,
    store: &mut Store,
) -> Option<Placement>
    requires frame { IsBucketedFrame frame.now }
    requires across { (0 < sides.now.across) × (sides.now.across < 2 ^ 31) }
    requires column { left.now.column < 2 ^ 31 }
    ensures placement { option_map spec.placement_seen result
        ≡ spec.kept_placement frame.now left.now sides.now store.old.shelves store.old.buckets }
    ensures same { store.new ≡ store.old }
{
    placement_in(
        frame,
        left,
        sides,
        &store.shelves,
        &store.buckets,
        &store.blocks,
        &store.spans,
        &store.rest,
        &store.rooms,
        &store.heights,
        &mut store.missed,
    )
}

/// Whether these sides have a placement.
pub(crate) fn has_placement(frame: &Frame, left: &Remaining, sides: &Sides, store: &Store) -> bool
    requires frame { IsBucketedFrame frame.now }
    requires across { (0 < sides.now.across) × (sides.now.across < 2 ^ 31) }
    requires column { left.now.column < 2 ^ 31 }
    ensures { result
        ≡ is_some
        (spec.kept_placement frame.now left.now sides.now store.now.shelves store.now.buckets) }
{
    let mut missed = store.missed;
    placement_in(
        frame,
        left,
        sides,
        &store.shelves,
        &store.buckets,
        &store.blocks,
        &store.spans,
        &store.rest,
        &store.rooms,
        &store.heights,
        &mut missed,
    )
    .is_some()
}

/// The placement of these sides among records, whose shelves are known to these blocks.
fn placement_in(
    frame: &Frame,
    left: &Remaining,
    sides: &Sides,
    shelves: &[KeptShelf],
    buckets: &[LinkedBucket],
    blocks: &Blocks,
    spans: &Spans,
    rest: &Rest,
    rooms: &Rooms,
    heights: &Heights,
    missed: &mut Missed,
) -> Option<Placement>
    requires frame { IsBucketedFrame frame.now }
    requires across { (0 < sides.now.across) × (sides.now.across < 2 ^ 31) }
    requires column { left.now.column < 2 ^ 31 }
    requires known { AreKnown blocks.now shelves.now }
    requires spans { AreSpans spans.now buckets.now }
    requires rest { IsRest rest.now buckets.now }
    requires rooms { AreCounted rooms.now buckets.now }
    requires below { AreBelow heights.now shelves.now }
    requires missed { IsMissed missed.old shelves.now }
    ensures placement { option_map spec.placement_seen result
        ≡ spec.kept_placement frame.now left.now sides.now shelves.now buckets.now }
    ensures missed { IsMissed missed.new shelves.now }
{
    let adds = can_add(frame, left, sides.across);
    if let Some(found) = pick(
        adds, sides, shelves, buckets, blocks, spans, rest, rooms, heights, missed,
    ) {
        return Some(Placement::InBucket(found));
    }
    placement_elsewhere(adds, frame, left, sides, shelves, blocks)
}

/// The placement of these sides where no bucket is picked, by whether shelves can be added. A part of its own, so that what
/// it is found in is made ready only then.
#[inline(always)]
fn placement_elsewhere(
    adds: bool,
    frame: &Frame,
    left: &Remaining,
    sides: &Sides,
    shelves: &[KeptShelf],
    blocks: &Blocks,
) -> Option<Placement>
    requires frame { IsBucketedFrame frame.now }
    requires across { (0 < sides.now.across) × (sides.now.across < 2 ^ 31) }
    requires column { left.now.column < 2 ^ 31 }
    requires adds { adds ≡ can_add frame.now left.now sides.now.across }
    requires known { AreKnown blocks.now shelves.now }
    ensures { option_map spec.placement_seen result
        ≡ spec.kept_elsewhere adds frame.now left.now sides.now shelves.now }
{
    if adds {
        return Some(Placement::InAdded(new_shelves(frame, left, sides)));
    }
    let group = mergeable_shelves(*sides, shelves, blocks)?;
    Some(Placement::InMerged(group))
}
