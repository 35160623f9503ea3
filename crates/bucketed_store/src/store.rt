//! The records of an atlas, and the steps of which its calls are made. A step changes just what it says.
//!
//! Definitions: `Store`, `StoreEdits`. `Store` also says when records spell a state.

ghost use Rattle.std.specs.Prelude.{IsFalse, IsTrue, List, ◌≡◌, ◌↔◌, ◌+◌, ◌-◌, ◌*◌, ◌<◌, ◌≤◌, ◌^◌, [], None, Some, IfOk, IfSome, IfNone, IsSome, is_some, OnOk, OnErr, OnSome, false, length, slice_get, vec_len, vec_capacity, map, nat_le};
ghost use Rattle.etagere_links.specs.Edits.{changed_by};
ghost use Rattle.etagere_links.specs.Links.{no_link};
ghost use Rattle.bucketed_model.specs.Adding as adding;
ghost use Rattle.bucketed_model.specs.Frames.{IsBucketedFrame, longest_bucketed_side};
ghost use Rattle.bucketed_model.specs.State.{most_buckets};
ghost use Rattle.bucketed_model.specs.Taking as taking;
ghost use Rattle.bucketed_records.specs.StandsFor.{free_of, live_of, place_of, shelf_of};
ghost use Rattle.bucketed_records.specs.Private.Store.{record_room, shelf_record};
ghost use Rattle.bucketed_records.specs.Restoring as restoring;
ghost use Rattle.bucket_index.specs.Private.Blocks.{AreKnown};
ghost use Rattle.bucket_index.specs.Private.Heights.{AreBelow};
ghost use Rattle.bucket_index.specs.Private.Missed.{IsMissed};
ghost use Rattle.bucket_index.specs.Private.Rest.{IsRest};
ghost use Rattle.bucket_index.specs.Private.Rooms.{AreCounted};
ghost use Rattle.bucket_index.specs.Private.Searching as searching;
ghost use Rattle.bucket_index.specs.Private.Spans.{AreSpans};
ghost use Rattle.bucketed_store.specs.Private.Grows as grows;
ghost use Rattle.bucketed_store.specs.Private.Returns as returns;
ghost use Rattle.bucketed_store.specs.Private.Placing as placing;
ghost use Rattle.bucketed_store.specs.Private.StoreEdits as spec;

use crate::dropping::{drop_idle_end, ends_idle, next_of};
use crate::growing::{left_after, widen_shelves};
use crate::making::{NewBuckets, make_buckets, reserve_records};
use crate::merging::{Group, merge};
use crate::placing::Placement;
use crate::returning::{
    is_known, leaves_idle, leaves_others, return_item, return_only, returned_area, shelf_number,
};
use bucket_index::blocks::{Blocks, known_of, known_of_busy};
use bucket_index::heights::Heights;
use bucket_index::missed::Missed;
use bucket_index::rest::Rest;
use bucket_index::rooms::Rooms;
use bucket_index::searching::{FoundBucket, has_room, has_room_further, widest_room};
use bucket_index::spans::Spans;
use bucketed_model::adding::{NewShelf, NewShelves, width_of_share};
use bucketed_records::records::{
    KeptShelf, LinkedBucket, LinkedBucketShelf, MOST_BUCKETS, record_room,
};
use bucketed_records::saving::{saved_buckets, saved_shelves};
use etagere_base::{AllocId, Allocation, Frame, Sides, rectangle_at};
use etagere_links::Link;
use snapshot_records::buckets::{BucketRecord, BucketShelfRecord};
use std::alloc::{AllocError, Global};
use std::marker::Model;

/// The unit of an item's number in an id of this atlas: it stands from bit 12 on, above the bucket's number.
pub(crate) const GIVEN_UNIT: u32 = 4096;

/// The unit of the bucket's generation in an id of this atlas: it stands from bit 24 on.
pub(crate) const GENERATION_UNIT: u32 = 16777216;

/// The shelf and bucket records of an atlas, and where the unused bucket records begin.
#[derive(Drop)]
pub struct Store {
    pub(crate) shelves: Vec<KeptShelf>,
    pub(crate) buckets: Vec<LinkedBucket>,
    pub(crate) unused: Link,
    pub(crate) blocks: Blocks,
    pub(crate) spans: Spans,
    pub(crate) rest: Rest,
    pub(crate) rooms: Rooms,
    pub(crate) heights: Heights,
    pub(crate) missed: Missed,
    /// Whether a shelf may have so many buckets that a search along them goes far.
    pub(crate) may_be_long: bool,
}

impl Model for Store {
    ghost use Rattle.bucketed_records.specs.Private.Store.{Stored};
    ghost use Rattle.bucket_index.specs.Private.Blocks.{AreKnown};
    ghost use Rattle.bucket_index.specs.Private.Heights.{AreBelow};
    ghost use Rattle.bucket_index.specs.Private.Missed.{IsMissed};
    ghost use Rattle.bucket_index.specs.Private.Rest.{IsRest};
    ghost use Rattle.bucket_index.specs.Private.Rooms.{AreCounted};
    ghost use Rattle.bucket_index.specs.Private.Spans.{AreSpans};

    ghost Value = { Stored };

    ghost view = { λ store. record {
      shelves = store.shelves.items;
      buckets = store.buckets.items;
      unused = store.unused;
    } };

    ghost invariant = { λ store. AreKnown store.blocks store.shelves.items
        × AreSpans store.spans store.buckets.items
        × IsRest store.rest store.buckets.items
        × AreCounted store.rooms store.buckets.items
        × AreBelow store.heights store.shelves.items
        × IsMissed store.missed store.shelves.items };
}

/// What a return gives back.
#[derive(Clone, Copy)]
pub struct Returned {
    /// An area, in square pixels.
    pub area: u32,
    /// Whether shelves are dropped.
    pub drops: bool,
    /// How many buckets become unused with them.
    pub dropped: u32,
}

/// Where the next shelf in the column at a place begins across.
fn next_across(shelves: &[KeptShelf], x: u16) -> u16
    requires { spec.EndsBy longest_bucketed_side shelves.now }
    ensures { result ≡ spec.next_across x shelves.now }
{
    match shelves.last() {
        Some(last) if last.shelf.x == x => last.shelf.y + last.shelf.height,
        _ => 0,
    }
}

impl Store {
    /// No records. Takes no memory.
    pub fn new(alloc: Global) -> Store
        ensures { result ≡ record { shelves = []; buckets = []; unused = None } }
    {
        Store {
            shelves: Vec::new(alloc),
            buckets: Vec::new(alloc),
            unused: Link::none(),
            blocks: Blocks::new(),
            spans: Spans::new(),
            rest: Rest::none(),
            rooms: Rooms::uncounted(),
            heights: Heights::new(),
            missed: Missed::none(),
            may_be_long: false,
        }
    }

    /// These records, of which this is the first that is unused.
    pub fn of_records(shelves: Vec<KeptShelf>, buckets: Vec<LinkedBucket>, unused: Link) -> Store
        ensures { result
            ≡ record { shelves = shelves.items; buckets = buckets.items; unused = unused } }
    {
        let blocks = Blocks::of(&shelves);
        let heights = Heights::of(&shelves);
        Store {
            shelves,
            buckets,
            unused,
            blocks,
            spans: Spans::new(),
            rest: Rest::none(),
            rooms: Rooms::uncounted(),
            heights,
            missed: Missed::none(),
            may_be_long: true,
        }
    }

    /// Whether there are no records.
    pub fn is_empty(&self) -> bool
        ensures { IsTrue result ↔ (self.now.shelves ≡ []) × (self.now.buckets ≡ []) }
    {
        self.shelves.is_empty() && self.buckets.is_empty()
    }

    /// Drops all records.
    pub fn clear(&mut self)
        ensures { self.new ≡ record { shelves = []; buckets = []; unused = None } }
    {
        if self.shelves.is_empty() {
            self.drop_unused();
        } else {
            self.drop_all();
        }
    }

    /// The same where there are no shelves, so that nothing is known of any.
    #[inline(always)]
    fn drop_unused(&mut self)
        requires { self.old.shelves ≡ [] }
        ensures { self.new ≡ record { shelves = []; buckets = []; unused = None } }
    {
        self.unused = Link::none();
        if self.buckets.is_empty() {
            return;
        }
        self.buckets.clear();
        self.spans.forget_all();
        self.rest.forget();
        self.rooms.forget();
    }

    /// The same where there are some.
    #[inline(always)]
    fn drop_all(&mut self)
        ensures { self.new ≡ record { shelves = []; buckets = []; unused = None } }
    {
        self.blocks.forget(self.shelves.len());
        self.shelves.clear();
        self.buckets.clear();
        self.unused = Link::none();
        self.spans.forget_all();
        self.rest.forget();
        self.rooms.forget();
        self.heights.forget();
        self.missed.forget();
        self.may_be_long = false;
    }

    /// Makes the new shelves, with their buckets, where so many are in use. Takes memory for the records
    /// of shelves, and for those of buckets as far as too few were unused. The error comes only where
    /// there was no memory, and then nothing has changed.
    pub(crate) fn add(
        &mut self,
        frame: &Frame,
        news: &NewShelves,
        in_use: u32,
    ) -> Result<(), AllocError>
        requires frame { IsBucketedFrame frame.now }
        requires news { spec.CanStore frame.now (adding.news_of news.now) in_use self.old }
        ensures ok { OnOk result
            (self.new ≡ spec.stored_shelves frame.now (adding.news_of news.now) self.old) }
        ensures err { OnErr result (self.new ≡ self.old) }
    {
        self.shelves.reserve(news.shelf_count())?;
        reserve_records(&mut self.buckets, in_use + news.total_count())?;
        self.may_be_long |= news.total_count() > LONG;
        if let Some(filler) = &news.filler {
            add_shelf(
                frame,
                &mut self.shelves,
                &mut self.buckets,
                &mut self.spans,
                &mut self.unused,
                &mut self.blocks,
                &mut self.rooms,
                &mut self.heights,
                &mut self.missed,
                filler,
            );
        }
        add_shelf(
            frame,
            &mut self.shelves,
            &mut self.buckets,
            &mut self.spans,
            &mut self.unused,
            &mut self.blocks,
            &mut self.rooms,
            &mut self.heights,
            &mut self.missed,
            &news.asked,
        );
        self.rest.forget();
        Ok(())
    }

    /// Makes the records ready for a placement, where so many buckets are in use, and answers its bucket.
    /// The error comes only where shelves are to be added and there was no memory, and then nothing has
    /// changed.
    pub fn prepare(
        &mut self,
        frame: &Frame,
        placement: &Placement,
        in_use: u32,
    ) -> Result<FoundBucket, AllocError>
        requires frame { IsBucketedFrame frame.now }
        requires placement { spec.CanPrepare frame.now
            (placing.placement_seen placement.now) in_use self.old }
        ensures ok { OnOk result
            (self.new ≡ spec.stored_ready frame.now (placing.placement_seen placement.now) self.old) }
        ensures found { IfOk result
            (λ found. spec.found_of (placing.placement_seen placement.now) self.new ≡ Some found) }
        ensures err { OnErr result (self.new ≡ self.old) }
        ensures adds { OnErr result (spec.IsAdding (placing.placement_seen placement.now)) }
    {
        match placement {
            Placement::InBucket(found) => Ok(*found),
            // What calls are handed are copies, so that the placement itself needs no memory.
            Placement::InAdded(news) => {
                let news = *news;
                self.add(frame, &news, in_use)?;
                Ok(found_first(&self.shelves, self.shelves.len() - 1))
            }
            Placement::InMerged(group) => {
                let group = *group;
                self.merge(&group);
                Ok(found_first(&self.shelves, group.first))
            }
        }
    }

    /// Merges neighbouring shelves into the first of them.
    #[inline(never)]
    fn merge(&mut self, group: &Group)
        requires { spec.IsGroupIn group.now self.old.shelves }
        ensures { self.new
            ≡ record self.old { shelves = spec.kept_merged group.now self.old.shelves } }
    {
        let is_flat = self.shelves[group.first].shelf.height == 0;
        let height = merge(&mut self.shelves, group);
        self.heights.add(group.first, height);
        self.missed.follow(&self.shelves, group.first);
        if is_flat {
            self.blocks.know_anew(&self.shelves, group.first);
        }
    }

    /// Makes what is known of shelves exact where that was put off, so that a search passes over as many as it can.
    #[inline(always)]
    pub fn settle(&mut self)
        ensures { self.new ≡ self.old }
    {
        self.blocks.settle(&self.shelves);
    }

    /// What a bucket that was found gives next, if it is this wide.
    pub fn allocation(&self, frame: &Frame, found: &FoundBucket, width: u32) -> Allocation
        requires { spec.CanGive frame.now width found.now self.now }
        ensures { (kept : spec.KeptShelf) (bucket : spec.LinkedBucket)
            → slice_get self.now.shelves found.now.shelf ≡ Some kept
            → slice_get self.now.buckets found.now.bucket ≡ Some bucket
            → result ≡ spec.kept_allocation frame.now width found.now kept bucket }
    {
        next_item(
            frame,
            &self.shelves[found.shelf],
            &self.buckets[found.bucket],
            found,
            width,
        )
    }

    /// Takes an item of this width from a bucket that was found, and answers the area that it gets.
    pub fn take(&mut self, found: &FoundBucket, width: u32) -> u32
        requires shelf { found.now.shelf < length self.old.shelves }
        requires fits { spec.CanTake found.now.bucket width self.old.buckets }
        requires few { spec.live_items_of self.old.shelves found.now.shelf + 1 < 2 ^ 32 }
        requires widest { spec.IsWidest found.now.shelf found.now.bucket width self.old }
        requires row { spec.IsInRow found.now.shelf found.now.bucket self.old.shelves
            self.old.buckets }
        ensures records { self.new
            ≡ spec.stored_taken found.now.shelf found.now.bucket width self.old }
        ensures area { result ≡ width * spec.height_of self.old.shelves found.now.shelf }
    {
        let height = height_of(&self.shelves, found.shelf);
        let room = room_of(&self.buckets, found.bucket);
        self.rooms
            .count_unless_exact(self.shelves.len(), &self.buckets, room, width);
        self.take_from(found.bucket, width, room);
        self.give_from(found, room);
        width * height
    }

    /// Takes an item of this width from the bucket of a number, which can give so much.
    fn take_from(&mut self, bucket: usize, width: u32, room: u16)
        requires fits { spec.CanTake bucket width self.old.buckets }
        requires room { (one : spec.LinkedBucket) → slice_get self.old.buckets bucket ≡ Some one
            → room ≡ record_room one }
        ensures { self.new
            ≡ record self.old {
              buckets = changed_by (Some bucket) (spec.taken_record width) self.old.buckets;
            } }
    {
        take_from(&mut self.buckets, bucket, width);
        self.spans.track(&self.buckets, bucket, room);
        self.rooms.follow_record(&self.buckets, bucket, room);
        self.rest.lower(bucket);
    }

    /// Counts one more live item in the shelf of a bucket that was found and had this room before, and keeps
    /// what the buckets of the shelf can give now.
    fn give_from(&mut self, found: &FoundBucket, room: u16)
        requires shelf { found.now.shelf < length self.old.shelves }
        requires bucket { found.now.bucket < length self.old.buckets }
        requires few { spec.live_items_of self.old.shelves found.now.shelf + 1 < 2 ^ 32 }
        requires widest { spec.IsWidestKept found.now.shelf found.now.bucket room
            self.old.shelves self.old.buckets }
        requires row { spec.IsInRow found.now.shelf found.now.bucket self.old.shelves
            self.old.buckets }
        ensures { self.new
            ≡ record self.old {
              shelves = spec.shelves_given found.now.shelf self.old.shelves self.old.buckets;
            } }
    {
        let before = known_of(&self.shelves[found.shelf]);
        give_from(
            &mut self.shelves,
            &self.buckets,
            &mut self.spans,
            &mut self.rest,
            found,
            room,
            self.may_be_long,
        );
        self.blocks.follow(&self.shelves, found.shelf, before);
    }

    /// Whether the bucket that an id names has given its item, and holds something live.
    pub fn is_known(&self, id: AllocId) -> bool
        ensures { result ≡ returns.is_known_in self.now.buckets id }
    {
        is_known(&self.buckets, id)
    }

    /// Returns an item to the bucket of a number, and drops the shelves at the end that hold nothing live then.
    pub fn return_item(&mut self, number: usize) -> Returned
        requires number { number < length self.old.buckets }
        requires shelf { shelf_of self.old.buckets number < length self.old.shelves }
        requires free { free_of self.old.buckets number
            ≤ returns.width_of self.old.shelves (shelf_of self.old.buckets number) }
        requires few_shelves { length self.old.shelves ≤ most_buckets }
        requires few_buckets { length self.old.buckets ≤ most_buckets }
        requires widest { spec.KnowsWidest (shelf_of self.old.buckets number) self.old.shelves
            self.old.buckets }
        requires row { spec.IsInRow (shelf_of self.old.buckets number) number self.old.shelves
            self.old.buckets }
        ensures records { returns.dropping_from self.new result.dropped
            ≡ returns.end_dropped (length (returns.item_returned number self.old).shelves)
            (returns.dropping_from (returns.item_returned number self.old) 0) }
        ensures stays { result.drops ≡ false → length self.new.shelves ≡ length self.old.shelves }
        ensures area { result.area ≡ returns.returned_area number self.old.shelves self.old.buckets }
    {
        if !self.has_others(number) {
            return self.return_any(number);
        }
        if self.lessen(number) {
            return Returned {
                area: 0,
                drops: false,
                dropped: 0,
            };
        }
        self.return_apart(number)
    }

    /// Whether the bucket of a number has more than one live item.
    #[inline(always)]
    fn has_others(&self, number: usize) -> bool
        requires { number < length self.now.buckets }
    {
        self.buckets[number].refcount > 1
    }

    /// Returns any item, where that is seldom called for.
    #[inline(never)]
    fn return_apart(&mut self, number: usize) -> Returned
        requires number { number < length self.old.buckets }
        requires shelf { shelf_of self.old.buckets number < length self.old.shelves }
        requires free { free_of self.old.buckets number
            ≤ returns.width_of self.old.shelves (shelf_of self.old.buckets number) }
        requires few_shelves { length self.old.shelves ≤ most_buckets }
        requires few_buckets { length self.old.buckets ≤ most_buckets }
        requires widest { spec.KnowsWidest (shelf_of self.old.buckets number) self.old.shelves
            self.old.buckets }
        requires row { spec.IsInRow (shelf_of self.old.buckets number) number self.old.shelves
            self.old.buckets }
        ensures records { returns.dropping_from self.new result.dropped
            ≡ returns.end_dropped (length (returns.item_returned number self.old).shelves)
            (returns.dropping_from (returns.item_returned number self.old) 0) }
        ensures stays { result.drops ≡ false → length self.new.shelves ≡ length self.old.shelves }
        ensures area { result.area ≡ returns.returned_area number self.old.shelves self.old.buckets }
    {
        self.return_any(number)
    }

    /// Returns an item to the bucket of a number where that and its shelf keep others, and no shelf is dropped, and answers
    /// whether that was so: all that is known stays right then.
    #[inline(always)]
    fn lessen(&mut self, number: usize) -> bool
        requires number { number < length self.old.buckets }
        requires shelf { shelf_of self.old.buckets number < length self.old.shelves }
        ensures leaves { IsTrue result
            → returns.LeavesOthers number self.old.shelves self.old.buckets }
        ensures returned { IsTrue result → self.new ≡ returns.item_returned number self.old }
        ensures same { IsFalse result → self.new ≡ self.old }
    {
        if !leaves_others(&self.shelves, &self.buckets, number) {
            return false;
        }
        return_item(&mut self.shelves, &mut self.buckets, number);
        true
    }

    /// Returns any item. What is known of its shelf is looked at only where that stays.
    #[inline(always)]
    fn return_any(&mut self, number: usize) -> Returned
        requires number { number < length self.old.buckets }
        requires shelf { shelf_of self.old.buckets number < length self.old.shelves }
        requires free { free_of self.old.buckets number
            ≤ returns.width_of self.old.shelves (shelf_of self.old.buckets number) }
        requires few_shelves { length self.old.shelves ≤ most_buckets }
        requires few_buckets { length self.old.buckets ≤ most_buckets }
        requires widest { spec.KnowsWidest (shelf_of self.old.buckets number) self.old.shelves
            self.old.buckets }
        requires row { spec.IsInRow (shelf_of self.old.buckets number) number self.old.shelves
            self.old.buckets }
        ensures records { returns.dropping_from self.new result.dropped
            ≡ returns.end_dropped (length (returns.item_returned number self.old).shelves)
            (returns.dropping_from (returns.item_returned number self.old) 0) }
        ensures stays { result.drops ≡ false → length self.new.shelves ≡ length self.old.shelves }
        ensures area { result.area ≡ returns.returned_area number self.old.shelves self.old.buckets }
    {
        let area = returned_area(&self.shelves, &self.buckets, number);
        let shelf = shelf_number(&self.buckets, number);
        let before = known_of_busy(&self.shelves[shelf]);
        let room = room_of(&self.buckets, number);
        return_item(&mut self.shelves, &mut self.buckets, number);
        self.spans.track(&self.buckets, number, room);
        self.rooms.follow_return(&self.buckets, number, room);
        if !ends_idle(&self.shelves) {
            self.blocks.follow_returned(&self.shelves, shelf, before);
            let first = first_bucket(&self.shelves, shelf);
            self.rest.know(first, number, room, before.widest_room);
            self.missed.follow(&self.shelves, shelf);
            return Returned {
                area,
                drops: false,
                dropped: 0,
            };
        }
        let dropped = drop_idle_end(
            &mut self.shelves,
            &mut self.buckets,
            &mut self.spans,
            &mut self.unused,
        );
        self.blocks.follow_dropped(&self.shelves, shelf);
        self.rest.forget();
        self.missed.follow_left(&self.shelves, shelf);
        forget_where_none(&self.shelves, &mut self.spans, &mut self.heights);
        Returned {
            area,
            drops: true,
            dropped,
        }
    }

    /// Returns an item to the bucket of a number where that is the only live one of its shelf, and no shelf is dropped then, and
    /// answers the area that it gives back. Else nothing changes. Each bucket of the shelf is free then, so that it needn't be
    /// known what those beside this one can give.
    #[inline(always)]
    pub fn return_only(&mut self, number: usize) -> Option<u32>
        requires number { number < length self.old.buckets }
        requires shelf { shelf_of self.old.buckets number < length self.old.shelves }
        requires free { free_of self.old.buckets number
            ≤ returns.width_of self.old.shelves (shelf_of self.old.buckets number) }
        ensures returned { OnSome result (self.new ≡ returns.item_returned number self.old) }
        ensures stays { OnSome result (returns.end_dropped (length self.new.shelves)
            (returns.dropping_from self.new 0) ≡ returns.dropping_from self.new 0) }
        ensures area { IfSome result
            (λ area. area ≡ returns.returned_area number self.old.shelves self.old.buckets) }
        ensures some { is_some result ≡ returns.leaves_idle number self.old.shelves self.old.buckets }
        ensures same { IfNone result (self.new ≡ self.old) }
    {
        if !leaves_idle(&self.shelves, &self.buckets, number) {
            return None;
        }
        if know_buckets(&self.spans, &self.rooms) {
            return Some(self.return_followed(number));
        }
        let area = returned_area(&self.shelves, &self.buckets, number);
        let shelf = shelf_number(&self.buckets, number);
        let before = known_of_busy(&self.shelves[shelf]);
        return_only(&mut self.shelves, &mut self.buckets, number);
        self.blocks.follow_emptied(&self.shelves, shelf, before);
        self.rest.forget();
        self.missed.follow(&self.shelves, shelf);
        Some(area)
    }

    /// The same, where spans or rooms are known, and follow.
    #[inline(never)]
    fn return_followed(&mut self, number: usize) -> u32
        requires number { number < length self.old.buckets }
        requires shelf { shelf_of self.old.buckets number < length self.old.shelves }
        requires free { free_of self.old.buckets number
            ≤ returns.width_of self.old.shelves (shelf_of self.old.buckets number) }
        requires only { returns.IsOnly number self.old.shelves self.old.buckets }
        ensures returned { self.new ≡ returns.item_returned number self.old }
        ensures area { result ≡ returns.returned_area number self.old.shelves self.old.buckets }
    {
        let area = returned_area(&self.shelves, &self.buckets, number);
        let shelf = shelf_number(&self.buckets, number);
        let before = known_of_busy(&self.shelves[shelf]);
        return_known(
            &mut self.shelves,
            &mut self.buckets,
            &mut self.spans,
            &mut self.rooms,
            number,
        );
        self.blocks.follow_emptied(&self.shelves, shelf, before);
        self.rest.forget();
        self.missed.follow(&self.shelves, shelf);
        area
    }

    /// Gives the shelves their buckets for a width that is added at a place, where so many are left, and
    /// answers how many they are. Takes memory as far as too few records were unused. The error comes
    /// only where there was none, and then nothing has changed.
    pub fn widen(&mut self, place: u32, added: u32, left: u32) -> Result<u32, AllocError>
        requires shelves { length self.old.shelves ≤ most_buckets }
        requires buckets { length self.old.buckets + left ≤ no_link }
        requires left { left ≤ most_buckets }
        requires used { most_buckets ≤ length self.old.buckets + left }
        requires records { grows.UsesUnused place added left self.old }
        requires narrow { place + added < 2 ^ 16 }
        ensures ok { OnOk result
            (self.new
            ≡ grows.shelves_widened (length self.old.shelves) 0 place added left self.old) }
        ensures made { IfOk result
            (λ made. made ≡ left - grows.left_after added left self.old.shelves) }
        ensures err { OnErr result (self.new ≡ self.old) }
        ensures some { OnErr result (0 < left - grows.left_after added left self.old.shelves) }
        ensures more { OnErr result
            (length self.old.buckets
            < length
            (grows.shelves_widened
            (length self.old.shelves) 0 place added left self.old).buckets) }
    {
        let rest = left_after(&self.shelves, added, left);
        if rest == left {
            return Ok(0);
        }
        self.rest.forget();
        self.rooms.forget();
        self.missed.forget();
        reserve_records(&mut self.buckets, MOST_BUCKETS - rest)?;
        widen_shelves(
            &mut self.shelves,
            &mut self.buckets,
            &mut self.spans,
            &mut self.unused,
            place,
            added,
            left,
        );
        self.blocks.know_all(&self.shelves);
        self.heights.know_all(&self.shelves);
        self.may_be_long = true;
        Ok(left - rest)
    }

    /// Finds the current column and the height that it leaves, and counts the buckets in use, after an item got its placement.
    /// Where that was there they are what they were.
    pub fn follow_placement(
        &self,
        frame: &Frame,
        placement: &Placement,
        column: &mut u32,
        height: &mut u32,
        in_use: &mut u32,
    )
        requires frame { IsBucketedFrame frame.now }
        requires short { spec.IsShort frame.now self.now.shelves }
        requires kept { spec.IsThere (placing.placement_seen placement.now)
            → spec.end_of frame.now self.now.shelves
            ≡ record { along = column.old; across = height.old } }
        requires few { in_use.old + spec.needed_for (placing.placement_seen placement.now) < 2 ^ 32 }
        ensures column { column.new ≡ (spec.end_of frame.now self.now.shelves).along }
        ensures height { height.new ≡ (spec.end_of frame.now self.now.shelves).across }
        ensures in_use { in_use.new
            ≡ in_use.old + spec.needed_for (placing.placement_seen placement.now) }
    {
        if !placement.is_there() {
            let end = self.end(frame);
            *column = end.along;
            *height = end.across;
            *in_use += placement.needed_buckets();
        }
    }

    /// The current column, and the height that it leaves.
    pub fn end(&self, frame: &Frame) -> Sides
        requires frame { IsBucketedFrame frame.now }
        requires short { spec.IsShort frame.now self.now.shelves }
        ensures { result ≡ spec.end_of frame.now self.now.shelves }
    {
        end_of(frame, &self.shelves)
    }
}

/// The id of the item that a bucket gives as this one since it was empty: bits 0 to 11 are the bucket's number, bits 12
/// to 23 which of its items it is, counted from 1, and bits 24 to 31 the bucket's generation.
fn id_of(number: u32, given: u32, generation: u8) -> AllocId
    requires number { number < 4096 }
    requires given { given < 4096 }
    ensures { result ≡ taking.id_of (record { number = number; generation = generation }) given }
{
    AllocId::deserialize(number + given * GIVEN_UNIT + u32::from(generation) * GENERATION_UNIT)
}

/// What a bucket of a shelf gives next, if it is this wide.
fn next_item(
    frame: &Frame,
    kept: &KeptShelf,
    bucket: &LinkedBucket,
    found: &FoundBucket,
    width: u32,
) -> Allocation
    requires { spec.CanGiveFrom width found.now kept.now bucket.now }
    ensures { result ≡ spec.kept_allocation frame.now width found.now kept.now bucket.now }
{
    let used = u32::from(kept.shelf.bucket_width) - u32::from(bucket.free_space);
    Allocation {
        id: id_of(
            found.bucket as u32,
            u32::from(bucket.item_count) + 1,
            bucket.generation,
        ),
        rectangle: rectangle_at(
            frame,
            u32::from(bucket.x) + used,
            u32::from(kept.shelf.y),
            width,
            u32::from(kept.shelf.height),
        ),
    }
}

/// The link to the first bucket of the shelf of a number.
pub(crate) fn first_bucket(shelves: &[KeptShelf], number: usize) -> Link
    requires { number < length shelves.now }
    ensures { result ≡ spec.first_bucket_of shelves.now number }
{
    shelves[number].shelf.first_bucket
}

/// The height of the shelf of a number.
fn height_of(shelves: &[KeptShelf], number: usize) -> u32
    requires { number < length shelves.now }
    ensures value { result ≡ spec.height_of shelves.now number }
    ensures small { result < 2 ^ 16 }
{
    u32::from(shelves[number].shelf.height)
}

/// The first bucket of the shelf of a number.
fn found_first(shelves: &[KeptShelf], number: usize) -> FoundBucket
    requires within { number < length shelves.now }
    requires some { IsSome (spec.first_bucket_of shelves.now number) }
    ensures { spec.found_first number shelves.now ≡ Some result }
{
    let first = first_bucket(shelves, number);
    FoundBucket {
        shelf: number,
        bucket: first.number().unwrap(),
    }
}

/// The current column, and the height that it leaves, by the last shelf.
fn end_of(frame: &Frame, shelves: &[KeptShelf]) -> Sides
    requires frame { IsBucketedFrame frame.now }
    requires short { spec.IsShort frame.now shelves.now }
    ensures { result ≡ spec.end_of frame.now shelves.now }
{
    let Some(last) = shelves.last() else {
        return Sides {
            along: 0,
            across: frame.across_side(),
        };
    };
    Sides {
        along: u32::from(last.shelf.x) / frame.column_width,
        across: frame.across_side() - (u32::from(last.shelf.y) + u32::from(last.shelf.height)),
    }
}

/// Makes a shelf after the others, with its buckets.
#[inline(always)]
fn add_shelf(
    frame: &Frame,
    shelves: &mut Vec<KeptShelf>,
    buckets: &mut Vec<LinkedBucket>,
    spans: &mut Spans,
    unused: &mut Link,
    blocks: &mut Blocks,
    rooms: &mut Rooms,
    heights: &mut Heights,
    missed: &mut Missed,
    new: &NewShelf,
)
    requires known { AreKnown blocks.old shelves.old.items }
    requires spans { AreSpans spans.old buckets.old.items }
    requires rooms { AreCounted rooms.old buckets.old.items }
    requires below { AreBelow heights.old shelves.old.items }
    requires missed { IsMissed missed.old shelves.old.items }
    requires frame { IsBucketedFrame frame.now }
    requires new { spec.IsNewShelf frame.now new.now }
    requires short { spec.IsShort frame.now shelves.old.items }
    requires shelves { vec_len shelves.old < no_link }
    requires room { vec_len shelves.old < vec_capacity shelves.old }
    requires buckets { vec_len buckets.old + new.now.count ≤ no_link }
    requires bucket_room { length
        (spec.stored_shelf frame.now new.now
        (record {
          shelves = shelves.old.items;
          buckets = buckets.old.items;
          unused = unused.old;
        })).buckets
        ≤ vec_capacity buckets.old }
    ensures shelves { shelves.new.items
        ≡ (spec.stored_shelf frame.now new.now
        (record {
          shelves = shelves.old.items;
          buckets = buckets.old.items;
          unused = unused.old;
        })).shelves }
    ensures buckets { buckets.new.items
        ≡ (spec.stored_shelf frame.now new.now
        (record {
          shelves = shelves.old.items;
          buckets = buckets.old.items;
          unused = unused.old;
        })).buckets }
    ensures unused { unused.new
        ≡ (spec.stored_shelf frame.now new.now
        (record {
          shelves = shelves.old.items;
          buckets = buckets.old.items;
          unused = unused.old;
        })).unused }
    ensures shelf_length { vec_len shelves.new ≡ vec_len shelves.old + 1 }
    ensures shelf_capacity { vec_capacity shelves.old ≤ vec_capacity shelves.new }
    ensures bucket_length { vec_len buckets.new ≤ vec_len buckets.old + new.now.count }
    ensures bucket_capacity { vec_capacity buckets.old ≤ vec_capacity buckets.new }
    ensures known { AreKnown blocks.new shelves.new.items }
    ensures spans { AreSpans spans.new buckets.new.items }
    ensures rooms { AreCounted rooms.new buckets.new.items }
    ensures below { AreBelow heights.new shelves.new.items }
    ensures missed { IsMissed missed.new shelves.new.items }
{
    let number = shelves.len();
    let width = width_of_share(frame, new.count) as u16;
    let x = (new.column * frame.column_width) as u16;
    let y = next_across(shelves, x);
    let row = NewBuckets {
        shelf: number as u16,
        width,
        x,
    };
    let first_bucket = make_buckets(buckets, spans, unused, Link::none(), &row, new.count);
    rooms.add(width, new.count as u16);
    let height = new.height as u16;
    blocks.expect(height);
    let shelf = LinkedBucketShelf {
        x,
        y,
        height,
        bucket_width: width,
        first_bucket,
    };
    shelves
        .push(KeptShelf {
            shelf,
            live_items: 0,
            widest_room: width,
        })
        .unwrap();
    blocks.add_last(shelves);
    heights.add_last(shelves);
    missed.follow(shelves, number);
}

/// Returns the only live item of a shelf to the bucket of a number, and has spans and rooms follow.
fn return_known(
    shelves: &mut [KeptShelf],
    buckets: &mut [LinkedBucket],
    spans: &mut Spans,
    rooms: &mut Rooms,
    number: usize,
)
    requires number { number < length buckets.old }
    requires shelf { shelf_of buckets.old number < length shelves.old }
    requires only { returns.IsOnly number shelves.old buckets.old }
    requires spans { AreSpans spans.old buckets.old }
    requires rooms { AreCounted rooms.old buckets.old }
    ensures shelves { shelves.new
        ≡ changed_by (Some (shelf_of buckets.old number))
        (returns.returned_kept (nat_le (live_of buckets.old number) 1)) shelves.old }
    ensures buckets { buckets.new
        ≡ changed_by (Some number)
        (returns.returned_record (returns.width_of shelves.old (shelf_of buckets.old number)))
        buckets.old }
    ensures spans { AreSpans spans.new buckets.new }
    ensures rooms { AreCounted rooms.new buckets.new }
{
    let room = room_of(buckets, number);
    return_only(shelves, buckets, number);
    spans.track(buckets, number, room);
    rooms.follow_return(buckets, number, room);
}

/// Whether spans or rooms are known: else they are right for any buckets.
#[inline(always)]
fn know_buckets(spans: &Spans, rooms: &Rooms) -> bool
    ensures { IsFalse result → (buckets : List LinkedBucket)
        → AreSpans spans.now buckets × AreCounted rooms.now buckets }
{
    spans.are_learned | rooms.are_counted
}

/// Takes an item of this width from the bucket of a number.
fn take_from(buckets: &mut [LinkedBucket], number: usize, width: u32)
    requires { spec.CanTake number width buckets.old }
    ensures { buckets.new ≡ changed_by (Some number) (spec.taken_record width) buckets.old }
{
    let bucket = &mut buckets[number];
    bucket.free_space -= width as u16;
    bucket.refcount += 1;
    bucket.item_count += 1;
}

/// Forgets the spans where no shelf is left: they would be of unused buckets alone, and making those again would
/// forget them one by one. How tall shelves were is forgotten too, since others may be lower.
fn forget_where_none(shelves: &[KeptShelf], spans: &mut Spans, heights: &mut Heights)
    ensures kept { (buckets : List LinkedBucket)
        → AreSpans spans.old buckets → AreSpans spans.new buckets }
    ensures below { (others : List KeptShelf)
        → AreBelow heights.old others → AreBelow heights.new others }
    ensures none { length shelves.now ≡ 0
        → (buckets : List LinkedBucket) → AreSpans spans.new buckets }
{
    if shelves.is_empty() {
        spans.forget_all();
        heights.forget();
    }
}

/// The width that the bucket of a number can give to one item.
fn room_of(buckets: &[LinkedBucket], number: usize) -> u16
    requires { number < length buckets.now }
    ensures { (bucket : spec.LinkedBucket) → slice_get buckets.now number ≡ Some bucket
        → result ≡ record_room bucket }
{
    record_room(&buckets[number])
}

/// The greatest width that a bucket of the shelf of a number can give, as it is kept.
fn widest_of(shelves: &[KeptShelf], number: usize) -> u16
    requires { number < length shelves.now }
    ensures { result ≡ spec.widest_of shelves.now number }
{
    shelves[number].widest_room
}

/// Where the bucket of a number begins along; 0 where there is none.
fn place_at(buckets: &[LinkedBucket], number: usize) -> u32
    ensures { result ≡ place_of buckets.now number }
{
    if number < buckets.len() {
        u32::from(buckets[number].x)
    } else {
        0
    }
}

/// A shelf with more buckets is long.
const LONG: u32 = 127;

/// A search along a long shelf goes far if it passes more buckets.
const FAR: u32 = 96;

/// Of a shelf with more buckets spans are learned even while it is filled.
const LONGEST: u32 = 256;

/// How many buckets this wide lie between two places.
fn buckets_between(from: u32, to: u32, width: u16) -> u32 {
    if width == 0 {
        return 0;
    }
    to.saturating_sub(from) / u32::from(width)
}

/// How many buckets of which nothing is known a search along those of a shelf passed, where it went far: up to the one that
/// was found, or up to the end where the shelf may not keep its widest bucket.
fn passed_far(
    shelves: &[KeptShelf],
    buckets: &[LinkedBucket],
    spans: &Spans,
    found: &FoundBucket,
    keeps: bool,
) -> Option<u32>
    requires { found.now.shelf < length shelves.now }
{
    let shelf = &shelves[found.shelf].shelf;
    let first = shelf.first_bucket.number()?;
    let end = if keeps {
        place_at(buckets, found.bucket)
    } else {
        u32::from(shelf.x)
    };
    let passed = buckets_between(end, place_at(buckets, first), shelf.bucket_width);
    if passed <= FAR || spans.knows(shelf.first_bucket) && spans.knows_block(found.bucket) {
        return None;
    }
    Some(passed)
}

/// Whether spans of a shelf may serve: items come back to it, or it has very many buckets.
fn may_serve(
    shelves: &[KeptShelf],
    buckets: &[LinkedBucket],
    rest: &Rest,
    found: &FoundBucket,
) -> bool
    requires { found.now.shelf < length shelves.now }
{
    let shelf = &shelves[found.shelf].shelf;
    let Some(first) = shelf.first_bucket.number() else {
        return false;
    };
    let begin = place_at(buckets, first);
    rest.first.bits() == shelf.first_bucket.bits()
        || LONGEST <= buckets_between(u32::from(shelf.x), begin, shelf.bucket_width)
}

/// Learns spans of the buckets of a shelf along which a search passed so many, where searches go far often enough. It is
/// seldom called.
#[inline(never)]
fn learn_passed(
    shelves: &[KeptShelf],
    buckets: &[LinkedBucket],
    spans: &mut Spans,
    rest: &Rest,
    found: &FoundBucket,
    passed: u32,
)
    requires shelf { found.now.shelf < length shelves.now }
    requires spans { AreSpans spans.old buckets.now }
    ensures { AreSpans spans.new buckets.now }
{
    if may_serve(shelves, buckets, rest, found) {
        spans.learn_passed(buckets, first_bucket(shelves, found.shelf), passed);
    }
}

/// The same after a search that passed many, where a shelf may be long.
#[inline(always)]
fn learn_row(
    shelves: &[KeptShelf],
    buckets: &[LinkedBucket],
    spans: &mut Spans,
    rest: &Rest,
    found: &FoundBucket,
    keeps: bool,
    may_be_long: bool,
)
    requires shelf { found.now.shelf < length shelves.now }
    requires spans { AreSpans spans.old buckets.now }
    ensures { AreSpans spans.new buckets.now }
{
    if !may_be_long {
        return;
    }
    if let Some(passed) = passed_far(shelves, buckets, spans, found, keeps) {
        learn_passed(shelves, buckets, spans, rest, found, passed);
    }
}

/// Whether the bucket that was found is the first of its shelf.
fn is_first(shelves: &[KeptShelf], found: &FoundBucket) -> bool
    requires { found.now.shelf < length shelves.now }
    ensures { IsTrue result
        → spec.first_bucket_of shelves.now found.now.shelf ≡ Some found.now.bucket }
{
    match first_bucket(shelves, found.shelf).number() {
        Some(first) => first == found.bucket,
        None => false,
    }
}

/// Whether a shelf still has a bucket as wide as its widest was, after the one that was found gave an item, and had this
/// room before: it had less, or one behind it is soon found that has as much.
#[inline(always)]
fn keeps_widest(
    shelves: &[KeptShelf],
    buckets: &[LinkedBucket],
    spans: &Spans,
    found: &FoundBucket,
    room: u16,
) -> bool
    requires shelf { found.now.shelf < length shelves.now }
    requires widest { spec.IsWidestKept found.now.shelf found.now.bucket room shelves.now
        buckets.now }
    ensures { spec.KeepsWidest found.now.shelf result shelves.now buckets.now }
{
    let widest = widest_of(shelves, found.shelf);
    let next = next_of(buckets, found.bucket);
    if room < widest {
        return true;
    }
    if has_room(widest, buckets, next) {
        return true;
    }
    !spans.are_learned && has_room_further(widest, buckets, next)
}

/// What the buckets of the shelf of one that gave an item can give, where that is known by what the others of it can.
#[inline(always)]
fn widest_beside(
    shelves: &[KeptShelf],
    buckets: &[LinkedBucket],
    rest: &Rest,
    found: &FoundBucket,
) -> Option<u16>
    requires number { found.now.shelf < length shelves.now }
    requires most { searching.widest_from most_buckets buckets.now
        (spec.first_bucket_of shelves.now found.now.shelf)
        ≤ spec.widest_of shelves.now found.now.shelf }
    requires one { spec.GivesAsMuch found.now.shelf found.now.bucket shelves.now buckets.now }
    requires rest { IsRest rest.now buckets.now }
    ensures { IfSome result (λ widest. widest
        ≡ searching.widest_from most_buckets buckets.now
        (spec.first_bucket_of shelves.now found.now.shelf)) }
{
    let first = first_bucket(shelves, found.shelf);
    rest.widest_beside(
        buckets,
        first,
        found.bucket,
        widest_of(shelves, found.shelf),
    )
}

/// Whether the bucket that was found is the only one of its shelf.
#[inline(always)]
fn is_only(shelves: &[KeptShelf], buckets: &[LinkedBucket], found: &FoundBucket) -> bool
    requires shelf { found.now.shelf < length shelves.now }
    requires bucket { found.now.bucket < length buckets.now }
    ensures { IsTrue result → (bucket : spec.LinkedBucket)
        → slice_get buckets.now found.now.bucket ≡ Some bucket
        → searching.widest_from most_buckets buckets.now
        (spec.first_bucket_of shelves.now found.now.shelf)
        ≡ record_room bucket }
{
    buckets[found.bucket].next.number().is_none() && is_first(shelves, found)
}

/// The greatest width that a bucket of a shelf can give, after the one that was found gave an item. Buckets from
/// the first one on are looked at only where it isn't known that the shelf keeps a bucket as wide as its widest
/// was, and then up to one that is.
fn widest_after(
    shelves: &[KeptShelf],
    buckets: &[LinkedBucket],
    spans: &Spans,
    rest: &mut Rest,
    found: &FoundBucket,
    keeps: bool,
) -> u16
    requires number { found.now.shelf < length shelves.now }
    requires bucket { found.now.bucket < length buckets.now }
    requires most { searching.widest_from most_buckets buckets.now
        (spec.first_bucket_of shelves.now found.now.shelf)
        ≤ spec.widest_of shelves.now found.now.shelf }
    requires keeps { spec.KeepsWidest found.now.shelf keeps shelves.now buckets.now }
    requires row { spec.IsInRow found.now.shelf found.now.bucket shelves.now buckets.now }
    requires spans { AreSpans spans.now buckets.now }
    requires rest { IsRest rest.old buckets.now }
    ensures value { result
        ≡ searching.widest_from most_buckets buckets.now
        (spec.first_bucket_of shelves.now found.now.shelf) }
    ensures rest { IsRest rest.new buckets.now }
{
    let widest = widest_of(shelves, found.shelf);
    if keeps {
        return widest;
    }
    let first = first_bucket(shelves, found.shelf);
    let widest = widest_room(buckets, spans, first, widest);
    rest.learn(first, found.bucket, room_of(buckets, found.bucket), widest);
    widest
}

/// Counts one more live item in the shelf of a bucket that was found and had this room before, and keeps what the
/// buckets of the shelf can give now. Where it is known what the others can, none of them is looked at.
#[inline(always)]
fn give_from(
    shelves: &mut [KeptShelf],
    buckets: &[LinkedBucket],
    spans: &mut Spans,
    rest: &mut Rest,
    found: &FoundBucket,
    room: u16,
    may_be_long: bool,
)
    requires number { found.now.shelf < length shelves.old }
    requires bucket { found.now.bucket < length buckets.now }
    requires few { spec.live_items_of shelves.old found.now.shelf + 1 < 2 ^ 32 }
    requires widest { spec.IsWidestKept found.now.shelf found.now.bucket room shelves.old
        buckets.now }
    requires row { spec.IsInRow found.now.shelf found.now.bucket shelves.old buckets.now }
    requires spans { AreSpans spans.old buckets.now }
    requires rest { IsRest rest.old buckets.now }
    ensures shelves { shelves.new ≡ spec.shelves_given found.now.shelf shelves.old buckets.now }
    ensures spans { AreSpans spans.new buckets.now }
    ensures rest { IsRest rest.new buckets.now }
{
    if room >= widest_of(shelves, found.shelf) {
        if is_only(shelves, buckets, found) {
            count_given(shelves, found.shelf, room_of(buckets, found.bucket));
            return;
        }
        if let Some(widest) = widest_beside(shelves, buckets, rest, found) {
            count_given(shelves, found.shelf, widest);
            return;
        }
    }
    let keeps = keeps_widest(shelves, buckets, spans, found, room);
    learn_row(shelves, buckets, spans, rest, found, keeps, may_be_long);
    let widest = widest_after(shelves, buckets, spans, rest, found, keeps);
    count_given(shelves, found.shelf, widest);
}

/// Counts one more live item in a shelf, whose buckets can give so much now.
fn count_given(shelves: &mut [KeptShelf], number: usize, room: u16)
    requires number { number < length shelves.old }
    requires few { spec.live_items_of shelves.old number + 1 < 2 ^ 32 }
    ensures { shelves.new ≡ changed_by (Some number) (spec.given_from room) shelves.old }
{
    let kept = &mut shelves[number];
    kept.live_items += 1;
    kept.widest_room = room;
}

impl Clone for Store {
    ghost is_clone = { λ store other. other ≡ store };

    fn clone(&self) -> Result<Store, AllocError> {
        Ok(Store {
            shelves: self.shelves.clone()?,
            buckets: self.buckets.clone()?,
            unused: self.unused,
            blocks: self.blocks,
            spans: self.spans,
            rest: self.rest,
            rooms: self.rooms,
            heights: self.heights,
            missed: self.missed,
            may_be_long: self.may_be_long,
        })
    }
}

impl Store {
    /// What the shelves are saved as.
    pub fn saved_shelves(&self) -> Result<Vec<BucketShelfRecord>, AllocError>
        ensures { IfOk result (λ saved.
            map restoring.linked_shelf saved.items ≡ map shelf_record self.now.shelves) }
    {
        saved_shelves(*self.shelves.allocator(), &self.shelves)
    }

    /// What the buckets are saved as.
    pub fn saved_buckets(&self) -> Result<Vec<BucketRecord>, AllocError>
        ensures { IfOk result (λ saved. map restoring.linked_bucket saved.items ≡ self.now.buckets) }
    {
        saved_buckets(*self.buckets.allocator(), &self.buckets)
    }

    /// Where the records begin that are unused.
    pub fn first_unused(&self) -> Link
        ensures { result ≡ self.now.unused }
    {
        self.unused
    }
}
