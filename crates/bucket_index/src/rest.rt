//! What the rest of a row of buckets can give, beside the bucket where items come and go and a few that items came back
//! to before it, so that as many can go and come together: what all can give then is known without a search, and which is
//! the first with room for a width that the rest can't give.
//!
//! Definitions: `Private/Rest`.

ghost use Rattle.std.specs.Prelude.{◌≡◌, ◌<◌, ◌≤◌, None, Some, Option, [], ◌∷◌, IfSome, IsTrue, List, length, slice_get};
ghost use Rattle.etagere_links.specs.Edits.{changed_by};
ghost use Rattle.etagere_links.specs.Links.{no_link};
ghost use Rattle.bucketed_records.specs.declared.records.LinkedBucket.{LinkedBucket};
ghost use Rattle.bucketed_model.specs.State.{most_buckets};
ghost use Rattle.bucketed_records.specs.Private.Store.{record_room};
ghost use Rattle.bucket_index.specs.Private.Rest as spec;
ghost use Rattle.bucket_index.specs.Private.Searching.{first_from, widest_from};
ghost use Rattle.bucket_index.specs.declared.searching.Wanted.TheVariants.{Roomy};
ghost use Rattle.bucket_index.specs.Private.Spans.{room_at};

use crate::searching::{Wanted, first_within};
use bucketed_records::records::{LinkedBucket, MOST_GIVEN, record_room};
use etagere_links::Link;

/// A row of buckets by its first link, which is none where nothing is known, the number of one of them, and what the
/// others can give.
#[derive(Clone, Copy)]
pub struct Rest {
    pub bucket: usize,
    pub first: Link,
    /// None of the others can give more.
    pub most: u16,
    /// One of the others can give as much as the most, if that is more than this.
    pub room: u16,
    /// None can give more but that bucket and those before it.
    pub bound: u16,
    /// Buckets that items came back to before it.
    pub former: Former,
}

/// A bucket that was found, and where it begins along.
#[derive(Clone, Copy)]
pub struct Spot {
    pub number: usize,
    pub x: u16,
}

/// So many buckets of a row are looked at before those that are kept in mind.
const NEAR_BUCKETS: u32 = 4;

/// How many buckets are kept in mind at most before the one where items come and go.
const MOST_FORMER: usize = 15;

/// A few buckets by their numbers, the latest last.
#[derive(Clone, Copy)]
pub struct Former {
    /// How many they are.
    pub count: usize,
    pub numbers: [u16; MOST_FORMER],
}

impl Former {
    /// None.
    fn none() -> Former
        ensures { spec.links_of result ≡ [] }
    {
        Former {
            count: 0,
            numbers: [0; MOST_FORMER],
        }
    }

    /// One more.
    fn add(&mut self, number: u16)
        requires { self.old.count < length self.old.numbers }
        ensures { spec.links_of self.new ≡ Some number ∷ spec.links_of self.old }
    {
        set_number(&mut self.numbers, self.count, number);
        self.count += 1;
    }

    /// The greatest width that the bucket at a place can give; 0 where there is none.
    fn room_at(&self, place: usize, buckets: &[LinkedBucket]) -> u16
        ensures { result
            ≡ spec.room_behind buckets.now (slice_get self.now.numbers place) }
    {
        match number_at(&self.numbers, place) {
            Some(number) => room_of(buckets, number),
            None => 0,
        }
    }

    /// The bucket at a place instead of one that was found, if it has room for this width and begins no less far along.
    #[inline(always)]
    fn further_at(
        &self,
        place: usize,
        width: u32,
        buckets: &[LinkedBucket],
        found: Option<Spot>,
    ) -> Option<Spot>
        ensures { (links : List (Option spec.ℕ))
            → spec.IsFurthestOf width links buckets.now found
            → spec.IsFurthestOf width (slice_get self.now.numbers place ∷ links) buckets.now
            result }
    {
        match number_at(&self.numbers, place) {
            Some(number) => further(width, buckets, number, found),
            None => found,
        }
    }
}

/// The number at a place, if there is one.
#[inline(always)]
fn number_at(numbers: &[u16], place: usize) -> Option<usize>
    ensures { result ≡ slice_get numbers.now place }
{
    if place < numbers.len() {
        Some(usize::from(numbers[place]))
    } else {
        None
    }
}

/// Puts a number at a place.
#[inline(always)]
fn set_number(numbers: &mut [u16], place: usize, number: u16)
    ensures { numbers.new ≡ changed_by (Some place) (λ _. number) numbers.old }
{
    if place < numbers.len() {
        let one = &mut numbers[place];
        *one = number;
    }
}

impl Rest {
    /// Nothing is known.
    pub fn none() -> Rest
        ensures { (buckets : List LinkedBucket) → spec.IsRest result buckets }
    {
        Rest {
            bucket: usize::from(u16::MAX),
            first: Link::none(),
            most: u16::MAX,
            room: u16::MAX,
            bound: u16::MAX,
            former: Former::none(),
        }
    }

    /// Forgets what is known.
    pub fn forget(&mut self)
        ensures { (buckets : List LinkedBucket) → spec.IsRest self.new buckets }
    {
        self.first = Link::none();
        self.most = u16::MAX;
        self.room = u16::MAX;
        self.bound = u16::MAX;
    }

    /// Knows that the bucket of a number gave an item, so that the rest may not be able to give as much any more.
    pub fn lower(&mut self, bucket: usize)
        ensures { (buckets : List LinkedBucket) → spec.IsAtMost self.old buckets
            → spec.IsBounded self.old buckets → spec.IsRowIfAny self.old buckets
            → (bucket ≡ self.old.bucket → spec.IsRest self.old buckets)
            → spec.IsRest self.new buckets }
    {
        if bucket != self.bucket {
            self.room = self.most;
        }
    }

    /// What a row can give by the links from this one on, which is no more than this, and of whose buckets that of a number
    /// gave an item, where it is known without a search.
    pub fn widest_beside(
        &self,
        buckets: &[LinkedBucket],
        first: Link,
        bucket: usize,
        most: u16,
    ) -> Option<u16>
        requires rest { spec.IsRest self.now buckets.now }
        requires most { widest_from most_buckets buckets.now first ≤ most }
        requires one { room_at buckets.now bucket ≤ widest_from most_buckets buckets.now first }
        ensures { IfSome result (λ widest. widest ≡ widest_from most_buckets buckets.now first) }
    {
        if bucket >= buckets.len() || first.bits() != self.first.bits() {
            return None;
        }
        if bucket == self.bucket {
            let room = record_room(&buckets[bucket]);
            if room >= self.most {
                return Some(room);
            }
            if self.room < self.most {
                return Some(self.most);
            }
        }
        if self.former.count == 0 || first.number().is_none() {
            return None;
        }
        let widest = self.widest_of_few(buckets, most);
        if most <= widest {
            return Some(widest);
        }
        if widest < self.bound {
            return None;
        }
        Some(widest)
    }

    /// The greatest width that one of the buckets can give that are kept in mind, or at least so much if one can give that.
    #[inline(never)]
    fn widest_of_few(&self, buckets: &[LinkedBucket], enough: u16) -> u16
        ensures most { result ≤ spec.widest_of (spec.few_of self.now) buckets.now }
        ensures all { result < enough
            → result ≡ spec.widest_of (spec.few_of self.now) buckets.now }
    {
        let mut widest = room_of(buckets, self.bucket);
        let mut left = self.former.count;
        while 0 < left {
            if enough <= widest {
                break;
            }
            left -= 1;
            widest = widest.max(self.former.room_at(left, buckets));
        }
        widest
    }

    /// The number of the first bucket with room for this width, by the links from this one on, where it is known that
    /// none has but those that are kept in mind.
    #[inline(always)]
    pub fn first_roomy(&self, buckets: &[LinkedBucket], first: Link, width: u32) -> Option<usize>
        requires { spec.IsRest self.now buckets.now }
        ensures number { IfSome result
            (λ number. first_from most_buckets (Roomy width) buckets.now first ≡ Some number) }
        ensures within { IfSome result (λ number. number < length buckets.now) }
    {
        if first.bits() != self.first.bits() {
            return None;
        }
        if u32::from(self.most) < width && has_room(width, buckets, self.bucket) {
            return Some(self.bucket);
        }
        if self.former.count == 0 || first.number().is_none() {
            return None;
        }
        if width <= u32::from(self.bound) {
            return None;
        }
        match first_within(NEAR_BUCKETS, Wanted::Roomy(width), buckets, first) {
            Some(number) => Some(number),
            None => self.first_of_few(buckets, width),
        }
    }

    /// The same where others of these buckets may have the room.
    #[inline(never)]
    fn first_of_few(&self, buckets: &[LinkedBucket], width: u32) -> Option<usize>
        requires row { spec.IsRow self.now buckets.now }
        requires known { spec.IsBounded self.now buckets.now }
        requires bound { self.now.bound < width }
        ensures number { IfSome result
            (λ number. first_from most_buckets (Roomy width) buckets.now self.now.first
            ≡ Some number) }
        ensures within { IfSome result (λ number. number < length buckets.now) }
    {
        let mut spot = None;
        for place in 0..self.former.count {
            spot = self.former.further_at(place, width, buckets, spot);
        }
        let spot = further(width, buckets, self.bucket, spot)?;
        Some(spot.number)
    }

    /// Knows the row from this link on, which can give so much, beside the bucket of a number that has this room.
    pub fn learn(&mut self, first: Link, bucket: usize, room: u16, widest: u16)
        ensures bucket { self.new.bucket ≡ bucket }
        ensures first { self.new.first ≡ first }
        ensures known { (buckets : List LinkedBucket) (one : LinkedBucket)
            → slice_get buckets bucket ≡ Some one → room ≡ record_room one
            → widest_from most_buckets buckets first ≡ widest
            → spec.IsIn buckets first bucket → spec.IsRest self.new buckets }
    {
        self.bucket = bucket;
        self.first = first;
        self.most = widest;
        self.room = room;
        self.bound = widest;
        self.former.count = 0;
    }

    /// The same, unless it is known already what the rest beside that bucket can give.
    pub fn know(&mut self, first: Link, bucket: usize, room: u16, widest: u16)
        ensures bucket { self.new.bucket ≡ bucket }
        ensures known { (buckets : List LinkedBucket) (one : LinkedBucket)
            → slice_get buckets bucket ≡ Some one → room ≡ record_room one
            → widest_from most_buckets buckets first ≡ widest
            → spec.IsIn buckets first bucket → spec.IsRest self.old buckets
            → spec.IsRest self.new buckets }
    {
        if bucket == self.bucket {
            return;
        }
        if self.bound < widest {
            self.know_another(first, bucket, room, widest);
        } else {
            self.learn(first, bucket, room, widest);
        }
    }

    /// The same of another bucket. Those before it are kept in mind where none but these gives more than is known.
    #[inline(never)]
    fn know_another(&mut self, first: Link, bucket: usize, room: u16, widest: u16)
        ensures bucket { self.new.bucket ≡ bucket }
        ensures known { (buckets : List LinkedBucket) (one : LinkedBucket)
            → slice_get buckets bucket ≡ Some one → room ≡ record_room one
            → widest_from most_buckets buckets first ≡ widest
            → spec.IsIn buckets first bucket → spec.IsRest self.old buckets
            → spec.IsRest self.new buckets }
    {
        if self.is_worth(first, widest) {
            self.former.add(self.bucket as u16);
            self.bucket = bucket;
            self.most = widest;
            self.room = room;
        } else {
            self.learn(first, bucket, room, widest);
        }
    }

    /// Whether what is known helps to know a row in which another bucket got room, where there was so much: of the same row
    /// less was known of the others, and another bucket can be kept in mind.
    fn is_worth(&self, first: Link, widest: u16) -> bool
        ensures row { IsTrue result → self.now.first ≡ first }
        ensures small { IsTrue result → self.now.bucket < no_link }
        ensures free { IsTrue result → self.now.former.count < length self.now.former.numbers }
    {
        self.bound < widest
            && first.bits() == self.first.bits()
            && self.bucket < usize::from(u16::MAX)
            && self.former.count < self.former.numbers.len()
    }
}

/// The width that the bucket of a number can give; 0 where there is none.
fn room_of(buckets: &[LinkedBucket], number: usize) -> u16
    ensures { result ≡ room_at buckets.now number }
{
    if number < buckets.len() {
        record_room(&buckets[number])
    } else {
        0
    }
}

/// Whether the bucket of a number has room for this width.
#[inline(always)]
fn has_room(width: u32, buckets: &[LinkedBucket], number: usize) -> bool
    ensures value { result ≡ spec.is_roomy_at width buckets.now number }
    ensures within { IsTrue result → number < length buckets.now }
    ensures narrow { IsTrue result → width < 65536 }
{
    if number >= buckets.len() {
        return false;
    }
    let bucket = &buckets[number];
    width <= u32::from(bucket.free_space) && bucket.item_count < MOST_GIVEN
}

/// The bucket of a number in place of one that was found, if it has room for this width and doesn't begin before that.
#[inline(always)]
fn further(width: u32, buckets: &[LinkedBucket], number: usize, found: Option<Spot>) -> Option<Spot>
    ensures { (links : List (Option spec.ℕ))
        → spec.IsFurthestOf width links buckets.now found
        → spec.IsFurthestOf width (Some number ∷ links) buckets.now result }
{
    if !has_room(width, buckets, number) {
        return found;
    }
    let x = buckets[number].x;
    match found {
        Some(spot) if x < spot.x => found,
        _ => Some(Spot { number, x }),
    }
}
