//! How full an atlas is. Nothing here changes the records.
//!
//! Definitions: `Refusals`, and `Usage` for what they mean.

ghost use Rattle.std.specs.Prelude.{◌≡◌, ◌<◌, ◌≤◌, ◌^◌, length};
ghost use Rattle.bucketed_model.specs.State.{most_buckets};
ghost use Rattle.bucketed_model.specs.Usage.{size_of};
ghost use Rattle.bucketed_store.specs.Private.Refusals as spec;

use crate::refusing::widest_in;
use crate::store::Store;
use bucketed_model::usage::BucketedUsage;
use bucketed_records::records::{KeptShelf, LinkedBucket, MOST_BUCKETS};
use etagere_base::{Frame, Sides, Size, size_at};
use etagere_links::Link;

/// The greatest height of the shelves that can give just this width to one item.
fn tallest_with(shelves: &[KeptShelf], width: u16) -> u16
    ensures { result ≡ spec.kept_tallest width shelves.now }
{
    let mut tallest = 0;
    for kept in shelves {
        if 0 < kept.shelf.height && kept.widest_room == width {
            tallest = tallest.max(kept.shelf.height);
        }
    }
    tallest
}

/// The widest room in shelves that have a height, and the greatest height of those that have it.
fn largest_sides(shelves: &[KeptShelf]) -> Sides
    ensures value { result ≡ spec.kept_largest shelves.now }
    ensures along { result.along < 2 ^ 16 }
    ensures across { result.across < 2 ^ 16 }
{
    let width = widest_in(shelves, 1);
    let height = if width == 0 {
        0
    } else {
        tallest_with(shelves, width)
    };
    Sides {
        along: u32::from(width),
        across: u32::from(height),
    }
}

/// The widest item that a shelf can give, with the height of that shelf.
pub fn largest_free(frame: &Frame, store: &Store) -> Size
    ensures { result ≡ size_of frame.now (spec.kept_largest store.now.shelves) }
{
    let sides = largest_sides(&store.shelves);
    size_at(frame, sides.along, sides.across)
}

/// Counts a bucket where it holds nothing live.
fn idle_one(bucket: &LinkedBucket) -> u32
    ensures value { result ≡ spec.idle_one bucket.now }
    ensures few { result ≤ 1 }
{
    if bucket.refcount == 0 { 1 } else { 0 }
}

/// How many buckets hold nothing live, by the links from this one on.
fn idle_buckets(buckets: &[LinkedBucket], first: Link) -> u32
    ensures value { result ≡ spec.idle_from most_buckets buckets.now first }
    ensures few { result ≤ most_buckets }
{
    let mut idle = 0;
    let mut at = first;
    for _step in 0..MOST_BUCKETS {
        let Some(number) = at.number() else {
            break;
        };
        if number >= buckets.len() {
            break;
        }
        let bucket = &buckets[number];
        idle += idle_one(bucket);
        at = bucket.next;
    }
    idle
}

/// What shelves and their buckets hold.
#[derive(Clone, Copy)]
struct Held {
    idle_shelves: u32,
    idle_buckets: u32,
    items: u32,
}

/// What these shelves and their buckets hold.
fn counted(shelves: &[KeptShelf], buckets: &[LinkedBucket]) -> Held
    requires shelves { length shelves.now ≤ most_buckets }
    requires items { spec.kept_items shelves.now < 2 ^ 32 }
    ensures idle_shelves { result.idle_shelves ≡ spec.kept_idle_count shelves.now }
    ensures idle_buckets { result.idle_buckets ≡ spec.idle_in buckets.now shelves.now }
    ensures items { result.items ≡ spec.kept_items shelves.now }
{
    let mut idle_shelves = 0;
    let mut idle = 0;
    let mut items = 0;
    for kept in shelves {
        if kept.is_idle() {
            idle_shelves += 1;
        }
        idle += idle_buckets(buckets, kept.shelf.first_bucket);
        items += kept.live_items;
    }
    Held {
        idle_shelves,
        idle_buckets: idle,
        items,
    }
}

/// How full an atlas is, of whose buckets so many are in use. Goes through the shelves and their buckets.
pub fn usage(frame: &Frame, store: &Store, in_use: u32) -> BucketedUsage
    requires shelves { length store.now.shelves ≤ most_buckets }
    requires items { spec.kept_items store.now.shelves < 2 ^ 32 }
    requires in_use { in_use ≤ most_buckets }
    ensures { result ≡ spec.kept_usage frame.now in_use store.now.shelves store.now.buckets }
{
    let held = counted(&store.shelves, &store.buckets);
    BucketedUsage {
        shelves: store.shelves.len() as u32,
        idle_shelves: held.idle_shelves,
        buckets: in_use,
        idle_buckets: held.idle_buckets,
        items: held.items,
        unused_buckets: MOST_BUCKETS - in_use,
        largest_free: largest_free(frame, store),
    }
}
