//! Whether a search goes through all shelves, or through the first ones, or through the list by height, which is to follow
//! what was noted first: what is less work.
//!
//! Definitions: `Searching` of `shelf_search` for what going through all comes to, `Settling` of `shelf_store` for the list.

ghost use Rattle.std.specs.Prelude.{◌≡◌, ◌≤◌, length, true};
ghost use Rattle.etagere_base.specs.Frames.{longest_side};
ghost use Rattle.shelf_heights.specs.Private.ByHeight.{AreByHeightFor};
ghost use Rattle.shelf_records.specs.Private.Kept.{AreKept};
ghost use Rattle.shelf_records.specs.RecordLists.{IsLinked, walked_lists};
ghost use Rattle.shelf_search.specs.Private.Searching.{IsThrough, list_follows};
ghost use Rattle.shelf_store.specs.Private.Settling.{AreByHeightExceptNoted};

use etagere_base::Frame;
use shelf_heights::by_height::ShelvesByHeight;
use shelf_notes::pending::PendingShelves;
use shelf_records::Records;
use shelf_search::by_place::{Walked, look_at_first, walk_many, walk_shelves};
use shelf_store::settling::{ByPlace, by_place, follows, goes_far, settle_for};

/// To go through more free items than this is more work than to make the list by height follow.
const WALKED_ITEMS: u32 = 128;

/// Goes through all shelves for something so wide, in a shelf so high, where that is less work than to make the list by
/// height follow what was noted; else makes it follow. Shelves that have no room for it may stay out of the list.
#[inline(always)]
pub fn walk_or_settle(
    frame: &Frame,
    records: &Records,
    by_height: &mut ShelvesByHeight,
    pending: &mut PendingShelves,
    width: u32,
    height: u32,
) -> Walked
    requires kept { AreKept frame.now records.now }
    requires by_height { AreByHeightExceptNoted frame.now records.now pending.old.notes by_height.old.items }
    requires room { length records.now.shelves ≤ by_height.old.capacity }
    requires room_to_note { length records.now.shelves ≤ pending.old.room }
    requires short { (width ≤ longest_side) × (height ≤ longest_side) }
    ensures through { IsThrough records.now width height result }
    ensures by_height { AreByHeightExceptNoted frame.now records.now pending.new.notes by_height.new.items }
    ensures follows { list_follows result ≡ true
        → AreByHeightFor frame.now records.now width by_height.new.items }
    ensures capacity { by_height.old.capacity ≤ by_height.new.capacity }
    ensures room { pending.new.room ≡ pending.old.room }
{
    if follows(pending, width) {
        return Walked::NotThrough;
    }
    let walked = walk_if_few(records, by_height, pending, width, height);
    if let Walked::NotThrough = walked {
        settle_for(frame, records, by_height, pending, width);
    }
    walked
}

/// Goes through all shelves where there are few, and few free items to look at, or through the first of many. Always inlined:
/// what was found needn't go through memory then.
#[inline(always)]
fn walk_if_few(
    records: &Records,
    by_height: &ShelvesByHeight,
    pending: &mut PendingShelves,
    width: u32,
    height: u32,
) -> Walked
    requires linked { IsLinked records.now (walked_lists records.now) }
    requires short { height ≤ longest_side }
    ensures through { IsThrough records.now width height result }
    ensures notes { pending.new.notes ≡ pending.old.notes }
    ensures room { pending.new.room ≡ pending.old.room }
{
    match by_place(records, by_height, pending, width) {
        ByPlace::All => {}
        ByPlace::Many => return walk_all(records, pending, width, height),
        ByPlace::First(most) => return look_first(records, by_height, pending, width, height, most),
        ByPlace::NoShelves => return Walked::NotThrough,
    }
    let walked = walk_shelves(records, width, height, height, WALKED_ITEMS, &mut 0);
    match walked {
        Walked::Through(_) => pending.count_walk(),
        Walked::NotThrough => pending.rest_from_walks(),
    }
    walked
}

/// Goes through all shelves, although they are many, up to one of just the height, and counts how many it passed.
fn walk_all(records: &Records, pending: &mut PendingShelves, width: u32, height: u32) -> Walked
    requires linked { IsLinked records.now (walked_lists records.now) }
    requires short { height ≤ longest_side }
    ensures through { IsThrough records.now width height result }
    ensures notes { pending.new.notes ≡ pending.old.notes }
    ensures room { pending.new.room ≡ pending.old.room }
{
    let mut passed = 0;
    let walked = walk_many(records, width, height, &mut passed);
    pending.count_far(passed);
    walked
}

/// Goes through so many of the first shelves, for one of just the height, and through all where there is none, all would be listed
/// anew, and that is more work.
fn look_first(
    records: &Records,
    by_height: &ShelvesByHeight,
    pending: &mut PendingShelves,
    width: u32,
    height: u32,
    most: u32,
) -> Walked
    requires linked { IsLinked records.now (walked_lists records.now) }
    requires short { height ≤ longest_side }
    ensures through { IsThrough records.now width height result }
    ensures notes { pending.new.notes ≡ pending.old.notes }
    ensures room { pending.new.room ≡ pending.old.room }
{
    let walked = look_at_first(records, width, height, most);
    if let Walked::Through(_) = walked {
        pending.count_look();
        return walked;
    }
    pending.count_look_in_vain();
    if goes_far(records, by_height, pending, width) {
        return walk_all(records, pending, width, height);
    }
    pending.rest_from_looks();
    walked
}
