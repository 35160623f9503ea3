//! Makes the list of the shelves by height follow what was noted, before it is searched.
//!
//! Definitions: `Pending` for what is noted, `Settling` for what holds on the way. Where few have changed, each goes where
//! its record puts it (`moving`), or is parked and stays out of the list (`parking`). Where many have, or a parked one may
//! have room, all shelves in use are sorted anew. Nothing here changes the records, and nothing but what `noting` says takes
//! memory.

ghost use Rattle.std.specs.Prelude.{◌≡◌, ◌≤◌, ◌<◌, List, length, max, true};
ghost use Rattle.shelf_heights.specs.Private.ByHeight.{AreByHeight, AreByHeightFor};
ghost use Rattle.shelf_heights.specs.declared.by_height.BoundedShelf.{BoundedShelf};
ghost use Rattle.etagere_base.specs.Frames.{longest_side};
ghost use Rattle.etagere_base.specs.declared.frames.Frame.{Frame};
ghost use Rattle.shelf_notes.specs.Private.Pending.{NoneWaits};
ghost use Rattle.shelf_records.specs.Private.Kept.{AreKept};
ghost use Rattle.shelf_records.specs.RecordLists.{Records};
ghost use Rattle.shelf_store.specs.Private.Settling.{AreByHeightExceptNoted, AreSettled};

mod moving;
pub mod noting;
mod parking;

use crate::settling::moving::{settle_each, take_out_moved};
use crate::settling::noting::settle_notes;
use crate::starting::sort_shelves;
use etagere_base::Frame;
use shelf_heights::by_height::ShelvesByHeight;
use shelf_notes::pending::{MOST_SEARCHES, PendingShelves};
use shelf_records::{LinkedShelf, Records};

/// Where no more than so many have changed, each is moved by itself.
const FEW: usize = 4;

/// Where more than so many have changed, and more than an eighth, all shelves in use are sorted anew.
const MANY: usize = 32;

/// To go through so many listed shelves in the first searches after one has changed is less work than to make the list
/// follow: in twice as many searches as shelves have changed, and in so many at least.
const WALKED_AT_FIRST: usize = 96;

/// In so many searches after one has changed that many are gone through, however few have.
const FIRST_SEARCHES: u32 = 3;

/// So many are gone through in further searches, unless there are many of these.
const WALKED: usize = 28;

/// More than so many, or than so many for each that has changed, are gone through only where one has moved of late: else the
/// list soon follows.
const WALKED_IN_PLACE: usize = 24;

const WALKED_FOR_ONE: usize = 12;

/// So many of those that have changed last are looked at for that.
const LAST_CHANGED: usize = 12;

/// Where more have changed than this, or some are parked, the list may lack many shelves: then no more records are gone
/// through than these.
const WALKED_CHANGES: usize = 96;

const WALKED_RECORDS: usize = 112;

/// Where more shelves are listed than are gone through, so many first ones are looked at, and some more for each that has
/// changed.
const LOOKED_AT: usize = 16;

const LOOKED_AT_FOR_ONE: usize = 8;

/// After so many searches since a shelf has changed the list follows, but where all shelves would be listed anew.
const FEW_SEARCHES: u32 = 32;

/// There all are gone through in some more searches where they are few.
const MORE_SEARCHES: u32 = 64;

/// Else first ones are looked at while that serves, as if so many had changed at least, or all are gone through while that is less
/// work than to list all: in no more than twice as many searches as there are shelves.
const LATE_CHANGED: usize = 2;

/// No more count as changed than there can be.
const MOST_CHANGED: usize = 65535;

/// Where what is asked for is narrower than this part of a column, no shelves are parked: few are so full.
const PARKED_PART: u32 = 8;

/// Whether the list follows the records, for a search of something so wide: nothing waits, and no parked shelf may have room.
pub fn follows(pending: &PendingShelves, width: u32) -> bool
    ensures { result ≡ true → (frame : Frame) (records : Records) (by_height : List BoundedShelf)
        → AreKept frame records → AreByHeightExceptNoted frame records pending.now.notes by_height
        → AreByHeightFor frame records width by_height }
{
    pending.len() == 0 && pending.parked_below() <= width
}

/// Makes the list follow what was noted, for a search of something so wide. Where a parked shelf may have room for it, all
/// shelves are listed anew. Never inlined, so that going through shelves by place stays short.
#[inline(never)]
pub fn settle_for(
    frame: &Frame,
    records: &Records,
    by_height: &mut ShelvesByHeight,
    pending: &mut PendingShelves,
    width: u32,
)
    requires kept { AreKept frame.now records.now }
    requires by_height { AreByHeightExceptNoted frame.now records.now pending.old.notes by_height.old.items }
    requires room { length records.now.shelves ≤ by_height.old.capacity }
    requires room_to_note { length records.now.shelves ≤ pending.old.room }
    requires short { width ≤ longest_side }
    ensures by_height { AreByHeightExceptNoted frame.now records.now pending.new.notes by_height.new.items }
    ensures follows { AreByHeightFor frame.now records.now width by_height.new.items }
    ensures capacity { by_height.old.capacity ≤ by_height.new.capacity }
    ensures room { pending.new.room ≡ pending.old.room }
{
    if width < pending.parked_below() {
        pending.watch_longer();
        list_all(frame, records, by_height, pending);
        return;
    }
    if pending.len() > 0 {
        pending.watch(width, by_height.len(), frame.column_width / PARKED_PART);
        settle_noted(frame, records, by_height, pending);
    }
}

/// Which shelves a search goes through by place before the list by height follows those that have changed.
#[derive(Clone, Copy)]
pub enum ByPlace {
    /// All, since they are few: to make the list follow would be more work.
    All,
    /// All, although they are many: to have all listed anew would be more work.
    Many,
    /// So many first ones: where one of just the height has room, the list needn't follow.
    First(u32),
    /// None.
    NoShelves,
}

/// Which shelves this search for something so wide goes through by place. It is counted as one since a shelf has changed.
pub fn by_place(
    records: &Records,
    by_height: &ShelvesByHeight,
    pending: &mut PendingShelves,
    width: u32,
) -> ByPlace
    ensures notes { pending.new.notes ≡ pending.old.notes }
    ensures room { pending.new.room ≡ pending.old.room }
{
    let searches = pending.count_search();
    if searches < FEW_SEARCHES {
        if records.shelves().len() <= WALKED_IN_PLACE {
            return ByPlace::All;
        }
        let is_early = searches < FIRST_SEARCHES || searches as usize / 2 <= pending.len();
        if lists_most(records, by_height, pending) {
            if are_few(records, by_height, pending, is_early) {
                return ByPlace::All;
            }
        } else if pending.looks_serve() || (is_early && !lists_anew(by_height, pending, width)) {
            return ByPlace::First(looked_at(pending.len()));
        }
    }
    if lists_anew(by_height, pending, width) {
        return by_late_place(records, by_height, pending, searches);
    }
    ByPlace::NoShelves
}

/// Whether the list would have to list all shelves anew to follow, for a search of something so wide, and these are many.
#[inline(always)]
fn lists_anew(by_height: &ShelvesByHeight, pending: &PendingShelves, width: u32) -> bool {
    let changed = pending.len();
    width < pending.parked_below() || (changed > MANY && are_many(changed, by_height.len()))
}

/// Which shelves a search goes through by place, where the list would have to list all anew to follow, and so many searches were
/// made since a shelf has changed. Never inlined, so that what calls it is short.
#[inline(never)]
fn by_late_place(
    records: &Records,
    by_height: &ShelvesByHeight,
    pending: &mut PendingShelves,
    searches: u32,
) -> ByPlace
    ensures notes { pending.new.notes ≡ pending.old.notes }
    ensures room { pending.new.room ≡ pending.old.room }
{
    if searches < MORE_SEARCHES
        && lists_most(records, by_height, pending)
        && are_few(records, by_height, pending, true)
    {
        return ByPlace::All;
    }
    if searches as usize / 2 > records.shelves().len() && searches < MOST_SEARCHES {
        return ByPlace::NoShelves;
    }
    if pending.looks_serve() {
        ByPlace::First(looked_at(pending.len().max(LATE_CHANGED)))
    } else if pending.goes_far(records.shelves().len()) {
        ByPlace::Many
    } else {
        ByPlace::NoShelves
    }
}

/// Whether this search for something so wide goes through all shelves, although they are many, since a look at the first ones
/// was in vain and all would be listed anew.
pub fn goes_far(
    records: &Records,
    by_height: &ShelvesByHeight,
    pending: &PendingShelves,
    width: u32,
) -> bool {
    lists_anew(by_height, pending, width) && pending.goes_far(records.shelves().len())
}

/// How many first shelves are looked at where so many have changed: that is less work than to make the list follow these. There
/// is a most, so that no search in turn goes through more and more.
fn looked_at(changed: usize) -> u32 {
    (LOOKED_AT + LOOKED_AT_FOR_ONE * changed.min(MANY)) as u32
}

/// Whether few shelves are listed, and the list doesn't lack many more.
fn lists_most(records: &Records, by_height: &ShelvesByHeight, pending: &PendingShelves) -> bool {
    let may_lack_many = pending.len() > WALKED_CHANGES || pending.has_parked();
    by_height.len() <= WALKED_AT_FIRST
        && !(may_lack_many && records.shelves().len() > WALKED_RECORDS)
}

/// Whether shelves are so few that all are gone through in a search, which may be one of the first since one has changed.
fn are_few(
    records: &Records,
    by_height: &ShelvesByHeight,
    pending: &PendingShelves,
    is_early: bool,
) -> bool {
    let changed = pending.len();
    (by_height.len() <= WALKED || is_early)
        && (by_height.len() <= walked_in_place(changed) || have_moved(records, pending))
}

/// How many are gone through although none has moved of late, where so many have changed.
fn walked_in_place(changed: usize) -> usize {
    (WALKED_FOR_ONE * changed.min(MOST_CHANGED)).max(WALKED_IN_PLACE)
}

/// Whether one of the shelves that have changed last isn't listed where its height puts it: a merge may have undone a split.
fn have_moved(records: &Records, pending: &PendingShelves) -> bool {
    for index in pending.len().saturating_sub(LAST_CHANGED)..pending.len() {
        if has_moved(records.shelves(), pending, pending.noted_at(index)) {
            return true;
        }
    }
    false
}

/// Whether a shelf that has changed isn't listed where its height puts it.
fn has_moved(shelves: &[LinkedShelf], pending: &PendingShelves, shelf: usize) -> bool
    requires { shelf < length pending.now.notes.standing }
{
    let known = pending.standing(shelf);
    let kept = pending.kept();
    if known.listed && shelf < shelves.len() && shelf < kept.len() {
        !known.in_use || kept[shelf].height != shelves[shelf].height
    } else {
        known.listed || known.in_use
    }
}

/// Makes the list follow what was noted.
pub fn settle_shelves(
    frame: &Frame,
    records: &Records,
    by_height: &mut ShelvesByHeight,
    pending: &mut PendingShelves,
)
    requires kept { AreKept frame.now records.now }
    requires by_height { AreByHeightExceptNoted frame.now records.now pending.old.notes by_height.old.items }
    requires room { length records.now.shelves ≤ by_height.old.capacity }
    requires room_to_note { length records.now.shelves ≤ pending.old.room }
    ensures by_height { AreByHeight frame.now records.now by_height.new.items }
    ensures settled { AreSettled records.now pending.new.notes }
    ensures capacity { by_height.old.capacity ≤ by_height.new.capacity }
    ensures room { pending.new.room ≡ pending.old.room }
{
    if pending.parked_below() > 0
        || pending.narrow_below() > 0
        || are_many(pending.len(), by_height.len())
    {
        list_all(frame, records, by_height, pending);
        return;
    }
    if pending.len() > 0 {
        settle_noted(frame, records, by_height, pending);
    }
}

/// Lists all shelves in use anew, and keeps their positions, so that a return finds its own. None is parked then.
fn list_all(
    frame: &Frame,
    records: &Records,
    by_height: &mut ShelvesByHeight,
    pending: &mut PendingShelves,
)
    requires kept { AreKept frame.now records.now }
    requires room { length records.now.shelves ≤ by_height.old.capacity }
    requires room_to_note { length records.now.shelves ≤ pending.old.room }
    ensures by_height { AreByHeight frame.now records.now by_height.new.items }
    ensures settled { AreSettled records.now pending.new.notes }
    ensures capacity { by_height.old.capacity ≤ by_height.new.capacity }
    ensures room { pending.new.room ≡ pending.old.room }
{
    sort_shelves(frame, records, by_height);
    by_height.keep_positions();
    settle_notes(records, by_height, pending);
}

/// Makes the list follow what was noted. Never inlined, so that a search after which nothing changed costs no call.
#[inline(never)]
fn settle_noted(
    frame: &Frame,
    records: &Records,
    by_height: &mut ShelvesByHeight,
    pending: &mut PendingShelves,
)
    requires kept { AreKept frame.now records.now }
    requires by_height { AreByHeightExceptNoted frame.now records.now pending.old.notes by_height.old.items }
    requires room { length records.now.shelves ≤ by_height.old.capacity }
    requires room_to_note { length records.now.shelves ≤ pending.old.room }
    ensures by_height { AreByHeightExceptNoted frame.now records.now pending.new.notes by_height.new.items }
    ensures none_waits { NoneWaits pending.new.notes }
    ensures parked_below { pending.new.notes.parked_below
        ≤ max pending.old.notes.parked_below pending.old.notes.narrow_below }
    ensures capacity { by_height.old.capacity ≤ by_height.new.capacity }
    ensures room { pending.new.room ≡ pending.old.room }
{
    if are_many(pending.len(), by_height.len()) {
        list_all(frame, records, by_height, pending);
    } else {
        take_out_moved(records, by_height, pending);
        settle_each(frame, records, by_height, pending);
    }
}

/// Whether so many of the shelves have changed that it is less work to sort all: as many as the list has, or many and more
/// than an eighth.
fn are_many(changed: usize, listed: usize) -> bool {
    changed > FEW && (changed >= listed || (changed > MANY && changed > listed / 8))
}
