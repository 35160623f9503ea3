//! Makes the list of the shelves by height follow those that were noted, one after another.
//!
//! Definitions: `Settling`. First the shelves go that are out of use, or begin elsewhere by now; then those in use go where
//! their records put them, each with the width of its only free item for a bound, or that of its column.

ghost use Rattle.std.specs.Prelude.{◌≡◌, ℕ, ◌+◌, ◌<◌, ◌≤◌, false, length, max, true};
ghost use Rattle.shelf_records.specs.RecordLists.{IsLinked, free_walk, shelf_walk, walked_lists};
ghost use Rattle.shelf_heights.specs.Private.ByHeight as heights;
ghost use Rattle.shelf_heights.specs.Private.ByHeight.{AreInOrder, chain_order, numbers_by_height};
ghost use Rattle.etagere_base.specs.Lists.{times};
ghost use Rattle.etagere_base.specs.declared.frames.Frame.{Frame};
ghost use Rattle.etagere_links.specs.Links.{no_link};
ghost use Rattle.shelf_notes.specs.Private.Pending.{NoneWaits, is_in_use, is_listed, is_noted, is_parked};
ghost use Rattle.shelf_records.specs.Private.Kept.{AreKept, bare};
ghost use Rattle.shelf_store.specs.Private.Settling as spec;
ghost use Rattle.shelf_store.specs.Private.Settling.{AreByHeightExceptNoted, BeginAsListed, BeginsAsListed, IsBoundIn, IsBounded, IsListExceptNoted, IsSettled, bounded_anew};

use crate::settling::parking::{is_to_park, leaving_before, park_last, put_in_place};
use crate::starting::newly_bounded;
use etagere_base::Frame;
use etagere_links::Link;
use shelf_heights::by_height::{BoundedShelf, ShelvesByHeight};
use shelf_heights::heights::{bounded, chain_order_of, position_of, put_in, settle, take_out};
use shelf_notes::pending::PendingShelves;
use shelf_records::Records;

/// Takes those out of the list that have changed and are out of use, or begin elsewhere by now.
pub(crate) fn take_out_moved(
    records: &Records,
    by_height: &mut ShelvesByHeight,
    pending: &mut PendingShelves,
)
    requires list { IsListExceptNoted records.now pending.old.notes by_height.old.items }
    ensures by_height { (frame : Frame) → AreKept frame records.now
        → AreByHeightExceptNoted frame records.now pending.old.notes by_height.old.items
        → AreByHeightExceptNoted frame records.now pending.new.notes by_height.new.items }
    ensures as_listed { BeginAsListed records.now.shelves pending.new.notes }
    ensures parked_below { pending.new.notes.parked_below ≡ pending.old.notes.parked_below }
    ensures narrow_below { pending.new.notes.narrow_below ≡ pending.old.notes.narrow_below }
    ensures capacity { by_height.old.capacity ≤ by_height.new.capacity }
    ensures room { pending.new.room ≡ pending.old.room }
{
    for index in 0..pending.len() {
        let shelf = pending.noted_at(index);
        take_out_if_moved(records, by_height, pending, shelf);
    }
}

/// Takes a shelf out of the list, if it has it and the shelf is out of use, or begins elsewhere by now.
fn take_out_if_moved(
    records: &Records,
    by_height: &mut ShelvesByHeight,
    pending: &mut PendingShelves,
    shelf: usize,
)
    requires list { IsListExceptNoted records.now pending.old.notes by_height.old.items }
    requires known { shelf < length pending.old.notes.standing }
    requires noted { is_noted pending.old.notes shelf ≡ true }
    ensures by_height { (frame : Frame) → AreKept frame records.now
        → AreByHeightExceptNoted frame records.now pending.old.notes by_height.old.items
        → AreByHeightExceptNoted frame records.now pending.new.notes by_height.new.items }
    ensures as_listed { BeginsAsListed records.now.shelves pending.new.notes shelf }
    ensures others { (k : ℕ) → BeginsAsListed records.now.shelves pending.old.notes k
        → BeginsAsListed records.now.shelves pending.new.notes k }
    ensures noted { pending.new.notes.noted ≡ pending.old.notes.noted }
    ensures known { length pending.new.notes.standing ≡ length pending.old.notes.standing }
    ensures same { (k : ℕ) → is_noted pending.new.notes k ≡ is_noted pending.old.notes k }
    ensures parked { (k : ℕ) → is_parked pending.new.notes k ≡ is_parked pending.old.notes k }
    ensures parked_below { pending.new.notes.parked_below ≡ pending.old.notes.parked_below }
    ensures narrow_below { pending.new.notes.narrow_below ≡ pending.old.notes.narrow_below }
    ensures capacity { by_height.old.capacity ≤ by_height.new.capacity }
    ensures room { pending.new.room ≡ pending.old.room }
{
    let standing = pending.standing(shelf);
    if !standing.listed || (standing.in_use && begins_as_listed(records, pending, shelf)) {
        return;
    }
    take_out(pending.kept(), by_height, shelf);
    pending.unlist(shelf);
}

/// Whether a shelf begins where it began when the list followed it.
fn begins_as_listed(records: &Records, pending: &PendingShelves, shelf: usize) -> bool
    requires there { shelf < length records.now.shelves }
    requires kept { shelf < length pending.now.notes.kept }
    ensures { result ≡ true
        → chain_order pending.now.notes.kept shelf ≡ chain_order records.now.shelves shelf }
{
    chain_order_of(pending.kept(), shelf) == chain_order_of(records.shelves(), shelf)
}

/// Makes the list follow each that has changed, where those that it has are in use and begin where they began.
pub(crate) fn settle_each(
    frame: &Frame,
    records: &Records,
    by_height: &mut ShelvesByHeight,
    pending: &mut PendingShelves,
)
    requires kept { AreKept frame.now records.now }
    requires by_height { AreByHeightExceptNoted frame.now records.now pending.old.notes by_height.old.items }
    requires as_listed { BeginAsListed records.now.shelves pending.old.notes }
    requires room { length records.now.shelves ≤ by_height.old.capacity }
    ensures by_height { AreByHeightExceptNoted frame.now records.now pending.new.notes by_height.new.items }
    ensures none_waits { NoneWaits pending.new.notes }
    ensures parked_below { pending.new.notes.parked_below
        ≤ max pending.old.notes.parked_below pending.old.notes.narrow_below }
    ensures narrow_below { pending.new.notes.narrow_below ≤ pending.old.notes.narrow_below }
    ensures capacity { by_height.old.capacity ≤ by_height.new.capacity }
    ensures room { pending.new.room ≡ pending.old.room }
{
    while pending.len() > 0 {
        settle_last(frame, records, by_height, pending);
    }
}

/// Makes the list follow the shelf that has changed last, and notes that no more.
fn settle_last(
    frame: &Frame,
    records: &Records,
    by_height: &mut ShelvesByHeight,
    pending: &mut PendingShelves,
)
    requires kept { AreKept frame.now records.now }
    requires by_height { AreByHeightExceptNoted frame.now records.now pending.old.notes by_height.old.items }
    requires as_listed { BeginAsListed records.now.shelves pending.old.notes }
    requires some { 0 < length pending.old.notes.noted }
    requires room { length records.now.shelves ≤ by_height.old.capacity }
    ensures by_height { AreByHeightExceptNoted frame.now records.now pending.new.notes by_height.new.items }
    ensures as_listed { BeginAsListed records.now.shelves pending.new.notes }
    ensures fewer { length pending.new.notes.noted + 1 ≡ length pending.old.notes.noted }
    ensures parked_below { pending.new.notes.parked_below
        ≤ max pending.old.notes.parked_below pending.old.notes.narrow_below }
    ensures narrow_below { pending.new.notes.narrow_below ≤ pending.old.notes.narrow_below }
    ensures capacity { by_height.old.capacity ≤ by_height.new.capacity }
    ensures room { pending.new.room ≡ pending.old.room }
{
    let shelf = pending.noted_at(pending.len() - 1);
    if is_to_park(frame, records, pending, shelf) {
        park_last(records, by_height, pending, shelf);
    } else {
        settle_one(frame, records, by_height, pending, shelf);
        pending.pop();
    }
}

/// Makes the list follow a shelf that has changed, where those that it has are in use and begin where they began.
fn settle_one(
    frame: &Frame,
    records: &Records,
    by_height: &mut ShelvesByHeight,
    pending: &mut PendingShelves,
    shelf: usize,
)
    requires kept { AreKept frame.now records.now }
    requires by_height { AreByHeightExceptNoted frame.now records.now pending.old.notes by_height.old.items }
    requires as_listed { BeginAsListed records.now.shelves pending.old.notes }
    requires known { shelf < length pending.old.notes.standing }
    requires noted { is_noted pending.old.notes shelf ≡ true }
    requires unparked { is_parked pending.old.notes shelf ≡ false }
    requires room { length records.now.shelves ≤ by_height.old.capacity }
    ensures by_height { AreByHeightExceptNoted frame.now records.now pending.new.notes by_height.new.items }
    ensures as_listed { BeginAsListed records.now.shelves pending.new.notes }
    ensures settled { IsSettled records.now.shelves pending.new.notes shelf }
    ensures bounded { IsBounded frame.now records.now shelf by_height.new.items }
    ensures noted { pending.new.notes.noted ≡ pending.old.notes.noted }
    ensures parked_below { pending.new.notes.parked_below ≡ pending.old.notes.parked_below }
    ensures narrow_below { pending.new.notes.narrow_below ≡ pending.old.notes.narrow_below }
    ensures capacity { by_height.old.capacity ≤ by_height.new.capacity }
    ensures room { pending.new.room ≡ pending.old.room }
{
    let standing = pending.standing(shelf);
    if !standing.in_use {
        return;
    }
    if standing.listed {
        move_listed(frame, records, by_height, pending, shelf);
        return;
    }
    match leaving_before(frame, records, by_height, pending, shelf) {
        Some(left) => put_in_place(frame, records, by_height, pending, shelf, left),
        None => put_in_new(frame, records, by_height, pending, shelf),
    }
}

/// Moves a shelf that has changed to where its record puts it, with the bound that its free items have now.
fn move_listed(
    frame: &Frame,
    records: &Records,
    by_height: &mut ShelvesByHeight,
    pending: &mut PendingShelves,
    shelf: usize,
)
    requires kept { AreKept frame.now records.now }
    requires by_height { AreByHeightExceptNoted frame.now records.now pending.old.notes by_height.old.items }
    requires as_listed { BeginAsListed records.now.shelves pending.old.notes }
    requires known { shelf < length pending.old.notes.standing }
    requires noted { is_noted pending.old.notes shelf ≡ true }
    requires unparked { is_parked pending.old.notes shelf ≡ false }
    requires in_use { is_in_use pending.old.notes shelf ≡ true }
    requires listed { is_listed pending.old.notes shelf ≡ true }
    ensures moved { by_height.new.items
        ≡ heights.put_in pending.new.notes.kept (bounded_anew frame.now records.now shelf)
        (heights.taken_out shelf by_height.old.items) }
    ensures by_height { AreByHeightExceptNoted frame.now records.now pending.new.notes by_height.new.items }
    ensures as_listed { BeginAsListed records.now.shelves pending.new.notes }
    ensures settled { IsSettled records.now.shelves pending.new.notes shelf }
    ensures bounded { IsBounded frame.now records.now shelf by_height.new.items }
    ensures noted { pending.new.notes.noted ≡ pending.old.notes.noted }
    ensures parked_below { pending.new.notes.parked_below ≡ pending.old.notes.parked_below }
    ensures narrow_below { pending.new.notes.narrow_below ≡ pending.old.notes.narrow_below }
    ensures capacity { by_height.old.capacity ≤ by_height.new.capacity }
    ensures room { pending.new.room ≡ pending.old.room }
{
    let index = position_of(pending.kept(), by_height, shelf);
    pending.list(shelf, records.shelves()[shelf]);
    let one = bounded_by_items(frame, records, shelf);
    settle(pending.kept(), by_height, one, index);
}

/// A shelf in use with a bound: the width of its only free item, or 0 where it has none. Where it has more, they aren't
/// gone through, and the bound is the width of its column.
pub(crate) fn bounded_by_items(frame: &Frame, records: &Records, shelf: usize) -> BoundedShelf
    requires kept { AreKept frame.now records.now }
    requires stands { 1 ≤ times shelf (shelf_walk records.now).met }
    requires within { shelf < length records.now.shelves }
    requires few { length records.now.shelves ≤ no_link }
    ensures value { result ≡ bounded_anew frame.now records.now shelf }
    ensures shelf { result.shelf ≡ shelf }
    ensures bounded { IsBoundIn (bare frame.now records.now) (walked_lists records.now).entries result }
{
    match width_of_only(records, shelf) {
        Some(widest) => bounded(shelf, widest),
        None => newly_bounded(frame, shelf),
    }
}

/// How wide the only free item of a shelf is, 0 where it has none; none where it has more.
fn width_of_only(records: &Records, shelf: usize) -> Option<u16>
    requires linked { IsLinked records.now (walked_lists records.now) }
    requires stands { 1 ≤ times shelf (shelf_walk records.now).met }
    requires within { shelf < length records.now.shelves }
    ensures { result ≡ spec.width_of_only records.now.items (free_walk records.now shelf).met }
{
    let Some(first) = records.shelves()[shelf].first_unallocated.number() else {
        return Some(0);
    };
    let item = &records.items()[first];
    match item.next_unallocated.number() {
        Some(_) => None,
        None => Some(item.width),
    }
}

/// Puts a shelf that the list hasn't where its record puts it. It is looked for first behind the one before it: what is left
/// of a shelf mostly stands where that stood.
fn put_in_new(
    frame: &Frame,
    records: &Records,
    by_height: &mut ShelvesByHeight,
    pending: &mut PendingShelves,
    shelf: usize,
)
    requires kept { AreKept frame.now records.now }
    requires by_height { AreByHeightExceptNoted frame.now records.now pending.old.notes by_height.old.items }
    requires as_listed { BeginAsListed records.now.shelves pending.old.notes }
    requires known { shelf < length pending.old.notes.standing }
    requires noted { is_noted pending.old.notes shelf ≡ true }
    requires unparked { is_parked pending.old.notes shelf ≡ false }
    requires in_use { is_in_use pending.old.notes shelf ≡ true }
    requires unlisted { is_listed pending.old.notes shelf ≡ false }
    requires room { length records.now.shelves ≤ by_height.old.capacity }
    ensures added { by_height.new.items
        ≡ heights.put_in pending.new.notes.kept (bounded_anew frame.now records.now shelf)
        by_height.old.items }
    ensures by_height { AreByHeightExceptNoted frame.now records.now pending.new.notes by_height.new.items }
    ensures as_listed { BeginAsListed records.now.shelves pending.new.notes }
    ensures settled { IsSettled records.now.shelves pending.new.notes shelf }
    ensures bounded { IsBounded frame.now records.now shelf by_height.new.items }
    ensures noted { pending.new.notes.noted ≡ pending.old.notes.noted }
    ensures parked_below { pending.new.notes.parked_below ≡ pending.old.notes.parked_below }
    ensures narrow_below { pending.new.notes.narrow_below ≡ pending.old.notes.narrow_below }
    ensures capacity { by_height.old.capacity ≤ by_height.new.capacity }
    ensures room { pending.new.room ≡ pending.old.room }
{
    let record = records.shelves()[shelf];
    let behind = position_of_named(by_height, pending, record.prev);
    pending.list(shelf, record);
    let one = bounded_by_items(frame, records, shelf);
    put_in(pending.kept(), by_height, one, behind);
}

/// Where the shelf stands that a link names, if the list has it; else the front.
fn position_of_named(by_height: &mut ShelvesByHeight, pending: &PendingShelves, link: Link) -> usize
    requires order { AreInOrder pending.now.notes.kept by_height.old.items }
    requires listed { (k : ℕ) → is_listed pending.now.notes k ≡ true
        → 1 ≤ times k (numbers_by_height by_height.old.items) }
    ensures { by_height.new ≡ by_height.old }
{
    match link.number() {
        Some(shelf) if pending.lists(shelf) => position_of(pending.kept(), by_height, shelf),
        _ => 0,
    }
}
