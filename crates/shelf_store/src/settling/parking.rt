//! Parks shelves that have changed: they stay out of the list of the shelves by height.
//!
//! Definition: `IsToPark` of `Settling`. A shelf may be parked where its free items are narrower than what was asked for of
//! late. It is where the list hasn't got it, or has others parked already: then nothing moves for it.

ghost use Rattle.std.specs.Prelude.{◌≡◌, ℕ, ◌+◌, ◌<◌, ◌≤◌, ◌&&◌, ◌||◌, ◌-◌, nat_lt, not, IfSome, false, get_or, length, max, true};
ghost use Rattle.shelf_records.specs.RecordLists.{shelf_walk};
ghost use Rattle.shelf_heights.specs.Private.ByHeight as heights;
ghost use Rattle.shelf_heights.specs.Private.ByHeight.{AreInOrder, numbers_by_height};
ghost use Rattle.etagere_base.specs.Lists.{times};
ghost use Rattle.etagere_base.specs.declared.frames.Frame.{Frame};
ghost use Rattle.etagere_links.specs.Links.{no_link};
ghost use Rattle.shelf_notes.specs.Private.Pending.{is_in_use, is_listed, is_noted, is_parked};
ghost use Rattle.shelf_records.specs.Private.Kept.{AreKept};
ghost use Rattle.shelf_store.specs.Private.Settling as spec;
ghost use Rattle.shelf_store.specs.Private.Settling.{AreByHeightExceptNoted, BeginAsListed, BeginsAsListed, IsBounded, IsListExceptNoted, IsSettled, IsToPark, bounded_anew};

use crate::settling::moving::bounded_by_items;
use etagere_base::Frame;
use shelf_heights::by_height::ShelvesByHeight;
use shelf_heights::heights::{order_or_zero, position_of, settle, take_out};
use shelf_notes::pending::PendingShelves;
use shelf_records::Records;

/// Where each shelf moves past fewer others, none is parked: that is little work, and no shelf has to come back.
const FAR: usize = 64;

/// Whether a shelf that has changed is to be parked: it may be, and the list has it not, so that it need not be moved, or has
/// others that are parked.
pub(crate) fn is_to_park(
    frame: &Frame,
    records: &Records,
    pending: &PendingShelves,
    shelf: usize,
) -> bool
    requires kept { AreKept frame.now records.now }
    requires known { shelf < length pending.now.notes.standing }
    requires in_use { is_in_use pending.now.notes shelf ≡ true → 1 ≤ times shelf (shelf_walk records.now).met }
    requires within { is_in_use pending.now.notes shelf ≡ true → shelf < length records.now.shelves }
    requires few { length records.now.shelves ≤ no_link }
    ensures value { result
        ≡ ((not (is_listed pending.now.notes shelf) || nat_lt 0 pending.now.notes.parked_below)
        && spec.is_narrow frame.now records.now pending.now.notes shelf) }
    ensures to_park { result ≡ true → IsToPark frame.now records.now pending.now.notes shelf }
{
    pending.narrow_below() > 0
        && (!pending.standing(shelf).listed || pending.has_parked())
        && is_narrow(frame, records, pending, shelf)
}

/// Whether a shelf that has changed may be parked: it is in use, and its bound is below the width of those to be parked.
fn is_narrow(frame: &Frame, records: &Records, pending: &PendingShelves, shelf: usize) -> bool
    requires kept { AreKept frame.now records.now }
    requires known { shelf < length pending.now.notes.standing }
    requires in_use { is_in_use pending.now.notes shelf ≡ true → 1 ≤ times shelf (shelf_walk records.now).met }
    requires within { is_in_use pending.now.notes shelf ≡ true → shelf < length records.now.shelves }
    requires few { length records.now.shelves ≤ no_link }
    ensures value { result ≡ spec.is_narrow frame.now records.now pending.now.notes shelf }
    ensures to_park { result ≡ true → IsToPark frame.now records.now pending.now.notes shelf }
{
    let below = pending.narrow_below();
    below > 0
        && pending.standing(shelf).in_use
        && u32::from(bounded_by_items(frame, records, shelf).widest) < below
}

/// Parks the shelf that has changed last, which is narrow.
pub(crate) fn park_last(
    records: &Records,
    by_height: &mut ShelvesByHeight,
    pending: &mut PendingShelves,
    shelf: usize,
)
    requires list { IsListExceptNoted records.now pending.old.notes by_height.old.items }
    requires some { 0 < length pending.old.notes.noted }
    requires last { shelf ≡ get_or pending.old.notes.noted (length pending.old.notes.noted - 1) 0 }
    requires known { shelf < length pending.old.notes.standing }
    requires noted { is_noted pending.old.notes shelf ≡ true }
    ensures by_height { (frame : Frame) → AreKept frame records.now
        → IsToPark frame records.now pending.old.notes shelf
        → AreByHeightExceptNoted frame records.now pending.old.notes by_height.old.items
        → AreByHeightExceptNoted frame records.now pending.new.notes by_height.new.items }
    ensures as_listed { BeginAsListed records.now.shelves pending.old.notes
        → BeginAsListed records.now.shelves pending.new.notes }
    ensures fewer { length pending.new.notes.noted + 1 ≡ length pending.old.notes.noted }
    ensures parked_below { pending.new.notes.parked_below
        ≤ max pending.old.notes.parked_below pending.old.notes.narrow_below }
    ensures narrow_below { pending.new.notes.narrow_below ≤ pending.old.notes.narrow_below }
    ensures capacity { by_height.old.capacity ≤ by_height.new.capacity }
    ensures room { pending.new.room ≡ pending.old.room }
{
    take_out_if_listed(records, by_height, pending, shelf);
    pending.park_last();
}

/// Takes a shelf that has changed out of the list, if it has it.
fn take_out_if_listed(
    records: &Records,
    by_height: &mut ShelvesByHeight,
    pending: &mut PendingShelves,
    shelf: usize,
)
    requires list { IsListExceptNoted records.now pending.old.notes by_height.old.items }
    requires known { shelf < length pending.old.notes.standing }
    requires noted { is_noted pending.old.notes shelf ≡ true }
    ensures by_height { (frame : Frame) → AreKept frame records.now
        → AreByHeightExceptNoted frame records.now pending.old.notes by_height.old.items
        → AreByHeightExceptNoted frame records.now pending.new.notes by_height.new.items }
    ensures unlisted { is_listed pending.new.notes shelf ≡ false }
    ensures others { (k : ℕ) → BeginsAsListed records.now.shelves pending.old.notes k
        → BeginsAsListed records.now.shelves pending.new.notes k }
    ensures noted { pending.new.notes.noted ≡ pending.old.notes.noted }
    ensures known { length pending.new.notes.standing ≡ length pending.old.notes.standing }
    ensures same { (k : ℕ) → is_noted pending.new.notes k ≡ is_noted pending.old.notes k }
    ensures parked { (k : ℕ) → is_parked pending.new.notes k ≡ is_parked pending.old.notes k }
    ensures in_use { (k : ℕ) → is_in_use pending.new.notes k ≡ is_in_use pending.old.notes k }
    ensures parked_below { pending.new.notes.parked_below ≡ pending.old.notes.parked_below }
    ensures narrow_below { pending.new.notes.narrow_below ≡ pending.old.notes.narrow_below }
    ensures capacity { by_height.old.capacity ≤ by_height.new.capacity }
    ensures room { pending.new.room ≡ pending.old.room }
{
    if pending.lists(shelf) {
        take_out(pending.kept(), by_height, shelf);
        pending.unlist(shelf);
    }
}

/// The shelf before one, if the list has it still, it may be parked, and belongs far from where it stands, or others are
/// parked: what is left of it mostly stands where it stood.
pub(crate) fn leaving_before(
    frame: &Frame,
    records: &Records,
    by_height: &mut ShelvesByHeight,
    pending: &PendingShelves,
    shelf: usize,
) -> Option<usize>
    requires kept { AreKept frame.now records.now }
    requires order { AreInOrder pending.now.notes.kept by_height.old.items }
    requires stands { (k : ℕ) → is_listed pending.now.notes k ≡ true
        → 1 ≤ times k (numbers_by_height by_height.old.items) }
    requires within { shelf < length records.now.shelves }
    requires known { length records.now.shelves ≤ length pending.now.notes.standing }
    requires in_use { (k : ℕ) → is_in_use pending.now.notes k ≡ true → 1 ≤ times k (shelf_walk records.now).met }
    requires there { (k : ℕ) → is_in_use pending.now.notes k ≡ true → k < length records.now.shelves }
    requires few { length records.now.shelves ≤ no_link }
    ensures known { IfSome result (λ left. left < length pending.now.notes.standing) }
    ensures listed { IfSome result (λ left. is_listed pending.now.notes left ≡ true) }
    ensures noted { IfSome result (λ left. is_noted pending.now.notes left ≡ true) }
    ensures same { by_height.new ≡ by_height.old }
{
    if pending.narrow_below() == 0 {
        return None;
    }
    let left = records.shelves()[shelf].prev.number()?;
    if !pending.lists(left) || !pending.is_noted(left) {
        return None;
    }
    if !is_narrow(frame, records, pending, left) {
        return None;
    }
    if pending.has_parked() || is_far(records, by_height, pending, left) {
        Some(left)
    } else {
        None
    }
}

/// Whether a shelf that has changed belongs far before where it stands.
fn is_far(
    records: &Records,
    by_height: &mut ShelvesByHeight,
    pending: &PendingShelves,
    shelf: usize,
) -> bool
    requires order { AreInOrder pending.now.notes.kept by_height.old.items }
    requires stands { 1 ≤ times shelf (numbers_by_height by_height.old.items) }
    ensures { by_height.new ≡ by_height.old }
{
    let index = position_of(pending.kept(), by_height, shelf);
    if index < FAR {
        return false;
    }
    let before = by_height.shelf(index - FAR);
    order_or_zero(pending.kept(), before) > order_or_zero(records.shelves(), shelf)
}

/// Puts a shelf that the list hasn't in place of one that has changed, and leaves that one out.
pub(crate) fn put_in_place(
    frame: &Frame,
    records: &Records,
    by_height: &mut ShelvesByHeight,
    pending: &mut PendingShelves,
    shelf: usize,
    left: usize,
)
    requires kept { AreKept frame.now records.now }
    requires by_height { AreByHeightExceptNoted frame.now records.now pending.old.notes by_height.old.items }
    requires as_listed { BeginAsListed records.now.shelves pending.old.notes }
    requires known { shelf < length pending.old.notes.standing }
    requires noted { is_noted pending.old.notes shelf ≡ true }
    requires unparked { is_parked pending.old.notes shelf ≡ false }
    requires in_use { is_in_use pending.old.notes shelf ≡ true }
    requires unlisted { is_listed pending.old.notes shelf ≡ false }
    requires left_known { left < length pending.old.notes.standing }
    requires left_listed { is_listed pending.old.notes left ≡ true }
    requires left_noted { is_noted pending.old.notes left ≡ true }
    ensures put { by_height.new.items
        ≡ heights.put_in pending.new.notes.kept (bounded_anew frame.now records.now shelf)
        (heights.taken_out left by_height.old.items) }
    ensures by_height { AreByHeightExceptNoted frame.now records.now pending.new.notes by_height.new.items }
    ensures as_listed { BeginAsListed records.now.shelves pending.new.notes }
    ensures settled { IsSettled records.now.shelves pending.new.notes shelf }
    ensures bounded { IsBounded frame.now records.now shelf by_height.new.items }
    ensures noted { pending.new.notes.noted ≡ pending.old.notes.noted }
    ensures parked_below { pending.new.notes.parked_below ≡ pending.old.notes.parked_below }
    ensures narrow_below { pending.new.notes.narrow_below ≡ pending.old.notes.narrow_below }
    ensures capacity { by_height.old.capacity ≤ by_height.new.capacity }
    ensures room { pending.new.room ≡ pending.old.room }
{
    let index = position_of(pending.kept(), by_height, left);
    pending.unlist(left);
    pending.list(shelf, records.shelves()[shelf]);
    let placed = bounded_by_items(frame, records, shelf);
    settle(pending.kept(), by_height, placed, index);
}
