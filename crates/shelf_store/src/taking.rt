//! Takes a placement: splits its shelf where that is due, and the item in it.
//!
//! Definitions: `PlacementTaken` of `Private`, and `Taking` for what it means. All memory is taken before
//! the first change, so an `Err` changes nothing; this has to stay so. In the list by height no shelf is moved: that they
//! have changed is noted.

ghost use Rattle.std.specs.Prelude.{◌≡◌, ℕ, ◌+◌, ◌<◌, ◌≤◌, None, Some, IfOk, OnOk, OnErr, IfSome, false, is_some, length};
ghost use Rattle.etagere_base.specs.Frames.{longest_side};
ghost use Rattle.etagere_links.specs.Links.{no_link};
ghost use Rattle.shelf_notes.specs.Private.SecondWidths.{second_at};
ghost use Rattle.shelf_records.specs.RecordUses.{rests_missing};
ghost use Rattle.shelf_model.specs.Choice.{splits};
ghost use Rattle.shelf_store.specs.Private.FoundNotes as notes;
ghost use Rattle.shelf_store.specs.Private.FoundNotes.{found_notes};
ghost use Rattle.shelf_store.specs.Private.PlacementTaken as spec;
ghost use Rattle.shelf_store.specs.Private.SecondWidths.{FollowsTaking, IsBoundLeft, is_only_free, leaves_bound};
ghost use Rattle.etagere_base.specs.Lists.{times};
ghost use Rattle.shelf_heights.specs.Private.ByHeight.{AreInOrder, numbers_by_height};
ghost use Rattle.shelf_notes.specs.Private.Pending.{is_noted};
ghost use Rattle.shelf_store.specs.Private.PlacementTaken.{AreRestsThere, CanTakeFrom, IsItemSplittable, IsItemThere, IsShelfSplittable, placement_taken, taken_notes};

use crate::settling::noting::reserve_shelves;
use etagere_base::{AllocId, INDEX_MODULUS};
use etagere_links::Link;
use shelf_heights::by_height::ShelvesByHeight;
use shelf_heights::heights::rebound;
use shelf_model::placements::Placement;
use shelf_notes::pending::PendingShelves;
use shelf_notes::second_widths::SecondWidths;
use shelf_records::{LinkedItem, LinkedShelf, Records};
use std::alloc::AllocError;

/// Takes a placement as `take_placement` does, and lowers the bound of its shelf where its item alone was so wide. Where what
/// is left free in its shelf is narrow, that is noted, so that it is parked.
pub fn take_found(
    records: &mut Records,
    by_height: &mut ShelvesByHeight,
    pending: &mut PendingShelves,
    seconds: &mut SecondWidths,
    found: &Placement,
    column_width: u16,
) -> Result<AllocId, AllocError>
    requires takes { CanTakeFrom column_width found.now records.old }
    requires there { found.now.shelf < length records.old.shelves }
    requires known { length records.old.shelves ≤ length pending.old.notes.standing }
    requires order { AreInOrder pending.old.notes.kept by_height.old.items }
    requires stands { is_noted pending.old.notes found.now.shelf ≡ false
        → 1 ≤ times found.now.shelf (numbers_by_height by_height.old.items) }
    requires room { length records.old.shelves ≤ by_height.old.capacity }
    requires room_to_note { length records.old.shelves ≤ pending.old.room }
    ensures ok { OnOk result (records.new ≡ placement_taken column_width found.now records.old) }
    ensures id { IfOk result (λ id. id ≡ spec.id_of records.old.items found.now.item) }
    ensures err { OnErr result (records.new ≡ records.old) }
    ensures by_height { OnOk result
        (FollowsTaking records.old.items pending.old.notes seconds.old found.now by_height.old.items
        by_height.new.items) }
    ensures by_height_err { OnErr result (by_height.new.items ≡ by_height.old.items) }
    ensures notes { OnOk result
        (pending.new.notes ≡ found_notes found.now records.old pending.old.notes) }
    ensures notes_err { OnErr result (pending.new.notes ≡ pending.old.notes) }
    ensures room { length records.new.shelves ≤ by_height.new.capacity }
    ensures room_to_note { length records.new.shelves ≤ pending.new.room }
    ensures seconds { (k : ℕ) → second_at seconds.new k ≡ second_at seconds.old k }
    ensures split { OnErr result (0 < splits found.now) }
    ensures short { OnErr result
        (0 < rests_missing found.now.splits_shelf found.now.splits_item records.old) }
{
    let follows = what_follows(records, pending, seconds, found);
    let id = take_placement(records, by_height, pending, seconds, found, column_width)?;
    match follows {
        Following::Nothing => {}
        Following::Bound(bound) => rebound(pending.kept(), by_height, found.shelf, bound),
        Following::Note => pending.note(found.shelf, true),
    }
    Ok(id)
}

/// What follows beside the records once a placement was taken.
#[derive(Clone, Copy)]
enum Following {
    /// Nothing.
    Nothing,
    /// The bound of its shelf falls to this width.
    Bound(u16),
    /// Its shelf is noted, so that it is parked.
    Note,
}

/// What follows once a placement is taken: nothing of a shelf that has changed, which the list isn't to follow yet.
fn what_follows(
    records: &Records,
    pending: &PendingShelves,
    seconds: &SecondWidths,
    found: &Placement,
) -> Following
    requires item { found.now.item < length records.now.items }
    requires known { found.now.shelf < length pending.now.notes.standing }
    ensures due { is_some (notes.bound_of result)
        ≡ leaves_bound records.now.items pending.now.notes seconds.now found.now }
    ensures bound { IfSome (notes.bound_of result)
        (IsBoundLeft records.now.items pending.now.notes seconds.now found.now) }
    ensures notes { notes.notes_shelf result
        ≡ notes.leaves_narrow records.now.items pending.now.notes found.now }
{
    if is_only_free(records.items(), found.item) {
        return following_only(records, pending, found);
    }
    match bound_left(records, pending, seconds, found) {
        Some(bound) => Following::Bound(bound),
        None => Following::Nothing,
    }
}

/// The same where the item of the placement is the only free one of its shelf.
fn following_only(records: &Records, pending: &PendingShelves, found: &Placement) -> Following
    requires item { found.now.item < length records.now.items }
    requires known { found.now.shelf < length pending.now.notes.standing }
    ensures bound { notes.bound_of result ≡ None }
    ensures notes { notes.notes_shelf result
        ≡ notes.leaves_narrow records.now.items pending.now.notes found.now }
{
    if leaves_narrow(records, pending, found) {
        Following::Note
    } else {
        Following::Nothing
    }
}

/// Takes a placement, which names its shelf and its item by their records' numbers, and gives the id. An
/// `Err`, which comes only where something is split and records are missing for that, changes nothing.
fn take_placement(
    records: &mut Records,
    by_height: &mut ShelvesByHeight,
    pending: &mut PendingShelves,
    seconds: &mut SecondWidths,
    found: &Placement,
    column_width: u16,
) -> Result<AllocId, AllocError>
    requires takes { CanTakeFrom column_width found.now records.old }
    requires there { found.now.shelf < length records.old.shelves }
    requires known { length records.old.shelves ≤ length pending.old.notes.standing }
    requires room { length records.old.shelves ≤ by_height.old.capacity }
    requires room_to_note { length records.old.shelves ≤ pending.old.room }
    ensures ok { OnOk result (records.new ≡ placement_taken column_width found.now records.old) }
    ensures id { IfOk result (λ id. id ≡ spec.id_of records.old.items found.now.item) }
    ensures err { OnErr result (records.new ≡ records.old) }
    ensures by_height { by_height.new.items ≡ by_height.old.items }
    ensures notes { OnOk result
        (pending.new.notes ≡ taken_notes found.now records.old pending.old.notes) }
    ensures notes_err { OnErr result (pending.new.notes ≡ pending.old.notes) }
    ensures room { length records.new.shelves ≤ by_height.new.capacity }
    ensures room_to_note { length records.new.shelves ≤ pending.new.room }
    ensures seconds { (k : ℕ) → second_at seconds.new k ≡ second_at seconds.old k }
    ensures split { OnErr result (0 < splits found.now) }
    ensures short { OnErr result
        (0 < rests_missing found.now.splits_shelf found.now.splits_item records.old) }
{
    let id = id_of(records.items(), found.item);
    if found.splits_shelf {
        reserve_shelves(records, by_height, pending, seconds, 1)?;
    }
    let rests = records.use_rests(found.splits_shelf, found.splits_item)?;
    make_shelf_rest(
        records,
        pending,
        found,
        column_width,
        rests.shelf,
        rests.shelf_item,
    );
    give_item(records, found, rests.item);
    records.set_empty_present(found.shelf, false);
    Ok(id)
}

/// The bound of a placement's shelf once the placement is taken, where its item alone passes the width that is kept of the
/// shelf. None where the list isn't to follow: another one may be as wide, or there is no other one, or the shelf has
/// changed.
fn bound_left(
    records: &Records,
    pending: &PendingShelves,
    seconds: &SecondWidths,
    found: &Placement,
) -> Option<u16>
    requires item { found.now.item < length records.now.items }
    requires known { found.now.shelf < length pending.now.notes.standing }
    ensures due { is_some result
        ≡ leaves_bound records.now.items pending.now.notes seconds.now found.now }
    ensures bound { IfSome result
        (IsBoundLeft records.now.items pending.now.notes seconds.now found.now) }
{
    if is_only_free(records.items(), found.item) {
        return None;
    }
    let item = &records.items()[found.item];
    let second = seconds.second(found.shelf);
    if item.width <= second || found.splits_shelf || pending.is_noted(found.shelf) {
        return None;
    }
    let rest = u32::from(item.width).saturating_sub(found.width);
    Some(second.max(rest as u16))
}

/// Whether the shelf of a placement, which has not changed, has no free item left as wide as what is to be parked, where some
/// are parked.
fn leaves_narrow(records: &Records, pending: &PendingShelves, found: &Placement) -> bool
    requires item { found.now.item < length records.now.items }
    requires known { found.now.shelf < length pending.now.notes.standing }
    ensures { result ≡ notes.leaves_narrow records.now.items pending.now.notes found.now }
{
    if !pending.has_parked() || found.splits_shelf || pending.is_noted(found.shelf) {
        return false;
    }
    let rest = u32::from(records.items()[found.item].width).saturating_sub(found.width);
    is_only_free(records.items(), found.item) && rest < pending.narrow_below()
}

/// Whether an item is the only free one of its shelf.
fn is_only_free(items: &[LinkedItem], number: usize) -> bool
    requires { number < length items.now }
    ensures { result ≡ is_only_free items.now number }
{
    let item = &items[number];
    item.prev_unallocated.number().is_none() && item.next_unallocated.number().is_none()
}

/// Splits the shelf of a placement, where these are the numbers of the records of the rest and of its item.
fn make_shelf_rest(
    records: &mut Records,
    pending: &mut PendingShelves,
    found: &Placement,
    column_width: u16,
    shelf: Option<usize>,
    item: Option<usize>,
)
    requires splittable { IsShelfSplittable found.now records.old }
    requires shelf { IfSome shelf (λ number. number < no_link) }
    requires item { IfSome item (λ number. number < no_link) }
    requires there { AreRestsThere shelf item records.old }
    requires known { found.now.shelf < length pending.old.notes.standing }
    requires next { IfSome shelf (λ number. number ≤ length pending.old.notes.standing) }
    requires room { IfSome shelf (λ number. number < pending.old.room) }
    ensures room { pending.new.room ≡ pending.old.room }
    ensures records { records.new
        ≡ spec.with_shelf_rest column_width found.now shelf item records.old }
    ensures notes { pending.new.notes
        ≡ spec.with_rest_notes found.now.shelf shelf item (spec.shelf_record records.old.shelves found.now.shelf)
        pending.old.notes }
{
    let Some(shelf) = shelf else {
        return;
    };
    let Some(item) = item else {
        return;
    };
    split_shelf(records, pending, found, column_width, shelf, item);
}

/// Splits the shelf of a placement, where these are the numbers of the records of the rest and of its item. There is room
/// for a note of the rest.
fn split_shelf(
    records: &mut Records,
    pending: &mut PendingShelves,
    found: &Placement,
    column_width: u16,
    shelf: usize,
    item: usize,
)
    requires splittable { IsShelfSplittable found.now records.old }
    requires shelf { shelf < no_link }
    requires item { item < no_link }
    requires there { AreRestsThere (Some shelf) (Some item) records.old }
    requires known { found.now.shelf < length pending.old.notes.standing }
    requires next { shelf ≤ length pending.old.notes.standing }
    requires room { shelf < pending.old.room }
    ensures room { pending.new.room ≡ pending.old.room }
    ensures records { records.new
        ≡ spec.with_shelf_rest column_width found.now (Some shelf) (Some item) records.old }
    ensures notes { pending.new.notes
        ≡ spec.with_rest_notes found.now.shelf (Some shelf) (Some item)
        (spec.shelf_record records.old.shelves found.now.shelf) pending.old.notes }
{
    let whole = records.shelves()[found.shelf];
    let height = found.height as u16;
    let rest = rest_shelf(&whole, height, item);
    let generation = records.items()[item].generation;
    let free = free_item(whole.x, column_width, shelf as u16, generation);
    records.split_shelf_present(found.shelf, height, shelf, rest, item, free);
    pending.note(found.shelf, true);
    pending.add(shelf, whole);
    pending.note(shelf, true);
}

/// Gives the item of a placement: its front, where this is the number of the rest's record, else all of it.
fn give_item(records: &mut Records, found: &Placement, rest: Option<usize>)
    requires shelf { found.now.shelf < no_link }
    requires splittable { IsItemSplittable found.now records.old }
    requires there { IsItemThere found.now rest records.old }
    requires rest { IfSome rest (λ number. number < no_link) }
    ensures { records.new ≡ spec.with_item_given found.now rest records.old }
{
    let Some(rest) = rest else {
        records.give_item(found.shelf, found.item);
        return;
    };
    write_item_rest(records, found, rest);
    records.give_front(found.shelf, found.item, rest, found.width as u16);
}

/// Writes the record of the rest of the item of a placement, which has this number.
fn write_item_rest(records: &mut Records, found: &Placement, rest: usize)
    requires shelf { found.now.shelf < no_link }
    requires splittable { IsItemSplittable found.now records.old }
    requires there { rest < length records.old.items }
    ensures { records.new ≡ spec.with_rest_written found.now rest records.old }
{
    let whole = records.items()[found.item];
    let generation = records.items()[rest].generation;
    let item = rest_item(&whole, found.width as u16, found.shelf as u16, generation);
    records.write_item_present(rest, item);
}

/// The id under which the item of this number is given.
fn id_of(items: &[LinkedItem], number: usize) -> AllocId
    requires there { number < length items.now }
    requires small { number < no_link }
    ensures { result ≡ spec.id_of items.now number }
{
    let generation = items[number].generation;
    AllocId::deserialize(number as u32 + INDEX_MODULUS * u32::from(generation))
}

/// The record of a free item in no list.
fn free_item(x: u16, width: u16, shelf: u16, generation: u16) -> LinkedItem
    ensures { result ≡ spec.free_item x width shelf generation }
{
    LinkedItem {
        x,
        width,
        prev: Link::none(),
        next: Link::none(),
        prev_unallocated: Link::none(),
        next_unallocated: Link::none(),
        shelf,
        allocated: false,
        generation,
    }
}

/// The record of the rest of an item beyond this width, in the shelf of this number.
fn rest_item(whole: &LinkedItem, width: u16, shelf: u16, generation: u16) -> LinkedItem
    requires right { whole.now.x + width ≤ longest_side }
    requires narrower { width ≤ whole.now.width }
    ensures { result ≡ spec.rest_item whole.now width shelf generation }
{
    free_item(whole.x + width, whole.width - width, shelf, generation)
}

/// The record of the rest of a shelf above this height, with this item.
fn rest_shelf(whole: &LinkedShelf, height: u16, item: usize) -> LinkedShelf
    requires bottom { whole.now.y + height ≤ longest_side }
    requires shorter { height ≤ whole.now.height }
    requires item { item < no_link }
    ensures { result ≡ spec.rest_shelf whole.now height item }
{
    LinkedShelf {
        x: whole.x,
        y: whole.y + height,
        height: whole.height - height,
        prev: Link::none(),
        next: Link::none(),
        first_item: Link::to(item),
        first_unallocated: Link::to(item),
        is_empty: true,
    }
}
