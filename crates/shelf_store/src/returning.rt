//! Gives an item back: frees it, and merges it and its shelf with what is free beside them.
//!
//! Definitions: `ItemReturned`, and `ReturnedNotes` for what is noted beside the shelves by height. What merges keeps the
//! record of the earlier place. It looks only at the neighbours of the item and of its shelf, moves none in the list by
//! height, and takes no memory: all have to stay so.

ghost use Rattle.std.specs.Prelude.{◌≡◌, ℕ, ◌<◌, ◌≤◌, false, None, Some, IfSome, is_some, length};
ghost use Rattle.etagere_base.specs.Lists.{times};
ghost use Rattle.shelf_records.specs.AtlasRecords.{shelf_of};
ghost use Rattle.shelf_store.specs.Private.ItemReturned as returned;
ghost use Rattle.shelf_store.specs.Private.ItemReturned.{CanMergeItem, CanMergeShelves, CanReturn, FreeNextIsThere, HeightsFit, IsShelfThere, AreThere, WidthsFit};
ghost use Rattle.shelf_heights.specs.Private.ByHeight.{AreInOrder, numbers_by_height};
ghost use Rattle.shelf_notes.specs.Private.Pending.{is_noted};
ghost use Rattle.shelf_store.specs.Private.ReturnedNotes as noting;
ghost use Rattle.shelf_store.specs.Private.SecondWidths.{returned_seconds, seconds_after};
ghost use Rattle.shelf_store.specs.Private.ReturnedNotes.{freed_width, CanMergeAllNotes, CanMergeNamedNotes, CanMergeNotes, CanReturnByHeight};
ghost use Rattle.etagere_links.specs.Edits.{link_at};
ghost use Rattle.etagere_links.specs.Links.{no_link};
ghost use Rattle.shelf_records.specs.Neighbours.{HasNeighbours, NamesOneOf};
ghost use Rattle.shelf_records.specs.RecordLists.{first_item_of};
ghost use Rattle.shelf_records.specs.Records.{shelf_chain};

use etagere_links::Link;
use shelf_heights::by_height::ShelvesByHeight;
use shelf_heights::heights::{raise, raise_if_known};
use shelf_notes::pending::PendingShelves;
use shelf_notes::second_widths::SecondWidths;
use shelf_records::{LinkedItem, LinkedShelf, Records};

/// The bits of a link that names no record, as a number.
const NO_NUMBER: usize = 65535;

/// The item that remains where one was freed, and how many item records became unused.
#[derive(Drop)]
struct Merged {
    item: usize,
    made_unused: u32,
}

/// Frees the item of this number, which is allocated in this shelf, merges what is free with its neighbours, and
/// answers how many item records became unused. The bound of its shelf rises, unless that is noted then. Where the item
/// stands alone then, the second width of its shelf stays as it was: of one free item any is right.
pub fn return_item(
    records: &mut Records,
    by_height: &mut ShelvesByHeight,
    pending: &mut PendingShelves,
    seconds: &mut SecondWidths,
    shelf: usize,
    number: usize,
) -> u32
    requires shelf { shelf ≡ shelf_of records.old.items number }
    requires number { number < no_link }
    requires fits { CanReturn number records.old }
    requires by_height { CanReturnByHeight (shelf_of records.old.items number) number records.old
        pending.old.notes by_height.old.items }
    ensures records { records.new ≡ returned.item_returned number records.old }
    ensures by_height { by_height.new.items
        ≡ noting.list_returned number records.old pending.new.notes by_height.old.items }
    ensures notes { noting.AreReturnedNotes number records.old pending.old.notes pending.new.notes }
    ensures seconds { seconds.new
        ≡ returned_seconds number records.old pending.old.notes by_height.old.items seconds.old }
    ensures room { pending.new.room ≡ pending.old.room }
    ensures made_unused { result ≡ returned.unused_by number records.old }
    ensures few { result < 5 }
    ensures narrow { freed_width records.old.items number ≤ 65535 }
    ensures capacity { by_height.old.capacity ≤ by_height.new.capacity }
{
    let merged = merge_item(records, shelf, number);
    let items = records.items();
    let width = items[merged.item].width;
    if is_alone(items, merged.item) {
        records.set_empty_present(shelf, true);
        let made_unused = merge_shelves(records, pending, shelf);
        raise_unless_noted(by_height, pending, shelf, width);
        merged.made_unused + made_unused
    } else {
        raise_both(by_height, pending, seconds, shelf, width);
        merged.made_unused
    }
}

/// Raises the bound of a shelf to this width, where it is less. One that has changed is put in anew, with a bound of its
/// own. Where others were noted since the last search, and it isn't known where this one stands, it is noted too: the next
/// search has the list follow anyway. Always inlined: a call took more than what it does there.
#[inline(always)]
fn raise_unless_noted(
    by_height: &mut ShelvesByHeight,
    pending: &mut PendingShelves,
    shelf: usize,
    width: u16,
)
    requires known { shelf < length pending.old.notes.standing }
    requires order { AreInOrder pending.old.notes.kept by_height.old.items }
    requires stands { is_noted pending.old.notes shelf ≡ false
        → 1 ≤ times shelf (numbers_by_height by_height.old.items) }
    ensures by_height { by_height.new.items
        ≡ noting.raised_unless (is_noted pending.new.notes shelf) shelf width by_height.old.items }
    ensures notes { noting.IsNotedLate shelf pending.old.notes pending.new.notes }
    ensures room { pending.new.room ≡ pending.old.room }
    ensures capacity { by_height.old.capacity ≤ by_height.new.capacity }
{
    if pending.is_noted(shelf) {
        return;
    }
    if !pending.are_unsearched() {
        raise(pending.kept(), by_height, shelf, width);
        return;
    }
    if !raise_if_known(pending.kept(), by_height, shelf, width) {
        pending.note(shelf, true);
    }
}

/// Raises the bound of a shelf so, and then follows with the width that no more than one of its free items passes. Always
/// inlined too, and in this order, so that little is kept while the bound is raised.
#[inline(always)]
fn raise_both(
    by_height: &mut ShelvesByHeight,
    pending: &PendingShelves,
    seconds: &mut SecondWidths,
    shelf: usize,
    width: u16,
)
    requires known { shelf < length pending.now.notes.standing }
    requires order { AreInOrder pending.now.notes.kept by_height.old.items }
    requires stands { is_noted pending.now.notes shelf ≡ false
        → 1 ≤ times shelf (numbers_by_height by_height.old.items) }
    ensures by_height { by_height.new.items
        ≡ noting.raised_unless (is_noted pending.now.notes shelf) shelf width by_height.old.items }
    ensures seconds { seconds.new
        ≡ seconds_after (is_noted pending.now.notes shelf) shelf width by_height.old.items seconds.old }
    ensures capacity { by_height.old.capacity ≤ by_height.new.capacity }
{
    if pending.is_noted(shelf) {
        seconds.raise(shelf, width);
        return;
    }
    let bound = raise(pending.kept(), by_height, shelf, width);
    seconds.follow_return(shelf, width, bound);
}

/// Whether an item stands alone in its shelf.
fn is_alone(items: &[LinkedItem], number: usize) -> bool
    requires { number < length items.now }
    ensures { result ≡ returned.is_alone items.now number }
{
    let item = &items[number];
    item.prev.number().is_none() && item.next.number().is_none()
}

/// Frees an item, and merges it with its free neighbours.
fn merge_item(records: &mut Records, shelf: usize, number: usize) -> Merged
    requires number { number < no_link }
    requires fits { CanMergeItem shelf number records.old }
    ensures records { records.new ≡ (returned.item_merged shelf number records.old).records }
    ensures made_unused { result.made_unused
        ≡ (returned.item_merged shelf number records.old).made_unused }
    ensures item { result.item ≡ returned.remaining_in shelf number records.old }
    ensures few { result.made_unused < 3 }
{
    let one = absorb_next(records, shelf, number);
    let merged = free_after(records, shelf, number);
    Merged {
        item: merged.item,
        made_unused: one + merged.made_unused,
    }
}

/// The item that a link names, where that is free. If it names one, that is there.
fn free_named(items: &[LinkedItem], link: Link) -> Option<usize>
    requires { NamesOneOf items.now link }
    ensures value { result ≡ returned.free_named items.now link }
    ensures small { IfSome result (λ number. number < no_link) }
{
    match link.number() {
        Some(number) if !items[number].allocated => Some(number),
        _ => None,
    }
}

/// An allocated item takes the place of the free one after it, if any.
fn absorb_next(records: &mut Records, shelf: usize, number: usize) -> u32
    requires here { AreThere shelf number records.old }
    requires after { FreeNextIsThere number records.old.items }
    requires fits { WidthsFit number (returned.free_next records.old.items number)
        records.old.items }
    ensures records { records.new
        ≡ (returned.next_absorbed shelf number (returned.free_next records.old.items number)
        records.old).records }
    ensures made_unused { result
        ≡ (returned.next_absorbed shelf number (returned.free_next records.old.items number)
        records.old).made_unused }
    ensures few { result < 2 }
{
    let item = &records.items()[number];
    let Some(next) = free_named(records.items(), item.next) else {
        return 0;
    };
    let width = item.width + records.items()[next].width;
    records.absorb_free(shelf, number, next, width);
    1
}

/// The free item before an allocated one, if any, takes its place; otherwise the item becomes free.
fn free_after(records: &mut Records, shelf: usize, number: usize) -> Merged
    requires number { number < no_link }
    requires here { AreThere shelf number records.old }
    requires fits { WidthsFit number (returned.free_previous records.old.items number)
        records.old.items }
    ensures records { records.new
        ≡ (returned.freed_after shelf number (returned.free_previous records.old.items number)
        records.old).records }
    ensures made_unused { result.made_unused
        ≡ (returned.freed_after shelf number (returned.free_previous records.old.items number)
        records.old).made_unused }
    ensures item { result.item
        ≡ returned.remaining_item number (returned.free_previous records.old.items number) }
    ensures few { result.made_unused < 2 }
{
    let item = &records.items()[number];
    let Some(previous) = free_named(records.items(), item.prev) else {
        records.free_item(shelf, number);
        return Merged {
            item: number,
            made_unused: 0,
        };
    };
    let width = records.items()[previous].width + item.width;
    records.absorb_allocated(shelf, previous, number, width);
    Merged {
        item: previous,
        made_unused: 1,
    }
}

/// Merges a shelf with its neighbours, where it and they are empty and stand in one column. It mostly is, as its item went.
fn merge_shelves(records: &mut Records, pending: &mut PendingShelves, shelf: usize) -> u32
    requires fits { CanMergeShelves shelf records.old }
    requires notes { CanMergeAllNotes shelf records.old pending.old.notes }
    ensures records { records.new ≡ (returned.shelves_merged shelf records.old).records }
    ensures notes { pending.new.notes
        ≡ noting.shelves_merged_notes shelf records.old pending.old.notes }
    ensures made_unused { result ≡ (returned.shelves_merged shelf records.old).made_unused }
    ensures few { result < 3 }
    ensures room { pending.new.room ≡ pending.old.room }
{
    match empty_behind(records.shelves(), shelf) {
        Some(next) => absorb_around(records, pending, shelf, next),
        None => merge_into_previous(records, pending, shelf),
    }
}

/// An empty shelf takes the place of the next one, which has this number and is empty too; then the one before takes its
/// place, where it is empty and stands in one column with it. Never inlined, so that a return that merges no shelves doesn't
/// carry it.
#[inline(never)]
fn absorb_around(
    records: &mut Records,
    pending: &mut PendingShelves,
    shelf: usize,
    next: usize,
) -> u32
    requires next { returned.empty_next records.old.shelves shelf ≡ Some next }
    requires small { next < no_link }
    requires fits { CanMergeShelves shelf records.old }
    requires notes { CanMergeAllNotes shelf records.old pending.old.notes }
    ensures records { records.new ≡ (returned.shelves_merged shelf records.old).records }
    ensures notes { pending.new.notes
        ≡ noting.shelves_merged_notes shelf records.old pending.old.notes }
    ensures made_unused { result ≡ (returned.shelves_merged shelf records.old).made_unused }
    ensures few { result < 3 }
    ensures room { pending.new.room ≡ pending.old.room }
{
    if !absorb_records(records, shelf, next) {
        return merge_into_previous(records, pending, shelf);
    }
    pending.note(next, false);
    if let Some(previous) = empty_before(records.shelves(), shelf) {
        if absorb_records(records, previous, shelf) {
            // That it changed before needn't be noted: of a shelf the last note counts.
            pending.note(shelf, false);
            pending.note(previous, true);
            return 2;
        }
    }
    pending.note(shelf, true);
    1
}

/// The shelf before one, if any, takes its place, where both are empty and stand in one column.
fn merge_into_previous(records: &mut Records, pending: &mut PendingShelves, shelf: usize) -> u32
    requires there { shelf < length records.old.shelves }
    requires fits { (n : ℕ) → link_at shelf_chain.previous records.old.shelves shelf ≡ Some n
        → HeightsFit n records.old.shelves }
    requires notes { CanMergeNamedNotes (link_at shelf_chain.previous records.old.shelves shelf)
        records.old pending.old.notes }
    ensures records { records.new
        ≡ (returned.named_shelf_merged (link_at shelf_chain.previous records.old.shelves shelf)
        records.old).records }
    ensures notes { pending.new.notes
        ≡ noting.named_shelf_merged_notes (link_at shelf_chain.previous records.old.shelves shelf)
        records.old pending.old.notes }
    ensures made_unused { result
        ≡ (returned.named_shelf_merged (link_at shelf_chain.previous records.old.shelves shelf)
        records.old).made_unused }
    ensures few { result < 2 }
    ensures room { pending.new.room ≡ pending.old.room }
{
    let previous = previous_link(records.shelves(), shelf);
    merge_named_shelf(records, pending, previous)
}

/// The link to the shelf before one that is there.
fn previous_link(shelves: &[LinkedShelf], shelf: usize) -> Link
    requires { shelf < length shelves.now }
    ensures { result ≡ link_at shelf_chain.previous shelves.now shelf }
{
    shelves[shelf].prev
}

/// Merges the shelf that a link names with the next one, where both are empty and stand in one column.
fn merge_named_shelf(records: &mut Records, pending: &mut PendingShelves, link: Link) -> u32
    requires fits { (n : ℕ) → link ≡ Some n → HeightsFit n records.old.shelves }
    requires notes { CanMergeNamedNotes link records.old pending.old.notes }
    ensures records { records.new ≡ (returned.named_shelf_merged link records.old).records }
    ensures notes { pending.new.notes
        ≡ noting.named_shelf_merged_notes link records.old pending.old.notes }
    ensures made_unused { result ≡ (returned.named_shelf_merged link records.old).made_unused }
    ensures few { result < 2 }
    ensures room { pending.new.room ≡ pending.old.room }
{
    let shelf = number_or_none(link);
    if shelf == NO_NUMBER {
        return 0;
    }
    let next = empty_next(records.shelves(), shelf);
    merge_shelf(records, pending, shelf, next)
}

/// Merges a shelf with the next one, where both are empty and stand in one column: then this is its number.
fn merge_shelf(
    records: &mut Records,
    pending: &mut PendingShelves,
    shelf: usize,
    next: Option<usize>,
) -> u32
    requires next { next ≡ returned.empty_next records.old.shelves shelf }
    requires small { IfSome next (λ number. number < no_link) }
    requires fits { HeightsFit shelf records.old.shelves }
    requires notes { CanMergeNotes shelf records.old pending.old.notes }
    ensures records { records.new ≡ (returned.shelf_merged shelf records.old).records }
    ensures notes { pending.new.notes
        ≡ noting.shelf_merged_notes shelf records.old pending.old.notes }
    ensures made_unused { result ≡ (returned.shelf_merged shelf records.old).made_unused }
    ensures few { result < 2 }
    ensures room { pending.new.room ≡ pending.old.room }
{
    match next {
        None => 0,
        Some(next) => absorb_shelf(records, pending, shelf, next),
    }
}

/// An empty shelf takes the place of the next one, which has this number and is empty too. Never inlined, so that a
/// return that merges no shelves doesn't carry it.
#[inline(never)]
fn absorb_shelf(
    records: &mut Records,
    pending: &mut PendingShelves,
    shelf: usize,
    next: usize,
) -> u32
    requires next { returned.empty_next records.old.shelves shelf ≡ Some next }
    requires small { next < no_link }
    requires fits { HeightsFit shelf records.old.shelves }
    requires notes { CanMergeNotes shelf records.old pending.old.notes }
    ensures records { records.new ≡ (returned.shelf_merged shelf records.old).records }
    ensures notes { pending.new.notes
        ≡ noting.shelf_merged_notes shelf records.old pending.old.notes }
    ensures made_unused { result ≡ (returned.shelf_merged shelf records.old).made_unused }
    ensures few { result < 2 }
    ensures room { pending.new.room ≡ pending.old.room }
{
    let absorbed = absorb_records(records, shelf, next);
    if absorbed {
        pending.note(next, false);
        pending.note(shelf, true);
    }
    u32::from(absorbed)
}

/// The records of two shelves that are empty and stand in one column become one, if the later has an item, and this says whether
/// they did. Always inlined: what is known of the one before needn't be read anew then.
#[inline(always)]
fn absorb_records(records: &mut Records, shelf: usize, next: usize) -> bool
    requires next { returned.empty_next records.old.shelves shelf ≡ Some next }
    requires small { next < no_link }
    requires fits { HeightsFit shelf records.old.shelves }
    requires there { IsShelfThere shelf records.old }
    ensures records { records.new ≡ (returned.shelf_merged shelf records.old).records }
    ensures item { result ≡ is_some (first_item_of records.old.shelves next) }
{
    let absorbed = &records.shelves()[next];
    let item = number_or_none(absorbed.first_item);
    if item == NO_NUMBER {
        return false;
    }
    let height = records.shelves()[shelf].height + absorbed.height;
    records.absorb_shelf(shelf, next, item, height);
    true
}

/// The shelf before one that is empty, where it is empty too and they stand in one column. Both are there.
fn empty_before(shelves: &[LinkedShelf], shelf: usize) -> Option<usize>
    requires here { shelf < length shelves.now }
    requires previous { NamesOneOf shelves.now (link_at shelf_chain.previous shelves.now shelf) }
    ensures { result ≡ returned.empty_previous shelves.now shelf }
{
    let previous = number_or_none(shelves[shelf].prev);
    if previous == NO_NUMBER || !shelves[previous].is_empty {
        return None;
    }
    if are_both_empty(shelves, previous, shelf) {
        Some(previous)
    } else {
        None
    }
}

/// The shelf after one, where both are empty and stand in one column. Both are there.
fn empty_next(shelves: &[LinkedShelf], shelf: usize) -> Option<usize>
    requires { HasNeighbours shelf_chain shelves.now shelf }
    ensures value { result ≡ returned.empty_next shelves.now shelf }
    ensures small { IfSome result (λ number. number < no_link) }
{
    let here = &shelves[shelf];
    let next = number_or_none(here.next);
    if !here.is_empty || next == NO_NUMBER {
        return None;
    }
    if are_both_empty(shelves, shelf, next) {
        Some(next)
    } else {
        None
    }
}

/// The shelf after one, which mostly is empty, where both are and stand in one column. Both are there.
fn empty_behind(shelves: &[LinkedShelf], shelf: usize) -> Option<usize>
    requires { HasNeighbours shelf_chain shelves.now shelf }
    ensures value { result ≡ returned.empty_next shelves.now shelf }
    ensures small { IfSome result (λ number. number < no_link) }
{
    let next = number_or_none(shelves[shelf].next);
    if next == NO_NUMBER || !shelves[next].is_empty {
        return None;
    }
    if are_both_empty(shelves, shelf, next) {
        Some(next)
    } else {
        None
    }
}

/// The number of the record that a link names, `NO_NUMBER` where it names none: where that is tested at once, a number that
/// may be none takes more instructions.
fn number_or_none(link: Link) -> usize
    ensures none { result ≡ no_link → link ≡ None }
    ensures some { result < no_link → link ≡ Some result }
    ensures small { result ≤ no_link }
{
    usize::from(link.bits())
}

/// Whether two shelves are empty and stand in one column. Both are there.
fn are_both_empty(shelves: &[LinkedShelf], shelf: usize, next: usize) -> bool
    requires shelf { shelf < length shelves.now }
    requires next { next < length shelves.now }
    ensures { result ≡ returned.are_both_empty shelves.now shelf next }
{
    let here = &shelves[shelf];
    let after = &shelves[next];
    here.x == after.x && here.is_empty && after.is_empty
}
