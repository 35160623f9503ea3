//! Why a size has no place. Nothing here changes the records, nor what is known of the shelves by height.
//!
//! Definitions: `Refusal`, and `Asking` for the widest by records.

ghost use Rattle.std.specs.Prelude.{◌≡◌, ◌≤◌, ◌<◌, length};
ghost use Rattle.etagere_base.specs.Frames.{IsFrame, longest_side};
ghost use Rattle.etagere_base.specs.Lists.{times};
ghost use Rattle.etagere_base.specs.declared.frames.Frame.{Frame};
ghost use Rattle.etagere_links.specs.Links.{no_link};
ghost use Rattle.shelf_records.specs.RecordLists.{IsLinked, shelf_walk, walked_lists};
ghost use Rattle.shelf_model.specs.Choice as choice;
ghost use Rattle.shelf_model.specs.Refusal as spec;
ghost use Rattle.shelf_model.specs.declared.faults.Refusal.TheVariants.{NoRoom};
ghost use Rattle.shelf_model.specs.State as state;
ghost use Rattle.shelf_records.specs.Private.Kept.{AreKept, state_of};
ghost use Rattle.shelf_search.specs.Private.Asking as recorded;
ghost use Rattle.shelf_search.specs.Private.Searching as searching;

use crate::by_place::first_of_least_rank;
use crate::choosing::{MOST_ITEMS, MOST_SPLITS, placement_at, shelf_height};
use crate::free_items::free_items_of;
use etagere_base::{Frame, Sides, Size, SizeRefusal, rounded, size_refusal};
use shelf_model::faults::Refusal;
use shelf_records::{Chain, LinkedShelf, Records, fields, next_of};

/// The first reason for which a size has no place; none where it has one.
pub fn refusal(frame: &Frame, records: &Records, items_in_use: u32, size: Size) -> Option<Refusal>
    requires kept { AreKept frame.now records.now }
    requires counted { items_in_use
        ≡ state.items_in_use (state_of frame.now records.now).shelves }
    ensures { result ≡ spec.refusal (state_of frame.now records.now) size }
{
    if let Some(reason) = size_refusal(frame, size) {
        return Some(of_size(reason));
    }
    let sides = rounded(frame, size);
    let height = shelf_height(frame, sides.across);
    let widest = widest_free(records, height);
    if u32::from(widest) < sides.along {
        return Some(no_room(widest));
    }
    if lacks_records(records, items_in_use, height, sides) {
        return Some(Refusal::NoRecords);
    }
    None
}

/// The reason of a size itself, as one of an atlas of shelves.
fn of_size(reason: SizeRefusal) -> Refusal
    ensures { result ≡ spec.of_size reason }
{
    match reason {
        SizeRefusal::NotPositive => Refusal::NotPositive,
        SizeRefusal::TooLong => Refusal::TooLong,
        SizeRefusal::WiderThanColumn => Refusal::WiderThanColumn,
        SizeRefusal::TallerThanAtlas => Refusal::TallerThanAtlas,
    }
}

/// That a size has no room, where the widest free item is so wide.
fn no_room(widest: u16) -> Refusal
    ensures { result ≡ NoRoom widest }
{
    Refusal::NoRoom {
        widest: u32::from(widest),
    }
}

/// The width of the widest free item of the shelves that are at least this tall; 0 where there is none.
fn widest_free(records: &Records, height: u32) -> u16
    requires linked { IsLinked records.now (walked_lists records.now) }
    requires few { length records.now.items ≤ no_link }
    ensures { result ≡ recorded.widest_by records.now height }
{
    let mut widest = 0_u16;
    let mut at = records.first_shelf().number();
    for _step in 0..records.shelves().len() {
        let Some(shelf) = at else {
            return widest;
        };
        widest = widest.max(widest_at(records, height, shelf));
        at = next_of::<Chain, LinkedShelf>(records.shelves(), shelf).number();
    }
    widest
}

/// The width of the widest free item of a shelf, where it is at least this tall; else 0.
fn widest_at(records: &Records, height: u32, shelf: usize) -> u16
    requires linked { IsLinked records.now (walked_lists records.now) }
    requires stands { 1 ≤ times shelf (shelf_walk records.now).met }
    requires few { length records.now.items ≤ no_link }
    ensures { result ≡ recorded.widest_at records.now height shelf }
{
    if height <= u32::from(fields::height(records.shelves(), shelf)) {
        free_items_of(records, shelf).widest
    } else {
        0
    }
}

/// Whether the splits of the chosen place would make more items than an atlas has. Which place it is matters only where
/// two splits might.
fn lacks_records(records: &Records, items_in_use: u32, height: u32, sides: Sides) -> bool
    requires linked { IsLinked records.now (walked_lists records.now) }
    requires few { items_in_use ≤ MOST_ITEMS }
    requires counts { (length records.now.shelves ≤ no_link) × (length records.now.items ≤ no_link) }
    requires short { (sides.along ≤ longest_side) × (height ≤ longest_side) }
    ensures { (frame : Frame) → AreKept frame records.now
        → items_in_use ≡ state.items_in_use (state_of frame records.now).shelves
        → height ≡ choice.shelf_height frame sides.across
        → result ≡ spec.lacks_records (state_of frame records.now) sides }
{
    if items_in_use + MOST_SPLITS <= MOST_ITEMS {
        return false;
    }
    let Some(candidate) = first_of_least_rank(records, sides.along, height) else {
        return false;
    };
    let placement = placement_at(records, sides.along, height, candidate);
    items_in_use + placement.splits() > MOST_ITEMS
}
