//! How full an atlas is, by one pass over its shelves.
//!
//! Definitions: `Usage`, and `Asking` for the counts by records.

ghost use Rattle.std.specs.Prelude.{◌≡◌, ◌+◌, ◌≤◌, ◌<◌, length};
ghost use Rattle.etagere_base.specs.Lists.{times};
ghost use Rattle.etagere_base.specs.Places.{size_at};
ghost use Rattle.etagere_links.specs.Links.{no_link};
ghost use Rattle.shelf_records.specs.RecordLists.{IsLinked, shelf_walk, walked_lists};
ghost use Rattle.shelf_model.specs.State as state;
ghost use Rattle.shelf_model.specs.Usage as spec;
ghost use Rattle.shelf_records.specs.Private.Kept.{AreKept, state_of};
ghost use Rattle.shelf_search.specs.Private.Asking as recorded;
ghost use Rattle.shelf_search.specs.Private.Asking.{free_of, tally_of, tally_with};

use crate::choosing::MOST_ITEMS;
use crate::free_items::free_items_of;
use etagere_base::{Frame, Size, size_at};
use shelf_model::usage::Usage;
use shelf_records::{Chain, LinkedShelf, Records, fields, next_of};

/// What is counted of shelves: how many there are, how many of them are empty, how many items are free, how wide the
/// widest of these is, and how tall the tallest of those that are as wide; 0 where none is free.
#[derive(Clone, Copy)]
pub struct Tally {
    shelves: u32,
    empty_shelves: u32,
    free_items: u32,
    width: u16,
    height: u16,
}

impl Tally {
    /// The widest free item along the shelves, and of equally wide ones the tallest.
    fn largest_free(self, frame: &Frame) -> Size
        ensures { result ≡ size_at frame.now self.width self.height }
    {
        size_at(frame, u32::from(self.width), u32::from(self.height))
    }
}

/// How full an atlas is, of which so many items are in use.
pub fn usage(frame: &Frame, records: &Records, items_in_use: u32) -> Usage
    requires kept { AreKept frame.now records.now }
    requires counted { items_in_use
        ≡ state.items_in_use (state_of frame.now records.now).shelves }
    ensures { result ≡ spec.usage (state_of frame.now records.now) }
{
    let tally = tallied(records);
    Usage {
        shelves: tally.shelves,
        empty_shelves: tally.empty_shelves,
        items: items_in_use - tally.free_items,
        free_items: tally.free_items,
        unused_records: MOST_ITEMS - items_in_use,
        largest_free: tally.largest_free(frame),
    }
}

/// The widest free item along the shelves, and of equally wide ones the tallest.
pub fn largest_free(frame: &Frame, records: &Records) -> Size
    requires { AreKept frame.now records.now }
    ensures { result ≡ spec.largest_free (state_of frame.now records.now) }
{
    let tally = tallied(records);
    tally.largest_free(frame)
}

/// What is counted of all shelves.
fn tallied(records: &Records) -> Tally
    requires linked { IsLinked records.now (walked_lists records.now) }
    requires shelves { length records.now.shelves ≤ no_link }
    requires items { length records.now.items ≤ no_link }
    requires free { (tally_of records.now (shelf_walk records.now).met).free_items ≤ no_link }
    ensures { result ≡ tally_of records.now (shelf_walk records.now).met }
{
    let mut tally = Tally {
        shelves: 0,
        empty_shelves: 0,
        free_items: 0,
        width: 0,
        height: 0,
    };
    let mut at = records.first_shelf().number();
    for _step in 0..records.shelves().len() {
        let Some(shelf) = at else {
            return tally;
        };
        tally = with_shelf(records, tally, shelf);
        at = next_of::<Chain, LinkedShelf>(records.shelves(), shelf).number();
    }
    tally
}

/// The counts with one more shelf.
fn with_shelf(records: &Records, tally: Tally, shelf: usize) -> Tally
    requires linked { IsLinked records.now (walked_lists records.now) }
    requires stands { 1 ≤ times shelf (shelf_walk records.now).met }
    requires items { length records.now.items ≤ no_link }
    requires shelves { tally.shelves < no_link }
    requires empty { tally.empty_shelves < no_link }
    requires free { tally.free_items + (free_of records.now shelf).count ≤ no_link }
    ensures { result ≡ tally_with records.now tally shelf }
{
    let free = free_items_of(records, shelf);
    let shelves = records.shelves();
    Tally {
        shelves: tally.shelves + 1,
        empty_shelves: tally.empty_shelves + u32::from(fields::is_empty(shelves, shelf)),
        free_items: tally.free_items + free.count,
        width: tally.width.max(free.widest),
        height: tallest(tally, free.widest, fields::height(shelves, shelf)),
    }
}

/// How tall the tallest of the widest items is, where one more comes.
fn tallest(tally: Tally, width: u16, height: u16) -> u16
    ensures { result ≡ recorded.tallest tally width height }
{
    if width > tally.width {
        height
    } else if width > 0 && width == tally.width {
        tally.height.max(height)
    } else {
        tally.height
    }
}
