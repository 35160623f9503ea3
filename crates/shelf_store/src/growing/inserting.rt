//! Puts records to use for what a grow adds, and empty shelves in after others.
//!
//! Definitions: `RecordsGrown`. What is put to use is what became unused last, and then what was made.

ghost use Rattle.std.specs.Prelude.{◌≡◌, ◌<◌};
ghost use Rattle.etagere_links.specs.Links.{no_link};
ghost use Rattle.shelf_store.specs.Private.RecordsGrown as spec;
ghost use Rattle.shelf_store.specs.Private.RecordsGrown.{CanInsert};

use crate::growing::Made;
use etagere_links::Link;
use shelf_records::{LinkedShelf, Records};

/// Where a shelf begins along and across, and how wide and tall it is.
#[derive(Clone, Copy)]
pub struct NewShelf {
    pub along: u16,
    pub across: u16,
    pub width: u16,
    pub height: u16,
}

/// Puts an item record to use.
pub fn use_item(records: &mut Records, made: &mut Made) -> usize
    requires { spec.next_item (record { records = records.old; made = made.old }) < no_link }
    ensures number { result ≡ spec.next_item (record { records = records.old; made = made.old }) }
    ensures records { records.new
        ≡ (spec.after_item
        (record { records = records.old; made = made.old })).records }
    ensures made { made.new
        ≡ (spec.after_item
        (record { records = records.old; made = made.old })).made }
{
    if let Some(item) = records.use_item_again() {
        return item;
    }
    let item = made.item;
    made.item += 1;
    item
}

/// Puts a shelf record to use.
fn use_shelf(records: &mut Records, made: &mut Made) -> usize
    requires { spec.next_shelf (record { records = records.old; made = made.old }) < no_link }
    ensures number { result ≡ spec.next_shelf (record { records = records.old; made = made.old }) }
    ensures records { records.new
        ≡ (spec.after_shelf
        (record { records = records.old; made = made.old })).records }
    ensures made { made.new
        ≡ (spec.after_shelf
        (record { records = records.old; made = made.old })).made }
{
    if let Some(shelf) = records.use_shelf_again() {
        return shelf;
    }
    let shelf = made.shelf;
    made.shelf += 1;
    shelf
}

/// Puts an empty shelf at a place after another one; gives its number.
pub fn insert_shelf(
    records: &mut Records,
    made: &mut Made,
    previous: usize,
    added: NewShelf,
) -> usize
    requires { CanInsert previous (record { records = records.old; made = made.old }) }
    ensures number { result
        ≡ spec.next_shelf
        (spec.after_item (record { records = records.old; made = made.old })) }
    ensures small { result < no_link }
    ensures records { records.new
        ≡ (spec.shelf_inserted added.width previous added.along added.across added.height
        (record { records = records.old; made = made.old })).records }
    ensures made { made.new
        ≡ (spec.shelf_inserted added.width previous added.along added.across added.height
        (record { records = records.old; made = made.old })).made }
{
    let item = use_item(records, made);
    let shelf = use_shelf(records, made);
    records.start_item(item, added.along, added.width, shelf as u16);
    records.write_shelf(shelf, empty_shelf(&added, item));
    records.insert_shelf_after(previous, shelf);
    shelf
}

/// The record of an empty shelf at a place, with this item.
fn empty_shelf(added: &NewShelf, item: usize) -> LinkedShelf
    requires { item < no_link }
    ensures { result
        ≡ spec.empty_shelf_record added.now.along added.now.across added.now.height item }
{
    LinkedShelf {
        x: added.along,
        y: added.across,
        height: added.height,
        prev: Link::none(),
        next: Link::none(),
        first_item: Link::to(item),
        first_unallocated: Link::to(item),
        is_empty: true,
    }
}
