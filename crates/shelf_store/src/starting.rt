//! The records of a new atlas, and of one that was cleared, with their shelves by height; and the shelves of records
//! that have grown, by height.
//!
//! Definitions: `FreshRecords`, and `ByHeight` for the shelves. A clear uses the memory of the records that are
//! there, of which there is a shelf and an item for each column at least, and that of the shelves by height.

ghost use Rattle.std.specs.Prelude.{◌≡◌, ℕ, ◌+◌, ◌<◌, ◌≤◌, [], IfOk, length, map, max};
ghost use Rattle.etagere_base.specs.Frames.{HasAllColumns, IsFrame, longest_side};
ghost use Rattle.etagere_base.specs.Lists.{times};
ghost use Rattle.etagere_links.specs.Links.{no_link};
ghost use Rattle.shelf_records.specs.RecordLists.{shelf_numbers, shelf_walk, walked_lists};
ghost use Rattle.shelf_heights.specs.Private.ByHeight as heights;
ghost use Rattle.shelf_heights.specs.Private.ByHeight.{AreByHeight};
ghost use Rattle.shelf_store.specs.Private.FreshRecords as spec;
ghost use Rattle.shelf_records.specs.Private.Kept.{AreKept};

use etagere_base::Frame;
use etagere_links::Link;
use shelf_heights::by_height::{BoundedShelf, ShelvesByHeight};
use shelf_heights::heights::bounded;
use shelf_records::{Chain, LinkedItem, LinkedShelf, Records, next_of};
use std::alloc::{AllocError, Global};

/// A new atlas has room for so many shelves and items, and for entries, notes and widths of the shelves, so that the first few
/// take no memory.
pub(crate) const FIRST_ROOM: usize = 16;

/// The generation of a record that was just made.
const FIRST_GENERATION: u16 = 1;

/// The records of a new atlas: a shelf for each column, and in it an item.
pub fn fresh_records(alloc: Global, frame: &Frame) -> Result<Records, AllocError>
    requires { IsFrame longest_side frame.now }
    ensures { IfOk result (λ records. records ≡ spec.fresh_records frame.now) }
{
    let room = (frame.columns as usize).max(FIRST_ROOM);
    let mut shelves = Vec::with_capacity(alloc, room)?;
    let mut items = Vec::with_capacity(alloc, room)?;
    for column in 0..frame.columns {
        shelves.push_reserved(fresh_shelf(frame, column));
        items.push_reserved(fresh_item(frame, column));
    }
    Ok(Records::of_lists(shelves, items, Link::to(0), Link::none(), Link::none()))
}

/// The shelves by height of a new atlas.
pub fn fresh_by_height(alloc: Global, frame: &Frame) -> Result<ShelvesByHeight, AllocError>
    requires frame { IsFrame longest_side frame.now }
    requires columns { HasAllColumns frame.now }
    ensures by_height { IfOk result
        (λ by_height. AreByHeight frame.now (spec.fresh_records frame.now) by_height.items) }
    ensures room { IfOk result (λ by_height. frame.now.columns ≤ by_height.capacity) }
{
    let room = (frame.columns as usize).max(FIRST_ROOM);
    let mut by_height = ShelvesByHeight::with_room(alloc, room)?;
    push_columns(frame, &mut by_height);
    Ok(by_height)
}

/// Makes the shelves by height those of a new atlas, in the memory that they have.
pub fn reset_by_height(frame: &Frame, by_height: &mut ShelvesByHeight)
    requires frame { IsFrame longest_side frame.now }
    requires columns { HasAllColumns frame.now }
    requires room { frame.now.columns ≤ by_height.old.capacity }
    ensures by_height { AreByHeight frame.now (spec.fresh_records frame.now) by_height.new.items }
    ensures len { length by_height.new.items ≡ frame.now.columns }
    ensures capacity { by_height.old.capacity ≤ by_height.new.capacity }
{
    by_height.renumber(frame.columns as usize, frame.column_width as u16);
}

/// Puts the shelf of each column of a new atlas into an empty list by height, for which there is room.
fn push_columns(frame: &Frame, by_height: &mut ShelvesByHeight)
    requires frame { IsFrame longest_side frame.now }
    requires columns { HasAllColumns frame.now }
    requires empty { by_height.old.items ≡ [] }
    requires room { frame.now.columns ≤ by_height.old.capacity }
    ensures by_height { AreByHeight frame.now (spec.fresh_records frame.now) by_height.new.items }
    ensures capacity { by_height.old.capacity ≤ by_height.new.capacity }
{
    for column in 0..frame.columns {
        by_height.push(newly_bounded(frame, column as usize));
    }
}

/// Makes the list that of the shelves in use of records by height, in the memory that the list has.
pub fn sort_shelves(frame: &Frame, records: &Records, by_height: &mut ShelvesByHeight)
    requires kept { AreKept frame.now records.now }
    requires room { length (shelf_walk records.now).met
        ≤ max (length by_height.old.items) by_height.old.capacity }
    ensures by_height { AreByHeight frame.now records.now by_height.new.items }
    ensures capacity { by_height.old.capacity ≤ by_height.new.capacity }
{
    collect_shelves(frame, records, by_height);
    by_height.sort(records.shelves());
}

/// Puts a list that has the shelves in use in order by their heights, which may have changed.
pub fn reorder_shelves(frame: &Frame, records: &Records, by_height: &mut ShelvesByHeight)
    requires kept { AreKept frame.now records.now }
    requires once { (shelf : ℕ) → times shelf (heights.numbers_by_height by_height.old.items)
        ≡ times shelf (shelf_numbers (walked_lists records.now).entries) }
    ensures by_height { AreByHeight frame.now records.now by_height.new.items }
    ensures capacity { by_height.old.capacity ≤ by_height.new.capacity }
{
    by_height.set_bounds(frame.column_width as u16);
    by_height.sort(records.shelves());
}

/// Makes the list that of the shelves in use by their chain, new by height, in the memory that it has.
fn collect_shelves(frame: &Frame, records: &Records, by_height: &mut ShelvesByHeight)
    requires kept { AreKept frame.now records.now }
    requires room { length (shelf_walk records.now).met
        ≤ max (length by_height.old.items) by_height.old.capacity }
    ensures by_height { by_height.new.items
        ≡ map (heights.newly_bounded frame.now) (shelf_walk records.now).met }
    ensures capacity { by_height.old.capacity ≤ by_height.new.capacity }
{
    by_height.clear();
    let mut at = records.first_shelf().number();
    for _step in 0..records.shelves().len() {
        let Some(shelf) = at else {
            break;
        };
        by_height.push(newly_bounded(frame, shelf));
        at = next_of::<Chain, LinkedShelf>(records.shelves(), shelf).number();
    }
}

/// A shelf of this number, with the width of its column for a bound.
pub fn newly_bounded(frame: &Frame, shelf: usize) -> BoundedShelf
    requires frame { IsFrame longest_side frame.now }
    requires shelf { shelf < no_link }
    ensures { result ≡ heights.newly_bounded frame.now shelf }
{
    bounded(shelf, frame.column_width as u16)
}

/// Makes the records those of a new atlas, in the memory that they have.
pub fn reset_records(frame: &Frame, records: &mut Records)
    requires frame { IsFrame longest_side frame.now }
    requires shelves { frame.now.columns ≤ length records.old.shelves }
    requires items { frame.now.columns ≤ length records.old.items }
    ensures { records.new ≡ spec.fresh_records frame.now }
{
    // A copy, since what is borrowed would be read again after each write.
    let frame = *frame;
    records.truncate(frame.columns as usize);
    for column in 0..frame.columns {
        records.write_shelf(column as usize, fresh_shelf(&frame, column));
        records.write_item(column as usize, fresh_item(&frame, column));
    }
    records.restart();
}

/// The item of a column in a new atlas.
fn fresh_item(frame: &Frame, column: u32) -> LinkedItem
    requires frame { IsFrame longest_side frame.now }
    requires column { column < frame.now.columns }
    ensures { result ≡ spec.fresh_item frame.now column }
{
    LinkedItem {
        x: (column * frame.column_width) as u16,
        width: frame.column_width as u16,
        prev: Link::none(),
        next: Link::none(),
        prev_unallocated: Link::none(),
        next_unallocated: Link::none(),
        shelf: column as u16,
        allocated: false,
        generation: FIRST_GENERATION,
    }
}

/// The shelf of a column in a new atlas.
fn fresh_shelf(frame: &Frame, column: u32) -> LinkedShelf
    requires frame { IsFrame longest_side frame.now }
    requires column { column < frame.now.columns }
    ensures { result ≡ spec.fresh_shelf frame.now column }
{
    LinkedShelf {
        x: (column * frame.column_width) as u16,
        y: 0,
        height: frame.across_side() as u16,
        prev: column_before(column),
        next: column_after(frame.columns, column),
        first_item: Link::to(column as usize),
        first_unallocated: Link::to(column as usize),
        is_empty: true,
    }
}

/// The link to the shelf of the column before this one.
fn column_before(column: u32) -> Link
    requires { column < 65535 }
    ensures { result ≡ spec.column_before column }
{
    if column == 0 {
        Link::none()
    } else {
        Link::to(column as usize - 1)
    }
}

/// The link to the shelf of the column after this one, of so many.
fn column_after(columns: u32, column: u32) -> Link
    requires column { column < columns }
    requires few { columns ≤ 65535 }
    ensures { result ≡ spec.column_after columns column }
{
    if column + 1 < columns {
        Link::to(column as usize + 1)
    } else {
        Link::none()
    }
}
