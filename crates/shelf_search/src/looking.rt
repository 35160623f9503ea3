//! The record that is allocated under an id, by one look, and where its item lies.
//!
//! Definitions: `Reading`, and `rectangle_of` of `Places`. Nothing here changes the records, and
//! nothing is walked.

ghost use Rattle.std.specs.Prelude.{◌≡◌, ◌<◌, length, true};
ghost use Rattle.shelf_records.specs.AtlasRecords.{is_allocated_at, shelf_of};
ghost use Rattle.shelf_model.specs.Places as places;
ghost use Rattle.shelf_records.specs.Private.Kept.{AreKept, state_of};
ghost use Rattle.shelf_records.specs.Private.Reading as reading;

use etagere_base::{AllocId, Frame, INDEX_MODULUS, Rectangle, rectangle_at};
use shelf_records::Records;

/// The index of an id: the number of the record that is allocated under it.
pub fn index_of(records: &Records, id: AllocId) -> Option<u32>
    ensures { result ≡ reading.record_of records.now.items id }
{
    let index = id.serialize() % INDEX_MODULUS;
    let item = records.items().get(index as usize)?;
    if item.allocated && u32::from(item.generation) == id.serialize() / INDEX_MODULUS {
        Some(index)
    } else {
        None
    }
}

/// The number of the record that is allocated under an id.
pub fn number_of(records: &Records, id: AllocId) -> Option<usize>
    ensures { result ≡ reading.record_of records.now.items id }
{
    Some(index_of(records, id)? as usize)
}

/// Where the item of a record lies that is allocated.
pub fn recorded_rectangle(frame: &Frame, records: &Records, number: usize) -> Rectangle
    requires kept { AreKept frame.now records.now }
    requires allocated { is_allocated_at records.now.items number ≡ true }
    ensures { result ≡ reading.recorded_rectangle frame.now records.now number }
{
    let item = &records.items()[number];
    let shelf = &records.shelves()[usize::from(item.shelf)];
    rectangle_at(
        frame,
        u32::from(item.x),
        u32::from(shelf.y),
        u32::from(item.width),
        u32::from(shelf.height),
    )
}

/// The rectangle that is allocated under an id.
pub fn rectangle_of(frame: &Frame, records: &Records, id: AllocId) -> Option<Rectangle>
    requires { AreKept frame.now records.now }
    ensures { result ≡ places.rectangle_of (state_of frame.now records.now) id }
{
    let number = number_of(records, id)?;
    Some(recorded_rectangle(frame, records, number))
}

/// The number of the shelf of an item that is there.
pub fn recorded_shelf(records: &Records, number: usize) -> usize
    requires { number < length records.now.items }
    ensures { result ≡ shelf_of records.now.items number }
{
    usize::from(records.items()[number].shelf)
}

/// The area of the item of this number, in this shelf, which is its own. Both are there.
pub fn recorded_area(records: &Records, shelf: usize, number: usize) -> u32
    requires item { number < length records.now.items }
    requires shelf { shelf < length records.now.shelves }
    requires own { shelf ≡ shelf_of records.now.items number }
    ensures { result ≡ reading.recorded_area records.now number }
{
    let item = &records.items()[number];
    u32::from(item.width) * u32::from(records.shelves()[shelf].height)
}
