//! Single fields of records by number, and what they are where there is no such record.
//!
//! Definitions: `AtlasRecords` and `RecordLists`. A field that is read by a number that may be past the last record
//! gets its function here.

ghost use Rattle.std.specs.Prelude.{◌≡◌, ◌<◌, IfSome};
ghost use Rattle.shelf_records.specs.AtlasRecords as spec;
ghost use Rattle.etagere_links.specs.Links.{no_link};
ghost use Rattle.shelf_records.specs.RecordLists.{first_free_of, first_item_of};

use crate::{LinkedItem, LinkedShelf};
use etagere_links::Link;

/// Whether the item of this number is allocated.
pub fn is_allocated(items: &[LinkedItem], number: usize) -> bool
    ensures { result ≡ spec.is_allocated_at items.now number }
{
    number < items.len() && items[number].allocated
}

/// Where the item of this number begins along.
pub fn place(items: &[LinkedItem], number: usize) -> u16
    ensures { result ≡ spec.item_place_of items.now number }
{
    if number < items.len() {
        items[number].x
    } else {
        0
    }
}

/// How wide the item of this number is.
pub fn width(items: &[LinkedItem], number: usize) -> u16
    ensures { result ≡ spec.width_of items.now number }
{
    if number < items.len() {
        items[number].width
    } else {
        0
    }
}

/// The number of the shelf of the item of this number.
pub fn shelf(items: &[LinkedItem], number: usize) -> usize
    ensures { result ≡ spec.shelf_of items.now number }
{
    if number < items.len() {
        usize::from(items[number].shelf)
    } else {
        0
    }
}

/// Where the shelf of this number begins along.
pub fn along(shelves: &[LinkedShelf], shelf: usize) -> u16
    ensures { result ≡ spec.along_of shelves.now shelf }
{
    if shelf < shelves.len() {
        shelves[shelf].x
    } else {
        0
    }
}

/// Where the shelf of this number begins across.
pub fn across(shelves: &[LinkedShelf], shelf: usize) -> u16
    ensures { result ≡ spec.across_of shelves.now shelf }
{
    if shelf < shelves.len() {
        shelves[shelf].y
    } else {
        0
    }
}

/// How tall the shelf of this number is.
pub fn height(shelves: &[LinkedShelf], shelf: usize) -> u16
    ensures { result ≡ spec.height_of shelves.now shelf }
{
    if shelf < shelves.len() {
        shelves[shelf].height
    } else {
        0
    }
}

/// Whether the shelf of this number is empty.
pub fn is_empty(shelves: &[LinkedShelf], shelf: usize) -> bool
    ensures { result ≡ spec.is_empty_at shelves.now shelf }
{
    shelf < shelves.len() && shelves[shelf].is_empty
}

/// The number of the first item of the shelf of this number.
pub fn first_item(shelves: &[LinkedShelf], shelf: usize) -> Option<usize>
    ensures value { result ≡ first_item_of shelves.now shelf }
    ensures small { IfSome result (λ number. number < no_link) }
{
    if shelf < shelves.len() {
        shelves[shelf].first_item.number()
    } else {
        None
    }
}

/// The link to the first item of the shelf of this number.
pub fn first_item_link(shelves: &[LinkedShelf], shelf: usize) -> Link
    ensures { result ≡ first_item_of shelves.now shelf }
{
    if shelf < shelves.len() {
        shelves[shelf].first_item
    } else {
        Link::none()
    }
}

/// The link to the first of the free list of the shelf of this number.
pub fn first_free_link(shelves: &[LinkedShelf], shelf: usize) -> Link
    ensures { result ≡ first_free_of shelves.now shelf }
{
    if shelf < shelves.len() {
        shelves[shelf].first_unallocated
    } else {
        Link::none()
    }
}
