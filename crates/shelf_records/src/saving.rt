//! Records as they are saved, whose links are plain numbers, and as they are linked.
//!
//! Definitions: `linked_item` and `linked_shelf` of `Snapshots`.

ghost use Rattle.std.specs.Prelude.{◌≡◌, IfOk, map};
ghost use Rattle.shelf_records.specs.Snapshots as spec;

use crate::{LinkedItem, LinkedShelf};
use etagere_links::Link;
use snapshot_records::shelves::{ItemRecord, ShelfRecord};
use std::alloc::{AllocError, Global};

/// The item that a saved one stands for.
pub fn linked_item(item: &ItemRecord) -> LinkedItem
    ensures { result ≡ spec.linked_item item.now }
{
    LinkedItem {
        x: item.x,
        width: item.width,
        prev: Link::from_bits(item.prev),
        next: Link::from_bits(item.next),
        prev_unallocated: Link::from_bits(item.prev_unallocated),
        next_unallocated: Link::from_bits(item.next_unallocated),
        shelf: item.shelf,
        allocated: item.allocated,
        generation: item.generation,
    }
}

/// What an item is saved as.
pub fn saved_item(item: &LinkedItem) -> ItemRecord
    ensures { spec.linked_item result ≡ item.now }
{
    ItemRecord {
        x: item.x,
        width: item.width,
        prev: item.prev.bits(),
        next: item.next.bits(),
        prev_unallocated: item.prev_unallocated.bits(),
        next_unallocated: item.next_unallocated.bits(),
        shelf: item.shelf,
        allocated: item.allocated,
        generation: item.generation,
    }
}

/// The shelf that a saved one stands for.
pub fn linked_shelf(shelf: &ShelfRecord) -> LinkedShelf
    ensures { result ≡ spec.linked_shelf shelf.now }
{
    LinkedShelf {
        x: shelf.x,
        y: shelf.y,
        height: shelf.height,
        prev: Link::from_bits(shelf.prev),
        next: Link::from_bits(shelf.next),
        first_item: Link::from_bits(shelf.first_item),
        first_unallocated: Link::from_bits(shelf.first_unallocated),
        is_empty: shelf.is_empty,
    }
}

/// What a shelf is saved as.
pub fn saved_shelf(shelf: &LinkedShelf) -> ShelfRecord
    ensures { spec.linked_shelf result ≡ shelf.now }
{
    ShelfRecord {
        x: shelf.x,
        y: shelf.y,
        height: shelf.height,
        prev: shelf.prev.bits(),
        next: shelf.next.bits(),
        first_item: shelf.first_item.bits(),
        first_unallocated: shelf.first_unallocated.bits(),
        is_empty: shelf.is_empty,
    }
}

/// The items that saved ones stand for. Takes memory for all of them.
pub fn linked_items(alloc: Global, items: &[ItemRecord]) -> Result<Vec<LinkedItem>, AllocError>
    ensures { IfOk result (λ linked. linked.items ≡ map spec.linked_item items.now) }
{
    let mut linked = Vec::with_capacity(alloc, items.len())?;
    for item in items {
        linked.push_reserved(linked_item(item));
    }
    Ok(linked)
}

/// The shelves that saved ones stand for. Takes memory for all of them.
pub fn linked_shelves(
    alloc: Global,
    shelves: &[ShelfRecord],
) -> Result<Vec<LinkedShelf>, AllocError>
    ensures { IfOk result (λ linked. linked.items ≡ map spec.linked_shelf shelves.now) }
{
    let mut linked = Vec::with_capacity(alloc, shelves.len())?;
    for shelf in shelves {
        linked.push_reserved(linked_shelf(shelf));
    }
    Ok(linked)
}

/// What items are saved as. Takes memory for all of them.
pub fn saved_items(alloc: Global, items: &[LinkedItem]) -> Result<Vec<ItemRecord>, AllocError>
    ensures { IfOk result (λ saved. map spec.linked_item saved.items ≡ items.now) }
{
    let mut saved = Vec::with_capacity(alloc, items.len())?;
    for item in items {
        saved.push_reserved(saved_item(item));
    }
    Ok(saved)
}

/// What shelves are saved as. Takes memory for all of them.
pub fn saved_shelves(alloc: Global, shelves: &[LinkedShelf]) -> Result<Vec<ShelfRecord>, AllocError>
    ensures { IfOk result (λ saved. map spec.linked_shelf saved.items ≡ shelves.now) }
{
    let mut saved = Vec::with_capacity(alloc, shelves.len())?;
    for shelf in shelves {
        saved.push_reserved(saved_shelf(shelf));
    }
    Ok(saved)
}
