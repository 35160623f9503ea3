//! At which record the snapshot of a shelf atlas breaks a rule, and how.

use crate::record_walks::{End, Walk, walk_along};
use crate::snapshots::{Chain, Record, Snapshot};
use etagere_base::RestoreFault;
use snapshot_records::shelves::AtlasSnapshot;
use std::alloc::{AllocError, Global};

/// A record, and what is wrong with it.
#[derive(Clone, Copy)]
pub struct Breach {
    pub record: Record,
    pub what: &'static str,
}

/// What is wrong with a record, as an answer.
pub fn breach_at(record: Record, what: &'static str) -> Option<Breach> {
    Some(Breach { record, what })
}

/// The walks over the shelves, and over the items of each of them.
#[derive(Drop)]
struct Used {
    shelves: Walk,
    items: Vec<Walk>,
}

fn used_lists(alloc: Global, snapshot: &AtlasSnapshot) -> Result<Used, AllocError> {
    let shelves = walk_along(alloc, snapshot, Chain::Shelves)?;
    let mut items = Vec::new(alloc);
    for shelf in &shelves.met {
        items.push(walk_along(alloc, snapshot, Chain::Items(*shelf))?)?;
    }
    Ok(Used { shelves, items })
}

/// The first record, in the order of the lists, at which a snapshot breaks the rule of this fault.
pub fn breach_of(
    alloc: Global,
    snapshot: &AtlasSnapshot,
    fault: RestoreFault,
) -> Result<Option<Breach>, AllocError> {
    let used = used_lists(alloc, snapshot)?;
    match fault {
        RestoreFault::Link => breach_of_links(alloc, snapshot, &used),
        RestoreFault::Shelves => Ok(breach_of_shelves(snapshot, &used)),
        RestoreFault::Runs => Ok(breach_of_items(snapshot, &used)),
        RestoreFault::Neighbours => Ok(breach_of_neighbours(snapshot, &used)),
        RestoreFault::FreeList => breach_of_free_lists(alloc, snapshot, &used),
        RestoreFault::Sharing => breach_of_sharing(alloc, snapshot, &used),
        RestoreFault::Unused => breach_of_unused(alloc, snapshot),
        _ => Ok(None),
    }
}

fn breach_of_links(
    alloc: Global,
    snapshot: &AtlasSnapshot,
    used: &Used,
) -> Result<Option<Breach>, AllocError> {
    for chain in [Chain::Shelves, Chain::UnusedShelves, Chain::UnusedItems] {
        let found = breach_of_walk(snapshot, &walk_along(alloc, snapshot, chain)?);
        if found.is_some() {
            return Ok(found);
        }
    }
    for items in &used.items {
        let found = breach_of_walk(snapshot, items).or(breach_of_owner(snapshot, items));
        if found.is_some() {
            return Ok(found);
        }
    }
    for shelf in &used.shelves.met {
        let free_list = walk_along(alloc, snapshot, Chain::FreeList(*shelf))?;
        if free_list.end == End::PastTheRecords {
            return Ok(breach_at(
                free_list.last(),
                "its link in the free list leads past the records",
            ));
        }
    }
    Ok(None)
}

/// A link past the records, or one back that isn't to the record before.
fn breach_of_walk(snapshot: &AtlasSnapshot, walk: &Walk) -> Option<Breach> {
    if let Some(record) = walk.first_astray(snapshot) {
        return breach_at(record, "its prev isn't the one before it");
    }
    if walk.end == End::PastTheRecords {
        return breach_at(walk.last(), "its link leads past the records");
    }
    None
}

fn breach_of_owner(snapshot: &AtlasSnapshot, items: &Walk) -> Option<Breach> {
    let Chain::Items(shelf) = items.chain else {
        return None;
    };
    for number in &items.met {
        if usize::from(snapshot.items.get(*number)?.shelf) != shelf {
            return breach_at(
                Record::Item(*number),
                "it names another shelf than the one that has it",
            );
        }
    }
    None
}

/// How far the shelves of a column reach.
#[derive(Clone, Copy, Default)]
pub struct Column {
    pub number: u32,
    pub height: u32,
}

fn breach_of_shelves(snapshot: &AtlasSnapshot, used: &Used) -> Option<Breach> {
    let frame = snapshot.frame();
    let across = frame.across_side();
    let columns = frame.along_side() / u32::from(snapshot.shelf_width).max(1);
    let mut column = Column::default();
    let mut last = Record::Field("first_shelf");
    for number in &used.shelves.met {
        let shelf = snapshot.shelves.get(*number)?;
        let its_column = u32::from(shelf.x) / u32::from(snapshot.shelf_width).max(1);
        if its_column > column.number {
            if column.height != across || its_column != column.number.saturating_add(1) {
                return breach_at(last, "behind it a column isn't filled");
            }
            column.number = its_column;
            column.height = 0;
        }
        let found = breach_of_shelf(snapshot, *number, column);
        if found.is_some() {
            return found;
        }
        column.height = column.height.saturating_add(u32::from(shelf.height));
        last = Record::Shelf(*number);
    }
    if column.height != across || column.number.saturating_add(1) != columns {
        return breach_at(last, "behind it a column isn't filled");
    }
    None
}

/// What is wrong with the place of a shelf behind so much of its column.
fn breach_of_shelf(snapshot: &AtlasSnapshot, number: usize, column: Column) -> Option<Breach> {
    let shelf = snapshot.shelves.get(number)?;
    let here = Record::Shelf(number);
    let width = u32::from(snapshot.shelf_width).max(1);
    if u32::from(shelf.x) % width != 0
        || u32::from(shelf.x) / width >= snapshot.frame().along_side() / width
    {
        return breach_at(here, "no column begins at its x");
    }
    if u32::from(shelf.x) / width < column.number {
        return breach_at(here, "its column is before that of the one before it");
    }
    if u32::from(shelf.y) != column.height {
        return breach_at(here, "it doesn't begin where the one before it ends");
    }
    if shelf.height == 0 {
        return breach_at(here, "it has no height");
    }
    None
}

fn breach_of_items(snapshot: &AtlasSnapshot, used: &Used) -> Option<Breach> {
    for (shelf, items) in used.shelves.met.iter().zip(used.items.as_slice()) {
        let found = breach_within_shelf(snapshot, *shelf, items);
        if found.is_some() {
            return found;
        }
    }
    None
}

fn breach_within_shelf(snapshot: &AtlasSnapshot, number: usize, items: &Walk) -> Option<Breach> {
    let shelf = snapshot.shelves.get(number)?;
    let step = snapshot.step();
    let mut end = u32::from(shelf.x);
    for item in &items.met {
        let record = snapshot.items.get(*item)?;
        let width = u32::from(record.width);
        if u32::from(record.x) != end {
            return breach_at(
                Record::Item(*item),
                "it doesn't begin where the one before it ends",
            );
        }
        if width == 0 || width % step != 0 {
            return breach_at(Record::Item(*item), "its width is 0, or not aligned");
        }
        end = end.saturating_add(width);
    }
    if end.saturating_sub(u32::from(shelf.x)) != u32::from(snapshot.shelf_width) {
        return breach_at(items.last(), "behind it the shelf isn't filled");
    }
    if shelf.is_empty != is_one_free(snapshot, items) {
        return breach_at(Record::Shelf(number), "its is_empty isn't right");
    }
    None
}

fn is_one_free(snapshot: &AtlasSnapshot, items: &Walk) -> bool {
    match items.met.as_slice() {
        [item] => is_free(snapshot, *item),
        _ => false,
    }
}

fn is_free(snapshot: &AtlasSnapshot, item: usize) -> bool {
    match snapshot.items.get(item) {
        Some(record) => !record.allocated,
        None => false,
    }
}

fn breach_of_neighbours(snapshot: &AtlasSnapshot, used: &Used) -> Option<Breach> {
    let mut empty_column = None;
    for (number, items) in used.shelves.met.iter().zip(used.items.as_slice()) {
        if let Some(item) = second_of_two_free(snapshot, items) {
            return breach_at(Record::Item(item), "it and the one before it are free");
        }
        let column = snapshot.shelves.get(*number)?.x;
        let is_empty = is_one_free(snapshot, items);
        if is_empty && empty_column == Some(column) {
            return breach_at(Record::Shelf(*number), "it and the one before it are empty");
        }
        empty_column = if is_empty { Some(column) } else { None };
    }
    None
}

fn second_of_two_free(snapshot: &AtlasSnapshot, items: &Walk) -> Option<usize> {
    let mut was_free = false;
    for item in &items.met {
        let is_free = is_free(snapshot, *item);
        if was_free && is_free {
            return Some(*item);
        }
        was_free = is_free;
    }
    None
}

fn breach_of_free_lists(
    alloc: Global,
    snapshot: &AtlasSnapshot,
    used: &Used,
) -> Result<Option<Breach>, AllocError> {
    for (shelf, items) in used.shelves.met.iter().zip(used.items.as_slice()) {
        let free_list = walk_along(alloc, snapshot, Chain::FreeList(*shelf))?;
        let found = breach_of_free_list(snapshot, items, &free_list);
        if found.is_some() {
            return Ok(found);
        }
    }
    Ok(None)
}

fn breach_of_free_list(snapshot: &AtlasSnapshot, items: &Walk, free: &Walk) -> Option<Breach> {
    for item in &free.met {
        if !items.met.contains(item) || !is_free(snapshot, *item) {
            return breach_at(
                Record::Item(*item),
                "the free list has it, but it isn't a free one of the shelf",
            );
        }
    }
    for item in &items.met {
        if is_free(snapshot, *item) && !free.met.contains(item) {
            return breach_at(Record::Item(*item), "it is free, but not in the free list");
        }
    }
    if let Some(record) = free.first_astray(snapshot) {
        return breach_at(record, "its prev_unallocated isn't the one before it");
    }
    if free.end != End::AtNone {
        return breach_at(free.last(), "the free list doesn't end behind it");
    }
    None
}

fn breach_of_sharing(
    alloc: Global,
    snapshot: &AtlasSnapshot,
    used: &Used,
) -> Result<Option<Breach>, AllocError> {
    let unused_shelves = walk_along(alloc, snapshot, Chain::UnusedShelves)?;
    let mut listed_shelves = Listed::new(alloc, snapshot.shelves.len())?;
    let of_shelves = listed_shelves
        .add(&used.shelves)
        .or(listed_shelves.add(&unused_shelves))
        .or(listed_shelves.lost(Chain::Shelves));
    if of_shelves.is_some() {
        return Ok(of_shelves);
    }
    let unused_items = walk_along(alloc, snapshot, Chain::UnusedItems)?;
    let mut listed_items = Listed::new(alloc, snapshot.items.len())?;
    for items in &used.items {
        let found = listed_items.add(items);
        if found.is_some() {
            return Ok(found);
        }
    }
    Ok(
        listed_items
            .add(&unused_items)
            .or(listed_items.lost(Chain::UnusedItems)),
    )
}

/// Which records stand in a list.
#[derive(Drop)]
struct Listed {
    listed: Vec<bool>,
}

impl Listed {
    fn new(alloc: Global, count: usize) -> Result<Listed, AllocError> {
        Ok(Listed {
            listed: vec![in alloc; false; count]?,
        })
    }

    /// Adds the records of a walk, up to one that stands in a list already, or to where it doesn't end.
    fn add(&mut self, walk: &Walk) -> Option<Breach> {
        for number in &walk.met {
            let is_listed = self.listed.get_mut(*number)?;
            if *is_listed {
                return breach_at(walk.chain.record(*number), "two lists have it");
            }
            *is_listed = true;
        }
        match walk.end {
            End::AtNone => None,
            End::AtMet(number) => breach_at(walk.chain.record(number), "a list has it twice"),
            End::PastTheRecords => breach_at(walk.last(), "the list doesn't end behind it"),
        }
    }

    /// The first record that stands in none.
    fn lost(&self, chain: Chain) -> Option<Breach> {
        let number = self.listed.iter().position(|is_listed| !*is_listed)?;
        breach_at(chain.record(number), "no list has it")
    }
}

fn breach_of_unused(alloc: Global, snapshot: &AtlasSnapshot) -> Result<Option<Breach>, AllocError> {
    let unused = walk_along(alloc, snapshot, Chain::UnusedItems)?;
    for item in &unused.met {
        if !is_free(snapshot, *item) {
            return Ok(breach_at(Record::Item(*item), "it is unused, but marked allocated"));
        }
    }
    Ok(None)
}
