//! At which record the snapshot of a bucketed atlas breaks a rule, and how. As `broken_records`.

use crate::broken_records::{Breach, Column, breach_at};
use crate::record_walks::{End, Walk, walk_along};
use crate::snapshots::{Chain, Record, Snapshot};
use etagere_base::RestoreFault;
use snapshot_records::buckets::BucketedSnapshot;
use std::alloc::{AllocError, Global};

/// The lists of the shelves, and of the unused buckets behind them.
fn lists_of(alloc: Global, snapshot: &BucketedSnapshot) -> Result<Vec<Walk>, AllocError> {
    let mut lists = Vec::new(alloc);
    for number in 0..snapshot.shelves.len() {
        lists.push(walk_along(alloc, snapshot, Chain::Buckets(number))?)?;
    }
    lists.push(walk_along(alloc, snapshot, Chain::UnusedBuckets)?)?;
    Ok(lists)
}

/// The first record, in the order of the lists, at which a snapshot breaks the rule of this fault.
pub fn breach_of_buckets(
    alloc: Global,
    snapshot: &BucketedSnapshot,
    fault: RestoreFault,
) -> Result<Option<Breach>, AllocError> {
    let lists = lists_of(alloc, snapshot)?;
    match fault {
        RestoreFault::Link => Ok(breach_of_links(snapshot, lists.as_slice())),
        RestoreFault::Shelves => Ok(breach_of_shelves(snapshot)),
        RestoreFault::Runs => Ok(breach_of_lists(snapshot, lists.as_slice())),
        RestoreFault::Neighbours => Ok(breach_of_last(snapshot)),
        RestoreFault::Sharing => breach_of_sharing(alloc, snapshot, lists.as_slice()),
        RestoreFault::Unused => Ok(breach_of_unused(snapshot, lists.as_slice())),
        _ => Ok(None),
    }
}

fn breach_of_links(snapshot: &BucketedSnapshot, lists: &[Walk]) -> Option<Breach> {
    for list in lists {
        if list.end == End::PastTheRecords {
            return breach_at(list.last(), "its link leads past the records");
        }
        let Chain::Buckets(owner) = list.chain else {
            continue;
        };
        for number in &list.met {
            if usize::from(snapshot.buckets.get(*number)?.shelf) != owner {
                return breach_at(
                    Record::Bucket(*number),
                    "it names another shelf than the one that has it",
                );
            }
        }
    }
    None
}

fn breach_of_shelves(snapshot: &BucketedSnapshot) -> Option<Breach> {
    let across = snapshot.frame().across_side();
    let width = u32::from(snapshot.column_width).max(1);
    let mut column = Column::default();
    for (number, shelf) in snapshot.shelves.iter().enumerate() {
        let here = Record::Shelf(number);
        let its_column = u32::from(shelf.x) / width;
        if u32::from(shelf.x) % width != 0 || its_column >= u32::from(snapshot.num_columns) {
            return breach_at(here, "no column begins at its x");
        }
        if its_column != column.number {
            if its_column != column.number.saturating_add(1) || shelf.height == 0 {
                return breach_at(here, "it opens a column out of turn, or without height");
            }
            column.number = its_column;
            column.height = 0;
        }
        if u32::from(shelf.y) != column.height {
            return breach_at(here, "it doesn't begin where the one before it ends");
        }
        column.height = column.height.saturating_add(u32::from(shelf.height));
        if column.height > across {
            return breach_at(here, "it ends past its column");
        }
    }
    breach_of_totals(snapshot, column, across)
}

/// What is wrong with what a snapshot says of its last column.
fn breach_of_totals(snapshot: &BucketedSnapshot, column: Column, across: u32) -> Option<Breach> {
    if u32::from(snapshot.current_column) != column.number {
        return breach_at(
            Record::Field("current_column"),
            "it isn't the column of the last shelf",
        );
    }
    if u32::from(snapshot.available_height) != across.saturating_sub(column.height) {
        return breach_at(
            Record::Field("available_height"),
            "it isn't what the shelves of the last column leave",
        );
    }
    None
}

fn breach_of_lists(snapshot: &BucketedSnapshot, lists: &[Walk]) -> Option<Breach> {
    for (number, list) in lists.iter().enumerate() {
        if number == snapshot.shelves.len() {
            return None;
        }
        let found = breach_of_width(snapshot, number)
            .or(breach_of_places(snapshot, number, list))
            .or(breach_of_counts(snapshot, number, list));
        if found.is_some() {
            return found;
        }
    }
    None
}

fn breach_of_width(snapshot: &BucketedSnapshot, number: usize) -> Option<Breach> {
    let width = u32::from(snapshot.shelves.get(number)?.bucket_width);
    if width % snapshot.step() != 0 || (width == 0 && snapshot.num_columns == 1) {
        return breach_at(
            Record::Shelf(number),
            "its bucket_width is 0, or not aligned",
        );
    }
    None
}

/// A bucket that doesn't lie beside those that are searched before it, down to where the shelf begins.
fn breach_of_places(snapshot: &BucketedSnapshot, number: usize, list: &Walk) -> Option<Breach> {
    let shelf = snapshot.shelves.get(number)?;
    let mut end = u32::from(shelf.x).saturating_add(u32::from(snapshot.column_width));
    let mut last = None;
    for bucket in &list.met {
        let place = u32::from(snapshot.buckets.get(*bucket)?.x);
        if place.saturating_add(u32::from(shelf.bucket_width)) > end {
            return breach_at(
                Record::Bucket(*bucket),
                "it ends past the column, or where another begins",
            );
        }
        if place % snapshot.step() != 0 {
            return breach_at(Record::Bucket(*bucket), "its x isn't aligned");
        }
        end = place;
        last = Some(place);
    }
    if last != Some(u32::from(shelf.x)) {
        return breach_at(list.last(), "no bucket begins where the shelf does");
    }
    None
}

fn breach_of_counts(snapshot: &BucketedSnapshot, number: usize, list: &Walk) -> Option<Breach> {
    let shelf = snapshot.shelves.get(number)?;
    for bucket in &list.met {
        let here = Record::Bucket(*bucket);
        let record = snapshot.buckets.get(*bucket)?;
        let Some(filled) = u32::from(shelf.bucket_width).checked_sub(u32::from(record.free_space))
        else {
            return breach_at(here, "it has more left than it is wide");
        };
        let given = u32::from(record.item_count);
        if record.refcount > record.item_count || given > 4095 {
            return breach_at(
                here,
                "more of it is live than it gave, or it gave more than 4095",
            );
        }
        if record.refcount == 0 && (given != 0 || filled != 0) {
            return breach_at(here, "nothing of it is live, but it counts what it gave");
        }
        if filled % snapshot.step() != 0 || given.saturating_mul(snapshot.step()) > filled {
            return breach_at(
                here,
                "what it has used isn't aligned, or too little for what it gave",
            );
        }
        if record.refcount != 0 && shelf.height == 0 {
            return breach_at(here, "some of it is live, in a shelf without height");
        }
    }
    None
}

fn breach_of_last(snapshot: &BucketedSnapshot) -> Option<Breach> {
    let last = snapshot.shelves.len().checked_sub(1)?;
    breach_at(
        Record::Shelf(last),
        "it is the last one, and nothing of it is live",
    )
}

fn breach_of_sharing(
    alloc: Global,
    snapshot: &BucketedSnapshot,
    lists: &[Walk],
) -> Result<Option<Breach>, AllocError> {
    let mut listed = vec![in alloc; false; snapshot.buckets.len()]?;
    for list in lists {
        for number in &list.met {
            if let Some(is_listed) = listed.get_mut(*number) {
                if *is_listed {
                    return Ok(breach_at(Record::Bucket(*number), "two lists have it"));
                }
                *is_listed = true;
            }
        }
        if list.end != End::AtNone {
            return Ok(breach_at(list.last(), "the list doesn't end behind it"));
        }
    }
    let lost = listed.iter().position(|is_listed| !*is_listed);
    Ok(lost.and_then(|number| breach_at(Record::Bucket(number), "no list has it")))
}

fn breach_of_unused(snapshot: &BucketedSnapshot, lists: &[Walk]) -> Option<Breach> {
    for number in &lists.last()?.met {
        if snapshot.buckets.get(*number)?.refcount != 0 {
            return breach_at(
                Record::Bucket(*number),
                "it is unused, but something of it is live",
            );
        }
    }
    None
}
