//! How many records a grow needs, counted before the first change.
//!
//! Definitions: `RecordsGrown`.

ghost use Rattle.std.specs.Prelude.{◌≡◌, ◌<◌, ◌≤◌, IfSome, length, if◌then◌else◌};
ghost use Rattle.etagere_links.specs.Links.{no_link};
ghost use Rattle.shelf_store.specs.Private.RecordsGrown as spec;

use crate::growing::Needed;
use etagere_base::Frame;
use shelf_records::{Chain, LinkedItem, LinkedShelf, Records, fields, next_of};

/// How many records a grow to a frame needs.
pub fn needed_for(frame: &Frame, grown: &Frame, records: &Records) -> Needed
    requires few { length records.now.shelves ≤ no_link }
    requires columns { (frame.now.columns ≤ grown.now.columns) × (grown.now.columns ≤ no_link) }
    ensures { result ≡ spec.needed_of frame.now grown.now records.now }
{
    let items = if grown.column_width > frame.column_width {
        allocated_ends(records)
    } else {
        0
    };
    let ends = if grown.across_side() > frame.across_side() {
        filled_ends(records)
    } else {
        0
    };
    let shelves = ends + (grown.columns - frame.columns);
    Needed {
        items: items + shelves,
        shelves,
    }
}

/// How many shelves end with an allocated item.
fn allocated_ends(records: &Records) -> u32
    requires few { length records.now.shelves ≤ no_link }
    ensures value { result ≡ spec.allocated_ends records.now }
    ensures few { result ≤ no_link }
{
    let mut count = 0;
    let mut at = records.first_shelf().number();
    for _step in 0..records.shelves().len() {
        let Some(shelf) = at else {
            return count;
        };
        count += one_if(!ends_free(records, shelf));
        at = next_of::<Chain, LinkedShelf>(records.shelves(), shelf).number();
    }
    count
}

/// How much a shelf adds to a count: one where it counts.
fn one_if(counts: bool) -> u32
    ensures { result ≡ if counts then 1 else 0 }
{
    u32::from(counts)
}

/// Whether the last item of a shelf is free.
fn ends_free(records: &Records, shelf: usize) -> bool
    ensures { result ≡ spec.ends_free_at records.now shelf }
{
    match last_item(records, shelf) {
        None => false,
        Some(last) => !fields::is_allocated(records.items(), last),
    }
}

/// The last item of a shelf.
pub fn last_item(records: &Records, shelf: usize) -> Option<usize>
    ensures value { result ≡ spec.last_item records.now shelf }
    ensures small { IfSome result (λ number. number < no_link) }
{
    let items = records.items();
    let mut last = fields::first_item(records.shelves(), shelf)?;
    for _step in 0..items.len() {
        let Some(next) = next_of::<Chain, LinkedItem>(items, last).number() else {
            return Some(last);
        };
        last = next;
    }
    Some(last)
}

/// How many columns end with a shelf that isn't empty.
fn filled_ends(records: &Records) -> u32
    requires few { length records.now.shelves ≤ no_link }
    ensures value { result ≡ spec.filled_ends_of records.now }
    ensures few { result ≤ no_link }
{
    let mut count = 0;
    let mut at = records.first_shelf().number();
    for _step in 0..records.shelves().len() {
        let Some(shelf) = at else {
            return count;
        };
        at = next_of::<Chain, LinkedShelf>(records.shelves(), shelf).number();
        count += one_if(is_filled_end(records, shelf, at));
    }
    count
}

/// Whether a column ends with a shelf that isn't empty, where this one comes after it.
fn is_filled_end(records: &Records, shelf: usize, next: Option<usize>) -> bool
    ensures { result ≡ spec.is_filled_end records.now.shelves shelf next }
{
    ends_column(records.shelves(), shelf, next) && !fields::is_empty(records.shelves(), shelf)
}

/// Whether a shelf is the last of its column, where this one comes after it.
pub fn ends_column(shelves: &[LinkedShelf], shelf: usize, next: Option<usize>) -> bool
    ensures { result ≡ spec.ends_column_at shelves.now shelf next }
{
    match next {
        None => true,
        Some(next) => fields::along(shelves, shelf) != fields::along(shelves, next),
    }
}
