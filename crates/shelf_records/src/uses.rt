//! Puts records to use: those that became unused last, and new ones where there are too few.
//!
//! Definitions: `RecordUses` for what a split puts to use, and `RecordMaking` for making many records and using one
//! again. Room is made for all before the first is put to use; this has to stay so.

ghost use Rattle.std.specs.Prelude.{◌≡◌, ◌+◌, ◌<◌, ◌≤◌, true, OnOk, OnErr, IfSome, length, vec_capacity, if◌then◌else◌};
ghost use Rattle.etagere_links.specs.Edits.{changed_by};
ghost use Rattle.etagere_links.specs.Links.{no_link};
ghost use Rattle.shelf_records.specs.Records.{item_chain, shelf_chain};
ghost use Rattle.shelf_records.specs.RecordMaking as making;
ghost use Rattle.shelf_records.specs.RecordUses as spec;

use crate::chained::{Chain, Linked};
use crate::lists;
use crate::records::{LinkedItem, LinkedShelf};
use etagere_links::Link;
use std::alloc::AllocError;

/// The numbers of the records for what is left where a shelf or an item is split: of a shelf its record and
/// that of its item, and of an item its record; none where it isn't split.
#[derive(Clone, Copy)]
pub struct Rests {
    pub shelf: Option<usize>,
    pub shelf_item: Option<usize>,
    pub item: Option<usize>,
}

/// How many item records are missing to put one or two to use.
fn missing_items(items: &[LinkedItem], unused: Link, of_shelf: bool, of_item: bool) -> usize
    ensures value { result
        ≡ spec.missing item_chain
        ((if of_shelf then 1 else 0) + (if of_item then 1 else 0)) unused items.now }
    ensures few { result ≤ (if of_shelf then 1 else 0) + (if of_item then 1 else 0) }
{
    let wanted = usize::from(of_shelf) + usize::from(of_item);
    let Some(top) = unused.number() else {
        return wanted;
    };
    if wanted < 2 {
        return 0;
    }
    let below = lists::next_of::<Chain, LinkedItem>(items, top);
    usize::from(below.number().is_none())
}

/// Makes room for the item records that are missing. The error comes only where some are and there was no memory.
pub(crate) fn reserve_items(
    items: &mut Vec<LinkedItem>,
    unused: Link,
    of_shelf: bool,
    of_item: bool,
) -> Result<(), AllocError>
    ensures same { items.new.items ≡ items.old.items }
    ensures room { OnOk result
        (length items.old.items
        + spec.missing item_chain
        ((if of_shelf then 1 else 0) + (if of_item then 1 else 0)) unused items.old.items
        ≤ vec_capacity items.new) }
    ensures short { OnErr result
        (0
        < spec.missing item_chain
        ((if of_shelf then 1 else 0) + (if of_item then 1 else 0)) unused items.old.items) }
{
    let missing = missing_items(items, unused, of_shelf, of_item);
    if missing > 0 {
        items.reserve(missing)?;
    }
    Ok(())
}

/// Makes room for a shelf record where one is wanted and none was unused. The error comes only there, and
/// only where there was no memory.
pub(crate) fn reserve_shelf(
    shelves: &mut Vec<LinkedShelf>,
    unused: Link,
    wanted: bool,
) -> Result<(), AllocError>
    ensures same { shelves.new.items ≡ shelves.old.items }
    ensures room { OnOk result
        (length shelves.old.items
        + spec.missing shelf_chain (if wanted then 1 else 0) unused shelves.old.items
        ≤ vec_capacity shelves.new) }
    ensures short { OnErr result
        (0 < spec.missing shelf_chain (if wanted then 1 else 0) unused shelves.old.items) }
{
    if wanted && unused.number().is_none() {
        shelves.reserve(1)?;
    }
    Ok(())
}

/// Counts that an item record is put to use again.
pub(crate) fn use_again(items: &mut [LinkedItem], number: usize)
    ensures { items.new ≡ changed_by (Some number) spec.used_again items.old }
{
    if number < items.len() {
        let here = &mut items[number];
        here.generation = here.generation.wrapping_add(1);
    }
}

/// A new item record.
fn new_item() -> LinkedItem
    ensures { result ≡ spec.new_item }
{
    LinkedItem {
        x: 0,
        width: 0,
        prev: Link::none(),
        next: Link::none(),
        prev_unallocated: Link::none(),
        next_unallocated: Link::none(),
        shelf: 0,
        allocated: false,
        generation: 1,
    }
}

/// A new shelf record.
fn new_shelf() -> LinkedShelf
    ensures { result ≡ spec.new_shelf }
{
    LinkedShelf {
        x: 0,
        y: 0,
        height: 0,
        prev: Link::none(),
        next: Link::none(),
        first_item: Link::none(),
        first_unallocated: Link::none(),
        is_empty: false,
    }
}

/// How many records are missing to put so many to use: as many as were not unused.
pub(crate) fn missing<T: Linked<Chain>>(records: &[T], unused: Link, wanted: usize) -> usize
    ensures value { result ≡ spec.missing T.family wanted unused records.now }
    ensures few { result ≤ wanted }
{
    let mut at = unused;
    for used in 0..wanted {
        let Some(number) = at.number() else {
            return wanted - used;
        };
        at = lists::next_of::<Chain, T>(records, number);
    }
    0
}

/// Makes so many item records. There is room for them.
pub(crate) fn make_items(items: &mut Vec<LinkedItem>, count: usize)
    requires { length items.old.items + count ≤ vec_capacity items.old }
    ensures { items.new.items ≡ making.with_new_items count items.old.items }
{
    for _made in 0..count {
        items.push_reserved(new_item());
    }
}

/// Makes so many shelf records. There is room for them.
pub(crate) fn make_shelves(shelves: &mut Vec<LinkedShelf>, count: usize)
    requires { length shelves.old.items + count ≤ vec_capacity shelves.old }
    ensures { shelves.new.items ≡ making.with_new_shelves count shelves.old.items }
{
    for _made in 0..count {
        shelves.push_reserved(new_shelf());
    }
}

/// Puts an item record to use where one is wanted, and gives its number.
pub(crate) fn use_item(
    items: &mut Vec<LinkedItem>,
    unused: &mut Link,
    wanted: bool,
) -> Option<usize>
    requires room { length items.old.items
        + spec.missing item_chain (if wanted then 1 else 0) unused.old items.old.items
        ≤ vec_capacity items.old }
    requires few { length (spec.items_used wanted unused.old items.old.items) ≤ no_link }
    ensures number { result ≡ spec.number_used wanted unused.old items.old.items }
    ensures small { IfSome result (λ number. number < no_link) }
    ensures items { items.new.items ≡ spec.items_used wanted unused.old items.old.items }
    ensures unused { unused.new
        ≡ spec.unused_after item_chain wanted unused.old items.old.items }
    ensures capacity { vec_capacity items.new ≡ vec_capacity items.old }
{
    if !wanted {
        return None;
    }
    let Some(number) = lists::take::<Chain, LinkedItem>(items, unused) else {
        let number = items.len();
        items.push_reserved(new_item());
        return Some(number);
    };
    use_again(items, number);
    Some(number)
}

/// Puts a shelf record to use where one is wanted, and gives its number.
pub(crate) fn use_shelf(
    shelves: &mut Vec<LinkedShelf>,
    unused: &mut Link,
    wanted: bool,
) -> Option<usize>
    requires room { length shelves.old.items
        + spec.missing shelf_chain (if wanted then 1 else 0) unused.old shelves.old.items
        ≤ vec_capacity shelves.old }
    requires few { length (spec.shelves_used wanted unused.old shelves.old.items) ≤ no_link }
    ensures number { result ≡ spec.number_used wanted unused.old shelves.old.items }
    ensures small { IfSome result (λ number. number < no_link) }
    ensures shelves { shelves.new.items ≡ spec.shelves_used wanted unused.old shelves.old.items }
    ensures unused { unused.new
        ≡ spec.unused_after shelf_chain wanted unused.old shelves.old.items }
{
    if !wanted {
        return None;
    }
    let Some(number) = lists::take::<Chain, LinkedShelf>(shelves, unused) else {
        let number = shelves.len();
        shelves.push_reserved(new_shelf());
        return Some(number);
    };
    Some(number)
}
