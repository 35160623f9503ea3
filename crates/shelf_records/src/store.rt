//! All records of a shelf atlas, and the steps of which allocations, returns and grows are made.
//!
//! Definitions: `RecordLists` for what records are, `RecordEdits`, `RecordMerges`, `RecordUses` and
//! `RecordMaking` for the steps, `Neighbours` for what those ask that test no range. A step that changes
//! more than one field calls `lists`, `field_edits` or `uses` for each part.

ghost use Rattle.std.specs.Prelude.{◌≡◌, ◌+◌, ◌<◌, ◌≤◌, None, true, [], length, IfOk, IfSome, OnOk, OnErr, if◌then◌else◌};
ghost use Rattle.etagere_links.specs.Links.{no_link};

use crate::chained::{Chain, FreeList};
use crate::records::{LinkedItem, LinkedShelf};
use crate::uses::Rests;
use crate::{field_edits, fields, lists, uses};
use etagere_links::Link;
use std::alloc::{AllocError, Global};
use std::marker::Model;

/// The item and shelf records of an atlas, those in use and the unused ones, and where its lists begin.
///
/// A step changes just what it says. One that names a record past the last changes nothing there.
#[derive(Drop)]
pub struct Records {
    shelf_records: Vec<LinkedShelf>,
    item_records: Vec<LinkedItem>,
    first: Link,
    unused_items: Link,
    unused_shelves: Link,
}

impl Model for Records {
    ghost use Rattle.shelf_records.specs.RecordLists as spec;

    ghost Value = { spec.Records };

    ghost view = { λ r. record {
      shelves = r.shelf_records.items;
      items = r.item_records.items;
      first_shelf = r.first;
      unused_items = r.unused_items;
      unused_shelves = r.unused_shelves;
    } };
}

impl Records {
    ghost use Rattle.shelf_records.specs.RecordEdits as edits;
    ghost use Rattle.shelf_records.specs.RecordMaking as making;
    ghost use Rattle.shelf_records.specs.RecordMerges as merges;
    ghost use Rattle.shelf_records.specs.RecordUses as using;
    ghost use Rattle.shelf_records.specs.Neighbours.{HasNeighbours, NamesOneOf};
    ghost use Rattle.shelf_records.specs.RecordLists.{first_free_of};
    ghost use Rattle.shelf_records.specs.RecordUses.{AreSmall};
    ghost use Rattle.shelf_records.specs.Records.{free_list, item_chain, shelf_chain};

    /// These records, by number, where the lists of them begin at these links. Takes no memory.
    pub fn of_lists(
        shelves: Vec<LinkedShelf>,
        items: Vec<LinkedItem>,
        first_shelf: Link,
        unused_items: Link,
        unused_shelves: Link,
    ) -> Records
        ensures { result
            ≡ record {
              shelves = shelves.items;
              items = items.items;
              first_shelf = first_shelf;
              unused_items = unused_items;
              unused_shelves = unused_shelves;
            } }
    {
        Records {
            shelf_records: shelves,
            item_records: items,
            first: first_shelf,
            unused_items: unused_items,
            unused_shelves: unused_shelves,
        }
    }

    /// Forgets all records but so many of each kind. Keeps the memory, and all links.
    pub fn truncate(&mut self, count: usize)
        ensures { self.new ≡ edits.truncated count self.old }
    {
        self.shelf_records.truncate(count);
        self.item_records.truncate(count);
    }

    /// Makes the shelf of number 0 the first one, and forgets what became unused.
    pub fn restart(&mut self)
        ensures { self.new ≡ edits.restarted self.old }
    {
        self.first = Link::to(0);
        self.unused_items = Link::none();
        self.unused_shelves = Link::none();
    }

    /// The item records, by number.
    pub fn items(&self) -> &[LinkedItem]
        ensures { result.now ≡ self.now.items }
    {
        &self.item_records
    }

    /// The shelf records, by number.
    pub fn shelves(&self) -> &[LinkedShelf]
        ensures { result.now ≡ self.now.shelves }
    {
        &self.shelf_records
    }

    /// The link to the first shelf.
    pub fn first_shelf(&self) -> Link
        ensures { result ≡ self.now.first_shelf }
    {
        self.first
    }

    /// The link to the item record that became unused last.
    pub fn unused_items(&self) -> Link
        ensures { result ≡ self.now.unused_items }
    {
        self.unused_items
    }

    /// The link to the shelf record that became unused last.
    pub fn unused_shelves(&self) -> Link
        ensures { result ≡ self.now.unused_shelves }
    {
        self.unused_shelves
    }

    /// The allocator that the records were made with.
    pub fn allocator(&self) -> Global {
        *self.item_records.allocator()
    }

    /// Puts the records to use that the rests of a split need: those that became unused last, and new ones where
    /// there are too few, for the rest of a shelf before the rest of an item. The error comes only where there
    /// are too few and there was no memory, and then nothing has changed.
    pub fn use_rests(&mut self, of_shelf: bool, of_item: bool) -> Result<Rests, AllocError>
        requires items { length (using.rests_used of_shelf of_item self.old).items ≤ no_link }
        requires shelves { length (using.rests_used of_shelf of_item self.old).shelves ≤ no_link }
        ensures rests { IfOk result (λ rests. rests ≡ using.rests_of of_shelf of_item self.old) }
        ensures small { IfOk result AreSmall }
        ensures ok { OnOk result (self.new ≡ using.rests_used of_shelf of_item self.old) }
        ensures err { OnErr result (self.new ≡ self.old) }
        ensures short { OnErr result (0 < using.rests_missing of_shelf of_item self.old) }
        ensures split { OnErr result
            (0 < (if of_shelf then 1 else 0) + (if of_item then 1 else 0)) }
    {
        uses::reserve_items(&mut self.item_records, self.unused_items, of_shelf, of_item)?;
        uses::reserve_shelf(&mut self.shelf_records, self.unused_shelves, of_shelf)?;
        let shelf_item = uses::use_item(&mut self.item_records, &mut self.unused_items, of_shelf);
        let shelf = uses::use_shelf(&mut self.shelf_records, &mut self.unused_shelves, of_shelf);
        let item = uses::use_item(&mut self.item_records, &mut self.unused_items, of_item);
        Ok(Rests {
            shelf,
            shelf_item,
            item,
        })
    }

    /// How many item records are missing to put so many to use.
    pub fn missing_items(&self, wanted: usize) -> usize
        ensures { result ≡ using.missing item_chain wanted self.now.unused_items self.now.items }
    {
        uses::missing::<LinkedItem>(&self.item_records, self.unused_items, wanted)
    }

    /// How many shelf records are missing to put so many to use.
    pub fn missing_shelves(&self, wanted: usize) -> usize
        ensures { result ≡ using.missing shelf_chain wanted self.now.unused_shelves self.now.shelves }
    {
        uses::missing::<LinkedShelf>(&self.shelf_records, self.unused_shelves, wanted)
    }

    /// Makes so many item and shelf records, which stand in no list. The error comes only where there was no
    /// memory, and then nothing has changed.
    pub fn make_records(&mut self, items: usize, shelves: usize) -> Result<(), AllocError>
        ensures ok { OnOk result (self.new ≡ making.records_made items shelves self.old) }
        ensures err { OnErr result (self.new ≡ self.old) }
        ensures some { OnErr result (0 < items + shelves) }
    {
        if items > 0 {
            self.item_records.reserve(items)?;
        }
        if shelves > 0 {
            self.shelf_records.reserve(shelves)?;
        }
        uses::make_items(&mut self.item_records, items);
        uses::make_shelves(&mut self.shelf_records, shelves);
        Ok(())
    }

    /// Puts the item record to use again that became unused last; none where none was.
    pub fn use_item_again(&mut self) -> Option<usize>
        ensures number { result ≡ self.old.unused_items }
        ensures small { IfSome result (λ number. number < no_link) }
        ensures records { self.new ≡ making.item_used_again self.old }
    {
        let number = lists::take::<Chain, LinkedItem>(&self.item_records, &mut self.unused_items)?;
        uses::use_again(&mut self.item_records, number);
        Some(number)
    }

    /// Puts the shelf record to use again that became unused last; none where none was.
    pub fn use_shelf_again(&mut self) -> Option<usize>
        ensures number { result ≡ self.old.unused_shelves }
        ensures small { IfSome result (λ number. number < no_link) }
        ensures records { self.new ≡ making.shelf_used_again self.old }
    {
        lists::take::<Chain, LinkedShelf>(&self.shelf_records, &mut self.unused_shelves)
    }

    /// Puts an item that stands in no list after another one of a shelf.
    pub fn insert_item_after(&mut self, previous: usize, number: usize)
        requires previous { previous < no_link }
        requires number { number < no_link }
        ensures { self.new ≡ edits.item_inserted_after previous number self.old }
    {
        lists::insert_after::<Chain, LinkedItem>(&mut self.item_records, previous, number);
    }

    /// Puts an item in front of the free list of its shelf.
    pub fn insert_free_front(&mut self, shelf: usize, number: usize)
        requires { number < no_link }
        ensures { self.new ≡ edits.free_inserted_front shelf number self.old }
    {
        let mut first = fields::first_free_link(&self.shelf_records, shelf);
        lists::insert_front::<FreeList, LinkedItem>(&mut self.item_records, &mut first, number);
        field_edits::set_first_free(&mut self.shelf_records, shelf, first);
    }

    /// Puts a shelf that stands in no list after another one.
    pub fn insert_shelf_after(&mut self, previous: usize, number: usize)
        requires previous { previous < no_link }
        requires number { number < no_link }
        ensures { self.new ≡ edits.shelf_inserted_after previous number self.old }
    {
        lists::insert_after::<Chain, LinkedShelf>(&mut self.shelf_records, previous, number);
    }

    /// Changes the width of an item.
    pub fn set_width(&mut self, number: usize, width: u16)
        ensures { self.new
            ≡ edits.item_changed number (λ here. record here { width = width }) self.old }
    {
        if number < self.item_records.len() {
            let here = &mut self.item_records[number];
            here.width = width;
        }
    }

    /// Begins the record of an item anew, as that of a free one in no list. Its generation stays.
    pub fn start_item(&mut self, number: usize, x: u16, width: u16, shelf: u16)
        ensures { self.new ≡ edits.item_changed number (making.started x width shelf) self.old }
    {
        if number < self.item_records.len() {
            let item = field_edits::started(&self.item_records[number], x, width, shelf);
            self.item_records[number] = item;
        }
    }

    /// Writes the record of an item anew.
    pub fn write_item(&mut self, number: usize, item: LinkedItem)
        ensures { self.new ≡ edits.item_changed number (λ _. item) self.old }
    {
        if number < self.item_records.len() {
            self.item_records[number] = item;
        }
    }

    /// Writes the record of an item anew that is there: no range is tested.
    pub fn write_item_present(&mut self, number: usize, item: LinkedItem)
        requires { number < length self.old.items }
        ensures { self.new ≡ edits.item_changed number (λ _. item) self.old }
    {
        self.item_records[number] = item;
    }

    /// Changes the height of a shelf.
    pub fn set_height(&mut self, shelf: usize, height: u16)
        ensures { self.new
            ≡ edits.shelf_changed shelf (λ here. record here { height = height }) self.old }
    {
        if shelf < self.shelf_records.len() {
            let here = &mut self.shelf_records[shelf];
            here.height = height;
        }
    }

    /// Says whether a shelf is empty that is there: no range is tested.
    pub fn set_empty_present(&mut self, shelf: usize, is_empty: bool)
        requires { shelf < length self.old.shelves }
        ensures { self.new
            ≡ edits.shelf_changed shelf (λ here. record here { is_empty = is_empty }) self.old }
    {
        let here = &mut self.shelf_records[shelf];
        here.is_empty = is_empty;
    }

    /// Writes the record of a shelf anew.
    pub fn write_shelf(&mut self, number: usize, shelf: LinkedShelf)
        ensures { self.new ≡ edits.shelf_changed number (λ _. shelf) self.old }
    {
        if number < self.shelf_records.len() {
            self.shelf_records[number] = shelf;
        }
    }

    /// Gives an item this width, and lets it take the place of the free one after it, which becomes unused. The
    /// shelf and both items are there, and what the links of the free one name: no range is tested.
    pub fn absorb_free(&mut self, shelf: usize, number: usize, next: usize, width: u16)
        requires shelf { shelf < length self.old.shelves }
        requires number { number < length self.old.items }
        requires small { next < no_link }
        requires next { HasNeighbours item_chain self.old.items next }
        requires free { HasNeighbours free_list self.old.items next }
        ensures { self.new ≡ merges.free_absorbed shelf number next width self.old }
    {
        let here = &mut self.shelf_records[shelf];
        let items: &mut [LinkedItem] = &mut self.item_records;
        lists::unlink_present::<FreeList, LinkedItem>(items, &mut here.first_unallocated, next);
        lists::unlink_present::<Chain, LinkedItem>(items, &mut here.first_item, next);
        lists::make_unused_present::<Chain, LinkedItem>(items, &mut self.unused_items, next);
        field_edits::set_width_present(items, number, width);
    }

    /// Gives a free item this width, and lets it take the place of the allocated one after it, which becomes free
    /// and becomes unused. The shelf and both items are there, and what the links of the later one in the shelf
    /// name: no range is tested.
    pub fn absorb_allocated(&mut self, shelf: usize, number: usize, next: usize, width: u16)
        requires shelf { shelf < length self.old.shelves }
        requires number { number < length self.old.items }
        requires small { next < no_link }
        requires next { HasNeighbours item_chain self.old.items next }
        ensures { self.new ≡ merges.allocated_absorbed shelf number next width self.old }
    {
        let here = &mut self.shelf_records[shelf];
        let items: &mut [LinkedItem] = &mut self.item_records;
        lists::unlink_present::<Chain, LinkedItem>(items, &mut here.first_item, next);
        field_edits::free_and_make_unused_present(items, &mut self.unused_items, next);
        field_edits::set_width_present(items, number, width);
    }

    /// Says that an item is free, and puts it in front of the free list of its shelf. The item and the shelf are
    /// there, and the first of that list: no range is tested.
    pub fn free_item(&mut self, shelf: usize, number: usize)
        requires shelf { shelf < length self.old.shelves }
        requires number { number < length self.old.items }
        requires small { number < no_link }
        requires first { NamesOneOf self.old.items (first_free_of self.old.shelves shelf) }
        ensures { self.new ≡ merges.item_freed shelf number self.old }
    {
        let here = &mut self.shelf_records[shelf];
        field_edits::free_in_front_present(
            &mut self.item_records,
            &mut here.first_unallocated,
            number,
        );
    }

    /// Gives the whole of a free item of a shelf. The shelf and the item are there, and what its links in the free list
    /// name: no range is tested.
    pub fn give_item(&mut self, shelf: usize, number: usize)
        requires shelf { shelf < length self.old.shelves }
        requires free { HasNeighbours free_list self.old.items number }
        ensures { self.new ≡ merges.item_given shelf number self.old }
    {
        let here = &mut self.shelf_records[shelf];
        let items: &mut [LinkedItem] = &mut self.item_records;
        lists::unlink_present::<FreeList, LinkedItem>(items, &mut here.first_unallocated, number);
        field_edits::set_allocated_present(items, number);
    }

    /// Gives the front of a free item of a shelf, of this width. The rest, an item that stands in no list,
    /// comes after it and takes its place in the free list. The shelf and both items are there, and what the links
    /// of the item name: no range is tested.
    pub fn give_front(&mut self, shelf: usize, number: usize, rest: usize, width: u16)
        requires shelf { shelf < length self.old.shelves }
        requires small { (number < no_link) × (rest < no_link) }
        requires rest { rest < length self.old.items }
        requires next { HasNeighbours item_chain self.old.items number }
        requires free { HasNeighbours free_list self.old.items number }
        ensures { self.new ≡ merges.front_given shelf number rest width self.old }
    {
        let here = &mut self.shelf_records[shelf];
        let items: &mut [LinkedItem] = &mut self.item_records;
        lists::insert_after_present::<Chain, LinkedItem>(items, number, rest);
        lists::insert_after_present::<FreeList, LinkedItem>(items, number, rest);
        lists::unlink_present::<FreeList, LinkedItem>(items, &mut here.first_unallocated, number);
        field_edits::set_given_present(items, number, width);
    }

    /// Keeps the lower part of a shelf, of this height. The rest, a shelf and an item that stand in no list,
    /// gets these records and comes after it. All of them are there, and what the links of the shelf name: no range is
    /// tested.
    pub fn split_shelf_present(
        &mut self,
        shelf: usize,
        height: u16,
        rest: usize,
        rest_shelf: LinkedShelf,
        rest_item: usize,
        item: LinkedItem,
    )
        requires small { (shelf < no_link) × (rest < no_link) }
        requires shelf { HasNeighbours shelf_chain self.old.shelves shelf }
        requires rest { rest < length self.old.shelves }
        requires item { rest_item < length self.old.items }
        requires alone { (rest_shelf.next ≡ None) × (rest_shelf.prev ≡ None) }
        ensures { self.new
            ≡ merges.shelf_split shelf rest rest_item height rest_shelf item self.old }
    {
        self.item_records[rest_item] = item;
        self.shelf_records[rest] = rest_shelf;
        lists::insert_after_present::<Chain, LinkedShelf>(&mut self.shelf_records, shelf, rest);
        field_edits::set_height_present(&mut self.shelf_records, shelf, height);
    }

    /// Gives an empty shelf this height, and lets it take the place of the empty one after it, which becomes unused with
    /// its item. Both shelves and the item are there, and what the links of the later shelf name: no range is tested.
    pub fn absorb_shelf(&mut self, shelf: usize, next: usize, item: usize, height: u16)
        requires shelf { shelf < length self.old.shelves }
        requires small { (next < no_link) × (item < no_link) }
        requires next { HasNeighbours shelf_chain self.old.shelves next }
        requires item { item < length self.old.items }
        ensures { self.new ≡ merges.shelf_absorbed shelf next item height self.old }
    {
        lists::unlink_present::<Chain, LinkedShelf>(&mut self.shelf_records, &mut self.first, next);
        lists::make_unused_present::<Chain, LinkedItem>(
            &mut self.item_records,
            &mut self.unused_items,
            item,
        );
        lists::make_unused_present::<Chain, LinkedShelf>(
            &mut self.shelf_records,
            &mut self.unused_shelves,
            next,
        );
        field_edits::set_height_present(&mut self.shelf_records, shelf, height);
    }
}

impl Clone for Records {
    ghost is_clone = { λ records other. other ≡ records };

    /// Equal records that share nothing with these. Takes memory for all of them.
    fn clone(&self) -> Result<Records, AllocError> {
        Ok(Records {
            shelf_records: self.shelf_records.clone()?,
            item_records: self.item_records.clone()?,
            first: self.first,
            unused_items: self.unused_items,
            unused_shelves: self.unused_shelves,
        })
    }
}
