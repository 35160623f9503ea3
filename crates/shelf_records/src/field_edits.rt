//! Fields of records by number, and two steps that free an item and link it at once. A number past the last record
//! changes nothing. What ends in `present` needs the records there that it changes, and tests no range.
//!
//! Definitions: `RecordEdits`. What a step writes beside other fields or lists gets its function here, and keeps the
//! rest.

ghost use Rattle.std.specs.Prelude.{◌≡◌, ◌<◌, true, false, Some, length};
ghost use Rattle.etagere_links.specs.Edits.{changed_by};
ghost use Rattle.shelf_records.specs.ListEdits.{linked_between, made_unused};
ghost use Rattle.etagere_links.specs.Links.{no_link};
ghost use Rattle.shelf_records.specs.Neighbours.{NamesOneOf};
ghost use Rattle.shelf_records.specs.RecordEdits as edits;
ghost use Rattle.shelf_records.specs.RecordMaking as making;
ghost use Rattle.shelf_records.specs.Records.{free_list, item_chain};

use crate::chained::FreeList;
use crate::lists;
use crate::records::{LinkedItem, LinkedShelf};
use etagere_links::Link;

/// Changes the link to the first of the free list of a shelf.
pub fn set_first_free(shelves: &mut [LinkedShelf], shelf: usize, first: Link)
    ensures { shelves.new ≡ edits.with_first_free shelf first shelves.old }
{
    if shelf < shelves.len() {
        let here = &mut shelves[shelf];
        here.first_unallocated = first;
    }
}

/// Changes the height of a shelf that is there.
pub fn set_height_present(shelves: &mut [LinkedShelf], shelf: usize, height: u16)
    requires { shelf < length shelves.old }
    ensures { shelves.new ≡ edits.with_height shelf height shelves.old }
{
    let here = &mut shelves[shelf];
    here.height = height;
}

/// Changes the width of an item that is there.
pub fn set_width_present(items: &mut [LinkedItem], number: usize, width: u16)
    requires { number < length items.old }
    ensures { items.new ≡ edits.with_width number width items.old }
{
    let here = &mut items[number];
    here.width = width;
}

/// Says that an item that is there is free, and makes its record the first unused one; `top` names the first.
pub fn free_and_make_unused_present(items: &mut [LinkedItem], top: &mut Link, number: usize)
    requires here { number < length items.old }
    requires small { number < no_link }
    ensures items { items.new
        ≡ made_unused item_chain top.old number (edits.with_allocated number false items.old) }
    ensures top { top.new ≡ Some number }
{
    let here = &mut items[number];
    here.allocated = false;
    here.next = *top;
    *top = Link::to(number);
}

/// Says that an item that is there is free, and puts it in front of the free list whose first item `first`
/// names, which is there too.
pub fn free_in_front_present(items: &mut [LinkedItem], first: &mut Link, number: usize)
    requires here { number < length items.old }
    requires small { number < no_link }
    requires first { NamesOneOf items.old first.old }
    ensures items { items.new
        ≡ linked_between free_list None first.old number
        (edits.with_allocated number false items.old) }
    ensures first { first.new ≡ Some number }
{
    let second = *first;
    let link = Link::to(number);
    *first = link;
    let here = &mut items[number];
    here.allocated = false;
    here.next_unallocated = second;
    here.prev_unallocated = Link::none();
    lists::set_previous_present::<FreeList, LinkedItem>(items, second, link);
}

/// Says that an item is allocated that is there.
pub fn set_allocated_present(items: &mut [LinkedItem], number: usize)
    requires { number < length items.old }
    ensures { items.new ≡ edits.with_allocated number true items.old }
{
    let here = &mut items[number];
    here.allocated = true;
}

/// Changes the width of an item that is there, and says that it is allocated.
pub fn set_given_present(items: &mut [LinkedItem], number: usize, width: u16)
    requires { number < length items.old }
    ensures { items.new
        ≡ changed_by (Some number)
        (λ here. record here { width = width; allocated = true }) items.old }
{
    let here = &mut items[number];
    here.width = width;
    here.allocated = true;
}

/// The record of an item that begins anew, as that of a free one in no list. Its generation stays.
pub(crate) fn started(item: &LinkedItem, x: u16, width: u16, shelf: u16) -> LinkedItem
    ensures { result ≡ making.started x width shelf item.now }
{
    LinkedItem {
        x,
        width,
        prev: Link::none(),
        next: Link::none(),
        prev_unallocated: Link::none(),
        next_unallocated: Link::none(),
        shelf,
        allocated: false,
        generation: item.generation,
    }
}
