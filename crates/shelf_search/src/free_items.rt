//! What is free in one shelf.
//!
//! Definitions: `Asking`.

ghost use Rattle.std.specs.Prelude.{◌≡◌, ◌≤◌, length};
ghost use Rattle.etagere_base.specs.Lists.{times};
ghost use Rattle.etagere_links.specs.Links.{no_link};
ghost use Rattle.shelf_records.specs.RecordLists.{IsLinked, shelf_walk, walked_lists};
ghost use Rattle.shelf_search.specs.Private.Asking.{free_of};

use shelf_records::{FreeList, LinkedItem, Records, fields, next_of};

/// The free items of a shelf: how many there are, and how wide the widest is; 0 where there are none.
#[derive(Clone, Copy)]
pub struct FreeItems {
    pub count: u32,
    pub widest: u16,
}

/// The free items of a shelf. Goes along its free list.
pub fn free_items_of(records: &Records, shelf: usize) -> FreeItems
    requires linked { IsLinked records.now (walked_lists records.now) }
    requires stands { 1 ≤ times shelf (shelf_walk records.now).met }
    requires few { length records.now.items ≤ no_link }
    ensures { result ≡ free_of records.now shelf }
{
    let items = records.items();
    let mut count = 0;
    let mut widest = 0_u16;
    let mut at = fields::first_free_link(records.shelves(), shelf).number();
    for _step in 0..items.len() {
        let Some(number) = at else {
            return FreeItems { count, widest };
        };
        count += 1;
        widest = widest.max(fields::width(items, number));
        at = next_of::<FreeList, LinkedItem>(items, number).number();
    }
    FreeItems { count, widest }
}
