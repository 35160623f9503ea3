//! The records of a shelf atlas. What they are saved as has the same fields, with plain numbers for links.
//!
//! Definitions: `Records`, which fields are the links of which list.

ghost use Rattle.shelf_records.specs.Records.{item_chain, free_list, shelf_chain};

use crate::chained::{Chain, FreeList, Linked};
use etagere_links::Link;

/// A stretch of a shelf, or an unused record for one. Lengths and places are in pixels.
#[derive(Clone, Copy, Debug, PartialEq, Eq)]
pub struct LinkedItem {
    /// Where the item begins along the shelf.
    pub x: u16,
    /// How long it is along the shelf.
    pub width: u16,
    /// The item before it in the shelf.
    pub prev: Link,
    /// The item after it in the shelf; of an unused record, the one that became unused before it.
    pub next: Link,
    /// The item before it in the free list of its shelf.
    pub prev_unallocated: Link,
    /// The item after it in the free list of its shelf.
    pub next_unallocated: Link,
    /// The number of the shelf that it lies in.
    pub shelf: u16,
    /// Whether it is given out.
    pub allocated: bool,
    /// How often the record was put to use, modulo 65536.
    pub generation: u16,
}

/// A strip across a column, or an unused record for one. Lengths and places are in pixels.
#[derive(Clone, Copy, Debug, PartialEq, Eq)]
pub struct LinkedShelf {
    /// The shelf before it.
    pub prev: Link,
    /// The shelf after it; of an unused record, the one that became unused before it.
    pub next: Link,
    /// The first of its items.
    pub first_item: Link,
    /// The first of its free list.
    pub first_unallocated: Link,
    // Where it begins across stands before where its column does: one number then, by which shelves of a height are ordered.
    /// Where the shelf begins across.
    pub y: u16,
    /// Where its column begins along the shelves.
    pub x: u16,
    /// How high it is.
    pub height: u16,
    /// Whether all of it is one free item.
    pub is_empty: bool,
}

impl Linked<Chain> for LinkedItem {
    ghost family = { item_chain };

    fn next(&self) -> Link {
        self.next
    }

    fn previous(&self) -> Link {
        self.prev
    }

    fn set_next(&mut self, next: Link) {
        self.next = next;
    }

    fn set_previous(&mut self, previous: Link) {
        self.prev = previous;
    }
}

impl Linked<FreeList> for LinkedItem {
    ghost family = { free_list };

    fn next(&self) -> Link {
        self.next_unallocated
    }

    fn previous(&self) -> Link {
        self.prev_unallocated
    }

    fn set_next(&mut self, next: Link) {
        self.next_unallocated = next;
    }

    fn set_previous(&mut self, previous: Link) {
        self.prev_unallocated = previous;
    }
}

impl Linked<Chain> for LinkedShelf {
    ghost family = { shelf_chain };

    fn next(&self) -> Link {
        self.next
    }

    fn previous(&self) -> Link {
        self.prev
    }

    fn set_next(&mut self, next: Link) {
        self.next = next;
    }

    fn set_previous(&mut self, previous: Link) {
        self.prev = previous;
    }
}
