//! Judging the rules of a snapshot in few passes over lists that walks have met. No link is followed here, and no list
//! is searched.
//!
//! Definitions: `Keeps` of `StandsFor`, which has the rules, and `Judging` and `Rules` for what a pass keeps of them.
//! Each pass answers exactly: a yes says that the rule holds, a no that it is broken.

ghost use Rattle.shelf_records.specs.RecordLists.{Entry};

pub mod filling;
pub mod freeing;
pub mod items;
pub mod linking;
pub mod shelves;
pub mod spacing;
pub mod stacking;

use std::marker::Model;

/// What walks have met of a shelf: its number, its items and its free list, by the numbers of their
/// records.
#[derive(Drop)]
pub struct WalkedShelf<'a> {
    pub number: u16,
    pub items: &'a [u16],
    pub free_list: &'a [u16],
}

impl<'a> Model for WalkedShelf<'a> {
    ghost Value = { Entry };

    ghost view = { λ shelf. record {
      number = shelf.number;
      items = shelf.items.now;
      free_list = shelf.free_list.now;
    } };
}
