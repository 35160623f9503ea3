//! Lists that walks met one after another, in one list, and the shelves whose items and free lists they are.
//!
//! Definitions: `Restoring`. So no walk takes memory of its own.

ghost use Rattle.std.specs.Prelude.{◌≡◌, ◌+◌, ◌≤◌, IfOk, drop, length, take};
ghost use Rattle.shelf_records.specs.RecordLists.{unused_item_walk};
ghost use Rattle.shelf_records.specs.AtlasRecords.{AtlasRecords, walked_entries};
ghost use Rattle.shelf_records.specs.Private.Restoring.{HasLists};
ghost use Rattle.shelf_restoring.specs.Private.MetLists.{AreLists};

use crate::judging::WalkedShelf;
use std::alloc::{AllocError, Global};

/// Lists that walks met, one behind the other.
#[derive(Drop)]
pub struct WalkedLists {
    /// The numbers of the records in the lists.
    pub met: Vec<u16>,
    /// How many records each list has.
    pub counts: Vec<u16>,
}

/// The shelves of these numbers, which are those in use, with their items and free lists.
pub fn walked_shelves<'a>(
    alloc: Global,
    numbers: &[u16],
    items: &'a WalkedLists,
    free_lists: &'a WalkedLists,
) -> Result<Vec<WalkedShelf<'a>>, AllocError>
    requires { AreLists numbers.now items.now.met.items items.now.counts.items
        free_lists.now.met.items free_lists.now.counts.items }
    ensures { IfOk result (λ shelves. (atlas : AtlasRecords)
        → HasLists atlas numbers.now items.now.met.items items.now.counts.items
        free_lists.now.met.items free_lists.now.counts.items (unused_item_walk atlas.records).met
        → shelves.items ≡ walked_entries atlas) }
{
    let mut shelves = Vec::with_capacity(alloc, numbers.len())?;
    let mut start = 0;
    let mut free_start = 0;
    for at in 0..numbers.len() {
        let count = usize::from(items.counts[at]);
        let free_count = usize::from(free_lists.counts[at]);
        shelves.push_reserved(WalkedShelf {
            number: numbers[at],
            items: part(&items.met, start, count),
            free_list: part(&free_lists.met, free_start, free_count),
        });
        start += count;
        free_start += free_count;
    }
    Ok(shelves)
}

/// So many of a list from a position on.
fn part(list: &[u16], start: usize, count: usize) -> &[u16]
    requires { start + count ≤ length list.now }
    ensures { result.now ≡ take count (drop start list.now) }
{
    &list[start..start + count]
}
