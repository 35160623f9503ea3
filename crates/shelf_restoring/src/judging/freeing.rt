//! Whether the free list of a shelf has each of its free items once, and nothing else.
//!
//! Definitions: `HasFreeList` of `StandsFor`, `AreOwn` of `Judging` for the marks by which an item of the shelf is
//! known without a search, and `FreeOwn` of `Rules`.

ghost use Rattle.std.specs.Prelude.{◌≡◌, true, Decides, IfOk, length};
ghost use Rattle.std.specs.List.{AllByRecursion};
ghost use Rattle.shelf_records.specs.RecordLists.{Entry};
ghost use Rattle.shelf_records.specs.Private.Judging as judging;
ghost use Rattle.shelf_records.specs.Private.Judging.{AreUsed};
ghost use Rattle.shelf_records.specs.StandsFor.{free_present};
ghost use Rattle.shelf_restoring.specs.Private.Rules.{FreeOwn};

use crate::judging::linking::links_back;
use shelf_records::{FreeList, LinkedItem, fields};
use std::alloc::{AllocError, Global};

/// The marks of the items in use, of so many: all but those unused.
pub fn used_marks(alloc: Global, count: usize, unused: &[u16]) -> Result<Vec<bool>, AllocError>
    ensures { IfOk result (λ marks. AreUsed count unused.now marks.items) }
{
    let mut marks = vec![in alloc; true; count]?;
    for number in unused {
        let item = usize::from(*number);
        if item < marks.len() {
            marks[item] = false;
        }
    }
    Ok(marks)
}

/// Whether a free list has free items of the shelf of this number alone, so many, and links back. The marks say which
/// items are in use.
#[inline(always)]
pub fn has_free_list(
    items: &[LinkedItem],
    marks: &[bool],
    shelf: u16,
    free_list: &[u16],
    count: usize,
) -> bool
    ensures { (entry : Entry) → entry.number ≡ shelf → entry.free_list ≡ free_list.now
        → length (free_present items.now entry.items) ≡ count
        → Decides result (FreeOwn items.now marks.now entry) }
{
    if free_list.len() != count {
        return false;
    }
    if !are_own_free(items, marks, shelf, free_list) {
        return false;
    }
    links_back::<FreeList, LinkedItem>(items, free_list)
}

/// Whether all of these are free items of the shelf of this number.
fn are_own_free(items: &[LinkedItem], marks: &[bool], shelf: u16, numbers: &[u16]) -> bool
    ensures { Decides result
        (AllByRecursion (λ item. judging.is_own_free items.now marks.now shelf item ≡ true) numbers.now) }
{
    for number in numbers {
        if !is_own_free(items, marks, shelf, usize::from(*number)) {
            return false;
        }
    }
    true
}

/// Whether this is a free item of the shelf of this number.
fn is_own_free(items: &[LinkedItem], marks: &[bool], shelf: u16, number: usize) -> bool
    ensures { result ≡ judging.is_own_free items.now marks.now shelf number }
{
    number < marks.len()
        && marks[number]
        && fields::shelf(items, number) == usize::from(shelf)
        && !fields::is_allocated(items, number)
}
