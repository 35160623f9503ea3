//! One pass over the shelves that walks have met: of each, what the rules say of its links, items and free list, and of
//! where it stands.
//!
//! Definitions: `LinkBack`, `HasShelves`, `HasItems` and `HasNeighbours` of `StandsFor`, and `FreeOwn` of `Rules`.

ghost use Rattle.std.specs.Prelude.{◌≡◌, ◌≤◌, ◌*◌, List, Decides, IsTrue, length, map};
ghost use Rattle.etagere_base.specs.Frames.{IsFrame, longest_side};
ghost use Rattle.etagere_base.specs.Lists.{NoNeighbours};
ghost use Rattle.etagere_links.specs.Links.{no_link};
ghost use Rattle.shelf_records.specs.RecordLists.{Entry};
ghost use Rattle.shelf_model.specs.Merging.{both_free};
ghost use Rattle.shelf_model.specs.Space as space;
ghost use Rattle.shelf_model.specs.State as state;
ghost use Rattle.shelf_records.specs.AtlasRecords as spec;
ghost use Rattle.shelf_records.specs.Private.Judging.{atlas_of_records};
ghost use Rattle.shelf_records.specs.StandsFor.{HasItems, HasNeighbours, HasShelves, LinkBack};
ghost use Rattle.shelf_records.specs.declared.records.LinkedShelf.{LinkedShelf};
ghost use Rattle.shelf_restoring.specs.Private.Rules.{FreeOwn, SaysOf};
ghost use Rattle.std.specs.List.{AllByRecursion};

use crate::judging::WalkedShelf;
use crate::judging::filling::is_one_free;
use crate::judging::freeing::has_free_list;
use crate::judging::items::judge_items;
use crate::judging::stacking::{fills_columns, is_next};
use etagere_base::Frame;
use etagere_links::Link;
use shelf_records::{LinkedItem, LinkedShelf};

/// Which rules shelves keep, and the area of their allocated items.
#[derive(Clone, Copy, Drop)]
pub struct JudgedShelves {
    /// Whether the items of each link back, and name their shelf.
    pub are_linked: bool,
    /// Whether the free list of each has free items of its own alone, as many as there are, and links back.
    pub have_free_lists: bool,
    /// Whether they fill each column, column after column, and each says rightly where it begins.
    pub are_stacked: bool,
    /// Whether the items of each fill its column, and its record says rightly whether it is empty.
    pub are_filled: bool,
    /// Where they are stacked, whether no two free items stand side by side in any, and no two empty shelves in a
    /// column.
    pub are_apart: bool,
    /// The area of the allocated items, in square pixels.
    pub space: u64,
}

/// What the rules say of one shelf by itself.
#[derive(Clone, Copy, Drop)]
struct JudgedShelf {
    is_linked: bool,
    has_free_list: bool,
    is_filled: bool,
    /// Whether no two of its free items stand side by side.
    is_apart: bool,
    is_empty: bool,
    /// The area of its allocated items, in square pixels.
    space: u64,
}

/// Judges each of these shelves. The marks say which items are in use.
pub fn judge_shelves(
    frame: &Frame,
    shelves: &[LinkedShelf],
    items: &[LinkedItem],
    marks: &[bool],
    entries: &[WalkedShelf],
) -> JudgedShelves
    requires frame { IsFrame longest_side frame.now }
    requires few { length entries.now ≤ no_link }
    requires short { AllByRecursion (λ (entry : Entry). length entry.items ≤ no_link) entries.now }
    ensures links { Decides result.are_linked (AllByRecursion (LinkBack items.now) entries.now) }
    ensures free { Decides result.have_free_lists
        (AllByRecursion (FreeOwn items.now marks.now) entries.now) }
    ensures stacked { Decides result.are_stacked
        (HasShelves shelves.now entries.now
        (spec.spelled_state (atlas_of_records frame.now shelves.now items.now) entries.now)) }
    ensures filled { Decides result.are_filled
        (AllByRecursion (HasItems frame.now shelves.now items.now) entries.now) }
    ensures apart { IsTrue result.are_stacked → Decides result.are_apart
        (HasNeighbours
        (spec.spelled_state (atlas_of_records frame.now shelves.now items.now) entries.now)) }
    ensures space { result.space
        ≡ space.space_in
        (map (spec.spelled_shelf (atlas_of_records frame.now shelves.now items.now)) entries.now) }
{
    let mut judged = JudgedShelves {
        are_linked: true,
        have_free_lists: true,
        are_stacked: true,
        are_filled: true,
        are_apart: true,
        space: 0,
    };
    let mut start = 0;
    let mut height = 0;
    let mut was_empty = false;
    for entry in entries {
        let shelf = shelf_of(shelves, usize::from(entry.number));
        let one = judge_shelf(frame, items, marks, entry, &shelf);
        let along = u32::from(shelf.x);
        let is_next = is_next(frame, start, height, &shelf);
        let touches = (along == start) & (was_empty & one.is_empty);
        judged.are_linked = one.is_linked & judged.are_linked;
        judged.have_free_lists = one.has_free_list & judged.have_free_lists;
        judged.are_stacked = is_next & judged.are_stacked;
        judged.are_filled = one.is_filled & judged.are_filled;
        judged.are_apart = (one.is_apart & !touches) & judged.are_apart;
        judged.space += one.space;
        let below = if along == start { height } else { 0 };
        height = below + u32::from(shelf.height);
        start = along;
        was_empty = one.is_empty;
    }
    judged.are_stacked = fills_columns(frame, start, height) & judged.are_stacked;
    judged
}

/// The record of the shelf of this number; what it says is 0 where there is none. So each shelf is read once.
fn shelf_of(shelves: &[LinkedShelf], number: usize) -> LinkedShelf
    ensures { SaysOf shelves.now number result }
{
    if number < shelves.len() {
        return shelves[number];
    }
    LinkedShelf {
        x: 0,
        y: 0,
        height: 0,
        prev: Link::none(),
        next: Link::none(),
        first_item: Link::none(),
        first_unallocated: Link::none(),
        is_empty: false,
    }
}

/// Judges a shelf, of which this is the record. The marks say which items are in use.
#[inline(always)]
fn judge_shelf(
    frame: &Frame,
    items: &[LinkedItem],
    marks: &[bool],
    entry: &WalkedShelf,
    shelf: &LinkedShelf,
) -> JudgedShelf
    requires frame { IsFrame longest_side frame.now }
    requires short { length entry.now.items ≤ no_link }
    ensures links { Decides result.is_linked (LinkBack items.now entry.now) }
    ensures free { Decides result.has_free_list (FreeOwn items.now marks.now entry.now) }
    ensures filled { (shelves : List LinkedShelf) → SaysOf shelves entry.now.number shelf.now
        → Decides result.is_filled (HasItems frame.now shelves items.now entry.now) }
    ensures apart { Decides result.is_apart
        (NoNeighbours both_free (map (spec.item_at items.now) entry.now.items)) }
    ensures empty { result.is_empty ≡ state.is_one_free (map (spec.item_at items.now) entry.now.items) }
    ensures space { result.space
        ≡ space.allocated_width (map (spec.item_at items.now) entry.now.items)
        * shelf.now.height }
    ensures small { result.space ≤ no_link * no_link * no_link }
{
    let found = judge_items(frame, items, entry.number, shelf.x, entry.items);
    let is_full = found.lie_in_row & (found.width == frame.column_width);
    let is_empty = is_one_free(items, entry.items);
    let says_empty = shelf.is_empty == is_empty;
    JudgedShelf {
        is_linked: found.are_linked,
        has_free_list: has_free_list(
            items,
            marks,
            entry.number,
            entry.free_list,
            found.free_count,
        ),
        is_filled: is_full & says_empty,
        is_apart: found.are_apart,
        is_empty,
        space: found.allocated_width * u64::from(shelf.height),
    }
}
