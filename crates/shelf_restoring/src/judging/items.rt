//! What one pass over the items of a shelf finds: of their links, their places, which are free, and their widths.
//!
//! Definitions: `LinkBack` and `LieFrom` of `StandsFor`, and `Rules` for what is left of a list.

ghost use Rattle.std.specs.Prelude.{◌≡◌, ◌≤◌, ◌*◌, None, false, Decides, length, map};
ghost use Rattle.etagere_base.specs.Frames.{IsFrame, alignment_along, longest_side};
ghost use Rattle.etagere_base.specs.declared.frames.Frame.{Frame};
ghost use Rattle.etagere_links.specs.Edits.{link_at};
ghost use Rattle.etagere_links.specs.Links.{no_link};
ghost use Rattle.shelf_records.specs.Records.{item_chain};
ghost use Rattle.shelf_model.specs.Space as space;
ghost use Rattle.shelf_model.specs.State as state;
ghost use Rattle.shelf_model.specs.Valid.{IsItem};
ghost use Rattle.shelf_records.specs.AtlasRecords as spec;
ghost use Rattle.shelf_records.specs.AtlasRecords.{item_at};
ghost use Rattle.shelf_records.specs.StandsFor.{free_present};
ghost use Rattle.shelf_restoring.specs.Private.Rules.{ApartFrom, LinkedFrom, RowFrom};

use crate::judging::linking::is_link_to;
use etagere_base::Frame;
use etagere_links::is_multiple;
use shelf_records::{Chain, LinkedItem, fields, previous_of};

/// What is found of the items of a shelf.
#[derive(Clone, Copy, Drop)]
pub struct JudgedItems {
    /// Whether they link back, and name their shelf.
    pub are_linked: bool,
    /// Whether they lie side by side from where the shelf begins, each at least a pixel wide and aligned.
    pub lie_in_row: bool,
    /// Whether no two that stand side by side are free.
    pub are_apart: bool,
    /// Their widths, added up.
    pub width: u32,
    /// How many are free.
    pub free_count: usize,
    /// The widths of the allocated ones, added up.
    pub allocated_width: u64,
}

/// Judges the items of the shelf of this number, which begins at this place along.
#[inline(always)]
pub fn judge_items(
    frame: &Frame,
    items: &[LinkedItem],
    shelf: u16,
    start: u16,
    numbers: &[u16],
) -> JudgedItems
    requires frame { IsFrame longest_side frame.now }
    requires short { length numbers.now ≤ no_link }
    ensures links { Decides result.are_linked (LinkedFrom items.now shelf None numbers.now) }
    ensures places { Decides result.lie_in_row (RowFrom frame.now items.now start numbers.now) }
    ensures apart { Decides result.are_apart (ApartFrom items.now false numbers.now) }
    ensures width { result.width ≡ state.total_width (map (item_at items.now) numbers.now) }
    ensures free { result.free_count ≡ length (free_present items.now numbers.now) }
    ensures allocated { result.allocated_width
        ≡ space.allocated_width (map (item_at items.now) numbers.now) }
    ensures small { result.allocated_width ≤ no_link * no_link }
{
    let mut judged = JudgedItems {
        are_linked: true,
        lie_in_row: true,
        are_apart: true,
        width: 0,
        free_count: 0,
        allocated_width: 0,
    };
    let alignment = frame.alignment_along();
    let mut before = None;
    let mut here = u32::from(start);
    let mut was_free = false;
    for number in numbers {
        let item = usize::from(*number);
        let is_free = !fields::is_allocated(items, item);
        let width = fields::width(items, item);
        judged.are_linked = is_linked(items, shelf, item, before) & judged.are_linked;
        judged.lie_in_row = lies_at(items, item, here, alignment) & judged.lie_in_row;
        judged.are_apart = !(was_free & is_free) & judged.are_apart;
        if is_free {
            judged.free_count += 1;
        } else {
            judged.allocated_width += u64::from(width);
        }
        here += u32::from(width);
        before = Some(item);
        was_free = is_free;
    }
    judged.width = here - u32::from(start);
    judged
}

/// Whether an item links back to this one, and names the shelf of this number.
fn is_linked(items: &[LinkedItem], shelf: u16, item: usize, before: Option<usize>) -> bool
    ensures { Decides result ((link_at item_chain.previous items.now item ≡ before)
        × (spec.shelf_of items.now item ≡ shelf)) }
{
    if !is_link_to(previous_of::<Chain, LinkedItem>(items, item), before) {
        return false;
    }
    fields::shelf(items, item) == usize::from(shelf)
}

/// Whether an item lies here, and is at least a pixel wide, and aligned to so many along.
fn lies_at(items: &[LinkedItem], item: usize, here: u32, alignment: u32) -> bool
    requires { 1 ≤ alignment }
    ensures { (frame : Frame) → alignment_along frame ≡ alignment →
        Decides result ((spec.item_place_of items.now item ≡ here)
        × IsItem frame (item_at items.now item)) }
{
    if u32::from(fields::place(items, item)) != here {
        return false;
    }
    let width = u32::from(fields::width(items, item));
    if width == 0 {
        return false;
    }
    is_multiple(width, alignment)
}
