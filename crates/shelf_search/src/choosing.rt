//! Which shelf and which item a size gets, and all that is found out of the place.
//!
//! Definitions: `Choice`, `Searching` for the same by records, and `ByHeight` for the order. A search starts
//! at the first shelf that is tall enough, and takes the first good fit. The first shelf that is too tall for one ends
//! that: from there on only empty shelves are good fits, and their bounds tell them. Where there is none either, the
//! shelf in the first place is taken. Where the list by height doesn't follow the records, all shelves were gone through
//! before (`by_place`). A free list is gone through only where the bound on its items is wide enough,
//! and the bound is lowered to the widest of them where none fits. Shelves without a free item as wide as what is asked may
//! be missing from the list by height, and none is put in or taken out. Nothing here changes the records.

ghost use Rattle.std.specs.Prelude.{◌≡◌, false, true, ◌+◌, ◌*◌, ◌/◌, ◌≤◌, ◌<◌, ◌^◌, None, Some, IfSome, drop, is_some, length, map, nat_lt, set};
ghost use Rattle.etagere_base.specs.Frames as frames;
ghost use Rattle.etagere_base.specs.Frames.{IsFrame, longest_side};
ghost use Rattle.etagere_base.specs.declared.geometry.Size.{Size};
ghost use Rattle.etagere_base.specs.Lists.{times};
ghost use Rattle.shelf_records.specs.RecordLists.{IsLinked, shelf_walk, walked_lists};
ghost use Rattle.shelf_records.specs.AtlasRecords.{height_of};
ghost use Rattle.shelf_model.specs.Choice as choice;
ghost use Rattle.shelf_model.specs.Choice.{bad_fit_rank};
ghost use Rattle.shelf_model.specs.Fresh.{fresh};
ghost use Rattle.shelf_heights.specs.Private.ByHeight.{AreInOrder, AreByHeightFor, bounded_at, numbers_by_height};
ghost use Rattle.shelf_records.specs.Private.Kept.{AreKept, Finds, state_of};
ghost use Rattle.shelf_search.specs.Private.Opening as opening;
ghost use Rattle.shelf_search.specs.Private.Opening.{AreInChain, AreLowered, AreSearchable, AreTall, AreWhole, IsBehind, IsEarliest, IsSearchable, bounded_full, earlier_position, looked_into};
ghost use Rattle.shelf_search.specs.Private.Searching as searching;
ghost use Rattle.shelf_search.specs.Private.Searching.{AreTooTall, IsFirstGood};
ghost use Rattle.shelf_model.specs.State as state;

use crate::by_place::{Walked, walk_bad_fits};
use etagere_base::{Frame, Sides, Size, asked, step};
use shelf_heights::by_height::{BoundedShelf, ShelvesByHeight};
use shelf_heights::heights::{chain_order_of, first_as_tall};
use shelf_model::placements::Placement;
use shelf_records::{LinkedShelf, Records};

/// An atlas has no more items than this.
pub const MOST_ITEMS: u32 = 65535;

/// The rank of a bad fit, which is above each height.
pub(crate) const BAD_FIT_RANK: u32 = 65536;

/// More shelves than these aren't gone through for a bad fit.
const WALKED: usize = 160;

/// Fewer heights aren't many.
const FEWEST_HEIGHTS: usize = 4;

/// Shelves are of many heights where no two of about so many are as tall that stand equally far apart in the list.
const MOST_HEIGHTS: usize = 8;

/// A shelf is split where more than this would be left of its height.
const SHELF_SLACK: u32 = 8;

/// An item is split where more than this would be left of its width.
const ITEM_SLACK: u32 = 8;

/// The bits of a link that names no record, as a number.
pub(crate) const NO_NUMBER: usize = 65535;

/// A place makes no more splits than this.
pub(crate) const MOST_SPLITS: u32 = 2;

/// A shelf and the first of its free items that is wide enough, by the numbers of their records, and how
/// the shelf ranks.
#[derive(Clone, Copy)]
pub struct Candidate {
    pub(crate) shelf: usize,
    pub(crate) item: usize,
    pub(crate) rank: u32,
}

/// What a search for a good fit comes to: the first one, or from where on a shelf may offer a bad one.
enum FirstGood {
    Found(Candidate),
    Rest(usize),
}

/// What a search of a free list came to: an item that is wide enough, or how wide the widest is.
pub(crate) enum Searched {
    Found(usize),
    Widest(u16),
}

/// The place of what asks for these sides, whose shelf is to be so high, where it has one and there are records enough for
/// its splits; shelf and item by the numbers of their records. Shelves without a free item as wide may be missing from the
/// list by height, whose shelves stay as they are; only bounds fall. Where all shelves were gone through, it is left alone.
pub fn placement_of(
    frame: &Frame,
    records: &Records,
    by_height: &mut ShelvesByHeight,
    walked: Walked,
    items_in_use: u32,
    sides: Sides,
    height: u32,
) -> Option<Placement>
    requires kept { AreKept frame.now records.now }
    requires by_height { searching.list_follows walked ≡ true
        → AreByHeightFor frame.now records.now sides.along by_height.old.items }
    requires short { (sides.along ≤ longest_side) × (height ≤ longest_side) }
    requires wide { 1 ≤ sides.along }
    requires height { height ≡ choice.shelf_height frame.now sides.across }
    requires walked { searching.IsThrough records.now sides.along height walked }
    requires counted { items_in_use
        ≡ state.items_in_use (state_of frame.now records.now).shelves }
    ensures none { result ≡ None → (size : Size) → frames.asked frame.now size ≡ Some sides
        → choice.placement_of (state_of frame.now records.now) size ≡ None }
    ensures some { IfSome result
        (λ placement. (size : Size) → frames.asked frame.now size ≡ Some sides
        → Finds frame.now records.now size placement) }
    ensures by_height { searching.list_follows walked ≡ true
        → AreByHeightFor frame.now records.now sides.along by_height.new.items }
    ensures numbers { numbers_by_height by_height.new.items ≡ numbers_by_height by_height.old.items }
    ensures same { searching.list_follows walked ≡ false → by_height.new.items ≡ by_height.old.items }
    ensures capacity { by_height.old.capacity ≤ by_height.new.capacity }
{
    let placement = chosen(frame, records, by_height, walked, sides, height)?;
    if items_in_use + placement.splits() <= MOST_ITEMS {
        Some(placement)
    } else {
        None
    }
}

/// Whether a new atlas of a frame has room for the size. Its columns are alike, each one empty shelf, so the first one
/// tells. What is split there matters only where two splits might make too many items.
pub fn fits_when_empty(frame: &Frame, size: Size) -> bool
    requires { IsFrame longest_side frame.now }
    ensures { result ≡ is_some (choice.placement_of (fresh frame.now) size) }
{
    let Some(sides) = asked(frame, size) else {
        return false;
    };
    if frame.columns + MOST_SPLITS <= MOST_ITEMS {
        return true;
    }
    let splits_shelf = shelf_height(frame, sides.across) + SHELF_SLACK < frame.across_side();
    let splits_item = sides.along + ITEM_SLACK < frame.column_width;
    frame.columns + u32::from(splits_shelf) + u32::from(splits_item) <= MOST_ITEMS
}

/// The place in the shelf of least rank.
fn chosen(
    frame: &Frame,
    records: &Records,
    by_height: &mut ShelvesByHeight,
    walked: Walked,
    sides: Sides,
    height: u32,
) -> Option<Placement>
    requires kept { AreKept frame.now records.now }
    requires by_height { searching.list_follows walked ≡ true
        → AreByHeightFor frame.now records.now sides.along by_height.old.items }
    requires short { (sides.along ≤ longest_side) × (height ≤ longest_side) }
    requires wide { 1 ≤ sides.along }
    requires height { height ≡ choice.shelf_height frame.now sides.across }
    requires walked { searching.IsThrough records.now sides.along height walked }
    ensures value { result ≡ searching.chosen_at frame.now records.now sides }
    ensures by_height { searching.list_follows walked ≡ true
        → AreByHeightFor frame.now records.now sides.along by_height.new.items }
    ensures numbers { numbers_by_height by_height.new.items ≡ numbers_by_height by_height.old.items }
    ensures same { searching.list_follows walked ≡ false → by_height.new.items ≡ by_height.old.items }
    ensures capacity { by_height.old.capacity ≤ by_height.new.capacity }
{
    let candidate = lowest_ranked(frame, records, by_height, walked, sides.along, height)?;
    Some(placement_at(records, sides.along, height, candidate))
}

/// What the first shelf of least rank offers: what was found by place, or else by height.
fn lowest_ranked(
    frame: &Frame,
    records: &Records,
    by_height: &mut ShelvesByHeight,
    walked: Walked,
    width: u32,
    height: u32,
) -> Option<Candidate>
    requires kept { AreKept frame.now records.now }
    requires by_height { searching.list_follows walked ≡ true
        → AreByHeightFor frame.now records.now width by_height.old.items }
    requires wide { 1 ≤ width }
    requires short { height ≤ longest_side }
    requires walked { searching.IsThrough records.now width height walked }
    ensures value { result ≡ searching.best_candidate records.now width height }
    ensures by_height { searching.list_follows walked ≡ true
        → AreByHeightFor frame.now records.now width by_height.new.items }
    ensures numbers { numbers_by_height by_height.new.items ≡ numbers_by_height by_height.old.items }
    ensures same { searching.list_follows walked ≡ false → by_height.new.items ≡ by_height.old.items }
    ensures capacity { by_height.old.capacity ≤ by_height.new.capacity }
{
    match walked {
        Walked::Through(best) => best,
        Walked::NotThrough => {
            best_candidate(records, by_height, frame.column_width, width, height)
        }
    }
}

/// The height of a shelf for items of this height: rounded up, unless that is taller than the atlas.
pub fn shelf_height(frame: &Frame, height: u32) -> u32
    requires frame { IsFrame longest_side frame.now }
    requires short { height ≤ longest_side }
    ensures value { result ≡ choice.shelf_height frame.now height }
    ensures short { result ≤ longest_side }
{
    let stepped = step(height);
    if stepped <= frame.across_side() {
        stepped
    } else {
        height
    }
}

/// The first good fit by height; where there is none, the fit in the first place.
fn best_candidate(
    records: &Records,
    by_height: &mut ShelvesByHeight,
    column_width: u32,
    width: u32,
    height: u32,
) -> Option<Candidate>
    requires linked { IsLinked records.now (walked_lists records.now) }
    requires order { AreInOrder records.now.shelves by_height.old.items }
    requires by_height { AreSearchable records.now by_height.old.items }
    requires whole { AreWhole records.now column_width }
    requires column { (1 ≤ column_width) × (column_width ≤ longest_side) }
    requires wide { 1 ≤ width }
    requires short { height ≤ longest_side }
    requires best { searching.best_candidate records.now width height
        ≡ searching.first_by_height records.now width height (numbers_by_height by_height.old.items) }
    ensures value { result
        ≡ searching.first_by_height records.now width height (numbers_by_height by_height.old.items) }
    ensures numbers { numbers_by_height by_height.new.items ≡ numbers_by_height by_height.old.items }
    ensures by_height { AreSearchable records.now by_height.new.items }
    ensures capacity { by_height.old.capacity ≤ by_height.new.capacity }
{
    let start = first_as_tall(records.shelves(), by_height, height);
    match first_good(records, by_height, start, width, height) {
        FirstGood::Found(candidate) => Some(candidate),
        FirstGood::Rest(rest) => first_of_rest(
            records,
            by_height,
            rest,
            column_width,
            width,
            height,
        ),
    }
}

/// The first good fit from this position on, where each shelf that isn't empty is too tall for one; where there is none,
/// the fit in the first place.
fn first_of_rest(
    records: &Records,
    by_height: &mut ShelvesByHeight,
    rest: usize,
    column_width: u32,
    width: u32,
    height: u32,
) -> Option<Candidate>
    requires linked { IsLinked records.now (walked_lists records.now) }
    requires order { AreInOrder records.now.shelves by_height.old.items }
    requires rest { rest ≤ length by_height.old.items }
    requires few { length by_height.old.items < 2 ^ 64 }
    requires by_height { AreSearchable records.now by_height.old.items }
    requires whole { AreWhole records.now column_width }
    requires column { (1 ≤ column_width) × (column_width ≤ longest_side) }
    requires tall { AreTooTall records.now.shelves height (drop rest (numbers_by_height by_height.old.items)) }
    requires wide { 1 ≤ width }
    requires short { height ≤ longest_side }
    requires best { searching.best_candidate records.now width height
        ≡ searching.first_by_height records.now width height
        (drop rest (numbers_by_height by_height.old.items)) }
    ensures value { result
        ≡ searching.first_by_height records.now width height
        (drop rest (numbers_by_height by_height.old.items)) }
    ensures numbers { numbers_by_height by_height.new.items ≡ numbers_by_height by_height.old.items }
    ensures by_height { AreSearchable records.now by_height.new.items }
    ensures capacity { by_height.old.capacity ≤ by_height.new.capacity }
{
    if rest == by_height.len() {
        return None;
    }
    let empty = first_empty(records, by_height, rest, column_width, width, height);
    if empty.is_some() {
        return empty;
    }
    if are_of_many_heights(records.shelves(), by_height, rest) {
        if let Walked::Through(best) = walk_bad_fits(records, width, height) {
            return best;
        }
    }
    first_placed(records, by_height, rest, width, height)
}

/// Whether shelves are few enough to go through all, and those from this position on differ so much in height that it is
/// less work: to look at the first of each height takes as much as to pass several shelves.
fn are_of_many_heights(shelves: &[LinkedShelf], by_height: &ShelvesByHeight, rest: usize) -> bool
    requires order { AreInOrder shelves.now by_height.now.items }
    requires rest { rest ≤ length by_height.now.items }
{
    let count = by_height.len() - rest;
    if count < FEWEST_HEIGHTS || by_height.len() > WALKED {
        return false;
    }
    let mut last = 0;
    let mut index = rest;
    while index < by_height.len() {
        let own = own_height(shelves, by_height.shelf(index));
        if own == last {
            return false;
        }
        last = own;
        index += count / MOST_HEIGHTS + 1;
    }
    true
}

/// The first good fit from this position on, where all shelves are tall enough. Where there is none before the first shelf
/// that is too tall for one and isn't empty, the answer is its position, or the end where there is no such shelf. No
/// shelf before it has a free item that is wide enough: their bounds were too small, or their free lists were searched.
fn first_good(
    records: &Records,
    by_height: &mut ShelvesByHeight,
    start: usize,
    width: u32,
    height: u32,
) -> FirstGood
    requires linked { IsLinked records.now (walked_lists records.now) }
    requires order { AreInOrder records.now.shelves by_height.old.items }
    requires start { start ≤ length by_height.old.items }
    requires few { length by_height.old.items < 2 ^ 64 }
    requires by_height { AreSearchable records.now by_height.old.items }
    requires tall { AreTall records.now.shelves height (drop start (numbers_by_height by_height.old.items)) }
    requires short { height ≤ longest_side }
    ensures value { IsFirstGood records.now width height start (numbers_by_height by_height.old.items) result }
    ensures numbers { numbers_by_height by_height.new.items ≡ numbers_by_height by_height.old.items }
    ensures by_height { AreSearchable records.now by_height.new.items }
    ensures capacity { by_height.old.capacity ≤ by_height.new.capacity }
{
    let mut from = start;
    while let Some(index) = by_height.first_as_wide(from, width) {
        if !is_good(records, height, by_height.shelf(index)) {
            return FirstGood::Rest(index);
        }
        if let Some(candidate) = fit_at(records, by_height, index, width, height) {
            return FirstGood::Found(candidate);
        }
        from = index + 1;
    }
    FirstGood::Rest(by_height.len())
}

/// The first empty shelf from this position on that is wide enough, where each other one is too tall for a good fit. An
/// empty shelf has one item, as wide as the column, so its bound is at least that; where another's is, it falls.
fn first_empty(
    records: &Records,
    by_height: &mut ShelvesByHeight,
    start: usize,
    column_width: u32,
    width: u32,
    height: u32,
) -> Option<Candidate>
    requires linked { IsLinked records.now (walked_lists records.now) }
    requires start { start ≤ length by_height.old.items }
    requires few { length by_height.old.items < 2 ^ 64 }
    requires by_height { AreSearchable records.now by_height.old.items }
    requires whole { AreWhole records.now column_width }
    requires column { (1 ≤ column_width) × (column_width ≤ longest_side) }
    requires tall { AreTooTall records.now.shelves height (drop start (numbers_by_height by_height.old.items)) }
    requires short { height ≤ longest_side }
    ensures value { result
        ≡ searching.first_offer (searching.good_offer records.now width height)
        (drop start (numbers_by_height by_height.old.items)) }
    ensures numbers { numbers_by_height by_height.new.items ≡ numbers_by_height by_height.old.items }
    ensures by_height { AreSearchable records.now by_height.new.items }
    ensures capacity { by_height.old.capacity ≤ by_height.new.capacity }
{
    let mut from = start;
    while let Some(index) = by_height.first_rarely_as_wide(from, column_width) {
        let found = empty_at(records, by_height, index, column_width, width, height);
        if found.is_some() {
            return found;
        }
        from = index + 1;
    }
    None
}

/// What the shelf at this position offers where it is empty. Where it isn't, its bound falls below the width of a column.
fn empty_at(
    records: &Records,
    by_height: &mut ShelvesByHeight,
    index: usize,
    column_width: u32,
    width: u32,
    height: u32,
) -> Option<Candidate>
    requires linked { IsLinked records.now (walked_lists records.now) }
    requires index { index < length by_height.old.items }
    requires by_height { AreSearchable records.now by_height.old.items }
    requires whole { AreWhole records.now column_width }
    requires column { (1 ≤ column_width) × (column_width ≤ longest_side) }
    requires tall { height + height / 2 + 1
        ≤ height_of records.now.shelves (bounded_at by_height.old.items index).shelf }
    requires short { height ≤ longest_side }
    ensures value { result
        ≡ searching.good_offer records.now width height (bounded_at by_height.old.items index).shelf }
    ensures numbers { numbers_by_height by_height.new.items ≡ numbers_by_height by_height.old.items }
    ensures by_height { AreSearchable records.now by_height.new.items }
    ensures capacity { by_height.old.capacity ≤ by_height.new.capacity }
{
    if records.shelves()[by_height.shelf(index)].is_empty {
        return fit_at(records, by_height, index, width, height);
    }
    let mut one = by_height.get(index);
    one.widest = (column_width - 1) as u16;
    by_height.set(index, one);
    None
}

/// The fit in the first place from this position on, where all shelves are tall enough. Only the free list of the shelf in
/// the first place is gone through, and only where none of its items fits, and its bound falls, the next one's.
fn first_placed(
    records: &Records,
    by_height: &mut ShelvesByHeight,
    start: usize,
    width: u32,
    height: u32,
) -> Option<Candidate>
    requires linked { IsLinked records.now (walked_lists records.now) }
    requires order { AreInOrder records.now.shelves by_height.old.items }
    requires start { start ≤ length by_height.old.items }
    requires few { length by_height.old.items < 2 ^ 64 }
    requires by_height { AreSearchable records.now by_height.old.items }
    requires tall { AreTall records.now.shelves height (drop start (numbers_by_height by_height.old.items)) }
    requires wide { 1 ≤ width }
    requires short { height ≤ longest_side }
    ensures value { result
        ≡ searching.earliest records.now.shelves
        (map (searching.offered records.now width height) (drop start (numbers_by_height by_height.old.items))) }
    ensures numbers { numbers_by_height by_height.new.items ≡ numbers_by_height by_height.old.items }
    ensures by_height { AreSearchable records.now by_height.new.items }
    ensures capacity { by_height.old.capacity ≤ by_height.new.capacity }
{
    while let Some(index) = earliest_wide(records, by_height, start, width) {
        let found = fit_at(records, by_height, index, width, height);
        if found.is_some() {
            return found;
        }
    }
    None
}

/// The position of the earliest shelf in the chain from this one on whose bound is not below this width. Shelves of one
/// height stand in the order of the chain, so only the first such one of each height is looked at. Where that is full, its
/// bound falls, and the next one is.
fn earliest_wide(
    records: &Records,
    by_height: &mut ShelvesByHeight,
    start: usize,
    width: u32,
) -> Option<usize>
    requires linked { IsLinked records.now (walked_lists records.now) }
    requires order { AreInOrder records.now.shelves by_height.old.items }
    requires few { length by_height.old.items < 2 ^ 64 }
    requires start { start ≤ length by_height.old.items }
    requires by_height { AreSearchable records.now by_height.old.items }
    requires wide { 1 ≤ width }
    ensures value { IsEarliest records.now.shelves by_height.new.items start (length by_height.new.items) width
        result }
    ensures numbers { numbers_by_height by_height.new.items ≡ numbers_by_height by_height.old.items }
    ensures by_height { AreSearchable records.now by_height.new.items }
    ensures lowered { AreLowered by_height.old.items by_height.new.items }
    ensures capacity { by_height.old.capacity ≤ by_height.new.capacity }
{
    let mut first = None;
    let mut from = start;
    while let Some(index) = by_height.first_near_as_wide(from, width) {
        if lower_if_full(records, by_height, index) {
            from = index + 1;
        } else {
            first = Some(earlier(records.shelves(), by_height, first, index));
            from = behind_height(records.shelves(), by_height, index);
        }
    }
    first
}

/// Whether the shelf at this position has no free item. Then its bound falls to 0.
fn lower_if_full(records: &Records, by_height: &mut ShelvesByHeight, index: usize) -> bool
    requires linked { IsLinked records.now (walked_lists records.now) }
    requires index { index < length by_height.old.items }
    requires by_height { AreSearchable records.now by_height.old.items }
    ensures full { result ≡ true → by_height.new.items
        ≡ set by_height.old.items index (bounded_full (bounded_at by_height.old.items index)) }
    ensures same { result ≡ false → by_height.new.items ≡ by_height.old.items }
    ensures by_height { AreSearchable records.now by_height.new.items }
    ensures capacity { by_height.old.capacity ≤ by_height.new.capacity }
{
    let mut one = by_height.get(index);
    let shelf = &records.shelves()[usize::from(one.shelf)];
    if shelf.first_unallocated.number().is_some() {
        return false;
    }
    one.widest = 0;
    by_height.set(index, one);
    true
}

/// Of two positions the one whose shelf is earlier in the chain.
fn earlier(
    shelves: &[LinkedShelf],
    by_height: &ShelvesByHeight,
    one: Option<usize>,
    other: usize,
) -> usize
    requires order { AreInOrder shelves.now by_height.now.items }
    requires one { IfSome one (λ index. index < length by_height.now.items) }
    requires other { other < length by_height.now.items }
    ensures { result ≡ earlier_position shelves.now by_height.now.items one other }
{
    match one {
        Some(one)
            if chain_order_at(shelves, by_height, one)
                < chain_order_at(shelves, by_height, other) => one,
        _ => other,
    }
}

/// Where the shelf at this position begins, as one number.
fn chain_order_at(shelves: &[LinkedShelf], by_height: &ShelvesByHeight, index: usize) -> u32
    requires order { AreInOrder shelves.now by_height.now.items }
    requires index { index < length by_height.now.items }
    ensures { result ≡ opening.chain_order_at shelves.now by_height.now.items index }
{
    chain_order_of(shelves, by_height.shelf(index))
}

/// A position behind this one, up to which all shelves have its height, and so are later in the chain. Where the
/// next shelf has its height, it is that behind all shelves of it.
fn behind_height(shelves: &[LinkedShelf], by_height: &mut ShelvesByHeight, index: usize) -> usize
    requires order { AreInOrder shelves.now by_height.old.items }
    requires in_chain { AreInChain shelves.now by_height.old.items }
    requires few { length by_height.old.items < 2 ^ 64 }
    requires index { index < length by_height.old.items }
    ensures behind { IsBehind shelves.now by_height.old.items index result }
    ensures same { by_height.new ≡ by_height.old }
{
    let height = own_height(shelves, by_height.shelf(index));
    let next = index + 1;
    if next == by_height.len() || own_height(shelves, by_height.shelf(next)) != height {
        return next;
    }
    first_as_tall(shelves, by_height, height + 1)
}

/// How tall a shelf is.
fn own_height(shelves: &[LinkedShelf], shelf: usize) -> u32
    requires { shelf < length shelves.now }
    ensures value { result ≡ height_of shelves.now shelf }
    ensures short { result ≤ longest_side }
{
    u32::from(shelves[shelf].height)
}

/// Whether a shelf that fits is a good fit.
fn is_good(records: &Records, height: u32, shelf: usize) -> bool
    requires within { shelf < length records.now.shelves }
    requires short { height ≤ longest_side }
    ensures { result ≡ nat_lt (searching.rank_of records.now.shelves height shelf) bad_fit_rank }
{
    rank_of(records, height, shelf) < BAD_FIT_RANK
}

/// What the shelf at this position offers, which is tall enough.
fn fit_at(
    records: &Records,
    by_height: &mut ShelvesByHeight,
    index: usize,
    width: u32,
    height: u32,
) -> Option<Candidate>
    requires linked { IsLinked records.now (walked_lists records.now) }
    requires index { index < length by_height.old.items }
    requires by_height { AreSearchable records.now by_height.old.items }
    requires tall { height ≤ height_of records.now.shelves (bounded_at by_height.old.items index).shelf }
    requires short { height ≤ longest_side }
    ensures value { result
        ≡ searching.offered records.now width height (bounded_at by_height.old.items index).shelf }
    ensures items { by_height.new.items
        ≡ set by_height.old.items index
        (looked_into records.now width (bounded_at by_height.old.items index)) }
    ensures numbers { numbers_by_height by_height.new.items ≡ numbers_by_height by_height.old.items }
    ensures by_height { AreSearchable records.now by_height.new.items }
    ensures capacity { by_height.old.capacity ≤ by_height.new.capacity }
{
    let mut one = by_height.get(index);
    let found = fit(records, &mut one, width, height);
    if found.is_some() {
        return found;
    }
    by_height.set(index, one);
    found
}

/// What a shelf offers that is tall enough.
fn fit(records: &Records, bounded: &mut BoundedShelf, width: u32, height: u32) -> Option<Candidate>
    requires linked { IsLinked records.now (walked_lists records.now) }
    requires bounded { IsSearchable records.now bounded.old }
    requires tall { height ≤ height_of records.now.shelves bounded.old.shelf }
    requires short { height ≤ longest_side }
    ensures value { result ≡ searching.offered records.now width height bounded.old.shelf }
    ensures new { bounded.new ≡ looked_into records.now width bounded.old }
    ensures shelf { bounded.new.shelf ≡ bounded.old.shelf }
    ensures bounded { IsSearchable records.now bounded.new }
{
    let item = fitting_item(records, bounded, width)?;
    let shelf = usize::from(bounded.shelf);
    Some(Candidate {
        shelf,
        item,
        rank: rank_of(records, height, shelf),
    })
}

/// The first item of a shelf's free list that is wide enough; where there is none, the shelf's bound falls to
/// the width of the widest.
fn fitting_item(records: &Records, bounded: &mut BoundedShelf, width: u32) -> Option<usize>
    requires linked { IsLinked records.now (walked_lists records.now) }
    requires bounded { IsSearchable records.now bounded.old }
    ensures value { result ≡ searching.first_wide records.now width bounded.old.shelf }
    ensures new { bounded.new ≡ looked_into records.now width bounded.old }
    ensures shelf { bounded.new.shelf ≡ bounded.old.shelf }
    ensures bounded { IsSearchable records.now bounded.new }
{
    match search_free_list(records, width, usize::from(bounded.shelf)) {
        Searched::Found(item) => Some(item),
        Searched::Widest(widest) => {
            bounded.widest = widest;
            None
        }
    }
}

/// The rank of a shelf that fits: a good fit by its height, a bad one after every good one.
pub(crate) fn rank_of(records: &Records, height: u32, shelf: usize) -> u32
    requires within { shelf < length records.now.shelves }
    requires short { height ≤ longest_side }
    ensures { result ≡ searching.rank_of records.now.shelves height shelf }
{
    let record = &records.shelves()[shelf];
    let own = u32::from(record.height);
    if record.is_empty || own <= height + height / 2 {
        own
    } else {
        BAD_FIT_RANK
    }
}

/// The first item of a shelf's free list that is wide enough, or the width of the widest.
pub(crate) fn search_free_list(records: &Records, width: u32, shelf: usize) -> Searched
    requires linked { IsLinked records.now (walked_lists records.now) }
    requires stands { 1 ≤ times shelf (shelf_walk records.now).met }
    requires within { shelf < length records.now.shelves }
    ensures { result ≡ opening.searched records.now width shelf }
{
    let items = records.items();
    let mut number = usize::from(records.shelves()[shelf].first_unallocated.bits());
    let mut widest = 0_u32;
    while number < NO_NUMBER {
        let item = &items[number];
        let own = u32::from(item.width);
        if own >= width {
            return Searched::Found(number);
        }
        widest = widest.max(own);
        number = usize::from(item.next_unallocated.bits());
    }
    Searched::Widest(widest as u16)
}

/// All that is found out of an item of a shelf. Each split is decided here.
pub(crate) fn placement_at(
    records: &Records,
    width: u32,
    height: u32,
    candidate: Candidate,
) -> Placement
    requires shelf { candidate.shelf < length records.now.shelves }
    requires item { candidate.item < length records.now.items }
    requires short { (width ≤ longest_side) × (height ≤ longest_side) }
    ensures { result ≡ searching.placement_at records.now width height candidate }
{
    let shelf = &records.shelves()[candidate.shelf];
    let item = &records.items()[candidate.item];
    let splits_shelf = shelf.is_empty && height + SHELF_SLACK < u32::from(shelf.height);
    let splits_item = width + ITEM_SLACK < u32::from(item.width);
    Placement {
        shelf: candidate.shelf,
        item: candidate.item,
        along: u32::from(item.x),
        across: u32::from(shelf.y),
        width: if splits_item {
            width
        } else {
            u32::from(item.width)
        },
        height: if splits_shelf {
            height
        } else {
            u32::from(shelf.height)
        },
        splits_shelf,
        splits_item,
    }
}
