//! The shelves in use by height: where a search of them starts, and how the list follows a change.
//!
//! Definitions: `ByHeight`. Each shelf has beside it a width that none of its free items passes, so a search
//! passes over a shelf by one comparison.

ghost use Rattle.std.specs.Prelude.{◌≡◌, ◌+◌, ◌*◌, ◌<◌, ◌≤◌, ◌^◌, IfSome, IsFalse, IsTrue, drop, insert, length, nat_lt, remove, take, true};
ghost use Rattle.std.specs.List.{AllByRecursion};
ghost use Rattle.etagere_base.specs.Lists.{times};
ghost use Rattle.etagere_links.specs.Links.{no_link};
ghost use Rattle.shelf_heights.specs.Private.ByHeight as spec;
ghost use Rattle.shelf_heights.specs.Private.ByHeight.{AreInOrder, IsStart};

use crate::by_height::{BoundedShelf, ShelvesByHeight};
use shelf_records::LinkedShelf;

/// Where the shelves begin that don't come before an order, and how many shelves were looked at for it.
#[derive(Clone, Copy)]
pub struct Start {
    pub index: usize,
    pub probes: u32,
}

/// Two positions, between which something is looked for.
#[derive(Clone, Copy)]
struct Between {
    from: usize,
    end: usize,
}

/// A shelf of this number, below 65535, with this bound.
pub fn bounded(shelf: usize, widest: u16) -> BoundedShelf
    requires { shelf < no_link }
    ensures { result ≡ record { widest = widest; shelf = shelf } }
{
    BoundedShelf {
        widest,
        shelf: shelf as u16,
    }
}

/// Where a shelf begins, as one number: by column, and then across.
pub fn chain_order(along: u16, across: u16) -> u32
    ensures { result ≡ along * 65536 + across }
{
    u32::from(along) * 65536 + u32::from(across)
}

/// Where the shelf of this number begins, as one number.
pub fn chain_order_of(shelves: &[LinkedShelf], shelf: usize) -> u32
    requires { shelf < length shelves.now }
    ensures { result ≡ spec.chain_order shelves.now shelf }
{
    let record = &shelves[shelf];
    chain_order(record.x, record.y)
}

/// Where a shelf stands in the order.
pub fn order_of(shelves: &[LinkedShelf], shelf: usize) -> u64
    requires { shelf < length shelves.now }
    ensures value { result ≡ spec.order_of shelves.now shelf }
    ensures small { result < 2 ^ 48 }
{
    let record = &shelves[shelf];
    u64::from(record.height) * (65536 * 65536) + u64::from(chain_order(record.x, record.y))
}

/// Whether a shelf comes before this height and this order in the chain: the chain decides only where the heights are
/// equal.
fn comes_before(shelves: &[LinkedShelf], shelf: usize, height: u32, in_chain: u32) -> bool
    requires { shelf < length shelves.now }
    ensures { result ≡ nat_lt (spec.order_of shelves.now shelf) (spec.order_at height in_chain) }
{
    let record = &shelves[shelf];
    let own = u32::from(record.height);
    let (along, across) = (record.x, record.y);
    own < height || (own == height && chain_order(along, across) < in_chain)
}

/// Where a shelf stands in the order; 0 where there is no such shelf.
pub fn order_or_zero(shelves: &[LinkedShelf], shelf: usize) -> u64
    ensures value { result ≡ spec.order_of shelves.now shelf }
    ensures small { result < 2 ^ 48 }
{
    if shelf < shelves.len() {
        order_of(shelves, shelf)
    } else {
        0
    }
}

/// Where the shelves begin that don't come before this height and order in the chain, by binary search.
fn first_from(
    shelves: &[LinkedShelf],
    by_height: &ShelvesByHeight,
    height: u32,
    in_chain: u32,
) -> Start
    requires { AreInOrder shelves.now by_height.now.items }
    ensures start { IsStart shelves.now by_height.now.items (spec.order_at height in_chain) result.index
        result.probes }
    ensures few { length by_height.now.items < 2 ^ 64 }
{
    let mut start = Start {
        index: 0,
        probes: 0,
    };
    let mut end = by_height.len();
    while start.index < end {
        let middle = start.index + (end - start.index) / 2;
        start.probes += 1;
        if comes_before(shelves, by_height.shelf(middle), height, in_chain) {
            start.index = middle + 1;
        } else {
            end = middle;
        }
    }
    start
}

/// Where the shelves begin that are at least this tall: where they did last time if they still do, else by binary search.
pub fn first_as_tall(shelves: &[LinkedShelf], by_height: &mut ShelvesByHeight, height: u32) -> usize
    requires { AreInOrder shelves.now by_height.old.items }
    ensures within { result ≤ length by_height.old.items }
    ensures before { AllByRecursion (λ one. spec.order_of shelves.now one.shelf < spec.order_at height 0)
        (take result by_height.old.items) }
    ensures after { AllByRecursion (λ one. spec.order_at height 0 ≤ spec.order_of shelves.now one.shelf)
        (drop result by_height.old.items) }
    ensures few { length by_height.old.items < 2 ^ 64 }
    ensures same { by_height.new ≡ by_height.old }
{
    let kept = by_height.kept_start(height);
    if begin_at(shelves, by_height, height, kept) {
        return kept;
    }
    let index = first_from(shelves, by_height, height, 0).index;
    by_height.keep_start(height, index);
    index
}

/// Whether the shelves that are at least this tall begin at a position.
fn begin_at(shelves: &[LinkedShelf], by_height: &ShelvesByHeight, height: u32, index: usize) -> bool
    requires { AreInOrder shelves.now by_height.now.items }
    ensures within { result ≡ true → index ≤ length by_height.now.items }
    ensures before { result ≡ true
        → AllByRecursion (λ one. spec.order_of shelves.now one.shelf < spec.order_at height 0)
        (take index by_height.now.items) }
    ensures after { result ≡ true
        → AllByRecursion (λ one. spec.order_at height 0 ≤ spec.order_of shelves.now one.shelf)
        (drop index by_height.now.items) }
    ensures few { length by_height.now.items < 2 ^ 64 }
{
    if index > by_height.len() {
        return false;
    }
    are_lower_before(shelves, by_height, height, index)
        && are_as_tall_from(shelves, by_height, height, index)
}

/// Whether the shelves before a position are lower than this. The last of them tells.
fn are_lower_before(
    shelves: &[LinkedShelf],
    by_height: &ShelvesByHeight,
    height: u32,
    index: usize,
) -> bool
    requires order { AreInOrder shelves.now by_height.now.items }
    requires within { index ≤ length by_height.now.items }
    ensures { result ≡ true
        → AllByRecursion (λ one. spec.order_of shelves.now one.shelf < spec.order_at height 0)
        (take index by_height.now.items) }
{
    if index == 0 {
        return true;
    }
    comes_before(shelves, by_height.shelf(index - 1), height, 0)
}

/// Whether the shelves from a position on are at least this tall. The first of them tells.
fn are_as_tall_from(
    shelves: &[LinkedShelf],
    by_height: &ShelvesByHeight,
    height: u32,
    index: usize,
) -> bool
    requires order { AreInOrder shelves.now by_height.now.items }
    requires within { index ≤ length by_height.now.items }
    ensures { result ≡ true
        → AllByRecursion (λ one. spec.order_at height 0 ≤ spec.order_of shelves.now one.shelf)
        (drop index by_height.now.items) }
{
    if index == by_height.len() {
        return true;
    }
    !comes_before(shelves, by_height.shelf(index), height, 0)
}

/// Where the shelves begin that don't come before this one.
fn start_of(shelves: &[LinkedShelf], by_height: &ShelvesByHeight, shelf: usize) -> Start
    requires order { AreInOrder shelves.now by_height.now.items }
    requires within { shelf < length shelves.now }
    ensures { IsStart shelves.now by_height.now.items (spec.order_of shelves.now shelf) result.index
        result.probes }
{
    let record = &shelves[shelf];
    let in_chain = chain_order(record.x, record.y);
    first_from(shelves, by_height, u32::from(record.height), in_chain)
}

/// Where the shelves begin that don't come before this one, among all but the one at a position, beside which the search
/// starts.
fn start_beside(
    shelves: &[LinkedShelf],
    by_height: &ShelvesByHeight,
    shelf: usize,
    left_out: usize,
) -> usize
    requires order { AreInOrder shelves.now (remove by_height.now.items left_out) }
    requires left_out { left_out < length by_height.now.items }
    requires within { shelf < length shelves.now }
    ensures within { result ≤ length (remove by_height.now.items left_out) }
    ensures before { AllByRecursion (λ one. spec.order_of shelves.now one.shelf < spec.order_of shelves.now shelf)
        (take result (remove by_height.now.items left_out)) }
    ensures after { AllByRecursion (λ one. spec.order_of shelves.now shelf ≤ spec.order_of shelves.now one.shelf)
        (drop result (remove by_height.now.items left_out)) }
{
    let record = &shelves[shelf];
    let height = u32::from(record.height);
    let in_chain = chain_order(record.x, record.y);
    let mut between = between_beside(shelves, by_height, left_out, height, in_chain);
    while between.from < between.end {
        let middle = between.from + (between.end - between.from) / 2;
        let beside = shelf_beside(by_height, left_out, middle);
        if comes_before(shelves, beside, height, in_chain) {
            between.from = middle + 1;
        } else {
            between.end = middle;
        }
    }
    between.from
}

/// Between which positions those begin that don't come before a height and order in the chain, among all but the one at
/// a position.
/// What stands beside that tells: most shelves stay where they are.
fn between_beside(
    shelves: &[LinkedShelf],
    by_height: &ShelvesByHeight,
    left_out: usize,
    height: u32,
    in_chain: u32,
) -> Between
    requires order { AreInOrder shelves.now (remove by_height.now.items left_out) }
    requires left_out { left_out < length by_height.now.items }
    ensures few { length by_height.now.items < 2 ^ 64 }
    ensures bounds { result.from ≤ result.end }
    ensures within { result.end ≤ length (remove by_height.now.items left_out) }
    ensures before { AllByRecursion (λ one. spec.order_of shelves.now one.shelf < spec.order_at height in_chain)
        (take result.from (remove by_height.now.items left_out)) }
    ensures after { AllByRecursion (λ one. spec.order_at height in_chain ≤ spec.order_of shelves.now one.shelf)
        (drop result.end (remove by_height.now.items left_out)) }
{
    let end = by_height.len() - 1;
    if left_out < end {
        let behind = shelf_beside(by_height, left_out, left_out);
        if comes_before(shelves, behind, height, in_chain) {
            return Between {
                from: left_out + 1,
                end,
            };
        }
    }
    if left_out == 0 {
        return Between { from: 0, end: 0 };
    }
    let front = shelf_beside(by_height, left_out, left_out - 1);
    if comes_before(shelves, front, height, in_chain) {
        return Between {
            from: left_out,
            end: left_out,
        };
    }
    Between {
        from: 0,
        end: left_out - 1,
    }
}

/// Where the shelves begin that don't come before this one, by a search that starts near a position. Never inlined, so that
/// what splits no shelf doesn't carry it.
#[inline(never)]
fn start_near(
    shelves: &[LinkedShelf],
    by_height: &ShelvesByHeight,
    shelf: usize,
    near: usize,
) -> usize
    requires order { AreInOrder shelves.now by_height.now.items }
    requires within { shelf < length shelves.now }
    ensures within { result ≤ length by_height.now.items }
    ensures before { AllByRecursion (λ one. spec.order_of shelves.now one.shelf < spec.order_of shelves.now shelf)
        (take result by_height.now.items) }
    ensures after { AllByRecursion (λ one. spec.order_of shelves.now shelf ≤ spec.order_of shelves.now one.shelf)
        (drop result by_height.now.items) }
{
    let record = &shelves[shelf];
    let height = u32::from(record.height);
    let in_chain = chain_order(record.x, record.y);
    let mut from = 0;
    let mut end = by_height.len();
    while from < end {
        let middle = probed_near(near, from, end);
        if comes_before(shelves, by_height.shelf(middle), height, in_chain) {
            from = middle + 1;
        } else {
            end = middle;
        }
    }
    from
}

/// Where to look next between two positions: at this one or the one before it while they are among those in question,
/// since most shelves stay where they are, and else in the middle.
fn probed_near(near: usize, from: usize, end: usize) -> usize
    requires { from < end }
    ensures from { from ≤ result }
    ensures end { result < end }
{
    if from <= near && near < end {
        near
    } else if near == end {
        end - 1
    } else {
        from + (end - from) / 2
    }
}

/// The number of the shelf at a position among all but the one at another.
fn shelf_beside(by_height: &ShelvesByHeight, left_out: usize, index: usize) -> usize
    requires left_out { left_out < length by_height.now.items }
    requires index { index < length (remove by_height.now.items left_out) }
    requires few { length by_height.now.items < 2 ^ 64 }
    ensures { result ≡ (spec.bounded_at (remove by_height.now.items left_out) index).shelf }
{
    if index < left_out {
        by_height.shelf(index)
    } else {
        by_height.shelf(index + 1)
    }
}

/// Where a shelf stands: where it did last time if it still does, else beside that or by binary search.
pub fn position_of(shelves: &[LinkedShelf], by_height: &mut ShelvesByHeight, shelf: usize) -> usize
    requires order { AreInOrder shelves.now by_height.old.items }
    requires stands { 1 ≤ times shelf (spec.numbers_by_height by_height.old.items) }
    ensures within { result < length by_height.old.items }
    ensures shelf { (spec.bounded_at by_height.old.items result).shelf ≡ shelf }
    ensures same { by_height.new ≡ by_height.old }
{
    if let Some(index) = by_height.kept_position(shelf) {
        return index;
    }
    position_beside(shelves, by_height, shelf)
}

/// Where a shelf stands that isn't where it stood last time: beside that, else by binary search. The position is kept.
/// Never inlined, so that `position_of` is small enough to be.
#[inline(never)]
fn position_beside(shelves: &[LinkedShelf], by_height: &mut ShelvesByHeight, shelf: usize) -> usize
    requires order { AreInOrder shelves.now by_height.old.items }
    requires stands { 1 ≤ times shelf (spec.numbers_by_height by_height.old.items) }
    ensures within { result < length by_height.old.items }
    ensures shelf { (spec.bounded_at by_height.old.items result).shelf ≡ shelf }
    ensures same { by_height.new ≡ by_height.old }
{
    if let Some(index) = by_height.beside_kept(shelf) {
        by_height.keep_position(shelf, index);
        return index;
    }
    position_by_halves(shelves, by_height, shelf)
}

/// Where a shelf stands, found by binary search; the position is kept. Never inlined, so that a look beside the kept
/// position stays short.
#[inline(never)]
fn position_by_halves(
    shelves: &[LinkedShelf],
    by_height: &mut ShelvesByHeight,
    shelf: usize,
) -> usize
    requires order { AreInOrder shelves.now by_height.old.items }
    requires stands { 1 ≤ times shelf (spec.numbers_by_height by_height.old.items) }
    ensures within { result < length by_height.old.items }
    ensures shelf { (spec.bounded_at by_height.old.items result).shelf ≡ shelf }
    ensures same { by_height.new ≡ by_height.old }
{
    let index = start_of(shelves, by_height, shelf).index;
    by_height.keep_sought(shelf, index);
    index
}

/// Takes a shelf out, and gives its bound.
pub fn take_out(shelves: &[LinkedShelf], by_height: &mut ShelvesByHeight, shelf: usize) -> u16
    requires order { AreInOrder shelves.now by_height.old.items }
    requires stands { 1 ≤ times shelf (spec.numbers_by_height by_height.old.items) }
    ensures by_height { by_height.new.items ≡ spec.taken_out shelf by_height.old.items }
    ensures bound { result ≡ spec.bound_of shelf by_height.old.items }
    ensures capacity { by_height.new.capacity ≡ by_height.old.capacity }
    ensures len { length by_height.new.items + 1 ≡ length by_height.old.items }
    ensures room { length by_height.new.items < by_height.new.capacity }
{
    let index = position_of(shelves, by_height, shelf);
    by_height.remove(index).widest
}

/// Puts a shelf in where it stands in the order, for which there is room. It is looked for first right behind a position:
/// what is left of a shelf mostly stands where that stood.
pub fn put_in(
    shelves: &[LinkedShelf],
    by_height: &mut ShelvesByHeight,
    one: BoundedShelf,
    behind: usize,
)
    requires order { AreInOrder shelves.now by_height.old.items }
    requires within { one.shelf < length shelves.now }
    requires room { length by_height.old.items < by_height.old.capacity }
    ensures by_height { by_height.new.items ≡ spec.put_in shelves.now one by_height.old.items }
    ensures capacity { by_height.old.capacity ≤ by_height.new.capacity }
    ensures len { length by_height.new.items ≡ length by_height.old.items + 1 }
{
    let shelf = usize::from(one.shelf);
    let index = start_near(shelves, by_height, shelf, behind.wrapping_add(1));
    by_height.insert(index, one);
    by_height.keep_position(shelf, index);
}

/// Puts a shelf in place of the one at this position, and moves it to where it stands in the order by the records as they
/// are now. It may be the shelf that stood there, whose height or bound has changed. Its position is kept.
pub fn settle(
    shelves: &[LinkedShelf],
    by_height: &mut ShelvesByHeight,
    settled: BoundedShelf,
    index: usize,
)
    requires index { index < length by_height.old.items }
    requires once { times (spec.bounded_at by_height.old.items index).shelf
        (spec.numbers_by_height by_height.old.items) ≤ 1 }
    requires order { AreInOrder shelves.now
        (spec.taken_out (spec.bounded_at by_height.old.items index).shelf by_height.old.items) }
    requires within { settled.shelf < length shelves.now }
    ensures by_height { by_height.new.items ≡ spec.put_in shelves.now settled
        (spec.taken_out (spec.bounded_at by_height.old.items index).shelf by_height.old.items) }
    ensures capacity { by_height.new.capacity ≡ by_height.old.capacity }
{
    by_height.set(index, settled);
    let shelf = usize::from(settled.shelf);
    let to = start_beside(shelves, by_height, shelf, index);
    if to != index {
        move_to(by_height, shelf, index, to);
    } else {
        by_height.keep_position(shelf, index);
    }
}

/// Moves the shelf at one position to another one, and keeps that. Never inlined, so that a shelf that stays costs no call.
#[inline(never)]
fn move_to(by_height: &mut ShelvesByHeight, shelf: usize, from: usize, to: usize)
    requires from { from < length by_height.old.items }
    requires to { to < length by_height.old.items }
    ensures items { by_height.new.items
        ≡ insert (remove by_height.old.items from) to (spec.bounded_at by_height.old.items from) }
    ensures capacity { by_height.new.capacity ≡ by_height.old.capacity }
{
    by_height.shift(from, to);
    by_height.keep_position(shelf, to);
}

/// Raises the bound of a shelf to this width, where it is less, and gives what it was.
pub fn raise(
    shelves: &[LinkedShelf],
    by_height: &mut ShelvesByHeight,
    shelf: usize,
    width: u16,
) -> u16
    requires order { AreInOrder shelves.now by_height.old.items }
    requires stands { 1 ≤ times shelf (spec.numbers_by_height by_height.old.items) }
    ensures by_height { by_height.new.items ≡ spec.raised shelf width by_height.old.items }
    ensures bound { result ≡ spec.bound_of shelf by_height.old.items }
    ensures capacity { by_height.old.capacity ≤ by_height.new.capacity }
{
    let index = position_of(shelves, by_height, shelf);
    raise_at(by_height, index, width)
}

/// The same where it is known at once where the shelf stands, and says whether it is.
pub fn raise_if_known(
    shelves: &[LinkedShelf],
    by_height: &mut ShelvesByHeight,
    shelf: usize,
    width: u16,
) -> bool
    requires order { AreInOrder shelves.now by_height.old.items }
    ensures raised { IsTrue result → by_height.new.items ≡ spec.raised shelf width by_height.old.items }
    ensures same { IsFalse result → by_height.new ≡ by_height.old }
    ensures capacity { by_height.old.capacity ≤ by_height.new.capacity }
{
    let Some(index) = known_position(by_height, shelf) else {
        return false;
    };
    raise_at(by_height, index, width);
    true
}

/// Where a shelf stands, if that is where it did last time, or beside that.
#[inline(always)]
fn known_position(by_height: &ShelvesByHeight, shelf: usize) -> Option<usize>
    ensures { IfSome result (λ index. (index < length by_height.now.items)
        × ((spec.bounded_at by_height.now.items index).shelf ≡ shelf)) }
{
    match by_height.kept_position(shelf) {
        Some(index) => Some(index),
        None => by_height.beside_kept(shelf),
    }
}

/// Raises the bound of the shelf at this position to this width, where it is less, and gives what it was.
fn raise_at(by_height: &mut ShelvesByHeight, index: usize, width: u16) -> u16
    requires index { index < length by_height.old.items }
    requires once { times (spec.bounded_at by_height.old.items index).shelf
        (spec.numbers_by_height by_height.old.items) ≤ 1 }
    ensures by_height { by_height.new.items
        ≡ spec.raised (spec.bounded_at by_height.old.items index).shelf width by_height.old.items }
    ensures bound { result
        ≡ spec.bound_of (spec.bounded_at by_height.old.items index).shelf by_height.old.items }
    ensures capacity { by_height.old.capacity ≤ by_height.new.capacity }
{
    let mut one = by_height.get(index);
    let bound = one.widest;
    if bound < width {
        one.widest = width;
        by_height.set(index, one);
    }
    bound
}

/// Gives a shelf another bound. Never inlined, so that what takes an item beside wider ones is short.
#[inline(never)]
pub fn rebound(shelves: &[LinkedShelf], by_height: &mut ShelvesByHeight, shelf: usize, width: u16)
    requires order { AreInOrder shelves.now by_height.old.items }
    requires stands { 1 ≤ times shelf (spec.numbers_by_height by_height.old.items) }
    ensures by_height { by_height.new.items ≡ spec.rebounded shelf width by_height.old.items }
    ensures capacity { by_height.old.capacity ≤ by_height.new.capacity }
{
    let position = position_of(shelves, by_height, shelf);
    let mut one = by_height.get(position);
    one.widest = width;
    by_height.set(position, one);
}
