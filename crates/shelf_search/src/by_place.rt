//! A search through all shelves in the order of their places, or a look at the first ones: of shelves nothing need be known
//! but their records.
//!
//! Definitions: `Searching`. A free list is gone through only where its shelf would rank lower than what was found, and the
//! first shelf ends the search that has room and than which none ranks lower. It is given up where it would go through more
//! free items than it may.

ghost use Rattle.std.specs.Prelude.{◌≡◌, ℕ, true, ◌≤◌, ◌*◌, ◌+◌, ◌<◌, IfSome, None, Option, length};
ghost use Rattle.etagere_base.specs.Frames.{longest_side};
ghost use Rattle.etagere_base.specs.Lists.{times};
ghost use Rattle.etagere_links.specs.Edits.{link_at};
ghost use Rattle.etagere_links.specs.Links.{no_link};
ghost use Rattle.shelf_records.specs.RecordLists.{IsLinked, shelf_walk, walked_lists};
ghost use Rattle.shelf_model.specs.Choice.{bad_fit_rank};
ghost use Rattle.shelf_records.specs.Records.{shelf_chain};
ghost use Rattle.shelf_search.specs.Private.Opening as opening;
ghost use Rattle.shelf_search.specs.Private.Searching as searching;
ghost use Rattle.shelf_search.specs.declared.by_place.Looked.TheVariants.{Unknown};
ghost use Rattle.shelf_search.specs.declared.by_place.Walked.TheVariants.{NotThrough};
ghost use Rattle.shelf_search.specs.declared.choosing.Candidate.{Candidate};

use crate::choosing::{BAD_FIT_RANK, Candidate, NO_NUMBER, Searched, rank_of};
use etagere_links::Link;
use shelf_records::{LinkedShelf, Records};

/// A search for bad fits goes through no more free items.
const WALKED_ITEMS: u32 = 64;

/// Nor does a search that is made in place of sorting many shelves.
const MANY_ITEMS: u32 = 16384;

/// What going through all shelves came to.
#[derive(Clone, Copy)]
pub enum Walked {
    /// What the first shelf of least rank offers.
    Through(Option<Candidate>),
    /// Not all were gone through.
    NotThrough,
}

/// What a look at a shelf came to.
enum Looked {
    /// What it offers, which ranks lower than what was found.
    Lower(Candidate),
    /// That it offers nothing that does.
    NotLower,
    /// Nothing, since too many items would be gone through.
    Unknown,
}

/// Goes through all shelves for the first of least rank, where none that has room ranks below the least rank, and through
/// no more than so many items of their free lists. Counts those that it passed.
#[inline(always)]
pub fn walk_shelves(
    records: &Records,
    width: u32,
    height: u32,
    least: u32,
    most: u32,
    passed: &mut usize,
) -> Walked
    requires linked { IsLinked records.now (walked_lists records.now) }
    requires short { height ≤ longest_side }
    requires least { searching.RanksFrom records.now width height least }
    ensures through { searching.IsThrough records.now width height result }
    ensures long { result ≡ NotThrough → most < length records.now.shelves * length records.now.items }
{
    let mut best = None;
    let mut limit = u32::MAX;
    let mut left = most;
    let mut shelf = usize::from(records.first_shelf().bits());
    while shelf < NO_NUMBER {
        *passed = passed.wrapping_add(1);
        let next = usize::from(next_link(records.shelves(), shelf).bits());
        match look_at(records, width, height, shelf, limit, &mut left) {
            Looked::Lower(candidate) => {
                if candidate.rank <= least {
                    return Walked::Through(Some(candidate));
                }
                limit = candidate.rank;
                best = Some(candidate);
                shelf = next;
            }
            Looked::NotLower => {
                // A way back of its own, so that a shelf that is passed costs no copies of what was found.
                shelf = next;
                continue;
            }
            Looked::Unknown => return Walked::NotThrough,
        }
    }
    Walked::Through(best)
}

/// What the first shelf of least rank offers. Never inlined, since it is rarely asked for.
#[inline(never)]
pub(crate) fn first_of_least_rank(records: &Records, width: u32, height: u32) -> Option<Candidate>
    requires linked { IsLinked records.now (walked_lists records.now) }
    requires few { (length records.now.shelves ≤ no_link) × (length records.now.items ≤ no_link) }
    requires short { height ≤ longest_side }
    ensures { result ≡ searching.best_candidate records.now width height }
{
    match walk_shelves(records, width, height, height, u32::MAX, &mut 0) {
        Walked::Through(best) => best,
        Walked::NotThrough => None,
    }
}

/// What the first shelf with room offers, where none is a good fit. Never inlined, since it is rarely asked for.
#[inline(never)]
pub(crate) fn walk_bad_fits(records: &Records, width: u32, height: u32) -> Walked
    requires linked { IsLinked records.now (walked_lists records.now) }
    requires short { height ≤ longest_side }
    requires bad { searching.RanksFrom records.now width height bad_fit_rank }
    ensures through { searching.IsThrough records.now width height result }
{
    walk_shelves(records, width, height, BAD_FIT_RANK, WALKED_ITEMS, &mut 0)
}

/// Goes through all shelves, although they are many, and counts those that it passed. Never inlined, since few searches do it.
#[inline(never)]
pub fn walk_many(records: &Records, width: u32, height: u32, passed: &mut usize) -> Walked
    requires linked { IsLinked records.now (walked_lists records.now) }
    requires short { height ≤ longest_side }
    ensures through { searching.IsThrough records.now width height result }
{
    walk_shelves(records, width, height, height, MANY_ITEMS, passed)
}

/// Goes through so many first shelves, up to one of just the height that has room: none ranks lower. It is given up where
/// that would go through more free items. Always inlined: it mostly ends at one of the first, and a call took as much.
#[inline(always)]
pub fn look_at_first(records: &Records, width: u32, height: u32, most: u32) -> Walked
    requires linked { IsLinked records.now (walked_lists records.now) }
    requires short { height ≤ longest_side }
    ensures through { searching.IsThrough records.now width height result }
{
    let limit = height + 1;
    let mut left = most;
    let mut shelf = usize::from(records.first_shelf().bits());
    for _step in 0..most {
        if shelf >= NO_NUMBER {
            break;
        }
        let next = usize::from(next_link(records.shelves(), shelf).bits());
        match look_at(records, width, height, shelf, limit, &mut left) {
            Looked::Lower(candidate) => {
                if candidate.rank <= height {
                    return Walked::Through(Some(candidate));
                }
            }
            Looked::NotLower => {}
            Looked::Unknown => break,
        }
        shelf = next;
    }
    Walked::NotThrough
}

/// What a shelf offers, where it ranks below the limit, which is the rank of what was found. Of its free list no more items
/// are gone through than are left to be.
fn look_at(
    records: &Records,
    width: u32,
    height: u32,
    shelf: usize,
    limit: u32,
    left: &mut u32,
) -> Looked
    requires linked { IsLinked records.now (walked_lists records.now) }
    requires stands { 1 ≤ times shelf (shelf_walk records.now).met }
    requires within { shelf < length records.now.shelves }
    requires short { height ≤ longest_side }
    ensures looked { (best : Option Candidate) → searching.limit_of best ≡ limit
        → searching.IsLooked best (searching.offered records.now width height shelf) result }
    ensures few { left.old ≤ left.new + length records.now.items }
    ensures long { result ≡ Unknown → left.old < length records.now.items }
{
    if is_full(records, shelf) {
        return Looked::NotLower;
    }
    let own = u32::from(records.shelves()[shelf].height);
    if own < height || limit <= own {
        return Looked::NotLower;
    }
    if limit <= BAD_FIT_RANK && is_bad_fit(records, height, shelf) {
        return Looked::NotLower;
    }
    let rank = rank_of(records, height, shelf);
    if limit <= rank {
        return Looked::NotLower;
    }
    match search_within(records, width, shelf, left) {
        Some(Searched::Found(item)) => Looked::Lower(Candidate { shelf, item, rank }),
        Some(Searched::Widest(_)) => Looked::NotLower,
        None => Looked::Unknown,
    }
}

/// Whether a shelf is in use and too tall for a good fit. Tested by branches, since many of those that are passed are.
fn is_bad_fit(records: &Records, height: u32, shelf: usize) -> bool
    requires within { shelf < length records.now.shelves }
    requires short { height ≤ longest_side }
    ensures { result ≡ true → searching.rank_of records.now.shelves height shelf ≡ bad_fit_rank }
{
    let record = &records.shelves()[shelf];
    !record.is_empty && u32::from(record.height) > height + height / 2
}

/// Whether no item of a shelf is free: then it offers nothing.
fn is_full(records: &Records, shelf: usize) -> bool
    requires linked { IsLinked records.now (walked_lists records.now) }
    requires stands { 1 ≤ times shelf (shelf_walk records.now).met }
    requires within { shelf < length records.now.shelves }
    ensures { result ≡ true → (width height : ℕ)
        → searching.offered records.now width height shelf ≡ None }
{
    usize::from(records.shelves()[shelf].first_unallocated.bits()) == NO_NUMBER
}

/// The first item of a shelf's free list that is wide enough, or the width of the widest; none where that takes more items
/// than are left to be gone through.
fn search_within(records: &Records, width: u32, shelf: usize, left: &mut u32) -> Option<Searched>
    requires linked { IsLinked records.now (walked_lists records.now) }
    requires stands { 1 ≤ times shelf (shelf_walk records.now).met }
    requires within { shelf < length records.now.shelves }
    ensures known { IfSome result (λ searched. searched ≡ opening.searched records.now width shelf) }
    ensures few { left.old ≤ left.new + length records.now.items }
    ensures long { result ≡ None → left.old < length records.now.items }
{
    let items = records.items();
    let mut number = usize::from(records.shelves()[shelf].first_unallocated.bits());
    let mut widest = 0_u32;
    while number < NO_NUMBER {
        if *left == 0 {
            return None;
        }
        *left -= 1;
        let item = &items[number];
        let own = u32::from(item.width);
        if own >= width {
            return Some(Searched::Found(number));
        }
        widest = widest.max(own);
        number = usize::from(item.next_unallocated.bits());
    }
    Some(Searched::Widest(widest as u16))
}

/// The link to the shelf after one that is there.
fn next_link(shelves: &[LinkedShelf], shelf: usize) -> Link
    requires { shelf < length shelves.now }
    ensures { result ≡ link_at shelf_chain.next shelves.now shelf }
{
    shelves[shelf].next
}
