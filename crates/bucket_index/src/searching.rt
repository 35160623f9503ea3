//! Which bucket gives an item: the first with room of the shelf that wastes the least height.
//!
//! Definitions: `Searching`, and `Picking` for what it means. No bucket is looked at of a shelf that one
//! comparison tells has none that is wanted.

ghost use Rattle.std.specs.Prelude.{◌≡◌, ◌+◌, ◌^◌, ◌<◌, ◌≤◌, IfSome, IsTrue, None, length, map, max, min, take, drop, true};
ghost use Rattle.etagere_base.specs.Least.{first_least};
ghost use Rattle.etagere_links.specs.Links.{no_link};
ghost use Rattle.bucketed_model.specs.Picking.{or_else};
ghost use Rattle.bucketed_model.specs.State.{most_buckets};
ghost use Rattle.bucket_index.specs.Private.Blocks.{AreKnown, IsStep};
ghost use Rattle.bucket_index.specs.Private.Heights.{AreBelow};
ghost use Rattle.bucket_index.specs.Private.Missed.{AreWithoutBefore, AreWithoutBut, IsMissed};
ghost use Rattle.bucket_index.specs.Private.Rest.{IsRest};
ghost use Rattle.bucket_index.specs.Private.Rooms.{AreCounted};
ghost use Rattle.bucket_index.specs.Private.Searching as spec;
ghost use Rattle.bucket_index.specs.Private.Spans.{AreSpans};

use crate::blocks::Blocks;
use crate::heights::Heights;
use crate::missed::{Missed, NEAR_END, NO_SHELF, is_short};
use crate::rest::Rest;
use crate::rooms::Rooms;
use crate::spans::Spans;
use bucketed_records::records::{KeptShelf, LinkedBucket, MOST_BUCKETS, MOST_GIVEN, record_room};
use etagere_base::Sides;
use etagere_links::Link;
use std::marker::Model;

/// What a search requires of a bucket.
#[derive(Clone, Copy)]
pub enum Wanted {
    /// At least this width is free, and another item can be given.
    Roomy(u32),
    /// Just this width is free, and another item can be given.
    Exact(u32),
    /// At least this width is free, whether or not another item can be given.
    Wide(u32),
}

/// A bucket that was found: its number, and that of its shelf.
#[derive(Clone, Copy)]
pub struct FoundBucket {
    pub shelf: usize,
    pub bucket: usize,
}

/// A shelf that was found: its number, and the height that it wastes.
#[derive(Clone, Copy)]
pub struct FoundShelf {
    pub number: usize,
    pub rank: u32,
}

impl Model for FoundShelf {
    ghost use Rattle.etagere_base.specs.Least.{Found};

    ghost Value = { Found };

    ghost view = { λ least. record { number = least.number; rank = least.rank } };

    ghost inverse = { λ least. record { number = least.number; rank = least.rank } };
}

fn is_wanted(wanted: Wanted, bucket: &LinkedBucket) -> bool
    ensures { result ≡ spec.is_wanted wanted bucket.now }
{
    let free = u32::from(bucket.free_space);
    if free < needed_room(wanted) {
        return false;
    }
    let can_give = bucket.item_count < MOST_GIVEN;
    match wanted {
        Wanted::Roomy(_) => can_give,
        Wanted::Exact(width) => can_give && free == width,
        Wanted::Wide(width) => width <= free,
    }
}

/// The room that a bucket needs to be wanted.
fn needed_room(wanted: Wanted) -> u32
    ensures { result ≡ spec.needed_room wanted }
{
    match wanted {
        Wanted::Roomy(width) | Wanted::Exact(width) => width,
        Wanted::Wide(_) => 0,
    }
}

/// The number of the first bucket that is wanted, by the links from this one on.
#[inline(always)]
pub fn first_wanted(
    wanted: Wanted,
    buckets: &[LinkedBucket],
    spans: &Spans,
    first: Link,
) -> Option<usize>
    requires { AreSpans spans.now buckets.now }
    ensures number { result ≡ spec.first_from most_buckets wanted buckets.now first }
    ensures within { IfSome result (λ number. number < length buckets.now) }
{
    if spans.are_learned && spans.knows(first) {
        return first_by_spans(wanted, buckets, spans, first);
    }
    first_by_links(wanted, buckets, first)
}

/// The number of the first bucket with room for this width, by the links from this one on. None is looked for where it is
/// known which can have it.
#[inline(always)]
fn first_roomy(
    width: u32,
    buckets: &[LinkedBucket],
    spans: &Spans,
    rest: &Rest,
    first: Link,
) -> Option<usize>
    requires spans { AreSpans spans.now buckets.now }
    requires rest { IsRest rest.now buckets.now }
    ensures number { result
        ≡ spec.first_from most_buckets (spec.Roomy width) buckets.now first }
    ensures within { IfSome result (λ number. number < length buckets.now) }
{
    match rest.first_roomy(buckets, first, width) {
        Some(number) => Some(number),
        None => first_wanted(Wanted::Roomy(width), buckets, spans, first),
    }
}

/// The number behind those of the records that links can name. The bits of a link to one of these are below it, and those
/// of any other link are not.
fn end_of_linked(buckets: &[LinkedBucket]) -> usize
    ensures { result ≡ min (length buckets.now) no_link }
{
    buckets.len().min(usize::from(u16::MAX))
}

/// The same, link by link.
fn first_by_links(wanted: Wanted, buckets: &[LinkedBucket], first: Link) -> Option<usize>
    ensures number { result ≡ spec.first_from most_buckets wanted buckets.now first }
    ensures within { IfSome result (λ number. number < length buckets.now) }
{
    first_within(MOST_BUCKETS, wanted, buckets, first)
}

/// The same among so many buckets.
#[inline(always)]
pub(crate) fn first_within(
    most: u32,
    wanted: Wanted,
    buckets: &[LinkedBucket],
    first: Link,
) -> Option<usize>
    ensures number { result ≡ spec.first_from most wanted buckets.now first }
    ensures within { IfSome result (λ number. number < length buckets.now) }
{
    let end = end_of_linked(buckets);
    let mut at = first;
    for _step in 0..most {
        let number = usize::from(at.bits());
        if number >= end {
            return None;
        }
        let bucket = &buckets[number];
        if is_wanted(wanted, bucket) {
            return Some(number);
        }
        at = bucket.next;
    }
    None
}

/// The same, by spans where none of their buckets has the room.
#[inline(never)]
fn first_by_spans(
    wanted: Wanted,
    buckets: &[LinkedBucket],
    spans: &Spans,
    first: Link,
) -> Option<usize>
    requires { AreSpans spans.now buckets.now }
    ensures number { result ≡ spec.first_from most_buckets wanted buckets.now first }
    ensures within { IfSome result (λ number. number < length buckets.now) }
{
    let needed = needed_room(wanted);
    let end = end_of_linked(buckets);
    let mut at = first;
    let mut left = MOST_BUCKETS;
    while 0 < left {
        let number = usize::from(at.bits());
        if number >= end {
            return None;
        }
        let bucket = &buckets[number];
        if is_wanted(wanted, bucket) {
            return Some(number);
        }
        let ahead = spans.ahead(at, left, needed);
        if ahead.left == left {
            at = bucket.next;
            left -= 1;
        } else {
            at = ahead.at;
            left = ahead.left;
        }
    }
    None
}

/// The greatest width that a bucket can give to one item, by the links from this one on, where none can give more
/// than this one.
pub fn widest_room(buckets: &[LinkedBucket], spans: &Spans, first: Link, most: u16) -> u16
    requires spans { AreSpans spans.now buckets.now }
    requires most { spec.widest_from most_buckets buckets.now first ≤ most }
    ensures { result ≡ spec.widest_from most_buckets buckets.now first }
{
    if spans.knows(first) {
        return widest_by_spans(buckets, spans, first, most);
    }
    widest_by_links(buckets, first, most)
}

/// The same, link by link.
fn widest_by_links(buckets: &[LinkedBucket], first: Link, most: u16) -> u16
    requires most { spec.widest_from most_buckets buckets.now first ≤ most }
    ensures { result ≡ spec.widest_from most_buckets buckets.now first }
{
    let end = end_of_linked(buckets);
    let mut widest = 0;
    let mut at = first;
    for _step in 0..MOST_BUCKETS {
        let number = usize::from(at.bits());
        if number >= end {
            break;
        }
        let bucket = &buckets[number];
        widest = record_room(bucket).max(widest);
        if widest == most {
            break;
        }
        at = bucket.next;
    }
    widest
}

/// The same by spans: most often a bucket has the most, or as much as the spans may have.
#[inline(never)]
fn widest_by_spans(buckets: &[LinkedBucket], spans: &Spans, first: Link, most: u16) -> u16
    requires spans { AreSpans spans.now buckets.now }
    requires most { spec.widest_from most_buckets buckets.now first ≤ most }
    ensures { result ≡ spec.widest_from most_buckets buckets.now first }
{
    let least = most.saturating_sub(1);
    let widest = widest_above(least, buckets, spans, first, most);
    if least < widest {
        return widest;
    }
    let bound = spans.widest_bound(first).unwrap_or(least).min(least);
    let least = bound.saturating_sub(1);
    let widest = widest_above(least, buckets, spans, first, bound);
    if least < widest {
        return widest;
    }
    widest_above(0, buckets, spans, first, bound)
}

/// The same, or this width where it is greater. Spans are passed over where none of their buckets has more room than was
/// found so far.
fn widest_above(least: u16, buckets: &[LinkedBucket], spans: &Spans, first: Link, most: u16) -> u16
    requires spans { AreSpans spans.now buckets.now }
    requires least { least ≤ most }
    requires most { spec.widest_from most_buckets buckets.now first ≤ most }
    ensures { result ≡ max least (spec.widest_from most_buckets buckets.now first) }
{
    let mut widest = least;
    let mut at = first;
    let mut left = MOST_BUCKETS;
    for _step in 0..MOST_BUCKETS {
        if most <= widest {
            break;
        }
        let ahead = spans.ahead(at, left, u32::from(widest) + 1);
        if ahead.left == 0 {
            break;
        }
        let Some(number) = ahead.at.number() else {
            break;
        };
        if number >= buckets.len() {
            break;
        }
        let bucket = &buckets[number];
        widest = widest.max(record_room(bucket));
        at = bucket.next;
        left = ahead.left - 1;
    }
    widest
}

/// How many buckets `has_room` looks at.
const FEW_BUCKETS: u32 = 4;

/// Whether one of the next few buckets can give this width to one item, by the links from this one on.
pub fn has_room(room: u16, buckets: &[LinkedBucket], first: Link) -> bool
    ensures { IsTrue result → room ≤ spec.widest_from most_buckets buckets.now first }
{
    has_room_within(FEW_BUCKETS, room, buckets, first)
}

/// Whether any of the buckets can, by the links from this one on.
#[inline(never)]
pub fn has_room_further(room: u16, buckets: &[LinkedBucket], first: Link) -> bool
    ensures { IsTrue result → room ≤ spec.widest_from most_buckets buckets.now first }
{
    has_room_within(MOST_BUCKETS, room, buckets, first)
}

/// Whether one of so many buckets can, by the links from this one on.
#[inline(always)]
fn has_room_within(most: u32, room: u16, buckets: &[LinkedBucket], first: Link) -> bool
    requires { most ≤ most_buckets }
    ensures { IsTrue result → room ≤ spec.widest_from most_buckets buckets.now first }
{
    let end = end_of_linked(buckets);
    let mut at = first;
    for _step in 0..most {
        let number = usize::from(at.bits());
        if number >= end {
            return false;
        }
        let bucket = &buckets[number];
        if room <= record_room(bucket) {
            return true;
        }
        at = bucket.next;
    }
    false
}

/// The height that a shelf wastes where it has room and that is below a limit.
pub(crate) fn waste_below(limit: u32, sides: &Sides, kept: &KeptShelf) -> Option<u32>
    ensures value { result ≡ spec.waste_below limit sides.now kept.now }
    ensures small { kept.now.shelf.height < 2 ^ 16 }
{
    // A shelf that is too low wastes more than any limit.
    let waste = u64::from(kept.shelf.height).wrapping_sub(u64::from(sides.across));
    if u64::from(limit) <= waste {
        return None;
    }
    if u32::from(kept.widest_room) < sides.along
        || u32::from(kept.shelf.bucket_width) < sides.along
    {
        return None;
    }
    Some(waste as u32)
}

/// A shelf has to waste less height than this to be chosen, where this was found before it.
pub(crate) fn limit_beside(adds: bool, sides: &Sides, best: &Option<FoundShelf>) -> u32
    ensures { result ≡ spec.limit_beside adds sides.now best.now }
{
    let limit = if adds {
        sides.across.saturating_add(1)
    } else {
        u32::MAX
    };
    match best {
        Some(least) => least.rank.min(limit),
        None => limit,
    }
}

/// The shelf that wastes the least height, the first of such. The first shelf ends the search that wastes so little that
/// none can waste less.
fn least_waste(
    adds: bool,
    sides: &Sides,
    shelves: &[KeptShelf],
    blocks: &Blocks,
    heights: &Heights,
    missed: &mut Missed,
) -> Option<FoundShelf>
    requires across { 0 < sides.now.across }
    requires known { AreKnown blocks.now shelves.now }
    requires below { AreBelow heights.now shelves.now }
    requires missed { IsMissed missed.old shelves.now }
    ensures least { result ≡ first_least (map (spec.kept_waste adds sides.now) shelves.now) }
    ensures within { IfSome result (λ least. least.number < length shelves.now) }
    ensures missed { IsMissed missed.new shelves.now }
{
    if blocks.are_counted {
        return least_unless_missed(adds, sides, shelves, blocks, heights, missed);
    }
    least_in(adds, sides, shelves, blocks.step(), 0, shelves.len(), None)
}

/// The same, where few shelves are looked at if it is known that the others have no place, and it is learned where none has.
#[inline(always)]
fn least_unless_missed(
    adds: bool,
    sides: &Sides,
    shelves: &[KeptShelf],
    blocks: &Blocks,
    heights: &Heights,
    missed: &mut Missed,
) -> Option<FoundShelf>
    requires across { 0 < sides.now.across }
    requires counted { blocks.now.are_counted ≡ true }
    requires known { AreKnown blocks.now shelves.now }
    requires below { AreBelow heights.now shelves.now }
    requires missed { IsMissed missed.old shelves.now }
    ensures least { result ≡ first_least (map (spec.kept_waste adds sides.now) shelves.now) }
    ensures within { IfSome result (λ least. least.number < length shelves.now) }
    ensures missed { IsMissed missed.new shelves.now }
{
    if missed.covers(adds, sides) {
        return least_where_missed(adds, sides, shelves, blocks, missed);
    }
    let best = least_by_blocks(adds, sides, shelves, blocks, heights, shelves.len());
    if best.is_none() {
        missed.learn(adds, sides, shelves, NO_SHELF);
    } else if missed.leaves_out(adds) {
        learn_before_tail(adds, sides, shelves, blocks, heights, missed);
    }
    best
}

/// The same where these sides are missed by all shelves but those of which nothing is said.
#[inline(always)]
fn least_where_missed(
    adds: bool,
    sides: &Sides,
    shelves: &[KeptShelf],
    blocks: &Blocks,
    missed: &mut Missed,
) -> Option<FoundShelf>
    requires across { 0 < sides.now.across }
    requires known { AreKnown blocks.now shelves.now }
    requires missed { IsMissed missed.old shelves.now }
    requires without { AreWithoutBut missed.old.except missed.old.tail adds sides.now
        shelves.now }
    ensures least { result ≡ first_least (map (spec.kept_waste adds sides.now) shelves.now) }
    ensures within { IfSome result (λ least. least.number < length shelves.now) }
    ensures missed { IsMissed missed.new shelves.now }
{
    let tail = missed.tail.min(shelves.len());
    let best = found_alone(adds, sides, shelves, missed.except, tail);
    if tail >= shelves.len() {
        return best;
    }
    least_in_tail(adds, sides, shelves, blocks.step(), missed, tail, best)
}

/// The same with the shelves at the end, where this was found before them. Where they became many and have no place either, it
/// is learned anew.
#[inline(never)]
fn least_in_tail(
    adds: bool,
    sides: &Sides,
    shelves: &[KeptShelf],
    step: u32,
    missed: &mut Missed,
    tail: usize,
    best: Option<FoundShelf>,
) -> Option<FoundShelf>
    requires across { 0 < sides.now.across }
    requires step { IsStep step shelves.now }
    requires missed { IsMissed missed.old shelves.now }
    requires tail { tail ≤ length shelves.now }
    requires best { best
        ≡ first_least (map (spec.kept_waste adds sides.now) (take tail shelves.now)) }
    ensures least { result ≡ first_least (map (spec.kept_waste adds sides.now) shelves.now) }
    ensures within { IfSome result (λ least. least.number < length shelves.now) }
    ensures missed { IsMissed missed.new shelves.now }
{
    let best = least_in(adds, sides, shelves, step, tail, shelves.len(), best);
    if best.is_none() && !is_short(shelves, tail) {
        missed.learn(adds, sides, shelves, NO_SHELF);
    }
    best
}

/// What is found before the shelf of one number, where none but that of another has a place there.
#[inline(always)]
fn found_alone(
    adds: bool,
    sides: &Sides,
    shelves: &[KeptShelf],
    number: usize,
    end: usize,
) -> Option<FoundShelf>
    requires end { end ≤ length shelves.now }
    requires without { AreWithoutBut number end adds sides.now shelves.now }
    ensures { result
        ≡ first_least (map (spec.kept_waste adds sides.now) (take end shelves.now)) }
{
    if number >= end {
        return None;
    }
    let limit = limit_beside(adds, sides, &None);
    let rank = waste_below(limit, sides, &shelves[number])?;
    Some(FoundShelf { number, rank })
}

/// Learns that no shelf before the last few has a place for these sides, where that is so; else what is known is forgotten.
#[inline(never)]
fn learn_before_tail(
    adds: bool,
    sides: &Sides,
    shelves: &[KeptShelf],
    blocks: &Blocks,
    heights: &Heights,
    missed: &mut Missed,
)
    requires across { 0 < sides.now.across }
    requires counted { blocks.now.are_counted ≡ true }
    requires known { AreKnown blocks.now shelves.now }
    requires below { AreBelow heights.now shelves.now }
    requires missed { IsMissed missed.old shelves.now }
    ensures { IsMissed missed.new shelves.now }
{
    let tail = shelves.len().saturating_sub(NEAR_END);
    let best = least_by_blocks(adds, sides, shelves, blocks, heights, tail);
    if best.is_none() {
        missed.learn(adds, sides, shelves, tail);
    } else {
        missed.forget();
    }
}

/// The same among all shelves, or so many first ones, where blocks in which none has room are passed over, and behind one that
/// was searched those in which none is as tall as is wanted.
#[inline(always)]
fn least_by_blocks(
    adds: bool,
    sides: &Sides,
    shelves: &[KeptShelf],
    blocks: &Blocks,
    heights: &Heights,
    count: usize,
) -> Option<FoundShelf>
    requires across { 0 < sides.now.across }
    requires counted { blocks.now.are_counted ≡ true }
    requires known { AreKnown blocks.now shelves.now }
    requires below { AreBelow heights.now shelves.now }
    requires count { count ≤ length shelves.now }
    ensures least { length shelves.now ≡ count
        → result ≡ first_least (map (spec.kept_waste adds sides.now) shelves.now) }
    ensures without { None ≡ result → AreWithoutBefore count adds sides.now shelves.now }
{
    let step = blocks.step();
    let mut best = None;
    let mut in_vain = false;
    let mut from = 0;
    while from < count {
        let behind = blocks.behind_narrow(from, sides.along);
        if from < behind {
            from = behind;
        } else {
            let end = blocks.behind_wide(from, sides.along, in_vain).min(count);
            best = least_in(adds, sides, shelves, step, from, end, best);
            if is_least(step, &best) {
                break;
            }
            in_vain = true;
            let limit = limit_beside(adds, sides, &best);
            from = heights.behind_unfit(end, sides.across, limit, count);
        }
    }
    best
}

/// The same with the shelves from one number up to another, where this was found before them.
#[inline(always)]
fn least_in(
    adds: bool,
    sides: &Sides,
    shelves: &[KeptShelf],
    step: u32,
    from: usize,
    end: usize,
    best: Option<FoundShelf>,
) -> Option<FoundShelf>
    requires step { IsStep step shelves.now }
    requires from { from ≤ length shelves.now }
    requires end { from ≤ end }
    requires best { best
        ≡ first_least (map (spec.kept_waste adds sides.now) (take from shelves.now)) }
    ensures { result
        ≡ first_least (map (spec.kept_waste adds sides.now) (take end shelves.now)) }
{
    let mut best = best;
    let mut limit = limit_beside(adds, sides, &best);
    for number in from..shelves.len().min(end) {
        let Some(rank) = waste_below(limit, sides, &shelves[number]) else {
            continue;
        };
        best = Some(FoundShelf { number, rank });
        limit = rank;
        if rank < step {
            break;
        }
    }
    best
}

/// Whether a shelf was found that wastes less than two differ in height, so that none wastes less.
fn is_least(step: u32, best: &Option<FoundShelf>) -> bool
    ensures { result ≡ spec.is_least step best.now }
{
    match best {
        Some(least) => least.rank < step,
        None => false,
    }
}

/// The first exact bucket of a shelf that wastes no height, from the shelf of this number on. None is looked for where no
/// bucket gives just this width.
fn exact_from(
    sides: &Sides,
    shelves: &[KeptShelf],
    buckets: &[LinkedBucket],
    blocks: &Blocks,
    spans: &Spans,
    rooms: &Rooms,
    heights: &Heights,
    from: usize,
) -> Option<FoundBucket>
    requires across { 0 < sides.now.across }
    requires from { from ≤ length shelves.now }
    requires known { AreKnown blocks.now shelves.now }
    requires spans { AreSpans spans.now buckets.now }
    requires rooms { AreCounted rooms.now buckets.now }
    requires below { AreBelow heights.now shelves.now }
    ensures { result ≡ spec.exact_from sides.now buckets.now from (drop from shelves.now) }
{
    if !rooms.may_give(sides.along) {
        return None;
    }
    if blocks.are_counted {
        return exact_by_blocks(sides, shelves, buckets, blocks, spans, heights, from);
    }
    exact_between(sides, shelves, buckets, spans, from, shelves.len())
}

/// The same, where blocks in which none has room are passed over, and behind one that was searched those in which none is as
/// tall as is wanted.
fn exact_by_blocks(
    sides: &Sides,
    shelves: &[KeptShelf],
    buckets: &[LinkedBucket],
    blocks: &Blocks,
    spans: &Spans,
    heights: &Heights,
    from: usize,
) -> Option<FoundBucket>
    requires across { 0 < sides.now.across }
    requires counted { blocks.now.are_counted ≡ true }
    requires from { from ≤ length shelves.now }
    requires known { AreKnown blocks.now shelves.now }
    requires spans { AreSpans spans.now buckets.now }
    requires below { AreBelow heights.now shelves.now }
    ensures { result ≡ spec.exact_from sides.now buckets.now from (drop from shelves.now) }
{
    let mut in_vain = false;
    let mut at = from;
    for _block in from..shelves.len() {
        if at >= shelves.len() {
            break;
        }
        let behind = blocks.behind_narrow(at, sides.along);
        if at < behind {
            at = behind;
        } else {
            let end = blocks.behind_wide(at, sides.along, in_vain);
            let found = exact_between(sides, shelves, buckets, spans, at, end);
            if found.is_some() {
                return found;
            }
            in_vain = true;
            at = heights.behind_unfit(end, sides.across, 1, shelves.len());
        }
    }
    None
}

/// The first exact bucket of a shelf that wastes no height, from the shelf of one number up to that of another.
fn exact_between(
    sides: &Sides,
    shelves: &[KeptShelf],
    buckets: &[LinkedBucket],
    spans: &Spans,
    from: usize,
    end: usize,
) -> Option<FoundBucket>
    requires from { from ≤ length shelves.now }
    requires end { from ≤ end }
    requires spans { AreSpans spans.now buckets.now }
    ensures { or_else result (spec.exact_from sides.now buckets.now end (drop end shelves.now))
        ≡ spec.exact_from sides.now buckets.now from (drop from shelves.now) }
{
    for number in from..shelves.len().min(end) {
        let found = exact_in(sides, &shelves[number], buckets, spans, number);
        if found.is_some() {
            return found;
        }
    }
    None
}

fn exact_in(
    sides: &Sides,
    kept: &KeptShelf,
    buckets: &[LinkedBucket],
    spans: &Spans,
    number: usize,
) -> Option<FoundBucket>
    requires { AreSpans spans.now buckets.now }
    ensures { result ≡ spec.exact_in sides.now buckets.now number kept.now }
{
    if u32::from(kept.shelf.height) != sides.across || u32::from(kept.widest_room) < sides.along {
        return None;
    }
    let bucket = first_wanted(
        Wanted::Exact(sides.along),
        buckets,
        spans,
        kept.shelf.first_bucket,
    )?;
    Some(FoundBucket {
        shelf: number,
        bucket,
    })
}

/// What was found in the shelf of least waste, unless it wastes width alone, and there is an exact bucket in a
/// later shelf.
fn exact_or_found(
    sides: &Sides,
    shelves: &[KeptShelf],
    buckets: &[LinkedBucket],
    blocks: &Blocks,
    spans: &Spans,
    rooms: &Rooms,
    heights: &Heights,
    least: FoundShelf,
    bucket: usize,
) -> FoundBucket
    requires across { 0 < sides.now.across }
    requires known { AreKnown blocks.now shelves.now }
    requires spans { AreSpans spans.now buckets.now }
    requires rooms { AreCounted rooms.now buckets.now }
    requires below { AreBelow heights.now shelves.now }
    requires shelf { least.number < length shelves.now }
    requires bucket { bucket < length buckets.now }
    ensures { result ≡ spec.exact_or_found sides.now shelves.now buckets.now least bucket }
{
    let found = FoundBucket {
        shelf: least.number,
        bucket,
    };
    if least.rank != 0 || u32::from(buckets[bucket].free_space) == sides.along {
        return found;
    }
    exact_from(
        sides,
        shelves,
        buckets,
        blocks,
        spans,
        rooms,
        heights,
        least.number + 1,
    )
    .unwrap_or(found)
}

/// The bucket that is picked for these sides.
pub fn pick(
    adds: bool,
    sides: &Sides,
    shelves: &[KeptShelf],
    buckets: &[LinkedBucket],
    blocks: &Blocks,
    spans: &Spans,
    rest: &Rest,
    rooms: &Rooms,
    heights: &Heights,
    missed: &mut Missed,
) -> Option<FoundBucket>
    requires across { 0 < sides.now.across }
    requires known { AreKnown blocks.now shelves.now }
    requires spans { AreSpans spans.now buckets.now }
    requires rest { IsRest rest.now buckets.now }
    requires rooms { AreCounted rooms.now buckets.now }
    requires below { AreBelow heights.now shelves.now }
    requires missed { IsMissed missed.old shelves.now }
    ensures picked { result ≡ spec.picked adds sides.now shelves.now buckets.now }
    ensures missed { IsMissed missed.new shelves.now }
{
    let least = least_waste(adds, sides, shelves, blocks, heights, missed)?;
    let first = shelves[least.number].shelf.first_bucket;
    let bucket = first_roomy(sides.along, buckets, spans, rest, first)?;
    Some(exact_or_found(
        sides, shelves, buckets, blocks, spans, rooms, heights, least, bucket,
    ))
}
