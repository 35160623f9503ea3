//! What is known of neighbouring bucket records together, so that a search along the links passes over many of them at
//! once: where the links lead through records of one block of numbers, and how much room the widest of these may have.
//! A small block has 8 records, a middle one 8 small ones, and a large one 8 of those.
//!
//! Definitions: `Private/Spans`. Of a block nothing need be known; then a search looks at each record. Rows of a few
//! buckets are never gone over for it, and longer ones only once searches passed many of them.

ghost use Rattle.std.specs.Prelude.{◌≡◌, ◌+◌, ◌<◌, ◌≤◌, IfSome, IsTrue, Some, List, length, max, true};
ghost use Rattle.etagere_links.specs.Edits.{changed_by};
ghost use Rattle.etagere_links.specs.Links.{no_link};
ghost use Rattle.bucketed_model.specs.State.{most_buckets};
ghost use Rattle.bucketed_records.specs.declared.records.LinkedBucket.{LinkedBucket};
ghost use Rattle.bucket_index.specs.Private.Searching.{widest_from};
ghost use Rattle.bucket_index.specs.Private.Spans as spec;

use bucketed_records::records::{LinkedBucket, MOST_BUCKETS, record_room};
use etagere_links::Link;

/// How many records stand in a small block, by their numbers.
const RECORDS_OF_BLOCK: usize = 8;

/// How many blocks stand in one of the next size.
const PARTS_OF_BLOCK: usize = 8;

/// Of how many small blocks something may be known: enough for the most records that there can be.
const MOST_SMALL: usize = 512;

/// Of how many middle blocks.
const MOST_MIDDLE: usize = 64;

/// Of how many large blocks.
const MOST_LARGE: usize = 8;

/// How many small blocks stand in a small one.
const SMALL: usize = 1;

/// How many stand in a middle one.
const MIDDLE: usize = 8;

/// How many stand in a large one.
const LARGE: usize = 64;

/// Once searches passed so many records of long rows, as many as there can be, spans are worth what following each change
/// takes.
const ENOUGH_PASSED: u32 = MOST_BUCKETS;

/// Records of one block through which the links lead, from the first one on.
#[derive(Clone, Copy)]
pub struct Span {
    /// The number of the first of them; 65535 where nothing is known.
    pub first: u16,
    /// How many they are.
    pub steps: u16,
    /// The bits of the link of the last of them.
    pub behind: u16,
    /// None of them has more room.
    pub widest_room: u16,
}

/// How much room others have in the spans of the blocks of a record.
#[derive(Clone, Copy)]
pub struct Others {
    /// The number of the record; 65535 where nothing is known.
    pub number: usize,
    pub small: u16,
    pub middle: u16,
    pub large: u16,
}

/// The spans of an atlas's records, in three sizes. Before a long row was learned nothing is known.
#[derive(Clone, Copy)]
pub struct Spans {
    pub are_learned: bool,
    /// How many records of long rows searches passed of which nothing was known.
    pub passed: u32,
    /// Those of the record that was widened last, so that it narrows again without a search.
    pub others: Others,
    pub small: [Span; MOST_SMALL],
    pub middle: [Span; MOST_MIDDLE],
    pub large: [Span; MOST_LARGE],
}

/// Where a search goes on, and how many records it may still look at.
#[derive(Clone, Copy)]
pub struct Ahead {
    pub at: Link,
    pub left: u32,
}

/// What a record's room was and is.
#[derive(Clone, Copy)]
pub struct Change {
    pub number: usize,
    pub before: u16,
    pub room: u16,
}

/// What is known of a block of which nothing is known.
fn no_span() -> Span
    ensures { result ≡ spec.no_span }
{
    Span {
        first: u16::MAX,
        steps: u16::MAX,
        behind: u16::MAX,
        widest_room: u16::MAX,
    }
}

/// Nothing is known of others.
fn no_others() -> Others
    ensures { result.number ≡ no_link }
{
    Others {
        number: usize::from(u16::MAX),
        small: 0,
        middle: 0,
        large: 0,
    }
}

/// The number of the block of a record, among blocks of so many small ones.
#[inline(always)]
fn block_of(scale: usize, number: usize) -> usize
    requires { 0 < scale }
    ensures value { result ≡ spec.block_of scale number }
    ensures small { result < 512 }
{
    number / RECORDS_OF_BLOCK % MOST_SMALL / scale
}

/// What is known of a block.
#[inline(always)]
fn span_of(spans: &[Span], block: usize) -> Span
    ensures { result ≡ spec.span_of spans.now block }
{
    if block < spans.len() {
        spans[block]
    } else {
        no_span()
    }
}

/// Knows something else of a block.
#[inline(always)]
fn set_span(spans: &mut [Span], block: usize, fresh: Span)
    ensures { spans.new ≡ changed_by (Some block) (λ _. fresh) spans.old }
{
    if block < spans.len() {
        let span = &mut spans[block];
        *span = fresh;
    }
}

/// The span that begins with the record of a number and leads on as far as the records are of its block.
fn span_from(buckets: &[LinkedBucket], first: usize) -> Span
    requires within { first < length buckets.now }
    requires small { first < no_link }
    ensures { spec.IsSpan (spec.block_of 1) (spec.block_of 1 first) result buckets.now }
{
    let block = block_of(SMALL, first);
    let mut steps = 1;
    let mut behind = buckets[first].next;
    let mut widest = record_room(&buckets[first]);
    for _step in 1..RECORDS_OF_BLOCK {
        let Some(number) = behind.number() else {
            break;
        };
        if number >= buckets.len() {
            break;
        }
        if block_of(SMALL, number) != block {
            break;
        }
        let bucket = &buckets[number];
        steps += 1;
        behind = bucket.next;
        widest = widest.max(record_room(bucket));
    }
    Span {
        first: first as u16,
        steps,
        behind: behind.bits(),
        widest_room: widest,
    }
}

/// Whether a span begins with the record of a number.
#[inline(always)]
fn begins_with(span: &Span, number: usize) -> bool
    ensures { IsTrue result → span.now.first ≡ number }
{
    usize::from(span.first) == number
}

/// Whether a span of so many records goes on with the next one, which begins with the record of a number.
#[inline(always)]
fn goes_on(steps: u16, next: &Span, number: usize) -> bool
    ensures { IsTrue result → (next.now.first ≡ number) × (steps + next.now.steps < 65536) }
{
    begins_with(next, number) && u32::from(steps) + u32::from(next.steps) <= MOST_BUCKETS
}

/// The span that begins with the record of a number, and leads on by those of the parts of its block.
#[inline(always)]
fn gathered(parts: &[Span], scale: usize, first: usize) -> Span
    requires { 0 < scale }
    ensures { (buckets : List LinkedBucket) → spec.AreSpansOf (spec.block_of scale) parts.now buckets
        → spec.IsKnownSpan (spec.whole_of scale) (spec.whole_of scale first) result buckets }
{
    let whole = block_of(scale, first) / PARTS_OF_BLOCK;
    let begin = span_of(parts, block_of(scale, first));
    if !begins_with(&begin, first) {
        return no_span();
    }
    let mut steps = begin.steps;
    let mut behind = begin.behind;
    let mut widest = begin.widest_room;
    for _part in 1..PARTS_OF_BLOCK {
        let Some(number) = Link::from_bits(behind).number() else {
            break;
        };
        let part = block_of(scale, number);
        if part >= parts.len() || part / PARTS_OF_BLOCK != whole {
            break;
        }
        let next = &parts[part];
        if !goes_on(steps, next, number) {
            break;
        }
        steps += next.steps;
        behind = next.behind;
        widest = widest.max(next.widest_room);
    }
    Span {
        first: begin.first,
        steps,
        behind,
        widest_room: widest,
    }
}

/// How many records `stays_wide` looks at.
const FEW_RECORDS: u32 = 2;

/// Whether one of the next few records of the same block has this room.
fn stays_wide(buckets: &[LinkedBucket], number: usize, room: u16) -> bool
    requires { number < length buckets.now }
{
    let block = block_of(SMALL, number);
    let mut at = buckets[number].next;
    for _step in 0..FEW_RECORDS {
        let Some(next) = at.number() else {
            return false;
        };
        if next >= buckets.len() || block_of(SMALL, next) != block {
            return false;
        }
        if room <= record_room(&buckets[next]) {
            return true;
        }
        at = buckets[next].next;
    }
    false
}

/// A span whose widest room is at least this.
fn widened(span: Span, room: u16) -> Span
    ensures { result ≡ spec.widened room span }
{
    Span {
        widest_room: span.widest_room.max(room),
        ..span
    }
}

/// A span of a small block gone over again, from its first record on.
fn recounted(buckets: &[LinkedBucket], span: Span) -> Span
    ensures { (one block : spec.ℕ)
        → spec.IsKnownSpanExcept one (spec.block_of 1) block span buckets.now
        → spec.IsKnownSpan (spec.block_of 1) block result buckets.now }
{
    let first = usize::from(span.first);
    if span.first == u16::MAX || first >= buckets.len() {
        return span;
    }
    span_from(buckets, first)
}

/// A span of the small block of a record whose room changed. It is gone over where it may have less room now.
fn followed(buckets: &[LinkedBucket], span: Span, change: &Change) -> Span
    requires number { change.now.number < length buckets.now }
    requires room { spec.room_at buckets.now change.now.number ≤ change.now.room }
    ensures { (block : spec.ℕ)
        → spec.IsKnownSpanExcept change.now.number (spec.block_of 1) block span buckets.now
        → spec.IsKnownSpan (spec.block_of 1) block result buckets.now }
{
    let narrows = change.room < change.before && span.widest_room <= change.before;
    if narrows && !stays_wide(buckets, change.number, change.before) {
        recounted(buckets, span)
    } else {
        widened(span, change.room)
    }
}

/// A span gathered again from those of the parts of its block.
#[inline(always)]
fn gathered_again(parts: &[Span], scale: usize, span: Span) -> Span
    requires { 0 < scale }
    ensures { (one block : spec.ℕ) (buckets : List LinkedBucket)
        → spec.AreSpansOf (spec.block_of scale) parts.now buckets
        → spec.IsKnownSpanExcept one (spec.whole_of scale) block span buckets
        → spec.IsKnownSpan (spec.whole_of scale) block result buckets }
{
    if span.first == u16::MAX {
        return span;
    }
    gathered(parts, scale, usize::from(span.first))
}

/// Knows again the span of the block of a record whose room changed, where those of the block's parts are known, and
/// answers the room that it may have.
#[inline(always)]
fn gather_again(parts: &[Span], scale: usize, wholes: &mut [Span], number: usize) -> u16
    requires { 0 < scale }
    ensures { (buckets : List LinkedBucket) → spec.AreSpansOf (spec.block_of scale) parts.now buckets
        → spec.AreSpansExceptOf number (spec.whole_of scale) wholes.old buckets
        → spec.AreSpansOf (spec.whole_of scale) wholes.new buckets }
{
    let whole = block_of(scale, number) / PARTS_OF_BLOCK;
    let span = span_of(wholes, whole);
    let fresh = gathered_again(parts, scale, span);
    set_span(wholes, whole, fresh);
    fresh.widest_room
}

/// Knows that the span of a block may have so much room.
#[inline(always)]
fn raise_span(spans: &mut [Span], block: usize, room: u16)
    ensures { spans.new ≡ changed_by (Some block) (spec.widened room) spans.old }
{
    if block < spans.len() {
        let span = &mut spans[block];
        span.widest_room = span.widest_room.max(room);
    }
}

/// Knows that the span of a block has at most so much room.
#[inline(always)]
fn bound_span(spans: &mut [Span], block: usize, room: u16)
    ensures { spans.new ≡ changed_by (Some block) (spec.bounded room) spans.old }
{
    if block < spans.len() {
        let span = &mut spans[block];
        span.widest_room = room;
    }
}

/// Whether a search for this width passes a span from the record of a number on, where so many may still be looked at.
#[inline(always)]
fn is_passed(span: &Span, number: usize, width: u32, left: u32) -> bool
    ensures passed { IsTrue result → spec.IsPassedSpan number width left span.now }
    ensures some { IsTrue result → 0 < span.now.steps }
{
    begins_with(span, number)
        && u32::from(span.widest_room) < width
        && u32::from(span.steps).wrapping_sub(1) < left
}

/// Where a search for this width that has come to a link goes on: behind spans of one size in which no record has so
/// much room.
#[inline(always)]
fn behind_narrow(spans: &[Span], scale: usize, from: Link, most: u32, width: u32) -> Ahead
    requires { 0 < scale }
    ensures { (buckets : List LinkedBucket) → spec.AreSpansOf (spec.block_of scale) spans.now buckets
        → spec.IsPassed width buckets from most result }
{
    let mut at = from;
    let mut left = most;
    while let Some(number) = at.number() {
        let block = block_of(scale, number);
        if block >= spans.len() {
            break;
        }
        let span = &spans[block];
        if !is_passed(span, number, width, left) {
            break;
        }
        at = Link::from_bits(span.behind);
        left -= u32::from(span.steps);
    }
    Ahead { at, left }
}

/// Knows spans gathered from those of the parts of their blocks, along the links from this one on.
fn gather(parts: &[Span], scale: usize, wholes: &mut [Span], first: Link)
    requires { 0 < scale }
    ensures { (buckets : List LinkedBucket) → spec.AreSpansOf (spec.block_of scale) parts.now buckets
        → spec.AreSpansOf (spec.whole_of scale) wholes.old buckets
        → spec.AreSpansOf (spec.whole_of scale) wholes.new buckets }
{
    let mut at = first;
    for _span in 0..MOST_BUCKETS {
        let Some(number) = at.number() else {
            break;
        };
        let span = gathered(parts, scale, number);
        set_span(wholes, block_of(scale, number) / PARTS_OF_BLOCK, span);
        at = Link::from_bits(span.behind);
    }
}

impl Spans {
    /// None is known.
    pub fn new() -> Spans
        ensures { (buckets : List LinkedBucket) → spec.AreSpans result buckets }
    {
        Spans {
            are_learned: false,
            ..Spans::unknown()
        }
    }

    /// None is known of any block.
    fn unknown() -> Spans
        ensures { (buckets : List LinkedBucket) → spec.AreKnownSpans result buckets }
    {
        let none = no_span();
        Spans {
            are_learned: true,
            passed: 0,
            others: no_others(),
            small: [none; MOST_SMALL],
            middle: [none; MOST_MIDDLE],
            large: [none; MOST_LARGE],
        }
    }

    /// Forgets all.
    pub fn forget_all(&mut self)
        ensures { (buckets : List LinkedBucket) → spec.AreSpans self.new buckets }
    {
        self.are_learned = false;
    }

    /// Whether something is known of the small block of the record of a number.
    pub fn knows_block(&self, number: usize) -> bool {
        self.are_learned && self.small[block_of(SMALL, number)].first != u16::MAX
    }

    /// Whether something is known of the small block of the record that a link names.
    pub fn knows(&self, link: Link) -> bool {
        self.are_learned
            && match link.number() {
                Some(number) => self.knows_block(number),
                None => false,
            }
    }

    /// Whether a small span begins with the record that a link names, and none of its records has room for this width.
    #[inline(always)]
    fn begins_narrow(&self, link: Link, width: u32) -> bool
        ensures { IsTrue result → self.now.are_learned ≡ true }
    {
        match link.number() {
            Some(number) => {
                let span = &self.small[block_of(SMALL, number)];
                u32::from(span.widest_room) < width && self.are_learned && begins_with(span, number)
            }
            None => false,
        }
    }

    /// Where a search for this width goes on that has come to a link, and may look at so many records: there, or behind
    /// spans in which no record has so much room.
    #[inline(always)]
    pub fn ahead(&self, at: Link, left: u32, width: u32) -> Ahead
        ensures { (buckets : List LinkedBucket) → spec.AreSpans self.now buckets
            → spec.IsPassed width buckets at left result }
    {
        if !self.begins_narrow(at, width) {
            return Ahead { at, left };
        }
        let large = behind_narrow(&self.large, LARGE, at, left, width);
        let middle = behind_narrow(&self.middle, MIDDLE, large.at, large.left, width);
        behind_narrow(&self.small, SMALL, middle.at, middle.left, width)
    }

    /// The largest span that begins with the record of a number, if one does.
    #[inline(always)]
    fn span_at(&self, number: usize) -> Span
        ensures { (buckets : List LinkedBucket) → spec.AreKnownSpans self.now buckets
            → spec.IsSomeSpan result buckets }
    {
        let large = span_of(&self.large, block_of(LARGE, number));
        if begins_with(&large, number) {
            return large;
        }
        let middle = span_of(&self.middle, block_of(MIDDLE, number));
        if begins_with(&middle, number) {
            return middle;
        }
        span_of(&self.small, block_of(SMALL, number))
    }

    /// No record to which the links lead from this one on has more room than this, where spans lead along all of them.
    pub fn widest_bound(&self, first: Link) -> Option<u16>
        ensures { IfSome result (λ bound. (buckets : List LinkedBucket)
            → spec.AreSpans self.now buckets → widest_from most_buckets buckets first ≤ bound) }
    {
        if !self.are_learned {
            return None;
        }
        let mut bound = 0;
        let mut at = first;
        let mut unseen = MOST_BUCKETS;
        while let Some(number) = at.number() {
            let span = self.span_at(number);
            let widest = span.widest_room.max(bound);
            if !is_passed(&span, number, u32::from(widest) + 1, unseen) {
                return None;
            }
            bound = widest;
            at = Link::from_bits(span.behind);
            unseen -= u32::from(span.steps);
        }
        Some(bound)
    }

    /// Forgets the spans of the blocks of the record of a number, which may have become another record.
    pub fn forget(&mut self, number: usize)
        ensures { (buckets : List LinkedBucket) → spec.AreOtherSpans number self.old buckets
            → spec.AreSpans self.new buckets }
    {
        if !self.are_learned {
            return;
        }
        self.others = no_others();
        set_span(&mut self.small, block_of(SMALL, number), no_span());
        set_span(&mut self.middle, block_of(MIDDLE, number), no_span());
        set_span(&mut self.large, block_of(LARGE, number), no_span());
    }

    /// Knows the record of a number, which had this room before. Its spans are gone over where they may have less room
    /// now, unless it was widened last.
    #[inline(always)]
    pub fn track(&mut self, buckets: &[LinkedBucket], number: usize, before: u16)
        requires within { number < length buckets.now }
        requires others { spec.AreSpansExcept number self.old buckets.now }
        ensures { spec.AreSpans self.new buckets.now }
    {
        if self.are_learned {
            self.track_learned(buckets, number, before);
        }
    }

    /// The same where spans are learned.
    #[inline(always)]
    fn track_learned(&mut self, buckets: &[LinkedBucket], number: usize, before: u16)
        requires within { number < length buckets.now }
        requires others { spec.AreLearnedExcept number self.old buckets.now }
        ensures { spec.AreLearned self.new buckets.now }
    {
        let room = record_room(&buckets[number]);
        if self.was_widened(number) {
            self.bound_again(number, room);
        } else {
            self.track_change(buckets, number, before, room);
        }
    }

    /// Knows a record whose room changed, and that wasn't widened last.
    #[inline(never)]
    fn track_change(&mut self, buckets: &[LinkedBucket], number: usize, before: u16, room: u16)
        requires number { number < length buckets.now }
        requires room { spec.room_at buckets.now number ≤ room }
        requires others { spec.AreLearnedExcept number self.old buckets.now }
        ensures { spec.AreLearned self.new buckets.now }
    {
        let change = Change {
            number,
            before,
            room,
        };
        if before <= room {
            self.widen(&change);
        } else {
            self.narrow(buckets, &change);
        }
    }

    /// Whether the record of a number was widened last.
    fn was_widened(&self, number: usize) -> bool
        ensures { IsTrue result → (self.now.others.number ≡ number) × (number < no_link) }
    {
        number == self.others.number && number < usize::from(u16::MAX)
    }

    /// Knows a record that may have more room now.
    fn widen(&mut self, change: &Change)
        ensures { (buckets : List LinkedBucket)
            → spec.room_at buckets change.now.number ≤ change.now.room
            → spec.AreKnownSpansExcept change.now.number self.old buckets
            → spec.AreLearned self.new buckets }
    {
        let small = block_of(SMALL, change.number);
        let middle = block_of(MIDDLE, change.number);
        let large = block_of(LARGE, change.number);
        self.others = Others {
            number: change.number,
            small: span_of(&self.small, small).widest_room,
            middle: span_of(&self.middle, middle).widest_room,
            large: span_of(&self.large, large).widest_room,
        };
        raise_span(&mut self.small, small, change.room);
        raise_span(&mut self.middle, middle, change.room);
        raise_span(&mut self.large, large, change.room);
    }

    /// Knows the record that was widened last, whose room changed again: what others have is known.
    #[inline(always)]
    fn bound_again(&mut self, number: usize, room: u16)
        requires last { self.old.others.number ≡ number }
        requires some { number < no_link }
        ensures { (buckets : List LinkedBucket)
            → spec.room_at buckets number ≤ room
            → spec.AreKnownSpansExcept number self.old buckets
            → spec.AreOthers self.old buckets → spec.AreLearned self.new buckets }
    {
        let small = self.others.small.max(room);
        let middle = self.others.middle.max(room);
        let large = self.others.large.max(room);
        bound_span(&mut self.small, block_of(SMALL, number), small);
        bound_span(&mut self.middle, block_of(MIDDLE, number), middle);
        bound_span(&mut self.large, block_of(LARGE, number), large);
    }

    /// Knows a record that may have less room now. Never inlined, so that one that has more doesn't carry it.
    #[inline(never)]
    fn narrow(&mut self, buckets: &[LinkedBucket], change: &Change)
        requires number { change.now.number < length buckets.now }
        requires room { spec.room_at buckets.now change.now.number ≤ change.now.room }
        requires others { spec.AreKnownSpansExcept change.now.number self.old buckets.now }
        ensures { spec.AreLearned self.new buckets.now }
    {
        let number = change.number;
        let before = span_of(&self.small, block_of(SMALL, number));
        let small = followed(buckets, before, change);
        self.others = no_others();
        set_span(&mut self.small, block_of(SMALL, number), small);
        if change.before <= small.widest_room {
            raise_span(&mut self.middle, block_of(MIDDLE, number), change.room);
            raise_span(&mut self.large, block_of(LARGE, number), change.room);
            return;
        }
        let middle = gather_again(&self.small, SMALL, &mut self.middle, number);
        if change.before <= middle {
            raise_span(&mut self.large, block_of(LARGE, number), change.room);
        } else {
            gather_again(&self.middle, MIDDLE, &mut self.large, number);
        }
    }

    /// Knows spans of the records to which the links lead from this one on, of which a search passed so many, unless too few
    /// were passed so far: where searches seldom go far, following each change would take more than they do.
    pub fn learn_passed(&mut self, buckets: &[LinkedBucket], first: Link, passed: u32)
        requires { spec.AreSpans self.old buckets.now }
        ensures { spec.AreSpans self.new buckets.now }
    {
        self.passed = self.passed.saturating_add(passed);
        if self.passed >= ENOUGH_PASSED {
            self.learn(buckets, first);
        }
    }

    /// Knows spans of the records to which the links lead from this one on.
    #[inline(never)]
    fn learn(&mut self, buckets: &[LinkedBucket], first: Link)
        requires { spec.AreSpans self.old buckets.now }
        ensures { spec.AreSpans self.new buckets.now }
    {
        self.begin_to_learn();
        learn_small(&mut self.small, buckets, first);
        gather(&self.small, SMALL, &mut self.middle, first);
        gather(&self.middle, MIDDLE, &mut self.large, first);
        self.others = no_others();
    }

    /// Knows no more than before, and of each block what is known of it.
    fn begin_to_learn(&mut self)
        ensures { (buckets : List LinkedBucket) → spec.AreSpans self.old buckets
            → spec.AreKnownSpans self.new buckets }
    {
        if !self.are_learned {
            *self = Spans::unknown();
        }
    }
}

/// Knows spans of small blocks of the records to which the links lead from this one on.
fn learn_small(spans: &mut [Span], buckets: &[LinkedBucket], first: Link)
    ensures { spec.AreSpansOf (spec.block_of 1) spans.old buckets.now
        → spec.AreSpansOf (spec.block_of 1) spans.new buckets.now }
{
    let mut at = first;
    for _span in 0..MOST_BUCKETS {
        let Some(number) = at.number() else {
            break;
        };
        if number >= buckets.len() {
            break;
        }
        at = learn_from(spans, buckets, number);
    }
}

/// Knows the span that begins with the record of a number, if it isn't known yet, and answers the link behind it.
fn learn_from(spans: &mut [Span], buckets: &[LinkedBucket], number: usize) -> Link
    requires within { number < length buckets.now }
    requires small { number < no_link }
    ensures { spec.AreSpansOf (spec.block_of 1) spans.old buckets.now
        → spec.AreSpansOf (spec.block_of 1) spans.new buckets.now }
{
    let block = block_of(SMALL, number);
    let known = span_of(spans, block);
    if begins_with(&known, number) {
        return Link::from_bits(known.behind);
    }
    let span = span_from(buckets, number);
    set_span(spans, block, span);
    Link::from_bits(span.behind)
}
