//! What is known of neighbouring shelves together, so that a search passes over many of them at once: how much room
//! the buckets of one may have, and whether one may hold nothing live.
//!
//! Definitions: `Private/Blocks`. What is known of a block may be too much, never too little. Nothing need be known of few
//! shelves, nor of one without height, which gives nothing.

ghost use Rattle.std.specs.Prelude.{IsFalse, IsTrue, ◌≡◌, ◌+◌, ◌-◌, ◌*◌, ◌<◌, ◌≤◌, ◌^◌, Some, [], false, true, length, slice_get};
ghost use Rattle.etagere_links.specs.Edits.{changed_by};
ghost use Rattle.bucketed_records.specs.Private.Store.{is_kept_idle};
ghost use Rattle.bucket_index.specs.Private.Blocks as spec;

use bucketed_records::records::KeptShelf;

/// How many shelves stand in a small block.
pub const SHELVES_OF_BLOCK: usize = 8;

/// So many shelves are gone through without blocks.
pub const FEW_SHELVES: usize = 4 * SHELVES_OF_BLOCK;

/// How many blocks stand in one of the next size.
const PARTS_OF_BLOCK: usize = 8;

/// How many small blocks are searched at most before it is asked again what is known of others.
const BLOCKS_AT_ONCE: usize = 4;

/// How many shelves stand in a middle block.
const SHELVES_OF_MIDDLE: usize = 64;

/// How many shelves stand in a large block.
const SHELVES_OF_LARGE: usize = 512;

/// Of how many small blocks something is known: enough for the most shelves that there can be.
const MOST_SMALL: usize = 512;

/// Of how many middle blocks.
const MOST_MIDDLE: usize = 64;

/// Of how many large blocks.
const MOST_LARGE: usize = 8;

/// How many shelves there are at most.
const MOST_SHELVES: usize = 4096;

/// How many searches without a change go by before a block is lowered that was left as it is.
const LEFT_SEARCHES: usize = 3;

/// The height of each shelf is a multiple of it, but where the height of a column is none.
const STEP: u16 = 8;

/// What is known of the shelves of a block.
#[derive(Clone, Copy)]
pub struct Block {
    /// None of them has a bucket with more room.
    pub widest_room: u16,
    /// Where it is false, each of them holds something live.
    pub has_idle: bool,
}

/// Nothing is known of shelves, since there are none.
const NO_SHELVES: Block = Block {
    widest_room: 0,
    has_idle: false,
};

/// What is known of the blocks of a shelf by the others that stand there.
#[derive(Clone, Copy)]
pub struct Others {
    /// The number of the shelf; 4096 where nothing is known.
    pub number: usize,
    /// How much room it had when that was known.
    pub room: u16,
    /// What its blocks know of it at least: what it had when it was raised last, or what others of its small block have.
    pub own: Block,
    pub small: Block,
    pub middle: Block,
    pub large: Block,
}

/// Nothing is known of others.
const NO_OTHERS: Others = Others {
    number: MOST_SHELVES,
    room: 0,
    own: NO_SHELVES,
    small: NO_SHELVES,
    middle: NO_SHELVES,
    large: NO_SHELVES,
};

/// Which small block is left as it is though a shelf of it has less now, as some of its shelves narrow and widen in turn: it
/// may know too much for a while. And which one was lowered of late.
#[derive(Clone, Copy)]
pub struct PutOff {
    /// The number of the block; 512 where none is left.
    pub block: usize,
    /// How many searches there were since a shelf of it had less.
    pub searches: usize,
    /// The block that was lowered last; 512 where none was.
    pub last: usize,
    /// How often it was lowered again since.
    pub times: usize,
}

/// No block is left, and none was lowered.
const NONE_PUT_OFF: PutOff = PutOff {
    block: MOST_SMALL,
    searches: 0,
    last: MOST_SMALL,
    times: 0,
};

impl PutOff {
    /// Whether no block is left, and one of which a shelf has less now was lowered more often in turn than it has shelves. Else
    /// it is the last that was lowered.
    fn comes_back(&mut self, block: usize) -> bool {
        if block != self.last {
            self.last = block;
            self.times = 0;
            return false;
        }
        if self.times < SHELVES_OF_BLOCK {
            self.times += 1;
            return false;
        }
        self.block == MOST_SMALL
    }

    /// Leaves a block.
    fn leave(&mut self, block: usize) {
        self.block = block;
        self.searches = 0;
    }

    /// Counts a search where a block is left, and says whether that was so for some searches, so that it is to be lowered.
    #[inline(always)]
    fn is_due(&mut self) -> bool {
        if self.block >= MOST_SMALL {
            return false;
        }
        if self.searches < LEFT_SEARCHES {
            self.searches += 1;
            return false;
        }
        true
    }
}

/// The blocks of the shelves of an atlas, in three sizes. Before there are more than a few shelves nothing is known of them.
#[derive(Clone, Copy)]
pub struct Blocks {
    pub are_counted: bool,
    /// Where it is true, the height of each shelf is a multiple of `STEP`.
    pub in_steps: bool,
    /// Those of the shelf that was raised last, so that it is lowered again without a recount.
    pub others: Others,
    /// Whether the blocks of that shelf are yet to be lowered: before a search, or once another shelf changes.
    pub is_late: bool,
    /// The small block that is left as it is, if one is.
    pub put_off: PutOff,
    /// What is known of the small and middle blocks of so many first shelves is known of the larger ones around them too.
    pub nested: usize,
    pub small: [Block; MOST_SMALL],
    pub middle: [Block; MOST_MIDDLE],
    pub large: [Block; MOST_LARGE],
}

/// What is known of a block with this shelf beside the others.
fn with_shelf(block: Block, kept: &KeptShelf) -> Block
    ensures { result ≡ spec.with_shelf kept.now block }
{
    Block {
        widest_room: block.widest_room.max(kept.widest_room),
        has_idle: block.has_idle | kept.is_idle(),
    }
}

/// The same, if the shelf has a height: one without, as a merge leaves it, gives nothing.
fn with_standing(block: Block, kept: &KeptShelf) -> Block
    ensures { result ≡ spec.with_standing kept.now block }
{
    if kept.shelf.height == 0 {
        block
    } else {
        with_shelf(block, kept)
    }
}

/// Whether a shelf is known wherever one with this room is: it has no more, and holds something live.
fn stays_known(room: u16, kept: &KeptShelf) -> bool
    ensures { IsTrue result → (kept.now.widest_room ≤ room) × (is_kept_idle kept.now ≡ false) }
{
    kept.widest_room <= room && !kept.is_idle()
}

/// Whether a shelf is to be known just as the one that it was before: it has the same room, and both hold something live.
fn stays_equal(before: Block, kept: &KeptShelf) -> bool
    ensures { IsTrue result → (kept.now.widest_room ≤ before.widest_room)
        × (is_kept_idle kept.now ≡ false) }
{
    kept.widest_room == before.widest_room && !before.has_idle && !kept.is_idle()
}

/// What is known of a shelf alone.
#[inline(always)]
pub fn known_of(kept: &KeptShelf) -> Block
    ensures { result ≡ spec.with_shelf kept.now spec.no_shelves }
{
    with_shelf(NO_SHELVES, kept)
}

/// What is known of a shelf alone that holds something live.
#[inline(always)]
pub fn known_of_busy(kept: &KeptShelf) -> Block
    ensures { result.widest_room ≡ kept.now.widest_room }
{
    Block {
        widest_room: kept.widest_room,
        has_idle: false,
    }
}

/// Whether the same is known of two blocks.
fn is_same(one: Block, other: Block) -> bool
    ensures { IsTrue result → one ≡ other }
{
    one.widest_room == other.widest_room && one.has_idle == other.has_idle
}

/// What is known of two blocks together.
fn joined(one: Block, other: Block) -> Block
    ensures { result ≡ spec.joined one other }
{
    Block {
        widest_room: one.widest_room.max(other.widest_room),
        has_idle: one.has_idle | other.has_idle,
    }
}

/// The number of the first shelf of the small block in which one stands.
fn first_of_block(shelf: usize) -> usize
    ensures { result ≡ spec.first_of_block shelf }
{
    shelf / SHELVES_OF_BLOCK * SHELVES_OF_BLOCK
}

/// What is known of the shelves from this one on, as many as a small block has.
fn counted(shelves: &[KeptShelf], from: usize) -> Block
    requires { from < 2 ^ 62 }
    ensures { (number : spec.ℕ) (kept : spec.KeptShelf) → from ≤ number
        → number < from + 8
        → slice_get shelves.now number ≡ Some kept
        → spec.IsKnown kept result }
{
    let mut block = NO_SHELVES;
    for number in from..shelves.len().min(from + SHELVES_OF_BLOCK) {
        block = with_standing(block, &shelves[number]);
    }
    block
}

/// Knows the first small blocks, as many as stand in a middle one.
fn count_first(blocks: &mut [Block], shelves: &[KeptShelf])
    ensures { spec.AreKnownOf (λ number. number < 64) 8 blocks.new shelves.now }
{
    for number in 0..PARTS_OF_BLOCK {
        let fresh = counted(shelves, number * SHELVES_OF_BLOCK);
        set_block(blocks, number, fresh);
    }
}

/// What is known of the blocks from this one on, as many as stand in one of the next size.
fn gathered(blocks: &[Block], from: usize) -> Block
    requires { from < 2 ^ 62 }
    ensures { (number : spec.ℕ) (block : spec.Block) → from ≤ number
        → number < from + 8
        → slice_get blocks.now number ≡ Some block
        → spec.IsPart block result }
{
    let mut whole = NO_SHELVES;
    for number in from..blocks.len().min(from + PARTS_OF_BLOCK) {
        whole = joined(whole, blocks[number]);
    }
    whole
}

/// Whether a shelf of the block of a number may have room for this width.
fn may_give(blocks: &[Block], number: usize, width: u32) -> bool
    ensures { result ≡ spec.may_give width blocks.now number }
{
    number >= blocks.len() || width <= u32::from(blocks[number].widest_room)
}

/// Whether a shelf of the block of a number may hold nothing live.
fn may_be_idle(blocks: &[Block], number: usize) -> bool
    ensures { result ≡ spec.may_be_idle blocks.now number }
{
    number >= blocks.len() || blocks[number].has_idle
}

/// Whether a shelf is known to the block of a number.
fn knows_shelf(blocks: &[Block], number: usize, kept: &KeptShelf) -> bool
    ensures { IsTrue result → spec.IsCovered kept.now (spec.block_at blocks.now number) }
{
    if number >= blocks.len() {
        return false;
    }
    let block = &blocks[number];
    kept.widest_room <= block.widest_room && (block.has_idle || !kept.is_idle())
}

/// What is known of the block of a number.
fn block_at(blocks: &[Block], number: usize) -> Block
    ensures { result ≡ spec.block_at blocks.now number }
{
    if number < blocks.len() {
        blocks[number]
    } else {
        NO_SHELVES
    }
}

/// Knows a shelf with this room beside the others in the block of a number.
fn raise_block(blocks: &mut [Block], number: usize, room: u16, is_idle: bool)
    ensures { blocks.new ≡ changed_by (Some number) (spec.raised_block room is_idle) blocks.old }
{
    if number < blocks.len() {
        let block = &mut blocks[number];
        block.widest_room = block.widest_room.max(room);
        block.has_idle |= is_idle;
    }
}

/// Knows something else of the block of a number.
fn set_block(blocks: &mut [Block], number: usize, fresh: Block)
    ensures { blocks.new ≡ changed_by (Some number) (λ _. fresh) blocks.old }
{
    if number < blocks.len() {
        let block = &mut blocks[number];
        block.widest_room = fresh.widest_room;
        block.has_idle = fresh.has_idle;
    }
}

/// Whether the height of each shelf is a multiple of eight.
fn are_in_steps(shelves: &[KeptShelf]) -> bool
    ensures { IsTrue result → spec.AreInSteps shelves.now }
{
    for number in 0..shelves.len() {
        if shelves[number].shelf.height % STEP != 0 {
            return false;
        }
    }
    true
}

/// Knows nothing of the blocks up to the one of a number.
fn forget_first(blocks: &mut [Block], last: usize) {
    for number in 0..blocks.len() {
        if last < number {
            break;
        }
        set_block(blocks, number, NO_SHELVES);
    }
}

/// The number of the first shelf behind the block of this size in which one stands.
pub(crate) fn end_of(size: usize, shelf: usize) -> usize
    requires size { (0 < size) × (size ≤ 512) }
    requires shelf { shelf < 2 ^ 62 }
    ensures { result ≡ spec.end_of size shelf }
{
    shelf / size * size + size
}

/// Where a search for a shelf with room for this width goes on behind a small block in which none has: at the next small
/// block of the same middle one in which a shelf may have room, or behind the middle one.
fn behind_narrow_small(blocks: &[Block], shelf: usize, width: u32) -> usize
    requires shelf { shelf < 2 ^ 62 }
    requires narrow { spec.may_give width blocks.now (spec.block_of 8 shelf) ≡ false }
    ensures on { shelf ≤ result }
    ensures small { result ≤ shelf + 64 }
    ensures narrow { (block : spec.ℕ) → spec.block_of 8 shelf ≤ block → block * 8 < result
        → spec.may_give width blocks.now block ≡ false }
{
    let behind = shelf / SHELVES_OF_MIDDLE * PARTS_OF_BLOCK + PARTS_OF_BLOCK;
    let end = behind.min(blocks.len());
    for number in shelf / SHELVES_OF_BLOCK + 1..end {
        if width <= u32::from(blocks[number].widest_room) {
            return number * SHELVES_OF_BLOCK;
        }
    }
    end * SHELVES_OF_BLOCK
}

/// Where a search for a shelf that has a height and holds nothing live goes on that has come to the shelf of a number: at
/// that one, or behind blocks of one size in which there is none. It ends at the shelf of another number.
#[inline(always)]
fn behind_busy_of(blocks: &[Block], size: usize, from: usize, end: usize) -> usize
    requires size { (0 < size) × (size ≤ 512) }
    requires end { end < 2 ^ 62 }
    ensures on { from ≤ result }
    ensures busy { (shelves : spec.Shelves)
        → spec.AreKnownOf (λ number. Unit {0}) size blocks.now shelves
        → spec.AreBusy from result shelves }
{
    let mut at = from;
    while at < end && !may_be_idle(blocks, at / size) {
        at = end_of(size, at);
    }
    at
}

impl Blocks {
    /// Those of no shelves.
    pub fn new() -> Blocks
        ensures known { spec.AreKnown result [] }
        ensures none { result.others ≡ spec.no_others }
        ensures nested { spec.AreNestedIn result }
    {
        Blocks {
            are_counted: false,
            in_steps: true,
            others: NO_OTHERS,
            is_late: false,
            put_off: NONE_PUT_OFF,
            nested: MOST_SHELVES,
            small: [NO_SHELVES; MOST_SMALL],
            middle: [NO_SHELVES; MOST_MIDDLE],
            large: [NO_SHELVES; MOST_LARGE],
        }
    }

    /// Those of these shelves.
    pub fn of(shelves: &[KeptShelf]) -> Blocks
        ensures { spec.AreKnown result shelves.now }
    {
        let mut known = Blocks::new();
        for number in 0..shelves.len() {
            let kept = &shelves[number];
            known.expect(kept.shelf.height);
            known.raise(number, kept);
        }
        known.are_counted = FEW_SHELVES < shelves.len();
        known
    }

    /// Knows nothing of shelves any more, of which so many were there.
    pub fn forget(&mut self, count: usize)
        ensures { spec.AreKnown self.new [] }
    {
        if self.are_counted {
            forget_first(&mut self.small, count / SHELVES_OF_BLOCK);
            forget_first(&mut self.middle, count / SHELVES_OF_MIDDLE);
            forget_first(&mut self.large, count / SHELVES_OF_LARGE);
        }
        self.are_counted = false;
        self.in_steps = true;
        self.put_off.block = MOST_SMALL;
    }

    /// Knows these shelves in place of others. Of few nothing but how tall they are.
    pub fn know_all(&mut self, shelves: &[KeptShelf])
        ensures { spec.AreKnown self.new shelves.now }
    {
        if FEW_SHELVES < shelves.len() {
            self.know_many(shelves);
        } else {
            self.are_counted = false;
            self.in_steps = are_in_steps(shelves);
        }
    }

    /// The same where there are many.
    #[inline(never)]
    fn know_many(&mut self, shelves: &[KeptShelf])
        ensures { spec.AreKnown self.new shelves.now }
    {
        *self = Blocks::of(shelves);
    }

    /// Knows how tall a shelf is that is to be added.
    pub fn expect(&mut self, height: u16)
        ensures { self.new ≡ spec.expecting height self.old }
    {
        self.in_steps &= height % STEP == 0;
    }

    /// By how much the heights of two shelves differ at least that aren't the same.
    pub fn step(&self) -> u32
        ensures { (shelves : spec.Shelves) → spec.AreKnown self.now shelves → spec.IsStep result shelves }
    {
        if self.in_steps { u32::from(STEP) } else { 1 }
    }

    /// Where a search for a shelf with room for this width goes on that has come to the shelf of a number: at that
    /// one, or behind blocks in which none that has a height has room.
    pub(crate) fn behind_narrow(&self, from: usize, width: u32) -> usize
        requires counted { self.now.are_counted ≡ true }
        requires from { from < 2 ^ 62 }
        ensures on { from ≤ result }
        ensures small { result ≤ from + 512 }
        ensures narrow { (shelves : spec.Shelves) → spec.AreKnown self.now shelves
            → spec.AreNarrow width from result shelves }
    {
        if may_give(&self.small, from / SHELVES_OF_BLOCK, width) {
            from
        } else if may_give(&self.middle, from / SHELVES_OF_MIDDLE, width) {
            behind_narrow_small(&self.small, from, width)
        } else if may_give(&self.large, from / SHELVES_OF_LARGE, width) {
            end_of(SHELVES_OF_MIDDLE, from)
        } else {
            end_of(SHELVES_OF_LARGE, from)
        }
    }

    /// Where a search of the shelves from one on stops to ask what is known of others: behind as many as a small block has,
    /// or, where it went on in vain, behind a few of these, unless one has no room for this width.
    #[inline(always)]
    pub(crate) fn behind_wide(&self, from: usize, width: u32, in_vain: bool) -> usize
        requires { from < 2 ^ 62 }
        ensures on { from < result }
        ensures small { result ≤ from + 64 }
    {
        if !in_vain {
            return from + SHELVES_OF_BLOCK;
        }
        let first = from / SHELVES_OF_BLOCK;
        for number in first + 1..first + BLOCKS_AT_ONCE {
            if !may_give(&self.small, number, width) {
                return number * SHELVES_OF_BLOCK;
            }
        }
        (first + BLOCKS_AT_ONCE) * SHELVES_OF_BLOCK
    }

    /// Where a search for a shelf that has a height and holds nothing live goes on that has come to the shelf of a number,
    /// one of so many: at that one, or behind blocks in which there is none.
    pub fn behind_busy(&self, from: usize, count: usize) -> usize
        requires counted { self.now.are_counted ≡ true }
        requires count { count < 2 ^ 62 }
        ensures on { from ≤ result }
        ensures busy { (shelves : spec.Shelves) → spec.AreKnown self.now shelves
            → spec.AreBusy from result shelves }
    {
        let large = behind_busy_of(&self.large, SHELVES_OF_LARGE, from, count);
        if large >= count {
            return large;
        }
        let end = end_of(SHELVES_OF_LARGE, large).min(count);
        let middle = behind_busy_of(&self.middle, SHELVES_OF_MIDDLE, large, end);
        if middle >= end {
            return middle;
        }
        let end = end_of(SHELVES_OF_MIDDLE, middle).min(count);
        behind_busy_of(&self.small, SHELVES_OF_BLOCK, middle, end)
    }

    /// Knows the shelf of a number beside the others.
    fn raise(&mut self, number: usize, kept: &KeptShelf)
        ensures { self.new ≡ spec.raised number kept.now self.old }
    {
        let room = kept.widest_room;
        let is_idle = kept.is_idle();
        raise_block(&mut self.small, number / SHELVES_OF_BLOCK, room, is_idle);
        raise_block(&mut self.middle, number / SHELVES_OF_MIDDLE, room, is_idle);
        raise_block(&mut self.large, number / SHELVES_OF_LARGE, room, is_idle);
    }

    /// Keeps the blocks of the shelf of a number, which had this room, as they are known by the others, unless those were
    /// kept last.
    fn remember(&mut self, number: usize, room: u16)
        ensures { self.new ≡ spec.remembered number room self.old }
    {
        if number != self.others.number {
            self.others = Others {
                number,
                room,
                own: NO_SHELVES,
                small: block_at(&self.small, number / SHELVES_OF_BLOCK),
                middle: block_at(&self.middle, number / SHELVES_OF_MIDDLE),
                large: block_at(&self.large, number / SHELVES_OF_LARGE),
            };
        }
    }

    /// Knows the shelf of a number, which had this room and may have more, or hold nothing live any more.
    fn raise_beside(&mut self, shelves: &[KeptShelf], number: usize, room: u16)
        requires counted { self.old.are_counted ≡ true }
        requires within { number < length shelves.now }
        requires others { spec.AreOthersKnown number self.old shelves.now }
        ensures { spec.AreKnown self.new shelves.now }
    {
        let kept = &shelves[number];
        if number < self.nested {
            self.remember(number, room);
            self.raise(number, kept);
            self.keep_own(kept);
        } else {
            self.raise_alone(shelves, number);
        }
    }

    /// The same where it isn't kept how its blocks are known by the others.
    fn raise_alone(&mut self, shelves: &[KeptShelf], number: usize)
        requires counted { self.old.are_counted ≡ true }
        requires within { number < length shelves.now }
        requires others { spec.AreOthersKnown number self.old shelves.now }
        ensures { spec.AreKnown self.new shelves.now }
    {
        self.others.number = MOST_SHELVES;
        self.raise(number, &shelves[number]);
    }

    /// Keeps what a shelf has that was raised, and that its blocks are as they are to be.
    fn keep_own(&mut self, kept: &KeptShelf)
        ensures { self.new ≡ spec.with_own kept.now self.old }
    {
        self.is_late = false;
        self.others.own = known_of(kept);
    }

    /// Whether the blocks of the shelf of a number, which has this room now, are known by the others.
    fn knows_others(&self, number: usize, room: u16) -> bool
        ensures { IsTrue result → (self.now.others.number ≡ number) × (number < 4096) }
    {
        number == self.others.number && number < MOST_SHELVES && self.others.room <= room
    }

    /// Knows the blocks of the shelf of a number by the others and it.
    fn lower_again(&mut self, number: usize, kept: &KeptShelf)
        ensures { self.new ≡ spec.lowered number kept.now self.old }
    {
        let others = self.others;
        let small = with_shelf(others.small, kept);
        let middle = with_shelf(others.middle, kept);
        let large = with_shelf(others.large, kept);
        set_block(&mut self.small, number / SHELVES_OF_BLOCK, small);
        set_block(&mut self.middle, number / SHELVES_OF_MIDDLE, middle);
        set_block(&mut self.large, number / SHELVES_OF_LARGE, large);
        self.keep_own(kept);
    }

    /// Knows the shelf of a number, which may have less room, or hold something live now.
    fn lower(&mut self, shelves: &[KeptShelf], number: usize)
        requires counted { self.old.are_counted ≡ true }
        requires within { number < length shelves.now }
        requires others { spec.AreOthersKnown number self.old shelves.now }
        ensures { spec.AreKnown self.new shelves.now }
    {
        let kept = &shelves[number];
        if self.knows_others(number, kept.widest_room) {
            self.lower_again(number, kept);
            return;
        }
        let fresh = counted(shelves, first_of_block(number));
        let small = block_at(&self.small, number / SHELVES_OF_BLOCK);
        if number < self.nested && is_same(fresh, small) {
            self.keep_others(number, kept.widest_room);
        } else {
            self.recount(shelves, number, fresh);
        }
    }

    /// Keeps the blocks of the shelf of a number, which has this room now, as they stand: it and others of its small block have
    /// all that is known of that.
    fn keep_others(&mut self, number: usize, room: u16)
        ensures { self.new ≡ spec.kept_others number room self.old }
    {
        let small = block_at(&self.small, number / SHELVES_OF_BLOCK);
        self.is_late = false;
        self.others = Others {
            number,
            room,
            own: small,
            small,
            middle: block_at(&self.middle, number / SHELVES_OF_MIDDLE),
            large: block_at(&self.large, number / SHELVES_OF_LARGE),
        };
    }

    /// Knows the blocks of the shelf of a number anew, of whose small one this is known now, and keeps them so.
    #[inline(never)]
    fn recount(&mut self, shelves: &[KeptShelf], number: usize, fresh: Block)
        requires counted { self.old.are_counted ≡ true }
        requires within { number < length shelves.now }
        requires fresh { spec.AreCountedFrom (spec.first_of_block number) fresh shelves.now }
        requires others { spec.AreOthersKnown number self.old shelves.now }
        ensures { spec.AreKnown self.new shelves.now }
    {
        self.count_anew(shelves, number, fresh);
        if number < self.nested {
            self.keep_others(number, shelves[number].widest_room);
        }
    }

    /// The same, but keeps nothing of others.
    fn count_anew(&mut self, shelves: &[KeptShelf], number: usize, fresh: Block)
        requires counted { self.old.are_counted ≡ true }
        requires within { number < length shelves.now }
        requires fresh { spec.AreCountedFrom (spec.first_of_block number) fresh shelves.now }
        requires others { spec.AreOthersKnown number self.old shelves.now }
        ensures known { spec.AreKnown self.new shelves.now }
        ensures counted { self.new.are_counted ≡ true }
        ensures all { spec.AreAll self.new }
    {
        let small = number / SHELVES_OF_BLOCK;
        let middle = number / SHELVES_OF_MIDDLE;
        let large = number / SHELVES_OF_LARGE;
        self.others.number = MOST_SHELVES;
        self.is_late = false;
        set_block(&mut self.small, small, fresh);
        let fresh_middle = gathered(&self.small, middle * PARTS_OF_BLOCK);
        set_block(&mut self.middle, middle, fresh_middle);
        let fresh_large = gathered(&self.middle, large * PARTS_OF_BLOCK);
        set_block(&mut self.large, large, fresh_large);
    }

    /// Lowers the blocks of the shelf that was raised last, where that was put off, so that a search passes over them, and a
    /// block that was left as it is, once some searches found it so.
    #[inline(always)]
    pub fn settle(&mut self, shelves: &[KeptShelf])
        requires { spec.AreKnown self.old shelves.now }
        ensures { spec.AreKnown self.new shelves.now }
    {
        if self.is_late || self.put_off.is_due() {
            self.settle_all(shelves);
        }
    }

    /// The same where that shelf is yet to be lowered, or else that block.
    #[inline(never)]
    fn settle_all(&mut self, shelves: &[KeptShelf])
        requires { spec.AreKnown self.old shelves.now }
        ensures { spec.AreKnown self.new shelves.now }
    {
        if self.is_late {
            self.settle_beside(shelves, shelves.len());
            if !self.put_off.is_due() {
                return;
            }
        }
        self.lower_left(shelves);
    }

    /// Knows the small block anew that was left as it is.
    fn lower_left(&mut self, shelves: &[KeptShelf])
        requires { spec.AreKnown self.old shelves.now }
        ensures { spec.AreKnown self.new shelves.now }
    {
        let block = self.put_off.block;
        self.put_off.block = MOST_SMALL;
        self.lower_block(shelves, block);
    }

    /// Knows the small block of a number anew.
    fn lower_block(&mut self, shelves: &[KeptShelf], block: usize)
        requires { spec.AreKnown self.old shelves.now }
        ensures { spec.AreKnown self.new shelves.now }
    {
        let number = block.min(MOST_SMALL) * SHELVES_OF_BLOCK;
        if self.are_counted && number < shelves.len() {
            let fresh = counted(shelves, first_of_block(number));
            self.recount(shelves, number, fresh);
        }
    }

    /// The same before the blocks of the shelf of a number change, which isn't that one.
    #[inline(never)]
    fn settle_beside(&mut self, shelves: &[KeptShelf], number: usize)
        requires others { spec.AreOthersKnown number self.old shelves.now }
        ensures others { spec.AreOthersKnown number self.new shelves.now }
        ensures followed { (kept : spec.KeptShelf) → spec.IsFollowed number kept self.old
            → spec.IsFollowed number kept self.new }
        ensures counted { self.new.are_counted ≡ self.old.are_counted }
    {
        let late = self.others.number;
        self.is_late = false;
        if self.are_counted && late != number && late < shelves.len().min(MOST_SHELVES) {
            self.lower_again(late, &shelves[late]);
        }
    }

    /// Whether the blocks of a shelf know it as it is now, since they knew as much of it when it was raised last.
    #[inline(always)]
    fn knows_again(&self, number: usize, kept: &KeptShelf) -> bool
        ensures { IsTrue result → (self.now.others.number ≡ number) × spec.IsKnown kept.now self.now.others.own }
    {
        let own = &self.others.own;
        number == self.others.number
            && self.others.room <= kept.widest_room
            && kept.widest_room <= own.widest_room
            && (own.has_idle || !kept.is_idle())
    }

    /// Whether the blocks of the shelf that was raised last know more than there is, since it has less now.
    #[inline(always)]
    fn knows_more(&self, kept: &KeptShelf) -> bool {
        let own = &self.others.own;
        let rest = &self.others.small;
        kept.widest_room < own.widest_room && rest.widest_room < own.widest_room
            || own.has_idle && !kept.is_idle() && !rest.has_idle
    }

    /// Knows the shelf of a number, of which this was known before. Its blocks are looked at where more is to be known of it
    /// now, or less may be. Those of the shelf that was raised last are left as they are while they know enough of it.
    #[inline(always)]
    pub fn follow(&mut self, shelves: &[KeptShelf], number: usize, before: Block)
        requires within { number < length shelves.now }
        requires before { self.old.are_counted ≡ true
            → spec.IsFollowedUpTo number (spec.height_at shelves.now number) before.widest_room self.old }
        requires others { spec.AreOthersKnown number self.old shelves.now }
        ensures { spec.AreKnown self.new shelves.now }
    {
        if self.follows_at_once(shelves, number, before) {
            return;
        }
        if !self.leaves_again(number, before.widest_room, &shelves[number]) {
            self.follow_change(shelves, number, before);
        }
    }

    /// The same where the shelf has no less than before: then its blocks have to know more of it.
    #[inline(always)]
    pub fn follow_returned(&mut self, shelves: &[KeptShelf], number: usize, before: Block)
        requires within { number < length shelves.now }
        requires before { self.old.are_counted ≡ true
            → spec.IsFollowedUpTo number (spec.height_at shelves.now number) before.widest_room self.old }
        requires others { spec.AreOthersKnown number self.old shelves.now }
        ensures { spec.AreKnown self.new shelves.now }
    {
        if self.follows_at_once(shelves, number, before) {
            return;
        }
        if self.is_late {
            self.follow_late(shelves, number, before);
        } else {
            self.raise_beside(shelves, number, before.widest_room);
        }
    }

    /// The same where the shelf holds nothing live any more. Where its blocks know as much already, by another one, nothing
    /// is raised.
    #[inline(always)]
    pub fn follow_emptied(&mut self, shelves: &[KeptShelf], number: usize, before: Block)
        requires within { number < length shelves.now }
        requires before { self.old.are_counted ≡ true
            → spec.IsFollowedUpTo number (spec.height_at shelves.now number) before.widest_room self.old }
        requires others { spec.AreOthersKnown number self.old shelves.now }
        ensures { spec.AreKnown self.new shelves.now }
    {
        if !self.are_counted {
            return;
        }
        if self.others.number < MOST_SHELVES {
            self.follow_emptied_first(shelves, number, before);
        } else if !self.knows_idle(number, shelves[number].widest_room) {
            self.raise_emptied(shelves, number);
        }
    }

    /// The same where its small block may know less, and nothing is kept of others.
    fn raise_emptied(&mut self, shelves: &[KeptShelf], number: usize)
        requires counted { self.old.are_counted ≡ true }
        requires within { number < length shelves.now }
        requires none { 4096 ≤ self.old.others.number }
        requires others { spec.AreOthersKnown number self.old shelves.now }
        ensures { spec.AreKnown self.new shelves.now }
    {
        let emptied = &shelves[number];
        if number < self.nested {
            self.raise_nested(number, emptied);
        } else {
            self.raise(number, emptied);
        }
    }

    /// Knows the shelf of a number beside the others, where what is known of its small block is known of the larger ones: these
    /// stay as they are where the middle one knows it.
    fn raise_nested(&mut self, number: usize, kept: &KeptShelf)
        requires nested { spec.AreNestedIn self.old }
        requires within { number < self.old.nested }
        ensures { self.new ≡ spec.raised number kept.now self.old }
    {
        let room = kept.widest_room;
        let is_idle = kept.is_idle();
        let middle = number / SHELVES_OF_MIDDLE;
        let large = number / SHELVES_OF_LARGE;
        raise_block(&mut self.small, number / SHELVES_OF_BLOCK, room, is_idle);
        if !knows_shelf(&self.middle, middle, kept) {
            raise_block(&mut self.middle, middle, room, is_idle);
            raise_block(&mut self.large, large, room, is_idle);
        }
    }

    /// The same where it is kept how the blocks of a shelf are known by others. That is given up once nothing is raised:
    /// where one shelf after another is emptied it would be kept in vain.
    #[inline(always)]
    fn follow_emptied_first(&mut self, shelves: &[KeptShelf], number: usize, before: Block)
        requires counted { self.old.are_counted ≡ true }
        requires within { number < length shelves.now }
        requires before { spec.IsFollowedUpTo number (spec.height_at shelves.now number)
            before.widest_room self.old }
        requires others { spec.AreOthersKnown number self.old shelves.now }
        ensures { spec.AreKnown self.new shelves.now }
    {
        let room = before.widest_room;
        let emptied = shelves[number].widest_room;
        if number == self.others.number {
            self.follow_returned(shelves, number, before);
        } else if self.takes_over(number, emptied) && self.knows_idle(number, emptied) {
            self.others.number = MOST_SHELVES;
            self.is_late = false;
        } else if self.is_late {
            self.follow_late(shelves, number, before);
        } else {
            self.raise_beside(shelves, number, room);
        }
    }

    /// Whether a shelf with this room has all that is known of its small block, so that nothing is to be lowered.
    #[inline(always)]
    fn takes_over(&self, number: usize, room: u16) -> bool {
        !self.is_late
            || number / SHELVES_OF_BLOCK == self.others.number / SHELVES_OF_BLOCK
                && room == self.others.own.widest_room
    }

    /// Whether the blocks of the shelf of a number know it with this room and nothing live.
    #[inline(always)]
    fn knows_idle(&self, number: usize, room: u16) -> bool
        requires { self.now.nested ≤ 4096 }
        ensures { IsTrue result → spec.KnowsIdle number room self.now }
    {
        if number >= self.nested {
            return false;
        }
        let block = &self.small[number / SHELVES_OF_BLOCK];
        room <= block.widest_room && block.has_idle
    }

    /// Knows the shelf of a number, of which this was known before, where that is known as it was or raised last, and says
    /// whether it is.
    #[inline(always)]
    fn follows_at_once(&mut self, shelves: &[KeptShelf], number: usize, before: Block) -> bool
        requires within { number < length shelves.now }
        requires before { self.old.are_counted ≡ true
            → spec.IsFollowedUpTo number (spec.height_at shelves.now number) before.widest_room self.old }
        requires others { spec.AreOthersKnown number self.old shelves.now }
        ensures known { IsTrue result → spec.AreKnown self.new shelves.now }
        ensures same { IsFalse result → self.new ≡ self.old }
        ensures counted { IsFalse result → self.old.are_counted ≡ true }
    {
        if !self.are_counted {
            return true;
        }
        let kept = &shelves[number];
        if stays_equal(before, kept) {
            return true;
        }
        if !self.knows_again(number, kept) {
            return false;
        }
        self.is_late = self.knows_more(kept);
        true
    }

    /// Knows the shelf of a number, of which this was known before, and more or less may be now. It is seldom
    /// called, so that those who follow a shelf needn't keep what it uses.
    #[inline(never)]
    fn follow_change(&mut self, shelves: &[KeptShelf], number: usize, before: Block)
        requires counted { self.old.are_counted ≡ true }
        requires within { number < length shelves.now }
        requires before { spec.IsFollowedUpTo number (spec.height_at shelves.now number)
            before.widest_room self.old }
        requires others { spec.AreOthersKnown number self.old shelves.now }
        ensures { spec.AreKnown self.new shelves.now }
    {
        if self.is_late {
            self.follow_late(shelves, number, before);
        } else {
            self.follow_alone(shelves, number, before);
        }
    }

    /// The same where the shelf that was raised last is yet to be lowered, which may be this one.
    #[inline(never)]
    fn follow_late(&mut self, shelves: &[KeptShelf], number: usize, before: Block)
        requires counted { self.old.are_counted ≡ true }
        requires within { number < length shelves.now }
        requires before { spec.IsFollowedUpTo number (spec.height_at shelves.now number)
            before.widest_room self.old }
        requires others { spec.AreOthersKnown number self.old shelves.now }
        ensures { spec.AreKnown self.new shelves.now }
    {
        if number == self.others.number {
            self.lower(shelves, number);
        } else {
            self.settle_beside(shelves, number);
            self.follow_alone(shelves, number, before);
        }
    }

    /// Whether the small block of the shelf of a number, which had this room, is left as it is: it knows the shelf, and shelves
    /// of it narrow now and then.
    fn leaves(&mut self, number: usize, room: u16, kept: &KeptShelf) -> bool
        ensures known { IsTrue result → (kept.now.widest_room ≤ room) × (is_kept_idle kept.now ≡ false) }
        ensures same { self.new ≡ spec.putting_off self.new.put_off self.old }
    {
        let block = number / SHELVES_OF_BLOCK;
        if !self.put_off.comes_back(block) {
            return false;
        }
        if !stays_known(room, kept) || number == self.others.number {
            return false;
        }
        self.put_off.leave(block);
        true
    }

    /// The same where it is left already.
    #[inline(always)]
    fn leaves_again(&mut self, number: usize, room: u16, kept: &KeptShelf) -> bool
        ensures known { IsTrue result → (kept.now.widest_room ≤ room) × (is_kept_idle kept.now ≡ false) }
        ensures same { IsFalse result → self.new ≡ self.old }
        ensures left { IsTrue result → self.new ≡ spec.putting_off self.new.put_off self.old }
    {
        if self.put_off.block != number / SHELVES_OF_BLOCK || number == self.others.number {
            return false;
        }
        if !stays_known(room, kept) {
            return false;
        }
        self.put_off.searches = 0;
        true
    }

    /// The same where no other shelf is yet to be lowered.
    #[inline(always)]
    fn follow_alone(&mut self, shelves: &[KeptShelf], number: usize, before: Block)
        requires counted { self.old.are_counted ≡ true }
        requires within { number < length shelves.now }
        requires before { spec.IsFollowedUpTo number (spec.height_at shelves.now number)
            before.widest_room self.old }
        requires others { spec.AreOthersKnown number self.old shelves.now }
        ensures { spec.AreKnown self.new shelves.now }
    {
        let kept = &shelves[number];
        let room = before.widest_room;
        let wider = u32::from(room) + 1;
        let narrows = kept.widest_room < room
            && !may_give(&self.small, number / SHELVES_OF_BLOCK, wider);
        if narrows || before.has_idle && !kept.is_idle() {
            if !self.leaves(number, room, kept) {
                self.lower(shelves, number);
            }
        } else if !stays_known(room, kept) {
            self.raise_beside(shelves, number, room);
        }
    }

    /// Knows the last shelf beside the others. Where it is one more than a few, all are counted.
    pub fn add_last(&mut self, shelves: &[KeptShelf])
        requires some { 0 < length shelves.now }
        requires others { spec.AreOthersKnown (length shelves.now - 1) self.old shelves.now }
        ensures { spec.AreKnown self.new shelves.now }
    {
        let last = shelves.len() - 1;
        if self.are_counted {
            self.begin_blocks(shelves, last);
            self.raise_beside(shelves, last, 0);
        } else if last == FEW_SHELVES {
            self.count(shelves);
        }
    }

    /// Knows nothing of the blocks that begin with the last shelf, where that is the first behind those that are nested.
    #[inline(always)]
    fn begin_blocks(&mut self, shelves: &[KeptShelf], last: usize)
        requires counted { self.old.are_counted ≡ true }
        requires last { length shelves.now ≡ last + 1 }
        requires others { spec.AreOthersKnown last self.old shelves.now }
        ensures others { spec.AreOthersKnown last self.new shelves.now }
        ensures counted { self.new.are_counted ≡ true }
    {
        if last == self.nested && last < MOST_SHELVES {
            self.begin_small(last);
        }
    }

    /// The same where it is the first of these.
    #[inline(never)]
    fn begin_small(&mut self, last: usize)
        requires { last < 4096 }
        ensures { self.new ≡ spec.begun last self.old }
    {
        self.others = NO_OTHERS;
        self.is_late = false;
        self.nested = last + SHELVES_OF_BLOCK;
        set_block(&mut self.small, last / SHELVES_OF_BLOCK, NO_SHELVES);
        if last % SHELVES_OF_MIDDLE == 0 {
            set_block(&mut self.middle, last / SHELVES_OF_MIDDLE, NO_SHELVES);
        }
    }

    /// Knows all shelves, no more than stand in a middle block.
    #[inline(never)]
    fn count(&mut self, shelves: &[KeptShelf])
        requires few { length shelves.now ≤ 64 }
        requires steps { self.old.in_steps ≡ true → spec.AreInSteps shelves.now }
        ensures { spec.AreKnown self.new shelves.now }
    {
        count_first(&mut self.small, shelves);
        let all = gathered(&self.small, 0);
        set_block(&mut self.middle, 0, all);
        set_block(&mut self.large, 0, all);
        self.nested = SHELVES_OF_MIDDLE;
        self.others = NO_OTHERS;
        self.is_late = false;
        self.are_counted = true;
    }

    /// Knows the shelves that are left after some were dropped, and that of a number changed, if it is left. Nothing is
    /// known any more of half as many as are few.
    #[inline(always)]
    pub fn follow_dropped(&mut self, shelves: &[KeptShelf], number: usize)
        requires { spec.AreOthersKnown number self.old shelves.now }
        ensures { spec.AreKnown self.new shelves.now }
    {
        if shelves.len() < FEW_SHELVES / 2 {
            self.are_counted = false;
        } else if number < shelves.len() {
            self.follow_left(shelves, number);
        }
    }

    /// The same where that shelf is left, and enough others.
    #[inline(never)]
    fn follow_left(&mut self, shelves: &[KeptShelf], number: usize)
        requires within { number < length shelves.now }
        requires others { spec.AreOthersKnown number self.old shelves.now }
        ensures { spec.AreKnown self.new shelves.now }
    {
        if !self.are_counted {
            return;
        }
        self.settle_beside(shelves, number);
        let fresh = counted(shelves, first_of_block(number));
        self.recount(shelves, number, fresh);
    }

    /// Knows the shelf of a number beside the others, which got a height.
    #[inline(never)]
    pub fn know_anew(&mut self, shelves: &[KeptShelf], number: usize)
        requires within { number < length shelves.now }
        requires others { spec.AreOthersKnown number self.old shelves.now }
        ensures { spec.AreKnown self.new shelves.now }
    {
        if self.are_counted {
            if self.is_late {
                self.settle_beside(shelves, number);
            }
            self.raise_alone(shelves, number);
        }
    }
}
