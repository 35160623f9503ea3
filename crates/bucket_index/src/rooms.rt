//! How many bucket records can give which width, so that no exact bucket is looked for where there is none.
//!
//! Definitions: `Private/Rooms`. Widths share slots, and unused records may be counted: what is counted may be too much,
//! never too little. Where there are few records nothing is counted.

ghost use Rattle.std.specs.Prelude.{IsFalse, ◌≡◌, ◌<◌, Some, List, length, slice_get};
ghost use Rattle.etagere_links.specs.Edits.{changed_by};
ghost use Rattle.bucketed_records.specs.declared.records.LinkedBucket.{LinkedBucket};
ghost use Rattle.bucket_index.specs.Private.Rooms as spec;

use bucketed_records::records::{LinkedBucket, record_room};

/// In how many slots they are counted.
const SLOTS: usize = 512;

/// No more records than this are counted.
const FEW_RECORDS: usize = 64;

/// Where so many items in turn got just the room that was found, and one for each eight records, nothing is counted any more:
/// that has told nothing of late.
const EXACT_IN_TURN: usize = 32;

/// Where so many items in turn came back, and one for each eight records, nothing is counted any more: it may be long until
/// one is placed. After each time it takes twice as many, up to this often.
const RETURNED_IN_TURN: usize = 32;

const MOST_PATIENCE: u32 = 6;

/// How many records can give a width of each slot. What is counted as 65535 may be more.
#[derive(Clone, Copy)]
pub struct Rooms {
    pub are_counted: bool,
    /// How many items in turn got just the room that was found, since they are counted.
    pub exact: usize,
    /// How many items may come back in turn before nothing is counted any more, and how many more may.
    pub in_turn: usize,
    pub left: usize,
    /// How often many came back in turn.
    pub patience: u32,
    pub counts: [u16; SLOTS],
}

/// The slot of a width.
fn slot_of(width: u32) -> usize
    ensures { result ≡ spec.slot_of width }
{
    width as usize % SLOTS
}

/// So many more than a count.
fn more_by(count: u16, more: u16) -> u16
    ensures { result ≡ spec.more_by more count }
{
    count.saturating_add(more)
}

/// One less than a count, unless that may be more.
fn one_less(count: u16) -> u16
    ensures { result ≡ spec.one_less count }
{
    if count < u16::MAX {
        count.saturating_sub(1)
    } else {
        count
    }
}

/// Counts so many more in a slot.
fn raise(counts: &mut [u16], slot: usize, more: u16)
    ensures { counts.new ≡ changed_by (Some slot) (spec.more_by more) counts.old }
{
    if slot < counts.len() {
        let count = &mut counts[slot];
        *count = more_by(*count, more);
    }
}

/// Counts one less in a slot.
fn lower(counts: &mut [u16], slot: usize)
    ensures { counts.new ≡ changed_by (Some slot) spec.one_less counts.old }
{
    if slot < counts.len() {
        let count = &mut counts[slot];
        *count = one_less(*count);
    }
}

/// The width that the record of a number can give.
fn room_at(buckets: &[LinkedBucket], number: usize) -> u16
    requires { number < length buckets.now }
    ensures { (bucket : LinkedBucket) → slice_get buckets.now number ≡ Some bucket
        → result ≡ spec.record_room bucket }
{
    record_room(&buckets[number])
}

impl Rooms {
    /// Nothing is counted.
    pub fn uncounted() -> Rooms
        ensures { (buckets : List LinkedBucket) → spec.AreCounted result buckets }
    {
        Rooms {
            are_counted: false,
            exact: 0,
            in_turn: 0,
            left: 0,
            patience: 0,
            counts: [0; SLOTS],
        }
    }

    /// Counts all of these records, where many items came back in turn so often before.
    fn of(buckets: &[LinkedBucket], patience: u32) -> Rooms
        ensures { spec.AreCounted result buckets.now }
    {
        let in_turn = (RETURNED_IN_TURN + buckets.len() / 8) << patience.min(MOST_PATIENCE);
        let mut rooms = Rooms {
            are_counted: true,
            exact: 0,
            in_turn,
            left: in_turn,
            patience,
            counts: [0; SLOTS],
        };
        for number in 0..buckets.len() {
            let slot = slot_of(u32::from(record_room(&buckets[number])));
            raise(&mut rooms.counts, slot, 1);
        }
        rooms
    }

    /// Forgets what was counted.
    pub fn forget(&mut self)
        ensures { (buckets : List LinkedBucket) → spec.AreCounted self.new buckets }
    {
        self.are_counted = false;
    }

    /// Counts all of these records, unless they are few or counted, where one of them gives an item this wide and has other
    /// room: then an exact one was looked for in the other ones of so many shelves. Where many have just the room in turn,
    /// what was counted is forgotten.
    #[inline(always)]
    pub fn count_unless_exact(
        &mut self,
        shelves: usize,
        buckets: &[LinkedBucket],
        room: u16,
        width: u32,
    )
        requires { spec.AreCounted self.old buckets.now }
        ensures { spec.AreCounted self.new buckets.now }
    {
        let are_many = buckets.len() > FEW_RECORDS && shelves > 1;
        let is_exact = u32::from(room) == width;
        if self.are_counted {
            self.left = self.in_turn;
            self.count_exact(is_exact, buckets.len());
        } else if !is_exact && are_many {
            self.count(buckets);
        }
    }

    /// Counts that a search of so many records found just the room, or that one didn't. Where many did in turn, what was counted
    /// is forgotten.
    fn count_exact(&mut self, is_exact: bool, records: usize)
        ensures { (buckets : List LinkedBucket) → spec.AreCounted self.old buckets
            → spec.AreCounted self.new buckets }
    {
        if !is_exact {
            self.exact = 0;
        } else if self.exact < EXACT_IN_TURN + records / 8 {
            self.exact += 1;
        } else {
            self.are_counted = false;
        }
    }

    /// Counts all of these records.
    #[inline(never)]
    fn count(&mut self, buckets: &[LinkedBucket])
        ensures { spec.AreCounted self.new buckets.now }
    {
        *self = Rooms::of(buckets, self.patience);
    }

    /// Whether a record may give just this width.
    pub fn may_give(&self, width: u32) -> bool
        ensures { IsFalse result → (buckets : List LinkedBucket) → spec.AreCounted self.now buckets
            → spec.tally (spec.slot_of width) buckets ≡ 0 }
    {
        let slot = slot_of(width);
        !self.are_counted || slot >= self.counts.len() || self.counts[slot] > 0
    }

    /// Knows the record of a number, which could give this width before.
    #[inline(always)]
    pub fn follow_record(&mut self, buckets: &[LinkedBucket], number: usize, before: u16)
        requires { number < length buckets.now }
        ensures { (others : List LinkedBucket) (bucket : LinkedBucket)
            → slice_get buckets.now number ≡ Some bucket
            → spec.AreCounted self.old others
            → spec.IsOneChanged before (spec.record_room bucket) others buckets.now
            → spec.AreCounted self.new buckets.now }
    {
        if self.are_counted {
            self.change(before, room_at(buckets, number));
        }
    }

    /// The same where an item came back. Where many do in turn, what was counted is forgotten.
    #[inline(always)]
    pub fn follow_return(&mut self, buckets: &[LinkedBucket], number: usize, before: u16)
        requires { number < length buckets.now }
        ensures { (others : List LinkedBucket) (bucket : LinkedBucket)
            → slice_get buckets.now number ≡ Some bucket
            → spec.AreCounted self.old others
            → spec.IsOneChanged before (spec.record_room bucket) others buckets.now
            → spec.AreCounted self.new buckets.now }
    {
        if !self.are_counted {
            return;
        }
        if self.left == 0 {
            self.give_up();
            return;
        }
        self.left -= 1;
        self.change(before, room_at(buckets, number));
    }

    /// Forgets what was counted, since many items came back in turn.
    #[inline(never)]
    fn give_up(&mut self)
        ensures { (buckets : List LinkedBucket) → spec.AreCounted self.new buckets }
    {
        self.patience = self.patience.saturating_add(1);
        self.are_counted = false;
    }

    /// Knows that a record can give another width than before.
    #[inline(always)]
    fn change(&mut self, before: u16, after: u16)
        ensures { (buckets : List LinkedBucket) (others : List LinkedBucket)
            → spec.AreCounted self.old buckets
            → spec.IsOneChanged before after buckets others
            → spec.AreCounted self.new others }
    {
        lower(&mut self.counts, slot_of(u32::from(before)));
        raise(&mut self.counts, slot_of(u32::from(after)), 1);
    }

    /// Knows so many records more, each of which can give a width.
    pub fn add(&mut self, width: u16, more: u16)
        ensures { (buckets : List LinkedBucket) (others : List LinkedBucket)
            → spec.AreCounted self.old buckets
            → spec.AreMore width more buckets others
            → spec.AreCounted self.new others }
    {
        if self.are_counted {
            raise(&mut self.counts, slot_of(u32::from(width)), more);
        }
    }
}
