//! How tall neighbouring shelves are at most and at least, so that a search passes over those that are too low, or waste too
//! much.
//!
//! Definitions: `Private/Heights`. What is known of the tallest may be too much, never too little, and of the lowest the
//! other way round. Where no more shelves stand than a search goes through anyway nothing need be known.

ghost use Rattle.std.specs.Prelude.{◌≡◌, ◌-◌, ◌+◌, ◌<◌, ◌≤◌, ◌^◌, IsTrue, Some, length, false, take};
ghost use Rattle.etagere_links.specs.Edits.{changed_by};
ghost use Rattle.bucket_index.specs.Private.Heights as spec;

use crate::blocks::{FEW_SHELVES, end_of};
use bucketed_records::records::KeptShelf;

/// How many shelves stand in a small block.
const SHELVES_OF_SMALL: usize = 16;

/// How many shelves stand in a large block.
const SHELVES_OF_LARGE: usize = 256;

/// Of how many small blocks something is known: enough for the most shelves that there can be.
const MOST_SMALL: usize = 256;

/// Of how many large blocks.
const MOST_LARGE: usize = 16;

/// How tall the shelves of a block are.
#[derive(Clone, Copy)]
pub struct HeightRange {
    /// None that has a height is lower.
    pub lowest: u16,
    /// None is taller.
    pub tallest: u16,
}

/// No shelf has a height.
const NO_HEIGHTS: HeightRange = HeightRange {
    lowest: u16::MAX,
    tallest: 0,
};

/// How tall the shelves of each block are, in two sizes. Before there are more shelves than in a small block of `Blocks`
/// nothing is known of them.
#[derive(Clone, Copy)]
pub struct Heights {
    pub are_known: bool,
    pub small: [HeightRange; MOST_SMALL],
    pub large: [HeightRange; MOST_LARGE],
}

/// Knows a shelf of this height in a block.
fn widen(ranges: &mut [HeightRange], block: usize, height: u16)
    ensures { ranges.new ≡ changed_by (Some block) (spec.widened height) ranges.old }
{
    if block < ranges.len() {
        let range = &mut ranges[block];
        range.lowest = height.min(range.lowest);
        range.tallest = height.max(range.tallest);
    }
}

/// Knows that no shelf of a block has a height.
fn empty(ranges: &mut [HeightRange], block: usize)
    ensures { ranges.new ≡ changed_by (Some block) (λ _. spec.no_heights) ranges.old }
{
    if block < ranges.len() {
        let range = &mut ranges[block];
        range.lowest = NO_HEIGHTS.lowest;
        range.tallest = NO_HEIGHTS.tallest;
    }
}

/// Whether each shelf of a block that has a height is lower than one height, or each is as tall as another.
fn are_outside(ranges: &[HeightRange], block: usize, across: u32, too_tall: u32) -> bool
    ensures within { IsTrue result → block < length ranges.now }
    ensures outside { IsTrue result → spec.AreOutside across too_tall ranges.now block }
{
    if block >= ranges.len() {
        return false;
    }
    let range = &ranges[block];
    u32::from(range.tallest) < across || too_tall <= u32::from(range.lowest)
}

impl Heights {
    /// Those of no shelves.
    pub fn new() -> Heights
        ensures { result.are_known ≡ false }
    {
        Heights {
            are_known: false,
            small: [NO_HEIGHTS; MOST_SMALL],
            large: [NO_HEIGHTS; MOST_LARGE],
        }
    }

    /// Those of these shelves.
    pub fn of(shelves: &[KeptShelf]) -> Heights
        ensures { spec.AreBelow result shelves.now }
    {
        let mut heights = Heights::new();
        if FEW_SHELVES < shelves.len() {
            heights.learn(shelves);
        }
        heights
    }

    /// Knows these shelves in place of others.
    pub fn know_all(&mut self, shelves: &[KeptShelf])
        ensures { spec.AreBelow self.new shelves.now }
    {
        if FEW_SHELVES < shelves.len() {
            self.learn(shelves);
        } else {
            self.are_known = false;
        }
    }

    /// Knows nothing any more.
    pub fn forget(&mut self)
        ensures { self.new.are_known ≡ false }
    {
        self.are_known = false;
    }

    /// Knows how tall these shelves are.
    fn learn(&mut self, shelves: &[KeptShelf])
        ensures { spec.AreAllWithin self.new shelves.now }
    {
        self.are_known = true;
        for number in 0..shelves.len() {
            let kept = &shelves[number];
            self.add_behind(number, kept.shelf.height);
        }
    }

    /// Knows that the shelf of a number is so tall.
    pub fn add(&mut self, number: usize, height: u16)
        ensures { self.new ≡ spec.with_height number height self.old }
    {
        widen(&mut self.small, number / SHELVES_OF_SMALL, height);
        widen(&mut self.large, number / SHELVES_OF_LARGE, height);
    }

    /// Knows that the shelf of a number, behind which there is none, is so tall.
    fn add_behind(&mut self, number: usize, height: u16)
        ensures { self.new ≡ spec.with_height number height (spec.begun number self.old) }
    {
        if number % SHELVES_OF_SMALL == 0 {
            self.begin(number);
        }
        self.add(number, height);
    }

    /// Knows nothing of the blocks that begin with the shelf of a number.
    fn begin(&mut self, number: usize)
        ensures { self.new ≡ spec.begun_at number self.old }
    {
        empty(&mut self.small, number / SHELVES_OF_SMALL);
        if number % SHELVES_OF_LARGE == 0 {
            empty(&mut self.large, number / SHELVES_OF_LARGE);
        }
    }

    /// Knows the last shelf beside the others. Where it is one more than a search goes through anyway, all are known.
    pub fn add_last(&mut self, shelves: &[KeptShelf])
        requires some { 0 < length shelves.now }
        requires others { spec.AreBelow self.old (take (length shelves.now - 1) shelves.now) }
        ensures { spec.AreBelow self.new shelves.now }
    {
        let last = shelves.len() - 1;
        if self.are_known {
            let kept = &shelves[last];
            self.add_behind(last, kept.shelf.height);
        } else if last == FEW_SHELVES {
            self.learn(shelves);
        }
    }

    /// Where a search for a shelf that is so tall and wastes less than this goes on that has come to the shelf of a number, one
    /// of so many: at that one, or behind blocks in which each is too low or wastes as much.
    pub(crate) fn behind_unfit(&self, from: usize, across: u32, limit: u32, count: usize) -> usize
        requires across { 0 < across }
        requires count { count < 2 ^ 62 }
        ensures on { from ≤ result }
        ensures unfit { (shelves : spec.Shelves) → spec.AreBelow self.now shelves
            → spec.AreUnfit across limit from result shelves }
    {
        if !self.are_known {
            return from;
        }
        let too_tall = across.saturating_add(limit);
        let mut at = from;
        while at < count {
            if are_outside(&self.large, at / SHELVES_OF_LARGE, across, too_tall) {
                at = end_of(SHELVES_OF_LARGE, at);
            } else if are_outside(&self.small, at / SHELVES_OF_SMALL, across, too_tall) {
                at = end_of(SHELVES_OF_SMALL, at);
            } else {
                break;
            }
        }
        at
    }
}
