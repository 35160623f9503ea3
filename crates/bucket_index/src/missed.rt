//! Sizes for which no shelf has a place, so that neither they nor larger ones are looked for again. Where shelves can be
//! added, those are left out that waste too much, and it holds for sizes as tall.
//!
//! Definitions: `Private/Missed`. Nothing is said of one shelf, which may have got a place since, or was added, nor of the
//! last few, which come and go: a search looks at these alone. Two sizes are remembered, since often two come in turn.

ghost use Rattle.std.specs.Prelude.{ℕ, ◌≡◌, ◌<◌, ◌≤◌, IfSome, IsFalse, IsTrue, List, None, Some, slice_get, true};
ghost use Rattle.bucketed_records.specs.declared.records.KeptShelf.{KeptShelf};
ghost use Rattle.bucket_index.specs.Private.Missed as spec;

use crate::searching::{limit_beside, waste_below};
use bucketed_records::records::KeptShelf;
use etagere_base::Sides;

/// The number of no shelf.
pub(crate) const NO_SHELF: usize = 65535;

/// So many shelves at most stand near the end.
pub(crate) const NEAR_END: usize = 8;

/// Where nothing is said of more shelves at the end than this, sizes are learned anew.
const LONGEST_TAIL: usize = 16;

/// The size that was missed last, and another one that was missed before it.
#[derive(Clone, Copy)]
pub struct TwoSizes {
    pub last: Sides,
    pub before: Option<Sides>,
}

/// The sides of items for which no shelf has a place, but for one and the last few, where such are known.
#[derive(Clone, Copy)]
pub struct Missed {
    pub sizes: Option<TwoSizes>,
    /// Whether shelves were left out that waste too much, since shelves can be added.
    pub adds: bool,
    /// The number of the shelf of which nothing is said.
    pub except: usize,
    /// The number from which on nothing is said of shelves.
    pub tail: usize,
}

/// Whether a shelf has a place for these sides, and doesn't waste too much where shelves can be added.
fn has_place(adds: bool, sides: &Sides, kept: &KeptShelf) -> bool
    ensures { IsFalse result → spec.IsWithout adds sides.now kept.now }
{
    let limit = limit_beside(adds, sides, &None);
    waste_below(limit, sides, kept).is_some()
}

/// Whether there is no shelf of a number, or it has no place for these sides.
fn is_without(adds: bool, sides: &Sides, shelves: &[KeptShelf], number: usize) -> bool
    ensures { IsTrue result → (kept : KeptShelf) → slice_get shelves.now number ≡ Some kept
        → spec.IsWithout adds sides.now kept }
{
    number >= shelves.len() || !has_place(adds, sides, &shelves[number])
}

/// Whether a shelf without a place for what was missed has none for these sides either: they are no smaller, and as tall
/// where shelves were left out that waste too much.
fn is_covered(left_out: bool, missed: &Sides, adds: bool, sides: &Sides) -> bool
    requires { left_out ≡ true → adds ≡ true }
    ensures { IsTrue result → (kept : KeptShelf) → spec.IsWithout left_out missed.now kept
        → spec.IsWithout adds sides.now kept }
{
    let is_tall = if left_out {
        missed.across == sides.across
    } else {
        missed.across <= sides.across
    };
    is_tall && missed.along <= sides.along
}

impl TwoSizes {
    /// Just this size.
    fn one(sides: Sides) -> TwoSizes
        ensures { result ≡ record { last = sides; before = None } }
    {
        TwoSizes {
            last: sides,
            before: None,
        }
    }

    /// This size, and the one that it leaves: what was missed last, unless it tells as much as that.
    fn with(&self, adds: bool, sides: Sides) -> TwoSizes
        ensures { (except tail : ℕ) (shelves : List KeptShelf)
            → spec.IsMissedSize adds except tail sides shelves
            → spec.AreMissed adds except tail self.now shelves
            → spec.AreMissed adds except tail result shelves }
    {
        let before = if is_covered(adds, &sides, adds, &self.last) {
            self.before
        } else {
            Some(self.last)
        };
        TwoSizes {
            last: sides,
            before,
        }
    }

    /// Whether there is no shelf of a number, or it has a place for neither of these two sizes.
    fn are_without(&self, adds: bool, shelves: &[KeptShelf], number: usize) -> bool
        ensures last { IsTrue result → (kept : KeptShelf) → slice_get shelves.now number ≡ Some kept
            → spec.IsWithout adds self.now.last kept }
        ensures before { IsTrue result → IfSome self.now.before
            (λ before. (kept : KeptShelf) → slice_get shelves.now number ≡ Some kept
            → spec.IsWithout adds before kept) }
    {
        is_without(adds, &self.last, shelves, number)
            && match &self.before {
                Some(before) => is_without(adds, before, shelves, number),
                None => true,
            }
    }

    /// What is left of these two sizes: those for which the shelf has no place of which nothing was said, so that another
    /// one can be left out.
    fn left_of(
        last: Sides,
        before: Sides,
        adds: bool,
        shelves: &[KeptShelf],
        except: usize,
    ) -> Option<TwoSizes>
        ensures { (number tail : ℕ)
            → spec.AreMissedBeside number adds except tail
            (record { last = last; before = Some before }) shelves.now
            → IfSome result (λ sizes. spec.AreMissed adds number tail sizes shelves.now) }
    {
        let keeps = is_without(adds, &before, shelves, except);
        if is_without(adds, &last, shelves, except) {
            let before = if keeps { Some(before) } else { None };
            return Some(TwoSizes { last, before });
        }
        if keeps {
            Some(TwoSizes::one(before))
        } else {
            None
        }
    }
}

/// Whether the shelf of a number stands near the end, or behind it.
fn is_near_end(shelves: &[KeptShelf], number: usize) -> bool {
    shelves.len().saturating_sub(number) <= NEAR_END
}

/// Whether a search may look at each shelf from a number on.
pub(crate) fn is_short(shelves: &[KeptShelf], tail: usize) -> bool {
    shelves.len().saturating_sub(tail) <= LONGEST_TAIL
}

impl Missed {
    /// Nothing is known.
    pub fn none() -> Missed
        ensures { (shelves : List KeptShelf) → spec.IsMissed result shelves }
    {
        Missed {
            sizes: None,
            adds: false,
            except: NO_SHELF,
            tail: NO_SHELF,
        }
    }

    /// Forgets what is known.
    pub fn forget(&mut self)
        ensures { (shelves : List KeptShelf) → spec.IsMissed self.new shelves }
    {
        self.sizes = None;
    }

    /// Whether it is known that none of the shelves of which something is said has a place for these sides.
    #[inline(always)]
    pub(crate) fn covers(&self, adds: bool, sides: &Sides) -> bool
        ensures { IsTrue result → (shelves : List KeptShelf) → spec.IsMissed self.now shelves
            → spec.AreWithoutBut self.now.except self.now.tail adds sides.now shelves }
    {
        if self.sizes.is_none() || self.adds && !adds {
            return false;
        }
        self.misses(adds, sides)
    }

    /// The same where sizes were missed: what has no place for one of them has none for these.
    #[inline(never)]
    fn misses(&self, adds: bool, sides: &Sides) -> bool
        requires { self.now.adds ≡ true → adds ≡ true }
        ensures { IsTrue result → (shelves : List KeptShelf) → spec.IsMissed self.now shelves
            → spec.AreWithoutBut self.now.except self.now.tail adds sides.now shelves }
    {
        let Some(sizes) = &self.sizes else {
            return false;
        };
        if is_covered(self.adds, &sizes.last, adds, sides) {
            return true;
        }
        match &sizes.before {
            Some(before) => is_covered(self.adds, before, adds, sides),
            None => false,
        }
    }

    /// Whether sizes are known, and shelves were left out that aren't now, since none can be added any more: then what is known
    /// serves no search, and would be followed in vain.
    pub(crate) fn leaves_out(&self, adds: bool) -> bool {
        self.sizes.is_some() && self.adds && !adds
    }

    /// Knows that no shelf before a number has a place for these sides, and doesn't waste too much where shelves can be added.
    /// What was known stays known beside it, unless nothing is said of many shelves at the end.
    #[inline(never)]
    pub(crate) fn learn(&mut self, adds: bool, sides: &Sides, shelves: &[KeptShelf], tail: usize)
        requires some { 0 < sides.now.across }
        requires missed { spec.IsMissed self.old shelves.now }
        requires without { spec.AreWithoutBefore tail adds sides.now shelves.now }
        ensures { spec.IsMissed self.new shelves.now }
    {
        match self.sizes {
            Some(sizes) if self.adds == adds && is_short(shelves, self.tail) => {
                self.sizes = Some(sizes.with(adds, *sides));
                self.tail = tail.min(self.tail);
            }
            _ => *self = Missed::one(adds, *sides, tail),
        }
    }

    /// These sides alone, for which no shelf before a number has a place.
    fn one(adds: bool, sides: Sides, tail: usize) -> Missed
        requires some { 0 < sides.across }
        ensures { (shelves : List KeptShelf) → spec.AreWithoutBefore tail adds sides shelves
            → spec.IsMissed result shelves }
    {
        Missed {
            sizes: Some(TwoSizes::one(sides)),
            adds,
            except: NO_SHELF,
            tail,
        }
    }

    /// Knows that the shelf of a number may have got a place.
    #[inline(always)]
    pub fn follow(&mut self, shelves: &[KeptShelf], number: usize)
        requires { spec.IsMissedBeside number self.old shelves.now }
        ensures { spec.IsMissed self.new shelves.now }
    {
        if self.sizes.is_some() && number != self.except && number < self.tail {
            self.follow_another(shelves, number);
        }
    }

    /// The same after some shelves were dropped: of one that isn't left nothing is to be known.
    #[inline(always)]
    pub fn follow_left(&mut self, shelves: &[KeptShelf], number: usize)
        requires { spec.IsMissedBeside number self.old shelves.now }
        ensures { spec.IsMissed self.new shelves.now }
    {
        if number < shelves.len() {
            self.follow(shelves, number);
        }
    }

    /// The same where another one may have got a place before. If both are near the end, and that still has a place, nothing is
    /// said any more of the earlier one, nor of those from the later one on.
    #[inline(never)]
    fn follow_another(&mut self, shelves: &[KeptShelf], number: usize)
        requires { spec.IsMissedBeside number self.old shelves.now }
        ensures { spec.IsMissed self.new shelves.now }
    {
        let Some(sizes) = self.sizes else {
            return;
        };
        let first = number.min(self.except);
        if !is_near_end(shelves, first) {
            self.follow_apart(shelves, number);
        } else if sizes.are_without(self.adds, shelves, self.except) {
            self.except = number;
        } else {
            self.tail = number.max(self.except).min(self.tail);
            self.except = first;
        }
    }

    /// The same where one of them isn't near the end: sizes for which the other one has a place now are forgotten. So are all
    /// where shelves were left out and two changed that stay, not the last one now: then shelves are seldom added.
    #[inline(never)]
    fn follow_apart(&mut self, shelves: &[KeptShelf], number: usize)
        requires { spec.IsMissedBeside number self.old shelves.now }
        ensures { spec.IsMissed self.new shelves.now }
    {
        let Some(sizes) = self.sizes else {
            return;
        };
        let is_inside = self.adds && number < shelves.len().saturating_sub(1);
        if is_inside && self.except < shelves.len() {
            self.sizes = None;
        } else if let Some(before) = sizes.before {
            self.follow_two(sizes.last, before, shelves, number);
        } else if is_without(self.adds, &sizes.last, shelves, self.except) {
            self.except = number;
        } else {
            self.sizes = None;
        }
    }

    /// The same with these two sizes.
    #[inline(never)]
    fn follow_two(&mut self, last: Sides, before: Sides, shelves: &[KeptShelf], number: usize)
        requires { spec.AreMissedBeside number self.old.adds self.old.except self.old.tail
            (record { last = last; before = Some before }) shelves.now }
        ensures { spec.IsMissed self.new shelves.now }
    {
        self.sizes = TwoSizes::left_of(last, before, self.adds, shelves, self.except);
        self.except = number;
    }
}
