//! What is noted beside the list of shelves by height. A shelf that changes isn't moved in the list at once: its number is
//! noted, and before the list is searched next it follows what was noted.
//!
//! Definitions: `Pending`. A note takes no memory: there is room for the number of each shelf.
//!
//! A shelf whose free items are all narrower than what was asked for of late is parked in place of being listed: it stays
//! noted, and no search goes through it until it has changed or something as narrow is asked for.

ghost use Rattle.std.specs.Prelude.{◌≡◌, ℕ, ◌+◌, ◌<◌, ◌≤◌, ◌++◌, ◌∷◌, [], IfOk, IfSome, OnOk, false, true, get_or, length, nat_lt, replicate, vec_capacity, if◌then◌else◌};
ghost use Rattle.etagere_links.specs.Links.{no_link};
ghost use Rattle.shelf_notes.specs.Private.Pending as spec;
ghost use Rattle.shelf_notes.specs.Private.Pending.{AreTied, is_noted, is_parked, waits};

use shelf_records::LinkedShelf;
use std::alloc::{AllocError, Global};
use std::marker::Model;

/// No more searches than this are counted: more than twice as many as there can be shelves.
pub const MOST_SEARCHES: u32 = 1 << 18;

/// So many searches count as the last of them once going through all shelves was given up, where that is rare.
const RESTED_BRIEFLY: u32 = 1;

/// So many do where it was given up before, and few were gone through to the end since.
const RESTED_LONG: u32 = 32;

/// It is rare where shelves were gone through to the end as often as this since.
const RARELY_GIVEN_UP: u32 = 6;

/// So many searches do at most once a look at the first shelves was in vain.
const RESTED_FROM_LOOKS: u32 = 64;

/// No more do once a parked shelf has room again: it may be one of the first.
const RESTED_WITH_ROOM: u32 = 8;

/// So many shelves for each one that there is may be gone through in place of having all sorted.
const FAR_FOR_EACH: usize = 32;

/// So many shelves are among the first ones that are looked at.
const FIRST_SHELVES: usize = 32;

/// Where more have changed than this, the list has much to follow, and no search counts as the last.
const RESTED_WITH: usize = 2;

/// Where fewer shelves are listed, none is parked.
const LISTED_TO_PARK: usize = 64;

/// Shelves are parked below a width that is this part less than the narrowest that was asked for: one a little narrower may
/// follow.
const MARGIN: u16 = 32;

/// There are no more shelves than this.
const MOST_SHELVES: usize = 65535;

/// More often than this the time of watching isn't doubled.
const MOST_PATIENCE: u32 = 6;

/// What is known of a shelf beside the list by height.
#[derive(Clone, Copy)]
pub struct Standing {
    /// Whether the list has it.
    pub listed: bool,
    /// Whether it is in use.
    pub in_use: bool,
    /// Whether it has changed since the list followed it.
    pub noted: bool,
    /// Whether the list need not follow it, though it has changed.
    pub parked: bool,
}

impl Standing {
    /// Whether the list is to follow it.
    fn waits(self) -> bool
        ensures { result ≡ waits self }
    {
        self.noted && !self.parked
    }
}

/// What is known of a shelf of which nothing is.
pub const UNKNOWN: Standing = Standing {
    listed: false,
    in_use: false,
    noted: false,
    parked: false,
};

/// What is known of a shelf in use that the list has as it is.
pub const IN_USE: Standing = Standing {
    listed: true,
    in_use: true,
    noted: false,
    parked: false,
};

/// What is known of the shelves beside the list by height, by the numbers of their records.
#[derive(Drop)]
pub struct PendingShelves {
    /// The records as they were when the list followed them.
    kept: Vec<LinkedShelf>,
    standing: Vec<Standing>,
    /// The numbers of those that have changed since and aren't parked, each once.
    noted: Vec<u16>,
    /// No free item of a parked shelf is as wide. It is 0 where none was parked since all were listed.
    parked_below: u16,
    /// A shelf whose free items are narrower than this may be parked; none where it is 0.
    narrow_below: u16,
    /// How many searches were counted since something was noted, up to `MOST_SEARCHES`. Nothing rests on it.
    searches: u32,
    /// How many more searches count as the last of these. Nothing rests on it.
    rested: u32,
    /// How often all shelves were gone through since that was given up. Nothing rests on it.
    walks: u32,
    /// How many searches do once the next look is in vain. Nothing rests on it.
    in_vain: u32,
    /// Whether the last look at the first shelves was enough. Nothing rests on it.
    looks_serve: bool,
    /// How many shelves were gone through by searches that went far, since all were listed. Nothing rests on it.
    far: usize,
    /// What was asked for of late. Nothing rests on it.
    watch: Watch,
}

/// What was asked for since it is watched.
#[derive(Clone, Copy)]
struct Watch {
    /// The width of the narrowest.
    narrowest: u16,
    /// For how many more searches it is watched.
    left: u32,
    /// How often the time of watching was doubled.
    patience: u32,
}

/// Nothing was watched.
const UNWATCHED: Watch = Watch {
    narrowest: 0,
    left: 0,
    patience: 0,
};

impl Model for PendingShelves {
    ghost use Rattle.shelf_notes.specs.Private.Pending.{AreRoomy, RoomyNotes, notes_in};

    ghost Value = { RoomyNotes };

    ghost view = { notes_in };

    ghost invariant = { AreRoomy };
}

impl PendingShelves {
    /// Of no shelf, with room for so many.
    pub fn with_room(alloc: Global, room: usize) -> Result<PendingShelves, AllocError>
        ensures { IfOk result (λ pending. room ≤ pending.room) }
    {
        let kept = Vec::with_capacity(alloc, room)?;
        let standing = Vec::with_capacity(alloc, room)?;
        let noted = Vec::with_capacity(alloc, room)?;
        Ok(PendingShelves {
            kept,
            standing,
            noted,
            parked_below: 0,
            narrow_below: 0,
            searches: MOST_SEARCHES,
            rested: 0,
            walks: RARELY_GIVEN_UP,
            in_vain: 1,
            looks_serve: false,
            far: 0,
            watch: UNWATCHED,
        })
    }

    /// Makes room for so many shelves in all.
    pub fn reserve(&mut self, room: usize) -> Result<(), AllocError>
        ensures notes { self.new.notes ≡ self.old.notes }
        ensures room { OnOk result (room ≤ self.new.room) }
        ensures more { self.old.room ≤ self.new.room }
    {
        let more = room.saturating_sub(self.standing.len());
        self.kept.reserve(more)?;
        self.standing.reserve(more)?;
        self.noted.reserve(room.saturating_sub(self.noted.len()))
    }

    /// For how many shelves there is room.
    pub fn room(&self) -> usize
        ensures { result ≡ self.now.room }
    {
        let room = self.kept.capacity().min(self.standing.capacity());
        room.min(self.noted.capacity())
    }

    /// Equal notes that share nothing with these, with room for so many shelves.
    pub fn copied(&self, room: usize) -> Result<PendingShelves, AllocError>
        ensures notes { IfOk result (λ pending. pending.notes ≡ self.now.notes) }
        ensures room { IfOk result (λ pending. room ≤ pending.room) }
    {
        let mut noted = self.noted.clone()?;
        noted.reserve(self.standing.len().saturating_sub(noted.len()))?;
        let mut pending = PendingShelves {
            kept: self.kept.clone()?,
            standing: self.standing.clone()?,
            noted,
            parked_below: self.parked_below,
            narrow_below: self.narrow_below,
            searches: self.searches,
            rested: self.rested,
            walks: self.walks,
            in_vain: self.in_vain,
            looks_serve: self.looks_serve,
            far: self.far,
            watch: self.watch,
        };
        pending.reserve(room)?;
        Ok(pending)
    }

    /// The records as they were when the list followed them.
    pub fn kept(&self) -> &[LinkedShelf]
        ensures { result.now ≡ self.now.notes.kept }
    {
        &self.kept
    }

    /// How many shelves the list is to follow.
    pub fn len(&self) -> usize
        ensures len { result ≡ length self.now.notes.noted }
        ensures tied { AreTied self.now.notes }
    {
        self.noted.len()
    }

    /// Whether no search was counted since some were noted.
    pub fn are_unsearched(&self) -> bool {
        self.searches == 0
    }

    /// Counts a search, and says how many were counted before it since a shelf has changed, up to `MOST_SEARCHES`.
    pub fn count_search(&mut self) -> u32
        ensures notes { self.new.notes ≡ self.old.notes }
        ensures room { self.new.room ≡ self.old.room }
    {
        if self.rested > 0 && self.noted.len() <= RESTED_WITH {
            self.rested -= 1;
            self.searches = MOST_SEARCHES;
        }
        let searches = self.searches;
        self.searches = searches.min(MOST_SEARCHES - 1) + 1;
        searches
    }

    /// Counts that all shelves were gone through.
    pub fn count_walk(&mut self)
        ensures notes { self.new.notes ≡ self.old.notes }
        ensures room { self.new.room ≡ self.old.room }
    {
        self.walks = self.walks.wrapping_add(1);
    }

    /// Has some searches count as the last that are counted, since going through all shelves was given up: few where that is
    /// rare.
    pub fn rest_from_walks(&mut self)
        ensures notes { self.new.notes ≡ self.old.notes }
        ensures room { self.new.room ≡ self.old.room }
    {
        self.rested = if self.walks < RARELY_GIVEN_UP {
            RESTED_LONG
        } else {
            RESTED_BRIEFLY
        };
        self.walks = 0;
    }

    /// Counts that a look at the first shelves was enough: once one is in vain, fewer searches count as the last.
    pub fn count_look(&mut self)
        ensures notes { self.new.notes ≡ self.old.notes }
        ensures room { self.new.room ≡ self.old.room }
    {
        self.in_vain = self.in_vain.max(2) - 1;
        self.looks_serve = true;
    }

    /// Has some searches count as the last that are counted, since a look at the first shelves was in vain: four times as many
    /// as after the one before.
    pub fn rest_from_looks(&mut self)
        ensures notes { self.new.notes ≡ self.old.notes }
        ensures room { self.new.room ≡ self.old.room }
    {
        self.rested = self.in_vain;
        self.in_vain = 4 * self.in_vain.min(RESTED_FROM_LOOKS / 4);
    }

    /// Counts that a look at the first shelves was in vain.
    pub fn count_look_in_vain(&mut self)
        ensures notes { self.new.notes ≡ self.old.notes }
        ensures room { self.new.room ≡ self.old.room }
    {
        self.looks_serve = false;
    }

    /// Whether the last look at the first shelves was enough.
    pub fn looks_serve(&self) -> bool {
        self.looks_serve
    }

    /// Whether a search may go far among so many shelves, in place of having all sorted: while what was gone through so is less work
    /// than that.
    pub fn goes_far(&self, shelves: usize) -> bool {
        self.far / FAR_FOR_EACH < shelves
    }

    /// Counts that a search went through so many shelves in place of having all sorted. Where they are few, a look at the first ones
    /// would have been enough.
    pub fn count_far(&mut self, shelves: usize)
        ensures notes { self.new.notes ≡ self.old.notes }
        ensures room { self.new.room ≡ self.old.room }
    {
        self.far = self.far.saturating_add(shelves);
        if shelves <= FIRST_SHELVES {
            self.looks_serve = true;
        }
    }

    /// The number of one of them, in the order in which they changed.
    pub fn noted_at(&self, index: usize) -> usize
        requires { index < length self.now.notes.noted }
        ensures value { result ≡ get_or self.now.notes.noted index 0 }
        ensures noted { is_noted self.now.notes result ≡ true }
        ensures unparked { is_parked self.now.notes result ≡ false }
        ensures within { result < length self.now.notes.standing }
    {
        usize::from(self.noted[index])
    }

    /// What is known of a shelf.
    pub fn standing(&self, shelf: usize) -> Standing
        requires { shelf < length self.now.notes.standing }
        ensures { result ≡ spec.standing_at self.now.notes.standing shelf }
    {
        self.standing[shelf]
    }

    /// Whether a shelf has changed since the list followed it.
    pub fn is_noted(&self, shelf: usize) -> bool
        requires { shelf < length self.now.notes.standing }
        ensures { result ≡ is_noted self.now.notes shelf }
    {
        self.standing[shelf].noted
    }

    /// Whether the list has a shelf; one without an entry it hasn't.
    pub fn lists(&self, shelf: usize) -> bool
        ensures { result ≡ spec.is_listed self.now.notes shelf }
    {
        match self.standing.get(shelf) {
            Some(known) => known.listed,
            None => false,
        }
    }

    /// Notes that a shelf has changed, and whether it is in use now.
    pub fn note(&mut self, shelf: usize, in_use: bool)
        requires { shelf < length self.old.notes.standing }
        ensures notes { self.new.notes ≡ spec.noted_as shelf in_use self.old.notes }
        ensures room { self.new.room ≡ self.old.room }
    {
        let known = &mut self.standing[shelf];
        push_unless(&mut self.noted, known.waits(), shelf);
        known.in_use = in_use;
        known.noted = true;
        known.parked = false;
        self.searches = 0;
    }

    /// Notes that a shelf has changed if it is parked, so that the list follows it again. It is in use.
    pub fn unpark(&mut self, shelf: usize)
        requires { shelf < length self.old.notes.standing }
        ensures notes { self.new.notes ≡ spec.unparked shelf self.old.notes }
        ensures room { self.new.room ≡ self.old.room }
    {
        if self.standing[shelf].parked {
            self.note_parked(shelf);
        }
    }

    /// Notes that a parked shelf has changed. Never inlined, so that one that isn't parked costs no call.
    #[inline(never)]
    fn note_parked(&mut self, shelf: usize)
        requires { shelf < length self.old.notes.standing }
        ensures notes { self.new.notes ≡ spec.noted_as shelf true self.old.notes }
        ensures room { self.new.room ≡ self.old.room }
    {
        self.rested = self.rested.min(RESTED_WITH_ROOM);
        self.note(shelf, true);
    }

    /// Makes an entry for the shelf of this number, where there is none. Until the list follows the shelf, any record
    /// stands for the one that is kept of it.
    pub fn add(&mut self, shelf: usize, any: LinkedShelf)
        requires next { shelf ≤ length self.old.notes.standing }
        requires room { shelf < self.old.room }
        requires few { shelf < no_link }
        ensures notes { self.new.notes ≡ spec.with_entry shelf any self.old.notes }
        ensures room { self.new.room ≡ self.old.room }
    {
        if shelf == self.standing.len() {
            self.kept.push_reserved(any);
            self.standing.push_reserved(UNKNOWN);
        }
    }

    /// Says that the list has lost a shelf.
    pub fn unlist(&mut self, shelf: usize)
        requires { shelf < length self.old.notes.standing }
        ensures notes { self.new.notes ≡ spec.unlisted shelf self.old.notes }
        ensures room { self.new.room ≡ self.old.room }
    {
        self.standing[shelf].listed = false;
    }

    /// Says that the list has followed a shelf, whose record is this.
    pub fn list(&mut self, shelf: usize, one: LinkedShelf)
        requires { shelf < length self.old.notes.standing }
        ensures notes { self.new.notes ≡ spec.listed_as shelf one self.old.notes }
        ensures entries { length self.old.notes.kept ≡ length self.old.notes.standing }
        ensures room { self.new.room ≡ self.old.room }
    {
        self.kept[shelf] = one;
        self.standing[shelf].listed = true;
    }

    /// The number of the shelf that changed last, which is noted no more.
    pub fn pop(&mut self) -> Option<usize>
        ensures none { result ≡ None → self.old.notes.noted ≡ [] }
        ensures same { result ≡ None → self.new.notes ≡ self.old.notes }
        ensures within { IfSome result (λ shelf. shelf < length self.old.notes.standing) }
        ensures last { IfSome result (λ shelf. self.old.notes.noted ≡ self.new.notes.noted ++ shelf ∷ []) }
        ensures notes { IfSome result
            (λ shelf. self.new.notes ≡ spec.forgotten shelf self.new.notes.noted self.old.notes) }
        ensures tied { AreTied self.new.notes }
        ensures room { self.new.room ≡ self.old.room }
    {
        let shelf = usize::from(self.noted.pop()?);
        self.standing[shelf].noted = false;
        Some(shelf)
    }

    /// Parks the shelf that changed last, in place of its being followed, and gives its number.
    pub fn park_last(&mut self) -> Option<usize>
        ensures none { result ≡ None → self.old.notes.noted ≡ [] }
        ensures same { result ≡ None → self.new.notes ≡ self.old.notes }
        ensures within { IfSome result (λ shelf. shelf < length self.old.notes.standing) }
        ensures last { IfSome result (λ shelf. self.old.notes.noted ≡ self.new.notes.noted ++ shelf ∷ []) }
        ensures notes { IfSome result
            (λ shelf. self.new.notes ≡ spec.parked_as shelf self.new.notes.noted self.old.notes) }
        ensures tied { AreTied self.new.notes }
        ensures room { self.new.room ≡ self.old.room }
    {
        let shelf = usize::from(self.noted.pop()?);
        self.standing[shelf].parked = true;
        self.parked_below = self.parked_below.max(self.narrow_below);
        Some(shelf)
    }

    /// No free item of a parked shelf is as wide. It is 0 where none was parked since all were listed.
    pub fn parked_below(&self) -> u32
        ensures value { result ≡ self.now.notes.parked_below }
        ensures small { result ≤ 65535 }
    {
        u32::from(self.parked_below)
    }

    /// A shelf is to be parked where its free items are narrower than this.
    pub fn narrow_below(&self) -> u32
        ensures value { result ≡ self.now.notes.narrow_below }
        ensures small { result ≤ 65535 }
    {
        u32::from(self.narrow_below)
    }

    /// Whether some were parked since all were listed.
    pub fn has_parked(&self) -> bool
        ensures { result ≡ nat_lt 0 self.now.notes.parked_below }
    {
        self.parked_below > 0
    }

    /// Watches that something so wide is asked for, where so many shelves are listed. Once a time of watching is over,
    /// shelves are parked whose free items are narrower than all that was asked for in it, unless that was narrower than
    /// the least width for which it is worth while. What is narrower than these ends that.
    pub fn watch(&mut self, width: u32, listed: usize, least: u32)
        requires { width ≤ 65535 }
        ensures notes { self.new.notes
            ≡ record self.old.notes { narrow_below = self.new.notes.narrow_below } }
        ensures width { self.new.notes.narrow_below ≤ width }
        ensures room { self.new.room ≡ self.old.room }
    {
        if width < u32::from(self.narrow_below) {
            self.narrow_below = 0;
            self.watch_longer();
        }
        if listed >= LISTED_TO_PARK {
            self.watch_listed(width as u16, listed, least);
        }
    }

    /// The same where shelves enough are listed to park some, and what is asked for is no narrower than these.
    fn watch_listed(&mut self, width: u16, listed: usize, least: u32)
        requires { self.old.notes.narrow_below ≤ width }
        ensures notes { self.new.notes
            ≡ record self.old.notes { narrow_below = self.new.notes.narrow_below } }
        ensures width { self.new.notes.narrow_below ≤ width }
        ensures room { self.new.room ≡ self.old.room }
    {
        self.watch.narrowest = self.watch.narrowest.min(width);
        if self.watch.left > 0 {
            self.watch.left -= 1;
            return;
        }
        let below = self.watch.narrowest - self.watch.narrowest / MARGIN;
        if u32::from(below) >= least {
            self.narrow_below = self.narrow_below.max(below);
        }
        self.watch.narrowest = u16::MAX;
        self.watch.left = time_of_watching(listed, self.watch.patience);
    }

    /// Watches twice as long from now on, since something was asked for for which a parked shelf may have room.
    pub fn watch_longer(&mut self)
        ensures notes { self.new.notes ≡ self.old.notes }
        ensures room { self.new.room ≡ self.old.room }
    {
        self.watch = Watch {
            patience: self.watch.patience.min(MOST_PATIENCE - 1) + 1,
            ..UNWATCHED
        };
    }

    /// Forgets all that was known, and keeps these records, of each of which the same is known now. There is room for them.
    pub fn restart(&mut self, shelves: &[LinkedShelf], known: Standing)
        requires room { length shelves.now ≤ self.old.room }
        requires few { length shelves.now ≤ no_link }
        requires unchanged { known.noted ≡ false }
        ensures notes { self.new.notes
            ≡ record {
              kept = shelves.now;
              standing = replicate (length shelves.now) known;
              noted = [];
              parked_below = 0;
              narrow_below = 0;
            } }
        ensures room { self.new.room ≡ self.old.room }
    {
        self.parked_below = 0;
        self.narrow_below = 0;
        self.searches = MOST_SEARCHES;
        self.rested = 0;
        self.far = 0;
        self.noted.clear();
        copy_all(&mut self.kept, shelves);
        know_all(&mut self.standing, shelves.len(), known);
    }

    /// Says that the list has a shelf in use, which has not changed.
    pub fn put_to_use(&mut self, shelf: usize)
        requires within { shelf < length self.old.notes.standing }
        requires unchanged { is_noted self.old.notes shelf ≡ false }
        ensures notes { self.new.notes ≡ spec.put_to_use shelf self.old.notes }
        ensures room { self.new.room ≡ self.old.room }
    {
        self.standing[shelf] = IN_USE;
    }
}

/// In how many searches is watched what is asked for, where so many shelves are listed: as many, so that to list all
/// shelves anew takes little beside them.
fn time_of_watching(listed: usize, patience: u32) -> u32 {
    (listed.min(MOST_SHELVES) as u32) << patience.min(MOST_PATIENCE)
}

/// Adds a number at the end, for which there is room, unless it is there.
fn push_unless(numbers: &mut Vec<u16>, is_there: bool, number: usize)
    requires room { is_there ≡ false → length numbers.old.items < vec_capacity numbers.old }
    requires small { number < no_link }
    ensures items { numbers.new.items
        ≡ (if is_there then numbers.old.items else numbers.old.items ++ number ∷ []) }
    ensures capacity { vec_capacity numbers.new ≡ vec_capacity numbers.old }
{
    if !is_there {
        numbers.push_reserved(number as u16);
    }
}

/// Makes the kept records these, for which there is room.
fn copy_all(kept: &mut Vec<LinkedShelf>, shelves: &[LinkedShelf])
    requires { length shelves.now ≤ vec_capacity kept.old }
    ensures items { kept.new.items ≡ shelves.now }
    ensures capacity { vec_capacity kept.new ≡ vec_capacity kept.old }
{
    if kept.len() == shelves.len() {
        write_all(kept, shelves);
    } else {
        push_all(kept, shelves);
    }
}

/// The same where there are as many.
fn write_all(kept: &mut [LinkedShelf], shelves: &[LinkedShelf])
    requires { length shelves.now ≡ length kept.old }
    ensures { kept.new ≡ shelves.now }
{
    for at in 0..shelves.len() {
        kept[at] = shelves[at];
    }
}

/// The same where there are more or fewer. Never inlined, so that what calls it is short.
#[inline(never)]
fn push_all(kept: &mut Vec<LinkedShelf>, shelves: &[LinkedShelf])
    requires { length shelves.now ≤ vec_capacity kept.old }
    ensures items { kept.new.items ≡ shelves.now }
    ensures capacity { vec_capacity kept.new ≡ vec_capacity kept.old }
{
    kept.clear();
    for shelf in shelves {
        kept.push_reserved(*shelf);
    }
}

/// Makes entries of so many shelves, for which there is room, of each of which the same is known.
fn know_all(standing: &mut Vec<Standing>, count: usize, known: Standing)
    requires { count ≤ vec_capacity standing.old }
    ensures items { standing.new.items ≡ replicate count known }
    ensures capacity { vec_capacity standing.new ≡ vec_capacity standing.old }
{
    if standing.len() != count {
        resize_within(standing, count, known);
    }
    standing.fill(known);
}

/// Leaves or makes so many entries, for which there is room. Never inlined, so that what calls it is short.
#[inline(never)]
fn resize_within(standing: &mut Vec<Standing>, count: usize, known: Standing)
    requires { count ≤ vec_capacity standing.old }
    ensures len { length standing.new.items ≡ count }
    ensures capacity { vec_capacity standing.new ≡ vec_capacity standing.old }
{
    standing.truncate(count);
    while standing.len() < count {
        standing.push_reserved(known);
    }
}
