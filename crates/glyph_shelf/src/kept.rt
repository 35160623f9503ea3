//! The entries of a cache and the atlas in which they lie: the two change together.
//!
//! Definitions: `Cache`, `Placing` and `Promises` for what the clauses say, `Private.Kept` for what the fields keep.

ghost use Rattle.std.specs.Prelude.{◌≡◌, ◌<◌, ◌≤◌, [], ◌∷◌, None, cond, false, true, is_some, nat_eq, length, option_map, IfOk, IfErr, IfSome, IfNone, OnOk, OnErr};
ghost use Rattle.std.specs.Bool.{MatchBool};
ghost use Rattle.std.specs.Map.{lookup};
ghost use Rattle.std.specs.NonZero.{non_zero_usize_get};
ghost use Rattle.shelf_model.specs.Choice as choice;
ghost use Rattle.shelf_model.specs.Fresh.{fresh};
ghost use Rattle.shelf_model.specs.Growing.{grow_fault, records_needed};
ghost use Rattle.shelf_model.specs.declared.faults.AtlasGrowFault.TheVariants as grow_faults;
ghost use Rattle.etagere_base.specs.Frames as frames;
ghost use Rattle.etagere_base.specs.Frames.{IsAccepted, longest_side, options_fault};
ghost use Rattle.etagere_base.specs.declared.faults.OptionsFault.TheVariants as faults;
ghost use Rattle.etagere_base.specs.Rectangles.{IsLarge};
ghost use Rattle.lru.specs.LruCache as lru;
ghost use Rattle.glyph_shelf.specs.Cache.{after_dropping, empty_cache, evictable, frame_uses, in_new_frame, listed, rectangle_at, used, without_key, without_last};
ghost use Rattle.glyph_shelf.specs.Placing.{Enters, IsFrameFull, LacksRoom, MakesRoom, Places, RanOut, SameLayout, has_room};
ghost use Rattle.glyph_shelf.specs.Private.Asking.{Asks};
ghost use Rattle.glyph_shelf.specs.Promises.{KeepsCachePromises};
ghost use Rattle.glyph_shelf.specs.Retaining.{Retains};
ghost use Rattle.glyph_shelf.specs.Saved.{CacheStandsFor, IsCacheBroken, without_frame};
ghost use Rattle.glyph_shelf.specs.Sizing.{cache_grown, of_capacity, surplus, surplus_keys};

use crate::faults::CacheRestoreFault;
use crate::giving_back::{give_back, takes};
use crate::listing::Iter;
use crate::saving::{CacheSnapshot, restored_atlas, restored_keys, saved_keys};
use crate::used_keys::UsedKeys;
use etagere_shelves::{
    Allocation, AllocatorOptions, AtlasAllocator, AtlasGrowFault, OptionsFault, Rectangle, Size,
};
use std::alloc::{AllocError, Global};
use std::marker::Model;
use std::num::NonZeroUsize;

/// Keys with what is allocated for them, the most recently used first, and the atlas where that lies.
#[derive(Drop)]
pub(crate) struct Kept {
    entries: UsedKeys,
    atlas: AtlasAllocator,
}

impl Model for Kept {
    ghost use Rattle.glyph_shelf.specs.Cache.{CacheState};

    ghost Value = { CacheState };

    ghost use Rattle.glyph_shelf.specs.Private.Kept.{IsKept, kept_state};

    ghost view = { kept_state };

    ghost invariant = { IsKept };
}

impl Kept {
    /// No entries, and an empty atlas.
    pub fn new(
        alloc: Global,
        size: Size,
        options: &AllocatorOptions,
        capacity: NonZeroUsize,
    ) -> Result<Kept, OptionsFault>
        ensures ok { IfOk result (λ kept. kept
            ≡ empty_cache (frames.atlas_frame size options.now) (non_zero_usize_get capacity)) }
        ensures accepted { OnOk result (IsAccepted longest_side size options.now) }
        ensures promises { IfOk result KeepsCachePromises }
        ensures fault { IfSome (options_fault longest_side size options.now)
            (λ fault. result ≡ Err fault) }
        ensures memory { IfErr result
            (λ fault. IsAccepted longest_side size options.now → fault ≡ faults.Memory) }
    {
        let atlas = AtlasAllocator::with_options(alloc, size, options)?;
        let Ok(entries) = UsedKeys::new(alloc, capacity) else {
            return Err(OptionsFault::Memory);
        };
        Ok(Kept { entries, atlas })
    }

    /// What is saved of the entries and the atlas.
    pub fn snapshot(&self, alloc: Global) -> Result<CacheSnapshot, AllocError>
        ensures { IfOk result (λ snapshot. CacheStandsFor snapshot (without_frame self.now)) }
    {
        let atlas = self.atlas.snapshot()?;
        let keys = saved_keys(alloc, &self.entries)?;
        let capacity = self.entries.cap().get();
        Ok(CacheSnapshot {
            capacity,
            atlas,
            keys,
        })
    }

    /// The entries and the atlas for which a snapshot stands.
    pub fn restored(alloc: Global, snapshot: CacheSnapshot) -> Result<Kept, CacheRestoreFault>
        ensures ok { IfOk result (CacheStandsFor snapshot) }
        ensures fault { IfErr result (IsCacheBroken snapshot) }
        ensures promises { IfOk result KeepsCachePromises }
    {
        let CacheSnapshot {
            capacity,
            atlas,
            keys,
        } = snapshot;
        let Some(most) = NonZeroUsize::new(capacity) else {
            return Err(CacheRestoreFault::NoCapacity);
        };
        if keys.len() > capacity {
            return Err(CacheRestoreFault::TooManyKeys);
        }
        let atlas = restored_atlas(alloc, atlas)?;
        let entries = restored_keys(alloc, &atlas, most, keys.as_slice())?;
        Ok(Kept { entries, atlas })
    }

    /// How many entries there are.
    pub fn len(&self) -> usize
        ensures len { result ≡ length self.now.entries }
        ensures promises { KeepsCachePromises self.now }
    {
        self.entries.len()
    }

    /// How many entries were used in this frame.
    pub fn used_in_frame(&self) -> usize
        ensures { result ≡ frame_uses self.now }
    {
        self.entries.used_in_frame()
    }

    /// How many entries there may be.
    pub fn capacity(&self) -> NonZeroUsize
        ensures { non_zero_usize_get result ≡ self.now.capacity }
    {
        self.entries.cap()
    }

    /// The atlas.
    pub fn atlas(&self) -> &AtlasAllocator
        ensures { result.now ≡ self.now.atlas }
    {
        &self.atlas
    }

    /// The rectangle of a key; none where it isn't there. The order of use stays.
    pub fn peek(&self, key: u64) -> Option<Rectangle>
        ensures value { result ≡ rectangle_at self.now key }
        ensures promises { KeepsCachePromises self.now }
    {
        self.entries.peek(key)
    }

    /// The keys with their rectangles, the most recently used first.
    pub fn iter(&self) -> Iter<'_>
        ensures listed { result ≡ listed self.now }
        ensures promises { KeepsCachePromises self.now }
    {
        Iter::new(self.entries.iter())
    }

    /// The rectangle of a key, which becomes the most recently used; none where it isn't there.
    #[inline(always)]
    pub fn look(&mut self, key: u64) -> Option<Rectangle>
        ensures value { result ≡ rectangle_at self.old key }
        ensures used { self.new ≡ used self.old key }
        ensures promises { KeepsCachePromises self.new }
    {
        self.entries.look(key)
    }

    /// Drops the least recently used entry, and answers its key; none where there is no entry.
    pub fn drop_last(&mut self) -> Option<u64>
        ensures key { result ≡ option_map (λ entry. entry.0) (lru.last_entry self.old.entries) }
        ensures dropped { self.new ≡ without_last self.old }
        ensures promises { KeepsCachePromises self.new }
    {
        let (key, allocation) = self.entries.pop_last()?;
        give_back(&mut self.atlas, allocation.id);
        Some(key)
    }

    /// Takes a key out, and answers the rectangle that it had; none where it isn't there.
    pub fn remove(&mut self, key: u64) -> Option<Rectangle>
        ensures value { result ≡ rectangle_at self.old key }
        ensures removed { self.new ≡ without_key self.old key }
        ensures promises { KeepsCachePromises self.new }
    {
        let allocation = self.entries.remove(key)?;
        give_back(&mut self.atlas, allocation.id);
        Some(allocation.rectangle)
    }

    /// Begins a frame, in which no key was used.
    pub fn begin_frame(&mut self)
        ensures begun { self.new ≡ in_new_frame self.old }
        ensures promises { KeepsCachePromises self.new }
    {
        self.entries.begin_frame();
    }

    /// Asks a test of each key, the least recently used first, whether it stays. A key that does goes to the front, so
    /// that in the end the order of use is the same; another goes.
    ///
    /// Those used in the frame stand first, and are asked last. Before them a frame begins, in which they are used.
    pub fn retain<F: FnMut(u64, Rectangle) -> bool>(&mut self, mut keeps: F)
        requires { F.IsAlwaysCallable keeps }
        ensures retained { Retains F.step keeps self.old self.new }
        ensures promises { KeepsCachePromises self.new }
    {
        let uses = self.used_in_frame();
        let earlier = self.len() - uses;
        let framed = self.has_frame();
        self.ask(earlier, &mut keeps);
        self.begin_frame_if(framed);
        self.ask(uses, &mut keeps);
    }

    /// Asks a test of so many keys in turn, each time of the least recently used one.
    fn ask<F: FnMut(u64, Rectangle) -> bool>(&mut self, count: usize, keeps: &mut F)
        requires few { count ≤ length self.old.entries }
        requires callable { F.IsAlwaysCallable keeps.old }
        requires promises { KeepsCachePromises self.old }
        ensures asked { Asks F.step count keeps.old self.old keeps.new self.new }
        ensures callable { F.IsAlwaysCallable keeps.new }
        ensures promises { KeepsCachePromises self.new }
    {
        for turn in 0..count {
            self.ask_last(keeps);
        }
    }

    /// Asks a test of the least recently used key. Where it stays it becomes the most recently used, else it goes.
    fn ask_last<F: FnMut(u64, Rectangle) -> bool>(&mut self, keeps: &mut F)
        requires some { 1 ≤ length self.old.entries }
        requires callable { F.IsAlwaysCallable keeps.old }
        ensures asked { Asks F.step 1 keeps.old self.old keeps.new self.new }
        ensures callable { F.IsAlwaysCallable keeps.new }
        ensures promises { KeepsCachePromises self.new }
    {
        let Some((key, rectangle)) = self.peek_last() else {
            unreachable!()
        };
        if keeps(key, rectangle) {
            self.look(key);
        } else {
            self.drop_last();
        }
    }

    /// The least recently used key with its rectangle; none where there is no key.
    fn peek_last(&self) -> Option<(u64, Rectangle)>
        ensures { result
            ≡ option_map (λ entry. (entry.0, entry.1.rectangle)) (lru.last_entry self.now.entries) }
    {
        self.entries.peek_last()
    }

    /// Whether a frame has begun.
    fn has_frame(&self) -> bool
        ensures { result ≡ is_some self.now.used_in_frame }
    {
        self.entries.has_frame()
    }

    /// Begins a frame, or doesn't.
    fn begin_frame_if(&mut self, begins: bool)
        requires { KeepsCachePromises self.old }
        ensures begun { self.new ≡ cond begins (in_new_frame self.old) self.old }
        ensures promises { KeepsCachePromises self.new }
    {
        if begins {
            self.begin_frame();
        }
    }

    /// Drops everything.
    pub fn clear(&mut self)
        ensures cleared { self.new ≡ empty_cache self.old.atlas.frame self.old.capacity }
        ensures promises { KeepsCachePromises self.new }
    {
        self.entries.clear();
        self.atlas.clear();
    }

    /// Makes the atlas larger, to this size in pixels.
    pub fn grow(&mut self, size: Size) -> Result<(), AtlasGrowFault>
        ensures ok { OnOk result (self.new ≡ cache_grown self.old size) }
        ensures fault { IfSome (grow_fault self.old.atlas size) (λ fault. result ≡ Err fault) }
        ensures memory { IfErr result
            (λ fault. grow_fault self.old.atlas size ≡ None
            → (fault ≡ grow_faults.Memory) × (1 ≤ records_needed self.old.atlas size)) }
        ensures err { OnErr result (self.new ≡ self.old) }
        ensures promises { KeepsCachePromises self.new }
    {
        self.atlas.grow(size)
    }

    /// Drops entries, the least recently used first, until there are no more than so many, and lists their keys in that
    /// order. There is room for all of them before the first goes.
    pub fn drop_surplus(&mut self, most: usize, evicted: &mut Vec<u64>) -> Result<(), AllocError>
        requires none { evicted.old.items ≡ [] }
        ensures ok { OnOk result (self.new ≡ after_dropping self.old (surplus self.old most)) }
        ensures keys { OnOk result (evicted.new.items ≡ surplus_keys self.old most) }
        ensures err { OnErr result (self.new ≡ self.old) }
        ensures surplus { OnErr result (1 ≤ surplus self.old most) }
        ensures promises { KeepsCachePromises self.new }
    {
        let surplus = self.len().saturating_sub(most);
        evicted.reserve(surplus)?;
        for gone in 0..surplus {
            let Some(key) = self.drop_last() else {
                unreachable!()
            };
            evicted.push(key).unwrap();
        }
        Ok(())
    }

    /// Sets how many entries there may be.
    pub fn set_capacity(&mut self, capacity: NonZeroUsize)
        requires { length self.old.entries ≤ non_zero_usize_get capacity }
        ensures set { self.new ≡ of_capacity self.old (non_zero_usize_get capacity) }
        ensures promises { KeepsCachePromises self.new }
    {
        self.entries.set_cap(capacity);
    }

    /// Puts a new key in front, if there is room for one entry more and the atlas has room for the size.
    ///
    /// After an `Err` the entries are those before, and the layout of the atlas is.
    pub fn enter(&mut self, key: u64, size: Size) -> Result<Option<Rectangle>, AllocError>
        requires { lookup (nat_eq key) self.old.entries ≡ None }
        ensures entered { IfOk result
            (λ answer. IfSome answer
            (λ rectangle. Enters self.old key size rectangle self.new)) }
        ensures large { IfOk result
            (λ answer. IfSome answer
            (λ rectangle. IsLarge self.old.atlas.frame size rectangle)) }
        ensures room { IfOk result (λ answer. is_some answer ≡ has_room self.old size) }
        ensures none { IfOk result (λ answer. IfNone answer (self.new ≡ self.old)) }
        ensures err_room { OnErr result (has_room self.old size ≡ true) }
        ensures err { OnErr result (SameLayout self.old self.new) }
        ensures frame { self.new.atlas.frame ≡ self.old.atlas.frame }
        ensures promises { KeepsCachePromises self.new }
    {
        if self.entries.len() == self.entries.cap().get() {
            return Ok(None);
        }
        let Some(allocation) = self.atlas.allocate(size)? else {
            return Ok(None);
        };
        let Allocation { id, rectangle } = allocation;
        match self.entries.enter(key, Allocation { id, rectangle }) {
            Ok(()) => Ok(Some(rectangle)),
            Err(refused) => {
                give_back(&mut self.atlas, id);
                Err(refused)
            }
        }
    }

    /// Puts a new key for which there is no room in front, after entries are dropped, the least recently used first, no
    /// more than needed and none that was used in this frame, and their keys listed in that order; for each there is room
    /// before it goes. None where dropping all of these makes no room; then nothing changes.
    pub fn evict_and_enter(
        &mut self,
        key: u64,
        size: Size,
        evicted: &mut Vec<u64>,
    ) -> Result<Option<Rectangle>, AllocError>
        requires new { lookup (nat_eq key) self.old.entries ≡ None }
        requires fits { is_some (choice.placement_of (fresh self.old.atlas.frame) size) ≡ true }
        requires full { has_room self.old size ≡ false }
        requires none { evicted.old.items ≡ [] }
        requires promises { KeepsCachePromises self.old }
        ensures ok { IfOk result
            (λ answer. IfSome answer
            (λ rectangle. Places self.old key size rectangle evicted.new.items self.new)) }
        ensures large { IfOk result
            (λ answer. IfSome answer
            (λ rectangle. IsLarge self.old.atlas.frame size rectangle)) }
        ensures full { IfOk result (λ answer. IfNone answer (IsFrameFull self.old size)) }
        ensures framed { IfOk result (λ answer. IfNone answer (1 ≤ frame_uses self.old)) }
        ensures none { IfOk result (λ answer. IfNone answer (self.new ≡ self.old)) }
        ensures err { OnErr result (RanOut self.old size evicted.new.items self.new) }
        ensures err_full { IsFrameFull self.old size → OnErr result
            ((evicted.new.items ≡ []) × (self.new ≡ self.old)) }
        ensures spared { length evicted.new.items ≤ evictable self.old }
        ensures frame { self.new.atlas.frame ≡ self.old.atlas.frame }
        ensures promises { KeepsCachePromises self.new }
    {
        if !self.makes_room(size)? {
            return Ok(None);
        }
        let rectangle = self.evict_for(key, size, evicted)?;
        Ok(Some(rectangle))
    }

    /// Puts a new key in front, after as many entries are dropped as its size needs.
    fn evict_for(
        &mut self,
        key: u64,
        size: Size,
        evicted: &mut Vec<u64>,
    ) -> Result<Rectangle, AllocError>
        requires new { lookup (nat_eq key) self.old.entries ≡ None }
        requires fits { is_some (choice.placement_of (fresh self.old.atlas.frame) size) ≡ true }
        requires none { evicted.old.items ≡ [] }
        requires full { has_room self.old size ≡ false }
        requires room { MakesRoom self.old size (evictable self.old) }
        requires promises { KeepsCachePromises self.old }
        ensures ok { IfOk result
            (λ rectangle. Places self.old key size rectangle evicted.new.items self.new) }
        ensures large { IfOk result (λ rectangle. IsLarge self.old.atlas.frame size rectangle) }
        ensures err { OnErr result (RanOut self.old size evicted.new.items self.new) }
        ensures spared { length evicted.new.items ≤ evictable self.old }
        ensures frame { self.new.atlas.frame ≡ self.old.atlas.frame }
        ensures promises { KeepsCachePromises self.new }
    {
        evicted.reserve_exact(1)?;
        while let Some(last) = self.last_key() {
            evicted.push(last).unwrap();
            if let Some(rectangle) = self.enter_for_last(key, size)? {
                return Ok(rectangle);
            }
            evicted.reserve(1)?;
        }
        unreachable!()
    }

    /// The least recently used key; none where there is no key.
    fn last_key(&self) -> Option<u64>
        ensures key { result ≡ option_map (λ entry. entry.0) (lru.last_entry self.now.entries) }
    {
        let (key, _) = self.entries.last()?;
        Some(key)
    }

    /// Drops the least recently used entry, and puts a new key in front, if the atlas then has room for the size.
    ///
    /// After an `Err` the entries are those without the least recently used one, and the layout of the atlas is.
    fn enter_for_last(&mut self, key: u64, size: Size) -> Result<Option<Rectangle>, AllocError>
        requires some { 1 ≤ length self.old.entries }
        requires new { lookup (nat_eq key) self.old.entries ≡ None }
        ensures entered { IfOk result
            (λ answer. IfSome answer
            (λ rectangle. Enters (without_last self.old) key size rectangle self.new)) }
        ensures large { IfOk result
            (λ answer. IfSome answer
            (λ rectangle. IsLarge self.old.atlas.frame size rectangle)) }
        ensures room { IfOk result (λ answer. is_some answer ≡ has_room (without_last self.old) size) }
        ensures none { IfOk result (λ answer. IfNone answer (self.new ≡ without_last self.old)) }
        ensures err_room { OnErr result (has_room (without_last self.old) size ≡ true) }
        ensures err { OnErr result (SameLayout (without_last self.old) self.new) }
        ensures frame { self.new.atlas.frame ≡ self.old.atlas.frame }
        ensures promises { KeepsCachePromises self.new }
    {
        if self.entries.len() == self.entries.cap().get() {
            return self.replace_last(key, size);
        }
        self.drop_last();
        self.enter(key, size)
    }

    /// Does the same where there is no room for one entry more: the new one then takes the memory of the dropped one.
    fn replace_last(&mut self, key: u64, size: Size) -> Result<Option<Rectangle>, AllocError>
        requires full { length self.old.entries ≡ self.old.capacity }
        requires new { lookup (nat_eq key) self.old.entries ≡ None }
        ensures entered { IfOk result
            (λ answer. IfSome answer
            (λ rectangle. Enters (without_last self.old) key size rectangle self.new)) }
        ensures large { IfOk result
            (λ answer. IfSome answer
            (λ rectangle. IsLarge self.old.atlas.frame size rectangle)) }
        ensures room { IfOk result (λ answer. is_some answer ≡ has_room (without_last self.old) size) }
        ensures none { IfOk result (λ answer. IfNone answer (self.new ≡ without_last self.old)) }
        ensures err_room { OnErr result (has_room (without_last self.old) size ≡ true) }
        ensures err { OnErr result (SameLayout (without_last self.old) self.new) }
        ensures frame { self.new.atlas.frame ≡ self.old.atlas.frame }
        ensures promises { KeepsCachePromises self.new }
    {
        let Some((_, last)) = self.entries.last() else {
            unreachable!()
        };
        give_back(&mut self.atlas, last.id);
        match self.atlas.allocate(size) {
            Ok(Some(allocation)) => {
                let Allocation { id, rectangle } = allocation;
                match self
                    .entries
                    .enter_for_last(key, Allocation { id, rectangle })
                {
                    Ok(()) => Ok(Some(rectangle)),
                    Err(refused) => {
                        give_back(&mut self.atlas, id);
                        self.entries.pop_last();
                        Err(refused)
                    }
                }
            }
            Ok(None) => {
                self.entries.pop_last();
                Ok(None)
            }
            Err(refused) => {
                self.entries.pop_last();
                Err(refused)
            }
        }
    }

    /// Whether dropping entries that weren't used in this frame makes room. Where some were used, and some not, this is
    /// tried on a copy of the atlas.
    fn makes_room(&self, size: Size) -> Result<bool, AllocError>
        requires fits { is_some (choice.placement_of (fresh self.now.atlas.frame) size) ≡ true }
        requires full { has_room self.now size ≡ false }
        ensures room { IfOk result
            (λ makes. makes ≡ true → MakesRoom self.now size (evictable self.now)) }
        ensures full { IfOk result (λ makes. makes ≡ false → IsFrameFull self.now size) }
        ensures framed { IfOk result (λ makes. makes ≡ false → 1 ≤ frame_uses self.now) }
    {
        let uses = self.entries.used_in_frame();
        if uses == 0 {
            return Ok(true);
        }
        let earlier = self.entries.len() - uses;
        if earlier == 0 {
            return Ok(false);
        }
        self.room_without(size, earlier)
    }

    /// Whether dropping at most so many entries makes room: tried on a copy of the atlas.
    fn room_without(&self, size: Size, most: usize) -> Result<bool, AllocError>
        requires few { most ≤ length self.now.entries }
        requires full { has_room self.now size ≡ false }
        ensures room { IfOk result (λ makes. makes ≡ true → MakesRoom self.now size most) }
        ensures full { IfOk result (λ makes. makes ≡ false → LacksRoom self.now size most) }
    {
        let mut atlas = self.atlas.clone()?;
        let mut left = self.entries.iter();
        for gone in 0..most {
            let Some((_, entry)) = left.next_back() else {
                unreachable!()
            };
            give_back(&mut atlas, entry.allocation.id);
            if takes(&mut atlas, size)? {
                return Ok(true);
            }
        }
        Ok(false)
    }
}
