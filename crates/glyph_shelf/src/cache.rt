//! The public calls of a cache.
//!
//! Definitions: `Cache` for what the clauses see, `Placing` for what becomes of it, `Promises` for what every cache
//! keeps. The clauses stay as they are: callers prove by them.

ghost use Rattle.std.specs.Prelude.{◌≡◌, ◌↔◌, ◌≤◌, [], Err, None, Some, IfOk, IfErr, IfSome, IsOkAnd, IsErrAnd, IsErrOf, OnErr, OnOk, IsTrue, length};
ghost use Rattle.std.specs.NonZero.{non_zero_usize_get};
ghost use Rattle.etagere_base.specs.Frames as frames;
ghost use Rattle.etagere_base.specs.Frames.{IsAccepted, longest_side, options_fault};
ghost use Rattle.etagere_base.specs.declared.faults.OptionsFault.TheVariants as faults;
ghost use Rattle.etagere_base.specs.Rectangles.{IsLarge};
ghost use Rattle.shelf_model.specs.Growing.{grow_fault, records_needed};
ghost use Rattle.shelf_model.specs.declared.faults.AtlasGrowFault.TheVariants as grow_faults;
ghost use Rattle.glyph_shelf.specs.Cache.{empty_cache, evictable, frame_uses, in_new_frame, listed, rectangle_at, used, without_key};
ghost use Rattle.glyph_shelf.specs.Placing.{EvictsNone, IsFrameFull, IsLeft, IsNew, IsTooLarge, Places, Spares};
ghost use Rattle.glyph_shelf.specs.Promises.{KeepsCachePromises};
ghost use Rattle.glyph_shelf.specs.Retaining.{Retains};
ghost use Rattle.glyph_shelf.specs.Saved.{CacheStandsFor, IsCacheBroken, without_frame};
ghost use Rattle.glyph_shelf.specs.Sizing.{cache_grown, surplus, surplus_keys, with_capacity};

use crate::faults::{CacheRestoreFault, GlyphFault};
use crate::kept::Kept;
use crate::listing::Iter;
use crate::saving::CacheSnapshot;
use etagere_shelves::{
    AllocatorOptions, AtlasAllocator, AtlasGrowFault, OptionsFault, Rectangle, Size,
};
use std::alloc::{AllocError, Global};
use std::marker::Model;
use std::num::NonZeroUsize;

/// Where a key was placed.
#[derive(Debug, Drop, PartialEq, Eq)]
pub struct Placed {
    /// The rectangle of the key in the atlas, in pixels.
    pub rectangle: Rectangle,
    /// The keys that were evicted for it, the least recently used first.
    pub evicted: Vec<u64>,
}

/// Rectangles of an atlas under keys, of which those used least recently are evicted where there is no room.
///
/// ```text
/// let mut cache = GlyphCache::new(alloc, size2(512, 512), &DEFAULT_OPTIONS, capacity)?;
/// let placed = cache.place(key, size2(9, 14))?;
/// for old in &placed.evicted { .. }       // forget what was drawn there
/// ```
#[derive(Drop)]
pub struct GlyphCache {
    kept: Kept,
    alloc: Global,
}

impl Model for GlyphCache {
    ghost use Rattle.glyph_shelf.specs.Cache.{CacheState};

    ghost Value = { CacheState };

    ghost view = { λ cache. cache.kept };
}

impl GlyphCache {
    /// An empty cache of at most `capacity` keys, over an atlas of this size in pixels.
    ///
    /// Returns the first fault of the size and options; `Memory` only where there is no other and no memory. Takes
    /// memory for the atlas and for a table of so many keys, or, where they may be more than 16384, for one that grows as
    /// they come. Goes through the columns and the table.
    pub fn new(
        alloc: Global,
        size: Size,
        options: &AllocatorOptions,
        capacity: NonZeroUsize,
    ) -> Result<GlyphCache, OptionsFault>
        ensures ok { IfOk result (λ cache. cache
            ≡ empty_cache (frames.atlas_frame size options.now) (non_zero_usize_get capacity)) }
        ensures accepted { OnOk result (IsAccepted longest_side size options.now) }
        ensures promises { IfOk result KeepsCachePromises }
        ensures fault { IfSome (options_fault longest_side size options.now)
            (λ fault. result ≡ Err fault) }
        ensures memory { IfErr result
            (λ fault. IsAccepted longest_side size options.now → fault ≡ faults.Memory) }
    {
        let kept = Kept::new(alloc, size, options, capacity)?;
        Ok(GlyphCache { kept, alloc })
    }

    /// Gives the rectangle of a key. A key that is there becomes the most recently used; the size isn't looked at, no
    /// memory is taken, and the call can't fail.
    ///
    /// A new key gets a rectangle at least as large as the size in pixels, and becomes the most recently used. Where
    /// there is no room, the least recently used keys are evicted first, no more than needed; they are listed in
    /// `evicted`.
    ///
    /// `TooLarge` comes exactly where the key is new and an empty atlas has no room for the size; then nothing
    /// changes. `FrameFull` comes exactly where the key is new, and evicting all keys that weren't used in this frame
    /// wouldn't make room, memory aside; then nothing changes. `Memory` comes only for a new key, with the keys that
    /// were evicted before memory ran out: these are gone, and the others stand. Where evicting those keys wouldn't make
    /// room, it names none, and nothing changes.
    ///
    /// Takes memory for the entry, for what the allocation splits, and for the list of the evicted keys. Asks the atlas
    /// once, and once more for each key that is evicted. Where keys were used in this frame, others weren't, and there
    /// is no room, it first tries on a copy of the atlas which evictions are needed, so that it takes memory for all
    /// records, and goes through them and through the keys that were used.
    pub fn place(&mut self, key: u64, size: Size) -> Result<Placed, GlyphFault>
        ensures found { IfSome (rectangle_at self.old key)
            (λ rectangle. IsOkAnd result
            (λ placed. (placed.rectangle ≡ rectangle) × (placed.evicted.items ≡ []))
            × (self.new ≡ used self.old key)) }
        ensures placed { IsNew self.old key → IfOk result
            (λ placed. Places self.old key size placed.rectangle placed.evicted.items self.new) }
        ensures large { IsNew self.old key → IfOk result
            (λ placed. IsLarge self.old.atlas.frame size placed.rectangle) }
        ensures too_large { IsErrOf result GlyphFault.TooLarge
            ↔ (IsNew self.old key × IsTooLarge self.old size) }
        ensures left { IfErr result (λ fault. IsLeft self.old size fault self.new) }
        ensures spared { IfOk result
            (λ placed. length placed.evicted.items ≤ evictable self.old) }
        ensures spared_left { IfErr result (Spares self.old) }
        ensures frame_full { IsErrOf result GlyphFault.FrameFull
            → IsNew self.old key × IsFrameFull self.old size }
        ensures framed { IsErrOf result GlyphFault.FrameFull → 1 ≤ frame_uses self.old }
        ensures full { IsNew self.old key → IsFrameFull self.old size
            → IsErrAnd result EvictsNone × (self.new ≡ self.old) }
        ensures promises { KeepsCachePromises self.new }
    {
        let mut evicted = Vec::new(self.alloc);
        if let Some(rectangle) = self.kept.look(key) {
            return Ok(Placed { rectangle, evicted });
        }
        let Ok(entered) = self.kept.enter(key, size) else {
            return Err(GlyphFault::Memory(evicted));
        };
        if let Some(rectangle) = entered {
            return Ok(Placed { rectangle, evicted });
        }
        if !self.kept.atlas().fits_when_empty(size) {
            return Err(GlyphFault::TooLarge);
        }
        let Ok(answer) = self.kept.evict_and_enter(key, size, &mut evicted) else {
            return Err(GlyphFault::Memory(evicted));
        };
        let Some(rectangle) = answer else {
            return Err(GlyphFault::FrameFull);
        };
        Ok(Placed { rectangle, evicted })
    }

    /// Begins a frame: what is placed or looked up from now on isn't evicted by `place` until the next frame begins, or
    /// `clear` is called. The order of use stays.
    ///
    /// Takes no memory, and constant time.
    pub fn begin_frame(&mut self)
        ensures begun { self.new ≡ in_new_frame self.old }
        ensures promises { KeepsCachePromises self.new }
    {
        self.kept.begin_frame();
    }

    /// How many keys were placed or looked up in this frame and are still there: none before the first frame.
    ///
    /// Takes no memory. Goes through these keys.
    pub fn used_in_frame(&self) -> usize
        ensures { result ≡ frame_uses self.now }
    {
        self.kept.used_in_frame()
    }

    /// The rectangle of a key, which becomes the most recently used; none where the key isn't there, and then nothing
    /// changes.
    ///
    /// Takes no memory.
    pub fn get(&mut self, key: u64) -> Option<Rectangle>
        ensures value { result ≡ rectangle_at self.old key }
        ensures used { self.new ≡ used self.old key }
        ensures promises { KeepsCachePromises self.new }
    {
        self.kept.look(key)
    }

    /// The rectangle of a key; none where the key isn't there. Nothing changes: what is only looked at so isn't used.
    ///
    /// Takes no memory, and constant time.
    pub fn peek(&self, key: u64) -> Option<Rectangle>
        ensures value { result ≡ rectangle_at self.now key }
        ensures promises { KeepsCachePromises self.now }
    {
        self.kept.peek(key)
    }

    /// The keys with their rectangles, from the most to the least recently used, and then none for ever; from the back,
    /// the least recently used first. Nothing changes.
    ///
    /// Takes no memory. A step takes constant time.
    pub fn iter(&self) -> Iter<'_>
        ensures listed { result ≡ listed self.now }
        ensures promises { KeepsCachePromises self.now }
    {
        self.kept.iter()
    }

    /// Removes a key, and returns the rectangle that it had; none where the key isn't there, and then nothing changes.
    ///
    /// Takes no memory. The atlas takes the rectangle back as by `AtlasAllocator::deallocate`, at the same cost.
    pub fn remove(&mut self, key: u64) -> Option<Rectangle>
        ensures value { result ≡ rectangle_at self.old key }
        ensures removed { self.new ≡ without_key self.old key }
        ensures promises { KeepsCachePromises self.new }
    {
        self.kept.remove(key)
    }

    /// Keeps the keys of which a test says so. It is asked once of each key and its rectangle, the least recently used
    /// first; the others are removed in this order. The order of use stays, and so does what was used in the frame.
    ///
    /// Takes no memory. A key that goes costs a `deallocate` of the atlas, another one constant time.
    pub fn retain<F: FnMut(u64, Rectangle) -> bool>(&mut self, keeps: F)
        requires { F.IsAlwaysCallable keeps }
        ensures retained { Retains F.step keeps self.old self.new }
        ensures promises { KeepsCachePromises self.new }
    {
        self.kept.retain(keeps);
    }

    /// The cache as it is saved: its capacity, its atlas, and its keys in the order of use. What was used in the frame
    /// isn't saved.
    ///
    /// The error comes only where there was no memory. Takes memory for the records of the atlas and for the keys, and
    /// goes through them.
    pub fn snapshot(&self) -> Result<CacheSnapshot, AllocError>
        ensures { IfOk result (λ snapshot. CacheStandsFor snapshot (without_frame self.now)) }
    {
        self.kept.snapshot(self.alloc)
    }

    /// The cache for which a snapshot stands, whoever wrote it; no frame has begun.
    ///
    /// The fault is a rule that the snapshot breaks, or `Memory`. Takes memory for the cache, and until it is done for a
    /// copy of the atlas. Costs what `restore` and `clone` of the atlas do, and a `deallocate` for each key.
    pub fn restore(alloc: Global, snapshot: CacheSnapshot) -> Result<GlyphCache, CacheRestoreFault>
        ensures ok { IfOk result (CacheStandsFor snapshot) }
        ensures fault { IfErr result (IsCacheBroken snapshot) }
        ensures promises { IfOk result KeepsCachePromises }
    {
        let kept = Kept::restored(alloc, snapshot)?;
        Ok(GlyphCache { kept, alloc })
    }

    /// Makes the atlas larger, to this size in pixels, as by `AtlasAllocator::grow`. Each key keeps its place, and the
    /// order of use stays.
    ///
    /// Returns the first fault; `Memory` only where there is no other, the grow needs records and there was no
    /// memory. Nothing changes after a fault. Takes memory and time as that call does.
    pub fn grow(&mut self, size: Size) -> Result<(), AtlasGrowFault>
        ensures ok { OnOk result (self.new ≡ cache_grown self.old size) }
        ensures fault { IfSome (grow_fault self.old.atlas size) (λ fault. result ≡ Err fault) }
        ensures memory { IfErr result
            (λ fault. grow_fault self.old.atlas size ≡ None
            → (fault ≡ grow_faults.Memory) × (1 ≤ records_needed self.old.atlas size)) }
        ensures err { OnErr result (self.new ≡ self.old) }
        ensures promises { KeepsCachePromises self.new }
    {
        self.kept.grow(size)
    }

    /// Sets how many keys there may be. Where more are there, the least recently used keys are evicted, no more than
    /// needed; they are returned, the least recently used first. A capacity that is no less than `len()` evicts none.
    ///
    /// The error comes only where keys have to go and there was no memory; then nothing changes. Takes memory for the
    /// list of the evicted keys, and a smaller table of the keys, if there is memory for one. An eviction costs a
    /// `deallocate` of the atlas; the table is gone through once.
    pub fn set_capacity(&mut self, capacity: NonZeroUsize) -> Result<Vec<u64>, AllocError>
        ensures ok { OnOk result
            (self.new ≡ with_capacity self.old (non_zero_usize_get capacity)) }
        ensures evicted { IfOk result (λ evicted. evicted.items
            ≡ surplus_keys self.old (non_zero_usize_get capacity)) }
        ensures err { OnErr result (self.new ≡ self.old) }
        ensures surplus { OnErr result (1 ≤ surplus self.old (non_zero_usize_get capacity)) }
        ensures promises { KeepsCachePromises self.new }
    {
        let mut evicted = Vec::new(self.alloc);
        self.kept.drop_surplus(capacity.get(), &mut evicted)?;
        self.kept.set_capacity(capacity);
        Ok(evicted)
    }

    /// Removes all keys: the cache is as new, and no frame has begun.
    ///
    /// Takes no memory. Goes through the keys and the columns.
    pub fn clear(&mut self)
        ensures cleared { self.new ≡ empty_cache self.old.atlas.frame self.old.capacity }
        ensures promises { KeepsCachePromises self.new }
    {
        self.kept.clear();
    }

    /// How many keys are there. Takes constant time.
    pub fn len(&self) -> usize
        ensures len { result ≡ length self.now.entries }
        ensures promises { KeepsCachePromises self.now }
    {
        self.kept.len()
    }

    /// Whether no key is there. Takes constant time.
    pub fn is_empty(&self) -> bool
        ensures { IsTrue result ↔ (self.now.entries ≡ []) }
    {
        self.kept.len() == 0
    }

    /// How many keys there may be. Takes constant time.
    pub fn capacity(&self) -> NonZeroUsize
        ensures { non_zero_usize_get result ≡ self.now.capacity }
    {
        self.kept.capacity()
    }

    /// The atlas in which the rectangles lie, for its size, its space and its picture.
    pub fn atlas(&self) -> &AtlasAllocator
        ensures { result.now ≡ self.now.atlas }
    {
        self.kept.atlas()
    }
}

impl<'a> IntoIterator for &'a GlyphCache {
    type Item = (u64, Rectangle);

    type IntoIter = Iter<'a>;

    ghost into_iter_gives = { λ cache iter. iter ≡ listed cache.now };

    fn into_iter(self) -> Iter<'a> {
        self.iter()
    }
}
