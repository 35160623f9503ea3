//! The public calls of a map.
//!
//! Definitions: `State` for what the clauses see, `Calls` and `Placing` for what becomes of it, `Promises` for what every
//! map keeps, `Saved` for what it is saved as. Where they speak of a cache, they are those of `glyph_shelf`.

ghost use Rattle.std.specs.Prelude.{◌≡◌, ◌↔◌, ◌≤◌, [], Err, None, Some, IfOk, IfErr, IfSome, IsOkAnd, IsErrAnd, OnErr, OnOk, IsTrue, length, option_map, reverse};
ghost use Rattle.std.specs.Borrow.{sem};
ghost use Rattle.std.specs.List.{range_with_len};
ghost use Rattle.std.specs.NonZero.{non_zero_usize_get};
ghost use Rattle.etagere_base.specs.Frames as frames;
ghost use Rattle.etagere_base.specs.Frames.{IsAccepted, longest_side, options_fault};
ghost use Rattle.etagere_base.specs.declared.faults.OptionsFault.TheVariants as faults;
ghost use Rattle.etagere_base.specs.Rectangles.{IsLarge};
ghost use Rattle.shelf_model.specs.Growing.{grow_fault, records_needed};
ghost use Rattle.shelf_model.specs.declared.faults.AtlasGrowFault.TheVariants as grow_faults;
ghost use Rattle.glyph_shelf.specs.Cache.{frame_uses};
ghost use Rattle.glyph_shelf.specs.Saved.{keys_saved};
ghost use Rattle.glyph_map.specs.State.{cache_of, pairs_of};
ghost use Rattle.glyph_map.specs.Calls.{dropped_pairs, empty_map, in_new_frame, listed, map_grown, seen_at, surplus, used, with_capacity, with_value, without_key};
ghost use Rattle.glyph_map.specs.Placing.{IsFrameFull, IsLeft, IsNew, IsTooLarge, Places, Spares, evictable};
ghost use Rattle.glyph_map.specs.Promises.{KeepsMapPromises};
ghost use Rattle.glyph_map.specs.Retaining.{AreClonesEqual, RefusesSome, Retains, without_keys};
ghost use Rattle.glyph_map.specs.Saved.{IsMapBroken, MapStandsFor, without_frame};

use crate::faults::{MapFault, MapRestoreFault, NotRestored, Refused};
use crate::listing::Iter;
use crate::refusing::clones_of_refused;
use crate::saving::{cache_fault, numbered, under_tickets};
use crate::ticketed::{Ticketed, promote, put_first, revalue, take, take_first, take_last};
use crate::tickets::{evictions, unused_ticket, with_evicted};
use etagere_shelves::{
    AllocatorOptions, AtlasAllocator, AtlasGrowFault, OptionsFault, Rectangle, Size,
};
use glyph_shelf::{CacheSnapshot, GlyphCache};
use lru::LruCache;
use std::alloc::{AllocError, Global};
use std::hash::Hash;
use std::marker::Model;
use std::num::NonZeroUsize;

/// Where a key was placed.
#[derive(Debug, Drop)]
pub struct Placed<K, V> {
    /// The rectangle of the key in the atlas, in pixels.
    pub rectangle: Rectangle,
    /// Where the key was there already: the key as it was given, and the value that it had until now.
    pub replaced: Option<(K, V)>,
    /// The keys that were evicted for it, each with its value, the least recently used first.
    pub evicted: Vec<(K, V)>,
}

/// Rectangles of an atlas under keys, each with a value, of which those used least recently are evicted where there is
/// no room.
///
/// ```text
/// let mut map = GlyphMap::new(alloc, size2(512, 512), &DEFAULT_OPTIONS, capacity)?;
/// let placed = map.place(key, value, size2(9, 14))?;
/// for (key, value) in placed.evicted { .. }       // what was kept of what is gone
/// ```
#[derive(Drop)]
pub struct GlyphMap<K: Eq + Hash, V> {
    entries: LruCache<K, Ticketed<V>>,
    cache: GlyphCache,
    next: u64,
    alloc: Global,
}

impl<K: Eq + Hash, V> Model for GlyphMap<K, V> {
    ghost use Rattle.glyph_map.specs.State.{MapState};

    ghost Value = { MapState K V };

    ghost use Rattle.glyph_map.specs.Private.Lockstep.{IsInStep, map_in};

    ghost view = { map_in };

    ghost invariant = { IsInStep K.eq };
}

impl<K: Eq + Hash + Drop, V: Drop> GlyphMap<K, V> {
    ghost use Rattle.glyph_map.specs.Lending.{ends_as};

    /// An empty map of at most `capacity` keys, over an atlas of this size in pixels.
    ///
    /// Returns the first fault of the size and options; `Memory` only where there is no other and no memory. Takes
    /// memory for the atlas and for one table of so many keys, or, where they may be more than 16384, for one that grows
    /// as they come. Goes through the columns and the table.
    pub fn new(
        alloc: Global,
        size: Size,
        options: &AllocatorOptions,
        capacity: NonZeroUsize,
    ) -> Result<GlyphMap<K, V>, OptionsFault>
        ensures ok { IfOk result (λ map. map
            ≡ empty_map (frames.atlas_frame size options.now) (non_zero_usize_get capacity)) }
        ensures accepted { OnOk result (IsAccepted longest_side size options.now) }
        ensures promises { IfOk result (KeepsMapPromises K.eq) }
        ensures fault { IfSome (options_fault longest_side size options.now)
            (λ fault. result ≡ Err fault) }
        ensures memory { IfErr result
            (λ fault. IsAccepted longest_side size options.now → fault ≡ faults.Memory) }
    {
        let cache = GlyphCache::new(alloc, size, options, capacity)?;
        let Ok(entries) = LruCache::unbounded(alloc) else {
            return Err(OptionsFault::Memory);
        };
        Ok(GlyphMap {
            entries,
            cache,
            next: 0,
            alloc,
        })
    }

    /// Gives the rectangle of a key, and keeps a value under it. A key that is there becomes the most recently used, and
    /// gets this value; the key as given and the value that it had come back in `replaced`. The size isn't looked at, no
    /// memory is taken, and the call can't fail.
    ///
    /// A new key gets a rectangle at least as large as the size in pixels, and becomes the most recently used. Where
    /// there is no room, the least recently used keys are evicted first, no more than needed; they are listed in
    /// `evicted` with their values.
    ///
    /// After a fault key and value come back. `TooLarge` comes exactly where the key is new and an empty atlas has no
    /// room for the size; then nothing changes. `FrameFull` comes only where the key is new, and evicting all keys that
    /// weren't used in this frame wouldn't make room; then nothing changes. `Memory` comes only for a new key, with the
    /// keys that were evicted before memory ran out, and their values: these are gone, and the others stand.
    ///
    /// Takes memory as `GlyphCache::place` does, for the entry, and until it returns for a list of as many keys as are
    /// there, so that what is evicted can come back. Costs what that call does, and a few steps for each key evicted.
    pub fn place(&mut self, key: K, value: V, size: Size) -> Result<Placed<K, V>, Refused<K, V>>
        ensures found { IfSome (seen_at (K.eq key) self.old)
            (λ seen. IsOkAnd result
            (λ placed. (placed.rectangle ≡ seen.0) × (placed.replaced ≡ Some (key, seen.1))
            × (placed.evicted.items ≡ []))
            × (self.new ≡ with_value (K.eq key) value (used (K.eq key) self.old))) }
        ensures placed { IsNew (K.eq key) self.old → IfOk result
            (λ placed. Places self.old key value size placed.rectangle placed.evicted.items self.new
            × (placed.replaced ≡ None)) }
        ensures large { IsNew (K.eq key) self.old → IfOk result
            (λ placed. IsLarge self.old.atlas.frame size placed.rectangle) }
        ensures returned { IfErr result
            (λ refused. (refused.key ≡ key) × (refused.value ≡ value)) }
        ensures too_large { IsErrAnd result (λ refused. refused.fault ≡ MapFault.TooLarge)
            ↔ (IsNew (K.eq key) self.old × IsTooLarge self.old size) }
        ensures left { IfErr result (λ refused. IsLeft self.old size refused.fault self.new) }
        ensures spared { IfOk result
            (λ placed. length placed.evicted.items ≤ evictable self.old) }
        ensures spared_left { IfErr result (λ refused. Spares self.old refused.fault) }
        ensures frame_full { IfErr result
            (λ refused. refused.fault ≡ MapFault.FrameFull
            → IsNew (K.eq key) self.old × IsFrameFull self.old size) }
        ensures framed { IfErr result
            (λ refused. refused.fault ≡ MapFault.FrameFull → 1 ≤ frame_uses (cache_of self.old)) }
        ensures promises { KeepsMapPromises K.eq self.new }
    {
        let Some(entry) = self.entries.peek(&key) else {
            return self.place_new(key, value, size);
        };
        let ticket = entry.ticket;
        let Some(rectangle) = self.cache.get(ticket) else {
            unreachable!()
        };
        let replaced = revalue(&mut self.entries, key, Ticketed { ticket, value });
        let evicted = Vec::new(self.alloc);
        Ok(Placed {
            rectangle,
            replaced: Some(replaced),
            evicted,
        })
    }

    /// Places a key that isn't there.
    fn place_new(&mut self, key: K, value: V, size: Size) -> Result<Placed<K, V>, Refused<K, V>>
        requires { IsNew (K.eq key) self.old }
        ensures placed { IfOk result
            (λ placed. Places self.old key value size placed.rectangle placed.evicted.items self.new
            × (placed.replaced ≡ None)) }
        ensures large { IfOk result
            (λ placed. IsLarge self.old.atlas.frame size placed.rectangle) }
        ensures returned { IfErr result
            (λ refused. (refused.key ≡ key) × (refused.value ≡ value)) }
        ensures too_large { IsErrAnd result (λ refused. refused.fault ≡ MapFault.TooLarge)
            ↔ IsTooLarge self.old size }
        ensures left { IfErr result (λ refused. IsLeft self.old size refused.fault self.new) }
        ensures spared { IfOk result
            (λ placed. length placed.evicted.items ≤ evictable self.old) }
        ensures spared_left { IfErr result (λ refused. Spares self.old refused.fault) }
        ensures frame_full { IfErr result
            (λ refused. refused.fault ≡ MapFault.FrameFull → IsFrameFull self.old size) }
        ensures framed { IfErr result
            (λ refused. refused.fault ≡ MapFault.FrameFull → 1 ≤ frame_uses (cache_of self.old)) }
        ensures promises { KeepsMapPromises K.eq self.new }
    {
        if !self.cache.atlas().fits_when_empty(size) {
            return Err(Refused {
                key,
                value,
                fault: MapFault::TooLarge,
            });
        }
        // What is evicted must come back whatever memory there is by then.
        let mut evicted = Vec::new(self.alloc);
        if evicted.reserve(self.entries.len()).is_err() {
            return Err(Refused {
                key,
                value,
                fault: MapFault::Memory(evicted),
            });
        }
        let ticket = unused_ticket(&self.cache, self.next);
        self.next = ticket.wrapping_add(1);
        if let Err((key, value)) = put_first(&mut self.entries, key, Ticketed { ticket, value }) {
            return Err(Refused {
                key,
                value,
                fault: MapFault::Memory(evicted),
            });
        }
        let outcome = self.cache.place(ticket, size);
        take_last(&mut self.entries, evictions(&outcome), &mut evicted);
        match outcome {
            Ok(placed) => {
                evicted.shrink_to_fit();
                Ok(Placed {
                    rectangle: placed.rectangle,
                    replaced: None,
                    evicted,
                })
            }
            Err(refused) => {
                let (key, value) = take_first(&mut self.entries);
                let fault = with_evicted(refused, evicted);
                Err(Refused { key, value, fault })
            }
        }
    }

    /// The rectangle and the value of a key; none where the key isn't there. Nothing changes: what is only looked at so
    /// isn't used.
    ///
    /// Takes no memory, and constant time.
    pub fn peek(&self, key: &K) -> Option<(Rectangle, &V)>
        ensures value { option_map (λ seen. (seen.0, seen.1.now)) result ≡ seen_at (K.eq key.now) self.now }
        ensures promises { KeepsMapPromises K.eq self.now }
    {
        let entry = self.entries.peek(key)?;
        let Some(rectangle) = self.cache.peek(entry.ticket) else {
            unreachable!()
        };
        Some((rectangle, &entry.value))
    }

    /// The rectangle and the value of a key, which becomes the most recently used; none where the key isn't there, and
    /// then nothing changes.
    ///
    /// Takes no memory.
    pub fn get(&mut self, key: &K) -> Option<(Rectangle, &V)>
        ensures* used { sem 𝓛 (ends_as K.row V.row K.Hash self.entry (used (K.eq key.now) self.old)) }
        ensures value { option_map (λ seen. (seen.0, seen.1.now)) result ≡ seen_at (K.eq key.now) self.old }
    {
        self.use_key(key);
        self.peek(key)
    }

    /// Uses a key: it becomes the most recently used, and its rectangle is returned; none where the key isn't there, and
    /// then nothing changes.
    ///
    /// Takes no memory.
    pub fn use_key(&mut self, key: &K) -> Option<Rectangle>
        ensures value { result ≡ option_map (λ seen. seen.0) (seen_at (K.eq key.now) self.old) }
        ensures used { self.new ≡ used (K.eq key.now) self.old }
        ensures promises { KeepsMapPromises K.eq self.new }
    {
        let ticket = self.entries.peek(key)?.ticket;
        promote(&mut self.entries, key);
        self.cache.get(ticket)
    }

    /// The keys with their rectangles and values, from the most to the least recently used, and then none for ever.
    /// Nothing changes.
    ///
    /// Takes no memory. A step takes constant time.
    pub fn iter(&self) -> Iter<'_, K, V>
        ensures listed { result ≡ listed self.now }
        ensures promises { KeepsMapPromises K.eq self.now }
    {
        Iter::new(self.entries.iter(), self.cache.iter())
    }

    /// Removes a key, and returns its rectangle and its value; none where the key isn't there, and then nothing changes.
    ///
    /// Takes no memory. The atlas takes the rectangle back as by `AtlasAllocator::deallocate`, at the same cost.
    pub fn remove(&mut self, key: &K) -> Option<(Rectangle, V)>
        ensures value { result ≡ seen_at (K.eq key.now) self.old }
        ensures removed { self.new ≡ without_key (K.eq key.now) self.old }
        ensures promises { KeepsMapPromises K.eq self.new }
    {
        let Ticketed { ticket, value } = take(&mut self.entries, key)?;
        let Some(rectangle) = self.cache.remove(ticket) else {
            unreachable!()
        };
        Some((rectangle, value))
    }

    /// Begins a frame: what is placed or used from now on isn't evicted by `place` until the next frame begins, or
    /// `clear` is called. The order of use stays.
    ///
    /// Takes no memory, and constant time.
    pub fn begin_frame(&mut self)
        ensures begun { self.new ≡ in_new_frame self.old }
        ensures promises { KeepsMapPromises K.eq self.new }
    {
        self.cache.begin_frame();
    }

    /// How many keys were placed or used in this frame and are still there: none before the first frame.
    ///
    /// Takes no memory. Goes through these keys.
    pub fn used_in_frame(&self) -> usize
        ensures { result ≡ frame_uses (cache_of self.now) }
    {
        self.cache.used_in_frame()
    }

    /// The map as it is saved, beside its keys and values, which the caller saves in the order of `iter()`: its capacity,
    /// its atlas, and in place of the keys the numbers from 0 on, in this order. What was used in the frame isn't saved.
    ///
    /// The error comes only where there was no memory. Takes memory for the records of the atlas and for the numbers, and
    /// until it returns for these once more; goes through them.
    pub fn snapshot(&self) -> Result<CacheSnapshot, AllocError>
        ensures stands { IfOk result
            (λ snapshot. MapStandsFor snapshot (pairs_of self.now.entries) (without_frame self.now)) }
        ensures numbers { IfOk result
            (λ snapshot. keys_saved snapshot ≡ range_with_len 0 (length self.now.entries)) }
    {
        let CacheSnapshot {
            capacity,
            atlas,
            keys,
        } = self.cache.snapshot()?;
        let keys = numbered(self.alloc, keys.as_slice())?;
        Ok(CacheSnapshot {
            capacity,
            atlas,
            keys,
        })
    }

    /// The map for which a snapshot stands with these keys and values, whoever wrote them; no frame has begun. The first
    /// pair belongs to the first key of the snapshot, and so on.
    ///
    /// After a fault all pairs come back in their order. It is a rule that the snapshot and the pairs break, or `Memory`.
    /// Takes memory for the map, and costs what `GlyphCache::restore` does, and a few steps for each key.
    pub fn restore(
        alloc: Global,
        snapshot: CacheSnapshot,
        pairs: Vec<(K, V)>,
    ) -> Result<GlyphMap<K, V>, NotRestored<K, V>>
        ensures ok { IfOk result (MapStandsFor snapshot pairs.items) }
        ensures fault { IfErr result
            (λ refused. IsMapBroken K.eq snapshot pairs.items refused.fault) }
        ensures returned { IfErr result (λ refused. refused.pairs.items ≡ pairs.items) }
        ensures promises { IfOk result (KeepsMapPromises K.eq) }
    {
        if pairs.len() != snapshot.keys.len() {
            return Err(NotRestored {
                pairs,
                fault: MapRestoreFault::WrongCount,
            });
        }
        let cache = match GlyphCache::restore(alloc, snapshot) {
            Ok(cache) => cache,
            Err(fault) => {
                let fault = cache_fault(fault);
                return Err(NotRestored { pairs, fault });
            }
        };
        let entries = under_tickets(alloc, &cache, pairs)?;
        // The numbers of a map's own snapshot are all below this one.
        let next = entries.len() as u64;
        Ok(GlyphMap {
            entries,
            cache,
            next,
            alloc,
        })
    }

    /// Makes the atlas larger, to this size in pixels, as by `AtlasAllocator::grow`. Each key keeps its place and its
    /// value, and the order of use stays.
    ///
    /// Returns the first fault; `Memory` only where there is no other, the grow needs records and there was no
    /// memory. Nothing changes after a fault. Takes memory and time as that call does.
    pub fn grow(&mut self, size: Size) -> Result<(), AtlasGrowFault>
        ensures ok { OnOk result (self.new ≡ map_grown self.old size) }
        ensures fault { IfSome (grow_fault self.old.atlas size) (λ fault. result ≡ Err fault) }
        ensures memory { IfErr result
            (λ fault. grow_fault self.old.atlas size ≡ None
            → (fault ≡ grow_faults.Memory) × (1 ≤ records_needed self.old.atlas size)) }
        ensures err { OnErr result (self.new ≡ self.old) }
        ensures promises { KeepsMapPromises K.eq self.new }
    {
        self.cache.grow(size)
    }

    /// Sets how many keys there may be. Where more are there, the least recently used keys are evicted, no more than
    /// needed; they are returned with their values, the least recently used first. A capacity that is no less than
    /// `len()` evicts none.
    ///
    /// The error comes only where keys have to go and there was no memory; then nothing changes. Takes memory for two
    /// lists of what is evicted. An eviction costs a `deallocate` of the atlas; the table of the cache is gone through
    /// once.
    pub fn set_capacity(&mut self, capacity: NonZeroUsize) -> Result<Vec<(K, V)>, AllocError>
        ensures ok { OnOk result
            (self.new ≡ with_capacity self.old (non_zero_usize_get capacity)) }
        ensures evicted { IfOk result (λ evicted. evicted.items
            ≡ dropped_pairs self.old (surplus self.old (non_zero_usize_get capacity))) }
        ensures err { OnErr result (self.new ≡ self.old) }
        ensures surplus { OnErr result (1 ≤ surplus self.old (non_zero_usize_get capacity)) }
        ensures promises { KeepsMapPromises K.eq self.new }
    {
        let surplus = self.entries.len().saturating_sub(capacity.get());
        let mut evicted = Vec::new(self.alloc);
        evicted.reserve(surplus)?;
        self.cache.set_capacity(capacity)?;
        take_last(&mut self.entries, surplus, &mut evicted);
        Ok(evicted)
    }

    /// Removes all keys and drops their values: the map is as new, and no frame has begun.
    ///
    /// Takes no memory. Goes through the keys and the columns.
    pub fn clear(&mut self)
        ensures cleared { self.new ≡ empty_map self.old.atlas.frame self.old.capacity }
        ensures promises { KeepsMapPromises K.eq self.new }
    {
        self.entries.clear();
        self.cache.clear();
    }

    /// How many keys are there. Takes constant time.
    pub fn len(&self) -> usize
        ensures len { result ≡ length self.now.entries }
        ensures promises { KeepsMapPromises K.eq self.now }
    {
        self.entries.len()
    }

    /// Whether no key is there. Takes constant time.
    pub fn is_empty(&self) -> bool
        ensures { IsTrue result ↔ (self.now.entries ≡ []) }
    {
        self.len() == 0
    }

    /// How many keys there may be. Takes constant time.
    pub fn capacity(&self) -> NonZeroUsize
        ensures { non_zero_usize_get result ≡ self.now.capacity }
    {
        self.cache.capacity()
    }

    /// The atlas in which the rectangles lie, for its size, its space and its picture.
    pub fn atlas(&self) -> &AtlasAllocator
        ensures { result.now ≡ self.now.atlas }
    {
        self.cache.atlas()
    }
}

impl<K: Eq + Hash + Clone, V: Drop> GlyphMap<K, V> {
    /// Keeps the keys of which a test says so. It is asked once of each key and its value, the least recently used
    /// first; the others are removed in this order, and dropped with their values. The order of use stays, and so does
    /// what was used in the frame. That holds where a clone of a key equals it.
    ///
    /// The error comes only where keys have to go and there was no memory; then nothing changes, but that the test may
    /// have been asked. Takes memory for a clone of each key that goes. A key that goes costs a `remove`, another one
    /// constant time.
    pub fn retain<F: FnMut(&K, &V) -> bool>(&mut self, keeps: F) -> Result<(), AllocError>
        requires { F.IsAlwaysCallable keeps }
        ensures retained { AreClonesEqual K.is_clone K.eq
            → OnOk result (Retains F.FnMut K.eq keeps self.old self.new) }
        ensures err { OnErr result (self.new ≡ self.old) }
        ensures refused { OnErr result
            (RefusesSome F.FnMut keeps (reverse (pairs_of self.old.entries))) }
        ensures promises { KeepsMapPromises K.eq self.new }
    {
        let refused = clones_of_refused(self.alloc, &self.entries, keeps)?;
        self.remove_all(refused.as_slice());
        Ok(())
    }

    /// Removes these keys, one after another.
    fn remove_all(&mut self, keys: &[K])
        requires { KeepsMapPromises K.eq self.old }
        ensures removed { self.new ≡ without_keys K.eq self.old keys.now }
        ensures promises { KeepsMapPromises K.eq self.new }
    {
        let mut rest = keys;
        while let Some((key, after)) = rest.split_first() {
            self.remove(key);
            rest = after;
        }
    }
}

impl<'a, K: Eq + Hash + Drop, V: Drop> IntoIterator for &'a GlyphMap<K, V> {
    type Item = (&'a K, Rectangle, &'a V);

    type IntoIter = Iter<'a, K, V>;

    ghost into_iter_gives = { λ map iter. iter ≡ listed map.now };

    fn into_iter(self) -> Iter<'a, K, V> {
        self.iter()
    }
}
