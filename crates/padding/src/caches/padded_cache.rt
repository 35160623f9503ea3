//! The calls of a cache with a padding.
//!
//! Definitions: `Padded`, over those of `glyph_shelf` and `Padding`. The clauses stay as they are: callers prove by them.

ghost use Rattle.std.specs.Prelude.{◌≡◌, ◌↔◌, ◌≤◌, [], Err, None, IfOk, IfErr, IfSome, IsOkAnd, IsErrAnd, IsErrOf, OnErr, OnOk, length};
ghost use Rattle.std.specs.NonZero.{non_zero_usize_get};
ghost use Rattle.etagere_base.specs.declared.geometry.Rectangle as geometry;
ghost use Rattle.etagere_base.specs.Frames.{IsAccepted, atlas_frame, longest_side, options_fault};
ghost use Rattle.etagere_base.specs.declared.faults.OptionsFault.TheVariants as faults;
ghost use Rattle.shelf_model.specs.Growing.{grow_fault, records_needed};
ghost use Rattle.shelf_model.specs.declared.faults.AtlasGrowFault.TheVariants as grow_faults;
ghost use Rattle.glyph_shelf.specs.Cache.{empty_cache, evictable, frame_uses, in_new_frame, used, without_key};
ghost use Rattle.glyph_shelf.specs.Placing.{EvictsNone, IsFrameFull, IsLeft, IsNew, IsTooLarge, Spares};
ghost use Rattle.glyph_shelf.specs.Sizing.{cache_grown, surplus, surplus_keys, with_capacity};
ghost use Rattle.glyph_shelf.specs.declared.faults.GlyphFault.TheVariants as glyph_faults;
ghost use Rattle.padding.specs.Padding.{HasSize, IsNear, padded, padding_refusal, trimmed};
ghost use Rattle.padding.specs.Caches.Padded.{KeepsCachePadding, PlacesPadded, RetainsPadded, trimmed_at, trimmed_list};

use crate::Padding;
use crate::caches::listing::Iter;
use crate::caches::trimming::without_padding;
use etagere_shelves::{AllocatorOptions, AtlasGrowFault, OptionsFault, Rectangle, Size};
use glyph_shelf::{GlyphCache, GlyphFault, Placed};
use std::alloc::{AllocError, Global};
use std::marker::Model;
use std::num::NonZeroUsize;

/// A cache in which so many pixels stay free on each side of each rectangle. A size is asked for with them, and its
/// rectangle is given back without them.
///
/// ```text
/// let mut cache = PaddedCache::new(alloc, size2(512, 512), &DEFAULT_OPTIONS, capacity, Padding::around(1))?;
/// let placed = cache.place(key, size2(9, 14))?;        // the first rectangle begins at (1, 1)
/// ```
#[derive(Drop)]
pub struct PaddedCache {
    cache: GlyphCache,
    padding: Padding,
}

impl Model for PaddedCache {
    ghost use Rattle.padding.specs.Caches.Padded.{PaddedCacheState};

    ghost Value = { PaddedCacheState };

    ghost use Rattle.padding.specs.Caches.Private.Kept.{IsKeptPadded, padded_in};

    ghost view = { padded_in };

    ghost invariant = { IsKeptPadded };
}

impl PaddedCache {
    /// An empty cache of at most `capacity` keys and this padding, over an atlas of this size in pixels.
    ///
    /// Faults, memory and time are those of `GlyphCache::new`.
    pub fn new(
        alloc: Global,
        size: Size,
        options: &AllocatorOptions,
        capacity: NonZeroUsize,
        padding: Padding,
    ) -> Result<PaddedCache, OptionsFault>
        ensures ok { IfOk result (λ made. made ≡ record {
          padding = padding;
          cache = empty_cache (atlas_frame size options.now) (non_zero_usize_get capacity);
        }) }
        ensures accepted { OnOk result (IsAccepted longest_side size options.now) }
        ensures promises { IfOk result KeepsCachePadding }
        ensures fault { IfSome (options_fault longest_side size options.now)
            (λ fault. result ≡ Err fault) }
        ensures memory { IfErr result
            (λ fault. IsAccepted longest_side size options.now → fault ≡ faults.Memory) }
    {
        match GlyphCache::new(alloc, size, options, capacity) {
            Ok(cache) => Ok(PaddedCache { cache, padding }),
            Err(fault) => Err(fault),
        }
    }

    /// The same cache, of whose rectangles so many pixels on each side are padding from now on. A rectangle that is
    /// smaller than its padding has a corner beyond the opposite one when it is trimmed: what was asked for with this
    /// padding is not.
    ///
    /// Takes no memory, and constant time.
    pub fn from_cache(cache: GlyphCache, padding: Padding) -> PaddedCache
        ensures made { result ≡ record { padding = padding; cache = cache } }
        ensures promises { KeepsCachePadding result }
    {
        // A call tells what each cache keeps, which the padded rectangles lie inside and apart by.
        let _ = cache.len();
        PaddedCache { cache, padding }
    }

    /// Gives the rectangle of a key, without its padding. A key that is there becomes the most recently used; the size
    /// isn't looked at.
    ///
    /// A new key gets a rectangle at least as large as the size in pixels. With its padding, it lies inside the atlas, and
    /// shares no pixel with any other and its padding. `TooLarge` comes exactly where the key is new and an empty atlas
    /// has no room for the size with its padding: so it is where a side is below 1, or with its padding above 65535, and
    /// then `Padding::padded` has the reason. All else, evictions, faults and costs, is as of `GlyphCache::place`, for
    /// the size with its padding.
    pub fn place(&mut self, key: u64, size: Size) -> Result<Placed, GlyphFault>
        ensures found { IfSome (trimmed_at self.old key)
            (λ rectangle. IsOkAnd result
            (λ placed. (placed.rectangle ≡ rectangle) × (placed.evicted.items ≡ []))
            × (self.new ≡ record self.old { cache = used self.old.cache key })) }
        ensures placed { IsNew self.old.cache key → IfOk result
            (λ placed. PlacesPadded self.old key size placed.rectangle placed.evicted.items self.new) }
        ensures large { IsNew self.old.cache key → IfOk result
            (λ placed. HasSize size placed.rectangle) }
        ensures too_large { IsErrOf result GlyphFault.TooLarge
            ↔ (IsNew self.old.cache key × IsTooLarge self.old.cache (padded self.old.padding size)) }
        ensures left { IfErr result
            (λ fault. IsLeft self.old.cache (padded self.old.padding size) fault self.new.cache) }
        ensures spared { IfOk result
            (λ placed. length placed.evicted.items ≤ evictable self.old.cache) }
        ensures spared_left { IfErr result (Spares self.old.cache) }
        ensures frame_full { IsErrOf result GlyphFault.FrameFull
            → IsNew self.old.cache key × IsFrameFull self.old.cache (padded self.old.padding size) }
        ensures framed { IsErrOf result GlyphFault.FrameFull → 1 ≤ frame_uses self.old.cache }
        ensures full { IsNew self.old.cache key → IsFrameFull self.old.cache (padded self.old.padding size)
            → IsErrAnd result EvictsNone × (self.new ≡ self.old) }
        ensures padding { self.new.padding ≡ self.old.padding }
        ensures promises { KeepsCachePadding self.new }
    {
        let asked = self.asked(key, size)?;
        match self.cache.place(key, asked) {
            Ok(placed) => Ok(Placed {
                rectangle: self.padding.trimmed(placed.rectangle),
                evicted: placed.evicted,
            }),
            Err(fault) => Err(fault),
        }
    }

    /// The size with its padding; where the key is there, any size.
    fn asked(&self, key: u64, size: Size) -> Result<Size, GlyphFault>
        ensures ok { IfOk result (λ asked. IsNew self.now.cache key
            → (asked ≡ padded self.now.padding size) × (padding_refusal self.now.padding size ≡ None)) }
        ensures fault { IfErr result (λ fault. (fault ≡ glyph_faults.TooLarge)
            × IsNew self.now.cache key × IsTooLarge self.now.cache (padded self.now.padding size)) }
    {
        match self.padding.padded(size) {
            Ok(asked) => Ok(asked),
            Err(_) => {
                if self.cache.peek(key).is_some() {
                    Ok(size)
                } else {
                    Err(GlyphFault::TooLarge)
                }
            }
        }
    }

    /// The rectangle of a key, without its padding; the key becomes the most recently used. None where the key isn't
    /// there, and then nothing changes.
    ///
    /// Takes no memory.
    pub fn get(&mut self, key: u64) -> Option<Rectangle>
        ensures value { result ≡ trimmed_at self.old key }
        ensures used { self.new ≡ record self.old { cache = used self.old.cache key } }
        ensures promises { KeepsCachePadding self.new }
    {
        let rectangle = self.peek(key);
        self.cache.get(key);
        rectangle
    }

    /// The rectangle of a key, without its padding; none where the key isn't there. Nothing changes: what is only looked
    /// at so isn't used.
    ///
    /// Takes no memory, and constant time.
    pub fn peek(&self, key: u64) -> Option<Rectangle>
        ensures value { result ≡ trimmed_at self.now key }
        ensures promises { KeepsCachePadding self.now }
    {
        let rectangle = self.cache.peek(key)?;
        Some(self.padding.trimmed(rectangle))
    }

    /// The keys with their rectangles, without their padding, from the most to the least recently used, and then none for
    /// ever. Nothing changes.
    ///
    /// Takes no memory. A step takes constant time.
    pub fn iter(&self) -> Iter<'_>
        ensures listed { result ≡ trimmed_list self.now }
        ensures promises { KeepsCachePadding self.now }
    {
        Iter::new(self.cache.iter(), self.padding)
    }

    /// Removes a key, and returns the rectangle that it had, without its padding; none where the key isn't there, and then
    /// nothing changes.
    ///
    /// Takes no memory. Costs what `GlyphCache::remove` does.
    pub fn remove(&mut self, key: u64) -> Option<Rectangle>
        ensures value { result ≡ trimmed_at self.old key }
        ensures removed { self.new ≡ record self.old { cache = without_key self.old.cache key } }
        ensures promises { KeepsCachePadding self.new }
    {
        let rectangle = self.peek(key);
        self.cache.remove(key);
        rectangle
    }

    /// Keeps the keys of which a test says so, as `GlyphCache::retain` does. The test is asked once of each key and its
    /// rectangle without its padding, the least recently used first; the others are removed in this order. The order of
    /// use stays, and so does what was used in the frame.
    ///
    /// Takes no memory. Costs what that call does.
    pub fn retain<F: FnMut(u64, Rectangle) -> bool>(&mut self, mut keeps: F)
        requires { F.IsAlwaysCallable keeps }
        ensures retained { RetainsPadded F.step keeps self.old self.new }
        ensures promises { KeepsCachePadding self.new }
    {
        let padding = self.padding;
        let asked = |key: u64, rectangle: Rectangle|
            requires { F.IsAlwaysCallable keeps }
            ensures { (told : geometry.Rectangle) × (IsNear rectangle → told ≡ trimmed padding rectangle)
                × F.step keeps.entry key told result keeps.exit }
        { keeps(key, without_padding(padding, rectangle)) };
        self.cache.retain(asked);
    }

    /// Begins a frame, as `GlyphCache::begin_frame` does. Takes no memory, and constant time.
    pub fn begin_frame(&mut self)
        ensures begun { self.new ≡ record self.old { cache = in_new_frame self.old.cache } }
        ensures promises { KeepsCachePadding self.new }
    {
        self.cache.begin_frame();
    }

    /// Removes all keys: the cache is as new, and no frame has begun.
    ///
    /// Takes no memory. Goes through the keys and the columns.
    pub fn clear(&mut self)
        ensures cleared { self.new ≡ record self.old {
          cache = empty_cache self.old.cache.atlas.frame self.old.cache.capacity;
        } }
        ensures promises { KeepsCachePadding self.new }
    {
        self.cache.clear();
    }

    /// Makes the atlas larger, to this size in pixels, as `GlyphCache::grow` does: each key keeps its place, and the order
    /// of use stays. Nothing changes after a fault.
    ///
    /// Faults, memory and time are those of that call.
    pub fn grow(&mut self, size: Size) -> Result<(), AtlasGrowFault>
        ensures ok { OnOk result
            (self.new ≡ record self.old { cache = cache_grown self.old.cache size }) }
        ensures fault { IfSome (grow_fault self.old.cache.atlas size)
            (λ fault. result ≡ Err fault) }
        ensures memory { IfErr result
            (λ fault. grow_fault self.old.cache.atlas size ≡ None
            → (fault ≡ grow_faults.Memory) × (1 ≤ records_needed self.old.cache.atlas size)) }
        ensures err { OnErr result (self.new ≡ self.old) }
        ensures promises { KeepsCachePadding self.new }
    {
        self.cache.grow(size)
    }

    /// Sets how many keys there may be, as `GlyphCache::set_capacity` does. Where more are there, the least recently used
    /// keys are evicted, no more than needed; they are returned, the least recently used first.
    ///
    /// The error comes only where keys have to go and there was no memory; then nothing changes. Takes memory and time as
    /// that call does.
    pub fn set_capacity(&mut self, capacity: NonZeroUsize) -> Result<Vec<u64>, AllocError>
        ensures ok { OnOk result (self.new
            ≡ record self.old { cache = with_capacity self.old.cache (non_zero_usize_get capacity) }) }
        ensures evicted { IfOk result (λ evicted. evicted.items
            ≡ surplus_keys self.old.cache (non_zero_usize_get capacity)) }
        ensures err { OnErr result (self.new ≡ self.old) }
        ensures surplus { OnErr result (1 ≤ surplus self.old.cache (non_zero_usize_get capacity)) }
        ensures promises { KeepsCachePadding self.new }
    {
        self.cache.set_capacity(capacity)
    }

    /// How many pixels stay free on each side. Takes constant time.
    pub fn padding(&self) -> Padding
        ensures { result ≡ self.now.padding }
    {
        self.padding
    }

    /// The cache, in which each rectangle has its padding, for its atlas, how many keys there are and may be, and what is
    /// saved of it. Takes constant time.
    pub fn cache(&self) -> &GlyphCache
        ensures cache { result.now ≡ self.now.cache }
        ensures promises { KeepsCachePadding self.now }
    {
        &self.cache
    }
}

impl<'a> IntoIterator for &'a PaddedCache {
    type Item = (u64, Rectangle);

    type IntoIter = Iter<'a>;

    ghost into_iter_gives = { λ cache iter. iter ≡ trimmed_list cache.now };

    fn into_iter(self) -> Iter<'a> {
        self.iter()
    }
}
