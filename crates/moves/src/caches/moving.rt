//! The call: the atlas of a cache moves into a new one, and the keys follow.
//!
//! Definitions: `Arranging`, over those of `atlases` and of `glyph_shelf`. The clauses stay as they are: callers prove
//! by them.

ghost use Rattle.std.specs.Prelude.{◌≡◌, ℕ, Err, None, IfOk, IfErr, IfSome, OnOk};
ghost use Rattle.std.specs.List.{AllByRecursion};
ghost use Rattle.std.specs.Map.{keys_of};
ghost use Rattle.etagere_base.specs.Frames.{IsAccepted, atlas_frame, longest_side, options_fault};
ghost use Rattle.etagere_base.specs.Lists.{times};
ghost use Rattle.etagere_base.specs.declared.faults.OptionsFault.TheVariants as faults;
ghost use Rattle.glyph_shelf.specs.Promises.{KeepsCachePromises};
ghost use Rattle.glyph_shelf.specs.Saved.{CacheStandsFor};
ghost use Rattle.glyph_shelf.specs.Cache as model;
ghost use Rattle.moves.specs.Atlases.Options as options;
ghost use Rattle.moves.specs.Caches.Arranging as spec;
ghost use Rattle.moves.specs.Caches.Arranging.{HasMoved, IsLeftOut, IsRearrangedCache, keys_told};
ghost use Rattle.moves.specs.Caches.Private.Following.{Follows, IsMovedInto};

use crate::atlases::{Move, rearranged};
use crate::caches::by_id::{key_moves, keys_by_id, keys_moved, new_ids, unplaced_keys};
use crate::caches::rearrangement::RearrangedCache;
use etagere_shelves::{Allocation, AtlasAllocator, OptionsFault, Size};
use glyph_shelf::laws::snapshots_stand_for_one_cache;
use glyph_shelf::{CacheRestoreFault, CacheSnapshot, GlyphCache};
use std::alloc::{AllocError, Global};

/// Places all keys of a cache in a new atlas of this size in pixels, and so without the gaps that returns have left. The
/// old cache stays as it is.
///
/// The new atlas is what `rearranged` makes of the old one: each rectangle asks for its own sides, the tallest first. The
/// keys whose rectangles found a place are in the new cache, in the same order of use; it may hold as many keys as the
/// old one, and no frame has begun. The others aren't in it.
///
/// Returns the first fault of the size with the options of the old atlas; `Memory` only where there is no other and no
/// memory. Takes memory for the new cache, for snapshots of both, and for lists of what is allocated. Takes the time of
/// `rearranged`, of saving the old cache and of restoring the new one.
///
/// ```text
/// let done = rearranged_cache(alloc, &cache, size2(512, 512))?;
/// for KeyMove { key, before, after } in &done.moves { .. }    // copy the pixels from one texture to the other
/// for left in &done.unplaced { .. }                           // left.key is no longer there
/// ```
pub fn rearranged_cache(
    alloc: Global,
    cache: &GlyphCache,
    size: Size,
) -> Result<RearrangedCache, OptionsFault>
    ensures rearranged { IfOk result
        (λ done. IsRearrangedCache cache.now size done.moves.items done.unplaced.items done.cache) }
    ensures each { IfOk result (λ done. (key : ℕ)
        → times key (keys_told done.moves.items done.unplaced.items) ≡ times key (keys_of cache.now.entries)) }
    ensures moved { IfOk result
        (λ done. AllByRecursion (HasMoved cache.now done.cache) done.moves.items) }
    ensures left_out { IfOk result
        (λ done. AllByRecursion (IsLeftOut cache.now done.cache) done.unplaced.items) }
    ensures frame { IfOk result (λ done. done.cache.atlas.frame
        ≡ atlas_frame size (options.options_of cache.now.atlas.frame)) }
    ensures unframed { IfOk result (λ done. done.cache.used_in_frame ≡ None) }
    ensures promises { IfOk result (λ done. KeepsCachePromises done.cache) }
    ensures accepted { OnOk result
        (IsAccepted longest_side size (options.options_of cache.now.atlas.frame)) }
    ensures fault { IfSome (options_fault longest_side size (options.options_of cache.now.atlas.frame))
        (λ fault. result ≡ Err fault) }
    ensures memory { IfErr result
        (λ fault. IsAccepted longest_side size (options.options_of cache.now.atlas.frame)
        → fault ≡ faults.Memory) }
{
    let moved = rearranged(alloc, cache.atlas(), size)?;
    match with_keys(alloc, cache, &moved.atlas, &moved.moves, &moved.unplaced) {
        Ok(done) => Ok(done),
        Err(AllocError) => Err(OptionsFault::Memory),
    }
}

/// A cache in a new atlas, into which its rectangles have moved, and what became of its keys.
fn with_keys(
    alloc: Global,
    cache: &GlyphCache,
    atlas: &AtlasAllocator,
    moves: &[Move],
    unplaced: &[Allocation],
) -> Result<RearrangedCache, AllocError>
    requires { IsMovedInto cache.now.atlas moves.now unplaced.now atlas.now }
    ensures { IfOk result (λ done.
        Follows cache.now moves.now unplaced.now atlas.now done.moves.items done.unplaced.items done.cache) }
{
    let saved = cache.snapshot()?;
    let keys = keys_by_id(alloc, &saved.keys)?;
    let told = key_moves(alloc, &keys, moves)?;
    let left = unplaced_keys(alloc, &keys, unplaced)?;
    let ids = new_ids(alloc, moves)?;
    let snapshot = CacheSnapshot {
        capacity: saved.capacity,
        atlas: atlas.snapshot()?,
        keys: keys_moved(alloc, &ids, &saved.keys)?,
    };
    Ok(RearrangedCache {
        cache: restored(alloc, snapshot)?,
        moves: told,
        unplaced: left,
    })
}

/// The cache for which a snapshot stands. The caller knows that there is one, so that only memory can be wanting.
fn restored(alloc: Global, snapshot: CacheSnapshot) -> Result<GlyphCache, AllocError>
    requires { (state : model.CacheState) × CacheStandsFor snapshot state }
    ensures { IfOk result (λ cache. (state : model.CacheState) → CacheStandsFor snapshot state
        → cache ≡ state) }
{
    snapshots_stand_for_one_cache();
    match GlyphCache::restore(alloc, snapshot) {
        Ok(cache) => Ok(cache),
        Err(CacheRestoreFault::Memory) => Err(AllocError),
        Err(_) => unreachable!(),
    }
}
