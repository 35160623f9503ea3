//! Laws of a cache without a frame and of snapshots, and saving and restoring in one call. Public, but not meant for
//! users.
//!
//! Definitions: `Laws` and `Saved`. Functions that do nothing have no callers: they make the check prove the laws.

ghost use Rattle.std.specs.Prelude.{◌≡◌, IfErr, IfOk};
ghost use Rattle.glyph_shelf.specs.Laws.{NoFrameBindsNothing};
ghost use Rattle.glyph_shelf.specs.Saved.{BrokenCacheStandsForNone, CacheStandsForOne, without_frame};
ghost use Rattle.glyph_shelf.specs.declared.faults.CacheRestoreFault.TheVariants as faults;

use crate::cache::GlyphCache;
use crate::faults::CacheRestoreFault;
use std::alloc::Global;

/// Where no key was used in a frame, any may be evicted, and evictions make room for what isn't too large.
pub fn no_frame_binds_nothing()
    ensures { NoFrameBindsNothing }
{}

/// A snapshot stands for one cache at most, and one that breaks a rule for none.
pub fn snapshots_stand_for_one_cache()
    ensures one { CacheStandsForOne }
    ensures none { BrokenCacheStandsForNone }
{}

/// Saves a cache and restores what was saved: the other cache is in the same state, but for the frame.
///
/// The error is `Memory`, and comes only where there was no memory. Takes the memory of both calls.
pub fn saved_and_restored(
    alloc: Global,
    cache: &GlyphCache,
) -> Result<GlyphCache, CacheRestoreFault>
    ensures ok { IfOk result (λ other. other ≡ without_frame cache.now) }
    ensures memory { IfErr result (λ fault. fault ≡ faults.Memory) }
{
    let Ok(snapshot) = cache.snapshot() else {
        return Err(CacheRestoreFault::Memory);
    };
    GlyphCache::restore(alloc, snapshot)
}
