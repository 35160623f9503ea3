//! The JSON text that a cache is saved as, and the cache that is made from such text.
//!
//! Definitions: `Calls`, `Saving`, `Statuses`.

ghost use Rattle.std.specs.Prelude.{◌≡◌, ◌≢◌, ◌<◌, [], ◌∷◌, IfErr, IfOk, IfSome};
ghost use Rattle.glyph_shelf.specs.Promises.{KeepsCachePromises};
ghost use Rattle.c_answers.specs.Calls.{IsAmong};
ghost use Rattle.c_answers.specs.Saving.{BreaksCache, IsCacheRestoreStatus, SavesCache, SavesUnframed};
ghost use Rattle.c_answers.specs.Statuses as statuses;
ghost use Rattle.saved_collections.specs.Caches.Values.{SpellsCache};

use crate::snapshots::boxed;
use crate::statuses::{UNREADABLE, cache_restore_refused};
use glyph_shelf::{CacheRestoreFault, CacheSnapshot, GlyphCache};
use saved_collections::caches::{read_saved_cache, write_saved_cache};
use saved_json::ReadFault;
use std::alloc::Global;

/// The saved cache that a text spells, or the status of that there is none.
fn read(alloc: Global, text: &[u8]) -> Result<CacheSnapshot, u32>
    ensures saved { IfOk result (λ snapshot. SpellsCache text.now snapshot) }
    ensures status { IfErr result (λ status. IsAmong (statuses.unreadable ∷ statuses.restore_memory ∷ []) status) }
{
    match read_saved_cache(alloc, text) {
        Ok(snapshot) => Ok(snapshot),
        Err(ReadFault::Unreadable) => Err(UNREADABLE),
        Err(ReadFault::Memory) => Err(cache_restore_refused(CacheRestoreFault::Memory)),
    }
}

/// The text that a cache is saved as; none where there was no memory.
pub fn cache_text_of(alloc: Global, cache: &GlyphCache) -> Option<Vec<u8>>
    ensures { IfSome result (λ text. SavesUnframed text.items cache.now) }
{
    let snapshot = cache.snapshot().ok()?;
    write_saved_cache(alloc, &snapshot).ok()
}

/// The boxed cache that a text is saved as, or the status of that it isn't made.
pub fn cache_made_of(alloc: Global, text: &[u8]) -> Result<Box<GlyphCache>, u32>
    ensures made { IfOk result (λ boxed. SavesCache text.now boxed.value × KeepsCachePromises boxed.value) }
    ensures status { IfErr result (λ status. (status ≢ statuses.ok) × (status ≢ statuses.handle_in_use) × IsCacheRestoreStatus status) }
    ensures broken { IfErr result (λ status. statuses.unreadable < status → status ≢ statuses.restore_memory → BreaksCache text.now status) }
{
    let snapshot = read(alloc, text)?;
    match GlyphCache::restore(alloc, snapshot) {
        Ok(cache) => boxed(alloc, cache),
        Err(fault) => Err(cache_restore_refused(fault)),
    }
}
