//! Saving a cache as JSON text in a buffer of the caller, and making one from such text.
//!
//! Definitions: `Calls`, `Saving`, `Statuses`.

ghost use Rattle.std.specs.Prelude.{◌≡◌, ◌≢◌, ◌↔◌, ◌<◌, ◌⊎◌, [], ◌∷◌, None, length, IfSome, IsSome, IsSomeAnd};
ghost use Rattle.glyph_shelf.specs.Promises.{KeepsCachePromises};
ghost use Rattle.c_answers.specs.Calls.{IsAmong};
ghost use Rattle.c_answers.specs.Saving.{BreaksCache, IsCacheRestoreStatus, IsSavedBeyond, IsSavedIn, SavesCache, SavesUnframed};
ghost use Rattle.c_answers.specs.Statuses as statuses;

use c_answers::EtagereCache;
use c_answers::buffers::hand_out;
use c_answers::cache_snapshots::{cache_made_of, cache_text_of};
use c_answers::statuses::{HANDLE_IN_USE, MEMORY, NULL_HANDLE, OK};
use std::alloc::Global;

/// Writes what the cache is saved as to the front of the buffer, and its length to *text_length: the JSON text of an
/// object with the keys "capacity", "atlas" and "keys", without a space or a zero behind it; the frame isn't saved. What
/// is behind stays, and the cache does.
///
/// Answers ETAGERE_OK; ETAGERE_NULL_HANDLE; ETAGERE_LENGTH where the buffer is shorter than the text: then *text_length
/// is written too, and nothing else; ETAGERE_MEMORY. Takes memory for all records and keys, for the text, and for the
/// text as a JSON value, and goes through all of these.
#[unsafe(no_mangle)]
pub extern "C" fn etagere_cache_snapshot(
    alloc: Global,
    cache: &mut EtagereCache,
    buffer: &mut [u8],
    text_length: &mut usize,
) -> u32
    ensures null { (result ≡ statuses.null_handle) ↔ (cache.old.state ≡ None) }
    ensures status { IsAmong (statuses.ok ∷ statuses.null_handle ∷ statuses.too_short ∷ statuses.out_of_memory ∷ []) result }
    ensures written { result ≡ statuses.ok → IfSome cache.old.state (λ held. IsSavedIn SavesUnframed held buffer.old buffer.new text_length.new) }
    ensures short { result ≡ statuses.too_short → IfSome cache.old.state (λ held. IsSavedBeyond SavesUnframed held (length buffer.old) text_length.new) }
    ensures unwritten { result ≢ statuses.ok → buffer.new ≡ buffer.old }
    ensures uncounted { result ≢ statuses.ok → result ≢ statuses.too_short → text_length.new ≡ text_length.old }
    ensures stays { cache.new.state ≡ cache.old.state }
{
    let Some(held) = cache.lend() else {
        return NULL_HANDLE;
    };
    let text = cache_text_of(alloc, held);
    match text {
        Some(text) => hand_out(text.as_slice(), buffer, text_length),
        None => MEMORY,
    }
}

/// Fills a null handle with the cache that a text is saved as, whoever wrote it: what etagere_cache_snapshot gives, or
/// the same with its keys in another order, others that are passed over, or spaces between. No frame has begun.
///
/// Answers ETAGERE_OK; ETAGERE_HANDLE_IN_USE where the handle isn't null; ETAGERE_UNREADABLE where the bytes are no such
/// text, or there was no memory for what they say; ETAGERE_RESTORE_.. or ETAGERE_CACHE_RESTORE_.., the number of a rule
/// that the snapshot breaks, or ETAGERE_RESTORE_MEMORY where there was no memory for the cache. Takes memory for the
/// snapshot, for the text as a JSON value, and for the cache with a copy of its atlas; goes through all of these, and
/// takes each rectangle of the copy back as etagere_atlas_deallocate does.
#[unsafe(no_mangle)]
pub extern "C" fn etagere_cache_restore(alloc: Global, cache: &mut EtagereCache, text: &[u8]) -> u32
    ensures in_use { (result ≡ statuses.handle_in_use) ↔ IsSome cache.old.state }
    ensures status { (result ≡ statuses.ok) ⊎ ((result ≡ statuses.handle_in_use) ⊎ IsCacheRestoreStatus result) }
    ensures restored { result ≡ statuses.ok → IsSomeAnd cache.new.state (λ held. SavesCache text.now held × KeepsCachePromises held) }
    ensures broken { statuses.unreadable < result → result ≢ statuses.restore_memory → BreaksCache text.now result }
    ensures stays { result ≢ statuses.ok → cache.new.state ≡ cache.old.state }
{
    if let Some(_held) = cache.lend() {
        return HANDLE_IN_USE;
    }
    match cache_made_of(alloc, text) {
        Ok(boxed) => {
            cache.put(boxed);
            OK
        }
        Err(status) => status,
    }
}
