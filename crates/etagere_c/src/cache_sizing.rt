//! How much a cache holds: a larger atlas, and another number of keys.
//!
//! Definitions: `Calls`, `Crossing`, `Statuses`, and `Sizing` of `glyph_shelf`.

ghost use Rattle.std.specs.Prelude.{◌≡◌, ◌↔◌, ◌≢◌, ◌<◌, ◌≤◌, [], ◌∷◌, None, length, IfSome};
ghost use Rattle.shelf_model.specs.Growing.{grow_fault, records_needed};
ghost use Rattle.shelf_model.specs.declared.faults.AtlasGrowFault.TheVariants as grow_faults;
ghost use Rattle.glyph_shelf.specs.Promises.{KeepsCachePromises};
ghost use Rattle.glyph_shelf.specs.Sizing.{cache_grown, surplus, surplus_keys, with_capacity};
ghost use Rattle.c_answers.specs.Calls.{IsAmong, IsWritten, Leads};
ghost use Rattle.c_answers.specs.Crossing.{size_in};
ghost use Rattle.c_answers.specs.Statuses as statuses;

use c_answers::EtagereCache;
use c_answers::buffers::write_keys;
use c_answers::geometry::EtagereSize;
use c_answers::statuses::{LENGTH, MEMORY, NULL_HANDLE, OK, grow_refused};
use std::num::NonZeroUsize;

/// Makes the atlas larger. Each key keeps its place, and the order of use stays.
///
/// Answers ETAGERE_OK; ETAGERE_NULL_HANDLE; ETAGERE_GROW_.., the first fault, ETAGERE_GROW_MEMORY only where there is
/// no other, the grow needs records and there was no memory. Costs what etagere_atlas_grow does.
#[unsafe(no_mangle)]
pub extern "C" fn etagere_cache_grow(cache: &mut EtagereCache, size: EtagereSize) -> u32
    ensures null { (result ≡ statuses.null_handle) ↔ (cache.old.state ≡ None) }
    ensures grown { result ≡ statuses.ok → Leads cache.old.state cache.new.state (λ before after. after ≡ cache_grown before (size_in size)) }
    ensures fault { IfSome cache.old.state (λ held. IfSome (grow_fault held.atlas (size_in size)) (λ fault. result ≡ statuses.grow_refused fault)) }
    ensures memory { IfSome cache.old.state (λ held. grow_fault held.atlas (size_in size) ≡ None → result ≢ statuses.ok → (result ≡ statuses.grow_refused grow_faults.Memory) × (1 ≤ records_needed held.atlas (size_in size))) }
    ensures stays { result ≢ statuses.ok → cache.new.state ≡ cache.old.state }
    ensures promises { IfSome cache.new.state KeepsCachePromises }
{
    let Some(held) = cache.lend() else {
        return NULL_HANDLE;
    };
    match held.grow(size.size()) {
        Ok(()) => OK,
        Err(fault) => grow_refused(fault),
    }
}

/// Sets how many keys there may be. Where more are there, those used least recently are evicted, no more than needed.
/// Writes the evicted keys to the front of the buffer, the least recently used first, and how many to *count; what is
/// behind stays.
///
/// Answers ETAGERE_OK; ETAGERE_NULL_HANDLE; ETAGERE_LENGTH where the capacity is 0, or the buffer is shorter than
/// etagere_cache_len says; ETAGERE_MEMORY, only where keys have to go. Takes memory for a list of these keys, and a
/// smaller table of the keys where there is memory for one; goes through the keys, and takes each evicted rectangle
/// back as etagere_atlas_deallocate does.
#[unsafe(no_mangle)]
pub extern "C" fn etagere_cache_set_capacity(
    cache: &mut EtagereCache,
    capacity: usize,
    evicted: &mut [u64],
    count: &mut usize,
) -> u32
    ensures null { (result ≡ statuses.null_handle) ↔ (cache.old.state ≡ None) }
    ensures status { IsAmong (statuses.ok ∷ statuses.null_handle ∷ statuses.too_short ∷ statuses.out_of_memory ∷ []) result }
    ensures zero { IfSome cache.old.state (λ held. capacity ≡ 0 → result ≡ statuses.too_short) }
    ensures short { IfSome cache.old.state (λ held. capacity ≢ 0 → (result ≡ statuses.too_short) ↔ (length evicted.old < length held.entries)) }
    ensures set { result ≡ statuses.ok → Leads cache.old.state cache.new.state (λ before after. after ≡ with_capacity before capacity) }
    ensures evicted { result ≡ statuses.ok → IfSome cache.old.state (λ held. IsWritten (surplus_keys held capacity) evicted.old evicted.new count.new) }
    ensures memory { result ≡ statuses.out_of_memory → IfSome cache.old.state (λ held. 1 ≤ surplus held capacity) }
    ensures stays { result ≢ statuses.ok → cache.new.state ≡ cache.old.state }
    ensures unwritten { result ≢ statuses.ok → (evicted.new ≡ evicted.old) × (count.new ≡ count.old) }
    ensures promises { IfSome cache.new.state KeepsCachePromises }
{
    let Some(held) = cache.lend() else {
        return NULL_HANDLE;
    };
    if evicted.len() < held.len() {
        return LENGTH;
    }
    let Some(capacity) = NonZeroUsize::new(capacity) else {
        return LENGTH;
    };
    match held.set_capacity(capacity) {
        Ok(gone) => {
            *count = write_keys(gone.as_slice(), evicted);
            OK
        }
        Err(_) => MEMORY,
    }
}
