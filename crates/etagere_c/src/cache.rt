//! The calls of a cache. Each calls what the handle holds, in its place.
//!
//! Definitions: `Calls`, `Crossing`, `Statuses`, and those of `glyph_shelf`.

ghost use Rattle.std.specs.Prelude.{◌≡◌, ◌↔◌, ◌≢◌, ◌*◌, ◌-◌, ◌<◌, ◌≤◌, [], ◌∷◌, None, Some, pos, length, take, drop, Err, IsSome, IfNone, IfSome};
ghost use Rattle.etagere_base.specs.Frames as frames;
ghost use Rattle.etagere_base.specs.Frames.{longest_side, options_fault};
ghost use Rattle.etagere_base.specs.declared.faults.OptionsFault.TheVariants as faults;
ghost use Rattle.shelf_model.specs.Space as spaces;
ghost use Rattle.glyph_shelf.specs.Cache.{empty_cache, evictable, frame_uses, in_new_frame, rectangle_at, used, without_key};
ghost use Rattle.glyph_shelf.specs.Placing.{IsFrameFull, IsNew, IsTooLarge, Places, RanOut};
ghost use Rattle.glyph_shelf.specs.Promises.{KeepsCachePromises};
ghost use Rattle.c_answers.specs.Calls.{IsAmong, IsFlag, Leads};
ghost use Rattle.etagere_shelves.specs.Plain.{rectangle_in};
ghost use Rattle.c_answers.specs.Crossing.{options_in, size_in};
ghost use Rattle.c_answers.specs.Statuses as statuses;

use c_answers::EtagereCache;
use c_answers::cache::{made, write_placed};
use c_answers::geometry::{EtagereOptions, EtagereRectangle, EtagereSize};
use c_answers::statuses::{HANDLE_IN_USE, LENGTH, NULL_HANDLE, OK, UNKNOWN_KEY, options_refused};
use std::alloc::Global;
use std::num::NonZeroUsize;

/// Fills a null handle with an empty cache of at most `capacity` keys, over an atlas of this size.
///
/// Answers ETAGERE_OK; ETAGERE_HANDLE_IN_USE; ETAGERE_LENGTH where the capacity is 0; ETAGERE_OPTIONS_.., the first
/// fault, ETAGERE_OPTIONS_MEMORY only where there is no other and no memory. Takes memory for the atlas and for a table
/// of so many keys, or, where they may be more than 16384, for one that grows as they come, and goes through the columns
/// and the table.
#[unsafe(no_mangle)]
pub extern "C" fn etagere_cache_new(
    alloc: Global,
    cache: &mut EtagereCache,
    size: EtagereSize,
    options: &EtagereOptions,
    capacity: usize,
) -> u32
    ensures in_use { (result ≡ statuses.handle_in_use) ↔ IsSome cache.old.state }
    ensures zero { cache.old.state ≡ None → (result ≡ statuses.too_short) ↔ (capacity ≡ 0) }
    ensures made { result ≡ statuses.ok → cache.new.state ≡ Some (empty_cache (frames.atlas_frame (size_in size) (options_in options.now)) capacity) }
    ensures fault { cache.old.state ≡ None → capacity ≢ 0 → IfSome (options_fault longest_side (size_in size) (options_in options.now)) (λ fault. result ≡ statuses.options_refused fault) }
    ensures memory { cache.old.state ≡ None → capacity ≢ 0 → options_fault longest_side (size_in size) (options_in options.now) ≡ None → IsAmong (statuses.ok ∷ statuses.options_refused faults.Memory ∷ []) result }
    ensures stays { result ≢ statuses.ok → cache.new.state ≡ cache.old.state }
    ensures promises { result ≡ statuses.ok → IfSome cache.new.state KeepsCachePromises }
{
    if let Some(_held) = cache.lend() {
        return HANDLE_IN_USE;
    }
    let Some(capacity) = NonZeroUsize::new(capacity) else {
        return LENGTH;
    };
    match made(alloc, size, options, capacity) {
        Ok(boxed) => {
            cache.put(boxed);
            OK
        }
        Err(fault) => options_refused(fault),
    }
}

/// Frees a cache with all that it holds, and makes the handle null.
///
/// Answers ETAGERE_OK; ETAGERE_NULL_HANDLE. Goes through the keys.
#[unsafe(no_mangle)]
pub extern "C" fn etagere_cache_delete(alloc: Global, cache: &mut EtagereCache) -> u32
    ensures null { (result ≡ statuses.null_handle) ↔ (cache.old.state ≡ None) }
    ensures status { IsAmong (statuses.ok ∷ statuses.null_handle ∷ []) result }
    ensures deleted { cache.new.state ≡ None }
{
    match cache.take(alloc) {
        Some(_) => OK,
        None => NULL_HANDLE,
    }
}

/// Gives the rectangle of a key. A key that is there becomes the most recently used; its size isn't looked at. A new
/// key gets a rectangle at least as large as the size and becomes the most recently used; where there is no room, the
/// keys used least recently are evicted before, no more than needed. Writes the evicted keys to the front of the
/// buffer, the least recently used first, and how many to *count; what is behind stays.
///
/// Answers ETAGERE_OK; ETAGERE_NULL_HANDLE; ETAGERE_LENGTH where the buffer is shorter than etagere_cache_len says,
/// with nothing written; ETAGERE_CACHE_TOO_LARGE exactly where the key is new and an empty atlas has no place for the
/// size, with nothing written; ETAGERE_CACHE_FRAME_FULL exactly where the key is new and evicting all keys that weren't
/// used in this frame wouldn't make room, memory aside, with nothing written; ETAGERE_CACHE_MEMORY, only for a new key:
/// then the evicted keys and *count are written too, these keys are gone, and the others stand. Asks the atlas once, and
/// once more for each key that is evicted; where keys were used in this frame, it first tries that on a copy of the
/// atlas.
#[unsafe(no_mangle)]
pub extern "C" fn etagere_cache_place(
    cache: &mut EtagereCache,
    key: u64,
    size: EtagereSize,
    rectangle: &mut EtagereRectangle,
    evicted: &mut [u64],
    count: &mut usize,
) -> u32
    ensures null { (result ≡ statuses.null_handle) ↔ (cache.old.state ≡ None) }
    ensures short { IfSome cache.old.state (λ held. (result ≡ statuses.too_short) ↔ (length evicted.old < length held.entries)) }
    ensures status { IsAmong (statuses.ok ∷ statuses.null_handle ∷ statuses.too_short ∷ statuses.too_large ∷ statuses.cache_memory ∷ statuses.frame_full ∷ []) result }
    ensures found { result ≡ statuses.ok → Leads cache.old.state cache.new.state (λ before after.
        IfSome (rectangle_at before key) (λ found. (rectangle_in rectangle.new ≡ found) × (count.new ≡ 0) × (after ≡ used before key))) }
    ensures placed { result ≡ statuses.ok → Leads cache.old.state cache.new.state (λ before after.
        IsNew before key → Places before key (size_in size) (rectangle_in rectangle.new) (take count.new evicted.new) after) }
    ensures too_large { IfSome cache.old.state (λ held. result ≡ statuses.too_large → IsNew held key × IsTooLarge held (size_in size)) }
    ensures large { IfSome cache.old.state (λ held. length held.entries ≤ length evicted.old → IsNew held key → IsTooLarge held (size_in size) → result ≡ statuses.too_large) }
    ensures memory { result ≡ statuses.cache_memory → Leads cache.old.state cache.new.state (λ before after.
        IsNew before key × RanOut before (size_in size) (take count.new evicted.new) after) }
    ensures spared { IsAmong (statuses.ok ∷ statuses.cache_memory ∷ []) result → IfSome cache.old.state (λ held. count.new ≤ evictable held) }
    ensures frame_full { IfSome cache.old.state (λ held. result ≡ statuses.frame_full → IsNew held key × IsFrameFull held (size_in size)) }
    ensures stays { result ≢ statuses.ok → result ≢ statuses.cache_memory → cache.new.state ≡ cache.old.state }
    ensures unwritten { result ≢ statuses.ok → rectangle.new ≡ rectangle.old }
    ensures uncounted { result ≢ statuses.ok → result ≢ statuses.cache_memory → (evicted.new ≡ evicted.old) × (count.new ≡ count.old) }
    ensures behind { drop count.new evicted.new ≡ drop count.new evicted.old }
    ensures promises { IfSome cache.new.state KeepsCachePromises }
{
    let Some(held) = cache.lend() else {
        return NULL_HANDLE;
    };
    if evicted.len() < held.len() {
        return LENGTH;
    }
    let placed = held.place(key, size.size());
    write_placed(placed, rectangle, evicted, count)
}

/// Begins a frame: what is placed or looked up from now on isn't evicted by etagere_cache_place until the next frame
/// begins, or the cache is cleared.
///
/// Answers ETAGERE_OK; ETAGERE_NULL_HANDLE. Takes no memory, and constant time.
#[unsafe(no_mangle)]
pub extern "C" fn etagere_cache_begin_frame(cache: &mut EtagereCache) -> u32
    ensures null { (result ≡ statuses.null_handle) ↔ (cache.old.state ≡ None) }
    ensures status { IsAmong (statuses.ok ∷ statuses.null_handle ∷ []) result }
    ensures begun { Leads cache.old.state cache.new.state (λ before after. after ≡ in_new_frame before) }
    ensures null_stays { IfNone cache.old.state (cache.new.state ≡ None) }
    ensures promises { IfSome cache.new.state KeepsCachePromises }
{
    let Some(held) = cache.lend() else {
        return NULL_HANDLE;
    };
    held.begin_frame();
    OK
}

/// Gives how many keys were placed or looked up in this frame and are still there: none before the first frame. The
/// cache stays.
///
/// Answers ETAGERE_OK; ETAGERE_NULL_HANDLE. Takes no memory, and goes through these keys.
#[unsafe(no_mangle)]
pub extern "C" fn etagere_cache_used_in_frame(cache: &mut EtagereCache, count: &mut usize) -> u32
    ensures null { (result ≡ statuses.null_handle) ↔ (cache.old.state ≡ None) }
    ensures status { IsAmong (statuses.ok ∷ statuses.null_handle ∷ []) result }
    ensures count { result ≡ statuses.ok → IfSome cache.old.state (λ held. count.new ≡ frame_uses held) }
    ensures unwritten { result ≢ statuses.ok → count.new ≡ count.old }
    ensures stays { cache.new.state ≡ cache.old.state }
{
    let Some(held) = cache.lend() else {
        return NULL_HANDLE;
    };
    *count = held.used_in_frame();
    OK
}

/// Gives the rectangle of a key, which becomes the most recently used.
///
/// Answers ETAGERE_OK; ETAGERE_NULL_HANDLE; ETAGERE_UNKNOWN_KEY. Takes no memory, and constant time on average.
#[unsafe(no_mangle)]
pub extern "C" fn etagere_cache_get(
    cache: &mut EtagereCache,
    key: u64,
    rectangle: &mut EtagereRectangle,
) -> u32
    ensures null { (result ≡ statuses.null_handle) ↔ (cache.old.state ≡ None) }
    ensures status { IsAmong (statuses.ok ∷ statuses.null_handle ∷ statuses.unknown_key ∷ []) result }
    ensures found { result ≡ statuses.ok → IfSome cache.old.state (λ held. rectangle_at held key ≡ Some (rectangle_in rectangle.new)) }
    ensures unknown { IfSome cache.old.state (λ held. (result ≡ statuses.unknown_key) ↔ (rectangle_at held key ≡ None)) }
    ensures after { Leads cache.old.state cache.new.state (λ before after. after ≡ used before key) }
    ensures null_stays { IfNone cache.old.state (cache.new.state ≡ None) }
    ensures unwritten { result ≢ statuses.ok → rectangle.new ≡ rectangle.old }
    ensures promises { IfSome cache.new.state KeepsCachePromises }
{
    let Some(held) = cache.lend() else {
        return NULL_HANDLE;
    };
    match held.get(key) {
        Some(found) => {
            *rectangle = EtagereRectangle::of(found);
            OK
        }
        None => UNKNOWN_KEY,
    }
}

/// Takes a key out, and gives the rectangle that it had.
///
/// Answers ETAGERE_OK; ETAGERE_NULL_HANDLE; ETAGERE_UNKNOWN_KEY. Takes no memory, and costs what
/// etagere_atlas_deallocate does.
#[unsafe(no_mangle)]
pub extern "C" fn etagere_cache_remove(
    cache: &mut EtagereCache,
    key: u64,
    rectangle: &mut EtagereRectangle,
) -> u32
    ensures null { (result ≡ statuses.null_handle) ↔ (cache.old.state ≡ None) }
    ensures status { IsAmong (statuses.ok ∷ statuses.null_handle ∷ statuses.unknown_key ∷ []) result }
    ensures found { result ≡ statuses.ok → IfSome cache.old.state (λ held. rectangle_at held key ≡ Some (rectangle_in rectangle.new)) }
    ensures unknown { IfSome cache.old.state (λ held. (result ≡ statuses.unknown_key) ↔ (rectangle_at held key ≡ None)) }
    ensures after { Leads cache.old.state cache.new.state (λ before after. after ≡ without_key before key) }
    ensures null_stays { IfNone cache.old.state (cache.new.state ≡ None) }
    ensures unwritten { result ≢ statuses.ok → rectangle.new ≡ rectangle.old }
    ensures promises { IfSome cache.new.state KeepsCachePromises }
{
    let Some(held) = cache.lend() else {
        return NULL_HANDLE;
    };
    match held.remove(key) {
        Some(found) => {
            *rectangle = EtagereRectangle::of(found);
            OK
        }
        None => UNKNOWN_KEY,
    }
}

/// Takes all keys out: the cache is as new, and no frame has begun.
///
/// Answers ETAGERE_OK; ETAGERE_NULL_HANDLE. Takes no memory, and goes through the keys and the columns.
#[unsafe(no_mangle)]
pub extern "C" fn etagere_cache_clear(cache: &mut EtagereCache) -> u32
    ensures null { (result ≡ statuses.null_handle) ↔ (cache.old.state ≡ None) }
    ensures status { IsAmong (statuses.ok ∷ statuses.null_handle ∷ []) result }
    ensures cleared { Leads cache.old.state cache.new.state (λ before after. after ≡ empty_cache before.atlas.frame before.capacity) }
    ensures null_stays { IfNone cache.old.state (cache.new.state ≡ None) }
    ensures promises { IfSome cache.new.state KeepsCachePromises }
{
    let Some(held) = cache.lend() else {
        return NULL_HANDLE;
    };
    held.clear();
    OK
}

/// Gives how many keys are there. The cache stays.
///
/// Answers ETAGERE_OK; ETAGERE_NULL_HANDLE. Takes constant time.
#[unsafe(no_mangle)]
pub extern "C" fn etagere_cache_len(cache: &mut EtagereCache, len: &mut usize) -> u32
    ensures null { (result ≡ statuses.null_handle) ↔ (cache.old.state ≡ None) }
    ensures status { IsAmong (statuses.ok ∷ statuses.null_handle ∷ []) result }
    ensures len { result ≡ statuses.ok → IfSome cache.old.state (λ held. len.new ≡ length held.entries) }
    ensures unwritten { result ≢ statuses.ok → len.new ≡ len.old }
    ensures stays { cache.new.state ≡ cache.old.state }
{
    let Some(held) = cache.lend() else {
        return NULL_HANDLE;
    };
    *len = held.len();
    OK
}

/// Gives 1 where no key is there, and else 0. The cache stays.
///
/// Answers ETAGERE_OK; ETAGERE_NULL_HANDLE. Takes constant time.
#[unsafe(no_mangle)]
pub extern "C" fn etagere_cache_is_empty(cache: &mut EtagereCache, is_empty: &mut u32) -> u32
    ensures null { (result ≡ statuses.null_handle) ↔ (cache.old.state ≡ None) }
    ensures status { IsAmong (statuses.ok ∷ statuses.null_handle ∷ []) result }
    ensures is_empty { result ≡ statuses.ok → IfSome cache.old.state (λ held. IsFlag is_empty.new (held.entries ≡ [])) }
    ensures unwritten { result ≢ statuses.ok → is_empty.new ≡ is_empty.old }
    ensures stays { cache.new.state ≡ cache.old.state }
{
    let Some(held) = cache.lend() else {
        return NULL_HANDLE;
    };
    *is_empty = u32::from(held.is_empty());
    OK
}

/// Gives how many keys there may be. The cache stays.
///
/// Answers ETAGERE_OK; ETAGERE_NULL_HANDLE. Takes constant time.
#[unsafe(no_mangle)]
pub extern "C" fn etagere_cache_capacity(cache: &mut EtagereCache, capacity: &mut usize) -> u32
    ensures null { (result ≡ statuses.null_handle) ↔ (cache.old.state ≡ None) }
    ensures status { IsAmong (statuses.ok ∷ statuses.null_handle ∷ []) result }
    ensures capacity { result ≡ statuses.ok → IfSome cache.old.state (λ held. capacity.new ≡ held.capacity) }
    ensures unwritten { result ≢ statuses.ok → capacity.new ≡ capacity.old }
    ensures stays { cache.new.state ≡ cache.old.state }
{
    let Some(held) = cache.lend() else {
        return NULL_HANDLE;
    };
    *capacity = held.capacity().get();
    OK
}

/// Gives the size of the atlas. The cache stays.
///
/// Answers ETAGERE_OK; ETAGERE_NULL_HANDLE. Takes constant time.
#[unsafe(no_mangle)]
pub extern "C" fn etagere_cache_size(cache: &mut EtagereCache, size: &mut EtagereSize) -> u32
    ensures null { (result ≡ statuses.null_handle) ↔ (cache.old.state ≡ None) }
    ensures status { IsAmong (statuses.ok ∷ statuses.null_handle ∷ []) result }
    ensures size { result ≡ statuses.ok → IfSome cache.old.state (λ held. size_in size.new ≡ record { width = pos held.atlas.frame.width; height = pos held.atlas.frame.height }) }
    ensures unwritten { result ≢ statuses.ok → size.new ≡ size.old }
    ensures stays { cache.new.state ≡ cache.old.state }
{
    let Some(held) = cache.lend() else {
        return NULL_HANDLE;
    };
    *size = EtagereSize::of(held.atlas().size());
    OK
}

/// Gives the areas of all keys' rectangles, added up, in square pixels. The cache stays.
///
/// Answers ETAGERE_OK; ETAGERE_NULL_HANDLE. Takes constant time.
#[unsafe(no_mangle)]
pub extern "C" fn etagere_cache_allocated_space(cache: &mut EtagereCache, space: &mut i32) -> u32
    ensures null { (result ≡ statuses.null_handle) ↔ (cache.old.state ≡ None) }
    ensures status { IsAmong (statuses.ok ∷ statuses.null_handle ∷ []) result }
    ensures allocated_space { result ≡ statuses.ok → IfSome cache.old.state (λ held. space.new ≡ pos (spaces.allocated_space held.atlas)) }
    ensures unwritten { result ≢ statuses.ok → space.new ≡ space.old }
    ensures stays { cache.new.state ≡ cache.old.state }
{
    let Some(held) = cache.lend() else {
        return NULL_HANDLE;
    };
    *space = held.atlas().allocated_space();
    OK
}

/// Gives the area of the atlas less that of all keys' rectangles, in square pixels. The cache stays.
///
/// Answers ETAGERE_OK; ETAGERE_NULL_HANDLE. Takes constant time.
#[unsafe(no_mangle)]
pub extern "C" fn etagere_cache_free_space(cache: &mut EtagereCache, space: &mut i32) -> u32
    ensures null { (result ≡ statuses.null_handle) ↔ (cache.old.state ≡ None) }
    ensures status { IsAmong (statuses.ok ∷ statuses.null_handle ∷ []) result }
    ensures free_space { result ≡ statuses.ok → IfSome cache.old.state (λ held. space.new ≡ pos (held.atlas.frame.width * held.atlas.frame.height - spaces.allocated_space held.atlas)) }
    ensures unwritten { result ≢ statuses.ok → space.new ≡ space.old }
    ensures stays { cache.new.state ≡ cache.old.state }
{
    let Some(held) = cache.lend() else {
        return NULL_HANDLE;
    };
    *space = held.atlas().free_space();
    OK
}
