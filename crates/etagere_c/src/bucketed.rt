//! The calls of a bucketed atlas. Each calls what the handle holds, in its place.
//!
//! Definitions: `Calls`, `Crossing`, `Statuses`, and those of `bucketed_model`.

ghost use Rattle.std.specs.Prelude.{◌≡◌, ◌↔◌, ◌≢◌, ◌*◌, ◌-◌, [], ◌∷◌, None, Some, pos, true, false, Err, IsSome, IfNone, IfSome};
ghost use Rattle.std.specs.List.{list_all};
ghost use Rattle.etagere_base.specs.Frames.{options_fault};
ghost use Rattle.etagere_base.specs.declared.faults.OptionsFault.TheVariants as faults;
ghost use Rattle.bucketed_model.specs.declared.faults.GrowFault.TheVariants as grow_faults;
ghost use Rattle.bucketed_model.specs.Atlas.{Allocates, Grows, KeepsPromises, NeedsBuckets, NeedsShelf};
ghost use Rattle.bucketed_model.specs.Frames as frames;
ghost use Rattle.bucketed_model.specs.Frames.{longest_bucketed_side};
ghost use Rattle.bucketed_model.specs.Growing as growing;
ghost use Rattle.bucketed_model.specs.Placing.{IsBucketRefused};
ghost use Rattle.bucketed_model.specs.Returning.{bucket_returned, is_known};
ghost use Rattle.bucketed_model.specs.Space as spaces;
ghost use Rattle.bucketed_model.specs.State.{fresh, is_idle};
ghost use Rattle.c_answers.specs.Calls.{IsAmong, IsFlag, Leads};
ghost use Rattle.etagere_shelves.specs.Plain.{allocation_in};
ghost use Rattle.c_answers.specs.Crossing.{options_in, size_in};
ghost use Rattle.c_answers.specs.Statuses as statuses;

use c_answers::EtagereBucketed;
use c_answers::bucketed::{allocate, copied, made};
use c_answers::geometry::{EtagereAllocation, EtagereOptions, EtagereSize};
use c_answers::statuses::{
    HANDLE_IN_USE, MEMORY, NULL_HANDLE, OK, UNKNOWN_ID, bucketed_grow_refused, options_refused,
};
use etagere::AllocId;
use std::alloc::Global;

/// Fills a null handle with an empty bucketed atlas.
///
/// Answers ETAGERE_OK; ETAGERE_HANDLE_IN_USE; ETAGERE_OPTIONS_.., the first fault, ETAGERE_OPTIONS_MEMORY only where
/// there is no other and no memory for what the handle points to. Takes constant time.
#[unsafe(no_mangle)]
pub extern "C" fn etagere_bucketed_new(
    alloc: Global,
    atlas: &mut EtagereBucketed,
    size: EtagereSize,
    options: &EtagereOptions,
) -> u32
    ensures in_use { (result ≡ statuses.handle_in_use) ↔ IsSome atlas.old.state }
    ensures made { result ≡ statuses.ok → atlas.new.state ≡ Some (fresh (frames.bucketed_frame (size_in size) (options_in options.now))) }
    ensures fault { atlas.old.state ≡ None → IfSome (options_fault longest_bucketed_side (size_in size) (options_in options.now)) (λ fault. result ≡ statuses.options_refused fault) }
    ensures memory { atlas.old.state ≡ None → options_fault longest_bucketed_side (size_in size) (options_in options.now) ≡ None → IsAmong (statuses.ok ∷ statuses.options_refused faults.Memory ∷ []) result }
    ensures stays { result ≢ statuses.ok → atlas.new.state ≡ atlas.old.state }
    ensures promises { result ≡ statuses.ok → IfSome atlas.new.state KeepsPromises }
{
    if let Some(_held) = atlas.lend() {
        return HANDLE_IN_USE;
    }
    match made(alloc, size, options) {
        Ok(boxed) => {
            atlas.put(boxed);
            OK
        }
        Err(fault) => options_refused(fault),
    }
}

/// Frees a bucketed atlas with all that it holds, and makes the handle null.
///
/// Answers ETAGERE_OK; ETAGERE_NULL_HANDLE. Takes constant time, and that of free.
#[unsafe(no_mangle)]
pub extern "C" fn etagere_bucketed_delete(alloc: Global, atlas: &mut EtagereBucketed) -> u32
    ensures null { (result ≡ statuses.null_handle) ↔ (atlas.old.state ≡ None) }
    ensures status { IsAmong (statuses.ok ∷ statuses.null_handle ∷ []) result }
    ensures deleted { atlas.new.state ≡ None }
{
    match atlas.take(alloc) {
        Some(_) => OK,
        None => NULL_HANDLE,
    }
}

/// Gives a rectangle that is at least as large as the size, with the id under which it is allocated.
///
/// Answers ETAGERE_OK; ETAGERE_NULL_HANDLE; ETAGERE_NO_ROOM where there is no place; ETAGERE_MEMORY, only where a shelf
/// is to be added and there was no memory. Passes over 512 shelves at once, and goes through those that may fit.
#[unsafe(no_mangle)]
pub extern "C" fn etagere_bucketed_allocate(
    atlas: &mut EtagereBucketed,
    size: EtagereSize,
    allocation: &mut EtagereAllocation,
) -> u32
    ensures null { (result ≡ statuses.null_handle) ↔ (atlas.old.state ≡ None) }
    ensures status { IsAmong (statuses.ok ∷ statuses.null_handle ∷ statuses.no_room ∷ statuses.out_of_memory ∷ []) result }
    ensures placed { result ≡ statuses.ok → Leads atlas.old.state atlas.new.state (λ before after. Allocates before (size_in size) (allocation_in allocation.new) after) }
    ensures refused { result ≡ statuses.no_room → IfSome atlas.old.state (λ held. IsBucketRefused held (size_in size)) }
    ensures shelf { result ≡ statuses.out_of_memory → IfSome atlas.old.state (λ held. NeedsShelf held (size_in size)) }
    ensures stays { result ≢ statuses.ok → atlas.new.state ≡ atlas.old.state }
    ensures unwritten { result ≢ statuses.ok → allocation.new ≡ allocation.old }
    ensures promises { IfSome atlas.new.state KeepsPromises }
{
    let Some(held) = atlas.lend() else {
        return NULL_HANDLE;
    };
    allocate(held, size, allocation)
}

/// Takes back the rectangle that was given under an id. The last one of a bucket makes that empty, and shelves at the
/// end that hold nothing are dropped.
///
/// Answers ETAGERE_OK; ETAGERE_NULL_HANDLE; ETAGERE_UNKNOWN_ID exactly where no bucket that holds something has given
/// an item under the id since it was empty. That an id comes back once is the caller's part: a second return of one is
/// taken for that of another item of its bucket. Takes no memory, and constant time but for the shelves that are
/// dropped.
#[unsafe(no_mangle)]
pub extern "C" fn etagere_bucketed_deallocate(atlas: &mut EtagereBucketed, id: u32) -> u32
    ensures null { (result ≡ statuses.null_handle) ↔ (atlas.old.state ≡ None) }
    ensures status { IsAmong (statuses.ok ∷ statuses.null_handle ∷ statuses.unknown_id ∷ []) result }
    ensures returned { result ≡ statuses.ok → Leads atlas.old.state atlas.new.state (λ before after. after ≡ bucket_returned before id) }
    ensures unknown { IfSome atlas.old.state (λ held. (result ≡ statuses.unknown_id) ↔ (is_known held id ≡ false)) }
    ensures stays { result ≢ statuses.ok → atlas.new.state ≡ atlas.old.state }
    ensures promises { IfSome atlas.new.state KeepsPromises }
{
    let Some(held) = atlas.lend() else {
        return NULL_HANDLE;
    };
    match held.deallocate(AllocId::deserialize(id)) {
        Ok(()) => OK,
        Err(_) => UNKNOWN_ID,
    }
}

/// Takes everything back at once: the atlas is as new, with its present size and columns.
///
/// Answers ETAGERE_OK; ETAGERE_NULL_HANDLE. Takes no memory, and constant time with up to 32 shelves, else a step for each 8.
#[unsafe(no_mangle)]
pub extern "C" fn etagere_bucketed_clear(atlas: &mut EtagereBucketed) -> u32
    ensures null { (result ≡ statuses.null_handle) ↔ (atlas.old.state ≡ None) }
    ensures status { IsAmong (statuses.ok ∷ statuses.null_handle ∷ []) result }
    ensures cleared { Leads atlas.old.state atlas.new.state (λ before after. after ≡ fresh before.frame) }
    ensures null_stays { IfNone atlas.old.state (atlas.new.state ≡ None) }
    ensures promises { IfSome atlas.new.state KeepsPromises }
{
    let Some(held) = atlas.lend() else {
        return NULL_HANDLE;
    };
    held.clear();
    OK
}

/// Gives the size of the atlas, as it was made or has grown. The atlas stays.
///
/// Answers ETAGERE_OK; ETAGERE_NULL_HANDLE. Takes constant time.
#[unsafe(no_mangle)]
pub extern "C" fn etagere_bucketed_size(atlas: &mut EtagereBucketed, size: &mut EtagereSize) -> u32
    ensures null { (result ≡ statuses.null_handle) ↔ (atlas.old.state ≡ None) }
    ensures status { IsAmong (statuses.ok ∷ statuses.null_handle ∷ []) result }
    ensures size { result ≡ statuses.ok → IfSome atlas.old.state (λ held. size_in size.new ≡ record { width = pos held.frame.width; height = pos held.frame.height }) }
    ensures unwritten { result ≢ statuses.ok → size.new ≡ size.old }
    ensures stays { atlas.new.state ≡ atlas.old.state }
{
    let Some(held) = atlas.lend() else {
        return NULL_HANDLE;
    };
    *size = EtagereSize::of(held.size());
    OK
}

/// Gives 1 where nothing is allocated, and else 0. The atlas stays.
///
/// Answers ETAGERE_OK; ETAGERE_NULL_HANDLE. Takes constant time.
#[unsafe(no_mangle)]
pub extern "C" fn etagere_bucketed_is_empty(atlas: &mut EtagereBucketed, is_empty: &mut u32) -> u32
    ensures null { (result ≡ statuses.null_handle) ↔ (atlas.old.state ≡ None) }
    ensures status { IsAmong (statuses.ok ∷ statuses.null_handle ∷ []) result }
    ensures is_empty { result ≡ statuses.ok → IfSome atlas.old.state (λ held. IsFlag is_empty.new (list_all is_idle held.shelves ≡ true)) }
    ensures unwritten { result ≢ statuses.ok → is_empty.new ≡ is_empty.old }
    ensures stays { atlas.new.state ≡ atlas.old.state }
{
    let Some(held) = atlas.lend() else {
        return NULL_HANDLE;
    };
    *is_empty = u32::from(held.is_empty());
    OK
}

/// Gives the area that the buckets have used, each as tall as its shelf, in square pixels. The atlas stays.
///
/// Answers ETAGERE_OK; ETAGERE_NULL_HANDLE. Takes constant time.
#[unsafe(no_mangle)]
pub extern "C" fn etagere_bucketed_allocated_space(
    atlas: &mut EtagereBucketed,
    space: &mut i32,
) -> u32
    ensures null { (result ≡ statuses.null_handle) ↔ (atlas.old.state ≡ None) }
    ensures status { IsAmong (statuses.ok ∷ statuses.null_handle ∷ []) result }
    ensures allocated_space { result ≡ statuses.ok → IfSome atlas.old.state (λ held. space.new ≡ pos (spaces.allocated_space held)) }
    ensures unwritten { result ≢ statuses.ok → space.new ≡ space.old }
    ensures stays { atlas.new.state ≡ atlas.old.state }
{
    let Some(held) = atlas.lend() else {
        return NULL_HANDLE;
    };
    *space = held.allocated_space();
    OK
}

/// Gives the area of the atlas less what the buckets have used, in square pixels. The atlas stays.
///
/// Answers ETAGERE_OK; ETAGERE_NULL_HANDLE. Takes constant time.
#[unsafe(no_mangle)]
pub extern "C" fn etagere_bucketed_free_space(atlas: &mut EtagereBucketed, space: &mut i32) -> u32
    ensures null { (result ≡ statuses.null_handle) ↔ (atlas.old.state ≡ None) }
    ensures status { IsAmong (statuses.ok ∷ statuses.null_handle ∷ []) result }
    ensures free_space { result ≡ statuses.ok → IfSome atlas.old.state (λ held. space.new ≡ pos (held.frame.width * held.frame.height - spaces.allocated_space held)) }
    ensures unwritten { result ≢ statuses.ok → space.new ≡ space.old }
    ensures stays { atlas.new.state ≡ atlas.old.state }
{
    let Some(held) = atlas.lend() else {
        return NULL_HANDLE;
    };
    *space = held.free_space();
    OK
}

/// Makes the atlas larger. What is allocated keeps its place and its id.
///
/// Answers ETAGERE_OK; ETAGERE_NULL_HANDLE; ETAGERE_BUCKETED_GROW_.., the first fault, ETAGERE_BUCKETED_GROW_MEMORY
/// only where there is no other, buckets are to be made and there was no memory. Goes through all shelves.
#[unsafe(no_mangle)]
pub extern "C" fn etagere_bucketed_grow(atlas: &mut EtagereBucketed, size: EtagereSize) -> u32
    ensures null { (result ≡ statuses.null_handle) ↔ (atlas.old.state ≡ None) }
    ensures grown { result ≡ statuses.ok → Leads atlas.old.state atlas.new.state (λ before after. Grows before (size_in size) after) }
    ensures fault { IfSome atlas.old.state (λ held. IfSome (growing.grow_fault held.frame (size_in size)) (λ fault. result ≡ statuses.bucketed_grow_refused fault)) }
    ensures memory { IfSome atlas.old.state (λ held. growing.grow_fault held.frame (size_in size) ≡ None → result ≢ statuses.ok → (result ≡ statuses.bucketed_grow_refused grow_faults.Memory) × NeedsBuckets held (size_in size)) }
    ensures stays { result ≢ statuses.ok → atlas.new.state ≡ atlas.old.state }
    ensures promises { IfSome atlas.new.state KeepsPromises }
{
    let Some(held) = atlas.lend() else {
        return NULL_HANDLE;
    };
    match held.grow(size.size()) {
        Ok(()) => OK,
        Err(fault) => bucketed_grow_refused(fault),
    }
}

/// Fills a null handle with an atlas that equals this one, its ids and later answers too. The atlas stays, and shares
/// nothing with the copy.
///
/// Answers ETAGERE_OK; ETAGERE_NULL_HANDLE where the atlas is null; ETAGERE_HANDLE_IN_USE where the copy isn't;
/// ETAGERE_MEMORY. Takes memory for all records, and goes through them.
#[unsafe(no_mangle)]
pub extern "C" fn etagere_bucketed_clone(
    alloc: Global,
    atlas: &mut EtagereBucketed,
    copy: &mut EtagereBucketed,
) -> u32
    ensures null { (result ≡ statuses.null_handle) ↔ (atlas.old.state ≡ None) }
    ensures status { IsAmong (statuses.ok ∷ statuses.null_handle ∷ statuses.handle_in_use ∷ statuses.out_of_memory ∷ []) result }
    ensures in_use { IsSome atlas.old.state → (result ≡ statuses.handle_in_use) ↔ IsSome copy.old.state }
    ensures copied { result ≡ statuses.ok → copy.new.state ≡ atlas.old.state }
    ensures uncopied { result ≢ statuses.ok → copy.new.state ≡ copy.old.state }
    ensures stays { atlas.new.state ≡ atlas.old.state }
{
    let Some(held) = atlas.lend() else {
        return NULL_HANDLE;
    };
    if let Some(_held) = copy.lend() {
        return HANDLE_IN_USE;
    }
    match copied(alloc, held) {
        Some(boxed) => {
            copy.put(boxed);
            OK
        }
        None => MEMORY,
    }
}
