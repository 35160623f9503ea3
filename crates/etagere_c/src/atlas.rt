//! The calls of a shelf atlas. Each calls what the handle holds, in its place.
//!
//! Definitions: `Calls`, `Crossing`, `Statuses`, and those of `etagere_shelves`.

ghost use Rattle.std.specs.Prelude.{◌≡◌, ◌↔◌, ◌≢◌, ◌*◌, ◌-◌, [], ◌∷◌, None, Some, pos, ◌≤◌, false, Err, IsSome, IfNone, IfSome};
ghost use Rattle.etagere_base.specs.Frames as frames;
ghost use Rattle.etagere_base.specs.Frames.{longest_side, options_fault};
ghost use Rattle.etagere_base.specs.declared.faults.OptionsFault.TheVariants as faults;
ghost use Rattle.shelf_model.specs.declared.faults.AtlasGrowFault.TheVariants as grow_faults;
ghost use Rattle.shelf_model.specs.Atlas.{Allocates, KeepsPromises, NeedsSplit};
ghost use Rattle.shelf_model.specs.Choice as choice;
ghost use Rattle.shelf_model.specs.Choice.{IsRefused};
ghost use Rattle.shelf_model.specs.Fresh.{fresh};
ghost use Rattle.shelf_model.specs.Growing.{atlas_grown, grow_fault, records_needed};
ghost use Rattle.shelf_model.specs.Places as places;
ghost use Rattle.shelf_model.specs.Places.{allocations, is_allocated};
ghost use Rattle.shelf_model.specs.Returning.{returned};
ghost use Rattle.shelf_model.specs.Space as spaces;
ghost use Rattle.c_answers.specs.Calls.{IsAmong, IsFlag, Leads};
ghost use Rattle.etagere_shelves.specs.Plain.{allocation_in, rectangle_in};
ghost use Rattle.c_answers.specs.Crossing.{options_in, size_in};
ghost use Rattle.c_answers.specs.Statuses as statuses;

use c_answers::EtagereAtlas;
use c_answers::atlas::{allocate, copied, made};
use c_answers::geometry::{EtagereAllocation, EtagereOptions, EtagereRectangle, EtagereSize};
use c_answers::statuses::{
    HANDLE_IN_USE, MEMORY, NULL_HANDLE, OK, UNKNOWN_ID, grow_refused, options_refused,
};
use etagere::AllocId;
use std::alloc::Global;

/// Fills a null handle with an empty atlas.
///
/// Answers ETAGERE_OK; ETAGERE_HANDLE_IN_USE where the handle isn't null; ETAGERE_OPTIONS_.., the first fault,
/// ETAGERE_OPTIONS_MEMORY only where there is no other and no memory. Takes memory for the records of each column, and
/// goes through the columns.
#[unsafe(no_mangle)]
pub extern "C" fn etagere_atlas_new(
    alloc: Global,
    atlas: &mut EtagereAtlas,
    size: EtagereSize,
    options: &EtagereOptions,
) -> u32
    ensures in_use { (result ≡ statuses.handle_in_use) ↔ IsSome atlas.old.state }
    ensures made { result ≡ statuses.ok → atlas.new.state ≡ Some (fresh (frames.atlas_frame (size_in size) (options_in options.now))) }
    ensures fault { atlas.old.state ≡ None → IfSome (options_fault longest_side (size_in size) (options_in options.now)) (λ fault. result ≡ statuses.options_refused fault) }
    ensures memory { atlas.old.state ≡ None → options_fault longest_side (size_in size) (options_in options.now) ≡ None → IsAmong (statuses.ok ∷ statuses.options_refused faults.Memory ∷ []) result }
    ensures stays { result ≢ statuses.ok → atlas.new.state ≡ atlas.old.state }
    ensures promises { result ≡ statuses.ok → IfSome atlas.new.state KeepsPromises }
{
    if let Some(_held) = atlas.lend() {
        return HANDLE_IN_USE;
    }
    match made(alloc, size, options) {
        Ok(boxed) => {
            atlas.put(boxed);
            OK
        }
        Err(fault) => options_refused(fault),
    }
}

/// Frees an atlas with all that it holds, and makes the handle null.
///
/// Answers ETAGERE_OK; ETAGERE_NULL_HANDLE. Takes constant time, and that of free.
#[unsafe(no_mangle)]
pub extern "C" fn etagere_atlas_delete(alloc: Global, atlas: &mut EtagereAtlas) -> u32
    ensures null { (result ≡ statuses.null_handle) ↔ (atlas.old.state ≡ None) }
    ensures status { IsAmong (statuses.ok ∷ statuses.null_handle ∷ []) result }
    ensures deleted { atlas.new.state ≡ None }
{
    match atlas.take(alloc) {
        Some(_) => OK,
        None => NULL_HANDLE,
    }
}

/// Gives a rectangle that is at least as large as the size, with the id under which it is allocated.
///
/// Answers ETAGERE_OK; ETAGERE_NULL_HANDLE; ETAGERE_NO_ROOM where there is no place; ETAGERE_MEMORY, only where the
/// place is to be split and there was no memory. Finds where the shelves begin that are tall enough, where they did last
/// time or by binary search, and goes through them by height, in each that may have an item wide enough through its
/// free list.
#[unsafe(no_mangle)]
pub extern "C" fn etagere_atlas_allocate(
    atlas: &mut EtagereAtlas,
    size: EtagereSize,
    allocation: &mut EtagereAllocation,
) -> u32
    ensures null { (result ≡ statuses.null_handle) ↔ (atlas.old.state ≡ None) }
    ensures status { IsAmong (statuses.ok ∷ statuses.null_handle ∷ statuses.no_room ∷ statuses.out_of_memory ∷ []) result }
    ensures placed { result ≡ statuses.ok → Leads atlas.old.state atlas.new.state (λ before after. Allocates before (size_in size) (allocation_in allocation.new) after) }
    ensures refused { result ≡ statuses.no_room → IfSome atlas.old.state (λ held. IsRefused held (size_in size)) }
    ensures split { result ≡ statuses.out_of_memory → IfSome atlas.old.state (λ held. NeedsSplit held (size_in size)) }
    ensures stays { result ≢ statuses.ok → atlas.new.state ≡ atlas.old.state }
    ensures unwritten { result ≢ statuses.ok → allocation.new ≡ allocation.old }
    ensures promises { IfSome atlas.new.state KeepsPromises }
{
    let Some(held) = atlas.lend() else {
        return NULL_HANDLE;
    };
    allocate(held, size, allocation)
}

/// Takes back the rectangle that is allocated under an id, and merges what is free with its neighbours.
///
/// Answers ETAGERE_OK; ETAGERE_NULL_HANDLE; ETAGERE_UNKNOWN_ID exactly where nothing is allocated under the id. Takes
/// no memory. Looks at the record and those beside it, and finds the shelf by binary search; where shelves merge, the next
/// allocation moves them in the list by height.
#[unsafe(no_mangle)]
pub extern "C" fn etagere_atlas_deallocate(atlas: &mut EtagereAtlas, id: u32) -> u32
    ensures null { (result ≡ statuses.null_handle) ↔ (atlas.old.state ≡ None) }
    ensures status { IsAmong (statuses.ok ∷ statuses.null_handle ∷ statuses.unknown_id ∷ []) result }
    ensures returned { result ≡ statuses.ok → Leads atlas.old.state atlas.new.state (λ before after. after ≡ returned before id) }
    ensures unknown { IfSome atlas.old.state (λ held. (result ≡ statuses.unknown_id) ↔ (is_allocated held id ≡ false)) }
    ensures stays { result ≢ statuses.ok → atlas.new.state ≡ atlas.old.state }
    ensures promises { IfSome atlas.new.state KeepsPromises }
{
    let Some(held) = atlas.lend() else {
        return NULL_HANDLE;
    };
    match held.deallocate(AllocId::deserialize(id)) {
        Ok(()) => OK,
        Err(_) => UNKNOWN_ID,
    }
}

/// Gives the rectangle that is allocated under an id, as it was first given. The atlas stays.
///
/// Answers ETAGERE_OK; ETAGERE_NULL_HANDLE; ETAGERE_UNKNOWN_ID exactly where nothing is allocated under the id. Takes
/// no memory, and constant time.
#[unsafe(no_mangle)]
pub extern "C" fn etagere_atlas_get(
    atlas: &mut EtagereAtlas,
    id: u32,
    rectangle: &mut EtagereRectangle,
) -> u32
    ensures null { (result ≡ statuses.null_handle) ↔ (atlas.old.state ≡ None) }
    ensures status { IsAmong (statuses.ok ∷ statuses.null_handle ∷ statuses.unknown_id ∷ []) result }
    ensures found { result ≡ statuses.ok → IfSome atlas.old.state (λ held. places.rectangle_of held id ≡ Some (rectangle_in rectangle.new)) }
    ensures unknown { IfSome atlas.old.state (λ held. (result ≡ statuses.unknown_id) ↔ (places.rectangle_of held id ≡ None)) }
    ensures unwritten { result ≢ statuses.ok → rectangle.new ≡ rectangle.old }
    ensures stays { atlas.new.state ≡ atlas.old.state }
{
    let Some(held) = atlas.lend() else {
        return NULL_HANDLE;
    };
    match held.get(AllocId::deserialize(id)) {
        Some(found) => {
            *rectangle = EtagereRectangle::of(found);
            OK
        }
        None => UNKNOWN_ID,
    }
}

/// Gives the index of what is allocated under an id: a small number that it keeps as long as it is allocated, and that
/// nothing else has at that time. The atlas stays.
///
/// Answers ETAGERE_OK; ETAGERE_NULL_HANDLE; ETAGERE_UNKNOWN_ID exactly where nothing is allocated under the id. Takes
/// no memory, and constant time.
#[unsafe(no_mangle)]
pub extern "C" fn etagere_atlas_get_index(atlas: &mut EtagereAtlas, id: u32, index: &mut u32) -> u32
    ensures null { (result ≡ statuses.null_handle) ↔ (atlas.old.state ≡ None) }
    ensures status { IsAmong (statuses.ok ∷ statuses.null_handle ∷ statuses.unknown_id ∷ []) result }
    ensures found { result ≡ statuses.ok → IfSome atlas.old.state (λ held. places.index_of held id ≡ Some index.new) }
    ensures unknown { IfSome atlas.old.state (λ held. (result ≡ statuses.unknown_id) ↔ (places.index_of held id ≡ None)) }
    ensures unwritten { result ≢ statuses.ok → index.new ≡ index.old }
    ensures stays { atlas.new.state ≡ atlas.old.state }
{
    let Some(held) = atlas.lend() else {
        return NULL_HANDLE;
    };
    match held.get_index(AllocId::deserialize(id)) {
        Some(found) => {
            *index = found;
            OK
        }
        None => UNKNOWN_ID,
    }
}

/// Takes everything back at once: the atlas is as new, with its present size and columns.
///
/// Answers ETAGERE_OK; ETAGERE_NULL_HANDLE. Takes no memory, and goes through the columns.
#[unsafe(no_mangle)]
pub extern "C" fn etagere_atlas_clear(atlas: &mut EtagereAtlas) -> u32
    ensures null { (result ≡ statuses.null_handle) ↔ (atlas.old.state ≡ None) }
    ensures status { IsAmong (statuses.ok ∷ statuses.null_handle ∷ []) result }
    ensures cleared { Leads atlas.old.state atlas.new.state (λ before after. after ≡ fresh before.frame) }
    ensures null_stays { IfNone atlas.old.state (atlas.new.state ≡ None) }
    ensures promises { IfSome atlas.new.state KeepsPromises }
{
    let Some(held) = atlas.lend() else {
        return NULL_HANDLE;
    };
    held.clear();
    OK
}

/// Gives the size of the atlas, as it was made or has grown. The atlas stays.
///
/// Answers ETAGERE_OK; ETAGERE_NULL_HANDLE. Takes constant time.
#[unsafe(no_mangle)]
pub extern "C" fn etagere_atlas_size(atlas: &mut EtagereAtlas, size: &mut EtagereSize) -> u32
    ensures null { (result ≡ statuses.null_handle) ↔ (atlas.old.state ≡ None) }
    ensures status { IsAmong (statuses.ok ∷ statuses.null_handle ∷ []) result }
    ensures size { result ≡ statuses.ok → IfSome atlas.old.state (λ held. size_in size.new ≡ record { width = pos held.frame.width; height = pos held.frame.height }) }
    ensures unwritten { result ≢ statuses.ok → size.new ≡ size.old }
    ensures stays { atlas.new.state ≡ atlas.old.state }
{
    let Some(held) = atlas.lend() else {
        return NULL_HANDLE;
    };
    *size = EtagereSize::of(held.size());
    OK
}

/// Gives 1 where nothing is allocated, and else 0. The atlas stays.
///
/// Answers ETAGERE_OK; ETAGERE_NULL_HANDLE. Takes constant time.
#[unsafe(no_mangle)]
pub extern "C" fn etagere_atlas_is_empty(atlas: &mut EtagereAtlas, is_empty: &mut u32) -> u32
    ensures null { (result ≡ statuses.null_handle) ↔ (atlas.old.state ≡ None) }
    ensures status { IsAmong (statuses.ok ∷ statuses.null_handle ∷ []) result }
    ensures is_empty { result ≡ statuses.ok → IfSome atlas.old.state (λ held. IsFlag is_empty.new (allocations held ≡ [])) }
    ensures unwritten { result ≢ statuses.ok → is_empty.new ≡ is_empty.old }
    ensures stays { atlas.new.state ≡ atlas.old.state }
{
    let Some(held) = atlas.lend() else {
        return NULL_HANDLE;
    };
    *is_empty = u32::from(held.is_empty());
    OK
}

/// Gives the areas of everything that is allocated, added up, in square pixels. The atlas stays.
///
/// Answers ETAGERE_OK; ETAGERE_NULL_HANDLE. Takes constant time.
#[unsafe(no_mangle)]
pub extern "C" fn etagere_atlas_allocated_space(atlas: &mut EtagereAtlas, space: &mut i32) -> u32
    ensures null { (result ≡ statuses.null_handle) ↔ (atlas.old.state ≡ None) }
    ensures status { IsAmong (statuses.ok ∷ statuses.null_handle ∷ []) result }
    ensures allocated_space { result ≡ statuses.ok → IfSome atlas.old.state (λ held. space.new ≡ pos (spaces.allocated_space held)) }
    ensures unwritten { result ≢ statuses.ok → space.new ≡ space.old }
    ensures stays { atlas.new.state ≡ atlas.old.state }
{
    let Some(held) = atlas.lend() else {
        return NULL_HANDLE;
    };
    *space = held.allocated_space();
    OK
}

/// Gives the area of the atlas less what is allocated, in square pixels. The atlas stays.
///
/// Answers ETAGERE_OK; ETAGERE_NULL_HANDLE. Takes constant time.
#[unsafe(no_mangle)]
pub extern "C" fn etagere_atlas_free_space(atlas: &mut EtagereAtlas, space: &mut i32) -> u32
    ensures null { (result ≡ statuses.null_handle) ↔ (atlas.old.state ≡ None) }
    ensures status { IsAmong (statuses.ok ∷ statuses.null_handle ∷ []) result }
    ensures free_space { result ≡ statuses.ok → IfSome atlas.old.state (λ held. space.new ≡ pos (held.frame.width * held.frame.height - spaces.allocated_space held)) }
    ensures unwritten { result ≢ statuses.ok → space.new ≡ space.old }
    ensures stays { atlas.new.state ≡ atlas.old.state }
{
    let Some(held) = atlas.lend() else {
        return NULL_HANDLE;
    };
    *space = held.free_space();
    OK
}

/// Gives 1 where the atlas would have a place for the size if it were empty, and else 0. The atlas stays.
///
/// Answers ETAGERE_OK; ETAGERE_NULL_HANDLE. Takes constant time.
#[unsafe(no_mangle)]
pub extern "C" fn etagere_atlas_fits_when_empty(
    atlas: &mut EtagereAtlas,
    size: EtagereSize,
    fits: &mut u32,
) -> u32
    ensures null { (result ≡ statuses.null_handle) ↔ (atlas.old.state ≡ None) }
    ensures status { IsAmong (statuses.ok ∷ statuses.null_handle ∷ []) result }
    ensures fits_when_empty { result ≡ statuses.ok → IfSome atlas.old.state (λ held. IsFlag fits.new (choice.placement_of (fresh held.frame) (size_in size) ≢ None)) }
    ensures unwritten { result ≢ statuses.ok → fits.new ≡ fits.old }
    ensures stays { atlas.new.state ≡ atlas.old.state }
{
    let Some(held) = atlas.lend() else {
        return NULL_HANDLE;
    };
    *fits = u32::from(held.fits_when_empty(size.size()));
    OK
}

/// Makes the atlas larger. What is allocated keeps its place, its id and its index.
///
/// Answers ETAGERE_OK; ETAGERE_NULL_HANDLE; ETAGERE_GROW_.., the first fault, ETAGERE_GROW_MEMORY only where there is
/// no other, the grow needs records and there was no memory. Takes constant time where columns stay as they are; else it
/// goes through all shelves, for wider columns through all items too, and sorts the shelves.
#[unsafe(no_mangle)]
pub extern "C" fn etagere_atlas_grow(atlas: &mut EtagereAtlas, size: EtagereSize) -> u32
    ensures null { (result ≡ statuses.null_handle) ↔ (atlas.old.state ≡ None) }
    ensures grown { result ≡ statuses.ok → Leads atlas.old.state atlas.new.state (λ before after. after ≡ atlas_grown before (size_in size)) }
    ensures fault { IfSome atlas.old.state (λ held. IfSome (grow_fault held (size_in size)) (λ fault. result ≡ statuses.grow_refused fault)) }
    ensures memory { IfSome atlas.old.state (λ held. grow_fault held (size_in size) ≡ None → result ≢ statuses.ok → (result ≡ statuses.grow_refused grow_faults.Memory) × (1 ≤ records_needed held (size_in size))) }
    ensures stays { result ≢ statuses.ok → atlas.new.state ≡ atlas.old.state }
    ensures promises { IfSome atlas.new.state KeepsPromises }
{
    let Some(held) = atlas.lend() else {
        return NULL_HANDLE;
    };
    match held.grow(size.size()) {
        Ok(()) => OK,
        Err(fault) => grow_refused(fault),
    }
}

/// Fills a null handle with an atlas that equals this one, its ids and later answers too. The atlas stays, and shares
/// nothing with the copy.
///
/// Answers ETAGERE_OK; ETAGERE_NULL_HANDLE where the atlas is null; ETAGERE_HANDLE_IN_USE where the copy isn't;
/// ETAGERE_MEMORY. Takes memory for all records, and goes through them.
#[unsafe(no_mangle)]
pub extern "C" fn etagere_atlas_clone(
    alloc: Global,
    atlas: &mut EtagereAtlas,
    copy: &mut EtagereAtlas,
) -> u32
    ensures null { (result ≡ statuses.null_handle) ↔ (atlas.old.state ≡ None) }
    ensures status { IsAmong (statuses.ok ∷ statuses.null_handle ∷ statuses.handle_in_use ∷ statuses.out_of_memory ∷ []) result }
    ensures in_use { IsSome atlas.old.state → (result ≡ statuses.handle_in_use) ↔ IsSome copy.old.state }
    ensures copied { result ≡ statuses.ok → copy.new.state ≡ atlas.old.state }
    ensures uncopied { result ≢ statuses.ok → copy.new.state ≡ copy.old.state }
    ensures stays { atlas.new.state ≡ atlas.old.state }
{
    let Some(held) = atlas.lend() else {
        return NULL_HANDLE;
    };
    if let Some(_held) = copy.lend() {
        return HANDLE_IN_USE;
    }
    match copied(alloc, held) {
        Some(boxed) => {
            copy.put(boxed);
            OK
        }
        None => MEMORY,
    }
}
