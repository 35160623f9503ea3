//! Many calls in one: sizes that are allocated and ids that come back, up to the first that is refused.
//!
//! Definitions: `Batches`, `Calls`, `Crossing`, `Statuses`, and those of both atlases.

ghost use Rattle.std.specs.Prelude.{◌≡◌, ◌↔◌, ◌<◌, ◌≤◌, [], ◌∷◌, None, Some, false, true, drop, length, take, slice_get, slice_index, IfSome};
ghost use Rattle.shelf_model.specs.Atlas.{Allocates, NeedsSplit};
ghost use Rattle.shelf_model.specs.Choice.{IsRefused};
ghost use Rattle.shelf_model.specs.Places.{is_allocated};
ghost use Rattle.shelf_model.specs.Returning.{returned};
ghost use Rattle.bucketed_model.specs.Atlas as buckets;
ghost use Rattle.bucketed_model.specs.Placing.{IsBucketRefused};
ghost use Rattle.bucketed_model.specs.Returning.{bucket_returned, is_known};
ghost use Rattle.c_answers.specs.Batches.{GivesOver, StepsOver};
ghost use Rattle.c_answers.specs.Calls.{IsAmong, Leads};
ghost use Rattle.etagere_shelves.specs.Plain.{allocation_in};
ghost use Rattle.c_answers.specs.Crossing.{size_in};
ghost use Rattle.c_answers.specs.Statuses as statuses;

use c_answers::batches::{
    allocate_each, allocate_each_bucketed, return_each, return_each_bucketed,
};
use c_answers::geometry::{EtagereAllocation, EtagereSize};
use c_answers::statuses::{LENGTH, NULL_HANDLE};
use c_answers::{EtagereAtlas, EtagereBucketed};

/// Allocates many sizes, one after the other, as etagere_atlas_allocate does, up to the first that isn't given a place.
/// Writes how many were to *count, and their allocations to the front of the buffer; what is behind stays. What was
/// allocated stays so whatever the status.
///
/// Answers ETAGERE_OK where all were; ETAGERE_NULL_HANDLE and ETAGERE_LENGTH (the buffer is shorter than the sizes),
/// with nothing written; ETAGERE_NO_ROOM or ETAGERE_MEMORY, of the size with the number *count. Costs as the single
/// calls.
#[unsafe(no_mangle)]
pub extern "C" fn etagere_atlas_allocate_many(
    atlas: &mut EtagereAtlas,
    sizes: &[EtagereSize],
    allocations: &mut [EtagereAllocation],
    count: &mut usize,
) -> u32
    ensures null { (result ≡ statuses.null_handle) ↔ (atlas.old.state ≡ None) }
    ensures short { IfSome atlas.old.state (λ held. (result ≡ statuses.too_short) ↔ (length allocations.old < length sizes.now)) }
    ensures status { IsAmong (statuses.ok ∷ statuses.null_handle ∷ statuses.no_room ∷ statuses.too_short ∷ statuses.out_of_memory ∷ []) result }
    ensures given { length sizes.now ≤ length allocations.old → Leads atlas.old.state atlas.new.state (λ before after.
        GivesOver (λ before size allocation after. Allocates before (size_in size) (allocation_in allocation) after) before (take count.new sizes.now) (take count.new allocations.new) after) }
    ensures behind { drop count.new allocations.new ≡ drop count.new allocations.old }
    ensures all { result ≡ statuses.ok → count.new ≡ length sizes.now }
    ensures some { result ≡ statuses.no_room → count.new < length sizes.now }
    ensures some_left { result ≡ statuses.out_of_memory → count.new < length sizes.now }
    ensures refused { result ≡ statuses.no_room → IfSome atlas.new.state (λ held. IfSome (slice_get sizes.now count.new) (λ size. IsRefused held (size_in size))) }
    ensures split { result ≡ statuses.out_of_memory → IfSome atlas.new.state (λ held. IfSome (slice_get sizes.now count.new) (λ size. NeedsSplit held (size_in size))) }
    ensures null_stays { result ≡ statuses.null_handle → (atlas.new.state ≡ atlas.old.state) × (allocations.new ≡ allocations.old) × (count.new ≡ count.old) }
    ensures short_stays { result ≡ statuses.too_short → (atlas.new.state ≡ atlas.old.state) × (allocations.new ≡ allocations.old) × (count.new ≡ count.old) }
{
    let Some(held) = atlas.lend() else {
        return NULL_HANDLE;
    };
    if allocations.len() < sizes.len() {
        return LENGTH;
    }
    allocate_each(held, sizes, allocations, count)
}

/// Takes many ids back, one after the other, as etagere_atlas_deallocate does, up to the first that is unknown. Writes
/// how many were taken back to *count; they are gone whatever the status.
///
/// Answers ETAGERE_OK where all were; ETAGERE_NULL_HANDLE, with nothing written; ETAGERE_UNKNOWN_ID, of the id with the
/// number *count. Costs as the single calls.
#[unsafe(no_mangle)]
pub extern "C" fn etagere_atlas_deallocate_many(
    atlas: &mut EtagereAtlas,
    ids: &[u32],
    count: &mut usize,
) -> u32
    ensures null { (result ≡ statuses.null_handle) ↔ (atlas.old.state ≡ None) }
    ensures status { IsAmong (statuses.ok ∷ statuses.null_handle ∷ statuses.unknown_id ∷ []) result }
    ensures returned { Leads atlas.old.state atlas.new.state (λ before after. StepsOver (λ before id after. (is_allocated before id ≡ true) × (after ≡ returned before id)) before (take count.new ids.now) after) }
    ensures all { result ≡ statuses.ok → count.new ≡ length ids.now }
    ensures some { result ≡ statuses.unknown_id → count.new < length ids.now }
    ensures unknown { result ≡ statuses.unknown_id → IfSome atlas.new.state (λ held. is_allocated held (slice_index ids.now count.new) ≡ false) }
    ensures null_stays { result ≡ statuses.null_handle → (atlas.new.state ≡ atlas.old.state) × (count.new ≡ count.old) }
{
    let Some(held) = atlas.lend() else {
        return NULL_HANDLE;
    };
    return_each(held, ids, count)
}

/// Allocates many sizes, one after the other, as etagere_bucketed_allocate does, up to the first that isn't given a
/// place. Writes how many were to *count, and their allocations to the front of the buffer; what is behind stays. What
/// was allocated stays so whatever the status.
///
/// Answers ETAGERE_OK where all were; ETAGERE_NULL_HANDLE and ETAGERE_LENGTH (the buffer is shorter than the sizes),
/// with nothing written; ETAGERE_NO_ROOM or ETAGERE_MEMORY, of the size with the number *count. Costs as the single
/// calls.
#[unsafe(no_mangle)]
pub extern "C" fn etagere_bucketed_allocate_many(
    atlas: &mut EtagereBucketed,
    sizes: &[EtagereSize],
    allocations: &mut [EtagereAllocation],
    count: &mut usize,
) -> u32
    ensures null { (result ≡ statuses.null_handle) ↔ (atlas.old.state ≡ None) }
    ensures short { IfSome atlas.old.state (λ held. (result ≡ statuses.too_short) ↔ (length allocations.old < length sizes.now)) }
    ensures status { IsAmong (statuses.ok ∷ statuses.null_handle ∷ statuses.no_room ∷ statuses.too_short ∷ statuses.out_of_memory ∷ []) result }
    ensures given { length sizes.now ≤ length allocations.old → Leads atlas.old.state atlas.new.state (λ before after.
        GivesOver (λ before size allocation after. buckets.Allocates before (size_in size) (allocation_in allocation) after) before (take count.new sizes.now) (take count.new allocations.new) after) }
    ensures behind { drop count.new allocations.new ≡ drop count.new allocations.old }
    ensures all { result ≡ statuses.ok → count.new ≡ length sizes.now }
    ensures some { result ≡ statuses.no_room → count.new < length sizes.now }
    ensures some_left { result ≡ statuses.out_of_memory → count.new < length sizes.now }
    ensures refused { result ≡ statuses.no_room → IfSome atlas.new.state (λ held. IfSome (slice_get sizes.now count.new) (λ size. IsBucketRefused held (size_in size))) }
    ensures shelf { result ≡ statuses.out_of_memory → IfSome atlas.new.state (λ held. IfSome (slice_get sizes.now count.new) (λ size. buckets.NeedsShelf held (size_in size))) }
    ensures null_stays { result ≡ statuses.null_handle → (atlas.new.state ≡ atlas.old.state) × (allocations.new ≡ allocations.old) × (count.new ≡ count.old) }
    ensures short_stays { result ≡ statuses.too_short → (atlas.new.state ≡ atlas.old.state) × (allocations.new ≡ allocations.old) × (count.new ≡ count.old) }
{
    let Some(held) = atlas.lend() else {
        return NULL_HANDLE;
    };
    if allocations.len() < sizes.len() {
        return LENGTH;
    }
    allocate_each_bucketed(held, sizes, allocations, count)
}

/// Takes many ids back, one after the other, as etagere_bucketed_deallocate does, up to the first that is unknown.
/// Writes how many were taken back to *count; they are gone whatever the status.
///
/// Answers ETAGERE_OK where all were; ETAGERE_NULL_HANDLE, with nothing written; ETAGERE_UNKNOWN_ID, of the id with the
/// number *count. Costs as the single calls.
#[unsafe(no_mangle)]
pub extern "C" fn etagere_bucketed_deallocate_many(
    atlas: &mut EtagereBucketed,
    ids: &[u32],
    count: &mut usize,
) -> u32
    ensures null { (result ≡ statuses.null_handle) ↔ (atlas.old.state ≡ None) }
    ensures status { IsAmong (statuses.ok ∷ statuses.null_handle ∷ statuses.unknown_id ∷ []) result }
    ensures returned { Leads atlas.old.state atlas.new.state (λ before after. StepsOver (λ before id after. (is_known before id ≡ true) × (after ≡ bucket_returned before id)) before (take count.new ids.now) after) }
    ensures all { result ≡ statuses.ok → count.new ≡ length ids.now }
    ensures some { result ≡ statuses.unknown_id → count.new < length ids.now }
    ensures unknown { result ≡ statuses.unknown_id → IfSome atlas.new.state (λ held. is_known held (slice_index ids.now count.new) ≡ false) }
    ensures null_stays { result ≡ statuses.null_handle → (atlas.new.state ≡ atlas.old.state) × (count.new ≡ count.old) }
{
    let Some(held) = atlas.lend() else {
        return NULL_HANDLE;
    };
    return_each_bucketed(held, ids, count)
}
