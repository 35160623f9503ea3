//! Sizes that are allocated and ids that come back, up to the first that is refused.
//!
//! Definitions: `Batches`, `Calls`, `Crossing`, `Statuses`, and those of both atlases.

ghost use Rattle.std.specs.Prelude.{◌≡◌, ◌≢◌, ◌<◌, ◌≤◌, [], ◌∷◌, false, true, drop, length, take, slice_get, slice_index, IfSome};
ghost use Rattle.shelf_model.specs.Atlas.{Allocates, NeedsSplit};
ghost use Rattle.shelf_model.specs.Choice.{IsRefused};
ghost use Rattle.shelf_model.specs.Places.{is_allocated};
ghost use Rattle.shelf_model.specs.Returning.{returned};
ghost use Rattle.bucketed_model.specs.Atlas as buckets;
ghost use Rattle.bucketed_model.specs.Placing.{IsBucketRefused};
ghost use Rattle.bucketed_model.specs.Returning.{bucket_returned, is_known};
ghost use Rattle.c_answers.specs.Batches.{GivesOver, StepsOver};
ghost use Rattle.c_answers.specs.Calls.{IsAmong};
ghost use Rattle.etagere_shelves.specs.Plain.{allocation_in};
ghost use Rattle.c_answers.specs.Crossing.{size_in};
ghost use Rattle.c_answers.specs.Statuses as statuses;

use crate::atlas::allocate;
use crate::bucketed::allocate as allocate_bucketed;
use crate::geometry::{EtagereAllocation, EtagereSize};
use crate::statuses::{OK, UNKNOWN_ID};
use etagere::{AllocId, AtlasAllocator, BucketedAtlasAllocator};

/// Allocates sizes in turn up to the first that isn't given a place, and counts them.
pub fn allocate_each(
    atlas: &mut AtlasAllocator,
    sizes: &[EtagereSize],
    allocations: &mut [EtagereAllocation],
    count: &mut usize,
) -> u32
    requires { length sizes.now ≤ length allocations.old }
    ensures status { IsAmong (statuses.ok ∷ statuses.no_room ∷ statuses.out_of_memory ∷ []) result }
    ensures given { GivesOver (λ before size allocation after. Allocates before (size_in size) (allocation_in allocation) after) atlas.old (take count.new sizes.now) (take count.new allocations.new) atlas.new }
    ensures behind { drop count.new allocations.new ≡ drop count.new allocations.old }
    ensures all { result ≡ statuses.ok → count.new ≡ length sizes.now }
    ensures some { result ≢ statuses.ok → count.new < length sizes.now }
    ensures refused { result ≡ statuses.no_room → IfSome (slice_get sizes.now count.new) (λ size. IsRefused atlas.new (size_in size)) }
    ensures split { result ≡ statuses.out_of_memory → IfSome (slice_get sizes.now count.new) (λ size. NeedsSplit atlas.new (size_in size)) }
{
    for i in 0..sizes.len() {
        let status = allocate(atlas, sizes[i], &mut allocations[i]);
        if status != OK {
            *count = i;
            return status;
        }
    }
    *count = sizes.len();
    OK
}

/// Takes ids back in turn up to the first that is unknown, and counts them.
pub fn return_each(atlas: &mut AtlasAllocator, ids: &[u32], count: &mut usize) -> u32
    ensures status { IsAmong (statuses.ok ∷ statuses.unknown_id ∷ []) result }
    ensures returned { StepsOver (λ before id after. (is_allocated before id ≡ true) × (after ≡ returned before id)) atlas.old (take count.new ids.now) atlas.new }
    ensures all { result ≡ statuses.ok → count.new ≡ length ids.now }
    ensures some { result ≢ statuses.ok → count.new < length ids.now }
    ensures unknown { result ≡ statuses.unknown_id → is_allocated atlas.new (slice_index ids.now count.new) ≡ false }
{
    for i in 0..ids.len() {
        if atlas.deallocate(AllocId::deserialize(ids[i])).is_err() {
            *count = i;
            return UNKNOWN_ID;
        }
    }
    *count = ids.len();
    OK
}

/// Allocates sizes in turn up to the first that isn't given a place, and counts them.
pub fn allocate_each_bucketed(
    atlas: &mut BucketedAtlasAllocator,
    sizes: &[EtagereSize],
    allocations: &mut [EtagereAllocation],
    count: &mut usize,
) -> u32
    requires { length sizes.now ≤ length allocations.old }
    ensures status { IsAmong (statuses.ok ∷ statuses.no_room ∷ statuses.out_of_memory ∷ []) result }
    ensures given { GivesOver (λ before size allocation after. buckets.Allocates before (size_in size) (allocation_in allocation) after) atlas.old (take count.new sizes.now) (take count.new allocations.new) atlas.new }
    ensures behind { drop count.new allocations.new ≡ drop count.new allocations.old }
    ensures all { result ≡ statuses.ok → count.new ≡ length sizes.now }
    ensures some { result ≢ statuses.ok → count.new < length sizes.now }
    ensures refused { result ≡ statuses.no_room → IfSome (slice_get sizes.now count.new) (λ size. IsBucketRefused atlas.new (size_in size)) }
    ensures shelf { result ≡ statuses.out_of_memory → IfSome (slice_get sizes.now count.new) (λ size. buckets.NeedsShelf atlas.new (size_in size)) }
{
    for i in 0..sizes.len() {
        let status = allocate_bucketed(atlas, sizes[i], &mut allocations[i]);
        if status != OK {
            *count = i;
            return status;
        }
    }
    *count = sizes.len();
    OK
}

/// Takes ids back in turn up to the first that is unknown, and counts them.
pub fn return_each_bucketed(
    atlas: &mut BucketedAtlasAllocator,
    ids: &[u32],
    count: &mut usize,
) -> u32
    ensures status { IsAmong (statuses.ok ∷ statuses.unknown_id ∷ []) result }
    ensures returned { StepsOver (λ before id after. (is_known before id ≡ true) × (after ≡ bucket_returned before id)) atlas.old (take count.new ids.now) atlas.new }
    ensures all { result ≡ statuses.ok → count.new ≡ length ids.now }
    ensures some { result ≢ statuses.ok → count.new < length ids.now }
    ensures unknown { result ≡ statuses.unknown_id → is_known atlas.new (slice_index ids.now count.new) ≡ false }
{
    for i in 0..ids.len() {
        if atlas.deallocate(AllocId::deserialize(ids[i])).is_err() {
            *count = i;
            return UNKNOWN_ID;
        }
    }
    *count = ids.len();
    OK
}
