//! What the calls of a bucketed atlas do to the atlas that a handle holds.
//!
//! Definitions: `Calls`, `Crossing`, `Statuses`, and those of `bucketed_model`.

ghost use Rattle.std.specs.Prelude.{◌≡◌, ◌≢◌, ◌*◌, ◌-◌, [], ◌∷◌, None, Some, Err, IfErr, IfOk, IfSome};
ghost use Rattle.etagere_base.specs.Frames.{options_fault};
ghost use Rattle.etagere_base.specs.declared.faults.OptionsFault.TheVariants as faults;
ghost use Rattle.bucketed_model.specs.Atlas.{Allocates, KeepsPromises, NeedsShelf};
ghost use Rattle.bucketed_model.specs.Frames as frames;
ghost use Rattle.bucketed_model.specs.Frames.{longest_bucketed_side};
ghost use Rattle.bucketed_model.specs.Placing.{IsBucketRefused};
ghost use Rattle.bucketed_model.specs.State.{fresh};
ghost use Rattle.c_answers.specs.Calls.{IsAmong};
ghost use Rattle.etagere_shelves.specs.Plain.{allocation_in};
ghost use Rattle.c_answers.specs.Crossing.{options_in, size_in};
ghost use Rattle.c_answers.specs.Statuses as statuses;

use crate::boxes::boxed;
use crate::geometry::{EtagereAllocation, EtagereOptions, EtagereSize};
use crate::statuses::{MEMORY, NO_ROOM, OK};
use etagere::{BucketedAtlasAllocator, OptionsFault};
use std::alloc::Global;

/// A boxed atlas of this size and options.
pub fn made(
    alloc: Global,
    size: EtagereSize,
    options: &EtagereOptions,
) -> Result<Box<BucketedAtlasAllocator>, OptionsFault>
    ensures made { IfOk result (λ boxed. boxed.value
        ≡ fresh (frames.bucketed_frame (size_in size) (options_in options.now))) }
    ensures fault { IfSome (options_fault longest_bucketed_side (size_in size) (options_in options.now))
        (λ fault. result ≡ Err fault) }
    ensures promises { IfOk result (λ boxed. KeepsPromises boxed.value) }
    ensures memory { IfErr result (λ fault. options_fault longest_bucketed_side (size_in size) (options_in options.now) ≡ None → fault ≡ faults.Memory) }
{
    let atlas = BucketedAtlasAllocator::with_options(alloc, size.size(), &options.options())?;
    boxed(alloc, atlas)
}

/// Allocates a size, and says by a status how that went.
pub fn allocate(
    atlas: &mut BucketedAtlasAllocator,
    size: EtagereSize,
    allocation: &mut EtagereAllocation,
) -> u32
    ensures status { IsAmong (statuses.ok ∷ statuses.no_room ∷ statuses.out_of_memory ∷ []) result }
    ensures placed { result ≡ statuses.ok
        → Allocates atlas.old (size_in size) (allocation_in allocation.new) atlas.new }
    ensures refused { result ≡ statuses.no_room → IsBucketRefused atlas.old (size_in size) }
    ensures shelf { result ≡ statuses.out_of_memory → NeedsShelf atlas.old (size_in size) }
    ensures stays { result ≢ statuses.ok → atlas.new ≡ atlas.old }
    ensures unwritten { result ≢ statuses.ok → allocation.new ≡ allocation.old }
    ensures promises { KeepsPromises atlas.new }
{
    match atlas.allocate(size.size()) {
        Ok(Some(given)) => {
            *allocation = EtagereAllocation::of(given);
            OK
        }
        Ok(None) => NO_ROOM,
        Err(_) => MEMORY,
    }
}

/// A boxed copy of an atlas, or none where there was no memory.
pub fn copied(alloc: Global, atlas: &BucketedAtlasAllocator) -> Option<Box<BucketedAtlasAllocator>>
    ensures { IfSome result (λ boxed. boxed.value ≡ atlas.now) }
{
    let copy = atlas.clone().ok()?;
    Box::new(alloc, copy).ok()
}
