//! What a cache does to an atlas beside placing: it gives back what it keeps, and tries what else could have a place.
//!
//! Definitions: `Returning` and `Choice`, of the atlas.

ghost use Rattle.std.specs.Prelude.{◌≡◌, true, false, is_some, IfOk};
ghost use Rattle.shelf_model.specs.Atlas.{KeepsPromises, Restores, without_id};
ghost use Rattle.shelf_model.specs.Choice.{placement_of};
ghost use Rattle.shelf_model.specs.Places.{allocations, is_allocated};
ghost use Rattle.shelf_model.specs.Returning.{returned};

use etagere_shelves::{AllocId, AtlasAllocator, Size};
use std::alloc::AllocError;

/// Gives back what is allocated under an id.
pub(crate) fn give_back(atlas: &mut AtlasAllocator, id: AllocId)
    requires { is_allocated atlas.old id ≡ true }
    ensures returned { atlas.new ≡ returned atlas.old id }
    ensures allocated { allocations atlas.new ≡ without_id id (allocations atlas.old) }
    ensures restores { Restores atlas.old id atlas.new }
    ensures promises { KeepsPromises atlas.new }
{
    match atlas.deallocate(id) {
        Ok(()) => {}
        Err(_) => unreachable!(),
    }
}

/// Whether a size has a place, which it then takes.
pub(crate) fn takes(atlas: &mut AtlasAllocator, size: Size) -> Result<bool, AllocError>
    ensures room { IfOk result (λ has. has ≡ is_some (placement_of atlas.old size)) }
    ensures none { IfOk result (λ has. has ≡ false → atlas.new ≡ atlas.old) }
{
    match atlas.allocate(size)? {
        Some(_) => Ok(true),
        None => Ok(false),
    }
}
