//! Two pictures that share no unit square: `allocate_two` places both, or neither.
//!
//! The public clauses of the atlas are enough, with no lemma of its own; only `inside` has an answer
//! that is written out, by `allocated` and `promises` of `allocate`.

ghost use Rattle.std.specs.Prelude.{◌≡◌, true, IfOk, IfNone, IfSome, OnErr};
ghost use Rattle.shelf_model.specs.ById.{Undoes};
ghost use Rattle.shelf_model.specs.Places.{allocations, is_allocated};
ghost use Rattle.etagere_base.specs.Rectangles.{IsInside, SharesNone};

use etagere::{AllocId, Allocation, AtlasAllocator, Size};
use std::alloc::AllocError;

/// Places two pictures of these sizes in pixels. Both get a place or neither does, and then the atlas
/// has allocated what it had before.
///
/// None is the answer where there is no room for one of them, `Err` where memory was refused. Takes the memory
/// and time of two allocations, and of a return where only the first got a place.
pub fn allocate_two(
    atlas: &mut AtlasAllocator,
    first: Size,
    second: Size,
) -> Result<Option<(Allocation, Allocation)>, AllocError>
    ensures apart { IfOk result (λ answer. IfSome answer
        (λ pair. SharesNone pair.0.rectangle pair.1.rectangle)) }
    ensures inside { IfOk result (λ answer. IfSome answer
        (λ pair. IsInside atlas.new.frame pair.0.rectangle
        × IsInside atlas.new.frame pair.1.rectangle)) }
    ensures none { IfOk result (λ answer. IfNone answer
        (allocations atlas.new ≡ allocations atlas.old)) }
    ensures err { OnErr result (allocations atlas.new ≡ allocations atlas.old) }
{
    let Some(one) = atlas.allocate(first)? else {
        return Ok(None);
    };
    match atlas.allocate(second) {
        Ok(Some(other)) => Ok(Some((one, other))),
        Ok(None) => {
            give_back(atlas, one.id);
            Ok(None)
        }
        Err(refused) => {
            give_back(atlas, one.id);
            Err(refused)
        }
    }
}

/// Gives back what has this id.
fn give_back(atlas: &mut AtlasAllocator, id: AllocId)
    requires { is_allocated atlas.old id ≡ true }
    ensures { Undoes atlas.old id atlas.new }
{
    match atlas.deallocate(id) {
        Ok(()) => {}
        Err(_) => unreachable!(),
    }
}
