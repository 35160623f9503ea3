//! A sprite sheet: a list of sizes gets places in its order.
//!
//! Definition: `Sheet`.

ghost use Rattle.std.specs.Prelude.{◌≡◌, IfOk, Some, length, slice_get};
ghost use Rattle.etagere_base.specs.declared.geometry.Size as declared;
ghost use Rattle.shelf_model.specs.Choice.{IsRefused};
ghost use Rattle.uses.specs.Sheet.{AreAllocations};

use etagere::{Allocation, AtlasAllocator, Size};
use std::alloc::{AllocError, Global};

/// Places sprites of these sizes in pixels, and gives their places in the order of the list. They are as many as the
/// sizes, or end before the first size that has no place; what was placed until then stays.
///
/// `Err` comes only where memory was refused, and leaves in the atlas what was placed until then. Takes memory for the
/// places, and that of the allocations.
pub fn allocate_sheet(
    alloc: Global,
    atlas: &mut AtlasAllocator,
    sizes: &[Size],
) -> Result<Vec<Allocation>, AllocError>
    ensures allocations { IfOk result (λ allocations. AreAllocations atlas.new sizes.now allocations.items) }
    ensures ends { IfOk result (λ allocations. (size : declared.Size)
        → slice_get sizes.now (length allocations.items) ≡ Some size → IsRefused atlas.new size) }
{
    let mut allocations = Vec::with_capacity(alloc, sizes.len())?;
    for size in sizes {
        let Some(allocation) = atlas.allocate(*size)? else {
            return Ok(allocations);
        };
        allocations.push(allocation)?;
    }
    Ok(allocations)
}
