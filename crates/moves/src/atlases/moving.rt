//! The call: what an atlas has allocated asks a new atlas for places, one after another.
//!
//! Definitions: `Arranging`, `Options` and `Order`. The clauses stay as they are: callers prove by them.

ghost use Rattle.std.specs.Prelude.{◌≡◌, ℕ, ◌≤◌, ◌++◌, Err, IfOk, IfErr, IfSome, OnOk, map};
ghost use Rattle.std.specs.List.{AllByRecursion};
ghost use Rattle.std.specs.List.Sorted.{IsPermutation};
ghost use Rattle.etagere_base.specs.Frames.{IsAccepted, atlas_frame, longest_side, options_fault};
ghost use Rattle.etagere_base.specs.Lists.{times};
ghost use Rattle.etagere_base.specs.Rectangles.{AreApart, IsInside};
ghost use Rattle.etagere_base.specs.declared.faults.OptionsFault.TheVariants as faults;
ghost use Rattle.etagere_base.specs.declared.ids.Allocation as ids;
ghost use Rattle.etagere_base.specs.declared.options.AllocatorOptions as given;
ghost use Rattle.shelf_model.specs.Atlas.{KeepsPromises};
ghost use Rattle.shelf_model.specs.Callers.{AreTied};
ghost use Rattle.shelf_model.specs.Places.{allocations};
ghost use Rattle.moves.specs.Atlases.Arranging.{Arranges, HasRoom, IsRearranged, moved_from, moved_to};
ghost use Rattle.moves.specs.Atlases.Options as spec;
ghost use Rattle.moves.specs.Atlases.Order.{AreTallestFirst};
ghost use Rattle.moves.specs.Atlases.Private.Sides.{HasSides};

use crate::atlases::kept_options::options_of;
use crate::atlases::order::sort_tallest_first;
use crate::atlases::rearrangement::{Rearranged, allocate_next};
use etagere_shelves::{Allocation, AtlasAllocator, Iter, OptionsFault, Size};
use pictures::Pictured;
use std::alloc::{AllocError, Global};

/// Places all that an atlas has allocated in a new atlas of this size in pixels, and so without the gaps that returns
/// have left. The old atlas stays as it is.
///
/// The new atlas has the alignments and the direction of the old one, and is asked for as many columns as that has. A
/// rectangle asks for its own sides, for an atlas doesn't know the sides that were asked for: it gets at least these.
/// The tallest asks first, by the side across the shelves, and of equally tall ones that of the least id. What the new
/// atlas refuses is left out, and the next one asks.
///
/// Returns the first fault of the size with these options; `Memory` only where there is no other and no memory. Takes
/// memory for the new atlas, for a list of all that is allocated, and for what it answers. Takes the time of a walk
/// through the records, of a sort, and of an allocation for each rectangle.
///
/// ```text
/// let done = rearranged(alloc, &atlas, size2(512, 512))?;
/// for Move { before, after } in &done.moves { .. }    // copy the pixels from one texture to the other
/// for left in &done.unplaced { .. }                   // has to be drawn anew, elsewhere
/// ```
pub fn rearranged(
    alloc: Global,
    atlas: &AtlasAllocator,
    size: Size,
) -> Result<Rearranged, OptionsFault>
    ensures rearranged { IfOk result
        (λ done. IsRearranged atlas.now size done.moves.items done.unplaced.items done.atlas) }
    ensures each { IfOk result
        (λ done. AreTied (moved_from done.moves.items ++ done.unplaced.items) (allocations atlas.now)) }
    ensures once { IfOk result (λ done. (id : ℕ) → times id
        (map (λ allocation. allocation.id) (moved_from done.moves.items ++ done.unplaced.items)) ≤ 1) }
    ensures whole { IfOk result
        (λ done. AreTied (moved_to done.moves.items) (allocations done.atlas)) }
    ensures inside { IfOk result
        (λ done. AllByRecursion (λ (after : ids.Allocation). IsInside done.atlas.frame after.rectangle)
        (moved_to done.moves.items)) }
    ensures apart { IfOk result (λ done. AreApart (moved_to done.moves.items)) }
    ensures room { IfOk result (λ done. AllByRecursion HasRoom done.moves.items) }
    ensures frame { IfOk result
        (λ done. done.atlas.frame ≡ atlas_frame size (spec.options_of atlas.now.frame)) }
    ensures same_frame { IfOk result (λ done. (options : given.AllocatorOptions)
        → IsAccepted longest_side size options → atlas.now.frame ≡ atlas_frame size options
        → done.atlas.frame ≡ atlas.now.frame) }
    ensures promises { IfOk result (λ done. KeepsPromises done.atlas) }
    ensures accepted { OnOk result (IsAccepted longest_side size (spec.options_of atlas.now.frame)) }
    ensures fault { IfSome (options_fault longest_side size (spec.options_of atlas.now.frame))
        (λ fault. result ≡ Err fault) }
    ensures memory { IfErr result
        (λ fault. IsAccepted longest_side size (spec.options_of atlas.now.frame) → fault ≡ faults.Memory) }
{
    let allocated = atlas.iter();
    let options = options_of(atlas.frame());
    let new = AtlasAllocator::with_options(alloc, size, &options)?;
    let Ok(asked) = tallest_first(alloc, allocated, options.vertical_shelves) else {
        return Err(OptionsFault::Memory);
    };
    match allocate_each(alloc, new, &asked) {
        Ok(done) => Ok(done),
        Err(AllocError) => Err(OptionsFault::Memory),
    }
}

/// A list of allocations, the tallest first.
fn tallest_first(
    alloc: Global,
    allocated: Iter<'_>,
    vertical: bool,
) -> Result<Vec<Allocation>, AllocError>
    ensures same { IfOk result (λ sorted. IsPermutation allocated.entry sorted.items) }
    ensures ordered { IfOk result (λ sorted. AreTallestFirst vertical sorted.items) }
{
    let mut sorted: Vec<Allocation> = allocated.collect(alloc)?;
    sort_tallest_first(&mut sorted, vertical);
    Ok(sorted)
}

/// Asks an atlas for places for rectangles of another one, one after another.
fn allocate_each(
    alloc: Global,
    atlas: AtlasAllocator,
    asked: &[Allocation],
) -> Result<Rearranged, AllocError>
    requires { AllByRecursion HasSides asked.now }
    ensures { IfOk result
        (λ done. Arranges atlas asked.now done.moves.items done.unplaced.items done.atlas) }
{
    let moves = Vec::with_capacity(alloc, asked.len())?;
    let mut done = Rearranged {
        atlas,
        moves,
        unplaced: Vec::new(alloc),
    };
    for before in asked {
        allocate_next(&mut done, *before)?;
    }
    Ok(done)
}
