//! The call: what is allocated on pages asks new pages for places, one after another.
//!
//! Definitions: `Arranging`, `Order` and `Tied`. The clauses stay as they are: callers prove by them.

ghost use Rattle.std.specs.Prelude.{◌≡◌, ◌++◌, IfOk};
ghost use Rattle.std.specs.List.{AllByRecursion};
ghost use Rattle.std.specs.List.Sorted.{IsPermutation};
ghost use Rattle.moves.specs.Atlases.Private.Sides.{HasSides};
ghost use Rattle.atlas_pages.specs.Promises.{KeepsPagesPromises};
ghost use Rattle.atlas_pages.specs.declared.paged_allocation.PagedAllocation as model;
ghost use Rattle.moves.specs.Pages.Arranging.{Arranges, HasRoom, IsRearranged, moved_from, moved_to};
ghost use Rattle.moves.specs.Pages.Order.{AreTallestFirst};
ghost use Rattle.moves.specs.Pages.Tied.{AreTiedOn};

use crate::pages::order::sort_tallest_first;
use crate::pages::rearrangement::{RearrangedPages, allocate_next};
use atlas_pages::{AtlasPages, Iter, PagedAllocation};
use std::alloc::{AllocError, Global};

/// Places all that is allocated on pages on new pages of the same options, and so without the gaps that returns have left.
/// The old pages stay as they are.
///
/// A rectangle asks for its own sides, for pages don't know the sides that were asked for: it gets at least these. The
/// tallest asks first, by the side across the shelves; of equally tall ones that of the first page, and on one page that
/// of the least id. What the new pages refuse is left out, and the next one asks.
///
/// The error comes only where there was no memory. Takes memory for the new pages, for a list of all that is allocated,
/// and for what it answers. Takes the time of a walk through the records, of a sort, and of an allocation for each
/// rectangle.
///
/// ```text
/// let done = rearranged_pages(alloc, &pages)?;
/// for PageMove { before, after } in &done.moves { .. }    // copy the pixels from one page to the other
/// for left in &done.unplaced { .. }                       // has to be drawn anew, elsewhere
/// ```
pub fn rearranged_pages(alloc: Global, pages: &AtlasPages) -> Result<RearrangedPages, AllocError>
    ensures rearranged { IfOk result
        (λ done. IsRearranged pages.now done.moves.items done.unplaced.items done.pages) }
    ensures each { IfOk result
        (λ done. AreTiedOn (moved_from done.moves.items ++ done.unplaced.items) pages.now) }
    ensures whole { IfOk result (λ done. AreTiedOn (moved_to done.moves.items) done.pages) }
    ensures room { IfOk result (λ done. AllByRecursion HasRoom done.moves.items) }
    ensures options { IfOk result (λ done. done.pages.options ≡ pages.now.options) }
    ensures promises { IfOk result (λ done. KeepsPagesPromises done.pages) }
{
    let allocated = pages.iter();
    let options = pages.options();
    let Ok(new) = AtlasPages::new(alloc, &options) else {
        unreachable!()
    };
    let asked = tallest_first(alloc, allocated, options.atlas.vertical_shelves)?;
    allocate_each(alloc, new, &asked)
}

/// A list of what is allocated on pages, the tallest first.
fn tallest_first(
    alloc: Global,
    allocated: Iter<'_>,
    vertical: bool,
) -> Result<Vec<PagedAllocation>, AllocError>
    ensures same { IfOk result (λ sorted. IsPermutation allocated.entry sorted.items) }
    ensures ordered { IfOk result (λ sorted. AreTallestFirst vertical sorted.items) }
{
    let mut sorted: Vec<PagedAllocation> = allocated.collect(alloc)?;
    sort_tallest_first(&mut sorted, vertical);
    Ok(sorted)
}

/// Asks pages for places for rectangles of other ones, one after another.
fn allocate_each(
    alloc: Global,
    pages: AtlasPages,
    asked: &[PagedAllocation],
) -> Result<RearrangedPages, AllocError>
    requires { AllByRecursion (λ (paged : model.PagedAllocation). HasSides paged.allocation) asked.now }
    ensures { IfOk result
        (λ done. Arranges pages asked.now done.moves.items done.unplaced.items done.pages) }
{
    let moves = Vec::with_capacity(alloc, asked.len())?;
    let mut done = RearrangedPages {
        pages,
        moves,
        unplaced: Vec::new(alloc),
    };
    for before in asked {
        allocate_next(&mut done, *before)?;
    }
    Ok(done)
}
