//! What calls do to the atlases of the open pages.
//!
//! Definitions: `Choosing` and `Allocated` for what is meant, `Private.Taking` for an allocation.

ghost use Rattle.std.specs.Prelude.{◌≡◌, ◌↔◌, ◌+◌, ◌<◌, ◌≤◌, ◌*◌, ◌^◌, ◌++◌, [], ◌∷◌, true, false, None, Some, IfOk, IfErr, IfSome, IfNone, OnOk, OnErr, IsErr, IsTrue, is_some, length, map, option_and_then, slice_get, take};
ghost use Rattle.std.specs.List.{AllByRecursion};
ghost use Rattle.etagere_base.specs.Lists.{total};
ghost use Rattle.etagere_base.specs.Rectangles.{IsLarge};
ghost use Rattle.shelf_model.specs.Atlas.{KeepsPromises};
ghost use Rattle.shelf_model.specs.Fresh.{fresh};
ghost use Rattle.shelf_model.specs.Places.{allocations, rectangle_of};
ghost use Rattle.shelf_model.specs.Returning.{returned};
ghost use Rattle.shelf_model.specs.Space as space;
ghost use Rattle.shelf_model.specs.State.{AtlasState};
ghost use Rattle.atlas_pages.specs.Allocated.{AllocatesOn, at_page, used_pages};
ghost use Rattle.atlas_pages.specs.Choosing as choosing;
ghost use Rattle.atlas_pages.specs.Choosing.{chosen_of, has_place};
ghost use Rattle.atlas_pages.specs.Pages.{ArePageOptions, empty_page, page_frame};
ghost use Rattle.atlas_pages.specs.Private.Taking.{NeedsSplitAmong, TakesRoom};

use crate::options::{PageChoice, PageOptions};
use crate::paged_allocation::PagedAllocation;
use etagere_shelves::{AllocId, AtlasAllocator, Rectangle, Size, UnknownId};
use std::alloc::{AllocError, Global};

/// Allocates a size on the first page that has a place for it; none where no page has.
pub(crate) fn allocate_first(
    pages: &mut Vec<AtlasAllocator>,
    size: Size,
) -> Result<Option<PagedAllocation>, AllocError>
    requires { length pages.old.items < 2 ^ 32 }
    ensures placed { IfOk result (λ answer. IfSome answer
        (λ paged. TakesRoom PageChoice.FirstFit pages.old.items size paged pages.new.items)) }
    ensures none { IfOk result (λ answer. IfNone answer
        (chosen_of PageChoice.FirstFit size pages.old.items ≡ None)) }
    ensures stay { IfOk result (λ answer. IfNone answer (pages.new.items ≡ pages.old.items)) }
    ensures split { OnErr result (NeedsSplitAmong PageChoice.FirstFit pages.old.items size) }
    ensures err { OnErr result (pages.new.items ≡ pages.old.items) }
{
    for number in 0..pages.len() {
        if let Some(allocation) = pages[number].allocate(size)? {
            let page = number as u32;
            return Ok(Some(PagedAllocation { page, allocation }));
        }
    }
    Ok(None)
}

/// Makes a page with a size on it, behind the open pages.
pub(crate) fn open_with(
    alloc: Global,
    options: &PageOptions,
    pages: &mut Vec<AtlasAllocator>,
    size: Size,
) -> Result<PagedAllocation, AllocError>
    requires options { ArePageOptions options.now }
    requires fits { has_place size (empty_page options.now) ≡ true }
    requires few { length pages.old.items < 2 ^ 32 }
    ensures page { IfOk result (λ paged. paged.page ≡ length pages.old.items) }
    ensures placed { IfOk result (λ paged.
        AllocatesOn (pages.old.items ++ empty_page options.now ∷ []) size paged pages.new.items) }
    ensures large { IfOk result
        (λ paged. IsLarge (page_frame options.now) size paged.allocation.rectangle) }
    ensures kept { IfOk result (λ paged. IfSome (slice_get pages.new.items paged.page) KeepsPromises) }
    ensures err { OnErr result (pages.new.items ≡ pages.old.items) }
{
    let Ok(mut opened) = AtlasAllocator::with_options(alloc, options.size, &options.atlas) else {
        return Err(AllocError);
    };
    let Some(allocation) = opened.allocate(size)? else {
        unreachable!()
    };
    let page = pages.len() as u32;
    pages.push(opened)?;
    Ok(PagedAllocation { page, allocation })
}

/// The rectangle that is allocated on a page under an id.
pub(crate) fn rectangle_on(pages: &[AtlasAllocator], page: u32, id: AllocId) -> Option<Rectangle>
    ensures { result
        ≡ option_and_then (λ (atlas : AtlasState). rectangle_of atlas id) (slice_get pages.now page) }
{
    pages.get(page as usize)?.get(id)
}

/// Gives back what is allocated on a page under an id.
pub(crate) fn return_on(
    pages: &mut Vec<AtlasAllocator>,
    page: u32,
    id: AllocId,
) -> Result<(), UnknownId>
    ensures ok { OnOk result
        (pages.new.items ≡ at_page page (λ atlas. returned atlas id) pages.old.items) }
    ensures unknown { IsErr result ↔ (is_some
        (option_and_then (λ (atlas : AtlasState). rectangle_of atlas id)
        (slice_get pages.old.items page))
        ≡ false) }
    ensures err { OnErr result (pages.new.items ≡ pages.old.items) }
{
    let number = page as usize;
    if number >= pages.len() {
        return Err(UnknownId);
    }
    pages[number].deallocate(id)
}

/// Empties each page.
pub(crate) fn clear_each(pages: &mut Vec<AtlasAllocator>)
    ensures { pages.new.items ≡ map (λ (page : AtlasState). fresh page.frame) pages.old.items }
{
    for number in 0..pages.len() {
        pages[number].clear();
    }
}

/// Drops the empty pages at the end.
pub(crate) fn drop_empty_end(pages: &mut Vec<AtlasAllocator>)
    ensures { pages.new.items ≡ used_pages pages.old.items }
{
    let count = used_count(pages);
    pages.truncate(count);
}

/// How many pages there are up to the last one on which something is allocated.
fn used_count(pages: &[AtlasAllocator]) -> usize
    ensures { take result pages.now ≡ used_pages pages.now }
{
    let mut count = 0;
    for number in 0..pages.len() {
        if !pages[number].is_empty() {
            count = number + 1;
        }
    }
    count
}

/// The areas of everything that is allocated, added up.
pub(crate) fn allocated_space(pages: &[AtlasAllocator]) -> u64
    requires { length pages.now < 2 ^ 32 }
    ensures { result ≡ total space.allocated_space pages.now }
{
    let mut space: u64 = 0;
    for page in pages {
        space += page.allocated_space() as u64;
    }
    space
}

/// What is free, added up.
pub(crate) fn free_space(pages: &[AtlasAllocator]) -> u64
    requires { length pages.now < 2 ^ 32 }
    ensures { result ≡ total choosing.free_space pages.now }
{
    let mut space: u64 = 0;
    for page in pages {
        space += page.free_space() as u64;
    }
    space
}

/// Whether nothing is allocated on any page.
pub(crate) fn are_empty(pages: &[AtlasAllocator]) -> bool
    ensures { IsTrue result ↔ AllByRecursion (λ (page : AtlasState). allocations page ≡ []) pages.now }
{
    for page in pages {
        if !page.is_empty() {
            return false;
        }
    }
    true
}
