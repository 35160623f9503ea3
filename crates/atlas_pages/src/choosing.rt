//! The allocation on the page that is chosen: the first that has a place, or the fullest, which is searched for.
//!
//! Definitions: `Choosing`, and `Private.Taking` for the allocation.

ghost use Rattle.std.specs.Prelude.{◌≡◌, ◌<◌, ◌^◌, true, None, IfOk, IfSome, IfNone, OnErr, length, slice_get};
ghost use Rattle.std.specs.List.{AllByRecursion};
ghost use Rattle.shelf_model.specs.Atlas.{KeepsPromises};
ghost use Rattle.etagere_base.specs.Least.{better};
ghost use Rattle.atlas_pages.specs.Choosing.{chosen_of, has_place, page_order};
ghost use Rattle.atlas_pages.specs.Private.Fullest as fullest;
ghost use Rattle.atlas_pages.specs.Private.Fullest.{found_at, found_of};
ghost use Rattle.atlas_pages.specs.Private.Taking.{NeedsSplitAmong, TakesRoom};

use crate::open_pages::allocate_first;
use crate::options::PageChoice;
use crate::paged_allocation::PagedAllocation;
use etagere_shelves::{AtlasAllocator, Size};
use std::alloc::AllocError;

/// Allocates a size on the page that is chosen among the open ones; none where no page has a place.
pub(crate) fn allocate_open(
    choice: PageChoice,
    pages: &mut Vec<AtlasAllocator>,
    size: Size,
) -> Result<Option<PagedAllocation>, AllocError>
    requires few { length pages.old.items < 2 ^ 32 }
    requires kept { AllByRecursion KeepsPromises pages.old.items }
    ensures placed { IfOk result (λ answer. IfSome answer
        (λ paged. TakesRoom choice pages.old.items size paged pages.new.items)) }
    ensures none { IfOk result (λ answer. IfNone answer
        (chosen_of choice size pages.old.items ≡ None)) }
    ensures stay { IfOk result (λ answer. IfNone answer (pages.new.items ≡ pages.old.items)) }
    ensures split { OnErr result (NeedsSplitAmong choice pages.old.items size) }
    ensures err { OnErr result (pages.new.items ≡ pages.old.items) }
{
    match choice {
        PageChoice::FirstFit => allocate_first(pages, size),
        PageChoice::FullestFirst => allocate_on_fullest(pages, size),
    }
}

/// A page that has a place, and what is free on it.
#[derive(Clone, Copy)]
struct Candidate {
    number: usize,
    free_space: u32,
}

/// Allocates a size on the fullest page that has a place for it; none where no page has.
fn allocate_on_fullest(
    pages: &mut Vec<AtlasAllocator>,
    size: Size,
) -> Result<Option<PagedAllocation>, AllocError>
    requires few { length pages.old.items < 2 ^ 32 }
    requires kept { AllByRecursion KeepsPromises pages.old.items }
    ensures placed { IfOk result (λ answer. IfSome answer
        (λ paged. TakesRoom PageChoice.FullestFirst pages.old.items size paged pages.new.items)) }
    ensures none { IfOk result (λ answer. IfNone answer
        (chosen_of PageChoice.FullestFirst size pages.old.items ≡ None)) }
    ensures stay { IfOk result (λ answer. IfNone answer (pages.new.items ≡ pages.old.items)) }
    ensures split { OnErr result (NeedsSplitAmong PageChoice.FullestFirst pages.old.items size) }
    ensures err { OnErr result (pages.new.items ≡ pages.old.items) }
{
    let Some(number) = fullest_with_place(pages, size) else {
        return Ok(None);
    };
    let Some(allocation) = pages[number].allocate(size)? else {
        unreachable!()
    };
    let page = number as u32;
    Ok(Some(PagedAllocation { page, allocation }))
}

/// The number of the fullest page that has a place for a size.
fn fullest_with_place(pages: &[AtlasAllocator], size: Size) -> Option<usize>
    requires { AllByRecursion KeepsPromises pages.now }
    ensures chosen { result ≡ chosen_of PageChoice.FullestFirst size pages.now }
    ensures within { IfSome result (λ number. number < length pages.now) }
    ensures fits { IfSome result
        (λ number. IfSome (slice_get pages.now number) (λ page. has_place size page ≡ true)) }
{
    let mut best: Option<Candidate> = None;
    for number in 0..pages.len() {
        best = fuller(best, number, &pages[number], size);
    }
    let Some(candidate) = best else {
        return None;
    };
    Some(candidate.number)
}

/// The page of this number where it has a place for the size and is fuller than the best so far, else that one.
fn fuller(
    best: Option<Candidate>,
    number: usize,
    page: &AtlasAllocator,
    size: Size,
) -> Option<Candidate>
    requires { KeepsPromises page.now }
    ensures { found_of result ≡ better (found_of best)
        (found_at number (page_order PageChoice.FullestFirst size page.now)) }
{
    let free_space = page.free_space() as u32;
    if !is_fuller(best, free_space) {
        return best;
    }
    if !has_place(page, size) {
        return best;
    }
    Some(Candidate { number, free_space })
}

/// Whether less is free than on the best so far, if there is one.
fn is_fuller(best: Option<Candidate>, free_space: u32) -> bool
    ensures { result ≡ fullest.is_fuller free_space (found_of best) }
{
    match best {
        Some(candidate) => free_space < candidate.free_space,
        None => true,
    }
}

/// Whether a page has a place for a size.
fn has_place(page: &AtlasAllocator, size: Size) -> bool
    requires { KeepsPromises page.now }
    ensures { result ≡ has_place size page.now }
{
    page.refusal(size).is_none()
}
