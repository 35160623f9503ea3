//! Several atlases of one size: a page is opened where no earlier one has a place.
//!
//! Definition: `Pages`.

ghost use Rattle.std.specs.Prelude.{◌≡◌, IfOk, IfSome, IfNone, OnErr};
ghost use Rattle.shelf_model.specs.Choice.{IsRefused};
ghost use Rattle.shelf_model.specs.Fresh.{fresh};
ghost use Rattle.etagere_base.specs.Frames.{atlas_frame};
ghost use Rattle.etagere_base.specs.Options.{default_options};
ghost use Rattle.uses.specs.Pages.{IsOnPage};

use etagere::{Allocation, AtlasAllocator, Size};
use std::alloc::{AllocError, Global};

/// The size of each page in pixels.
pub const PAGE: Size = Size {
    width: 256,
    height: 256,
};

/// A place on one of several pages, which count from 0.
#[derive(Clone, Copy)]
pub struct PagedAllocation {
    pub page: usize,
    pub allocation: Allocation,
}

/// Places a size in pixels on the first page that has a place for it, and where none has, on a new page behind them.
///
/// None comes only where a new page has no place for it either. `Err` comes only where memory was refused. After both
/// the pages are as before. Takes the memory of an allocation, and for a new page that of an atlas.
pub fn allocate_on_pages(
    alloc: Global,
    pages: &mut Vec<AtlasAllocator>,
    size: Size,
) -> Result<Option<PagedAllocation>, AllocError>
    ensures placed { IfOk result (λ answer. IfSome answer
        (λ paged. IsOnPage pages.old.items size paged pages.new.items)) }
    ensures none { IfOk result (λ answer. IfNone answer
        (IsRefused (fresh (atlas_frame PAGE default_options)) size)) }
    ensures stay { IfOk result (λ answer. IfNone answer (pages.new.items ≡ pages.old.items)) }
    ensures err { OnErr result (pages.new.items ≡ pages.old.items) }
{
    for page in 0..pages.len() {
        if let Some(allocation) = pages[page].allocate(size)? {
            return Ok(Some(PagedAllocation { page, allocation }));
        }
    }
    let Ok(mut opened) = AtlasAllocator::new(alloc, PAGE) else {
        return Err(AllocError);
    };
    let Some(allocation) = opened.allocate(size)? else {
        return Ok(None);
    };
    let page = pages.len();
    pages.push(opened)?;
    Ok(Some(PagedAllocation { page, allocation }))
}
