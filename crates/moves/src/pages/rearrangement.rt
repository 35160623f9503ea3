//! What a rearrangement of pages answers, and how one rectangle more is added to it.
//!
//! Definition: `Arranging`.

ghost use Rattle.std.specs.Prelude.{[], ◌∷◌, ◌++◌, List, OnOk};
ghost use Rattle.moves.specs.Atlases.Private.Sides.{HasSides};
ghost use Rattle.atlas_pages.specs.Pages as state;
ghost use Rattle.atlas_pages.specs.declared.paged_allocation.PagedAllocation as model;
ghost use Rattle.moves.specs.Pages.Arranging.{Arranges};

use atlas_pages::{AtlasPages, PagedAllocation};
use std::alloc::AllocError;

/// A rectangle that found a place on the new pages.
#[derive(Clone, Copy, Debug, PartialEq)]
pub struct PageMove {
    /// The old page, and there the id and the rectangle.
    pub before: PagedAllocation,
    /// The new page, and there the id and the rectangle, which is at least as wide and as tall as the old one.
    pub after: PagedAllocation,
}

/// New pages, and what of the old ones lies where on them.
#[derive(Drop)]
pub struct RearrangedPages {
    /// The new pages, on which what moved is allocated and nothing else.
    pub pages: AtlasPages,
    /// What moved, the tallest first, and of equally tall ones in the order of old pages and ids.
    pub moves: Vec<PageMove>,
    /// What found no place, as it lies on the old pages, in the same order.
    pub unplaced: Vec<PagedAllocation>,
}

/// Asks the new pages for a place as large as a rectangle of the old ones, and keeps the answer.
pub fn allocate_next(done: &mut RearrangedPages, before: PagedAllocation) -> Result<(), AllocError>
    requires { HasSides before.allocation }
    ensures { OnOk result ((start : state.PagesState) (asked : List model.PagedAllocation)
        → Arranges start asked done.old.moves.items done.old.unplaced.items done.old.pages
        → Arranges start (asked ++ before ∷ []) done.new.moves.items done.new.unplaced.items done.new.pages) }
{
    match done.pages.allocate(before.allocation.rectangle.size())? {
        Some(after) => done.moves.push(PageMove { before, after })?,
        None => done.unplaced.push(before)?,
    }
    Ok(())
}
