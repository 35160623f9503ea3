//! Several pages allocate sizes.
//!
//! Definitions: `Held`.

ghost use Rattle.std.specs.Prelude.{refl};
ghost use Rattle.atlas_pages.specs.Allocated as allocated;
ghost use Rattle.atlas_pages.specs.Promises as promises;
ghost use Rattle.paged_cache.specs.Held as held;
ghost use Rattle.paged_cache.specs.Private.PagesLaws as laws;

use crate::allocating::Allocates;
use atlas_pages::{AtlasPages, PagedAllocation};
use etagere_base::atlas_frame;
use etagere_shelves::Size;
use shelf_search::choosing::fits_when_empty;
use std::alloc::AllocError;

impl Allocates for AtlasPages {
    type Allocation = PagedAllocation;

    ghost keeps = { promises.KeepsPagesPromises };

    ghost has_place = { held.has_page };

    ghost fits = { held.fits_page };

    ghost gives = { held.GivesPaged };

    ghost returned = { held.paged_returned };

    ghost cleared = { allocated.cleared };

    ghost is_held = { held.is_paged_held };

    ghost are_held = { held.AreAllPaged };

    fn give(&mut self, size: Size) -> Result<Option<PagedAllocation>, AllocError> {
        self.allocate(size)
    }

    fn take_back(&mut self, paged: PagedAllocation) {
        let _ = self.deallocate(paged.page, paged.allocation.id);
    }

    fn clear(&mut self) {
        self.clear();
    }

    fn fits_ever(&self, size: Size) -> bool {
        // A call tells that the options have no fault.
        let _ = self.page_count();
        let options = self.options();
        fits_when_empty(&atlas_frame(options.size, &options.atlas), size)
    }

    ghost one_more = { laws.one-more };

    ghost one_less = { laws.one-less };

    ghost to_front = { laws.to-front };

    ghost among = { laws.among-held };

    ghost still_keeps = { laws.still-keeps };

    ghost all_cleared = { laws.all-cleared };

    ghost none_held = { laws.none-held };

    ghost fits_given = { laws.fits-given };

    ghost fits_returned = { λ state size paged. refl };
}
