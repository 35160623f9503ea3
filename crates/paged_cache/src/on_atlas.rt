//! An atlas allocates sizes.
//!
//! Definitions: `Held`.

ghost use Rattle.std.specs.Prelude.{refl};
ghost use Rattle.shelf_model.specs.Atlas as atlas;
ghost use Rattle.paged_cache.specs.Held as held;
ghost use Rattle.paged_cache.specs.Private.AtlasLaws as laws;

use crate::allocating::Allocates;
use etagere_shelves::{Allocation, AtlasAllocator, Size};
use std::alloc::AllocError;

impl Allocates for AtlasAllocator {
    type Allocation = Allocation;

    ghost keeps = { atlas.KeepsPromises };

    ghost has_place = { held.has_place_in };

    ghost fits = { held.fits_atlas };

    ghost gives = { atlas.Allocates };

    ghost returned = { held.allocation_returned };

    ghost cleared = { held.emptied };

    ghost is_held = { held.is_allocation_held };

    ghost are_held = { held.are_all_allocated };

    fn give(&mut self, size: Size) -> Result<Option<Allocation>, AllocError> {
        self.allocate(size)
    }

    fn take_back(&mut self, allocation: Allocation) {
        let _ = self.deallocate(allocation.id);
    }

    fn clear(&mut self) {
        self.clear();
    }

    fn fits_ever(&self, size: Size) -> bool {
        self.fits_when_empty(size)
    }

    ghost one_more = { laws.one-more };

    ghost one_less = { laws.one-less };

    ghost to_front = { laws.to-front };

    ghost among = { laws.among-held };

    ghost still_keeps = { laws.still-keeps };

    ghost all_cleared = { laws.all-cleared };

    ghost none_held = { laws.none-held };

    ghost fits_given = { laws.fits-given };

    ghost fits_returned = { λ state size allocation. refl };
}
