//! Everything that is allocated on pages with a padding, without it.
//!
//! Definition: `Padded`. Contracts see a `PaddedIter` as the list of what is still to come.

ghost use Rattle.std.specs.Prelude.{◌≡◌, map};
ghost use Rattle.std.specs.Iterator.{YieldsFirst, item_count};
ghost use Rattle.std.specs.List.{AllByRecursion};
ghost use Rattle.padding.specs.Padding.{IsNear};
ghost use Rattle.atlas_pages.specs.declared.paged_allocation.PagedAllocation as model;
ghost use Rattle.padding.specs.Pages.Padded as spec;

use crate::Padding;
use atlas_pages::{Iter, PagedAllocation};
use etagere_shelves::Allocation;
use std::iter::FusedIterator;
use std::marker::Model;

/// What is allocated on pages, each once and without its padding, by rising page and on each page by rising index. After
/// the last comes none, for ever.
///
/// All steps together take time linear in the numbers of pages and of their records.
#[derive(Drop)]
pub struct PaddedIter<'a> {
    allocations: Iter<'a>,
    padding: Padding,
}

impl<'a> Model for PaddedIter<'a> {
    ghost use Rattle.std.specs.Prelude.{List};
    ghost use Rattle.atlas_pages.specs.declared.paged_allocation.PagedAllocation.{PagedAllocation};

    ghost Value = { List PagedAllocation };

    ghost use Rattle.padding.specs.Pages.Private.Listed.{AreNear, trimmed_in};

    ghost view = { trimmed_in };

    ghost invariant = { AreNear };
}

impl<'a> PaddedIter<'a> {
    /// These places, of which each rectangle has the padding.
    pub(crate) fn new(allocations: Iter<'a>, padding: Padding) -> PaddedIter<'a>
        requires { AllByRecursion (λ (paged : model.PagedAllocation). IsNear paged.allocation.rectangle) allocations }
        ensures { result ≡ map (spec.trimmed_paged padding) allocations.entry }
    {
        PaddedIter {
            allocations,
            padding,
        }
    }
}

impl<'a> Iterator for PaddedIter<'a> {
    type Item = PagedAllocation;

    ghost next_gives = { YieldsFirst (λ rest. rest) };

    ghost remaining = { item_count (λ rest. rest) };

    fn next(&mut self) -> Option<PagedAllocation> {
        let paged = self.allocations.next()?;
        Some(trimmed_paged(self.padding, &paged))
    }
}

impl<'a> FusedIterator for PaddedIter<'a> {}

/// A place without the padding of its rectangle, which is near the origin.
pub(crate) fn trimmed_paged(padding: Padding, paged: &PagedAllocation) -> PagedAllocation
    requires { IsNear paged.now.allocation.rectangle }
    ensures { result ≡ spec.trimmed_paged padding paged.now }
{
    let Allocation { id, rectangle } = paged.allocation;
    PagedAllocation {
        page: paged.page,
        allocation: Allocation {
            id,
            rectangle: padding.trimmed(rectangle),
        },
    }
}
