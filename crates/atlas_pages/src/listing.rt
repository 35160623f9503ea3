//! Everything that is allocated on pages, page after page.
//!
//! Definition: `Listing`. Contracts see an `Iter` as the list of what is still to come.

ghost use Rattle.std.specs.Prelude.{◌≡◌, ◌<◌, ◌^◌, length};
ghost use Rattle.std.specs.Iterator.{YieldsFirst, item_count};
ghost use Rattle.atlas_pages.specs.Listing as spec;
ghost use Rattle.atlas_pages.specs.Private.Listed.{left_of, left_on};

use crate::paged_allocation::PagedAllocation;
use etagere_shelves::{self, AtlasAllocator};
use std::iter::FusedIterator;
use std::marker::Model;

/// What is allocated on pages, each once, by rising page and on each page by rising index. After the last comes none, for
/// ever.
///
/// All steps together take time linear in the numbers of pages and of their records.
#[derive(Drop)]
pub struct Iter<'a> {
    pages: &'a [AtlasAllocator],
    next: u32,
    begun: Option<OnPage<'a>>,
}

impl<'a> Model for Iter<'a> {
    ghost use Rattle.std.specs.Prelude.{List};
    ghost use Rattle.atlas_pages.specs.declared.paged_allocation.PagedAllocation.{PagedAllocation};

    ghost Value = { List PagedAllocation };

    ghost use Rattle.atlas_pages.specs.Private.Listed.{IsListed, listed_in};

    ghost view = { listed_in };

    ghost invariant = { IsListed };
}

impl<'a> Iter<'a> {
    /// Everything that is allocated on these pages.
    pub(crate) fn new(pages: &'a [AtlasAllocator]) -> Iter<'a>
        requires { length pages.now < 2 ^ 32 }
        ensures { result ≡ spec.allocations_from 0 pages.now }
    {
        Iter {
            pages,
            next: 0,
            begun: None,
        }
    }
}

impl<'a> Iterator for Iter<'a> {
    type Item = PagedAllocation;

    ghost next_gives = { YieldsFirst (λ rest. rest) };

    ghost remaining = { item_count (λ rest. rest) };

    fn next(&mut self) -> Option<PagedAllocation> {
        for page in self.next..self.pages.len() as u32 {
            if let Some(paged) = next_on(&mut self.begun) {
                return Some(paged);
            }
            self.next = page + 1;
            self.begun = Some(OnPage {
                page,
                allocations: self.pages[page as usize].iter(),
            });
        }
        next_on(&mut self.begun)
    }
}

impl<'a> FusedIterator for Iter<'a> {}

/// What is allocated on one page.
#[derive(Drop)]
struct OnPage<'a> {
    page: u32,
    allocations: etagere_shelves::Iter<'a>,
}

impl<'a> Iterator for OnPage<'a> {
    type Item = PagedAllocation;

    ghost next_gives = { YieldsFirst left_on };

    ghost remaining = { item_count left_on };

    fn next(&mut self) -> Option<PagedAllocation> {
        let allocation = self.allocations.next()?;
        Some(PagedAllocation {
            page: self.page,
            allocation,
        })
    }
}

/// What comes next on the page that was begun last.
fn next_on(begun: &mut Option<OnPage<'_>>) -> Option<PagedAllocation>
    ensures { YieldsFirst left_of begun.old result begun.new }
{
    match begun {
        Some(page) => page.next(),
        None => None,
    }
}
