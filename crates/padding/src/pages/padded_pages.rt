//! Pages on which each rectangle has padding.
//!
//! Definitions: `Padded`, over those of pages. The clauses stay as they are: callers prove by them.

ghost use Rattle.std.specs.Prelude.{◌≡◌, ◌↔◌, ◌+◌, ◌<◌, false, Err, IfOk, IfErr, IfSome, IfNone, OnOk, OnErr, IsErr, MatchOption, length};
ghost use Rattle.padding.specs.Padding.{HasSize, padded};
ghost use Rattle.atlas_pages.specs.Choosing.{IsRefusedByAll};
ghost use Rattle.padding.specs.Pages.Padded.{KeepsPadding, PlacesPadded, trimmed_allocations, trimmed_on};
ghost use Rattle.atlas_pages.specs.Allocated.{NeedsMemory, cleared, is_allocated_on, returned_on, shrunk, with_most};
ghost use Rattle.atlas_pages.specs.Pages as model;
ghost use Rattle.atlas_pages.specs.Pages.{ArePageOptions, no_pages};

use crate::Padding;
use crate::pages::listing::{PaddedIter, trimmed_paged};
use atlas_pages::{AtlasPages, FewerPages, PageOptions, PagedAllocation, PagesFault};
use etagere_shelves::{AllocId, Rectangle, Size, UnknownId};
use std::alloc::{AllocError, Global};
use std::marker::Model;

/// Pages on which so many pixels stay free on each side of each rectangle. A size is asked for with them, and its
/// rectangle is given back without them.
///
/// ```text
/// let mut pages = PaddedPages::new(alloc, &options, Padding::around(1))?;
/// let paged = pages.allocate(size2(9, 14))?;        // Some: the rectangle begins at (1, 1)
/// ```
#[derive(Drop)]
pub struct PaddedPages {
    pages: AtlasPages,
    padding: Padding,
}

impl Model for PaddedPages {
    ghost use Rattle.padding.specs.Pages.Padded.{PaddedState};

    ghost Value = { PaddedState };

    ghost use Rattle.padding.specs.Pages.Private.Kept.{IsKeptPadded, padded_in};

    ghost view = { padded_in };

    ghost invariant = { IsKeptPadded };
}

impl PaddedPages {
    /// Pages of these options and padding, of which none is open yet.
    ///
    /// Returns the first fault of the options. Takes no memory, and constant time.
    pub fn new(
        alloc: Global,
        options: &PageOptions,
        padding: Padding,
    ) -> Result<PaddedPages, PagesFault>
        ensures ok { IfOk result
            (λ made. made ≡ record { padding = padding; pages = no_pages options.now }) }
        ensures accepted { OnOk result (ArePageOptions options.now) }
        ensures fault { MatchOption (model.pages_fault options.now)
            (OnErr result (⊥))
            (λ fault. result ≡ Err fault) }
        ensures promises { IfOk result KeepsPadding }
    {
        match AtlasPages::new(alloc, options) {
            Ok(pages) => Ok(PaddedPages { pages, padding }),
            Err(fault) => Err(fault),
        }
    }

    /// The same pages, of whose rectangles so many pixels on each side are padding from now on: pages that were restored,
    /// of which the rectangles were asked for with this padding. Another rectangle that is smaller than its padding has a
    /// corner beyond the opposite one when it is trimmed.
    ///
    /// Takes no memory, and constant time.
    pub fn from_pages(pages: AtlasPages, padding: Padding) -> PaddedPages
        ensures made { result ≡ record { padding = padding; pages = pages } }
        ensures promises { KeepsPadding result }
    {
        // A call tells what pages keep, which the padded rectangles lie inside and apart by.
        let _ = pages.page_count();
        PaddedPages { pages, padding }
    }

    /// Gives a rectangle that is at least as large as the size in pixels, and its page; none exactly where the size with
    /// its padding has no place on pages. So it is where a side is below 1, or with its padding above 65535: then
    /// `Padding::padded` has the reason.
    ///
    /// With its padding, the rectangle lies inside its page, and shares no pixel with any other and its padding. `Err`
    /// and costs are those of `AtlasPages::allocate`.
    pub fn allocate(&mut self, size: Size) -> Result<Option<PagedAllocation>, AllocError>
        ensures placed { IfOk result
            (λ answer. IfSome answer (λ paged. PlacesPadded self.old size paged self.new)) }
        ensures large { IfOk result
            (λ answer. IfSome answer (λ paged. HasSize size paged.allocation.rectangle)) }
        ensures refused { IfOk result
            (λ answer. IfNone answer (IsRefusedByAll self.old.pages (padded self.old.padding size))) }
        ensures none { IfOk result (λ answer. IfNone answer (self.new ≡ self.old)) }
        ensures err { OnErr result (self.new ≡ self.old) }
        ensures memory { OnErr result (NeedsMemory self.old.pages (padded self.old.padding size)) }
        ensures promises { KeepsPadding self.new }
    {
        let Ok(asked) = self.padding.padded(size) else {
            return Ok(None);
        };
        let Some(paged) = self.pages.allocate(asked)? else {
            return Ok(None);
        };
        Ok(Some(trimmed_paged(self.padding, &paged)))
    }

    /// Takes back the rectangle that is allocated on a page under an id, with its padding.
    ///
    /// `Err` comes exactly where the page isn't open, or nothing is allocated there under the id; then nothing changes.
    /// Takes no memory. Costs what `AtlasAllocator::deallocate` does.
    pub fn deallocate(&mut self, page: u32, id: AllocId) -> Result<(), UnknownId>
        ensures ok { OnOk result
            (self.new ≡ record self.old { pages = returned_on self.old.pages page id }) }
        ensures unknown { IsErr result ↔ (is_allocated_on self.old.pages page id ≡ false) }
        ensures err { OnErr result (self.new ≡ self.old) }
        ensures promises { KeepsPadding self.new }
    {
        self.pages.deallocate(page, id)
    }

    /// The rectangle that is allocated on a page under an id, as it was given; none exactly where the page isn't open or
    /// nothing is.
    ///
    /// Takes no memory, and constant time.
    pub fn get(&self, page: u32, id: AllocId) -> Option<Rectangle>
        ensures { result ≡ trimmed_on self.now page id }
    {
        let rectangle = self.pages.get(page, id)?;
        Some(self.padding.trimmed(rectangle))
    }

    /// Everything that is allocated, each once and without its padding: page after page, on each by rising index, and then
    /// none for ever.
    ///
    /// Takes no memory. All steps together take time linear in the numbers of pages and of their records.
    pub fn iter(&self) -> PaddedIter<'_>
        ensures listed { result ≡ trimmed_allocations self.now }
        ensures promises { KeepsPadding self.now }
    {
        PaddedIter::new(self.pages.iter(), self.padding)
    }

    /// How many pixels stay free on each side. Takes constant time.
    pub fn padding(&self) -> Padding
        ensures { result ≡ self.now.padding }
    {
        self.padding
    }

    /// The pages, on which each rectangle has its padding, for their space, their pictures and what is saved of them.
    /// Takes constant time.
    pub fn pages(&self) -> &AtlasPages
        ensures pages { result.now ≡ self.now.pages }
        ensures promises { KeepsPadding self.now }
    {
        &self.pages
    }

    /// Takes everything back at once: each open page is as new, and stays open.
    ///
    /// Takes no memory. Goes through the columns of each page.
    pub fn clear(&mut self)
        ensures cleared { self.new ≡ record self.old { pages = cleared self.old.pages } }
        ensures promises { KeepsPadding self.new }
    {
        self.pages.clear();
    }

    /// Sets how many pages there may be to this number, which is at least what it was. No page is opened.
    ///
    /// `Err` comes exactly where there may be more already; then nothing changes. Takes no memory, and constant time.
    pub fn grow(&mut self, most_pages: u32) -> Result<(), FewerPages>
        ensures ok { OnOk result
            (self.new ≡ record self.old { pages = with_most self.old.pages most_pages }) }
        ensures fewer { IsErr result ↔ (most_pages < self.old.pages.options.most_pages) }
        ensures err { OnErr result (self.new ≡ self.old) }
        ensures promises { KeepsPadding self.new }
    {
        self.pages.grow(most_pages)
    }

    /// Closes the empty pages at the end, up to the last on which something is allocated, and gives back their memory.
    ///
    /// Answers how many were closed. Takes no memory. Goes through the pages.
    pub fn shrink(&mut self) -> u32
        ensures shrunk { self.new ≡ record self.old { pages = shrunk self.old.pages } }
        ensures count { result + length self.new.pages.pages ≡ length self.old.pages.pages }
        ensures promises { KeepsPadding self.new }
    {
        self.pages.shrink()
    }
}

impl<'a> IntoIterator for &'a PaddedPages {
    type Item = PagedAllocation;

    type IntoIter = PaddedIter<'a>;

    ghost into_iter_gives = { λ pages iter. iter ≡ trimmed_allocations pages.now };

    fn into_iter(self) -> PaddedIter<'a> {
        self.iter()
    }
}
