//! The public calls of pages.
//!
//! Definitions: `Pages` for what the clauses see, `Choosing` and `Allocated` for what becomes of it, `Promises` for what
//! pages keep. The clauses stay as they are: callers prove by them.

ghost use Rattle.std.specs.Prelude.{◌≡◌, ◌↔◌, ◌+◌, ◌<◌, [], false, true, Err, None, Some, IfOk, IfErr, IfSome, IfNone, OnOk, OnErr, IsErr, IsTrue, IsOkAnd, MatchOption, length, slice_get};
ghost use Rattle.std.specs.Io.KnownBytes.{Appends};
ghost use Rattle.std.specs.List.{AllByRecursion};
ghost use Rattle.std.specs.Option.{option_copied};
ghost use Rattle.etagere_base.specs.Rectangles.{IsLarge};
ghost use Rattle.pictures.specs.Sending.{AppendsBeginning};
ghost use Rattle.shelf_model.specs.Places.{allocations};
ghost use Rattle.shelf_model.specs.State.{AtlasState};
ghost use Rattle.atlas_pages.specs.Allocated as allocated;
ghost use Rattle.atlas_pages.specs.Allocated.{NeedsMemory, Places, is_allocated_on, returned_on, shrunk, with_most};
ghost use Rattle.atlas_pages.specs.Choosing as choosing;
ghost use Rattle.atlas_pages.specs.Choosing.{IsRefusedByAll};
ghost use Rattle.atlas_pages.specs.Listing.{listed_allocations};
ghost use Rattle.atlas_pages.specs.Pages as model;
ghost use Rattle.atlas_pages.specs.Pages.{ArePageOptions, no_pages, page_frame};
ghost use Rattle.atlas_pages.specs.Picture.{pages_svg};
ghost use Rattle.atlas_pages.specs.Promises.{KeepsPagesPromises};
ghost use Rattle.atlas_pages.specs.Saved.{ArePagesBroken, PagesStandFor};

use crate::choosing::allocate_open;
use crate::faults::{FewerPages, PagesFault, PagesRestoreFault};
use crate::listing::Iter;
use crate::open_pages::{self, clear_each, drop_empty_end, open_with, return_on};
use crate::options::{PageOptions, pages_fault};
use crate::paged_allocation::PagedAllocation;
use crate::picture::send_pages;
use crate::saving::{PagesSnapshot, restored_pages, saved_pages};
use etagere_base::atlas_frame;
use etagere_shelves::{AllocId, AtlasAllocator, Rectangle, Size, UnknownId};
use shelf_search::choosing::fits_when_empty;
use std::alloc::{AllocError, Global};
use std::io::{self, Write};
use std::marker::Model;

/// Several atlases of one size and options, the pages: a size gets a place on one that has room, and where none has, a
/// page is opened, up to the most that there may be.
///
/// ```text
/// let mut pages = AtlasPages::new(alloc, &options)?;
/// let paged = pages.allocate(size2(9, 14))?;        // Some: page 0, and a rectangle with an id
/// ```
#[derive(Drop)]
pub struct AtlasPages {
    options: PageOptions,
    pages: Vec<AtlasAllocator>,
    alloc: Global,
}

impl Model for AtlasPages {
    ghost use Rattle.atlas_pages.specs.Pages.{PagesState};

    ghost Value = { PagesState };

    ghost use Rattle.atlas_pages.specs.Private.Kept.{IsKept, state_in};

    ghost view = { state_in };

    ghost invariant = { IsKept };
}

impl AtlasPages {
    /// Pages of these options, of which none is open yet.
    ///
    /// Returns the first fault of the options. Takes no memory, and constant time.
    pub fn new(alloc: Global, options: &PageOptions) -> Result<AtlasPages, PagesFault>
        ensures ok { IfOk result (λ pages. pages ≡ no_pages options.now) }
        ensures accepted { OnOk result (ArePageOptions options.now) }
        ensures fault { MatchOption (model.pages_fault options.now)
            (OnErr result (⊥))
            (λ fault. result ≡ Err fault) }
        ensures promises { IfOk result KeepsPagesPromises }
    {
        if let Some(fault) = pages_fault(options) {
            return Err(fault);
        }
        Ok(AtlasPages {
            options: *options,
            pages: Vec::new(alloc),
            alloc,
        })
    }

    /// Gives a rectangle that is at least as large as the size in pixels, and its page; none where no page has room and
    /// none may be opened, or an empty one has no room either.
    ///
    /// Of the pages that have a place the options choose one. Where none has, a page is opened behind the others.
    /// `Err` comes only where the size has a place, but the page has to be opened or split for it, and there was no
    /// memory. After an `Err` or none nothing has changed. Takes the memory of an allocation, and for a page that is
    /// opened that of an atlas and of its entry.
    ///
    /// By first fit the pages are asked in turn up to the first that has a place. By fullest first each is asked that is
    /// fuller than the best so far, and goes through its shelves for that.
    pub fn allocate(&mut self, size: Size) -> Result<Option<PagedAllocation>, AllocError>
        ensures placed { IfOk result
            (λ answer. IfSome answer (λ paged. Places self.old size paged self.new)) }
        ensures large { IfOk result (λ answer. IfSome answer
            (λ paged. IsLarge (page_frame self.old.options) size paged.allocation.rectangle)) }
        ensures refused { IfOk result (λ answer. IfNone answer (IsRefusedByAll self.old size)) }
        ensures none { IfOk result (λ answer. IfNone answer (self.new ≡ self.old)) }
        ensures err { OnErr result (self.new ≡ self.old) }
        ensures memory { OnErr result (NeedsMemory self.old size) }
        ensures promises { KeepsPagesPromises self.new }
    {
        if let Some(paged) = allocate_open(self.options.choice, &mut self.pages, size)? {
            return Ok(Some(paged));
        }
        if !self.may_open(size) {
            return Ok(None);
        }
        let paged = open_with(self.alloc, &self.options, &mut self.pages, size)?;
        Ok(Some(paged))
    }

    /// Whether a page may be opened for a size.
    fn may_open(&self, size: Size) -> bool
        ensures { result ≡ choosing.may_open self.now size }
    {
        let frame = atlas_frame(self.options.size, &self.options.atlas);
        self.page_count() < self.options.most_pages && fits_when_empty(&frame, size)
    }

    /// Takes back the rectangle that is allocated on a page under an id. The page stays open.
    ///
    /// `Err` comes exactly where the page isn't open, or nothing is allocated there under the id; then nothing changes.
    /// Takes no memory. Costs what `AtlasAllocator::deallocate` does.
    pub fn deallocate(&mut self, page: u32, id: AllocId) -> Result<(), UnknownId>
        ensures ok { OnOk result (self.new ≡ returned_on self.old page id) }
        ensures unknown { IsErr result ↔ (is_allocated_on self.old page id ≡ false) }
        ensures err { OnErr result (self.new ≡ self.old) }
        ensures promises { KeepsPagesPromises self.new }
    {
        return_on(&mut self.pages, page, id)
    }

    /// The rectangle that is allocated on a page under an id, as it was given; none exactly where the page isn't open or
    /// nothing is.
    ///
    /// Takes no memory, and constant time.
    pub fn get(&self, page: u32, id: AllocId) -> Option<Rectangle>
        ensures { result ≡ allocated.rectangle_on self.now page id }
    {
        open_pages::rectangle_on(&self.pages, page, id)
    }

    /// The pages as they are saved: their options, and a snapshot of each.
    ///
    /// The error comes only where there was no memory. Takes memory for a list of the pages and for all their records,
    /// and goes through them.
    pub fn snapshot(&self) -> Result<PagesSnapshot, AllocError>
        ensures { IfOk result (λ snapshot. PagesStandFor snapshot self.now) }
    {
        let pages = saved_pages(self.alloc, &self.pages)?;
        Ok(PagesSnapshot {
            options: self.options,
            pages,
        })
    }

    /// Makes pages from a snapshot, whoever wrote it. Where the snapshot keeps every rule, the pages are in the state for
    /// which it stands.
    ///
    /// Returns a rule that the snapshot breaks; `Memory` only where there was no memory. The snapshot is consumed either
    /// way. Takes memory for a list of the pages, and for each what `AtlasAllocator::restore` does.
    pub fn restore(alloc: Global, snapshot: PagesSnapshot) -> Result<AtlasPages, PagesRestoreFault>
        ensures ok { IfOk result (λ pages. PagesStandFor snapshot pages) }
        ensures fault { IfErr result (ArePagesBroken snapshot) }
        ensures promises { IfOk result KeepsPagesPromises }
    {
        let PagesSnapshot {
            options,
            pages: saved,
        } = snapshot;
        if let Some(fault) = pages_fault(&options) {
            return Err(PagesRestoreFault::Options(fault));
        }
        if saved.len() > options.most_pages as usize {
            return Err(PagesRestoreFault::TooManyPages);
        }
        let pages = restored_pages(alloc, &options, saved)?;
        Ok(AtlasPages {
            options,
            pages,
            alloc,
        })
    }

    /// An open page, for its space, its picture and what is allocated there; none exactly where it isn't open. Takes
    /// constant time.
    pub fn page(&self, page: u32) -> Option<&AtlasAllocator>
        ensures { option_copied result ≡ slice_get self.now.pages page }
    {
        self.pages.get(page as usize)
    }

    /// Everything that is allocated, each once: page after page, on each by rising index, and then none for ever.
    ///
    /// Takes no memory. All steps together take time linear in the numbers of pages and of their records.
    pub fn iter(&self) -> Iter<'_>
        ensures listed { result ≡ listed_allocations self.now }
        ensures promises { KeepsPagesPromises self.now }
    {
        Iter::new(&self.pages)
    }

    /// How many pages are open. Takes constant time.
    pub fn page_count(&self) -> u32
        ensures count { result ≡ length self.now.pages }
        ensures promises { KeepsPagesPromises self.now }
    {
        self.pages.len() as u32
    }

    /// How pages are made, how many there may be, and which of them gets a size. Takes constant time.
    pub fn options(&self) -> PageOptions
        ensures { result ≡ self.now.options }
    {
        self.options
    }

    /// Whether nothing is allocated on any page. Goes through the pages.
    pub fn is_empty(&self) -> bool
        ensures { IsTrue result
            ↔ AllByRecursion (λ (page : AtlasState). allocations page ≡ []) self.now.pages }
    {
        open_pages::are_empty(&self.pages)
    }

    /// Takes everything back at once: each open page is as new, and stays open.
    ///
    /// Takes no memory. Goes through the columns of each page.
    pub fn clear(&mut self)
        ensures cleared { self.new ≡ allocated.cleared self.old }
        ensures promises { KeepsPagesPromises self.new }
    {
        clear_each(&mut self.pages);
    }

    /// Sets how many pages there may be to this number, which is at least what it was. No page is opened.
    ///
    /// `Err` comes exactly where there may be more already; then nothing changes. Takes no memory, and constant time.
    pub fn grow(&mut self, most_pages: u32) -> Result<(), FewerPages>
        ensures ok { OnOk result (self.new ≡ with_most self.old most_pages) }
        ensures fewer { IsErr result ↔ (most_pages < self.old.options.most_pages) }
        ensures err { OnErr result (self.new ≡ self.old) }
        ensures promises { KeepsPagesPromises self.new }
    {
        if most_pages < self.options.most_pages {
            return Err(FewerPages);
        }
        self.options.most_pages = most_pages;
        Ok(())
    }

    /// Closes the empty pages at the end, up to the last on which something is allocated, and gives back their memory.
    /// Pages between others stay open, so numbers stay what they are.
    ///
    /// Answers how many were closed. Takes no memory. Goes through the pages.
    pub fn shrink(&mut self) -> u32
        ensures shrunk { self.new ≡ shrunk self.old }
        ensures count { result + length self.new.pages ≡ length self.old.pages }
        ensures promises { KeepsPagesPromises self.new }
    {
        let before = self.page_count();
        drop_empty_end(&mut self.pages);
        before - self.page_count()
    }

    /// The areas of everything that is allocated, added up, in square pixels. Goes through the pages.
    pub fn allocated_space(&self) -> u64
        ensures space { result ≡ allocated.allocated_space_of self.now }
        ensures promises { KeepsPagesPromises self.now }
    {
        open_pages::allocated_space(&self.pages)
    }

    /// The areas of the open pages less what is allocated, added up, in square pixels. Goes through the pages.
    pub fn free_space(&self) -> u64
        ensures space { result ≡ allocated.free_space_of self.now }
        ensures promises { KeepsPagesPromises self.now }
    {
        open_pages::free_space(&self.pages)
    }

    /// Writes an SVG document that shows the open pages side by side, each as `AtlasAllocator::dump_svg` does, with 16
    /// pixels between two.
    ///
    /// A fault is the writer's, or `WriteZero` where it accepts no byte; then a beginning of the text has gone out. Takes
    /// no memory. Goes through the items of each page once.
    pub fn dump_svg<W: Write>(&self, output: &mut W) -> io::Result<()>
        ensures ok { OnOk result
            (Appends (W.contents output.old) (W.contents output.new) (pages_svg self.now)) }
        ensures err { OnErr result
            (AppendsBeginning (W.contents output.old) (W.contents output.new) (pages_svg self.now)) }
    {
        let frame = atlas_frame(self.options.size, &self.options.atlas);
        send_pages(&frame, &self.pages, output)
    }
}

impl<'a> IntoIterator for &'a AtlasPages {
    type Item = PagedAllocation;

    type IntoIter = Iter<'a>;

    ghost into_iter_gives = { λ pages iter. iter ≡ listed_allocations pages.now };

    fn into_iter(self) -> Iter<'a> {
        self.iter()
    }
}
