//! The public calls of a cache over several pages.
//!
//! Definitions: `Paged` for what the clauses see and what becomes of it, over `Held` and `Keyed`. The clauses stay as
//! they are: callers prove by them.

ghost use Rattle.std.specs.Prelude.{◌≡◌, ◌↔◌, [], Err, IfOk, IfErr, IfSome, IsOkAnd, IsErrOf, MatchOption, OnErr, OnOk, length};
ghost use Rattle.std.specs.NonZero.{non_zero_usize_get};
ghost use Rattle.etagere_base.specs.Rectangles.{IsLarge};
ghost use Rattle.atlas_pages.specs.Pages.{ArePageOptions, page_frame, pages_fault};
ghost use Rattle.paged_cache.specs.declared.faults.NewCacheFault.TheVariants as new_faults;
ghost use Rattle.paged_cache.specs.Keyed.{IsNew, allocation_at, used};
ghost use Rattle.paged_cache.specs.Paged.{IsLeft, IsTooLarge, KeepsPagedPromises, PlacesKey, empty_cache, emptied_cache, without_key};

use crate::faults::{NewCacheFault, PlacingFault};
use crate::keyed::{KeyedAllocations, PlacedKey};
use crate::listing::Iter;
use atlas_pages::{AtlasPages, PageOptions, PagedAllocation};
use etagere_shelves::Size;
use std::alloc::Global;
use std::marker::Model;
use std::num::NonZeroUsize;

/// Rectangles on several pages under keys, of which those used least recently are evicted where there are as many as may
/// be, or there is no room and no page may be opened.
///
/// ```text
/// let mut cache = PagedCache::new(alloc, &options, capacity)?;
/// let placed = cache.place(key, size2(9, 14))?;
/// for old in &placed.evicted { .. }       // forget what was drawn there
/// ```
#[derive(Drop)]
pub struct PagedCache {
    kept: KeyedAllocations<AtlasPages>,
}

impl Model for PagedCache {
    ghost use Rattle.paged_cache.specs.Paged.{PagedCacheState};

    ghost Value = { PagedCacheState };

    ghost view = { λ cache. cache.kept };
}

impl PagedCache {
    /// An empty cache of at most `capacity` keys, over pages of these options, of which none is open yet.
    ///
    /// Returns the first fault of the options; `Memory` only where there is no other and no memory. Takes memory for no
    /// page, and none for keys that aren't there yet. Takes constant time.
    pub fn new(
        alloc: Global,
        options: &PageOptions,
        capacity: NonZeroUsize,
    ) -> Result<PagedCache, NewCacheFault>
        ensures ok { IfOk result
            (λ cache. cache ≡ empty_cache options.now (non_zero_usize_get capacity)) }
        ensures accepted { OnOk result (ArePageOptions options.now) }
        ensures fault { IfSome (pages_fault options.now)
            (λ fault. result ≡ Err (new_faults.Pages fault)) }
        ensures memory { IfErr result
            (λ fault. ArePageOptions options.now → fault ≡ new_faults.Memory) }
        ensures promises { IfOk result KeepsPagedPromises }
    {
        let pages = AtlasPages::new(alloc, options).map_err(NewCacheFault::Pages)?;
        let Ok(kept) = KeyedAllocations::new(alloc, capacity, pages) else {
            return Err(NewCacheFault::Memory);
        };
        // A call tells what the keys keep.
        let _ = kept.len();
        Ok(PagedCache { kept })
    }

    /// Gives the place of a key. A key that is there becomes the most recently used; the size isn't looked at, no memory
    /// is taken, and the call can't fail.
    ///
    /// A new key gets a rectangle at least as large as the size in pixels, on the page that `AtlasPages::allocate`
    /// chooses, and becomes the most recently used. Where there are `capacity` keys, or no page has room and none may be
    /// opened, the least recently used keys are evicted first, no more than needed; they are listed in `evicted`.
    ///
    /// `TooLarge` comes exactly where the key is new and an empty page has no room for the size; then nothing changes.
    /// `Memory` comes only for a new key, with the keys that were evicted before memory ran out: these are gone, and the
    /// others stand; a page that was opened for the key stays open.
    ///
    /// Takes memory for the entry, for what the allocation takes, and for the list of the evicted keys. Asks the pages
    /// once, and once more for each key that is evicted.
    pub fn place(
        &mut self,
        key: u64,
        size: Size,
    ) -> Result<PlacedKey<PagedAllocation>, PlacingFault>
        ensures found { IfSome (allocation_at self.old key)
            (λ paged. IsOkAnd result
            (λ placed. (placed.allocation ≡ paged) × (placed.evicted.items ≡ []))
            × (self.new ≡ used self.old key)) }
        ensures placed { IsNew self.old key → IfOk result
            (λ placed. PlacesKey self.old key size placed.allocation placed.evicted.items self.new) }
        ensures large { IsNew self.old key → IfOk result
            (λ placed. IsLarge (page_frame self.old.allocator.options) size placed.allocation.allocation.rectangle) }
        ensures too_large { IsErrOf result PlacingFault.TooLarge
            ↔ (IsNew self.old key × IsTooLarge self.old size) }
        ensures left { IfErr result (λ fault. IsLeft self.old size fault self.new) }
        ensures promises { KeepsPagedPromises self.new }
    {
        self.kept.place(key, size)
    }

    /// The place of a key, which becomes the most recently used; none where the key isn't there, and then nothing
    /// changes.
    ///
    /// Takes no memory, and constant time.
    pub fn get(&mut self, key: u64) -> Option<PagedAllocation>
        ensures value { result ≡ allocation_at self.old key }
        ensures used { self.new ≡ used self.old key }
        ensures promises { KeepsPagedPromises self.new }
    {
        self.kept.look(key)
    }

    /// The place of a key; none where the key isn't there. Nothing changes: what is only looked at so isn't used.
    ///
    /// Takes no memory, and constant time.
    pub fn peek(&self, key: u64) -> Option<PagedAllocation>
        ensures { result ≡ allocation_at self.now key }
    {
        self.kept.peek(key)
    }

    /// Removes a key, and returns the place that it had; none where the key isn't there, and then nothing changes. Its
    /// page stays open.
    ///
    /// Takes no memory. Costs what `AtlasPages::deallocate` does.
    pub fn remove(&mut self, key: u64) -> Option<PagedAllocation>
        ensures value { result ≡ allocation_at self.old key }
        ensures removed { self.new ≡ without_key self.old key }
        ensures promises { KeepsPagedPromises self.new }
    {
        self.kept.remove(key)
    }

    /// Removes all keys: each open page is as new, and stays open.
    ///
    /// Takes no memory. Goes through the keys, and the columns of each page.
    pub fn clear(&mut self)
        ensures cleared { self.new ≡ emptied_cache self.old }
        ensures promises { KeepsPagedPromises self.new }
    {
        self.kept.clear();
    }

    /// The keys with their places, from the most to the least recently used, and then none for ever. Nothing changes.
    ///
    /// Takes no memory. A step takes constant time.
    pub fn iter(&self) -> Iter<'_>
        ensures { result ≡ self.now.entries }
    {
        Iter::new(self.kept.iter())
    }

    /// How many keys there are. Takes constant time.
    pub fn len(&self) -> usize
        ensures len { result ≡ length self.now.entries }
        ensures promises { KeepsPagedPromises self.now }
    {
        self.kept.len()
    }

    /// How many keys there may be. Takes constant time.
    pub fn capacity(&self) -> NonZeroUsize
        ensures { non_zero_usize_get result ≡ self.now.capacity }
    {
        self.kept.capacity()
    }

    /// The pages, for their space, their pictures and how many are open. Takes constant time.
    pub fn pages(&self) -> &AtlasPages
        ensures { result.now ≡ self.now.allocator }
    {
        self.kept.allocator()
    }
}

impl<'a> IntoIterator for &'a PagedCache {
    type Item = (u64, PagedAllocation);

    type IntoIter = Iter<'a>;

    ghost into_iter_gives = { λ cache iter. iter ≡ cache.now.entries };

    fn into_iter(self) -> Iter<'a> {
        self.iter()
    }
}
