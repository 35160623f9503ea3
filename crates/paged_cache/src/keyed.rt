//! Keys with their allocations, and what allocates them: the two change together.
//!
//! Definitions: `Keyed`.

ghost use Rattle.std.specs.Prelude.{◌≡◌, ◌↔◌, ◌<◌, [], ◌∷◌, None, nat_eq, option_map, is_some, length, IfOk, IfErr, IfSome, IfNone, IsOkAnd, IsErrOf, OnOk, OnErr, true, false};
ghost use Rattle.std.specs.Map.{lookup};
ghost use Rattle.std.specs.NonZero.{non_zero_usize_get};
ghost use Rattle.lru.specs.LruCache as lru;
ghost use Rattle.paged_cache.specs.Keyed as spec;
ghost use Rattle.paged_cache.specs.Keyed.{Enters, IsKeyed, IsLeft, IsNew, IsUndone, Places, RanOut, has_room};

use crate::allocating::Allocates;
use crate::faults::PlacingFault;
use etagere_base::Size;
use lru::LruCache;
use std::alloc::{AllocError, Global};
use std::marker::Model;
use std::num::NonZeroUsize;

/// Where a key was placed.
#[derive(Debug, Drop, PartialEq)]
pub struct PlacedKey<P> {
    /// The allocation of the key.
    pub allocation: P,
    /// The keys that were evicted for it, the least recently used first.
    pub evicted: Vec<u64>,
}

/// Keys with their allocations, the most recently used first, and what allocates them.
#[derive(Drop)]
pub struct KeyedAllocations<A: Allocates> {
    entries: LruCache<u64, A::Allocation>,
    allocator: A,
    alloc: Global,
}

impl<A: Allocates> Model for KeyedAllocations<A> {
    ghost use Rattle.paged_cache.specs.Keyed.{KeyedState, IsKeyed};

    ghost Value = { KeyedState A A.Allocation };

    ghost view = { λ kept. record {
      entries = kept.entries.entries;
      capacity = kept.entries.cap;
      allocator = kept.allocator;
    } };

    ghost invariant = { λ kept. IsKeyed A.keeps A.are_held (record {
      entries = kept.entries.entries;
      capacity = kept.entries.cap;
      allocator = kept.allocator;
    }) };
}

impl<A: Allocates> KeyedAllocations<A> {
    /// No keys, of which there may be so many, with something that allocates sizes and has allocated none.
    ///
    /// The error comes only where there was no memory. Takes none for keys that aren't there yet.
    pub fn new(
        alloc: Global,
        capacity: NonZeroUsize,
        allocator: A,
    ) -> Result<KeyedAllocations<A>, AllocError>
        requires promises { A.keeps allocator }
        requires none { A.are_held allocator [] }
        ensures { IfOk result (λ kept. kept ≡ spec.no_keys allocator (non_zero_usize_get capacity)) }
    {
        let entries = LruCache::sparse(alloc, capacity)?;
        Ok(KeyedAllocations {
            entries,
            allocator,
            alloc,
        })
    }

    /// How many keys there are.
    pub fn len(&self) -> usize
        ensures len { result ≡ length self.now.entries }
        ensures promises { IsKeyed A.keeps A.are_held self.now }
    {
        self.entries.len()
    }

    /// How many keys there may be.
    pub fn capacity(&self) -> NonZeroUsize
        ensures { non_zero_usize_get result ≡ self.now.capacity }
    {
        self.entries.cap()
    }

    /// What allocates the sizes.
    pub fn allocator(&self) -> &A
        ensures allocator { result.now ≡ self.now.allocator }
    {
        &self.allocator
    }

    /// The allocation of a key; none where it isn't there. The order of use stays.
    pub fn peek(&self, key: u64) -> Option<A::Allocation>
        ensures { result ≡ spec.allocation_at self.now key }
    {
        let Some(allocation) = self.entries.peek(&key) else {
            return None;
        };
        Some(*allocation)
    }

    /// The entries, the most recently used first.
    pub fn iter(&self) -> lru::Iter<'_, u64, A::Allocation>
        ensures { result ≡ self.now.entries }
    {
        self.entries.iter()
    }

    /// The allocation of a key, which becomes the most recently used; none where it isn't there.
    pub fn look(&mut self, key: u64) -> Option<A::Allocation>
        ensures value { result ≡ spec.allocation_at self.old key }
        ensures used { self.new ≡ spec.used self.old key }
        ensures promises { IsKeyed A.keeps A.are_held self.new }
    {
        found(&mut self.entries, key)
    }

    /// Takes a key out, and answers the allocation that it had; none where it isn't there.
    pub fn remove(&mut self, key: u64) -> Option<A::Allocation>
        ensures value { result ≡ spec.allocation_at self.old key }
        ensures removed { self.new ≡ spec.without_key A.returned self.old key }
        ensures promises { IsKeyed A.keeps A.are_held self.new }
    {
        let Some(allocation) = self.entries.pop(&key) else {
            return None;
        };
        self.allocator.take_back(allocation);
        Some(allocation)
    }

    /// Drops everything.
    pub fn clear(&mut self)
        ensures cleared { self.new ≡ spec.no_keys (A.cleared self.old.allocator) self.old.capacity }
        ensures promises { IsKeyed A.keeps A.are_held self.new }
    {
        self.entries.clear();
        self.allocator.clear();
    }

    /// Drops the least recently used entry, and answers its key; none where there is no entry.
    fn drop_last(&mut self) -> Option<u64>
        ensures key { result ≡ option_map (λ entry. entry.0) (lru.last_entry self.old.entries) }
        ensures dropped { self.new ≡ spec.without_last A.returned self.old }
        ensures promises { IsKeyed A.keeps A.are_held self.new }
    {
        let (key, allocation) = self.entries.pop_lru()?;
        self.allocator.take_back(allocation);
        Some(key)
    }

    /// Puts a new key in front, if there is room for one entry more and its size has a place.
    fn enter(&mut self, key: u64, size: Size) -> Result<Option<A::Allocation>, AllocError>
        requires { IsNew self.old key }
        ensures entered { IfOk result
            (λ answer. IfSome answer (λ allocation. Enters A.gives self.old key size allocation self.new)) }
        ensures room { IfOk result (λ answer. is_some answer ≡ has_room A.has_place self.old size) }
        ensures none { IfOk result (λ answer. IfNone answer (self.new ≡ self.old)) }
        ensures err_room { OnErr result (has_room A.has_place self.old size ≡ true) }
        ensures err { OnErr result (IsUndone A.returned A.gives self.old size self.new) }
        ensures promises { IsKeyed A.keeps A.are_held self.new }
    {
        if self.entries.len() == self.entries.cap().get() {
            return Ok(None);
        }
        let Some(allocation) = self.allocator.give(size)? else {
            return Ok(None);
        };
        match put_first(&mut self.entries, key, allocation) {
            Ok(()) => Ok(Some(allocation)),
            Err(refused) => {
                self.allocator.take_back(allocation);
                Err(refused)
            }
        }
    }

    /// Gives the allocation of a key. A key that is there becomes the most recently used; the size isn't looked at, no
    /// memory is taken, and the call can't fail. For a new key, which becomes the most recently used, the size is
    /// allocated; where there is no room, the least recently used keys are evicted first, no more than needed.
    ///
    /// `TooLarge` comes exactly where the key is new and the size would have no place where nothing is allocated; then
    /// nothing changes. `Memory` comes only for a new key, with the keys that were evicted before memory ran out: these
    /// are gone, and the others stand.
    pub fn place(&mut self, key: u64, size: Size) -> Result<PlacedKey<A::Allocation>, PlacingFault>
        ensures found { IfSome (spec.allocation_at self.old key)
            (λ allocation. IsOkAnd result
            (λ placed. (placed.allocation ≡ allocation) × (placed.evicted.items ≡ []))
            × (self.new ≡ spec.used self.old key)) }
        ensures placed { IsNew self.old key → IfOk result
            (λ placed. Places A.returned A.has_place A.gives
            self.old key size placed.allocation placed.evicted.items self.new) }
        ensures too_large { IsErrOf result PlacingFault.TooLarge
            ↔ (IsNew self.old key × (A.fits self.old.allocator size ≡ false)) }
        ensures left { IfErr result
            (λ fault. IsLeft A.returned A.has_place A.gives self.old size fault self.new) }
        ensures promises { IsKeyed A.keeps A.are_held self.new }
    {
        let mut evicted = Vec::new(self.alloc);
        if let Some(allocation) = self.look(key) {
            return Ok(PlacedKey {
                allocation,
                evicted,
            });
        }
        if !self.allocator.fits_ever(size) {
            return Err(PlacingFault::TooLarge);
        }
        match self.place_new(key, size, &mut evicted) {
            Ok(allocation) => Ok(PlacedKey {
                allocation,
                evicted,
            }),
            Err(_) => Err(PlacingFault::Memory(evicted)),
        }
    }

    /// Puts a new key in front. Where there is no room, entries are dropped before, the least recently used first, no
    /// more than needed, and their keys listed in that order; for each there is room before it goes.
    fn place_new(
        &mut self,
        key: u64,
        size: Size,
        evicted: &mut Vec<u64>,
    ) -> Result<A::Allocation, AllocError>
        requires new { IsNew self.old key }
        requires fits { A.fits self.old.allocator size ≡ true }
        requires none { evicted.old.items ≡ [] }
        requires promises { IsKeyed A.keeps A.are_held self.old }
        ensures ok { IfOk result (λ allocation. Places A.returned A.has_place A.gives
            self.old key size allocation evicted.new.items self.new) }
        ensures err { OnErr result (RanOut A.returned A.has_place A.gives
            self.old size evicted.new.items self.new) }
        ensures promises { IsKeyed A.keeps A.are_held self.new }
    {
        if let Some(allocation) = self.enter(key, size)? {
            return Ok(allocation);
        }
        self.evict_for(key, size, evicted)
    }

    /// Puts a new key in front, after as many entries are dropped as its size needs.
    fn evict_for(
        &mut self,
        key: u64,
        size: Size,
        evicted: &mut Vec<u64>,
    ) -> Result<A::Allocation, AllocError>
        requires new { IsNew self.old key }
        requires fits { A.fits self.old.allocator size ≡ true }
        requires none { evicted.old.items ≡ [] }
        requires full { has_room A.has_place self.old size ≡ false }
        requires promises { IsKeyed A.keeps A.are_held self.old }
        ensures ok { IfOk result (λ allocation. Places A.returned A.has_place A.gives
            self.old key size allocation evicted.new.items self.new) }
        ensures err { OnErr result (RanOut A.returned A.has_place A.gives
            self.old size evicted.new.items self.new) }
        ensures promises { IsKeyed A.keeps A.are_held self.new }
    {
        evicted.reserve(1)?;
        while let Some(dropped) = self.drop_last() {
            evicted.push(dropped).unwrap();
            if let Some(allocation) = self.enter(key, size)? {
                return Ok(allocation);
            }
            evicted.reserve(1)?;
        }
        unreachable!()
    }
}

/// The allocation of a key, which goes to the front; none where it isn't there.
fn found<P: Copy>(entries: &mut LruCache<u64, P>, key: u64) -> Option<P>
    ensures value { result ≡ lookup (nat_eq key) entries.old.entries }
    ensures entries { entries.new ≡ lru.lru_cache (lru.promoted (nat_eq key) entries.old.entries) entries.old.cap }
{
    let allocation = entries.get(&key)?;
    Some(*allocation)
}

/// Puts a new key in front of entries that have room for it. After an `Err` nothing has changed.
fn put_first<P: Copy>(
    entries: &mut LruCache<u64, P>,
    key: u64,
    allocation: P,
) -> Result<(), AllocError>
    requires new { lookup (nat_eq key) entries.old.entries ≡ None }
    requires room { length entries.old.entries < entries.old.cap }
    ensures ok { OnOk result (entries.new
        ≡ lru.lru_cache ((key, allocation) ∷ entries.old.entries) entries.old.cap) }
    ensures err { OnErr result (entries.new ≡ entries.old) }
{
    entries.put(key, allocation)?;
    Ok(())
}
