//! The keys of a cache with their places, one by one, from the most to the least recently used.
//!
//! Contracts see an `Iter` as the list of what is still to come.

ghost use Rattle.std.specs.Prelude.{◌≡◌};
ghost use Rattle.std.specs.Iterator.{YieldsFirst, item_count};

use atlas_pages::PagedAllocation;
use std::iter::FusedIterator;
use std::marker::Model;

/// The keys of a cache with their places, the most recently used first. After the last comes none, for ever.
///
/// A step takes constant time.
#[derive(Drop)]
pub struct Iter<'a> {
    entries: lru::Iter<'a, u64, PagedAllocation>,
}

impl<'a> Model for Iter<'a> {
    ghost use Rattle.std.specs.Prelude.{ℕ, List};
    ghost use Rattle.atlas_pages.specs.declared.paged_allocation.PagedAllocation.{PagedAllocation};

    ghost Value = { List (ℕ × PagedAllocation) };

    ghost view = { λ iter. iter.entries };
}

impl<'a> Iter<'a> {
    /// These entries, the most recently used first.
    pub(crate) fn new(entries: lru::Iter<'a, u64, PagedAllocation>) -> Iter<'a>
        ensures { result ≡ entries.entry }
    {
        Iter { entries }
    }
}

impl<'a> Iterator for Iter<'a> {
    type Item = (u64, PagedAllocation);

    ghost next_gives = { YieldsFirst (λ rest. rest) };

    ghost remaining = { item_count (λ rest. rest) };

    fn next(&mut self) -> Option<(u64, PagedAllocation)> {
        let (key, paged) = self.entries.next()?;
        Some((*key, *paged))
    }
}

impl<'a> FusedIterator for Iter<'a> {}
