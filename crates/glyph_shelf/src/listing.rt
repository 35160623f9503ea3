//! The keys of a cache with their rectangles, one by one, from the most to the least recently used.
//!
//! Definition: `Cache`, its `listed`. Contracts see an `Iter` as the list of what is still to come.

ghost use Rattle.std.specs.Prelude.{◌≡◌};
ghost use Rattle.std.specs.Iterator.{YieldsFirst, YieldsLast, item_count};
ghost use Rattle.glyph_shelf.specs.UsedKeys.Private.Stamps.{unstamped};
ghost use Rattle.glyph_shelf.specs.Cache.{with_rectangles};

use crate::used_keys::Entry;
use etagere_shelves::Rectangle;
use std::alloc::AllocError;
use std::iter::FusedIterator;
use std::marker::Model;

/// The keys of a cache with their rectangles in pixels, the most recently used first; from the back, the least recently
/// used first. After the last comes none, for ever.
///
/// A step takes constant time.
#[derive(Drop)]
pub struct Iter<'a> {
    entries: lru::Iter<'a, u64, Entry>,
}

impl<'a> Model for Iter<'a> {
    ghost use Rattle.std.specs.Prelude.{ℕ, List};
    ghost use Rattle.etagere_base.specs.declared.geometry.Rectangle.{Rectangle};
    ghost use Rattle.glyph_shelf.specs.UsedKeys.Private.Stamps.{unstamped};
    ghost use Rattle.glyph_shelf.specs.Cache.{with_rectangles};

    ghost Value = { List (ℕ × Rectangle) };

    ghost view = { λ iter. with_rectangles (unstamped iter.entries) };
}

impl<'a> Iter<'a> {
    /// These entries, the most recently used first.
    pub(crate) fn new(entries: lru::Iter<'a, u64, Entry>) -> Iter<'a>
        ensures { result ≡ with_rectangles (unstamped entries.entry) }
    {
        Iter { entries }
    }
}

impl<'a> Iterator for Iter<'a> {
    type Item = (u64, Rectangle);

    ghost next_gives = { YieldsFirst (λ rest. rest) };

    ghost remaining = { item_count (λ rest. rest) };

    fn next(&mut self) -> Option<(u64, Rectangle)> {
        let (key, entry) = self.entries.next()?;
        Some((*key, entry.allocation.rectangle))
    }

    fn size_hint(&self) -> (usize, Option<usize>) {
        self.entries.size_hint()
    }
}

impl<'a> DoubleEndedIterator for Iter<'a> {
    ghost next_back_gives = { YieldsLast (λ rest. rest) };

    fn next_back(&mut self) -> Option<(u64, Rectangle)> {
        let (key, entry) = self.entries.next_back()?;
        Some((*key, entry.allocation.rectangle))
    }
}

impl<'a> FusedIterator for Iter<'a> {}

impl<'a> Clone for Iter<'a> {
    ghost is_clone = { λ iter other. other ≡ iter };

    fn clone(&self) -> Result<Iter<'a>, AllocError> {
        let entries = self.entries.clone()?;
        Ok(Iter { entries })
    }
}
