//! The keys of a cache with a padding, each with its rectangle without that.
//!
//! Definition: `Padded`. Contracts see an `Iter` as the list of what is still to come.

ghost use Rattle.std.specs.Prelude.{◌≡◌, ℕ, map};
ghost use Rattle.std.specs.Iterator.{YieldsFirst, YieldsLast, item_count};
ghost use Rattle.std.specs.List.{AllByRecursion};
ghost use Rattle.etagere_base.specs.declared.geometry.Rectangle as geometry;
ghost use Rattle.padding.specs.Padding.{IsNear};
ghost use Rattle.padding.specs.Caches.Padded.{trimmed_entry};

use crate::Padding;
use etagere_shelves::Rectangle;
use std::iter::FusedIterator;
use std::marker::Model;

/// The keys of a cache with their rectangles in pixels, without their padding, the most recently used first. After the
/// last comes none, for ever.
///
/// A step takes constant time.
#[derive(Drop)]
pub struct Iter<'a> {
    entries: glyph_shelf::Iter<'a>,
    padding: Padding,
}

impl<'a> Model for Iter<'a> {
    ghost use Rattle.std.specs.Prelude.{ℕ, List};
    ghost use Rattle.etagere_base.specs.declared.geometry.Rectangle.{Rectangle};

    ghost Value = { List (ℕ × Rectangle) };

    ghost use Rattle.padding.specs.Caches.Private.Listed.{AreNear, listed_in};

    ghost view = { listed_in };

    ghost invariant = { AreNear };
}

impl<'a> Iter<'a> {
    /// These keys, of which each rectangle has the padding.
    pub(crate) fn new(entries: glyph_shelf::Iter<'a>, padding: Padding) -> Iter<'a>
        requires { AllByRecursion (λ (entry : ℕ × geometry.Rectangle). IsNear entry.1) entries }
        ensures { result ≡ map (trimmed_entry padding) entries.entry }
    {
        Iter { entries, padding }
    }
}

impl<'a> Iterator for Iter<'a> {
    type Item = (u64, Rectangle);

    ghost next_gives = { YieldsFirst (λ rest. rest) };

    ghost remaining = { item_count (λ rest. rest) };

    fn next(&mut self) -> Option<(u64, Rectangle)> {
        let (key, rectangle) = self.entries.next()?;
        Some((key, self.padding.trimmed(rectangle)))
    }
}

impl<'a> FusedIterator for Iter<'a> {}
