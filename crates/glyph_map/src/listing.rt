//! The keys of a map with their rectangles and values, one by one, from the most to the least recently used.
//!
//! Definition: `Calls`, its `listed`. Contracts see an `Iter` as the list of what is still to come.

ghost use Rattle.std.specs.Prelude.{◌≡◌, length};
ghost use Rattle.std.specs.Iterator.{at_most};
ghost use Rattle.std.specs.Map.Iter.{TakesFirst};
ghost use Rattle.glyph_map.specs.Private.Listed.{deref_seen, seen_both};

use crate::ticketed::Ticketed;
use etagere_shelves::Rectangle;
use std::iter::FusedIterator;
use std::marker::Model;

/// The keys of a map with their rectangles in pixels and their values, the most recently used first. After the last
/// comes none, for ever.
///
/// A step takes constant time.
#[derive(Drop)]
pub struct Iter<'a, K, V> {
    entries: lru::Iter<'a, K, Ticketed<V>>,
    rectangles: glyph_shelf::Iter<'a>,
}

impl<'a, K, V> Model for Iter<'a, K, V> {
    ghost use Rattle.std.specs.Prelude.{List};
    ghost use Rattle.etagere_base.specs.declared.geometry.Rectangle.{Rectangle};

    ghost Value = { List (K × Rectangle × V) };

    ghost use Rattle.glyph_map.specs.Private.Listed.{AreAsLong, left_in};

    ghost view = { left_in };

    ghost invariant = { AreAsLong };
}

impl<'a, K, V> Iter<'a, K, V> {
    /// These entries, each with a rectangle of these.
    pub(crate) fn new(
        entries: lru::Iter<'a, K, Ticketed<V>>,
        rectangles: glyph_shelf::Iter<'a>,
    ) -> Iter<'a, K, V>
        requires { length entries ≡ length rectangles }
        ensures { result ≡ seen_both entries.entry rectangles.entry }
    {
        Iter {
            entries,
            rectangles,
        }
    }
}

impl<'a, K, V> Iterator for Iter<'a, K, V> {
    type Item = (&'a K, Rectangle, &'a V);

    ghost next_gives = { TakesFirst deref_seen };

    ghost remaining = { λ rest. at_most (length rest) };

    fn next(&mut self) -> Option<(&'a K, Rectangle, &'a V)> {
        let (key, entry) = self.entries.next()?;
        let Some((_, rectangle)) = self.rectangles.next() else {
            unreachable!()
        };
        Some((key, rectangle, &entry.value))
    }
}

impl<'a, K, V> FusedIterator for Iter<'a, K, V> {}
