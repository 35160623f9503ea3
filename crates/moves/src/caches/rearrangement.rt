//! What a rearrangement of a cache answers.

use etagere_shelves::Rectangle;
use glyph_shelf::GlyphCache;

/// A key that found a place in the new atlas.
#[derive(Clone, Copy, Debug, PartialEq, Eq)]
pub struct KeyMove {
    pub key: u64,
    /// Its rectangle in the old atlas, in pixels.
    pub before: Rectangle,
    /// Its rectangle in the new atlas, which is at least as wide and as tall as the old one.
    pub after: Rectangle,
}

/// A key that found no place in the new atlas.
#[derive(Clone, Copy, Debug, PartialEq, Eq)]
pub struct UnplacedKey {
    pub key: u64,
    /// Its rectangle in the old atlas, in pixels.
    pub rectangle: Rectangle,
}

/// A new cache, and which keys of an old one lie where in it.
#[derive(Drop)]
pub struct RearrangedCache {
    /// The new cache: the keys that moved, in the old order of use. No frame has begun.
    pub cache: GlyphCache,
    /// The keys that moved, the tallest first, and of equally tall ones that of the least id in the old atlas.
    pub moves: Vec<KeyMove>,
    /// The keys that found no place, and so aren't in the new cache, in the same order.
    pub unplaced: Vec<UnplacedKey>,
}
