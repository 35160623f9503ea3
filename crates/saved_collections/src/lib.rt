//! What keeps rectangles over atlases, as JSON text: `caches` for a cache of glyph places, `pages` for several pages.
#![tactic(auto)]

pub mod caches;
pub mod pages;
